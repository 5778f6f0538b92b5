// Meshes: whatever answers for a surface. One reads lent lists, one computes a perforated sheet, and two are layers over any other.
#![tactic(auto)]

ghost use Rattle.std.specs.Prelude.{◌≡◌};
ghost use Rattle.mesh.specs.Surface.{Surface};
ghost use Rattle.surfaces.specs.Lawful.{Lawful, CornersOf};

use base::ids::{HalfEdgeId, TriangleId, VertexId};
use geometry::kinds::PointKind;

pub mod bars;
pub mod indexed;
pub mod laws;
mod lists;
pub mod mirrors;
pub mod samples;
pub mod sheets;

// Every question has an answer: past the end it is vertex 0, the origin and boundary.
pub trait Mesh {
    type Point: PointKind;

    // The surface that the mesh means.
    ghost surface: { Self → Surface };

    // It is sound and within the limits.
    ghost sound: { (m : Self) → Lawful (surface m) };

    fn triangles(&self) -> u16
        ensures { result ≡ (surface self.now).F };

    fn vertices(&self) -> u16
        ensures { result ≡ (surface self.now).V };

    // The vertices at the three corners of a triangle.
    fn corners(&self, t: TriangleId) -> [VertexId; 3]
        ensures { CornersOf (surface self.now) t result };

    fn point(&self, v: VertexId) -> Self::Point
        ensures { Self.Point.PointKind.at result ≡ (surface self.now).point v };

    // The half-edge across a side, unless the side is boundary.
    fn twin(&self, h: HalfEdgeId) -> Option<HalfEdgeId>
        ensures { result ≡ (surface self.now).twin h };
}
