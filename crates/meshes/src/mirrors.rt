// The mirror image of a mesh: the sign of x changes, and corners 1 and 2 of every triangle are exchanged so that it turns left again.
ghost use Rattle.std.specs.Prelude.{◌≡◌};
ghost use Rattle.surfaces.specs.Layers.{mirrored};
ghost use Rattle.surfaces.proofs.MirroredLawful.{mirrored_lawful};

use crate::Mesh;
use base::ids::{HalfEdgeId, TriangleId, VertexId};
use geometry::kinds::PointKind;

#[derive(Drop)]
pub struct Mirrored<M: Mesh> {
    below: M,
}

impl<M: Mesh> Mirrored<M> {
    pub fn new(below: M) -> Mirrored<M>
        ensures { result.below ≡ below }
    {
        Mirrored { below }
    }
}

impl<M: Mesh> Mesh for Mirrored<M> {
    type Point = M::Point;

    ghost surface = { λ m. mirrored (M.Mesh.surface m.below) };

    ghost sound = { λ m. mirrored_lawful (M.Mesh.surface m.below) (M.Mesh.sound m.below) };

    fn triangles(&self) -> u16 {
        self.below.triangles()
    }

    fn vertices(&self) -> u16 {
        self.below.vertices()
    }

    fn corners(&self, t: TriangleId) -> [VertexId; 3] {
        let [first, second, third] = self.below.corners(t);
        [first, third, second]
    }

    fn point(&self, v: VertexId) -> M::Point {
        self.below.point(v).mirrored()
    }

    fn twin(&self, h: HalfEdgeId) -> Option<HalfEdgeId> {
        let d = self.below.twin(h.mirrored_side())?;
        Some(d.mirrored_side())
    }
}
