// The portals of crossings, as a mesh shows them.
ghost use Rattle.std.specs.Prelude.{◌≡◌};
ghost use Rattle.walks.specs.Walks.{portal_of};
ghost use Rattle.funnel.specs.Corners.{portal_meant};

use crate::{Corner, Portal};
use base::ids::VertexId;
use meshes::Mesh;
use taut::Side;
use words::sorts::Crossing;

// A vertex on a side, with the point that the mesh has for it.
fn corner_at<M: Mesh>(mesh: &M, side: Side, vertex: VertexId) -> Corner<M::Point>
    ensures vertex { result.vertex ≡ vertex }
    ensures point { M.Point.PointKind.at result.point ≡ (M.surface mesh.now).point vertex }
{
    Corner {
        vertex,
        side,
        point: mesh.point(vertex),
    }
}

// The portal that a crossing passes: its left end is the corner after the half-edge left, its right end the corner of that half-edge.
pub fn portal_of<M: Mesh>(mesh: &M, crossing: Crossing) -> Portal<M::Point>
    ensures { portal_meant M.Point.PointKind.at result ≡ portal_of (M.surface mesh.now) crossing }
{
    let [first, second, third] = mesh.corners(crossing.left.triangle());
    let (right, left) = match crossing.left.index() {
        0 => (first, second),
        1 => (second, third),
        _ => (third, first),
    };
    Portal {
        left: corner_at(mesh, Side::Left, left),
        right: corner_at(mesh, Side::Right, right),
    }
}
