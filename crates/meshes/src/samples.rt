// The sheet with one hole and the pitch 10, asked by calls; and layers that pile up.
ghost use Rattle.std.specs.Prelude.{◌≡◌, Some, None, slice_index_or};
ghost use Rattle.base.specs.Ids.{vertex, half_edge};

use crate::Mesh;
use crate::bars::Barred;
use crate::mirrors::Mirrored;
use crate::sheets::PerforatedSheet;
use base::ids::{HalfEdgeId, TriangleId, VertexId};

// That sheet.
fn small_sheet() -> PerforatedSheet
    ensures columns { result.columns ≡ 1 }
    ensures rows { result.rows ≡ 1 }
    ensures pitch { result.pitch ≡ 10 }
{
    PerforatedSheet::new(1, 1, 10).unwrap()
}

// Its triangles and its vertices.
pub fn small_counts() -> (u16, u16)
    ensures { (result.0 ≡ 16) × (result.1 ≡ 16) }
{
    let sheet = small_sheet();
    (sheet.triangles(), sheet.vertices())
}

// The corners of triangle 3.
pub fn small_corners() -> [VertexId; 3]
    ensures { (slice_index_or result 0 (vertex 0) ≡ vertex 1) × (slice_index_or result 1 (vertex 0) ≡ vertex 6) × (slice_index_or result 2 (vertex 0) ≡ vertex 5) }
{
    small_sheet().corners(TriangleId(3))
}

// The half-edge across half-edge 1.
pub fn small_twin() -> Option<HalfEdgeId>
    ensures { result ≡ Some (half_edge 11) }
{
    small_sheet().twin(HalfEdgeId(1))
}

// The same portal in the mirror image, and after a bar on its other side.
pub fn piled_up() -> (Option<HalfEdgeId>, Option<HalfEdgeId>)
    ensures { (result.0 ≡ Some (half_edge 9)) × (result.1 ≡ None) }
{
    let mut mesh = Barred::new(Mirrored::new(small_sheet()));
    let before = mesh.twin(HalfEdgeId(1));
    let _ = mesh.bar(HalfEdgeId(9));
    (before, mesh.twin(HalfEdgeId(1)))
}
