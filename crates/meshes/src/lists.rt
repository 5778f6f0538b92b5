// Reading lent lists; past its end a list answers vertex 0 and boundary.
ghost use Rattle.std.specs.Prelude.{◌≡◌, ◌+◌, ◌*◌, slice_index_or};
ghost use Rattle.base.specs.Ids.{vertex, boundary, leads};

use base::ids::{HalfEdgeId, TriangleId, VertexId};

// The vertex at a place of a list of corners.
fn vertex_at(corners: &[VertexId], place: usize) -> VertexId
    ensures { result ≡ slice_index_or corners.now place (vertex 0) }
{
    corners.get(place).copied().unwrap_or(VertexId(0))
}

// The vertices at the three corners of a triangle.
pub fn corners_at(corners: &[VertexId], t: TriangleId) -> [VertexId; 3]
    ensures first { slice_index_or result 0 (vertex 0) ≡ slice_index_or corners.now (3 * t.0 + 0) (vertex 0) }
    ensures second { slice_index_or result 1 (vertex 0) ≡ slice_index_or corners.now (3 * t.0 + 1) (vertex 0) }
    ensures third { slice_index_or result 2 (vertex 0) ≡ slice_index_or corners.now (3 * t.0 + 2) (vertex 0) }
{
    let place = 3 * t.0 as usize;
    [
        vertex_at(corners, place),
        vertex_at(corners, place + 1),
        vertex_at(corners, place + 2),
    ]
}

// What is written across a side.
pub fn twin_at(across: &[HalfEdgeId], h: HalfEdgeId) -> Option<HalfEdgeId>
    ensures { result ≡ leads (slice_index_or across.now h.0 boundary) }
{
    across.get(h.place())?.leads()
}
