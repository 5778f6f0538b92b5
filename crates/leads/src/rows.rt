// Triangles and half-edges, as the words of a line write them.
use base::ids::{HalfEdgeId, VertexId};
use described::rows::{TriangleRow, short};

// The boundary has a word of its own here. A reader of codes handed in as a closure would have to be asked for, and no library function asks.
pub(crate) fn triangle_row(words: &[&str]) -> Option<TriangleRow> {
    let [c0, c1, c2, a0, a1, a2] = words else {
        return None;
    };
    Some(TriangleRow {
        corners: [vertex(*c0)?, vertex(*c1)?, vertex(*c2)?],
        across: [code_across(*a0)?, code_across(*a1)?, code_across(*a2)?],
    })
}

fn vertex(word: &str) -> Option<VertexId> {
    short(word).map(VertexId)
}

pub(crate) fn half_edge(word: &str) -> Option<HalfEdgeId> {
    short(word).map(HalfEdgeId)
}

// A half-edge, or `-` for the boundary.
fn code_across(word: &str) -> Option<HalfEdgeId> {
    match word {
        "-" => Some(HalfEdgeId::BOUNDARY),
        _ => half_edge(word),
    }
}
