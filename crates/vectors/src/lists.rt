// Meshes as the lines of a case write them.
ghost use Rattle.std.specs.Prelude.{◌≡◌, ◌++◌, All, map, length, IfNone, IfSome, MatchOption};
ghost use Rattle.described.specs.declared.rows.Kind.{Kind};
ghost use Rattle.described.specs.Rows.{Is16, number16};
ghost use Rattle.vectors.specs.Kinds.{Names};

use crate::reader::Lines;
use base::ids::{HalfEdgeId, VertexId};
use described::lists::Vertices;
use described::rows::{Kind, PointRow, TriangleRow, short};
use std::alloc::Global;

// The kind that a word of a file names. A function: what `FromStr` of a kind reads are the words of a script.
pub fn kind_of(word: &str) -> Option<Kind>
    ensures { MatchOption result ((kind : Kind) → ¬ (Names word.now kind)) (λ kind. Names word.now kind) }
{
    match word {
        "whole" => Some(Kind::Integer),
        "lattice" => Some(Kind::Quadratic),
        _ => None,
    }
}

// The kind of a table, and its numbers of triangles and of vertices.
#[derive(Clone, Copy)]
pub(crate) struct Size {
    pub(crate) kind: Kind,
    pub(crate) triangles: usize,
    pub(crate) vertices: usize,
}

impl Size {
    // `None` and no error: only the line knows its number.
    pub(crate) fn parse(words: &[&str]) -> Option<Size> {
        let [kind, triangles, vertices] = words else {
            return None;
        };
        Some(Size {
            kind: kind_of(*kind)?,
            triangles: count(*triangles)?,
            vertices: count(*vertices)?,
        })
    }
}

pub(crate) fn count(word: &str) -> Option<usize> {
    word.parse::<usize>().ok()
}

// So many `point` lines.
pub fn read_vertices(
    heap: Global,
    lines: &mut Lines,
    count: usize,
    vertices: &mut Vertices,
) -> anyhow::Result<()> {
    let kind = vertices.kind();
    let expected = match kind {
        Kind::Integer => "point and two whole numbers",
        Kind::Quadratic => "point and four whole numbers",
    };
    for _ in 0..count {
        let line = lines.next_after("point")?;
        vertices.push(line.read(heap, |words| PointRow::parse(kind, words), expected)?)?;
    }
    Ok(())
}

pub fn triangle_row(words: &[&str]) -> Option<TriangleRow>
    ensures some { IfSome result (λ row. map (λ w. number16 w.now) words.now ≡ map (λ v. v.0) row.corners ++ map (λ h. h.0) row.across) }
    ensures none { IfNone result (¬ ((length words.now ≡ 6) × All (λ w. Is16 w.now) words.now)) }
{
    let [c0, c1, c2, a0, a1, a2] = words else {
        return None;
    };
    Some(TriangleRow {
        corners: [
            VertexId(short(*c0)?),
            VertexId(short(*c1)?),
            VertexId(short(*c2)?),
        ],
        across: [
            HalfEdgeId(short(*a0)?),
            HalfEdgeId(short(*a1)?),
            HalfEdgeId(short(*a2)?),
        ],
    })
}
