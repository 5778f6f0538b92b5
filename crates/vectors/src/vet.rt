// The vetting cases: lists that may be a mesh, points that may be out of range, sheets.
use crate::answer::{Accepted, Answer, Refused, compare, verdict};
use crate::lists::{Size, count, kind_of, read_vertices};
use crate::reader::{Case, Line, Lines};
use crate::report::Outcome;
use base::ids::{HalfEdgeId, VertexId};
use described::lists::Described;
use described::rows::{Kind, quadratic_row, sheet_of, short};
use geometry::kinds::PointKind;
use geometry::{IntegerPoint, IntegerRow, QuadraticPoint};
use std::alloc::Global;

pub fn run(heap: Global, case: &Case) -> anyhow::Result<Outcome> {
    let mut lines = case.lines();
    let line = lines.next_line("table, makepoint, sheet or packed")?;
    let (name, rest) = line.first_word();
    match name {
        "table" => table(heap, rest, &mut lines),
        "makepoint" => make_point(heap, rest, &mut lines),
        "sheet" => sheet(heap, rest, &mut lines),
        "packed" => Ok(Outcome::Skipped),
        _ => Err(line.malformed("table, makepoint, sheet or packed").into()),
    }
}

// The size of a table, and the lengths of its other lists.
#[derive(Clone, Copy)]
struct Shape {
    size: Size,
    corners: usize,
    across: usize,
}

impl Shape {
    // `None` and no error: only the line knows its number.
    fn parse(words: &[&str]) -> Option<Shape> {
        let [size @ .., corners, across] = words else {
            return None;
        };
        Some(Shape {
            size: Size::parse(size)?,
            corners: count(*corners)?,
            across: count(*across)?,
        })
    }
}

fn table(heap: Global, head: Line, lines: &mut Lines) -> anyhow::Result<Outcome> {
    let shape = head.read(heap, Shape::parse, "a kind and four sizes")?;
    let size = shape.size;
    let mut table = Described::new(heap, size.kind);
    table.triangles = size.triangles;
    read_vertices(heap, lines, size.vertices, &mut table.vertices)?;
    let line = lines.next_after("corners")?;
    table.corners = list(heap, line, VertexId, "corners from 0 to 65535")?;
    if table.corners.len() != shape.corners {
        return Err(line.malformed("as many corners as the table has").into());
    }
    let line = lines.next_after("across")?;
    table.across = list(heap, line, HalfEdgeId, "codes across from 0 to 65535")?;
    if table.across.len() != shape.across {
        return Err(
            line.malformed("as many codes across as the table has")
                .into(),
        );
    }
    compare(heap, lines, verdict(&table))
}

// What the numbers of a line name.
fn list<T: Drop, F: Fn(u16) -> T>(
    heap: Global,
    line: Line,
    named: F,
    expected: &'static str,
) -> anyhow::Result<Vec<T>>
    requires { F.IsAlwaysCallable named }
{
    let mut list = Vec::new(heap);
    for word in line.text.split_whitespace() {
        let number = short(word).ok_or(line.malformed(expected))?;
        list.push(named(number))?;
    }
    Ok(list)
}

// All four numbers stand on the line for either kind; whole points have no second parts.
fn point_made(words: &[&str]) -> Option<Answer> {
    let [kind, numbers @ ..] = words else {
        return None;
    };
    let row = quadratic_row(numbers)?;
    match kind_of(*kind)? {
        Kind::Integer => Some(made::<IntegerPoint>(IntegerRow {
            x: row.xp,
            y: row.yp,
        })),
        Kind::Quadratic => Some(made::<QuadraticPoint>(row)),
    }
}

fn made<P: PointKind>(row: P::Row) -> Answer {
    P::make(row)?;
    Ok(Accepted::Made)
}

fn make_point(heap: Global, head: Line, lines: &mut Lines) -> anyhow::Result<Outcome> {
    let answer = head.read(heap, point_made, "a kind and four whole numbers")?;
    compare(heap, lines, answer)
}

fn sheet(heap: Global, head: Line, lines: &mut Lines) -> anyhow::Result<Outcome> {
    let made = head.read(heap, sheet_of, "three sizes")?;
    let answer = made.map(|_| Accepted::Sound).map_err(Refused::from);
    compare(heap, lines, answer)
}
