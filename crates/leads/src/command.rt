// The commands of a script, one to a line.
use crate::rows::{half_edge, triangle_row};
use crate::stop::Stop;
use base::ids::HalfEdgeId;
use base::refusals::Refusal;
use described::rows::{Kind, PointRow, TriangleRow, sheet_of};
use meshes::sheets::PerforatedSheet;
use std::alloc::Global;

#[derive(Clone, Copy)]
pub enum Command {
    Pass,
    SetKind(Kind),
    AddPoint(PointRow),
    Measure,
    BeginMesh(Kind),
    AddVertex(PointRow),
    AddTriangle(TriangleRow),
    Check,
    Sheet(Result<PerforatedSheet, Refusal>),
    Mirror,
    Bar(HalfEdgeId),
    Show,
}

// The kind of the row of points, and that of the mesh that is described, if one is.
#[derive(Clone, Copy)]
pub struct Kinds {
    pub row: Kind,
    pub mesh: Option<Kind>,
}

// A line that is no command says what was expected in its place.
pub(crate) fn parse(heap: Global, line: &str, kinds: Kinds) -> Result<Command, Stop> {
    let words: Vec<&str> = line.split_whitespace().collect(heap)?;
    command_of(words.as_slice(), kinds).map_err(Stop::Expected)
}

fn command_of(words: &[&str], kinds: Kinds) -> Result<Command, &'static str> {
    let [name, arguments @ ..] = words else {
        return Ok(Command::Pass);
    };
    let name: &str = *name;
    if name.starts_with('#') {
        return Ok(Command::Pass);
    }
    // Each command has words of its own after its name, so each has an arm of its own.
    match name {
        "kind" => kind_of(arguments)
            .map(Command::SetKind)
            .ok_or("kind integer or kind quadratic"),
        "point" => add_point(arguments, kinds.row),
        "measure" => alone(arguments, Command::Measure, "measure with nothing after it"),
        "mesh" => kind_of(arguments)
            .map(Command::BeginMesh)
            .ok_or("mesh integer or mesh quadratic"),
        "vertex" | "triangle" | "check" => {
            let kind = kinds.mesh.ok_or(
                "mesh integer or mesh quadratic before the first of its lines",
            )?;
            describe(name, arguments, kind)
        }
        _ => on_a_mesh(name, arguments),
    }
}

// The commands that make the current mesh without lists, or work on it; each has words of its own.
fn on_a_mesh(name: &str, arguments: &[&str]) -> Result<Command, &'static str> {
    match name {
        "sheet" => sheet_of(arguments)
            .map(Command::Sheet)
            .ok_or("sheet A B G with three whole numbers from 0 to 65535"),
        "mirror" => alone(arguments, Command::Mirror, "mirror with nothing after it"),
        "bar" => bar(arguments),
        "show" => alone(arguments, Command::Show, "show with nothing after it"),
        _ => Err(
            "one of the commands kind, point, measure, mesh, vertex, triangle, check, sheet, mirror, bar and show",
        ),
    }
}

// The lines of a mesh that has been begun; each has words of its own.
fn describe(name: &str, arguments: &[&str], kind: Kind) -> Result<Command, &'static str> {
    match name {
        "vertex" => add_vertex(arguments, kind),
        "triangle" => triangle_row(arguments).map(Command::AddTriangle).ok_or(
            "triangle C0 C1 C2 A0 A1 A2 with whole numbers from 0 to 65535, and - across the boundary",
        ),
        _ => alone(arguments, Command::Check, "check with nothing after it"),
    }
}

fn alone(
    arguments: &[&str],
    command: Command,
    expected: &'static str,
) -> Result<Command, &'static str> {
    match arguments {
        [] => Ok(command),
        _ => Err(expected),
    }
}

fn kind_of(arguments: &[&str]) -> Option<Kind> {
    match arguments {
        [word] => word.parse::<Kind>().ok(),
        _ => None,
    }
}

// The numbers of a point, or the form that a row of its kind has.
fn point_row(
    arguments: &[&str],
    kind: Kind,
    integer: &'static str,
    quadratic: &'static str,
) -> Result<PointRow, &'static str> {
    PointRow::parse(kind, arguments).ok_or(match kind {
        Kind::Integer => integer,
        Kind::Quadratic => quadratic,
    })
}

fn add_point(arguments: &[&str], kind: Kind) -> Result<Command, &'static str> {
    point_row(
        arguments,
        kind,
        "point X Y with two whole numbers of 32 bits",
        "point XP XQ YP YQ with four whole numbers of 32 bits",
    )
    .map(Command::AddPoint)
}

fn add_vertex(arguments: &[&str], kind: Kind) -> Result<Command, &'static str> {
    point_row(
        arguments,
        kind,
        "vertex X Y with two whole numbers of 32 bits",
        "vertex XP XQ YP YQ with four whole numbers of 32 bits",
    )
    .map(Command::AddVertex)
}

fn bar(arguments: &[&str]) -> Result<Command, &'static str> {
    match arguments {
        [word] => half_edge(*word),
        _ => None,
    }
    .map(Command::Bar)
    .ok_or("bar CODE with a whole number from 0 to 65535")
}
