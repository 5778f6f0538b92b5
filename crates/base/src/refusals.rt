// Why a call refuses. One enum for the whole product; its numbers and places are defined in specs/Refusals.
ghost use Rattle.std.specs.Prelude.{◌≡◌};
ghost use Rattle.base.specs.Refusals.{number, place};

use crate::ids::{HalfEdgeId, TriangleId, VertexId};
use std::error::Error;
use std::fmt;

#[derive(Clone, Copy, PartialEq, Eq, Debug)]
pub enum Axis {
    X,
    Y,
}

#[derive(Clone, Copy, PartialEq, Eq, Debug)]
pub enum SheetParameter {
    Columns,
    Rows,
    Pitch,
}

// After a refusal everything is as it was before the call.
#[derive(Clone, Copy, PartialEq, Eq, Debug)]
pub enum Refusal {
    // The supplier of the mesh.
    MeshLimits,
    PointRange {
        axis: Axis,
    },
    VertexRange {
        vertex: VertexId,
    },
    CornerRange {
        corner: HalfEdgeId,
    },
    TriangleTurn {
        triangle: TriangleId,
    },
    TwinMismatch {
        side: HalfEdgeId,
    },
    ClosedFan {
        corner: HalfEdgeId,
        vertex: VertexId,
    },
    FullTurn {
        corner: HalfEdgeId,
        vertex: VertexId,
    },
    SheetRange {
        parameter: SheetParameter,
    },
    NoPortal {
        side: HalfEdgeId,
    },
    BarsFull,
    // Whoever draws.
    NoStart,
    NoTriangle {
        triangle: TriangleId,
    },
    TerminalOutside {
        triangle: TriangleId,
    },
    NoSide {
        side: u8,
    },
    BoundarySide {
        side: HalfEdgeId,
    },
    RouteFull,
    // Whoever hands in memory.
    OutputShort {
        needed: usize,
    },
    WorkingShort {
        needed: usize,
    },
    ListFull {
        size: usize,
    },
}

impl Refusal {
    // The number by which the refusal is known.
    pub fn number(self) -> u8
        ensures { result ≡ number self }
    {
        match self {
            Refusal::MeshLimits => 1,
            Refusal::PointRange { axis: _ } => 2,
            Refusal::VertexRange { vertex: _ } => 2,
            Refusal::CornerRange { corner: _ } => 3,
            Refusal::TriangleTurn { triangle: _ } => 4,
            Refusal::TwinMismatch { side: _ } => 5,
            Refusal::ClosedFan {
                corner: _,
                vertex: _,
            } => 6,
            Refusal::FullTurn {
                corner: _,
                vertex: _,
            } => 7,
            Refusal::SheetRange { parameter: _ } => 8,
            Refusal::NoPortal { side: _ } => 9,
            Refusal::BarsFull => 10,
            Refusal::NoStart => 11,
            Refusal::NoTriangle { triangle: _ } => 12,
            Refusal::TerminalOutside { triangle: _ } => 13,
            Refusal::NoSide { side: _ } => 14,
            Refusal::BoundarySide { side: _ } => 15,
            Refusal::RouteFull => 16,
            Refusal::OutputShort { needed: _ } => 17,
            Refusal::WorkingShort { needed: _ } => 18,
            Refusal::ListFull { size: _ } => 19,
        }
    }

    // What the refusal points at: a number of the thing that is wrong, or how many places are needed.
    pub fn place(self) -> usize
        ensures { result ≡ place self }
    {
        match self {
            Refusal::MeshLimits => 0,
            Refusal::PointRange { axis } => axis as usize,
            Refusal::VertexRange { vertex } => vertex.0 as usize,
            Refusal::CornerRange { corner } => corner.0 as usize,
            Refusal::TriangleTurn { triangle } => triangle.0 as usize,
            Refusal::TwinMismatch { side } => side.0 as usize,
            Refusal::ClosedFan { corner, vertex: _ } => corner.0 as usize,
            Refusal::FullTurn { corner, vertex: _ } => corner.0 as usize,
            Refusal::SheetRange { parameter } => parameter as usize,
            Refusal::NoPortal { side } => side.0 as usize,
            Refusal::BarsFull => 64,
            Refusal::NoStart => 0,
            Refusal::NoTriangle { triangle } => triangle.0 as usize,
            Refusal::TerminalOutside { triangle } => triangle.0 as usize,
            Refusal::NoSide { side } => side as usize,
            Refusal::BoundarySide { side } => side.0 as usize,
            Refusal::RouteFull => 2048,
            Refusal::OutputShort { needed } => needed,
            Refusal::WorkingShort { needed } => needed,
            Refusal::ListFull { size } => size,
        }
    }

    // What is wrong, in words that need no number; of the two faults of a fan, what the triangles round its vertex do.
    fn words(self) -> &'static str {
        match self {
            Refusal::MeshLimits =>
                "a mesh has 1 to 4096 triangles, 3 to 8192 vertices, and three corners and three codes across for each triangle",
            Refusal::PointRange { axis: Axis::X } => "a part of x is not from -10000 to 10000",
            Refusal::PointRange { axis: Axis::Y } => "a part of y is not from -10000 to 10000",
            Refusal::VertexRange { vertex: _ } =>
                "a coordinate of this vertex is not from -10000 to 10000",
            Refusal::CornerRange { corner: _ } =>
                "this corner names a vertex that the mesh does not have",
            Refusal::TriangleTurn { triangle: _ } =>
                "the corners of this triangle do not turn left",
            Refusal::TwinMismatch { side: _ } =>
                "this side and the side across it do not name each other and share their ends",
            Refusal::ClosedFan {
                corner: _,
                vertex: _,
            } => "close up and never reach the boundary",
            Refusal::FullTurn {
                corner: _,
                vertex: _,
            } => "turn all the way round it",
            Refusal::SheetRange {
                parameter: SheetParameter::Columns,
            } => "a sheet has at most 25 columns of holes",
            Refusal::SheetRange {
                parameter: SheetParameter::Rows,
            } => "a sheet has at most 25 rows of holes",
            Refusal::SheetRange {
                parameter: SheetParameter::Pitch,
            } => "the pitch of a sheet is from 3 to 100",
            Refusal::NoPortal { side: _ } => "this side is no portal, so there is nothing to bar",
            Refusal::BarsFull => "64 bars stand already",
            Refusal::NoStart => "the lead has not been started",
            Refusal::NoTriangle { triangle: _ } => "the mesh has no such triangle",
            Refusal::TerminalOutside { triangle: _ } =>
                "the terminal does not lie strictly inside this triangle",
            Refusal::NoSide { side: _ } => "a triangle has sides 0, 1 and 2",
            Refusal::BoundarySide { side: _ } =>
                "this side is boundary, there is nothing behind it",
            Refusal::RouteFull => "the lead passes through 2048 portals already",
            Refusal::OutputShort { needed: _ } =>
                "too few places for the answer; this many are needed",
            Refusal::WorkingShort { needed: _ } =>
                "too little working memory; this many places are needed",
            Refusal::ListFull { size: _ } => "the list is full",
        }
    }
}

// By hand: number and place are those of the one definition, and no text repeats them.
impl fmt::Display for Refusal {
    fn fmt<W: fmt::Write>(&self, f: &mut fmt::Formatter<W>) -> fmt::Result {
        let number = self.number();
        let place = self.place();
        let words = self.words();
        match *self {
            Refusal::ClosedFan { corner: _, vertex } | Refusal::FullTurn { corner: _, vertex } => {
                let vertex = vertex.0;
                write!(
                    f,
                    "refused {number} at {place}: the triangles round vertex {vertex} {words}"
                )
            }
            _ => write!(f, "refused {number} at {place}: {words}"),
        }
    }
}

impl Error for Refusal {}
