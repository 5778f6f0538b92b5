// A sheet of square cells with square holes, by formula: nothing is stored but the numbers of columns and rows of holes and the pitch.
ghost use Rattle.std.specs.Prelude.{◌≡◌, ◌+◌, ◌-◌, ◌*◌, ◌<◌, ◌≤◌, pos, IfOk, cond, Some, None};
ghost use Rattle.std.specs.Option.{option_map};
ghost use Rattle.base.specs.Refusals.{refusal};
ghost use Rattle.surfaces.specs.Sheet.{cell, kept, numbered, cells, edge, code, opposite, beyond, grid_vertex, sheet, sheet_refusal, bottom, left};
ghost use Rattle.surfaces.proofs.SheetLawful.{sheet_lawful};

use crate::Mesh;
use base::ids::{HalfEdgeId, TriangleId, VertexId};
use base::refusals::{Refusal, SheetParameter};
use geometry::IntegerPoint;
use geometry::kinds::Origin;

// The largest number of columns, and of rows.
const HOLES: u16 = 25;

const NARROW: u16 = 3;

const WIDE: u16 = 100;

// The half-edges of a cell: three of its lower triangle, then three of its upper one. Down and up are the two halves of the diagonal.
#[derive(Clone, Copy, PartialEq, Eq, Debug)]
enum Edge {
    Bottom,
    Right,
    Down,
    Up,
    Top,
    Left,
}

impl Edge {
    ghost use Rattle.meshes.specs.Cells.{edge_of};

    // The half-edge with this number in its cell.
    fn of(n: u16) -> Edge
        ensures { edge_of result ≡ edge n }
    {
        match n {
            0 => Edge::Bottom,
            1 => Edge::Right,
            2 => Edge::Down,
            3 => Edge::Up,
            4 => Edge::Top,
            _ => Edge::Left,
        }
    }

    // The one that runs the other way on the same side of the square.
    fn opposite(self) -> Edge
        ensures { edge_of result ≡ opposite (edge_of self) }
    {
        match self {
            Edge::Bottom => Edge::Top,
            Edge::Right => Edge::Left,
            Edge::Down => Edge::Up,
            Edge::Up => Edge::Down,
            Edge::Top => Edge::Bottom,
            Edge::Left => Edge::Right,
        }
    }
}

#[derive(Clone, Copy, PartialEq, Eq, Debug)]
pub struct PerforatedSheet {
    columns: u16,
    rows: u16,
    pitch: u16,
    ghost few_columns: { columns ≤ 25 },
    ghost few_rows: { rows ≤ 25 },
    ghost not_narrow: { 3 ≤ pitch },
    ghost not_wide: { pitch ≤ 100 },
}

// A square of the grid, or the vertex at its lower left corner.
#[derive(Clone, Copy, PartialEq, Eq, Debug)]
struct Square {
    column: u16,
    row: u16,
    ghost column_within: { column ≤ 51 },
    ghost row_within: { row ≤ 51 },
}

// A square of the sheet has one on its right and one above it in the grid; each step there asks for that, since the grid ends behind them.
impl Square {
    ghost use Rattle.meshes.specs.Cells.{edge_of, cell_of};

    // The square on its right.
    fn right(self) -> Square
        requires { self.column ≤ 50 }
        ensures column { result.column ≡ self.column + 1 }
        ensures row { result.row ≡ self.row }
    {
        Square {
            column: self.column + 1,
            row: self.row,
        }
    }

    // The square above it.
    fn above(self) -> Square
        requires { self.row ≤ 50 }
        ensures column { result.column ≡ self.column }
        ensures row { result.row ≡ self.row + 1 }
    {
        Square {
            column: self.column,
            row: self.row + 1,
        }
    }

    // The square on its left, if the grid has one there.
    fn left(self) -> Option<Square>
        ensures { option_map cell_of result ≡ beyond (cell_of self) left }
    {
        Some(Square {
            column: self.column.checked_sub(1)?,
            row: self.row,
        })
    }

    // The square below it, if the grid has one there.
    fn below(self) -> Option<Square>
        ensures { option_map cell_of result ≡ beyond (cell_of self) bottom }
    {
        Some(Square {
            column: self.column,
            row: self.row.checked_sub(1)?,
        })
    }

    // The square across a half-edge, if the grid has one there.
    fn beyond(self, edge: Edge) -> Option<Square>
        requires column { self.column ≤ 50 }
        requires row { self.row ≤ 50 }
        ensures { option_map cell_of result ≡ beyond (cell_of self) (edge_of edge) }
    {
        match edge {
            Edge::Bottom => self.below(),
            Edge::Right => Some(self.right()),
            Edge::Down | Edge::Up => Some(self),
            Edge::Top => Some(self.above()),
            Edge::Left => self.left(),
        }
    }
}

impl PerforatedSheet {
    ghost use Rattle.meshes.specs.Cells.{edge_of, cell_of};

    pub fn new(columns: u16, rows: u16, pitch: u16) -> Result<PerforatedSheet, Refusal>
        ensures verdict { refusal result ≡ sheet_refusal columns rows pitch }
        ensures parts { IfOk result (λ s. (s.columns ≡ columns) × (s.rows ≡ rows) × (s.pitch ≡ pitch)) }
    {
        if columns > HOLES {
            return Err(Refusal::SheetRange {
                parameter: SheetParameter::Columns,
            });
        }
        if rows > HOLES {
            return Err(Refusal::SheetRange {
                parameter: SheetParameter::Rows,
            });
        }
        if !(NARROW..=WIDE).contains(&pitch) {
            return Err(Refusal::SheetRange {
                parameter: SheetParameter::Pitch,
            });
        }
        Ok(PerforatedSheet {
            columns,
            rows,
            pitch,
        })
    }

    // How many cells are kept.
    fn cells(&self) -> u16
        ensures count { result ≡ cells self.now.columns self.now.rows }
        ensures few { result ≤ 1976 }
    {
        self.rows * (3 * self.columns + 2) + (2 * self.columns + 1)
    }

    // The square of the kept cell with this number.
    fn square(&self, number: u16) -> Square
        requires { number < cells self.now.columns self.now.rows }
        ensures is { cell_of result ≡ numbered self.now.columns number }
        ensures column { result.column ≤ 50 }
        ensures row { result.row ≤ 50 }
    {
        let pair = 3 * self.columns + 2;
        let even = 2 * self.columns + 1;
        let place = number % pair;
        if place < even {
            Square {
                column: place,
                row: 2 * (number / pair),
            }
        } else {
            Square {
                column: 2 * (place - even),
                row: 2 * (number / pair) + 1,
            }
        }
    }

    // A half-edge of a square, if the sheet keeps that square.
    fn half_edge(&self, square: Square, edge: Edge) -> Option<HalfEdgeId>
        ensures { result ≡ cond (kept self.now.columns self.now.rows (cell_of square)) (Some (code self.now.columns (cell_of square) (edge_of edge))) None }
    {
        let Square { column, row } = square;
        if column > 2 * self.columns || row > 2 * self.rows || column % 2 == 1 && row % 2 == 1 {
            return None;
        }
        let place = if row % 2 == 1 {
            2 * self.columns + 1 + column / 2
        } else {
            column
        };
        let number = row / 2 * (3 * self.columns + 2) + place;
        Some(HalfEdgeId(6 * number + edge as u16))
    }

    // The vertex at the lower left corner of a square.
    fn vertex(&self, square: Square) -> VertexId
        ensures { result ≡ grid_vertex self.now.columns square.column square.row }
    {
        VertexId(square.row * (2 * self.columns + 2) + square.column)
    }

    // How far along or up a column or a row is.
    fn distance(&self, n: u16) -> i32
        requires { n ≤ 51 }
        ensures is { result ≡ pos (n * self.now.pitch) }
        ensures few { n * self.now.pitch ≤ 5100 }
    {
        (n * self.pitch) as i32
    }
}

impl Mesh for PerforatedSheet {
    type Point = IntegerPoint;

    ghost surface = { λ s. sheet s.columns s.rows s.pitch };

    ghost sound = { λ s. sheet_lawful s.columns s.rows s.pitch s.few_columns s.few_rows s.not_narrow };

    fn triangles(&self) -> u16 {
        2 * self.cells()
    }

    fn vertices(&self) -> u16 {
        (2 * self.columns + 2) * (2 * self.rows + 2)
    }

    fn corners(&self, t: TriangleId) -> [VertexId; 3] {
        if t.0 / 2 >= self.cells() {
            return [VertexId(0); 3];
        }
        let square = self.square(t.0 / 2);
        let lower_left = self.vertex(square);
        let upper_right = self.vertex(square.right().above());
        if t.0 % 2 == 0 {
            [lower_left, self.vertex(square.right()), upper_right]
        } else {
            [lower_left, upper_right, self.vertex(square.above())]
        }
    }

    fn point(&self, v: VertexId) -> IntegerPoint {
        if v.0 >= self.vertices() {
            return IntegerPoint::origin();
        }
        let width = 2 * self.columns + 2;
        IntegerPoint {
            x: self.distance(v.0 % width),
            y: self.distance(v.0 / width),
        }
    }

    fn twin(&self, h: HalfEdgeId) -> Option<HalfEdgeId> {
        if h.0 / 6 >= self.cells() {
            return None;
        }
        let edge = Edge::of(h.0 % 6);
        let square = self.square(h.0 / 6).beyond(edge)?;
        self.half_edge(square, edge.opposite())
    }
}
