// The two kinds of points.
ghost use Rattle.std.specs.Prelude.{pos};
ghost use Rattle.algebra.specs.Number.{number};
ghost use Rattle.geometry.specs.Ranges.{Placed};
ghost use Rattle.geometry.specs.Points.{integer_point, quadratic_point, integer_row, quadratic_row};

use crate::kinds::{Origin, PointKind};
use crate::{IntegerPoint, IntegerRow, QuadraticPoint, QuadraticRow};
use base::refusals::{Axis, Refusal};
use coordinates::{Coordinate, Packed};

// The largest coordinate, and the opposite of the smallest.
const LIMIT: i32 = 10_000;

impl PointKind for IntegerPoint {
    type Row = IntegerRow;

    ghost at = { integer_point };

    ghost written = { integer_row };

    fn make(row: IntegerRow) -> Result<IntegerPoint, Refusal> {
        let range = -LIMIT..=LIMIT;
        if !range.contains(&row.x) {
            return Err(Refusal::PointRange { axis: Axis::X });
        }
        if !range.contains(&row.y) {
            return Err(Refusal::PointRange { axis: Axis::Y });
        }
        Ok(IntegerPoint { x: row.x, y: row.y })
    }

    fn x(self) -> Coordinate {
        Coordinate {
            p: self.x.into(),
            q: 0,
        }
    }

    fn y(self) -> Coordinate {
        Coordinate {
            p: self.y.into(),
            q: 0,
        }
    }

    fn mirrored(self) -> IntegerPoint {
        IntegerPoint {
            x: -self.x,
            y: self.y,
        }
    }
}

impl Origin for IntegerPoint {
    fn origin() -> IntegerPoint {
        IntegerPoint { x: 0, y: 0 }
    }
}

// The coordinate with these parts, or the refusal that names its axis.
// Tested in the 32 bits in which a point keeps it: the check of a mesh does this for every corner that it looks at.
fn coordinate(p: i32, q: i32, axis: Axis) -> Result<Packed, Refusal>
    ensures { Placed result (number p q) axis }
{
    let range = -LIMIT..=LIMIT;
    if range.contains(&p) && range.contains(&q) {
        Ok(Packed { p, q })
    } else {
        Err(Refusal::PointRange { axis })
    }
}

impl PointKind for QuadraticPoint {
    type Row = QuadraticRow;

    ghost at = { quadratic_point };

    ghost written = { quadratic_row };

    fn make(row: QuadraticRow) -> Result<QuadraticPoint, Refusal> {
        let x = coordinate(row.xp, row.xq, Axis::X)?;
        let y = coordinate(row.yp, row.yq, Axis::Y)?;
        Ok(QuadraticPoint { x, y })
    }

    fn x(self) -> Coordinate {
        self.x.into()
    }

    fn y(self) -> Coordinate {
        self.y.into()
    }

    fn mirrored(self) -> QuadraticPoint {
        let x = -self.x();
        QuadraticPoint {
            x: x.into(),
            ..self
        }
    }
}

impl Origin for QuadraticPoint {
    fn origin() -> QuadraticPoint {
        let zero = Packed { p: 0, q: 0 };
        QuadraticPoint { x: zero, y: zero }
    }
}
