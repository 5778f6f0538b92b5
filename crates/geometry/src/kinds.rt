// What every kind of point answers. Steps and turns are written once, for all kinds.
ghost use Rattle.std.specs.Prelude.{◌≡◌};
ghost use Rattle.coordinates.specs.Values.{value};
ghost use Rattle.geometry.specs.Plane.{Point, origin, step, turn, mirror};
ghost use Rattle.geometry.specs.Points.{step_value};
ghost use Rattle.geometry.specs.Ranges.{Made};

use crate::{Step, Turn};
use algebra::Sign;
use base::refusals::Refusal;
use coordinates::Coordinate;

pub trait PointKind: Copy {
    // Plain coordinates of such a point.
    type Row: Copy;

    // The point that a value is.
    ghost at: { Self → Point };

    // The numbers that a row writes.
    ghost written: { Self.Row → Point };

    // The only call that refuses: a part is out of range.
    fn make(row: Self::Row) -> Result<Self, Refusal>
        ensures { Made at result (written row) };

    fn x(self) -> Coordinate
        ensures { value result ≡ (at self).x };

    fn y(self) -> Coordinate
        ensures { value result ≡ (at self).y };

    // The point with the sign of x changed.
    fn mirrored(self) -> Self
        ensures { at result ≡ mirror (at self) };

    // The step from a to b.
    fn step(a: Self, b: Self) -> Step
        ensures { step_value result ≡ step (at a) (at b) }
    {
        Step {
            dx: b.x() - a.x(),
            dy: b.y() - a.y(),
        }
    }

    // To which side the way from a over b turns towards c.
    fn turn(a: Self, b: Self, c: Self) -> Turn
        ensures { result ≡ turn (at a) (at b) (at c) }
    {
        let u = Self::step(a, b);
        let v = Self::step(a, c);
        match u.cross(v).sign() {
            Sign::Plus => Turn::Left,
            Sign::Zero => Turn::Straight,
            Sign::Minus => Turn::Right,
        }
    }
}

// A kind whose origin can be had without a row: what a mesh answers past its end. Apart from the kind, so that a further kind need not have it.
pub trait Origin: PointKind {
    // The point with both coordinates 0.
    fn origin() -> Self
        ensures { Self.PointKind.at result ≡ origin };
}
