// Coordinates as points keep them, and as they are computed with.
ghost use Rattle.std.specs.Prelude.{◌≡◌};
ghost use Rattle.coordinates.specs.Values.{value, packed_value};

use crate::{Coordinate, Packed};

impl From<Coordinate> for Packed {
    ghost from_gives = { λ a r. packed_value r ≡ value a };

    fn from(a: Coordinate) -> Packed {
        Packed {
            p: a.p as i32,
            q: a.q as i32,
        }
    }
}

impl From<Packed> for Coordinate {
    ghost from_gives = { λ a r. value r ≡ packed_value a };

    fn from(a: Packed) -> Coordinate {
        Coordinate {
            p: a.p.into(),
            q: a.q.into(),
        }
    }
}
