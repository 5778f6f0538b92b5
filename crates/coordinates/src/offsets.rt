// Coordinates, their differences, and what is measured from these.
ghost use Rattle.std.specs.Prelude.{◌≡◌};
ghost use Rattle.algebra.specs.Number.{number, ◌⊕◌, ◌⊖◌};
ghost use Rattle.coordinates.specs.Values.{value};

use crate::{Coordinate, Offset, Quadratic};
use std::ops::{Add, Sub};

impl Sub for Coordinate {
    type Output = Offset;

    ghost sub_gives = { λ a b r. value r ≡ value a ⊖ value b };

    fn sub(self, other: Coordinate) -> Offset {
        Offset {
            p: self.p - other.p,
            q: self.q - other.q,
        }
    }
}

impl Offset {
    // A small number, as in a linear form.
    pub fn small(p: i8, q: i8) -> Offset
        ensures { value result ≡ number p q }
    {
        Offset {
            p: p.into(),
            q: q.into(),
        }
    }
}

// For offsets and for areas apart: a sum of any size would have to ask that it fits.
impl Add for Offset {
    type Output = Quadratic;

    ghost add_gives = { λ a b r. value r ≡ value a ⊕ value b };

    fn add(self, other: Offset) -> Quadratic {
        Quadratic {
            p: self.p + other.p,
            q: self.q + other.q,
        }
    }
}

impl From<Offset> for Quadratic {
    ghost from_gives = { λ a r. value r ≡ value a };

    fn from(offset: Offset) -> Quadratic {
        Quadratic {
            p: offset.p,
            q: offset.q,
        }
    }
}
