// The products that turns and linear forms need.
ghost use Rattle.std.specs.Prelude.{◌≡◌, ◌*ℤ◌};
ghost use Rattle.algebra.specs.Bounds.{Within};
ghost use Rattle.algebra.specs.Number.{◌⊕◌, ◌⊖◌, ◌⊛◌};
ghost use Rattle.coordinates.specs.Values.{value};

use crate::{Area, Offset, Quadratic, Step};
use std::ops::{Add, Mul, Sub};

// A product of two parts of offsets: small enough that three can be added.
fn product_of(a: i64, b: i64) -> i64
    requires a_within { Within 20000 a }
    requires b_within { Within 20000 b }
    ensures product { result ≡ a *ℤ b }
    ensures within { Within 400000000 result }
{
    a * b
}

impl Mul for Offset {
    type Output = Area;

    ghost mul_gives = { λ a b r. value r ≡ value a ⊛ value b };

    fn mul(self, other: Offset) -> Area {
        let pp = product_of(self.p, other.p);
        let qq = product_of(self.q, other.q);
        let pq = product_of(self.p, other.q);
        let qp = product_of(self.q, other.p);
        Area {
            p: pp + (qq + qq),
            q: pq + qp,
        }
    }
}

// Apart from the sum of offsets: a sum of any size would have to ask that it fits.
impl Add for Area {
    type Output = Quadratic;

    ghost add_gives = { λ a b r. value r ≡ value a ⊕ value b };

    fn add(self, other: Area) -> Quadratic {
        Quadratic {
            p: self.p + other.p,
            q: self.q + other.q,
        }
    }
}

impl Sub for Area {
    type Output = Quadratic;

    ghost sub_gives = { λ a b r. value r ≡ value a ⊖ value b };

    fn sub(self, other: Area) -> Quadratic {
        Quadratic {
            p: self.p - other.p,
            q: self.q - other.q,
        }
    }
}

impl Step {
    // The cross product: positive where the other step points to the left of this one.
    pub fn cross(self, other: Step) -> Quadratic
        ensures { value result ≡ value self.dx ⊛ value other.dy ⊖ value self.dy ⊛ value other.dx }
    {
        self.dx * other.dy - self.dy * other.dx
    }

    // The value of the linear form (f, h) at the step.
    pub fn dot(self, f: Offset, h: Offset) -> Quadratic
        ensures { value result ≡ value f ⊛ value self.dx ⊕ value h ⊛ value self.dy }
    {
        f * self.dx + h * self.dy
    }
}
