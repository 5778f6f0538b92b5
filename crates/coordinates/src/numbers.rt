// Numbers of every size: sign, opposite, and the sums that are in range.
ghost use Rattle.std.specs.Prelude.{◌≡◌};
ghost use Rattle.algebra.specs.Number.{number, minus, sign, magnitude, ◌⊕◌, ◌⊖◌};
ghost use Rattle.coordinates.specs.Values.{value, Fitted};

use crate::{Quadratic, Surd};
use algebra::Sign;
use algebra::signs::sign_of;
use std::ops::Neg;

impl<const MOST: u64> Surd<MOST> {
    // p + q√2, where both parts are in range.
    pub fn new(p: i64, q: i64) -> Option<Surd<MOST>>
        ensures { Fitted result (number p q) }
    {
        if MOST <= i64::MAX as u64 && p.unsigned_abs() <= MOST && q.unsigned_abs() <= MOST {
            Some(Surd { p, q })
        } else {
            None
        }
    }

    pub fn sign(self) -> Sign
        ensures { result ≡ sign (value self.entry) }
    {
        sign_of(self.p, self.q)
    }

    // The number without its sign.
    pub fn magnitude(self) -> Surd<MOST>
        ensures { value result ≡ magnitude (value self.entry) }
    {
        match self.sign() {
            Sign::Minus => -self,
            Sign::Zero | Sign::Plus => self,
        }
    }
}

impl<const MOST: u64> Neg for Surd<MOST> {
    type Output = Surd<MOST>;

    ghost neg_gives = { λ a r. value r ≡ minus (value a) };

    fn neg(self) -> Surd<MOST> {
        Surd {
            p: -self.p,
            q: -self.q,
        }
    }
}

impl Quadratic {
    // The sum, where it is in range.
    pub fn checked_add(self, other: Quadratic) -> Option<Quadratic>
        ensures { Fitted result (value self ⊕ value other) }
    {
        Quadratic::new(self.p + other.p, self.q + other.q)
    }

    // The difference, where it is in range.
    pub fn checked_sub(self, other: Quadratic) -> Option<Quadratic>
        ensures { Fitted result (value self ⊖ value other) }
    {
        Quadratic::new(self.p - other.p, self.q - other.q)
    }
}
