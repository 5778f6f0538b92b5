// How numbers are written.
ghost use Rattle.std.specs.Prelude.{Some};
ghost use Rattle.coordinates.specs.Text.{written};

use crate::Surd;
use std::fmt;

// p + q√2; a part that is 0 is left out, unless both are. Below numbers of 64 bits and lengths of 128, so that one text serves both.
#[derive(Debug, Clone, Copy, PartialEq, Eq)]
pub struct Written {
    pub p: i128,
    pub q: i128,
}

impl fmt::Display for Written {
    ghost output = { λ a. Some (written a.p a.q) };

    fn fmt<W: fmt::Write>(&self, f: &mut fmt::Formatter<W>) -> fmt::Result {
        let p = self.p;
        let q = self.q;
        let size = q.unsigned_abs();
        if q == 0 {
            write!(f, "{p}")
        } else if p == 0 {
            write!(f, "{q}√2")
        } else if q < 0 {
            write!(f, "{p} - {size}√2")
        } else {
            write!(f, "{p} + {size}√2")
        }
    }
}

impl<const MOST: u64> fmt::Display for Surd<MOST> {
    ghost output = { λ a. Some (written a.p a.q) };

    fn fmt<W: fmt::Write>(&self, f: &mut fmt::Formatter<W>) -> fmt::Result {
        let written = Written {
            p: self.p.into(),
            q: self.q.into(),
        };
        write!(f, "{written}")
    }
}
