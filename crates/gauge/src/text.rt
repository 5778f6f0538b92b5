// How lengths are written.
ghost use Rattle.std.specs.Prelude.{Some};
ghost use Rattle.coordinates.specs.Text.{written};

use crate::Length;
use coordinates::text::Written;
use std::fmt;

impl fmt::Display for Length {
    ghost output = { λ a. Some (written a.p a.q) };

    fn fmt<W: fmt::Write>(&self, f: &mut fmt::Formatter<W>) -> fmt::Result {
        let written = Written {
            p: self.p,
            q: self.q,
        };
        write!(f, "{written}")
    }
}
