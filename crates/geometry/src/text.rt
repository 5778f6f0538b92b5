// How turns are written.
ghost use Rattle.std.specs.Prelude.{Some};
ghost use Rattle.geometry.specs.Text.{turn_word};

use crate::Turn;
use std::fmt;

impl fmt::Display for Turn {
    ghost output = { λ t. Some (turn_word t) };

    fn fmt<W: fmt::Write>(&self, f: &mut fmt::Formatter<W>) -> fmt::Result {
        match self {
            Turn::Left => write!(f, "left"),
            Turn::Straight => write!(f, "straight"),
            Turn::Right => write!(f, "right"),
        }
    }
}
