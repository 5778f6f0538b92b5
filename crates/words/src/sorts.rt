// The two sorts of letters: crossings, of which walks are made, and signed generators, of which class words are made.
ghost use Rattle.words.specs.Sorts.{recrossed, same_crossing, inverse, same_generator};
ghost use Rattle.std.proofs.Common.{rules};

use crate::letters::Letter;
use base::ids::HalfEdgeId;

// A portal crossed from the half-edge left to the half-edge entered.
#[derive(Clone, Copy, PartialEq, Eq)]
pub struct Crossing {
    pub left: HalfEdgeId,
    pub entered: HalfEdgeId,
}

impl Letter for Crossing {
    ghost opposed = { recrossed };

    ghost equal = { same_crossing };

    ghost lawful = { Prim.search rules };

    fn opposite(self) -> Crossing {
        Crossing {
            left: self.entered,
            entered: self.left,
        }
    }

    fn same(self, other: Crossing) -> bool {
        self == other
    }
}

// A generator of the fundamental group, by its number: positive as it stands, negative for its inverse.
#[derive(Clone, Copy, PartialEq, Eq)]
pub struct Generator(pub i16);

impl Letter for Generator {
    ghost opposed = { inverse };

    ghost equal = { same_generator };

    ghost lawful = { Prim.search rules };

    // 16 bits have no negative of the lowest number, which is kept.
    fn opposite(self) -> Generator {
        Generator(self.0.wrapping_neg())
    }

    fn same(self, other: Generator) -> bool {
        self.0 == other.0
    }
}
