// The one reduction, used at both sorts of letters: a spur inside a spur goes with it.
ghost use Rattle.std.specs.Prelude.{◌≡◌};

use words::letters::Letter;
use words::reducing::reduce;
use words::sorts::{Crossing, Generator};

// Out over `a` and `b`, and back over both: nothing is left.
pub fn nested_crossings(a: Crossing, b: Crossing) -> usize
    ensures { result ≡ 0 }
{
    let mut walk = [a, b, b.opposite(), a.opposite()];
    reduce(&mut walk)
}

pub fn nested_generators(a: Generator, b: Generator) -> usize
    ensures { result ≡ 0 }
{
    let mut word = [a, b, b.opposite(), a.opposite()];
    reduce(&mut word)
}
