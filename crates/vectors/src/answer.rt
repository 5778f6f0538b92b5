// What was answered where a mesh, a point or a layer was handed in, and what should have been.
ghost use Rattle.std.specs.Prelude.{◌≡◌};
ghost use Rattle.base.specs.Refusals.{number, place};
ghost use Rattle.described.specs.Lists.{as_mesh};
ghost use Rattle.vectors.specs.Judged.{Judged};

use crate::reader::Lines;
use crate::report::Outcome;
use base::refusals::Refusal;
use described::lists::Described;
use std::alloc::{AllocError, Global};
use std::fmt;

// What was handed in is good: lists and sheets are sound, points are made.
#[derive(Clone, Copy, PartialEq, Eq)]
pub enum Accepted {
    Sound,
    Made,
}

impl fmt::Display for Accepted {
    fn fmt<W: fmt::Write>(&self, f: &mut fmt::Formatter<W>) -> fmt::Result {
        f.write_str(match self {
            Accepted::Sound => "sound",
            Accepted::Made => "ok",
        })
    }
}

// A refusal, by its number and its place.
#[derive(Clone, Copy, PartialEq, Eq)]
pub struct Refused {
    number: u8,
    place: usize,
}

impl From<Refusal> for Refused {
    ghost from_gives = { λ refusal refused. refused ≡ record { number = number refusal; place = place refusal } };

    fn from(refusal: Refusal) -> Refused {
        Refused {
            number: refusal.number(),
            place: refusal.place(),
        }
    }
}

impl fmt::Display for Refused {
    fn fmt<W: fmt::Write>(&self, f: &mut fmt::Formatter<W>) -> fmt::Result {
        let number = self.number;
        let place = self.place;
        write!(f, "refused {number} at {place}")
    }
}

pub type Answer = Result<Accepted, Refused>;

// What the check says of lists.
pub fn verdict(lists: &Described) -> Answer
    ensures { Judged (as_mesh lists.now) result }
{
    lists.check()?;
    Ok(Accepted::Sound)
}

// `sound`, `ok`, or `refused NUMBER PLACE`. A function, since an answer is a type of std.
fn parse(words: &[&str]) -> Option<Answer> {
    match words {
        ["sound"] => Some(Ok(Accepted::Sound)),
        ["ok"] => Some(Ok(Accepted::Made)),
        ["refused", number, place] => Some(Err(Refused {
            number: number.parse::<u8>().ok()?,
            place: place.parse::<usize>().ok()?,
        })),
        _ => None,
    }
}

fn written(heap: Global, answer: Answer) -> Result<String, AllocError> {
    match answer {
        Ok(accepted) => format!(in heap; "{accepted}"),
        Err(refused) => format!(in heap; "{refused}"),
    }
}

// Whether the next line, the last of the case, says the same.
pub fn compare(heap: Global, lines: &mut Lines, got: Answer) -> anyhow::Result<Outcome> {
    let line = lines.next_after("answer")?;
    let expected = line.read(heap, parse, "sound, ok or refused NUMBER PLACE")?;
    lines.ends()?;
    if expected == got {
        return Ok(Outcome::Agrees);
    }
    Ok(Outcome::Differs {
        expected: written(heap, expected)?,
        got: written(heap, got)?,
    })
}
