// How cases came out, and how many of each sort.
ghost use Rattle.std.specs.Prelude.{◌≡◌, ◌≢◌};
ghost use Rattle.vectors.specs.declared.reader.Sort.{Sort};
ghost use Rattle.vectors.specs.Tallies.{counted, of_sort};

use crate::reader::Sort;
use std::io;

#[derive(Drop)]
pub enum Outcome {
    Agrees,
    Differs { expected: String, got: String },
    // Of a sort or a level that is not known here.
    Skipped,
}

#[derive(Clone, Copy)]
struct Tally {
    agree: u64,
    differ: u64,
    skipped: u64,
}

impl Tally {
    const NONE: Tally = Tally {
        agree: 0,
        differ: 0,
        skipped: 0,
    };

    fn count(&mut self, outcome: &Outcome)
        ensures { self.new ≡ counted outcome.now self.old }
    {
        match outcome {
            Outcome::Agrees => self.agree = self.agree.saturating_add(1),
            Outcome::Differs {
                expected: _,
                got: _,
            } => self.differ = self.differ.saturating_add(1),
            Outcome::Skipped => self.skipped = self.skipped.saturating_add(1),
        }
    }

    // A sort that the file does not have is left out.
    fn print(&self, rt: &HostRuntime, sort: Sort) -> io::Result<()> {
        let agree = self.agree;
        let ran = self.agree.saturating_add(self.differ);
        let skipped = self.skipped;
        if ran == 0 && skipped == 0 {
            return Ok(());
        }
        println!(rt; "{sort}: {agree} of {ran} agree, {skipped} skipped")
    }
}

#[derive(Clone, Copy)]
pub struct Tallies {
    small: Tally,
    vet: Tally,
    walks: Tally,
    calls: Tally,
    generated: Tally,
}

impl Tallies {
    // Nothing is counted yet.
    pub fn new() -> Tallies
        ensures { (sort : Sort) → of_sort sort result ≡ record { agree = 0; differ = 0; skipped = 0 } }
    {
        Tallies {
            small: Tally::NONE,
            vet: Tally::NONE,
            walks: Tally::NONE,
            calls: Tally::NONE,
            generated: Tally::NONE,
        }
    }

    // Counts a case of a sort; the other sorts keep their tallies.
    pub fn count(&mut self, sort: Sort, outcome: &Outcome)
        ensures here { of_sort sort self.new ≡ counted outcome.now (of_sort sort self.old) }
        ensures others { (other : Sort) → other ≢ sort → of_sort other self.new ≡ of_sort other self.old }
    {
        match sort {
            Sort::Small => self.small.count(outcome),
            Sort::Vet => self.vet.count(outcome),
            Sort::Walks => self.walks.count(outcome),
            Sort::Calls => self.calls.count(outcome),
            Sort::Gen => self.generated.count(outcome),
        }
    }

    pub fn print(&self, rt: &HostRuntime) -> io::Result<()> {
        self.small.print(rt, Sort::Small)?;
        self.vet.print(rt, Sort::Vet)?;
        self.walks.print(rt, Sort::Walks)?;
        self.calls.print(rt, Sort::Calls)?;
        self.generated.print(rt, Sort::Gen)
    }
}
