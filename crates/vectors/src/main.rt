// Runs the cases of a vector file from standard input, and says which of them differ.
#![tactic(auto)]

mod answer;
mod layers;
mod lists;
mod reader;
mod report;
mod small;
mod vet;
mod walks;

use reader::{Case, Reader, Sort};
use report::{Outcome, Tallies};
use std::alloc::Global;
use std::io::{BufRead, BufReader};

// Cases of a higher level speak of changes that are not known here.
const LEVEL: u32 = 0;

fn run_case(heap: Global, case: &Case) -> anyhow::Result<Outcome> {
    if case.level > LEVEL {
        return Ok(Outcome::Skipped);
    }
    match case.sort {
        Sort::Small => small::run(heap, case),
        Sort::Vet => vet::run(heap, case),
        Sort::Walks => walks::run(heap, case),
        Sort::Calls | Sort::Gen => Ok(Outcome::Skipped),
    }
}

fn run(rt: &HostRuntime) -> anyhow::Result<()> {
    let heap = rt.alloc();
    let mut reader = Reader::new();
    let mut tallies = Tallies::new();
    for line in BufReader::new(heap, rt.stdin())?.lines(heap) {
        if let Some(case) = reader.read(heap, line?)? {
            let outcome = run_case(heap, &case)?;
            tallies.count(case.sort, &outcome);
            if let Outcome::Differs { expected, got } = &outcome {
                let name = case.name.as_str();
                println!(rt; "differs {name}: expected {expected}, got {got}")?;
            }
        }
    }
    reader.finish()?;
    tallies.print(rt)?;
    Ok(())
}

fn main(rt: HostRuntime) -> anyhow::Result<()> {
    run(&rt)
}
