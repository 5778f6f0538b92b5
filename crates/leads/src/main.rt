// Reads a script from standard input, does what each line says, and prints each action.
#![tactic(auto)]

mod command;
mod current;
mod points;
mod rows;
mod session;
mod shown;
mod stop;

use session::Session;
use std::io::{BufRead, BufReader};
use std::process::ExitCode;
use stop::Stop;

// A line that is no command is named on standard error, and nothing else is.
fn main(rt: HostRuntime) -> anyhow::Result<ExitCode> {
    let heap = rt.alloc();
    let mut session = Session::new(heap);
    let mut number: u64 = 0;
    for line in BufReader::new(heap, rt.stdin())?.lines(heap) {
        number = number.saturating_add(1);
        match session.obey(&rt, line?.as_str()) {
            Ok(()) => {}
            Err(Stop::Expected(what)) => {
                eprintln!(rt; "line {number}: expected {what}")?;
                return Ok(ExitCode::FAILURE);
            }
            Err(stop) => return Err(stop.into()),
        }
    }
    Ok(ExitCode::SUCCESS)
}
