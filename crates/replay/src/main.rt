// Recorded samples of a load cell through a cell: standard input to a listing of its tends.
#![tactic(auto)]

mod failure;
mod input;
mod journal;
mod listing;
#[cfg(test)]
mod tests;
mod words;

use failure::Failure;
use std::io;
use std::process::ExitCode;

// A failure is one line of standard output and status 1; nothing is written to standard error.
fn main(rt: HostRuntime) -> ExitCode {
    let Err(failure) = run(&rt) else {
        return ExitCode::SUCCESS;
    };
    let _ = rt.println(failure);
    ExitCode::FAILURE
}

fn run(rt: &HostRuntime) -> Result<(), Failure> {
    let text = io::read_to_string(rt.alloc(), rt.stdin())?;
    rt.print(listing::replay(rt.alloc(), text.as_str())?)?;
    Ok(())
}
