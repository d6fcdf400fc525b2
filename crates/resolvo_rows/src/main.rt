//! Runs the cases on standard input: requests over small catalogues, and what a solver answers.
#![tactic(auto)]

mod solve;
mod tried_solver;
mod write;

use resolvo_cases::cases::run_cases;
use resolvo_cases::tally::Tally;
use resolvo_pool::R;
use std::io;
use std::process::ExitCode;
use tried_solver::TriedSolver;

/// Prints the answers that differ, and last how many cases were run.
fn print(rt: &HostRuntime, ended: R<()>, tally: &Tally) -> io::Result<ExitCode> {
    let Tally {
        cases,
        differing,
        text,
    } = tally;
    print!(rt; "{text}")?;
    if let Err(want) = ended {
        println!(rt; "{want}")?;
        return Ok(ExitCode::from(1));
    }
    println!(rt; "{cases} cases, of which {differing} are answered otherwise")?;
    Ok(ExitCode::from(u8::from(*differing > 0)))
}

fn main(rt: HostRuntime) -> io::Result<ExitCode> {
    let text = io::read_to_string(rt.alloc(), rt.stdin())?;
    let mut tally = Tally::new(rt.alloc());
    let ended = run_cases(rt.alloc(), &TriedSolver, &text, &mut tally);
    print(&rt, ended, &tally)
}
