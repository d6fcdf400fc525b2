//! The program's exit status, and the line that it prints after the text. `main` calls it last.

ghost use Rattle.std.specs.Prelude.{◌≡◌};
ghost use Rattle.resolve_check.specs.ExitStatus.{status_of, last_line_of, fault_line_of, check_status_of, check_last_line_of};

use crate::outcome::{Checked, Outcome, RunFault};

/// The status of the process, and its last line, without the newline (empty where there is none).
pub fn run_ending(ended: &Result<Outcome, RunFault>) -> (u8, &'static str)
    ensures status { result.0 ≡ status_of ended.now }
    ensures line { result.1.now ≡ last_line_of ended.now }
{
    match ended {
        Ok(Outcome::Installed) => (0, ""),
        Ok(Outcome::Refused) => (1, ""),
        Ok(Outcome::Faulty) => (2, ""),
        Err(fault) => (2, last_line(*fault)),
    }
}

/// The same for a check.
pub fn check_ending(ended: &Result<Checked, RunFault>) -> (u8, &'static str)
    ensures status { result.0 ≡ check_status_of ended.now }
    ensures line { result.1.now ≡ check_last_line_of ended.now }
{
    match ended {
        Ok(Checked::Yes) => (0, ""),
        Ok(Checked::No) => (1, ""),
        Ok(Checked::Faulty) => (2, ""),
        Err(fault) => (2, last_line(*fault)),
    }
}

/// The last line after a fault.
fn last_line(fault: RunFault) -> &'static str
    ensures { result.now ≡ fault_line_of fault }
{
    match fault {
        RunFault::Reader => "cannot read",
        RunFault::TooLong => "too long",
        RunFault::Memory => "no memory",
        RunFault::Ids => "no ids",
        RunFault::Writer => "",
    }
}
