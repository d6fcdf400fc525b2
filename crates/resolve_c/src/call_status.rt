//! The numbers that encode how a call ended.

ghost use Rattle.std.specs.Prelude.{◌≡◌};
ghost use Rattle.resolve_c.specs.CallStatus.{ending_of, check_ending_of, fault_ending_of, growing, growing_within, stop_ending_of};

use resolve_check::outcome::{Checked, Outcome, RunFault};
use resolve_run::RunStop;

/// How a call ended that wrote a report or a faulty line.
pub(crate) fn ending_of(outcome: Outcome) -> u32
    ensures { result ≡ ending_of outcome }
{
    match outcome {
        Outcome::Installed => 0,
        Outcome::Refused => 1,
        Outcome::Faulty => 2,
    }
}

/// How a call ended that wrote a verdict or a faulty line.
pub(crate) fn check_ending_of(checked: Checked) -> u32
    ensures { result ≡ check_ending_of checked }
{
    match checked {
        Checked::Yes => 0,
        Checked::No => 1,
        Checked::Faulty => 2,
    }
}

/// The same fault, or `Memory` where the sink refused: one that grows refuses for no other reason.
pub(crate) fn growing(fault: RunFault) -> RunFault
    ensures { result ≡ growing fault }
{
    match fault {
        RunFault::Writer => RunFault::Memory,
        fault => fault,
    }
}

/// How a call ended that has no text.
pub(crate) fn fault_ending_of(fault: RunFault) -> u32
    ensures { result ≡ fault_ending_of fault }
{
    match fault {
        RunFault::Reader => 3,
        RunFault::TooLong => 4,
        RunFault::Memory => 5,
        RunFault::Ids => 6,
        RunFault::Writer => 7,
    }
}

/// The same for a run that may have a budget.
pub(crate) fn growing_within(stop: RunStop) -> RunStop
    ensures { result ≡ growing_within stop }
{
    match stop {
        RunStop::Fault(fault) => RunStop::Fault(growing(fault)),
        RunStop::GivenUp => RunStop::GivenUp,
    }
}

/// How a call ended that may have a budget, and has no text.
pub(crate) fn stop_ending_of(stop: RunStop) -> u32
    ensures { result ≡ stop_ending_of stop }
{
    match stop {
        RunStop::Fault(fault) => fault_ending_of(fault),
        RunStop::GivenUp => 8,
    }
}
