//! Why a run that may have a budget wrote no whole text.

use resolve_answer::stop::Stop;
use resolve_check::outcome::RunFault;

/// Why no text was written, or not all of it.
#[derive(Clone, Copy, Debug, PartialEq, Eq)]
pub enum RunStop {
    /// A fault, as without a budget.
    Fault(RunFault),
    /// The budget was used up. Nothing was written.
    GivenUp,
}

impl From<RunFault> for RunStop {
    ghost use Rattle.std.specs.Prelude.{◌≡◌};
    ghost use Rattle.resolve_run.specs.declared.stop.RunStop.TheVariants.{Fault};

    ghost from_gives = { λ f s. s ≡ Fault f };

    fn from(fault: RunFault) -> Self {
        RunStop::Fault(fault)
    }
}

impl From<Stop> for RunStop {
    ghost use Rattle.std.specs.Prelude.{◌≡◌};
    ghost use Rattle.resolve_run.specs.Within.{stop_of};

    ghost from_gives = { λ w s. s ≡ stop_of w };

    fn from(stop: Stop) -> Self {
        match stop {
            Stop::Lacks(lacked) => RunStop::Fault(RunFault::from(lacked)),
            Stop::GivenUp => RunStop::GivenUp,
            Stop::TooLong => RunStop::Fault(RunFault::TooLong),
        }
    }
}
