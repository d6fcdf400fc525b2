//! The outcome of a run or a check: the kind of text that was written, or why no whole text was.

use resolvo_catalogue_core::WriteFault;
use resolvo_pool_core::want::Want;
use std::alloc::{AllocError, AllocFailed};

/// The text that a run wrote.
#[derive(Clone, Copy, Debug, PartialEq, Eq)]
pub enum Outcome {
    /// A report `install`.
    Installed,
    /// A report `refused`.
    Refused,
    /// The first faulty line of the catalogue, or else of the request.
    Faulty,
}

/// The text that a check wrote.
#[derive(Clone, Copy, Debug, PartialEq, Eq)]
pub enum Checked {
    /// The report holds.
    Yes,
    /// It doesn't hold, from the line on that was written.
    No,
    /// The first faulty line of the catalogue, or else of the request.
    Faulty,
}

/// Why no text was written, or not all of it.
#[derive(Clone, Copy, Debug, PartialEq, Eq)]
pub enum RunFault {
    /// A reader failed, or was interrupted more than 1,000 times in a row.
    Reader,
    /// A text has more bytes than a text may have.
    TooLong,
    /// An allocation was refused.
    Memory,
    /// All numbers are used up.
    Ids,
    /// The writer failed, was interrupted more than 1,000 times in a row, or took no byte.
    Writer,
}

impl From<AllocError> for RunFault {
    ghost use Rattle.std.specs.Prelude.{◌≡◌};
    ghost use Rattle.resolve_check.specs.declared.outcome.RunFault.TheVariants.{Memory};

    ghost from_gives = { λ _ e. e ≡ Memory };

    fn from(_error: AllocError) -> Self {
        RunFault::Memory
    }
}

impl<T: Drop> From<AllocFailed<T>> for RunFault {
    ghost use Rattle.std.specs.Prelude.{◌≡◌};
    ghost use Rattle.resolve_check.specs.declared.outcome.RunFault.TheVariants.{Memory};

    ghost from_gives = { λ _ e. e ≡ Memory };

    fn from(_error: AllocFailed<T>) -> Self {
        RunFault::Memory
    }
}

impl From<WriteFault> for RunFault {
    ghost use Rattle.std.specs.Prelude.{◌≡◌};
    ghost use Rattle.resolve_check.specs.declared.outcome.RunFault.TheVariants.{Writer};

    ghost from_gives = { λ _ e. e ≡ Writer };

    fn from(_error: WriteFault) -> Self {
        RunFault::Writer
    }
}

impl From<Want> for RunFault {
    ghost use Rattle.std.specs.Prelude.{◌≡◌};
    ghost use Rattle.resolve_check.specs.Faults.{fault_of};

    ghost from_gives = { λ w e. e ≡ fault_of w };

    fn from(lacked: Want) -> Self {
        match lacked {
            Want::Memory => RunFault::Memory,
            Want::Ids => RunFault::Ids,
        }
    }
}
