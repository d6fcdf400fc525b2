//! A parsed line of a catalogue or a request.
//!
//! Its model is the line of specs/Line.antt. The readers of whole texts check its place and keep
//! it.

use crate::alternatives::Alternatives;
use crate::condition::Cond;
use crate::spec::{Spec, Version};
use std::alloc::{AllocError, AllocFailed};
use thiserror::Error;

#[derive(Debug, Drop)]
pub enum Line {
    /// An empty line or a comment.
    Skipped,
    /// A line `version`.
    Listed(Version),
    Needs {
        alternatives: Alternatives,
        condition: Option<Box<Cond>>,
    },
    Limits(Spec),
    /// The needs of a version are unknown, for the reason that the word names.
    Unknown(String),
    Lock(Version),
    Favour(Version),
    Exclude {
        version: Version,
        reason: String,
    },
    /// Versions of the package may be side by side.
    Many(String),
    Wish(Version),
}

/// Why a line was not parsed: it has a fault, or memory ran out.
#[derive(Clone, Copy, Debug, PartialEq, Eq, Error)]
pub enum LineFault {
    #[error("the line is faulty")]
    Fault,
    #[error("out of memory")]
    Memory,
}

impl From<AllocError> for LineFault {
    ghost use Rattle.resolvo_text.specs.declared.line.LineFault.TheVariants.{Memory};
    ghost use Rattle.std.specs.Prelude.{◌≡◌};

    ghost from_gives = { λ _ e. e ≡ Memory };

    fn from(_error: AllocError) -> Self {
        LineFault::Memory
    }
}

impl<T: Drop> From<AllocFailed<T>> for LineFault {
    ghost use Rattle.resolvo_text.specs.declared.line.LineFault.TheVariants.{Memory};
    ghost use Rattle.std.specs.Prelude.{◌≡◌};

    ghost from_gives = { λ _ e. e ≡ Memory };

    fn from(_error: AllocFailed<T>) -> Self {
        LineFault::Memory
    }
}
