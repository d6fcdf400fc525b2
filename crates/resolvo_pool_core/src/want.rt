//! What a call may lack, and the result type of such calls. Every crate of the resolver that
//! allocates memory or issues ids returns an `R`.
ghost use Rattle.std.specs.Prelude.{◌≡◌};
ghost use Rattle.resolvo_pool_core.specs.declared.want.Want.TheVariants.{Memory};

use std::alloc::{AllocError, AllocFailed};
use thiserror::Error;

/// What a call lacked.
#[derive(Clone, Copy, Debug, Drop, PartialEq, Eq, Error)]
pub enum Want {
    /// An allocation was refused.
    #[error("no memory")]
    Memory,
    /// All ids are used up.
    #[error("no ids")]
    Ids,
}

/// A result, or what the call lacked.
pub type R<T> = Result<T, Want>;

impl From<AllocError> for Want {
    ghost from_gives = { λ _ w. w ≡ Memory };

    fn from(_refused: AllocError) -> Want {
        Want::Memory
    }
}

impl<T: Drop> From<AllocFailed<T>> for Want {
    ghost from_gives = { λ _ w. w ≡ Memory };

    fn from(_refused: AllocFailed<T>) -> Want {
        Want::Memory
    }
}
