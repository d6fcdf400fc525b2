//! The version numbers of solvables. Called with the solvables of a search's turns.

ghost use Rattle.std.specs.Prelude.{◌≡◌, IfOk};
ghost use Rattle.resolve_install.specs.Numbers.{numbers_of};

use resolvo_catalogue_core::VersionNo;
use resolvo_pool_core::id::SolvableId;
use std::alloc::{AllocError, Global};

/// The numbers of the versions that the solvables represent.
pub fn numbers_of(alloc: Global, chosen: &[SolvableId]) -> Result<Vec<VersionNo>, AllocError>
    ensures { IfOk result (λ numbers. numbers.items ≡ numbers_of chosen.now) }
{
    let mut numbers = Vec::new(alloc);
    for solvable in chosen {
        numbers.push(VersionNo(solvable.into_raw()))?;
    }
    Ok(numbers)
}
