//! How the clauses of the steps so far are kept. A long clause is a step until a later step names it.

ghost use Rattle.std.specs.Prelude.{◌≡◌, IfOk, IfSome, true};
ghost use Rattle.resolvo_text.specs.View.{specs_of};
ghost use Rattle.resolvo_report.specs.View.{place_of, step_of};
ghost use Rattle.resolvo_checker.specs.Kept.{is_long};

use crate::clause_parts::copies_of;
use resolvo_report::{Place, Step};
use std::alloc::{AllocError, Global};

/// Where the literals of a clause begin and end, or which of the long clauses it is.
#[derive(Clone, Copy)]
pub enum Kept {
    Ready(usize, usize),
    Long(usize),
}

/// A long clause: where its literals begin and end, or its step as long as nothing names it.
#[derive(Drop)]
pub enum Long {
    Ready(usize, usize),
    Deferred(Step),
}

fn copy_of(place: &Place) -> Result<Place, AllocError>
    ensures { IfOk result (λ p. place_of p ≡ place_of place.now) }
{
    match place {
        Place::Request => Ok(Place::Request),
        Place::Version(version) => Ok(Place::Version(version.copy()?)),
    }
}

/// A copy of a step whose clause may name each version of a package.
pub fn long_step(alloc: Global, step: &Step) -> Result<Option<Step>, AllocError>
    ensures copy { IfOk result (λ o. IfSome o (λ s. step_of s ≡ step_of step.now)) }
    ensures long { IfOk result (λ o. IfSome o (λ s. is_long (step_of step.now) ≡ true)) }
{
    match step {
        Step::Need { place, line, case } => Ok(Some(Step::Need {
            place: copy_of(place)?,
            line: *line,
            case: *case,
        })),
        Step::Shared { alternatives } => Ok(Some(Step::Shared {
            alternatives: copies_of(alloc, alternatives)?,
        })),
        _ => Ok(None),
    }
}
