//! The message of a refusal, for people: the text of its conflict's graph, as the report's last lines.

ghost use Rattle.std.specs.Prelude.{◌≡◌, None, IfOk, IfSome};
ghost use Rattle.resolve_answer.specs.Solved.{HasLongText, IsMessageKept};
ghost use Rattle.resolvo.specs.Solver.{HoldsConflict};

use crate::message_text::message_text;
use crate::stop::MOST_BYTES;
use resolvo::conflict::Conflict;
use resolvo::solver::Solver;
use resolvo_catalogue::provider::CatalogueProvider;
use resolvo_pool_core::id::{NameId, SolvableId};
use resolvo_pool_core::want::R;
use std::alloc::Global;

/// The message of the conflict that the solver keeps. `None` where it has more bytes than a report
/// may have, without the signs before its lines: then no memory is asked for its text.
pub(crate) fn message_of(
    alloc: Global,
    solver: &Solver<CatalogueProvider<'_>>,
    conflict: &Conflict,
) -> R<Option<Vec<u8>>>
    requires { HoldsConflict solver.now conflict.now.clauses.items }
    ensures fits { IfOk result
        (λ o.
        IfSome o
        (λ v.
        IsMessageKept ⟦<NameId as PartialEq>⟧.eq ⟦<SolvableId as PartialEq>⟧.eq solver.now
        v.items)) }
    ensures long { IfOk result
        (λ o.
        o ≡ None
        → HasLongText ⟦<NameId as PartialEq>⟧.eq ⟦<SolvableId as PartialEq>⟧.eq solver.now) }
{
    match conflict.display_below(alloc, solver, MOST_BYTES + 1)? {
        Some(display) => {
            let text = message_text(alloc, &display)?;
            Ok(Some(text))
        }
        None => Ok(None),
    }
}
