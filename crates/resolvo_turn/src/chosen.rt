//! Which solvables the turn's entries of the trail choose. Those before its first entry were chosen
//! in earlier turns.
ghost use Rattle.std.specs.Prelude.{◌≡◌, ◌≤◌, length, slice_get, option_and_then, IfOk, IsOkUnless};
ghost use Rattle.resolvo_pool_core.specs.declared.want.Want.TheVariants.{Memory};
ghost use Rattle.resolvo_sat.specs.Entries.{before};
ghost use Rattle.resolvo_sat.specs.State.{IsState, history};
ghost use Rattle.resolvo_state.specs.Chosen.{choice_of, choices};
ghost use Rattle.resolvo_encoder.specs.Base.{below};
ghost use Rattle.resolvo_encoder.specs.Steps.{IsBuilt};
ghost use Rattle.resolvo_turn.specs.Turn.{in_turn};

use resolvo_encoder::encoder::Encoder;
use resolvo_pool_core::id::Exact;
use resolvo_pool_core::want::R;
use resolvo_sat::state::SatState;
use resolvo_state::solver_state::SolverState;
use resolvo_store_core::decision::Entry;
use std::alloc::Global;
use std::fmt::Debug;
use std::hash::Hash;

/// The place of the turn's first entry on the trail: those before it are below its base level.
fn first_place(search: &SatState) -> usize
    requires { IsState search.now }
    ensures within { result ≤ length search.now.tracker.trail }
    ensures base { below search.now.base_level (history search.now)
        ≡ before search.now.tracker.trail result }
{
    let mut place = search.tracker.stack().len();
    while place > 0 {
        let entry = search.entry(place - 1);
        if entry.level < search.base_level {
            return place;
        }
        place -= 1;
    }
    0
}

/// The solvable that the trail's entry at this place chooses, if it chooses one.
pub(crate) fn chosen_at<N: Copy + Exact + Hash + Debug, S: Copy + Exact + Hash + Debug>(
    coding: &SolverState<N, S>,
    place: usize,
) -> Option<S>
    ensures { result
        ≡ option_and_then (choice_of coding.now.atoms.keys)
        (slice_get coding.now.search.tracker.trail place) }
{
    let entry = coding.search.tracker.stack().get(place)?;
    if !entry.decision.value {
        return None;
    }
    coding.solvable(entry.decision.variable)
}

/// The solvables that these entries choose, in their order.
fn choices_of<N: Copy + Exact + Hash + Debug, S: Copy + Exact + Hash + Debug>(
    alloc: Global,
    coding: &SolverState<N, S>,
    entries: &[Entry],
) -> R<Vec<S>>
    ensures choices { IfOk result (λ v. v.items ≡ choices coding.now.atoms.keys entries.now) }
    ensures refusal { IsOkUnless result Memory }
{
    let mut chosen = Vec::new(alloc);
    for entry in entries {
        if entry.decision.value {
            if let Some(solvable) = coding.solvable(entry.decision.variable) {
                chosen.push(solvable)?;
            }
        }
    }
    Ok(chosen)
}

/// The solvables that the turn's entries choose, in the order of the trail.
pub fn chosen_in_turn<N: Copy + Exact + Hash + Debug, S: Copy + Exact + Hash + Debug>(
    alloc: Global,
    encoding: &Encoder<N, S>,
) -> R<Vec<S>>
    requires { IsBuilt encoding.now }
    ensures chosen { IfOk result (λ v. v.items ≡ in_turn encoding.now) }
    ensures refusal { IsOkUnless result Memory }
{
    let place = first_place(&encoding.coding.search);
    let entries = encoding.coding.search.tracker.stack();
    // split for the prover: error and answer
    let chosen = choices_of(alloc, &encoding.coding, &entries[place..])?;
    Ok(chosen)
}
