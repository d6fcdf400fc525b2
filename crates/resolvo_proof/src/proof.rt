//! The proof of a search, as a list of steps that anybody can check.
ghost use Rattle.std.specs.Prelude.{Bool, IfOk, IfSome, IsOkUnless, MatchOption};
ghost use Rattle.resolvo_pool_core.specs.declared.want.Want.TheVariants.{Memory};
ghost use Rattle.resolvo_sat.specs.Analysis.{IsRefusal};
ghost use Rattle.resolvo_state.specs.SolverState.{IsCoding};
ghost use Rattle.resolvo_state.specs.declared.registry.Registry.{Registry};
ghost use Rattle.resolvo_state.specs.Registered.{AreTied};
ghost use Rattle.resolvo_pool_core.specs.RuleKeeping.{Packages};
ghost use Rattle.resolvo_state.specs.Spelled.{Spelled};
ghost use Rattle.resolvo_proof.specs.Drawn.{AreDrawn, HaveOneSigns};
ghost use Rattle.resolvo_proof.specs.Places.{HaveOnePlace, AreNamedBy};
ghost use Rattle.resolvo_proof.specs.Written.{AreSteps, AreStepsThen};
ghost use Rattle.resolvo_proof.specs.Proof.{Proves, DenyRoot, EndsEmpty, Convinces};

use crate::step::ProofStep;
use crate::write::{write_derived, write_step};
use resolvo_pool_core::id::Exact;
use resolvo_pool_core::want::R;
use resolvo_sat::analyze::FinalConflict;
use resolvo_state::solver_state::SolverState;
use std::alloc::Global;
use std::fmt::Debug;
use std::hash::Hash;

/// The steps of the clauses after the root's, in their order, and the last step of a refusal, where
/// there is one.
pub fn proof_of<N: Copy + Exact + Hash + Debug, S: Copy + Exact + Hash + Debug>(
    alloc: Global,
    coding: &SolverState<N, S>,
    last: Option<&FinalConflict>,
) -> R<Vec<ProofStep<N, S>>>
    requires coding { IsCoding coding.now }
    requires refusal { IfSome last
        (λ r. IsRefusal coding.now.search r.now.literals.items r.now.causes.items) }
    // After an answer.
    ensures steps { IfOk result
        (λ v.
        MatchOption last.entry (AreSteps coding.now v.items)
        (λ r. AreStepsThen coding.now r.now.literals.items r.now.causes.items v.items)) }
    ensures proof { IfOk result (λ v. Proves coding.now v.items) }
    ensures empty { IfOk result
        (λ v. IfSome last.entry (λ r. DenyRoot r.now.literals.items → EndsEmpty v.items)) }
    ensures convinces { IfOk result (λ v. Convinces v.items) }
    ensures places { IfOk result
        (λ v.
        (r : Registry N) (package_of : S → N)
        → AreTied r coding.now
        → AreNamedBy r coding.now package_of
        → HaveOnePlace v.items) }
    ensures drawn { IfOk result
        (λ v.
        IfSome last.entry (λ r. DenyRoot r.now.literals.items)
        → (same : S → S → Bool) (p : Packages N S)
        → Spelled same p coding.now
        → AreDrawn same p v.items) }
    ensures signs { IfOk result (λ v. HaveOneSigns v.items) }
    // After a refusal.
    ensures refusal { IsOkUnless result Memory }
{
    let mut steps = steps_of(alloc, coding)?;
    match last {
        None => Ok(steps),
        Some(refusal) => {
            let literals = refusal.literals.as_slice();
            let step = write_derived(alloc, coding, literals, refusal.causes.as_slice())?;
            steps.push(step)?;
            Ok(steps)
        }
    }
}

/// The steps of the clauses after the root's.
fn steps_of<N: Copy + Exact + Hash + Debug, S: Copy + Exact + Hash + Debug>(
    alloc: Global,
    coding: &SolverState<N, S>,
) -> R<Vec<ProofStep<N, S>>>
    requires coding { IsCoding coding.now }
    ensures steps { IfOk result (λ v. AreSteps coding.now v.items) }
    ensures refusal { IsOkUnless result Memory }
{
    let mut steps = Vec::new(alloc);
    for number in 1..coding.search.clauses.len() {
        steps.push(write_step(alloc, coding, number)?)?;
    }
    Ok(steps)
}
