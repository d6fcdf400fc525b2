//! Calls that continue the search: a step, propagation alone, a decision, a return to an earlier
//! level, the first level of a turn.
ghost use Rattle.std.specs.Prelude.{◌≡◌, ◌<◌, ◌≤◌, length, IfOk, IfSome, OnOk, IsErrOf, IsOkUnless};
ghost use Rattle.resolvo_pool_core.specs.declared.want.Want.TheVariants.{Memory, Ids};
ghost use Rattle.resolvo_store_core.specs.Clauses.{yes};
ghost use Rattle.resolvo_sat.specs.Known.{IsUndecided};
ghost use Rattle.resolvo_sat.specs.Entries.{made_true};
ghost use Rattle.resolvo_sat.specs.Propagation.{Extends};
ghost use Rattle.resolvo_sat.specs.State.{count_of, history};
ghost use Rattle.resolvo_sat.specs.Steps.{Chooses, Undoes};
ghost use Rattle.resolvo_state.specs.SolverState.{IsCoding, Advances, KeepsClauses, SetsBaseLevel, LacksNumber};

use crate::clause_kind::ClauseKind;
use crate::solver_state::SolverState;
use resolvo_pool_core::id::{ClauseId, Exact, VariableId};
use resolvo_pool_core::want::R;
use resolvo_sat::propagate_and_learn::StepResult;
use std::alloc::Global;
use std::fmt::Debug;
use std::hash::Hash;

impl<N: Copy + Exact + Hash + Debug, S: Copy + Exact + Hash + Debug> SolverState<N, S> {
    /// One step of the search: assigns what the clauses force, and learns where one is falsified.
    pub fn propagate_and_learn(&mut self, alloc: Global) -> R<StepResult>
        requires { IsCoding self.old }
        ensures advanced { IfOk result (Advances self.old self.new) }
        ensures ids { IsErrOf result Ids → length self.old.search.clauses ≡ 4294967295 }
        ensures full { IsErrOf result Ids → LacksNumber self.new }
    {
        let progress = self.search.propagate_and_learn(alloc, &mut self.watching)?;
        match progress {
            StepResult::Complete => Ok(StepResult::Complete),
            StepResult::Refused(refusal) => Ok(StepResult::Refused(refusal)),
            StepResult::Learnt(clause) => {
                self.kinds.push(ClauseKind::Learnt)?;
                Ok(StepResult::Learnt(clause))
            }
        }
    }

    /// Assigns what the clauses force, and learns nothing. A clause that is falsified, if one is met.
    pub fn propagate(&mut self) -> R<Option<ClauseId>>
        requires { IsCoding self.old }
        // After an answer.
        ensures extends { OnOk result (Extends self.old.search self.new.search) }
        ensures kept { OnOk result (KeepsClauses self.old self.new) }
        ensures in_range { IfOk result
            (λ falsified. IfSome falsified (λ c. c.0 < length self.new.search.clauses)) }
        // After a refusal.
        ensures refusal { IsOkUnless result Memory }
    {
        // split for the prover: error and answer
        let falsified = self.search.propagate(&mut self.watching)?;
        Ok(falsified)
    }

    /// Decides that a variable is true, for a clause, at the next level.
    pub fn choose(&mut self, variable: VariableId, clause: ClauseId) -> R<()>
        requires coding { IsCoding self.old }
        requires in_range { variable.0 < count_of self.old.search }
        requires undecided { IsUndecided (made_true (history self.old.search)) (yes variable) }
        // After an answer.
        ensures chosen { OnOk result (Chooses variable clause self.old.search self.new.search) }
        ensures kept { OnOk result (KeepsClauses self.old self.new) }
        // After a refusal.
        ensures refusal { IsOkUnless result Memory }
    {
        self.search.choose(variable, clause)
    }

    /// Removes the entries above a level; the root's, which is the first, always stays.
    pub fn undo_until(&mut self, level: u32)
        requires { IsCoding self.old }
        ensures undone { Undoes level self.old.search self.new.search }
        ensures kept { KeepsClauses self.old self.new }
    {
        let top = self.search.top_level();
        self.search.undo_until(level);
        self.watching.forget_above(level, top);
    }

    /// Begins a turn at a level: no jump goes below it.
    pub fn set_base_level(&mut self, level: u32)
        requires coding { IsCoding self.old }
        requires one { 1 ≤ level }
        ensures set { SetsBaseLevel level self.old.search self.new.search }
        ensures is { self.new
            ≡ record self.old { search = record self.old.search { base_level = level } } }
        ensures kept { KeepsClauses self.old self.new }
    {
        self.search.base_level = level;
    }
}
