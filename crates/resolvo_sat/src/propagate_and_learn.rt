//! One step of the search: unit propagation, and learning from a falsified clause.
ghost use Rattle.std.specs.Prelude.{◌≡◌, length, IfOk, IsErrOf};
ghost use Rattle.resolvo_pool_core.specs.declared.want.Want.TheVariants.{Ids};
ghost use Rattle.resolvo_sat.specs.Propagation.{IsReady, AreCovered};
ghost use Rattle.resolvo_sat.specs.PropagateAndLearn.{IsProgress};

use crate::analyze::{Analysis, FinalConflict};
use crate::state::SatState;
use crate::watch_lists::WatchLists;
use resolvo_pool_core::id::ClauseId;
use resolvo_pool_core::want::R;
use std::alloc::Global;

/// The outcome of one step of the search.
#[derive(Drop)]
pub enum StepResult {
    /// Nothing is left to propagate.
    Complete,
    /// A clause was falsified, and this one was learnt from it.
    Learnt(ClauseId),
    /// A clause was falsified by choices that the turn does not undo.
    Refused(FinalConflict),
}

impl SatState {
    /// Assigns what the clauses force; where one is falsified, learns from it, or returns why the
    /// turn is refused.
    pub fn propagate_and_learn(&mut self, alloc: Global, watching: &mut WatchLists) -> R<StepResult>
        requires ready { IsReady self.old watching.old }
        requires covered { AreCovered self.old watching.old }
        ensures progress { IfOk result (IsProgress self.old watching.old self.new watching.new) }
        ensures ids { IsErrOf result Ids → length self.old.clauses ≡ 4294967295 }
        ensures full { IsErrOf result Ids → length self.new.clauses ≡ 4294967295 }
    {
        match self.propagate(watching)? {
            None => Ok(StepResult::Complete),
            Some(falsified) => match self.analyze(alloc, &mut watching.seen, falsified)? {
                Analysis::Refused(refusal) => Ok(StepResult::Refused(refusal)),
                Analysis::Learnt(learnt) => {
                    let clause = self.learn(watching, learnt)?;
                    Ok(StepResult::Learnt(clause))
                }
            },
        }
    }
}
