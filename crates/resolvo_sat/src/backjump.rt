//! The backjump: a learnt clause is added, after a jump to the level at which it asserts its
//! literal.
ghost use Rattle.std.specs.Prelude.{◌≡◌, length, IfOk, IsErrOf};
ghost use Rattle.resolvo_pool_core.specs.declared.want.Want.TheVariants.{Ids};
ghost use Rattle.resolvo_sat.specs.Analysis.{IsLearnt};
ghost use Rattle.resolvo_sat.specs.Propagation.{IsReady, AreCovered};
ghost use Rattle.resolvo_sat.specs.AddClause.{Learns};

use crate::analyze::Learnt;
use crate::state::SatState;
use crate::watch_lists::WatchLists;
use resolvo_pool_core::id::ClauseId;
use resolvo_pool_core::want::R;

impl SatState {
    /// Jumps to the level of a learnt clause, adds the clause, and assigns its asserting literal.
    pub fn learn(&mut self, watching: &mut WatchLists, learnt: Learnt) -> R<ClauseId>
        requires ready { IsReady self.old watching.old }
        requires covered { AreCovered self.old watching.old }
        requires learnt { IsLearnt self.old learnt }
        // After an answer.
        ensures learns { IfOk result (λ id. Learns learnt id self.old self.new watching.new) }
        // After a refusal.
        ensures ids { IsErrOf result Ids → length self.old.clauses ≡ 4294967295 }
        ensures full { IsErrOf result Ids → length self.new.clauses ≡ 4294967295 }
    {
        self.undo_until(learnt.level);
        let clause = self.add_clause(
            watching,
            learnt.literals.as_slice(),
            learnt.causes.as_slice(),
        )?;
        self.assign(clause, learnt.asserting)?;
        Ok(clause)
    }
}
