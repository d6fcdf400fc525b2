//! The turn of a soft requirement. It is decided at the turn's base level, or a clause denies it
//! that explains its conflict with earlier turns.
ghost use Rattle.std.specs.Prelude.{◌≡◌, ◌<◌, true, length, None, Some, IfOk, OnOk, IsErrOf, IsOkUnless};
ghost use Rattle.resolvo_pool_core.specs.declared.want.Want.TheVariants.{Memory, Ids};
ghost use Rattle.resolvo_sat.specs.Analysis.{IsDenial};
ghost use Rattle.resolvo_store_core.specs.Clauses.{yes, no};
ghost use Rattle.resolvo_store_core.specs.Signed.{has};
ghost use Rattle.resolvo_sat.specs.Entries.{made_true, top_level};
ghost use Rattle.resolvo_sat.specs.Known.{IsUndecided};
ghost use Rattle.resolvo_sat.specs.State.{history};
ghost use Rattle.resolvo_state.specs.SolverState.{AddsDenial, LacksNumber};
ghost use Rattle.resolvo_encoder.specs.Encoded.{StaysEncoding};
ghost use Rattle.resolvo_encoder.specs.Steps.{IsBuilt};
ghost use Rattle.resolvo_encoder.specs.Progress.{GoesOn};
ghost use Rattle.resolvo_encoder.specs.SoftRequirement.{turn_of, IsTrue, RecordsChosen, RecordsSoft, IsUntaken, TakesBack};
ghost use Rattle.resolvo_encoder.specs.Base.{HasTurn, IsTried, KeepsTurn, KeepsTurns};

use crate::encoder::Encoder;
use resolvo_packages::package_source::Offered;
use resolvo_pool_core::id::{ClauseId, Exact, VariableId};
use resolvo_pool_core::want::R;
use resolvo_sat::analyze::FinalConflict;
use resolvo_store_core::literal::Literal;
use std::alloc::Global;
use std::fmt::Debug;
use std::hash::Hash;

impl<N: Copy + Exact + Hash + Debug + Drop, S: Copy + Exact + Hash + Debug> Encoder<N, S> {
    /// Begins a turn: no backjump goes below the next level. The trail is unchanged.
    pub fn begin_turn(&mut self)
        requires { IsBuilt self.old }
        ensures begun { self.new ≡ turn_of self.old }
        ensures stays { StaysEncoding S.eq self.old self.new }
        ensures built { IsBuilt self.new }
    {
        let level = self.coding.search.top_level() + 1;
        self.coding.set_base_level(level);
    }

    /// Decides a soft requirement at the base level of its turn, unless it is true. Where it is
    /// already false, returns the final conflict.
    pub fn assume_soft(&mut self, alloc: Global, variable: VariableId) -> R<Option<FinalConflict>>
        requires built { IsBuilt self.old }
        requires turn { HasTurn (Some variable) self.old }
        // After an answer.
        ensures stays { OnOk result (StaysEncoding S.eq self.old self.new) }
        ensures goes_on { OnOk result (GoesOn self.old self.new) }
        ensures built { OnOk result (IsBuilt self.new) }
        ensures turn { OnOk result (KeepsTurn (Some variable) self.old self.new) }
        ensures tried { IfOk result (IsTried self.new variable) }
        // After a refusal.
        ensures refusal { IsOkUnless result Memory }
    {
        if self.coding.search.is_true(Literal::new(variable, false)) {
            return Ok(None);
        }
        self.undo_turn();
        // split for the prover: error and answer
        let refusal = self.choose_or_refute(alloc, variable)?;
        Ok(refusal)
    }

    /// Decides a soft requirement that isn't true at the base level of its turn. Where it is
    /// false, returns the final conflict.
    fn choose_or_refute(&mut self, alloc: Global, variable: VariableId) -> R<Option<FinalConflict>>
        requires built { IsBuilt self.old }
        requires above { top_level (history self.old.coding.search)
            < self.old.coding.search.base_level }
        requires turn { HasTurn (Some variable) self.old }
        // After an answer.
        ensures stays { OnOk result (StaysEncoding S.eq self.old self.new) }
        ensures goes_on { OnOk result (GoesOn self.old self.new) }
        ensures built { OnOk result (IsBuilt self.new) }
        ensures turn { OnOk result (KeepsTurn (Some variable) self.old self.new) }
        ensures tried { IfOk result (IsTried self.new variable) }
        // After a refusal.
        ensures refusal { IsOkUnless result Memory }
    {
        if let Some(refusal) = self.coding.search.analyze_final(alloc, variable)? {
            return Ok(Some(refusal));
        }
        self.choose_soft(variable)?;
        Ok(None)
    }

    /// Decides an undecided soft requirement at the base level of its turn.
    pub fn choose_soft(&mut self, variable: VariableId) -> R<()>
        requires built { IsBuilt self.old }
        requires above { top_level (history self.old.coding.search)
            < self.old.coding.search.base_level }
        requires turn { HasTurn (Some variable) self.old }
        requires undecided { IsUndecided (made_true (history self.old.coding.search))
            (yes variable) }
        // After an answer.
        ensures stays { OnOk result (StaysEncoding S.eq self.old self.new) }
        ensures goes_on { OnOk result (GoesOn self.old self.new) }
        ensures built { OnOk result (IsBuilt self.new) }
        ensures turn { OnOk result (KeepsTurn (Some variable) self.old self.new) }
        ensures tried { OnOk result (IsTried self.new variable None) }
        // After a refusal.
        ensures refusal { IsOkUnless result Memory }
    {
        self.coding.choose(variable, ClauseId(0))?;
        Ok(())
    }

    /// Begins the turn of a soft requirement that is false, and returns the final conflict.
    pub fn refute(&mut self, alloc: Global, variable: VariableId) -> R<FinalConflict>
        requires built { IsBuilt self.old }
        requires denied { has (made_true (history self.old.coding.search)) (no variable) ≡ true }
        ensures begun { self.new ≡ turn_of self.old }
        ensures stays { StaysEncoding S.eq self.old self.new }
        ensures built { IsBuilt self.new }
        ensures tried { IfOk result (λ refusal. IsTried self.new variable (Some refusal)) }
        ensures refusal { IsOkUnless result Memory }
    {
        self.begin_turn();
        match self.coding.search.analyze_final(alloc, variable)? {
            Some(refusal) => Ok(refusal),
            None => unreachable!(),
        }
    }

    /// Adds the clause of a final conflict.
    pub fn learn_refusal(&mut self, refusal: FinalConflict) -> R<ClauseId>
        requires built { IsBuilt self.old }
        requires some { 0 < length refusal.literals.items }
        requires forbid { IsDenial self.old.coding.search
            refusal.literals.items refusal.causes.items }
        // After an answer.
        ensures stays { OnOk result (StaysEncoding S.eq self.old self.new) }
        ensures goes_on { OnOk result (GoesOn self.old self.new) }
        ensures built { OnOk result (IsBuilt self.new) }
        ensures turn { OnOk result (KeepsTurns self.old self.new) }
        ensures learnt { IfOk result
            (λ id.
            AddsDenial refusal.literals.items refusal.causes.items id self.old.coding
            self.new.coding) }
        // After a refusal.
        ensures ids { IsErrOf result Ids → LacksNumber self.new.coding }
    {
        // split for the prover: error and answer
        let clause = self.coding.forbid(refusal)?;
        Ok(clause)
    }

    /// Registers a soft requirement, with the mark of its package, and records it as the last one.
    /// Returns its variable.
    pub fn record_soft(&mut self, soft: Offered<N, S>, many: bool) -> R<VariableId>
        requires { IsBuilt self.old }
        ensures recorded { IfOk result (λ v. RecordsSoft S.eq soft many v self.old self.new) }
        ensures ids { IsErrOf result Ids → LacksNumber self.new.coding }
    {
        self.mark(soft.name, many)?;
        let variable = self.register_soft(soft)?;
        self.recorded.softs.push(soft.solvable)?;
        Ok(variable)
    }

    /// Records a soft requirement that is true as the last one.
    pub fn record_chosen(&mut self, soft: S) -> R<()>
        requires built { IsBuilt self.old }
        requires chosen { IsTrue self.old soft }
        ensures recorded { OnOk result (RecordsChosen S.eq soft self.old self.new) }
        ensures refusal { IsOkUnless result Memory }
    {
        self.recorded.softs.push(soft)?;
        Ok(())
    }

    /// Removes the last soft requirement, which isn't chosen.
    pub fn drop_soft(&mut self)
        requires built { IsBuilt self.old }
        requires untaken { IsUntaken self.old }
        ensures { TakesBack S.eq self.old self.new }
    {
        self.recorded.softs.pop();
    }
}
