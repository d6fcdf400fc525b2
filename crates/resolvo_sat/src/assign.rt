//! The steps of the search: assign a literal, decide a variable, undo entries, add a clause.
ghost use Rattle.std.specs.Prelude.{◌≡◌, ◌<◌, ◌≤◌, [], ◌∷◌, length, true, IfOk, IsErrOf, IsOkUnless};
ghost use Rattle.resolvo_pool_core.specs.declared.want.Want.TheVariants.{Memory, Ids};
ghost use Rattle.resolvo_store_core.specs.Signed.{negation, has};
ghost use Rattle.resolvo_store_core.specs.Clauses.{yes};
ghost use Rattle.resolvo_sat.specs.Known.{Forces, IsUndecided, clause_at};
ghost use Rattle.resolvo_sat.specs.Entries.{made_true};
ghost use Rattle.resolvo_sat.specs.Clauses.{sat_clause};
ghost use Rattle.resolvo_sat.specs.State.{IsState, IsDerived, history, clauses_of, count_of};
ghost use Rattle.resolvo_sat.specs.Steps.{AreInRange, Sets, Chooses, Shortens, Undoes, Adds};

use crate::state::SatState;
use resolvo_pool_core::id::{ClauseId, VariableId};
use resolvo_pool_core::want::R;
use resolvo_store_core::decision::Decision;
use resolvo_store_core::decision_tracker::DecisionTracker;
use resolvo_store_core::literal::Literal;

impl SatState {
    /// Whether a literal is true.
    pub fn is_true(&self, literal: Literal) -> bool
        requires { IsState self.now }
        ensures { result ≡ has (made_true (history self.now)) literal }
    {
        literal.is_true(self.tracker.map())
    }

    /// Whether a literal is false.
    pub fn is_false(&self, literal: Literal) -> bool
        requires { IsState self.now }
        ensures { result ≡ has (made_true (history self.now)) (negation literal) }
    {
        literal.is_false(self.tracker.map())
    }

    /// Assigns the literal that a clause forces, at the current level.
    pub fn assign(&mut self, clause: ClauseId, literal: Literal) -> R<()>
        requires state { IsState self.old }
        requires forces { Forces (made_true (history self.old)) (clause_at (clauses_of self.old) clause.0) literal }
        ensures set { IfOk result (λ _. Sets clause literal self.old self.new) }
        ensures refusal { IsOkUnless result Memory }
    {
        let level = self.top_level();
        let decision = Decision {
            variable: literal.variable(),
            value: literal.satisfying_value(),
            derived_from: clause,
        };
        self.tracker.try_add_decision(decision, level)?;
        Ok(())
    }

    /// Decides that a variable is true, for a clause, at the next level.
    pub fn choose(&mut self, variable: VariableId, clause: ClauseId) -> R<()>
        requires state { IsState self.old }
        requires in_range { variable.0 < count_of self.old }
        requires undecided { IsUndecided (made_true (history self.old)) (yes variable) }
        ensures chosen { IfOk result (λ _. Chooses variable clause self.old self.new) }
        ensures refusal { IsOkUnless result Memory }
    {
        let level = self.top_level() + 1;
        let decision = Decision {
            variable,
            value: true,
            derived_from: clause,
        };
        self.tracker.try_add_decision(decision, level)?;
        Ok(())
    }

    /// Removes the entries above a level; the root's, which is the first, always stays.
    pub fn undo_until(&mut self, level: u32)
        requires { IsState self.old }
        ensures { Undoes level self.old self.new }
    {
        if level == 0 {
            self.undo_to_root();
        } else {
            self.undo_above(level);
        }
    }

    /// Removes the entries above a level. Propagation continues after those that are left; it
    /// restarts where a literal that guards a false one of a lower level may be unassigned.
    fn undo_above(&mut self, level: u32)
        requires state { IsState self.old }
        requires one { 1 ≤ level }
        ensures { Undoes level self.old self.new }
    {
        self.tracker.undo_until(level);
        let left = self.tracker.stack().len();
        self.indexed = self.indexed.min(left);
        if level < self.guard_level {
            self.qhead = 0;
            self.guard_level = 0;
        } else {
            self.qhead = self.qhead.min(left);
        }
    }

    /// Removes all entries but the root's. Propagation restarts there.
    fn undo_to_root(&mut self)
        requires { IsState self.old }
        ensures { Undoes 0 self.old self.new }
    {
        undo_to_first(&mut self.tracker);
        self.indexed = self.indexed.min(1);
        self.qhead = 0;
        self.guard_level = 0;
    }

    /// Adds a clause: a rule, or one that follows from its antecedents.
    #[inline(always)]
    pub fn push_clause(&mut self, literals: &[Literal], causes: &[ClauseId]) -> R<ClauseId>
        requires state { IsState self.old }
        requires follows { 0 < length causes.now
            → IsDerived (clauses_of self.old) literals.now causes.now }
        requires in_range { AreInRange (count_of self.old) literals.now }
        // After an answer.
        ensures added { IfOk result
            (λ id. Adds (sat_clause literals.now causes.now) id self.old self.new) }
        // After a refusal.
        ensures ids { IsErrOf result Ids → length self.old.clauses ≡ 4294967295 }
        ensures full { IsErrOf result Ids → length self.new.clauses ≡ 4294967295 }
    {
        // split for the prover: error and answer
        let id = self.clauses.push(literals, causes)?;
        Ok(id)
    }

    /// Adds a rule of two literals.
    #[inline(always)]
    pub fn push_pair(&mut self, first: Literal, second: Literal) -> R<ClauseId>
        requires state { IsState self.old }
        requires in_range { AreInRange (count_of self.old) (first ∷ second ∷ []) }
        // After an answer.
        ensures added { IfOk result
            (λ id. Adds (sat_clause (first ∷ second ∷ []) []) id self.old self.new) }
        // After a refusal.
        ensures ids { IsErrOf result Ids → length self.old.clauses ≡ 4294967295 }
        ensures full { IsErrOf result Ids → length self.new.clauses ≡ 4294967295 }
    {
        // split for the prover: error and answer
        let id = self.clauses.push_pair(first, second)?;
        Ok(id)
    }
}

/// Removes all entries of a trail but the first.
fn undo_to_first(tracker: &mut DecisionTracker)
    requires { 0 < length tracker.old.trail }
    ensures shortened { Shortens tracker.old tracker.new }
    ensures one { length tracker.new.trail ≡ 1 }
{
    while tracker.stack().len() > 1 {
        tracker.undo_last();
    }
}
