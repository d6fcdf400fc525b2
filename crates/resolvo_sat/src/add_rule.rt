//! Adds a rule. Most rules have two literals, which differ. Such a one watches both, so its literals,
//! its two links and its watches are all that is written. What is done beside a false literal, or
//! while something is noted, is a call of its own.
ghost use Rattle.std.specs.Prelude.{◌≡◌, ◌<◌, [], ◌∷◌, length, vec_len, true, false, IfOk, IfSome, IsErrOf, IsOkUnless};
ghost use Rattle.resolvo_pool_core.specs.declared.want.Want.TheVariants.{Memory, Ids};
ghost use Rattle.resolvo_store_core.specs.Signed.{negation, same_literal, has};
ghost use Rattle.resolvo_sat.specs.Clauses.{sat_clause, pair_clause};
ghost use Rattle.resolvo_sat.specs.Entries.{made_true};
ghost use Rattle.resolvo_sat.specs.State.{IsState, history, count_of};
ghost use Rattle.resolvo_sat.specs.Steps.{AreInRange};
ghost use Rattle.resolvo_sat.specs.Propagation.{IsReady, AreCovered};
ghost use Rattle.resolvo_sat.specs.Pending.{AreOpen};
ghost use Rattle.resolvo_sat.specs.AddClause.{AddsClause, IsPairOf, IsFreeIf, BeginsPair};

use crate::state::SatState;
use crate::watch_lists::{UnitClause, WatchLists};
use resolvo_pool_core::id::ClauseId;
use resolvo_pool_core::want::R;
use resolvo_store_core::literal::Literal;
use resolvo_store_core::watched_literals::WatchedLiterals;

impl SatState {
    /// Adds a rule. One of a kind that does so may set a literal at once.
    pub fn add_rule(
        &mut self,
        watching: &mut WatchLists,
        literals: &[Literal],
        sets_at_once: bool,
    ) -> R<ClauseId>
        requires ready { IsReady self.old watching.old }
        requires covered { AreCovered self.old watching.old }
        requires in_range { AreInRange (count_of self.old) literals.now }
        requires some { 0 < length literals.now }
        // After an answer.
        ensures added { IfOk result
            (λ id. AddsClause (sat_clause literals.now []) id self.old watching.old self.new
            watching.new) }
        // After a refusal.
        ensures ids { IsErrOf result Ids → length self.old.clauses ≡ 4294967295 }
        ensures full { IsErrOf result Ids → length self.new.clauses ≡ 4294967295 }
    {
        if let Some(pair) = pair_of(literals) {
            return self.add_pair(watching, pair, sets_at_once);
        }
        self.add_other(watching, literals, sets_at_once)
    }

    /// Adds a rule that doesn't have just two literals, which differ.
    #[inline(never)]
    pub(crate) fn add_other(
        &mut self,
        watching: &mut WatchLists,
        literals: &[Literal],
        sets_at_once: bool,
    ) -> R<ClauseId>
        requires ready { IsReady self.old watching.old }
        requires covered { AreCovered self.old watching.old }
        requires in_range { AreInRange (count_of self.old) literals.now }
        requires some { 0 < length literals.now }
        // After an answer.
        ensures added { IfOk result
            (λ id. AddsClause (sat_clause literals.now []) id self.old watching.old self.new
            watching.new) }
        // After a refusal.
        ensures ids { IsErrOf result Ids → length self.old.clauses ≡ 4294967295 }
        ensures full { IsErrOf result Ids → length self.new.clauses ≡ 4294967295 }
    {
        let clause = self.add_clause(watching, literals, &[])?;
        self.note_rule(watching, clause, literals, sets_at_once)?;
        Ok(clause)
    }

    /// Adds a rule of two literals, which differ.
    #[inline(always)]
    pub fn add_pair(
        &mut self,
        watching: &mut WatchLists,
        pair: WatchedLiterals,
        sets_at_once: bool,
    ) -> R<ClauseId>
        requires ready { IsReady self.old watching.old }
        requires covered { AreCovered self.old watching.old }
        requires differ { same_literal pair.first pair.second ≡ false }
        requires in_range { AreInRange (count_of self.old) (pair.first ∷ pair.second ∷ []) }
        // After an answer.
        ensures added { IfOk result
            (λ id. AddsClause (pair_clause pair) id self.old watching.old self.new watching.new) }
        // After a refusal.
        ensures ids { IsErrOf result Ids → length self.old.clauses ≡ 4294967295 }
        ensures full { IsErrOf result Ids → length self.new.clauses ≡ 4294967295 }
    {
        let is_free = self.is_free(pair.first);
        self.add_beside(watching, pair, is_free, sets_at_once)
    }

    /// The same where it is known whether the first literal is false.
    #[inline(always)]
    pub(crate) fn add_beside(
        &mut self,
        watching: &mut WatchLists,
        pair: WatchedLiterals,
        is_free: bool,
        sets_at_once: bool,
    ) -> R<ClauseId>
        requires ready { IsReady self.old watching.old }
        requires covered { AreCovered self.old watching.old }
        requires differ { same_literal pair.first pair.second ≡ false }
        requires in_range { AreInRange (count_of self.old) (pair.first ∷ pair.second ∷ []) }
        requires free { IsFreeIf is_free self.old pair.first }
        // After an answer.
        ensures added { IfOk result
            (λ id. AddsClause (pair_clause pair) id self.old watching.old self.new watching.new) }
        // After a refusal.
        ensures ids { IsErrOf result Ids → length self.old.clauses ≡ 4294967295 }
        ensures full { IsErrOf result Ids → length self.new.clauses ≡ 4294967295 }
    {
        let clause = self.push_pair(pair.first, pair.second)?;
        self.begin_pair(watching, clause, pair, is_free, sets_at_once)?;
        Ok(clause)
    }

    /// Lists a new rule in the lists of its two literals.
    #[inline(always)]
    fn begin_pair(
        &self,
        watching: &mut WatchLists,
        clause: ClauseId,
        pair: WatchedLiterals,
        is_free: bool,
        sets_at_once: bool,
    ) -> R<()>
        requires state { IsState self.now }
        requires differ { same_literal pair.first pair.second ≡ false }
        requires free { IsFreeIf is_free self.now pair.first }
        ensures begun { IfOk result
            (λ _. BeginsPair clause pair self.now watching.old watching.new) }
        ensures refusal { IsOkUnless result Memory }
    {
        if self.is_plain(watching, &pair, is_free) {
            return self.begin_plain(watching, clause, pair);
        }
        self.begin_closed(watching, clause, pair, sets_at_once)
    }

    /// Whether neither literal of a new rule is false, while nothing is noted.
    #[inline(always)]
    fn is_plain(&self, watching: &WatchLists, pair: &WatchedLiterals, is_free: bool) -> bool
        requires state { IsState self.now }
        requires free { IsFreeIf is_free self.now pair.now.first }
        ensures open { result ≡ true → AreOpen (made_true (history self.now)) pair.now }
        ensures plain { is_free ≡ true
            → vec_len watching.now.at_once ≡ 0
            → has (made_true (history self.now)) (negation pair.now.second) ≡ false
            → result ≡ true }
    {
        if !is_free {
            return false;
        }
        if !watching.at_once.is_empty() {
            return false;
        }
        if self.is_false(pair.second) {
            return false;
        }
        true
    }

    /// Lists a new rule, of which neither literal is false.
    #[inline(always)]
    fn begin_plain(
        &self,
        watching: &mut WatchLists,
        clause: ClauseId,
        pair: WatchedLiterals,
    ) -> R<()>
        requires differ { same_literal pair.first pair.second ≡ false }
        requires both { AreOpen (made_true (history self.now)) pair }
        ensures begun { IfOk result
            (λ _. BeginsPair clause pair self.now watching.old watching.new) }
        ensures refusal { IsOkUnless result Memory }
    {
        let literal = pair.first;
        watching.begin(UnitClause { clause, literal }, Some(pair), true)?;
        Ok(())
    }

    /// Lists a new rule beside a false literal, or while something is noted.
    #[inline(never)]
    fn begin_closed(
        &self,
        watching: &mut WatchLists,
        clause: ClauseId,
        pair: WatchedLiterals,
        sets_at_once: bool,
    ) -> R<()>
        requires state { IsState self.now }
        requires differ { same_literal pair.first pair.second ≡ false }
        ensures begun { IfOk result
            (λ _. BeginsPair clause pair self.now watching.old watching.new) }
        ensures refusal { IsOkUnless result Memory }
    {
        let WatchedLiterals { first, second } = pair;
        let watched = Some(WatchedLiterals { first, second });
        self.note_pending(watching, clause, &watched)?;
        let literal = first;
        watching.begin(UnitClause { clause, literal }, watched, true)?;
        self.note_rule(watching, clause, &[first, second], sets_at_once)?;
        Ok(())
    }

    /// Whether a literal isn't false.
    #[inline(always)]
    pub(crate) fn is_free(&self, literal: Literal) -> bool
        requires { IsState self.now }
        ensures { IsFreeIf result self.now literal }
    {
        if self.is_false(literal) {
            return false;
        }
        true
    }
}

/// The two literals of a clause that has just two, which differ.
#[inline(always)]
fn pair_of(literals: &[Literal]) -> Option<WatchedLiterals>
    ensures { IfSome result (IsPairOf literals.now) }
{
    if let [first, second] = literals {
        if *first == *second {
            return None;
        }
        return Some(WatchedLiterals {
            first: *first,
            second: *second,
        });
    }
    None
}
