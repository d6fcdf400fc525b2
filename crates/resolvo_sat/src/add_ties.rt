//! Adds the rules that tie a variable to the binary digits of a place. They have two literals each,
//! of which the first is the same. Most often none of these is false, and nothing is noted. Then
//! room is made for all of the rules at once, and each is only written.
ghost use Rattle.std.specs.Prelude.{◌≡◌, ◌<◌, ◌+◌, [], ◌∷◌, length, true, false, Some, IfOk, OnOk, IsErrOf, IsOkUnless};
ghost use Rattle.resolvo_pool_core.specs.declared.want.Want.TheVariants.{Memory, Ids};
ghost use Rattle.resolvo_store_core.specs.Signed.{same_literal};
ghost use Rattle.resolvo_store_core.specs.Watches.{IsReadyFor, KeepsRoom, HasRoomFor};
ghost use Rattle.resolvo_sat.specs.Clauses.{pair_clause};
ghost use Rattle.resolvo_sat.specs.Entries.{made_true};
ghost use Rattle.resolvo_sat.specs.State.{IsState, history, count_of};
ghost use Rattle.resolvo_sat.specs.Steps.{AreInRange};
ghost use Rattle.resolvo_sat.specs.Propagation.{IsReady, AreCovered};
ghost use Rattle.resolvo_sat.specs.Pending.{AreOpen};
ghost use Rattle.resolvo_sat.specs.AddClause.{AddsClause, AddsClauses, AreVariables, Begins, IsFreeIf, tie_clauses, IsPlainDigit, ArePlainTies};

use crate::state::SatState;
use crate::watch_lists::WatchLists;
use resolvo_pool_core::id::{ClauseId, VariableId};
use resolvo_pool_core::want::R;
use resolvo_store_core::literal::Literal;
use resolvo_store_core::watched_literals::WatchedLiterals;
use resolvo_store_core::watched_pair::WatchedPair;

impl SatState {
    /// Adds the rules that tie a variable to the binary digits of a place, from the lowest on. Where
    /// the variable is true, each digit's variable has the value of the digit.
    pub fn add_ties(
        &mut self,
        watching: &mut WatchLists,
        variable: VariableId,
        place: u32,
        digits: &[VariableId],
    ) -> R<()>
        requires ready { IsReady self.old watching.old }
        requires covered { AreCovered self.old watching.old }
        requires variable { variable.0 < count_of self.old }
        requires digits { AreVariables (count_of self.old) digits.now }
        // After an answer.
        ensures added { IfOk result (λ _. AddsClauses (tie_clauses place variable digits.now)
            self.old self.new watching.new) }
        // After a refusal.
        ensures full { IsErrOf result Ids → length self.new.clauses ≡ 4294967295 }
    {
        if self.are_plain(watching, variable, digits) {
            return self.add_plain_ties(watching, variable, place, digits);
        }
        self.add_other_ties(watching, variable, place, digits)
    }

    /// Whether nothing is noted, no literal of the ties is false, whatever the place, and those of
    /// each tie differ.
    #[inline(always)]
    fn are_plain(&self, watching: &WatchLists, variable: VariableId, digits: &[VariableId]) -> bool
        requires state { IsState self.now }
        requires variable { variable.0 < count_of self.now }
        requires digits { AreVariables (count_of self.now) digits.now }
        ensures { result ≡ true → ArePlainTies (made_true (history self.now)) variable digits.now }
    {
        if !watching.at_once.is_empty() {
            return false;
        }
        let first = Literal::new(variable, true);
        let is_free = self.is_free(first);
        if !is_free {
            return false;
        }
        for digit in digits {
            if !self.is_plain_digit(variable, *digit) {
                return false;
            }
        }
        true
    }

    /// Whether a digit has no value, and is another variable.
    #[inline(always)]
    fn is_plain_digit(&self, variable: VariableId, digit: VariableId) -> bool
        requires state { IsState self.now }
        requires digit { digit.0 < count_of self.now }
        ensures { result ≡ true → IsPlainDigit (made_true (history self.now)) variable digit }
    {
        if digit.0 == variable.0 {
            return false;
        }
        let zero = Literal::new(digit, true);
        let can_be_zero = self.is_free(zero);
        if !can_be_zero {
            return false;
        }
        let one = Literal::new(digit, false);
        self.is_free(one)
    }

    /// Adds the ties where none of their literals is false, and nothing is noted.
    #[inline(always)]
    fn add_plain_ties(
        &mut self,
        watching: &mut WatchLists,
        variable: VariableId,
        place: u32,
        digits: &[VariableId],
    ) -> R<()>
        requires ready { IsReady self.old watching.old }
        requires covered { AreCovered self.old watching.old }
        requires variable { variable.0 < count_of self.old }
        requires digits { AreVariables (count_of self.old) digits.now }
        requires plain { ArePlainTies (made_true (history self.old)) variable digits.now }
        // After an answer.
        ensures added { IfOk result (λ _. AddsClauses (tie_clauses place variable digits.now)
            self.old self.new watching.new) }
        // After a refusal.
        ensures full { IsErrOf result Ids → length self.new.clauses ≡ 4294967295 }
    {
        self.reserve_ties(watching, digits)?;
        let first = Literal::new(variable, true);
        let mut rest = place;
        for digit in digits {
            let value = rest % 2 == 1;
            let second = Literal::new(*digit, !value);
            self.add_plain_tie(watching, WatchedLiterals { first, second })?;
            rest /= 2;
        }
        Ok(())
    }

    /// Makes room for the ties to these digits.
    #[inline(always)]
    fn reserve_ties(&self, watching: &mut WatchLists, digits: &[VariableId]) -> R<()>
        requires ready { IsReady self.now watching.old }
        requires covered { AreCovered self.now watching.old }
        ensures ready { OnOk result (IsReady self.now watching.new) }
        ensures covered { OnOk result (AreCovered self.now watching.new) }
        ensures room { OnOk result
            (HasRoomFor (count_of self.now) (length self.now.clauses + length digits.now)
            watching.new.watches) }
        ensures refusal { IsOkUnless result Memory }
    {
        let variables = self.variables.len();
        let clauses = self.clauses.len();
        let more = digits.len();
        watching.watches.reserve_clauses(variables, clauses, more)?;
        Ok(())
    }

    /// Adds a rule of two literals, which aren't false, where there is room for its watches.
    #[inline(always)]
    fn add_plain_tie(&mut self, watching: &mut WatchLists, pair: WatchedLiterals) -> R<ClauseId>
        requires ready { IsReady self.old watching.old }
        requires covered { AreCovered self.old watching.old }
        requires differ { same_literal pair.first pair.second ≡ false }
        requires in_range { AreInRange (count_of self.old) (pair.first ∷ pair.second ∷ []) }
        requires both { AreOpen (made_true (history self.old)) pair }
        requires room { HasRoomFor (count_of self.old) (length self.old.clauses + 1)
            watching.old.watches }
        // After an answer.
        ensures added { IfOk result
            (λ id. AddsClause (pair_clause pair) id self.old watching.old self.new watching.new) }
        ensures room { OnOk result (KeepsRoom watching.old.watches watching.new.watches) }
        // After a refusal.
        ensures full { IsErrOf result Ids → length self.new.clauses ≡ 4294967295 }
    {
        let clause = self.push_pair(pair.first, pair.second)?;
        watching.begin_ready(clause, pair)?;
        Ok(clause)
    }

    /// Adds the ties beside a false literal, or while something is noted.
    #[inline(never)]
    fn add_other_ties(
        &mut self,
        watching: &mut WatchLists,
        variable: VariableId,
        place: u32,
        digits: &[VariableId],
    ) -> R<()>
        requires ready { IsReady self.old watching.old }
        requires covered { AreCovered self.old watching.old }
        requires variable { variable.0 < count_of self.old }
        requires digits { AreVariables (count_of self.old) digits.now }
        // After an answer.
        ensures added { IfOk result (λ _. AddsClauses (tie_clauses place variable digits.now)
            self.old self.new watching.new) }
        // After a refusal.
        ensures full { IsErrOf result Ids → length self.new.clauses ≡ 4294967295 }
    {
        let first = Literal::new(variable, true);
        let is_free = self.is_free(first);
        let mut rest = place;
        for digit in digits {
            let value = rest % 2 == 1;
            let second = Literal::new(*digit, !value);
            self.add_tie(watching, WatchedLiterals { first, second }, is_free)?;
            rest /= 2;
        }
        Ok(())
    }

    /// Adds a rule of two literals, where it is known whether the first one is false.
    #[inline(always)]
    fn add_tie(
        &mut self,
        watching: &mut WatchLists,
        pair: WatchedLiterals,
        is_free: bool,
    ) -> R<ClauseId>
        requires ready { IsReady self.old watching.old }
        requires covered { AreCovered self.old watching.old }
        requires in_range { AreInRange (count_of self.old) (pair.first ∷ pair.second ∷ []) }
        requires free { IsFreeIf is_free self.old pair.first }
        // After an answer.
        ensures added { IfOk result
            (λ id. AddsClause (pair_clause pair) id self.old watching.old self.new watching.new) }
        // After a refusal.
        ensures full { IsErrOf result Ids → length self.new.clauses ≡ 4294967295 }
    {
        if pair.first == pair.second {
            return self.add_other(watching, &[pair.first, pair.second], true);
        }
        self.add_beside(watching, pair, is_free, true)
    }
}

impl WatchLists {
    /// Lists a new rule in the lists of its two literals, where there is room for it.
    #[inline(always)]
    fn begin_ready(&mut self, clause: ClauseId, watched: WatchedLiterals) -> R<()>
        requires differ { same_literal watched.first watched.second ≡ false }
        requires ready { IsReadyFor self.old.watches watched clause }
        ensures begun { IfOk result
            (λ _. Begins (record { clause = clause; literal = watched.first }) (Some watched) true
            self.old self.new) }
        ensures room { KeepsRoom self.old.watches self.new.watches }
        ensures refusal { IsOkUnless result Memory }
    {
        let WatchedLiterals { first, second } = watched;
        self.watches
            .start_ready(WatchedLiterals { first, second }, clause);
        self.watched
            .push(WatchedPair::of(Some(WatchedLiterals { first, second })))?;
        Ok(())
    }
}
