//! Adds a clause. It watches two of its literals at once, at the front of their lists. One that
//! watches a false literal is pending: the next propagation visits it first.
ghost use Rattle.std.specs.Prelude.{◌≡◌, ◌<◌, length, true, false, not, IfOk, IfSome, IsErrOf, IsOkUnless};
ghost use Rattle.resolvo_pool_core.specs.declared.want.Want.TheVariants.{Memory, Ids};
ghost use Rattle.resolvo_store_core.specs.Signed.{same_literal, has};
ghost use Rattle.resolvo_sat.specs.Clauses.{sat_clause};
ghost use Rattle.resolvo_sat.specs.Entries.{made_true};
ghost use Rattle.resolvo_sat.specs.State.{IsState, IsDerived, history, clauses_of, count_of};
ghost use Rattle.resolvo_sat.specs.Steps.{AreInRange};
ghost use Rattle.resolvo_sat.specs.Propagation.{IsReady, AreCovered};
ghost use Rattle.resolvo_sat.specs.Pending.{AreOpen};
ghost use Rattle.resolvo_sat.specs.AddClause.{IsEither, AreBoth, IsBeside, AreFirst, with_last, Begins, NotesPending, AddsClause};

use crate::state::SatState;
use crate::watch_lists::{UnitClause, WatchLists};
use resolvo_pool_core::id::ClauseId;
use resolvo_pool_core::want::R;
use resolvo_store_core::literal::Literal;
use resolvo_store_core::watched_literals::WatchedLiterals;
use resolvo_store_core::watched_pair::WatchedPair;

impl SatState {
    /// Adds a clause: a rule, or one that follows from its antecedents. It watches two of its
    /// literals. A unit clause is listed as such, and watches nothing.
    pub fn add_clause(
        &mut self,
        watching: &mut WatchLists,
        literals: &[Literal],
        causes: &[ClauseId],
    ) -> R<ClauseId>
        requires ready { IsReady self.old watching.old }
        requires covered { AreCovered self.old watching.old }
        requires follows { 0 < length causes.now
            → IsDerived (clauses_of self.old) literals.now causes.now }
        requires in_range { AreInRange (count_of self.old) literals.now }
        requires some { 0 < length literals.now }
        // After an answer.
        ensures added { IfOk result
            (λ id. AddsClause (sat_clause literals.now causes.now) id self.old watching.old self.new
            watching.new) }
        // After a refusal.
        ensures ids { IsErrOf result Ids → length self.old.clauses ≡ 4294967295 }
        ensures full { IsErrOf result Ids → length self.new.clauses ≡ 4294967295 }
    {
        let literal = literals[0];
        let is_rule = causes.is_empty();
        let watched = self.first_watches(watching, literals, literal, is_rule);
        let clause = self.push_clause(literals, causes)?;
        self.note_pending(watching, clause, &watched)?;
        watching.begin(UnitClause { clause, literal }, watched, is_rule)?;
        Ok(clause)
    }

    /// The literals that a new clause watches: this one, which is its first one, and one beside it.
    /// There are none where it has this one alone.
    #[inline(always)]
    fn first_watches(
        &self,
        watching: &WatchLists,
        literals: &[Literal],
        first: Literal,
        is_rule: bool,
    ) -> Option<WatchedLiterals>
        requires state { IsState self.now }
        requires present { has literals.now first ≡ true }
        ensures { AreFirst literals.now first result }
    {
        if let [one, other] = literals {
            return two(*one, *other);
        }
        match self.second_watch(watching, literals, first, is_rule) {
            Some(second) => Some(WatchedLiterals { first, second }),
            None => None,
        }
    }

    /// The literal that a new clause watches beside its first one: the first other one that isn't
    /// false, or else the first other one. Of a learnt clause it is the last one.
    fn second_watch(
        &self,
        watching: &WatchLists,
        literals: &[Literal],
        first: Literal,
        is_rule: bool,
    ) -> Option<Literal>
        requires { IsState self.now }
        ensures { IsBeside literals.now first result }
    {
        let mut second = None;
        for literal in literals {
            if *literal != first {
                if self.is_second(watching, *literal, is_rule) {
                    return Some(*literal);
                }
                second = Some(first_or_last(second, *literal, is_rule));
            }
        }
        second
    }

    /// Whether a new clause watches this other literal, whatever comes behind it.
    fn is_second(&self, watching: &WatchLists, literal: Literal, is_rule: bool) -> bool
        requires { IsState self.now }
    {
        is_rule && !self.is_false_with_new(watching, literal)
    }

    /// Lists a new clause as pending, where a literal that it watches is false.
    #[inline(always)]
    pub(crate) fn note_pending(
        &self,
        watching: &mut WatchLists,
        clause: ClauseId,
        watched: &Option<WatchedLiterals>,
    ) -> R<()>
        requires { IsState self.now }
        ensures noted { IfOk result
            (λ _. NotesPending clause watched.now self.now watching.old watching.new) }
        ensures refusal { IsOkUnless result Memory }
    {
        let Some(watched) = watched else {
            return Ok(());
        };
        if self.are_open(watched) {
            return Ok(());
        }
        watching.pending.push(clause)?;
        Ok(())
    }

    /// Whether neither of two literals is false.
    #[inline(always)]
    pub(crate) fn are_open(&self, watched: &WatchedLiterals) -> bool
        requires { IsState self.now }
        ensures { result ≡ true → AreOpen (made_true (history self.now)) watched.now }
    {
        if self.is_false(watched.first) {
            return false;
        }
        if self.is_false(watched.second) {
            return false;
        }
        true
    }
}

/// Both literals, unless they are equal.
#[inline(always)]
fn two(first: Literal, second: Literal) -> Option<WatchedLiterals>
    ensures { AreBoth first second result }
{
    if first == second {
        None
    } else {
        Some(WatchedLiterals { first, second })
    }
}

/// Of a literal and what was found before it: the first one, or of a learnt clause the last one.
fn first_or_last(found: Option<Literal>, literal: Literal, is_rule: bool) -> Literal
    ensures { IsEither found literal result }
{
    match found {
        Some(other) => { if is_rule { other } else { literal } }
        None => literal,
    }
}

impl WatchLists {
    /// Lists a new clause in the lists of the two literals that it watches, or as the unit clause of
    /// this literal.
    #[inline(always)]
    pub(crate) fn begin(
        &mut self,
        unit: UnitClause,
        watched: Option<WatchedLiterals>,
        is_rule: bool,
    ) -> R<()>
        requires differ { IfSome watched (λ p. same_literal p.first p.second ≡ false) }
        ensures begun { IfOk result (λ _. Begins unit watched is_rule self.old self.new) }
        ensures refusal { IsOkUnless result Memory }
    {
        if let Some(WatchedLiterals { first, second }) = watched {
            self.watches
                .start_watching(WatchedLiterals { first, second }, unit.clause)?;
            self.watched
                .push(WatchedPair::of(Some(WatchedLiterals { first, second })))?;
            return Ok(());
        }
        self.add_unit(unit, is_rule)?;
        self.watched.push(WatchedPair::of(None))?;
        Ok(())
    }

    /// Lists a unit clause, as a rule or as a learnt one.
    fn add_unit(&mut self, unit: UnitClause, is_rule: bool) -> R<()>
        ensures assertions { IfOk result
            (λ _. self.new.assertions.items ≡ with_last is_rule unit self.old.assertions.items) }
        ensures learnt { IfOk result
            (λ _. self.new.learnt.items ≡ with_last (not is_rule) unit self.old.learnt.items) }
        ensures others { (self.new.watched ≡ self.old.watched)
            × (self.new.watches ≡ self.old.watches)
            × (self.new.units_done ≡ self.old.units_done)
            × (self.new.pending ≡ self.old.pending) }
        ensures refusal { IsOkUnless result Memory }
    {
        if is_rule {
            self.assertions.push(unit)?;
        } else {
            self.learnt.push(unit)?;
        }
        Ok(())
    }
}
