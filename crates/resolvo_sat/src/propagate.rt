//! Unit propagation over the trail. It continues at the propagation head, `qhead`. In each clause
//! with a watched literal that became false before the head, the other watched literal is true.
//! Clauses that were added beside a false literal are pending: they are visited first.
ghost use Rattle.std.specs.Prelude.{◌≡◌, ◌<◌, ◌≤◌, ◌+◌, ◌++◌, slice_get, take, length, Some, true, IfOk, IsOkUnless};
ghost use Rattle.resolvo_pool_core.specs.declared.want.Want.TheVariants.{Memory};
ghost use Rattle.resolvo_store_core.specs.Signed.{negation, has};
ghost use Rattle.resolvo_store_core.specs.Watches.{watchers, pair_at, IsAt};
ghost use Rattle.resolvo_sat.specs.Known.{clause_at};
ghost use Rattle.resolvo_sat.specs.Entries.{made_true};
ghost use Rattle.resolvo_sat.specs.State.{IsState, history, clauses_of};
ghost use Rattle.resolvo_sat.specs.Pending.{KeepsLists};
ghost use Rattle.resolvo_sat.specs.Propagation.{IsReady, IsFit, AreCovered, AreUnits, AllTrue, AreDone, AreWithin, HasDone, IsFree, FellAt, IsFallenAt, IsMeeting, IsVisit, IsWalkedTo, IsOnly, IsUnitAssigned, IsUnitsEnd, IsRun, IsPropagation};

use crate::state::SatState;
use crate::watch_lists::{UnitClause, UnitsDone, WatchLists};
use resolvo_pool_core::id::ClauseId;
use resolvo_pool_core::want::R;
use resolvo_store_core::literal::Literal;
use resolvo_store_core::watch_map::WatchMapCursor;
use resolvo_store_core::watched_literals::WatchedLiterals;

/// The outcome of visiting a clause.
#[derive(Clone, Copy)]
pub enum WatchVisit {
    /// It keeps its watched literals; the other one is true.
    Kept,
    /// It watches another literal.
    Moved,
    /// All its literals are false.
    Falsified,
}

impl SatState {
    /// A literal of the clause to watch in place of a false one. The first ones, so many, are looked
    /// at last: they are likely false.
    pub(crate) fn free_literal(
        &self,
        clause: ClauseId,
        watched: &WatchedLiterals,
        passed: usize,
    ) -> Option<Literal>
        requires state { IsState self.now }
        requires in_range { clause.0 < length self.now.clauses }
        ensures { IsFree (made_true (history self.now)) (clause_at (clauses_of self.now) clause.0)
            watched.now result }
    {
        let (own, shared) = self.literals(clause);
        if shared.is_empty() {
            return self.free_behind(own, watched, passed);
        }
        if passed == 0 {
            return self.free_of_both(own, shared, watched);
        }
        self.free_shared_first(own, shared, watched, passed.saturating_sub(own.len()))
    }

    /// The same among these literals.
    fn free_behind(
        &self,
        literals: &[Literal],
        watched: &WatchedLiterals,
        passed: usize,
    ) -> Option<Literal>
        requires { IsState self.now }
        ensures { IsFree (made_true (history self.now)) literals.now watched.now result }
    {
        let passed = passed.min(literals.len());
        match self.free_among(&literals[passed..], watched) {
            Some(free) => Some(free),
            None => self.free_among(&literals[..passed], watched),
        }
    }

    /// The first of these and then of those literals that is neither watched nor false.
    fn free_of_both(
        &self,
        literals: &[Literal],
        more: &[Literal],
        watched: &WatchedLiterals,
    ) -> Option<Literal>
        requires { IsState self.now }
        ensures { IsFree (made_true (history self.now)) (literals.now ++ more.now) watched.now
            result }
    {
        match self.free_among(literals, watched) {
            Some(free) => Some(free),
            None => self.free_among(more, watched),
        }
    }

    /// A literal to watch of a clause whose own ones are looked at last, with so many of those that
    /// it shares.
    fn free_shared_first(
        &self,
        own: &[Literal],
        shared: &[Literal],
        watched: &WatchedLiterals,
        passed: usize,
    ) -> Option<Literal>
        requires { IsState self.now }
        ensures { IsFree (made_true (history self.now)) (own.now ++ shared.now) watched.now result }
    {
        let passed = passed.min(shared.len());
        match self.free_among(&shared[passed..], watched) {
            Some(free) => Some(free),
            None => self.free_of_both(own, &shared[..passed], watched),
        }
    }

    /// The first of these literals that is neither watched nor false.
    fn free_among(&self, literals: &[Literal], watched: &WatchedLiterals) -> Option<Literal>
        requires { IsState self.now }
        ensures { IsFree (made_true (history self.now)) literals.now watched.now result }
    {
        for literal in literals {
            let is_false = self.is_false(*literal);
            if !is_false && !watched.watches(*literal) {
                return Some(*literal);
            }
        }
        None
    }

    /// How many of a clause's first literals are false: `passed` at least.
    fn false_ones(&self, clause: ClauseId, passed: usize) -> usize
        requires state { IsState self.now }
        requires in_range { clause.0 < length self.now.clauses }
    {
        let (own, shared) = self.literals(clause);
        let first = self.false_among(own, passed);
        if first < own.len() || shared.is_empty() {
            return first.max(passed);
        }
        let more = self.false_among(shared, passed.saturating_sub(own.len()));
        own.len().saturating_add(more).max(passed)
    }

    /// How many of these literals are false before the first other one from a place on.
    fn false_among(&self, literals: &[Literal], from: usize) -> usize
        requires { IsState self.now }
    {
        for place in from..literals.len() {
            if !self.is_false(literals[place]) {
                return place;
            }
        }
        literals.len()
    }

    /// Notes how many of a clause's first literals are false at the first level: those that are false
    /// while there is no second one.
    fn note_passed(&self, watching: &mut WatchLists, clause: ClauseId) -> R<()>
        requires state { IsState self.now }
        requires in_range { clause.0 < length self.now.clauses }
        ensures kept { KeepsLists watching.old watching.new }
        ensures refusal { IsOkUnless result Memory }
    {
        if self.top_level() > 1 {
            return Ok(());
        }
        let passed = self.false_ones(clause, watching.passed_of(clause));
        if passed > 0 {
            watching.set_passed(clause, passed)?;
        }
        Ok(())
    }

    /// Visits the clause at a cursor, one of whose watched literals became false.
    #[inline(always)]
    pub(crate) fn visit_clause(
        &mut self,
        watching: &mut WatchLists,
        cursor: &mut WatchMapCursor,
        clause: ClauseId,
        watched: WatchedLiterals,
    ) -> R<WatchVisit>
        requires state { IsState self.old }
        requires fits { IsFit self.old watching.old }
        requires at { IsAt watching.old.watches cursor.old }
        requires known { has (made_true (history self.old)) (negation cursor.old.literal) ≡ true }
        requires present { slice_get (watchers watching.old.watches cursor.old.literal)
            cursor.old.place
            ≡ Some clause }
        requires pair { pair_at watching.old.watched.items clause.0 ≡ Some watched }
        // After an answer.
        ensures met { IfOk result
            (IsMeeting cursor.old.literal cursor.old.place clause.0 watched self.old watching.old
            self.new watching.new) }
        ensures literal { IfOk result (λ _. cursor.new.literal ≡ cursor.old.literal) }
        ensures place { IfOk result (λ _. cursor.new.place ≡ cursor.old.place) }
        ensures at { IfOk result (λ _. IsAt watching.new.watches cursor.new) }
        // After a refusal.
        ensures refusal { IsOkUnless result Memory }
    {
        let other = watched.other(cursor.literal);
        if self.is_true(other) {
            self.record_guard(cursor.literal, other);
            return Ok(WatchVisit::Kept);
        }
        let passed = watching.passed_of(clause);
        match self.free_literal(clause, &watched, passed) {
            Some(to) => {
                cursor.update_pair(
                    &mut watching.watches,
                    watching.watched.as_mut_slice(),
                    clause,
                    watched,
                    to,
                )?;
                self.note_passed(watching, clause)?;
                Ok(WatchVisit::Moved)
            }
            None => {
                if self.is_false(other) {
                    Ok(WatchVisit::Falsified)
                } else {
                    self.assign(clause, other)?;
                    self.record_guard(cursor.literal, other);
                    Ok(WatchVisit::Kept)
                }
            }
        }
    }

    /// Walks over the clauses that watch a literal, which the entry at the propagation head makes
    /// false. At a falsified clause the walk stops, and returns it.
    fn propagate_literal(
        &mut self,
        watching: &mut WatchLists,
        literal: Literal,
    ) -> R<Option<ClauseId>>
        requires state { IsState self.old }
        requires fits { IsFit self.old watching.old }
        requires fell { FellAt literal self.old.qhead self.old }
        requires walked { IsWalkedTo self.old.qhead self.old watching.old }
        requires done { AreDone self.old watching.old }
        // After an answer.
        ensures propagate_literal { IfOk result (IsVisit self.old self.new watching.old watching.new) }
        // After a refusal.
        ensures refusal { IsOkUnless result Memory }
    {
        let mut cursor = watching.watches.cursor(literal);
        while let Some(clause) = cursor.clause_id(&watching.watches) {
            let watched = watching.pair(cursor, clause);
            match self.visit_clause(watching, &mut cursor, clause, watched)? {
                WatchVisit::Kept => cursor.next(&watching.watches),
                WatchVisit::Moved => {}
                WatchVisit::Falsified => return Ok(Some(clause)),
            }
        }
        Ok(None)
    }

    /// Assigns the literal of a unit clause; returns false where the literal is false.
    fn assign_unit(&mut self, unit: UnitClause) -> R<bool>
        requires state { IsState self.old }
        requires alone { IsOnly (clause_at (clauses_of self.old) unit.clause.0) unit.literal }
        ensures set { IfOk result (IsUnitAssigned unit self.old self.new) }
        ensures refusal { IsOkUnless result Memory }
    {
        if self.is_false(unit.literal) {
            return Ok(false);
        }
        if !self.is_true(unit.literal) {
            self.assign(unit.clause, unit.literal)?;
        }
        Ok(true)
    }

    /// Assigns the literals of the unit clauses, or returns one of the clauses that is falsified.
    fn assign_units(&mut self, units: &[UnitClause]) -> R<Option<ClauseId>>
        requires state { IsState self.old }
        requires alone { AreUnits (clauses_of self.old) units.now }
        ensures set { IfOk result (IsUnitsEnd units.now self.old self.new) }
        ensures refusal { IsOkUnless result Memory }
    {
        for unit in units {
            match self.assign_unit(*unit)? {
                true => {}
                false => return Ok(Some(unit.clause)),
            }
        }
        Ok(None)
    }

    /// The same, where this many of the first ones are true.
    fn assign_units_from(&mut self, units: &[UnitClause], done: usize) -> R<Option<ClauseId>>
        requires state { IsState self.old }
        requires alone { AreUnits (clauses_of self.old) units.now }
        requires within { done ≤ length units.now }
        requires done { AllTrue (made_true (history self.old)) (take done units.now) }
        // After an answer.
        ensures set { IfOk result (IsUnitsEnd units.now self.old self.new) }
        // After a refusal.
        ensures refusal { IsOkUnless result Memory }
    {
        // split for the prover: error and answer
        let falsified = self.assign_units(&units[done..])?;
        Ok(falsified)
    }

    /// The literal that the entry of a place makes false; none after the last entry.
    pub(crate) fn falsified_at(&self, place: usize) -> Option<Literal>
        requires state { IsState self.now }
        ensures { IsFallenAt place self.now result }
    {
        if place >= self.tracker.stack().len() {
            return None;
        }
        let decision = self.entry(place).decision;
        Some(Literal::new(decision.variable, decision.value))
    }

    /// The literal that the entry at the propagation head makes false.
    fn next_falsified(&self) -> Option<Literal>
        requires state { IsState self.now }
        ensures { IsFallenAt self.now.qhead self.now result }
    {
        self.falsified_at(self.qhead)
    }

    /// Advances the propagation head past its entry, which was propagated.
    fn advance_qhead(&mut self)
        requires { self.old.qhead < usize.MAX }
        ensures { self.new ≡ record self.old { qhead = self.old.qhead + 1 } }
    {
        self.qhead += 1;
    }

    /// Assigns what the clauses force, from the propagation head on, or returns a falsified clause.
    /// Unit clauses that were true when it last ended, and still are, are not visited again.
    pub fn propagate(&mut self, watching: &mut WatchLists) -> R<Option<ClauseId>>
        requires ready { IsReady self.old watching.old }
        requires covered { AreCovered self.old watching.old }
        ensures propagation { IfOk result
            (IsPropagation self.old self.new
            (record watching.old { units_done = watching.new.units_done }) watching.new) }
        ensures refusal { IsOkUnless result Memory }
    {
        let done = watching.last_done(self.qhead);
        match self.set_and_propagate(watching, done)? {
            Some(clause) => Ok(Some(clause)),
            None => {
                watching.note_done(self.qhead, done)?;
                Ok(None)
            }
        }
    }

    /// Sets what new clauses set at once. Then assigns what the clauses force, where the first unit
    /// clauses are true already.
    fn set_and_propagate(
        &mut self,
        watching: &mut WatchLists,
        done: UnitsDone,
    ) -> R<Option<ClauseId>>
        requires ready { IsReady self.old watching.old }
        requires covered { AreCovered self.old watching.old }
        requires within { AreWithin self.old.qhead watching.old }
        requires done { HasDone self.old watching.old done }
        // After an answer.
        ensures run { IfOk result (IsRun self.old self.new watching.old watching.new) }
        // After a refusal.
        ensures refusal { IsOkUnless result Memory }
    {
        self.set_at_once(watching)?;
        // split for the prover: error and answer
        let falsified = self.propagate_from(watching, done)?;
        Ok(falsified)
    }

    /// Assigns what the clauses force, where the first unit clauses are true already.
    fn propagate_from(&mut self, watching: &mut WatchLists, done: UnitsDone) -> R<Option<ClauseId>>
        requires ready { IsReady self.old watching.old }
        requires covered { AreCovered self.old watching.old }
        requires within { AreWithin self.old.qhead watching.old }
        requires done { HasDone self.old watching.old done }
        // After an answer.
        ensures run { IfOk result (IsRun self.old self.new watching.old watching.new) }
        // After a refusal.
        ensures refusal { IsOkUnless result Memory }
    {
        if let Some(clause) = self.assign_units_from(
            watching.assertions.as_slice(),
            done.assertions,
        )? {
            return Ok(Some(clause));
        }
        if let Some(clause) = self.assign_units_from(watching.learnt.as_slice(), done.learnt)? {
            return Ok(Some(clause));
        }
        if let Some(clause) = self.visit_pending(watching)? {
            return Ok(Some(clause));
        }
        self.settle_pending(watching);
        while let Some(literal) = self.next_falsified() {
            if let Some(clause) = self.propagate_literal(watching, literal)? {
                return Ok(Some(clause));
            }
            self.advance_qhead();
        }
        Ok(None)
    }
}
