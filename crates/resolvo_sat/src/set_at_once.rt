//! What new clauses set at once. As a clause of some kinds is added, all its literals may be false
//! but one without value. It is then set by the clause, at the trail's end and the top level. Such
//! entries are noted, and made as the next propagation begins. Until then no other entry is made.
//! By the rules a new clause is added where the noted ones are made, so values are read with them.
ghost use Rattle.std.specs.Prelude.{◌≡◌, ◌<◌, length, true, None, IfOk, IfSome, IsOkUnless};
ghost use Rattle.resolvo_pool_core.specs.declared.want.Want.TheVariants.{Memory};
ghost use Rattle.resolvo_store_core.specs.Signed.{negation, has};
ghost use Rattle.resolvo_sat.specs.Known.{clause_at};
ghost use Rattle.resolvo_sat.specs.Entries.{made_true};
ghost use Rattle.resolvo_sat.specs.State.{IsState, history, clauses_of};
ghost use Rattle.resolvo_sat.specs.Propagation.{IsReady, IsFree, Extends};
ghost use Rattle.resolvo_sat.specs.Pending.{AreFalse, AreFalseBut, Proceeds, KeepsLists};

use crate::state::SatState;
use crate::watch_lists::{Start, WatchLists};
use resolvo_pool_core::id::{ClauseId, DenseIndex, VariableId};
use resolvo_pool_core::want::R;
use resolvo_store_core::literal::Literal;
use resolvo_store_core::watched_literals::WatchedLiterals;

impl SatState {
    /// Notes where a new rule is falsified as it is added, or where it sets a literal, if its kind does
    /// so. What a rule sets is a hint: no proof rests on it.
    pub(crate) fn note_rule(
        &self,
        watching: &mut WatchLists,
        clause: ClauseId,
        literals: &[Literal],
        sets_at_once: bool,
    ) -> R<()>
        requires { IsState self.now }
        ensures broken { IfOk result
            (λ _. AreFalse (made_true (history self.now)) literals.now
            → watching.new.is_broken ≡ true) }
        ensures kept { KeepsLists watching.old watching.new }
        ensures refusal { IsOkUnless result Memory }
    {
        let Some(place) = self.open_place(watching, literals, 0) else {
            watching.is_broken = true;
            return Ok(());
        };
        if !sets_at_once || self.open_place(watching, literals, place + 1).is_some() {
            return Ok(());
        }
        let first = literals[place];
        let beside = if place == 0 { literals.len() - 1 } else { 0 };
        let second = literals[beside];
        self.note_set(watching, clause, WatchedLiterals { first, second })
    }

    /// The place of the first literal from this one on that isn't false.
    fn open_place(&self, watching: &WatchLists, literals: &[Literal], from: usize) -> Option<usize>
        requires { IsState self.now }
        ensures there { IfSome result (λ place. place < length literals.now) }
        ensures none { AreFalse (made_true (history self.now)) literals.now → result ≡ None }
    {
        for place in from..literals.len() {
            if !self.is_false_with_new(watching, literals[place]) {
                return Some(place);
            }
        }
        None
    }

    /// Whether a literal is false, by the trail or by what is noted.
    pub(crate) fn is_false_with_new(&self, watching: &WatchLists, literal: Literal) -> bool
        requires { IsState self.now }
        ensures { has (made_true (history self.now)) (negation literal) ≡ true → result ≡ true }
    {
        if self.is_false(literal) {
            return true;
        }
        match watching.noted(self.tracker.stack().len(), literal.variable()) {
            Some(set) => set != literal,
            None => false,
        }
    }

    /// Notes that a clause sets the first of two literals, the other one of which is false; unless
    /// the first one is true.
    fn note_set(
        &self,
        watching: &mut WatchLists,
        clause: ClauseId,
        watched: WatchedLiterals,
    ) -> R<()>
        requires { IsState self.now }
        ensures kept { KeepsLists watching.old watching.new }
        ensures refusal { IsOkUnless result Memory }
    {
        let literal = watched.first;
        let end = self.tracker.stack().len();
        if self.is_true(literal) || watching.noted(end, literal.variable()).is_some() {
            return Ok(());
        }
        let place = end.saturating_add(watching.at_once.len());
        watching.set_place(literal.variable(), place)?;
        watching.at_once.push(Start { clause, watched })?;
        Ok(())
    }

    /// Sets what is noted that new clauses set at once, in their order.
    pub(crate) fn set_at_once(&mut self, watching: &mut WatchLists) -> R<()>
        requires { IsReady self.old watching.old }
        ensures proceeds { IfOk result (λ _. Proceeds self.old self.new watching.old watching.new) }
        ensures refusal { IsOkUnless result Memory }
    {
        for start in &watching.at_once {
            self.set_noted(*start)?;
        }
        watching.drop_new();
        Ok(())
    }

    /// Sets the first of a clause's two noted literals, where all others are false.
    fn set_noted(&mut self, start: Start) -> R<()>
        requires { IsState self.old }
        ensures extends { IfOk result (λ _. Extends self.old self.new) }
        ensures qhead { IfOk result (λ _. self.new.qhead ≡ self.old.qhead) }
        ensures refusal { IsOkUnless result Memory }
    {
        let Start { clause, watched } = start;
        if clause.to_index() >= self.clauses.len() {
            return Ok(());
        }
        if self.is_true(watched.first) {
            return Ok(());
        }
        match self.free_literal(clause, &watched, 0) {
            Some(_) => Ok(()),
            None => self.force_one(clause, &watched),
        }
    }

    /// Assigns the one of two literals that isn't false, where all others of the clause are.
    fn force_one(&mut self, clause: ClauseId, watched: &WatchedLiterals) -> R<()>
        requires state { IsState self.old }
        requires in_range { clause.0 < length self.old.clauses }
        requires alone { IsFree (made_true (history self.old)) (clause_at (clauses_of self.old) clause.0)
            watched.now None }
        ensures extends { IfOk result (λ _. Extends self.old self.new) }
        ensures qhead { IfOk result (λ _. self.new.qhead ≡ self.old.qhead) }
        ensures refusal { IsOkUnless result Memory }
    {
        if self.is_false(watched.second) {
            return self.force(clause, watched.first);
        }
        if self.is_false(watched.first) {
            return self.force(clause, watched.second);
        }
        Ok(())
    }

    /// Assigns a literal of a clause of which all others are false, unless it has a value.
    fn force(&mut self, clause: ClauseId, literal: Literal) -> R<()>
        requires state { IsState self.old }
        requires in_range { clause.0 < length self.old.clauses }
        requires others { AreFalseBut literal (made_true (history self.old))
            (clause_at (clauses_of self.old) clause.0) }
        ensures extends { IfOk result (λ _. Extends self.old self.new) }
        ensures qhead { IfOk result (λ _. self.new.qhead ≡ self.old.qhead) }
        ensures refusal { IsOkUnless result Memory }
    {
        if self.is_false(literal) {
            return Ok(());
        }
        if self.is_true(literal) {
            return Ok(());
        }
        if !self.has_literal(clause, literal) {
            return Ok(());
        }
        self.assign(clause, literal)?;
        Ok(())
    }
}

impl SatState {
    /// Whether a clause has a literal.
    fn has_literal(&self, clause: ClauseId, literal: Literal) -> bool
        requires { clause.0 < length self.now.clauses }
        ensures { result ≡ true → has (clause_at (clauses_of self.now) clause.0) literal ≡ true }
    {
        let (own, shared) = self.literals(clause);
        if is_among(own, literal) {
            return true;
        }
        is_among(shared, literal)
    }
}

/// Whether a literal is among these.
fn is_among(literals: &[Literal], literal: Literal) -> bool
    ensures { result ≡ has literals.now literal }
{
    literals.iter().any(|other| *other == literal)
}

impl WatchLists {
    /// The literal of a variable that a new clause sets, on a trail of so many entries.
    fn noted(&self, end: usize, variable: VariableId) -> Option<Literal> {
        if self.at_once.is_empty() {
            return None;
        }
        let index = self.place_of(variable).checked_sub(end)?;
        let literal = self.at_once.get(index)?.watched.first;
        if literal.variable() == variable {
            Some(literal)
        } else {
            None
        }
    }

    /// Forgets what new clauses set, and whether one was falsified.
    fn drop_new(&mut self)
        ensures { KeepsLists self.old self.new }
    {
        self.at_once.clear();
        self.is_broken = false;
    }

    /// Forgets what is known by the trail's entries above a level, which are undone. The top level
    /// was this: that of what new clauses set.
    pub fn forget_above(&mut self, level: u32, top: u32)
        ensures { KeepsLists self.old self.new }
    {
        if level < top {
            self.drop_new();
        }
        if level == 0 {
            self.drop_passed();
        }
    }
}
