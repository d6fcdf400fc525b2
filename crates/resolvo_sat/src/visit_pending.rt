//! Visits to the pending clauses. By the rules propagation begins anew at the trail's front where a
//! clause was added. Over what was propagated before, that walk changes something at pending clauses
//! alone. While a literal is false, only new clauses come to its list, at its front. So the walk is
//! made at those entries alone that make a watch of a pending clause false, in their order. There it
//! goes over the front of the list. Which entries these are is a hint, as no proof rests on places.
ghost use Rattle.std.specs.Prelude.{◌≡◌, true, IfOk, IsOkUnless};
ghost use Rattle.resolvo_pool_core.specs.declared.want.Want.TheVariants.{Memory};
ghost use Rattle.resolvo_store_core.specs.Signed.{negation, has};
ghost use Rattle.resolvo_sat.specs.Entries.{made_true};
ghost use Rattle.resolvo_sat.specs.State.{IsState, history};
ghost use Rattle.resolvo_sat.specs.Propagation.{IsReady};
ghost use Rattle.resolvo_sat.specs.Pending.{IsPendingVisit, Proceeds, KeepsLists};

use crate::propagate::WatchVisit;
use crate::state::SatState;
use crate::watch_lists::{WatchLists, small};
use resolvo_pool_core::id::{ClauseId, DenseIndex, VariableId};
use resolvo_pool_core::want::R;
use resolvo_store_core::literal::Literal;

impl SatState {
    /// Visits the pending clauses where literals that they watch became false before the propagation
    /// head. Assigns what they force; or returns one of them that is falsified.
    pub(crate) fn visit_pending(&mut self, watching: &mut WatchLists) -> R<Option<ClauseId>>
        requires ready { IsReady self.old watching.old }
        ensures visited { IfOk result (IsPendingVisit self.old self.new watching.old watching.new) }
        ensures refusal { IsOkUnless result Memory }
    {
        if watching.pending.is_empty() {
            return Ok(None);
        }
        let first = watching.pending[0];
        self.index_trail(watching)?;
        let places = self.due_places(watching)?;
        for place in &places {
            if let Some(clause) = self.visit_place(watching, *place, first)? {
                return Ok(Some(clause));
            }
        }
        self.index_trail(watching)?;
        Ok(None)
    }

    /// Notes the places of the trail's entries behind those that were noted.
    fn index_trail(&mut self, watching: &mut WatchLists) -> R<()>
        requires ready { IsReady self.old watching.old }
        ensures proceeds { IfOk result (λ _. Proceeds self.old self.new watching.old watching.new) }
        ensures refusal { IsOkUnless result Memory }
    {
        let trail = self.tracker.stack();
        for place in self.indexed..trail.len() {
            watching.set_place(trail[place].decision.variable, place)?;
        }
        self.indexed = trail.len();
        Ok(())
    }

    /// The places before the propagation head at which watches of the pending clauses became false, in
    /// rising order, each once.
    fn due_places(&self, watching: &WatchLists) -> R<Vec<usize>>
        requires { IsState self.now }
        ensures refusal { IsOkUnless result Memory }
    {
        let mut places = Vec::new(*watching.pending.allocator());
        for clause in &watching.pending {
            if let Some(watched) = watching.pair_of(*clause) {
                self.push_place(watching, &mut places, watched.first)?;
                self.push_place(watching, &mut places, watched.second)?;
            }
        }
        places.sort_unstable();
        places.dedup();
        Ok(places)
    }

    /// Adds the place at which a literal became false, where that was before the propagation head.
    fn push_place(&self, watching: &WatchLists, places: &mut Vec<usize>, literal: Literal) -> R<()>
        requires { IsState self.now }
        ensures refusal { IsOkUnless result Memory }
    {
        let place = watching.place_of(literal.variable());
        if place < self.qhead && self.is_false(literal) {
            places.push(place)?;
        }
        Ok(())
    }

    /// Visits the new clauses, from this one on, that watch the literal which the entry of a place
    /// makes false.
    fn visit_place(
        &mut self,
        watching: &mut WatchLists,
        place: usize,
        first: ClauseId,
    ) -> R<Option<ClauseId>>
        requires ready { IsReady self.old watching.old }
        ensures visited { IfOk result (IsPendingVisit self.old self.new watching.old watching.new) }
        ensures refusal { IsOkUnless result Memory }
    {
        match self.falsified_at(place) {
            Some(literal) => self.visit_new(watching, literal, first),
            None => Ok(None),
        }
    }

    /// Visits the new clauses, from this one on, that watch a false literal. They are at the front of
    /// its list. At a falsified clause the walk stops, and returns it.
    fn visit_new(
        &mut self,
        watching: &mut WatchLists,
        literal: Literal,
        first: ClauseId,
    ) -> R<Option<ClauseId>>
        requires ready { IsReady self.old watching.old }
        requires known { has (made_true (history self.old)) (negation literal) ≡ true }
        ensures visited { IfOk result (IsPendingVisit self.old self.new watching.old watching.new) }
        ensures refusal { IsOkUnless result Memory }
    {
        let mut cursor = watching.watches.cursor(literal);
        while let Some(clause) = cursor.clause_id(&watching.watches) {
            if clause.0 < first.0 {
                return Ok(None);
            }
            let watched = watching.pair(cursor, clause);
            match self.visit_clause(watching, &mut cursor, clause, watched)? {
                WatchVisit::Kept => cursor.next(&watching.watches),
                WatchVisit::Moved => {}
                WatchVisit::Falsified => return Ok(Some(clause)),
            }
        }
        Ok(None)
    }
}

impl WatchLists {
    /// The place on the trail at which a variable was last seen.
    pub(crate) fn place_of(&self, variable: VariableId) -> usize {
        let index = variable.to_index();
        if index < self.places.len() {
            self.places[index] as usize
        } else {
            0
        }
    }

    /// Notes the place on the trail of a variable.
    #[inline(always)]
    pub(crate) fn set_place(&mut self, variable: VariableId, place: usize) -> R<()>
        ensures kept { KeepsLists self.old self.new }
        ensures refusal { IsOkUnless result Memory }
    {
        let place = small(place);
        let index = variable.to_index();
        for _ in self.places.len()..index + 1 {
            self.places.push(0)?;
        }
        if index < self.places.len() {
            self.places[index] = place;
        }
        Ok(())
    }
}
