//! Before the walk goes on, the pending clauses are tested. `visit_pending` visited them at the
//! places that are noted, and no proof rests on these. So of each it is tested that its watches are
//! as those of other clauses are. Then none is pending any longer. If one failed, the walk would
//! begin anew at the trail's front. The rules are in checks/plain_solver.py.
ghost use Rattle.std.specs.Prelude.{◌≡◌, ◌≤◌, length, true};
ghost use Rattle.resolvo_sat.specs.State.{IsState};
ghost use Rattle.resolvo_sat.specs.Propagation.{IsReady, AreWithin};
ghost use Rattle.resolvo_sat.specs.Pending.{IsAhead, MayWatch, GuardsBy, IsKept, IsSettled, AreSettled, Settles};

use crate::state::SatState;
use crate::watch_lists::WatchLists;
use resolvo_pool_core::id::ClauseId;
use resolvo_store_core::literal::Literal;
use resolvo_store_core::watched_literals::WatchedLiterals;

impl SatState {
    /// Ends the wait of the pending clauses. Where one has a false watch without a true one beside it,
    /// propagation begins anew at the trail's front.
    pub(crate) fn settle_pending(&mut self, watching: &mut WatchLists)
        requires ready { IsReady self.old watching.old }
        requires within { AreWithin self.old.qhead watching.old }
        ensures { Settles self.old self.new watching.old watching.new }
    {
        if self.are_settled(watching) {
            watching.pending.clear();
        } else {
            self.qhead = 0;
            watching.units_done.clear();
            watching.pending.clear();
        }
    }

    /// Whether each pending clause may go on with its watches.
    fn are_settled(&mut self, watching: &WatchLists) -> bool
        requires state { IsState self.old }
        requires qhead { self.old.qhead ≤ length self.old.tracker.trail }
        ensures { AreSettled watching.now self.old self.new result }
    {
        for clause in &watching.pending {
            if !self.is_settled(watching, *clause) {
                return false;
            }
        }
        true
    }

    /// Whether a clause may go on with its watches, if it has any.
    fn is_settled(&mut self, watching: &WatchLists, clause: ClauseId) -> bool
        requires { IsState self.old }
        ensures { IsSettled clause.0 watching.now self.old self.new result }
    {
        match watching.pair_of(clause) {
            Some(watched) => self.may_keep(watching, watched),
            None => true,
        }
    }

    /// Whether a clause may go on with these watches. One that is false has a true one beside it, whose
    /// level is recorded, or wasn't propagated yet.
    fn may_keep(&mut self, watching: &WatchLists, watched: WatchedLiterals) -> bool
        requires { IsState self.old }
        ensures { IsKept watched self.old self.new result }
    {
        if self.are_open(&watched) {
            return true;
        }
        let WatchedLiterals { first, second } = watched;
        if !self.may_watch(watching, first, second) {
            return false;
        }
        if !self.may_watch(watching, second, first) {
            return false;
        }
        self.guard_by(first, second);
        self.guard_by(second, first);
        true
    }

    /// Whether a clause may watch a literal beside another one. It isn't false, or the other one is
    /// true, or the entry that made it false isn't propagated yet.
    fn may_watch(&self, watching: &WatchLists, literal: Literal, other: Literal) -> bool
        requires state { IsState self.now }
        ensures { result ≡ true → MayWatch self.now literal other }
    {
        if !self.is_false(literal) {
            return true;
        }
        if self.is_true(other) {
            return true;
        }
        self.is_ahead(watching, literal)
    }

    /// Whether the entry of a literal's variable isn't propagated yet: it is at the propagation head
    /// or after it.
    fn is_ahead(&self, watching: &WatchLists, literal: Literal) -> bool
        requires state { IsState self.now }
        ensures { result ≡ true → IsAhead self.now literal }
    {
        let variable = literal.variable();
        let place = watching.place_of(variable);
        if place < self.qhead {
            return false;
        }
        if place >= self.tracker.stack().len() {
            return false;
        }
        let entry = self.entry(place);
        if entry.decision.variable.0 != variable.0 {
            return false;
        }
        true
    }

    /// Records the level of a true literal beside a false one.
    fn guard_by(&mut self, literal: Literal, other: Literal)
        requires state { IsState self.old }
        ensures { GuardsBy literal other self.old self.new }
    {
        if !self.is_false(literal) {
            return;
        }
        if !self.is_true(other) {
            return;
        }
        self.record_guard(literal, other);
    }
}
