//! State of the SAT core: variables, clauses, and the trail.
ghost use Rattle.std.specs.Prelude.{◌≡◌, ◌<◌, ◌≤◌, ◌+◌, ◌∷◌, ◌++◌, length};
ghost use Rattle.std.specs.Bool.{Decides};
ghost use Rattle.resolvo_sat.specs.Entries.{before, top_level};
ghost use Rattle.resolvo_sat.specs.State.{IsState, history, clauses_of};
ghost use Rattle.resolvo_sat.specs.Known.{clause_at};
ghost use Rattle.resolvo_sat.specs.Analysis.{IsSolvable};

use crate::clause_database::ClauseDatabase;
use resolvo_pool_core::id::{ClauseId, DenseIndex, VariableId};
use resolvo_store_core::decision::Entry;
use resolvo_store_core::decision_tracker::DecisionTracker;
use resolvo_store_core::literal::Literal;

/// What a variable represents.
#[derive(Clone, Copy, PartialEq, Eq)]
pub enum VariableKind {
    /// The problem itself; always true.
    Root,
    /// A solvable.
    Solvable,
    /// A helper of the encoding.
    Helper,
}

/// The variables by their numbers, the clauses, the trail, and the turn's base level, below
/// which no backjump goes. The first `qhead` entries of the trail were propagated. Where they make a
/// watched literal false, its true guard is at its level or below, or else not above `guard_level`.
pub struct SatState {
    pub variables: Vec<VariableKind>,
    pub clauses: ClauseDatabase,
    /// The trail. Its own propagation head is that of `ClauseStore`; the search has `qhead`.
    pub tracker: DecisionTracker,
    pub base_level: u32,
    pub qhead: usize,
    pub guard_level: u32,
    /// The places of so many first entries of the trail are noted. A backjump lowers it.
    pub indexed: usize,
}

// split for the prover: one drop
impl Drop for SatState {
    fn drop(self) {
        let SatState {
            variables: _,
            clauses: _,
            tracker: _,
            base_level: _,
            qhead: _,
            guard_level: _,
            indexed: _,
        } = self;
    }
}

impl SatState {
    /// The entry at a place of the trail.
    pub fn entry(&self, place: usize) -> Entry
        requires state { IsState self.now }
        requires in_range { place < length self.now.tracker.trail }
        ensures next { before self.now.tracker.trail (place + 1) ≡ result ∷ before self.now.tracker.trail place }
        ensures small { result.decision.variable.0 < 2147483648 }
    {
        self.tracker.stack()[place]
    }

    /// The level of the trail's last entry, or 0 where the trail is empty.
    pub fn top_level(&self) -> u32
        ensures { result ≡ top_level (history self.now) }
    {
        match self.tracker.stack().last() {
            Some(entry) => entry.level,
            None => 0,
        }
    }

    /// The literals of a clause: its own ones, and then those that it shares.
    #[inline(always)]
    pub fn literals(&self, clause: ClauseId) -> (&[Literal], &[Literal])
        requires { clause.0 < length self.now.clauses }
        ensures { result.0.now ++ result.1.now ≡ clause_at (clauses_of self.now) clause.0 }
    {
        self.clauses.literals(clause.to_index())
    }

    /// Whether a variable represents a solvable.
    pub fn is_solvable(&self, variable: VariableId) -> bool
        ensures { Decides result (IsSolvable self.now variable.0) }
    {
        let index = variable.to_index();
        index < self.variables.len() && self.variables[index] == VariableKind::Solvable
    }

    /// The level of the entry before a place of the trail, or 0 at its front.
    pub fn level_before(&self, place: usize) -> u32
        requires state { IsState self.now }
        requires in_range { place ≤ length self.now.tracker.trail }
        ensures { result ≡ top_level (before self.now.tracker.trail place) }
    {
        if place == 0 {
            return 0;
        }
        self.entry(place - 1).level
    }
}
