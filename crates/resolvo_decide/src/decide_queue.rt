//! The decision queue: the registered need clauses, with what is known of them under the trail that
//! was seen last. `sync` brings it up to date; then `next_decision` is the pick over all clauses. It
//! looks at those alone that may be undecided, and ends where no later clause can beat the best one.
ghost use Rattle.std.specs.Prelude.{◌≡◌, ◌≤◌, ◌++◌, ◌∷◌, [], IfOk, OnOk, OnErr, IsOkUnless, length, max};
ghost use Rattle.resolvo_pool_core.specs.declared.want.Want.TheVariants.{Memory};
ghost use Rattle.resolvo_store_core.specs.Pick.{first_broken};
ghost use Rattle.resolvo_store_core.specs.Trail.{IsSeenOf};
ghost use Rattle.resolvo_store_core.specs.Values.{value_at};
ghost use Rattle.resolvo_decide.specs.Needs.{LeavesUndecided, IsPick};
ghost use Rattle.resolvo_decide.specs.Queue.{needs_of, IsNew, IsSound, IsSynced, IsHotBound, KeepsSound};

use crate::cold_clauses::ColdClauses;
use crate::offer::is_falsified;
use crate::undecided_clauses::{Ends, UndecidedClauses};
use resolvo_pool_core::id::{ClauseId, Exact};
use resolvo_pool_core::id_map::ScoreMap;
use resolvo_pool_core::want::R;
use resolvo_store_core::decision_map::DecisionMap;
use resolvo_store_core::decision_tracker::DecisionTracker;
use resolvo_store_core::lists::FixedLists;
use resolvo_store_core::pick::{NeedClause, NextDecision};
use std::alloc::Global;

/// The registered need clauses, with what is known of them.
#[derive(Drop)]
pub struct DecideQueue<N> {
    /// The clauses, by position.
    registered: Vec<NeedClause>,
    /// What is known of them, under the trail that was seen.
    undecided: UndecidedClauses,
    /// The upper bound of the hot packages' scores. Only these have a score above 0.
    most: u64,
    /// The hot packages, and the clauses without a candidate of theirs.
    cold: ColdClauses<N>,
    /// Whether the pick may end by this bound.
    is_standard: bool,
}

impl<N: Copy + Exact> DecideQueue<N> {
    /// An empty queue, which saw nothing of the trail. No package is hot.
    pub fn new(alloc: Global) -> DecideQueue<N>
        ensures { IsNew result }
    {
        DecideQueue {
            registered: Vec::new(alloc),
            undecided: UndecidedClauses::new(alloc),
            most: 0,
            cold: ColdClauses::new(alloc),
            is_standard: true,
        }
    }

    /// The registered clauses, by position.
    pub fn registered(&self) -> &[NeedClause]
        ensures { result.now ≡ needs_of self.now }
    {
        self.registered.as_slice()
    }

    /// Registers a clause after the others.
    pub fn register_clause(&mut self, need: NeedClause) -> R<()>
        // After an answer.
        ensures registered { OnOk result
            (needs_of self.new ≡ needs_of self.old ++ need ∷ []) }
        // After a refusal.
        ensures err { OnErr result (needs_of self.new ≡ needs_of self.old) }
        ensures refusal { IsOkUnless result Memory }
        // Whatever the answer.
        ensures sound { KeepsSound self.old self.new }
        ensures seen { self.new.undecided.seen ≡ self.old.undecided.seen }
        ensures most { self.new.most ≡ self.old.most }
        ensures cold { self.new.cold ≡ self.old.cold }
    {
        self.registered.reserve(1)?;
        self.undecided.add(need.parent)?;
        self.registered.push(need).unwrap();
        Ok(())
    }

    /// Marks a package as hot, whose score rises to this one at most.
    pub fn mark_name_hot(&mut self, score: u64)
        ensures { self.new ≡ record self.old { most = max self.old.most score } }
    {
        self.most = self.most.max(score);
    }

    /// Sets the packages with a score above 0, and the upper bound of the scores.
    pub fn set_hot(&mut self, hot: &[N], most: u64) -> R<()>
    where
        N: Drop,
        ensures hot { OnOk result (self.new.cold.hot.items ≡ hot.now) }
        ensures most { self.new.most ≡ most }
        // Whatever the answer.
        ensures sound { KeepsSound self.old self.new }
        ensures rest { self.new ≡ record self.old { most = self.new.most; cold = self.new.cold } }
        // After a refusal.
        ensures refusal { IsOkUnless result Memory }
    {
        self.most = most;
        self.cold.set_hot(hot, self.registered.len())?;
        Ok(())
    }

    /// Sets whether scores are bumped as usual. If not, no pick ends early by their bound. The
    /// answer is the same.
    pub fn set_standard_activity_params(&mut self, is_standard: bool)
        ensures { self.new ≡ record self.old { is_standard = is_standard } }
    {
        self.is_standard = is_standard;
    }

    /// Brings the queue up to date with the trail. It takes the trail's floor: what it saw behind
    /// that is dropped, and the entries from there on are new.
    pub fn sync(&mut self, trail: &mut DecisionTracker) -> R<()>
        requires { IsSeenOf trail.old self.old.undecided.seen.items }
        // After an answer.
        ensures synced { OnOk result (IsSynced self.new trail.new.trail) }
        // After a refusal.
        ensures refusal { IsOkUnless result Memory }
        // Whatever the answer.
        ensures sound { KeepsSound self.old self.new }
        ensures seen { IsSeenOf trail.new self.new.undecided.seen.items }
        ensures rest { self.new ≡ record self.old { undecided = self.new.undecided } }
        ensures trail { trail.new ≡ record trail.old { floor = length trail.old.trail } }
    {
        let floor = trail.take_sync_floor();
        self.undecided.truncate(floor);
        // split for the prover: error and answer
        self.undecided.sync(trail.stack())?;
        Ok(())
    }

    /// The next decision under the trail: the pick over all clauses, or none where none is eligible.
    /// The queue is up to date with the trail, and no score is above the bound of the hot ones. No
    /// clause offers a decision with fewer than `fewest` undecided candidates: 0 always holds, and 2
    /// after propagation.
    pub fn next_decision<C: ScoreMap<N>>(
        &mut self,
        lists: &FixedLists<N>,
        trail: &DecisionTracker,
        scores: &C,
        fewest: usize,
    ) -> R<Option<NextDecision>>
    where
        N: Drop,
        requires sound { IsSound lists.now self.old }
        requires synced { IsSynced self.old trail.now.trail }
        requires hot { IsHotBound (C.score_of scores.now) self.old }
        requires fewest { LeavesUndecided lists.now trail.now.trail (needs_of self.old) fewest }
        // After an answer.
        ensures picked { IfOk result
            (IsPick lists.now trail.now.trail (C.score_of scores.now) (needs_of self.old)) }
        // After a refusal.
        ensures refusal { IsOkUnless result Memory }
        // Whatever the answer.
        ensures sound { IsSound lists.now self.new }
        ensures synced { IsSynced self.new trail.now.trail }
        ensures rest { self.new ≡ record self.old {
          undecided = self.new.undecided;
          cold = self.new.cold;
        } }
        ensures known { self.new.cold.is_known ≡ self.old.cold.is_known }
        ensures hot { self.new.cold.hot ≡ self.old.cold.hot }
    {
        let most = self.bound();
        let ends = Ends { most, fewest };
        let needs = self.registered.as_slice();
        let values = trail.map();
        let next = self
            .undecided
            .pick(needs, lists, values, scores, &mut self.cold, ends);
        self.undecided.note_count(needs, lists, values)?;
        Ok(next)
    }

    /// The upper bound of all scores by which a pick may end.
    fn bound(&self) -> u64
        ensures { self.now.most ≤ result }
    {
        let most = self.most;
        if self.is_standard { most } else { u64::MAX }
    }

    /// The first clause whose literals are all false.
    pub fn falsified(&self, lists: &FixedLists<N>, values: &DecisionMap) -> Option<ClauseId>
    where
        N: Drop,
        ensures { result ≡ first_broken lists.now (value_at values.now) (needs_of self.now) }
    {
        for need in &self.registered {
            if is_falsified(need, lists, values) {
                return Some(need.clause);
            }
        }
        None
    }
}
