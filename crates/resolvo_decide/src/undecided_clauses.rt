//! The states of the need clauses of a queue: satisfied, inactive, or undecided.
//! They hold for the trail in `seen`. `sync` adds the new entries of the trail; `truncate` drops
//! those that a backjump removed.
ghost use Rattle.std.specs.Prelude.{◌≡◌, ℕ, ◌<◌, ◌≤◌, ◌++◌, ◌∷◌, ◌⊎◌, [], take, drop, length, not, false, true, slice_get, Some, None, Contains, OnOk, OnErr, IfOk, IfErr, IsOkUnless};
ghost use Rattle.resolvo_pool_core.specs.declared.want.Want.TheVariants.{Memory};
ghost use Rattle.std.specs.List.{find, list_any};
ghost use Rattle.std.specs.Option.{option_copied};
ghost use Rattle.resolvo_store_core.specs.AtMostOne.{IsPrefixOf};
ghost use Rattle.resolvo_store_core.specs.Lists.{candidates_in};
ghost use Rattle.resolvo_store_core.specs.Signed.{value_under, is_false, is_true, is_open};
ghost use Rattle.resolvo_store_core.specs.Values.{value_at};
ghost use Rattle.resolvo_store_core.specs.Trail.{EachOnce, assigned, value_in};
ghost use Rattle.resolvo_store_core.specs.Pick.{pick, offer, later};
ghost use Rattle.resolvo_store_core.specs.declared.pick.NeedClause.{NeedClause};
ghost use Rattle.resolvo_decide.specs.declared.clause_states.ClauseState.TheVariants.{Open};
ghost use Rattle.resolvo_decide.specs.States.{state_at, is_open_state};
ghost use Rattle.resolvo_decide.specs.Cold.{IsKnownHot, HasColdBits, KeepsColdAt, CanSkip};
ghost use Rattle.resolvo_decide.specs.CandidateCounts.{has_true_in, HasNoCount};
ghost use Rattle.resolvo_decide.specs.Needs.{literals_in, IsClauseOf, IsMetNow, IsSoundState, Fits, KeepsFits, KeepsFitsAt, KeepsCounts, IsRightCountAt, OffersAtLeast, AddsNeed};

use crate::candidate_count::CandidateCount;
use crate::candidate_counts::CandidateCounts;
use crate::clause_states::{ClauseState, ClauseStates};
use crate::clauses_by_parent::ClausesByParent;
use crate::cold_clauses::ColdClauses;
use crate::offer::{behind_passed, counted_offer, offered};
use resolvo_pool_core::id::{Exact, VariableId};
use resolvo_pool_core::id_map::ScoreMap;
use resolvo_pool_core::want::R;
use resolvo_store_core::decision::Entry;
use resolvo_store_core::decision_map::DecisionMap;
use resolvo_store_core::lists::{Candidate, FixedLists};
use resolvo_store_core::pick::{NeedClause, NextDecision, or_later};
use std::alloc::Global;

/// By what a pick may end: the highest score, and the fewest undecided candidates of an offer.
#[derive(Clone, Copy)]
pub(crate) struct Ends {
    pub(crate) most: u64,
    pub(crate) fewest: usize,
}

/// The states of the need clauses of a queue.
#[derive(Drop)]
pub struct UndecidedClauses {
    /// The state of each clause, by its position in the queue.
    states: ClauseStates,
    /// The trail for which the states hold.
    seen: Vec<Entry>,
    /// The clauses of each parent.
    by_parent: ClausesByParent,
    /// How many candidates are true or false, of the clauses for which that is kept.
    counts: CandidateCounts,
    /// The clause whose candidates were last counted by a walk over them.
    counted: Option<usize>,
}

impl UndecidedClauses {
    /// The states of an empty queue.
    pub(crate) fn new(alloc: Global) -> UndecidedClauses
        ensures states { result.states ≡ [] }
        ensures seen { result.seen.items ≡ [] }
        ensures counts { HasNoCount result.counts }
    {
        UndecidedClauses {
            states: ClauseStates::new(alloc),
            seen: Vec::new(alloc),
            by_parent: ClausesByParent::new(alloc),
            counts: CandidateCounts::new(alloc),
            counted: None,
        }
    }

    /// Adds a clause with this parent.
    pub(crate) fn add(&mut self, parent: VariableId) -> R<()>
        ensures added { OnOk result (AddsNeed parent self.old self.new) }
        ensures kept { OnErr result (KeepsFits self.old self.new) }
        ensures seen { self.new.seen ≡ self.old.seen }
        ensures refusal { IsOkUnless result Memory }
    {
        self.list_next(parent)?;
        self.counts.begin(self.states.len());
        self.states.push()?;
        Ok(())
    }

    /// Lists the next clause among those of this parent.
    fn list_next(&mut self, parent: VariableId) -> R<()>
        ensures placed { OnOk result
            (IsClauseOf self.new.by_parent parent.0 (length self.old.states)) }
        ensures kept { (v i : ℕ)
            → IsClauseOf self.old.by_parent v i
            → IsClauseOf self.new.by_parent v i }
        ensures rest { self.new ≡ record self.old { by_parent = self.new.by_parent } }
        ensures refusal { IsOkUnless result Memory }
    {
        self.by_parent.add(parent, self.states.len())
    }

    /// Drops the seen entries behind this many. The cost is that of the clauses that they
    /// satisfied.
    pub(crate) fn truncate(&mut self, kept: usize)
        ensures seen { self.new.seen.items ≡ take kept self.old.seen.items }
        ensures fits { KeepsFits self.old self.new }
    {
        if kept < self.seen.len() {
            self.undo_entries(kept);
            self.states.reopen(kept);
        }
    }

    /// Removes the last seen entries, until this many are left.
    fn undo_entries(&mut self, kept: usize)
        ensures seen { self.new.seen.items ≡ take kept self.old.seen.items }
        ensures counts { KeepsCounts self.old.seen.items self.new.seen.items self.old.counts
            self.new.counts }
        ensures rest { self.new ≡ record self.old {
          seen = self.new.seen;
          counts = self.new.counts;
        } }
    {
        while kept < self.seen.len() {
            if let Some(entry) = self.seen.pop() {
                self.counts.undo_entry(entry);
            }
        }
    }

    /// Notes the clause whose candidates the pick counted by a walk, so that it may get a count.
    pub(crate) fn note_count<N: Copy>(
        &mut self,
        queue: &[NeedClause],
        lists: &FixedLists<N>,
        values: &DecisionMap,
    ) -> R<()>
    where
        N: Drop,
        requires fits { Fits (literals_in lists.now) self.old queue.now }
        requires values { (v : ℕ) → value_at values.now v ≡ value_in self.old.seen.items v }
        requires once { EachOnce self.old.seen.items }
        // Whatever the answer.
        ensures fits { Fits (literals_in lists.now) self.new queue.now }
        ensures seen { self.new.seen ≡ self.old.seen }
        // After a refusal.
        ensures refusal { IsOkUnless result Memory }
    {
        let counted = self.counted;
        self.counted = None;
        if let Some(position) = counted {
            if position < queue.len() {
                if let Some(candidates) = lists.candidates(queue[position].requirement) {
                    self.counts.note_count(position, candidates, values)?;
                }
            }
        }
        Ok(())
    }

    /// Adds the new entries of this trail.
    pub(crate) fn sync(&mut self, trail: &[Entry]) -> R<()>
        requires seen { IsPrefixOf self.old.seen.items trail.now }
        requires once { EachOnce trail.now }
        // After an answer.
        ensures synced { OnOk result (self.new.seen.items ≡ trail.now) }
        // After a refusal.
        ensures refusal { IsOkUnless result Memory }
        // Whatever the answer.
        ensures seen { IsPrefixOf self.new.seen.items trail.now }
        ensures fits { KeepsFits self.old self.new }
    {
        let seen = self.seen.len();
        for entry in &trail[seen..] {
            self.sync_entry(*entry)?;
        }
        Ok(())
    }

    /// Adds one entry, and opens the clauses of a variable that it makes true.
    fn sync_entry(&mut self, entry: Entry) -> R<()>
        requires { assigned self.old.seen.items entry.decision.variable.0 ≡ None }
        ensures seen { OnOk result (self.new.seen.items ≡ self.old.seen.items ++ entry ∷ []) }
        ensures err { OnErr result (self.new.seen.items ≡ self.old.seen.items) }
        ensures fits { KeepsFits self.old self.new }
        ensures refusal { IsOkUnless result Memory }
    {
        self.seen.push(entry)?;
        self.counts.add_entry(entry);
        if entry.decision.value {
            self.open_clauses_of(entry.decision.variable);
        }
        Ok(())
    }

    /// Opens the clauses of a parent.
    fn open_clauses_of(&mut self, parent: VariableId)
        ensures opened { (i : ℕ)
            → IsClauseOf self.old.by_parent parent.0 i
            → state_at self.new.states i ≡ Open }
        ensures others { (i : ℕ)
            → (state_at self.new.states i ≡ state_at self.old.states i) ⊎
            (state_at self.new.states i ≡ Open) }
        ensures len { length self.new.states ≡ length self.old.states }
        ensures rest { self.new ≡ record self.old { states = self.new.states } }
    {
        let mut next = self.by_parent.last(parent);
        while let Some(link) = self.by_parent.link(next) {
            self.states.put(link.position as usize, ClauseState::Open);
            next = link.previous;
        }
    }

    /// The pick under the seen trail, where no score is above that of `ends`, and no clause offers a
    /// decision with fewer undecided candidates. Skips the cold clauses, once there is a decision.
    pub(crate) fn pick<N: Copy + Exact, C: ScoreMap<N>>(
        &mut self,
        queue: &[NeedClause],
        lists: &FixedLists<N>,
        values: &DecisionMap,
        scores: &C,
        cold: &mut ColdClauses<N>,
        ends: Ends,
    ) -> Option<NextDecision>
    where
        N: Drop,
        requires fits { Fits (literals_in lists.now) self.old queue.now }
        requires values { (v : ℕ) → value_at values.now v ≡ value_in self.old.seen.items v }
        requires bounded { (name : N) → C.score_of scores.now name ≤ ends.most }
        requires fewest { OffersAtLeast lists.now (value_at values.now) queue.now ends.fewest }
        requires hot { IsKnownHot (C.score_of scores.now) cold.old }
        requires cold { HasColdBits lists.now cold.old queue.now }
        // After an answer.
        ensures picked { result
            ≡ pick lists.now (value_at values.now) (C.score_of scores.now) queue.now }
        // Whatever the answer.
        ensures fits { Fits (literals_in lists.now) self.new queue.now }
        ensures seen { self.new.seen ≡ self.old.seen }
        ensures cold { HasColdBits lists.now cold.new queue.now }
        ensures rest { cold.new ≡ record cold.old { warm = cold.new.warm } }
    {
        let mut best = None;
        let mut position = self.states.next_open(0);
        while position < queue.len() {
            if self.may_beat(best, position, queue, lists, values, scores) {
                let next = self.take_offer(position, &queue[position], lists, values, scores);
                best = or_later(best, next);
                if is_final(best, ends.most, ends.fewest) {
                    return best;
                }
            } else {
                self.note_cold(position, &queue[position], lists, scores, cold);
            }
            position = self.next_after(best, position + 1, cold);
        }
        best
    }

    /// Notes that the clause at a position is cold, if it is open and all its candidates are of
    /// packages with score 0.
    fn note_cold<N: Copy + Exact, C: ScoreMap<N>>(
        &self,
        position: usize,
        need: &NeedClause,
        lists: &FixedLists<N>,
        scores: &C,
        cold: &mut ColdClauses<N>,
    )
    where
        N: Drop,
        requires { IsKnownHot (C.score_of scores.now) cold.old }
        ensures kept { KeepsColdAt lists.now position need.now cold.old cold.new }
        ensures rest { cold.new ≡ record cold.old { warm = cold.new.warm } }
    {
        if self.states.state(position).is_open() {
            if let Some(candidates) = lists.candidates(need.requirement) {
                cold.note(position, candidates, scores);
            }
        }
    }

    /// The next position whose clause may beat the decision so far.
    fn next_after<N: Copy + Exact>(
        &mut self,
        best: Option<NextDecision>,
        from: usize,
        cold: &ColdClauses<N>,
    ) -> usize
        ensures behind { from ≤ result }
        ensures passed { (i : ℕ)
            → from ≤ i
            → i < result
            → (is_open_state (state_at self.old.states i) ≡ false) ⊎ CanSkip best cold.now i }
        ensures same { self.new.states ≡ self.old.states }
        ensures rest { self.new ≡ record self.old { states = self.new.states } }
    {
        match best {
            Some(_) => self.states.next_warm(from, cold.warm()),
            None => self.states.next_open(from),
        }
    }

    /// The decision that the clause at this position offers. Stores that the clause is satisfied,
    /// if it offers none since one of its candidates is true.
    fn take_offer<N: Copy + Eq, C: ScoreMap<N>>(
        &mut self,
        position: usize,
        need: &NeedClause,
        lists: &FixedLists<N>,
        values: &DecisionMap,
        scores: &C,
    ) -> Option<NextDecision>
    where
        N: Drop,
        requires kept_count { IsRightCountAt (literals_in lists.now) self.old position need.now }
        requires values { (v : ℕ) → value_at values.now v ≡ value_in self.old.seen.items v }
        // What the call promises.
        ensures offer { result
            ≡ offer lists.now (value_at values.now) (C.score_of scores.now) need.now }
        ensures fits { KeepsFitsAt (literals_in lists.now) position need.now self.old self.new }
        ensures seen { self.new.seen ≡ self.old.seen }
    {
        match self.offer_at(position, need, lists, values, scores) {
            Some(next) => Some(next),
            None => {
                self.close_met(position, need, lists, values);
                None
            }
        }
    }

    /// Stores that the clause at this position is satisfied, if one of its candidates is true.
    fn close_met<N: Copy>(
        &mut self,
        position: usize,
        need: &NeedClause,
        lists: &FixedLists<N>,
        values: &DecisionMap,
    )
    where
        N: Drop,
        requires { (v : ℕ) → value_at values.now v ≡ value_in self.old.seen.items v }
        ensures fits { KeepsFitsAt (literals_in lists.now) position need.now self.old self.new }
        ensures seen { self.new.seen ≡ self.old.seen }
    {
        if let Some(candidates) = lists.candidates(need.requirement) {
            if is_any_true(candidates, values) {
                let state = self.met();
                self.states.put(position, state);
            }
        }
    }

    /// The decision that the clause at this position offers.
    fn offer_at<N: Copy + Eq, C: ScoreMap<N>>(
        &mut self,
        position: usize,
        need: &NeedClause,
        lists: &FixedLists<N>,
        values: &DecisionMap,
        scores: &C,
    ) -> Option<NextDecision>
    where
        N: Drop,
        requires kept_count { IsRightCountAt (literals_in lists.now) self.old position need.now }
        requires values { (v : ℕ) → value_at values.now v ≡ value_in self.old.seen.items v }
        ensures offer { result
            ≡ offer lists.now (value_at values.now) (C.score_of scores.now) need.now }
        ensures rest { self.new ≡ record self.old { counted = self.new.counted } }
    {
        match self.counts.count(position) {
            Some(count) => counted_offer(need, lists, values, scores, count),
            None => {
                self.counted = Some(position);
                offered(need, lists, values, scores)
            }
        }
    }

    /// Whether the clause at this position may offer a decision that beats the one so far. Stores
    /// its state, if it offers none.
    fn may_beat<N: Copy + Eq, C: ScoreMap<N>>(
        &mut self,
        best: Option<NextDecision>,
        position: usize,
        queue: &[NeedClause],
        lists: &FixedLists<N>,
        values: &DecisionMap,
        scores: &C,
    ) -> bool
    where
        N: Drop,
        requires within { position < length queue.now }
        requires fits { Fits (literals_in lists.now) self.old queue.now }
        requires values { (v : ℕ) → value_at values.now v ≡ value_in self.old.seen.items v }
        // After an answer.
        ensures nothing { result ≡ false
            → (q : NeedClause)
            → slice_get queue.now position ≡ Some q
            → later best (offer lists.now (value_at values.now) (C.score_of scores.now) q) ≡ best }
        // Whatever the answer.
        ensures fits { Fits (literals_in lists.now) self.new queue.now }
        ensures seen { self.new.seen ≡ self.old.seen }
    {
        if let Some(candidates) = lists.candidates(queue[position].requirement) {
            self.counts.pass_false(position, candidates, values);
        }
        match self.first_undecided(position, &queue[position], lists, values) {
            Ok(candidate) => !is_final(best, scores.get(candidate.package), 0),
            Err(state) => {
                self.states.put(position, state);
                false
            }
        }
    }

    /// The first undecided candidate of a clause, or the state of one that offers no decision.
    fn first_undecided<N: Copy>(
        &self,
        position: usize,
        need: &NeedClause,
        lists: &FixedLists<N>,
        values: &DecisionMap,
    ) -> Result<Candidate<N>, ClauseState>
    where
        N: Drop,
        requires kept_count { IsRightCountAt (literals_in lists.now) self.now position need.now }
        requires values { (v : ℕ) → value_at values.now v ≡ value_in self.now.seen.items v }
        ensures first { IfOk result
            (λ c. find (λ d. is_open (value_under (value_at values.now) d.literal))
            (candidates_in lists.now need.now.requirement)
            ≡ Some c) }
        ensures state { IfErr result
            (λ s. IsSoundState (literals_in lists.now) self.now.seen.items need.now s) }
        ensures nothing { IfErr result
            (λ _. (score : N → ℕ) → offer lists.now (value_at values.now) score need.now ≡ None) }
    {
        if values.value(need.parent) != Some(true) {
            return Err(ClauseState::Inactive);
        }
        let Some(candidates) = lists.candidates(need.requirement) else {
            return Err(ClauseState::Open);
        };
        let count = self.counts.count(position);
        if has_true(count) {
            return Err(self.met());
        }
        match first_possible(behind_passed(candidates, count), values) {
            Some(candidate) if candidate.literal.is_true(values) => Err(self.met()),
            Some(candidate) => Ok(*candidate),
            None => Err(ClauseState::Open),
        }
    }

    /// The state of a clause that the seen trail satisfies.
    fn met(&self) -> ClauseState
        ensures { IsMetNow (length self.now.seen.items) result }
    {
        match u32::try_from(self.seen.len()) {
            Ok(within) => ClauseState::Satisfied(within),
            Err(_) => ClauseState::Open,
        }
    }
}

/// Whether a count has a true candidate.
fn has_true(count: Option<CandidateCount>) -> bool
    ensures { result ≡ has_true_in count }
{
    match count {
        Some(count) => count.trues > 0,
        None => false,
    }
}

/// The first candidate that isn't false.
fn first_possible<'a, N: Copy>(
    candidates: &'a [Candidate<N>],
    values: &DecisionMap,
) -> Option<&'a Candidate<N>>
    ensures { option_copied result
        ≡ find (λ c. not (is_false (value_under (value_at values.now) c.literal))) candidates.now }
{
    candidates
        .iter()
        .find(|candidate| !candidate.literal.is_false(values))
}

/// Whether one of the candidates is true.
fn is_any_true<N: Copy>(candidates: &[Candidate<N>], values: &DecisionMap) -> bool
    ensures { result
        ≡ list_any (λ c. is_true (value_under (value_at values.now) c.literal)) candidates.now }
{
    candidates
        .iter()
        .any(|candidate| candidate.literal.is_true(values))
}

/// Whether no later decision with a score of at most `most`, and with at least `fewest` undecided
/// candidates, beats this one.
fn is_final(best: Option<NextDecision>, most: u64, fewest: usize) -> bool
    ensures { result ≡ true
        → (next : NextDecision)
        → next.package_activity ≤ most
        → fewest ≤ next.candidate_count
        → later best (Some next) ≡ best }
{
    match best {
        Some(best) => most <= best.package_activity || best.candidate_count <= fewest,
        None => false,
    }
}
