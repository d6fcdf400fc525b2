//! Counts of the candidates of long need clauses, kept up with the trail, so that a pick needn't
//! walk over them. A clause gets one when its candidates are counted for the second time. Each of
//! them is then listed by its literal, so that an entry of the trail changes the counts that it
//! concerns.

ghost use Rattle.std.specs.Prelude.{◌≡◌, ℕ, ◌<◌, ◌≤◌, ◌++◌, ◌∷◌, [], List, length, true, slice_get, Some, None, OnOk, IsOkUnless};
ghost use Rattle.std.specs.Option.{option_map};
ghost use Rattle.resolvo_pool_core.specs.declared.want.Want.TheVariants.{Memory};
ghost use Rattle.resolvo_store_core.specs.Clauses.{candidate_literals};
ghost use Rattle.resolvo_store_core.specs.Signed.{negation, value_under, index_in, is_false};
ghost use Rattle.resolvo_store_core.specs.Trail.{EachOnce, assigned};
ghost use Rattle.resolvo_store_core.specs.Values.{value_at};
ghost use Rattle.resolvo_store_core.specs.declared.decision.Entry.{Entry};
ghost use Rattle.resolvo_decide.specs.CandidateCounts.{changed_each, occurrences_at, made_true, number_at, count_in, Counts, Lists, HasNoCount, Changes, Begins};
ghost use Rattle.resolvo_decide.specs.Needs.{KeepsCounts, KeepsCounted};

use crate::candidate_count::{CandidateChange, CandidateCount};
use crate::lists_by_index::make_room;
use resolvo_pool_core::id::DenseIndex;
use resolvo_pool_core::want::R;
use resolvo_store_core::decision::Entry;
use resolvo_store_core::decision_map::DecisionMap;
use resolvo_store_core::lists::Candidate;
use std::alloc::Global;

/// A clause with fewer candidates gets no count: a walk over them is as fast.
const MANY: usize = 16;

/// How the candidates of a clause are counted.
#[derive(Clone, Copy)]
pub enum CountState {
    /// They weren't counted yet.
    Never,
    /// They were counted once.
    Once,
    /// Their count is kept, under this number.
    Kept(usize),
}

/// A candidate of a clause with a count: the number of the count, and the place of the candidate.
#[derive(Clone, Copy)]
pub struct Occurrence {
    pub count: usize,
    pub place: usize,
}

/// The counts of clauses, under a trail.
#[derive(Drop)]
pub struct CandidateCounts {
    /// How each clause is counted, by its position in the queue. Clauses past the end never were.
    count_states: Vec<CountState>,
    counts: Vec<CandidateCount>,
    /// The candidates of the clauses with a count, by the indexes of their literals.
    occurrences: Vec<Vec<Occurrence>>,
}

impl CandidateCounts {
    /// The counts of an empty queue.
    pub fn new(alloc: Global) -> CandidateCounts
        ensures { HasNoCount result }
    {
        CandidateCounts {
            count_states: Vec::new(alloc),
            counts: Vec::new(alloc),
            occurrences: Vec::new(alloc),
        }
    }

    /// Adds the clause at this position, without a count.
    pub fn begin(&mut self, position: usize)
        ensures { Begins position self.old self.new }
    {
        self.count_states.truncate(position);
    }

    /// The count of the clause at this position, if it has one.
    pub fn count(&self, position: usize) -> Option<CandidateCount>
        ensures { result ≡ count_in self.now.counts.items
            (number_at self.now.count_states.items position) }
    {
        match self.count_states.get(position) {
            Some(CountState::Kept(number)) => self.counts.get(*number).copied(),
            _ => None,
        }
    }

    /// Changes the counts after this entry was added to the trail.
    pub fn add_entry(&mut self, entry: Entry)
        ensures kept { (trail : List Entry)
            → assigned trail entry.decision.variable.0 ≡ None
            → KeepsCounts trail (trail ++ entry ∷ []) self.old self.new }
    {
        self.change(index_made_true(entry), CandidateChange::MadeTrue);
        self.change(index_made_false(entry), CandidateChange::MadeFalse);
    }

    /// Changes the counts after this last entry was removed from the trail.
    pub fn undo_entry(&mut self, entry: Entry)
        ensures kept { (trail : List Entry)
            → KeepsCounts (trail ++ entry ∷ []) trail self.old self.new }
    {
        self.change(index_made_true(entry), CandidateChange::UndoneTrue);
        self.change(index_made_false(entry), CandidateChange::UndoneFalse);
    }

    /// Changes the counts of the literal of this index.
    fn change(&mut self, index: usize, change: CandidateChange)
        ensures { Changes change index self.old self.new }
    {
        if index < self.occurrences.len() {
            change_each(
                self.counts.as_mut_slice(),
                self.occurrences[index].as_slice(),
                change,
            );
        }
    }

    /// Passes over the false candidates in front of the clause at this position, if it has a count.
    pub fn pass_false<N: Copy>(
        &mut self,
        position: usize,
        candidates: &[Candidate<N>],
        values: &DecisionMap,
    )
        ensures kept { (trail : List Entry)
            → KeepsCounted trail (value_at values.now) position (candidate_literals candidates.now)
            self.old self.new }
    {
        if let Some(CountState::Kept(number)) = self.count_states.get(position) {
            let number = *number;
            if number < self.counts.len() {
                let passed = self.counts[number].passed;
                self.counts[number].passed = first_not_false(candidates, passed, values);
            }
        }
    }

    /// Notes that the candidates of the clause at this position were counted. Gives it a count at
    /// the second time, if they are many.
    pub fn note_count<N: Copy>(
        &mut self,
        position: usize,
        candidates: &[Candidate<N>],
        values: &DecisionMap,
    ) -> R<()>
        ensures kept { (trail : List Entry)
            → EachOnce trail
            → KeepsCounted trail (value_at values.now) position (candidate_literals candidates.now)
            self.old self.new }
        ensures refusal { IsOkUnless result Memory }
    {
        if candidates.len() < MANY {
            return Ok(());
        }
        if position >= self.count_states.len() {
            return note_once(&mut self.count_states, position);
        }
        match self.count_states[position] {
            CountState::Never => {
                self.count_states[position] = CountState::Once;
                Ok(())
            }
            CountState::Once => self.keep_count(position, candidates, values),
            CountState::Kept(_) => Ok(()),
        }
    }

    /// Gives a count to the clause at this position; without the memory for it, no clause keeps one.
    fn keep_count<N: Copy>(
        &mut self,
        position: usize,
        candidates: &[Candidate<N>],
        values: &DecisionMap,
    ) -> R<()>
        requires within { position < length self.old.count_states.items }
        requires some { 0 < length candidates.now }
        ensures kept { (trail : List Entry)
            → EachOnce trail
            → KeepsCounted trail (value_at values.now) position (candidate_literals candidates.now)
            self.old self.new }
        ensures refusal { IsOkUnless result Memory }
    {
        let number = self.counts.len();
        self.counts.push(count_of(candidates, values))?;
        match list_occurrences(&mut self.occurrences, number, candidates) {
            Ok(()) => {
                self.count_states[position] = CountState::Kept(number);
                Ok(())
            }
            Err(want) => {
                self.forget();
                Err(want)
            }
        }
    }

    /// Forgets all counts, where one of them can't be listed.
    fn forget(&mut self)
        ensures { HasNoCount self.new }
    {
        self.count_states.clear();
        self.occurrences.clear();
    }
}

/// Notes that the clause at this position, past the end of the list, was counted once. Those
/// between never were.
fn note_once(count_states: &mut Vec<CountState>, position: usize) -> R<()>
    requires { length count_states.old.items ≤ position }
    ensures same { (i : ℕ)
        → number_at count_states.new.items i ≡ number_at count_states.old.items i }
    ensures refusal { IsOkUnless result Memory }
{
    while count_states.len() < position {
        count_states.push(CountState::Never)?;
    }
    count_states.push(CountState::Once)?;
    Ok(())
}

/// The index of the literal that an entry makes true.
fn index_made_true(entry: Entry) -> usize
    ensures { result ≡ index_in (made_true entry) }
{
    let double = entry.decision.variable.0 as usize * 2;
    if entry.decision.value {
        double
    } else {
        double + 1
    }
}

/// The index of the literal that an entry makes false.
fn index_made_false(entry: Entry) -> usize
    ensures { result ≡ index_in (negation (made_true entry)) }
{
    let double = entry.decision.variable.0 as usize * 2;
    if entry.decision.value {
        double + 1
    } else {
        double
    }
}

/// Changes the counts of these candidates.
fn change_each(counts: &mut [CandidateCount], occurrences: &[Occurrence], change: CandidateChange)
    ensures each { (k : ℕ)
        → slice_get counts.new k
        ≡ option_map (changed_each change k occurrences.now) (slice_get counts.old k) }
    ensures len { length counts.new ≡ length counts.old }
{
    for one in occurrences {
        if one.count < counts.len() {
            counts[one.count] = counts[one.count].changed(change, one.place);
        }
    }
}

/// Lists the candidates of a clause by the indexes of their literals, for the count of this number.
fn list_occurrences<N: Copy>(
    occurrences: &mut Vec<Vec<Occurrence>>,
    count: usize,
    candidates: &[Candidate<N>],
) -> R<()>
    ensures listed { OnOk result
        (Lists count (candidate_literals candidates.now)
        occurrences.old.items occurrences.new.items) }
    ensures refusal { IsOkUnless result Memory }
{
    let alloc = *occurrences.allocator();
    for place in 0..candidates.len() {
        let index = candidates[place].literal.to_index();
        make_room(occurrences, alloc, index + 1)?;
        occurrences[index].push(Occurrence { count, place })?;
    }
    Ok(())
}

/// The count of these candidates, by a walk over them.
fn count_of<N: Copy>(candidates: &[Candidate<N>], values: &DecisionMap) -> CandidateCount
    ensures { Counts (value_at values.now) (candidate_literals candidates.now) result }
{
    let mut trues = 0;
    let mut falses = 0;
    for candidate in candidates {
        match candidate.literal.eval(values) {
            Some(true) => trues += 1,
            Some(false) => falses += 1,
            None => {}
        }
    }
    CandidateCount {
        total: candidates.len(),
        trues,
        falses,
        passed: 0,
    }
}

/// The place of the first candidate from this one on that isn't false, or the number of candidates.
fn first_not_false<N: Copy>(candidates: &[Candidate<N>], from: usize, values: &DecisionMap) -> usize
    ensures { (p : ℕ)
        → from ≤ p
        → p < result
        → (c : Candidate N)
        → slice_get candidates.now p ≡ Some c
        → is_false (value_under (value_at values.now) c.literal) ≡ true }
{
    for place in from..candidates.len() {
        if !candidates[place].literal.is_false(values) {
            return place;
        }
    }
    from.max(candidates.len())
}
