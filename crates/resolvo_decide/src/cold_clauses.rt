//! The hot packages, and which clauses are cold: no candidate of theirs is of a hot package. Once
//! there is a decision to beat, the pick skips the cold ones, 64 at a step.
ghost use Rattle.std.specs.Prelude.{◌≡◌, ◌==◌, ℕ, ◌<◌, ◌⊎◌, [], true, false, length, slice_index_or, Contains, OnOk, IsOkUnless};
ghost use Rattle.resolvo_pool_core.specs.declared.want.Want.TheVariants.{Memory};
ghost use Rattle.std.specs.List.{list_all};
ghost use Rattle.resolvo_decide.specs.States.{bit_of};
ghost use Rattle.resolvo_decide.specs.Cold.{IsKnownHot, AreCold, KeepsCold};

use crate::clause_states::{add_words, unmark};
use resolvo_pool_core::id::Exact;
use resolvo_pool_core::id_map::ScoreMap;
use resolvo_pool_core::want::R;
use resolvo_store_core::lists::Candidate;
use std::alloc::Global;

/// A clause with more candidates is never noted as cold.
const LONGEST: usize = 64;

/// The hot packages, and the clauses without a candidate of theirs.
#[derive(Drop)]
pub struct ColdClauses<N> {
    /// The hot packages.
    hot: Vec<N>,
    /// Whether these are the packages with a score above 0.
    is_known: bool,
    /// For each block of clauses a word, with a bit for each: whether it may have a candidate of a
    /// hot package.
    warm: Vec<u64>,
}

impl<N: Copy + Exact> ColdClauses<N> {
    /// No package is known as hot, and no clause as cold.
    pub(crate) fn new(alloc: Global) -> ColdClauses<N>
        ensures warm { result.warm.items ≡ [] }
        ensures known { result.is_known ≡ false }
    {
        ColdClauses {
            hot: Vec::new(alloc),
            is_known: false,
            warm: Vec::new(alloc),
        }
    }

    /// Sets the hot packages of a queue with so many clauses. If one is new, no clause is cold.
    pub(crate) fn set_hot(&mut self, hot: &[N], count: usize) -> R<()>
    where
        N: Drop,
        ensures hot { OnOk result (self.new.hot.items ≡ hot.now) }
        ensures kept { KeepsCold self.old self.new }
        ensures refusal { IsOkUnless result Memory }
    {
        self.take_hot(hot)?;
        self.is_known = true;
        add_words(&mut self.warm, count)?;
        Ok(())
    }

    /// Takes over the hot packages.
    fn take_hot(&mut self, hot: &[N]) -> R<()>
    where
        N: Drop,
        ensures hot { OnOk result (self.new.hot.items ≡ hot.now) }
        ensures kept { KeepsCold self.old self.new }
        ensures refusal { IsOkUnless result Memory }
    {
        if is_same(&self.hot, hot) {
            return Ok(());
        }
        let names = Vec::from_slice(*self.hot.allocator(), hot)?;
        if is_within(hot, &self.hot) {
            self.hot = names;
            return Ok(());
        }
        self.warm.clear();
        self.hot = names;
        Ok(())
    }

    /// The words of the clauses that may be warm, if the hot packages are known.
    pub(crate) fn warm(&self) -> &[u64]
        ensures { (i : ℕ)
            → bit_of result.now i ≡ 0
            → (self.now.is_known ≡ true) × (bit_of self.now.warm.items i ≡ 0) }
    {
        if self.is_known {
            self.warm.as_slice()
        } else {
            &[]
        }
    }

    /// Notes that the clause at a position is cold, if all its candidates are of packages with score
    /// 0.
    pub(crate) fn note<C: ScoreMap<N>>(
        &mut self,
        position: usize,
        candidates: &[Candidate<N>],
        scores: &C,
    )
        requires { IsKnownHot (C.score_of scores.now) self.old }
        ensures noted { (i : ℕ)
            → bit_of self.new.warm.items i ≡ 0
            → (bit_of self.old.warm.items i ≡ 0)
            ⊎ ((i ≡ position) × AreCold self.old.hot.items candidates.now) }
        ensures rest { self.new ≡ record self.old { warm = self.new.warm } }
    {
        if self.is_known && are_unscored(candidates, scores) {
            unmark(&mut self.warm, position);
        }
    }
}

/// Whether both are the same list.
fn is_same<N: Copy + Exact>(names: &[N], others: &[N]) -> bool
    ensures { result ≡ true → names.now ≡ others.now }
{
    if names.len() != others.len() {
        return false;
    }
    for i in 0..names.len() {
        if names[i] != others[i] {
            return false;
        }
    }
    true
}

/// Whether each of the names is found among all, in this order.
fn is_within<N: Copy + Exact>(names: &[N], all: &[N]) -> bool
    ensures { result ≡ true → (name : N) → Contains names.now name → Contains all.now name }
{
    let mut found = 0;
    for name in all {
        if is_next(names, found, *name) {
            found += 1;
        }
    }
    found == names.len()
}

/// Whether the name at a position is this one.
fn is_next<N: Copy + Exact>(names: &[N], position: usize, name: N) -> bool
    ensures { result ≡ true
        → (position < length names.now) × (slice_index_or names.now position name ≡ name) }
{
    position < names.len() && names[position] == name
}

/// Whether there is a candidate, and all are of packages with score 0.
fn are_unscored<N: Copy + Eq, C: ScoreMap<N>>(candidates: &[Candidate<N>], scores: &C) -> bool
    ensures some { result ≡ true → 0 < length candidates.now }
    ensures unscored { result ≡ true
        → list_all (λ c. C.score_of scores.now c.package == 0) candidates.now ≡ true }
{
    if candidates.is_empty() || candidates.len() > LONGEST {
        return false;
    }
    all_unscored(candidates, scores)
}

/// Whether all candidates are of packages with score 0.
fn all_unscored<N: Copy + Eq, C: ScoreMap<N>>(candidates: &[Candidate<N>], scores: &C) -> bool
    ensures { result ≡ list_all (λ c. C.score_of scores.now c.package == 0) candidates.now }
{
    candidates
        .iter()
        .all(|candidate| scores.get(candidate.package) == 0)
}
