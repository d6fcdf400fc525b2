//! A source over another one: its ids are sparse, it records its questions, and it cancels once.

ghost use Rattle.std.specs.Prelude.{◌≡◌, refl, length, IfOk, IsErrOf, IsOkUnless, map};
ghost use Rattle.std.specs.Option.{option_map};
ghost use Rattle.resolvo_pool_core.specs.Provider.{hint_of, listing};
ghost use Rattle.resolvo_pool_core.specs.declared.want.Want.TheVariants.{Ids, Memory};
ghost use Rattle.resolvo_test_providers.specs.Renamed.{renamed, renamed_hint};
ghost use Rattle.resolvo_test_providers.specs.Laws.{candidates_named, sorts_permute};

use resolvo_pool_core::condition::Condition;
use resolvo_pool_core::id::{
    ConditionId, NameTag, SolvableTag, SparseId, StringId, VersionSetId, VersionSetUnionId,
};
use resolvo_pool_core::provider::{
    Candidates, Dependencies, DependencyProvider, HintDependenciesAvailable, Interner,
};
use resolvo_pool_core::want::R;
use std::alloc::Global;
use std::cell::{Cell, RefCell};
use std::fmt;

/// A question to a source.
#[derive(Clone, Copy, Debug, PartialEq, Eq)]
pub enum Question<N, S> {
    /// The candidates of a package.
    Candidates(N),
    /// The dependencies of a solvable.
    Dependencies(S),
}

/// A source that answers as another one, by ids of its own. Each is kept as the other one's id, and
/// is no place in a list. It records its questions, and cancels once: at the test before which so
/// many others passed.
#[derive(Drop)]
pub struct TestProvider<P: Interner> {
    alloc: Global,
    inner: P,
    left: Cell<u32>,
    value: u32,
    /// Its questions, in order.
    pub asked: RefCell<Vec<Question<P::NameId, P::SolvableId>>>,
}

impl<P: Interner> TestProvider<P> {
    /// A source that lets so many tests pass, and cancels at the next one with this value.
    pub fn new(alloc: Global, inner: P, passed: u32, value: u32) -> TestProvider<P>
        ensures inner { result.inner ≡ inner }
        ensures value { result.value ≡ value }
    {
        TestProvider {
            alloc,
            inner,
            left: Cell::new(passed),
            value,
            asked: RefCell::new(Vec::new(alloc)),
        }
    }

    fn record_question(&self, question: Question<P::NameId, P::SolvableId>) -> R<()>
        ensures { IsOkUnless result Memory }
    {
        match self.asked.try_borrow_mut() {
            Ok(mut asked) => Ok(asked.push(question)?),
            Err(_) => Ok(()),
        }
    }
}

/// The ids of these solvables.
pub fn sparse_ids<S: Copy>(alloc: Global, solvables: &[S]) -> R<Vec<SparseId<SolvableTag, S>>>
    ensures ids { IfOk result
        (λ v. v.items ≡ map (λ s. record { raw = s; kind = record {} }) solvables.now) }
    ensures refusal { IsOkUnless result Memory }
{
    Ok(
        solvables
            .iter()
            .map(|s| SparseId::from_raw(*s))
            .collect(alloc)?,
    )
}

/// The solvables of these ids.
fn raw_ids<S: Copy>(alloc: Global, ids: &[SparseId<SolvableTag, S>]) -> R<Vec<S>>
    ensures ids { IfOk result (λ v. v.items ≡ map (λ s. s.raw) ids.now) }
    ensures refusal { IsOkUnless result Memory }
{
    Ok(ids.iter().map(|id| id.into_raw()).collect(alloc)?)
}

/// The ids of these solvables, each with its reason.
fn sparse_pairs<S: Copy>(
    alloc: Global,
    excluded: &[(S, StringId)],
) -> R<Vec<(SparseId<SolvableTag, S>, StringId)>>
    ensures ids { IfOk result
        (λ v. v.items ≡ map (λ e. (record { raw = e.0; kind = record {} }, e.1)) excluded.now) }
    ensures refusal { IsOkUnless result Memory }
{
    Ok(
        excluded
            .iter()
            .map(|(s, why)| (SparseId::from_raw(*s), *why))
            .collect(alloc)?,
    )
}

/// The id of a solvable, if there is one.
fn sparse_id<S>(solvable: Option<S>) -> Option<SparseId<SolvableTag, S>>
    ensures { result ≡ option_map (λ s. record { raw = s; kind = record {} }) solvable }
{
    match solvable {
        Some(s) => Some(SparseId::from_raw(s)),
        None => None,
    }
}

fn sparse_hint<S: Copy>(
    alloc: Global,
    hint: &HintDependenciesAvailable<S>,
) -> R<HintDependenciesAvailable<SparseId<SolvableTag, S>>>
    ensures hint { IfOk result
        (λ h. hint_of h ≡ renamed_hint
        (λ s. record { raw = s; kind = record {} }) (hint_of hint.now)) }
    ensures refusal { IsOkUnless result Memory }
{
    match hint {
        HintDependenciesAvailable::None => Ok(HintDependenciesAvailable::None),
        HintDependenciesAvailable::All => Ok(HintDependenciesAvailable::All),
        HintDependenciesAvailable::Some(list) => Ok(HintDependenciesAvailable::Some(sparse_ids(
            alloc,
            list.as_slice(),
        )?)),
    }
}

fn sparse_candidates<S: Copy>(
    alloc: Global,
    listed: &Candidates<S>,
) -> R<Candidates<SparseId<SolvableTag, S>>>
    ensures listed { IfOk result
        (λ c. listing c ≡ renamed
        (λ s. record { raw = s; kind = record {} }) (listing listed.now)) }
    ensures refusal { IsOkUnless result Memory }
{
    Ok(Candidates {
        candidates: sparse_ids(alloc, listed.candidates.as_slice())?,
        favored: sparse_id(listed.favored),
        locked: sparse_id(listed.locked),
        hint_dependencies_available: sparse_hint(alloc, &listed.hint_dependencies_available)?,
        excluded: sparse_pairs(alloc, listed.excluded.as_slice())?,
        many: listed.many,
    })
}

impl<P: Interner> Interner for TestProvider<P> {
    type NameId = SparseId<NameTag, P::NameId>;

    type SolvableId = SparseId<SolvableTag, P::SolvableId>;

    ghost name_of_solvable = { λ p s.
        record { raw = P.name_of_solvable p.inner s.raw; kind = record {} } };

    ghost name_of_version_set = { λ p v.
        record { raw = P.name_of_version_set p.inner v; kind = record {} } };

    ghost members_of = { λ p u. P.members_of p.inner u };

    ghost condition_of = { λ p c. P.condition_of p.inner c };

    ghost solvable_text = { λ p s. P.solvable_text p.inner s.raw };

    ghost solvable_name_text = { λ p s. P.solvable_name_text p.inner s.raw };

    ghost merged_text = { λ p xs. P.merged_text p.inner (map (λ s. s.raw) xs) };

    ghost name_text = { λ p n. P.name_text p.inner n.raw };

    ghost version_set_text = { λ p v. P.version_set_text p.inner v };

    ghost string_text = { λ p w. P.string_text p.inner w };

    ghost operands_below = { λ p c. P.operands_below p.inner c };

    fn display_solvable<W: fmt::Write>(
        &self,
        solvable: SparseId<SolvableTag, P::SolvableId>,
        f: &mut fmt::Formatter<W>,
    ) -> fmt::Result {
        self.inner.display_solvable(solvable.into_raw(), f)
    }

    fn display_solvable_name<W: fmt::Write>(
        &self,
        solvable: SparseId<SolvableTag, P::SolvableId>,
        f: &mut fmt::Formatter<W>,
    ) -> fmt::Result {
        self.inner.display_solvable_name(solvable.into_raw(), f)
    }

    fn display_merged_solvables<W: fmt::Write>(
        &self,
        solvables: &[SparseId<SolvableTag, P::SolvableId>],
        f: &mut fmt::Formatter<W>,
    ) -> fmt::Result {
        match raw_ids(self.alloc, solvables) {
            Ok(raw) => self.inner.display_merged_solvables(raw.as_slice(), f),
            Err(_) => Err(fmt::Error),
        }
    }

    fn display_name<W: fmt::Write>(
        &self,
        name: SparseId<NameTag, P::NameId>,
        f: &mut fmt::Formatter<W>,
    ) -> fmt::Result {
        self.inner.display_name(name.into_raw(), f)
    }

    fn display_version_set<W: fmt::Write>(
        &self,
        version_set: VersionSetId,
        f: &mut fmt::Formatter<W>,
    ) -> fmt::Result {
        self.inner.display_version_set(version_set, f)
    }

    fn display_string<W: fmt::Write>(
        &self,
        string: StringId,
        f: &mut fmt::Formatter<W>,
    ) -> fmt::Result {
        self.inner.display_string(string, f)
    }

    fn version_set_name(&self, version_set: VersionSetId) -> SparseId<NameTag, P::NameId> {
        SparseId::from_raw(self.inner.version_set_name(version_set))
    }

    fn solvable_name(
        &self,
        solvable: SparseId<SolvableTag, P::SolvableId>,
    ) -> SparseId<NameTag, P::NameId> {
        SparseId::from_raw(self.inner.solvable_name(solvable.into_raw()))
    }

    fn version_sets_in_union(&self, union: VersionSetUnionId) -> &[VersionSetId] {
        self.inner.version_sets_in_union(union)
    }

    fn resolve_condition(&self, condition: ConditionId) -> Condition {
        self.inner.resolve_condition(condition)
    }
}

impl<P: DependencyProvider> TestProvider<P> {
    /// The solvables of these ids, sorted.
    fn sorted_raw(
        &self,
        alloc: Global,
        ids: &[SparseId<SolvableTag, P::SolvableId>],
    ) -> R<Vec<P::SolvableId>>
        ensures sorted { IfOk result
            (λ v. P.sorts self.now.inner (map (λ s. s.raw) ids.now) v.items) }
        ensures count { IfOk result (λ v. length v.items ≡ length ids.now) }
        ensures refusal { IsErrOf result Ids → P.may_lack_ids self.now.inner }
    {
        let mut raw = raw_ids(alloc, ids)?;
        self.inner.sort_candidates(alloc, raw.as_mut_slice())?;
        Ok(raw)
    }

    /// The ids, sorted as their solvables are.
    #[tactic(auto, using(crate::proofs::BackLemmas::given_back))]
    fn sorted_ids(
        &self,
        alloc: Global,
        ids: &[SparseId<SolvableTag, P::SolvableId>],
    ) -> R<Vec<SparseId<SolvableTag, P::SolvableId>>>
        ensures sorted { IfOk result
            (λ v. P.sorts self.now.inner (map (λ s. s.raw) ids.now) (map (λ s. s.raw) v.items)) }
        ensures count { IfOk result (λ v. length v.items ≡ length ids.now) }
        ensures refusal { IsErrOf result Ids → P.may_lack_ids self.now.inner }
    {
        let raw = self.sorted_raw(alloc, ids)?;
        sparse_ids(alloc, raw.as_slice())
    }
}

impl<P: DependencyProvider> DependencyProvider for TestProvider<P> {
    type Cancel = u32;

    ghost matches = { λ p v s. P.matches p.inner v s.raw };

    ghost candidates_of = { λ p n. option_map (renamed (λ s. record { raw = s; kind = record {} }))
        (P.candidates_of p.inner n.raw) };

    ghost dependencies_of = { λ p s. P.dependencies_of p.inner s.raw };

    ghost sorts = { λ p xs ys. P.sorts p.inner (map (λ s. s.raw) xs) (map (λ s. s.raw) ys) };

    ghost may_cancel = { λ p c. c ≡ p.value };

    ghost may_lack_ids = { λ p. P.may_lack_ids p.inner };

    ghost sorts_permute = { λ p xs ys h. sorts_permute
        (λ s. record { raw = s; kind = record {} }) (λ s. s.raw) (λ s. refl) xs ys
        (P.sorts_permute p.inner (map (λ s. s.raw) xs) (map (λ s. s.raw) ys) h) };

    ghost candidates_named = { λ p n. candidates_named
        (λ s. record { raw = s; kind = record {} }) (λ n. record { raw = n; kind = record {} })
        (P.name_of_solvable p.inner)
        (λ s. record { raw = P.name_of_solvable p.inner s.raw; kind = record {} }) (λ s. refl)
        n.raw (P.candidates_of p.inner n.raw) (P.candidates_named p.inner n.raw) };

    #[tactic(auto, using(crate::proofs::BackLemmas::kept_back))]
    fn filter_candidates(
        &self,
        alloc: Global,
        candidates: &[SparseId<SolvableTag, P::SolvableId>],
        version_set: VersionSetId,
        inverse: bool,
    ) -> R<Vec<SparseId<SolvableTag, P::SolvableId>>> {
        let raw = raw_ids(alloc, candidates)?;
        let kept = self
            .inner
            .filter_candidates(alloc, raw.as_slice(), version_set, inverse)?;
        sparse_ids(alloc, kept.as_slice())
    }

    fn get_candidates(
        &self,
        alloc: Global,
        name: SparseId<NameTag, P::NameId>,
    ) -> R<Option<Candidates<SparseId<SolvableTag, P::SolvableId>>>> {
        self.record_question(Question::Candidates(name.into_raw()))?;
        match self.inner.get_candidates(alloc, name.into_raw())? {
            Some(listed) => Ok(Some(sparse_candidates(alloc, &listed)?)),
            None => Ok(None),
        }
    }

    fn sort_candidates(
        &self,
        alloc: Global,
        candidates: &mut [SparseId<SolvableTag, P::SolvableId>],
    ) -> R<()> {
        let sorted = self.sorted_ids(alloc, candidates)?;
        candidates.copy_from_slice(sorted.as_slice());
        Ok(())
    }

    fn get_dependencies(
        &self,
        alloc: Global,
        solvable: SparseId<SolvableTag, P::SolvableId>,
    ) -> R<Dependencies> {
        self.record_question(Question::Dependencies(solvable.into_raw()))?;
        self.inner.get_dependencies(alloc, solvable.into_raw())
    }

    fn should_cancel_with_value(&self) -> Option<u32> {
        let left = self.left.get();
        self.left.set(if left == 0 { u32::MAX } else { left - 1 });
        if left == 0 { Some(self.value) } else { None }
    }
}
