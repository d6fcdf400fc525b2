//! Ids: dense ones, which are indexes, and sparse ones, which are only names of things.
//! The model of a dense id is its index; of a sparse id, its raw value.
ghost use Rattle.std.specs.Prelude.{◌≡◌, ◌==◌, ℕ, ◌<◌, ◌≤◌, ◌^◌, ◌↔◌, refl, true, Option, None, Some, IfOk, IsErr, IsOkUnless};
ghost use Rattle.resolvo_pool_core.specs.declared.want.Want.TheVariants.{Ids};
ghost use Rattle.std.proofs.Common.{ap, rules, ◌∙◌, sym};
ghost use Rattle.std.proofs.lemmas.Bool.{and_parts, eqb-true};
ghost use Rattle.resolvo_pool_core.specs.Indexes.{no_index, one_index};

use crate::want::{R, Want};
use std::fmt::Debug;
use std::hash::{BuildHasherDefault, FoldHasher, Hash};
use std::marker::PhantomData;

/// Values that are equal only where they are the same. Some have an index, by which a table finds
/// them without a hash.
pub trait Exact: Eq {
    /// The index of a value, if it has one.
    ghost indexed: { Self → Option ℕ };

    /// The index of a value, if it has one. No other value has it.
    fn index(&self) -> Option<u32>
        ensures { result ≡ indexed self.now };

    /// Equal values are one value.
    ghost exact: { (x y : Self) → Self.eq x y ≡ true → x ≡ y };

    /// Values with one index are one value.
    ghost alone: { (x y : Self) (i : ℕ) → indexed x ≡ Some i → indexed y ≡ Some i → x ≡ y };
}

impl Exact for u32 {
    ghost indexed = { λ x. None };

    ghost exact = { λ x y h. eqb-true x y h };

    ghost alone = { λ x y i h k. no_index h };

    fn index(&self) -> Option<u32> {
        None
    }
}

impl Exact for u64 {
    ghost indexed = { λ x. None };

    ghost exact = { λ x y h. eqb-true x y h };

    ghost alone = { λ x y i h k. no_index h };

    fn index(&self) -> Option<u32> {
        None
    }
}

/// A type of ids that are indexes.
pub trait DenseIndex: Copy + Eq {
    /// The index of an id.
    ghost index_of: { Self → ℕ };

    /// The id of an index.
    ghost id_at: { ℕ → Self };

    /// The id of an index, which is at most 4294967294.
    fn from_index(index: usize) -> Self
        requires { index < 4294967295 }
        ensures { result ≡ id_at index };

    /// The index of this id.
    fn to_index(self) -> usize
        ensures index { result ≡ index_of self }
        ensures bounded { result < 2 ^ 32 };

    /// The id of an index in range has that index.
    ghost round_trip: { (i : ℕ) → i < 4294967295 → index_of (id_at i) ≡ i };

    /// Ids with one index are one id.
    ghost distinct: { (x y : Self) → index_of x ≡ index_of y → x ≡ y };

    /// Ids are equal exactly where their indexes are.
    ghost eq_by_index: { (x y : Self) → Self.eq x y ≡ (index_of x == index_of y) };
}

/// The next index after `count` of them, unless all are used up.
pub fn next_index(count: usize) -> R<usize>
    ensures index { IfOk result (λ i. (i ≡ count) × (i < 4294967295)) }
    ensures ids { IsErr result ↔ (4294967295 ≤ count) }
    ensures refusal { IsOkUnless result Ids }
{
    if count >= 4_294_967_295 {
        return Err(Want::Ids);
    }
    Ok(count)
}

impl DenseIndex for u32 {
    ghost index_of = { λ x. x };

    ghost id_at = { λ i. i };

    ghost round_trip = { λ i h. refl };

    ghost distinct = { λ x y h. h };

    ghost eq_by_index = { λ x y. refl };

    fn from_index(index: usize) -> u32 {
        index as u32
    }

    fn to_index(self) -> usize {
        self as usize
    }
}

/// An id of the kind `Tag`, kept as a `Repr`.
#[derive_where(Clone, Copy, PartialEq, Eq, PartialOrd, Ord, Hash, Debug; Repr)]
pub struct DenseId<Tag, Repr = u32> {
    raw: Repr,
    tag: PhantomData<Tag>,
}

impl<Tag, Repr> DenseId<Tag, Repr> {
    /// The id with the raw value `raw`.
    pub fn from_raw(raw: Repr) -> DenseId<Tag, Repr>
        ensures { result.raw ≡ raw }
    {
        DenseId {
            raw,
            tag: PhantomData,
        }
    }
}

impl<Tag, Repr: Copy> DenseId<Tag, Repr> {
    /// The raw value of this id.
    pub fn into_raw(self) -> Repr
        ensures { result ≡ self.raw }
    {
        self.raw
    }
}

impl<Tag, Repr: DenseIndex + Hash + Debug> DenseIndex for DenseId<Tag, Repr> {
    ghost index_of = { λ x. Repr.index_of x.raw };

    ghost id_at = { λ i. record { raw = Repr.id_at i; tag = record {} } };

    ghost round_trip = { λ i h. Repr.round_trip i h };

    ghost distinct = { λ x y h. ap
        (λ r. record { raw = r; tag = x.tag }) (Repr.distinct x.raw y.raw h) };

    ghost eq_by_index = { λ x y. Prim.rw (Repr.eq_by_index x.raw y.raw) (Prim.search rules) };

    fn from_index(index: usize) -> DenseId<Tag, Repr> {
        DenseId::from_raw(Repr::from_index(index))
    }

    fn to_index(self) -> usize {
        self.raw.to_index()
    }
}

impl<Tag, Repr: DenseIndex + Hash + Debug> Exact for DenseId<Tag, Repr> {
    ghost indexed = { λ x. Some (Repr.index_of x.raw) };

    ghost alone = { λ x y i h k. ap (λ r. record { raw = r; tag = x.tag })
        (Repr.distinct x.raw y.raw (one_index (h ∙ sym k))) };

    fn index(&self) -> Option<u32> {
        Some(self.raw.to_index() as u32)
    }

    ghost exact = { λ x y h. ap (λ r. record { raw = r; tag = x.tag })
        (Repr.distinct x.raw y.raw
        (eqb-true _ _ (sym (Repr.eq_by_index x.raw y.raw) ∙ (and_parts _ _ h).0))) };
}

/// An id of the kind `Tag` that is no index, kept as a `Repr`; its maps hash by `H`.
#[derive_where(Clone, Copy, PartialEq, Eq, Hash, Debug; Repr)]
pub struct SparseId<Tag, Repr = u32, H = BuildHasherDefault<FoldHasher>> {
    raw: Repr,
    kind: PhantomData<(Tag, H)>,
}

impl<Tag, Repr, H> SparseId<Tag, Repr, H> {
    /// The id with the raw value `raw`.
    pub fn from_raw(raw: Repr) -> SparseId<Tag, Repr, H>
        ensures { result.raw ≡ raw }
    {
        SparseId {
            raw,
            kind: PhantomData,
        }
    }
}

impl<Tag, Repr: Copy, H> SparseId<Tag, Repr, H> {
    /// The raw value of this id.
    pub fn into_raw(self) -> Repr
        ensures { result ≡ self.raw }
    {
        self.raw
    }
}

impl<Tag, Repr: Exact, H> Exact for SparseId<Tag, Repr, H> {
    ghost indexed = { λ x. None };

    ghost alone = { λ x y i h k. no_index h };

    fn index(&self) -> Option<u32> {
        None
    }

    ghost exact = { λ x y h. ap
        (λ r. record { raw = r; kind = x.kind }) (Repr.exact x.raw y.raw (and_parts _ _ h).0) };
}

/// The kind of package names.
pub enum NameTag {}

/// The kind of solvables.
pub enum SolvableTag {}

/// The kind of learnt clauses.
pub enum LearntClauseTag {}

/// The kind of disjunctions of condition literals.
pub enum DisjunctionTag {}

/// The kind of candidate lists.
pub enum CandidatesTag {}

/// The kind of dependency lists.
pub enum DependenciesTag {}

/// The name of a package.
pub type NameId = DenseId<NameTag>;

/// A solvable: one version of a package.
pub type SolvableId = DenseId<SolvableTag>;

/// A learnt clause's list of literals.
pub type LearntClauseId = DenseId<LearntClauseTag>;

/// A condition's case, as a list of literals.
pub type DisjunctionId = DenseId<DisjunctionTag>;

/// A cached list of candidates.
pub type CandidatesId = DenseId<CandidatesTag>;

/// The cached dependencies of a solvable.
pub type DependenciesId = DenseId<DependenciesTag>;

/// A text of the interner, such as the reason of an exclusion.
#[derive(Clone, Copy, Debug, PartialEq, Eq, PartialOrd, Ord, Hash)]
pub struct StringId(pub u32);

impl DenseIndex for StringId {
    ghost index_of = { λ x. x.0 };

    ghost id_at = { λ i. record { 0 = i } };

    ghost round_trip = { λ i h. refl };

    ghost distinct = { λ x y h. ap (λ r. record { 0 = r }) h };

    ghost eq_by_index = { λ x y. refl };

    fn from_index(index: usize) -> StringId {
        StringId(index as u32)
    }

    fn to_index(self) -> usize {
        self.0 as usize
    }
}

/// A set of versions of one package.
#[derive(Clone, Copy, Debug, PartialEq, Eq, PartialOrd, Ord, Hash)]
pub struct VersionSetId(pub u32);

impl DenseIndex for VersionSetId {
    ghost index_of = { λ x. x.0 };

    ghost id_at = { λ i. record { 0 = i } };

    ghost round_trip = { λ i h. refl };

    ghost distinct = { λ x y h. ap (λ r. record { 0 = r }) h };

    ghost eq_by_index = { λ x y. refl };

    fn from_index(index: usize) -> VersionSetId {
        VersionSetId(index as u32)
    }

    fn to_index(self) -> usize {
        self.0 as usize
    }
}

/// A list of version sets, where a match of any one is enough.
#[derive(Clone, Copy, Debug, PartialEq, Eq, PartialOrd, Ord, Hash)]
pub struct VersionSetUnionId(pub u32);

impl DenseIndex for VersionSetUnionId {
    ghost index_of = { λ x. x.0 };

    ghost id_at = { λ i. record { 0 = i } };

    ghost round_trip = { λ i h. refl };

    ghost distinct = { λ x y h. ap (λ r. record { 0 = r }) h };

    ghost eq_by_index = { λ x y. refl };

    fn from_index(index: usize) -> VersionSetUnionId {
        VersionSetUnionId(index as u32)
    }

    fn to_index(self) -> usize {
        self.0 as usize
    }
}

/// A condition on the chosen solvables.
#[derive(Clone, Copy, Debug, PartialEq, Eq, PartialOrd, Ord, Hash)]
pub struct ConditionId(pub u32);

impl ConditionId {
    /// The condition of this number.
    pub fn new(id: u32) -> ConditionId
        ensures { result.0 ≡ id }
    {
        ConditionId(id)
    }

    /// The number of this condition.
    pub fn as_u32(self) -> u32
        ensures { result ≡ self.0 }
    {
        self.0
    }
}

impl DenseIndex for ConditionId {
    ghost index_of = { λ x. x.0 };

    ghost id_at = { λ i. record { 0 = i } };

    ghost round_trip = { λ i h. refl };

    ghost distinct = { λ x y h. ap (λ r. record { 0 = r }) h };

    ghost eq_by_index = { λ x y. refl };

    fn from_index(index: usize) -> ConditionId {
        ConditionId(index as u32)
    }

    fn to_index(self) -> usize {
        self.0 as usize
    }
}

/// A variable of the search; the root is the first.
#[derive(Clone, Copy, Debug, PartialEq, Eq, PartialOrd, Ord, Hash)]
pub struct VariableId(pub u32);

impl VariableId {
    /// The variable that represents the problem itself.
    pub fn root() -> VariableId
        ensures { result.0 ≡ 0 }
    {
        VariableId(0)
    }

    /// Whether this is the root.
    pub fn is_root(self) -> bool
        ensures { result ≡ (self.0 == 0) }
    {
        self.0 == 0
    }
}

impl DenseIndex for VariableId {
    ghost index_of = { λ x. x.0 };

    ghost id_at = { λ i. record { 0 = i } };

    ghost round_trip = { λ i h. refl };

    ghost distinct = { λ x y h. ap (λ r. record { 0 = r }) h };

    ghost eq_by_index = { λ x y. refl };

    fn from_index(index: usize) -> VariableId {
        VariableId(index as u32)
    }

    fn to_index(self) -> usize {
        self.0 as usize
    }
}

/// A clause, by its place among all clauses; the install-root clause is the first.
#[derive(Clone, Copy, Debug, PartialEq, Eq, PartialOrd, Ord, Hash)]
pub struct ClauseId(pub u32);

impl ClauseId {
    /// The clause that makes the root true.
    pub fn install_root() -> ClauseId
        ensures { result.0 ≡ 0 }
    {
        ClauseId(0)
    }
}

impl DenseIndex for ClauseId {
    ghost index_of = { λ x. x.0 };

    ghost id_at = { λ i. record { 0 = i } };

    ghost round_trip = { λ i h. refl };

    ghost distinct = { λ x y h. ap (λ r. record { 0 = r }) h };

    ghost eq_by_index = { λ x y. refl };

    fn from_index(index: usize) -> ClauseId {
        ClauseId(index as u32)
    }

    fn to_index(self) -> usize {
        self.0 as usize
    }
}
