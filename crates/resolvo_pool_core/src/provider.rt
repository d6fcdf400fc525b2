//! What a solver asks of a source of packages, as two traits, and the plain data of the answers.
//! A provider's meaning is its ghost members; its laws are the traits'. The cache, the solver and
//! the conflict graph are generic in it.
ghost use Rattle.std.specs.Prelude.{◌≡◌, ℕ, List, Bool, Option, true, None, [], IfOk, IfSome, OnOk, OnErr, IsErrOf, IsOkUnless, All};
ghost use Rattle.std.specs.Option.{option_map};
ghost use Rattle.std.specs.List.Sorted.{IsPermutation};
ghost use Rattle.std.specs.Fmt.{WritesOnOk};
ghost use Rattle.resolvo_pool_core.specs.declared.id.VersionSetId.{VersionSetId};
ghost use Rattle.resolvo_pool_core.specs.declared.id.VersionSetUnionId.{VersionSetUnionId};
ghost use Rattle.resolvo_pool_core.specs.declared.id.ConditionId.{ConditionId};
ghost use Rattle.resolvo_pool_core.specs.declared.id.StringId.{StringId};
ghost use Rattle.resolvo_pool_core.specs.declared.condition.Condition.{Condition};
ghost use Rattle.resolvo_pool_core.specs.declared.want.Want.TheVariants.{Ids, Memory};
ghost use Rattle.resolvo_pool_core.specs.declared.provider.HintDependenciesAvailable.TheVariants.{None as NoHint};
ghost use Rattle.resolvo_pool_core.specs.Provider.{Listing, Needs, listing, needs_of, OperandsBelow, kept, AreOf};

use crate::condition::Condition;
use crate::id::{ConditionId, SolvableId, StringId, VersionSetId, VersionSetUnionId};
use crate::requirement::ConditionalRequirement;
use crate::solver_id::SolverId;
use crate::want::R;
use std::alloc::Global;
use std::fmt;

/// What the ids of a source of packages mean, and how they are written.
///
/// Every call answers for every id; the answer for an id that the source never issued is
/// unspecified. All calls take `&self`: a source that counts or notes does so in a cell.
pub trait Interner {
    type NameId: SolverId;

    type SolvableId: SolverId;

    /// The package of a solvable.
    ghost name_of_solvable: { Self → Self.SolvableId → Self.NameId };

    /// The package of a version set.
    ghost name_of_version_set: { Self → VersionSetId → Self.NameId };

    /// The version sets of a union, in order.
    ghost members_of: { Self → VersionSetUnionId → List VersionSetId };

    /// The condition of an id.
    ghost condition_of: { Self → ConditionId → Condition };

    /// How a solvable is written: its package and its version.
    ghost solvable_text: { Self → Self.SolvableId → List ℕ };

    /// How the package of a solvable is written.
    ghost solvable_name_text: { Self → Self.SolvableId → List ℕ };

    /// How solvables of one package are written together.
    ghost merged_text: { Self → List Self.SolvableId → List ℕ };

    /// How a package's name is written.
    ghost name_text: { Self → Self.NameId → List ℕ };

    /// How a version set is written, without its package.
    ghost version_set_text: { Self → VersionSetId → List ℕ };

    /// The text of an id.
    ghost string_text: { Self → StringId → List ℕ };

    /// Writes a solvable: its package and its version.
    fn display_solvable<W: fmt::Write>(
        &self,
        solvable: Self::SolvableId,
        f: &mut fmt::Formatter<W>,
    ) -> fmt::Result
        ensures { WritesOnOk W.write_str_gives f.old result
            (solvable_text self.now solvable) f.new };

    /// Writes the package of a solvable.
    fn display_solvable_name<W: fmt::Write>(
        &self,
        solvable: Self::SolvableId,
        f: &mut fmt::Formatter<W>,
    ) -> fmt::Result
        ensures { WritesOnOk W.write_str_gives f.old result
            (solvable_name_text self.now solvable) f.new };

    /// Writes solvables of one package together, for a report that merges them.
    fn display_merged_solvables<W: fmt::Write>(
        &self,
        solvables: &[Self::SolvableId],
        f: &mut fmt::Formatter<W>,
    ) -> fmt::Result
        ensures { WritesOnOk W.write_str_gives f.old result
            (merged_text self.now solvables.now) f.new };

    /// Writes a package's name.
    fn display_name<W: fmt::Write>(
        &self,
        name: Self::NameId,
        f: &mut fmt::Formatter<W>,
    ) -> fmt::Result
        ensures { WritesOnOk W.write_str_gives f.old result (name_text self.now name) f.new };

    /// Writes a version set, without its package.
    fn display_version_set<W: fmt::Write>(
        &self,
        version_set: VersionSetId,
        f: &mut fmt::Formatter<W>,
    ) -> fmt::Result
        ensures { WritesOnOk W.write_str_gives f.old result
            (version_set_text self.now version_set) f.new };

    /// Writes the text of an id.
    fn display_string<W: fmt::Write>(
        &self,
        string: StringId,
        f: &mut fmt::Formatter<W>,
    ) -> fmt::Result
        ensures { WritesOnOk W.write_str_gives f.old result (string_text self.now string) f.new };

    /// The package of a version set.
    fn version_set_name(&self, version_set: VersionSetId) -> Self::NameId
        ensures { result ≡ name_of_version_set self.now version_set };

    /// The package of a solvable.
    fn solvable_name(&self, solvable: Self::SolvableId) -> Self::NameId
        ensures { result ≡ name_of_solvable self.now solvable };

    /// The version sets of a union, where a match of any one is enough.
    fn version_sets_in_union(&self, union: VersionSetUnionId) -> &[VersionSetId]
        ensures { result.now ≡ members_of self.now union };

    /// The condition of an id.
    fn resolve_condition(&self, condition: ConditionId) -> Condition
        ensures { result ≡ condition_of self.now condition };

    /// A condition's operands have smaller ids.
    ghost operands_below: { (p : Self) (c : ConditionId) → OperandsBelow (condition_of p c) c };
}

/// A source of packages.
pub trait DependencyProvider: Interner {
    /// The value that it returns where it cancels.
    type Cancel;

    /// Whether a solvable matches a version set.
    ghost matches: { Self → VersionSetId → Self.SolvableId → Bool };

    /// The candidates of a package, or none where there is no such package.
    ghost candidates_of: { Self → Self.NameId → Option (Listing Self.SolvableId) };

    /// The dependencies of a solvable, or the reason why they are unknown.
    ghost dependencies_of: { Self → Self.SolvableId → Needs };

    /// Which lists sorting may make of a list.
    ghost sorts: { Self → List Self.SolvableId → List Self.SolvableId → Type 0 };

    /// With which values it may cancel.
    ghost may_cancel: { Self → Self.Cancel → Type 0 };

    /// Whether its calls may fail for lack of ids.
    ghost may_lack_ids: { Self → Type 0 };

    /// The candidates that match, in order; with `inverse` those that don't.
    fn filter_candidates(
        &self,
        alloc: Global,
        candidates: &[Self::SolvableId],
        version_set: VersionSetId,
        inverse: bool,
    ) -> R<Vec<Self::SolvableId>>
        ensures kept { IfOk result
            (λ v. v.items ≡ kept (matches self.now version_set) inverse candidates.now) }
        ensures ids { IsErrOf result Ids → may_lack_ids self.now };

    /// The candidates of a package.
    fn get_candidates(
        &self,
        alloc: Global,
        name: Self::NameId,
    ) -> R<Option<Candidates<Self::SolvableId>>>
        ensures listed { IfOk result (λ c. option_map listing c ≡ candidates_of self.now name) }
        ensures ids { IsErrOf result Ids → may_lack_ids self.now };

    /// Sorts solvables of one package into the order in which they are tried.
    fn sort_candidates(&self, alloc: Global, candidates: &mut [Self::SolvableId]) -> R<()>
        ensures sorted { OnOk result (sorts self.now candidates.old candidates.new) }
        ensures err { OnErr result (IsPermutation candidates.old candidates.new) }
        ensures ids { IsErrOf result Ids → may_lack_ids self.now };

    /// What a solvable needs and limits.
    fn get_dependencies(&self, alloc: Global, solvable: Self::SolvableId) -> R<Dependencies>
        ensures needs { IfOk result (λ d. needs_of d ≡ dependencies_of self.now solvable) }
        ensures ids { IsErrOf result Ids → may_lack_ids self.now };

    /// Whether the solver shall stop, and with which value. Asked before each question.
    fn should_cancel_with_value(&self) -> Option<Self::Cancel>
        ensures { IfSome result (may_cancel self.now) }
    {
        None
    }

    /// Sorting gives a permutation.
    ghost sorts_permute: { (p : Self) (xs ys : List Self.SolvableId) → sorts p xs ys
        → IsPermutation xs ys };

    /// Each candidate of a package, also a locked or an excluded one, has its name.
    ghost candidates_named: { (p : Self) (n : Self.NameId)
        → AreOf (Self.name_of_solvable p) n (candidates_of p n) };
}

/// The candidates of a package, and what is known of them.
#[derive(Debug, Drop)]
pub struct Candidates<S = SolvableId> {
    /// All of them, in the provider's order.
    pub candidates: Vec<S>,
    /// The one to be tried first, wherever it matches.
    pub favored: Option<S>,
    /// The only one that may be chosen.
    pub locked: Option<S>,
    /// For which of them the dependencies are at hand.
    pub hint_dependencies_available: HintDependenciesAvailable<S>,
    /// Those that may not be chosen, with the reason.
    pub excluded: Vec<(S, StringId)>,
    /// Whether several of them may be chosen side by side; else at most one is.
    pub many: bool,
}

impl<S> Candidates<S> {
    ghost use Rattle.resolvo_pool_core.specs.Provider.{empty_listing};

    /// No candidate.
    pub fn new(alloc: Global) -> Candidates<S>
        ensures { listing result ≡ empty_listing }
    {
        Candidates {
            candidates: Vec::new(alloc),
            favored: None,
            locked: None,
            hint_dependencies_available: HintDependenciesAvailable::None,
            excluded: Vec::new(alloc),
            many: false,
        }
    }
}

impl<S: Copy> Candidates<S> {
    /// A copy of the candidates.
    pub fn clone(&self, alloc: Global) -> R<Candidates<S>>
    where
        S: Drop,
        ensures same { IfOk result (λ c. listing c ≡ listing self.now) }
        ensures refusal { IsOkUnless result Memory }
    {
        Ok(Candidates {
            candidates: Vec::from_slice(alloc, self.candidates.as_slice())?,
            favored: self.favored,
            locked: self.locked,
            hint_dependencies_available: self.hint_dependencies_available.clone(alloc)?,
            excluded: Vec::from_slice(alloc, self.excluded.as_slice())?,
            many: self.many,
        })
    }
}

/// For which candidates the dependencies are at hand.
#[derive(Debug, Drop)]
pub enum HintDependenciesAvailable<S = SolvableId> {
    None,
    All,
    Some(Vec<S>),
}

impl<S> Default for HintDependenciesAvailable<S> {
    ghost is_default = { λ h. h ≡ NoHint };

    fn default() -> HintDependenciesAvailable<S> {
        HintDependenciesAvailable::None
    }
}

impl<S: Copy> HintDependenciesAvailable<S> {
    ghost use Rattle.resolvo_pool_core.specs.Provider.{hint_of};

    /// A copy of the hint.
    pub fn clone(&self, alloc: Global) -> R<HintDependenciesAvailable<S>>
    where
        S: Drop,
        ensures same { IfOk result (λ h. hint_of h ≡ hint_of self.now) }
        ensures refusal { IsOkUnless result Memory }
    {
        match self {
            HintDependenciesAvailable::None => Ok(HintDependenciesAvailable::None),
            HintDependenciesAvailable::All => Ok(HintDependenciesAvailable::All),
            HintDependenciesAvailable::Some(list) => Ok(HintDependenciesAvailable::Some(
                Vec::from_slice(alloc, list.as_slice())?,
            )),
        }
    }
}

/// What a solvable needs and limits.
#[derive(Debug, Drop)]
pub enum Dependencies {
    Known(KnownDependencies),
    /// They can't be known, for this reason; the solvable can't be chosen.
    Unknown(StringId),
}

/// The known dependencies of a solvable.
#[derive(Debug, Drop)]
pub struct KnownDependencies {
    pub requirements: Vec<ConditionalRequirement>,
    /// Version sets: a chosen solvable of the package of one must match it.
    pub constrains: Vec<VersionSetId>,
}
