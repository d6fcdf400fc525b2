//! A provider's answers, each asked for once.
//! The model is the provider with the keys whose answers are cached, and the sorted lists; the
//! value at a key is the provider's answer. The solver asks the provider through it alone. Each
//! answer takes two calls: one makes sure that it is cached, the other reads it. The `get_or_cache`
//! calls do both. The solvables that cached candidates hint are kept as a set, so that whether one
//! is hinted is one look-up.
ghost use Rattle.std.specs.Prelude.{◌≡◌, ◌||◌, ◌&&◌, [], ◌∷◌, true, false, not, All, None, Some, List, IfOk, IfErr, IsErrOf, IsOk, IsOkUnless, OnErr, OnOk, ⊤, IfSome, length, position, ◌<◌};
ghost use Rattle.std.specs.List.{flat_map};
ghost use Rattle.std.specs.Map.{lookup};
ghost use Rattle.resolvo_pool_core.specs.declared.id.VersionSetId.{VersionSetId};
ghost use Rattle.resolvo_pool_core.specs.declared.want.Want.TheVariants.{Ids as WantIds, Memory as WantMemory};
ghost use Rattle.resolvo_pool_core.specs.Text.{alternatives_of};
ghost use Rattle.resolvo_pool_core.specs.Provider.{kept, listed, listing, listing_or_empty, hints, needs_of, matching_in, favoured_first, IsTried, tried_first, IsTriedFor};
ghost use Rattle.resolvo_pool.specs.declared.cache.CacheFault.TheVariants.{Ids};
ghost use Rattle.resolvo_pool.specs.Cached.{among, same_set, same_union, sorted_of, has_sorted, is_sorted, Extends, AddsNames, AddsMatching, AddsSorted, IsCancelledBy};

use crate::hinted::put_hinted;
use crate::id_lists::IdLists;
use crate::id_table::IdTable;
use resolvo_pool_core::id::{Exact, VersionSetId, VersionSetUnionId};
use resolvo_pool_core::id_map::{IdSet, OptionalNumber};
use resolvo_pool_core::provider::{Candidates, Dependencies, DependencyProvider};
use resolvo_pool_core::requirement::Requirement;
use resolvo_pool_core::solver_id::SolverId;
use resolvo_pool_core::want::{R, Want};
use std::alloc::{AllocError, AllocFailed, Global};
use std::marker::Model;
use thiserror::Error;

/// Why a question to the cache has no answer.
#[derive(Debug, Drop, Error)]
pub enum CacheFault<C> {
    /// An allocation was refused.
    #[error("no memory")]
    Memory,
    /// The provider's ids are used up.
    #[error("no ids")]
    Ids,
    /// The provider cancelled, with this value.
    #[error("cancelled")]
    Cancelled(C),
}

impl<C> From<Want> for CacheFault<C> {
    ghost use Rattle.std.specs.Prelude.{◌≡◌};
    ghost use Rattle.resolvo_pool.specs.Fault.{fault_of};

    ghost from_gives = { λ w f. f ≡ fault_of w };

    fn from(want: Want) -> CacheFault<C> {
        match want {
            Want::Memory => CacheFault::Memory,
            Want::Ids => CacheFault::Ids,
        }
    }
}

impl<C> From<AllocError> for CacheFault<C> {
    ghost use Rattle.std.specs.Prelude.{◌≡◌};
    ghost use Rattle.resolvo_pool.specs.declared.cache.CacheFault.TheVariants.{Memory};

    ghost from_gives = { λ _ f. f ≡ Memory };

    fn from(_refused: AllocError) -> CacheFault<C> {
        CacheFault::Memory
    }
}

impl<C, T: Drop> From<AllocFailed<T>> for CacheFault<C> {
    ghost use Rattle.std.specs.Prelude.{◌≡◌};
    ghost use Rattle.resolvo_pool.specs.declared.cache.CacheFault.TheVariants.{Memory};

    ghost from_gives = { λ _ f. f ≡ Memory };

    fn from(_refused: AllocFailed<T>) -> CacheFault<C> {
        CacheFault::Memory
    }
}

/// A provider, and its answers so far.
#[derive(Drop)]
pub struct SolverCache<D: DependencyProvider> {
    provider: D,
    alloc: Global,
    lists: IdTable<D::NameId, Candidates<D::SolvableId>, <D::NameId as SolverId>::OptionalIds>,
    matching: IdLists<VersionSetId, D::SolvableId, Vec<OptionalNumber>>,
    non_matching: IdLists<VersionSetId, D::SolvableId, Vec<OptionalNumber>>,
    sorted: IdLists<VersionSetId, D::SolvableId, Vec<OptionalNumber>>,
    unions: IdLists<VersionSetUnionId, D::SolvableId, Vec<OptionalNumber>>,
    dependencies: IdTable<D::SolvableId, Dependencies, <D::SolvableId as SolverId>::OptionalIds>,
    hinted: <D::SolvableId as SolverId>::Set,
}

impl<D: DependencyProvider> Model for SolverCache<D> {
    ghost use Rattle.std.specs.Prelude.{true, false};
    ghost use Rattle.std.specs.Map.{keys_of};
    ghost use Rattle.resolvo_pool_core.specs.Provider.{matching_in, tried_first};
    ghost use Rattle.resolvo_pool.specs.Cached.{Cached, IsKept, IsListing, IsList, IsSortedList, IsUnionList, IsNeeds, same_set, same_union, among};
    ghost use Rattle.resolvo_pool.specs.Hinted.{is_hinted, HoldsHinted};

    ghost Value = { Cached D D.NameId D.SolvableId };

    ghost view = { λ c.
        record {
          provider = c.provider;
          names = keys_of c.lists;
          matching = keys_of c.matching;
          non_matching = keys_of c.non_matching;
          sorted = c.sorted;
          unions = keys_of c.unions;
          solvables = keys_of c.dependencies;
        } };

    ghost invariant = { λ c.
        IsKept D.NameId.eq (IsListing (D.candidates_of c.provider)) c.lists
        × IsKept same_set (IsList (matching_in (D.name_of_version_set c.provider)
        (D.candidates_of c.provider) (D.matches c.provider) false)) c.matching
        × IsKept same_set (IsList (matching_in (D.name_of_version_set c.provider)
        (D.candidates_of c.provider) (D.matches c.provider) true)) c.non_matching
        × IsKept same_set (IsSortedList (D.sorts c.provider) D.SolvableId.eq (tried_first
        (D.name_of_version_set c.provider) (D.candidates_of c.provider)) (matching_in
        (D.name_of_version_set c.provider) (D.candidates_of c.provider)
        (D.matches c.provider) false)) c.sorted
        × IsKept same_union (IsUnionList (D.members_of c.provider) c.sorted) c.unions
        × IsKept D.SolvableId.eq (IsNeeds (D.dependencies_of c.provider)) c.dependencies
        × HoldsHinted (λ s. among D.NameId.eq (keys_of c.lists) (D.name_of_solvable c.provider s))
        (is_hinted D.SolvableId.eq (D.name_of_solvable c.provider) (D.candidates_of c.provider))
        (D.SolvableId.Set.has c.hinted) };
}

impl<D: DependencyProvider> SolverCache<D> {
    /// An empty cache.
    #[tactic(auto, using(crate::proofs::HintedLemmas::hinted_none))]
    pub fn new(alloc: Global, provider: D) -> SolverCache<D>
        ensures { result
            ≡ record {
              provider = provider;
              names = [];
              matching = [];
              non_matching = [];
              sorted = [];
              unions = [];
              solvables = [];
            } }
    {
        SolverCache {
            provider,
            alloc,
            lists: IdTable::new(alloc),
            matching: IdLists::new(alloc),
            non_matching: IdLists::new(alloc),
            sorted: IdLists::new(alloc),
            unions: IdLists::new(alloc),
            dependencies: IdTable::new(alloc),
            hinted: <D::SolvableId as SolverId>::Set::new(alloc),
        }
    }

    /// The provider.
    pub fn provider(&self) -> &D
        ensures { result.now ≡ self.now.provider }
    {
        &self.provider
    }

    /// Whether the candidates of a package are cached.
    pub fn has_candidates(&self, name: D::NameId) -> bool
        ensures { result ≡ among D.NameId.eq self.now.names name }
    {
        self.lists.contains(name)
    }

    /// The cached candidates of a package.
    pub fn candidates(&self, name: D::NameId) -> &Candidates<D::SolvableId>
        requires { among D.NameId.eq self.now.names name ≡ true }
        ensures { listing result.now ≡ listing_or_empty (D.candidates_of self.now.provider name) }
    {
        match self.lists.get(name) {
            Some(list) => list,
            None => unreachable!(),
        }
    }

    /// Makes sure that the candidates of a package are cached.
    pub fn cache_candidates(&mut self, name: D::NameId) -> Result<(), CacheFault<D::Cancel>>
        // The answer is cached.
        ensures there { OnOk result (among D.NameId.eq self.new.names name ≡ true) }
        ensures cached { among D.NameId.eq self.old.names name ≡ true → IsOk result
            × (self.new ≡ self.old) }
        // What else changes.
        ensures extends { Extends D.NameId.eq D.SolvableId.eq self.old self.new }
        ensures only { AddsNames self.old self.new }
        // After a refusal.
        ensures err { OnErr result (self.new ≡ self.old) }
        ensures cancelled { IfErr result (IsCancelledBy (D.may_cancel self.old.provider)) }
        ensures ids { IsErrOf result Ids → D.may_lack_ids self.old.provider }
    {
        if self.has_candidates(name) {
            return Ok(());
        }
        self.ask_candidates(name)
    }

    /// Asks for the candidates of a package, and caches them.
    fn ask_candidates(&mut self, name: D::NameId) -> Result<(), CacheFault<D::Cancel>>
        requires fresh { among D.NameId.eq self.old.names name ≡ false }
        // The answer is cached.
        ensures there { OnOk result (among D.NameId.eq self.new.names name ≡ true) }
        // What else changes.
        ensures extends { Extends D.NameId.eq D.SolvableId.eq self.old self.new }
        ensures only { AddsNames self.old self.new }
        // After a refusal.
        ensures err { OnErr result (self.new ≡ self.old) }
        ensures cancelled { IfErr result (IsCancelledBy (D.may_cancel self.old.provider)) }
        ensures ids { IsErrOf result Ids → D.may_lack_ids self.old.provider }
    {
        if let Some(value) = self.provider.should_cancel_with_value() {
            return Err(CacheFault::Cancelled(value));
        }
        let list = candidates_from(&self.provider, self.alloc, name)?;
        put_hinted(&mut self.hinted, &self.provider, name, &list)?;
        self.lists.put(name, list)?;
        Ok(())
    }

    /// The candidates of a package. A package that the provider does not have has none.
    pub fn get_or_cache_candidates(
        &mut self,
        name: D::NameId,
    ) -> Result<&Candidates<D::SolvableId>, CacheFault<D::Cancel>>
        ensures answer { IfOk result
            (λ r. listing r.now ≡ listing_or_empty (D.candidates_of self.old.provider name)) }
        ensures cached { among D.NameId.eq self.old.names name ≡ true → IsOk result }
        ensures cancelled { IfErr result (IsCancelledBy (D.may_cancel self.old.provider)) }
        ensures ids { IsErrOf result Ids → D.may_lack_ids self.old.provider }
    {
        self.cache_candidates(name)?;
        Ok(self.candidates(name))
    }

    /// Whether the candidates of a version set's package that match it are cached.
    pub fn has_matching_candidates(&self, version_set: VersionSetId) -> bool
        ensures { result ≡ among same_set self.now.matching version_set }
    {
        self.matching.contains(version_set)
    }

    /// The cached candidates of a version set's package that match it.
    pub fn matching_candidates(&self, version_set: VersionSetId) -> &[D::SolvableId]
        requires { among same_set self.now.matching version_set ≡ true }
        ensures { result.now
            ≡ matching_in (D.name_of_version_set self.now.provider)
            (D.candidates_of self.now.provider) (D.matches self.now.provider) false version_set }
    {
        match self.matching.get(version_set) {
            Some(list) => list,
            None => unreachable!(),
        }
    }

    /// Makes sure that the candidates of a version set's package that match it are cached.
    pub fn cache_matching_candidates(
        &mut self,
        version_set: VersionSetId,
    ) -> Result<(), CacheFault<D::Cancel>>
        // The answer is cached.
        ensures there { OnOk result (among same_set self.new.matching version_set ≡ true) }
        ensures cached { among same_set self.old.matching version_set ≡ true
            → IsOk result × (self.new ≡ self.old) }
        // What else changes.
        ensures extends { Extends D.NameId.eq D.SolvableId.eq self.old self.new }
        ensures only { AddsMatching self.old self.new }
        // After a refusal.
        ensures err { OnErr result (AddsNames self.old self.new) }
        ensures cancelled { IfErr result (IsCancelledBy (D.may_cancel self.old.provider)) }
        ensures ids { IsErrOf result Ids → D.may_lack_ids self.old.provider }
    {
        if self.has_matching_candidates(version_set) {
            return Ok(());
        }
        let name = self.provider.version_set_name(version_set);
        self.cache_candidates(name)?;
        self.keep_matching(version_set)?;
        Ok(())
    }

    /// Filters the cached candidates of a version set's package, and caches those that match it.
    fn keep_matching(&mut self, version_set: VersionSetId) -> R<()>
        requires listed { among D.NameId.eq self.old.names
            (D.name_of_version_set self.old.provider version_set)
            ≡ true }
        requires fresh { among same_set self.old.matching version_set ≡ false }
        // The answer is cached.
        ensures there { OnOk result (among same_set self.new.matching version_set ≡ true) }
        // What else changes.
        ensures extends { Extends D.NameId.eq D.SolvableId.eq self.old self.new }
        ensures only { AddsMatching self.old self.new }
        // After a refusal.
        ensures err { OnErr result (self.new ≡ self.old) }
        ensures ids { IsErrOf result WantIds → D.may_lack_ids self.old.provider }
    {
        let found = self.filtered(version_set, false)?;
        self.matching.put(version_set, found.as_slice())?;
        Ok(())
    }

    /// The candidates of a version set's package that match it, in order.
    pub fn get_or_cache_matching_candidates(
        &mut self,
        version_set: VersionSetId,
    ) -> Result<&[D::SolvableId], CacheFault<D::Cancel>>
        ensures answer { IfOk result
            (λ r.
            r.now
            ≡ matching_in (D.name_of_version_set self.old.provider)
            (D.candidates_of self.old.provider) (D.matches self.old.provider) false
            version_set) }
        ensures cached { among same_set self.old.matching version_set ≡ true → IsOk result }
        ensures cancelled { IfErr result (IsCancelledBy (D.may_cancel self.old.provider)) }
        ensures ids { IsErrOf result Ids → D.may_lack_ids self.old.provider }
    {
        self.cache_matching_candidates(version_set)?;
        Ok(self.matching_candidates(version_set))
    }

    /// Whether the candidates of a version set's package that don't match it are cached.
    pub fn has_non_matching_candidates(&self, version_set: VersionSetId) -> bool
        ensures { result ≡ among same_set self.now.non_matching version_set }
    {
        self.non_matching.contains(version_set)
    }

    /// The cached candidates of a version set's package that don't match it.
    pub fn non_matching_candidates(&self, version_set: VersionSetId) -> &[D::SolvableId]
        requires { among same_set self.now.non_matching version_set ≡ true }
        ensures { result.now
            ≡ matching_in (D.name_of_version_set self.now.provider)
            (D.candidates_of self.now.provider) (D.matches self.now.provider) true version_set }
    {
        match self.non_matching.get(version_set) {
            Some(list) => list,
            None => unreachable!(),
        }
    }

    /// Makes sure that the candidates of a version set's package that don't match it are cached.
    pub fn cache_non_matching_candidates(
        &mut self,
        version_set: VersionSetId,
    ) -> Result<(), CacheFault<D::Cancel>>
        // The answer is cached.
        ensures there { OnOk result (among same_set self.new.non_matching version_set ≡ true) }
        ensures cached { among same_set self.old.non_matching version_set ≡ true
            → IsOk result × (self.new ≡ self.old) }
        // What else changes.
        ensures extends { Extends D.NameId.eq D.SolvableId.eq self.old self.new }
        // After a refusal.
        ensures err { OnErr result (AddsNames self.old self.new) }
        ensures cancelled { IfErr result (IsCancelledBy (D.may_cancel self.old.provider)) }
        ensures ids { IsErrOf result Ids → D.may_lack_ids self.old.provider }
    {
        if self.has_non_matching_candidates(version_set) {
            return Ok(());
        }
        let name = self.provider.version_set_name(version_set);
        self.cache_candidates(name)?;
        self.keep_non_matching(version_set)?;
        Ok(())
    }

    /// Filters the cached candidates of a version set's package, and caches those that don't match
    /// it.
    fn keep_non_matching(&mut self, version_set: VersionSetId) -> R<()>
        requires listed { among D.NameId.eq self.old.names
            (D.name_of_version_set self.old.provider version_set)
            ≡ true }
        requires fresh { among same_set self.old.non_matching version_set ≡ false }
        ensures there { OnOk result (among same_set self.new.non_matching version_set ≡ true) }
        ensures extends { Extends D.NameId.eq D.SolvableId.eq self.old self.new }
        ensures err { OnErr result (self.new ≡ self.old) }
        ensures ids { IsErrOf result WantIds → D.may_lack_ids self.old.provider }
    {
        let found = self.filtered(version_set, true)?;
        self.non_matching.put(version_set, found.as_slice())?;
        Ok(())
    }

    /// The candidates of a version set's package that don't match it, in order.
    pub fn get_or_cache_non_matching_candidates(
        &mut self,
        version_set: VersionSetId,
    ) -> Result<&[D::SolvableId], CacheFault<D::Cancel>>
        ensures answer { IfOk result
            (λ r.
            r.now
            ≡ matching_in (D.name_of_version_set self.old.provider)
            (D.candidates_of self.old.provider) (D.matches self.old.provider) true
            version_set) }
        ensures cached { among same_set self.old.non_matching version_set ≡ true → IsOk result }
        ensures cancelled { IfErr result (IsCancelledBy (D.may_cancel self.old.provider)) }
        ensures ids { IsErrOf result Ids → D.may_lack_ids self.old.provider }
    {
        self.cache_non_matching_candidates(version_set)?;
        Ok(self.non_matching_candidates(version_set))
    }

    /// The cached candidates of a version set's package that match it; with `inverse`, those that
    /// don't.
    fn filtered(&self, version_set: VersionSetId, inverse: bool) -> R<Vec<D::SolvableId>>
        requires { among D.NameId.eq self.now.names
            (D.name_of_version_set self.now.provider version_set)
            ≡ true }
        ensures filtered { IfOk result
            (λ v.
            v.items
            ≡ matching_in (D.name_of_version_set self.now.provider)
            (D.candidates_of self.now.provider) (D.matches self.now.provider) inverse
            version_set) }
        ensures ids { IsErrOf result WantIds → D.may_lack_ids self.now.provider }
    {
        let name = self.provider.version_set_name(version_set);
        let list = self.candidates(name);
        self.provider.filter_candidates(
            self.alloc,
            list.candidates.as_slice(),
            version_set,
            inverse,
        )
    }

    /// Whether the sorted candidates of a requirement are cached.
    pub fn has_sorted_candidates(&self, requirement: Requirement) -> bool
        ensures { result ≡ has_sorted self.now requirement }
    {
        match requirement {
            Requirement::Single(version_set) => self.sorted.contains(version_set),
            Requirement::Union(union) => self.unions.contains(union),
        }
    }

    /// The cached sorted candidates of a requirement.
    pub fn sorted_candidates(&self, requirement: Requirement) -> &[D::SolvableId]
        requires { has_sorted self.now requirement ≡ true }
        ensures in_order { result.now
            ≡ flat_map (sorted_of self.now.sorted)
            (alternatives_of (D.members_of self.now.provider) requirement) }
        ensures tried { IsTriedFor (D.sorts self.now.provider) D.SolvableId.eq
            (tried_first (D.name_of_version_set self.now.provider)
            (D.candidates_of self.now.provider))
            (matching_in (D.name_of_version_set self.now.provider)
            (D.candidates_of self.now.provider) (D.matches self.now.provider) false)
            (alternatives_of (D.members_of self.now.provider) requirement) result.now }
    {
        match requirement {
            Requirement::Single(version_set) => self.sorted_of_set(version_set),
            Requirement::Union(union) => self.sorted_of_union(union),
        }
    }

    /// The cached sorted candidates of a version set.
    fn sorted_of_set(&self, version_set: VersionSetId) -> &[D::SolvableId]
        requires { is_sorted self.now.sorted version_set ≡ true }
        ensures kept { lookup (same_set version_set) self.now.sorted ≡ Some result.now }
        ensures tried { IsTried (D.sorts self.now.provider) D.SolvableId.eq
            (tried_first (D.name_of_version_set self.now.provider)
            (D.candidates_of self.now.provider) version_set)
            (matching_in (D.name_of_version_set self.now.provider)
            (D.candidates_of self.now.provider) (D.matches self.now.provider) false
            version_set)
            result.now }
    {
        match self.sorted.get(version_set) {
            Some(list) => list,
            None => unreachable!(),
        }
    }

    /// The cached sorted candidates of a union.
    fn sorted_of_union(&self, union: VersionSetUnionId) -> &[D::SolvableId]
        requires { among same_union self.now.unions union ≡ true }
        ensures in_order { result.now
            ≡ flat_map (sorted_of self.now.sorted) (D.members_of self.now.provider union) }
        ensures tried { IsTriedFor (D.sorts self.now.provider) D.SolvableId.eq
            (tried_first (D.name_of_version_set self.now.provider)
            (D.candidates_of self.now.provider))
            (matching_in (D.name_of_version_set self.now.provider)
            (D.candidates_of self.now.provider) (D.matches self.now.provider) false)
            (D.members_of self.now.provider union) result.now }
    {
        match self.unions.get(union) {
            Some(list) => list,
            None => unreachable!(),
        }
    }

    /// Makes sure that the sorted candidates of a version set are cached.
    pub fn cache_sorted_candidates_for_version_set(
        &mut self,
        version_set: VersionSetId,
    ) -> Result<(), CacheFault<D::Cancel>>
        // The answer is cached.
        ensures there { OnOk result (is_sorted self.new.sorted version_set ≡ true) }
        ensures cached { is_sorted self.old.sorted version_set ≡ true → IsOk result
            × (self.new ≡ self.old) }
        // What else changes.
        ensures extends { Extends D.NameId.eq D.SolvableId.eq self.old self.new }
        ensures only { AddsSorted self.old self.new }
        // After a refusal.
        ensures err { OnErr result (AddsNames self.old self.new) }
        ensures cancelled { IfErr result (IsCancelledBy (D.may_cancel self.old.provider)) }
        ensures ids { IsErrOf result Ids → D.may_lack_ids self.old.provider }
    {
        if self.has_sorted_candidates(Requirement::Single(version_set)) {
            return Ok(());
        }
        let name = self.provider.version_set_name(version_set);
        self.cache_candidates(name)?;
        self.keep_sorted(version_set)?;
        Ok(())
    }

    /// Filters the cached candidates of a version set's package, sorts those that match it, and
    /// caches the list.
    fn keep_sorted(&mut self, version_set: VersionSetId) -> R<()>
        requires listed { among D.NameId.eq self.old.names
            (D.name_of_version_set self.old.provider version_set)
            ≡ true }
        requires fresh { is_sorted self.old.sorted version_set ≡ false }
        // The answer is cached.
        ensures there { OnOk result (is_sorted self.new.sorted version_set ≡ true) }
        // What else changes.
        ensures extends { Extends D.NameId.eq D.SolvableId.eq self.old self.new }
        ensures only { AddsSorted self.old self.new }
        // After a refusal.
        ensures err { OnErr result (self.new ≡ self.old) }
        ensures ids { IsErrOf result WantIds → D.may_lack_ids self.old.provider }
    {
        let list = self.sorted_list(version_set)?;
        self.sorted.put(version_set, list.as_slice())?;
        Ok(())
    }

    /// The candidates of a version set's package that match it, in the order in which they are
    /// tried.
    fn sorted_list(&self, version_set: VersionSetId) -> R<Vec<D::SolvableId>>
        requires listed { among D.NameId.eq self.now.names
            (D.name_of_version_set self.now.provider version_set)
            ≡ true }
        ensures tried { IfOk result
            (λ v.
            IsTried (D.sorts self.now.provider) D.SolvableId.eq
            (tried_first (D.name_of_version_set self.now.provider)
            (D.candidates_of self.now.provider) version_set)
            (matching_in (D.name_of_version_set self.now.provider)
            (D.candidates_of self.now.provider) (D.matches self.now.provider) false
            version_set)
            v.items) }
        ensures ids { IsErrOf result WantIds → D.may_lack_ids self.now.provider }
    {
        let mut list = self.filtered(version_set, false)?;
        self.provider
            .sort_candidates(self.alloc, list.as_mut_slice())?;
        let name = self.provider.version_set_name(version_set);
        if let Some(favored) = self.candidates(name).favored {
            favour(list.as_mut_slice(), favored);
        }
        Ok(list)
    }

    /// The candidates that match a version set, in the order in which they are tried. The provider
    /// sorts them; then the favoured one is moved to the front.
    pub fn get_or_cache_sorted_candidates_for_version_set(
        &mut self,
        version_set: VersionSetId,
    ) -> Result<&[D::SolvableId], CacheFault<D::Cancel>>
        ensures answer { IfOk result
            (λ r.
            IsTried (D.sorts self.old.provider) D.SolvableId.eq
            (tried_first (D.name_of_version_set self.old.provider)
            (D.candidates_of self.old.provider) version_set)
            (matching_in (D.name_of_version_set self.old.provider)
            (D.candidates_of self.old.provider) (D.matches self.old.provider) false
            version_set)
            r.now) }
        ensures cached { IfOk result
            (λ r.
            (xs : List D.SolvableId)
            → lookup (same_set version_set) self.old.sorted ≡ Some xs
            → r.now ≡ xs) }
        ensures succeeds { is_sorted self.old.sorted version_set ≡ true → IsOk result }
        ensures cancelled { IfErr result (IsCancelledBy (D.may_cancel self.old.provider)) }
        ensures ids { IsErrOf result Ids → D.may_lack_ids self.old.provider }
    {
        self.cache_sorted_candidates_for_version_set(version_set)?;
        Ok(self.sorted_of_set(version_set))
    }

    /// Makes sure that the sorted candidates of a requirement are cached.
    pub fn cache_sorted_candidates(
        &mut self,
        requirement: Requirement,
    ) -> Result<(), CacheFault<D::Cancel>>
        // The answer is cached.
        ensures there { OnOk result (has_sorted self.new requirement ≡ true) }
        ensures cached { has_sorted self.old requirement ≡ true → IsOk result
            × (self.new ≡ self.old) }
        // What else changes.
        ensures extends { Extends D.NameId.eq D.SolvableId.eq self.old self.new }
        // After a refusal.
        ensures err { OnErr result (AddsSorted self.old self.new) }
        ensures cancelled { IfErr result (IsCancelledBy (D.may_cancel self.old.provider)) }
        ensures ids { IsErrOf result Ids → D.may_lack_ids self.old.provider }
    {
        match requirement {
            Requirement::Single(version_set) => {
                self.cache_sorted_candidates_for_version_set(version_set)
            }
            Requirement::Union(union) => self.cache_sorted_union(union),
        }
    }

    /// Makes sure that the sorted candidates of a union are cached.
    fn cache_sorted_union(&mut self, union: VersionSetUnionId) -> Result<(), CacheFault<D::Cancel>>
        ensures there { OnOk result (among same_union self.new.unions union ≡ true) }
        ensures cached { among same_union self.old.unions union ≡ true → IsOk result
            × (self.new ≡ self.old) }
        ensures extends { Extends D.NameId.eq D.SolvableId.eq self.old self.new }
        ensures err { OnErr result (AddsSorted self.old self.new) }
        ensures cancelled { IfErr result (IsCancelledBy (D.may_cancel self.old.provider)) }
        ensures ids { IsErrOf result Ids → D.may_lack_ids self.old.provider }
    {
        if self.has_sorted_candidates(Requirement::Union(union)) {
            return Ok(());
        }
        let members = Vec::from_slice(self.alloc, self.provider.version_sets_in_union(union))?;
        self.cache_sorted_members(members.as_slice())?;
        self.keep_union(union)?;
        Ok(())
    }

    /// Makes sure that the sorted candidates of each of these version sets are cached.
    fn cache_sorted_members(
        &mut self,
        members: &[VersionSetId],
    ) -> Result<(), CacheFault<D::Cancel>>
        ensures there { OnOk result (All (λ v. is_sorted self.new.sorted v ≡ true) members.now) }
        ensures extends { Extends D.NameId.eq D.SolvableId.eq self.old self.new }
        ensures only { AddsSorted self.old self.new }
        ensures cancelled { IfErr result (IsCancelledBy (D.may_cancel self.old.provider)) }
        ensures ids { IsErrOf result Ids → D.may_lack_ids self.old.provider }
    {
        for version_set in members {
            self.cache_sorted_candidates_for_version_set(*version_set)?;
        }
        Ok(())
    }

    /// Joins the cached sorted lists of a union's version sets, and caches the whole.
    fn keep_union(&mut self, union: VersionSetUnionId) -> R<()>
        requires sorted { All
            (λ v. is_sorted self.old.sorted v ≡ true) (D.members_of self.old.provider union) }
        requires fresh { among same_union self.old.unions union ≡ false }
        ensures there { OnOk result (among same_union self.new.unions union ≡ true) }
        ensures extends { Extends D.NameId.eq D.SolvableId.eq self.old self.new }
        ensures err { OnErr result (self.new ≡ self.old) }
        ensures refusal { IsOkUnless result WantMemory }
    {
        let joined = self.joined(self.provider.version_sets_in_union(union))?;
        self.unions.put(union, joined.as_slice())?;
        Ok(())
    }

    /// The cached sorted lists of these version sets, one after another.
    fn joined(&self, members: &[VersionSetId]) -> R<Vec<D::SolvableId>>
        requires { All (λ v. is_sorted self.now.sorted v ≡ true) members.now }
        ensures joined { IfOk result
            (λ v. v.items ≡ flat_map (sorted_of self.now.sorted) members.now) }
        ensures refusal { IsOkUnless result WantMemory }
    {
        let mut joined = Vec::new(self.alloc);
        for version_set in members {
            joined.extend_from_slice(self.sorted_of_set(*version_set))?;
        }
        Ok(joined)
    }

    /// The candidates that match a requirement, in the order in which they are tried: those of each
    /// of its version sets, in their order.
    pub fn get_or_cache_sorted_candidates(
        &mut self,
        requirement: Requirement,
    ) -> Result<&[D::SolvableId], CacheFault<D::Cancel>>
        ensures answer { IfOk result
            (λ r.
            IsTriedFor (D.sorts self.old.provider) D.SolvableId.eq
            (tried_first (D.name_of_version_set self.old.provider)
            (D.candidates_of self.old.provider))
            (matching_in (D.name_of_version_set self.old.provider)
            (D.candidates_of self.old.provider) (D.matches self.old.provider) false)
            (alternatives_of (D.members_of self.old.provider) requirement) r.now) }
        ensures cached { has_sorted self.old requirement ≡ true
            → IfOk result
            (λ r.
            r.now
            ≡ flat_map (sorted_of self.old.sorted)
            (alternatives_of (D.members_of self.old.provider) requirement)) }
        ensures succeeds { has_sorted self.old requirement ≡ true → IsOk result }
        ensures cancelled { IfErr result (IsCancelledBy (D.may_cancel self.old.provider)) }
        ensures ids { IsErrOf result Ids → D.may_lack_ids self.old.provider }
    {
        self.cache_sorted_candidates(requirement)?;
        Ok(self.sorted_candidates(requirement))
    }

    /// Whether the dependencies of a solvable are cached.
    pub fn has_dependencies(&self, solvable: D::SolvableId) -> bool
        ensures { result ≡ among D.SolvableId.eq self.now.solvables solvable }
    {
        self.dependencies.contains(solvable)
    }

    /// The cached dependencies of a solvable.
    pub fn dependencies(&self, solvable: D::SolvableId) -> &Dependencies
        requires { among D.SolvableId.eq self.now.solvables solvable ≡ true }
        ensures { needs_of result.now ≡ D.dependencies_of self.now.provider solvable }
    {
        match self.dependencies.get(solvable) {
            Some(found) => found,
            None => unreachable!(),
        }
    }

    /// Makes sure that the dependencies of a solvable are cached.
    pub fn cache_dependencies(
        &mut self,
        solvable: D::SolvableId,
    ) -> Result<(), CacheFault<D::Cancel>>
        // The answer is cached.
        ensures there { OnOk result (among D.SolvableId.eq self.new.solvables solvable ≡ true) }
        ensures cached { among D.SolvableId.eq self.old.solvables solvable ≡ true
            → IsOk result × (self.new ≡ self.old) }
        // What else changes.
        ensures extends { Extends D.NameId.eq D.SolvableId.eq self.old self.new }
        // After a refusal.
        ensures err { OnErr result (self.new ≡ self.old) }
        ensures cancelled { IfErr result (IsCancelledBy (D.may_cancel self.old.provider)) }
        ensures ids { IsErrOf result Ids → D.may_lack_ids self.old.provider }
    {
        if self.has_dependencies(solvable) {
            return Ok(());
        }
        self.ask_dependencies(solvable)
    }

    /// Asks for the dependencies of a solvable, and caches them.
    fn ask_dependencies(&mut self, solvable: D::SolvableId) -> Result<(), CacheFault<D::Cancel>>
        requires fresh { among D.SolvableId.eq self.old.solvables solvable ≡ false }
        ensures there { OnOk result (among D.SolvableId.eq self.new.solvables solvable ≡ true) }
        ensures extends { Extends D.NameId.eq D.SolvableId.eq self.old self.new }
        ensures err { OnErr result (self.new ≡ self.old) }
        ensures cancelled { IfErr result (IsCancelledBy (D.may_cancel self.old.provider)) }
        ensures ids { IsErrOf result Ids → D.may_lack_ids self.old.provider }
    {
        let found = self.new_dependencies(solvable)?;
        self.put_dependencies(solvable, found)?;
        Ok(())
    }

    /// The dependencies of a solvable, which are asked for, and aren't cached.
    fn new_dependencies(
        &self,
        solvable: D::SolvableId,
    ) -> Result<Dependencies, CacheFault<D::Cancel>>
        ensures answer { IfOk result
            (λ d. needs_of d ≡ D.dependencies_of self.now.provider solvable) }
        ensures cancelled { IfErr result (IsCancelledBy (D.may_cancel self.now.provider)) }
        ensures ids { IsErrOf result Ids → D.may_lack_ids self.now.provider }
    {
        if let Some(value) = self.provider.should_cancel_with_value() {
            return Err(CacheFault::Cancelled(value));
        }
        let found = self.provider.get_dependencies(self.alloc, solvable)?;
        Ok(found)
    }

    /// Caches the dependencies of a solvable, of which none are cached.
    fn put_dependencies(&mut self, solvable: D::SolvableId, found: Dependencies) -> R<()>
        requires fresh { among D.SolvableId.eq self.old.solvables solvable ≡ false }
        requires asked { needs_of found ≡ D.dependencies_of self.old.provider solvable }
        ensures there { OnOk result (among D.SolvableId.eq self.new.solvables solvable ≡ true) }
        ensures extends { Extends D.NameId.eq D.SolvableId.eq self.old self.new }
        ensures err { OnErr result (self.new ≡ self.old) }
        ensures refusal { IsOkUnless result WantMemory }
    {
        self.dependencies.put(solvable, found)?;
        Ok(())
    }

    /// The dependencies of a solvable.
    pub fn get_or_cache_dependencies(
        &mut self,
        solvable: D::SolvableId,
    ) -> Result<&Dependencies, CacheFault<D::Cancel>>
        ensures answer { IfOk result
            (λ r. needs_of r.now ≡ D.dependencies_of self.old.provider solvable) }
        ensures cached { among D.SolvableId.eq self.old.solvables solvable ≡ true → IsOk result }
        ensures cancelled { IfErr result (IsCancelledBy (D.may_cancel self.old.provider)) }
        ensures ids { IsErrOf result Ids → D.may_lack_ids self.old.provider }
    {
        self.cache_dependencies(solvable)?;
        Ok(self.dependencies(solvable))
    }

    /// Whether the dependencies of a solvable are cached, or the cached candidates of its package
    /// hint that the provider has them at hand.
    pub fn are_dependencies_available_for(&self, solvable: D::SolvableId) -> bool
        ensures { result
            ≡ (among D.SolvableId.eq self.now.solvables solvable ||
            (among D.NameId.eq self.now.names (D.name_of_solvable self.now.provider solvable)
            && hints D.SolvableId.eq
            (listing_or_empty
            (D.candidates_of self.now.provider
            (D.name_of_solvable self.now.provider solvable)))
            solvable)) }
    {
        let name = self.provider.solvable_name(solvable);
        if self.has_candidates(name) && self.hinted.contains(solvable) {
            return true;
        }
        self.has_dependencies(solvable)
    }
}

/// The candidates of a package, or none of a package that the provider does not have.
fn candidates_from<D: DependencyProvider>(
    provider: &D,
    alloc: Global,
    name: D::NameId,
) -> R<Candidates<D::SolvableId>>
    ensures listed { IfOk result
        (λ c. listing c ≡ listing_or_empty (D.candidates_of provider.now name)) }
    ensures ids { IsErrOf result WantIds → D.may_lack_ids provider.now }
{
    match provider.get_candidates(alloc, name)? {
        Some(list) => Ok(list),
        None => Ok(Candidates::new(alloc)),
    }
}

/// Moves the favoured one to the front, if it is there.
fn favour<S: Copy + Exact>(list: &mut [S], favored: S)
    ensures { list.new ≡ favoured_first S.eq (Some favored) list.old }
{
    if let Some(place) = place_of(list, favored) {
        list[..=place].rotate_right(1);
    }
}

/// The index of a solvable in a list.
fn place_of<S: Copy + Eq>(list: &[S], solvable: S) -> Option<usize>
    ensures place { result ≡ position (λ s. S.eq s solvable) list.now }
    ensures bounded { IfSome result (λ i. i < length list.now) }
{
    list.iter().position(|s| *s == solvable)
}
