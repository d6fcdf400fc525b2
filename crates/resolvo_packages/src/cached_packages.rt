//! Answers by value, over a cache of the provider's.
ghost use Rattle.std.specs.Prelude.{◌≡◌, ◌++◌, IfOk, OnOk, IsOkUnless, map};
ghost use Rattle.resolvo_pool_core.specs.declared.want.Want.TheVariants.{Memory};
ghost use Rattle.resolvo_pool_core.specs.Provider.{listing, needs_of};
ghost use Rattle.resolvo_packages.specs.PackageSource.{packages_by, orders_by, offer_by};
ghost use Rattle.resolvo_packages.specs.Forbidden.{excluded_by, locked_out, kept_out};

use crate::package_source::{ForbiddenBy, ForbiddenSolvable, Offered, PackageSource};
use resolvo_pool::cache::{CacheFault, SolverCache};
use resolvo_pool_core::condition::Condition;
use resolvo_pool_core::id::{ConditionId, Exact, StringId, VersionSetId};
use resolvo_pool_core::provider::{
    Candidates, Dependencies, DependencyProvider, KnownDependencies,
};
use resolvo_pool_core::requirement::Requirement;
use resolvo_pool_core::want::R;
use resolvo_store_core::conditions::convert_conditions_to_dnf;
use std::alloc::Global;
use std::fmt::Debug;
use std::hash::Hash;
use std::marker::Model;

/// A provider's answers, each asked for once.
#[derive(Drop)]
pub struct CachedPackages<D: DependencyProvider> {
    alloc: Global,
    cache: SolverCache<D>,
}

impl<D: DependencyProvider> Model for CachedPackages<D> {
    ghost Value = { D };

    ghost view = { λ a. a.cache.provider };
}

impl<D: DependencyProvider> CachedPackages<D> {
    /// An empty cache over a provider.
    pub fn new(alloc: Global, provider: D) -> CachedPackages<D>
        ensures { result ≡ provider }
    {
        CachedPackages {
            alloc,
            cache: SolverCache::new(alloc, provider),
        }
    }

    /// The provider.
    pub fn provider(&self) -> &D
        ensures { result.now ≡ self.now }
    {
        self.cache.provider()
    }

    /// These solvables, each with its package.
    fn offered(&self, solvables: &[D::SolvableId]) -> R<Vec<Offered<D::NameId, D::SolvableId>>>
        ensures offered { IfOk result
            (λ v. v.items ≡ map (offer_by (D.name_of_solvable self.now)) solvables.now) }
        ensures refusal { IsOkUnless result Memory }
    {
        let mut offered = Vec::with_capacity(self.alloc, solvables.len())?;
        for solvable in solvables {
            offered.push(Offered {
                solvable: *solvable,
                name: self.cache.provider().solvable_name(*solvable),
            })?;
        }
        Ok(offered)
    }

    /// The packages of these version sets.
    fn names_of(&self, version_sets: &[VersionSetId]) -> R<Vec<D::NameId>>
        ensures named { IfOk result
            (λ v. v.items ≡ map (D.name_of_version_set self.now) version_sets.now) }
        ensures refusal { IsOkUnless result Memory }
    {
        let mut names = Vec::new(self.alloc);
        for version_set in version_sets {
            names.push(self.cache.provider().version_set_name(*version_set))?;
        }
        Ok(names)
    }
}

impl<D: DependencyProvider> PackageSource for CachedPackages<D> {
    type NameId = D::NameId;

    type SolvableId = D::SolvableId;

    type Cancel = D::Cancel;

    ghost packages = { λ p. packages_by D.name_of_solvable D.name_of_version_set D.members_of
        D.condition_of D.candidates_of D.matches D.dependencies_of p };

    ghost orders = { λ p.
        orders_by D.name_of_version_set D.members_of D.candidates_of D.matches D.sorts D.SolvableId.eq p };

    ghost may_cancel = { λ p. D.may_cancel p };

    ghost may_lack_ids = { λ p. D.may_lack_ids p };

    ghost lawful = { λ p. record { below = D.operands_below p; named = D.candidates_named p } };

    fn check(&self) -> Result<(), CacheFault<D::Cancel>> {
        match self.cache.provider().should_cancel_with_value() {
            Some(value) => Err(CacheFault::Cancelled(value)),
            None => Ok(()),
        }
    }

    fn package(&self, solvable: D::SolvableId) -> D::NameId {
        self.cache.provider().solvable_name(solvable)
    }

    fn dependencies(
        &mut self,
        solvable: D::SolvableId,
    ) -> Result<Dependencies, CacheFault<D::Cancel>> {
        self.cache.cache_dependencies(solvable)?;
        // `?` converts the error
        let found = copy_of(self.alloc, self.cache.dependencies(solvable))?;
        Ok(found)
    }

    fn unknown(
        &mut self,
        solvable: D::SolvableId,
    ) -> Result<Option<StringId>, CacheFault<D::Cancel>> {
        self.cache.cache_dependencies(solvable)?;
        match self.cache.dependencies(solvable) {
            Dependencies::Known(_) => Ok(None),
            Dependencies::Unknown(reason) => Ok(Some(*reason)),
        }
    }

    fn candidates(
        &mut self,
        requirement: Requirement,
    ) -> Result<Vec<Offered<D::NameId, D::SolvableId>>, CacheFault<D::Cancel>> {
        self.cache.cache_sorted_candidates(requirement)?;
        // `?` converts the error
        let offered = self.offered(self.cache.sorted_candidates(requirement))?;
        Ok(offered)
    }

    fn matching(
        &mut self,
        version_set: VersionSetId,
    ) -> Result<Vec<D::SolvableId>, CacheFault<D::Cancel>> {
        let requirement = Requirement::Single(version_set);
        self.cache.cache_sorted_candidates(requirement)?;
        // `?` converts the error
        let matching = Vec::from_slice(self.alloc, self.cache.sorted_candidates(requirement))?;
        Ok(matching)
    }

    fn named(&self, requirement: Requirement) -> R<Vec<D::NameId>> {
        match requirement {
            Requirement::Single(version_set) => {
                let mut names = Vec::new(self.alloc);
                names.push(self.cache.provider().version_set_name(version_set))?;
                Ok(names)
            }
            Requirement::Union(union) => {
                self.names_of(self.cache.provider().version_sets_in_union(union))
            }
        }
    }

    fn set_package(&self, version_set: VersionSetId) -> D::NameId {
        self.cache.provider().version_set_name(version_set)
    }

    fn cases(&self, condition: ConditionId) -> R<Vec<Vec<VersionSetId>>> {
        convert_conditions_to_dnf(self.alloc, condition, self.cache.provider())
    }

    fn lone_set(&self, condition: ConditionId) -> Option<VersionSetId> {
        match self.cache.provider().resolve_condition(condition) {
            Condition::Requirement(version_set) => Some(version_set),
            Condition::Binary(..) => None,
        }
    }

    fn is_many(&mut self, name: D::NameId) -> Result<bool, CacheFault<D::Cancel>> {
        self.cache.cache_candidates(name)?;
        Ok(self.cache.candidates(name).many)
    }

    fn forbidden(
        &mut self,
        name: D::NameId,
    ) -> Result<Vec<ForbiddenSolvable<D::SolvableId>>, CacheFault<D::Cancel>> {
        self.cache.cache_candidates(name)?;
        // `?` converts the error
        let forbidden = forbidden_candidates(self.alloc, self.cache.candidates(name))?;
        Ok(forbidden)
    }

    fn outside(
        &mut self,
        version_set: VersionSetId,
    ) -> Result<Vec<Offered<D::NameId, D::SolvableId>>, CacheFault<D::Cancel>> {
        self.cache.cache_non_matching_candidates(version_set)?;
        // `?` converts the error
        let outside = self.offered(self.cache.non_matching_candidates(version_set))?;
        Ok(outside)
    }

    fn are_dependencies_available_for(&self, solvable: D::SolvableId) -> bool {
        self.cache.are_dependencies_available_for(solvable)
    }
}

/// A copy of the dependencies.
fn copy_of(alloc: Global, found: &Dependencies) -> R<Dependencies>
    ensures copy { IfOk result (λ d. needs_of d ≡ needs_of found.now) }
    ensures refusal { IsOkUnless result Memory }
{
    match found {
        Dependencies::Known(known) => Ok(Dependencies::Known(KnownDependencies {
            requirements: Vec::from_slice(alloc, known.requirements.as_slice())?,
            constrains: Vec::from_slice(alloc, known.constrains.as_slice())?,
        })),
        Dependencies::Unknown(why) => Ok(Dependencies::Unknown(*why)),
    }
}

/// The candidates that the package's lock and exclusions forbid.
fn forbidden_candidates<S: Copy + Exact + Hash + Debug>(
    alloc: Global,
    found: &Candidates<S>,
) -> R<Vec<ForbiddenSolvable<S>>>
    ensures forbidden { IfOk result (λ v. v.items ≡ kept_out S.eq (listing found.now)) }
    ensures refusal { IsOkUnless result Memory }
{
    let mut forbidden = forbidden_by_lock(alloc, found.locked, found.candidates.as_slice())?;
    add_excluded(&mut forbidden, found.excluded.as_slice())?;
    Ok(forbidden)
}

/// The candidates that a lock forbids.
fn forbidden_by_lock<S: Copy + Exact + Hash + Debug>(
    alloc: Global,
    lock: Option<S>,
    candidates: &[S],
) -> R<Vec<ForbiddenSolvable<S>>>
    ensures forbidden { IfOk result (λ v. v.items ≡ locked_out S.eq lock candidates.now) }
    ensures refusal { IsOkUnless result Memory }
{
    let mut forbidden = Vec::new(alloc);
    let locked = match lock {
        None => return Ok(forbidden),
        Some(locked) => locked,
    };
    for solvable in candidates {
        if locked != *solvable {
            forbidden.push(ForbiddenSolvable {
                solvable: *solvable,
                why: ForbiddenBy::Locked { locked },
            })?;
        }
    }
    Ok(forbidden)
}

/// Appends the excluded candidates.
fn add_excluded<S: Copy + Exact + Hash + Debug>(
    forbidden: &mut Vec<ForbiddenSolvable<S>>,
    excluded: &[(S, StringId)],
) -> R<()>
    ensures added { OnOk result
        (forbidden.new.items ≡ forbidden.old.items ++ map excluded_by excluded.now) }
    ensures refusal { IsOkUnless result Memory }
{
    for one in excluded {
        forbidden.push(ForbiddenSolvable {
            solvable: one.0,
            why: ForbiddenBy::Excluded { reason: one.1 },
        })?;
    }
    Ok(())
}
