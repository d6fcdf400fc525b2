//! A solver's queries about packages, answered by value.
ghost use Rattle.std.specs.Prelude.{◌≡◌, ◌∷◌, [], List, Some, IfSome, IfOk, IfErr, IsErrOf, IsOkUnless, map};
ghost use Rattle.resolvo_pool_core.specs.declared.want.Want.TheVariants.{Memory};
ghost use Rattle.resolvo_pool_core.specs.declared.id.StringId.{StringId as Reason};
ghost use Rattle.resolvo_pool_core.specs.declared.provider.Dependencies.TheVariants.{Unknown};
ghost use Rattle.resolvo_pool_core.specs.Provider.{needs_of};
ghost use Rattle.resolvo_pool.specs.Cached.{IsCancelledBy};
ghost use Rattle.resolvo_pool.specs.declared.cache.CacheFault.TheVariants.{Ids};
ghost use Rattle.resolvo_pool_core.specs.RuleKeeping.{Packages, IsLawful, is_many};
ghost use Rattle.resolvo_pool_core.specs.declared.requirement.Requirement.{Requirement};
ghost use Rattle.resolvo_pool_core.specs.Text.{alternatives_of};
ghost use Rattle.resolvo_store_core.specs.Cases.{cases, cases_of};
ghost use Rattle.resolvo_packages.specs.PackageSource.{AreMatching, AreOffered, AreOutside, offered_solvables};
ghost use Rattle.resolvo_packages.specs.Forbidden.{AreForbidden};

use resolvo_pool::cache::CacheFault;
use resolvo_pool_core::id::{ConditionId, Exact, StringId, VersionSetId};
use resolvo_pool_core::provider::Dependencies;
use resolvo_pool_core::requirement::Requirement;
use resolvo_pool_core::want::R;
use std::fmt::Debug;
use std::hash::Hash;

/// A candidate of a requirement, with its package.
#[derive(Clone, Copy, Debug)]
pub struct Offered<N, S> {
    pub solvable: S,
    pub name: N,
}

/// Why a solvable is forbidden.
#[derive(Clone, Copy, Debug)]
pub enum ForbiddenBy<S> {
    /// Another solvable of its package is locked.
    Locked { locked: S },
    /// It is excluded, for this reason.
    Excluded { reason: StringId },
}

/// A solvable that a lock or an exclusion forbids.
#[derive(Clone, Copy, Debug)]
pub struct ForbiddenSolvable<S> {
    pub solvable: S,
    pub why: ForbiddenBy<S>,
}

/// Answers to a solver's queries about packages. Each query has the same answer whenever it is
/// asked; any query may be cancelled.
pub trait PackageSource {
    type NameId: Copy + Exact + Hash + Debug;

    type SolvableId: Copy + Exact + Hash + Debug;

    /// The value that is returned where a query is cancelled.
    type Cancel;

    /// The packages that the answers describe.
    ghost packages: { Self → Packages Self.NameId Self.SolvableId };

    /// In which orders the candidates of a requirement may be tried.
    ghost orders: { Self → Requirement → List Self.SolvableId → Type 0 };

    /// With which values a query may be cancelled.
    ghost may_cancel: { Self → Self.Cancel → Type 0 };

    /// Whether a query may fail for lack of ids.
    ghost may_lack_ids: { Self → Type 0 };

    /// Fails with the value of the cancellation where the solver shall stop.
    fn check(&self) -> Result<(), CacheFault<Self::Cancel>>
        ensures cancelled { IfErr result (IsCancelledBy (may_cancel self.now)) }
        ensures ids { IsErrOf result Ids → may_lack_ids self.now };

    /// The package of a solvable.
    fn package(&self, solvable: Self::SolvableId) -> Self::NameId
        ensures { result ≡ (packages self.now).package_of solvable };

    /// What a solvable needs and limits.
    fn dependencies(
        &mut self,
        solvable: Self::SolvableId,
    ) -> Result<Dependencies, CacheFault<Self::Cancel>>
        ensures same { self.new ≡ self.old }
        ensures answer { IfOk result
            (λ d. needs_of d ≡ (packages self.old).dependencies_of solvable) }
        ensures cancelled { IfErr result (IsCancelledBy (may_cancel self.old)) }
        ensures ids { IsErrOf result Ids → may_lack_ids self.old };

    /// Why a solvable's dependencies are unknown, if they are. Asks for them.
    fn unknown(
        &mut self,
        solvable: Self::SolvableId,
    ) -> Result<Option<StringId>, CacheFault<Self::Cancel>>
        ensures same { self.new ≡ self.old }
        ensures reason { IfOk result
            (λ r.
            (why : Reason)
            → r ≡ Some why
            → needs_of (Unknown why) ≡ (packages self.old).dependencies_of solvable) }
        ensures cancelled { IfErr result (IsCancelledBy (may_cancel self.old)) }
        ensures ids { IsErrOf result Ids → may_lack_ids self.old };

    /// The candidates that match a requirement, in the order in which they are tried.
    fn candidates(
        &mut self,
        requirement: Requirement,
    ) -> Result<Vec<Offered<Self::NameId, Self::SolvableId>>, CacheFault<Self::Cancel>>
        ensures same { self.new ≡ self.old }
        ensures offered { IfOk result
            (λ v. AreOffered Self.SolvableId.eq (packages self.old) requirement v.items) }
        ensures ordered { IfOk result
            (λ v. orders self.old requirement (offered_solvables v.items)) }
        ensures cancelled { IfErr result (IsCancelledBy (may_cancel self.old)) }
        ensures ids { IsErrOf result Ids → may_lack_ids self.old };

    /// The candidates that match a version set, in the order in which they are tried.
    fn matching(
        &mut self,
        version_set: VersionSetId,
    ) -> Result<Vec<Self::SolvableId>, CacheFault<Self::Cancel>>
        ensures same { self.new ≡ self.old }
        ensures matching { IfOk result
            (λ v. AreMatching Self.SolvableId.eq (packages self.old) version_set v.items) }
        ensures cancelled { IfErr result (IsCancelledBy (may_cancel self.old)) }
        ensures ids { IsErrOf result Ids → may_lack_ids self.old };

    /// The packages of a requirement's version sets.
    fn named(&self, requirement: Requirement) -> R<Vec<Self::NameId>>
        ensures named { IfOk result (λ v. v.items ≡ map (packages self.now).set_package
            (alternatives_of (packages self.now).members_of requirement)) }
        ensures refusal { IsOkUnless result Memory };

    /// The package of a version set.
    fn set_package(&self, version_set: VersionSetId) -> Self::NameId
        ensures { result ≡ (packages self.now).set_package version_set };

    /// The cases of a condition, in order. It holds exactly if all version sets of some case are
    /// met.
    fn cases(&self, condition: ConditionId) -> R<Vec<Vec<VersionSetId>>>
        ensures cases { IfOk result
            (λ v. cases_of v.items ≡ cases (packages self.now).condition_of condition) }
        ensures refusal { IsOkUnless result Memory };

    /// The version set of a condition that is one, as most are.
    fn lone_set(&self, condition: ConditionId) -> Option<VersionSetId>
        ensures { IfSome result
            (λ v. cases (packages self.now).condition_of condition ≡ (v ∷ []) ∷ []) };

    /// Whether a package is marked `many`: its solvables may be chosen side by side.
    fn is_many(&mut self, name: Self::NameId) -> Result<bool, CacheFault<Self::Cancel>>
        ensures same { self.new ≡ self.old }
        ensures mark { IfOk result (λ b. b ≡ is_many (packages self.old) name) }
        ensures cancelled { IfErr result (IsCancelledBy (may_cancel self.old)) }
        ensures ids { IsErrOf result Ids → may_lack_ids self.old };

    /// The solvables of a package that locks and exclusions forbid.
    fn forbidden(
        &mut self,
        name: Self::NameId,
    ) -> Result<Vec<ForbiddenSolvable<Self::SolvableId>>, CacheFault<Self::Cancel>>
        ensures same { self.new ≡ self.old }
        ensures forbidden { IfOk result
            (λ v. AreForbidden Self.SolvableId.eq (packages self.old) name v.items) }
        ensures cancelled { IfErr result (IsCancelledBy (may_cancel self.old)) }
        ensures ids { IsErrOf result Ids → may_lack_ids self.old };

    /// The candidates of a version set's package that don't match it.
    fn outside(
        &mut self,
        version_set: VersionSetId,
    ) -> Result<Vec<Offered<Self::NameId, Self::SolvableId>>, CacheFault<Self::Cancel>>
        ensures same { self.new ≡ self.old }
        ensures outside { IfOk result
            (λ v. AreOutside Self.SolvableId.eq (packages self.old) version_set v.items) }
        ensures cancelled { IfErr result (IsCancelledBy (may_cancel self.old)) }
        ensures ids { IsErrOf result Ids → may_lack_ids self.old };

    /// Whether a solvable's dependencies are at hand. It decides when they are asked for, not what
    /// they are.
    fn are_dependencies_available_for(&self, solvable: Self::SolvableId) -> bool;

    /// A condition's operands have smaller ids, and candidates have the name of their package.
    ghost lawful: { (a : Self) → IsLawful (packages a) };
}
