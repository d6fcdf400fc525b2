//! Before the candidates of a package are registered, its locks and exclusions become clauses, and
//! its mark is recorded.
ghost use Rattle.std.specs.Prelude.{◌≡◌, IfErr, OnOk, IsErrOf};
ghost use Rattle.resolvo_pool.specs.Cached.{IsCancelledBy};
ghost use Rattle.resolvo_pool.specs.declared.cache.CacheFault.TheVariants.{Ids};
ghost use Rattle.resolvo_pool_core.specs.declared.requirement.ConditionalRequirement.{ConditionalRequirement};
ghost use Rattle.resolvo_pool_core.specs.declared.requirement.Requirement.TheVariants.{Single};
ghost use Rattle.resolvo_encoder.specs.Steps.{IsBuilt, Extends};
ghost use Rattle.resolvo_turn.specs.Encoder.{KeepsMarks, AddsNeeds, StaysInOrder};
ghost use Rattle.resolvo_turn.specs.Effects.{ForbidsCandidates, ForbidsPackage, ForbidsPackages, GuardsRequirement};
ghost use Rattle.resolvo_turn.specs.LacksIds.{StopsAnyhow};

use resolvo_encoder::encoder::Encoder;
use resolvo_packages::package_source::PackageSource;
use resolvo_pool::cache::CacheFault;
use resolvo_pool_core::id::VersionSetId;
use resolvo_pool_core::requirement::{ConditionalRequirement, Requirement};

/// Encodes the locks and exclusions of a package, whose mark is recorded.
fn forbid_candidates<A: PackageSource>(
    answers: &mut A,
    encoding: &mut Encoder<A::NameId, A::SolvableId>,
    name: A::NameId,
) -> Result<(), CacheFault<A::Cancel>>
    requires { IsBuilt encoding.old }
    // Whatever the answer.
    ensures same { answers.new ≡ answers.old }
    // After an answer.
    ensures encoded { OnOk result
        (ForbidsCandidates A.SolvableId.eq A.PackageSource answers.old
        name encoding.old encoding.new) }
    ensures registry { OnOk result (encoding.new.registry ≡ encoding.old.registry) }
    ensures kept { OnOk result (Extends encoding.old encoding.new) }
    ensures built { OnOk result (IsBuilt encoding.new) }
    // After a refusal.
    ensures cancelled { IfErr result (IsCancelledBy (A.may_cancel answers.old)) }
    ensures ids { IsErrOf result Ids
        → StopsAnyhow A.SolvableId.eq A.PackageSource answers.old encoding.new }
{
    let forbidden = answers.forbidden(name)?;
    encoding.forbid(name, forbidden.as_slice())?;
    Ok(())
}

/// Encodes the locks and exclusions of a package, and records its mark, once.
fn forbid_package<A: PackageSource>(
    answers: &mut A,
    encoding: &mut Encoder<A::NameId, A::SolvableId>,
    name: A::NameId,
) -> Result<(), CacheFault<A::Cancel>>
    requires { IsBuilt encoding.old }
    // Whatever the answer.
    ensures same { answers.new ≡ answers.old }
    // After an answer.
    ensures encoded { OnOk result
        (ForbidsPackage A.SolvableId.eq A.PackageSource answers.old
        name encoding.old encoding.new) }
    ensures marks { OnOk result (KeepsMarks encoding.old encoding.new) }
    ensures kept { OnOk result (AddsNeeds encoding.old encoding.new) }
    ensures fired { OnOk result (encoding.new.fired ≡ encoding.old.fired) }
    ensures built { OnOk result (IsBuilt encoding.new) }
    // After a refusal.
    ensures cancelled { IfErr result (IsCancelledBy (A.may_cancel answers.old)) }
    ensures ids { IsErrOf result Ids
        → StopsAnyhow A.SolvableId.eq A.PackageSource answers.old encoding.new }
{
    if encoding.is_encoded(name) {
        return Ok(());
    }
    let many = answers.is_many(name)?;
    encoding.mark(name, many)?;
    forbid_candidates(answers, encoding, name)?;
    Ok(())
}

/// Encodes the locks and exclusions of these packages.
fn forbid_packages<A: PackageSource>(
    answers: &mut A,
    encoding: &mut Encoder<A::NameId, A::SolvableId>,
    names: &[A::NameId],
) -> Result<(), CacheFault<A::Cancel>>
    requires { IsBuilt encoding.old }
    // Whatever the answer.
    ensures same { answers.new ≡ answers.old }
    // After an answer.
    ensures encoded { OnOk result
        (ForbidsPackages A.SolvableId.eq A.PackageSource answers.old
        names.now encoding.old encoding.new) }
    ensures marks { OnOk result (KeepsMarks encoding.old encoding.new) }
    ensures kept { OnOk result (AddsNeeds encoding.old encoding.new) }
    ensures fired { OnOk result (encoding.new.fired ≡ encoding.old.fired) }
    ensures built { OnOk result (IsBuilt encoding.new) }
    // After a refusal.
    ensures cancelled { IfErr result (IsCancelledBy (A.may_cancel answers.old)) }
    ensures ids { IsErrOf result Ids
        → StopsAnyhow A.SolvableId.eq A.PackageSource answers.old encoding.new }
{
    for name in names {
        forbid_package(answers, encoding, *name)?;
    }
    Ok(())
}

/// Encodes the locks and exclusions of the packages of a requirement.
pub fn forbid_named<A: PackageSource>(
    answers: &mut A,
    encoding: &mut Encoder<A::NameId, A::SolvableId>,
    requirement: Requirement,
) -> Result<(), CacheFault<A::Cancel>>
    requires { IsBuilt encoding.old }
    // Whatever the answer.
    ensures same { answers.new ≡ answers.old }
    // After an answer.
    ensures encoded { OnOk result
        (GuardsRequirement A.SolvableId.eq A.PackageSource answers.old
        requirement encoding.old encoding.new) }
    ensures kept { OnOk result (AddsNeeds encoding.old encoding.new) }
    ensures fired { OnOk result (encoding.new.fired ≡ encoding.old.fired) }
    ensures built { OnOk result (IsBuilt encoding.new) }
    // After a refusal.
    ensures cancelled { IfErr result (IsCancelledBy (A.may_cancel answers.old)) }
    ensures ids { IsErrOf result Ids
        → StopsAnyhow A.SolvableId.eq A.PackageSource answers.old encoding.new }
{
    match requirement {
        Requirement::Single(version_set) => {
            let name = answers.set_package(version_set);
            forbid_package(answers, encoding, name)?;
            Ok(())
        }
        Requirement::Union(_) => {
            let names = answers.named(requirement)?;
            forbid_packages(answers, encoding, names.as_slice())?;
            Ok(())
        }
    }
}

/// Encodes the locks and exclusions of the packages of a requirement, unless it has a condition.
/// Where it has its candidates, they are encoded.
fn forbid_for_need<A: PackageSource>(
    answers: &mut A,
    encoding: &mut Encoder<A::NameId, A::SolvableId>,
    need: ConditionalRequirement,
) -> Result<(), CacheFault<A::Cancel>>
    requires { IsBuilt encoding.old }
    // Whatever the answer.
    ensures same { answers.new ≡ answers.old }
    // After an answer.
    ensures stays { OnOk result
        (StaysInOrder A.SolvableId.eq A.PackageSource answers.old encoding.old encoding.new) }
    ensures kept { OnOk result (AddsNeeds encoding.old encoding.new) }
    ensures built { OnOk result (IsBuilt encoding.new) }
    // After a refusal.
    ensures cancelled { IfErr result (IsCancelledBy (A.may_cancel answers.old)) }
    ensures ids { IsErrOf result Ids
        → StopsAnyhow A.SolvableId.eq A.PackageSource answers.old encoding.new }
{
    if need.condition.is_some() || encoding.is_fixed(need.requirement) {
        return Ok(());
    }
    forbid_named(answers, encoding, need.requirement)?;
    Ok(())
}

/// Encodes the locks and exclusions of the packages of requirements without a condition.
fn forbid_for_needs<A: PackageSource>(
    answers: &mut A,
    encoding: &mut Encoder<A::NameId, A::SolvableId>,
    needs: &[ConditionalRequirement],
) -> Result<(), CacheFault<A::Cancel>>
    requires { IsBuilt encoding.old }
    // Whatever the answer.
    ensures same { answers.new ≡ answers.old }
    // After an answer.
    ensures stays { OnOk result
        (StaysInOrder A.SolvableId.eq A.PackageSource answers.old encoding.old encoding.new) }
    ensures kept { OnOk result (AddsNeeds encoding.old encoding.new) }
    ensures built { OnOk result (IsBuilt encoding.new) }
    // After a refusal.
    ensures cancelled { IfErr result (IsCancelledBy (A.may_cancel answers.old)) }
    ensures ids { IsErrOf result Ids
        → StopsAnyhow A.SolvableId.eq A.PackageSource answers.old encoding.new }
{
    for need in needs {
        forbid_for_need(answers, encoding, *need)?;
    }
    Ok(())
}

/// Encodes the locks and exclusions of the packages of constraints.
fn forbid_for_limits<A: PackageSource>(
    answers: &mut A,
    encoding: &mut Encoder<A::NameId, A::SolvableId>,
    constraints: &[VersionSetId],
) -> Result<(), CacheFault<A::Cancel>>
    requires { IsBuilt encoding.old }
    // Whatever the answer.
    ensures same { answers.new ≡ answers.old }
    // After an answer.
    ensures stays { OnOk result
        (StaysInOrder A.SolvableId.eq A.PackageSource answers.old encoding.old encoding.new) }
    ensures kept { OnOk result (AddsNeeds encoding.old encoding.new) }
    ensures built { OnOk result (IsBuilt encoding.new) }
    // After a refusal.
    ensures cancelled { IfErr result (IsCancelledBy (A.may_cancel answers.old)) }
    ensures ids { IsErrOf result Ids
        → StopsAnyhow A.SolvableId.eq A.PackageSource answers.old encoding.new }
{
    for version_set in constraints {
        forbid_named(answers, encoding, Requirement::Single(*version_set))?;
    }
    Ok(())
}

/// Encodes the locks and exclusions of the packages of requirements without a condition, then of
/// constraints.
pub(crate) fn forbid_for_rules<A: PackageSource>(
    answers: &mut A,
    encoding: &mut Encoder<A::NameId, A::SolvableId>,
    requirements: &[ConditionalRequirement],
    constraints: &[VersionSetId],
) -> Result<(), CacheFault<A::Cancel>>
    requires { IsBuilt encoding.old }
    // Whatever the answer.
    ensures same { answers.new ≡ answers.old }
    // After an answer.
    ensures stays { OnOk result
        (StaysInOrder A.SolvableId.eq A.PackageSource answers.old encoding.old encoding.new) }
    ensures kept { OnOk result (AddsNeeds encoding.old encoding.new) }
    ensures built { OnOk result (IsBuilt encoding.new) }
    // After a refusal.
    ensures cancelled { IfErr result (IsCancelledBy (A.may_cancel answers.old)) }
    ensures ids { IsErrOf result Ids
        → StopsAnyhow A.SolvableId.eq A.PackageSource answers.old encoding.new }
{
    forbid_for_needs(answers, encoding, requirements)?;
    forbid_for_limits(answers, encoding, constraints)?;
    Ok(())
}
