//! Requirements and constraints of a parent become clauses. The locks and exclusions of the
//! packages that they name come first. A package is asked for only when a parent that names it is
//! encoded.
ghost use Rattle.std.specs.Prelude.{◌≡◌, IfErr, OnOk, IsErrOf, IsOkUnless};
ghost use Rattle.resolvo_pool.specs.Cached.{IsCancelledBy};
ghost use Rattle.resolvo_pool.specs.declared.cache.CacheFault.TheVariants.{Ids};
ghost use Rattle.resolvo_pool_core.specs.declared.want.Want.TheVariants.{Memory};
ghost use Rattle.resolvo_pool_core.specs.declared.requirement.ConditionalRequirement.{ConditionalRequirement};
ghost use Rattle.resolvo_pool_core.specs.declared.requirement.Requirement.TheVariants.{Single};
ghost use Rattle.resolvo_encoder.specs.Steps.{IsBuilt, AddsParent};
ghost use Rattle.resolvo_turn.specs.Encoder.{AddsNeeds};
ghost use Rattle.resolvo_turn.specs.Effects.{RequiresGuarded, RequiresPlain, RequiresOne, RequiresAll, LimitsOne, LimitsGuarded, LimitsAll, EncodesKnown};
ghost use Rattle.resolvo_turn.specs.LacksIds.{StopsAnyhow, StopsNeed, StopsOne, StopsAll, StopsKnown};

use crate::defer_conditions::defer_need;
use crate::forbid::{forbid_for_rules, forbid_named};
use crate::tasks::Tasks;
use resolvo_encoder::encoder::Encoder;
use resolvo_packages::package_source::{Offered, PackageSource};
use resolvo_pool::cache::CacheFault;
use resolvo_pool_core::id::VersionSetId;
use resolvo_pool_core::requirement::{ConditionalRequirement, Requirement};
use resolvo_pool_core::want::R;
use std::alloc::Global;

/// Adds as parents the candidates whose dependencies are available.
pub fn add_available<A: PackageSource>(
    answers: &A,
    encoding: &mut Encoder<A::NameId, A::SolvableId>,
    offered: &[Offered<A::NameId, A::SolvableId>],
) -> R<()>
    ensures added { OnOk result (AddsParent encoding.old encoding.new) }
    ensures refusal { IsOkUnless result Memory }
{
    for one in offered {
        if answers.are_dependencies_available_for(one.solvable) {
            encoding.add_parent(one.solvable)?;
        }
    }
    Ok(())
}

/// Encodes that a parent needs a candidate of a requirement, whose packages are guarded.
fn require<A: PackageSource>(
    alloc: Global,
    answers: &mut A,
    encoding: &mut Encoder<A::NameId, A::SolvableId>,
    parent: Option<A::SolvableId>,
    need: ConditionalRequirement,
) -> Result<(), CacheFault<A::Cancel>>
    requires { IsBuilt encoding.old }
    // Whatever the answer.
    ensures same { answers.new ≡ answers.old }
    // After an answer.
    ensures encoded { OnOk result
        (RequiresGuarded A.SolvableId.eq A.PackageSource answers.old
        parent need encoding.old encoding.new) }
    ensures kept { OnOk result (AddsNeeds encoding.old encoding.new) }
    ensures built { OnOk result (IsBuilt encoding.new) }
    // After a refusal.
    ensures cancelled { IfErr result (IsCancelledBy (A.may_cancel answers.old)) }
    ensures ids { IsErrOf result Ids
        → StopsNeed A.SolvableId.eq A.PackageSource answers.old parent need encoding.new }
{
    let offered = answers.candidates(need.requirement)?;
    encoding.require(alloc, parent, need, offered.as_slice())?;
    add_available(answers, encoding, offered.as_slice())?;
    Ok(())
}

/// Encodes that a parent needs a candidate of a requirement without a condition. Where the
/// requirement has its candidates already, nothing is asked for: their packages are guarded.
fn encode_plain_need<A: PackageSource>(
    alloc: Global,
    answers: &mut A,
    encoding: &mut Encoder<A::NameId, A::SolvableId>,
    parent: Option<A::SolvableId>,
    need: ConditionalRequirement,
) -> Result<(), CacheFault<A::Cancel>>
    requires { IsBuilt encoding.old }
    // Whatever the answer.
    ensures same { answers.new ≡ answers.old }
    // After an answer.
    ensures encoded { OnOk result
        (RequiresPlain A.SolvableId.eq A.PackageSource answers.old
        parent need encoding.old encoding.new) }
    ensures kept { OnOk result (AddsNeeds encoding.old encoding.new) }
    ensures built { OnOk result (IsBuilt encoding.new) }
    // After a refusal.
    ensures cancelled { IfErr result (IsCancelledBy (A.may_cancel answers.old)) }
    ensures ids { IsErrOf result Ids
        → StopsNeed A.SolvableId.eq A.PackageSource answers.old parent need encoding.new }
{
    if encoding.is_fixed(need.requirement) {
        encoding.require_again(parent, need)?;
        return Ok(());
    }
    forbid_named(answers, encoding, need.requirement)?;
    require(alloc, answers, encoding, parent, need)?;
    Ok(())
}

/// Encodes a requirement of a parent. If it has a condition, its cases are deferred. Those that
/// hold are tasks, behind the others.
fn encode_need<A: PackageSource>(
    alloc: Global,
    answers: &mut A,
    encoding: &mut Encoder<A::NameId, A::SolvableId>,
    tasks: &mut Tasks<A::SolvableId>,
    parent: Option<A::SolvableId>,
    need: ConditionalRequirement,
) -> Result<(), CacheFault<A::Cancel>>
    requires { IsBuilt encoding.old }
    // Whatever the answer.
    ensures same { answers.new ≡ answers.old }
    // After an answer.
    ensures encoded { OnOk result
        (RequiresOne A.SolvableId.eq A.PackageSource answers.old
        parent need encoding.old encoding.new) }
    ensures kept { OnOk result (AddsNeeds encoding.old encoding.new) }
    ensures built { OnOk result (IsBuilt encoding.new) }
    // After a refusal.
    ensures cancelled { IfErr result (IsCancelledBy (A.may_cancel answers.old)) }
    ensures ids { IsErrOf result Ids
        → StopsOne A.SolvableId.eq A.PackageSource answers.old
        parent need encoding.old encoding.new }
{
    match need.condition {
        None => {
            encode_plain_need(alloc, answers, encoding, parent, need)?;
            Ok(())
        }
        Some(condition) => {
            let first = encoding.deferred.len();
            defer_need(alloc, answers, encoding, parent, need, condition)?;
            tasks.push_from(alloc, encoding, first)?;
            Ok(())
        }
    }
}

/// Encodes the requirements of a parent.
fn encode_needs<A: PackageSource>(
    alloc: Global,
    answers: &mut A,
    encoding: &mut Encoder<A::NameId, A::SolvableId>,
    tasks: &mut Tasks<A::SolvableId>,
    parent: Option<A::SolvableId>,
    needs: &[ConditionalRequirement],
) -> Result<(), CacheFault<A::Cancel>>
    requires { IsBuilt encoding.old }
    // Whatever the answer.
    ensures same { answers.new ≡ answers.old }
    // After an answer.
    ensures encoded { OnOk result
        (RequiresAll A.SolvableId.eq A.PackageSource answers.old
        parent needs.now encoding.old encoding.new) }
    ensures kept { OnOk result (AddsNeeds encoding.old encoding.new) }
    ensures built { OnOk result (IsBuilt encoding.new) }
    // After a refusal.
    ensures cancelled { IfErr result (IsCancelledBy (A.may_cancel answers.old)) }
    ensures ids { IsErrOf result Ids
        → StopsAll A.SolvableId.eq A.PackageSource answers.old
        parent needs.now encoding.old encoding.new }
{
    for need in needs {
        encode_need(alloc, answers, encoding, tasks, parent, *need)?;
    }
    Ok(())
}

/// Encodes that a parent's constraint keeps out the candidates outside it.
fn limit<A: PackageSource>(
    answers: &mut A,
    encoding: &mut Encoder<A::NameId, A::SolvableId>,
    parent: Option<A::SolvableId>,
    version_set: VersionSetId,
) -> Result<(), CacheFault<A::Cancel>>
    requires { IsBuilt encoding.old }
    // Whatever the answer.
    ensures same { answers.new ≡ answers.old }
    // After an answer.
    ensures encoded { OnOk result
        (LimitsOne A.SolvableId.eq A.PackageSource answers.old
        parent version_set encoding.old encoding.new) }
    ensures kept { OnOk result (AddsNeeds encoding.old encoding.new) }
    ensures built { OnOk result (IsBuilt encoding.new) }
    // After a refusal.
    ensures cancelled { IfErr result (IsCancelledBy (A.may_cancel answers.old)) }
    ensures ids { IsErrOf result Ids
        → StopsAnyhow A.SolvableId.eq A.PackageSource answers.old encoding.new }
{
    if encoding.is_left_out(version_set) {
        encoding.limit_outside(parent, version_set)?;
        return Ok(());
    }
    let outside = answers.outside(version_set)?;
    encoding.limit(parent, version_set, outside.as_slice())?;
    Ok(())
}

/// Encodes that a parent's constraint keeps out the candidates outside it, and the locks and
/// exclusions of the others.
fn encode_limit<A: PackageSource>(
    answers: &mut A,
    encoding: &mut Encoder<A::NameId, A::SolvableId>,
    parent: Option<A::SolvableId>,
    version_set: VersionSetId,
) -> Result<(), CacheFault<A::Cancel>>
    requires { IsBuilt encoding.old }
    // Whatever the answer.
    ensures same { answers.new ≡ answers.old }
    // After an answer.
    ensures encoded { OnOk result
        (LimitsGuarded A.SolvableId.eq A.PackageSource answers.old
        parent version_set encoding.old encoding.new) }
    ensures kept { OnOk result (AddsNeeds encoding.old encoding.new) }
    ensures built { OnOk result (IsBuilt encoding.new) }
    // After a refusal.
    ensures cancelled { IfErr result (IsCancelledBy (A.may_cancel answers.old)) }
    ensures ids { IsErrOf result Ids
        → StopsAnyhow A.SolvableId.eq A.PackageSource answers.old encoding.new }
{
    forbid_named(answers, encoding, Requirement::Single(version_set))?;
    limit(answers, encoding, parent, version_set)?;
    Ok(())
}

/// Encodes the constraints of a parent.
fn encode_limits<A: PackageSource>(
    answers: &mut A,
    encoding: &mut Encoder<A::NameId, A::SolvableId>,
    parent: Option<A::SolvableId>,
    constraints: &[VersionSetId],
) -> Result<(), CacheFault<A::Cancel>>
    requires { IsBuilt encoding.old }
    // Whatever the answer.
    ensures same { answers.new ≡ answers.old }
    // After an answer.
    ensures encoded { OnOk result
        (LimitsAll A.SolvableId.eq A.PackageSource answers.old
        parent constraints.now encoding.old encoding.new) }
    ensures kept { OnOk result (AddsNeeds encoding.old encoding.new) }
    ensures built { OnOk result (IsBuilt encoding.new) }
    // After a refusal.
    ensures cancelled { IfErr result (IsCancelledBy (A.may_cancel answers.old)) }
    ensures ids { IsErrOf result Ids
        → StopsAnyhow A.SolvableId.eq A.PackageSource answers.old encoding.new }
{
    for version_set in constraints {
        encode_limit(answers, encoding, parent, *version_set)?;
    }
    Ok(())
}

/// Encodes the requirements of a parent with known dependencies, then its constraints.
fn add_rules<A: PackageSource>(
    alloc: Global,
    answers: &mut A,
    encoding: &mut Encoder<A::NameId, A::SolvableId>,
    tasks: &mut Tasks<A::SolvableId>,
    parent: Option<A::SolvableId>,
    requirements: &[ConditionalRequirement],
    constraints: &[VersionSetId],
) -> Result<(), CacheFault<A::Cancel>>
    requires { IsBuilt encoding.old }
    // Whatever the answer.
    ensures same { answers.new ≡ answers.old }
    // After an answer.
    ensures encoded { OnOk result
        (EncodesKnown A.SolvableId.eq A.PackageSource answers.old
        parent requirements.now constraints.now encoding.old encoding.new) }
    ensures kept { OnOk result (AddsNeeds encoding.old encoding.new) }
    ensures built { OnOk result (IsBuilt encoding.new) }
    // After a refusal.
    ensures cancelled { IfErr result (IsCancelledBy (A.may_cancel answers.old)) }
    ensures ids { IsErrOf result Ids
        → StopsKnown A.SolvableId.eq A.PackageSource answers.old
        parent requirements.now constraints.now encoding.old encoding.new }
{
    encode_needs(alloc, answers, encoding, tasks, parent, requirements)?;
    encode_limits(answers, encoding, parent, constraints)?;
    Ok(())
}

/// Encodes the requirements and constraints of a parent with known dependencies. The locks and
/// exclusions of the packages that all of them name come first, except for those of cases.
pub(crate) fn encode_rules<A: PackageSource>(
    alloc: Global,
    answers: &mut A,
    encoding: &mut Encoder<A::NameId, A::SolvableId>,
    tasks: &mut Tasks<A::SolvableId>,
    parent: Option<A::SolvableId>,
    requirements: &[ConditionalRequirement],
    constraints: &[VersionSetId],
) -> Result<(), CacheFault<A::Cancel>>
    requires { IsBuilt encoding.old }
    // Whatever the answer.
    ensures same { answers.new ≡ answers.old }
    // After an answer.
    ensures encoded { OnOk result
        (EncodesKnown A.SolvableId.eq A.PackageSource answers.old
        parent requirements.now constraints.now encoding.old encoding.new) }
    ensures kept { OnOk result (AddsNeeds encoding.old encoding.new) }
    ensures built { OnOk result (IsBuilt encoding.new) }
    // After a refusal.
    ensures cancelled { IfErr result (IsCancelledBy (A.may_cancel answers.old)) }
    ensures ids { IsErrOf result Ids
        → StopsKnown A.SolvableId.eq A.PackageSource answers.old
        parent requirements.now constraints.now encoding.old encoding.new }
{
    forbid_for_rules(answers, encoding, requirements, constraints)?;
    add_rules(
        alloc,
        answers,
        encoding,
        tasks,
        parent,
        requirements,
        constraints,
    )?;
    Ok(())
}
