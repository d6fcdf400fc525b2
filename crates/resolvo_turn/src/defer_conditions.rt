//! Deferred cases of conditions: each waits until every version set of its own has a chosen match.
ghost use Rattle.std.specs.Prelude.{◌≡◌, Some, IfOk, IfErr, OnOk, IsErrOf, IsOkUnless};
ghost use Rattle.resolvo_pool.specs.Cached.{IsCancelledBy};
ghost use Rattle.resolvo_pool.specs.declared.cache.CacheFault.TheVariants.{Ids};
ghost use Rattle.resolvo_pool_core.specs.declared.want.Want.TheVariants.{Memory};
ghost use Rattle.resolvo_pool_core.specs.declared.id.VersionSetId.{VersionSetId};
ghost use Rattle.resolvo_store_core.specs.Cases.{cases_of};
ghost use Rattle.resolvo_store_core.specs.Deferred.{version_set_of};
ghost use Rattle.resolvo_packages.specs.PackageSource.{offered_solvables};
ghost use Rattle.resolvo_encoder.specs.Conditions.{case_of, AreConjuncts, IsMatching};
ghost use Rattle.resolvo_encoder.specs.Steps.{IsBuilt};
ghost use Rattle.resolvo_turn.specs.Encoder.{AddsNeeds};
ghost use Rattle.resolvo_turn.specs.Effects.{DefersCase, DefersCases, DefersNeed};

use resolvo_encoder::encoder::Encoder;
use resolvo_packages::package_source::{Offered, PackageSource};
use resolvo_pool::cache::CacheFault;
use resolvo_pool_core::id::{ConditionId, VersionSetId};
use resolvo_pool_core::requirement::ConditionalRequirement;
use resolvo_pool_core::want::R;
use resolvo_store_core::conditions::DeferredConjunct;
use std::alloc::Global;

/// The offered solvables.
pub fn solvables_of<N, S: Copy>(alloc: Global, offered: &[Offered<N, S>]) -> R<Vec<S>>
    ensures solvables { IfOk result (λ v. v.items ≡ offered_solvables offered.now) }
    ensures refusal { IsOkUnless result Memory }
{
    let mut solvables = Vec::with_capacity(alloc, offered.len())?;
    for one in offered {
        solvables.push(one.solvable)?;
    }
    Ok(solvables)
}

/// A version set, with the candidates that match it.
fn conjunct_of<A: PackageSource>(
    answers: &mut A,
    version_set: VersionSetId,
) -> Result<DeferredConjunct<A::SolvableId>, CacheFault<A::Cancel>>
    ensures same { answers.new ≡ answers.old }
    ensures matches { IfOk result (IsMatching A.SolvableId.eq (A.packages answers.old)) }
    ensures version_set { IfOk result (λ c. version_set_of c ≡ version_set) }
    ensures cancelled { IfErr result (IsCancelledBy (A.may_cancel answers.old)) }
    ensures ids { IsErrOf result Ids → A.may_lack_ids answers.old }
{
    let matching = answers.matching(version_set)?;
    Ok(DeferredConjunct::new(version_set, matching))
}

/// The version sets of a case, each with the candidates that match it.
fn conjuncts_of<A: PackageSource>(
    alloc: Global,
    answers: &mut A,
    case: &[VersionSetId],
) -> Result<Vec<DeferredConjunct<A::SolvableId>>, CacheFault<A::Cancel>>
    ensures same { answers.new ≡ answers.old }
    ensures matches { IfOk result
        (λ v. AreConjuncts A.SolvableId.eq (A.packages answers.old) v.items) }
    ensures case { IfOk result (λ v. case_of v.items ≡ case.now) }
    ensures cancelled { IfErr result (IsCancelledBy (A.may_cancel answers.old)) }
    ensures ids { IsErrOf result Ids → A.may_lack_ids answers.old }
{
    let mut conjuncts = Vec::with_capacity(alloc, case.len())?;
    for version_set in case {
        let conjunct = conjunct_of(answers, *version_set)?;
        conjuncts.push(conjunct)?;
    }
    Ok(conjuncts)
}

/// Defers a case of a parent's requirement.
fn defer_case<A: PackageSource>(
    alloc: Global,
    answers: &mut A,
    encoding: &mut Encoder<A::NameId, A::SolvableId>,
    parent: Option<A::SolvableId>,
    need: ConditionalRequirement,
    case: &[VersionSetId],
) -> Result<(), CacheFault<A::Cancel>>
    requires { IsBuilt encoding.old }
    // Whatever the answer.
    ensures same { answers.new ≡ answers.old }
    // After an answer.
    ensures encoded { OnOk result
        (DefersCase A.SolvableId.eq A.PackageSource answers.old
        parent need case.now encoding.old encoding.new) }
    ensures kept { OnOk result (AddsNeeds encoding.old encoding.new) }
    ensures built { OnOk result (IsBuilt encoding.new) }
    // After a refusal.
    ensures cancelled { IfErr result (IsCancelledBy (A.may_cancel answers.old)) }
    ensures ids { IsErrOf result Ids → A.may_lack_ids answers.old }
{
    let conjuncts = conjuncts_of(alloc, answers, case)?;
    encoding.defer(parent, need, conjuncts)?;
    Ok(())
}

/// Defers each case of the condition of a parent's requirement.
pub fn defer_need<A: PackageSource>(
    alloc: Global,
    answers: &mut A,
    encoding: &mut Encoder<A::NameId, A::SolvableId>,
    parent: Option<A::SolvableId>,
    need: ConditionalRequirement,
    condition: ConditionId,
) -> Result<(), CacheFault<A::Cancel>>
    requires built { IsBuilt encoding.old }
    requires condition { need.condition ≡ Some condition }
    // Whatever the answer.
    ensures same { answers.new ≡ answers.old }
    // After an answer.
    ensures encoded { OnOk result
        (DefersNeed A.SolvableId.eq A.PackageSource answers.old
        parent need encoding.old encoding.new) }
    ensures kept { OnOk result (AddsNeeds encoding.old encoding.new) }
    ensures built { OnOk result (IsBuilt encoding.new) }
    // After a refusal.
    ensures cancelled { IfErr result (IsCancelledBy (A.may_cancel answers.old)) }
    ensures ids { IsErrOf result Ids → A.may_lack_ids answers.old }
{
    if let Some(only) = answers.lone_set(condition) {
        defer_case(alloc, answers, encoding, parent, need, &[only])?;
        return Ok(());
    }
    let cases = answers.cases(condition)?;
    defer_cases(alloc, answers, encoding, parent, need, cases.as_slice())?;
    Ok(())
}

/// Defers these cases of a parent's requirement.
fn defer_cases<A: PackageSource>(
    alloc: Global,
    answers: &mut A,
    encoding: &mut Encoder<A::NameId, A::SolvableId>,
    parent: Option<A::SolvableId>,
    need: ConditionalRequirement,
    cases: &[Vec<VersionSetId>],
) -> Result<(), CacheFault<A::Cancel>>
    requires { IsBuilt encoding.old }
    // Whatever the answer.
    ensures same { answers.new ≡ answers.old }
    // After an answer.
    ensures encoded { OnOk result
        (DefersCases A.SolvableId.eq A.PackageSource answers.old
        parent need (cases_of cases.now) encoding.old encoding.new) }
    ensures kept { OnOk result (AddsNeeds encoding.old encoding.new) }
    ensures built { OnOk result (IsBuilt encoding.new) }
    // After a refusal.
    ensures cancelled { IfErr result (IsCancelledBy (A.may_cancel answers.old)) }
    ensures ids { IsErrOf result Ids → A.may_lack_ids answers.old }
{
    for case in cases {
        defer_case(alloc, answers, encoding, parent, need, case.as_slice())?;
    }
    Ok(())
}
