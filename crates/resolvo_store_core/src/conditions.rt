//! Conditions in disjunctive normal form, as lists of cases.
//! A condition holds exactly if all version sets of some case are met. The solver encodes a
//! conditional need as a clause for each case, and defers a case until it can be met.
ghost use Rattle.std.specs.Prelude.{◌≡◌, ◌++◌, ◌∷◌, [], Bool, map, IfOk, IsOkUnless};
ghost use Rattle.resolvo_pool_core.specs.declared.want.Want.TheVariants.{Memory};
ghost use Rattle.resolvo_pool_core.specs.declared.id.ConditionId.{ConditionId};
ghost use Rattle.resolvo_pool_core.specs.declared.id.VersionSetId.{VersionSetId};
ghost use Rattle.resolvo_store_core.specs.Cases.{cases, cases_of, pairs, condition_holds, some_case_met};

use resolvo_pool_core::condition::{Condition, LogicalOperator};
use resolvo_pool_core::id::{ConditionId, VersionSetId};
use resolvo_pool_core::provider::Interner;
use resolvo_pool_core::want::R;
use std::alloc::Global;

/// A version set of a deferred case, with the candidates that match it.
#[derive(Debug, Drop)]
pub struct DeferredConjunct<S> {
    version_set: VersionSetId,
    candidates: Vec<S>,
}

impl<S> DeferredConjunct<S> {
    ghost use Rattle.resolvo_store_core.specs.Deferred.{version_set_of, candidates_of};

    /// A version set with its candidates.
    pub fn new(version_set: VersionSetId, candidates: Vec<S>) -> DeferredConjunct<S>
        ensures version_set { version_set_of result ≡ version_set }
        ensures candidates { candidates_of result ≡ candidates.items }
    {
        DeferredConjunct {
            version_set,
            candidates,
        }
    }

    /// The version set.
    pub fn version_set(&self) -> VersionSetId
        ensures { result ≡ version_set_of self.now }
    {
        self.version_set
    }

    /// The candidates that match it.
    pub fn candidates(&self) -> &[S]
        ensures { result.now ≡ candidates_of self.now }
    {
        self.candidates.as_slice()
    }
}

/// The cases of a condition. `or` lists the left side's, then the right side's. `and` pairs each of
/// the left side's with each of the right side's, the left one outer.
pub fn convert_conditions_to_dnf<I: Interner>(
    alloc: Global,
    condition: ConditionId,
    interner: &I,
) -> R<Vec<Vec<VersionSetId>>>
    ensures cases { IfOk result
        (λ v. cases_of v.items ≡ cases (I.condition_of interner.now) condition) }
    ensures refusal { IsOkUnless result Memory }
{
    match interner.resolve_condition(condition) {
        Condition::Requirement(version_set) => one_case(alloc, version_set),
        Condition::Binary(LogicalOperator::And, left, right) => {
            let left = convert_conditions_to_dnf(alloc, left, interner)?;
            let right = convert_conditions_to_dnf(alloc, right, interner)?;
            pairs_of(alloc, &left, &right)
        }
        Condition::Binary(LogicalOperator::Or, left, right) => {
            let mut all = convert_conditions_to_dnf(alloc, left, interner)?;
            let mut others = convert_conditions_to_dnf(alloc, right, interner)?;
            all.append(&mut others)?;
            Ok(all)
        }
    }
}

/// The law of the cases: whichever version sets are met, a condition holds exactly if all version
/// sets of some case are met.
pub fn cases_are_exact<I: Interner>(interner: &I)
    ensures { (met : VersionSetId → Bool) (c : ConditionId)
        → some_case_met met (cases (I.condition_of interner.now) c)
        ≡ condition_holds met (I.condition_of interner.now) c }
{}

/// The one case of a version set.
fn one_case(alloc: Global, version_set: VersionSetId) -> R<Vec<Vec<VersionSetId>>>
    ensures cases { IfOk result (λ v. cases_of v.items ≡ (version_set ∷ []) ∷ []) }
    ensures refusal { IsOkUnless result Memory }
{
    let mut case = Vec::new(alloc);
    case.push(version_set)?;
    let mut all = Vec::new(alloc);
    all.push(case)?;
    Ok(all)
}

/// The conjunction of both cases.
fn joined(alloc: Global, left: &[VersionSetId], right: &[VersionSetId]) -> R<Vec<VersionSetId>>
    ensures items { IfOk result (λ v. v.items ≡ left.now ++ right.now) }
    ensures refusal { IsOkUnless result Memory }
{
    let mut both = Vec::from_slice(alloc, left)?;
    both.extend_from_slice(right)?;
    Ok(both)
}

/// The left case with each of the right ones.
fn with_each(
    alloc: Global,
    left: &[VersionSetId],
    right: &[Vec<VersionSetId>],
) -> R<Vec<Vec<VersionSetId>>>
    ensures cases { IfOk result
        (λ v. cases_of v.items ≡ map (λ r. left.now ++ r) (cases_of right.now)) }
    ensures refusal { IsOkUnless result Memory }
{
    let mut all = Vec::new(alloc);
    for case in right {
        all.push(joined(alloc, left, case)?)?;
    }
    Ok(all)
}

/// Each left case with each right one.
fn pairs_of(
    alloc: Global,
    left: &[Vec<VersionSetId>],
    right: &[Vec<VersionSetId>],
) -> R<Vec<Vec<VersionSetId>>>
    ensures cases { IfOk result
        (λ v. cases_of v.items ≡ pairs (cases_of left.now) (cases_of right.now)) }
    ensures refusal { IsOkUnless result Memory }
{
    let mut all = Vec::new(alloc);
    for case in left {
        let mut paired = with_each(alloc, case, right)?;
        all.append(&mut paired)?;
    }
    Ok(all)
}
