//! The rules of a refutation, in the conflict's order. The proof ends with a derived step, whose
//! causes are read from the last to the first. A derived cause is replaced at its place by its own
//! causes, in that same order. Each rule is listed once, at its first place.
ghost use Rattle.std.specs.Prelude.{◌≡◌, ◌++◌, [], IfOk, OnOk, IsOkUnless, filter, slice_get, option_and_then};
ghost use Rattle.std.specs.Option.{option_copied};
ghost use Rattle.resolvo_pool_core.specs.declared.want.Want.TheVariants.{Memory};
ghost use Rattle.resolvo_proof.specs.Order.{conflict_order, conflict_rules, rules_at, requirements_in, named_by, rule_in, is_earlier};

use crate::step::{ProofRule, ProofStep};
use indexmap::IndexSet;
use resolvo_pool_core::id::Exact;
use resolvo_pool_core::requirement::Requirement;
use resolvo_pool_core::want::R;
use std::alloc::Global;
use std::fmt::Debug;
use std::hash::Hash;

/// The places of the conflict's rules among the steps of a refutation, in the conflict's order.
pub fn conflict_rules<N: Copy + Exact + Hash + Debug, S: Copy + Exact + Hash + Debug>(
    alloc: Global,
    steps: &[ProofStep<N, S>],
) -> R<Vec<usize>>
    ensures order { IfOk result (λ v. v.items ≡ conflict_order steps.now) }
    ensures refusal { IsOkUnless result Memory }
{
    let mut order = Vec::new(alloc);
    let mut seen = Vec::new(alloc);
    seen.resize(steps.len(), false)?;
    let mut stack = Vec::new(alloc);
    if let Some(last) = steps.len().checked_sub(1) {
        stack.push(last)?;
    }
    while let Some(place) = stack.pop() {
        if !seen[place] {
            seen[place] = true;
            match &steps[place] {
                ProofStep::Rule(_) => order.push(place)?,
                ProofStep::Derived { causes, .. } => stack_causes(
                    causes.as_slice(),
                    place,
                    &mut stack,
                )?,
            }
        }
    }
    Ok(order)
}

/// Pushes the causes before this place on the stack, the last one on top.
fn stack_causes(causes: &[usize], place: usize, stack: &mut Vec<usize>) -> R<()>
    ensures put { OnOk result (stack.new.items ≡ stack.old.items ++ filter (is_earlier place)
        causes.now) }
    ensures refusal { IsOkUnless result Memory }
{
    for cause in causes {
        if *cause < place {
            stack.push(*cause)?;
        }
    }
    Ok(())
}

/// The rule at a place.
pub(crate) fn rule_at<N: Copy, S: Copy>(
    steps: &[ProofStep<N, S>],
    place: usize,
) -> Option<&ProofRule<N, S>>
    ensures { option_copied result ≡ rule_in (slice_get steps.now place) }
{
    match steps.get(place) {
        Some(ProofStep::Rule(rule)) => Some(rule),
        _ => None,
    }
}

/// The requirements that the conflict's rules name, each once.
pub fn requirements_of<N: Copy + Exact + Hash + Debug, S: Copy + Exact + Hash + Debug>(
    alloc: Global,
    steps: &[ProofStep<N, S>],
) -> R<Vec<Requirement>>
    ensures named { IfOk result (λ v. v.items ≡ requirements_in (conflict_rules steps.now)) }
    ensures refusal { IsOkUnless result Memory }
{
    let places = conflict_rules(alloc, steps)?;
    requirements_at(alloc, steps, places.as_slice())
}

/// The requirements that the rules at these places name, each once.
fn requirements_at<N: Copy, S: Copy>(
    alloc: Global,
    steps: &[ProofStep<N, S>],
    places: &[usize],
) -> R<Vec<Requirement>>
    ensures named { IfOk result
        (λ v. v.items ≡ requirements_in (rules_at steps.now places.now)) }
    ensures refusal { IsOkUnless result Memory }
{
    let mut named = IndexSet::new(alloc);
    name_each(steps, places, &mut named)?;
    // `?` converts the error
    let requirements = Vec::from_slice(alloc, named.as_slice())?;
    Ok(requirements)
}

/// Adds the requirements that the rules at these places name, each once, where there were none.
fn name_each<N: Copy, S: Copy>(
    steps: &[ProofStep<N, S>],
    places: &[usize],
    named: &mut IndexSet<Requirement>,
) -> R<()>
    requires none { named.old.keys ≡ [] }
    ensures named { OnOk result
        (named.new.keys ≡ requirements_in (rules_at steps.now places.now)) }
    ensures refusal { IsOkUnless result Memory }
{
    for place in places {
        if let Some(requirement) = requirement_at(steps, *place) {
            named.insert_full(requirement)?;
        }
    }
    Ok(())
}

/// The requirement whose candidates the rule at a place names.
fn requirement_at<N: Copy, S: Copy>(steps: &[ProofStep<N, S>], place: usize) -> Option<Requirement>
    ensures { result ≡ option_and_then named_by (rule_in (slice_get steps.now place)) }
{
    let rule = rule_at(steps, place)?;
    requirement_named(rule)
}

/// The requirement whose candidates a rule names.
fn requirement_named<N: Copy, S: Copy>(rule: &ProofRule<N, S>) -> Option<Requirement>
    ensures { result ≡ named_by rule.now }
{
    match rule {
        ProofRule::Needs { requirement, .. } | ProofRule::Shared { requirement } => Some(
            *requirement,
        ),
        _ => None,
    }
}
