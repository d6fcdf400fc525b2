//! The rules that are drawn together with others, by what they share: a requirement's gate, or a
//! version set.
ghost use Rattle.std.specs.Prelude.{◌≡◌, ◌++◌, IfOk, OnOk, IsOkUnless};
ghost use Rattle.std.specs.List.{filter_map};
ghost use Rattle.std.specs.Option.{option_to_list};
ghost use Rattle.resolvo_pool_core.specs.declared.id.VersionSetId.{VersionSetId};
ghost use Rattle.resolvo_pool_core.specs.declared.requirement.Requirement.{Requirement};
ghost use Rattle.resolvo_pool_core.specs.declared.want.Want.TheVariants.{Memory};
ghost use Rattle.resolvo_proof.specs.Order.{rules_at};
ghost use Rattle.resolvo_proof.specs.LinkRules.{gate_in, limit_in, outside_in, requirers, under_set};
ghost use Rattle.resolvo_proof.specs.Shares.{parents_in, limiters_in, outsiders_in};

use crate::lists_by_key::ListsByKey;
use crate::rules::rule_at;
use crate::step::{ProofRule, ProofStep};
use resolvo_pool_core::id::{Exact, VersionSetId};
use resolvo_pool_core::requirement::Requirement;
use resolvo_pool_core::want::R;
use std::alloc::Global;
use std::fmt::Debug;
use std::hash::Hash;

/// The rules that are drawn together with others, wherever these are in the conflict.
#[derive(Drop)]
pub(crate) struct Shares<S> {
    /// The parents that open the gate of a requirement.
    pub(crate) gates: ListsByKey<Requirement, S>,
    /// The parents with a version set, which keeps out the versions outside it.
    pub(crate) limits: ListsByKey<VersionSetId, Option<S>>,
    /// The solvables outside a version set.
    pub(crate) outsides: ListsByKey<VersionSetId, S>,
}

/// The rules that are drawn together with others, those of one kind that share the same in the
/// conflict's order.
pub(crate) fn shares_of<N: Copy + Exact + Hash + Debug, S: Copy + Exact + Hash + Debug>(
    alloc: Global,
    steps: &[ProofStep<N, S>],
    order: &[usize],
) -> R<Shares<S>>
    ensures gates { IfOk result
        (λ h.
        (q : Requirement)
        → parents_in h q ≡ requirers (filter_map gate_in (rules_at steps.now order.now)) q) }
    ensures limits { IfOk result
        (λ h.
        (v : VersionSetId)
        → limiters_in h v ≡ under_set (filter_map limit_in (rules_at steps.now order.now)) v) }
    ensures outsides { IfOk result
        (λ h.
        (v : VersionSetId)
        → outsiders_in h v ≡ under_set (filter_map outside_in (rules_at steps.now order.now)) v) }
    ensures refusal { IsOkUnless result Memory }
{
    let mut shares = Shares {
        gates: ListsByKey::new(alloc),
        limits: ListsByKey::new(alloc),
        outsides: ListsByKey::new(alloc),
    };
    for place in order {
        if let Some(rule) = rule_at(steps, *place) {
            share(&mut shares, rule)?;
        }
    }
    Ok(shares)
}

/// Records a rule that is drawn together with others.
fn share<N: Copy + Exact + Hash + Debug, S: Copy + Exact + Hash + Debug>(
    shares: &mut Shares<S>,
    rule: &ProofRule<N, S>,
) -> R<()>
    ensures gates { OnOk result
        ((q : Requirement)
        → parents_in shares.new q
        ≡ parents_in shares.old q ++ requirers (option_to_list (gate_in rule.now)) q) }
    ensures limits { OnOk result
        ((v : VersionSetId)
        → limiters_in shares.new v
        ≡ limiters_in shares.old v ++ under_set (option_to_list (limit_in rule.now)) v) }
    ensures outsides { OnOk result
        ((v : VersionSetId)
        → outsiders_in shares.new v
        ≡ outsiders_in shares.old v ++ under_set (option_to_list (outside_in rule.now)) v) }
    ensures refusal { IsOkUnless result Memory }
{
    match rule {
        ProofRule::GateOf {
            parent,
            requirement,
        } => shares.gates.add(*requirement, *parent),
        ProofRule::Limit {
            parent,
            version_set,
            barred: None,
        } => shares.limits.add(*version_set, *parent),
        ProofRule::Outside {
            version_set,
            solvable,
        } => shares.outsides.add(*version_set, *solvable),
        _ => Ok(()),
    }
}
