//! The links of a conflict's rules, rule by rule in the conflict's order, one function for each
//! kind.
ghost use Rattle.std.specs.Prelude.{◌≡◌, ◌++◌, Option, map, cond, Some, IfOk, OnOk, IsOkUnless};
ghost use Rattle.std.specs.List.{flat_map};
ghost use Rattle.std.specs.Option.{option_to_list, option_or};
ghost use Rattle.std.specs.HashMap.{get};
ghost use Rattle.resolvo_pool_core.specs.declared.want.Want.TheVariants.{Memory};
ghost use Rattle.resolvo_proof.specs.declared.link.Link.TheVariants.{Constrains};
ghost use Rattle.resolvo_proof.specs.Offered.{offered_by};
ghost use Rattle.resolvo_proof.specs.Order.{rules_at};
ghost use Rattle.resolvo_proof.specs.LinkRules.{instance_in, named, before_in, needed, links_at, limited, all_links, limited_in, is_new, each_limit_once};
ghost use Rattle.resolvo_proof.specs.Shares.{parents_in, limiters_in, outsiders_in};

use crate::link::Link;
use crate::offers::Offers;
use crate::rules::rule_at;
use crate::shared_rules::{Shares, shares_of};
use crate::step::{ProofRule, ProofStep};
use indexmap::IndexSet;
use resolvo_pool_core::id::{Exact, VersionSetId};
use resolvo_pool_core::provider::Interner;
use resolvo_pool_core::requirement::Requirement;
use resolvo_pool_core::want::R;
use std::alloc::Global;
use std::collections::HashMap;
use std::fmt::Debug;
use std::hash::Hash;

/// The links of the conflict's rules, each with those that it is drawn together with.
pub(crate) fn links_of<I: Interner>(
    alloc: Global,
    interner: &I,
    offers: &Offers<I::SolvableId>,
    steps: &[ProofStep<I::NameId, I::SolvableId>],
    order: &[usize],
) -> R<Vec<Link<I::SolvableId>>>
    ensures links { IfOk result
        (λ v.
        v.items
        ≡ all_links I.NameId.eq (I.name_of_solvable interner.now) (offered_by offers.now)
        (rules_at steps.now order.now)) }
    ensures refusal { IsOkUnless result Memory }
{
    let shares = shares_of(alloc, steps, order)?;
    let mut instances = HashMap::new(alloc);
    let mut links = Vec::new(alloc);
    for place in order {
        if let Some(rule) = rule_at(steps, *place) {
            let before = record_instance(interner, rule, &mut instances)?;
            link(offers, &shares, before, rule, &mut links)?;
        }
    }
    Ok(links)
}

/// Records the version whose digit a rule encodes as the last of its package. The one before it.
fn record_instance<I: Interner>(
    interner: &I,
    rule: &ProofRule<I::NameId, I::SolvableId>,
    instances: &mut HashMap<I::NameId, I::SolvableId>,
) -> R<Option<I::SolvableId>>
    ensures before { IfOk result
        (λ b.
        b
        ≡ before_in I.NameId.eq (I.name_of_solvable interner.now)
        (get I.NameId.eq instances.old) rule.now) }
    ensures recorded { OnOk result
        ((n : I.NameId)
        → get I.NameId.eq instances.new n
        ≡ option_or
        (named I.NameId.eq (I.name_of_solvable interner.now) n (instance_in rule.now))
        (get I.NameId.eq instances.old n)) }
    ensures refusal { IsOkUnless result Memory }
{
    if let ProofRule::Digit { solvable, .. } = rule {
        let name = interner.solvable_name(*solvable);
        // `?` converts the error
        let before = instances.insert(name, *solvable)?;
        Ok(before)
    } else {
        Ok(None)
    }
}

/// Adds the links of a rule. A digit is linked to the version before it.
fn link<N: Copy + Exact + Hash + Debug, S: Copy + Exact + Hash + Debug>(
    offers: &Offers<S>,
    shares: &Shares<S>,
    before: Option<S>,
    rule: &ProofRule<N, S>,
    links: &mut Vec<Link<S>>,
) -> R<()>
    ensures links { OnOk result
        (links.new.items
        ≡ links.old.items ++ links_at (offered_by offers.now) (parents_in shares.now)
        (limiters_in shares.now) (outsiders_in shares.now) before rule.now) }
    ensures refusal { IsOkUnless result Memory }
{
    match rule {
        ProofRule::GateOf { .. } | ProofRule::AtLeastOne { .. } | ProofRule::Matches { .. } => {}
        ProofRule::Needs {
            parent,
            requirement,
            ..
        } => link_need(offers, *parent, *requirement, links)?,
        ProofRule::Shared { requirement } => link_gate(offers, shares, *requirement, links)?,
        ProofRule::Limit {
            parent,
            version_set,
            barred,
        } => link_limit(shares, *parent, *version_set, *barred, links)?,
        ProofRule::Outside {
            version_set,
            solvable,
        } => link_outside(shares, *version_set, *solvable, links)?,
        ProofRule::Locked { locked, barred } => links.push(Link::Locked {
            locked: *locked,
            barred: *barred,
        })?,
        ProofRule::Excluded { solvable, reason } => links.push(Link::Excluded {
            solvable: *solvable,
            reason: *reason,
        })?,
        ProofRule::Digit { solvable, .. } => links.push(Link::Instance {
            before,
            solvable: *solvable,
        })?,
    }
    Ok(())
}

/// Links a parent to each candidate of its requirement, or to none where there is none.
fn link_need<S: Copy + Exact + Hash + Debug>(
    offers: &Offers<S>,
    parent: Option<S>,
    requirement: Requirement,
    links: &mut Vec<Link<S>>,
) -> R<()>
    ensures links { OnOk result
        (links.new.items
        ≡ links.old.items ++ needed parent requirement (offered_by offers.now requirement)) }
    ensures refusal { IsOkUnless result Memory }
{
    let candidates = offers.candidates(requirement);
    if candidates.is_empty() {
        links.push(Link::Requires {
            parent,
            requirement,
            candidate: None,
        })?;
        return Ok(());
    }
    for candidate in candidates {
        links.push(Link::Requires {
            parent,
            requirement,
            candidate: Some(*candidate),
        })?;
    }
    Ok(())
}

/// Links each parent that opens the requirement's gate to its candidates.
fn link_gate<S: Copy + Exact + Hash + Debug>(
    offers: &Offers<S>,
    shares: &Shares<S>,
    requirement: Requirement,
    links: &mut Vec<Link<S>>,
) -> R<()>
    ensures links { OnOk result
        (links.new.items
        ≡ links.old.items ++ flat_map
        (λ s. needed (Some s) requirement (offered_by offers.now requirement))
        (parents_in shares.now requirement)) }
    ensures refusal { IsOkUnless result Memory }
{
    let parents = shares.gates.get(requirement);
    for parent in parents {
        link_need(offers, Some(*parent), requirement, links)?;
    }
    Ok(())
}

/// Links a parent to the solvable that its constraint bars, or to each that is outside its version
/// set.
fn link_limit<S: Copy + Exact + Hash + Debug>(
    shares: &Shares<S>,
    parent: Option<S>,
    version_set: VersionSetId,
    barred: Option<S>,
    links: &mut Vec<Link<S>>,
) -> R<()>
    ensures links { OnOk result
        (links.new.items
        ≡ links.old.items ++ limited parent version_set (outsiders_in shares.now version_set)
        barred) }
    ensures refusal { IsOkUnless result Memory }
{
    if let Some(solvable) = barred {
        links.push(Link::Constrains {
            parent,
            version_set,
            solvable,
        })?;
        return Ok(());
    }
    let outsides = shares.outsides.get(version_set);
    for solvable in outsides {
        links.push(Link::Constrains {
            parent,
            version_set,
            solvable: *solvable,
        })?;
    }
    Ok(())
}

/// Links each parent with the version set to a solvable that is outside it.
fn link_outside<S: Copy + Exact + Hash + Debug>(
    shares: &Shares<S>,
    version_set: VersionSetId,
    solvable: S,
    links: &mut Vec<Link<S>>,
) -> R<()>
    ensures links { OnOk result
        (links.new.items
        ≡ links.old.items ++ map (λ parent. Constrains parent version_set solvable)
        (limiters_in shares.now version_set)) }
    ensures refusal { IsOkUnless result Memory }
{
    let parents = shares.limits.get(version_set);
    for parent in parents {
        links.push(Link::Constrains {
            parent: *parent,
            version_set,
            solvable,
        })?;
    }
    Ok(())
}

/// The key of a constraint's link: the parent, its version set and the solvable that this keeps
/// out.
type Limited<S> = (Option<S>, VersionSetId, S);

/// The links, but of a constraint's links with the same key only the first.
pub(crate) fn each_limit_once<S: Copy + Exact + Hash + Debug>(
    alloc: Global,
    links: &[Link<S>],
) -> R<Vec<Link<S>>>
    ensures links { IfOk result (λ v. v.items ≡ each_limit_once S.eq links.now) }
    ensures refusal { IsOkUnless result Memory }
{
    let mut limits = IndexSet::new(alloc);
    let mut kept = Vec::new(alloc);
    for link in links {
        if is_new(&mut limits, *link)? {
            kept.push(*link)?;
        }
    }
    Ok(kept)
}

/// Whether a link is no constraint's, or its key is not among these, to which it is added.
fn is_new<S: Copy + Exact + Hash + Debug>(
    limits: &mut IndexSet<Limited<S>>,
    link: Link<S>,
) -> R<bool>
    ensures new { IfOk result (λ b. b ≡ is_new S.eq limits.old.keys (limited_in link)) }
    ensures recorded { OnOk result
        (limits.new.keys
        ≡ cond (is_new S.eq limits.old.keys (limited_in link))
        (limits.old.keys ++ option_to_list (limited_in link)) limits.old.keys) }
    ensures refusal { IsOkUnless result Memory }
{
    match link {
        Link::Constrains {
            parent,
            version_set,
            solvable,
        } => {
            let (_, new) = limits.insert_full((parent, version_set, solvable))?;
            Ok(new)
        }
        _ => Ok(true),
    }
}
