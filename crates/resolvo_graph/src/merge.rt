//! Merged versions: versions of one package with the same neighbours on both sides.
//! `simplify` numbers the likenesses of versions: the package, and the sorted lists of neighbours,
//! each with its requirement. Versions of one number are merged.
ghost use Rattle.std.specs.Prelude.{◌≡◌, ℕ, ◌<◌, ◌==◌, ◌++◌, ◌∷◌, [], IfOk, OnOk, Some, cond, length, map, nat_lt, ◌&&◌, vec_len, IsOkUnless};
ghost use Rattle.resolvo_pool_core.specs.declared.want.Want.TheVariants.{Memory};
ghost use Rattle.resolvo_graph.specs.Merge.{before, after, IsInOrder, IsProfile, AreProfiles, AreMembers, numbered, group_among, group_in, solvable_of, IsMerged};
ghost use Rattle.resolvo_graph.specs.Graph.{requirement_of};
ghost use Rattle.resolvo_graph.specs.Kept.{merged_with, ids_at};

use crate::graph::{ConflictGraph, ConflictNode, Edge, NodeIndex};
use indexmap::IndexSet;
use itertools::Itertools;
use resolvo_pool_core::id::{Exact, SolvableId};
use resolvo_pool_core::provider::Interner;
use resolvo_pool_core::requirement::Requirement;
use resolvo_pool_core::solver_id::SolverId;
use resolvo_pool_core::want::R;
use std::alloc::Global;
use std::collections::HashMap;
use std::hash::Hash;
use std::marker::Model;
use std::rc::Rc;

/// Merged versions of one package, in the order of their nodes.
#[derive(Drop)]
pub struct MergedConflictNode<S = SolvableId> {
    pub ids: Vec<S>,
}

/// The package and the neighbours that merged versions share.
#[derive(PartialEq, Eq, Hash, Drop)]
struct Likeness<N> {
    name: N,
    before: Vec<(Option<Requirement>, NodeIndex)>,
    after: Vec<(Option<Requirement>, NodeIndex)>,
}

/// A version with its likeness.
#[derive(Drop)]
struct Profile<N, S> {
    solvable: S,
    likeness: Likeness<N>,
}

impl<N, S> Model for Profile<N, S> {
    ghost use Rattle.resolvo_graph.specs.Merge.{Profile};

    ghost Value = { Profile N S };

    ghost view = { λ p.
        record {
          solvable = p.solvable;
          name = p.likeness.name;
          before = p.likeness.before.items;
          after = p.likeness.after.items;
        } };
}

/// A version, with the number of its group.
#[derive(Clone, Copy)]
struct Member<S> {
    solvable: S,
    group: usize,
}

impl<S: Copy> ConflictNode<S> {
    /// The version of this node, if it has one.
    pub fn solvable(self) -> Option<S>
        ensures { result ≡ solvable_of self }
    {
        match self {
            ConflictNode::Solvable(solvable) => Some(solvable),
            ConflictNode::Root | ConflictNode::UnresolvedDependency | ConflictNode::Excluded(_) =>
                None,
        }
    }
}

impl<S: SolverId> ConflictGraph<S> {
    /// The groups of merged versions, by each of their versions.
    pub fn simplify<I: Interner<SolvableId = S>>(
        &self,
        alloc: Global,
        interner: &I,
    ) -> R<HashMap<S, Rc<MergedConflictNode<S>>>>
        ensures merged { IfOk result
            (λ m.
            IsMerged I.NameId.eq S.eq self.now (I.name_of_solvable interner.now)
            (merged_with S.eq m)) }
        ensures refusal { IsOkUnless result Memory }
    {
        let profiles = profiles(alloc, self, interner)?;
        merge(alloc, profiles)
    }
}

/// The groups of merged versions of some profiles, by each of their versions.
fn merge<N: Copy + Exact + Hash, S: Copy + Exact + Hash>(
    alloc: Global,
    profiles: Vec<Profile<N, S>>,
) -> R<HashMap<S, Rc<MergedConflictNode<S>>>>
    ensures merged { IfOk result
        (λ m.
        (s : S)
        → merged_with S.eq m s ≡ group_in N.eq S.eq profiles.items profiles.items s) }
    ensures refusal { IsOkUnless result Memory }
{
    let members = members(alloc, profiles)?;
    let groups = shared(alloc, groups(alloc, &members)?)?;
    merged(alloc, &members, &groups)
}

/// The versions with their numbers. Merged versions share one number.
fn members<N: Copy + Exact + Hash, S: Copy>(
    alloc: Global,
    profiles: Vec<Profile<N, S>>,
) -> R<Vec<Member<S>>>
    ensures members { IfOk result (λ v. AreMembers N.eq profiles.items v.items) }
    ensures refusal { IsOkUnless result Memory }
{
    let mut likenesses = IndexSet::new(alloc);
    let mut members = Vec::new(alloc);
    number(profiles, &mut likenesses, &mut members)?;
    Ok(members)
}

/// Adds the versions of some profiles, each with the number of its likeness.
fn number<N: Copy + Exact + Hash, S: Copy>(
    profiles: Vec<Profile<N, S>>,
    likenesses: &mut IndexSet<Likeness<N>>,
    members: &mut Vec<Member<S>>,
) -> R<()>
    requires likenesses { likenesses.old.keys ≡ [] }
    requires members { members.old.items ≡ [] }
    ensures members { OnOk result (AreMembers N.eq profiles.items members.new.items) }
    ensures refusal { IsOkUnless result Memory }
{
    for profile in profiles {
        let Profile { solvable, likeness } = profile;
        let (group, _) = likenesses.insert_full(likeness)?;
        members.push(Member { solvable, group })?;
    }
    Ok(())
}

/// The groups, each at its number.
fn groups<S: Copy>(alloc: Global, members: &[Member<S>]) -> R<Vec<MergedConflictNode<S>>>
    ensures groups { IfOk result (λ v. (g : ℕ) → ids_at v.items g ≡ numbered members.now g) }
    ensures refusal { IsOkUnless result Memory }
{
    let mut groups = Vec::new(alloc);
    for member in members {
        cover(alloc, &mut groups, member.group)?;
        add(&mut groups, *member)?;
    }
    Ok(groups)
}

/// Appends a version to the group of its number.
fn add<S: Copy>(groups: &mut Vec<MergedConflictNode<S>>, member: Member<S>) -> R<()>
    requires { member.group < vec_len groups.old }
    ensures ids { OnOk result
        ((g : ℕ)
        → ids_at groups.new.items g
        ≡ ids_at groups.old.items g ++ cond (member.group == g) (member.solvable ∷ []) []) }
    ensures refusal { IsOkUnless result Memory }
{
    groups[member.group].ids.push(member.solvable)?;
    Ok(())
}

/// Adds empty groups until there is one of this number.
fn cover<S: Copy>(alloc: Global, groups: &mut Vec<MergedConflictNode<S>>, number: usize) -> R<()>
    ensures same { (g : ℕ) → ids_at groups.new.items g ≡ ids_at groups.old.items g }
    ensures covered { OnOk result (number < vec_len groups.new) }
    ensures refusal { IsOkUnless result Memory }
{
    while groups.len() <= number {
        groups.push(MergedConflictNode {
            ids: Vec::new(alloc),
        })?;
    }
    Ok(())
}

/// The groups behind reference counts.
fn shared<S: Copy>(
    alloc: Global,
    groups: Vec<MergedConflictNode<S>>,
) -> R<Vec<Rc<MergedConflictNode<S>>>>
    ensures groups { IfOk result (λ v. map (λ r. r.value) v.items ≡ groups.items) }
    ensures refusal { IsOkUnless result Memory }
{
    let mut shared = Vec::new(alloc);
    for group in groups {
        shared.push(Rc::new(alloc, group)?)?;
    }
    Ok(shared)
}

/// The groups of two versions or more, by each of their versions.
fn merged<S: Copy + Exact + Hash>(
    alloc: Global,
    members: &[Member<S>],
    groups: &[Rc<MergedConflictNode<S>>],
) -> R<HashMap<S, Rc<MergedConflictNode<S>>>>
    ensures merged { IfOk result
        (λ m.
        (s : S)
        → merged_with S.eq m s
        ≡ group_among S.eq (ids_at (map (λ r. r.value) groups.now)) members.now s) }
    ensures refusal { IsOkUnless result Memory }
{
    let mut merged = HashMap::new(alloc);
    for member in members {
        if let Some(group) = groups.get(member.group) {
            keep(&mut merged, member.solvable, group)?;
        }
    }
    Ok(merged)
}

/// Inserts a group under one of its versions, unless that is its only one.
fn keep<S: Copy + Exact + Hash>(
    merged: &mut HashMap<S, Rc<MergedConflictNode<S>>>,
    solvable: S,
    group: &Rc<MergedConflictNode<S>>,
) -> R<()>
    ensures kept { OnOk result
        ((s : S)
        → merged_with S.eq merged.new s
        ≡ cond (S.eq solvable s && nat_lt 1 (length group.now.value.ids.items))
        (Some group.now.value.ids.items) (merged_with S.eq merged.old s)) }
    ensures refusal { IsOkUnless result Memory }
{
    if group.ids.len() > 1 {
        merged.insert(solvable, group.clone()?)?;
    }
    Ok(())
}

/// The versions of a graph, in the order of their nodes.
fn profiles<S: SolverId, I: Interner<SolvableId = S>>(
    alloc: Global,
    graph: &ConflictGraph<S>,
    interner: &I,
) -> R<Vec<Profile<I::NameId, S>>>
    ensures profiles { IfOk result
        (λ v. AreProfiles graph.now (I.name_of_solvable interner.now) v.items) }
    ensures refusal { IsOkUnless result Memory }
{
    let mut found = Vec::new(alloc);
    for (index, node) in graph.nodes().iter().enumerate() {
        if let Some(solvable) = node.solvable() {
            let name = interner.solvable_name(solvable);
            found.push(profile_of(alloc, graph, NodeIndex(index), solvable, name)?)?;
        }
    }
    Ok(found)
}

/// The profile of a version with its package.
fn profile_of<N: Copy, S: Copy + Exact + Hash>(
    alloc: Global,
    graph: &ConflictGraph<S>,
    node: NodeIndex,
    solvable: S,
    name: N,
) -> R<Profile<N, S>>
    ensures profile { IfOk result (IsProfile graph.now (λ s. name) (node, solvable)) }
    ensures refusal { IsOkUnless result Memory }
{
    Ok(Profile {
        solvable,
        likeness: Likeness {
            name,
            before: neighbours_before(alloc, graph, node)?,
            after: neighbours_after(alloc, graph, node)?,
        },
    })
}

/// The sources of the edges to a node, each with its requirement, in the order of neighbours.
fn neighbours_before<S: Copy + Exact + Hash>(
    alloc: Global,
    graph: &ConflictGraph<S>,
    node: NodeIndex,
) -> R<Vec<(Option<Requirement>, NodeIndex)>>
    ensures order { IfOk result (λ v. IsInOrder (before graph.now node) v.items) }
    ensures refusal { IsOkUnless result Memory }
{
    let edges = graph.list_edges_to(alloc, node)?;
    in_order(alloc, sources(alloc, &edges)?)
}

/// The targets of the edges of a node, each with its requirement, in the order of neighbours.
fn neighbours_after<S: Copy + Exact + Hash>(
    alloc: Global,
    graph: &ConflictGraph<S>,
    node: NodeIndex,
) -> R<Vec<(Option<Requirement>, NodeIndex)>>
    ensures order { IfOk result (λ v. IsInOrder (after graph.now node) v.items) }
    ensures refusal { IsOkUnless result Memory }
{
    let edges = graph.list_edges(alloc, node)?;
    in_order(alloc, targets(alloc, &edges)?)
}

/// The sources of some edges, each with its requirement.
fn sources<S: Copy>(alloc: Global, edges: &[Edge<S>]) -> R<Vec<(Option<Requirement>, NodeIndex)>>
    ensures ends { IfOk result (λ v. v.items ≡ map (λ e. (requirement_of e.weight, e.source))
        edges.now) }
    ensures refusal { IsOkUnless result Memory }
{
    let mut found = Vec::new(alloc);
    for edge in edges {
        found.push((edge.weight.requirement(), edge.source))?;
    }
    Ok(found)
}

/// The targets of some edges, each with its requirement.
fn targets<S: Copy>(alloc: Global, edges: &[Edge<S>]) -> R<Vec<(Option<Requirement>, NodeIndex)>>
    ensures ends { IfOk result (λ v. v.items ≡ map (λ e. (requirement_of e.weight, e.target))
        edges.now) }
    ensures refusal { IsOkUnless result Memory }
{
    let mut found = Vec::new(alloc);
    for edge in edges {
        found.push((edge.weight.requirement(), edge.target))?;
    }
    Ok(found)
}

/// The neighbours, sorted.
fn in_order(
    alloc: Global,
    neighbours: Vec<(Option<Requirement>, NodeIndex)>,
) -> R<Vec<(Option<Requirement>, NodeIndex)>>
    ensures order { IfOk result (λ v. IsInOrder neighbours.items v.items) }
    ensures refusal { IsOkUnless result Memory }
{
    let sorted = neighbours.into_iter().sorted(alloc)?;
    Ok(sorted.collect_vec(alloc)?)
}
