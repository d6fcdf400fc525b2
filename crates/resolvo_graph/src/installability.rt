//! The nodes that can be installed, and those that miss a candidate.
//! Both are sets of nodes, marked along the walk in post-order. The model is the list of marked
//! nodes, in that order.
ghost use Rattle.std.specs.Prelude.{◌≡◌, IfOk, OnOk, IsOkUnless};
ghost use Rattle.std.specs.List.{list_any, list_all};
ghost use Rattle.resolvo_pool_core.specs.declared.want.Want.TheVariants.{Memory};
ghost use Rattle.resolvo_graph.specs.Graph.{is_conflict};
ghost use Rattle.resolvo_graph.specs.Outlook.{installable_in, missing_in, marked_along, can_be_installed, misses_one, has_target_in, has_targets_in};

use crate::graph::{ConflictGraph, Edge, NodeIndex};
use crate::runs::{Run, runs};
use indexmap::IndexSet;
use resolvo_pool_core::id::Exact;
use resolvo_pool_core::want::R;
use std::alloc::Global;
use std::hash::Hash;

/// The nodes that can be installed: each of their runs has a target that can be.
pub(crate) fn installable<S: Copy + Exact + Hash>(
    alloc: Global,
    graph: &ConflictGraph<S>,
    order: &[NodeIndex],
) -> R<IndexSet<NodeIndex>>
    ensures nodes { IfOk result (λ s. s.keys ≡ installable_in graph.now order.now) }
    ensures refusal { IsOkUnless result Memory }
{
    let mut marked = IndexSet::new(alloc);
    mark_installable(alloc, graph, order, &mut marked)?;
    Ok(marked)
}

/// Marks the nodes of an order that can be installed.
fn mark_installable<S: Copy + Exact + Hash>(
    alloc: Global,
    graph: &ConflictGraph<S>,
    order: &[NodeIndex],
    marked: &mut IndexSet<NodeIndex>,
) -> R<()>
    ensures marked { OnOk result
        (marked.new.keys ≡ marked_along (can_be_installed graph.now) marked.old.keys order.now) }
    ensures refusal { IsOkUnless result Memory }
{
    for node in order {
        if can_install(alloc, graph, marked, *node)? {
            marked.insert_full(*node)?;
        }
    }
    Ok(())
}

/// Whether a node can be installed, where the installable nodes below it are marked.
fn can_install<S: Copy + Exact + Hash>(
    alloc: Global,
    graph: &ConflictGraph<S>,
    marked: &IndexSet<NodeIndex>,
    node: NodeIndex,
) -> R<bool>
    ensures answer { IfOk result (λ b. b ≡ can_be_installed graph.now marked.now.keys node) }
    ensures refusal { IsOkUnless result Memory }
{
    if graph.is_unresolved(node) || graph.is_excluding(node) {
        return Ok(false);
    }
    let edges = graph.list_edges(alloc, node)?;
    if has_conflict(&edges) {
        return Ok(false);
    }
    let runs = runs(alloc, &edges)?;
    Ok(each_has_some(&runs, marked))
}

/// Whether some edge is a conflict.
fn has_conflict<S: Copy>(edges: &[Edge<S>]) -> bool
    ensures { result ≡ list_any (λ e. is_conflict e.weight) edges.now }
{
    edges.iter().any(|edge| edge.weight.is_conflict())
}

/// The nodes that miss a candidate: the unresolved node, and each node with a run all of whose
/// targets miss one.
pub(crate) fn missing<S: Copy + Exact + Hash>(
    alloc: Global,
    graph: &ConflictGraph<S>,
    order: &[NodeIndex],
) -> R<IndexSet<NodeIndex>>
    ensures nodes { IfOk result (λ s. s.keys ≡ missing_in graph.now order.now) }
    ensures refusal { IsOkUnless result Memory }
{
    let mut marked = IndexSet::new(alloc);
    let Some(unresolved) = graph.unresolved_node() else {
        return Ok(marked);
    };
    marked.insert_full(unresolved)?;
    mark_missing(alloc, graph, order, &mut marked)?;
    Ok(marked)
}

/// Marks the nodes of an order that miss a candidate.
fn mark_missing<S: Copy + Exact + Hash>(
    alloc: Global,
    graph: &ConflictGraph<S>,
    order: &[NodeIndex],
    marked: &mut IndexSet<NodeIndex>,
) -> R<()>
    ensures marked { OnOk result
        (marked.new.keys ≡ marked_along (misses_one graph.now) marked.old.keys order.now) }
    ensures refusal { IsOkUnless result Memory }
{
    for node in order {
        if does_miss(alloc, graph, marked, *node)? {
            marked.insert_full(*node)?;
        }
    }
    Ok(())
}

/// Whether a node misses a candidate, where the nodes below it that miss one are marked.
fn does_miss<S: Copy + Exact + Hash>(
    alloc: Global,
    graph: &ConflictGraph<S>,
    marked: &IndexSet<NodeIndex>,
    node: NodeIndex,
) -> R<bool>
    ensures answer { IfOk result (λ b. b ≡ misses_one graph.now marked.now.keys node) }
    ensures refusal { IsOkUnless result Memory }
{
    let edges = graph.list_edges(alloc, node)?;
    if has_conflict(&edges) {
        return Ok(false);
    }
    let runs = runs(alloc, &edges)?;
    Ok(one_has_all(&runs, marked))
}

/// Whether each run has a marked target.
fn each_has_some(runs: &[Run], marked: &IndexSet<NodeIndex>) -> bool
    ensures { result ≡ list_all (has_target_in marked.now.keys) runs.now }
{
    runs.iter().all(|run| has_some(run, marked))
}

/// Whether all targets of some run are marked.
fn one_has_all(runs: &[Run], marked: &IndexSet<NodeIndex>) -> bool
    ensures { result ≡ list_any (has_targets_in marked.now.keys) runs.now }
{
    runs.iter().any(|run| has_all(run, marked))
}

/// Whether a target of a run is marked.
pub(crate) fn has_some(run: &Run, marked: &IndexSet<NodeIndex>) -> bool
    ensures { result ≡ has_target_in marked.now.keys run.now }
{
    run.targets().iter().any(|target| marked.contains(target))
}

/// Whether all targets of a run are marked.
fn has_all(run: &Run, marked: &IndexSet<NodeIndex>) -> bool
    ensures { result ≡ has_targets_in marked.now.keys run.now }
{
    run.targets().iter().all(|target| marked.contains(target))
}
