//! The graph of a conflict: the root, the node of requirements without candidates, and the ends of
//! the links of the rules, in their order.
ghost use Rattle.std.specs.Prelude.{◌≡◌, ◌<◌, ◌++◌, length, IfOk, OnOk, IsOkUnless};
ghost use Rattle.indexmap.specs.IndexSet.{insert_key, insert_all};
ghost use Rattle.resolvo_graph.specs.declared.graph.ConflictNode.{ConflictNode};
ghost use Rattle.resolvo_pool_core.specs.declared.want.Want.TheVariants.{Memory};
ghost use Rattle.resolvo_proof.specs.Offered.{offered_by};
ghost use Rattle.resolvo_proof.specs.Order.{conflict_rules};
ghost use Rattle.resolvo_proof.specs.Tests.{same_node};
ghost use Rattle.resolvo_proof.specs.Links.{ends_of};
ghost use Rattle.resolvo_proof.specs.Truth.{IsTrueConflictGraph};
ghost use Rattle.resolvo_proof.specs.Draw.{index_among, edges_in, drawn, conflict_drawing};

use crate::link::Link;
use crate::link_rules::{each_limit_once, links_of};
use crate::offers::Offers;
use crate::rules::conflict_rules;
use crate::step::ProofStep;
use resolvo_graph::graph::{ConflictGraph, ConflictNode, NodeIndex};
use resolvo_pool_core::id::Exact;
use resolvo_pool_core::provider::Interner;
use resolvo_pool_core::want::R;
use std::alloc::Global;
use std::fmt::Debug;
use std::hash::Hash;

/// The graph of the conflict in which a refutation's steps end, with the offered candidates. Its
/// edges are true if the steps are a proof and the offers are exactly what meets each requirement.
pub fn conflict_graph<I: Interner>(
    alloc: Global,
    interner: &I,
    offers: &Offers<I::SolvableId>,
    steps: &[ProofStep<I::NameId, I::SolvableId>],
) -> R<ConflictGraph<I::SolvableId>>
    ensures graph { IfOk result
        (λ g.
        g
        ≡ conflict_drawing I.NameId.eq I.SolvableId.eq (I.name_of_solvable interner.now)
        (offered_by offers.now) (conflict_rules steps.now)) }
    ensures truth { IfOk result
        (IsTrueConflictGraph I.SolvableId.eq (I.name_of_solvable interner.now)
        (offered_by offers.now) steps.now) }
    ensures refusal { IsOkUnless result Memory }
{
    let order = conflict_rules(alloc, steps)?;
    let links = links_of(alloc, interner, offers, steps, order.as_slice())?;
    let links = each_limit_once(alloc, links.as_slice())?;
    let mut graph = drawn(alloc, links.as_slice())?;
    graph.remove_unused_unresolved();
    Ok(graph)
}

/// The root, the node of requirements without candidates, and the ends of the links.
fn drawn<S: Copy + Exact + Hash + Debug>(alloc: Global, links: &[Link<S>]) -> R<ConflictGraph<S>>
    ensures graph { IfOk result (λ g. g ≡ drawn S.eq links.now) }
    ensures refusal { IsOkUnless result Memory }
{
    let mut graph = ConflictGraph::new(alloc)?;
    put_node(&mut graph, ConflictNode::UnresolvedDependency)?;
    for link in links {
        draw(&mut graph, *link)?;
    }
    Ok(graph)
}

/// Adds the missing nodes of a link, and its edge.
fn draw<S: Copy + Exact + Hash + Debug>(graph: &mut ConflictGraph<S>, link: Link<S>) -> R<()>
    ensures nodes { OnOk result (graph.new.nodes ≡ insert_all (same_node S.eq) graph.old.nodes
        (ends_of link)) }
    ensures edges { OnOk result (graph.new.edges ≡ graph.old.edges
        ++ edges_in S.eq graph.new.nodes link) }
    ensures refusal { IsOkUnless result Memory }
{
    match link.source() {
        Some(source) => {
            let source = put_node(graph, source)?;
            let target = put_node(graph, link.target())?;
            graph.add_edge(source, target, link.weight())?;
        }
        None => {
            put_node(graph, link.target())?;
        }
    }
    Ok(())
}

/// Adds a node after the others, unless it is there. Its index.
fn put_node<S: Copy + Exact + Hash + Debug>(
    graph: &mut ConflictGraph<S>,
    node: ConflictNode<S>,
) -> R<NodeIndex>
    ensures index { IfOk result (λ i. i ≡ index_among S.eq graph.new.nodes node) }
    ensures within { IfOk result (λ i. i.0 < length graph.new.nodes) }
    ensures put { OnOk result
        (graph.new
        ≡ record graph.old { nodes = insert_key (same_node S.eq) graph.old.nodes node }) }
    ensures agrees { (m n : ConflictNode S)
        → ⟦<ConflictNode<S> as PartialEq>⟧.eq m n ≡ same_node S.eq m n }
    ensures refusal { IsOkUnless result Memory }
{
    // split for the prover: error and answer
    let index = graph.add_node(node)?;
    Ok(index)
}
