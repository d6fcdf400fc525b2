//! Graphs that are copied, and that lose their unresolved node.

use super::sample::{Link, Place, drawn, message, message_of};
use resolvo_graph::{
    ConflictCause, ConflictEdge, ConflictGraph, ConflictNode, EdgeIndex, NodeIndex,
};
use resolvo_pool::{R, SolvableId, StringId, VersionSetId};
use std::alloc::Global;
use std::process::Abort;
use std::test::Fail;

const ROOT: Place = Place::Root;

/// The message of the copy of a graph.
fn message_of_copy(alloc: Global, graph: &ConflictGraph) -> R<String> {
    message(alloc, &graph.clone(alloc)?)
}

/// The message of the copy of a drawing.
fn copied_message(alloc: Global, links: &[Link]) -> R<String> {
    message_of_copy(alloc, &drawn(alloc, links)?)
}

/// The drawing's copy has this message.
fn copy_has(rt: &impl Abort, alloc: Global, links: &[Link], message: &str) -> Result<(), Fail> {
    let copied = copied_message(alloc, links)?;
    assert_eq!(rt; copied.as_str(), message);
    Ok(())
}

/// The drawing and its copy have one message.
fn copies_are_equal(rt: &impl Abort, alloc: Global, links: &[Link]) -> Result<(), Fail> {
    copy_has(rt, alloc, links, message_of(alloc, links)?.as_str())
}

#[test]
fn clone_is_equal(rt: HostRuntime) -> Result<(), Fail> {
    let links = [
        Link::Needs(ROOT, 1_000_100, Place::Version(142)),
        Link::Needs(Place::Version(142), 3_000_054, Place::Version(353)),
        Link::Needs(ROOT, 3_054_100, Place::Version(354)),
        Link::Forbids(Place::Version(354), Place::Version(353)),
    ];
    copies_are_equal(&rt, rt.alloc(), &links)
}

/// Where the first edge leads.
fn first_target(graph: &ConflictGraph) -> Option<NodeIndex> {
    match graph.edge(EdgeIndex(0)) {
        Some(edge) => Some(edge.target),
        None => None,
    }
}

fn adds_nodes_once(rt: &impl Abort, graph: &mut ConflictGraph) -> Result<(), Fail> {
    let version = ConflictNode::Solvable(SolvableId::from_raw(1));
    assert_eq!(rt; graph.add_node(ConflictNode::Root)?, graph.root_node());
    assert_eq!(rt; graph.add_node(version)?, NodeIndex(1));
    assert_eq!(rt; graph.add_node(version)?, NodeIndex(1));
    assert_eq!(rt; graph.nodes().len(), 2);
    assert!(rt; graph.node(NodeIndex(2)).is_none());
    assert!(rt; graph.edge(EdgeIndex(0)).is_none());
    Ok(())
}

#[test]
fn nodes_are_added_once(rt: HostRuntime) -> Result<(), Fail> {
    adds_nodes_once(&rt, &mut ConflictGraph::new(rt.alloc())?)
}

/// An unresolved node with an edge stays.
fn keeps_unresolved(rt: &impl Abort, graph: &mut ConflictGraph) {
    graph.remove_unused_unresolved();
    assert_eq!(rt; graph.unresolved_node(), Some(NodeIndex(2)));
}

/// Adds an unresolved node without an edge, then a reason, then a version that the root forbids.
fn draw_unused(graph: &mut ConflictGraph) -> R<NodeIndex> {
    graph.add_node(ConflictNode::UnresolvedDependency)?;
    graph.add_node(ConflictNode::Excluded(StringId(0)))?;
    let version = graph.add_node(ConflictNode::Solvable(SolvableId::from_raw(1)))?;
    let root = graph.root_node();
    if graph.has_node(root) && graph.has_node(version) {
        let weight = ConflictEdge::Conflict(ConflictCause::Constrains(VersionSetId(0)));
        graph.add_edge(root, version, weight)?;
    }
    Ok(version)
}

/// An unresolved node without an edge goes.
fn loses_unresolved(rt: &impl Abort, graph: &mut ConflictGraph) -> Result<(), Fail> {
    let version = draw_unused(graph)?;
    graph.remove_unused_unresolved();
    assert_eq!(rt; first_target(graph), Some(NodeIndex(1)));
    assert_eq!(rt; graph.unresolved_node(), None);
    assert_eq!(rt; graph.nodes().len(), 3);
    assert!(rt; graph.node(NodeIndex(1)) == Some(ConflictNode::Solvable(SolvableId::from_raw(1))));
    assert!(rt; !graph.has_node(version));
    Ok(())
}

#[test]
fn unused_unresolved_node(rt: HostRuntime) -> Result<(), Fail> {
    let links = [
        Link::Needs(Place::Version(5), 0, Place::Unresolved),
        Link::Needs(ROOT, 0, Place::Version(1)),
    ];
    keeps_unresolved(&rt, &mut drawn(rt.alloc(), &links)?);
    loses_unresolved(&rt, &mut ConflictGraph::new(rt.alloc())?)
}
