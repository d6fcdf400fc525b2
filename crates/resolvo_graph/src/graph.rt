//! The conflict graph: the versions, requirements and exclusions on which a conflict rests.
//! The model is the list of nodes and the list of edges, each in the order of insertion. The solver
//! builds it from a conflict; the message is written from it. The edges of a node are linked, so
//! that they are found without a search through all edges.
ghost use Rattle.std.specs.Prelude.{◌≡◌, ◌<◌, ◌++◌, ◌∷◌, [], IfOk, OnOk, OnErr, IsOkUnless, length, map, filter, reverse, slice_get, Some, None, nat_lt};
ghost use Rattle.std.specs.List.{position_or_len};
ghost use Rattle.indexmap.specs.IndexSet.{insert_key};
ghost use Rattle.resolvo_pool_core.specs.declared.want.Want.TheVariants.{Memory};
ghost use Rattle.resolvo_graph.specs.declared.graph.ConflictNode.TheVariants.{Root};
ghost use Rattle.resolvo_graph.specs.Removal.{has_edge_at, moved, with_ends_moved, without_unused_unresolved};
ghost use Rattle.std.specs.Iterator.{YieldsFirst, item_count};
ghost use Rattle.resolvo_graph.specs.Links.{is_at, newest_of, up_to, IsOn, linked_with_ends_moved};
ghost use Rattle.resolvo_graph.specs.Graph.{edges_of, edges_to, requirement_of, is_conflict, is_exclusion, is_forbidden, admitted_by, is_unresolved, is_unresolved_at, unresolved_of, is_excluding};

use crate::links::{
    LinkedEdge, Links, Side, cover, move_links, newest_at_ends, newest_on, put_newest,
};
use indexmap::IndexSet;
use resolvo_pool_core::id::{Exact, SolvableId, StringId, VersionSetId};
use resolvo_pool_core::requirement::Requirement;
use resolvo_pool_core::want::R;
use std::alloc::Global;
use std::hash::Hash;
use std::marker::Model;

/// The index of a node.
#[derive(Clone, Copy, Debug, PartialEq, Eq, PartialOrd, Ord, Hash)]
pub struct NodeIndex(pub usize);

/// The index of an edge.
#[derive(Clone, Copy, Debug, PartialEq, Eq, PartialOrd, Ord, Hash)]
pub struct EdgeIndex(pub usize);

/// A node of the graph.
#[derive(Clone, Copy, Debug, PartialEq, Eq, Hash)]
pub enum ConflictNode<S = SolvableId> {
    /// The problem itself.
    Root,
    Solvable(S),
    /// The target of requirements without candidates.
    UnresolvedDependency,
    /// The reason why some versions are excluded.
    Excluded(StringId),
}

/// The weight of an edge: a requirement or a conflict.
#[derive(Clone, Copy, Debug, PartialEq, Eq, PartialOrd, Ord, Hash)]
pub enum ConflictEdge<S = SolvableId> {
    /// The source requires this; the target is a candidate, or the unresolved node.
    Requires(Requirement),
    /// The source is in conflict with the target.
    Conflict(ConflictCause<S>),
}

/// Why an edge's source is in conflict with its target.
#[derive(Clone, Copy, Debug, PartialEq, Eq, PartialOrd, Ord, Hash)]
pub enum ConflictCause<S = SolvableId> {
    /// This other version is locked.
    Locked(S),
    /// The source admits only what matches this version set, and the target doesn't.
    Constrains(VersionSetId),
    /// Both are versions of one package.
    ForbidMultipleInstances,
    /// The target is the reason why the source is excluded.
    Excluded,
}

/// An edge between two nodes.
#[derive(Clone, Copy, Debug)]
pub struct Edge<S = SolvableId> {
    pub source: NodeIndex,
    pub target: NodeIndex,
    pub weight: ConflictEdge<S>,
}

impl<S: Copy> ConflictEdge<S> {
    /// The requirement of the source, unless this is a conflict.
    pub fn requirement(self) -> Option<Requirement>
        ensures { result ≡ requirement_of self }
    {
        match self {
            ConflictEdge::Requires(requirement) => Some(requirement),
            ConflictEdge::Conflict(_) => None,
        }
    }

    /// Whether this is a conflict.
    pub fn is_conflict(self) -> bool
        ensures { result ≡ is_conflict self }
    {
        matches!(self, ConflictEdge::Conflict(_))
    }

    /// Whether both ends are versions of one package.
    pub fn is_forbidden(self) -> bool
        ensures { result ≡ is_forbidden self }
    {
        matches!(
            self,
            ConflictEdge::Conflict(ConflictCause::ForbidMultipleInstances)
        )
    }

    /// The version set that the source admits alone.
    pub fn admitted(self) -> Option<VersionSetId>
        ensures { result ≡ admitted_by self }
    {
        match self {
            ConflictEdge::Conflict(ConflictCause::Constrains(version_set)) => Some(version_set),
            _ => None,
        }
    }

    /// Whether the target is the reason why the source is excluded.
    pub fn is_exclusion(self) -> bool
        ensures { result ≡ is_exclusion self }
    {
        matches!(self, ConflictEdge::Conflict(ConflictCause::Excluded))
    }
}

impl<S: Copy> ConflictNode<S> {
    /// Whether this is the target of requirements without candidates.
    pub fn is_unresolved(self) -> bool
        ensures { result ≡ is_unresolved self }
    {
        matches!(self, ConflictNode::UnresolvedDependency)
    }
}

/// The conflict graph. Node 0 is the root, no two nodes are equal, and each edge is between nodes.
#[derive(Drop)]
pub struct ConflictGraph<S: Eq + Hash = SolvableId> {
    nodes: IndexSet<ConflictNode<S>>,
    /// For each node its newest edges; for a node past the end there are none.
    newest: Vec<Links>,
    edges: Vec<LinkedEdge<S>>,
}

impl<S: Eq + Hash> Model for ConflictGraph<S> {
    ghost use Rattle.std.specs.Prelude.{◌≡◌, slice_get, Some, All};
    ghost use Rattle.resolvo_graph.specs.Graph.{Graph, IsWithin};
    ghost use Rattle.resolvo_graph.specs.Links.{edges_in, AreLinked};
    ghost use Rattle.resolvo_graph.specs.declared.graph.ConflictNode.TheVariants.{Root};

    ghost Value = { Graph S };

    ghost view = { λ g. record { nodes = g.nodes.keys; edges = edges_in g.edges.items } };

    ghost invariant = { λ g.
        (slice_get g.nodes.keys 0 ≡ Some Root)
        × All (IsWithin g.nodes.keys) (edges_in g.edges.items)
        × AreLinked g.newest.items g.edges.items };
}

impl<S: Copy + Exact + Hash> ConflictGraph<S> {
    /// The graph of the root alone.
    pub fn new(alloc: Global) -> R<ConflictGraph<S>>
        ensures graph { IfOk result (λ g. g ≡ record { nodes = Root ∷ []; edges = [] }) }
        ensures refusal { IsOkUnless result Memory }
    {
        let mut nodes = IndexSet::new(alloc);
        nodes.insert_full(ConflictNode::Root)?;
        Ok(ConflictGraph {
            nodes,
            newest: Vec::new(alloc),
            edges: Vec::new(alloc),
        })
    }

    /// Appends a node, unless the graph has an equal one, and returns its index.
    pub fn add_node(&mut self, node: ConflictNode<S>) -> R<NodeIndex>
        ensures index { IfOk result
            (λ i. i.0 ≡ position_or_len (⟦<ConflictNode<S> as PartialEq>⟧.eq node) self.old.nodes) }
        ensures put { OnOk result
            (self.new
            ≡ record self.old
            { nodes = insert_key ⟦<ConflictNode<S> as PartialEq>⟧.eq self.old.nodes node }) }
        ensures err { OnErr result (self.new ≡ self.old) }
        ensures refusal { IsOkUnless result Memory }
    {
        let (index, _) = self.nodes.insert_full(node)?;
        Ok(NodeIndex(index))
    }

    /// Whether there is a node of this index.
    pub fn has_node(&self, node: NodeIndex) -> bool
        ensures { result ≡ nat_lt node.0 (length self.now.nodes) }
    {
        node.0 < self.nodes.len()
    }

    /// Appends an edge.
    pub fn add_edge(
        &mut self,
        source: NodeIndex,
        target: NodeIndex,
        weight: ConflictEdge<S>,
    ) -> R<EdgeIndex>
        requires source { source.0 < length self.old.nodes }
        requires target { target.0 < length self.old.nodes }
        // The edge is the last one.
        ensures index { IfOk result (λ i. i.0 ≡ length self.old.edges) }
        ensures put { OnOk result
            (self.new
            ≡ record self.old {
              edges = self.old.edges ++ record {
                source = source;
                target = target;
                weight = weight;
              } ∷ [];
            }) }
        // After a refusal.
        ensures err { OnErr result (self.new ≡ self.old) }
        ensures refusal { IsOkUnless result Memory }
    {
        cover(&mut self.newest, self.nodes.len())?;
        let edge = Edge {
            source,
            target,
            weight,
        };
        let older = newest_at_ends(&self.newest, edge);
        let index = EdgeIndex(self.edges.len());
        self.edges.push(LinkedEdge { edge, older })?;
        put_newest(&mut self.newest, edge, index);
        Ok(index)
    }

    /// The index of the root: the node of the problem itself.
    pub fn root_node(&self) -> NodeIndex
        ensures { result.0 ≡ 0 }
    {
        NodeIndex(0)
    }

    /// The unresolved node, if there is one.
    pub fn unresolved_node(&self) -> Option<NodeIndex>
        ensures { result ≡ unresolved_of self.now }
    {
        for (index, node) in self.nodes.as_slice().iter().enumerate() {
            if node.is_unresolved() {
                return Some(NodeIndex(index));
            }
        }
        None
    }

    /// Whether a node is the unresolved one.
    pub fn is_unresolved(&self, node: NodeIndex) -> bool
        ensures { result ≡ is_unresolved_at self.now node }
    {
        match self.nodes.get_index(node.0) {
            Some(node) => node.is_unresolved(),
            None => false,
        }
    }

    /// The node of an index.
    pub fn node(&self, node: NodeIndex) -> Option<ConflictNode<S>>
        ensures { result ≡ slice_get self.now.nodes node.0 }
    {
        match self.nodes.get_index(node.0) {
            Some(node) => Some(*node),
            None => None,
        }
    }

    /// The edge of an index.
    pub fn edge(&self, edge: EdgeIndex) -> Option<Edge<S>>
        ensures { result ≡ slice_get self.now.edges edge.0 }
    {
        match self.edges.get(edge.0) {
            Some(linked) => Some(linked.edge),
            None => None,
        }
    }

    /// The edges that leave a node, the newest first.
    pub fn edges(&self, node: NodeIndex) -> Edges<'_, S>
        ensures { result ≡ edges_of self.now node }
    {
        self.edges_at(node, Side::Leaving)
    }

    /// The edges that leave a node, the newest first, as a list.
    pub(crate) fn list_edges(&self, alloc: Global, node: NodeIndex) -> R<Vec<Edge<S>>>
        ensures edges { IfOk result (λ v. v.items ≡ edges_of self.now node) }
        ensures refusal { IsOkUnless result Memory }
    {
        listed(alloc, self.edges(node))
    }

    /// The edges that enter a node, the oldest first, as a list.
    pub(crate) fn list_edges_to(&self, alloc: Global, node: NodeIndex) -> R<Vec<Edge<S>>>
        ensures edges { IfOk result (λ v. v.items ≡ edges_to self.now node) }
        ensures refusal { IsOkUnless result Memory }
    {
        let mut found = listed(alloc, self.edges_at(node, Side::Entering))?;
        found.reverse();
        Ok(found)
    }

    /// The edges at a node on one side, the newest first.
    fn edges_at(&self, node: NodeIndex, side: Side) -> Edges<'_, S>
        ensures { result ≡ reverse (filter (is_at side node) self.now.edges) }
    {
        Edges {
            graph: self,
            node,
            side,
            next: self.newest_at(node, side),
        }
    }

    /// An edge at a node on one side, and the one before it there.
    fn edge_and_older(
        &self,
        node: NodeIndex,
        side: Side,
        place: EdgeIndex,
    ) -> (Edge<S>, Option<EdgeIndex>)
        requires at { IsOn (is_at side node) self.now.edges (Some place) (length self.now.edges) }
        ensures edge { filter (is_at side node) (up_to (Some place) self.now.edges)
            ≡ filter (is_at side node) (up_to result.1 self.now.edges) ++ result.0 ∷ [] }
        ensures older { IsOn (is_at side node) self.now.edges result.1 (length self.now.edges) }
    {
        let linked = &self.edges[place.0];
        (linked.edge, linked.older.on(side))
    }

    /// The newest edge at a node on one side.
    fn newest_at(&self, node: NodeIndex, side: Side) -> Option<EdgeIndex>
        ensures { result ≡ newest_of (is_at side node) self.now.edges (length self.now.edges) }
    {
        newest_on(&self.newest, node, side)
    }

    /// The nodes, each at its index.
    pub fn nodes(&self) -> &[ConflictNode<S>]
        ensures { result.now ≡ self.now.nodes }
    {
        self.nodes.as_slice()
    }

    /// Whether a node is the reason of an exclusion.
    pub fn is_excluding(&self, node: NodeIndex) -> bool
        ensures { result ≡ is_excluding self.now node }
    {
        let mut next = self.newest_at(node, Side::Entering);
        while let Some(EdgeIndex(place)) = next {
            let linked = &self.edges[place];
            if linked.edge.weight.is_exclusion() {
                return true;
            }
            next = linked.older.on(Side::Entering);
        }
        false
    }

    /// Whether an edge enters or leaves a node.
    pub fn has_edge_at(&self, node: NodeIndex) -> bool
        ensures { result ≡ has_edge_at self.now node }
    {
        let leaving = self.newest_at(node, Side::Leaving);
        let entering = self.newest_at(node, Side::Entering);
        leaving.is_some() || entering.is_some()
    }

    /// Removes the unresolved node, unless an edge is at it. The last node gets its index.
    pub fn remove_unused_unresolved(&mut self)
        ensures { self.new ≡ without_unused_unresolved self.old }
    {
        let Some(unresolved) = self.unresolved_node() else {
            return;
        };
        if self.has_edge_at(unresolved) {
            return;
        }
        self.nodes.swap_remove_index(unresolved.0);
        let last = self.nodes.len();
        move_ends(&mut self.edges, last, unresolved.0);
        move_links(&mut self.newest, last, unresolved.0);
    }

    /// A copy of the graph.
    pub fn clone(&self, alloc: Global) -> R<ConflictGraph<S>>
    where
        S: Drop,
        ensures same { IfOk result (λ g. g ≡ self.now) }
        ensures refusal { IsOkUnless result Memory }
    {
        Ok(ConflictGraph {
            nodes: copied(alloc, &self.nodes)?,
            newest: Vec::from_slice(alloc, self.newest.as_slice())?,
            edges: Vec::from_slice(alloc, self.edges.as_slice())?,
        })
    }
}

/// Iterates over the edges at a node on one side, the newest first. Its model is the list of those
/// that are left.
#[derive(Drop)]
pub struct Edges<'a, S: Eq + Hash = SolvableId> {
    graph: &'a ConflictGraph<S>,
    node: NodeIndex,
    side: Side,
    next: Option<EdgeIndex>,
}

impl<'a, S: Eq + Hash> Model for Edges<'a, S> {
    ghost use Rattle.std.specs.Prelude.{List, length, filter, reverse};
    ghost use Rattle.resolvo_graph.specs.declared.graph.Edge.{Edge};
    ghost use Rattle.resolvo_graph.specs.Links.{is_at, up_to, IsOn};

    ghost Value = { List (Edge S) };

    ghost view = { λ e. reverse (filter (is_at e.side e.node) (up_to e.next e.graph.now.edges)) };

    ghost invariant = { λ e.
        IsOn (is_at e.side e.node) e.graph.now.edges e.next (length e.graph.now.edges) };
}

impl<'a, S: Copy + Exact + Hash> Iterator for Edges<'a, S> {
    type Item = Edge<S>;

    ghost next_gives = { YieldsFirst (λ s. s) };

    ghost remaining = { item_count (λ s. s) };

    fn next(&mut self) -> Option<Edge<S>> {
        let (edge, older) = self.graph.edge_and_older(self.node, self.side, self.next?);
        self.next = older;
        Some(edge)
    }
}

/// The edges of an iterator as a list.
fn listed<S: Copy + Exact + Hash>(alloc: Global, edges: Edges<'_, S>) -> R<Vec<Edge<S>>>
    ensures edges { IfOk result (λ v. v.items ≡ edges.entry) }
    ensures refusal { IsOkUnless result Memory }
{
    let mut found = Vec::new(alloc);
    for edge in edges {
        found.push(edge)?;
    }
    Ok(found)
}

/// Moves the ends of edges from the index `last` to the index `place`.
fn move_ends<S: Copy>(edges: &mut Vec<LinkedEdge<S>>, last: usize, place: usize)
    ensures { edges.new.items ≡ map (linked_with_ends_moved last place) edges.old.items }
{
    for linked in edges.iter_mut() {
        *linked = LinkedEdge {
            edge: with_ends_moved(linked.edge, last, place),
            older: linked.older,
        };
    }
}

/// The edge with its ends moved from the index `last` to the index `place`.
fn with_ends_moved<S: Copy>(edge: Edge<S>, last: usize, place: usize) -> Edge<S>
    ensures { result ≡ with_ends_moved last place edge }
{
    Edge {
        source: moved(edge.source, last, place),
        target: moved(edge.target, last, place),
        weight: edge.weight,
    }
}

/// The index of a node after the node at `last` was moved to `place`.
fn moved(node: NodeIndex, last: usize, place: usize) -> NodeIndex
    ensures { result ≡ moved last place node }
{
    if node.0 == last {
        NodeIndex(place)
    } else {
        node
    }
}

/// A copy of a set, in the same order.
fn copied<K: Copy + Eq + Hash>(alloc: Global, keys: &IndexSet<K>) -> R<IndexSet<K>>
where
    K: Drop,
    ensures same { IfOk result (λ s. s.keys ≡ keys.now.keys) }
    ensures refusal { IsOkUnless result Memory }
{
    let mut copy = IndexSet::new(alloc);
    for key in keys.as_slice() {
        copy.insert_full(*key)?;
    }
    Ok(copy)
}
