//! The walk of the graph in post-order, from the root. A node is listed after the targets of its
//! edges, the oldest edge first. It ends on cyclic graphs, since each node is entered once.
ghost use Rattle.std.specs.Prelude.{◌≡◌, ◌++◌, ◌∷◌, [], IfOk, OnOk, IsOkUnless, cond, map};
ghost use Rattle.resolvo_pool_core.specs.declared.want.Want.TheVariants.{Memory};
ghost use Rattle.resolvo_graph.specs.Graph.{edges_of};
ghost use Rattle.resolvo_graph.specs.Walk.{IsPostOrder, is_among};
ghost use Rattle.resolvo_graph.specs.Steps.{steps_into};
ghost use Rattle.resolvo_graph.specs.declared.walk.Step.TheVariants.{Enter};

use crate::graph::{ConflictGraph, Edge, NodeIndex};
use indexmap::IndexSet;
use resolvo_pool_core::id::Exact;
use resolvo_pool_core::want::R;
use std::alloc::Global;
use std::hash::Hash;

/// A step of the walk.
#[derive(Clone, Copy)]
pub(crate) enum Step {
    Enter(NodeIndex),
    /// All nodes below it were visited.
    Leave(NodeIndex),
}

/// The state of a walk.
#[derive(Drop)]
struct Walk {
    /// The nodes that were entered.
    seen: IndexSet<NodeIndex>,
    order: Vec<NodeIndex>,
    /// The remaining steps, the next one at the end.
    stack: Vec<Step>,
}

/// The nodes that the root reaches, in post-order.
pub(crate) fn post_order<S: Copy + Exact + Hash>(
    alloc: Global,
    graph: &ConflictGraph<S>,
) -> R<Vec<NodeIndex>>
    ensures order { IfOk result (λ v. IsPostOrder graph.now v.items) }
    ensures refusal { IsOkUnless result Memory }
{
    let mut walk = Walk {
        seen: IndexSet::new(alloc),
        order: Vec::new(alloc),
        stack: Vec::new(alloc),
    };
    walk.run(alloc, graph)?;
    Ok(walk.order)
}

impl Walk {
    /// Walks from the root.
    fn run<S: Copy + Exact + Hash>(&mut self, alloc: Global, graph: &ConflictGraph<S>) -> R<()>
        requires seen { self.old.seen.keys ≡ [] }
        requires order { self.old.order.items ≡ [] }
        requires stack { self.old.stack.items ≡ [] }
        ensures order { OnOk result (IsPostOrder graph.now self.new.order.items) }
        ensures refusal { IsOkUnless result Memory }
    {
        self.stack.push(Step::Enter(graph.root_node()))?;
        while let Some(step) = self.stack.pop() {
            match step {
                Step::Enter(node) => self.enter(alloc, graph, node)?,
                Step::Leave(node) => self.order.push(node)?,
            }
        }
        Ok(())
    }

    /// Enters a node, unless it was seen: pushes the step that leaves it, then its neighbours.
    fn enter<S: Copy + Exact + Hash>(
        &mut self,
        alloc: Global,
        graph: &ConflictGraph<S>,
        node: NodeIndex,
    ) -> R<()>
        ensures seen { OnOk result
            (self.new.seen.keys
            ≡ cond (is_among self.old.seen.keys node) self.old.seen.keys
            (self.old.seen.keys ++ node ∷ [])) }
        ensures stack { OnOk result
            (self.new.stack.items
            ≡ self.old.stack.items ++ steps_into graph.now self.old.seen.keys node) }
        ensures order { self.new.order ≡ self.old.order }
        ensures refusal { IsOkUnless result Memory }
    {
        let (_, new) = self.seen.insert_full(node)?;
        if new {
            self.stack.push(Step::Leave(node))?;
            enter_neighbours(alloc, graph, node, &mut self.stack)?;
        }
        Ok(())
    }
}

/// Pushes the targets of a node's edges, that of the oldest edge last.
fn enter_neighbours<S: Copy + Exact + Hash>(
    alloc: Global,
    graph: &ConflictGraph<S>,
    node: NodeIndex,
    stack: &mut Vec<Step>,
) -> R<()>
    ensures put { OnOk result
        (stack.new.items ≡ stack.old.items ++ map (λ e. Enter e.target) (edges_of graph.now node)) }
    ensures refusal { IsOkUnless result Memory }
{
    let edges = graph.list_edges(alloc, node)?;
    enter_targets(&edges, stack)
}

/// Pushes the targets of some edges, in their order.
fn enter_targets<S: Copy>(edges: &[Edge<S>], stack: &mut Vec<Step>) -> R<()>
    ensures put { OnOk result (stack.new.items ≡ stack.old.items ++ map (λ e. Enter e.target)
        edges.now) }
    ensures refusal { IsOkUnless result Memory }
{
    for edge in edges {
        stack.push(Step::Enter(edge.target))?;
    }
    Ok(())
}
