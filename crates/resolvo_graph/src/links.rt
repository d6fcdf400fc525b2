//! Linked lists of the edges at a node. Each edge is linked to the one before it that leaves its
//! source, and to the one before it that enters its target. Each node is linked to its newest
//! edges. A walk over the links visits the edges of one node, the newest first.
ghost use Rattle.std.specs.Prelude.{◌≡◌, ℕ, ◌<◌, ◌≤◌, cond, Some, OnOk, IsOkUnless, length, vec_len};
ghost use Rattle.resolvo_pool_core.specs.declared.want.Want.TheVariants.{Memory};
ghost use Rattle.resolvo_graph.specs.declared.links.Side.{Side};
ghost use Rattle.resolvo_graph.specs.Links.{end_on, is_at, link_on, links_of, no_links, exchanged};

use crate::graph::{Edge, EdgeIndex, NodeIndex};
use resolvo_pool_core::want::R;

/// A side of a node.
#[derive(Clone, Copy)]
pub(crate) enum Side {
    /// The edges that leave it.
    Leaving,
    /// The edges that enter it.
    Entering,
}

/// An edge on each side, where there is one.
#[derive(Clone, Copy)]
pub(crate) struct Links {
    leaving: Option<EdgeIndex>,
    entering: Option<EdgeIndex>,
}

/// An edge with two links: to the one before it that leaves its source, and to the one before it
/// that enters its target.
#[derive(Clone, Copy)]
pub(crate) struct LinkedEdge<S> {
    pub(crate) edge: Edge<S>,
    pub(crate) older: Links,
}

impl Links {
    /// The edge on a side.
    pub(crate) fn on(self, side: Side) -> Option<EdgeIndex>
        ensures { result ≡ link_on side self }
    {
        match side {
            Side::Leaving => self.leaving,
            Side::Entering => self.entering,
        }
    }
}

/// Adds empty links until each node below this number has an entry.
pub(crate) fn cover(newest: &mut Vec<Links>, count: usize) -> R<()>
    ensures same { (n : ℕ) → links_of newest.new.items n ≡ links_of newest.old.items n }
    ensures covered { OnOk result (count ≤ vec_len newest.new) }
    ensures refusal { IsOkUnless result Memory }
{
    while newest.len() < count {
        newest.push(Links {
            leaving: None,
            entering: None,
        })?;
    }
    Ok(())
}

/// The newest edge at a node on a side.
pub(crate) fn newest_on(newest: &[Links], node: NodeIndex, side: Side) -> Option<EdgeIndex>
    ensures { result ≡ link_on side (links_of newest.now node.0) }
{
    match newest.get(node.0) {
        Some(links) => links.on(side),
        None => None,
    }
}

/// The newest edges at the ends of the next edge.
pub(crate) fn newest_at_ends<S: Copy>(newest: &[Links], edge: Edge<S>) -> Links
    requires source { edge.source.0 < length newest.now }
    requires target { edge.target.0 < length newest.now }
    ensures { (side : Side)
        → link_on side result ≡ link_on side (links_of newest.now (end_on side edge).0) }
{
    Links {
        leaving: newest[edge.source.0].leaving,
        entering: newest[edge.target.0].entering,
    }
}

/// Makes an edge the newest one at its ends.
pub(crate) fn put_newest<S: Copy>(newest: &mut Vec<Links>, edge: Edge<S>, index: EdgeIndex)
    requires source { edge.source.0 < vec_len newest.old }
    requires target { edge.target.0 < vec_len newest.old }
    ensures { (side : Side) (n : ℕ)
        → link_on side (links_of newest.new.items n)
        ≡ cond (is_at side (record { 0 = n }) edge) (Some index)
        (link_on side (links_of newest.old.items n)) }
{
    newest[edge.source.0].leaving = Some(index);
    newest[edge.target.0].entering = Some(index);
}

/// Swaps the links of the node at `last` with those of an earlier node, which has none.
pub(crate) fn move_links(newest: &mut Vec<Links>, last: usize, place: usize)
    requires order { place ≤ last }
    requires none { links_of newest.old.items place ≡ no_links }
    ensures { (n : ℕ)
        → links_of newest.new.items n ≡ links_of newest.old.items (exchanged place last n) }
{
    if last < newest.len() {
        newest.swap(place, last);
    }
}
