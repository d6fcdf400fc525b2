//! The nodes above an entry of a tree, the topmost first. Siblings share them, and a list that is
//! not shared grows in place.
ghost use Rattle.std.specs.Prelude.{◌≡◌, ◌++◌, ◌∷◌, [], IfOk, IsOkUnless};
ghost use Rattle.resolvo_pool_core.specs.declared.want.Want.TheVariants.{Memory};
ghost use Rattle.resolvo_graph.specs.Walk.{is_among};

use crate::graph::NodeIndex;
use resolvo_pool_core::want::R;
use std::alloc::Global;
use std::marker::Model;
use std::rc::Rc;

/// The nodes above an entry.
#[derive(Drop)]
pub(crate) struct Above {
    nodes: Rc<Vec<NodeIndex>>,
}

impl Model for Above {
    ghost use Rattle.std.specs.Prelude.{List};
    ghost use Rattle.resolvo_graph.specs.declared.graph.NodeIndex.{NodeIndex};

    ghost Value = { List NodeIndex };

    ghost view = { λ a. a.nodes.value.items };
}

impl Above {
    /// No node.
    pub(crate) fn none(alloc: Global) -> R<Above>
        ensures nodes { IfOk result (λ a. a ≡ []) }
        ensures refusal { IsOkUnless result Memory }
    {
        Ok(Above {
            nodes: Rc::new(alloc, Vec::new(alloc))?,
        })
    }

    /// The same nodes, for a sibling.
    pub(crate) fn share(&self) -> R<Above>
        ensures nodes { IfOk result (λ a. a ≡ self.now) }
        ensures refusal { IsOkUnless result Memory }
    {
        Ok(Above {
            nodes: self.nodes.clone()?,
        })
    }

    /// These nodes with one more below them.
    pub(crate) fn with(self, alloc: Global, node: NodeIndex) -> R<Above>
        ensures nodes { IfOk result (λ a. a ≡ self ++ node ∷ []) }
        ensures refusal { IsOkUnless result Memory }
    {
        let mut nodes = self.own(alloc)?;
        nodes.push(node)?;
        Ok(Above {
            nodes: Rc::new(alloc, nodes)?,
        })
    }

    /// The list itself, or a copy where it is shared.
    fn own(self, alloc: Global) -> R<Vec<NodeIndex>>
        ensures nodes { IfOk result (λ v. v.items ≡ self) }
        ensures refusal { IsOkUnless result Memory }
    {
        match Rc::try_unwrap(self.nodes) {
            Ok(nodes) => Ok(nodes),
            Err(shared) => Ok(Vec::from_slice(alloc, shared.as_slice())?),
        }
    }

    /// Whether a node is among these.
    pub(crate) fn contains(&self, node: &NodeIndex) -> bool
        ensures { result ≡ is_among self.now node.now }
    {
        self.nodes.contains(node)
    }
}
