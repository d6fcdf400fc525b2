//! The links of a conflict's rules between versions, the root and reasons: the edges of its graph,
//! before its nodes have indices.
ghost use Rattle.std.specs.Prelude.{◌≡◌};
ghost use Rattle.resolvo_proof.specs.Links.{parent_node, source_of, target_of, weight_of};

use resolvo_graph::graph::{ConflictCause, ConflictEdge, ConflictNode};
use resolvo_pool_core::id::{StringId, VersionSetId};
use resolvo_pool_core::requirement::Requirement;
use std::alloc::AllocError;

/// An edge, by its ends. A parent is a solvable, or none for the root.
pub enum Link<S> {
    /// The solvable is excluded for this reason.
    Excluded {
        solvable: S,
        reason: StringId,
    },
    /// The parent needs this, and this is one of its candidates, or there is none.
    Requires {
        parent: Option<S>,
        requirement: Requirement,
        candidate: Option<S>,
    },
    /// Another solvable is locked, which keeps this one out.
    Locked {
        locked: S,
        barred: S,
    },
    /// A version of a package, behind the one before it, if there is one.
    Instance {
        before: Option<S>,
        solvable: S,
    },
    /// The parent's version set keeps the solvable out.
    Constrains {
        parent: Option<S>,
        version_set: VersionSetId,
        solvable: S,
    },
}

impl<S: Copy> Clone for Link<S> {
    ghost is_clone = { λ x y. y ≡ x };

    ghost is_infallible = { λ _. Unit {0} };

    fn clone(&self) -> Result<Link<S>, AllocError> {
        Ok(*self)
    }
}

impl<S: Copy> Copy for Link<S> {}

/// The node of a parent.
pub(crate) fn parent_node<S: Copy>(parent: Option<S>) -> ConflictNode<S>
    ensures { result ≡ parent_node parent }
{
    match parent {
        None => ConflictNode::Root,
        Some(solvable) => ConflictNode::Solvable(solvable),
    }
}

impl<S: Copy> Link<S> {
    /// The source of the edge. The first version of a package has none.
    pub fn source(self) -> Option<ConflictNode<S>>
        ensures { result ≡ source_of self }
    {
        match self {
            Link::Excluded { solvable, .. } => Some(ConflictNode::Solvable(solvable)),
            Link::Requires { parent, .. } | Link::Constrains { parent, .. } => {
                Some(parent_node(parent))
            }
            Link::Locked { .. } => Some(ConflictNode::Root),
            Link::Instance { before, .. } => before.map(ConflictNode::Solvable),
        }
    }

    /// The target of the edge.
    pub fn target(self) -> ConflictNode<S>
        ensures { result ≡ target_of self }
    {
        match self {
            Link::Excluded { reason, .. } => ConflictNode::Excluded(reason),
            Link::Requires {
                candidate: Some(solvable),
                ..
            } => ConflictNode::Solvable(solvable),
            Link::Requires {
                candidate: None,
                ..
            } => ConflictNode::UnresolvedDependency,
            Link::Locked { barred, .. } => ConflictNode::Solvable(barred),
            Link::Instance { solvable, .. } | Link::Constrains { solvable, .. } => {
                ConflictNode::Solvable(solvable)
            }
        }
    }

    /// The weight of the edge.
    pub fn weight(self) -> ConflictEdge<S>
        ensures { result ≡ weight_of self }
    {
        match self {
            Link::Excluded { .. } => ConflictEdge::Conflict(ConflictCause::Excluded),
            Link::Requires { requirement, .. } => ConflictEdge::Requires(requirement),
            Link::Locked { locked, .. } => ConflictEdge::Conflict(ConflictCause::Locked(locked)),
            Link::Instance { .. } => ConflictEdge::Conflict(ConflictCause::ForbidMultipleInstances),
            Link::Constrains { version_set, .. } => {
                ConflictEdge::Conflict(ConflictCause::Constrains(version_set))
            }
        }
    }
}
