//! The rules that clauses encode. A parent is a solvable, or none for the root.
ghost use Rattle.std.specs.Prelude.{◌≡◌};

use crate::case::Case;
use resolvo_pool_core::id::{StringId, VersionSetId};
use resolvo_pool_core::requirement::{ConditionalRequirement, Requirement};
use std::alloc::AllocError;

/// A requirement of a parent, for a case of its condition.
#[derive(Drop)]
pub struct Need<S> {
    pub parent: Option<S>,
    pub need: ConditionalRequirement,
    pub case: Case,
}

/// The rule that a clause encodes. There may be many digits, so each kind is small, and a need under
/// a condition is named by its index.
pub enum ClauseKind<N, S> {
    /// The root is true.
    InstallRoot,
    /// The parent's requirement, which has no condition, has a chosen match.
    Requires {
        parent: Option<S>,
        requirement: Requirement,
    },
    /// In a case of its condition, the parent's requirement has a chosen match.
    RequiresIf {
        need: u32,
    },
    /// The solvable opens the gate of its requirement, which has no condition.
    RequiresGate {
        solvable: S,
        requirement: Requirement,
    },
    /// An open gate's requirement has a chosen match.
    GateRequires {
        requirement: Requirement,
    },
    /// The parent's version set forbids the solvable.
    Constrains {
        parent: Option<S>,
        version_set: VersionSetId,
        excluded: S,
    },
    /// The parent's version set forbids whatever is outside it.
    ConstrainsParent {
        parent: Option<S>,
        version_set: VersionSetId,
    },
    /// The solvable is outside the version set.
    ConstrainsExcluded {
        version_set: VersionSetId,
        excluded: S,
    },
    /// Another solvable is locked, which forbids this one.
    Lock {
        locked: S,
        other: S,
    },
    /// An exclusion, or unknown dependencies, forbid the solvable.
    Excluded {
        solvable: S,
        reason: StringId,
    },
    /// The digit of the solvable's place among those of its package, both counted from 0.
    ForbidMultipleInstances {
        name: N,
        solvable: S,
        place: u32,
        bit: u32,
    },
    /// The solvable is a candidate of the package.
    AnyOf {
        name: N,
        solvable: S,
    },
    /// The solvable matches the version set, whose package is marked `many`.
    AnyMatch {
        version_set: VersionSetId,
        solvable: S,
    },
    /// No rule: the clause follows from its antecedents.
    Learnt,
}

impl<N: Copy, S: Copy> Clone for ClauseKind<N, S> {
    ghost is_clone = { λ x y. y ≡ x };

    ghost is_infallible = { λ _. Unit {0} };

    fn clone(&self) -> Result<ClauseKind<N, S>, AllocError> {
        Ok(*self)
    }
}

impl<N: Copy, S: Copy> Copy for ClauseKind<N, S> {}

impl<N, S> ClauseKind<N, S> {
    /// Whether a new clause of this kind sets its last literal at once: the others are false, and
    /// this one has no value.
    pub fn sets_at_once(&self) -> bool {
        match self {
            ClauseKind::RequiresGate { .. }
            | ClauseKind::GateRequires { .. }
            | ClauseKind::ConstrainsExcluded { .. }
            | ClauseKind::ForbidMultipleInstances { .. }
            | ClauseKind::AnyOf { .. }
            | ClauseKind::AnyMatch { .. } => true,
            _ => false,
        }
    }
}
