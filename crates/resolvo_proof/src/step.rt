//! The steps of a proof. A parent is a solvable, or none for the root, whose literal is never
//! written.

use resolvo_pool_core::id::{StringId, VersionSetId};
use resolvo_pool_core::requirement::Requirement;
use resolvo_state::atom::ProofAtom;

/// A rule of the provider, or of the problem's root.
#[derive(Debug, Drop)]
pub enum ProofRule<N, S> {
    /// For this case of its condition, the parent's requirement has a chosen match.
    Needs {
        parent: Option<S>,
        requirement: Requirement,
        case: Vec<VersionSetId>,
    },
    /// The parent opens the gate of its requirement, which has no condition.
    GateOf {
        parent: S,
        requirement: Requirement,
    },
    /// An open gate's requirement has a chosen match.
    Shared {
        requirement: Requirement,
    },
    /// The parent's version set forbids this solvable, or, where none is named, whatever is outside
    /// it.
    Limit {
        parent: Option<S>,
        version_set: VersionSetId,
        barred: Option<S>,
    },
    /// The solvable is outside the version set.
    Outside {
        version_set: VersionSetId,
        solvable: S,
    },
    /// Another solvable is locked, which forbids this one.
    Locked {
        locked: S,
        barred: S,
    },
    /// An exclusion, or unknown dependencies, forbid the solvable.
    Excluded {
        solvable: S,
        reason: StringId,
    },
    /// The digit of the solvable's place among those of its package, both counted from 0.
    Digit {
        solvable: S,
        place: u32,
        bit: u32,
    },
    /// The solvable is a candidate of the package.
    AtLeastOne {
        name: N,
        solvable: S,
    },
    /// The solvable matches the version set, whose package is marked `many`.
    Matches {
        version_set: VersionSetId,
        solvable: S,
    },
}

/// An atom, or its negation.
#[derive(Clone, Copy, Debug, PartialEq, Eq, Hash)]
pub struct ProofLiteral<N, S> {
    pub atom: ProofAtom<N, S>,
    pub positive: bool,
}

/// A step of a proof.
#[derive(Debug, Drop)]
pub enum ProofStep<N, S> {
    /// A rule.
    Rule(ProofRule<N, S>),
    /// A clause that follows from earlier steps, named by their places in the order of a RUP check.
    Derived {
        literals: Vec<ProofLiteral<N, S>>,
        causes: Vec<usize>,
    },
}
