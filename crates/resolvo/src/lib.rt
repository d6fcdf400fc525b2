//! The solver: CDCL for the root, then for each soft requirement with the earlier decisions as
//! assumptions; clauses are encoded as packages are chosen. In resolvo: `Problem`, `Solver` and
//! `Solver::solve` in `src/solver/mod.rs`, `Conflict` in `src/conflict.rs`.
#![tactic(auto)]

pub mod conflict;
pub mod problem;
pub mod prove;
pub mod release;
pub mod search;
mod soft_requirements;
pub mod solver;
pub mod turns;

pub use conflict::Conflict;
pub use problem::{EmptySolvables, Problem};
pub use prove::Steps;
pub use release::Release;
pub use resolvo_graph::{
    ConflictCause, ConflictEdge, ConflictGraph, ConflictNode, DisplayUnsat, EdgeIndex,
    MergedConflictNode, NodeIndex,
};
pub use resolvo_pool::{
    Candidates, Condition, ConditionalRequirement, Dependencies, DependencyProvider,
    HintDependenciesAvailable, Interner, KnownDependencies, LogicalOperator, NameId, Pool, R,
    Requirement, SolvableId, SolverCache, SolverId, VersionSetId, VersionSetUnionId, Want,
};
pub use resolvo_proof::step::{ProofLiteral, ProofRule, ProofStep};
pub use resolvo_state::atom::ProofAtom;
pub use solver::{Solver, UnsolvableOrCancelled};
pub use turns::Turn;
