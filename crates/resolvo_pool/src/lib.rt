//! A provider's answers, each asked for once, and copies of small values by key.
#![tactic(auto)]

pub mod cache;
pub mod frozen_copy_map;
mod hinted;
mod id_lists;
mod id_table;
mod places;

pub use cache::{CacheFault, SolverCache};
pub use frozen_copy_map::FrozenCopyMap;
pub use resolvo_intern::pool::{IntoPackageName, PackageName, Pool, Solvable, VersionSet};
pub use resolvo_pool_core::arena::{Arena, ArenaIter, ArenaIterMut};
pub use resolvo_pool_core::condition::{Condition, LogicalOperator};
pub use resolvo_pool_core::display_name::{DisplayName, PackageNames};
pub use resolvo_pool_core::id::{
    CandidatesId, ClauseId, ConditionId, DenseId, DenseIndex, DependenciesId, DisjunctionId, Exact,
    LearntClauseId, NameId, NameTag, SolvableId, SolvableTag, SparseId, StringId, VariableId,
    VersionSetId, VersionSetUnionId,
};
pub use resolvo_pool_core::id_map::{IdMap, IdSet, OneDefault, OptionalNumber, ScoreMap};
pub use resolvo_pool_core::indexed_set::IndexedSet;
pub use resolvo_pool_core::mapping::{Mapping, MappingIter};
pub use resolvo_pool_core::provider::{
    Candidates, Dependencies, DependencyProvider, HintDependenciesAvailable, Interner,
    KnownDependencies,
};
pub use resolvo_pool_core::requirement::{
    ConditionalRequirement, DisplayRequirement, Requirement, RequirementMap,
};
pub use resolvo_pool_core::solver_id::{
    DisplaySolvableIdOrRoot, SolvableIdOrRoot, SolverId, WithRootSet,
};
pub use resolvo_pool_core::want::{R, Want};
