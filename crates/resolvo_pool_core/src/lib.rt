//! Ids and the containers that they index, and the traits of a provider with their laws. The CDCL
//! solver and its clauses are built on them. In resolvo these are `src/internal/`, `Interner` and
//! `DependencyProvider`.
#![tactic(auto)]

pub mod arena;
pub mod condition;
pub mod display_name;
pub mod flat_lists;
pub mod id;
pub mod id_map;
pub mod indexed_set;
pub mod mapping;
pub mod ordered_set;
pub mod provider;
pub mod requirement;
pub mod solver_id;
pub mod want;
