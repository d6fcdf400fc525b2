//! The CDCL core with its variable map and the kind of each clause: a rule, at most one version of
//! a package, or learnt. In resolvo: `SolverState` in `src/solver/mod.rs`,
//! `src/solver/variable_map.rs` and `src/solver/clause.rs`.
#![tactic(auto)]

pub mod add_clause;
pub mod atom;
pub mod case;
pub mod chosen;
pub mod clause_kind;
pub mod clause_kinds;
mod keys;
pub mod members;
pub mod propagate_and_learn;
pub mod registry;
pub mod solver_state;
