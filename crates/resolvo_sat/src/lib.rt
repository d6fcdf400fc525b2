//! The CDCL core over variables: unit propagation, first-UIP conflict analysis, the backjump with
//! its learnt clause, and final analysis over assumptions. In resolvo: `propagate`, `analyze` and
//! `learn_from_conflict` in `src/solver/mod.rs`.
#![tactic(auto)]

pub mod add_clause;
pub mod add_rule;
pub mod add_ties;
pub mod analyze;
pub mod analyze_final;
pub mod assign;
pub mod backjump;
pub mod begin;
pub mod clause_arena;
pub mod clause_database;
pub mod guard;
pub mod marks;
pub mod propagate;
pub mod propagate_and_learn;
pub mod set_at_once;
pub mod settle_pending;
pub mod state;
mod units_done;
pub mod visit_pending;
pub mod watch_lists;
