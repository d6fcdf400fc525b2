//! The decision queue of CDCL: which requires clauses are undecided under the trail, so that a
//! decision looks at those alone. In resolvo: `src/solver/decide_queue.rs`, and `decide` in
//! `src/solver/mod.rs`.
#![tactic(auto)]

pub mod candidate_count;
pub mod candidate_counts;
pub mod clause_states;
pub mod clauses_by_parent;
pub mod cold_clauses;
pub mod decide_queue;
mod lists_by_index;
mod offer;
pub mod scores;
pub mod undecided_clauses;
