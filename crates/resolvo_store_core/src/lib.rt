//! The data structures of a CDCL solver: literals, clauses, the trail by decision levels, watch
//! lists, at-most-one clauses, the better of two decisions. In resolvo: `clause.rs`,
//! `decision_tracker.rs`, `decision_map.rs`, `watch_map.rs`, `binary_encoding.rs` and
//! `conditions.rs` of `src/solver/`.
#![tactic(auto)]

pub mod binary_encoding;
mod candidate_lists;
pub mod conditions;
pub mod decision;
pub mod decision_map;
pub mod decision_tracker;
pub mod lists;
pub mod literal;
pub mod literals;
pub mod pick;
mod small_set;
pub mod store_clause;
pub mod watch_map;
pub mod watched_literals;
pub mod watched_pair;
