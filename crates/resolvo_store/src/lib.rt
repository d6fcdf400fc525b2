//! A clause store with its calls, the origins of variables, and the texts of clauses.
#![tactic(auto)]

pub mod clause_display;
pub mod clause_store;
pub mod store_call;
mod store_run;
pub mod variable_map;

pub use clause_display::{ClauseDisplay, VariableDisplay};
pub use clause_store::ClauseStore;
pub use resolvo_decide::decide_queue::DecideQueue;
pub use resolvo_store_core::binary_encoding::AtMostOnceTracker;
pub use resolvo_store_core::conditions::{DeferredConjunct, convert_conditions_to_dnf};
pub use resolvo_store_core::decision::{Decision, Entry};
pub use resolvo_store_core::decision_map::DecisionMap;
pub use resolvo_store_core::decision_tracker::{Assignments, DecisionTracker, Set};
pub use resolvo_store_core::lists::{Candidate, Disjunction, FixedLists};
pub use resolvo_store_core::literal::Literal;
pub use resolvo_store_core::literals::Literals;
pub use resolvo_store_core::pick::{NeedClause, NextDecision};
pub use resolvo_store_core::store_clause::Clause;
pub use resolvo_store_core::watch_map::{WatchMap, WatchMapCursor};
pub use resolvo_store_core::watched_literals::{Watch, WatchedLiterals};
pub use store_call::{StoreAnswer, StoreCall};
pub use variable_map::{VariableMap, VariableOrigin};
