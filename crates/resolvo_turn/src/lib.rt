//! The CDCL loop of one turn: encode, assume the soft requirement, propagate, learn, decide, encode
//! what was chosen, until nothing is new. In resolvo: `run_sat` and `resolve_dependencies` in
//! `src/solver/mod.rs`.
#![tactic(auto)]

pub mod cdcl;
pub mod chosen;
pub mod defer_conditions;
pub mod encode;
pub mod fire_conditions;
pub mod forbid;
pub mod named_cases;
pub mod rules;
pub mod scan;
pub mod tasks;
pub mod turn;
pub mod turn_input;
pub mod turn_state;
pub mod waiting_conditions;
