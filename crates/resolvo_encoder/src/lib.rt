//! The encoder: requirements, constraints, locks and conditions become clauses of the CDCL core,
//! and one step propagates and decides over them. In resolvo: `src/solver/encoding.rs`.
#![tactic(auto)]

pub mod at_least_one;
pub mod conditions;
pub mod encoder;
pub mod fired_cases;
pub mod forbid;
pub mod matches;
pub mod place;
pub mod register;
pub mod soft_requirement;
pub mod step;
