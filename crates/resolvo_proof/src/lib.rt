//! The proof of a CDCL search, and proof trimming. Each learnt clause has its antecedents in the
//! order of a RUP check, like the hints of LRAT. resolvo keeps the antecedents alone, as
//! `learnt_why` in `src/solver/mod.rs`.
#![tactic(auto)]

pub mod graph;
pub mod link;
mod link_rules;
mod lists_by_key;
pub mod offers;
pub mod proof;
pub mod rules;
mod shared_rules;
pub mod step;
pub mod trim;
mod write;
