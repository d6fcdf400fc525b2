//! The steps of a report: the clause of each, whether the step is valid, and whole proofs.
#![tactic(auto)]

pub mod assignment;
pub mod atom;
pub mod atom_ids;
pub mod check_step;
mod clause_atoms;
mod clause_parts;
pub mod clauses;
mod kept_clause;
pub mod line_rule;
pub mod literal;
pub mod proof;
pub mod rule_steps;
mod rup;
pub mod steps;
