//! Cases of a solver: what their texts spell, and its answers beside those that are wanted.
#![tactic(auto)]

pub mod answer;
mod candidates;
mod case;
pub mod cases;
mod compare;
mod ids;
pub mod solver_under_test;
pub mod tally;
mod texts;
