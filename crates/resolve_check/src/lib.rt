//! The program `resolve` without the solver. It checks a report, splits standard input, names the
//! faulty line of a text, and has the statuses and last lines of the program.
#![tactic(auto)]

pub mod check;
pub mod exit_status;
pub mod input;
pub mod outcome;
pub mod read_fault;
