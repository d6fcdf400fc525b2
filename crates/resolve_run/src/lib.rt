//! The program `resolve` with the solver: it turns the bytes of two texts into those of a report.
#![tactic(auto)]

pub mod laws;
mod program;
mod stop;
mod text;

pub use laws::{installs_exactly_if_some_set_keeps_the_rules, the_judge_accepts_each_report};
pub use program::{run, run_with, run_within};
pub use resolve_answer::Release;
pub use resolve_check::check::check;
pub use resolve_check::exit_status::{check_ending, run_ending};
pub use resolve_check::input::{INPUT_LIMIT, read_input, split_input};
pub use resolve_check::outcome::{Checked, Outcome, RunFault};
pub use stop::RunStop;
