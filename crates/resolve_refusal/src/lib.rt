//! The refusal of a proof, and the steps of an install report that leaves wishes out.
//!
//! A proof has ids of a provider over a catalogue. Here each step becomes one of a report:
//! packages, versions and SPECs by their texts, and each rule by its first line. The program writes
//! the report, and the judge of `resolvo_judge` accepts it.
#![tactic(auto)]

mod first_lines;
mod install;
mod line_index;
mod lines;
mod literals;
mod named_lines;
mod report;
mod rule_keys;
mod steps;

pub use install::{forbid_step, install_steps};
pub use report::{Refusal, refusal_of};
