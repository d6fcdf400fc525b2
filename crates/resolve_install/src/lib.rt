//! The text of the install report of the turns of a search over a catalogue.
#![tactic(auto)]

mod install;
mod numbers;

pub use install::install_text;
pub use numbers::numbers_of;
