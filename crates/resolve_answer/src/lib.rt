//! From a catalogue and a request to the report of the solver's answer: the turns of a search as
//! those of a report.
#![tactic(auto)]

pub mod answer;
mod head;
pub mod laws;
mod message;
mod message_text;
pub mod stop;
pub mod turns;
pub mod wishes;

pub use resolvo::release::Release;
