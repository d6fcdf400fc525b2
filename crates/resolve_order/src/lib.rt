//! The order in which chosen versions are listed in a report, each with the line that asked for it.
#![tactic(auto)]

mod chosen;
mod entry;
mod install_order;
mod key_numbers;
mod key_places;
mod need;
mod open_lines;
mod package_lines;
mod version_table;

pub use entry::{Answer, Entry, Reason, Turn};
pub use install_order::list;
