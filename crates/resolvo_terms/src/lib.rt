//! Names, SPECs, lists of alternatives, conditions and words by numbers.
#![tactic(auto)]

mod bytes;
mod compare;
mod decode;
mod hash;
mod key_index;
mod names;
mod numbered;
mod place;
mod read;
mod read_condition;
mod set_lists;
mod slots;
mod terms;
mod text_ids;
mod text_list;
mod unions;

pub use place::place_of;
pub use terms::{Numbers, Terms};
