//! Texts of catalogues and requests: devices that give and take bytes, lines, and the parser of one
//! line.
//!
//! `LineReader` reads the lines of a text from a `Source`, and `line_in` parses a line. The readers
//! of whole texts, in the crates above, check which line may follow which.
#![tactic(auto)]

mod alternatives;
mod condition;
mod device;
mod growing_sink;
mod line;
mod lines;
mod memory;
mod parse;
mod spec;
mod words;
mod write;

pub use alternatives::Alternatives;
pub use condition::{Cond, DEEPEST, Joint, MOST_SPECS, cases_are_exact, cases_in, holds};
pub use device::{Counted, IoFault, Sink, Source};
pub use growing_sink::GrowingSink;
pub use line::{Line, LineFault};
pub use lines::{LineReader, ReadFault};
pub use memory::{MemorySink, MemorySource};
pub use parse::{
    alternatives_at, first_word, is_skipped, last_number, limits_words, line_in, listed_words,
    name_of, needs_words, next_word, no_more, number_of, reason_at, skip, span_at, spec_at,
    text_is_one_line, version_at, word_at,
};
pub use spec::{Span, Spec, Version, is_in_span, is_member, is_met, is_met_by_one, matches};
pub use words::{is_name, number_in, span_in};
pub use write::{WriteFault, write_all};
