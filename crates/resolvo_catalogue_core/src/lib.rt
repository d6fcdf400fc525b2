//! Catalogues and requests: reading them, and the questions about them.
#![tactic(auto)]

mod catalogue;
mod kept_lines;
mod kept_rule;
mod laws;
mod line_table;
mod lines_by_version;
mod obey;
mod package;
mod package_table;
mod pick;
mod request;
mod request_lines;
mod rule;
mod stored_lines;
mod table;
mod version_list;
mod versions;

pub use catalogue::Catalogue;
pub use kept_lines::KeptLines;
pub use kept_rule::KeptRule;
pub use laws::{
    catalogue_has_no_fault, request_has_no_fault, text_is_one_catalogue, text_is_one_request,
};
pub use request::Request;
pub use resolvo_text::{
    Alternatives, Cond, Counted, IoFault, LineReader, MemorySink, MemorySource, ReadFault, Sink,
    Source, Span, Spec, Version, WriteFault, cases_are_exact, is_in_span, write_all,
};
pub use rule::{FoundRule, Rule, VersionNo, found};
pub use versions::{KeptVersion, Versions};
