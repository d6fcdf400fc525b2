//! Reports: their lines, and how they are written and read.
//!
//! A report lists the versions to install, or it is a refusal with the steps of its proof.
//! Its model is the value of specs/Value.antt, by the view of specs/View.antt.
#![tactic(auto)]

mod answer_text;
mod grammar;
mod laws;
mod parse;
mod parse_part;
mod reader;
mod report;
mod step;
mod text;
mod write;

pub use answer_text::{
    VersionRef, push_left_out, push_needed, push_requested, push_steps, push_wished,
};
pub use grammar::Part;
pub use laws::{reports_are_read, text_is_one_report};
pub use reader::{ReportFault, ReportReader};
pub use report::{AnswerLine, Report, ReportLine};
pub use step::{Atom, Literal, Place, Step};
pub use write::ReportWriteFault;
