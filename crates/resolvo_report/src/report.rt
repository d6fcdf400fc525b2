//! Reports and their lines.
//!
//! Their models are in specs/Value.antt. The reader makes them and the writer takes them. The judge
//! reads a report line by line.

use crate::step::{Place, Step};
use resolvo_text::Version;

/// A line of an install report about a version.
#[derive(Debug, Drop)]
pub enum AnswerLine {
    /// The version is installed, since this line of the request or of the version needs it.
    Entry {
        version: Version,
        place: Place,
        line: u32,
    },
    /// The version is installed, since this line of the request wishes it.
    Wished {
        version: Version,
        line: u32,
    },
    /// The wish of this line of the request is left out: the step forbids the version.
    LeftOut {
        version: Version,
        line: u32,
        step: u32,
    },
}

/// A report.
#[derive(Debug, Drop)]
pub enum Report {
    /// A set satisfies the request. The steps forbid the wishes that are left out.
    Install {
        lines: Vec<AnswerLine>,
        steps: Vec<Step>,
    },
    /// No set satisfies the request. The steps refute these lines of the two texts, and the lines
    /// of the message explain it to people.
    Refused {
        catalogue: Vec<u32>,
        request: Vec<u32>,
        steps: Vec<Step>,
        message: Vec<Vec<u8>>,
    },
}

/// One line of a report.
#[derive(Debug, Drop)]
pub enum ReportLine {
    Install,
    Refused,
    Answer(AnswerLine),
    /// A line of the catalogue is named.
    Catalogue { line: u32 },
    /// A line of the request is named.
    Request { line: u32 },
    Step { number: u32, step: Step },
    /// A line of the message, without the sign before it.
    Message { bytes: Vec<u8> },
}
