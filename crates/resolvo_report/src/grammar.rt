//! Which line of a report may follow which.
//!
//! The part of a report decides which line may be next (specs/Grammar.antt). The reader of reports
//! calls `next` for each line.

ghost use Rattle.std.specs.Prelude.{◌≡◌, ◌==◌, ◌+◌};
ghost use Rattle.resolvo_report.specs.View.{report_line_of};
ghost use Rattle.resolvo_report.specs.Grammar.{install_steps_from, refused_steps_from, request_from, next_part, may_end};

use crate::report::ReportLine;

/// The part of a report after its lines so far.
#[derive(Clone, Copy, Debug, PartialEq, Eq)]
pub enum Part {
    Start,
    /// Below `install`, or entries.
    Answers,
    /// Below the step of this number.
    InstallSteps(u32),
    /// Below `refused`, or the named line of the catalogue of this number.
    Catalogue(u32),
    /// Below the named line of the request of this number.
    Request(u32),
    /// Below the step of this number.
    RefusedSteps(u32),
    /// Below a line of the message.
    Message,
}

/// Whether the numbers follow one another.
fn is_next(count: u32, number: u32) -> bool
    ensures { result ≡ (number == count + 1) }
{
    count.checked_add(1) == Some(number)
}

fn install_steps_from(count: u32, line: &ReportLine) -> Option<Part>
    ensures { result ≡ install_steps_from count (report_line_of line.now) }
{
    match line {
        ReportLine::Step { number, .. } if is_next(count, *number) => {
            Some(Part::InstallSteps(*number))
        }
        _ => None,
    }
}

fn refused_steps_from(count: u32, line: &ReportLine) -> Option<Part>
    ensures { result ≡ refused_steps_from count (report_line_of line.now) }
{
    match line {
        ReportLine::Step { number, .. } if is_next(count, *number) => {
            Some(Part::RefusedSteps(*number))
        }
        _ => None,
    }
}

fn request_from(last: u32, line: &ReportLine) -> Option<Part>
    ensures { result ≡ request_from last (report_line_of line.now) }
{
    match line {
        ReportLine::Request { line } => {
            if last < *line {
                Some(Part::Request(*line))
            } else {
                None
            }
        }
        _ => refused_steps_from(0, line),
    }
}

impl Part {
    /// The part below the line, if it is allowed in this one.
    pub fn next(self, line: &ReportLine) -> Option<Part>
        ensures { result ≡ next_part self (report_line_of line.now) }
    {
        match self {
            Part::Start => match line {
                ReportLine::Install => Some(Part::Answers),
                ReportLine::Refused => Some(Part::Catalogue(0)),
                _ => None,
            },
            Part::Answers => match line {
                ReportLine::Answer(_) => Some(Part::Answers),
                _ => install_steps_from(0, line),
            },
            Part::InstallSteps(count) => install_steps_from(count, line),
            Part::Catalogue(last) => match line {
                ReportLine::Catalogue { line } => {
                    if last < *line {
                        Some(Part::Catalogue(*line))
                    } else {
                        None
                    }
                }
                _ => request_from(0, line),
            },
            Part::Request(last) => request_from(last, line),
            Part::RefusedSteps(count) => match line {
                ReportLine::Message { .. } => Some(Part::Message),
                _ => refused_steps_from(count, line),
            },
            Part::Message => match line {
                ReportLine::Message { .. } => Some(Part::Message),
                _ => None,
            },
        }
    }

    /// Whether a report may end here.
    pub fn may_end(self) -> bool
        ensures { result ≡ may_end self }
    {
        match self {
            Part::Answers | Part::InstallSteps(_) | Part::RefusedSteps(_) | Part::Message => true,
            Part::Start | Part::Catalogue(_) | Part::Request(_) => false,
        }
    }
}
