//! Reading a report, line by line or whole.
//!
//! `ReportReader` holds one line at most. The part of the report decides whether the next line is
//! allowed. A line of a message has a copy of its bytes, or none.
//! The judge takes one line after the other; `Report::read` keeps them all.

ghost use Rattle.std.specs.Prelude.{◌≡◌, ◌+◌, ◌≤◌, ◌∷◌, [], Option, Some, None, IfOk, IfSome, IfNone, IfErr, OnOk, false};
ghost use Rattle.resolvo_text.specs.Device.{IfKnown};
ghost use Rattle.resolvo_report.specs.View.{report_of, report_line_of};
ghost use Rattle.resolvo_report.specs.Text.{report_lines, report_text};
ghost use Rattle.resolvo_report.specs.Grammar.{next_part, IsReport, IsReportFault};
ghost use Rattle.resolvo_report.specs.Draft.{part_of};

use crate::grammar::Part;
use crate::parse::line_shown;
use crate::report::{Report, ReportLine};
use resolvo_text::{LineFault, LineReader, ReadFault, Source};
use std::alloc::{AllocError, AllocFailed, Global};
use thiserror::Error;

/// Why a report was not read.
#[derive(Clone, Copy, Debug, PartialEq, Eq, Error)]
pub enum ReportFault {
    /// The line of this number isn't allowed after those above it, or the text ends before it.
    #[error("no report at line {0}")]
    NotAReport(u32),
    /// The device failed, or was interrupted too often in a row.
    #[error("the report could not be read")]
    Reader,
    /// The text has more bytes than a report may have.
    #[error("the report is too long")]
    TooLong,
    #[error("out of memory")]
    Memory,
}

impl From<AllocError> for ReportFault {
    ghost use Rattle.resolvo_report.specs.declared.reader.ReportFault.TheVariants.{Memory};

    ghost from_gives = { λ _ e. e ≡ Memory };

    fn from(_error: AllocError) -> Self {
        ReportFault::Memory
    }
}

impl<T: Drop> From<AllocFailed<T>> for ReportFault {
    ghost use Rattle.resolvo_report.specs.declared.reader.ReportFault.TheVariants.{Memory};

    ghost from_gives = { λ _ e. e ≡ Memory };

    fn from(_error: AllocFailed<T>) -> Self {
        ReportFault::Memory
    }
}

/// The most bytes of a report.
const MOST_BYTES: u32 = 1 << 30;

/// Takes one line of a report after the other.
pub struct ReportReader {
    lines: LineReader,
    /// The part of the report after the lines so far.
    part: Part,
    /// How many lines were taken.
    number: u32,
    ghost few: { number + lines.room ≤ 1073741824 },
}

// split for the prover: one drop
impl Drop for ReportReader {
    fn drop(self) {
        let ReportReader {
            lines: _,
            part: _,
            number: _,
        } = self;
    }
}

impl ReportReader {
    ghost use Rattle.resolvo_report.specs.Stream.{TakesLine, TakesShown, TakesNoLine, IsAtReportEnd};
    ghost use Rattle.resolvo_report.specs.declared.grammar.Part.TheVariants as part;
    ghost use Rattle.resolvo_text.specs.Reader.{unread};

    pub fn new(alloc: Global) -> Result<Self, AllocError>
        ensures fresh { IfOk result (λ r. unread r.lines ≡ []) }
        ensures room { IfOk result (λ r. r.lines.room ≡ 1073741824) }
        ensures part { IfOk result (λ r. r.part ≡ part.Start) }
        ensures number { IfOk result (λ r. r.number ≡ 0) }
    {
        Ok(ReportReader {
            lines: LineReader::new(alloc, MOST_BYTES)?,
            part: Part::Start,
            number: 0,
        })
    }

    /// Takes the next line. None at the end of a report.
    ///
    /// All whole lines are checked before the next read of the device. After a fault the reader
    /// can't be used again.
    pub fn next<S: Source>(
        &mut self,
        alloc: Global,
        source: &mut S,
    ) -> Result<Option<ReportLine>, ReportFault>
        ensures given { IfOk result (λ next. IfSome next (λ line.
            TakesLine S.Source self.old source.old (report_line_of line) self.new source.new)) }
        ensures end { IfOk result
            (λ next. IfNone next (IsAtReportEnd S.Source self.old source.old)) }
        ensures failures { OnOk result (S.failures source.new ≡ S.failures source.old) }
        ensures fault { IfErr result (λ e. TakesNoLine S.Source e self.old source.old source.new) }
    {
        self.take(alloc, source, true)
    }

    /// The same, without the bytes of a message: no line is held twice.
    pub fn next_without_message<S: Source>(
        &mut self,
        alloc: Global,
        source: &mut S,
    ) -> Result<Option<ReportLine>, ReportFault>
        ensures given { IfOk result (λ next. IfSome next (λ line.
            TakesShown S.Source false self.old source.old (report_line_of line) self.new
            source.new)) }
        ensures end { IfOk result
            (λ next. IfNone next (IsAtReportEnd S.Source self.old source.old)) }
        ensures failures { OnOk result (S.failures source.new ≡ S.failures source.old) }
        ensures fault { IfErr result (λ e. TakesNoLine S.Source e self.old source.old source.new) }
    {
        self.take(alloc, source, false)
    }

    /// Takes the next line; the bytes of a message are kept or not.
    fn take<S: Source>(
        &mut self,
        alloc: Global,
        source: &mut S,
        keeps: bool,
    ) -> Result<Option<ReportLine>, ReportFault>
        ensures given { IfOk result (λ next. IfSome next (λ line.
            TakesShown S.Source keeps self.old source.old (report_line_of line) self.new
            source.new)) }
        ensures end { IfOk result
            (λ next. IfNone next (IsAtReportEnd S.Source self.old source.old)) }
        ensures failures { OnOk result (S.failures source.new ≡ S.failures source.old) }
        ensures fault { IfErr result (λ e. TakesNoLine S.Source e self.old source.old source.new) }
    {
        let more = match self.lines.next_line(source) {
            Ok(more) => more,
            Err(ReadFault::Reader) => return Err(ReportFault::Reader),
            Err(ReadFault::TooLong) => return Err(ReportFault::TooLong),
            Err(ReadFault::Memory) => return Err(ReportFault::Memory),
            Err(ReadFault::Fault(_)) | Err(ReadFault::Ids) => unreachable!(),
        };
        let number = self.number + 1;
        if !more {
            if self.part.may_end() {
                return Ok(None);
            }
            return Err(ReportFault::NotAReport(number));
        }
        if !self.lines.is_whole() {
            return Err(ReportFault::NotAReport(number));
        }
        let line = match line_shown(alloc, self.lines.line(), keeps) {
            Ok(line) => line,
            Err(LineFault::Fault) => return Err(ReportFault::NotAReport(number)),
            Err(LineFault::Memory) => return Err(ReportFault::Memory),
        };
        let Some(part) = self.part.next(&line) else {
            return Err(ReportFault::NotAReport(number));
        };
        self.part = part;
        self.number = number;
        Ok(Some(line))
    }
}

impl Report {
    ghost use Rattle.resolvo_report.specs.declared.grammar.Part.{Part};
    ghost use Rattle.resolvo_report.specs.declared.grammar.Part.TheVariants as part;
    ghost use Rattle.resolvo_report.specs.Draft.{Grows};
    ghost use Rattle.resolvo_text.specs.Sources.{SourceFailed};

    /// Reads a report.
    pub fn read<S: Source>(alloc: Global, source: &mut S) -> Result<Report, ReportFault>
        ensures report { IfOk result (λ report. IsReport (report_of report)) }
        ensures text { IfOk result
            (λ report.
            IfKnown (S.left source.old) (λ text. text ≡ report_text (report_of report))) }
        ensures fault { IfErr result (λ e. IsReportFault e (S.left source.old) (S.left source.new)
            (SourceFailed S.Source source.old source.new)) }
    {
        let mut reader = ReportReader::new(alloc)?;
        let Some(first) = reader.next(alloc, source)? else {
            unreachable!();
        };
        let mut report = Report::begun(alloc, first);
        while let Some(line) = reader.next(alloc, source)? {
            report.push(line)?;
        }
        Ok(report)
    }

    /// The report with its first line only.
    fn begun(alloc: Global, first: ReportLine) -> Report
        requires { (q : Part) × (next_part part.Start (report_line_of first) ≡ Some q) }
        ensures lines { report_lines (report_of result) ≡ report_line_of first ∷ [] }
        ensures part { next_part part.Start (report_line_of first) ≡ Some
            (part_of (report_of result)) }
    {
        match first {
            ReportLine::Install => Report::Install {
                lines: Vec::new(alloc),
                steps: Vec::new(alloc),
            },
            ReportLine::Refused => Report::Refused {
                catalogue: Vec::new(alloc),
                request: Vec::new(alloc),
                steps: Vec::new(alloc),
                message: Vec::new(alloc),
            },
            _ => unreachable!(),
        }
    }

    /// Appends the line, where it is allowed.
    fn push(&mut self, line: ReportLine) -> Result<(), AllocError>
        requires { (q : Part)
            × (next_part (part_of (report_of self.old)) (report_line_of line) ≡ Some q) }
        ensures { OnOk result (Grows (report_of self.old) (report_line_of line)
            (report_of self.new)) }
    {
        match self {
            Report::Install { lines, steps } => match line {
                ReportLine::Answer(answer) => lines.push(answer)?,
                ReportLine::Step { step, .. } => steps.push(step)?,
                _ => unreachable!(),
            },
            Report::Refused {
                catalogue,
                request,
                steps,
                message,
            } => match line {
                ReportLine::Catalogue { line } => catalogue.push(line)?,
                ReportLine::Request { line } => request.push(line)?,
                ReportLine::Step { step, .. } => steps.push(step)?,
                ReportLine::Message { bytes } => message.push(bytes)?,
                _ => unreachable!(),
            },
        }
        Ok(())
    }
}
