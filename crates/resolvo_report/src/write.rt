//! Writing a report to a device, line by line.
//!
//! By the contract the device has a prefix of the report's text. The program writes its answer with
//! it.

ghost use Rattle.std.specs.Prelude.{◌≡◌, ◌++◌, map, OnOk, IfErr, codes};
ghost use Rattle.resolvo_report.specs.Value as model;
ghost use Rattle.resolvo_report.specs.View.{report_of, answer_lines_of, steps_of, messages_of};
ghost use Rattle.resolvo_report.specs.Text.{lines_text, numbered, report_text};
ghost use Rattle.resolvo_report.specs.Write.{WritesText, StopsText};

use crate::answer_text::push_answer;
use crate::report::{AnswerLine, Report};
use crate::step::Step;
use resolvo_text::{Sink, WriteFault, write_all};
use std::alloc::{AllocError, AllocFailed, Global};
use thiserror::Error;

/// Why a report was not written to its end.
#[derive(Clone, Copy, Debug, PartialEq, Eq, Error)]
pub enum ReportWriteFault {
    /// The device failed, took no byte, or was interrupted too often in a row.
    #[error("the report could not be written")]
    Writer,
    #[error("out of memory")]
    Memory,
}

impl From<WriteFault> for ReportWriteFault {
    ghost use Rattle.resolvo_report.specs.declared.write.ReportWriteFault.TheVariants.{Writer};

    ghost from_gives = { λ _ e. e ≡ Writer };

    fn from(_fault: WriteFault) -> Self {
        ReportWriteFault::Writer
    }
}

impl From<AllocError> for ReportWriteFault {
    ghost use Rattle.resolvo_report.specs.declared.write.ReportWriteFault.TheVariants.{Memory};

    ghost from_gives = { λ _ e. e ≡ Memory };

    fn from(_error: AllocError) -> Self {
        ReportWriteFault::Memory
    }
}

impl<T: Drop> From<AllocFailed<T>> for ReportWriteFault {
    ghost use Rattle.resolvo_report.specs.declared.write.ReportWriteFault.TheVariants.{Memory};

    ghost from_gives = { λ _ e. e ≡ Memory };

    fn from(_error: AllocFailed<T>) -> Self {
        ReportWriteFault::Memory
    }
}

impl Report {
    /// Writes the report.
    pub fn write<S: Sink>(&self, alloc: Global, sink: &mut S) -> Result<(), ReportWriteFault>
        ensures whole { OnOk result (WritesText S.Sink sink.old sink.new
            (report_text (report_of self.now))) }
        ensures fault { IfErr result (λ e. StopsText S.Sink e sink.old sink.new
            (report_text (report_of self.now))) }
    {
        match self {
            Report::Install { lines, steps } => write_install(alloc, sink, lines, steps),
            Report::Refused {
                catalogue,
                request,
                steps,
                message,
            } => write_refused(alloc, sink, catalogue, request, steps, message),
        }
    }
}

fn write_install<S: Sink>(
    alloc: Global,
    sink: &mut S,
    lines: &[AnswerLine],
    steps: &[Step],
) -> Result<(), ReportWriteFault>
    ensures whole { OnOk result (WritesText S.Sink sink.old sink.new
        (report_text (model.Install (answer_lines_of lines.now) (steps_of steps.now)))) }
    ensures fault { IfErr result (λ e. StopsText S.Sink e sink.old sink.new
        (report_text (model.Install (answer_lines_of lines.now) (steps_of steps.now)))) }
{
    write_line(sink, "install\n")?;
    write_answers(alloc, sink, lines)?;
    write_steps(alloc, sink, steps)
}

fn write_refused<S: Sink>(
    alloc: Global,
    sink: &mut S,
    catalogue: &[u32],
    request: &[u32],
    steps: &[Step],
    message: &[Vec<u8>],
) -> Result<(), ReportWriteFault>
    ensures whole { OnOk result (WritesText S.Sink sink.old sink.new
        (report_text (model.Refused catalogue.now request.now (steps_of steps.now)
        (messages_of message.now)))) }
    ensures fault { IfErr result (λ e. StopsText S.Sink e sink.old sink.new
        (report_text (model.Refused catalogue.now request.now (steps_of steps.now)
        (messages_of message.now)))) }
{
    write_line(sink, "refused\n")?;
    write_named(alloc, sink, catalogue)?;
    write_asked(alloc, sink, request)?;
    write_steps(alloc, sink, steps)?;
    write_message(sink, message)
}

fn write_bytes<S: Sink>(sink: &mut S, bytes: &[u8]) -> Result<(), ReportWriteFault>
    ensures whole { OnOk result (WritesText S.Sink sink.old sink.new bytes.now) }
    ensures fault { IfErr result (λ e. StopsText S.Sink e sink.old sink.new bytes.now) }
{
    write_all(sink, bytes)?;
    Ok(())
}

fn write_line<S: Sink>(sink: &mut S, line: &str) -> Result<(), ReportWriteFault>
    ensures whole { OnOk result (WritesText S.Sink sink.old sink.new line.now) }
    ensures fault { IfErr result (λ e. StopsText S.Sink e sink.old sink.new line.now) }
{
    write_bytes(sink, line.as_bytes())
}

fn write_answers<S: Sink>(
    alloc: Global,
    sink: &mut S,
    lines: &[AnswerLine],
) -> Result<(), ReportWriteFault>
    ensures whole { OnOk result (WritesText S.Sink sink.old sink.new
        (lines_text (map model.Answer (answer_lines_of lines.now)))) }
    ensures fault { IfErr result (λ e. StopsText S.Sink e sink.old sink.new
        (lines_text (map model.Answer (answer_lines_of lines.now)))) }
{
    let mut text = Vec::new(alloc);
    for line in lines {
        text.clear();
        push_answer(&mut text, line)?;
        text.push(b'\n')?;
        write_bytes(sink, text.as_slice())?;
    }
    Ok(())
}

/// Writes which lines of the catalogue are named.
fn write_named<S: Sink>(alloc: Global, sink: &mut S, lines: &[u32]) -> Result<(), ReportWriteFault>
    ensures whole { OnOk result (WritesText S.Sink sink.old sink.new
        (lines_text (map model.CatalogueLine lines.now))) }
    ensures fault { IfErr result (λ e. StopsText S.Sink e sink.old sink.new
        (lines_text (map model.CatalogueLine lines.now))) }
{
    for number in lines {
        let text = format!(in alloc; "catalogue line {number}\n")?;
        write_line(sink, text.as_str())?;
    }
    Ok(())
}

/// Writes which lines of the request are named.
fn write_asked<S: Sink>(alloc: Global, sink: &mut S, lines: &[u32]) -> Result<(), ReportWriteFault>
    ensures whole { OnOk result (WritesText S.Sink sink.old sink.new
        (lines_text (map model.RequestLine lines.now))) }
    ensures fault { IfErr result (λ e. StopsText S.Sink e sink.old sink.new
        (lines_text (map model.RequestLine lines.now))) }
{
    for number in lines {
        let text = format!(in alloc; "request line {number}\n")?;
        write_line(sink, text.as_str())?;
    }
    Ok(())
}

fn write_steps<S: Sink>(alloc: Global, sink: &mut S, steps: &[Step]) -> Result<(), ReportWriteFault>
    ensures whole { OnOk result (WritesText S.Sink sink.old sink.new
        (lines_text (numbered 1 (steps_of steps.now)))) }
    ensures fault { IfErr result (λ e. StopsText S.Sink e sink.old sink.new
        (lines_text (numbered 1 (steps_of steps.now)))) }
{
    for i in 0..steps.len() {
        let number = i + 1;
        let step = &steps[i];
        let text = format!(in alloc; "step {number} {step}\n")?;
        write_line(sink, text.as_str())?;
    }
    Ok(())
}

fn write_message<S: Sink>(sink: &mut S, message: &[Vec<u8>]) -> Result<(), ReportWriteFault>
    ensures whole { OnOk result (WritesText S.Sink sink.old sink.new
        (lines_text (map model.Message (messages_of message.now)))) }
    ensures fault { IfErr result (λ e. StopsText S.Sink e sink.old sink.new
        (lines_text (map model.Message (messages_of message.now)))) }
{
    for bytes in message {
        write_message_line(sink, bytes)?;
    }
    Ok(())
}

fn write_message_line<S: Sink>(sink: &mut S, bytes: &[u8]) -> Result<(), ReportWriteFault>
    ensures whole { OnOk result (WritesText S.Sink sink.old sink.new
        (codes "| " ++ bytes.now ++ codes "\n")) }
    ensures fault { IfErr result (λ e. StopsText S.Sink e sink.old sink.new
        (codes "| " ++ bytes.now ++ codes "\n")) }
{
    write_line(sink, "| ")?;
    write_all(sink, bytes)?;
    write_line(sink, "\n")
}
