//! Checks a report, from the bytes of a catalogue, a request and the report. `main` and the tests
//! call `check`.

ghost use Rattle.std.specs.Prelude.{◌≡◌, IfOk, IfErr};
ghost use Rattle.resolve_check.specs.Devices.{IfCatalogueFaulty, IfRequestFaulty, reader_at, writer_at};
ghost use Rattle.resolve_check.specs.Check.{IsVerdictText, AnswersFault, ChecksTexts, StopsBeforeCheck, StopsCheck, WritesCheck};

use crate::outcome::{Checked, RunFault};
use crate::read_fault::not_read;
use resolvo_catalogue_core::{Catalogue, ReadFault, Request, Sink, Source, write_all};
use resolvo_judge::{JudgeFault, Verdict, judge};
use std::alloc::Global;

/// The outcome of the check, and the text to write.
#[derive(Drop)]
struct Response {
    checked: Checked,
    text: Vec<u8>,
}

/// The line of a verdict.
fn verdict_answer(alloc: Global, verdict: Verdict) -> Result<Response, RunFault>
    ensures ok { IfOk result
        (λ answered. IsVerdictText verdict answered.checked answered.text.items) }
    ensures err { IfErr result (λ e. e ≡ RunFault.Memory) }
{
    match verdict {
        Verdict::Yes => Ok(Response {
            checked: Checked::Yes,
            text: Vec::from_slice(alloc, b"yes\n")?,
        }),
        Verdict::No(line) => {
            let text = format!(in alloc; "no line {line}\n")?;
            Ok(Response {
                checked: Checked::No,
                text: Vec::from_slice(alloc, text.as_bytes())?,
            })
        }
    }
}

/// The outcome and the text where a text was not read: its faulty line, or nothing.
fn fault_answer(alloc: Global, which: &str, fault: ReadFault) -> Result<Response, RunFault>
    ensures { AnswersFault fault which.now result }
{
    match not_read(alloc, which, fault) {
        Ok(written) => Ok(Response {
            checked: Checked::Faulty,
            text: written.text,
        }),
        Err(fault) => Err(fault),
    }
}

/// The outcome and the text for three texts, which are read in this order.
fn answer<C: Source, R: Source, P: Source>(
    alloc: Global,
    catalogue: &mut C,
    request: &mut R,
    report: &mut P,
) -> Result<Response, RunFault>
    ensures ok { IfOk result
        (λ answered.
        ChecksTexts (C.left catalogue.old) (R.left request.old) (P.left report.old)
        answered.checked answered.text.items) }
    ensures err { IfErr result
        (λ e.
        StopsBeforeCheck e
        (reader_at C.Source catalogue.old catalogue.new)
        (reader_at R.Source request.old request.new)
        (reader_at P.Source report.old report.new)) }
    ensures catalogue_faulty { IfCatalogueFaulty (C.left catalogue.old)
        ((request.new ≡ request.old) × (report.new ≡ report.old)) }
    ensures request_faulty { IfRequestFaulty (C.left catalogue.old) (R.left request.old)
        (report.new ≡ report.old) }
{
    let catalogue = match Catalogue::read(alloc, catalogue) {
        Ok(catalogue) => catalogue,
        Err(fault) => return fault_answer(alloc, "catalogue", fault),
    };
    let request = match Request::read(alloc, request, &catalogue) {
        Ok(request) => request,
        Err(fault) => return fault_answer(alloc, "request", fault),
    };
    match judge(alloc, &catalogue, &request, report) {
        Ok(verdict) => verdict_answer(alloc, verdict),
        Err(JudgeFault::Reader) => Err(RunFault::Reader),
        Err(JudgeFault::TooLong) => Err(RunFault::TooLong),
        Err(JudgeFault::Memory) => Err(RunFault::Memory),
    }
}

/// Reads the catalogue to its end, then the request, and judges the report. It writes `yes`, or the
/// line from which the report doesn't hold, or the first faulty line of the texts before it. The
/// texts after a faulty one aren't read.
pub fn check<C: Source, R: Source, P: Source, W: Sink>(
    alloc: Global,
    catalogue: &mut C,
    request: &mut R,
    report: &mut P,
    writer: &mut W,
) -> Result<Checked, RunFault>
    ensures written { IfOk result
        (λ checked.
        WritesCheck
        (reader_at C.Source catalogue.old catalogue.new)
        (reader_at R.Source request.old request.new)
        (reader_at P.Source report.old report.new)
        (writer_at W.Sink writer.old writer.new)
        checked) }
    ensures stopped { IfErr result
        (λ e.
        StopsCheck e
        (reader_at C.Source catalogue.old catalogue.new)
        (reader_at R.Source request.old request.new)
        (reader_at P.Source report.old report.new)
        (writer_at W.Sink writer.old writer.new)) }
    ensures catalogue_faulty { IfCatalogueFaulty (C.left catalogue.old)
        ((request.new ≡ request.old) × (report.new ≡ report.old)) }
    ensures request_faulty { IfRequestFaulty (C.left catalogue.old) (R.left request.old)
        (report.new ≡ report.old) }
{
    match answer(alloc, catalogue, request, report) {
        Ok(answered) => match write_all(writer, answered.text.as_slice()) {
            Ok(()) => Ok(answered.checked),
            Err(_) => Err(RunFault::Writer),
        },
        Err(fault) => Err(fault),
    }
}
