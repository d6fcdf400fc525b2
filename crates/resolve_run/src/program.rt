//! Turns the bytes of a catalogue and a request into those of a report. `main` and the tests call
//! `run`.

ghost use Rattle.std.specs.Prelude.{◌≡◌, List, IfOk, IfErr};
ghost use Rattle.resolvo_text.specs.Line.{Line};
ghost use Rattle.resolvo_catalogue_core.specs.Grammar.{AreRequestLines};
ghost use Rattle.resolve_answer.specs.Answer.{IsAnswerOf};
ghost use Rattle.resolve_answer.specs.Wishes.{AreWishesAt};
ghost use Rattle.resolve_run.specs.Answer.{IsAnswerOfLines};
ghost use Rattle.resolve_check.specs.Devices.{reader_at, writer_at};
ghost use Rattle.resolve_run.specs.Headline.{IsRun};
ghost use Rattle.resolve_run.specs.Run.{AnswersTexts, IsLack, LeavesRequest, StopsRun, Writes};
ghost use Rattle.resolve_run.specs.Whole.{whole};
ghost use Rattle.resolve_run.specs.Within.{within, IsLackWithin, StopsBeforeWithin, StopsWithin};

use crate::stop::RunStop;
use crate::text::{RunText, write_both};
use resolve_answer::Release;
use resolve_answer::answer::{Answer, report_for};
use resolve_check::outcome::{Outcome, RunFault};
use resolve_check::read_fault::not_read;
use resolvo_catalogue_core::{Catalogue, Request, Sink, Source};
use std::alloc::Global;

/// The text of an answer.
fn written(alloc: Global, answer: Answer) -> Result<RunText, RunFault>
    ensures ok { IfOk result
        (λ text.
        (catalogue request : List Line)
        → IsAnswerOf catalogue request answer
        → IsAnswerOfLines catalogue request text.outcome (whole text)) }
    ensures err { IfErr result
        (λ e.
        (catalogue request : List Line)
        → IsAnswerOf catalogue request answer
        → IsLack e catalogue request) }
{
    match answer {
        Answer::Installed { text } => RunText::report(Outcome::Installed, text, Vec::new(alloc)),
        Answer::Refused { head, message } => RunText::report(Outcome::Refused, head, message),
    }
}

/// The same result, of a run that may have a budget.
fn within(ended: Result<RunText, RunFault>) -> Result<RunText, RunStop>
    ensures { result ≡ within ended }
{
    match ended {
        Ok(text) => Ok(text),
        Err(fault) => Err(RunStop::Fault(fault)),
    }
}

/// The report of grammatical texts.
fn report(
    alloc: Global,
    catalogue: &Catalogue,
    request: &Request,
    budget: Option<u64>,
    release: Release,
) -> Result<RunText, RunStop>
    ensures ok { IfOk result
        (λ answer.
        AreRequestLines catalogue.now request.now.lines
        → AreWishesAt catalogue.now request.now
        → IsAnswerOfLines catalogue.now request.now.lines answer.outcome (whole answer)) }
    ensures err { IfErr result
        (λ e.
        AreRequestLines catalogue.now request.now.lines
        → AreWishesAt catalogue.now request.now
        → IsLackWithin budget e catalogue.now request.now.lines) }
{
    let answer = report_for(alloc, catalogue, request, budget, release)?;
    within(written(alloc, answer))
}

/// The outcome and the text for two texts. The catalogue is read to its end first; where it is
/// refused, the request isn't read.
fn answer<C: Source, R: Source>(
    alloc: Global,
    catalogue: &mut C,
    request: &mut R,
    budget: Option<u64>,
    release: Release,
) -> Result<RunText, RunStop>
    ensures ok { IfOk result
        (λ answer.
        AnswersTexts (C.left catalogue.old) (R.left request.old) answer.outcome
        (whole answer)) }
    ensures err { IfErr result (λ e. StopsBeforeWithin budget e
        (reader_at C.Source catalogue.old catalogue.new)
        (reader_at R.Source request.old request.new)) }
    ensures catalogue_faulty { LeavesRequest (C.left catalogue.old) request.old request.new }
{
    let catalogue = match Catalogue::read(alloc, catalogue) {
        Ok(catalogue) => catalogue,
        Err(fault) => return RunText::unread(alloc, not_read(alloc, "catalogue", fault)),
    };
    let request = match Request::read(alloc, request, &catalogue) {
        Ok(request) => request,
        Err(fault) => return RunText::unread(alloc, not_read(alloc, "request", fault)),
    };
    let ended = report(alloc, &catalogue, &request, budget, release);
    release.done_with(request);
    release.done_with(catalogue);
    ended
}

/// The same as `run_within`, for a caller that says when the texts, the search and the report are
/// released.
fn run_bounded<C: Source, R: Source, W: Sink>(
    alloc: Global,
    catalogue: &mut C,
    request: &mut R,
    writer: &mut W,
    budget: Option<u64>,
    release: Release,
) -> Result<Outcome, RunStop>
    ensures { IsRun Writes (StopsWithin budget)
        (reader_at C.Source catalogue.old catalogue.new)
        (reader_at R.Source request.old request.new)
        (writer_at W.Sink writer.old writer.new) request.old request.new result }
{
    match answer(alloc, catalogue, request, budget, release) {
        Ok(text) => match write_both(writer, text.head.as_slice(), text.message.as_slice()) {
            Ok(()) => Ok(text.outcome),
            Err(_) => Err(RunStop::Fault(RunFault::Writer)),
        },
        Err(stop) => Err(stop),
    }
}

/// The same as `run`, except that it may give up where it has a budget, with nothing written. It
/// gives up where the solver asks more than so many times whether to stop. The solver asks this
/// before each step of its search, and before each new query for candidates or dependencies.
pub fn run_within<C: Source, R: Source, W: Sink>(
    alloc: Global,
    catalogue: &mut C,
    request: &mut R,
    writer: &mut W,
    budget: Option<u64>,
) -> Result<Outcome, RunStop>
    ensures { IsRun Writes (StopsWithin budget)
        (reader_at C.Source catalogue.old catalogue.new)
        (reader_at R.Source request.old request.new)
        (writer_at W.Sink writer.old writer.new) request.old request.new result }
{
    run_bounded(alloc, catalogue, request, writer, budget, Release::Now)
}

/// Reads the catalogue to its end, then the request, and writes the report, or the first faulty
/// line. The text is whole before its first byte is written.
pub fn run<C: Source, R: Source, W: Sink>(
    alloc: Global,
    catalogue: &mut C,
    request: &mut R,
    writer: &mut W,
) -> Result<Outcome, RunFault>
    ensures { IsRun Writes StopsRun
        (reader_at C.Source catalogue.old catalogue.new)
        (reader_at R.Source request.old request.new)
        (writer_at W.Sink writer.old writer.new) request.old request.new result }
{
    run_with(alloc, catalogue, request, writer, Release::Now)
}

/// The same as `run`, for a caller that says when the texts, the search and the report are released.
/// A program that ends after it may leave that to the system.
pub fn run_with<C: Source, R: Source, W: Sink>(
    alloc: Global,
    catalogue: &mut C,
    request: &mut R,
    writer: &mut W,
    release: Release,
) -> Result<Outcome, RunFault>
    ensures { IsRun Writes StopsRun
        (reader_at C.Source catalogue.old catalogue.new)
        (reader_at R.Source request.old request.new)
        (writer_at W.Sink writer.old writer.new) request.old request.new result }
{
    match run_bounded(alloc, catalogue, request, writer, None, release) {
        Ok(outcome) => Ok(outcome),
        Err(RunStop::Fault(fault)) => Err(fault),
        Err(RunStop::GivenUp) => unreachable!(),
    }
}
