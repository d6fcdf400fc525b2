//! The judge: whether a report holds for a catalogue and a request, from the report's bytes.
//!
//! It reads the report line by line, and holds one line at a time beside its state. A registry can
//! run it on reports from strangers: its yes alone implies that the report's claim is true.

ghost use Rattle.std.specs.Prelude.{◌≡◌, [], IfOk, IfErr};
ghost use Rattle.resolvo_text.specs.Device.{IfKnown};
ghost use Rattle.resolvo_judge.specs.Judgement.{IsVerdict, ClaimsTruth, CountsReadings, GivesNoAnswer, StopsJudging};

use crate::judge_state::{begin, may_end, take};
use resolvo_catalogue_core::{Catalogue, Request, Source};
use resolvo_checker::clauses::{Clauses, Readings};
use resolvo_report::{ReportFault, ReportReader};
use std::alloc::{AllocError, Global};
use thiserror::Error;

/// Whether a report holds.
#[derive(Clone, Copy, Debug, PartialEq, Eq)]
pub enum Verdict {
    /// All its lines pass, and it may end there.
    Yes,
    /// The first line, from 1, that is outside the grammar or doesn't pass. Or one past the last
    /// line, if the report may not end there.
    No(u32),
}

/// Why there is no verdict.
#[derive(Clone, Copy, Debug, PartialEq, Eq, Error)]
pub enum JudgeFault {
    /// The device failed, or was interrupted too often in a row.
    #[error("the report could not be read")]
    Reader,
    /// The text has more bytes than a report may have.
    #[error("the report is too long")]
    TooLong,
    #[error("out of memory")]
    Memory,
}

impl From<AllocError> for JudgeFault {
    ghost use Rattle.resolvo_judge.specs.declared.judgement.JudgeFault.TheVariants.{Memory};

    ghost from_gives = { λ _ e. e ≡ Memory };

    fn from(_error: AllocError) -> Self {
        JudgeFault::Memory
    }
}

/// A verdict, and the counts of clauses of earlier steps that were named and read for it.
#[derive(Clone, Copy, Debug, PartialEq, Eq)]
pub struct Judged {
    pub verdict: Verdict,
    pub readings: Readings,
}

/// Judges the lines in order, up to the first that doesn't pass, or to the end.
fn judge_lines<S: Source>(
    alloc: Global,
    catalogue: &Catalogue,
    request: &Request,
    source: &mut S,
    clauses: &mut Clauses,
) -> Result<Verdict, ReportFault>
    requires kept { clauses.old.kept ≡ [] }
    requires named { clauses.old.readings.named ≡ 0 }
    requires read { clauses.old.readings.read ≡ 0 }
    // After an answer.
    ensures verdict { IfOk result
        (λ verdict.
        IfKnown (S.left source.old)
        (λ text. IsVerdict catalogue.now request.now.lines text verdict)) }
    ensures counted { IfOk result
        (λ verdict.
        IfKnown (S.left source.old) (λ text. CountsReadings text verdict clauses.new.readings)) }
    // After a refusal.
    ensures fault { IfErr result (λ e. StopsJudging S.Source catalogue.now request.now.lines e
        source.old source.new) }
{
    let mut reader = ReportReader::new(alloc)?;
    let Some(first) = reader.next_without_message(alloc, source)? else {
        unreachable!();
    };
    let mut judging = begin(alloc, catalogue, request, &first)?;
    drop(first);
    let mut number = 2;
    while let Some(line) = reader.next_without_message(alloc, source)? {
        if !take(alloc, catalogue, request, &mut judging, clauses, line)? {
            return Ok(Verdict::No(number));
        }
        number += 1;
    }
    if may_end(catalogue, request, &judging, clauses)? {
        Ok(Verdict::Yes)
    } else {
        Ok(Verdict::No(number))
    }
}

/// The verdict of `judge`, with the counts of clauses that were named and read.
///
/// After a yes both counts are equal: each clause that a `derive` step names was read once for
/// each naming.
pub fn judge_counted<S: Source>(
    alloc: Global,
    catalogue: &Catalogue,
    request: &Request,
    source: &mut S,
) -> Result<Judged, JudgeFault>
    ensures verdict { IfOk result
        (λ j.
        IfKnown (S.left source.old)
        (λ text. IsVerdict catalogue.now request.now.lines text j.verdict)) }
    ensures claim { IfOk result
        (λ j.
        IfKnown (S.left source.old)
        (λ text. ClaimsTruth catalogue.now request.now.lines text j.verdict)) }
    ensures counted { IfOk result
        (λ j. IfKnown (S.left source.old) (λ text. CountsReadings text j.verdict j.readings)) }
    ensures fault { IfErr result (λ e. GivesNoAnswer S.Source catalogue.now request.now.lines e
        source.old source.new) }
{
    let mut clauses = Clauses::new(alloc);
    match judge_lines(alloc, catalogue, request, source, &mut clauses) {
        Ok(verdict) => Ok(Judged {
            verdict,
            readings: clauses.readings(),
        }),
        Err(ReportFault::NotAReport(line)) => Ok(Judged {
            verdict: Verdict::No(line),
            readings: clauses.readings(),
        }),
        Err(ReportFault::Reader) => Err(JudgeFault::Reader),
        Err(ReportFault::TooLong) => Err(JudgeFault::TooLong),
        Err(ReportFault::Memory) => Err(JudgeFault::Memory),
    }
}

/// Whether the report from the device holds for the catalogue and the request, and where it
/// doesn't.
///
/// Lines that were read whole are judged before the next read. So a wrong line precedes a later
/// fault of the device.
pub fn judge<S: Source>(
    alloc: Global,
    catalogue: &Catalogue,
    request: &Request,
    source: &mut S,
) -> Result<Verdict, JudgeFault>
    ensures verdict { IfOk result
        (λ verdict.
        IfKnown (S.left source.old)
        (λ text. IsVerdict catalogue.now request.now.lines text verdict)) }
    ensures claim { IfOk result
        (λ verdict.
        IfKnown (S.left source.old)
        (λ text. ClaimsTruth catalogue.now request.now.lines text verdict)) }
    ensures fault { IfErr result (λ e. GivesNoAnswer S.Source catalogue.now request.now.lines e
        source.old source.new) }
{
    let judged = judge_counted(alloc, catalogue, request, source)?;
    Ok(judged.verdict)
}
