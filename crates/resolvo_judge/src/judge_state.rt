//! The judge's state, line by line.
//! The invariant is `KeepsLog` for named lines and steps, and `KeepsAnswers` for the entries.

ghost use Rattle.std.specs.Prelude.{◌≡◌, ◌+◌, ◌^◌, ◌<◌, ◌≤◌, [], ◌∷◌, ◌++◌, ℕ, List, IfOk, length, true, false};
ghost use Rattle.resolvo_report.specs.Value.{Report as ReportValue, ReportLine as LineValue, Numbered};
ghost use Rattle.resolvo_report.specs.Text.{report_lines};
ghost use Rattle.resolvo_report.specs.View.{report_line_of, step_of};
ghost use Rattle.resolvo_checker.specs.CheckStep.{causes_in};
ghost use Rattle.resolvo_judge.specs.Refusal.{passes, answers_in, is_refusal, ArePassed};
ghost use Rattle.resolvo_judge.specs.Log.{KeepsLog, IfPassed, PassIsWithin, HasAllPlaces, DecidesStep, AddsStep, ReadsMore};
ghost use Rattle.resolvo_judge.specs.Log.{is_head, causes_of_line};
ghost use Rattle.resolvo_judge.specs.KeptAnswers.{KeepsAnswers, KeepsLines};
ghost use Rattle.resolvo_judge.specs.JudgeState.{JudgeInvariant, FlagsNext, DecidesEnd};

use crate::alternatives::Alternatives;
use crate::end_rules::keeps_all;
use crate::entries::Entries;
use crate::forbid::step_forbids;
use crate::log::{
    ProofState, install_log, refusal_log, take_catalogue_line, take_request_line, take_step,
};
use resolvo_catalogue_core::{Catalogue, Request};
use resolvo_checker::check_step::are_earlier;
use resolvo_checker::clauses::Clauses;
use resolvo_checker::proof::causes_in;
use resolvo_report::{ReportLine, Step};
use std::alloc::{AllocError, Global};

/// The judge's state after the lines so far.
pub struct JudgeState {
    /// The report is a refusal.
    pub refused: bool,
    pub log: ProofState,
    pub entries: Entries,
    pub alternatives: Alternatives,
    /// Each step so far forbids the left-out wishes that name it.
    pub forbidden: bool,
}

// split for the prover: one drop
impl Drop for JudgeState {
    fn drop(self) {
        let JudgeState {
            refused: _,
            log: _,
            entries: _,
            alternatives: _,
            forbidden: _,
        } = self;
    }
}

/// The state after the first line.
pub fn begin(
    alloc: Global,
    catalogue: &Catalogue,
    request: &Request,
    first: &ReportLine,
) -> Result<JudgeState, AllocError>
    requires { is_head (report_line_of first.now) ≡ true }
    ensures represents { IfOk result
        (λ j. JudgeInvariant catalogue.now request.now.lines j [] (report_line_of first.now ∷ [])) }
    ensures pass { IfOk result (λ j. j.log.checker.truth.pass ≡ 0) }
    ensures long { IfOk result (λ j. HasAllPlaces j.log catalogue.now) }
    ensures few { IfOk result (λ j. j.entries.chosen.count ≡ 0) }
{
    let refused = is_refusal(first);
    let log = if refused {
        refusal_log(alloc, catalogue, request)?
    } else {
        install_log(alloc, catalogue, request)?
    };
    Ok(JudgeState {
        refused,
        log,
        entries: Entries::new(alloc),
        alternatives: Alternatives::new(alloc),
        forbidden: true,
    })
}

/// Whether the line is the first of a refusal.
fn is_refusal(first: &ReportLine) -> bool
    ensures { result ≡ is_refusal (report_line_of first.now ∷ []) }
{
    match first {
        ReportLine::Refused => true,
        _ => false,
    }
}

/// Whether the line of a step passes. If it does, adds the step, and checks whether it forbids
/// the left-out wishes that name it.
fn take_numbered(
    alloc: Global,
    catalogue: &Catalogue,
    request: &Request,
    judging: &mut JudgeState,
    clauses: &mut Clauses,
    step: &Step,
) -> Result<bool, AllocError>
    requires later { PassIsWithin judging.old.log clauses.old.kept }
    requires long { HasAllPlaces judging.old.log catalogue.now }
    requires short { length clauses.old.kept + 1 < 2 ^ 32 }
    requires room { clauses.old.readings.read + causes_in (step_of step.now) < 2 ^ 64 }
    // After an answer.
    ensures answer { IfOk result (DecidesStep catalogue.now request.now.lines judging.old.log
        clauses.old.kept (step_of step.now)) }
    // If the step passes.
    ensures log { IfPassed result (AddsStep catalogue.now request.now.lines judging.old.log
        clauses.old.kept (step_of step.now) judging.new.log clauses.new.kept) }
    ensures forbidden { IfPassed result ((above : List LineValue) (n : ℕ)
        → FlagsNext catalogue.now request.now.lines judging.old clauses.old.kept above
        (Numbered n (step_of step.now)) judging.new.forbidden) }
    ensures later { IfPassed result (PassIsWithin judging.new.log clauses.new.kept) }
    ensures long { IfPassed result (HasAllPlaces judging.new.log catalogue.now) }
    ensures count { IfPassed result (length clauses.new.kept ≡ length clauses.old.kept + 1) }
    ensures read { IfPassed result (ReadsMore clauses.old.readings (causes_in (step_of step.now))
        clauses.new.readings) }
    // Whatever the answer.
    ensures entries { judging.new.entries ≡ judging.old.entries }
    ensures refused { judging.new.refused ≡ judging.old.refused }
{
    let number = clauses.len() as u32 + 1;
    if !take_step(alloc, catalogue, request, &mut judging.log, clauses, step)? {
        return Ok(false);
    }
    let wishes = judging.entries.forbidden.of(number);
    let chosen = &judging.entries.chosen;
    let forbids = step_forbids(alloc, catalogue, request, chosen, step, wishes)?;
    judging.forbidden = judging.forbidden && forbids;
    Ok(true)
}

/// Whether a line below the first one passes. If it does, adds it.
fn take_line(
    alloc: Global,
    catalogue: &Catalogue,
    request: &Request,
    judging: &mut JudgeState,
    clauses: &mut Clauses,
    line: &ReportLine,
) -> Result<bool, AllocError>
    requires later { PassIsWithin judging.old.log clauses.old.kept }
    requires long { HasAllPlaces judging.old.log catalogue.now }
    requires short { length clauses.old.kept + 1 < 2 ^ 32 }
    requires few { judging.old.entries.chosen.count < 2 ^ 32 }
    requires room { clauses.old.readings.read + causes_of_line (report_line_of line.now) < 2 ^ 64 }
    // After an answer.
    ensures answer { IfOk result (λ fine. (above : List LineValue)
        → KeepsLog catalogue.now request.now.lines judging.old.log clauses.old.kept above
        → KeepsAnswers judging.old.entries (answers_in above)
        → fine ≡ passes catalogue.now request.now.lines above (report_line_of line.now)) }
    // If the line passes.
    ensures log { IfPassed result ((above : List LineValue)
        → is_head (report_line_of line.now) ≡ false
        → KeepsLog catalogue.now request.now.lines judging.old.log clauses.old.kept above
        → KeepsLog catalogue.now request.now.lines judging.new.log clauses.new.kept
        (above ++ report_line_of line.now ∷ [])) }
    ensures entries { IfPassed result ((above : List LineValue)
        → KeepsAnswers judging.old.entries (answers_in above)
        → KeepsAnswers judging.new.entries (answers_in (above ++ report_line_of line.now ∷ []))) }
    ensures lines { IfPassed result ((above : List LineValue)
        → KeepsAnswers judging.old.entries (answers_in above)
        → KeepsLines request.now.lines judging.old.entries (answers_in above)
        → KeepsLines request.now.lines judging.new.entries
        (answers_in (above ++ report_line_of line.now ∷ []))) }
    ensures forbidden { IfPassed result ((above : List LineValue)
        → is_head (report_line_of line.now) ≡ false
        → FlagsNext catalogue.now request.now.lines judging.old clauses.old.kept above
        (report_line_of line.now) judging.new.forbidden) }
    ensures later { IfPassed result (PassIsWithin judging.new.log clauses.new.kept) }
    ensures long { IfPassed result (HasAllPlaces judging.new.log catalogue.now) }
    ensures count { IfPassed result (length clauses.new.kept ≤ length clauses.old.kept + 1) }
    ensures few { IfPassed result
        (judging.new.entries.chosen.count < judging.old.entries.chosen.count + 2) }
    ensures read { IfPassed result (ReadsMore clauses.old.readings
        (causes_of_line (report_line_of line.now)) clauses.new.readings) }
    // Whatever the answer.
    ensures refused { judging.new.refused ≡ judging.old.refused }
{
    match line {
        ReportLine::Install | ReportLine::Refused | ReportLine::Message { .. } => Ok(true),
        ReportLine::Answer(answer) => {
            let alternative = judging
                .alternatives
                .place_of(alloc, catalogue, request, answer)?;
            // split for the prover: error and answer
            let fine = judging
                .entries
                .take(alloc, catalogue, request, answer, alternative)?;
            Ok(fine)
        }
        ReportLine::Catalogue { line } => {
            // split for the prover: error and answer
            let fine = take_catalogue_line(catalogue, &mut judging.log, *line)?;
            Ok(fine)
        }
        ReportLine::Request { line } => {
            // split for the prover: error and answer
            let fine = take_request_line(request, &mut judging.log, *line)?;
            Ok(fine)
        }
        ReportLine::Step { step, .. } => {
            // split for the prover: error and answer
            let fine = take_numbered(alloc, catalogue, request, judging, clauses, step)?;
            Ok(fine)
        }
    }
}

/// How many clauses the line names.
fn causes_of_line(line: &ReportLine) -> u64
    ensures { result ≡ causes_of_line (report_line_of line.now) }
{
    match line {
        ReportLine::Step { step, .. } => causes_in(step),
        _ => 0,
    }
}

/// Whether a line below the first one passes. If it does, adds it, and counts the clauses that it
/// names.
pub fn take(
    alloc: Global,
    catalogue: &Catalogue,
    request: &Request,
    judging: &mut JudgeState,
    clauses: &mut Clauses,
    line: ReportLine,
) -> Result<bool, AllocError>
    requires later { PassIsWithin judging.old.log clauses.old.kept }
    requires long { HasAllPlaces judging.old.log catalogue.now }
    requires short { length clauses.old.kept + 1 < 2 ^ 32 }
    requires few { judging.old.entries.chosen.count < 2 ^ 32 }
    requires room { clauses.old.readings.read + causes_of_line (report_line_of line) < 2 ^ 64 }
    requires named { clauses.old.readings.named + causes_of_line (report_line_of line) < 2 ^ 64 }
    // After an answer.
    ensures answer { IfOk result (λ fine. (above : List LineValue)
        → JudgeInvariant catalogue.now request.now.lines judging.old clauses.old.kept above
        → fine ≡ passes catalogue.now request.now.lines above (report_line_of line)) }
    // If the line passes.
    ensures represents { IfPassed result ((above : List LineValue)
        → is_head (report_line_of line) ≡ false
        → is_refusal (above ++ report_line_of line ∷ []) ≡ is_refusal above
        → JudgeInvariant catalogue.now request.now.lines judging.old clauses.old.kept above
        → JudgeInvariant catalogue.now request.now.lines judging.new clauses.new.kept
        (above ++ report_line_of line ∷ [])) }
    ensures later { IfPassed result (PassIsWithin judging.new.log clauses.new.kept) }
    ensures long { IfPassed result (HasAllPlaces judging.new.log catalogue.now) }
    ensures count { IfPassed result (length clauses.new.kept ≤ length clauses.old.kept + 1) }
    ensures few { IfPassed result
        (judging.new.entries.chosen.count < judging.old.entries.chosen.count + 2) }
    ensures read { IfPassed result (clauses.new.readings.read
        ≡ clauses.old.readings.read + causes_of_line (report_line_of line)) }
    ensures named { IfPassed result (clauses.new.readings.named
        ≡ clauses.old.readings.named + causes_of_line (report_line_of line)) }
{
    if !take_line(alloc, catalogue, request, judging, clauses, &line)? {
        return Ok(false);
    }
    clauses.name(causes_of_line(&line));
    Ok(true)
}

/// Whether an `install` report may end after its lines. The entries must keep all rules, and each
/// wish must be an entry or left out. The step of each left-out wish must exist and forbid it.
fn installs(
    catalogue: &Catalogue,
    request: &Request,
    judging: &JudgeState,
    clauses: &Clauses,
) -> Result<bool, AllocError>
    ensures { (r : ReportValue)
        → is_refusal (report_lines r) ≡ false
        → JudgeInvariant catalogue.now request.now.lines judging.now clauses.now.kept
        (report_lines r)
        → IfOk result (DecidesEnd catalogue.now request.now.lines (report_lines r)) }
{
    let entries = &judging.entries;
    if !keeps_all(&entries.chosen, catalogue, request)? || !entries.are_wishes_answered(request) {
        return Ok(false);
    }
    Ok(judging.forbidden && are_earlier(entries.forbidden.steps(), clauses.len()))
}

/// Whether the report may end after its lines, all of which passed.
pub fn may_end(
    catalogue: &Catalogue,
    request: &Request,
    judging: &JudgeState,
    clauses: &Clauses,
) -> Result<bool, AllocError>
    ensures { (r : ReportValue)
        → JudgeInvariant catalogue.now request.now.lines judging.now clauses.now.kept
        (report_lines r)
        → IfOk result (DecidesEnd catalogue.now request.now.lines (report_lines r)) }
{
    if judging.refused {
        return Ok(judging.log.ends_empty);
    }
    installs(catalogue, request, judging, clauses)
}
