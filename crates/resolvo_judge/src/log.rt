//! The proof of a report, line by line: named lines, and steps.
//! The invariant is `KeepsLog` of specs/Log.antt.

ghost use Rattle.std.specs.Prelude.{◌≡◌, ◌+◌, ◌^◌, ◌<◌, [], ◌∷◌, List, IfOk, length, ℕ, ◌==◌, ◌||◌};
ghost use Rattle.resolvo_report.specs.Value.{ReportLine, InstallHead, RefusedHead, CatalogueLine, RequestLine};
ghost use Rattle.resolvo_report.specs.View.{step_of};
ghost use Rattle.resolvo_checker.specs.CheckStep.{causes_in, names_catalogue, names_request};
ghost use Rattle.resolvo_checker.specs.Proof.{derives_empty};
ghost use Rattle.resolvo_judge.specs.Refusal.{passes, has_rule};
ghost use Rattle.resolvo_catalogue_core.specs.Grammar.{line_at};
ghost use Rattle.resolvo_text.specs.Line.{Line};
ghost use Rattle.resolvo_judge.specs.Log.{KeepsLog, IfPassed, PassIsWithin, HasAllPlaces, DecidesStep, AddsStep, AddsNamed, ReadsMore};

use crate::named_lines::{is_rule, name_in_catalogue, name_in_request};
use resolvo_catalogue_core::{Catalogue, Request};
use resolvo_checker::check_step::{Checker, Premises, check_step};
use resolvo_checker::clauses::Clauses;
use resolvo_checker::proof::begin;
use resolvo_report::Step;
use std::alloc::{AllocError, Global};

/// The state of the named lines and the steps of a report.
#[derive(Drop)]
pub struct ProofState {
    pub checker: Checker,
    pub scope: Premises,
    /// The last step derives the clause without literals.
    pub ends_empty: bool,
}

/// The state after the first line of an install report, whose steps may name all lines.
pub fn install_log(
    alloc: Global,
    catalogue: &Catalogue,
    request: &Request,
) -> Result<ProofState, AllocError>
    ensures represents { IfOk result
        (λ l. KeepsLog catalogue.now request.now.lines l [] (InstallHead ∷ [])) }
    ensures pass { IfOk result (λ l. l.checker.truth.pass ≡ 0) }
    ensures long { IfOk result (λ l. HasAllPlaces l catalogue.now) }
{
    Ok(ProofState {
        checker: begin(alloc, catalogue, request)?,
        scope: Premises::All,
        ends_empty: false,
    })
}

/// The state after the first line of a refusal, which names no line yet.
pub fn refusal_log(
    alloc: Global,
    catalogue: &Catalogue,
    request: &Request,
) -> Result<ProofState, AllocError>
    ensures represents { IfOk result
        (λ l. KeepsLog catalogue.now request.now.lines l [] (RefusedHead ∷ [])) }
    ensures pass { IfOk result (λ l. l.checker.truth.pass ≡ 0) }
    ensures long { IfOk result (λ l. HasAllPlaces l catalogue.now) }
{
    Ok(ProofState {
        checker: begin(alloc, catalogue, request)?,
        scope: Premises::Named {
            catalogue: Vec::new(alloc),
            request: Vec::new(alloc),
        },
        ends_empty: false,
    })
}

fn derives_empty(step: &Step) -> bool
    ensures { result ≡ derives_empty (step_of step.now) }
{
    match step {
        Step::Derive { literals, .. } => literals.is_empty(),
        _ => false,
    }
}

/// Whether the line of a step passes. If it does, adds the step.
pub fn take_step(
    alloc: Global,
    catalogue: &Catalogue,
    request: &Request,
    log: &mut ProofState,
    clauses: &mut Clauses,
    step: &Step,
) -> Result<bool, AllocError>
    requires later { PassIsWithin log.old clauses.old.kept }
    requires long { HasAllPlaces log.old catalogue.now }
    requires short { length clauses.old.kept + 1 < 2 ^ 32 }
    requires room { clauses.old.readings.read + causes_in (step_of step.now) < 2 ^ 64 }
    // After an answer.
    ensures answer { IfOk result (DecidesStep catalogue.now request.now.lines log.old
        clauses.old.kept (step_of step.now)) }
    // If the step passes.
    ensures represents { IfPassed result (AddsStep catalogue.now request.now.lines log.old
        clauses.old.kept (step_of step.now) log.new clauses.new.kept) }
    ensures later { IfPassed result (PassIsWithin log.new clauses.new.kept) }
    ensures long { IfPassed result (HasAllPlaces log.new catalogue.now) }
    ensures count { IfPassed result (length clauses.new.kept ≡ length clauses.old.kept + 1) }
    ensures read { IfPassed result (ReadsMore clauses.old.readings (causes_in (step_of step.now))
        clauses.new.readings) }
{
    // split for the prover: error and answer
    let fine = check_step(
        alloc,
        catalogue,
        request,
        &log.scope,
        &mut log.checker,
        clauses,
        step,
    )?;
    log.ends_empty = derives_empty(step);
    Ok(fine)
}

/// Whether a named line of the catalogue passes. If it does, adds it.
pub fn take_catalogue_line(
    catalogue: &Catalogue,
    log: &mut ProofState,
    line: u32,
) -> Result<bool, AllocError>
    ensures answer { IfOk result
        (λ fine.
        (request : List Line) (above : List ReportLine)
        → fine ≡ passes catalogue.now request above (CatalogueLine line)) }
    ensures represents { IfPassed result ((request : List Line)
        → AddsNamed catalogue.now request log.old (CatalogueLine line) log.new) }
    ensures checker { log.new.checker ≡ log.old.checker }
{
    // split for the prover: error and answer
    let fine = name_catalogue(catalogue, &mut log.scope, line)?;
    Ok(fine)
}

/// Whether a named line of the request passes. If it does, adds it.
pub fn take_request_line(
    request: &Request,
    log: &mut ProofState,
    line: u32,
) -> Result<bool, AllocError>
    ensures answer { IfOk result
        (λ fine.
        (catalogue : List Line) (above : List ReportLine)
        → fine ≡ passes catalogue request.now.lines above (RequestLine line)) }
    ensures represents { IfPassed result ((catalogue : List Line)
        → AddsNamed catalogue request.now.lines log.old (RequestLine line) log.new) }
    ensures checker { log.new.checker ≡ log.old.checker }
{
    // split for the prover: error and answer
    let fine = name_request(request, &mut log.scope, line)?;
    Ok(fine)
}

fn name_catalogue(
    catalogue: &Catalogue,
    scope: &mut Premises,
    line: u32,
) -> Result<bool, AllocError>
    ensures fine { IfOk result (λ fine. fine ≡ has_rule (line_at catalogue.now line)) }
    ensures named { IfPassed result ((n : ℕ)
        → names_catalogue scope.new n ≡ ((line == n) || names_catalogue scope.old n)) }
    ensures others { IfPassed result ((n : ℕ)
        → names_request scope.new n ≡ names_request scope.old n) }
{
    match scope {
        Premises::Named {
            catalogue: marks,
            ..
        } => name_in_catalogue(catalogue, marks, line),
        Premises::All => Ok(catalogue.kept().rule(line).is_some()),
    }
}

fn name_request(request: &Request, scope: &mut Premises, line: u32) -> Result<bool, AllocError>
    ensures fine { IfOk result (λ fine. fine ≡ has_rule (line_at request.now.lines line)) }
    ensures named { IfPassed result ((n : ℕ)
        → names_request scope.new n ≡ ((line == n) || names_request scope.old n)) }
    ensures others { IfPassed result ((n : ℕ)
        → names_catalogue scope.new n ≡ names_catalogue scope.old n) }
{
    match scope {
        Premises::Named { request: marks, .. } => name_in_request(request, marks, line),
        Premises::All => Ok(is_rule(request, line)),
    }
}
