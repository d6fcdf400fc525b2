//! Whole proofs: the steps in order, from all lines or from the named ones.

ghost use Rattle.std.specs.Prelude.{◌≡◌, ◌+◌, ◌^◌, ◌<◌, ◌≤◌, ℕ, [], List, Some, IfOk, IfSome, IfNone, length, replicate, None, true, slice_get};
ghost use Rattle.resolvo_text.specs.Line.{Version};
ghost use Rattle.resolvo_text.specs.Matches.{Set};
ghost use Rattle.resolvo_catalogue_core.specs.Listed.{listed};
ghost use Rattle.resolvo_catalogue_core.specs.Sets.{IsSingle};
ghost use Rattle.resolvo_report.specs.Value.{Step as StepValue};
ghost use Rattle.resolvo_report.specs.View.{step_of, steps_of};
ghost use Rattle.resolvo_checker.specs.StepClauses.{Clause, clause_of};
ghost use Rattle.resolvo_checker.specs.Proof.{IsProof, IsWrongAt, ObeysTested, ends_empty, forbids, AreApart};
ghost use Rattle.resolvo_checker.specs.CheckStep.{names_catalogue, names_request, causes_in, count_causes, CheckerInvariant};

use crate::assignment::Assignment;
use crate::atom_ids::AtomIds;
use crate::check_step::{Checker, Premises, check_step};
use crate::clauses::{Clauses, Readings};
use crate::rule_steps::RuleSteps;
use resolvo_catalogue_core::{Catalogue, Request};
use resolvo_report::Step;
use std::alloc::{AllocError, Global};

/// The first invalid step, from 0, and the counts of clauses that were named and read.
#[derive(Clone, Copy, Debug)]
pub struct Checked {
    pub wrong: Option<usize>,
    pub readings: Readings,
}

/// So many places, all empty.
pub fn nothing_each<T: Copy>(alloc: Global, count: usize) -> Result<Vec<Option<T>>, AllocError>
    ensures { IfOk result (λ places. places.items ≡ replicate count None) }
{
    let mut places = Vec::new(alloc);
    for _ in 0..count {
        places.push(None)?;
    }
    Ok(places)
}

/// The checker's state before the first step.
pub fn begin(alloc: Global, catalogue: &Catalogue, request: &Request) -> Result<Checker, AllocError>
    ensures represents { IfOk result (λ c.
        CheckerInvariant catalogue.now request.now.lines c.numbers [] c.places.items c.rules []) }
    ensures pass { IfOk result (λ c. c.truth.pass ≡ 0) }
    ensures long { IfOk result (λ c. length c.places.items ≡ length (listed catalogue.now)) }
{
    let places = nothing_each(alloc, catalogue.versions().len())?;
    Ok(Checker {
        numbers: AtomIds::new(alloc),
        truth: Assignment::new(alloc),
        places,
        rules: RuleSteps::new(alloc),
        literals: Vec::new(alloc),
    })
}

/// How many clauses a step names.
pub fn causes_in(step: &Step) -> u64
    ensures { result ≡ causes_in (step_of step.now) }
{
    match step {
        Step::Derive { causes, .. } => causes.len() as u64,
        _ => 0,
    }
}

/// How many clauses the steps name, if that is a number of 64 bits.
pub fn count_causes(steps: &[Step]) -> Option<u64>
    ensures count { IfSome result (λ n. n ≡ count_causes (steps_of steps.now)) }
    ensures none { IfNone result (2 ^ 64 ≤ count_causes (steps_of steps.now)) }
{
    let mut count = 0u64;
    for step in steps {
        count = count.checked_add(causes_in(step))?;
    }
    Some(count)
}

/// Checks the steps in order. The answer is the first invalid step, from 0.
fn check_from(
    alloc: Global,
    catalogue: &Catalogue,
    request: &Request,
    scope: &Premises,
    checker: &mut Checker,
    clauses: &mut Clauses,
    steps: &[Step],
) -> Result<Option<usize>, AllocError>
    requires represents { CheckerInvariant catalogue.now request.now.lines checker.old.numbers
        clauses.old.kept
        checker.old.places.items checker.old.rules [] }
    requires pass { checker.old.truth.pass ≡ 0 }
    requires count { clauses.old.kept ≡ [] }
    requires unnamed { clauses.old.readings.named ≡ 0 }
    requires unread { clauses.old.readings.read ≡ 0 }
    requires long { length checker.old.places.items ≡ length (listed catalogue.now) }
    requires few { length steps.now + 1 < 2 ^ 32 }
    requires room { count_causes (steps_of steps.now) < 2 ^ 64 }
    // After an answer.
    ensures wrong { IfOk result
        (λ wrong.
        IfSome wrong
        (IsWrongAt catalogue.now request.now.lines (names_catalogue scope.now)
        (names_request scope.now) (steps_of steps.now))) }
    ensures proof { IfOk result
        (λ wrong.
        IfNone wrong
        (IsProof catalogue.now request.now.lines (names_catalogue scope.now)
        (names_request scope.now) (steps_of steps.now))) }
    ensures named { IfOk result
        (λ wrong. IfNone wrong (clauses.new.readings.named ≡ count_causes (steps_of steps.now))) }
    ensures read { IfOk result
        (λ wrong. IfNone wrong (clauses.new.readings.read ≡ count_causes (steps_of steps.now))) }
{
    for at in 0..steps.len() {
        let step = &steps[at];
        if !check_step(alloc, catalogue, request, scope, checker, clauses, step)? {
            return Ok(Some(at));
        }
        clauses.name(causes_in(step));
    }
    Ok(None)
}

/// Checks a proof from the lines of the scope.
pub fn check_steps(
    alloc: Global,
    catalogue: &Catalogue,
    request: &Request,
    scope: &Premises,
    steps: &[Step],
) -> Result<Checked, AllocError>
    requires few { length steps.now + 1 < 2 ^ 32 }
    requires room { count_causes (steps_of steps.now) < 2 ^ 64 }
    // The first invalid step, or else the steps are a proof.
    ensures wrong { IfOk result
        (λ c.
        IfSome c.wrong
        (IsWrongAt catalogue.now request.now.lines (names_catalogue scope.now)
        (names_request scope.now) (steps_of steps.now))) }
    ensures proof { IfOk result
        (λ c.
        IfNone c.wrong
        (IsProof catalogue.now request.now.lines (names_catalogue scope.now)
        (names_request scope.now) (steps_of steps.now))) }
    // Each named clause was read once for each naming.
    ensures named { IfOk result (λ c. IfNone c.wrong
        (c.readings.named ≡ count_causes (steps_of steps.now))) }
    ensures read { IfOk result (λ c. IfNone c.wrong
        (c.readings.read ≡ count_causes (steps_of steps.now))) }
    // Where a proof ends with the empty clause, no single set obeys the lines.
    ensures refutes { IfOk result
        (λ c.
        IfNone c.wrong
        (ends_empty (steps_of steps.now) ≡ true
        → (set : Set)
        → IsSingle catalogue.now set
        → ObeysTested catalogue.now request.now.lines (names_catalogue scope.now)
        (names_request scope.now) set
        → ⊥)) }
{
    let mut checker = begin(alloc, catalogue, request)?;
    let mut clauses = Clauses::new(alloc);
    let wrong = check_from(
        alloc,
        catalogue,
        request,
        scope,
        &mut checker,
        &mut clauses,
        steps,
    )?;
    Ok(Checked {
        wrong,
        readings: clauses.readings(),
    })
}
