//! A RUP check with hints: one pass of unit propagation over the hinted clauses, in order.

ghost use Rattle.std.specs.Prelude.{◌≡◌, ◌+◌, ◌^◌, ◌<◌, ◌≤◌, length, map, IfOk, OnOk, true};
ghost use Rattle.std.specs.Bool.{nat_eq};
ghost use Rattle.std.specs.List.{list_all};
ghost use Rattle.resolvo_pool_core.specs.OnePass.{is_denied, reading, is_broken, learn, deny, one_pass};
ghost use Rattle.resolvo_checker.specs.Truth.{known_in};
ghost use Rattle.resolvo_checker.specs.Literals.{literal_of, literals_of, status_of, clause_at};
ghost use Rattle.resolvo_checker.specs.Rup.{is_earlier, with_literal};

use crate::assignment::Assignment;
use crate::clauses::Clauses;
use crate::literal::{ClauseStatus, Literal};
use std::alloc::AllocError;

fn is_false(truth: &Assignment, literal: Literal) -> bool
    ensures { result
        ≡ is_denied (known_in truth.now.marks.items truth.now.pass literal.atom) literal.positive }
{
    match truth.known(literal.atom) {
        None => false,
        Some(value) => value != literal.positive,
    }
}

/// The status of the clause with one more literal that isn't false.
fn with_literal(status: ClauseStatus, literal: Literal) -> ClauseStatus
    ensures { status_of result
        ≡ with_literal nat_eq (status_of status) (literal_of literal) }
{
    match status {
        ClauseStatus::Falsified => ClauseStatus::Unit(literal),
        ClauseStatus::Unit(other) => {
            if other.atom == literal.atom && other.positive == literal.positive {
                ClauseStatus::Unit(other)
            } else {
                ClauseStatus::Open
            }
        }
        ClauseStatus::Open => ClauseStatus::Open,
    }
}

/// What the clause is under the assignment.
fn status_of(truth: &Assignment, clause: &[Literal]) -> ClauseStatus
    ensures { status_of result
        ≡ reading nat_eq (known_in truth.now.marks.items truth.now.pass) (literals_of clause.now) }
{
    let mut status = ClauseStatus::Falsified;
    for literal in clause {
        if !is_false(truth, *literal) {
            status = with_literal(status, *literal);
        }
    }
    status
}

/// Whether the clause is falsified. If it is unit, its unassigned literal becomes true.
fn read(truth: &mut Assignment, clause: &[Literal]) -> Result<bool, AllocError>
    ensures broken { IfOk result
        (λ broken.
        broken
        ≡ is_broken
        (reading nat_eq (known_in truth.old.marks.items truth.old.pass)
        (literals_of clause.now))) }
    ensures known { OnOk result
        (known_in truth.new.marks.items truth.new.pass
        ≡ learn nat_eq (known_in truth.old.marks.items truth.old.pass)
        (reading nat_eq (known_in truth.old.marks.items truth.old.pass)
        (literals_of clause.now))) }
    ensures pass { truth.new.pass ≡ truth.old.pass }
{
    match status_of(truth, clause) {
        ClauseStatus::Falsified => Ok(true),
        ClauseStatus::Unit(literal) => {
            if truth.known(literal.atom).is_none() {
                truth.set(literal.atom, literal.positive)?;
            }
            Ok(false)
        }
        ClauseStatus::Open => Ok(false),
    }
}

/// Makes all literals of the clause false.
fn deny_all(truth: &mut Assignment, clause: &[Literal]) -> Result<(), AllocError>
    ensures known { OnOk result
        (known_in truth.new.marks.items truth.new.pass
        ≡ deny nat_eq (known_in truth.old.marks.items truth.old.pass) (literals_of clause.now)) }
    ensures pass { truth.new.pass ≡ truth.old.pass }
{
    for literal in clause {
        truth.set(literal.atom, !literal.positive)?;
    }
    Ok(())
}

/// Whether the denied clause is RUP by one pass over the causes, which are steps from 1.
///
/// The pass number is greater than that of every earlier pass.
pub fn is_rup(
    truth: &mut Assignment,
    pass: u32,
    denied: &[Literal],
    clauses: &mut Clauses,
    causes: &[u32],
) -> Result<bool, AllocError>
    requires later { truth.old.pass < pass }
    requires causes { list_all (is_earlier (length clauses.old.kept)) causes.now ≡ true }
    requires room { clauses.old.readings.read + length causes.now < 2 ^ 64 }
    // After an answer.
    ensures answer { IfOk result
        (λ refuted.
        refuted
        ≡ one_pass nat_eq (literals_of denied.now)
        (map (clause_at clauses.old.kept) causes.now)) }
    ensures read { OnOk result
        (clauses.new.readings
        ≡ record clauses.old.readings { read = clauses.old.readings.read + length causes.now }) }
    // Whatever the answer.
    ensures kept { clauses.new.kept ≡ clauses.old.kept }
    ensures pass { truth.new.pass ≡ pass }
{
    truth.begin(pass);
    deny_all(truth, denied)?;
    let mut refuted = false;
    for cause in causes {
        clauses.read_clause(*cause as usize - 1);
        refuted |= read(truth, clauses.last_read())?;
    }
    Ok(refuted)
}
