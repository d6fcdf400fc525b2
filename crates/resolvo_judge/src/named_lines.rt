//! The lines that a refusal names. `Premises` has their marks: steps may name no other lines.

ghost use Rattle.std.specs.Prelude.{◌≡◌, ◌==◌, ◌||◌, ◌<◌, ℕ, IfOk, OnOk, IsTrue, vec_len};
ghost use Rattle.resolvo_catalogue_core.specs.Grammar.{line_at};
ghost use Rattle.resolvo_checker.specs.CheckStep.{flag_at};
ghost use Rattle.resolvo_judge.specs.Refusal.{has_rule};

use resolvo_catalogue_core::{Catalogue, Request};
use std::alloc::AllocError;

/// Makes room for the mark of the line, and marks none.
fn reach(marks: &mut Vec<bool>, line: u32) -> Result<(), AllocError>
    ensures len { OnOk result (line < vec_len marks.new) }
    ensures same { OnOk result ((n : ℕ) → flag_at marks.new.items n ≡ flag_at marks.old.items n) }
{
    let count = line as usize + 1;
    for _ in marks.len()..count {
        marks.push(false)?;
    }
    Ok(())
}

/// Marks the line.
fn mark(marks: &mut Vec<bool>, line: u32) -> Result<(), AllocError>
    ensures { OnOk result
        ((n : ℕ) → flag_at marks.new.items n ≡ ((line == n) || flag_at marks.old.items n)) }
{
    reach(marks, line)?;
    marks[line as usize] = true;
    Ok(())
}

/// Marks a line of the catalogue as named, if it has a rule.
pub fn name_in_catalogue(
    catalogue: &Catalogue,
    marks: &mut Vec<bool>,
    line: u32,
) -> Result<bool, AllocError>
    ensures fine { IfOk result (λ fine. fine ≡ has_rule (line_at catalogue.now line)) }
    ensures marks { IfOk result
        (λ fine.
        IsTrue fine
        → (n : ℕ)
        → flag_at marks.new.items n ≡ ((line == n) || flag_at marks.old.items n)) }
{
    match catalogue.kept().rule(line) {
        Some(_) => {
            mark(marks, line)?;
            Ok(true)
        }
        None => Ok(false),
    }
}

/// Whether the line of the request has a rule.
pub fn is_rule(request: &Request, line: u32) -> bool
    ensures { result ≡ has_rule (line_at request.now.lines line) }
{
    match request.rule(line) {
        Some(_) => true,
        None => false,
    }
}

/// Marks a line of the request as named, if it has a rule.
pub fn name_in_request(
    request: &Request,
    marks: &mut Vec<bool>,
    line: u32,
) -> Result<bool, AllocError>
    ensures fine { IfOk result (λ fine. fine ≡ has_rule (line_at request.now.lines line)) }
    ensures marks { IfOk result
        (λ fine.
        IsTrue fine
        → (n : ℕ)
        → flag_at marks.new.items n ≡ ((line == n) || flag_at marks.old.items n)) }
{
    if !is_rule(request, line) {
        return Ok(false);
    }
    mark(marks, line)?;
    Ok(true)
}
