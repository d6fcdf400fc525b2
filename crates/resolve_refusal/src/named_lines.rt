//! The lines that steps cite.

ghost use Rattle.std.specs.Prelude.{◌≡◌, ◌<◌, ◌⊎◌, ℕ, IfOk, IsOkUnless, length, suc};
ghost use Rattle.resolvo_pool_core.specs.declared.want.Want.TheVariants.{Memory};
ghost use Rattle.resolvo_catalogue_core.specs.Questions.{AreAll};
ghost use Rattle.resolvo_report.specs.View.{place_of, step_of, steps_of};
ghost use Rattle.resolve_refusal.specs.Named.{line_of, in_catalogue, line_in, IsFlagged, IsFlaggedLine, AreFlagged, IsNamedBy};

use resolvo_pool_core::want::R;
use resolvo_report::{Place, Step};
use std::alloc::Global;

/// One of the two texts.
#[derive(Clone, Copy)]
pub(crate) enum Text {
    Catalogue,
    Request,
}

/// The lines that the steps cite, of a text with `count` lines: each once, in rising order.
pub(crate) fn named_lines(alloc: Global, text: Text, count: u32, steps: &[Step]) -> R<Vec<u32>>
    ensures lines { IfOk result (λ v. AreAll v.items (IsNamedBy text count (steps_of steps.now))) }
    ensures refusal { IsOkUnless result Memory }
{
    let flags = flag_lines(alloc, text, count, steps)?;
    // split for the prover: error and answer
    let lines = flagged(alloc, flags.as_slice())?;
    Ok(lines)
}

/// A flag for each line of a text, set where a step cites the line.
fn flag_lines(alloc: Global, text: Text, count: u32, steps: &[Step]) -> R<Vec<bool>>
    ensures flags { IfOk result (λ v. AreFlagged text count (steps_of steps.now) v.items) }
    ensures refusal { IsOkUnless result Memory }
{
    let mut flags = Vec::new(alloc);
    flags.resize(count as usize, false)?;
    for step in steps {
        if let Some(line) = line_in(text, step) {
            flag(&mut flags, line);
        }
    }
    Ok(flags)
}

/// Sets the flag of a line, which is numbered from 1.
fn flag(flags: &mut Vec<bool>, line: u32)
    ensures long { length flags.new.items ≡ length flags.old.items }
    ensures kept { (k : ℕ) → IsFlagged flags.old.items k → IsFlagged flags.new.items k }
    ensures set { (k : ℕ) → line ≡ suc k → k < length flags.old.items
        → IsFlagged flags.new.items k }
    ensures only { (k : ℕ) → IsFlagged flags.new.items k
        → IsFlagged flags.old.items k ⊎ (line ≡ suc k) }
{
    if let Some(index) = (line as usize).checked_sub(1) {
        if index < flags.len() {
            flags[index] = true;
        }
    }
}

/// The numbers of the lines whose flags are set, in rising order.
fn flagged(alloc: Global, flags: &[bool]) -> R<Vec<u32>>
    requires { length flags.now < 4294967296 }
    ensures lines { IfOk result (λ v. AreAll v.items (IsFlaggedLine flags.now (length flags.now))) }
    ensures refusal { IsOkUnless result Memory }
{
    let mut lines = Vec::new(alloc);
    for (index, flag) in flags.iter().enumerate() {
        if *flag {
            lines.push(index as u32 + 1)?;
        }
    }
    Ok(lines)
}

/// The line of a text that a step cites, if it cites one.
fn line_in(text: Text, step: &Step) -> Option<u32>
    ensures { result ≡ line_in text (step_of step.now) }
{
    match step {
        Step::Need { place, line, .. } => line_of(text, place, *line),
        Step::LimitBars { place, line, .. } => line_of(text, place, *line),
        Step::Limit { place, line } => line_of(text, place, *line),
        Step::Gate { line, .. } => in_catalogue(text, *line),
        Step::Lock { line, .. } => in_catalogue(text, *line),
        Step::Exclude { line } => in_catalogue(text, *line),
        Step::Unknown { line } => in_catalogue(text, *line),
        Step::Shared { .. }
        | Step::Outside { .. }
        | Step::Matches { .. }
        | Step::Digit { .. }
        | Step::Any { .. }
        | Step::Derive { .. } => None,
    }
}

/// The line of a place, if the place is in the text.
fn line_of(text: Text, place: &Place, line: u32) -> Option<u32>
    ensures { result ≡ line_of text (place_of place.now) line }
{
    match (text, place) {
        (Text::Request, Place::Request) => Some(line),
        (Text::Catalogue, Place::Version(_)) => Some(line),
        _ => None,
    }
}

/// The line, if the text is the catalogue.
fn in_catalogue(text: Text, line: u32) -> Option<u32>
    ensures { result ≡ in_catalogue text line }
{
    match text {
        Text::Catalogue => Some(line),
        Text::Request => None,
    }
}
