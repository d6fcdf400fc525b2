//! Solving for C, without a budget and with one.

ghost use Rattle.std.specs.Prelude.{None, Some, IfOk, IfErr};
ghost use Rattle.resolve_run.specs.Answer.{IsAnswer};
ghost use Rattle.resolve_c.specs.CallResult.{Solves, SolvesWithin, StopsSolvingWithin};

use crate::call_result::{CallResult, write_text};
use crate::call_status::{ending_of, growing_within, stop_ending_of};
use crate::lent::Lent;
use resolve_check::read_fault::Written;
use resolve_run::{RunStop, run_within};
use resolvo_text::GrowingSink;
use std::alloc::Global;

/// The text that `run` writes for the two texts, or why it writes nothing.
fn answer_of(
    alloc: Global,
    catalogue: &[u8],
    request: &[u8],
    budget: Option<u64>,
) -> Result<Written, RunStop>
    ensures ok { IfOk result (λ a. IsAnswer catalogue.now request.now a.outcome a.text.items) }
    ensures err { IfErr result (λ e. StopsSolvingWithin budget e catalogue.now request.now) }
{
    let mut text = GrowingSink::new(alloc);
    match run_within(
        alloc,
        &mut Lent::new(catalogue),
        &mut Lent::new(request),
        &mut text,
        budget,
    ) {
        Ok(outcome) => Ok(Written {
            outcome,
            text: text.into_bytes(),
        }),
        Err(stop) => Err(growing_within(stop)),
    }
}

/// Writes the text of `resolve solve` for the two texts, as much as fits.
#[unsafe(no_mangle)]
pub extern "C" fn resolve_solve(
    alloc: Global,
    catalogue: &[u8],
    request: &[u8],
    room: &mut [u8],
) -> CallResult
    ensures { Solves catalogue.now request.now room.old room.new result }
{
    match answer_of(alloc, catalogue, request, None) {
        Ok(answer) => write_text(ending_of(answer.outcome), &answer.text, room),
        Err(stop) => write_text(stop_ending_of(stop), b"", room),
    }
}

/// The same, or it gives up: where the solver asks more than `budget` times whether to stop.
#[unsafe(no_mangle)]
pub extern "C" fn resolve_solve_within(
    alloc: Global,
    catalogue: &[u8],
    request: &[u8],
    budget: u64,
    room: &mut [u8],
) -> CallResult
    ensures { SolvesWithin catalogue.now request.now room.old room.new result }
{
    match answer_of(alloc, catalogue, request, Some(budget)) {
        Ok(written) => write_text(ending_of(written.outcome), &written.text, room),
        Err(stop) => write_text(stop_ending_of(stop), b"", room),
    }
}
