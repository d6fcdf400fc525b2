//! Judging for C.

ghost use Rattle.std.specs.Prelude.{IfOk, IfErr};
ghost use Rattle.resolve_check.specs.Check.{IsCheck};
ghost use Rattle.resolve_c.specs.CallResult.{Judges, StopsJudging};

use crate::call_result::{CallResult, write_text};
use crate::call_status::{check_ending_of, fault_ending_of, growing};
use crate::lent::Lent;
use resolve_check::check::check;
use resolve_check::outcome::{Checked, RunFault};
use resolvo_text::GrowingSink;
use std::alloc::Global;

/// The outcome of `check`, and the text that it writes.
#[derive(Drop)]
struct Judged {
    checked: Checked,
    text: Vec<u8>,
}

/// The text that `check` writes for the three texts, or why it writes nothing.
fn verdict_of(
    alloc: Global,
    catalogue: &[u8],
    request: &[u8],
    report: &[u8],
) -> Result<Judged, RunFault>
    ensures ok { IfOk result (λ a. IsCheck catalogue.now request.now report.now
        a.checked a.text.items) }
    ensures err { IfErr result (λ e. StopsJudging e catalogue.now request.now report.now) }
{
    let mut text = GrowingSink::new(alloc);
    match check(
        alloc,
        &mut Lent::new(catalogue),
        &mut Lent::new(request),
        &mut Lent::new(report),
        &mut text,
    ) {
        Ok(checked) => Ok(Judged {
            checked,
            text: text.into_bytes(),
        }),
        Err(fault) => Err(growing(fault)),
    }
}

/// Writes the text of `resolve judge` for the three texts, as much as fits.
#[unsafe(no_mangle)]
pub extern "C" fn resolve_judge(
    alloc: Global,
    catalogue: &[u8],
    request: &[u8],
    report: &[u8],
    room: &mut [u8],
) -> CallResult
    ensures { Judges catalogue.now request.now report.now room.old room.new result }
{
    match verdict_of(alloc, catalogue, request, report) {
        Ok(answer) => write_text(check_ending_of(answer.checked), &answer.text, room),
        Err(fault) => write_text(fault_ending_of(fault), b"", room),
    }
}
