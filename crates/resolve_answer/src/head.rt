//! The text of a report without a message. That of a refusal stands before its message.

ghost use Rattle.std.specs.Prelude.{◌≡◌, IfOk, IsOkUnless};
ghost use Rattle.resolvo_pool_core.specs.declared.want.Want.TheVariants.{Memory};
ghost use Rattle.resolvo_report.specs.Text.{report_text};
ghost use Rattle.resolvo_report.specs.View.{report_of};

use resolvo_pool_core::want::{R, Want};
use resolvo_report::Report;
use resolvo_text::GrowingSink;
use std::alloc::Global;

/// The text of a report.
pub(crate) fn report_text(alloc: Global, report: &Report) -> R<Vec<u8>>
    ensures text { IfOk result (λ text. text.items ≡ report_text (report_of report.now)) }
    ensures refusal { IsOkUnless result Memory }
{
    let mut sink = GrowingSink::new(alloc);
    match report.write(alloc, &mut sink) {
        Ok(()) => Ok(sink.into_bytes()),
        Err(_) => Err(Want::Memory),
    }
}
