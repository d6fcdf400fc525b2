//! The text of a run, in two parts: a report's message is long, and is not copied.

ghost use Rattle.std.specs.Prelude.{◌≡◌, ◌<◌, ◌≤◌, ◌++◌, length, IfOk, IfErr, OnOk, OnErr};
ghost use Rattle.std.specs.Io.KnownBytes.{Appends};
ghost use Rattle.resolvo_text.specs.Device.{TakesPrefix};
ghost use Rattle.resolvo_text.specs.Sources.{SinkFailed};
ghost use Rattle.resolvo_report.specs.Grammar.{most_bytes};
ghost use Rattle.resolve_check.specs.declared.outcome.RunFault.TheVariants.{TooLong};
ghost use Rattle.resolve_run.specs.Whole.{IsAlone};

use crate::stop::RunStop;
use resolve_answer::stop::MOST_BYTES;
use resolve_check::outcome::{Outcome, RunFault};
use resolve_check::read_fault::Written;
use resolvo_catalogue_core::{Sink, WriteFault, write_all};
use std::alloc::Global;

/// The outcome of the run, and the text to write: a report's message, and what stands before it.
#[derive(Drop)]
pub(crate) struct RunText {
    pub outcome: Outcome,
    pub head: Vec<u8>,
    pub message: Vec<u8>,
}

impl RunText {
    /// The text of a report. It is refused where it is too long for one.
    #[tactic(auto, using(crate::proofs::WriteLemmas::both_length))]
    pub(crate) fn report(
        outcome: Outcome,
        head: Vec<u8>,
        message: Vec<u8>,
    ) -> Result<RunText, RunFault>
        ensures ok { IfOk result
            (λ text.
            (text ≡ record { outcome = outcome; head = head; message = message })
            × (length (head.items ++ message.items) ≤ most_bytes)) }
        ensures err { IfErr result
            (λ e. (e ≡ TooLong) × (most_bytes < length (head.items ++ message.items))) }
    {
        let count = (head.len() as u64).saturating_add(message.len() as u64);
        if count > MOST_BYTES {
            return Err(RunFault::TooLong);
        }
        Ok(RunText {
            outcome,
            head,
            message,
        })
    }

    /// The text where a text was not read, in a run that may have a budget.
    pub(crate) fn unread(alloc: Global, read: Result<Written, RunFault>) -> Result<RunText, RunStop>
        ensures { IsAlone read result }
    {
        match read {
            Ok(written) => Ok(RunText {
                outcome: written.outcome,
                head: written.text,
                message: Vec::new(alloc),
            }),
            Err(fault) => Err(RunStop::Fault(fault)),
        }
    }
}

/// Writes both parts of a text.
pub(crate) fn write_both<W: Sink>(
    writer: &mut W,
    head: &[u8],
    message: &[u8],
) -> Result<(), WriteFault>
    ensures whole { OnOk result
        (Appends (W.contents writer.old) (W.contents writer.new) (head.now ++ message.now)) }
    ensures prefix { OnErr result
        (TakesPrefix (W.contents writer.old) (W.contents writer.new) (head.now ++ message.now)) }
    ensures fault { OnErr result (SinkFailed W.Sink writer.old writer.new) }
{
    match write_all(writer, head) {
        Ok(()) => write_all(writer, message),
        Err(fault) => Err(fault),
    }
}
