//! Writing all of some bytes to a device.
//!
//! The contracts describe what the device took as a prefix of the bytes. Writers of reports and of
//! fault lines call `write_all`.

ghost use Rattle.std.specs.Prelude.{◌≡◌, ◌<◌, ◌≤◌, length, take, IfOk, OnOk, OnErr, MatchResult};
ghost use Rattle.std.specs.Io.KnownBytes.{Appends, Keeps};
ghost use Rattle.resolvo_text.specs.Device.{TakesPrefix};
ghost use Rattle.resolvo_text.specs.Sources.{SinkFailed};

use crate::device::{IoFault, MOST_INTERRUPTIONS, Sink};
use thiserror::Error;

/// The device failed, took no byte, or was interrupted too often in a row.
#[derive(Clone, Copy, Debug, PartialEq, Eq, Error)]
#[error("the text could not be written")]
pub struct WriteFault;

/// Writes all of the bytes, in as many calls as the device needs.
pub fn write_all<S: Sink>(sink: &mut S, bytes: &[u8]) -> Result<(), WriteFault>
    ensures whole { OnOk result (Appends (S.contents sink.old) (S.contents sink.new) bytes.now) }
    ensures prefix { OnErr result (TakesPrefix (S.contents sink.old) (S.contents sink.new) bytes.now) }
    ensures failures { OnOk result (S.failures sink.new ≡ S.failures sink.old) }
    ensures empty { OnOk result (S.empty_writes sink.new ≡ S.empty_writes sink.old) }
    ensures fault { OnErr result
        (SinkFailed S.Sink sink.old sink.new) }
{
    let mut rest = bytes;
    while !rest.is_empty() {
        let count = write_some(sink, rest)?;
        rest = &rest[count..];
    }
    Ok(())
}

/// Writes a prefix of the bytes, and returns how many it has.
fn write_some<S: Sink>(sink: &mut S, bytes: &[u8]) -> Result<usize, WriteFault>
    // After an answer.
    ensures within { IfOk result (λ n. n ≤ length bytes.now) }
    ensures some { IfOk result (λ n. 0 < n) }
    // Whatever the answer.
    ensures bytes { MatchResult result
        (λ n. Appends (S.contents sink.old) (S.contents sink.new) (take n bytes.now))
        (λ _. Keeps (S.contents sink.old) (S.contents sink.new)) }
    // After an answer.
    ensures failures { OnOk result (S.failures sink.new ≡ S.failures sink.old) }
    ensures empty { OnOk result (S.empty_writes sink.new ≡ S.empty_writes sink.old) }
    // After a refusal.
    ensures fault { OnErr result
        (SinkFailed S.Sink sink.old sink.new) }
{
    for _try in 0..MOST_INTERRUPTIONS + 1 {
        match sink.write(bytes) {
            Ok(0) => return Err(WriteFault),
            Ok(count) => return Ok(count),
            Err(IoFault::Interrupted) => {}
            Err(IoFault::Failed) => return Err(WriteFault),
        }
    }
    Err(WriteFault)
}
