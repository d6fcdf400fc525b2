//! The outcome and the text where a text was not read. `run` and `check` call it.

ghost use Rattle.std.specs.Prelude.{◌≡◌, IfOk, IfErr};
ghost use Rattle.resolve_check.specs.Texts.{fault_text};
ghost use Rattle.resolve_check.specs.Faults.{WritesFault};

use crate::outcome::{Outcome, RunFault};
use resolvo_catalogue_core::ReadFault;
use std::alloc::{AllocError, Global};

/// The outcome of the run, and the text to write.
#[derive(Drop)]
pub struct Written {
    pub outcome: Outcome,
    pub text: Vec<u8>,
}

/// The line that names the first faulty line of a text, which is `catalogue` or `request`.
fn fault_text(alloc: Global, which: &str, line: u32) -> Result<Vec<u8>, AllocError>
    ensures { IfOk result (λ text. text.items ≡ fault_text which.now line) }
{
    let text = format!(in alloc; "fault at {which} line {line}\n")?;
    Ok(Vec::from_slice(alloc, text.as_bytes())?)
}

/// The outcome and the text for a faulty line.
pub fn faulty(alloc: Global, which: &str, line: u32) -> Result<Written, RunFault>
    ensures ok { IfOk result
        (λ answer.
        (answer.outcome ≡ Outcome.Faulty) × (answer.text.items ≡ fault_text which.now line)) }
    ensures err { IfErr result (λ e. e ≡ RunFault.Memory) }
{
    Ok(Written {
        outcome: Outcome::Faulty,
        text: fault_text(alloc, which, line)?,
    })
}

/// The outcome and the text where a text was not read: its faulty line, or nothing.
pub fn not_read(alloc: Global, which: &str, fault: ReadFault) -> Result<Written, RunFault>
    ensures { WritesFault fault which.now result }
{
    match fault {
        ReadFault::Fault(line) => faulty(alloc, which, line),
        ReadFault::Reader => Err(RunFault::Reader),
        ReadFault::TooLong => Err(RunFault::TooLong),
        ReadFault::Memory => Err(RunFault::Memory),
        ReadFault::Ids => Err(RunFault::Ids),
    }
}
