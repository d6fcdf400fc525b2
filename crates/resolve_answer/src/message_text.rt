//! The text of a value as the lines of a report's message, made while the value is written: a sign
//! stands before each line. No line is kept apart, and bytes without a newline are taken at once.

ghost use Rattle.std.specs.Prelude.{◌≡◌, ◌++◌, ◌∷◌, [], true, false, IfOk, IfSome, IsOkUnless, OnOk};
ghost use Rattle.resolvo_pool_core.specs.declared.want.Want.TheVariants.{Memory};
ghost use Rattle.resolve_answer.specs.Message.{IsPlain};
ghost use Rattle.resolve_answer.specs.Marked.{Marks, marked, sign_at};

use memchr::memchr;
use resolvo_pool_core::want::{R, Want};
use std::alloc::Global;
use std::fmt;
use std::fmt::Write;

/// The lines so far, each behind its sign, and whether the next byte begins a line.
#[derive(Drop)]
struct MessageText {
    bytes: Vec<u8>,
    begins: bool,
}

impl MessageText {
    /// Writes the sign of a line, where one begins.
    #[tactic(auto, using(crate::proofs::MarkLemmas::no_sign, crate::proofs::MarkLemmas::one_sign))]
    fn begin(&mut self) -> R<()>
        ensures sign { OnOk result
            (self.new.bytes.items ≡ self.old.bytes.items ++ sign_at self.old.begins) }
        ensures begun { OnOk result (self.new.begins ≡ false) }
        ensures refusal { IsOkUnless result Memory }
    {
        if !self.begins {
            return Ok(());
        }
        self.bytes.extend_from_slice(b"| ")?;
        self.begins = false;
        Ok(())
    }

    /// Takes bytes that have no newline.
    fn push_plain(&mut self, bytes: &[u8]) -> R<()>
        requires { IsPlain bytes.now }
        ensures pushed { OnOk result
            (Marks self.old.begins self.old.bytes.items bytes.now
            self.new.begins self.new.bytes.items) }
        ensures refusal { IsOkUnless result Memory }
    {
        if bytes.is_empty() {
            return Ok(());
        }
        self.begin()?;
        self.bytes.extend_from_slice(bytes)?;
        Ok(())
    }

    /// Takes one byte more.
    fn push(&mut self, byte: u8) -> R<()>
        ensures pushed { OnOk result
            (Marks self.old.begins self.old.bytes.items (byte ∷ [])
            self.new.begins self.new.bytes.items) }
        ensures refusal { IsOkUnless result Memory }
    {
        self.begin()?;
        self.bytes.push(byte)?;
        self.begins = byte == b'\n';
        Ok(())
    }
}

/// Whether these bytes have no newline.
fn is_plain(bytes: &[u8]) -> bool
    ensures { result ≡ true → IsPlain bytes.now }
{
    match memchr(b'\n', bytes) {
        Some(_) => false,
        None => true,
    }
}

impl fmt::Write for MessageText {
    ghost write_str_gives = { λ s bs t. Marks s.begins s.bytes.items bs t.begins t.bytes.items };

    fn write_str(&mut self, s: &str) -> fmt::Result {
        let bytes = s.as_bytes();
        if is_plain(bytes) {
            let Ok(()) = self.push_plain(bytes) else {
                return Err(fmt::Error);
            };
            return Ok(());
        }
        for byte in bytes {
            let Ok(()) = self.push(*byte) else {
                return Err(fmt::Error);
            };
        }
        Ok(())
    }
}

/// The text of a value, with the sign of a message before each line.
pub(crate) fn message_text<D: fmt::Display>(alloc: Global, value: &D) -> R<Vec<u8>>
    ensures text { IfOk result
        (λ v. IfSome (D.output value.now) (λ text. v.items ≡ marked true text)) }
    ensures refusal { IsOkUnless result Memory }
{
    let mut message = MessageText {
        bytes: Vec::new(alloc),
        begins: true,
    };
    match message.write(value) {
        Ok(()) => Ok(message.bytes),
        Err(_) => Err(Want::Memory),
    }
}
