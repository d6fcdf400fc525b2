//! The bytes that a caller lends, as a device for `run` and `check`.

ghost use Rattle.std.specs.Prelude.{◌≡◌, ◌≤◌, ◌<◌, ◌++◌, [], Some, take, drop, length};

use resolvo_text::{IoFault, Source};

/// Copies as much as fits, and returns how many bytes.
fn copy_prefix(buf: &mut [u8], bytes: &[u8]) -> usize
    ensures within { result ≤ length buf.new }
    ensures prefix { bytes.now ≡ take result buf.new ++ drop result bytes.now }
    ensures short { result ≤ length bytes.now }
    ensures none { result ≡ 0 → 0 < length buf.new → bytes.now ≡ [] }
{
    let count = buf.len().min(bytes.len());
    buf[..count].copy_from_slice(&bytes[..count]);
    count
}

/// A device that gives these bytes, and never fails.
#[derive(Drop)]
pub(crate) struct Lent<'a> {
    left: &'a [u8],
}

impl<'a> Lent<'a> {
    pub(crate) fn new(bytes: &'a [u8]) -> Self
        ensures { result.left.now ≡ bytes.now }
    {
        Lent { left: bytes }
    }
}

impl Source for Lent<'_> {
    ghost use Rattle.std.specs.Prelude.{Some};

    ghost left = { λ s. Some s.left.now };

    ghost failures = { λ _. 0 };

    ghost interruptions = { λ _. 0 };

    fn read(&mut self, buf: &mut [u8]) -> Result<usize, IoFault> {
        let count = copy_prefix(buf, self.left);
        self.left = &self.left[count..];
        Ok(count)
    }
}
