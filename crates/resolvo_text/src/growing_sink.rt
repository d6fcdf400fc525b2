//! A device that keeps all that it takes. The program builds its whole answer in one before it
//! writes the first byte.

ghost use Rattle.std.specs.Prelude.{◌≡◌, [], Some};

use crate::device::{IoFault, Sink, Tally, empty_after};
use std::alloc::Global;

/// Takes all bytes of each call. A call for which there is no memory fails, and takes none.
#[derive(Drop)]
pub struct GrowingSink {
    bytes: Vec<u8>,
    tally: Tally,
    empty_writes: u64,
}

impl GrowingSink {
    /// An empty device.
    pub fn new(alloc: Global) -> Self
        ensures empty { result.bytes.items ≡ [] }
    {
        GrowingSink {
            bytes: Vec::new(alloc),
            tally: Tally::new(),
            empty_writes: 0,
        }
    }

    /// The bytes that it took.
    pub fn into_bytes(self) -> Vec<u8>
        ensures { result ≡ self.bytes }
    {
        let GrowingSink { bytes, .. } = self;
        bytes
    }
}

impl Sink for GrowingSink {
    ghost contents = { λ s. Some s.bytes.items };

    ghost failures = { λ s. s.tally.failures };

    ghost interruptions = { λ s. s.tally.interruptions };

    ghost empty_writes = { λ s. s.empty_writes };

    fn write(&mut self, buf: &[u8]) -> Result<usize, IoFault> {
        if self.tally.is_full() || self.bytes.extend_from_slice(buf).is_err() {
            return Err(self.tally.failed());
        }
        self.tally.moved();
        self.empty_writes = empty_after(self.empty_writes, buf.len());
        Ok(buf.len())
    }
}
