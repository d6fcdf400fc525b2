//! Devices that give bytes and devices that take them.
//!
//! The model of a device is the bytes that it has left or holds, where they are known, and two
//! counts. They are how often it failed, and how many of its last calls were interrupted. Readers
//! and writers of texts use these traits.

ghost use Rattle.std.specs.Prelude.{◌≡◌, ◌==◌, if◌then◌else◌, ◌<◌, ◌≤◌};
ghost use Rattle.std.specs.Bool.{MatchBool};
ghost use Rattle.resolvo_text.specs.Device.{last, one_more};

use std::io::{ErrorKind, Read, Write};

/// After so many interruptions in a row, the next one is a failure.
pub(crate) const MOST_INTERRUPTIONS: u32 = 1000;

/// Why a call moved no byte.
#[derive(Clone, Copy, Debug, PartialEq, Eq)]
pub enum IoFault {
    /// The call can be made again.
    Interrupted,
    Failed,
}

/// A device that gives bytes.
pub trait Source {
    ghost use Rattle.std.specs.Prelude.{ℕ, List, Option};
    ghost use Rattle.std.specs.Io.{ReadsAtMost};
    ghost use Rattle.std.specs.Io.KnownBytes.{ReadConsumes};
    ghost use Rattle.resolvo_text.specs.Device.{CountsFailures, CountsInterruptions};

    /// The bytes that are left, where they are known.
    ghost left: { Self → Option (List ℕ) };

    /// How often it failed. At the largest count each call fails.
    ghost failures: { Self → ℕ };

    /// How many of its last calls, one after the other, were interrupted. The count may saturate.
    ghost interruptions: { Self → ℕ };

    /// Reads bytes into the front of `buf` and returns how many. The count is 0 only at the end.
    fn read(&mut self, buf: &mut [u8]) -> Result<usize, IoFault>
        ensures bound { ReadsAtMost result buf.new }
        ensures bytes { ReadConsumes (left self.old) (left self.new) result buf.new }
        ensures failures { CountsFailures (failures self.old) (failures self.new) result }
        ensures interruptions { CountsInterruptions (interruptions self.old) (interruptions self.new) result };
}

/// A device that takes bytes.
pub trait Sink {
    ghost use Rattle.std.specs.Prelude.{ℕ, List, Option};
    ghost use Rattle.std.specs.Io.{WritesAtMost};
    ghost use Rattle.std.specs.Io.KnownBytes.{WriteAppends};
    ghost use Rattle.resolvo_text.specs.Device.{CountsFailures, CountsInterruptions, CountsEmpty};

    /// The bytes that it took, where they are known.
    ghost contents: { Self → Option (List ℕ) };

    /// How often it failed. At the largest count each call fails.
    ghost failures: { Self → ℕ };

    /// How many of its last calls, one after the other, were interrupted. The count may saturate.
    ghost interruptions: { Self → ℕ };

    /// How many of its calls took no byte. The count saturates.
    ghost empty_writes: { Self → ℕ };

    /// Takes bytes from the front of `buf` and returns how many.
    fn write(&mut self, buf: &[u8]) -> Result<usize, IoFault>
        ensures bound { WritesAtMost result buf.now }
        ensures bytes { WriteAppends (contents self.old) (contents self.new) result buf.now }
        ensures failures { CountsFailures (failures self.old) (failures self.new) result }
        ensures interruptions { CountsInterruptions (interruptions self.old) (interruptions self.new) result }
        ensures empty { CountsEmpty (empty_writes self.old) (empty_writes self.new) result };
}

/// How often a device failed, and how many of its last calls were interrupted.
#[derive(Clone, Copy, Debug, PartialEq, Eq)]
pub(crate) struct Tally {
    pub(crate) failures: u64,
    pub(crate) interruptions: u64,
}

impl Tally {
    /// Both counts at 0.
    pub(crate) fn new() -> Self
        ensures { result ≡ record { failures = 0; interruptions = 0 } }
    {
        Tally {
            failures: 0,
            interruptions: 0,
        }
    }

    /// Whether the count of failures is at its largest.
    pub(crate) fn is_full(&self) -> bool
        ensures { MatchBool result (last ≤ self.now.failures) (self.now.failures < last) }
    {
        self.failures == u64::MAX
    }

    pub(crate) fn moved(&mut self)
        ensures { self.new ≡ record self.old { interruptions = 0 } }
    {
        self.interruptions = 0;
    }

    pub(crate) fn interrupted(&mut self) -> IoFault
        ensures answer { result ≡ IoFault.Interrupted }
        ensures counted { self.new ≡ record self.old { interruptions = one_more self.old.interruptions } }
    {
        self.interruptions = self.interruptions.saturating_add(1);
        IoFault::Interrupted
    }

    pub(crate) fn failed(&mut self) -> IoFault
        ensures answer { result ≡ IoFault.Failed }
        ensures counted { self.new ≡ record { failures = one_more self.old.failures; interruptions = 0 } }
    {
        self.failures = self.failures.saturating_add(1);
        self.interruptions = 0;
        IoFault::Failed
    }
}

/// The count of empty writes after one that took `count` bytes.
pub(crate) fn empty_after(empty_writes: u64, count: usize) -> u64
    ensures { result ≡ (if count == 0 then one_more empty_writes else empty_writes) }
{
    if count == 0 {
        empty_writes.saturating_add(1)
    } else {
        empty_writes
    }
}

/// A reader or a writer of std, whose errors are counted.
#[derive(Drop)]
pub struct Counted<T> {
    inner: T,
    tally: Tally,
    empty_writes: u64,
}

impl<T> Counted<T> {
    pub fn new(inner: T) -> Counted<T>
        ensures { result
            ≡ record
            { inner = inner; tally = record { failures = 0; interruptions = 0 }; empty_writes = 0 } }
    {
        Counted {
            inner,
            tally: Tally::new(),
            empty_writes: 0,
        }
    }
}

impl<T: Read> Source for Counted<T> {
    ghost left = { λ c. T.remaining c.inner };

    ghost failures = { λ c. c.tally.failures };

    ghost interruptions = { λ c. c.tally.interruptions };

    fn read(&mut self, buf: &mut [u8]) -> Result<usize, IoFault> {
        if self.tally.is_full() {
            return Err(self.tally.failed());
        }
        match self.inner.read(buf) {
            Ok(count) => {
                self.tally.moved();
                Ok(count)
            }
            Err(error) => {
                if error.kind() == ErrorKind::Interrupted {
                    return Err(self.tally.interrupted());
                }
                Err(self.tally.failed())
            }
        }
    }
}

impl<T: Write> Sink for Counted<T> {
    ghost contents = { λ c. T.contents c.inner };

    ghost failures = { λ c. c.tally.failures };

    ghost interruptions = { λ c. c.tally.interruptions };

    ghost empty_writes = { λ c. c.empty_writes };

    fn write(&mut self, buf: &[u8]) -> Result<usize, IoFault> {
        if self.tally.is_full() {
            return Err(self.tally.failed());
        }
        match self.inner.write(buf) {
            Ok(count) => {
                self.tally.moved();
                self.empty_writes = empty_after(self.empty_writes, count);
                Ok(count)
            }
            Err(error) => {
                if error.kind() == ErrorKind::Interrupted {
                    return Err(self.tally.interrupted());
                }
                Err(self.tally.failed())
            }
        }
    }
}
