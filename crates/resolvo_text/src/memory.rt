//! Devices over memory, with chosen bytes per call, interruptions and failures.
//!
//! They are for tests of the readers here and of each crate above that reads or writes.

ghost use Rattle.std.specs.Prelude.{◌≡◌, ◌<◌, ◌≤◌, ◌++◌, [], Some, IfOk, take, drop, length, vec_len};
ghost use Rattle.resolvo_text.specs.Device.{CountsFailures, CountsInterruptions};

use crate::device::{IoFault, Sink, Source, Tally, empty_after};
use std::alloc::{AllocError, Global};

/// Faults to simulate: so many interruptions first, and failures alone from a chosen call on.
#[derive(Clone, Copy, Debug, PartialEq, Eq)]
struct Turns {
    tally: Tally,
    interruptions_ahead: u32,
    calls_before_failure: Option<u64>,
}

impl Turns {
    fn new() -> Self
        ensures { result.tally ≡ record { failures = 0; interruptions = 0 } }
    {
        Turns {
            tally: Tally::new(),
            interruptions_ahead: 0,
            calls_before_failure: None,
        }
    }

    fn interrupted(self, calls: u32) -> Self
        ensures { result ≡ record self { interruptions_ahead = calls } }
    {
        Turns {
            interruptions_ahead: calls,
            ..self
        }
    }

    fn failing_after(self, calls: u64) -> Self
        ensures { result ≡ record self { calls_before_failure = Some calls } }
    {
        Turns {
            calls_before_failure: Some(calls),
            ..self
        }
    }

    /// Whether the next call moves bytes.
    fn next(&mut self) -> Result<(), IoFault>
        ensures failures { CountsFailures self.old.tally.failures self.new.tally.failures result }
        ensures interruptions { CountsInterruptions self.old.tally.interruptions
            self.new.tally.interruptions result }
    {
        if self.tally.is_full() {
            return Err(self.tally.failed());
        }
        if self.interruptions_ahead > 0 {
            self.interruptions_ahead -= 1;
            return Err(self.tally.interrupted());
        }
        match self.calls_before_failure {
            Some(0) => return Err(self.tally.failed()),
            Some(calls) => self.calls_before_failure = Some(calls - 1),
            None => {}
        }
        self.tally.moved();
        Ok(())
    }
}

/// Copies as much as fits, at most `most` bytes, and returns how many.
fn copy_prefix(buf: &mut [u8], bytes: &[u8], most: usize) -> usize
    requires { 0 < most }
    ensures within { result ≤ length buf.new }
    ensures prefix { bytes.now ≡ take result buf.new ++ drop result bytes.now }
    ensures short { result ≤ length bytes.now }
    ensures none { result ≡ 0 → 0 < length buf.new → bytes.now ≡ [] }
{
    let count = most.min(buf.len()).min(bytes.len());
    buf[..count].copy_from_slice(&bytes[..count]);
    count
}

/// A device that gives these bytes, at most `per_call` a call.
#[derive(Drop)]
pub struct MemorySource<'a> {
    left: &'a [u8],
    per_call: usize,
    turns: Turns,
    ghost moves: { 0 < per_call },
}

impl<'a> MemorySource<'a> {
    pub fn new(bytes: &'a [u8], per_call: usize) -> Self
        requires { 0 < per_call }
        ensures bytes { result.left.now ≡ bytes.now }
    {
        MemorySource {
            left: bytes,
            per_call,
            turns: Turns::new(),
        }
    }

    /// The next `calls` calls are interrupted.
    pub fn interrupted(self, calls: u32) -> Self
        ensures bytes { result.left.now ≡ self.entry.left.now }
        ensures turns { result.turns ≡ record self.entry.turns { interruptions_ahead = calls } }
    {
        MemorySource {
            left: self.left,
            per_call: self.per_call,
            turns: self.turns.interrupted(calls),
        }
    }

    /// After so many calls that read bytes, each call fails.
    pub fn failing_after(self, calls: u64) -> Self
        ensures bytes { result.left.now ≡ self.entry.left.now }
        ensures turns { result.turns ≡ record self.entry.turns { calls_before_failure = Some calls } }
    {
        MemorySource {
            left: self.left,
            per_call: self.per_call,
            turns: self.turns.failing_after(calls),
        }
    }
}

impl Source for MemorySource<'_> {
    ghost use Rattle.std.specs.Prelude.{Some};

    ghost left = { λ s. Some s.left.now };

    ghost failures = { λ s. s.turns.tally.failures };

    ghost interruptions = { λ s. s.turns.tally.interruptions };

    fn read(&mut self, buf: &mut [u8]) -> Result<usize, IoFault> {
        self.turns.next()?;
        let count = copy_prefix(buf, self.left, self.per_call);
        self.left = &self.left[count..];
        Ok(count)
    }
}

/// A device that takes bytes, at most `per_call` a call, into room that was allocated when it was
/// made.
///
/// With 0 bytes a call it takes none, and counts each call as an empty write: `write_all` fails at
/// its first.
#[derive(Drop)]
pub struct MemorySink {
    room: Vec<u8>,
    used: usize,
    per_call: usize,
    turns: Turns,
    empty_writes: u64,
    ghost inside: { used ≤ vec_len room },
}

impl MemorySink {
    /// Room for `room` bytes. A write that does not fit fails.
    pub fn new(alloc: Global, room: usize, per_call: usize) -> Result<Self, AllocError>
        ensures empty { IfOk result (λ sink. sink.used ≡ 0) }
        ensures most { IfOk result (λ sink. sink.per_call ≡ per_call) }
        ensures room { IfOk result (λ sink. vec_len sink.room ≡ room) }
    {
        Ok(MemorySink {
            room: vec![in alloc; 0; room]?,
            used: 0,
            per_call,
            turns: Turns::new(),
            empty_writes: 0,
        })
    }

    /// The next `calls` calls are interrupted.
    pub fn interrupted(mut self, calls: u32) -> Self
        ensures bytes { take result.used result.room.items ≡ take self.used self.room.items }
        ensures most { result.per_call ≡ self.per_call }
        ensures turns { result.turns ≡ record self.turns { interruptions_ahead = calls } }
    {
        self.turns = self.turns.interrupted(calls);
        self
    }

    /// After so many calls that took bytes, each call fails.
    pub fn failing_after(mut self, calls: u64) -> Self
        ensures bytes { take result.used result.room.items ≡ take self.used self.room.items }
        ensures most { result.per_call ≡ self.per_call }
        ensures turns { result.turns ≡ record self.turns { calls_before_failure = Some calls } }
    {
        self.turns = self.turns.failing_after(calls);
        self
    }

    /// The bytes that it took.
    pub fn bytes(&self) -> &[u8]
        ensures { result.now ≡ take self.now.used self.now.room.items }
    {
        &self.room[..self.used]
    }
}

impl Sink for MemorySink {
    ghost use Rattle.std.specs.Prelude.{Some, take};
    ghost use Rattle.std.specs.Io.{WritesAtMost};
    ghost use Rattle.std.specs.Io.KnownBytes.{WriteAppends};
    ghost use Rattle.resolvo_text.specs.Device.{CountsEmpty};

    ghost contents = { λ s. Some (take s.used s.room.items) };

    ghost failures = { λ s. s.turns.tally.failures };

    ghost interruptions = { λ s. s.turns.tally.interruptions };

    ghost empty_writes = { λ s. s.empty_writes };

    /// The promises of each device, and at most `per_call` bytes: none where that is 0.
    fn write(&mut self, buf: &[u8]) -> Result<usize, IoFault>
        // Whatever the answer.
        ensures bound { WritesAtMost result buf.now }
        ensures bytes { WriteAppends (Some (take self.old.used self.old.room.items))
            (Some (take self.new.used self.new.room.items)) result buf.now }
        ensures failures { CountsFailures self.old.turns.tally.failures self.new.turns.tally.failures result }
        ensures interruptions { CountsInterruptions self.old.turns.tally.interruptions
            self.new.turns.tally.interruptions result }
        ensures empty { CountsEmpty self.old.empty_writes self.new.empty_writes result }
        // After an answer.
        ensures most { IfOk result (λ n. n ≤ self.old.per_call) }
    {
        let count = self.per_call.min(buf.len());
        if count > self.room.len() - self.used {
            return Err(self.turns.tally.failed());
        }
        self.turns.next()?;
        self.room[self.used..self.used + count].copy_from_slice(&buf[..count]);
        self.used += count;
        self.empty_writes = empty_after(self.empty_writes, count);
        Ok(count)
    }
}
