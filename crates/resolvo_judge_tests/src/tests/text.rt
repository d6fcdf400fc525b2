//! Lines of texts, and devices over memory.

ghost use Rattle.std.specs.Prelude.{◌<◌};

use resolvo_catalogue::{
    Counted, IoFault, LineReader, MemorySink, MemorySource, ReadFault, Sink, Source,
};
use resolvo_text::write_all;
use std::alloc::{AllocError, Global};
use std::io::{ErrorKind, Read, Write};
use std::test::Fail;

/// The lines of a text of at most `limit` bytes, each followed by `$`.
fn lines_of(alloc: Global, mut source: MemorySource, limit: u32) -> Result<Vec<u8>, ReadFault> {
    let mut reader = LineReader::new(alloc, limit)?;
    let mut all = Vec::new(alloc);
    while reader.next_line(&mut source)? {
        all.extend_from_slice(reader.line())?;
        all.push(b'$')?;
    }
    Ok(all)
}

/// Whether a text has these lines, from a device that gives so many bytes a call after
/// interruptions.
fn has_lines(alloc: Global, text: &str, per_call: usize, lines: &str) -> Result<bool, ReadFault> {
    let source = MemorySource::new(text.as_bytes(), per_call.max(1)).interrupted(1000);
    Ok(lines_of(alloc, source, 100)?.as_slice() == lines.as_bytes())
}

#[test]
fn pieces(rt: HostRuntime) -> Result<(), Fail> {
    for per_call in &[1usize, 2, 3, 4096] {
        for (text, lines) in &[
            ("", ""),
            ("a", "a$"),
            ("a\n", "a$"),
            ("\n", "$"),
            ("a\n\nbc", "a$$bc$"),
            ("a\nbc\n\n", "a$bc$$"),
        ] {
            assert!(rt; has_lines(rt.alloc(), text, *per_call, lines)?, "{text}");
        }
    }
    Ok(())
}

/// The fault of a text of two lines whose device fails after so many calls, or is interrupted so
/// often before.
fn device_fault(alloc: Global, calls: u64, interruptions: u32) -> Option<ReadFault> {
    let source = MemorySource::new(b"ab\ncd", 2)
        .failing_after(calls)
        .interrupted(interruptions);
    lines_of(alloc, source, 100).err()
}

#[test]
fn device_faults(rt: HostRuntime) {
    for calls in 0..5u64 {
        let fault = device_fault(rt.alloc(), calls, 0);
        assert_eq!(rt; fault, Some(ReadFault::Reader), "{calls}");
    }
    assert_eq!(rt; device_fault(rt.alloc(), 5, 0), None);
    assert_eq!(rt; device_fault(rt.alloc(), 5, 1001), Some(ReadFault::Reader));
}

/// The fault of a text of 7 bytes under this limit.
fn fault_under(alloc: Global, limit: u32) -> Option<ReadFault> {
    lines_of(alloc, MemorySource::new(b"#234\n#7", 3), limit).err()
}

#[test]
fn bounds(rt: HostRuntime) {
    for (limit, fault) in &[
        (7u32, None),
        (6, Some(ReadFault::TooLong)),
        (0, Some(ReadFault::TooLong)),
    ] {
        assert_eq!(rt; fault_under(rt.alloc(), *limit), *fault, "{limit}");
    }
}

#[test]
fn sinks(rt: HostRuntime) -> Result<(), Fail> {
    let mut sink = MemorySink::new(rt.alloc(), 5, 3)?
        .interrupted(1)
        .failing_after(2);
    assert_eq!(rt; sink.write(b"abcd"), Err(IoFault::Interrupted));
    assert_eq!(rt; sink.write(b"abcd"), Ok(3));
    assert_eq!(rt; sink.write(b"def"), Err(IoFault::Failed), "past the room");
    assert_eq!(rt; sink.write(b"de"), Ok(2));
    assert_eq!(rt; sink.write(b""), Err(IoFault::Failed), "the chosen call");
    assert_eq!(rt; sink.bytes(), b"abcde".as_slice());
    Ok(())
}

/// Whether `abcde` is written whole, or not, and whether the sink took these bytes. The sink has so
/// much room, takes 2 bytes a call, fails after so many calls and is interrupted so often before.
fn writes_so(
    alloc: Global,
    (room, calls, interruptions): (usize, u64, u32),
    (whole, taken): (bool, &str),
) -> Result<bool, AllocError> {
    let mut sink = MemorySink::new(alloc, room, 2)?
        .interrupted(interruptions)
        .failing_after(calls);
    let all = write_all(&mut sink, b"abcde").is_ok();
    Ok(all == whole && sink.bytes() == taken.as_bytes())
}

#[test]
fn writes(rt: HostRuntime) -> Result<(), Fail> {
    for (room, calls, interruptions, whole, taken) in &[
        (5usize, 9u64, 1000u32, true, "abcde"),
        (5, 9, 1001, false, ""),
        (5, 0, 0, false, ""),
        (5, 1, 0, false, "ab"),
        (5, 2, 0, false, "abcd"),
        (5, 3, 0, true, "abcde"),
        (3, 9, 0, false, "ab"),
    ] {
        let devices = (*room, *calls, *interruptions);
        let holds = writes_so(rt.alloc(), devices, (*whole, taken))?;
        assert!(rt; holds, "{room} {calls} {interruptions}");
    }
    assert!(rt; write_all(&mut Counted::new(Full), b"a").is_err());
    Ok(())
}

/// A writer of std that takes no byte.
#[derive(Drop)]
struct Full;

impl Write for Full {
    fn write(&mut self, _buf: &[u8]) -> std::io::Result<usize> {
        Ok(0)
    }

    fn flush(&mut self) -> std::io::Result<()> {
        Ok(())
    }
}

/// A reader of std whose calls all fail so.
#[derive(Drop)]
struct Broken {
    kind: ErrorKind,
}

impl Read for Broken {
    fn read(&mut self, _buf: &mut [u8]) -> std::io::Result<usize> {
        Err(std::io::Error::from(self.kind))
    }
}

#[test]
fn counted(rt: HostRuntime) -> Result<(), Fail> {
    let mut buf = [0u8; 8];
    let mut reader = Counted::new(b"abc".as_slice());
    assert_eq!(rt; reader.read(&mut buf), Ok(3));
    assert_eq!(rt; reader.read(&mut buf), Ok(0));
    let mut writer = Counted::new(Vec::new(rt.alloc()));
    assert_eq!(rt; writer.write(b"abc"), Ok(3));
    let mut failing = Counted::new(Broken {
        kind: ErrorKind::Other,
    });
    assert_eq!(rt; failing.read(&mut buf), Err(IoFault::Failed));
    let mut interrupted = Counted::new(Broken {
        kind: ErrorKind::Interrupted,
    });
    assert_eq!(rt; interrupted.read(&mut buf), Err(IoFault::Interrupted));
    Ok(())
}
