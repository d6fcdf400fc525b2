//! Readers and writers that fail, stop or are interrupted.

use crate::tests::full::Full;
use resolve_run::{Outcome, RunFault, run};
use resolvo_catalogue::{Counted, MemorySink, MemorySource, Sink};
use std::alloc::{AllocError, Global};
use std::test::Fail;

const CATALOGUE: &str = "version a 2\nneeds b 0..10\nversion b 5\nneeds a 2..4\n";

const REQUEST: &str = "needs a 0..100\n";

const REPORT: &str = "install\na=2 for request line 1\nb=5 for a=2 line 2\n";

/// How a run over these devices ends; the bytes that the writer took stay in it.
fn ended<W: Sink>(
    alloc: Global,
    catalogue: MemorySource,
    request: MemorySource,
    writer: &mut W,
) -> Result<Outcome, RunFault> {
    let mut catalogue = catalogue;
    let mut request = request;
    run(alloc, &mut catalogue, &mut request, writer)
}

/// How a run ends over good texts.
fn ended_well_read<W: Sink>(alloc: Global, writer: &mut W) -> Result<Outcome, RunFault> {
    let catalogue = MemorySource::new(CATALOGUE.as_bytes(), 4096);
    ended(
        alloc,
        catalogue,
        MemorySource::new(REQUEST.as_bytes(), 4096),
        writer,
    )
}

/// How a run ends whose writer takes no byte any more after so many.
fn ended_full(alloc: Global, room: usize) -> Result<Outcome, RunFault> {
    ended_well_read(alloc, &mut Counted::new(Full::after(room)))
}

/// How a run ends, and its text, where the writer takes so many bytes a call and fails after so
/// many calls.
fn written(
    alloc: Global,
    per_call: usize,
    calls: u64,
) -> Result<(Result<Outcome, RunFault>, Vec<u8>), AllocError> {
    let mut writer = MemorySink::new(alloc, 100, per_call.max(1))?.failing_after(calls);
    let ended = ended_well_read(alloc, &mut writer);
    Ok((ended, Vec::from_slice(alloc, writer.bytes())?))
}

/// Whether such a run fails, and writes this prefix of the report.
fn writes_prefix(
    alloc: Global,
    per_call: usize,
    calls: u64,
    bytes: usize,
) -> Result<bool, AllocError> {
    let (ended, written) = written(alloc, per_call, calls)?;
    Ok(ended == Err(RunFault::Writer) && Some(written.as_slice()) == REPORT.as_bytes().get(..bytes))
}

#[test]
fn a_writer_that_takes_five_bytes_and_then_fails(rt: HostRuntime) -> Result<(), Fail> {
    assert!(rt; writes_prefix(rt.alloc(), 5, 1, 5)?);
    Ok(())
}

#[test]
fn each_write_failing(rt: HostRuntime) -> Result<(), Fail> {
    for calls in 0..REPORT.len() {
        assert!(rt;
            writes_prefix(rt.alloc(), 1, calls as u64, calls)?,
            "{calls}"
        );
        assert_eq!(rt; ended_full(rt.alloc(), calls), Err(RunFault::Writer));
    }
    assert_eq!(rt;
        ended_full(rt.alloc(), REPORT.len()),
        Ok(Outcome::Installed)
    );
    Ok(())
}

/// How a run over these devices ends, and how many bytes it writes, one a call.
fn read(
    alloc: Global,
    catalogue: MemorySource,
    request: MemorySource,
) -> Result<(Result<Outcome, RunFault>, usize), AllocError> {
    let mut writer = MemorySink::new(alloc, 100, 1)?;
    let ended = ended(alloc, catalogue, request, &mut writer);
    Ok((ended, writer.bytes().len()))
}

#[test]
fn each_read_failing(rt: HostRuntime) -> Result<(), Fail> {
    for calls in 0..=CATALOGUE.len() as u64 {
        let catalogue = MemorySource::new(CATALOGUE.as_bytes(), 1).failing_after(calls);
        let request = MemorySource::new(REQUEST.as_bytes(), 1);
        let found = read(rt.alloc(), catalogue, request)?;
        assert_eq!(rt; found, (Err(RunFault::Reader), 0), "{calls}");
    }
    for calls in 0..=REQUEST.len() as u64 {
        let catalogue = MemorySource::new(CATALOGUE.as_bytes(), 1);
        let request = MemorySource::new(REQUEST.as_bytes(), 1).failing_after(calls);
        let found = read(rt.alloc(), catalogue, request)?;
        assert_eq!(rt; found, (Err(RunFault::Reader), 0), "{calls}");
    }
    Ok(())
}

/// How a run ends whose catalogue's device fails after so many calls, and whether this is all that
/// it writes.
fn written_where_failing(
    alloc: Global,
    text: &str,
    calls: u64,
    output: &str,
) -> Result<(Result<Outcome, RunFault>, bool), AllocError> {
    let catalogue = MemorySource::new(text.as_bytes(), 1).failing_after(calls);
    let request = MemorySource::new(REQUEST.as_bytes(), 1);
    let mut writer = MemorySink::new(alloc, 100, 1)?;
    let ended = ended(alloc, catalogue, request, &mut writer);
    Ok((ended, writer.bytes() == output.as_bytes()))
}

/// A whole line that was read is judged before the read that fails, and reported; an unfinished one
/// isn't.
#[test]
fn faults_before_failures(rt: HostRuntime) -> Result<(), Fail> {
    for (text, calls, wanted, output) in &[
        ("version a 1\nvers", 16u64, Err(RunFault::Reader), ""),
        (
            "vers\nversion",
            5,
            Ok(Outcome::Faulty),
            "fault at catalogue line 1\n",
        ),
        ("vers", 4, Err(RunFault::Reader), ""),
    ] {
        let found = written_where_failing(rt.alloc(), text, *calls, output)?;
        assert_eq!(rt; found, (*wanted, true), "{text}");
    }
    Ok(())
}

/// How a run ends whose catalogue, request and writer are interrupted so often in a row.
fn interrupted(
    alloc: Global,
    (catalogue_calls, request_calls): (u32, u32),
    writer_calls: u32,
) -> Result<Result<Outcome, RunFault>, AllocError> {
    let catalogue = MemorySource::new(CATALOGUE.as_bytes(), 7).interrupted(catalogue_calls);
    let request = MemorySource::new(REQUEST.as_bytes(), 7).interrupted(request_calls);
    let mut writer = MemorySink::new(alloc, 100, 7)?.interrupted(writer_calls);
    Ok(ended(alloc, catalogue, request, &mut writer))
}

#[test]
fn interruptions_in_a_row(rt: HostRuntime) -> Result<(), Fail> {
    for (reader_calls, writer_calls, wanted) in &[
        ((1000u32, 1000u32), 1000u32, Ok(Outcome::Installed)),
        ((1001, 0), 0, Err(RunFault::Reader)),
        ((0, 1001), 0, Err(RunFault::Reader)),
        ((0, 0), 1001, Err(RunFault::Writer)),
    ] {
        let ended = interrupted(rt.alloc(), *reader_calls, *writer_calls)?;
        assert_eq!(rt; ended, *wanted, "{writer_calls}");
    }
    Ok(())
}
