//! Reports whose reader or writer fails, and reports that are read line by line.

use resolvo_catalogue::{MemorySink, MemorySource};
use resolvo_judge::{
    Report, ReportFault, ReportReader, ReportWriteFault, reports_are_read, text_is_one_report,
};
use std::alloc::{AllocError, Global};
use std::process::Abort;
use std::test::Fail;

const REPORT: &str = "install\na=1 wished line 1\n";

/// The fault of a text whose device gives so many bytes a call, and fails after so many calls.
fn fault_after(alloc: Global, text: &str, per_call: usize, calls: u64) -> Option<ReportFault> {
    let mut source = MemorySource::new(text.as_bytes(), per_call.max(1)).failing_after(calls);
    Report::read(alloc, &mut source).err()
}

#[test]
fn device_faults(rt: HostRuntime) {
    for calls in 0..14u64 {
        let fault = fault_after(rt.alloc(), REPORT, 2, calls);
        assert_eq!(rt; fault, Some(ReportFault::Reader), "{calls}");
    }
    assert_eq!(rt; fault_after(rt.alloc(), REPORT, 2, 14), None);
}

#[test]
fn a_faulty_line_before_a_failing_read(rt: HostRuntime) {
    let fault = fault_after(rt.alloc(), "refused\n\nstep", 9, 1);
    assert_eq!(rt; fault, Some(ReportFault::NotAReport(2)));
}

/// How many lines of a report are read, and the fault of the next.
fn lines_and_fault(
    alloc: Global,
    reader: &mut ReportReader,
    source: &mut MemorySource<'_>,
) -> (u32, Option<ReportFault>) {
    for lines in 0..10u32 {
        match reader.next(alloc, source) {
            Ok(Some(_)) => {}
            Ok(None) => return (lines, None),
            Err(fault) => return (lines, Some(fault)),
        }
    }
    (10, None)
}

#[test]
fn line_by_line(rt: HostRuntime) -> Result<(), Fail> {
    let mut source = MemorySource::new(b"install\na=1 wished line 1\n| \n", 3);
    let mut reader = ReportReader::new(rt.alloc())?;
    let found = lines_and_fault(rt.alloc(), &mut reader, &mut source);
    assert_eq!(rt; found, (2, Some(ReportFault::NotAReport(3))));
    Ok(())
}

const REFUSAL: &str = "refused\ncatalogue line 1\nrequest line 1\nstep 1 any a=1\n| a\n";

/// Whether a report that doesn't fit into so much room is written up to its end, and the writer's
/// fault returned.
fn prefix_is_written(alloc: Global, report: &Report, room: usize) -> Result<bool, AllocError> {
    let mut sink = MemorySink::new(alloc, room, 1)?;
    let fault = report.write(alloc, &mut sink).err();
    let prefix = REFUSAL.as_bytes().starts_with(sink.bytes());
    Ok(fault == Some(ReportWriteFault::Writer) && prefix)
}

/// A report that is read; none where it isn't.
fn refusal(alloc: Global) -> Option<Report> {
    Report::read(alloc, &mut MemorySource::new(REFUSAL.as_bytes(), 9)).ok()
}

fn fronts_are_written(rt: &impl Abort, alloc: Global, report: &Report) -> Result<(), AllocError> {
    for room in 0..REFUSAL.len() {
        assert!(rt; prefix_is_written(alloc, report, room)?, "{room}");
    }
    Ok(())
}

#[test]
fn writer_faults(rt: HostRuntime) -> Result<(), Fail> {
    fronts_are_written(&rt, rt.alloc(), &refusal(rt.alloc()).ok_or("no report")?)?;
    text_is_one_report();
    reports_are_read();
    Ok(())
}
