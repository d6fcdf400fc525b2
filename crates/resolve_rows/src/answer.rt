//! The answers of the program `resolve` to texts from devices that move so many bytes a call.

use resolve_run::{check, check_ending, run, run_ending};
use resolvo_catalogue::{MemorySink, MemorySource};
use resolvo_judge::{Report, ReportFault};
use resolvo_text::GrowingSink;
use std::alloc::{AllocError, Global};

/// Room for all that is written to a row.
const ROOM: usize = 65_536;

/// The printed bytes, and the status.
#[derive(Drop)]
pub struct Answer {
    pub text: Vec<u8>,
    pub status: u8,
}

/// The written bytes, and the last line.
fn whole(alloc: Global, written: &[u8], (status, line): (u8, &str)) -> Result<Answer, AllocError> {
    let mut text = Vec::from_slice(alloc, written)?;
    if !line.is_empty() {
        text.extend_from_slice(line.as_bytes())?;
        text.push(b'\n')?;
    }
    Ok(Answer { text, status })
}

/// The answer of `resolve solve`.
pub fn solved(
    alloc: Global,
    catalogue: &[u8],
    request: &[u8],
    per_call: usize,
) -> Result<Answer, AllocError> {
    let per_call = per_call.max(1);
    let mut writer = MemorySink::new(alloc, ROOM, per_call)?;
    let ended = run(
        alloc,
        &mut MemorySource::new(catalogue, per_call),
        &mut MemorySource::new(request, per_call),
        &mut writer,
    );
    whole(alloc, writer.bytes(), run_ending(&ended))
}

/// The answer of `resolve judge`.
pub fn judged(
    alloc: Global,
    catalogue: &[u8],
    request: &[u8],
    report: &[u8],
    per_call: usize,
) -> Result<Answer, AllocError> {
    let per_call = per_call.max(1);
    let mut writer = MemorySink::new(alloc, ROOM, per_call)?;
    let ended = check(
        alloc,
        &mut MemorySource::new(catalogue, per_call),
        &mut MemorySource::new(request, per_call),
        &mut MemorySource::new(report, per_call),
        &mut writer,
    );
    whole(alloc, writer.bytes(), check_ending(&ended))
}

/// Whether a report that is read and written again is the `same`, or the first line that is none of
/// a report.
pub fn read_back(alloc: Global, report: &[u8], per_call: usize) -> Result<Answer, AllocError> {
    let text = match Report::read(alloc, &mut MemorySource::new(report, per_call.max(1))) {
        Ok(read) if is_written_so(alloc, &read, report) => Vec::from_slice(alloc, b"same\n")?,
        Ok(_) => Vec::from_slice(alloc, b"other\n")?,
        Err(ReportFault::NotAReport(line)) => no_report(alloc, line)?,
        Err(_) => return Err(AllocError),
    };
    Ok(Answer { text, status: 0 })
}

/// Whether these bytes are written for a report.
fn is_written_so(alloc: Global, report: &Report, bytes: &[u8]) -> bool {
    let mut sink = GrowingSink::new(alloc);
    let written = report.write(alloc, &mut sink).is_ok();
    written && sink.into_bytes().as_slice() == bytes
}

fn no_report(alloc: Global, line: u32) -> Result<Vec<u8>, AllocError> {
    let text = format!(in alloc; "no report from line {line}\n")?;
    Vec::from_slice(alloc, text.as_bytes())
}
