//! Compares the answer to a row with its sections.

use crate::answer::{Answer, judged, read_back, solved};
use crate::row::{Row, Section};
use std::alloc::{AllocError, Global};

/// How many bytes the devices move a call, for one run of a row each.
const SIZES: [usize; 4] = [1, 2, 3, 4096];

/// A longer catalogue or request is read by the last of these sizes alone.
const SHORT: usize = 1_000_000;

/// Whether a row has the answer that its file expects; else a line about the first difference.
#[derive(Drop)]
pub enum Compared {
    Agrees,
    Differs(String),
}

/// The inputs of a row.
#[derive(Drop)]
struct Inputs {
    catalogue: Vec<u8>,
    request: Vec<u8>,
    report: Vec<u8>,
}

/// The text of a section, or none: where it is absent, an empty text.
fn input(alloc: Global, row: &Row<'_>, name: &str) -> Result<Option<Vec<u8>>, AllocError> {
    match row.section(name) {
        Some(section) => section.text(alloc),
        None => Ok(Some(Vec::new(alloc))),
    }
}

fn inputs_of(alloc: Global, row: &Row<'_>) -> Result<Option<Inputs>, AllocError> {
    let catalogue = input(alloc, row, "catalogue")?;
    let request = input(alloc, row, "request")?;
    let report = input(alloc, row, "report")?;
    let (Some(catalogue), Some(request), Some(report)) = (catalogue, request, report) else {
        return Ok(None);
    };
    Ok(Some(Inputs {
        catalogue,
        request,
        report,
    }))
}

fn is_input(name: &str) -> bool {
    matches!(name, "catalogue" | "request" | "report")
}

/// The answer to a row: its report is read, or it is judged, or its texts are solved.
fn answer_to(
    alloc: Global,
    row: &Row<'_>,
    inputs: &Inputs,
    per_call: usize,
) -> Result<Answer, AllocError> {
    let (catalogue, request) = (inputs.catalogue.as_slice(), inputs.request.as_slice());
    let report = inputs.report.as_slice();
    if row.section("reads").is_some() {
        return read_back(alloc, report, per_call);
    }
    if row.section("report").is_some() {
        return judged(alloc, catalogue, request, report, per_call);
    }
    solved(alloc, catalogue, request, per_call)
}

/// The lines that begin so.
fn lines_with(alloc: Global, text: &str, prefixes: &[&str]) -> Result<String, AllocError> {
    let mut lines = String::new(alloc);
    for line in text.split_inclusive('\n') {
        if prefixes.iter().any(|prefix| line.starts_with(*prefix)) {
            lines.push_str(line)?;
        }
    }
    Ok(lines)
}

/// As much of a text as another has characters.
fn prefix(alloc: Global, text: &str, wanted: &str) -> Result<String, AllocError> {
    if text.starts_with(wanted) {
        return String::from_str(alloc, wanted);
    }
    String::from_str(alloc, text)
}

/// The faulty line that is printed, or `none`.
fn fault(alloc: Global, text: &str, status: u8) -> Result<String, AllocError> {
    let line = text.strip_prefix("fault at ").unwrap_or(text);
    String::from_str(alloc, if status == 2 { line } else { "none\n" })
}

/// The wanted bound, where there are no more steps, or else how many there are.
fn steps_within(alloc: Global, text: &str, wanted: &str) -> Result<String, AllocError> {
    let count = text
        .split('\n')
        .filter(|line| line.starts_with("step "))
        .count();
    match wanted.trim().parse::<usize>() {
        Ok(most) if count <= most => String::from_str(alloc, wanted),
        _ => format!(in alloc; "{count}\n"),
    }
}

/// The part of an answer that a section of this name expects; none where there is no such section.
fn came(
    alloc: Global,
    name: &str,
    (text, status): (&str, u8),
    wanted: &str,
) -> Result<Option<String>, AllocError> {
    Ok(Some(match name {
        "prints" | "judge" | "reads" => String::from_str(alloc, text)?,
        "begins" => prefix(alloc, text, wanted)?,
        "named" => lines_with(alloc, text, &["catalogue line ", "request line "])?,
        "steps" => lines_with(alloc, text, &["step "])?,
        "message" => lines_with(alloc, text, &["| "])?,
        "most steps" => steps_within(alloc, text, wanted)?,
        "fault" => fault(alloc, text, status)?,
        "status" => format!(in alloc; "{status}\n")?,
        _ => return Ok(None),
    }))
}

/// A line about an answer that differs from its section.
fn difference(
    alloc: Global,
    section: &Section<'_>,
    answer: &Answer,
) -> Result<Option<String>, AllocError> {
    let name = section.name;
    let Some(wanted) = section.text(alloc)? else {
        return Ok(Some(format!(in alloc; "{name} has an escape that is none")?));
    };
    let texts = (
        std::str::from_utf8(&wanted),
        std::str::from_utf8(&answer.text),
    );
    let (Ok(wanted), Ok(text)) = texts else {
        return Ok(Some(format!(in alloc; "{name} is no text")?));
    };
    let Some(came) = came(alloc, name, (text, answer.status), wanted)? else {
        return Ok(Some(format!(in alloc; "no section is named {name}")?));
    };
    if came.as_str() == wanted {
        return Ok(None);
    }
    let came = came.as_str();
    Ok(Some(format!(in alloc; "{name}: {wanted:?} was expected, {came:?} came")?))
}

/// A line about the first section that expects another answer.
fn first_difference(
    alloc: Global,
    row: &Row<'_>,
    answer: &Answer,
) -> Result<Option<String>, AllocError> {
    for section in &row.sections {
        if !is_input(section.name) {
            if let Some(line) = difference(alloc, section, answer)? {
                return Ok(Some(line));
            }
        }
    }
    Ok(None)
}

/// Whether the judge accepts the report that was written for the texts, where one was.
fn is_upheld(
    alloc: Global,
    row: &Row<'_>,
    inputs: &Inputs,
    (answer, per_call): (&Answer, usize),
) -> Result<bool, AllocError> {
    if row.section("report").is_some() || answer.status > 1 {
        return Ok(true);
    }
    let (catalogue, request) = (inputs.catalogue.as_slice(), inputs.request.as_slice());
    let verdict = judged(alloc, catalogue, request, &answer.text, per_call)?;
    Ok(verdict.status == 0 && verdict.text.as_slice() == b"yes\n".as_slice())
}

/// A line about a run of the row that differs.
fn differs_in(
    alloc: Global,
    row: &Row<'_>,
    inputs: &Inputs,
    per_call: usize,
) -> Result<Option<String>, AllocError> {
    let answer = answer_to(alloc, row, inputs, per_call)?;
    if let Some(line) = first_difference(alloc, row, &answer)? {
        return Ok(Some(line));
    }
    if !is_upheld(alloc, row, inputs, (&answer, per_call))? {
        return Ok(Some(String::from_str(alloc, "the judge refuses its report")?));
    }
    Ok(None)
}

/// Runs a row at each size.
pub fn compare(alloc: Global, row: &Row<'_>) -> Result<Compared, AllocError> {
    let Some(inputs) = inputs_of(alloc, row)? else {
        return Ok(Compared::Differs(String::from_str(alloc, "an escape that is none")?));
    };
    if row.sections.iter().all(|section| is_input(section.name)) {
        return Ok(Compared::Differs(String::from_str(alloc, "nothing is expected")?));
    }
    let is_long = inputs.catalogue.len() > SHORT || inputs.request.len() > SHORT;
    for per_call in &SIZES {
        if is_long && *per_call < 4096 {
            continue;
        }
        if let Some(line) = differs_in(alloc, row, &inputs, *per_call)? {
            return Ok(Compared::Differs(line));
        }
    }
    Ok(Compared::Agrees)
}
