//! The texts of answer lines and steps, byte by byte behind those of a buffer. An install report has
//! many lines. The writer of reports lends the buffer, and so does the caller who has no `Report`, for
//! whom versions have borrowed names.

ghost use Rattle.std.specs.Prelude.{◌≡◌, ◌++◌, OnOk};
ghost use Rattle.std.specs.Fmt.{decimal};
ghost use Rattle.resolvo_text.specs.View.{version_of};
ghost use Rattle.resolvo_report.specs.Value as model;
ghost use Rattle.resolvo_report.specs.View.{version_by_ref, answer_line_of, steps_of};
ghost use Rattle.resolvo_report.specs.Text.{version_text, line_text, lines_text, numbered};

use crate::report::AnswerLine;
use crate::step::{Place, Step};
use resolvo_text::Version;
use std::alloc::{AllocError, Global};

/// Appends the digits of a number of several.
fn push_digits(out: &mut Vec<u8>, number: u32) -> Result<(), AllocError>
    ensures { OnOk result (out.new.items ≡ out.old.items ++ decimal number) }
{
    let mut digits = [0u8; 10];
    let mut first = 9;
    let mut rest = number;
    while rest >= 10 {
        digits[first] = b'0' + (rest % 10) as u8;
        first -= 1;
        rest /= 10;
    }
    digits[first] = b'0' + rest as u8;
    out.extend_from_slice(&digits[first..])?;
    Ok(())
}

/// Appends the digits of a number.
fn push_number(out: &mut Vec<u8>, number: u32) -> Result<(), AllocError>
    ensures { OnOk result (out.new.items ≡ out.old.items ++ decimal number) }
{
    if number >= 10 {
        return push_digits(out, number);
    }
    out.push(b'0' + number as u8)?;
    Ok(())
}

/// A version, whose name somebody else owns.
#[derive(Clone, Copy, Debug)]
pub struct VersionRef<'a> {
    pub name: &'a [u8],
    pub number: u32,
}

/// The same version, with a borrowed name.
fn borrowed(version: &Version) -> VersionRef<'_>
    ensures { version_by_ref result ≡ version_of version.now }
{
    VersionRef {
        name: version.name.as_bytes(),
        number: version.number,
    }
}

/// Appends a version, as one word.
fn push_version(out: &mut Vec<u8>, version: VersionRef<'_>) -> Result<(), AllocError>
    ensures { OnOk result (out.new.items ≡ out.old.items ++ version_text (version_by_ref version.entry)) }
{
    out.extend_from_slice(version.name)?;
    out.push(b'=')?;
    push_number(out, version.number)
}

/// Appends the line of a version that a line of the request asks for.
pub fn push_requested(
    out: &mut Vec<u8>,
    version: VersionRef<'_>,
    line: u32,
) -> Result<(), AllocError>
    ensures { OnOk result
        (out.new.items
        ≡ out.old.items ++ line_text
        (model.Answer (model.Entry (version_by_ref version.entry) model.OfRequest line))) }
{
    push_version(out, version)?;
    out.extend_from_slice(b" for request line ")?;
    push_number(out, line)?;
    Ok(())
}

/// Appends the line of a version that a line of its owner asks for.
pub fn push_needed(
    out: &mut Vec<u8>,
    version: VersionRef<'_>,
    owner: VersionRef<'_>,
    line: u32,
) -> Result<(), AllocError>
    ensures { OnOk result
        (out.new.items
        ≡ out.old.items ++ line_text
        (model.Answer (model.Entry (version_by_ref version.entry)
        (model.OfVersion (version_by_ref owner.entry)) line))) }
{
    push_version(out, version)?;
    out.extend_from_slice(b" for ")?;
    push_version(out, owner)?;
    out.extend_from_slice(b" line ")?;
    push_number(out, line)?;
    Ok(())
}

/// Appends the line of a version that a line of the request wishes.
pub fn push_wished(out: &mut Vec<u8>, version: VersionRef<'_>, line: u32) -> Result<(), AllocError>
    ensures { OnOk result
        (out.new.items
        ≡ out.old.items ++ line_text (model.Answer (model.Wished (version_by_ref version.entry) line))) }
{
    push_version(out, version)?;
    out.extend_from_slice(b" wished line ")?;
    push_number(out, line)?;
    Ok(())
}

/// Appends the line of a wish that is left out.
pub fn push_left_out(
    out: &mut Vec<u8>,
    version: VersionRef<'_>,
    line: u32,
    step: u32,
) -> Result<(), AllocError>
    ensures { OnOk result
        (out.new.items
        ≡ out.old.items ++ line_text
        (model.Answer (model.LeftOut (version_by_ref version.entry) line step))) }
{
    out.extend_from_slice(b"left out ")?;
    push_version(out, version)?;
    out.extend_from_slice(b" line ")?;
    push_number(out, line)?;
    out.extend_from_slice(b" by ")?;
    push_number(out, step)?;
    Ok(())
}

/// Appends an answer line.
pub(crate) fn push_answer(out: &mut Vec<u8>, answer: &AnswerLine) -> Result<(), AllocError>
    ensures { OnOk result
        (out.new.items
        ≡ out.old.items ++ line_text (model.Answer (answer_line_of answer.now))) }
{
    match answer {
        AnswerLine::Entry {
            version,
            place: Place::Request,
            line,
        } => push_requested(out, borrowed(version), *line),
        AnswerLine::Entry {
            version,
            place: Place::Version(owner),
            line,
        } => push_needed(out, borrowed(version), borrowed(owner), *line),
        AnswerLine::Wished { version, line } => push_wished(out, borrowed(version), *line),
        AnswerLine::LeftOut {
            version,
            line,
            step,
        } => push_left_out(out, borrowed(version), *line, *step),
    }
}

/// Appends the lines of steps, which are numbered from 1.
pub fn push_steps(alloc: Global, out: &mut Vec<u8>, steps: &[Step]) -> Result<(), AllocError>
    ensures { OnOk result
        (out.new.items ≡ out.old.items ++ lines_text (numbered 1 (steps_of steps.now))) }
{
    for i in 0..steps.len() {
        let number = i + 1;
        let step = &steps[i];
        let text = format!(in alloc; "step {number} {step}\n")?;
        out.extend_from_slice(text.as_bytes())?;
    }
    Ok(())
}
