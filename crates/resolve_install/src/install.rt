//! The text of the install report of the turns of a search: chosen versions with the lines that
//! asked for them, and wishes that are left out.
//!
//! `list` of the crate below decides the order and the lines; here its answers become the lines of
//! a report, written at once. The program calls it with the turns of the solver over a catalogue's
//! provider.

ghost use Rattle.std.specs.Prelude.{◌≡◌, ◌++◌, map, IfOk, OnOk, codes};
ghost use Rattle.std.specs.List.{AllByRecursion};
ghost use Rattle.resolvo_text.specs.Spelling.{IsNumber};
ghost use Rattle.resolvo_catalogue_core.specs.Listed.{listed};
ghost use Rattle.resolvo_catalogue_core.specs.Kept.{nth};
ghost use Rattle.resolve_order.specs.declared.entry.Answer.TheVariants as answer;
ghost use Rattle.resolvo_report.specs.Value as value;
ghost use Rattle.resolvo_report.specs.View.{steps_of, version_by_ref};
ghost use Rattle.resolvo_report.specs.Text.{line_text, lines_text};
ghost use Rattle.resolve_install.specs.Install.{line_of, IsInstallText};
ghost use Rattle.resolve_install.specs.Lines.{line_for, lines_for};

use resolve_order::{Answer, Entry, Reason, Turn, list};
use resolvo_catalogue_core::{Catalogue, Request, VersionNo};
use resolvo_report::{
    Step, VersionRef, push_left_out, push_needed, push_requested, push_steps, push_wished,
};
use std::alloc::{AllocError, Global};

/// The version of this number; one without a name where there is none.
fn version_at(catalogue: &Catalogue, version: VersionNo) -> VersionRef<'_>
    ensures { version_by_ref result ≡ nth (listed catalogue.now) version }
{
    match catalogue.versions().get_bytes(version) {
        Some((name, number)) => VersionRef { name, number },
        None => VersionRef {
            name: b"",
            number: 0,
        },
    }
}

/// Appends the report line of an entry.
fn push_entry(out: &mut Vec<u8>, catalogue: &Catalogue, entry: Entry) -> Result<(), AllocError>
    ensures written { OnOk result
        (out.new.items
        ≡ out.old.items ++ line_text
        (value.Answer (line_for (listed catalogue.now) (answer.Entry entry)))) }
    ensures numbered { OnOk result
        (IsNumber (line_of (line_for (listed catalogue.now) (answer.Entry entry)))) }
{
    let version = version_at(catalogue, entry.version);
    match entry.reason {
        Reason::ForRequest { line } => push_requested(out, version, line),
        Reason::ForVersion {
            version: owner,
            line,
        } => push_needed(out, version, version_at(catalogue, owner), line),
        Reason::Wished { line } => push_wished(out, version, line),
    }
}

/// Appends the report line of an entry, or of a wish that is left out, without its newline.
fn push_answer(out: &mut Vec<u8>, catalogue: &Catalogue, answer: Answer) -> Result<(), AllocError>
    ensures written { OnOk result
        (out.new.items
        ≡ out.old.items ++ line_text (value.Answer (line_for (listed catalogue.now) answer))) }
    ensures numbered { OnOk result (IsNumber (line_of (line_for (listed catalogue.now) answer))) }
{
    match answer {
        Answer::Entry(entry) => push_entry(out, catalogue, entry),
        Answer::LeftOut {
            version,
            line,
            step,
        } => push_left_out(out, version_at(catalogue, version), line, step),
    }
}

/// Appends the report lines of answers.
fn push_answers(
    out: &mut Vec<u8>,
    catalogue: &Catalogue,
    answers: &[Answer],
) -> Result<(), AllocError>
    ensures written { OnOk result
        (out.new.items
        ≡ out.old.items ++ lines_text
        (map value.Answer (lines_for (listed catalogue.now) answers.now))) }
    ensures numbered { OnOk result
        (AllByRecursion (λ l. IsNumber (line_of l))
        (lines_for (listed catalogue.now) answers.now)) }
{
    for answer in answers {
        push_answer(out, catalogue, *answer)?;
        out.push(b'\n')?;
    }
    Ok(())
}

/// The text of the install report of the turns of a search. It lists each chosen version with the
/// line that asked for it, in listing order. Each wish that is left out has its step. Where the
/// turns serve the request, it is the install report that a judge accepts.
pub fn install_text(
    alloc: Global,
    catalogue: &Catalogue,
    request: &Request,
    turns: &[Turn<'_>],
    steps: &[Step],
) -> Result<Vec<u8>, AllocError>
    ensures { IfOk result
        (λ text.
        IsInstallText catalogue.now request.now.lines turns.now (steps_of steps.now) text.items) }
{
    catalogue.lines_are_in_place();
    let answers = list(alloc, catalogue, request, turns)?;
    let mut text = Vec::from_slice(alloc, b"install\n")?;
    push_answers(&mut text, catalogue, &answers)?;
    push_steps(alloc, &mut text, steps)?;
    Ok(text)
}
