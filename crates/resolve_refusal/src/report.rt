//! A refusal: the steps one by one, and the lines that they cite. With its message it is a report.

ghost use Rattle.std.specs.Prelude.{◌≡◌, IfOk, IsErrOf, length};
ghost use Rattle.std.specs.List.{AllZip};
ghost use Rattle.resolvo_pool_core.specs.declared.want.Want.TheVariants.{Ids};
ghost use Rattle.resolvo_report.specs.View.{messages_of, report_of, steps_of};
ghost use Rattle.resolve_refusal.specs.LacksNumbers.{LacksCaseNumbers, LacksNumbers};
ghost use Rattle.resolve_refusal.specs.RefusedReport.{IsWritten};
ghost use Rattle.resolve_refusal.specs.FirstLines.{IsIndex};
ghost use Rattle.resolve_refusal.specs.StepRules.{NamesRule};
ghost use Rattle.resolve_refusal.specs.Refusal.{Refutes};
ghost use Rattle.resolve_refusal.specs.Parts.{IsRefusalOf, IsRefusedBy, report_with};

use crate::line_index::line_index;
use crate::lines::Texts;
use crate::named_lines::{Text, named_lines};
use crate::steps::{MOST_STEPS, Writing};
use resolvo_catalogue::provider::CatalogueProvider;
use resolvo_catalogue_core::{Catalogue, Request};
use resolvo_pool_core::id::{NameId, SolvableId};
use resolvo_pool_core::want::{R, Want};
use resolvo_proof::step::ProofStep;
use resolvo_report::{Report, Step};
use std::alloc::Global;

/// A refused report without its message.
#[derive(Drop)]
pub struct Refusal {
    /// The lines of each text on which the steps rest.
    catalogue: Vec<u32>,
    request: Vec<u32>,
    steps: Vec<Step>,
}

impl Refusal {
    /// The refused report with this message.
    pub fn with_message(self, message: Vec<Vec<u8>>) -> Report
        ensures { report_of result ≡ report_with (messages_of message.items) self }
    {
        Report::Refused {
            catalogue: self.catalogue,
            request: self.request,
            steps: self.steps,
            message,
        }
    }
}

/// The refusal of a proof over the provider of a catalogue. Each rule is named by its first line, a
/// need also by the first of its cases. `Ids` where there are more steps, or more cases of a line,
/// than numbers.
pub fn refusal_of(
    alloc: Global,
    catalogue: &Catalogue,
    request: &Request,
    provider: &CatalogueProvider<'_>,
    steps: &[ProofStep<NameId, SolvableId>],
) -> R<Refusal>
    ensures refusal { IfOk result
        (λ r.
        Refutes catalogue.now request.now provider.now steps.now
        → IsRefusalOf catalogue.now request.now.lines provider.now.ids steps.now r) }
    ensures refused { IfOk result
        (λ r. IsRefusedBy catalogue.now request.now.lines provider.now.ids steps.now r) }
    ensures ids { IsErrOf result Ids
        → LacksNumbers catalogue.now request.now.lines (length steps.now) }
{
    if steps.len() > MOST_STEPS {
        return Err(Want::Ids);
    }
    let texts = Texts { catalogue, request };
    let written = write_steps(alloc, texts, provider, steps)?;
    let in_catalogue = named_lines(
        alloc,
        Text::Catalogue,
        catalogue.line_count(),
        written.as_slice(),
    )?;
    let in_request = named_lines(
        alloc,
        Text::Request,
        request.line_count(),
        written.as_slice(),
    )?;
    Ok(Refusal {
        catalogue: in_catalogue,
        request: in_request,
        steps: written,
    })
}

/// The steps of a report.
pub(crate) fn write_steps(
    alloc: Global,
    texts: Texts,
    provider: &CatalogueProvider<'_>,
    steps: &[ProofStep<NameId, SolvableId>],
) -> R<Vec<Step>>
    ensures names_rule { IfOk result
        (λ v.
        AllZip (NamesRule texts.entry.catalogue.now texts.entry.request.now.lines provider.now.ids)
        steps.now (steps_of v.items)) }
    ensures written { IfOk result
        (λ v.
        AllZip (IsWritten texts.entry.catalogue.now provider.now.ids) steps.now
        (steps_of v.items)) }
    ensures ids { IsErrOf result Ids
        → LacksCaseNumbers texts.entry.catalogue.now texts.entry.request.now.lines }
{
    let index = line_index(alloc, texts, steps)?;
    let writing = Writing {
        alloc,
        texts,
        provider,
        index: &index,
    };
    write_all(writing, steps)
}

/// The steps of a report, one by one.
fn write_all(writing: Writing<'_>, steps: &[ProofStep<NameId, SolvableId>]) -> R<Vec<Step>>
    requires { IsIndex writing.texts.catalogue.now writing.texts.request.now.lines
        writing.index.now }
    ensures names_rule { IfOk result
        (λ v.
        AllZip
        (NamesRule writing.entry.texts.catalogue.now writing.entry.texts.request.now.lines
        writing.entry.provider.now.ids)
        steps.now (steps_of v.items)) }
    ensures written { IfOk result
        (λ v.
        AllZip (IsWritten writing.entry.texts.catalogue.now writing.entry.provider.now.ids)
        steps.now (steps_of v.items)) }
    ensures ids { IsErrOf result Ids
        → LacksCaseNumbers writing.entry.texts.catalogue.now
        writing.entry.texts.request.now.lines }
{
    let mut written = Vec::new(writing.alloc);
    for step in steps {
        written.push(writing.step(step)?)?;
    }
    Ok(written)
}
