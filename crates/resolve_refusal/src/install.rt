//! Steps of an install report: those of a proof by which wishes are left out, and the step that
//! forbids a wish without a search.

ghost use Rattle.std.specs.Prelude.{IfOk, IsErrOf, IsOkUnless, length};
ghost use Rattle.std.specs.Option.{option_map};
ghost use Rattle.resolvo_pool_core.specs.declared.want.Want.TheVariants.{Ids, Memory};
ghost use Rattle.resolvo_report.specs.View.{step_of, steps_of};
ghost use Rattle.resolve_refusal.specs.Refusal.{IsProofOver};
ghost use Rattle.resolve_refusal.specs.LacksNumbers.{LacksNumbers};
ghost use Rattle.resolve_refusal.specs.InstallSteps.{AreInstallSteps, IsForbidStepOf};

use crate::lines::{ForbidLine, Texts, forbid_line};
use crate::literals::version_of;
use crate::report::write_steps;
use crate::steps::MOST_STEPS;
use resolvo_catalogue::provider::CatalogueProvider;
use resolvo_catalogue_core::{Catalogue, Request, VersionNo};
use resolvo_pool_core::id::{NameId, SolvableId};
use resolvo_pool_core::want::{R, Want};
use resolvo_proof::step::ProofStep;
use resolvo_report::Step;
use std::alloc::Global;

/// The steps of a proof, written for an install report. Each rule is named by its first line, a
/// need also by the first of its cases. `Ids` where there are more steps, or more cases of a line,
/// than numbers.
pub fn install_steps(
    alloc: Global,
    catalogue: &Catalogue,
    request: &Request,
    provider: &CatalogueProvider<'_>,
    steps: &[ProofStep<NameId, SolvableId>],
) -> R<Vec<Step>>
    ensures steps { IfOk result
        (λ v.
        IsProofOver catalogue.now request.now provider.now steps.now
        → AreInstallSteps catalogue.now request.now.lines provider.now.ids steps.now
        (steps_of v.items)) }
    ensures ids { IsErrOf result Ids
        → LacksNumbers catalogue.now request.now.lines (length steps.now) }
{
    if steps.len() > MOST_STEPS {
        return Err(Want::Ids);
    }
    // Lines are counted in 32 bits, so each line that a step cites has a number that can be
    // written.
    let _lines = catalogue.line_count();
    let _asked = request.line_count();
    let texts = Texts { catalogue, request };
    write_steps(alloc, texts, provider, steps)
}

/// The step that forbids a version before a search: the lock of another version of its package,
/// else its exclusion. None where there is neither.
pub fn forbid_step(alloc: Global, catalogue: &Catalogue, version: VersionNo) -> R<Option<Step>>
    ensures step { IfOk result (λ found. IsForbidStepOf catalogue.now version.0
        (option_map step_of found)) }
    ensures refusal { IsOkUnless result Memory }
{
    // Facts of each catalogue: its versions have texts, and its lines are counted in 32 bits.
    catalogue.lines_are_in_place();
    let _lines = catalogue.line_count();
    match forbid_line(catalogue, version) {
        Some(ForbidLine::Lock(line)) => Ok(Some(Step::Lock {
            line,
            version: version_of(alloc, catalogue, SolvableId::from_raw(version.0))?,
        })),
        Some(ForbidLine::Exclude(line)) => Ok(Some(Step::Exclude { line })),
        None => Ok(None),
    }
}
