//! Whether a need of a version in the catalogue gives the reason for an entry, by the numbers of its
//! terms. No text is made of its alternatives: many entries may name one long line.

ghost use Rattle.std.specs.Prelude.{◌≡◌, List, IfOk, IsTrue, Some, true};
ghost use Rattle.std.specs.List.{list_any};
ghost use Rattle.std.specs.Option.{option_map};
ghost use Rattle.resolvo_text.specs.Line as spelled;
ghost use Rattle.resolvo_text.specs.Matches.{Set, matches, condition_holds};
ghost use Rattle.resolvo_text.specs.View.{version_of};
ghost use Rattle.resolvo_terms.specs.Known.{spec_at, alternatives_at, cond_at};
ghost use Rattle.resolvo_report.specs.Value.{OfVersion};
ghost use Rattle.resolvo_checker.specs.StepClauses.{line_of};
ghost use Rattle.resolvo_checker.specs.RuleLines.{line_of_need};
ghost use Rattle.resolvo_judge.specs.Chosen.{Holds};
ghost use Rattle.resolvo_judge.specs.Entries.{gives as gives_spec};

use crate::chosen::Chosen;
use resolvo_catalogue_core::{Catalogue, Version, is_in_span};
use resolvo_checker::line_rule::need_of;
use resolvo_pool_core::id::VersionSetId;
use resolvo_pool_core::requirement::{ConditionalRequirement, Requirement};
use resolvo_terms::Terms;
use std::alloc::AllocError;

/// Whether the version matches the SPEC of this number.
fn matches(terms: &Terms, spec: VersionSetId, version: &Version) -> bool
    ensures { result ≡ matches (spec_at terms.now spec) (version_of version.now) }
{
    version.name.as_str() == terms.name(terms.set_package(spec))
        && is_in_span(terms.span(spec), version.number)
}

/// Whether the version matches the SPEC of this place.
#[tactic(auto, using(crate::proofs::EntryLemmas::any_at))]
fn matches_at(
    terms: &Terms,
    specs: &[VersionSetId],
    place: Option<usize>,
    version: &Version,
) -> bool
    ensures { IsTrue result
        → list_any (λ s. matches (spec_at terms.now s) (version_of version.now)) specs.now
        ≡ true }
{
    let Some(place) = place else {
        return false;
    };
    match specs.get(place) {
        Some(spec) => matches(terms, *spec, version),
        None => false,
    }
}

// split for the prover: list and set
fn any_matches(terms: &Terms, specs: &[VersionSetId], version: &Version) -> bool
    ensures { result
        ≡ list_any (λ s. matches (spec_at terms.now s) (version_of version.now)) specs.now }
{
    specs.iter().any(|spec| matches(terms, *spec, version))
}

/// Whether the version matches one of the SPECs. That of the place is tried first.
fn one_matches(
    terms: &Terms,
    specs: &[VersionSetId],
    place: Option<usize>,
    version: &Version,
) -> bool
    ensures { result
        ≡ list_any (λ s. matches (spec_at terms.now s) (version_of version.now)) specs.now }
{
    if matches_at(terms, specs, place, version) {
        return true;
    }
    any_matches(terms, specs, version)
}

/// Whether the version matches one of the alternatives of this number.
fn meets(terms: &Terms, alternatives: Requirement, place: Option<usize>, version: &Version) -> bool
    ensures { result
        ≡ list_any (λ s. matches s (version_of version.now))
        (alternatives_at terms.now alternatives) }
{
    match alternatives {
        Requirement::Single(spec) => any_matches(terms, &[spec], version),
        Requirement::Union(union) => one_matches(terms, terms.members(union), place, version),
    }
}

/// Whether the condition of the need holds. It has few SPECs.
fn condition_holds(
    chosen: &Chosen,
    terms: &Terms,
    need: ConditionalRequirement,
) -> Result<bool, AllocError>
    ensures { (set : Set)
        → Holds chosen.now set
        → IfOk result
        (λ holds.
        holds ≡ condition_holds (option_map (cond_at terms.now) need.condition) set) }
{
    let condition = terms.condition_of(need.condition)?;
    Ok(chosen.condition_holds(&condition))
}

/// Whether the version meets the need, and its condition holds.
fn need_gives(
    chosen: &Chosen,
    terms: &Terms,
    need: ConditionalRequirement,
    place: Option<usize>,
    version: &Version,
) -> Result<bool, AllocError>
    ensures { (set : Set)
        → Holds chosen.now set
        → IfOk result
        (λ gives.
        gives ≡ gives_spec (Some (line_of_need terms.now need)) set (version_of version.now)) }
{
    if !meets(terms, need.requirement, place, version) {
        return Ok(false);
    }
    condition_holds(chosen, terms, need)
}

/// Whether the line is a need of the owner that the version meets, and its condition holds. The
/// alternative of the place is tried first.
pub fn gives_at(
    chosen: &Chosen,
    catalogue: &Catalogue,
    owner: &Version,
    line: u32,
    place: Option<usize>,
    version: &Version,
) -> Result<bool, AllocError>
    ensures { (request : List spelled.Line) (set : Set)
        → Holds chosen.now set
        → IfOk result
        (λ gives.
        gives
        ≡ gives_spec (line_of catalogue.now request (OfVersion (version_of owner.now)) line) set
        (version_of version.now)) }
{
    let kept = catalogue.kept();
    match need_of(&kept, &catalogue.versions(), owner, line) {
        Some(need) => need_gives(chosen, kept.terms(), need, place, version),
        None => Ok(false),
    }
}
