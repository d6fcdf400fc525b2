//! The clause of each step that encodes a rule or defines an auxiliary atom.

ghost use Rattle.std.specs.Prelude.{◌≡◌, [], ◌∷◌, ◌++◌, ◌==◌, ◌<◌, List, Option, OnOk, IfOk, IfSome, Some, None, true, false, is_some, slice_get};
ghost use Rattle.std.specs.Option.{option_map, option_map_or, option_and_then, option_copied};
ghost use Rattle.std.specs.Int.{bit_at};
ghost use Rattle.resolvo_text.specs.Line as spelled;
ghost use Rattle.resolvo_text.specs.View.{version_of, spec_of, specs_of, condition_of};
ghost use Rattle.resolvo_catalogue_core.specs.Grammar.{line_at, owner_of};
ghost use Rattle.resolvo_catalogue_core.specs.Listed.{listed, version_at, version_by};
ghost use Rattle.resolvo_report.specs.Value.{Place as PlaceValue, OfVersion};
ghost use Rattle.resolvo_report.specs.View.{place_of, step_of};
ghost use Rattle.resolvo_checker.specs.StepClauses.{is_listed, is_outside, is_locked_out, place_fails, case_fails, some_match, case_at, line_of, need_clause, gate_clause, limit_bars_clause, limit_clause, lock_clause, exclude_clause, unknown_clause, shared_clause, outside_clause, matches_clause, digit_clause, any_clause, clause_of};
ghost use Rattle.resolvo_checker.specs.Kept.{is_long};
ghost use Rattle.resolvo_checker.specs.Built.{literals_in, member_of, somes, seen, rule_clause_of};
ghost use Rattle.resolvo_checker.specs.RuleLines.{line_of_rule, line_of_kept, owner_in, owner_literals, IsValid};
ghost use Rattle.resolvo_terms.specs.Terms.{Terms as TermsValue};
ghost use Rattle.resolvo_terms.specs.Known.{cond_at};

use crate::clause_parts::{
    Clause, push_any, push_bit, push_case, push_match, push_matches, push_outside, push_shared,
    push_version,
};
use crate::line_rule::{need_of, rule_asked, rule_at, rule_of, rule_owned};
use resolvo_catalogue_core::{
    Catalogue, Cond, KeptRule, Request, Rule, Spec, Version, VersionNo, Versions, found, is_in_span,
};
use resolvo_pool_core::requirement::ConditionalRequirement;
use resolvo_report::{Place, Step};
use resolvo_terms::Terms;
use resolvo_text::{cases_in, matches};
use std::alloc::{AllocError, Global};

/// The number of a version, if it is listed.
pub fn number_of(catalogue: &Catalogue, version: &Version) -> Option<VersionNo>
    ensures found { IfSome result
        (λ n. version_at catalogue.now n.0 ≡ Some (version_of version.now)) }
    ensures listed { is_some result ≡ is_listed catalogue.now (version_of version.now) }
{
    match catalogue.find(&version.name, version.number) {
        Some(number) => Some(number),
        None => None,
    }
}

/// Whether the version is of the SPEC's package and doesn't match.
fn is_outside(spec: &Spec, version: &Version) -> bool
    ensures { result ≡ is_outside (spec_of spec.now) (version_of version.now) }
{
    version.name == spec.name && !is_in_span(spec.span, version.number)
}

fn is_locked_by(locked: (&str, u32), version: &Version) -> bool
    ensures { result
        ≡ is_locked_out (version_by locked.entry.0.now locked.entry.1) (version_of version.now) }
{
    version.name.as_str() == locked.0 && version.number != locked.1
}

/// Whether the lock of the version of this number excludes the version.
fn is_locked_out(versions: &Versions<'_>, locked: VersionNo, version: &Version) -> bool
    ensures { result
        ≡ option_map_or (λ w. is_locked_out w (version_of version.now))
        (slice_get versions.now locked.0) false }
{
    match versions.get(locked) {
        Some(locked) => is_locked_by(locked, version),
        None => false,
    }
}

/// The case of this number, from 1, if the condition has it.
fn case_at(
    alloc: Global,
    condition: &Option<Box<Cond>>,
    case: u32,
) -> Result<Option<Vec<Spec>>, AllocError>
    ensures { IfOk result
        (λ o.
        option_map (λ c. specs_of c.items) o ≡ case_at (condition_of condition.now) case) }
{
    if case == 0 {
        return Ok(None);
    }
    let Some(condition) = condition else {
        if case == 1 {
            return Ok(Some(Vec::new(alloc)));
        }
        return Ok(None);
    };
    let mut cases = cases_in(alloc, condition)?;
    let place = case as usize - 1;
    if place < cases.len() {
        Ok(Some(cases.swap_remove(place)))
    } else {
        Ok(None)
    }
}

/// Adds that the owner isn't in the set.
fn push_owner(out: &mut Clause, owner: Option<VersionNo>) -> Result<(), AllocError>
    ensures { OnOk result
        ((vs : List spelled.Version)
        → literals_in vs out.new.items ≡ literals_in vs out.old.items ++ owner_literals vs owner) }
{
    if let Some(version) = owner {
        push_version(out, version, false)?;
    }
    Ok(())
}

/// The clause that keeps the version out of the set.
fn absent(alloc: Global, version: VersionNo) -> Result<Clause, AllocError>
    ensures { IfOk result
        (λ c.
        (vs : List spelled.Version) → literals_in vs c.items ≡ member_of vs false version.0 ∷ []) }
{
    let mut out = Vec::new(alloc);
    push_version(&mut out, version, false)?;
    Ok(out)
}

/// The clause of a requirement, for one case of its condition.
fn need(
    alloc: Global,
    catalogue: &Catalogue,
    owner: Option<VersionNo>,
    alternatives: &[Spec],
    specs: &[Spec],
) -> Result<Clause, AllocError>
    ensures { IfOk result
        (λ c.
        literals_in (listed catalogue.now) c.items
        ≡ owner_literals (listed catalogue.now) owner ++ somes
        (case_fails catalogue.now (specs_of specs.now)) ++ somes
        (some_match catalogue.now (specs_of alternatives.now))) }
{
    let mut out = Vec::new(alloc);
    push_owner(&mut out, owner)?;
    push_case(alloc, &mut out, catalogue, specs)?;
    push_matches(alloc, &mut out, catalogue, alternatives)?;
    Ok(out)
}

fn need_in(
    alloc: Global,
    catalogue: &Catalogue,
    rule: Option<&Rule>,
    case: u32,
) -> Result<Option<Clause>, AllocError>
    ensures { (p : PlaceValue)
        → IfSome (option_copied rule.entry)
        (λ r. owner_literals (listed catalogue.now) (owner_in r) ≡ somes (place_fails p))
        → IfOk result
        (λ o.
        seen (listed catalogue.now) o
        ≡ option_map somes
        (need_clause catalogue.now p case
        (option_and_then (line_of_rule (listed catalogue.now))
        (option_copied rule.entry)))) }
{
    let Some(
        Rule::Needs {
            owner,
            alternatives,
            condition,
        },
    ) = rule
    else {
        return Ok(None);
    };
    match case_at(alloc, condition, case)? {
        Some(specs) => Ok(Some(need(alloc, catalogue, *owner, alternatives.as_slice(), &specs)?)),
        None => Ok(None),
    }
}

fn gate_in(
    alloc: Global,
    catalogue: &Catalogue,
    rule: Option<&Rule>,
) -> Result<Option<Clause>, AllocError>
    ensures { (v : spelled.Version)
        → IfSome (option_copied rule.entry)
        (λ r.
        owner_literals (listed catalogue.now) (owner_in r)
        ≡ somes (place_fails (OfVersion v)))
        → IfOk result
        (λ o.
        seen (listed catalogue.now) o
        ≡ option_map somes
        (gate_clause v
        (option_and_then (line_of_rule (listed catalogue.now))
        (option_copied rule.entry)))) }
{
    match rule {
        Some(
            Rule::Needs {
                owner,
                alternatives,
                condition: None,
            },
        ) => {
            let mut out = Vec::new(alloc);
            push_owner(&mut out, *owner)?;
            push_shared(alloc, &mut out, alternatives.as_slice(), true)?;
            Ok(Some(out))
        }
        _ => Ok(None),
    }
}

fn limit_in(
    alloc: Global,
    catalogue: &Catalogue,
    rule: Option<&Rule>,
) -> Result<Option<Clause>, AllocError>
    ensures { (p : PlaceValue)
        → IfSome (option_copied rule.entry)
        (λ r. owner_literals (listed catalogue.now) (owner_in r) ≡ somes (place_fails p))
        → IfOk result
        (λ o.
        seen (listed catalogue.now) o
        ≡ option_map somes
        (limit_clause p
        (option_and_then (line_of_rule (listed catalogue.now))
        (option_copied rule.entry)))) }
{
    match rule {
        Some(Rule::Limits { owner, spec }) => {
            let mut out = Vec::new(alloc);
            push_owner(&mut out, *owner)?;
            push_outside(&mut out, spec, false)?;
            Ok(Some(out))
        }
        _ => Ok(None),
    }
}

fn limit_bars_in(
    alloc: Global,
    catalogue: &Catalogue,
    rule: Option<&Rule>,
    version: &Version,
) -> Result<Option<Clause>, AllocError>
    ensures { (p : PlaceValue)
        → IfSome (option_copied rule.entry)
        (λ r. owner_literals (listed catalogue.now) (owner_in r) ≡ somes (place_fails p))
        → IfOk result
        (λ o.
        seen (listed catalogue.now) o
        ≡ option_map somes
        (limit_bars_clause catalogue.now p (version_of version.now)
        (option_and_then (line_of_rule (listed catalogue.now))
        (option_copied rule.entry)))) }
{
    let Some(number) = number_of(catalogue, version) else {
        return Ok(None);
    };
    match rule {
        Some(Rule::Limits { owner, spec }) => {
            if !is_outside(spec, version) {
                return Ok(None);
            }
            let mut out = Vec::new(alloc);
            push_owner(&mut out, *owner)?;
            push_version(&mut out, number, false)?;
            Ok(Some(out))
        }
        _ => Ok(None),
    }
}

fn lock_in(
    alloc: Global,
    catalogue: &Catalogue,
    rule: Option<KeptRule>,
    version: &Version,
) -> Result<Option<Clause>, AllocError>
    ensures { (t : TermsValue)
        → IfOk result
        (λ o.
        seen (listed catalogue.now) o
        ≡ option_map somes
        (lock_clause catalogue.now (version_of version.now)
        (option_and_then (line_of_kept t (listed catalogue.now)) rule))) }
{
    let Some(number) = number_of(catalogue, version) else {
        return Ok(None);
    };
    match rule {
        Some(KeptRule::Lock { version: locked }) => {
            if !is_locked_out(&catalogue.versions(), locked, version) {
                return Ok(None);
            }
            Ok(Some(absent(alloc, number)?))
        }
        _ => Ok(None),
    }
}

fn exclude_in(
    alloc: Global,
    catalogue: &Catalogue,
    rule: Option<KeptRule>,
) -> Result<Option<Clause>, AllocError>
    ensures { (t : TermsValue) (owner : Option spelled.Version)
        → IfSome rule (IsValid (listed catalogue.now) owner)
        → IfOk result
        (λ o.
        seen (listed catalogue.now) o
        ≡ option_map somes
        (exclude_clause (option_and_then (line_of_kept t (listed catalogue.now)) rule))) }
{
    match rule {
        Some(KeptRule::Exclude { version, .. }) => Ok(Some(absent(alloc, version)?)),
        _ => Ok(None),
    }
}

fn unknown_in(
    alloc: Global,
    catalogue: &Catalogue,
    rule: Option<KeptRule>,
) -> Result<Option<Clause>, AllocError>
    ensures { (t : TermsValue) (owner : Option spelled.Version)
        → IfSome rule (IsValid (listed catalogue.now) owner)
        → IfOk result
        (λ o.
        seen (listed catalogue.now) o
        ≡ option_map somes
        (unknown_clause owner (option_and_then (line_of_kept t (listed catalogue.now)) rule))) }
{
    match rule {
        Some(KeptRule::Unknown { version, .. }) => Ok(Some(absent(alloc, version)?)),
        _ => Ok(None),
    }
}

fn shared(alloc: Global, catalogue: &Catalogue, alternatives: &[Spec]) -> Result<Clause, AllocError>
    ensures { IfOk result
        (λ c.
        literals_in (listed catalogue.now) c.items
        ≡ somes (shared_clause catalogue.now (specs_of alternatives.now))) }
{
    let mut out = Vec::new(alloc);
    push_shared(alloc, &mut out, alternatives, false)?;
    push_matches(alloc, &mut out, catalogue, alternatives)?;
    Ok(out)
}

fn outside(
    alloc: Global,
    catalogue: &Catalogue,
    spec: &Spec,
    version: &Version,
) -> Result<Option<Clause>, AllocError>
    ensures { IfOk result
        (λ o.
        seen (listed catalogue.now) o
        ≡ option_map somes
        (outside_clause catalogue.now (spec_of spec.now) (version_of version.now))) }
{
    let Some(number) = number_of(catalogue, version) else {
        return Ok(None);
    };
    if !is_outside(spec, version) {
        return Ok(None);
    }
    let mut out = Vec::new(alloc);
    push_version(&mut out, number, false)?;
    push_outside(&mut out, spec, true)?;
    Ok(Some(out))
}

/// The clause by which a version meets a SPEC, where its package is marked `many`.
fn meets(
    alloc: Global,
    catalogue: &Catalogue,
    spec: &Spec,
    version: &Version,
) -> Result<Option<Clause>, AllocError>
    ensures { IfOk result
        (λ o.
        seen (listed catalogue.now) o
        ≡ option_map somes
        (matches_clause catalogue.now (spec_of spec.now) (version_of version.now))) }
{
    let Some(number) = number_of(catalogue, version) else {
        return Ok(None);
    };
    if !matches(spec, version) || !catalogue.is_many(&spec.name) {
        return Ok(None);
    }
    let mut out = Vec::new(alloc);
    push_version(&mut out, number, false)?;
    push_match(&mut out, spec, true)?;
    Ok(Some(out))
}

fn is_set(place: u32, bit: u32) -> bool
    requires { bit < 32 }
    ensures { result ≡ (bit_at place bit == 1) }
{
    place >> bit & 1 == 1
}

fn digit(
    alloc: Global,
    catalogue: &Catalogue,
    version: &Version,
    place: u32,
    bit: u32,
) -> Result<Option<Clause>, AllocError>
    ensures { IfOk result
        (λ o.
        seen (listed catalogue.now) o
        ≡ option_map somes (digit_clause catalogue.now (version_of version.now) place bit)) }
{
    let Some(number) = number_of(catalogue, version) else {
        return Ok(None);
    };
    if catalogue.is_many(&version.name) || bit >= 32 {
        return Ok(None);
    }
    let mut out = Vec::new(alloc);
    push_version(&mut out, number, false)?;
    push_bit(alloc, &mut out, bit, &version.name, is_set(place, bit))?;
    Ok(Some(out))
}

fn any(
    alloc: Global,
    catalogue: &Catalogue,
    version: &Version,
) -> Result<Option<Clause>, AllocError>
    ensures { IfOk result
        (λ o.
        seen (listed catalogue.now) o
        ≡ option_map somes (any_clause catalogue.now (version_of version.now))) }
{
    let Some(number) = number_of(catalogue, version) else {
        return Ok(None);
    };
    let mut out = Vec::new(alloc);
    push_version(&mut out, number, false)?;
    push_any(alloc, &mut out, &version.name, true)?;
    Ok(Some(out))
}

fn need_at(
    alloc: Global,
    catalogue: &Catalogue,
    request: &Request,
    place: &Place,
    line: u32,
    case: u32,
) -> Result<Option<Clause>, AllocError>
    ensures { IfOk result
        (λ o.
        seen (listed catalogue.now) o
        ≡ option_map somes
        (need_clause catalogue.now (place_of place.now) case
        (line_of catalogue.now request.now.lines (place_of place.now) line))) }
{
    let rule = rule_at(catalogue, request, place, line)?;
    need_in(alloc, catalogue, found(&rule), case)
}

fn gate_at(
    alloc: Global,
    catalogue: &Catalogue,
    version: &Version,
    line: u32,
) -> Result<Option<Clause>, AllocError>
    ensures { (request : List spelled.Line)
        → IfOk result
        (λ o.
        seen (listed catalogue.now) o
        ≡ option_map somes
        (gate_clause (version_of version.now)
        (line_of catalogue.now request (OfVersion (version_of version.now)) line))) }
{
    let rule = rule_owned(catalogue, version, line)?;
    gate_in(alloc, catalogue, rule.as_ref())
}

fn limit_at(
    alloc: Global,
    catalogue: &Catalogue,
    request: &Request,
    place: &Place,
    line: u32,
) -> Result<Option<Clause>, AllocError>
    ensures { IfOk result
        (λ o.
        seen (listed catalogue.now) o
        ≡ option_map somes
        (limit_clause (place_of place.now)
        (line_of catalogue.now request.now.lines (place_of place.now) line))) }
{
    let rule = rule_at(catalogue, request, place, line)?;
    limit_in(alloc, catalogue, found(&rule))
}

fn limit_bars_at(
    alloc: Global,
    catalogue: &Catalogue,
    request: &Request,
    place: &Place,
    line: u32,
    version: &Version,
) -> Result<Option<Clause>, AllocError>
    ensures { IfOk result
        (λ o.
        seen (listed catalogue.now) o
        ≡ option_map somes
        (limit_bars_clause catalogue.now (place_of place.now) (version_of version.now)
        (line_of catalogue.now request.now.lines (place_of place.now) line))) }
{
    let rule = rule_at(catalogue, request, place, line)?;
    limit_bars_in(alloc, catalogue, found(&rule), version)
}

fn lock_at(
    alloc: Global,
    catalogue: &Catalogue,
    line: u32,
    version: &Version,
) -> Result<Option<Clause>, AllocError>
    ensures { IfOk result
        (λ o.
        seen (listed catalogue.now) o
        ≡ option_map somes
        (lock_clause catalogue.now (version_of version.now) (line_at catalogue.now line))) }
{
    lock_in(alloc, catalogue, rule_of(catalogue, line), version)
}

fn exclude_at(alloc: Global, catalogue: &Catalogue, line: u32) -> Result<Option<Clause>, AllocError>
    ensures { IfOk result
        (λ o.
        seen (listed catalogue.now) o
        ≡ option_map somes (exclude_clause (line_at catalogue.now line))) }
{
    exclude_in(alloc, catalogue, rule_of(catalogue, line))
}

fn unknown_at(alloc: Global, catalogue: &Catalogue, line: u32) -> Result<Option<Clause>, AllocError>
    ensures { IfOk result
        (λ o.
        seen (listed catalogue.now) o
        ≡ option_map somes
        (unknown_clause (owner_of catalogue.now line) (line_at catalogue.now line))) }
{
    unknown_in(alloc, catalogue, rule_of(catalogue, line))
}

/// The clause of a rule step, if the step fits its line. A derived step has none here.
pub fn clause_of(
    alloc: Global,
    catalogue: &Catalogue,
    request: &Request,
    step: &Step,
) -> Result<Option<Clause>, AllocError>
    ensures { IfOk result
        (λ o.
        seen (listed catalogue.now) o
        ≡ option_map somes (rule_clause_of catalogue.now request.now.lines (step_of step.now))) }
{
    match step {
        Step::Need { place, line, case } => {
            need_at(alloc, catalogue, request, place, *line, *case)
        }
        Step::Gate { version, line } => gate_at(alloc, catalogue, version, *line),
        Step::Shared { alternatives } => Ok(Some(shared(alloc, catalogue, alternatives)?)),
        Step::LimitBars {
            place,
            line,
            version,
        } => limit_bars_at(alloc, catalogue, request, place, *line, version),
        Step::Limit { place, line } => limit_at(alloc, catalogue, request, place, *line),
        Step::Outside { spec, version } => outside(alloc, catalogue, spec, version),
        Step::Matches { spec, version } => meets(alloc, catalogue, spec, version),
        Step::Lock { line, version } => lock_at(alloc, catalogue, *line, version),
        Step::Exclude { line } => exclude_at(alloc, catalogue, *line),
        Step::Unknown { line } => unknown_at(alloc, catalogue, *line),
        Step::Digit {
            version,
            place,
            bit,
        } => digit(alloc, catalogue, version, *place, *bit),
        Step::Any { version } => any(alloc, catalogue, version),
        Step::Derive { .. } => Ok(None),
    }
}

/// Whether a `needs` rule has the case of this number, from 1.
fn has_case(alloc: Global, rule: Option<&Rule>, case: u32) -> Result<bool, AllocError>
    ensures { (catalogue : List spelled.Line) (p : PlaceValue) (versions : List spelled.Version)
        → IfOk result
        (λ fine.
        fine
        ≡ is_some
        (need_clause catalogue p case
        (option_and_then (line_of_rule versions) (option_copied rule.entry)))) }
{
    match rule {
        Some(Rule::Needs { condition, .. }) => Ok(case_at(alloc, condition, case)?.is_some()),
        _ => Ok(false),
    }
}

/// Whether the condition of a need has the case of this number, from 1.
fn has_need_case(
    alloc: Global,
    terms: &Terms,
    need: ConditionalRequirement,
    case: u32,
) -> Result<bool, AllocError>
    ensures { IfOk result
        (λ fine. fine ≡ is_some (case_at (option_map (cond_at terms.now) need.condition) case)) }
{
    let condition = terms.condition_of(need.condition)?;
    Ok(case_at(alloc, &condition, case)?.is_some())
}

/// Whether the line of the version in the catalogue is a need with the case of this number, from 1.
/// No text is made of its alternatives.
fn has_kept_case(
    alloc: Global,
    catalogue: &Catalogue,
    version: &Version,
    line: u32,
    case: u32,
) -> Result<bool, AllocError>
    ensures { (request : List spelled.Line)
        → IfOk result
        (λ fine.
        fine
        ≡ is_some
        (need_clause catalogue.now (OfVersion (version_of version.now)) case
        (line_of catalogue.now request (OfVersion (version_of version.now)) line))) }
{
    let kept = catalogue.kept();
    match need_of(&kept, &catalogue.versions(), version, line) {
        Some(need) => has_need_case(alloc, kept.terms(), need, case),
        None => Ok(false),
    }
}

/// Whether the line of the place is a need with the case of this number, from 1.
fn has_need(
    alloc: Global,
    catalogue: &Catalogue,
    request: &Request,
    place: &Place,
    line: u32,
    case: u32,
) -> Result<bool, AllocError>
    ensures { IfOk result
        (λ fine.
        fine
        ≡ is_some
        (need_clause catalogue.now (place_of place.now) case
        (line_of catalogue.now request.now.lines (place_of place.now) line))) }
{
    match place {
        Place::Request => has_case(alloc, rule_asked(request, line), case),
        Place::Version(version) => has_kept_case(alloc, catalogue, version, line, case),
    }
}

/// Whether a long step has a clause. None is built.
pub fn has_clause(
    alloc: Global,
    catalogue: &Catalogue,
    request: &Request,
    step: &Step,
) -> Result<bool, AllocError>
    ensures { is_long (step_of step.now) ≡ true
        → IfOk result
        (λ fine.
        fine ≡ is_some (clause_of catalogue.now request.now.lines (step_of step.now))) }
{
    match step {
        Step::Need { place, line, case } => {
            has_need(alloc, catalogue, request, place, *line, *case)
        }
        _ => Ok(true),
    }
}
