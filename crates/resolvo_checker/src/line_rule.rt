//! The rule of the line that a step names.

ghost use Rattle.std.specs.Prelude.{◌≡◌, IfOk, IfSome, None, List, option_map, slice_get};
ghost use Rattle.resolvo_catalogue_core.specs.Questions.{rule_found};
ghost use Rattle.resolvo_text.specs.Matches.{same_version};
ghost use Rattle.std.specs.Option.{option_and_then, option_copied};
ghost use Rattle.resolvo_text.specs.Line as spelled;
ghost use Rattle.resolvo_text.specs.View.{version_of};
ghost use Rattle.resolvo_catalogue_core.specs.Grammar.{line_at, owner_of};
ghost use Rattle.resolvo_catalogue_core.specs.Listed.{listed, version_by};
ghost use Rattle.resolvo_report.specs.View.{place_of};
ghost use Rattle.resolvo_report.specs.Value.{OfVersion};
ghost use Rattle.resolvo_terms.specs.Terms.{Terms};
ghost use Rattle.resolvo_checker.specs.StepClauses.{line_of, place_fails, is_owner};
ghost use Rattle.resolvo_checker.specs.Built.{somes};
ghost use Rattle.resolvo_checker.specs.RuleLines.{line_of_rule, rule_line, line_of_kept, owned_line, need_line, line_of_need, need_kept, owner_in, owner_literals, is_owned_by, IsValid};

use resolvo_catalogue_core::{
    Catalogue, FoundRule, KeptLines, KeptRule, Request, Rule, Version, VersionNo, Versions,
};
use resolvo_pool_core::requirement::ConditionalRequirement;
use resolvo_report::Place;
use std::alloc::AllocError;

/// The rule of a line of the catalogue as it is kept, if it has one. No text is made of it.
pub fn rule_of(catalogue: &Catalogue, line: u32) -> Option<KeptRule>
    ensures from_line { (t : Terms)
        × (rule_line (line_at catalogue.now line)
        ≡ option_and_then (line_of_kept t (listed catalogue.now)) result) }
    ensures valid { IfSome result (IsValid (listed catalogue.now) (owner_of catalogue.now line)) }
{
    match catalogue.kept().rule(line) {
        Some(rule) => Some(rule),
        None => None,
    }
}

/// The rule of a `needs` or `limits` line of the request.
pub fn rule_asked(request: &Request, line: u32) -> Option<&Rule>
    ensures from_line { (vs : List spelled.Version)
        → owned_line (line_at request.now.lines line)
        ≡ option_and_then (line_of_rule vs) (option_copied result) }
    ensures none { IfSome result (λ r. owner_in r.now ≡ None) }
{
    match request.rule(line) {
        Some(rule) => Some(rule),
        None => None,
    }
}

fn is_same(version: &Version, listed: (&str, u32)) -> bool
    ensures { result
        ≡ same_version (version_of version.now) (version_by listed.entry.0.now listed.entry.1) }
{
    version.name.as_str() == listed.0 && version.number == listed.1
}

/// Whether this number is that of the version.
fn is_numbered(versions: &Versions<'_>, number: VersionNo, version: &Version) -> bool
    ensures { result ≡ is_owner (version_of version.now) (slice_get versions.now number.0) }
{
    match versions.get(number) {
        Some(listed) => is_same(version, listed),
        None => false,
    }
}

/// Whether the rule is a `needs` or `limits` line of the version.
fn is_owned(versions: &Versions<'_>, rule: &Rule, version: &Version) -> bool
    ensures { result ≡ is_owned_by versions.now rule.now (version_of version.now) }
{
    match rule {
        Rule::Needs {
            owner: Some(owner),
            ..
        }
        | Rule::Limits {
            owner: Some(owner),
            ..
        } => is_numbered(versions, *owner, version),
        _ => false,
    }
}

/// The need that a rule is, if it is one of the version.
fn need_kept(
    versions: &Versions<'_>,
    rule: KeptRule,
    version: &Version,
) -> Option<ConditionalRequirement>
    ensures { result ≡ need_kept versions.now rule (version_of version.now) }
{
    match rule {
        KeptRule::Needs { owner, need } => {
            if is_numbered(versions, owner, version) {
                Some(need)
            } else {
                None
            }
        }
        _ => None,
    }
}

/// The need of a line of the version in the catalogue, by numbers. No text is made of the line.
pub fn need_of(
    kept: &KeptLines<'_>,
    versions: &Versions<'_>,
    version: &Version,
    line: u32,
) -> Option<ConditionalRequirement>
    ensures { (catalogue request : List spelled.Line)
        → kept.now.lines ≡ catalogue
        → versions.now ≡ listed catalogue
        → need_line (line_of catalogue request (OfVersion (version_of version.now)) line)
        ≡ option_map (line_of_need kept.now.terms) result }
{
    match kept.rule(line) {
        Some(rule) => need_kept(versions, rule, version),
        None => None,
    }
}

/// The rule of a `needs` or `limits` line of the version in the catalogue.
pub fn rule_owned(
    catalogue: &Catalogue,
    version: &Version,
    line: u32,
) -> Result<Option<Rule>, AllocError>
    ensures from_line { IfOk result
        (λ found.
        (request : List spelled.Line)
        → owned_line (line_of catalogue.now request (OfVersion (version_of version.now)) line)
        ≡ option_and_then (line_of_rule (listed catalogue.now)) found) }
    ensures owner { IfOk result
        (λ found.
        IfSome found
        (λ r.
        owner_literals (listed catalogue.now) (owner_in r)
        ≡ somes (place_fails (OfVersion (version_of version.now))))) }
{
    match catalogue.rule(line)? {
        Some(rule) => {
            if is_owned(&catalogue.versions(), &rule, version) {
                Ok(Some(rule))
            } else {
                Ok(None)
            }
        }
        None => Ok(None),
    }
}

/// The rule of a `needs` or `limits` line of the place.
pub fn rule_at<'a>(
    catalogue: &Catalogue,
    request: &'a Request,
    place: &Place,
    line: u32,
) -> Result<Option<FoundRule<'a>>, AllocError>
    ensures from_line { IfOk result
        (λ rule.
        owned_line (line_of catalogue.now request.now.lines (place_of place.now) line)
        ≡ option_and_then (line_of_rule (listed catalogue.now)) (option_map rule_found rule)) }
    ensures owner { IfOk result
        (λ rule.
        IfSome rule
        (λ r.
        owner_literals (listed catalogue.now) (owner_in (rule_found r))
        ≡ somes (place_fails (place_of place.now)))) }
{
    match place {
        Place::Request => match rule_asked(request, line) {
            Some(rule) => Ok(Some(FoundRule::Lent(rule))),
            None => Ok(None),
        },
        Place::Version(version) => match rule_owned(catalogue, version, line)? {
            Some(rule) => Ok(Some(FoundRule::Made(rule))),
            None => Ok(None),
        },
    }
}
