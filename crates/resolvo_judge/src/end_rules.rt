//! Whether the entries of an `install` report keep all rules, at the report's end.

ghost use Rattle.std.specs.Prelude.{◌≡◌, ℕ, List, Option, Some, None, IfOk, IsTrue, true, false, slice_get};
ghost use Rattle.resolvo_text.specs.Line as spelled;
ghost use Rattle.resolvo_text.specs.Line.{Lock};
ghost use Rattle.resolvo_text.specs.Matches.{Set, is_member};
ghost use Rattle.resolvo_catalogue_core.specs.Questions.{IsRuleLine, IsOwner};
ghost use Rattle.resolvo_catalogue_core.specs.Rules.{binds, obeys, keeps, keeps_in_request};
ghost use Rattle.resolvo_judge.specs.Chosen.{Holds};
ghost use Rattle.resolvo_judge.specs.EndRules.{KeepsAll};

use crate::chosen::Chosen;
use resolvo_catalogue_core::{Catalogue, Request, Rule, VersionNo, Versions};
use std::alloc::AllocError;

/// Whether the version of this number is chosen.
fn is_chosen(chosen: &Chosen, versions: &Versions<'_>, number: VersionNo) -> bool
    ensures { (set : Set) (v : spelled.Version)
        → Holds chosen.now set
        → slice_get versions.now number.0 ≡ Some v
        → result ≡ is_member v set }
{
    match versions.get(number) {
        Some(version) => chosen.has_listed(version),
        None => false,
    }
}

/// Whether a rule of this owner applies: the owner is chosen, or there is none.
fn binds(chosen: &Chosen, versions: &Versions<'_>, owner: Option<VersionNo>) -> bool
    ensures { (set : Set) (whose : Option spelled.Version)
        → Holds chosen.now set
        → IsOwner versions.now owner whose
        → result ≡ binds whose set }
{
    match owner {
        Some(number) => is_chosen(chosen, versions, number),
        None => true,
    }
}

fn keeps_lock(chosen: &Chosen, versions: &Versions<'_>, locked: VersionNo) -> bool
    ensures { (set : Set) (v : spelled.Version)
        → Holds chosen.now set
        → slice_get versions.now locked.0 ≡ Some v
        → result ≡ obeys None (Lock v) set }
{
    match versions.get(locked) {
        Some(version) => chosen.keeps_lock(version),
        None => true,
    }
}

/// Whether the chosen versions obey the rule. The numbers in the rule are those of listed versions.
fn obeys(chosen: &Chosen, versions: &Versions<'_>, rule: &Rule) -> bool
    ensures { (set : Set) (owner : Option spelled.Version) (line : spelled.Line)
        → Holds chosen.now set
        → IsRuleLine versions.now rule.now owner line
        → result ≡ obeys owner line set }
{
    match rule {
        Rule::Needs {
            owner,
            alternatives,
            condition,
        } => {
            !binds(chosen, versions, *owner)
                || !chosen.condition_holds(condition)
                || chosen.is_met_by_one(alternatives.as_slice())
        }
        Rule::Limits { owner, spec } => {
            !binds(chosen, versions, *owner) || chosen.are_within(spec)
        }
        Rule::Lock { version } => keeps_lock(chosen, versions, *version),
        Rule::Exclude { version, .. } => !is_chosen(chosen, versions, *version),
        Rule::Unknown { version, .. } => !binds(chosen, versions, Some(*version)),
    }
}

/// Whether the line belongs to a version that isn't chosen. So it is obeyed, whatever it says.
fn is_idle(chosen: &Chosen, catalogue: &Catalogue, line: u32) -> bool
    ensures { (set : Set)
        → Holds chosen.now set
        → IsTrue result
        → keeps catalogue.now line set ≡ true }
{
    match catalogue.kept().rule(line) {
        Some(rule) => match rule.owner() {
            Some(owner) => !is_chosen(chosen, &catalogue.versions(), owner),
            None => false,
        },
        None => true,
    }
}

/// Whether they obey the line of the catalogue. A line without a rule is obeyed.
fn keeps_line(chosen: &Chosen, catalogue: &Catalogue, line: u32) -> Result<bool, AllocError>
    ensures { (set : Set)
        → Holds chosen.now set
        → IfOk result (λ is. is ≡ keeps catalogue.now line set) }
{
    if is_idle(chosen, catalogue, line) {
        return Ok(true);
    }
    match catalogue.rule(line)? {
        Some(rule) => Ok(obeys(chosen, &catalogue.versions(), &rule)),
        None => Ok(true),
    }
}

/// Whether they obey the line of the request.
fn keeps_request_line(chosen: &Chosen, catalogue: &Catalogue, request: &Request, line: u32) -> bool
    ensures { (set : Set) → Holds chosen.now set
        → result ≡ keeps_in_request request.now.lines line set }
{
    match request.rule(line) {
        Some(rule) => obeys(chosen, &catalogue.versions(), rule),
        None => true,
    }
}

/// Whether they obey all lines of the catalogue.
fn keeps_catalogue(chosen: &Chosen, catalogue: &Catalogue) -> Result<bool, AllocError>
    ensures yes { (set : Set)
        → Holds chosen.now set
        → IfOk result (λ all. IsTrue all → (n : ℕ) → IsTrue (keeps catalogue.now n set)) }
    ensures no { (set : Set)
        → Holds chosen.now set
        → IfOk result
        (λ all. all ≡ false → ((n : ℕ) → IsTrue (keeps catalogue.now n set)) → ⊥) }
{
    for index in 0..catalogue.line_count() {
        if !keeps_line(chosen, catalogue, index + 1)? {
            return Ok(false);
        }
    }
    Ok(true)
}

/// Whether they obey all lines of the request.
fn keeps_request(chosen: &Chosen, catalogue: &Catalogue, request: &Request) -> bool
    ensures yes { (set : Set)
        → Holds chosen.now set
        → IsTrue result
        → (n : ℕ)
        → IsTrue (keeps_in_request request.now.lines n set) }
    ensures no { (set : Set)
        → Holds chosen.now set
        → result ≡ false
        → ((n : ℕ) → IsTrue (keeps_in_request request.now.lines n set))
        → ⊥ }
{
    for index in 0..request.line_count() {
        if !keeps_request_line(chosen, catalogue, request, index + 1) {
            return false;
        }
    }
    true
}

/// Whether the chosen versions obey all lines of both texts.
pub fn keeps_all(
    chosen: &Chosen,
    catalogue: &Catalogue,
    request: &Request,
) -> Result<bool, AllocError>
    ensures { (set : Set)
        → Holds chosen.now set
        → IfOk result (KeepsAll catalogue.now request.now.lines set) }
{
    let all = keeps_catalogue(chosen, catalogue)?;
    Ok(all && keeps_request(chosen, catalogue, request))
}
