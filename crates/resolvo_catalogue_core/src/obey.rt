//! Whether a set of versions, given by their numbers, obeys a rule.
//! The model of the set is its members among the listed versions. Used by `keeps` of catalogue and
//! request, which are for users: the judge has a test of its own over its entries.

ghost use Rattle.std.specs.Prelude.{◌≡◌, ◌==◌, ◌||◌, ◌<◌, not, slice_get, Some, None, Option, List, true, false};
ghost use Rattle.std.specs.List.{list_any, list_all};
ghost use Rattle.std.specs.Str.{bytes_eq};
ghost use Rattle.std.specs.Option.{option_map_or, option_map, option_copied};
ghost use Rattle.resolvo_text.specs.View.{spec_of, specs_of, cond_of, condition_of};
ghost use Rattle.resolvo_text.specs.Matches.{matches, is_met, is_met_by_one, is_member, holds, condition_holds, same_package};
ghost use Rattle.resolvo_catalogue_core.specs.Rules.{binds, obeys};
ghost use Rattle.resolvo_catalogue_core.specs.Listed.{version_by, members, AreDistinct, is_match};
ghost use Rattle.resolvo_text.specs.Line.{Version, Line, Lock};
ghost use Rattle.resolvo_catalogue_core.specs.Questions.{IsOwner, IsRuleLine};
ghost use Rattle.resolvo_catalogue_core.specs.Kept.{IsKeptOf, kept_line, lent_spec};
ghost use Rattle.resolvo_terms.specs.Known.{spec_at, alternatives_at, cond_at};

use crate::kept_rule::KeptRule;
use crate::rule::{Rule, VersionNo};
use crate::versions::Versions;
use resolvo_pool_core::condition::{Condition, LogicalOperator};
use resolvo_pool_core::id::{ConditionId, VersionSetId};
use resolvo_pool_core::requirement::Requirement;
use resolvo_terms::Terms;
use resolvo_text::{Cond, Span, Spec, is_in_span};

/// A SPEC that is lent: by the text of a request, or by the terms of a catalogue.
#[derive(Clone, Copy)]
pub struct LentSpec<'a> {
    name: &'a str,
    span: Span,
}

/// The SPEC of a text.
pub fn lent(spec: &Spec) -> LentSpec<'_>
    ensures { lent_spec result ≡ spec_of spec.now }
{
    LentSpec {
        name: spec.name.as_str(),
        span: spec.span,
    }
}

/// The SPEC of a number.
fn kept_spec(terms: &Terms, spec: VersionSetId) -> LentSpec<'_>
    ensures { lent_spec result ≡ spec_at terms.now spec }
{
    LentSpec {
        name: terms.name(terms.set_package(spec)),
        span: terms.span(spec),
    }
}

fn fits(spec: LentSpec<'_>, version: (&str, u32)) -> bool
    ensures { result ≡ matches (lent_spec spec.entry) (version_by version.entry.0.now version.entry.1) }
{
    version.0 == spec.name && is_in_span(spec.span, version.1)
}

/// Whether the SPEC matches the version of this number.
pub fn is_match(spec: LentSpec<'_>, versions: &Versions<'_>, number: VersionNo) -> bool
    ensures { result ≡ is_match versions.now (lent_spec spec.entry) number.0 }
{
    match versions.get(number) {
        Some(version) => fits(spec, version),
        None => false,
    }
}

// split for the prover: list and set
fn any_matches(spec: LentSpec<'_>, versions: &Versions<'_>, set: &[VersionNo]) -> bool
    ensures { result
        ≡ list_any (λ n. is_match versions.now (lent_spec spec.entry) n.0) set.now }
{
    set.iter().any(|number| is_match(spec, versions, *number))
}

fn is_met(spec: LentSpec<'_>, versions: &Versions<'_>, set: &[VersionNo]) -> bool
    ensures { result ≡ is_met (lent_spec spec.entry) (members versions.now set.now) }
{
    any_matches(spec, versions, set)
}

fn holds(condition: &Cond, versions: &Versions<'_>, set: &[VersionNo]) -> bool
    ensures { result ≡ holds (cond_of condition.now) (members versions.now set.now) }
{
    match condition {
        Cond::Spec(spec) => is_met(lent(spec), versions, set),
        Cond::And(left, right) => holds(left, versions, set) && holds(right, versions, set),
        Cond::Or(left, right) => holds(left, versions, set) || holds(right, versions, set),
    }
}

fn condition_holds(
    condition: Option<&Box<Cond>>,
    versions: &Versions<'_>,
    set: &[VersionNo],
) -> bool
    ensures { result
        ≡ condition_holds (condition_of (option_copied condition.entry))
        (members versions.now set.now) }
{
    match condition {
        Some(condition) => holds(condition, versions, set),
        None => true,
    }
}

// split for the prover: list and set
fn any_is_met(alternatives: &[Spec], versions: &Versions<'_>, set: &[VersionNo]) -> bool
    ensures { result
        ≡ list_any (λ s. is_met (spec_of s) (members versions.now set.now))
        alternatives.now }
{
    alternatives
        .iter()
        .any(|spec| is_met(lent(spec), versions, set))
}

fn is_met_by_one(alternatives: &[Spec], versions: &Versions<'_>, set: &[VersionNo]) -> bool
    ensures { result
        ≡ is_met_by_one (specs_of alternatives.now) (members versions.now set.now) }
{
    any_is_met(alternatives, versions, set)
}

fn has_number(number: VersionNo, set: &[VersionNo]) -> bool
    ensures { result ≡ list_any (λ n. n.0 == number.0) set.now }
{
    set.iter().any(|member| member.0 == number.0)
}

fn is_member(number: VersionNo, set: &[VersionNo]) -> bool
    ensures { (versions : List Version) (v : Version)
        → AreDistinct versions
        → slice_get versions number.0 ≡ Some v
        → result ≡ is_member v (members versions set.now) }
{
    has_number(number, set)
}

/// Whether the version is of another package, or matches.
fn is_within(spec: LentSpec<'_>, version: (&str, u32)) -> bool
    ensures { result
        ≡ (not (bytes_eq version.entry.0.now (lent_spec spec.entry).name) || matches (lent_spec spec.entry)
        (version_by version.entry.0.now version.entry.1)) }
{
    version.0 != spec.name || fits(spec, version)
}

fn is_within_at(spec: LentSpec<'_>, versions: &Versions<'_>, number: VersionNo) -> bool
    ensures { result
        ≡ option_map_or
        (λ v. not (bytes_eq v.name (lent_spec spec.entry).name) || matches (lent_spec spec.entry) v)
        (slice_get versions.now number.0) true }
{
    match versions.get(number) {
        Some(version) => is_within(spec, version),
        None => true,
    }
}

// split for the prover: list and set
fn all_are_within(spec: LentSpec<'_>, versions: &Versions<'_>, set: &[VersionNo]) -> bool
    ensures { result
        ≡ list_all
        (λ n.
        option_map_or
        (λ v.
        not (bytes_eq v.name (lent_spec spec.entry).name) || matches (lent_spec spec.entry) v)
        (slice_get versions.now n.0) true)
        set.now }
{
    set.iter()
        .all(|number| is_within_at(spec, versions, *number))
}

fn are_within(spec: LentSpec<'_>, versions: &Versions<'_>, set: &[VersionNo]) -> bool
    ensures { result
        ≡ list_all
        (λ v. not (bytes_eq v.name (lent_spec spec.entry).name) || matches (lent_spec spec.entry) v)
        (members versions.now set.now) }
{
    all_are_within(spec, versions, set)
}

/// Whether the version is of another package than the locked one, or has its number.
fn keeps_lock(locked: (&str, u32), version: (&str, u32)) -> bool
    ensures { result
        ≡ (not
        (same_package (version_by version.entry.0.now version.entry.1)
        (version_by locked.entry.0.now locked.entry.1)) || version.entry.1 == locked.entry.1) }
{
    version.0 != locked.0 || version.1 == locked.1
}

fn keeps_lock_at(locked: (&str, u32), versions: &Versions<'_>, number: VersionNo) -> bool
    ensures { result
        ≡ option_map_or
        (λ w.
        not (same_package w (version_by locked.entry.0.now locked.entry.1)) || w.number
        == locked.entry.1)
        (slice_get versions.now number.0) true }
{
    match versions.get(number) {
        Some(version) => keeps_lock(locked, version),
        None => true,
    }
}

// split for the prover: list and set
fn all_keep_lock(locked: (&str, u32), versions: &Versions<'_>, set: &[VersionNo]) -> bool
    ensures { result
        ≡ list_all
        (λ n.
        option_map_or
        (λ w.
        not (same_package w (version_by locked.entry.0.now locked.entry.1)) || w.number
        == locked.entry.1)
        (slice_get versions.now n.0) true)
        set.now }
{
    set.iter()
        .all(|number| keeps_lock_at(locked, versions, *number))
}

fn obeys_lock(locked: VersionNo, versions: &Versions<'_>, set: &[VersionNo]) -> bool
    ensures { (v : Version)
        → slice_get versions.now locked.0 ≡ Some v
        → result ≡ obeys None (Lock v) (members versions.now set.now) }
{
    match versions.get(locked) {
        Some(locked) => all_keep_lock(locked, versions, set),
        None => true,
    }
}

fn binds(owner: Option<VersionNo>, set: &[VersionNo]) -> bool
    ensures { (versions : List Version) (whose : Option Version)
        → AreDistinct versions
        → IsOwner versions owner whose
        → result ≡ binds whose (members versions set.now) }
{
    match owner {
        Some(version) => is_member(version, set),
        None => true,
    }
}

/// Whether the set obeys the rule. The numbers in the rule are those of listed versions.
pub fn obeys(rule: &Rule, versions: &Versions<'_>, set: &[VersionNo]) -> bool
    requires { AreDistinct versions.now }
    ensures { (owner : Option Version) (line : Line)
        → IsRuleLine versions.now rule.now owner line
        → result ≡ obeys owner line (members versions.now set.now) }
{
    match rule {
        Rule::Needs {
            owner,
            alternatives,
            condition,
        } => {
            !binds(*owner, set)
                || !condition_holds(condition.as_ref(), versions, set)
                || is_met_by_one(alternatives.as_slice(), versions, set)
        }
        Rule::Limits { owner, spec } => {
            !binds(*owner, set) || are_within(lent(spec), versions, set)
        }
        Rule::Lock { version } => obeys_lock(*version, versions, set),
        Rule::Exclude { version, .. } => !is_member(*version, set),
        Rule::Unknown { version, .. } => !binds(Some(*version), set),
    }
}

/// Whether the condition of a number holds.
fn holds_kept(
    condition: ConditionId,
    terms: &Terms,
    versions: &Versions<'_>,
    set: &[VersionNo],
) -> bool
    ensures { result ≡ holds (cond_at terms.now condition) (members versions.now set.now) }
{
    match terms.meaning(condition) {
        Condition::Requirement(spec) => is_met(kept_spec(terms, spec), versions, set),
        Condition::Binary(LogicalOperator::And, left, right) => {
            holds_kept(left, terms, versions, set) && holds_kept(right, terms, versions, set)
        }
        Condition::Binary(LogicalOperator::Or, left, right) => {
            holds_kept(left, terms, versions, set) || holds_kept(right, terms, versions, set)
        }
    }
}

fn condition_holds_kept(
    condition: Option<ConditionId>,
    terms: &Terms,
    versions: &Versions<'_>,
    set: &[VersionNo],
) -> bool
    ensures { result
        ≡ condition_holds (option_map (cond_at terms.now) condition)
        (members versions.now set.now) }
{
    match condition {
        Some(condition) => holds_kept(condition, terms, versions, set),
        None => true,
    }
}

// split for the prover: list and set
fn any_kept_is_met(
    specs: &[VersionSetId],
    terms: &Terms,
    versions: &Versions<'_>,
    set: &[VersionNo],
) -> bool
    ensures { result
        ≡ list_any (λ v. is_met (spec_at terms.now v) (members versions.now set.now)) specs.now }
{
    specs
        .iter()
        .any(|spec| is_met(kept_spec(terms, *spec), versions, set))
}

/// Whether one of the alternatives of a number is met.
fn kept_is_met_by_one(
    requirement: Requirement,
    terms: &Terms,
    versions: &Versions<'_>,
    set: &[VersionNo],
) -> bool
    ensures { result
        ≡ is_met_by_one (alternatives_at terms.now requirement) (members versions.now set.now) }
{
    match requirement {
        Requirement::Single(spec) => any_kept_is_met(&[spec], terms, versions, set),
        Requirement::Union(union) => any_kept_is_met(terms.members(union), terms, versions, set),
    }
}

/// Whether the set obeys the rule that is kept so. The numbers of versions in the rule are those of
/// listed ones.
pub fn obeys_kept(rule: KeptRule, terms: &Terms, versions: &Versions<'_>, set: &[VersionNo]) -> bool
    requires { AreDistinct versions.now }
    ensures { (owner : Option Version)
        → IsKeptOf versions.now owner rule
        → result
        ≡ obeys owner (kept_line terms.now versions.now rule) (members versions.now set.now) }
{
    match rule {
        KeptRule::Needs { owner, need } => {
            !binds(Some(owner), set)
                || !condition_holds_kept(need.condition, terms, versions, set)
                || kept_is_met_by_one(need.requirement, terms, versions, set)
        }
        KeptRule::Limits { owner, spec } => {
            !binds(Some(owner), set) || are_within(kept_spec(terms, spec), versions, set)
        }
        KeptRule::Lock { version } => obeys_lock(version, versions, set),
        KeptRule::Exclude { version, .. } => !is_member(version, set),
        KeptRule::Unknown { version, .. } => !binds(Some(version), set),
    }
}
