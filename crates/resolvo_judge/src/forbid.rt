//! Whether the clause of a step forbids the left-out wishes that name the step.

ghost use Rattle.std.specs.Prelude.{◌≡◌, ◌&&◌, ◌||◌, not, false, List, IfOk, Some, map, slice_get, take};
ghost use Rattle.std.specs.List.{list_all};
ghost use Rattle.std.specs.Option.{option_map_or};
ghost use Rattle.resolvo_text.specs.Line as spelled;
ghost use Rattle.resolvo_text.specs.Matches.{Set, same_version, is_member};
ghost use Rattle.resolvo_text.specs.View.{version_of};
ghost use Rattle.resolvo_catalogue_core.specs.Listed.{version_by};
ghost use Rattle.resolvo_report.specs.View.{step_of, literal_of as report_literal, literals_of as report_literals};
ghost use Rattle.resolvo_checker.specs.StepClauses.{Clause, clause_of, literal_of as plain_literal};
ghost use Rattle.resolvo_checker.specs.Proof.{forbids};
ghost use Rattle.resolvo_checker.specs.Built.{literals_in, literal_of as built_literal, somes, rule_clause_of};
ghost use Rattle.resolvo_judge.specs.Chosen.{Holds};
ghost use Rattle.resolvo_judge.specs.ForbiddenWishes.{forbidden_of};
ghost use Rattle.resolvo_judge.specs.Forbids.{literal_forbids, built_forbid, clause_forbids};

use crate::chosen::Chosen;
use crate::entries::is_same;
use crate::forbidden_wishes::Forbidden;
use resolvo_catalogue_core::{Catalogue, Request, Version, VersionNo, Versions};
use resolvo_checker::atom::{Atom as BuiltAtom, Built};
use resolvo_checker::steps::clause_of;
use resolvo_report::{Atom, Literal, Step};
use std::alloc::{AllocError, Global};

fn is_wish(listed: (&str, u32), wish: &Version) -> bool
    ensures { result
        ≡ same_version (version_by listed.entry.0.now listed.entry.1) (version_of wish.now) }
{
    listed.0 == wish.name.as_str() && listed.1 == wish.number
}

/// Whether the version of this number is the wish, or an entry above its line.
fn is_listed_among(
    chosen: &Chosen,
    versions: &Versions<'_>,
    version: VersionNo,
    forbidden: &Forbidden,
) -> bool
    ensures { (set : Set)
        → Holds chosen.now set
        → result
        ≡ option_map_or
        (λ v.
        same_version v (version_of forbidden.now.wish) || is_member v
        (take forbidden.now.above set))
        (slice_get versions.now version.0) false }
{
    match versions.get(version) {
        Some(listed) => {
            is_wish(listed, &forbidden.wish) || chosen.has_listed_among(listed, forbidden.above)
        }
        None => false,
    }
}

/// Whether the built literal is `not` of the wish, or of an entry above its line.
fn built_forbids(
    chosen: &Chosen,
    versions: &Versions<'_>,
    built: &Built,
    forbidden: &Forbidden,
) -> bool
    ensures { (set : Set)
        → Holds chosen.now set
        → result
        ≡ option_map_or
        (literal_forbids (take forbidden.now.above set) (version_of forbidden.now.wish))
        (built_literal versions.now built.now.atom built.now.positive) false }
{
    match &built.atom {
        BuiltAtom::Version(version) => {
            !built.positive && is_listed_among(chosen, versions, *version, forbidden)
        }
        BuiltAtom::Any(_)
        | BuiltAtom::Shared(_)
        | BuiltAtom::Outside(_)
        | BuiltAtom::Matches(_)
        | BuiltAtom::Bit(..) => false,
    }
}

/// Whether the version is the wish, or an entry above its line.
fn is_among(chosen: &Chosen, version: &Version, forbidden: &Forbidden) -> bool
    ensures { (set : Set)
        → Holds chosen.now set
        → result
        ≡ (same_version (version_of version.now) (version_of forbidden.now.wish) || is_member
        (version_of version.now) (take forbidden.now.above set)) }
{
    is_same(version, &forbidden.wish) || chosen.has_among(version, forbidden.above)
}

/// Whether the literal is `not` of the wish, or of an entry above its line.
fn literal_forbids(chosen: &Chosen, literal: &Literal, forbidden: &Forbidden) -> bool
    ensures { (set : Set)
        → Holds chosen.now set
        → result
        ≡ literal_forbids (take forbidden.now.above set) (version_of forbidden.now.wish)
        (plain_literal (report_literal literal.now)) }
{
    match &literal.atom {
        Atom::Version(version) => !literal.positive && is_among(chosen, version, forbidden),
        Atom::Any { .. }
        | Atom::Shared { .. }
        | Atom::Outside { .. }
        | Atom::Matches { .. }
        | Atom::Bit { .. } => false,
    }
}

/// Whether each literal of a built clause is such a literal.
fn all_built_forbid(
    chosen: &Chosen,
    versions: &Versions<'_>,
    clause: &[Built],
    forbidden: &Forbidden,
) -> bool
    ensures { (set : Set)
        → Holds chosen.now set
        → result
        ≡ built_forbid (take forbidden.now.above set) (version_of forbidden.now.wish)
        (literals_in versions.now clause.now) }
{
    for built in clause {
        if !built_forbids(chosen, versions, built, forbidden) {
            return false;
        }
    }
    true
}

/// Whether each literal of a derived clause is such a literal.
fn all_forbid(chosen: &Chosen, literals: &[Literal], forbidden: &Forbidden) -> bool
    ensures { (set : Set)
        → Holds chosen.now set
        → result
        ≡ forbids (take forbidden.now.above set) (version_of forbidden.now.wish)
        (map plain_literal (report_literals literals.now)) }
{
    for literal in literals {
        if !literal_forbids(chosen, literal, forbidden) {
            return false;
        }
    }
    true
}

/// Whether the built clause forbids each of the wishes.
fn rule_forbids(
    chosen: &Chosen,
    versions: &Versions<'_>,
    clause: &[Built],
    wishes: &[Forbidden],
) -> bool
    ensures { (set : Set) (plain : Clause)
        → Holds chosen.now set
        → somes plain ≡ literals_in versions.now clause.now
        → result ≡ list_all (clause_forbids set plain) (map forbidden_of wishes.now) }
{
    for forbidden in wishes {
        if !all_built_forbid(chosen, versions, clause, forbidden) {
            return false;
        }
    }
    true
}

/// Whether the derived clause forbids each of the wishes.
fn derived_forbids(chosen: &Chosen, literals: &[Literal], wishes: &[Forbidden]) -> bool
    ensures { (set : Set)
        → Holds chosen.now set
        → result
        ≡ list_all (clause_forbids set (map plain_literal (report_literals literals.now)))
        (map forbidden_of wishes.now) }
{
    for forbidden in wishes {
        if !all_forbid(chosen, literals, forbidden) {
            return false;
        }
    }
    true
}

/// Whether the clause of a step that isn't derived forbids each of the wishes.
fn rule_step_forbids(
    alloc: Global,
    catalogue: &Catalogue,
    request: &Request,
    chosen: &Chosen,
    step: &Step,
    wishes: &[Forbidden],
) -> Result<bool, AllocError>
    ensures { IfOk result
        (λ fine.
        (set : Set) (clause : Clause)
        → Holds chosen.now set
        → rule_clause_of catalogue.now request.now.lines (step_of step.now) ≡ Some clause
        → fine ≡ list_all (clause_forbids set clause) (map forbidden_of wishes.now)) }
{
    match clause_of(alloc, catalogue, request, step)? {
        Some(clause) => Ok(rule_forbids(chosen, &catalogue.versions(), &clause, wishes)),
        None => Ok(false),
    }
}

/// Whether the step's clause forbids each of the wishes: its only literals are `not` of the wish
/// and of entries above its line.
pub fn step_forbids(
    alloc: Global,
    catalogue: &Catalogue,
    request: &Request,
    chosen: &Chosen,
    step: &Step,
    wishes: &[Forbidden],
) -> Result<bool, AllocError>
    ensures { IfOk result
        (λ fine.
        (set : Set) (clause : Clause)
        → Holds chosen.now set
        → clause_of catalogue.now request.now.lines (step_of step.now) ≡ Some clause
        → fine ≡ list_all (clause_forbids set clause) (map forbidden_of wishes.now)) }
{
    if wishes.is_empty() {
        return Ok(true);
    }
    if let Step::Derive { literals, .. } = step {
        return Ok(derived_forbids(chosen, literals, wishes));
    }
    rule_step_forbids(alloc, catalogue, request, chosen, step, wishes)
}
