//! Literals and groups of literals, added to a clause.

ghost use Rattle.std.specs.Prelude.{◌≡◌, [], ◌∷◌, ◌++◌, List, Some, OnOk, IfOk, map};
ghost use Rattle.resolvo_text.specs.Line as spelled;
ghost use Rattle.resolvo_text.specs.View.{spec_of, specs_of};
ghost use Rattle.resolvo_catalogue_core.specs.Listed.{listed};
ghost use Rattle.resolvo_report.specs.Value.{AnyOf, SharedBy, OutsideOf, MatchesOf, BitOf};
ghost use Rattle.resolvo_checker.specs.StepClauses.{literal, each_listed, some_match, spec_fails, case_fails};
ghost use Rattle.resolvo_checker.specs.Built.{literals_in, member_of, positive_at, somes, passes};

use crate::atom::{Atom, Built};
use resolvo_catalogue_core::{Catalogue, Spec, VersionNo};
use std::alloc::{AllocError, Global};
use std::collections::BTreeSet;

/// A clause, by its literals.
pub type Clause = Vec<Built>;

/// Adds the literal of a version.
pub fn push_version(out: &mut Clause, version: VersionNo, positive: bool) -> Result<(), AllocError>
    ensures { OnOk result
        ((vs : List spelled.Version)
        → literals_in vs out.new.items
        ≡ literals_in vs out.old.items ++ member_of vs positive version.0
        ∷ []) }
{
    out.push(Built {
        atom: Atom::Version(version),
        positive,
    })?;
    Ok(())
}

/// Adds the literal that some version of a package is a member.
pub fn push_any(
    alloc: Global,
    out: &mut Clause,
    name: &str,
    positive: bool,
) -> Result<(), AllocError>
    ensures { OnOk result
        ((vs : List spelled.Version)
        → literals_in vs out.new.items
        ≡ literals_in vs out.old.items ++ Some (literal (AnyOf name.now) positive)
        ∷ []) }
{
    let name = String::from_str(alloc, name)?;
    out.push(Built {
        atom: Atom::Any(name),
        positive,
    })?;
    Ok(())
}

/// Adds the literal of a bit of a package's place.
pub fn push_bit(
    alloc: Global,
    out: &mut Clause,
    bit: u32,
    name: &str,
    positive: bool,
) -> Result<(), AllocError>
    ensures { OnOk result
        ((vs : List spelled.Version)
        → literals_in vs out.new.items
        ≡ literals_in vs out.old.items ++ Some (literal (BitOf bit name.now) positive)
        ∷ []) }
{
    let name = String::from_str(alloc, name)?;
    out.push(Built {
        atom: Atom::Bit(bit, name),
        positive,
    })?;
    Ok(())
}

/// Copies of SPECs.
pub fn copies_of(alloc: Global, specs: &[Spec]) -> Result<Vec<Spec>, AllocError>
    ensures { IfOk result (λ v. specs_of v.items ≡ specs_of specs.now) }
{
    let mut copies = Vec::new(alloc);
    for spec in specs {
        copies.push(spec.copy()?)?;
    }
    Ok(copies)
}

/// Adds the literal that some member matches one of these alternatives.
pub fn push_shared(
    alloc: Global,
    out: &mut Clause,
    alternatives: &[Spec],
    positive: bool,
) -> Result<(), AllocError>
    ensures { OnOk result
        ((vs : List spelled.Version)
        → literals_in vs out.new.items
        ≡ literals_in vs out.old.items ++ Some
        (literal (SharedBy (specs_of alternatives.now)) positive)
        ∷ []) }
{
    let alternatives = copies_of(alloc, alternatives)?;
    out.push(Built {
        atom: Atom::Shared(alternatives),
        positive,
    })?;
    Ok(())
}

/// Adds the literal that a member of the package doesn't match the SPEC.
pub fn push_outside(out: &mut Clause, spec: &Spec, positive: bool) -> Result<(), AllocError>
    ensures { OnOk result
        ((vs : List spelled.Version)
        → literals_in vs out.new.items
        ≡ literals_in vs out.old.items ++ Some
        (literal (OutsideOf (spec_of spec.now)) positive)
        ∷ []) }
{
    let spec = spec.copy()?;
    out.push(Built {
        atom: Atom::Outside(spec),
        positive,
    })?;
    Ok(())
}

/// Adds the literal that some member matches the SPEC.
pub fn push_match(out: &mut Clause, spec: &Spec, positive: bool) -> Result<(), AllocError>
    ensures { OnOk result
        ((vs : List spelled.Version)
        → literals_in vs out.new.items
        ≡ literals_in vs out.old.items ++ Some
        (literal (MatchesOf (spec_of spec.now)) positive)
        ∷ []) }
{
    let spec = spec.copy()?;
    out.push(Built {
        atom: Atom::Matches(spec),
        positive,
    })?;
    Ok(())
}

/// Adds the versions of these numbers.
fn push_numbers(out: &mut Clause, numbers: &BTreeSet<u32>) -> Result<(), AllocError>
    ensures { OnOk result
        ((vs : List spelled.Version)
        → literals_in vs out.new.items
        ≡ literals_in vs out.old.items ++ map (positive_at vs) numbers.now.keys) }
{
    for number in numbers {
        push_version(out, VersionNo(*number), true)?;
    }
    Ok(())
}

/// Adds the listed versions of the SPEC's package that don't match, or those that match.
/// It reads no other versions.
fn push_each(
    alloc: Global,
    out: &mut Clause,
    catalogue: &Catalogue,
    spec: &Spec,
    outside: bool,
) -> Result<(), AllocError>
    ensures { OnOk result
        (literals_in (listed catalogue.now) out.new.items
        ≡ literals_in (listed catalogue.now) out.old.items ++ somes
        (each_listed catalogue.now (passes (spec_of spec.now) outside))) }
{
    let numbers = catalogue.picked(alloc, spec, outside)?;
    push_numbers(out, &numbers)?;
    Ok(())
}

/// Adds each listed match of each alternative.
pub fn push_matches(
    alloc: Global,
    out: &mut Clause,
    catalogue: &Catalogue,
    alternatives: &[Spec],
) -> Result<(), AllocError>
    ensures { OnOk result
        (literals_in (listed catalogue.now) out.new.items
        ≡ literals_in (listed catalogue.now) out.old.items ++ somes
        (some_match catalogue.now (specs_of alternatives.now))) }
{
    for spec in alternatives {
        push_each(alloc, out, catalogue, spec, false)?;
    }
    Ok(())
}

/// Adds the literals of which one is true where the SPEC isn't met.
fn push_unmet(
    alloc: Global,
    out: &mut Clause,
    catalogue: &Catalogue,
    spec: &Spec,
) -> Result<(), AllocError>
    ensures { OnOk result
        (literals_in (listed catalogue.now) out.new.items
        ≡ literals_in (listed catalogue.now) out.old.items ++ somes
        (spec_fails catalogue.now (spec_of spec.now))) }
{
    if catalogue.is_many(&spec.name) {
        return push_match(out, spec, false);
    }
    push_any(alloc, out, &spec.name, false)?;
    push_each(alloc, out, catalogue, spec, true)
}

/// Adds the literals of which one is true where the case doesn't hold.
pub fn push_case(
    alloc: Global,
    out: &mut Clause,
    catalogue: &Catalogue,
    specs: &[Spec],
) -> Result<(), AllocError>
    ensures { OnOk result
        (literals_in (listed catalogue.now) out.new.items
        ≡ literals_in (listed catalogue.now) out.old.items ++ somes
        (case_fails catalogue.now (specs_of specs.now))) }
{
    for spec in specs {
        push_unmet(alloc, out, catalogue, spec)?;
    }
    Ok(())
}
