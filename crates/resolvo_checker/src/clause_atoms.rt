//! Numbers for the atoms of a clause.

ghost use Rattle.std.specs.Prelude.{◌≡◌, [], ◌∷◌, ◌++◌, List, OnOk, IfOk, Some};
ghost use Rattle.std.specs.List.{flat_map};
ghost use Rattle.resolvo_text.specs.Line as spelled;
ghost use Rattle.resolvo_text.specs.View.{spec_of, specs_of};
ghost use Rattle.resolvo_catalogue_core.specs.Listed.{listed};
ghost use Rattle.resolvo_report.specs.Value.{Atom as AtomValue, AnyOf, SharedBy, OutsideOf, MatchesOf, BitOf};
ghost use Rattle.resolvo_report.specs.View.{atom_of};
ghost use Rattle.resolvo_checker.specs.StepClauses.{Clause as ClauseValue, literal, is_atom};
ghost use Rattle.resolvo_checker.specs.Built.{literals_in, member_of, somes, literal_of};
ghost use Rattle.resolvo_checker.specs.Keys.{IsKey, Extends, spec_key};

use crate::atom::{Atom, Built};
use crate::atom_ids::AtomIds;
use crate::literal::Literal;
use resolvo_catalogue_core::{Span, Spec, VersionNo};
use std::alloc::{AllocError, Global};

/// Adds a literal whose atom has this key.
fn push_key(
    alloc: Global,
    numbers: &mut AtomIds,
    out: &mut Vec<Literal>,
    key: &[usize],
    positive: bool,
) -> Result<(), AllocError>
    ensures { OnOk result
        ((vs : List spelled.Version) (a : AtomValue)
        → IsKey vs a key.now
        → Extends vs numbers.old out.old.items numbers.new out.new.items
        (literal a positive ∷ [])) }
{
    let atom = numbers.number(alloc, key)?;
    out.push(Literal { atom, positive })?;
    Ok(())
}

/// Adds a literal of the version of this number.
pub fn push_version(
    alloc: Global,
    numbers: &mut AtomIds,
    out: &mut Vec<Literal>,
    version: VersionNo,
    positive: bool,
) -> Result<(), AllocError>
    ensures { OnOk result
        ((vs : List spelled.Version) (clause : ClauseValue)
        → somes clause ≡ member_of vs positive version.0 ∷ []
        → Extends vs numbers.old out.old.items numbers.new out.new.items clause) }
{
    let atom = numbers.number_of_version(alloc, version.0 as usize)?;
    out.push(Literal { atom, positive })?;
    Ok(())
}

/// Adds the bytes of a name to a key.
pub fn push_name(key: &mut Vec<usize>, name: &str) -> Result<(), AllocError>
    ensures { OnOk result (key.new.items ≡ key.old.items ++ name.now) }
{
    for byte in name.as_bytes() {
        key.push(*byte as usize)?;
    }
    Ok(())
}

/// Adds the literal that some version of a package is a member.
pub fn push_any(
    alloc: Global,
    numbers: &mut AtomIds,
    out: &mut Vec<Literal>,
    name: &str,
    positive: bool,
) -> Result<(), AllocError>
    ensures { OnOk result
        ((vs : List spelled.Version)
        → Extends vs numbers.old out.old.items numbers.new out.new.items
        (literal (AnyOf name.now) positive ∷ [])) }
{
    let mut key = vec![in alloc; 1]?;
    push_name(&mut key, name)?;
    push_key(alloc, numbers, out, &key, positive)?;
    Ok(())
}

/// Adds the literal of a bit of a package's place.
pub fn push_bit(
    alloc: Global,
    numbers: &mut AtomIds,
    out: &mut Vec<Literal>,
    bit: u32,
    name: &str,
    positive: bool,
) -> Result<(), AllocError>
    ensures { OnOk result
        ((vs : List spelled.Version)
        → Extends vs numbers.old out.old.items numbers.new out.new.items
        (literal (BitOf bit name.now) positive ∷ [])) }
{
    let mut key = vec![in alloc; 4, bit as usize]?;
    push_name(&mut key, name)?;
    push_key(alloc, numbers, out, &key, positive)?;
    Ok(())
}

/// Adds a SPEC's part of a key. The length of the name precedes the name.
fn push_spec(key: &mut Vec<usize>, spec: &Spec) -> Result<(), AllocError>
    ensures { OnOk result (key.new.items ≡ key.old.items ++ spec_key (spec_of spec.now)) }
{
    key.push(spec.name.len())?;
    push_name(key, &spec.name)?;
    match spec.span {
        Span::Any => key.push(0)?,
        Span::One(number) => {
            key.push(1)?;
            key.push(number as usize)?;
        }
        Span::Range(low, high) => {
            key.push(2)?;
            key.push(low as usize)?;
            key.push(high as usize)?;
        }
    }
    Ok(())
}

/// Adds the literal that a member of the package doesn't match the SPEC.
pub fn push_outside(
    alloc: Global,
    numbers: &mut AtomIds,
    out: &mut Vec<Literal>,
    spec: &Spec,
    positive: bool,
) -> Result<(), AllocError>
    ensures { OnOk result
        ((vs : List spelled.Version)
        → Extends vs numbers.old out.old.items numbers.new out.new.items
        (literal (OutsideOf (spec_of spec.now)) positive ∷ [])) }
{
    let mut key = vec![in alloc; 3]?;
    push_spec(&mut key, spec)?;
    push_key(alloc, numbers, out, &key, positive)?;
    Ok(())
}

/// Adds the literal that some member matches the SPEC.
pub fn push_match(
    alloc: Global,
    numbers: &mut AtomIds,
    out: &mut Vec<Literal>,
    spec: &Spec,
    positive: bool,
) -> Result<(), AllocError>
    ensures { OnOk result
        ((vs : List spelled.Version)
        → Extends vs numbers.old out.old.items numbers.new out.new.items
        (literal (MatchesOf (spec_of spec.now)) positive ∷ [])) }
{
    let mut key = vec![in alloc; 5]?;
    push_spec(&mut key, spec)?;
    push_key(alloc, numbers, out, &key, positive)?;
    Ok(())
}

/// The key of a helper of these alternatives.
pub fn shared_key(alloc: Global, alternatives: &[Spec]) -> Result<Vec<usize>, AllocError>
    ensures { IfOk result (λ key. key.items ≡ 2 ∷ flat_map spec_key (specs_of alternatives.now)) }
{
    let mut key = vec![in alloc; 2]?;
    for spec in alternatives {
        push_spec(&mut key, spec)?;
    }
    Ok(key)
}

/// Adds the literal that some member matches one of these alternatives.
pub fn push_shared(
    alloc: Global,
    numbers: &mut AtomIds,
    out: &mut Vec<Literal>,
    alternatives: &[Spec],
    positive: bool,
) -> Result<(), AllocError>
    ensures { OnOk result
        ((vs : List spelled.Version)
        → Extends vs numbers.old out.old.items numbers.new out.new.items
        (literal (SharedBy (specs_of alternatives.now)) positive ∷ [])) }
{
    let key = shared_key(alloc, alternatives)?;
    push_key(alloc, numbers, out, &key, positive)?;
    Ok(())
}

fn push_literal(
    alloc: Global,
    numbers: &mut AtomIds,
    out: &mut Vec<Literal>,
    built: &Built,
) -> Result<(), AllocError>
    ensures { OnOk result
        ((vs : List spelled.Version) (clause : ClauseValue)
        → somes clause ≡ literal_of vs built.now.atom built.now.positive ∷ []
        → Extends vs numbers.old out.old.items numbers.new out.new.items clause) }
{
    match &built.atom {
        Atom::Version(version) => push_version(alloc, numbers, out, *version, built.positive)?,
        Atom::Any(name) => push_any(alloc, numbers, out, name, built.positive)?,
        Atom::Shared(alternatives) => {
            push_shared(alloc, numbers, out, alternatives, built.positive)?
        }
        Atom::Outside(spec) => push_outside(alloc, numbers, out, spec, built.positive)?,
        Atom::Matches(spec) => push_match(alloc, numbers, out, spec, built.positive)?,
        Atom::Bit(bit, name) => push_bit(alloc, numbers, out, *bit, name, built.positive)?,
    }
    Ok(())
}

/// Numbers the atoms of a built clause.
pub fn number_all(
    alloc: Global,
    numbers: &mut AtomIds,
    out: &mut Vec<Literal>,
    built: &[Built],
) -> Result<(), AllocError>
    ensures { OnOk result
        ((vs : List spelled.Version) (clause : ClauseValue)
        → somes clause ≡ literals_in vs built.now
        → Extends vs numbers.old [] numbers.new out.new.items clause) }
{
    out.clear();
    for literal in built {
        push_literal(alloc, numbers, out, literal)?;
    }
    Ok(())
}
