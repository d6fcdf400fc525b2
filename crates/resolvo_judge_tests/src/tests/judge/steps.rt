//! Steps that are checked by themselves.

use super::{catalogue_of, request_of};
use resolvo_catalogue::{Catalogue, Request, Version};
use resolvo_judge::{
    Atom, Literal, Premises, Step, accepted_install_is_true, accepted_refusal_is_true, check_steps,
    count_causes, places_are_one, proof_forbids, proof_refutes, steps_are_true,
    upheld_texts_are_refused_nowhere,
};
use std::alloc::{AllocError, Global};
use std::test::Fail;

/// The check of steps: the place of the first wrong one, and how many clauses were named and read.
type Found = (Option<usize>, u64, u64);

/// Checks the steps; none where they are too many.
fn found_of(
    alloc: Global,
    (catalogue, request): &(Catalogue, Request),
    scope: &Premises,
    steps: &[Step],
) -> Result<Option<Found>, AllocError> {
    if steps.len() > 1000 || count_causes(steps).is_none() {
        return Ok(None);
    }
    let checked = check_steps(alloc, catalogue, request, scope, steps)?;
    let (named, read) = (checked.readings.named(), checked.readings.read());
    Ok(Some((checked.wrong, named, read)))
}

fn texts(alloc: Global, catalogue: &str, request: &str) -> Result<(Catalogue, Request), Fail> {
    let catalogue = catalogue_of(alloc, catalogue)?;
    let request = request_of(alloc, request, &catalogue)?;
    Ok((catalogue, request))
}

/// A literal of the version 1 of `b`.
fn literal(alloc: Global, positive: bool) -> Result<Literal, AllocError> {
    let atom = Atom::Version(Version {
        name: String::from_str(alloc, "b")?,
        number: 1,
    });
    Ok(Literal { atom, positive })
}

/// An excluded version's clause, and a clause that names the version twice, which no report can.
fn steps_with_both(alloc: Global) -> Result<Vec<Step>, AllocError> {
    let literals = vec![in alloc; literal(alloc, true)?, literal(alloc, false)?]?;
    let causes = Vec::from_slice(alloc, &[1u32])?;
    let derive = Step::Derive { literals, causes };
    Ok(vec![in alloc; Step::Exclude { line: 2 }, derive]?)
}

/// One pass reads a clause that is named, though the derived one holds by itself.
#[test]
fn a_clause_with_both_literals(rt: HostRuntime) -> Result<(), Fail> {
    let texts = texts(rt.alloc(), "version b 1\nexclude b 1 broken\n", "")?;
    let steps = steps_with_both(rt.alloc())?;
    let found = found_of(rt.alloc(), &texts, &Premises::All, &steps)?;
    assert_eq!(rt; found, Some((None, 1, 1)));
    Ok(())
}

#[test]
fn laws() {
    steps_are_true();
    proof_refutes();
    proof_forbids();
    accepted_refusal_is_true();
    accepted_install_is_true();
    places_are_one();
    upheld_texts_are_refused_nowhere();
}
