//! A request over a small catalogue: which SPECs have one id, and how requirements are written.

use crate::tally::Tally;
use crate::texts::{catalogue_in, request_in};
use resolvo_catalogue::{Catalogue, CatalogueProvider, Hint, Request, RequestIds, Span, Spec};
use resolvo_pool::{Interner, R, Requirement};
use std::alloc::Global;

const LISTED: &str =
    "version a 1\nneeds c 1\nversion a 2\nversion b 1\nneeds c 1\nversion b 2\nneeds c 2\nversion c 1\nversion c 2\n";

const ASKED: &str = "needs a 1\nneeds b 1\nlimits a 1\nneeds a 1 | b 2..4 | c\n";

/// Whether the first two needs have different ids, and the limit that of the first.
fn has_one_id_each(asked: &RequestIds) -> bool {
    match (asked.requirements.as_slice(), asked.constraints.as_slice()) {
        ([first, second, _], [limit]) => {
            first.requirement != second.requirement
                && first.requirement == Requirement::Single(*limit)
        }
        _ => false,
    }
}

/// Whether these are `a 1`, `b 2..4` and any `c`.
fn are_three(specs: &[Spec]) -> bool {
    match specs {
        [first, second, third] => {
            first.name.as_str() == "a"
                && first.span == Span::One(1)
                && second.name.as_str() == "b"
                && second.span == Span::Range(2, 4)
                && third.name.as_str() == "c"
                && third.span == Span::Any
        }
        _ => false,
    }
}

/// Whether a need with alternatives is written by them.
fn is_written<I: Interner>(alloc: Global, interner: &I, requirement: Requirement) -> R<bool> {
    let shown = requirement.display(interner);
    let text = format!(in alloc; "{shown}")?;
    Ok(text.as_str() == "a 1 | b 2..4 | c *")
}

/// Whether a need with alternatives is written by them, and is these.
fn are_alternatives(
    alloc: Global,
    provider: &CatalogueProvider<'_>,
    requirement: Requirement,
) -> R<bool> {
    if !is_written(alloc, provider, requirement)? {
        return Ok(false);
    }
    Ok(are_three(provider.alternatives_of(requirement)?.as_slice()))
}

fn have_one_id(alloc: Global, provider: &CatalogueProvider<'_>, asked: &RequestIds) -> R<bool> {
    match asked.requirements.last() {
        Some(need) if has_one_id_each(asked) => {
            are_alternatives(alloc, provider, need.requirement)
        }
        _ => Ok(false),
    }
}

fn requests_have_one_id(alloc: Global, catalogue: &Catalogue, request: &Request) -> R<bool> {
    let mut provider = CatalogueProvider::new(alloc, catalogue, Hint::All)?;
    match provider.intern_request(request) {
        Ok(asked) => have_one_id(alloc, &provider, &asked),
        Err(want) => Err(want),
    }
}

fn listed_have_one_id(alloc: Global, catalogue: &Catalogue) -> R<bool> {
    let request = request_in(alloc, ASKED, catalogue)?;
    requests_have_one_id(alloc, catalogue, &request)
}

/// Whether needs and limits with one SPEC have one id, and others another one.
fn specs_have_one_id(alloc: Global) -> R<bool> {
    let catalogue = catalogue_in(alloc, LISTED)?;
    listed_have_one_id(alloc, &catalogue)
}

/// Reports where SPECs have other ids.
pub fn compare_ids(alloc: Global, tally: &mut Tally) -> R<()> {
    if !specs_have_one_id(alloc)? {
        tally.differ();
        tally
            .text
            .push_str("the ids of SPECs are answered otherwise\n")?;
    }
    Ok(())
}
