//! How requirements and solvables are written.

use super::provider::{Tens, small_provider};
use resolvo_pool::{R, Requirement, SolvableId, SolvableIdOrRoot, VersionSetId, VersionSetUnionId};
use std::alloc::Global;
use std::fmt;

/// Whether a value is written as the text.
fn is_written<D: fmt::Display>(alloc: Global, shown: D, wanted: &str) -> R<bool>
where
    D: Drop,
{
    let text = format!(in alloc; "{shown}")?;
    Ok(text.as_str() == wanted)
}

fn write_requirements(alloc: Global, provider: &Tens) -> R<bool> {
    let union = Requirement::Union(VersionSetUnionId(0));
    let single = Requirement::Single(VersionSetId(15));
    Ok(
        is_written(alloc, union.display(provider), "2 21 | 0 1")?
            && is_written(alloc, single.display(provider), "1 15")?,
    )
}

fn write_solvables(alloc: Global, provider: &Tens) -> R<bool> {
    let solvable = SolvableIdOrRoot::Solvable(SolvableId::from_raw(12));
    Ok(
        is_written(alloc, SolvableIdOrRoot::Root.display(provider), "root")?
            && is_written(alloc, solvable.display(provider), "12")?,
    )
}

fn write_both(alloc: Global, provider: &Tens) -> R<bool> {
    Ok(write_requirements(alloc, provider)? && write_solvables(alloc, provider)?)
}

fn are_written(alloc: Global) -> R<bool> {
    write_both(alloc, &small_provider(alloc, None, 0)?)
}

#[test]
fn requirements_and_solvables(rt: HostRuntime) {
    assert_eq!(rt; are_written(rt.alloc()), Ok(true));
}
