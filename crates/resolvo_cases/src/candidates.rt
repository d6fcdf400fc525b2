//! The order in which candidates are tried, and those that a limit leaves out.

use crate::texts::Texts;
use resolvo_catalogue::{CatalogueProvider, GivenUp, Hint, RequestIds};
use resolvo_pool::{CacheFault, DependencyProvider, R, SolvableId, SolverCache, Want};
use std::alloc::Global;

/// Writes the numbers of the versions, as the catalogue counts them.
fn write_numbers(text: &mut String, versions: &[SolvableId]) -> R<()> {
    for version in versions {
        let number = version.into_raw();
        writeln!(text, "version {number}")?;
    }
    Ok(())
}

fn write_found<C: Drop>(text: &mut String, found: Result<&[SolvableId], CacheFault<C>>) -> R<()> {
    match found {
        Ok(versions) => write_numbers(text, versions),
        Err(_) => Err(Want::Memory),
    }
}

/// Writes the candidates of the first need, in the order in which they are tried. Then writes those
/// of the first limit's package that it leaves out.
fn write_order<P: DependencyProvider<SolvableId = SolvableId, Cancel = GivenUp>>(
    cache: &mut SolverCache<P>,
    root: &RequestIds,
    tried: &mut String,
    limited: &mut String,
) -> R<()> {
    if let Some(need) = root.requirements.first() {
        write_found(
            tried,
            cache.get_or_cache_sorted_candidates(need.requirement),
        )?;
    }
    if let Some(limit) = root.constraints.first() {
        write_found(limited, cache.get_or_cache_non_matching_candidates(*limit))?;
    }
    Ok(())
}

fn write_cached<P: DependencyProvider<SolvableId = SolvableId, Cancel = GivenUp> + Drop>(
    alloc: Global,
    provider: P,
    root: &RequestIds,
    tried: &mut String,
    limited: &mut String,
) -> R<()> {
    let mut cache = SolverCache::new(alloc, provider);
    write_order(&mut cache, root, tried, limited)
}

/// Writes the order of the candidates of a request's first need, and what its first limit leaves out.
pub fn write_candidates(
    alloc: Global,
    texts: Texts<'_>,
    tried: &mut String,
    limited: &mut String,
) -> R<()> {
    let mut provider = CatalogueProvider::new(alloc, texts.catalogue, Hint::All)?;
    match provider.intern_request(texts.request) {
        Ok(root) => write_cached(alloc, provider, &root, tried, limited),
        Err(want) => Err(want),
    }
}
