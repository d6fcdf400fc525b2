//! The texts of a case, and a solver's answer to them by a provider with sparse ids, which records
//! its questions and cancels once.

use crate::answer::Answer;
use crate::solver_under_test::{Asked, SolverUnderTest};
use resolvo_catalogue::{
    Catalogue, CatalogueProvider, Hint, MemorySource, ReadFault, Request, RequestIds,
};
use resolvo_pool::{R, Want};
use resolvo_test_providers::test_provider::{TestProvider, sparse_ids};
use std::alloc::Global;

/// The texts of a case.
#[derive(Clone, Copy)]
pub struct Texts<'a> {
    pub catalogue: &'a Catalogue,
    pub request: &'a Request,
}

/// Memory, or else a faulty line.
fn want_of(fault: ReadFault) -> Want {
    match fault {
        ReadFault::Memory => Want::Memory,
        _ => Want::Ids,
    }
}

/// The catalogue that the lines are.
pub fn catalogue_in(alloc: Global, lines: &str) -> R<Catalogue> {
    match Catalogue::read(alloc, &mut MemorySource::new(lines.as_bytes(), 4096)) {
        Ok(catalogue) => Ok(catalogue),
        Err(fault) => Err(want_of(fault)),
    }
}

/// The request that the lines are.
pub fn request_in(alloc: Global, lines: &str, catalogue: &Catalogue) -> R<Request> {
    match Request::read(
        alloc,
        &mut MemorySource::new(lines.as_bytes(), 4096),
        catalogue,
    ) {
        Ok(request) => Ok(request),
        Err(fault) => Err(want_of(fault)),
    }
}

/// Fills in the answer of a solver over a provider that cancels, after so many others, at its next test.
fn answer_root<S: SolverUnderTest>(
    alloc: Global,
    solver: &S,
    provider: CatalogueProvider<'_>,
    passed: u32,
    root: &RequestIds,
    answer: &mut Answer,
) -> R<()> {
    match sparse_ids(alloc, root.wishes.as_slice()) {
        Ok(wishes) => {
            let asked = Asked {
                needs: root.requirements.as_slice(),
                limits: root.constraints.as_slice(),
                wishes: wishes.as_slice(),
            };
            let source = TestProvider::new(alloc, provider, passed, passed);
            solver.fill_answer(alloc, source, asked, answer)
        }
        Err(want) => Err(want),
    }
}

/// Fills in a solver's answer, if its provider lets so many tests pass.
pub fn answer_to<S: SolverUnderTest>(
    alloc: Global,
    solver: &S,
    texts: Texts<'_>,
    hint: Hint,
    passed: u32,
    answer: &mut Answer,
) -> R<()> {
    answer.clear();
    let mut provider = CatalogueProvider::new(alloc, texts.catalogue, hint)?;
    match provider.intern_request(texts.request) {
        Ok(root) => answer_root(alloc, solver, provider, passed, &root, answer),
        Err(want) => Err(want),
    }
}
