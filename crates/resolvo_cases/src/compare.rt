//! The answers of solvers beside those of the cases.

use crate::answer::{Answer, NO_MEMORY};
use crate::candidates::write_candidates;
use crate::case::{section, title};
use crate::solver_under_test::SolverUnderTest;
use crate::tally::Tally;
use crate::texts::{Texts, answer_to, catalogue_in, request_in};
use resolvo_catalogue::{Catalogue, Hint};
use resolvo_pool::{R, Want};
use std::alloc::Global;

/// Reports an answer that differs from the wanted one.
fn compare(case: &str, what: &str, found: &str, wanted: &str, tally: &mut Tally) -> R<()> {
    if found == wanted {
        return Ok(());
    }
    tally.differ();
    let title = title(case);
    Ok(writeln!(
        tally.text,
        "{title}: {what} is answered otherwise:\n{found}"
    )?)
}

/// Compares a part of an answer, where the case has it.
fn compare_part(case: &str, heading: &str, found: &str, tally: &mut Tally) -> R<()> {
    match section(case, heading) {
        Some(wanted) => compare(case, heading.trim_end(), found, wanted, tally),
        None => Ok(()),
    }
}

/// Compares a solver's answer. One that lacked memory was asked again.
fn compare_answer(case: &str, answer: &Answer, tally: &mut Tally) -> R<()> {
    if answer.first.as_str() == NO_MEMORY {
        compare_part(case, "== answer\n", answer.again.as_str(), tally)?;
        tally
            .text
            .push_str("it lacked memory, and then answered\n")?;
        return Err(Want::Memory);
    }
    compare_part(case, "== answer\n", answer.first.as_str(), tally)?;
    compare_part(case, "== message\n", answer.why.as_str(), tally)?;
    compare_part(case, "== asked\n", answer.asked.as_str(), tally)
}

/// Compares the answers of a search that was cancelled, and of the one after it.
fn compare_again(
    case: &str,
    wanted: &str,
    stopped: &str,
    answer: &Answer,
    tally: &mut Tally,
) -> R<bool> {
    let first = answer.first.as_str();
    compare(case, "a cancelled search", first, stopped, tally)?;
    let again = answer.again.as_str();
    compare(case, "the search after it", again, wanted, tally)?;
    Ok(true)
}

/// Whether the answer is that of a provider which was cancelled after so many tests. Its solver then answers.
fn compare_stopped(
    alloc: Global,
    case: &str,
    wanted: &str,
    passed: u32,
    answer: &Answer,
    tally: &mut Tally,
) -> R<bool> {
    if answer.first.as_str() == wanted {
        return Ok(false);
    }
    if answer.lacks_memory() {
        return Err(Want::Memory);
    }
    let stopped = format!(in alloc; "cancelled with {passed}\n")?;
    compare_again(case, wanted, stopped.as_str(), answer, tally)
}

/// Cancels at each test of the provider in turn.
fn cancel_each<S: SolverUnderTest>(
    alloc: Global,
    solver: &S,
    case: &str,
    texts: Texts<'_>,
    wanted: &str,
    answer: &mut Answer,
    tally: &mut Tally,
) -> R<()> {
    let mut tests = 0;
    for passed in 0..1000u32 {
        answer_to(alloc, solver, texts, Hint::All, passed, answer)?;
        if !compare_stopped(alloc, case, wanted, passed, answer, tally)? {
            break;
        }
        tests = passed + 1;
    }
    if tests == 0 || tests == 1000 {
        compare(case, "each cancelled search", "", wanted, tally)?;
    }
    Ok(())
}

/// Compares the answer with dependencies at hand, at first, and after each cancelled search.
fn compare_searches<S: SolverUnderTest>(
    alloc: Global,
    solver: &S,
    case: &str,
    texts: Texts<'_>,
    answer: &mut Answer,
    tally: &mut Tally,
) -> R<()> {
    match section(case, "== answer\n") {
        Some(wanted) => {
            answer_to(alloc, solver, texts, Hint::All, u32::MAX, answer)?;
            compare_answer(case, answer, tally)?;
            cancel_each(alloc, solver, case, texts, wanted, answer, tally)
        }
        None => Ok(()),
    }
}

/// Compares the answer by a provider by which no dependencies are at hand, and its questions.
fn compare_unhinted<S: SolverUnderTest>(
    alloc: Global,
    solver: &S,
    case: &str,
    texts: Texts<'_>,
    answer: &mut Answer,
    tally: &mut Tally,
) -> R<()> {
    answer_to(alloc, solver, texts, Hint::None, u32::MAX, answer)?;
    if answer.lacks_memory() {
        return Err(Want::Memory);
    }
    compare_part(
        case,
        "== answer without hint\n",
        answer.first.as_str(),
        tally,
    )?;
    compare_part(
        case,
        "== asked without hint\n",
        answer.asked.as_str(),
        tally,
    )
}

/// Compares the candidates of the request's first need, in their order, and those that its first limit leaves out.
fn compare_candidates(
    alloc: Global,
    case: &str,
    texts: Texts<'_>,
    answer: &mut Answer,
    tally: &mut Tally,
) -> R<()> {
    if section(case, "== tried\n").is_some() {
        answer.clear();
        write_candidates(alloc, texts, &mut answer.first, &mut answer.again)?;
        compare_part(case, "== tried\n", answer.first.as_str(), tally)?;
        compare_part(case, "== limited\n", answer.again.as_str(), tally)?;
    }
    Ok(())
}

fn compare_texts<S: SolverUnderTest>(
    alloc: Global,
    solver: &S,
    case: &str,
    texts: Texts<'_>,
    answer: &mut Answer,
    tally: &mut Tally,
) -> R<()> {
    compare_searches(alloc, solver, case, texts, answer, tally)?;
    compare_unhinted(alloc, solver, case, texts, answer, tally)?;
    compare_candidates(alloc, case, texts, answer, tally)
}

fn compare_request<S: SolverUnderTest>(
    alloc: Global,
    solver: &S,
    case: &str,
    catalogue: &Catalogue,
    answer: &mut Answer,
    tally: &mut Tally,
) -> R<()> {
    let lines = section(case, "== request\n").unwrap_or("");
    let request = request_in(alloc, lines, catalogue)?;
    let texts = Texts {
        catalogue,
        request: &request,
    };
    compare_texts(alloc, solver, case, texts, answer, tally)
}

/// Compares the solver's answers with those of a case.
pub fn compare_case<S: SolverUnderTest>(
    alloc: Global,
    solver: &S,
    case: &str,
    answer: &mut Answer,
    tally: &mut Tally,
) -> R<()> {
    tally.cases = tally.cases.saturating_add(1);
    let lines = section(case, "== catalogue\n").unwrap_or("");
    let catalogue = catalogue_in(alloc, lines)?;
    compare_request(alloc, solver, case, &catalogue, answer, tally)
}
