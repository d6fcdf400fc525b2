//! The cases of a text.

use crate::answer::Answer;
use crate::case::section;
use crate::compare::compare_case;
use crate::ids::compare_ids;
use crate::solver_under_test::SolverUnderTest;
use crate::tally::Tally;
use resolvo_pool::R;
use std::alloc::Global;

fn run_case<S: SolverUnderTest>(
    alloc: Global,
    solver: &S,
    case: &str,
    answer: &mut Answer,
    tally: &mut Tally,
) -> R<()> {
    if section(case, "== ids\n").is_some() {
        return compare_ids(alloc, tally);
    }
    compare_case(alloc, solver, case, answer, tally)
}

fn run_each<S: SolverUnderTest>(
    alloc: Global,
    solver: &S,
    text: &str,
    answer: &mut Answer,
    tally: &mut Tally,
) -> R<()> {
    for case in text.split("# ").skip(1) {
        run_case(alloc, solver, case, answer, tally)?;
    }
    Ok(())
}

/// Asks a solver all cases of a text.
pub fn run_cases<S: SolverUnderTest>(
    alloc: Global,
    solver: &S,
    text: &str,
    tally: &mut Tally,
) -> R<()> {
    let mut answer = Answer::new(alloc);
    run_each(alloc, solver, text, &mut answer, tally)
}
