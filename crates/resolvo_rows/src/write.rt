//! A solver's answer as lines.

use crate::solve::solved;
use resolvo::{Conflict, Solver, Turn, UnsolvableOrCancelled};
use resolvo_cases::answer::{
    Answer, NO_MEMORY, Recorder, write_shown, write_version, write_versions, write_waiting,
};
use resolvo_cases::solver_under_test::Asked;
use resolvo_pool::{DependencyProvider, Interner, R};
use std::alloc::Global;

/// The wishes that the last search left out.
fn write_left_out<I: Interner>(
    text: &mut String,
    interner: &I,
    turns: &[Turn<I::SolvableId>],
) -> R<()> {
    for turn in turns {
        if !turn.accepted {
            write_version(text, interner, "left out ", turn.solvable)?;
        }
    }
    Ok(())
}

/// The message of a conflict, which the solver must hold.
fn write_why<P: DependencyProvider>(
    alloc: Global,
    why: &mut String,
    solver: &Solver<P>,
    conflict: &Conflict,
) -> R<()> {
    if !solver.holds(conflict) {
        return Ok(why.push_str("of another search\n")?);
    }
    match conflict.display_user_friendly(alloc, solver) {
        Ok(message) => write_shown(why, &message),
        Err(want) => Err(want),
    }
}

/// Writes why a solver chose nothing. Whether it was stopped.
fn write_stop(text: &mut String, stop: &UnsolvableOrCancelled<u32>) -> R<bool> {
    match stop {
        UnsolvableOrCancelled::Unsolvable(_) => {
            text.push_str("refused\n")?;
            Ok(false)
        }
        UnsolvableOrCancelled::Cancelled(value) => {
            writeln!(text, "cancelled with {value}")?;
            Ok(true)
        }
        UnsolvableOrCancelled::Memory => {
            text.push_str(NO_MEMORY)?;
            Ok(true)
        }
        UnsolvableOrCancelled::Ids => {
            text.push_str("no ids\n")?;
            Ok(false)
        }
    }
}

/// Writes what a solver found: the chosen versions, the wishes left out, and how many cases of
/// conditions wait; or why it refuses. Whether it was stopped.
fn write_found<P: DependencyProvider<Cancel = u32>>(
    alloc: Global,
    solver: &Solver<P>,
    found: &Result<Vec<P::SolvableId>, UnsolvableOrCancelled<u32>>,
    text: &mut String,
    why: &mut String,
) -> R<bool> {
    match found {
        Ok(chosen) => {
            write_versions(text, solver.provider(), chosen.as_slice())?;
            write_left_out(text, solver.provider(), solver.turns())?;
            write_waiting(text, solver.deferred_requirements_count())?;
            Ok(false)
        }
        Err(stop) => {
            if let UnsolvableOrCancelled::Unsolvable(conflict) = stop {
                write_why(alloc, why, solver, conflict)?;
            }
            write_stop(text, stop)
        }
    }
}

/// Writes a solver's answer, and why it refuses. Whether it was stopped.
fn write_answer<P: DependencyProvider<Cancel = u32>>(
    alloc: Global,
    solver: &mut Solver<P>,
    asked: Asked<'_, P::SolvableId>,
    text: &mut String,
    why: &mut String,
) -> R<bool> {
    let found = solved(alloc, solver, asked);
    write_found(alloc, solver, &found, text, why)
}

/// Writes a line where a solver has clauses, deferred cases, turns or a proof before a search, or
/// after one that was stopped.
fn write_rest<P: DependencyProvider>(text: &mut String, solver: &Solver<P>) -> R<()> {
    let counts = (solver.clause_count(), solver.deferred_requirements_count());
    if counts != (0, 0) || !solver.turns().is_empty() || !solver.proof().is_empty() {
        text.push_str("something is left of a search\n")?;
    }
    Ok(())
}

/// Writes a line where a problem without requirements, constraints and wishes has other clauses than the root's.
fn write_count<P: DependencyProvider>(
    text: &mut String,
    solver: &Solver<P>,
    asked: Asked<'_, P::SolvableId>,
) -> R<()> {
    if asked.is_empty() && solver.clause_count() != 1 {
        text.push_str("an empty problem has other clauses\n")?;
    }
    Ok(())
}

/// Writes a solver's answer. Where it is stopped nothing is left, and it is asked again.
fn write_twice<P: DependencyProvider<Cancel = u32>>(
    alloc: Global,
    solver: &mut Solver<P>,
    asked: Asked<'_, P::SolvableId>,
    answer: &mut Answer,
) -> R<()> {
    write_rest(&mut answer.first, solver)?;
    if write_answer(alloc, solver, asked, &mut answer.first, &mut answer.why)? {
        write_rest(&mut answer.again, solver)?;
        write_answer(alloc, solver, asked, &mut answer.again, &mut answer.why)?;
    }
    write_count(&mut answer.first, solver, asked)
}

/// Fills in a solver's answer, with the questions of its provider.
pub fn fill_answer_by<P: DependencyProvider<Cancel = u32> + Recorder>(
    alloc: Global,
    solver: &mut Solver<P>,
    asked: Asked<'_, P::SolvableId>,
    answer: &mut Answer,
) -> R<()> {
    write_twice(alloc, solver, asked, answer)?;
    solver.provider().write_asked(&mut answer.asked)
}
