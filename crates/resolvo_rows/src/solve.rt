//! The solver's answers.

use resolvo::{Problem, Solver, UnsolvableOrCancelled};
use resolvo_cases::solver_under_test::Asked;
use resolvo_pool::{ConditionalRequirement, DependencyProvider, VersionSetId};
use std::alloc::Global;

fn solve_with<P: DependencyProvider>(
    alloc: Global,
    solver: &mut Solver<P>,
    requirements: Vec<ConditionalRequirement>,
    constraints: Vec<VersionSetId>,
    wishes: &[P::SolvableId],
) -> Result<Vec<P::SolvableId>, UnsolvableOrCancelled<P::Cancel>> {
    solver.solve(
        Problem::new(alloc)
            .requirements(requirements)
            .constraints(constraints)
            .soft_requirements(wishes.iter().copied()),
    )
}

fn solve_for<P: DependencyProvider>(
    alloc: Global,
    solver: &mut Solver<P>,
    requirements: Vec<ConditionalRequirement>,
    asked: Asked<'_, P::SolvableId>,
) -> Result<Vec<P::SolvableId>, UnsolvableOrCancelled<P::Cancel>> {
    match Vec::from_slice(alloc, asked.limits) {
        Ok(constraints) => solve_with(alloc, solver, requirements, constraints, asked.wishes),
        Err(_) => Err(UnsolvableOrCancelled::Memory),
    }
}

/// The answer of a solver.
pub fn solved<P: DependencyProvider>(
    alloc: Global,
    solver: &mut Solver<P>,
    asked: Asked<'_, P::SolvableId>,
) -> Result<Vec<P::SolvableId>, UnsolvableOrCancelled<P::Cancel>> {
    match Vec::from_slice(alloc, asked.needs) {
        Ok(requirements) => solve_for(alloc, solver, requirements, asked),
        Err(_) => Err(UnsolvableOrCancelled::Memory),
    }
}
