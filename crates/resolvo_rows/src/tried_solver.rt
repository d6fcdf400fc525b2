//! The solver that the cases ask.

use crate::write::fill_answer_by;
use resolvo::Solver;
use resolvo_cases::answer::{Answer, Recorder};
use resolvo_cases::solver_under_test::{Asked, SolverUnderTest};
use resolvo_pool::{DependencyProvider, R};
use std::alloc::Global;

/// `resolvo`'s solver.
pub struct TriedSolver;

impl SolverUnderTest for TriedSolver {
    fn fill_answer<P: DependencyProvider<Cancel = u32> + Recorder + Drop>(
        &self,
        alloc: Global,
        provider: P,
        asked: Asked<'_, P::SolvableId>,
        answer: &mut Answer,
    ) -> R<()> {
        let mut solver = Solver::new(alloc, provider).with_activity_params(1_000_000, 950_000);
        fill_answer_by(alloc, &mut solver, asked, answer)
    }
}
