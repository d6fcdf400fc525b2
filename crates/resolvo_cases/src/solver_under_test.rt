//! What the cases ask of a solver, which is any that serves every provider.

use crate::answer::{Answer, Recorder};
use resolvo_pool::{ConditionalRequirement, DependencyProvider, R, VersionSetId};
use std::alloc::Global;

/// What a solver is asked for: needs, limits and wishes.
#[derive(Clone, Copy)]
pub struct Asked<'a, S> {
    pub needs: &'a [ConditionalRequirement],
    pub limits: &'a [VersionSetId],
    pub wishes: &'a [S],
}

impl<S> Asked<'_, S> {
    pub fn is_empty(&self) -> bool {
        self.needs.is_empty() && self.limits.is_empty() && self.wishes.is_empty()
    }
}

/// A solver over any provider.
pub trait SolverUnderTest {
    /// Fills in its answer, and where it was stopped the one after that, with the questions of the
    /// provider.
    fn fill_answer<P: DependencyProvider<Cancel = u32> + Recorder + Drop>(
        &self,
        alloc: Global,
        provider: P,
        asked: Asked<'_, P::SolvableId>,
        answer: &mut Answer,
    ) -> R<()>;
}
