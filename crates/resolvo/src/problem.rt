//! A problem for the solver.
ghost use Rattle.std.specs.Prelude.{◌≡◌, [], None};
ghost use Rattle.std.specs.Iterator.{at_most};

use resolvo_pool_core::id::{SolvableId, VersionSetId};
use resolvo_pool_core::requirement::ConditionalRequirement;
use std::alloc::Global;
use std::marker::PhantomData;

/// No solvable.
#[derive(Drop)]
pub struct EmptySolvables<Id>(pub PhantomData<Id>);

impl<Id> Default for EmptySolvables<Id> {
    fn default() -> EmptySolvables<Id> {
        EmptySolvables(PhantomData)
    }
}

impl<Id> Iterator for EmptySolvables<Id> {
    type Item = Id;

    ghost next_gives = { λ s r t. r ≡ None };

    ghost remaining = { λ s. at_most 0 };

    fn next(&mut self) -> Option<Id> {
        None
    }
}

/// A problem: the requirements and constraints of the root, and the soft requirements, which are
/// met in order where possible.
#[derive(Drop)]
pub struct Problem<Id = SolvableId, S = EmptySolvables<Id>> {
    pub requirements: Vec<ConditionalRequirement>,
    pub constraints: Vec<VersionSetId>,
    pub soft_requirements: S,
    pub of: PhantomData<Id>,
}

impl<Id> Problem<Id, EmptySolvables<Id>> {
    /// A problem without requirements.
    pub fn new(alloc: Global) -> Problem<Id, EmptySolvables<Id>>
        ensures requirements { result.requirements.items ≡ [] }
        ensures constraints { result.constraints.items ≡ [] }
    {
        Problem {
            requirements: Vec::new(alloc),
            constraints: Vec::new(alloc),
            soft_requirements: EmptySolvables::default(),
            of: PhantomData,
        }
    }
}

impl<Id, S> Problem<Id, S> {
    /// The problem with these requirements.
    pub fn requirements(self, requirements: Vec<ConditionalRequirement>) -> Problem<Id, S>
        ensures { result ≡ record self { requirements = requirements } }
    {
        let Problem {
            requirements: _,
            constraints,
            soft_requirements,
            of,
        } = self;
        Problem {
            requirements,
            constraints,
            soft_requirements,
            of,
        }
    }

    /// The problem with these constraints.
    pub fn constraints(self, constraints: Vec<VersionSetId>) -> Problem<Id, S>
        ensures { result ≡ record self { constraints = constraints } }
    {
        let Problem {
            requirements,
            constraints: _,
            soft_requirements,
            of,
        } = self;
        Problem {
            requirements,
            constraints,
            soft_requirements,
            of,
        }
    }

    /// The problem with these soft requirements.
    pub fn soft_requirements<I: Iterator<Item = Id>>(self, soft_requirements: I) -> Problem<Id, I>
    where
        S: Drop,
        ensures requirements { result.requirements ≡ self.requirements }
        ensures constraints { result.constraints ≡ self.constraints }
        ensures soft { result.soft_requirements ≡ soft_requirements }
    {
        let Problem {
            requirements,
            constraints,
            soft_requirements: _,
            of,
        } = self;
        Problem {
            requirements,
            constraints,
            soft_requirements,
            of,
        }
    }
}
