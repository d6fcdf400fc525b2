//! The tasks of an encoding are taken first in, first out, over all parents that wait. A parent's
//! dependencies are asked for in one task. Its rules are encoded in a later one, and each case that
//! holds in one of its own.
ghost use Rattle.std.specs.Prelude.{◌≡◌, ◌≤◌, ◌+◌, OnOk, IfSome, IsOkUnless};
ghost use Rattle.resolvo_pool_core.specs.declared.want.Want.TheVariants.{Memory};
ghost use Rattle.resolvo_encoder.specs.Steps.{IsBuilt};
ghost use Rattle.resolvo_turn.specs.Tasks.{bound, cost, work_left};

use resolvo_encoder::encoder::Encoder;
use resolvo_pool_core::id::Exact;
use resolvo_pool_core::solver_id::SolvableIdOrRoot;
use resolvo_pool_core::want::R;
use std::alloc::Global;
use std::collections::VecDeque;
use std::fmt::Debug;
use std::hash::Hash;

/// A task of an encoding.
#[derive(Clone, Copy)]
pub enum Task<S> {
    /// The dependencies of this parent are asked for.
    Dependencies(SolvableIdOrRoot<S>),
    /// The rules of the next parent are encoded, in the order of the tasks for dependencies.
    Rules,
    /// The matches of the deferred case at this place are encoded, before the clauses of several
    /// cases of one need.
    Matches(usize),
    /// The deferred case at this place is encoded.
    Case(usize),
}

/// The tasks of an encoding.
#[derive(Drop)]
pub struct Tasks<S> {
    queue: VecDeque<Task<S>>,
    /// The number of parents with a task that asks for their dependencies.
    queued: usize,
}

impl<S: Copy + Exact + Hash + Debug> Tasks<S> {
    /// No task.
    pub(crate) fn new(alloc: Global) -> Tasks<S> {
        Tasks {
            queue: VecDeque::new(alloc),
            queued: 0,
        }
    }

    /// An encoding begins, where so many parents are encoded: there is no task yet.
    pub(crate) fn begin(&mut self, encoded: usize) {
        self.queue.clear();
        self.queued = encoded;
    }

    /// Puts a task behind the others.
    pub(crate) fn push(&mut self, task: Task<S>) -> R<()>
        ensures work { OnOk result (work_left self.new ≤ work_left self.old + cost task) }
        ensures queued { OnOk result (self.new.queued ≡ self.old.queued) }
        ensures refusal { IsOkUnless result Memory }
    {
        self.queue.push_back(task)?;
        Ok(())
    }

    /// Takes the first task.
    pub(crate) fn take(&mut self) -> Option<Task<S>>
        ensures work { IfSome result (λ task. work_left self.new + cost task ≤ work_left self.old) }
        ensures queued { self.new.queued ≡ self.old.queued }
    {
        self.queue.pop_front()
    }

    /// Puts a task for each parent that was added since the last call behind the others: it asks
    /// for the parent's dependencies.
    pub(crate) fn push_parents(&mut self, parents: &[SolvableIdOrRoot<S>]) -> R<()>
        ensures bound { OnOk result (bound self.new ≤ bound self.old) }
        ensures refusal { IsOkUnless result Memory }
    {
        while let Some(parent) = parents.get(self.queued) {
            self.push(Task::Dependencies(*parent))?;
            self.queued += 1;
        }
        Ok(())
    }

    /// Puts a task for the deferred case at this place behind the others, if the case holds.
    fn push_if_due<N: Copy + Exact + Hash + Debug + Drop>(
        &mut self,
        encoding: &Encoder<N, S>,
        place: usize,
    ) -> R<()>
        requires { IsBuilt encoding.now }
        ensures { IsOkUnless result Memory }
    {
        if encoding.is_due(place) {
            self.push(Task::Case(place))?;
        }
        Ok(())
    }

    /// The same for the deferred cases at these places, in this order.
    pub(crate) fn push_each<N: Copy + Exact + Hash + Debug + Drop>(
        &mut self,
        encoding: &Encoder<N, S>,
        places: &[usize],
    ) -> R<()>
        requires { IsBuilt encoding.now }
        ensures { IsOkUnless result Memory }
    {
        for place in places {
            self.push_if_due(encoding, *place)?;
        }
        Ok(())
    }

    /// Puts tasks for the cases at these places behind the others, in this order. Where there are
    /// several, the matches of all come before the clauses.
    fn push_cases(&mut self, places: &[usize]) -> R<()>
        ensures { IsOkUnless result Memory }
    {
        if places.len() > 1 {
            for place in places {
                self.push(Task::Matches(*place))?;
            }
        }
        for place in places {
            self.push(Task::Case(*place))?;
        }
        Ok(())
    }

    /// Puts tasks for the deferred cases from this place on that hold behind the others. Parents
    /// that were added before come first.
    pub(crate) fn push_from<N: Copy + Exact + Hash + Debug + Drop>(
        &mut self,
        alloc: Global,
        encoding: &Encoder<N, S>,
        first: usize,
    ) -> R<()>
        requires { IsBuilt encoding.now }
        ensures { IsOkUnless result Memory }
    {
        self.push_parents(encoding.parents.as_slice())?;
        let due = due_from(alloc, encoding, first)?;
        self.push_cases(due.as_slice())?;
        Ok(())
    }
}

/// The places of the deferred cases from this one on that hold.
fn due_from<N: Copy + Exact + Hash + Debug + Drop, S: Copy + Exact + Hash + Debug>(
    alloc: Global,
    encoding: &Encoder<N, S>,
    first: usize,
) -> R<Vec<usize>>
    requires { IsBuilt encoding.now }
    ensures { IsOkUnless result Memory }
{
    let mut due = Vec::new(alloc);
    for place in first..encoding.deferred.len() {
        if encoding.is_due(place) {
            due.push(place)?;
        }
    }
    Ok(due)
}
