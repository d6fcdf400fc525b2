//! The conditions of deferred cases, each with the number of its cases, in the order in which they
//! were first deferred. Where a condition has no case left, the last one takes its place. No
//! contract depends on them.
ghost use Rattle.std.specs.Prelude.{IsOkUnless};
ghost use Rattle.resolvo_pool_core.specs.declared.want.Want.TheVariants.{Memory};

use resolvo_pool_core::id::{ConditionId, DenseIndex};
use resolvo_pool_core::want::R;
use std::alloc::Global;

/// How many cases of a condition wait. The place of the condition, if some do.
#[derive(Clone, Copy)]
struct WaitingCases {
    count: usize,
    place: usize,
}

/// The conditions of listed cases that wait.
#[derive(Drop)]
pub struct WaitingConditions {
    order: Vec<ConditionId>,
    /// The waiting cases of each condition, by its index.
    cases: Vec<WaitingCases>,
}

impl WaitingConditions {
    /// No condition.
    pub(crate) fn new(alloc: Global) -> WaitingConditions {
        WaitingConditions {
            order: Vec::new(alloc),
            cases: Vec::new(alloc),
        }
    }

    /// The place of a condition in the order in which its cases are taken.
    pub(crate) fn rank(&self, condition: Option<ConditionId>) -> usize {
        let Some(condition) = condition else {
            return 0;
        };
        match self.cases.get(condition.to_index()) {
            Some(cases) if cases.count > 0 => cases.place,
            _ => 0,
        }
    }

    /// One more case of this condition waits.
    pub(crate) fn begin_case(&mut self, condition: Option<ConditionId>) -> R<()>
        ensures { IsOkUnless result Memory }
    {
        let Some(condition) = condition else {
            return Ok(());
        };
        let index = condition.to_index();
        for _ in self.cases.len()..index + 1 {
            self.cases.push(WaitingCases { count: 0, place: 0 })?;
        }
        if index >= self.cases.len() {
            return Ok(());
        }
        if self.cases[index].count == 0 {
            self.cases[index].place = self.order.len();
            self.order.push(condition)?;
        }
        self.cases[index].count = self.cases[index].count.saturating_add(1);
        Ok(())
    }

    /// One case less of this condition waits. The last condition takes the place of one that has
    /// none.
    pub(crate) fn end_case(&mut self, condition: Option<ConditionId>) {
        let Some(condition) = condition else {
            return;
        };
        let index = condition.to_index();
        if index >= self.cases.len() {
            return;
        }
        let WaitingCases { count, place } = self.cases[index];
        self.cases[index].count = count.saturating_sub(1);
        if count == 1 {
            self.remove(place);
        }
    }

    /// Removes the condition at this place. The last one takes it.
    fn remove(&mut self, place: usize) {
        if place < self.order.len() {
            self.order.swap_remove(place);
        }
        if let Some(moved) = self.order.get(place) {
            let index = moved.to_index();
            if index < self.cases.len() {
                self.cases[index].place = place;
            }
        }
    }
}
