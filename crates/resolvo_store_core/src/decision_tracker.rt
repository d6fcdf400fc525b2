//! The trail of decisions, with the values that it gives.
//! Its model is the trail, how far it was propagated, and its least length since that was last
//! taken. Propagation reads it from the front on, and a backjump removes entries from its end.
ghost use Rattle.std.specs.Prelude.{◌≡◌, ℕ, ◌+◌, ◌<◌, ◌∷◌, ◌++◌, [], OnErr, IfOk, IsOkUnless, length, min, slice_get};
ghost use Rattle.std.specs.Option.{option_map};
ghost use Rattle.std.specs.Iterator.{YieldsFirst, item_count};
ghost use Rattle.resolvo_pool_core.specs.declared.want.Want.TheVariants.{Memory};
ghost use Rattle.resolvo_pool_core.specs.Slots.{at};
ghost use Rattle.resolvo_store_core.specs.Trail.{assigned, value_in, values_of, clause_for, level_or, last_level, EachOnce, Tracked, Undoes, PopsLast};
ghost use Rattle.resolvo_store_core.specs.AddPairs.{set_for, with_entry};

use crate::decision::{Decision, Entry};
use crate::decision_map::DecisionMap;
use resolvo_pool_core::id::{ClauseId, VariableId};
use resolvo_pool_core::want::R;
use std::alloc::Global;
use std::marker::Model;

/// The outcome of adding a decision.
#[derive(Clone, Copy, Debug, PartialEq, Eq)]
pub enum Set {
    /// Its variable was undecided, and has its value now.
    New,
    /// Its variable had this value before.
    Already,
    /// Its variable has the other value.
    Opposite,
}

/// The trail of decisions.
#[derive(Drop)]
pub struct DecisionTracker {
    map: DecisionMap,
    stack: Vec<Entry>,
    qhead: usize,
    floor: usize,
}

impl Model for DecisionTracker {
    ghost use Rattle.resolvo_store_core.specs.Trail.{Tracked, IsTrail};

    ghost Value = { Tracked };

    ghost view = { λ t. record { trail = t.stack.items; qhead = t.qhead; floor = t.floor } };

    ghost invariant = { λ t. IsTrail t.map t.stack.items t.qhead t.floor };
}

impl DecisionTracker {
    /// An empty trail.
    pub fn new(alloc: Global) -> DecisionTracker
        ensures { result ≡ record { trail = []; qhead = 0; floor = 0 } }
    {
        DecisionTracker {
            map: DecisionMap::new(alloc),
            stack: Vec::new(alloc),
            qhead: 0,
            floor: 0,
        }
    }

    /// The values of the decided variables.
    pub fn map(&self) -> &DecisionMap
        ensures { (v : ℕ) → at result.now v ≡ assigned self.now.trail v }
    {
        &self.map
    }

    /// The trail, from the first decision on. Each variable is in it at most once.
    pub fn stack(&self) -> &[Entry]
        ensures trail { result.now ≡ self.now.trail }
        ensures once { EachOnce self.now.trail }
    {
        self.stack.as_slice()
    }

    /// The decided variables with their values, from the first decision on.
    pub fn assignments(&self) -> Assignments<'_>
        ensures { values_of result.rest.now ≡ values_of self.now.trail }
    {
        Assignments {
            rest: self.stack.as_slice(),
        }
    }

    /// The value of a variable, if it is decided.
    pub fn assigned_value(&self, variable: VariableId) -> Option<bool>
        ensures { result ≡ value_in self.now.trail variable.0 }
    {
        self.map.value(variable)
    }

    /// The level of a variable's decision, or 0 where it is undecided.
    pub fn level(&self, variable: VariableId) -> u32
        ensures { result ≡ level_or (assigned self.now.trail variable.0) }
    {
        self.map.level(variable)
    }

    /// The level of the last decision, or 0 where there is none.
    pub fn last_level(&self) -> u32
        ensures { result ≡ last_level self.now.trail }
    {
        top_level(self.stack.as_slice())
    }

    /// The reason clause of a variable's decision, if it is decided.
    pub fn find_clause_for_assignment(&self, variable: VariableId) -> Option<ClauseId>
        ensures { result ≡ clause_for self.now.trail variable.0 }
    {
        for entry in &self.stack {
            if entry.decision.variable.0 == variable.0 {
                return Some(entry.decision.derived_from);
            }
        }
        None
    }

    /// Adds a decision at the end, unless its variable is decided.
    pub fn try_add_decision(&mut self, decision: Decision, level: u32) -> R<Set>
        ensures answer { IfOk result
            (λ s. s ≡ set_for decision.value (value_in self.old.trail decision.variable.0)) }
        ensures trail { IfOk result
            (λ s.
            self.new ≡ with_entry s (record { decision = decision; level = level }) self.old) }
        ensures err { OnErr result (self.new ≡ self.old) }
        ensures refusal { IsOkUnless result Memory }
    {
        match self.map.value(decision.variable) {
            Some(value) => {
                if value == decision.value {
                    Ok(Set::Already)
                } else {
                    Ok(Set::Opposite)
                }
            }
            None => {
                self.stack.reserve(1)?;
                self.map.set(decision.variable, decision.value, level)?;
                self.stack.push(Entry { decision, level }).unwrap();
                Ok(Set::New)
            }
        }
    }

    /// Removes the last decision; returns it, and the level of the one before it, or 0.
    pub fn undo_last(&mut self) -> (Decision, u32)
        requires { 0 < length self.old.trail }
        ensures popped { PopsLast self.old self.new result.0 }
        ensures level { result.1 ≡ last_level self.new.trail }
    {
        match self.stack.pop() {
            Some(entry) => {
                self.map.reset(entry.decision.variable);
                let len = self.stack.len();
                self.qhead = self.qhead.min(len);
                self.floor = self.floor.min(len);
                (entry.decision, top_level(self.stack.as_slice()))
            }
            None => unreachable!(),
        }
    }

    /// Removes the decisions above a level, from the end to the first that is not above it.
    pub fn undo_until(&mut self, level: u32)
        ensures { Undoes level self.old self.new }
    {
        let mut top = top_level(self.stack.as_slice());
        while top > level {
            let (_, before) = self.undo_last();
            top = before;
        }
    }

    /// The next decision that was not propagated, and marks it as propagated.
    pub fn next_unpropagated(&mut self) -> Option<Decision>
        ensures decision { result ≡ option_map (λ e. e.decision)
            (slice_get self.old.trail self.old.qhead) }
        ensures qhead { self.new ≡ record self.old {
          qhead = min (self.old.qhead + 1)
              (length self.old.trail);
        } }
    {
        if self.qhead < self.stack.len() {
            let decision = self.stack[self.qhead].decision;
            self.qhead += 1;
            Some(decision)
        } else {
            None
        }
    }

    /// Restarts propagation at the first decision.
    pub fn again(&mut self)
        ensures { self.new ≡ record self.old { qhead = 0 } }
    {
        self.qhead = 0;
    }

    /// The least length of the trail since this was last called, at first 0.
    pub fn take_sync_floor(&mut self) -> usize
        ensures floor { result ≡ self.old.floor }
        ensures anew { self.new ≡ record self.old { floor = length self.old.trail } }
    {
        let floor = self.floor;
        self.floor = self.stack.len();
        floor
    }

    /// Removes all decisions.
    pub fn clear(&mut self)
        ensures { self.new ≡ record { trail = []; qhead = 0; floor = 0 } }
    {
        while !self.stack.is_empty() {
            self.undo_last();
        }
    }
}

/// Iterates over the decided variables and their values.
#[derive(Drop)]
pub struct Assignments<'a> {
    pub rest: &'a [Entry],
}

impl<'a> Iterator for Assignments<'a> {
    type Item = (VariableId, bool);

    ghost next_gives = { YieldsFirst (λ s. values_of s.rest.now) };

    ghost remaining = { item_count (λ s. values_of s.rest.now) };

    fn next(&mut self) -> Option<(VariableId, bool)> {
        let (entry, rest) = self.rest.split_first()?;
        self.rest = rest;
        Some((entry.decision.variable, entry.decision.value))
    }
}

/// The level of the last entry, or 0 where there is none.
fn top_level(stack: &[Entry]) -> u32
    ensures { result ≡ last_level stack.now }
{
    match stack.last() {
        Some(entry) => entry.level,
        None => 0,
    }
}
