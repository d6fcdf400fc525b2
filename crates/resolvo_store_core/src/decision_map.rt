//! The values of the decided variables, with their levels.
//! Its model is the list of slots by variable; a variable beyond the list is undecided. Literals
//! and clauses are evaluated over it, and the decision tracker keeps one beside its trail.
ghost use Rattle.std.specs.Prelude.{◌≡◌, OnOk, OnErr, IsOkUnless, length, [], None, Some};
ghost use Rattle.resolvo_pool_core.specs.declared.want.Want.TheVariants.{Memory};
ghost use Rattle.resolvo_pool_core.specs.Slots.{at, PutsSlot};
ghost use Rattle.resolvo_store_core.specs.Trail.{level_or};
ghost use Rattle.resolvo_store_core.specs.Values.{value_at};

use resolvo_pool_core::id::VariableId;
use resolvo_pool_core::want::R;
use std::alloc::Global;
use std::marker::Model;

/// A variable's value, and the level at which it was assigned.
#[derive(Clone, Copy, Debug, PartialEq, Eq)]
pub struct Assignment {
    pub value: bool,
    pub level: u32,
}

/// The values of the decided variables, with their levels.
#[derive(Drop)]
pub struct DecisionMap {
    slots: Vec<Option<Assignment>>,
}

impl Model for DecisionMap {
    ghost use Rattle.std.specs.Prelude.{List, Option};
    ghost use Rattle.resolvo_store_core.specs.declared.decision_map.Assignment.{Assignment};

    ghost Value = { List (Option Assignment) };

    ghost view = { λ m. m.slots.items };
}

impl DecisionMap {
    /// A map in which no variable is decided.
    pub fn new(alloc: Global) -> DecisionMap
        ensures { result ≡ [] }
    {
        DecisionMap {
            slots: Vec::new(alloc),
        }
    }

    /// How many slots it has; a variable beyond them is undecided.
    pub fn len(&self) -> usize
        ensures { result ≡ length self.now }
    {
        self.slots.len()
    }

    /// Unassigns a variable.
    pub fn reset(&mut self, variable: VariableId)
        ensures put { PutsSlot self.old self.new variable.0 None }
        ensures len { length self.new ≡ length self.old }
    {
        let index = variable.0 as usize;
        if index < self.slots.len() {
            self.slots[index] = None;
        }
    }

    /// Assigns a value to a variable at a level.
    pub fn set(&mut self, variable: VariableId, value: bool, level: u32) -> R<()>
        ensures put { OnOk result
            (PutsSlot self.old self.new variable.0
            (Some (record { value = value; level = level }))) }
        ensures err { OnErr result (self.new ≡ self.old) }
        ensures refusal { IsOkUnless result Memory }
    {
        let index = variable.0 as usize;
        if index >= self.slots.len() {
            self.slots.resize(index + 1, None)?;
        }
        self.slots[index] = Some(Assignment { value, level });
        Ok(())
    }

    /// The value of a variable with its level, if it is decided.
    pub fn get(&self, variable: VariableId) -> Option<Assignment>
        ensures { result ≡ at self.now variable.0 }
    {
        let index = variable.0 as usize;
        if index < self.slots.len() {
            self.slots[index]
        } else {
            None
        }
    }

    /// The level at which a variable was assigned, or 0 where it is undecided.
    pub fn level(&self, variable: VariableId) -> u32
        ensures { result ≡ level_or (at self.now variable.0) }
    {
        match self.get(variable) {
            Some(assignment) => assignment.level,
            None => 0,
        }
    }

    /// The value of a variable, if it is decided.
    pub fn value(&self, variable: VariableId) -> Option<bool>
        ensures { result ≡ value_at self.now variable.0 }
    {
        self.get(variable).map(|assignment| assignment.value)
    }
}
