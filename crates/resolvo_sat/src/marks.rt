//! Marks of variables, all of which are taken away in constant time.
ghost use Rattle.std.specs.Prelude.{◌≡◌, ◌<◌, false, not, [], length, IfOk, OnOk, IsOkUnless, slice_index_or};
ghost use Rattle.resolvo_pool_core.specs.declared.want.Want.TheVariants.{Memory};
ghost use Rattle.resolvo_sat.specs.Marks.{AreNone, AreSame, IsMarked};

use resolvo_pool_core::id::{DenseIndex, VariableId};
use resolvo_pool_core::want::R;
use std::alloc::Global;
use std::marker::Model;

/// The variables that a walk marked. It marks with its number, so marks of earlier walks don't
/// count.
#[derive(Drop)]
pub struct Marks {
    /// The number of the last walk that marked each variable; 0 where none did.
    walks: Vec<u64>,
    /// The number of the present walk.
    walk: u64,
    /// The number of the last walk that met the root, which isn't marked; 0 where none did.
    root_walk: u64,
}

impl Model for Marks {
    ghost use Rattle.std.specs.Prelude.{◌≤◌, List, Bool};
    ghost use Rattle.resolvo_sat.specs.Marks.{flags, AreUpTo};

    ghost Value = { List Bool };

    ghost view = { λ m. flags m.walk m.walks.items };

    ghost invariant = { λ m. (1 ≤ m.walk) × AreUpTo m.walk m.walks.items };
}

impl Marks {
    /// No variable is marked.
    pub fn new(alloc: Global) -> Marks
        ensures { result ≡ [] }
    {
        Marks {
            walks: Vec::new(alloc),
            walk: 1,
            root_walk: 0,
        }
    }

    /// Begins a walk: no variable is marked.
    pub(crate) fn begin(&mut self)
        ensures { AreNone self.new }
    {
        if self.walk == u64::MAX {
            self.walks.clear();
            self.walk = 1;
            self.root_walk = 0;
        } else {
            self.walk += 1;
        }
    }

    /// Whether a variable is marked.
    pub(crate) fn contains(&self, variable: VariableId) -> bool
        ensures { result ≡ slice_index_or self.now variable.0 false }
    {
        let index = variable.to_index();
        index < self.walks.len() && self.walks[index] == self.walk
    }

    /// Marks a variable; true where it wasn't marked.
    pub(crate) fn insert(&mut self, variable: VariableId) -> R<bool>
        ensures added { IfOk result (λ new. new ≡ not (slice_index_or self.old variable.0 false)) }
        ensures put { OnOk result (IsMarked variable.0 self.old self.new) }
        ensures refusal { IsOkUnless result Memory }
    {
        let index = variable.to_index();
        self.make_room(index)?;
        let is_new = !self.contains(variable);
        self.mark(index);
        Ok(is_new)
    }

    /// Notes that the walk meets the root; true where it hadn't. The root isn't marked.
    pub(crate) fn meet_root(&mut self) -> bool
        ensures { self.new ≡ self.old }
    {
        let is_new = self.root_walk != self.walk;
        self.root_walk = self.walk;
        is_new
    }

    /// Makes room for the variable of this index.
    fn make_room(&mut self, index: usize) -> R<()>
        ensures room { OnOk result (index < length self.new) }
        ensures same { OnOk result (AreSame self.old self.new) }
        ensures refusal { IsOkUnless result Memory }
    {
        while self.walks.len() <= index {
            self.walks.push(0)?;
        }
        Ok(())
    }

    /// Marks the variable of this index.
    fn mark(&mut self, index: usize)
        requires { index < length self.old }
        ensures { IsMarked index self.old self.new }
    {
        self.walks[index] = self.walk;
    }
}
