//! Lists of version sets in one list, in the order in which they are added. The model is the list of
//! them. None has memory of its own. Used by `unions`.

ghost use Rattle.std.specs.Prelude.{◌≡◌, ◌<◌, ◌-◌, ◌∷◌, ◌++◌, [], IfOk, OnOk, OnErr, length, slice_get, take, Some};
ghost use Rattle.std.specs.Option.{option_map};

use crate::place::place_of;
use resolvo_pool_core::id::VersionSetId;
use std::alloc::{AllocError, Global};
use std::marker::Model;

/// Where a list lies among the members of all.
#[derive(Clone, Copy, Debug)]
pub struct Part {
    begin: u32,
    end: u32,
}

/// Lists of version sets.
pub struct SetLists {
    members: Vec<VersionSetId>,
    parts: Vec<Part>,
}

// split for the prover: one drop for each
impl Drop for SetLists {
    fn drop(self) {
        let SetLists {
            members: _,
            parts: _,
        } = self;
    }
}

impl Model for SetLists {
    ghost use Rattle.std.specs.Prelude.{List, map};
    ghost use Rattle.resolvo_pool_core.specs.declared.id.VersionSetId.{VersionSetId};
    ghost use Rattle.resolvo_terms.specs.Lists.{AreParts, part_of};

    ghost Value = { List (List VersionSetId) };

    ghost view = { λ t. map (part_of t.members.items) t.parts.items };

    ghost invariant = { λ t. AreParts t.members.items t.parts.items };
}

impl SetLists {
    pub fn new(alloc: Global) -> SetLists
        ensures { result ≡ [] }
    {
        SetLists {
            members: Vec::new(alloc),
            parts: Vec::new(alloc),
        }
    }

    /// The same lists.
    pub fn copy(&self, alloc: Global) -> Result<SetLists, AllocError>
        ensures { IfOk result (λ t. t ≡ self.now) }
    {
        Ok(SetLists {
            members: Vec::from_slice(alloc, &self.members)?,
            parts: Vec::from_slice(alloc, &self.parts)?,
        })
    }

    pub fn len(&self) -> usize
        ensures { result ≡ length self.now }
    {
        self.parts.len()
    }

    /// A list by its number.
    pub fn at(&self, number: usize) -> &[VersionSetId]
        requires { number < length self.now }
        ensures { slice_get self.now number ≡ Some result.now }
    {
        let part = self.parts[number];
        &self.members[part.begin as usize..part.end as usize]
    }

    /// A list, if there is one of this number.
    pub fn get(&self, number: usize) -> Option<&[VersionSetId]>
        ensures { option_map (λ t. t.now) result ≡ slice_get self.now number }
    {
        if number < self.len() {
            Some(self.at(number))
        } else {
            None
        }
    }

    /// Adds a list.
    pub fn push(&mut self, list: &[VersionSetId]) -> Result<(), AllocError>
        ensures added { OnOk result (self.new ≡ self.old ++ list.now ∷ []) }
        ensures same { OnErr result (self.new ≡ self.old) }
    {
        let begin = self.members.len();
        let end = place_of(begin + list.len())?;
        self.parts.reserve(1)?;
        self.members.extend_from_slice(list)?;
        self.parts.push_reserved(Part {
            begin: begin as u32,
            end,
        });
        Ok(())
    }

    /// Takes the last list away.
    pub fn pop(&mut self)
        ensures { self.new ≡ take (length self.old - 1) self.old }
    {
        self.parts.pop();
    }
}
