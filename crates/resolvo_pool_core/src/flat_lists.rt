//! Lists one after the other in one vector, in the order in which they are added. The model is the
//! list of them. None has memory of its own.
ghost use Rattle.std.specs.Prelude.{◌≡◌, ◌<◌, ◌≤◌, ◌-◌, ◌++◌, ◌∷◌, [], OnOk, OnErr, IsOkUnless, length, slice_get, slice_index_or, take, Some};
ghost use Rattle.resolvo_pool_core.specs.declared.want.Want.TheVariants.{Memory};

use crate::want::{R, Want};
use std::alloc::Global;
use std::marker::Model;

/// How many lists there may be, and how many items they may have together.
const MOST: usize = 4_294_967_295;

/// Lists one after the other. Each begins where the one before it ends.
#[derive(Drop)]
pub struct FlatLists<T> {
    items: Vec<T>,
    /// Where each list ends.
    ends: Vec<u32>,
}

impl<T> Model for FlatLists<T> {
    ghost use Rattle.std.specs.Prelude.{List};
    ghost use Rattle.resolvo_pool_core.specs.Flat.{lists_in, AreEnds};

    ghost Value = { List (List T) };

    ghost view = { λ l. lists_in l.items.items l.ends.items };

    ghost invariant = { λ l. AreEnds l.items.items l.ends.items };
}

impl<T> FlatLists<T> {
    /// No lists.
    pub fn new(alloc: Global) -> FlatLists<T>
        ensures { result ≡ [] }
    {
        FlatLists {
            items: Vec::new(alloc),
            ends: Vec::new(alloc),
        }
    }

    /// How many lists there are.
    pub fn len(&self) -> usize
        ensures { result ≡ length self.now }
    {
        self.ends.len()
    }

    /// The list of a number.
    #[inline(always)]
    pub fn get(&self, number: usize) -> &[T]
        requires { number < length self.now }
        ensures { slice_get self.now number ≡ Some result.now }
    {
        let begin = begin_of(&self.ends, number);
        let end = self.ends[number];
        &self.items[begin as usize..end as usize]
    }

    /// A law of all lists: a number counts them. It does nothing.
    #[inline(always)]
    pub fn are_few(&self)
        ensures { length self.now ≤ 4294967295 }
    {
        let _ends = &self.ends;
    }

    /// Adds a list. More than a number can count are refused as for want of memory.
    pub fn push(&mut self, list: &[T]) -> R<()>
    where
        T: Copy,
        ensures put { OnOk result (self.new ≡ self.old ++ list.now ∷ []) }
        ensures err { OnErr result (self.new ≡ self.old) }
        ensures refusal { IsOkUnless result Memory }
    {
        if self.ends.len() >= MOST {
            return Err(Want::Memory);
        }
        let begin = self.items.len();
        let count = list.len();
        if count > MOST - begin {
            return Err(Want::Memory);
        }
        let end = begin + count;
        self.ends.reserve(1)?;
        self.items.extend_from_slice(list)?;
        self.ends.push_reserved(end as u32);
        Ok(())
    }

    /// Takes the last list away.
    pub fn pop(&mut self)
    where
        T: Copy,
        requires { 0 < length self.old }
        ensures { self.new ≡ take (length self.old - 1) self.old }
    {
        self.ends.pop();
        let begin = begin_of(&self.ends, self.ends.len());
        self.items.truncate(begin as usize);
    }
}

/// Where the list of a number begins, by the ends.
#[inline(always)]
fn begin_of(ends: &[u32], number: usize) -> u32
    requires { number ≤ length ends.now }
    ensures first { number ≡ 0 → result ≡ 0 }
    ensures later { 0 < number → result ≡ slice_index_or ends.now (number - 1) 0 }
{
    if number == 0 { 0 } else { ends[number - 1] }
}
