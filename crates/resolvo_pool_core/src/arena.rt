//! Values, each under a new id; no value is ever removed alone.
//! Its model is the list of values, in which a value's position is the index of its id. `Pool` keeps
//! what it numbers in arenas.
ghost use Rattle.std.specs.Prelude.{◌≡◌, ◌<◌, ◌≤◌, ◌+◌, ◌++◌, ◌∷◌, [], IfOk, OnOk, OnErr, IsErrOf, IsOkUnless, OnSome, IfSome, length, slice_get, Some};
ghost use Rattle.std.specs.Borrow.{sem};
ghost use Rattle.std.specs.Iterator.{YieldsFirstBy, item_count, at_most};
ghost use Rattle.std.specs.Slice.Iter.{iter_mut_rest, iter_mut_steps};
ghost use Rattle.std.specs.Option.{option_map};
ghost use Rattle.std.specs.List.{enumerate_from};
ghost use Rattle.resolvo_pool_core.specs.declared.want.Want.TheVariants.{Memory, Ids};

use crate::id::{DenseIndex, next_index};
use crate::want::R;
use std::alloc::Global;
use std::marker::{Model, PhantomData};
use std::ops::{Index, IndexMut};
use std::slice;

/// Values, each under an id of its own.
#[derive(Drop)]
pub struct Arena<TId, TValue> {
    items: Vec<TValue>,
    of: PhantomData<TId>,
}

impl<TId, TValue> Model for Arena<TId, TValue> {
    ghost use Rattle.std.specs.Prelude.{List, ◌≤◌, length};

    ghost Value = { List TValue };

    ghost view = { λ a. a.items.items };

    ghost invariant = { λ a. length a.items.items ≤ 4294967295 };
}

impl<TId: DenseIndex, TValue> Arena<TId, TValue> {
    /// An empty arena.
    pub fn new(alloc: Global) -> Arena<TId, TValue>
        ensures { result ≡ [] }
    {
        Arena {
            items: Vec::new(alloc),
            of: PhantomData,
        }
    }

    /// An empty arena with room for `capacity` values.
    pub fn with_capacity(alloc: Global, capacity: usize) -> R<Arena<TId, TValue>>
        ensures empty { IfOk result (λ a. a ≡ []) }
        ensures refusal { IsOkUnless result Memory }
    {
        Ok(Arena {
            items: Vec::with_capacity(alloc, capacity)?,
            of: PhantomData,
        })
    }

    /// Removes all values.
    pub fn clear(&mut self)
    where
        TValue: Drop,
        ensures { self.new ≡ [] }
    {
        self.items.clear();
    }

    /// How many values it has.
    pub fn len(&self) -> usize
        ensures { result ≡ length self.now }
    {
        self.items.len()
    }

    /// Inserts a value under a new id.
    pub fn alloc(&mut self, value: TValue) -> R<TId>
    where
        TValue: Drop,
        ensures id { IfOk result (λ id. TId.index_of id ≡ length self.old) }
        ensures put { OnOk result (self.new ≡ self.old ++ value ∷ []) }
        ensures err { OnErr result (self.new ≡ self.old) }
        ensures ids { IsErrOf result Ids → length self.old ≡ 4294967295 }
    {
        let index = next_index(self.items.len())?;
        self.items.push(value)?;
        Ok(TId::from_index(index))
    }

    /// All ids and values, in the order of the ids.
    pub fn iter(&self) -> ArenaIter<'_, TId, TValue>
        ensures rest { result.rest.now ≡ self.now }
        ensures next { result.next ≡ 0 }
    {
        ArenaIter {
            rest: self.items.as_slice(),
            next: 0,
            of: PhantomData,
        }
    }
}

impl<TId: DenseIndex, TValue> Arena<TId, TValue> {
    /// All ids and values, in the order of the ids; the values can be changed.
    pub fn iter_mut(&mut self) -> ArenaIterMut<'_, TId, TValue>
        ensures rest { iter_mut_rest result.rest ≡ self.old }
        ensures next { result.next ≡ 0 }
    {
        ArenaIterMut {
            rest: self.items.iter_mut(),
            next: 0,
            of: PhantomData,
        }
    }
}

impl<TId: DenseIndex, TValue> Index<TId> for Arena<TId, TValue> {
    type Output = TValue;

    ghost can_index = { λ a id. TId.index_of id < length a };

    ghost index_gives = { λ a id value. slice_get a (TId.index_of id) ≡ Some value };

    fn index(&self, id: TId) -> &TValue {
        &self.items[id.to_index()]
    }
}

impl<TId: DenseIndex, TValue> IndexMut<TId> for Arena<TId, TValue> {
    ghost use Rattle.resolvo_pool_core.specs.Lends.{lends_item};

    fn index_mut(&mut self, id: TId) -> &mut TValue
        requires { TId.index_of id < length self.old }
        ensures* writes_back { sem 𝓛
            (lends_item TId.row TValue.row self.entry (TId.index_of id) result) }
        ensures value { slice_get self.old (TId.index_of id) ≡ Some result.now }
    {
        &mut self.items[id.to_index()]
    }
}

/// Iterates over the ids and values of an arena.
#[derive(Drop)]
pub struct ArenaIter<'a, TId, TValue> {
    pub rest: &'a [TValue],
    pub next: usize,
    of: PhantomData<TId>,
    ghost room: { next + length rest.now ≤ 4294967295 },
}

impl<'a, TId: DenseIndex, TValue> Iterator for ArenaIter<'a, TId, TValue> {
    type Item = (TId, &'a TValue);

    ghost next_gives = { YieldsFirstBy (λ p. (TId.index_of p.0, p.1.now))
        (λ s. enumerate_from s.next s.rest.now) };

    ghost remaining = { item_count (λ s. enumerate_from s.next s.rest.now) };

    fn next(&mut self) -> Option<(TId, &'a TValue)> {
        let (value, rest) = self.rest.split_first()?;
        let index = self.next;
        self.rest = rest;
        self.next += 1;
        Some((TId::from_index(index), value))
    }
}

/// Iterates over the ids of an arena and mutable references to its values.
#[derive(Drop)]
pub struct ArenaIterMut<'a, TId, TValue> {
    pub rest: slice::IterMut<'a, TValue>,
    pub next: usize,
    of: PhantomData<TId>,
    ghost room: { next + length (iter_mut_rest rest) ≤ 4294967295 },
}

impl<'a, TId: DenseIndex, TValue> Iterator for ArenaIterMut<'a, TId, TValue> {
    type Item = (TId, &'a mut TValue);

    ghost next_gives = { λ s r t. iter_mut_steps s.rest (option_map (λ p. p.1) r) t.rest
        × OnSome r (t.next ≡ s.next + 1) × IfSome r (λ p. TId.index_of p.0 ≡ s.next) };

    ghost remaining = { λ s. at_most (length (iter_mut_rest s.rest)) };

    fn next(&mut self) -> Option<(TId, &'a mut TValue)> {
        let value = self.rest.next()?;
        let index = self.next;
        self.next += 1;
        Some((TId::from_index(index), value))
    }
}
