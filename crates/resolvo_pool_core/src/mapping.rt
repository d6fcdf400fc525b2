//! Values by dense id, in slots that grow by whole chunks.
//! Its model is the list of slots, read as a total map: an id beyond the list has no value. The
//! requirement map and the solver's tables are built on it.
ghost use Rattle.std.specs.Prelude.{◌≡◌, ◌<◌, ◌≤◌, ◌/◌, ◌%◌, ◌+◌, ◌*◌, ◌-◌, ◌++◌, ◌==◌, IfOk, OnOk, OnErr, IsErrOf, IsOkUnless, length, replicate, None, Some, MatchOption, vec_len, max};
ghost use Rattle.std.specs.Option.{option_copied, option_copied_mut};
ghost use Rattle.std.specs.Borrow.{sem};
ghost use Rattle.resolvo_pool_core.specs.Lends.{lends_slot, lends_kept};
ghost use Rattle.std.specs.List.{sum_by};
ghost use Rattle.std.specs.Iterator.{YieldsFirstBy, item_count};
ghost use Rattle.resolvo_pool_core.specs.declared.want.Want.TheVariants.{Ids, Memory};
ghost use Rattle.resolvo_pool_core.specs.Slots.{at, filled, PutsSlot, pairs_from, slots_with};

use crate::id::DenseIndex;
use crate::want::{R, Want};
use std::alloc::Global;
use std::marker::{Model, PhantomData};
use std::mem;

/// How many slots a chunk has.
pub const CHUNK: usize = 128;

/// How many indexes there are.
const INDEXES: usize = 4_294_967_295;

/// Values by dense id.
#[derive(Drop)]
pub struct Mapping<TId, TValue> {
    slots: Vec<Option<TValue>>,
    count: usize,
    of: PhantomData<TId>,
}

impl<TId, TValue> Model for Mapping<TId, TValue> {
    ghost use Rattle.std.specs.Prelude.{List, Option, ◌≡◌, ◌≤◌, length};
    ghost use Rattle.std.specs.List.{sum_by};

    ghost Value = { List (Option TValue) };

    ghost use Rattle.resolvo_pool_core.specs.Slots.{filled};

    ghost view = { λ m. m.slots.items };

    ghost invariant = { λ m. (m.count ≡ sum_by filled m.slots.items)
        × (length m.slots.items ≤ 4294967295) };
}

impl<TId, TValue> Mapping<TId, TValue> {
    /// The chunk of an index, and its offset in the chunk.
    pub const fn chunk_and_offset(index: usize) -> (usize, usize)
        ensures { result ≡ (index / 128, index % 128) }
    {
        (index / CHUNK, index % CHUNK)
    }
}

impl<TId: DenseIndex, TValue> Mapping<TId, TValue> {
    /// An empty mapping with one chunk.
    pub fn new(alloc: Global) -> R<Mapping<TId, TValue>>
    where
        TValue: Drop,
        ensures slots { IfOk result (λ m. m ≡ replicate 128 None) }
        ensures refusal { IsOkUnless result Memory }
    {
        Mapping::with_capacity(alloc, 1)
    }

    /// An empty mapping with chunks for `capacity` indexes, one chunk at least.
    pub fn with_capacity(alloc: Global, capacity: usize) -> R<Mapping<TId, TValue>>
    where
        TValue: Drop,
        requires { capacity ≤ 4294967168 }
        ensures slots { IfOk result (λ m. m ≡ replicate (128 * ((capacity - 1) / 128 + 1)) None) }
        ensures refusal { IsOkUnless result Memory }
    {
        let mut slots = Vec::new(alloc);
        fill_up(&mut slots, (capacity.saturating_sub(1) / CHUNK + 1) * CHUNK)?;
        Ok(Mapping {
            slots,
            count: 0,
            of: PhantomData,
        })
    }

    /// How many values it has.
    pub fn len(&self) -> usize
        ensures { result ≡ sum_by filled self.now }
    {
        self.count
    }

    /// Whether it has no value.
    pub fn is_empty(&self) -> bool
        ensures { result ≡ (sum_by filled self.now == 0) }
    {
        self.count == 0
    }

    /// How many slots it has, with a value or without.
    pub fn slots(&self) -> usize
        ensures { result ≡ length self.now }
    {
        self.slots.len()
    }

    /// How many slots its memory has room for.
    pub fn capacity(&self) -> usize
        ensures { length self.now ≤ result }
    {
        self.slots.capacity()
    }

    /// The value of an id.
    pub fn get(&self, id: TId) -> Option<&TValue>
        ensures { option_copied result ≡ at self.now (TId.index_of id) }
    {
        let index = id.to_index();
        if index < self.slots.len() {
            self.slots[index].as_ref()
        } else {
            None
        }
    }

    /// A mutable reference to the value of an id.
    pub fn get_mut(&mut self, id: TId) -> Option<&mut TValue>
        ensures* writes_back { sem 𝓛
            (lends_slot TId.row TValue.row self.entry (TId.index_of id) result) }
        ensures value { option_copied_mut result ≡ at self.old (TId.index_of id) }
    {
        let index = id.to_index();
        if index >= self.slots.len() || self.slots[index].is_none() {
            return None;
        }
        self.slots[index].as_mut()
    }

    /// Inserts a value, and returns the previous one. New slots are added by whole chunks.
    pub fn insert(&mut self, id: TId, value: TValue) -> R<Option<TValue>>
    where
        TValue: Drop,
        ensures old { IfOk result (λ old. old ≡ at self.old (TId.index_of id)) }
        ensures put { OnOk result (PutsSlot self.old self.new (TId.index_of id) (Some value)) }
        ensures err { OnErr result (self.new ≡ self.old) }
        ensures slots { OnOk result
            (length self.new ≡ slots_with (length self.old) (TId.index_of id)) }
        ensures ids { IsErrOf result Ids → TId.index_of id ≡ 4294967295 }
    {
        let index = id.to_index();
        if index >= INDEXES {
            return Err(Want::Ids);
        }
        let (chunk, _) = Mapping::<TId, TValue>::chunk_and_offset(index);
        let wanted = ((chunk + 1) * CHUNK).min(INDEXES);
        let old = put_value(&mut self.slots, index, wanted, value)?;
        if old.is_none() {
            self.count += 1;
        }
        Ok(old)
    }

    /// A mutable reference to the value of an id, which `make` creates where there is none.
    pub fn get_or_insert_with<F: FnOnce() -> TValue>(&mut self, id: TId, make: F) -> R<&mut TValue>
    where
        TValue: Drop,
        F: Drop,
        requires { F.IsAlwaysCallable make }
        ensures* writes_back { sem 𝓛
            (lends_kept TId.row TValue.row self.entry (TId.index_of id) result) }
        ensures value { IfOk result
            (λ r.
            MatchOption (at self.old (TId.index_of id)) (F.post make r.now) (λ v. r.now ≡ v)) }
        ensures ids { IsErrOf result Ids → TId.index_of id ≡ 4294967295 }
    {
        if self.get(id).is_none() {
            let value = make();
            self.insert(id, value)?;
        }
        match self.get_mut(id) {
            Some(value) => Ok(value),
            None => unreachable!(),
        }
    }

    /// Removes the value of an id, and returns it.
    pub fn unset(&mut self, id: TId) -> Option<TValue>
        ensures old { result ≡ at self.old (TId.index_of id) }
        ensures put { PutsSlot self.old self.new (TId.index_of id) None }
        ensures slots { length self.new ≡ length self.old }
    {
        let old = take_value(&mut self.slots, id.to_index());
        if old.is_some() {
            self.count -= 1;
        }
        old
    }

    /// All ids and values, in the order of the ids.
    pub fn iter(&self) -> MappingIter<'_, TId, TValue>
        ensures { pairs_from result.next result.slots.now ≡ pairs_from 0 self.now }
    {
        MappingIter {
            slots: self.slots.as_slice(),
            next: 0,
            of: PhantomData,
        }
    }
}

/// Adds empty slots until there are `len`.
fn fill_up<V>(slots: &mut Vec<Option<V>>, len: usize) -> R<()>
where
    V: Drop,
    requires { vec_len slots.old ≤ len }
    ensures ok { OnOk result
        (slots.new.items ≡ slots.old.items ++ replicate (len - vec_len slots.old) None) }
    ensures err { OnErr result (slots.new.items ≡ slots.old.items) }
    ensures refusal { IsOkUnless result Memory }
{
    let before = slots.len();
    slots.reserve(len - before)?;
    for _i in before..len {
        slots.push(None).unwrap();
    }
    Ok(())
}

/// Sets the value at an index, after adding slots up to `wanted` where there are fewer.
fn put_value<V>(slots: &mut Vec<Option<V>>, index: usize, wanted: usize, value: V) -> R<Option<V>>
where
    V: Drop,
    requires below { index < wanted }
    requires room { wanted ≤ 4294967295 }
    requires few { vec_len slots.old ≤ 4294967295 }
    // What the call promises.
    ensures old { IfOk result (λ old. old ≡ at slots.old.items index) }
    ensures put { OnOk result (PutsSlot slots.old.items slots.new.items index (Some value)) }
    ensures count { IfOk result
        (λ old. sum_by filled slots.new.items + filled old ≡ sum_by filled slots.old.items + 1) }
    ensures few { vec_len slots.new ≤ 4294967295 }
    ensures slots { OnOk result (vec_len slots.new ≡ max wanted (vec_len slots.old)) }
    // After a refusal.
    ensures err { OnErr result (slots.new.items ≡ slots.old.items) }
    ensures refusal { IsOkUnless result Memory }
{
    let len = slots.len();
    fill_up(slots, wanted.max(len))?;
    let old = mem::replace(&mut slots[index], Some(value));
    Ok(old)
}

/// Removes the value at an index, if there is one.
fn take_value<V>(slots: &mut Vec<Option<V>>, index: usize) -> Option<V>
    ensures old { result ≡ at slots.old.items index }
    ensures put { PutsSlot slots.old.items slots.new.items index None }
    ensures count { sum_by filled slots.new.items + filled result ≡ sum_by filled slots.old.items }
    ensures slots { vec_len slots.new ≡ vec_len slots.old }
{
    if index < slots.len() {
        slots[index].take()
    } else {
        None
    }
}

/// Iterates over the ids and values of a mapping.
#[derive(Drop)]
pub struct MappingIter<'a, TId, TValue> {
    pub slots: &'a [Option<TValue>],
    pub next: usize,
    of: PhantomData<TId>,
    ghost room: { next + length slots.now ≤ 4294967295 },
}

impl<'a, TId: DenseIndex, TValue> Iterator for MappingIter<'a, TId, TValue> {
    type Item = (TId, &'a TValue);

    ghost next_gives = { YieldsFirstBy (λ p. (TId.index_of p.0, p.1.now))
        (λ s. pairs_from s.next s.slots.now) };

    ghost remaining = { item_count (λ s. pairs_from s.next s.slots.now) };

    fn next(&mut self) -> Option<(TId, &'a TValue)> {
        while let Some((first, rest)) = self.slots.split_first() {
            let index = self.next;
            self.slots = rest;
            self.next += 1;
            if let Some(value) = first {
                return Some((TId::from_index(index), value));
            }
        }
        None
    }
}
