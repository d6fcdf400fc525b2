//! Values by keys of four numbers. A key is found at a place of its hash. Those whose places others
//! have are in a sorted map. So no choice of keys makes that slow. Used by `numbered`.

ghost use Rattle.std.specs.Prelude.{◌≡◌, ◌<◌, ◌≤◌, ◌+◌, [], ℕ, Option, map, length, IfOk, OnOk, OnErr, None, Some, slice_get, if◌then◌else◌};
ghost use Rattle.resolvo_terms.specs.Terms.{AreOnce};
ghost use Rattle.resolvo_terms.specs.Found.{Key, IsPut, AreKeyed, key_eq, key_hash, keyed_number, number_if, number_in, number_of_slot, or_later, slot_at};

use crate::hash::mixed;
use crate::slots::{Slots, TRIES, first_place};
use std::alloc::{AllocError, Global};
use std::collections::BTreeMap;

/// The key of a value. It owns no memory, so that a look-up allocates nothing.
pub type Key = (u32, u32, u32, u32);

/// A value that is found by its key.
pub trait HasKey: Copy + Drop {
    ghost key_of: { Self → Key };

    fn key(&self) -> Key
        ensures { result ≡ key_of self.now };
}

/// Where values of a list are found by their keys.
pub struct KeyIndex {
    slots: Slots,
    /// Where those keys are whose places others have.
    others: BTreeMap<Key, u32>,
}

// split for the prover: one drop for each
impl Drop for KeyIndex {
    fn drop(self) {
        let KeyIndex {
            slots: _,
            others: _,
        } = self;
    }
}

impl KeyIndex {
    /// So many places, and no keys.
    pub fn new(alloc: Global, count: usize) -> Result<KeyIndex, AllocError>
        ensures { IfOk result (λ x. x.others.entries ≡ []) }
    {
        Ok(KeyIndex {
            slots: Slots::new(alloc, count)?,
            others: BTreeMap::new(alloc),
        })
    }

    /// The same keys at the same places.
    pub fn copy(&self, alloc: Global) -> Result<KeyIndex, AllocError>
        ensures slots { IfOk result (λ x. x.slots.numbers.items ≡ self.now.slots.numbers.items) }
        ensures others { IfOk result (λ x. x.others.entries ≡ self.now.others.entries) }
    {
        Ok(KeyIndex {
            slots: self.slots.copy(alloc)?,
            others: self.others.clone()?,
        })
    }

    /// The places of the keys of values, of which there are so many.
    pub fn of<T: HasKey>(alloc: Global, values: &[T], count: usize) -> Result<KeyIndex, AllocError>
        requires once { AreOnce (map T.key_of values.now) }
        requires few { length values.now < 4294967295 }
        ensures { IfOk result (λ x. AreKeyed (map T.key_of values.now) x) }
    {
        let mut index = KeyIndex::new(alloc, count)?;
        for at in 0..values.len() {
            index.put(key_at(values, at), at as u32)?;
        }
        Ok(index)
    }

    /// Makes room for one value more, so that few values share their places.
    #[tactic(auto, using(crate::proofs::KeyedLemmas::keys_once))]
    pub fn make_room<T: HasKey>(&mut self, alloc: Global, values: &[T]) -> Result<(), AllocError>
        requires { AreKeyed (map T.key_of values.now) self.old }
        ensures { AreKeyed (map T.key_of values.now) self.new }
    {
        if let Some(places) = self.slots.more_for(values.len()) {
            *self = KeyIndex::of(alloc, values, places)?;
        }
        Ok(())
    }

    /// Where the value of a key is, if it is there.
    pub fn find<T: HasKey>(&self, values: &[T], key: &Key) -> Option<u32>
        ensures { result ≡ keyed_number (map T.key_of values.now) self.now key.now }
    {
        let first = first_place(hash_of_key(key));
        for tried in 0..TRIES {
            if self.slots.is_free(first + tried) {
                return None;
            }
            if let Some(at) = self.number_at(values, key, first + tried) {
                return Some(at);
            }
        }
        self.others.get(key).copied()
    }

    /// What lies at a place that isn't free, if it is where the key's value is.
    #[tactic(auto, using(crate::proofs::IndexLemmas::slot_none, crate::proofs::IndexLemmas::slot_some))]
    fn number_at<T: HasKey>(&self, values: &[T], key: &Key, place: usize) -> Option<u32>
        requires { slot_at self.now.slots.numbers.items place ≡ Some 0 → ⊥ }
        ensures { (later : Option ℕ)
            → number_of_slot key_eq (map T.key_of values.now)
            (slot_at self.now.slots.numbers.items place) later key.now
            ≡ or_later result later }
    {
        let at = self.slots.number_at(place)?;
        if is_there(values, at, key) {
            Some(at)
        } else {
            None
        }
    }

    /// Puts where the value of a key is at its place.
    pub fn put(&mut self, key: Key, at: u32) -> Result<(), AllocError>
        requires { at < 4294967295 }
        ensures put { OnOk result
            (IsPut key_eq key (key_hash key) at self.old.slots.numbers.items
            self.new.slots.numbers.items (number_in self.old.others.entries)
            (number_in self.new.others.entries)) }
        ensures slots { OnErr result (self.new.slots ≡ self.old.slots) }
        ensures others { OnErr result (self.new.others.entries ≡ self.old.others.entries) }
    {
        let placed = self.slots.put(hash_of_key(&key), at);
        if placed {
            return Ok(());
        }
        self.put_other(key, at)?;
        Ok(())
    }

    /// The same for a key whose places others have.
    #[inline(never)]
    fn put_other(&mut self, key: Key, at: u32) -> Result<(), AllocError>
        ensures put { OnOk result
            ((k : Key)
            → number_in self.new.others.entries k
            ≡ (if key_eq key k then Some at else number_in self.old.others.entries k)) }
        ensures others { OnErr result (self.new.others.entries ≡ self.old.others.entries) }
        ensures slots { self.new.slots ≡ self.old.slots }
    {
        self.others.insert(key, at)?;
        Ok(())
    }
}

/// The key of a value.
fn key_at<T: HasKey>(values: &[T], at: usize) -> Key
    requires { at < length values.now }
    ensures { slice_get (map T.key_of values.now) at ≡ Some result }
{
    values[at].key()
}

/// A value, if there is one.
fn value_at<T: HasKey>(values: &[T], at: u32) -> Option<T>
    ensures { result ≡ slice_get values.now at }
{
    values.get(at as usize).copied()
}

/// Whether the value of a key is there.
fn is_there<T: HasKey>(values: &[T], at: u32, key: &Key) -> bool
    ensures { (later : Option ℕ)
        → number_if key_eq (slice_get (map T.key_of values.now) at) at later key.now
        ≡ (if result then Some at else later) }
{
    match value_at(values, at) {
        Some(value) => is_key(&value.key(), key),
        None => false,
    }
}

/// Whether two keys are one.
fn is_key(first: &Key, key: &Key) -> bool
    ensures { result ≡ key_eq first.now key.now }
{
    first.cmp(key).is_eq()
}

/// A hash of a key.
#[tactic(auto, unfolding(crate::specs::Found::key_hash))]
fn hash_of_key(key: &Key) -> usize
    ensures { result ≡ key_hash key.now }
{
    let hash = mixed(key.0 as usize, key.1 as usize);
    mixed(mixed(hash, key.2 as usize), key.3 as usize)
}
