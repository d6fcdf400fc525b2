//! Values in the order in which they were inserted, each once. One with an index is found by a
//! look-up in a list, any other by its hash.
ghost use Rattle.std.specs.Prelude.{◌≡◌, ℕ, ◌==◌, ◌+◌, ◌<◌, ◌∷◌, [], ◌++◌, None, length, cond, slice_get, slice_index_or, option_copied, OnErr, OnOk, IsOkUnless, Contains};
ghost use Rattle.std.specs.Bool.{Decides};
ghost use Rattle.std.specs.Map.{lookup};
ghost use Rattle.resolvo_pool_core.specs.declared.want.Want.TheVariants.{Memory};
ghost use Rattle.resolvo_pool_core.specs.Ordered.{IsPlace, less_one, number_of, SetsNumber, SetsPlace};

use crate::id::Exact;
use crate::want::{R, Want};
use std::alloc::Global;
use std::collections::HashMap;
use std::hash::Hash;
use std::marker::Model;

/// Values in the order in which they were inserted, each once.
#[derive(Drop)]
pub struct OrderedSet<K: Exact + Hash> {
    keys: Vec<K>,
    /// For each index one more than the place of its value, or 0.
    places: Vec<u32>,
    /// The places of the values without an index.
    others: HashMap<K, u32>,
}

impl<K: Exact + Hash> Model for OrderedSet<K> {
    ghost use Rattle.resolvo_pool_core.specs.Ordered.{Ordered, ArePlaced, number_of};

    ghost Value = { Ordered K };

    ghost view = { λ s. record { keys = s.keys.items } };

    ghost invariant = { λ s.
        ArePlaced (number_of K.indexed K.eq s.places.items s.others.entries) s.keys.items };
}

impl<K: Copy + Exact + Hash + Drop> OrderedSet<K> {
    /// No value.
    pub fn new(alloc: Global) -> OrderedSet<K>
        ensures { result.keys ≡ [] }
    {
        OrderedSet {
            keys: Vec::new(alloc),
            places: Vec::new(alloc),
            others: HashMap::new(alloc),
        }
    }

    /// The number of values.
    pub fn len(&self) -> usize
        ensures { result ≡ length self.now.keys }
    {
        self.keys.len()
    }

    /// The values, in order.
    pub fn as_slice(&self) -> &[K]
        ensures { result.now ≡ self.now.keys }
    {
        self.keys.as_slice()
    }

    /// The value at a place, if there is one.
    pub fn get_index(&self, place: usize) -> Option<&K>
        ensures { option_copied result ≡ slice_get self.now.keys place }
    {
        self.keys.get(place)
    }

    /// The place of a value, if it is here.
    pub fn place_of(&self, key: K) -> Option<usize>
        ensures { IsPlace self.now.keys key result }
    {
        number(self.places.as_slice(), &self.others, key)
    }

    /// Whether a value is here.
    pub fn contains(&self, key: K) -> bool
        ensures { Decides result (Contains self.now.keys key) }
    {
        self.place_of(key).is_some()
    }

    /// Appends a value that isn't here.
    pub fn push(&mut self, key: K) -> R<()>
        requires fresh { IsPlace self.old.keys key None }
        ensures pushed { OnOk result (self.new.keys ≡ self.old.keys ++ key ∷ []) }
        ensures refusal { IsOkUnless result Memory }
    {
        let place = self.keys.len();
        if place >= 4_294_967_295 {
            return Err(Want::Memory);
        }
        self.keys.reserve(1)?;
        set_number(&mut self.places, &mut self.others, key, place as u32)?;
        self.keys.push(key).unwrap();
        Ok(())
    }
}

/// The number of a value, if it has one.
fn number<K: Copy + Exact + Hash>(places: &[u32], others: &HashMap<K, u32>, key: K) -> Option<usize>
    ensures { result ≡ number_of K.indexed K.eq places.now others.now.entries key }
{
    match key.index() {
        Some(index) => number_at(places, index),
        None => number_by_hash(others, key),
    }
}

/// The number at an index, if there is one.
fn number_at(places: &[u32], index: u32) -> Option<usize>
    ensures { result ≡ less_one (slice_index_or places.now index 0) }
{
    let index = index as usize;
    if index < places.len() {
        (places[index] as usize).checked_sub(1)
    } else {
        None
    }
}

/// The number of a value by its hash, if it has one.
fn number_by_hash<K: Copy + Exact + Hash>(others: &HashMap<K, u32>, key: K) -> Option<usize>
    ensures { result ≡ lookup (K.eq key) others.now.entries }
{
    match others.get(&key) {
        Some(place) => Some(*place as usize),
        None => None,
    }
}

/// Gives a value a number.
fn set_number<K: Copy + Exact + Hash + Drop>(
    places: &mut Vec<u32>,
    others: &mut HashMap<K, u32>,
    key: K,
    place: u32,
) -> R<()>
    requires { place < 4294967295 }
    ensures set { OnOk result
        (SetsNumber key place (number_of K.indexed K.eq places.old.items others.old.entries)
        (number_of K.indexed K.eq places.new.items others.new.entries)) }
    ensures err { OnErr result
        ((k : K) → number_of K.indexed K.eq places.new.items others.new.entries k
        ≡ number_of K.indexed K.eq places.old.items others.old.entries k) }
    ensures refusal { IsOkUnless result Memory }
{
    match key.index() {
        Some(index) => {
            set_number_at(places, index, place)?;
            Ok(())
        }
        None => {
            set_number_by_hash(others, key, place)?;
            Ok(())
        }
    }
}

/// Sets the number at an index.
fn set_number_at(places: &mut Vec<u32>, index: u32, place: u32) -> R<()>
    requires { place < 4294967295 }
    ensures set { OnOk result
        ((j : ℕ) → slice_index_or places.new.items j 0
        ≡ cond (j == index) (place + 1) (slice_index_or places.old.items j 0)) }
    ensures err { OnErr result (places.new.items ≡ places.old.items) }
    ensures refusal { IsOkUnless result Memory }
{
    let index = index as usize;
    if index == places.len() {
        places.push(place + 1)?;
        return Ok(());
    }
    if index > places.len() {
        places.resize(index + 1, 0)?;
    }
    places[index] = place + 1;
    Ok(())
}

/// Sets the number of a value by its hash.
fn set_number_by_hash<K: Copy + Exact + Hash + Drop>(
    others: &mut HashMap<K, u32>,
    key: K,
    place: u32,
) -> R<()>
    ensures set { OnOk result (SetsPlace K.eq key place others.old.entries others.new.entries) }
    ensures err { OnErr result (others.new.entries ≡ others.old.entries) }
    ensures refusal { IsOkUnless result Memory }
{
    others.insert(key, place)?;
    Ok(())
}
