//! Keys of a wide range. A key gets the next number when it first wants one, so what few keys have
//! is kept in a short list. Used by `package_lines`.

ghost use Rattle.std.specs.Prelude.{◌≡◌, ℕ, ◌+◌, None, Some, IfOk, OnOk};
ghost use Rattle.resolve_order.specs.Keys.{before, number_of, places_of, AreKeys};

use crate::key_places::KeyPlaces;
use std::alloc::{AllocError, Global};

/// The numbers of the keys that have one.
#[derive(Drop)]
pub struct KeyNumbers {
    alloc: Global,
    /// Of each key one more than its number; 0 where it has none.
    places: KeyPlaces,
    /// How many keys have a number.
    count: u32,
    ghost keys: { AreKeys (places_of places) count },
}

/// The number before this one, if there is one.
fn before(place: u32) -> Option<u32>
    ensures { result ≡ before place }
{
    if place == 0 {
        return None;
    }
    Some(place - 1)
}

/// The number behind this one. There are fewer than 2^32, and one more is refused as for want of
/// memory.
fn next(number: u32) -> Result<u32, AllocError>
    ensures { IfOk result (λ next. next ≡ number + 1) }
{
    if number == 4_294_967_295 {
        return Err(AllocError);
    }
    Ok(number + 1)
}

impl KeyNumbers {
    pub fn new(alloc: Global) -> KeyNumbers
        ensures { (k : ℕ) → number_of (places_of result.places) k ≡ None }
    {
        KeyNumbers {
            alloc,
            places: KeyPlaces::new(alloc),
            count: 0,
        }
    }

    /// The number of a key, if it has one.
    pub fn find(&self, key: u32) -> Option<u32>
        ensures { result ≡ number_of (places_of self.now.places) key }
    {
        before(self.places.get(key))
    }

    /// Gives a key the next number.
    fn add(&mut self, key: u32) -> Result<u32, AllocError>
        requires { number_of (places_of self.old.places) key ≡ None }
        ensures here { IfOk result (λ n. number_of (places_of self.new.places) key ≡ Some n) }
        ensures others { OnOk result
            ((k : ℕ)
            → (key ≡ k → ⊥)
            → number_of (places_of self.new.places) k ≡ number_of (places_of self.old.places) k) }
    {
        let number = self.count;
        let count = next(number)?;
        self.places.put(self.alloc, key, count)?;
        self.count = count;
        Ok(number)
    }

    /// The number of a key, which it gets where it has none.
    pub fn put(&mut self, key: u32) -> Result<u32, AllocError>
        ensures here { IfOk result (λ n. number_of (places_of self.new.places) key ≡ Some n) }
        ensures known { OnOk result
            ((n : ℕ)
            → number_of (places_of self.old.places) key ≡ Some n
            → number_of (places_of self.new.places) key ≡ Some n) }
        ensures others { OnOk result
            ((k : ℕ)
            → (key ≡ k → ⊥)
            → number_of (places_of self.new.places) k ≡ number_of (places_of self.old.places) k) }
    {
        match self.find(key) {
            Some(number) => Ok(number),
            None => self.add(key),
        }
    }
}
