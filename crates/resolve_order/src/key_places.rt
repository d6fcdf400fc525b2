//! A number for each key, 0 where none was put: in two bytes each while none needs more. Used by
//! `key_numbers`.

ghost use Rattle.std.specs.Prelude.{◌≡◌, ℕ, ◌==◌, [], if◌then◌else◌, true, IfOk, OnErr, OnOk, slice_index_or};
ghost use Rattle.resolve_order.specs.Keys.{places_of, is_wide};

use std::alloc::{AllocError, Global};

/// A number for each key. The last keys may have no place.
#[derive(Drop)]
pub enum KeyPlaces {
    Narrow(Vec<u16>),
    Wide(Vec<u32>),
}

/// The number of a key, or this one.
fn number_at<N: Copy>(numbers: &[N], key: u32, none: N) -> N
    ensures { result ≡ slice_index_or numbers.now key none }
{
    match numbers.get(key as usize) {
        Some(number) => *number,
        None => none,
    }
}

/// Puts a number into the place of a key. Keys that get a place for it have this one.
fn put_at<N: Copy>(numbers: &mut Vec<N>, key: u32, number: N, none: N) -> Result<(), AllocError>
    ensures put { OnOk result
        ((k : ℕ)
        → slice_index_or numbers.new.items k none
        ≡ (if key == k then number else slice_index_or numbers.old.items k none)) }
    ensures err { OnErr result (numbers.new.items ≡ numbers.old.items) }
{
    let place = key as usize;
    if place == numbers.len() {
        numbers.push(number)?;
        return Ok(());
    }
    if place > numbers.len() {
        numbers.resize(place + 1, none)?;
    }
    numbers[place] = number;
    Ok(())
}

/// The same numbers with room for longer ones.
fn widened(alloc: Global, narrow: &[u16]) -> Result<Vec<u32>, AllocError>
    ensures { IfOk result (λ wide. wide.items ≡ narrow.now) }
{
    let mut wide = Vec::with_capacity(alloc, narrow.len())?;
    for place in 0..narrow.len() {
        wide.push(u32::from(narrow[place]))?;
    }
    Ok(wide)
}

impl KeyPlaces {
    pub fn new(alloc: Global) -> KeyPlaces
        ensures { places_of result ≡ [] }
    {
        KeyPlaces::Narrow(Vec::new(alloc))
    }

    /// The number of a key.
    pub fn get(&self, key: u32) -> u32
        ensures { result ≡ slice_index_or (places_of self.now) key 0 }
    {
        match self {
            KeyPlaces::Narrow(numbers) => u32::from(number_at(numbers, key, 0)),
            KeyPlaces::Wide(numbers) => number_at(numbers, key, 0),
        }
    }

    /// Makes room for long numbers.
    fn widen(&mut self, alloc: Global) -> Result<(), AllocError>
        ensures same { places_of self.new ≡ places_of self.old }
        ensures wide { OnOk result (is_wide self.new ≡ true) }
    {
        if let KeyPlaces::Narrow(numbers) = self {
            *self = KeyPlaces::Wide(widened(alloc, numbers)?);
        }
        Ok(())
    }

    /// Puts a number into the place of a key.
    pub fn put(&mut self, alloc: Global, key: u32, number: u32) -> Result<(), AllocError>
        ensures put { OnOk result
            ((k : ℕ)
            → slice_index_or (places_of self.new) k 0
            ≡ (if key == k then number else slice_index_or (places_of self.old) k 0)) }
        ensures err { OnErr result (places_of self.new ≡ places_of self.old) }
    {
        if number > 65_535 {
            self.widen(alloc)?;
        }
        match self {
            KeyPlaces::Narrow(numbers) => put_at(numbers, key, number as u16, 0),
            KeyPlaces::Wide(numbers) => put_at(numbers, key, number, 0),
        }
    }
}
