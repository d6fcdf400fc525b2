//! Places of numbers, found by hashes. A hash has a few places, one after the other, so a look-up is
//! short whatever the values are. Whoever finds a number there compares its value. Used by
//! `text_ids`, `key_index` and `unions`.

ghost use Rattle.std.specs.Prelude.{◌≡◌, ◌<◌, false, replicate, is_some, IfOk, IfSome, IsTrue, Some, slice_get};
ghost use Rattle.resolvo_terms.specs.Found.{free_of, number_in_slot, place_among, place_from, slot_at, slots_after};

use std::alloc::{AllocError, Global};

/// How many places each hash has.
pub const TRIES: usize = 8;

/// How many places there are at first.
const FEW: usize = 16;

/// So many numbers or more get no more places.
const MANY: usize = 1 << 31;

/// What lies at each place: 0 if it is free, else one more than a number.
#[derive(Drop)]
pub struct Slots {
    pub(crate) numbers: Vec<u32>,
}

impl Slots {
    /// So many free places. The count is 0 or a power of two.
    pub fn new(alloc: Global, count: usize) -> Result<Slots, AllocError>
        ensures { IfOk result (λ s. s.numbers.items ≡ replicate count 0) }
    {
        Ok(Slots {
            numbers: vec![in alloc; 0; count]?,
        })
    }

    /// The same numbers at the same places.
    pub fn copy(&self, alloc: Global) -> Result<Slots, AllocError>
        ensures { IfOk result (λ s. s.numbers.items ≡ self.now.numbers.items) }
    {
        Ok(Slots {
            numbers: Vec::from_slice(alloc, &self.numbers)?,
        })
    }

    /// How many places there should be for more than so many numbers, if these are too few.
    pub fn more_for(&self, count: usize) -> Option<usize>
        ensures { IfSome result (λ places. count < 4294967295) }
    {
        let places = self.numbers.len();
        if count < places / 2 || count >= MANY {
            return None;
        }
        Some(places.saturating_mul(2).max(FEW))
    }

    /// What lies at a place, if there is one.
    pub fn slot(&self, place: usize) -> Option<u32>
        ensures { result ≡ slot_at self.now.numbers.items place }
    {
        self.numbers
            .get(place_among(self.numbers.len(), place))
            .copied()
    }

    /// Whether there is a place, and it is free.
    pub fn is_free(&self, place: usize) -> bool
        ensures free { IsTrue result → slot_at self.now.numbers.items place ≡ Some 0 }
        ensures taken { result ≡ false → slot_at self.now.numbers.items place ≡ Some 0 → ⊥ }
    {
        is_free_slot(self.slot(place))
    }

    /// The number that lies at a place.
    pub fn number_at(&self, place: usize) -> Option<u32>
        ensures { result ≡ number_in_slot (slot_at self.now.numbers.items place) }
    {
        number_in_slot(self.slot(place))
    }

    /// The first free place of a hash.
    fn free_of(&self, hash: usize) -> Option<usize>
        ensures first { result ≡ free_of self.now.numbers.items hash }
        ensures free { IfSome result (λ place. slice_get self.now.numbers.items place ≡ Some 0) }
    {
        let first = first_place(hash);
        for tried in 0..TRIES {
            if self.is_free(first + tried) {
                return Some(place_among(self.numbers.len(), first + tried));
            }
        }
        None
    }

    /// Puts a number at the first free place of a hash, if there is one.
    pub fn put(&mut self, hash: usize, number: u32) -> bool
        requires { number < 4294967295 }
        ensures put { result ≡ is_some (free_of self.old.numbers.items hash) }
        ensures slots { self.new.numbers.items
            ≡ slots_after (free_of self.old.numbers.items hash) self.old.numbers.items number }
        ensures kept { result ≡ false → self.new ≡ self.old }
    {
        match self.free_of(hash) {
            Some(place) => {
                self.numbers[place] = number + 1;
                true
            }
            None => false,
        }
    }
}

/// The number in what lies at a place.
#[tactic(auto, using(crate::proofs::IndexLemmas::slot_zero, crate::proofs::IndexLemmas::slot_next))]
pub fn number_in_slot(slot: Option<u32>) -> Option<u32>
    ensures { result ≡ number_in_slot slot }
{
    match slot {
        None => None,
        Some(next) => { if next == 0 { None } else { Some(next - 1) } }
    }
}

/// Whether there is a place, and it is free.
pub fn is_free_slot(slot: Option<u32>) -> bool
    ensures free { IsTrue result → slot ≡ Some 0 }
    ensures taken { result ≡ false → slot ≡ Some 0 → ⊥ }
{
    match slot {
        Some(0) => true,
        _ => false,
    }
}

/// The first place of a hash.
pub fn first_place(hash: usize) -> usize
    ensures place { result ≡ place_from hash }
    ensures bound { result < 4294967296 }
{
    hash % 4_294_967_296
}

/// A place among so many, which are a power of two.
fn place_among(count: usize, place: usize) -> usize
    ensures { result ≡ place_among count place }
{
    place & count.saturating_sub(1)
}
