//! The places of the encoded cases, in the order in which they were encoded, each once. A flag for
//! each place tells whether it is one.
ghost use Rattle.std.specs.Prelude.{◌≡◌, ◌==◌, ◌<◌, ◌∷◌, ◌++◌, ℕ, [], true, false, cond, length, slice_index_or, OnOk, OnErr, IsOkUnless, Contains};
ghost use Rattle.std.specs.Bool.{Decides};
ghost use Rattle.indexmap.specs.IndexSet.{insert_key};
ghost use Rattle.resolvo_pool_core.specs.declared.want.Want.TheVariants.{Memory};

use resolvo_pool_core::want::{R, Want};
use std::alloc::Global;
use std::marker::Model;

/// The places of the encoded cases.
#[derive(Drop)]
pub struct FiredCases {
    places: Vec<usize>,
    /// For each place whether its case is encoded. Those behind the end aren't.
    flags: Vec<bool>,
}

impl Model for FiredCases {
    ghost use Rattle.std.specs.Prelude.{ℕ};
    ghost use Rattle.resolvo_pool_core.specs.Ordered.{Ordered};
    ghost use Rattle.resolvo_encoder.specs.FiredCases.{AreFlagged};

    ghost Value = { Ordered ℕ };

    ghost view = { λ f. record { keys = f.places.items } };

    ghost invariant = { λ f. AreFlagged f.flags.items f.places.items };
}

impl FiredCases {
    /// No case.
    pub fn new(alloc: Global) -> FiredCases
        ensures { result.keys ≡ [] }
    {
        FiredCases {
            places: Vec::new(alloc),
            flags: Vec::new(alloc),
        }
    }

    /// The number of encoded cases.
    pub fn len(&self) -> usize
        ensures len { result ≡ length self.now.keys }
        ensures small { result < 18446744073709551616 }
    {
        self.places.len()
    }

    /// Whether the case at this place is encoded.
    pub fn contains(&self, place: usize) -> bool
        ensures { Decides result (Contains self.now.keys place) }
    {
        is_flagged(self.flags.as_slice(), place)
    }

    /// Marks the case at this place as encoded.
    pub fn insert(&mut self, place: usize) -> R<()>
        ensures added { OnOk result
            (self.new.keys ≡ insert_key (λ m n. m == n) self.old.keys place) }
        ensures refusal { IsOkUnless result Memory }
    {
        if self.contains(place) {
            return Ok(());
        }
        put(&mut self.places, &mut self.flags, place)?;
        Ok(())
    }
}

/// The flag at a place.
fn is_flagged(flags: &[bool], place: usize) -> bool
    ensures { result ≡ slice_index_or flags.now place false }
{
    place < flags.len() && flags[place]
}

/// Appends a place, and sets its flag.
fn put(places: &mut Vec<usize>, flags: &mut Vec<bool>, place: usize) -> R<()>
    ensures places { OnOk result (places.new.items ≡ places.old.items ++ place ∷ []) }
    ensures flags { OnOk result
        ((j : ℕ) → slice_index_or flags.new.items j false
        ≡ cond (j == place) true (slice_index_or flags.old.items j false)) }
    ensures err_places { OnErr result (places.new.items ≡ places.old.items) }
    ensures err_flags { OnErr result (flags.new.items ≡ flags.old.items) }
    ensures refusal { IsOkUnless result Memory }
{
    places.reserve(1)?;
    set_flag(flags, place)?;
    places.push_reserved(place);
    Ok(())
}

/// Sets the flag at a place.
fn set_flag(flags: &mut Vec<bool>, place: usize) -> R<()>
    ensures set { OnOk result
        ((j : ℕ) → slice_index_or flags.new.items j false
        ≡ cond (j == place) true (slice_index_or flags.old.items j false)) }
    ensures err { OnErr result (flags.new.items ≡ flags.old.items) }
    ensures refusal { IsOkUnless result Memory }
{
    if place == usize::MAX {
        return Err(Want::Memory);
    }
    if place == flags.len() {
        flags.push(true)?;
        return Ok(());
    }
    if place > flags.len() {
        flags.resize(place + 1, false)?;
    }
    flags[place] = true;
    Ok(())
}
