//! Values in the order in which they are added, each once. A value's place is its number, and it is
//! found by its key. Used by `terms`.

ghost use Rattle.std.specs.Prelude.{◌≡◌, ◌≤◌, ◌<◌, ◌++◌, ◌∷◌, [], ℕ, map, IfOk, IfSome, IsErrOf, OnOk, OnErr, length, slice_get, None, Some};
ghost use Rattle.resolvo_pool_core.specs.declared.want.Want.TheVariants.{Ids};
ghost use Rattle.resolvo_terms.specs.Found.{Key, AreKeyed, HasMore};

use crate::key_index::{HasKey, Key, KeyIndex};
use resolvo_pool_core::id::next_index;
use resolvo_pool_core::want::R;
use std::alloc::{AllocError, Global};

pub struct Numbered<T: HasKey> {
    pub(crate) values: Vec<T>,
    pub(crate) index: KeyIndex,
}

// split for the prover: one drop for each
impl<T: HasKey> Drop for Numbered<T> {
    fn drop(self) {
        let Numbered {
            values: _,
            index: _,
        } = self;
    }
}

impl<T: HasKey> Numbered<T> {
    /// No values.
    #[tactic(auto, using(crate::proofs::KeyedLemmas::keyed_new))]
    pub fn new(alloc: Global) -> Result<Numbered<T>, AllocError>
        ensures values { IfOk result (λ t. t.values.items ≡ []) }
        ensures keyed { IfOk result (λ t. AreKeyed (map T.key_of t.values.items) t.index) }
    {
        Ok(Numbered {
            values: Vec::new(alloc),
            index: KeyIndex::new(alloc, 0)?,
        })
    }

    /// The same values with the same numbers.
    pub fn copy(&self, alloc: Global) -> Result<Numbered<T>, AllocError>
        requires { AreKeyed (map T.key_of self.now.values.items) self.now.index }
        ensures values { IfOk result (λ t. t.values.items ≡ self.now.values.items) }
        ensures keyed { IfOk result (λ t. AreKeyed (map T.key_of t.values.items) t.index) }
    {
        let values = values_copied(alloc, &self.values)?;
        let index = self.index.copy(alloc)?;
        Ok(Numbered { values, index })
    }

    /// The number of a value, a new one where it has none.
    #[tactic(auto, using(crate::proofs::KeyedLemmas::more_same, crate::proofs::KeyedLemmas::more_one))]
    pub fn intern(&mut self, value: T) -> R<u32>
        requires keyed { AreKeyed (map T.key_of self.old.values.items) self.old.index }
        requires exact { (x y : T) → T.key_of x ≡ T.key_of y → x ≡ y }
        // After an answer.
        ensures value { IfOk result (λ i. slice_get self.new.values.items i ≡ Some value) }
        ensures more { OnOk result (HasMore self.old.values.items value self.new.values.items) }
        // After a refusal.
        ensures kept { OnErr result (self.new.values.items ≡ self.old.values.items) }
        ensures ids { IsErrOf result Ids → 4294967295 ≤ length self.new.values.items }
        // Whatever the answer.
        ensures keyed { AreKeyed (map T.key_of self.new.values.items) self.new.index }
    {
        let key = value.key();
        if let Some(id) = self.find(value, &key) {
            return Ok(id);
        }
        self.make_room()?;
        self.add(value, key)
    }

    /// Makes room for one value more.
    fn make_room(&mut self) -> Result<(), AllocError>
        requires { AreKeyed (map T.key_of self.old.values.items) self.old.index }
        ensures values { self.new.values ≡ self.old.values }
        ensures keyed { AreKeyed (map T.key_of self.old.values.items) self.new.index }
    {
        self.index.make_room(*self.values.allocator(), &self.values)
    }

    /// The number of a value, if it has one.
    #[inline(always)]
    pub fn find(&self, value: T, key: &Key) -> Option<u32>
        requires keyed { AreKeyed (map T.key_of self.now.values.items) self.now.index }
        requires exact { (x y : T) → T.key_of x ≡ T.key_of y → x ≡ y }
        requires key { key.now ≡ T.key_of value }
        ensures found { IfSome result (λ i. slice_get self.now.values.items i ≡ Some value) }
        ensures absent { result ≡ None
            → (i : ℕ)
            → slice_get (map T.key_of self.now.values.items) i ≡ Some key.now
            → ⊥ }
    {
        self.index.find(&self.values, key)
    }

    /// Appends a value that has no number.
    #[tactic(auto, using(crate::proofs::KeyedLemmas::keyed_refused))]
    fn add(&mut self, value: T, key: Key) -> R<u32>
        requires keyed { AreKeyed (map T.key_of self.old.values.items) self.old.index }
        requires key { key ≡ T.key_of value }
        requires absent { (i : ℕ)
            → slice_get (map T.key_of self.old.values.items) i ≡ Some key
            → ⊥ }
        // After an answer.
        ensures value { IfOk result (λ i. slice_get self.new.values.items i ≡ Some value) }
        ensures more { OnOk result (self.new.values.items ≡ self.old.values.items ++ value ∷ []) }
        // After a refusal.
        ensures kept { OnErr result (self.new.values.items ≡ self.old.values.items) }
        ensures ids { IsErrOf result Ids → 4294967295 ≤ length self.new.values.items }
        // Whatever the answer.
        ensures keyed { AreKeyed (map T.key_of self.new.values.items) self.new.index }
    {
        let index = next_index(self.values.len())?;
        self.values.reserve(1)?;
        self.index.put(key, index as u32)?;
        self.values.push_reserved(value);
        Ok(index as u32)
    }
}

/// The same values in a list of their own.
fn values_copied<T: HasKey>(alloc: Global, values: &[T]) -> Result<Vec<T>, AllocError>
    ensures { IfOk result (λ copy. copy.items ≡ values.now) }
{
    let mut copy = Vec::with_capacity(alloc, values.len())?;
    for value in values {
        copy.push(*value)?;
    }
    Ok(copy)
}
