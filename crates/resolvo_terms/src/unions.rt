//! Lists of alternatives, each numbered once, in the order in which they are added. The model is the
//! list of them. A list is found at a place of its hash. Those whose places others have are in a
//! sorted map. So no choice of lists makes that slow. Used by `terms`.

ghost use Rattle.std.specs.Prelude.{◌≡◌, ◌≤◌, ◌<◌, ◌++◌, ◌∷◌, [], ℕ, List, Option, if◌then◌else◌, IfOk, IfSome, IsErrOf, OnOk, OnErr, length, slice_get, Some, None};
ghost use Rattle.resolvo_pool_core.specs.declared.want.Want.TheVariants.{Ids};
ghost use Rattle.resolvo_pool_core.specs.declared.id.VersionSetId.{VersionSetId};
ghost use Rattle.std.specs.Option.{option_map};
ghost use Rattle.resolvo_terms.specs.Terms.{AreOnce};
ghost use Rattle.resolvo_terms.specs.Found.{HasMore, IsPut, list_number_in, number_from, number_if, number_of_slot, or_later, place_from, slot_at, tries};
ghost use Rattle.resolvo_terms.specs.Lists.{AreListsFound, list_eq, list_hash, map_number, set_numbers};

use crate::hash::mixed;
use crate::set_lists::SetLists;
use crate::slots::{Slots, TRIES, first_place};
use resolvo_pool_core::id::{VersionSetId, next_index};
use resolvo_pool_core::want::{R, Want};
use std::alloc::{AllocError, Global};
use std::collections::BTreeMap;
use std::marker::Model;

/// Where lists are found.
struct ListIndex {
    slots: Slots,
    /// The numbers of the lists whose places others have.
    others: BTreeMap<Vec<u32>, u32>,
}

// split for the prover: one drop for each
impl Drop for ListIndex {
    fn drop(self) {
        let ListIndex {
            slots: _,
            others: _,
        } = self;
    }
}

/// The lists of alternatives of the terms.
pub struct Unions {
    lists: SetLists,
    index: ListIndex,
}

// split for the prover: one drop for each
impl Drop for Unions {
    fn drop(self) {
        let Unions { lists: _, index: _ } = self;
    }
}

impl Model for Unions {
    ghost use Rattle.std.specs.Prelude.{List, length};
    ghost use Rattle.resolvo_pool_core.specs.declared.id.VersionSetId.{VersionSetId};
    ghost use Rattle.resolvo_terms.specs.Lists.{AreListsFound};

    ghost Value = { List (List VersionSetId) };

    ghost view = { λ t. t.lists };

    ghost invariant = { λ t.
        AreListsFound t.lists t.index.slots.numbers.items t.index.others.entries
        (length t.lists) };
}

impl Unions {
    pub fn new(alloc: Global) -> Result<Unions, AllocError>
        ensures { IfOk result (λ t. t ≡ []) }
    {
        Ok(Unions {
            lists: SetLists::new(alloc),
            index: ListIndex::new(alloc, 0)?,
        })
    }

    /// The same lists with the same numbers.
    pub fn copy(&self, alloc: Global) -> Result<Unions, AllocError>
        ensures { IfOk result (λ t. t ≡ self.now) }
    {
        Ok(Unions {
            lists: self.lists.copy(alloc)?,
            index: self.index.copy(alloc)?,
        })
    }

    /// A list, if there is one of this number.
    pub fn get(&self, number: usize) -> Option<&[VersionSetId]>
        ensures { option_map (λ t. t.now) result ≡ slice_get self.now number }
    {
        self.lists.get(number)
    }

    /// The number of a list, a new one where it has none.
    #[tactic(auto, using(crate::proofs::KeyedLemmas::more_same, crate::proofs::KeyedLemmas::more_one))]
    pub fn intern(&mut self, alloc: Global, list: &[VersionSetId]) -> R<u32>
        ensures list { IfOk result (λ i. slice_get self.new i ≡ Some list.now) }
        ensures more { OnOk result (HasMore self.old list.now self.new) }
        ensures kept { OnErr result (self.new ≡ self.old) }
        ensures ids { IsErrOf result Ids → 4294967295 ≤ length self.new }
    {
        let hash = hash_of_list(list);
        match self.find(alloc, list, hash)? {
            Some(id) => Ok(id),
            None => {
                self.make_room(alloc)?;
                self.add(alloc, list, hash)
            }
        }
    }

    /// The number of a list, if it has one.
    fn find(
        &self,
        alloc: Global,
        list: &[VersionSetId],
        hash: usize,
    ) -> Result<Option<u32>, AllocError>
        requires { hash ≡ list_hash list.now }
        ensures found { IfOk result
            (λ id. IfSome id (λ i. slice_get self.now i ≡ Some list.now)) }
        ensures absent { IfOk result
            (λ id. id ≡ None → (i : ℕ) → slice_get self.now i ≡ Some list.now → ⊥) }
    {
        let id = self.index.number(alloc, &self.lists, list, hash)?;
        Ok(id)
    }

    /// Makes room for one list more, so that few lists share their places.
    fn make_room(&mut self, alloc: Global) -> Result<(), AllocError>
        ensures { self.new ≡ self.old }
    {
        if let Some(places) = self.index.slots.more_for(self.lists.len()) {
            self.index = ListIndex::of(alloc, &self.lists, places)?;
        }
        Ok(())
    }

    /// Numbers a list that has no number.
    fn add(&mut self, alloc: Global, list: &[VersionSetId], hash: usize) -> R<u32>
        requires hash { hash ≡ list_hash list.now }
        requires absent { (i : ℕ) → slice_get self.old i ≡ Some list.now → ⊥ }
        // After an answer.
        ensures list { IfOk result (λ i. slice_get self.new i ≡ Some list.now) }
        ensures more { OnOk result (self.new ≡ self.old ++ list.now ∷ []) }
        // After a refusal.
        ensures kept { OnErr result (self.new ≡ self.old) }
        ensures ids { IsErrOf result Ids → 4294967295 ≤ length self.new }
    {
        let index = next_index(self.lists.len())?;
        self.lists.push(list)?;
        match self.index.put(alloc, list, hash, index as u32) {
            Ok(()) => Ok(index as u32),
            Err(_) => {
                self.lists.pop();
                Err(Want::Memory)
            }
        }
    }

    /// A law of each table: no list has two numbers. It does nothing.
    pub fn lists_are_once(&self)
        ensures { AreOnce self.now }
    {
        let _lists = &self.lists;
    }
}

impl ListIndex {
    /// So many places, and no lists.
    fn new(alloc: Global, count: usize) -> Result<ListIndex, AllocError>
        ensures { IfOk result
            (λ x. (lists : List (List VersionSetId))
            → AreListsFound lists x.slots.numbers.items x.others.entries 0) }
    {
        Ok(ListIndex {
            slots: Slots::new(alloc, count)?,
            others: BTreeMap::new(alloc),
        })
    }

    /// The same lists at the same places.
    fn copy(&self, alloc: Global) -> Result<ListIndex, AllocError>
        ensures slots { IfOk result (λ x. x.slots.numbers.items ≡ self.now.slots.numbers.items) }
        ensures others { IfOk result
            (λ x.
            (key : List ℕ)
            → list_number_in x.others.entries key
            ≡ list_number_in self.now.others.entries key) }
    {
        Ok(ListIndex {
            slots: self.slots.copy(alloc)?,
            others: self.others.clone()?,
        })
    }

    /// The places of lists, of which there are so many.
    fn of(alloc: Global, lists: &SetLists, count: usize) -> Result<ListIndex, AllocError>
        requires once { AreOnce lists.now }
        requires few { length lists.now ≤ 4294967295 }
        ensures { IfOk result
            (λ x. AreListsFound lists.now x.slots.numbers.items x.others.entries
            (length lists.now)) }
    {
        let mut index = ListIndex::new(alloc, count)?;
        for number in 0..lists.len() {
            let list = lists.at(number);
            index.put(alloc, list, hash_of_list(list), number as u32)?;
        }
        Ok(index)
    }

    /// The number of a list, if it has one.
    fn number(
        &self,
        alloc: Global,
        lists: &SetLists,
        list: &[VersionSetId],
        hash: usize,
    ) -> Result<Option<u32>, AllocError>
        requires { hash ≡ list_hash list.now }
        ensures { IfOk result
            (λ found. found
            ≡ number_from list_eq lists.now self.now.slots.numbers.items
            (map_number self.now.others.entries list.now) tries
            (place_from (list_hash list.now)) list.now) }
    {
        let first = first_place(hash);
        for tried in 0..TRIES {
            if self.slots.is_free(first + tried) {
                return Ok(None);
            }
            if let Some(number) = self.number_at(lists, list, first + tried) {
                return Ok(Some(number));
            }
        }
        let key = key_of_list(alloc, list)?;
        Ok(self.others.get(key.as_slice()).copied())
    }

    /// The number at a place that isn't free, if it is that of the list.
    #[tactic(auto, using(crate::proofs::IndexLemmas::slot_none, crate::proofs::IndexLemmas::slot_some))]
    fn number_at(&self, lists: &SetLists, list: &[VersionSetId], place: usize) -> Option<u32>
        requires { slot_at self.now.slots.numbers.items place ≡ Some 0 → ⊥ }
        ensures { (later : Option ℕ)
            → number_of_slot list_eq lists.now
            (slot_at self.now.slots.numbers.items place) later list.now
            ≡ or_later result later }
    {
        let number = self.slots.number_at(place)?;
        if is_list(lists, number, list) {
            Some(number)
        } else {
            None
        }
    }

    /// Puts the number of a list at its place.
    fn put(
        &mut self,
        alloc: Global,
        list: &[VersionSetId],
        hash: usize,
        number: u32,
    ) -> Result<(), AllocError>
        requires hash { hash ≡ list_hash list.now }
        requires number { number < 4294967295 }
        ensures put { OnOk result
            (IsPut list_eq list.now (list_hash list.now) number self.old.slots.numbers.items
            self.new.slots.numbers.items (map_number self.old.others.entries)
            (map_number self.new.others.entries)) }
        ensures slots { OnErr result (self.new.slots ≡ self.old.slots) }
        ensures others { OnErr result (self.new.others.entries ≡ self.old.others.entries) }
    {
        let placed = self.slots.put(hash, number);
        if placed {
            return Ok(());
        }
        self.others.insert(key_of_list(alloc, list)?, number)?;
        Ok(())
    }
}

/// Whether a list is that of a number.
fn is_list(lists: &SetLists, number: u32, list: &[VersionSetId]) -> bool
    ensures { (later : Option ℕ)
        → number_if list_eq (slice_get lists.now number) number later list.now
        ≡ (if result then Some number else later) }
{
    match lists.get(number as usize) {
        Some(found) => are_equal(found, list),
        None => false,
    }
}

/// Whether two lists are one.
#[tactic(auto, using(crate::proofs::ListLemmas::eq_by_numbers))]
fn are_equal(first: &[VersionSetId], list: &[VersionSetId]) -> bool
    ensures { result ≡ list_eq first.now list.now }
{
    first == list
}

/// A hash of a list.
#[tactic(auto, unfolding(crate::specs::Lists::list_hash))]
fn hash_of_list(list: &[VersionSetId]) -> usize
    ensures { result ≡ list_hash list.now }
{
    let mut hash = 0;
    for member in list {
        hash = mixed(hash, member.0 as usize);
    }
    hash
}

/// The numbers of the version sets of a list.
fn key_of_list(alloc: Global, list: &[VersionSetId]) -> Result<Vec<u32>, AllocError>
    ensures { IfOk result (λ key. key.items ≡ set_numbers list.now) }
{
    let mut key = Vec::with_capacity(alloc, list.len())?;
    for member in list {
        key.push(member.0)?;
    }
    Ok(key)
}
