//! Texts, each numbered once, in the order in which they are added. The model is the list of them.
//! A text is found at a place of its hash. Those whose places others have are in a sorted map. So no
//! choice of texts makes that slow. Used by `terms`.

ghost use Rattle.std.specs.Prelude.{◌≡◌, ◌≤◌, ◌<◌, ◌+◌, [], ℕ, List, Option, if◌then◌else◌, IfOk, IfSome, IsErrOf, IsTrue, OnOk, OnErr, length, slice_get, Some, None};
ghost use Rattle.resolvo_pool_core.specs.declared.want.Want.TheVariants.{Ids};
ghost use Rattle.std.specs.Option.{option_map};
ghost use Rattle.std.specs.Str.{IsUtf8, bytes_eq};
ghost use Rattle.resolvo_terms.specs.Terms.{AreOnce, Extends};
ghost use Rattle.resolvo_terms.specs.Known.{place_of};
ghost use Rattle.resolvo_terms.specs.Found.{AreTextsFound, IsPut, number_from, number_if, number_of_slot, or_later, place_from, list_number_in, tries, text_hash};

use crate::bytes::same_bytes;
use crate::hash::hash_of_all;
use crate::slots::{Slots, TRIES, first_place, is_free_slot, number_in_slot};
use crate::text_list::TextList;
use resolvo_pool_core::id::next_index;
use resolvo_pool_core::want::{R, Want};
use std::alloc::{AllocError, Global};
use std::collections::BTreeMap;
use std::marker::Model;

/// Where texts of a list are found.
struct TextIndex {
    slots: Slots,
    /// The numbers of the texts whose places others have.
    others: BTreeMap<Vec<u8>, u32>,
}

// split for the prover: one drop for each
impl Drop for TextIndex {
    fn drop(self) {
        let TextIndex {
            slots: _,
            others: _,
        } = self;
    }
}

/// Texts with their numbers.
pub struct TextIds {
    texts: TextList,
    index: TextIndex,
}

// split for the prover: one drop for each
impl Drop for TextIds {
    fn drop(self) {
        let TextIds { texts: _, index: _ } = self;
    }
}

impl Model for TextIds {
    ghost use Rattle.std.specs.Prelude.{List, ℕ, length};
    ghost use Rattle.resolvo_terms.specs.Found.{AreTextsFound};

    ghost Value = { List (List ℕ) };

    ghost view = { λ t. t.texts };

    ghost invariant = { λ t.
        AreTextsFound t.texts t.index.slots.numbers.items t.index.others.entries
        (length t.texts) };
}

impl TextIds {
    pub fn new(alloc: Global) -> Result<TextIds, AllocError>
        ensures { IfOk result (λ t. t ≡ []) }
    {
        Ok(TextIds {
            texts: TextList::new(alloc),
            index: TextIndex::new(alloc, 0)?,
        })
    }

    /// The same texts with the same numbers.
    pub fn copy(&self, alloc: Global) -> Result<TextIds, AllocError>
        ensures { IfOk result (λ t. t ≡ self.now) }
    {
        Ok(TextIds {
            texts: self.texts.copy(alloc)?,
            index: self.index.copy(alloc)?,
        })
    }

    /// Makes room for one text more, so that few texts share their places.
    fn make_room(&mut self, alloc: Global) -> Result<(), AllocError>
        ensures { self.new ≡ self.old }
    {
        if let Some(places) = self.index.slots.more_for(self.texts.len()) {
            self.index = TextIndex::of(alloc, &self.texts, places)?;
        }
        Ok(())
    }

    /// The number of a text, a new one where it has none.
    pub fn intern(&mut self, alloc: Global, text: &str) -> R<u32>
        ensures text { IfOk result (λ i. slice_get self.new i ≡ Some text.now) }
        ensures extends { Extends self.old self.new }
        ensures few { length self.new ≤ length self.old + 1 }
        ensures ids { IsErrOf result Ids → 4294967295 ≤ length self.new }
    {
        let bytes = text.as_bytes();
        let hash = hash_of_text(bytes);
        match self.find(bytes, hash) {
            Some(id) => Ok(id),
            None => self.add_new(alloc, bytes, hash),
        }
    }

    /// The number of a text of this hash, if it has one.
    pub fn find(&self, text: &[u8], hash: usize) -> Option<u32>
        requires { hash ≡ text_hash text.now }
        ensures found { IfSome result (λ i. slice_get self.now i ≡ Some text.now) }
        ensures absent { result ≡ None → (i : ℕ) → slice_get self.now i ≡ Some text.now → ⊥ }
    {
        self.index.number(&self.texts, text, hash)
    }

    /// Numbers a text of this hash that has no number.
    #[inline(never)]
    pub fn add_new(&mut self, alloc: Global, text: &[u8], hash: usize) -> R<u32>
        requires utf8 { IsUtf8 text.now }
        requires hash { hash ≡ text_hash text.now }
        requires absent { (i : ℕ) → slice_get self.old i ≡ Some text.now → ⊥ }
        ensures text { IfOk result (λ i. slice_get self.new i ≡ Some text.now) }
        ensures extends { Extends self.old self.new }
        ensures few { length self.new ≤ length self.old + 1 }
        ensures ids { IsErrOf result Ids → 4294967295 ≤ length self.new }
    {
        self.make_room(alloc)?;
        self.add(alloc, text, hash)
    }

    /// The same, where there is room.
    fn add(&mut self, alloc: Global, text: &[u8], hash: usize) -> R<u32>
        requires utf8 { IsUtf8 text.now }
        requires hash { hash ≡ text_hash text.now }
        requires absent { (i : ℕ) → slice_get self.old i ≡ Some text.now → ⊥ }
        // After an answer.
        ensures text { IfOk result (λ i. slice_get self.new i ≡ Some text.now) }
        // Whatever the answer.
        ensures extends { Extends self.old self.new }
        ensures few { length self.new ≤ length self.old + 1 }
        // After a refusal.
        ensures ids { IsErrOf result Ids → 4294967295 ≤ length self.new }
    {
        let index = next_index(self.texts.len())?;
        self.texts.push(text)?;
        match self.index.put(alloc, text, hash, index as u32) {
            Ok(()) => Ok(index as u32),
            Err(_) => {
                self.texts.pop();
                Err(Want::Memory)
            }
        }
    }

    /// How many texts there are.
    pub fn len(&self) -> usize
        ensures { result ≡ length self.now }
    {
        self.texts.len()
    }

    /// The number of a text as bytes, if it has one.
    pub fn number(&self, text: &[u8]) -> Option<u32>
        ensures found { IfSome result (λ i. slice_get self.now i ≡ Some text.now) }
        ensures place { result ≡ place_of self.now text.now }
    {
        self.index.number(&self.texts, text, hash_of_text(text))
    }

    /// Whether this is the text of a number.
    pub fn has(&self, id: u32, text: &[u8]) -> bool
        ensures { IsTrue result → slice_get self.now id ≡ Some text.now }
    {
        match self.texts.bytes_of(id as usize) {
            Some(bytes) => bytes == text,
            None => false,
        }
    }

    /// The text of a number.
    pub fn text(&self, id: u32) -> Option<&str>
        ensures { option_map (λ t. t.now) result ≡ slice_get self.now id }
    {
        self.texts.text(id as usize)
    }

    /// A text as bytes, if there is one of this number.
    pub fn bytes_of(&self, id: u32) -> Option<&[u8]>
        ensures { option_map (λ t. t.now) result ≡ slice_get self.now id }
    {
        self.texts.bytes_of(id as usize)
    }

    /// A law of each table: no text has two numbers. It does nothing.
    pub fn texts_are_once(&self)
        ensures { AreOnce self.now }
    {
        let _texts = &self.texts;
    }
}

impl TextIndex {
    /// So many places, and no texts.
    fn new(alloc: Global, count: usize) -> Result<TextIndex, AllocError>
        ensures { IfOk result
            (λ x. (texts : List (List ℕ))
            → AreTextsFound texts x.slots.numbers.items x.others.entries 0) }
    {
        Ok(TextIndex {
            slots: Slots::new(alloc, count)?,
            others: BTreeMap::new(alloc),
        })
    }

    /// The same texts at the same places.
    fn copy(&self, alloc: Global) -> Result<TextIndex, AllocError>
        ensures slots { IfOk result (λ x. x.slots.numbers.items ≡ self.now.slots.numbers.items) }
        ensures others { IfOk result
            (λ x.
            (text : List ℕ)
            → list_number_in x.others.entries text
            ≡ list_number_in self.now.others.entries text) }
    {
        Ok(TextIndex {
            slots: self.slots.copy(alloc)?,
            others: self.others.clone()?,
        })
    }

    /// The places of texts.
    fn of(alloc: Global, texts: &TextList, count: usize) -> Result<TextIndex, AllocError>
        requires once { AreOnce texts.now }
        requires few { length texts.now ≤ 4294967295 }
        ensures { IfOk result
            (λ x. AreTextsFound texts.now x.slots.numbers.items x.others.entries
            (length texts.now)) }
    {
        let mut index = TextIndex::new(alloc, count)?;
        for number in 0..texts.len() {
            let text = texts.at(number);
            index.put(alloc, text, hash_of_text(text), number as u32)?;
        }
        Ok(index)
    }

    /// The number of a text, if it has one. Most texts are at the first place of their hash.
    fn number(&self, texts: &TextList, text: &[u8], hash: usize) -> Option<u32>
        requires { hash ≡ text_hash text.now }
        ensures { result
            ≡ number_from bytes_eq texts.now self.now.slots.numbers.items
            (list_number_in self.now.others.entries text.now) tries
            (place_from (text_hash text.now)) text.now }
    {
        let first = first_place(hash);
        for tried in 0..TRIES {
            let slot = self.slots.slot(first + tried);
            if is_free_slot(slot) {
                return None;
            }
            if let Some(number) = number_in(slot, texts, text) {
                return Some(number);
            }
        }
        self.other(text)
    }

    /// The number of a text whose places others have, if it has one.
    #[inline(never)]
    fn other(&self, text: &[u8]) -> Option<u32>
        ensures { result ≡ list_number_in self.now.others.entries text.now }
    {
        self.others.get(text).copied()
    }

    /// Puts the number of a text at its place.
    fn put(
        &mut self,
        alloc: Global,
        text: &[u8],
        hash: usize,
        number: u32,
    ) -> Result<(), AllocError>
        requires hash { hash ≡ text_hash text.now }
        requires number { number < 4294967295 }
        ensures put { OnOk result
            (IsPut bytes_eq text.now (text_hash text.now) number self.old.slots.numbers.items
            self.new.slots.numbers.items (list_number_in self.old.others.entries)
            (list_number_in self.new.others.entries)) }
        ensures slots { OnErr result (self.new.slots ≡ self.old.slots) }
        ensures others { OnErr result (self.new.others.entries ≡ self.old.others.entries) }
    {
        let placed = self.slots.put(hash, number);
        if placed {
            return Ok(());
        }
        self.put_other(alloc, text, number)?;
        Ok(())
    }

    /// The same for a text whose places others have.
    #[inline(never)]
    fn put_other(&mut self, alloc: Global, text: &[u8], number: u32) -> Result<(), AllocError>
        ensures put { OnOk result
            ((t : List ℕ)
            → list_number_in self.new.others.entries t
            ≡ (if bytes_eq text.now t then Some number else list_number_in self.old.others.entries t)) }
        ensures others { OnErr result (self.new.others.entries ≡ self.old.others.entries) }
        ensures slots { self.new.slots ≡ self.old.slots }
    {
        self.others.insert(Vec::from_slice(alloc, text)?, number)?;
        Ok(())
    }
}

/// The number in a slot that isn't free, if it is that of the text.
#[inline(always)]
#[tactic(auto, using(crate::proofs::IndexLemmas::slot_none, crate::proofs::IndexLemmas::slot_some))]
fn number_in(slot: Option<u32>, texts: &TextList, text: &[u8]) -> Option<u32>
    requires { slot ≡ Some 0 → ⊥ }
    ensures { (later : Option ℕ)
        → number_of_slot bytes_eq texts.now slot later text.now ≡ or_later result later }
{
    let number = number_in_slot(slot)?;
    if is_text(texts, number, text) {
        Some(number)
    } else {
        None
    }
}

/// Whether a text is that of a number.
fn is_text(texts: &TextList, number: u32, text: &[u8]) -> bool
    ensures { (later : Option ℕ)
        → number_if bytes_eq (slice_get texts.now number) number later text.now
        ≡ (if result then Some number else later) }
{
    match texts.bytes_of(number as usize) {
        Some(found) => same_bytes(found, text),
        None => false,
    }
}

/// A hash of a text.
#[tactic(auto, unfolding(crate::specs::Found::text_hash))]
pub fn hash_of_text(text: &[u8]) -> usize
    ensures { result ≡ text_hash text.now }
{
    hash_of_all(text)
}
