//! Names of packages, each numbered once, in the order in which they are added. The model is the list
//! of them. The bytes of the first were looked at when they were added, so each of those is known to
//! spell a name: a word that is one of them needs no other look. Used by `terms`.

ghost use Rattle.std.specs.Prelude.{◌≡◌, ◌≤◌, ◌+◌, [], ℕ, List, IfOk, IfSome, IsErrOf, length, slice_get, Some, true};
ghost use Rattle.std.specs.Option.{option_map};
ghost use Rattle.resolvo_pool_core.specs.declared.want.Want.TheVariants.{Ids};
ghost use Rattle.resolvo_text.specs.Parse.{name_in};
ghost use Rattle.resolvo_text.specs.Spelling.{is_name};
ghost use Rattle.resolvo_terms.specs.Found.{text_hash};
ghost use Rattle.resolvo_terms.specs.Known.{place_of};
ghost use Rattle.resolvo_terms.specs.Names.{AreChecked};
ghost use Rattle.resolvo_terms.specs.Terms.{AreOnce, Extends};
ghost use Rattle.resolvo_terms.specs.Reads.{Reads};

use crate::text_ids::{TextIds, hash_of_text};
use resolvo_pool_core::want::R;
use resolvo_text::{LineFault, is_name};
use std::alloc::{AllocError, Global};
use std::marker::Model;

/// The names of packages.
pub struct Names {
    texts: TextIds,
    /// So many of the first texts are known to spell names.
    checked: usize,
    /// The number of the name that was listed last, or any number. A guess: who uses it looks at the
    /// name.
    last: u32,
}

// split for the prover: one drop
impl Drop for Names {
    fn drop(self) {
        let Names {
            texts: _,
            checked: _,
            last: _,
        } = self;
    }
}

impl Model for Names {
    ghost use Rattle.std.specs.Prelude.{List, ℕ};
    ghost use Rattle.resolvo_terms.specs.Names.{AreChecked};

    ghost Value = { List (List ℕ) };

    ghost view = { λ n. n.texts };

    ghost invariant = { λ n. AreChecked n.texts n.checked };
}

impl Names {
    pub fn new(alloc: Global) -> Result<Names, AllocError>
        ensures { IfOk result (λ n. n ≡ []) }
    {
        Ok(Names {
            texts: TextIds::new(alloc)?,
            checked: 0,
            last: 0,
        })
    }

    /// The same names with the same numbers.
    pub fn copy(&self, alloc: Global) -> Result<Names, AllocError>
        ensures { IfOk result (λ n. n ≡ self.now) }
    {
        Ok(Names {
            texts: self.texts.copy(alloc)?,
            checked: self.checked,
            last: self.last,
        })
    }

    /// The number of a name, a new one where it has none.
    pub fn intern(&mut self, alloc: Global, name: &str) -> R<u32>
        ensures text { IfOk result (λ i. slice_get self.new i ≡ Some name.now) }
        ensures extends { Extends self.old self.new }
        ensures few { length self.new ≤ length self.old + 1 }
        ensures ids { IsErrOf result Ids → 4294967295 ≤ length self.new }
    {
        let number = self.texts.intern(alloc, name)?;
        self.checked = checked_with(self.checked, number, name);
        Ok(number)
    }

    /// The number of a word that is known to spell a name.
    pub fn known(&self, word: &[u8]) -> Option<u32>
        ensures number { IfSome result (λ i. slice_get self.now i ≡ Some word.now) }
        ensures name { IfSome result (λ i. is_name word.now ≡ true) }
    {
        let number = self.texts.number(word)?;
        if (number as usize) < self.checked {
            Some(number)
        } else {
            None
        }
    }

    /// The number of the name that a word spells, a new one where it has none.
    pub fn read(&mut self, alloc: Global, word: &[u8]) -> Result<u32, LineFault>
        ensures name { Reads (λ i name. slice_get self.new i ≡ Some name) result (name_in word.now) }
        ensures extends { Extends self.old self.new }
        ensures few { length self.new ≤ length self.old + 1 }
    {
        let hash = hash_of_text(word);
        if let Some(number) = self.texts.find(word, hash) {
            return self.read_old(number, word);
        }
        self.read_new(alloc, word, hash)
    }

    /// The same for the name of a version. That of the last one is found without a search: a catalogue
    /// has the versions of a package side by side.
    pub fn read_listed(&mut self, alloc: Global, word: &[u8]) -> Result<u32, LineFault>
        ensures name { Reads (λ i name. slice_get self.new i ≡ Some name) result (name_in word.now) }
        ensures extends { Extends self.old self.new }
        ensures few { length self.new ≤ length self.old + 1 }
    {
        if self.texts.has(self.last, word) {
            return self.read_old(self.last, word);
        }
        let number = self.read(alloc, word)?;
        self.last = number;
        Ok(number)
    }

    /// The number of a word that has one, if it spells a name.
    fn read_old(&self, number: u32, word: &[u8]) -> Result<u32, LineFault>
        requires { slice_get self.now number ≡ Some word.now }
        ensures { Reads (λ i name. slice_get self.now i ≡ Some name) result (name_in word.now) }
    {
        if (number as usize) < self.checked {
            return Ok(number);
        }
        if is_name(word) {
            return Ok(number);
        }
        Err(LineFault::Fault)
    }

    /// The number of the name that a word spells, which has none.
    fn read_new(&mut self, alloc: Global, word: &[u8], hash: usize) -> Result<u32, LineFault>
        requires hash { hash ≡ text_hash word.now }
        requires absent { (i : ℕ) → slice_get self.old i ≡ Some word.now → ⊥ }
        ensures name { Reads (λ i name. slice_get self.new i ≡ Some name) result (name_in word.now) }
        ensures extends { Extends self.old self.new }
        ensures few { length self.new ≤ length self.old + 1 }
    {
        if !is_name(word) {
            return Err(LineFault::Fault);
        }
        let Ok(number) = self.texts.add_new(alloc, word, hash) else {
            return Err(LineFault::Memory);
        };
        if number as usize == self.checked {
            self.checked += 1;
        }
        Ok(number)
    }

    /// The number of a name, if it has one.
    pub fn number(&self, name: &str) -> Option<u32>
        ensures found { IfSome result (λ i. slice_get self.now i ≡ Some name.now) }
        ensures place { result ≡ place_of self.now name.now }
    {
        self.texts.number(name.as_bytes())
    }

    /// How many names there are.
    pub fn len(&self) -> usize
        ensures { result ≡ length self.now }
    {
        self.texts.len()
    }

    /// The name of a number.
    pub fn text(&self, id: u32) -> Option<&str>
        ensures { option_map (λ t. t.now) result ≡ slice_get self.now id }
    {
        self.texts.text(id)
    }

    /// A name as bytes, if there is one of this number.
    pub fn bytes_of(&self, id: u32) -> Option<&[u8]>
        ensures { option_map (λ t. t.now) result ≡ slice_get self.now id }
    {
        self.texts.bytes_of(id)
    }

    /// A law of each table: no name has two numbers. It does nothing.
    pub fn texts_are_once(&self)
        ensures { AreOnce self.now }
    {
        self.texts.texts_are_once()
    }
}

/// How many of the first texts are known to spell names, where so many are and this one was added.
fn checked_with(checked: usize, number: u32, name: &str) -> usize
    ensures { (texts : List (List ℕ))
        → AreChecked texts checked
        → slice_get texts number ≡ Some name.now
        → AreChecked texts result }
{
    if number as usize == checked && is_name(name.as_bytes()) {
        checked + 1
    } else {
        checked
    }
}
