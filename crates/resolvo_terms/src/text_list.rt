//! Texts in one list of bytes, in the order in which they are added. The model is the list of them.
//! None has memory of its own. Used by `text_ids`.

ghost use Rattle.std.specs.Prelude.{◌≡◌, ◌<◌, ◌-◌, ◌∷◌, ◌++◌, [], IfOk, OnOk, OnErr, length, slice_get, take, Some};
ghost use Rattle.std.specs.Option.{option_map};
ghost use Rattle.std.specs.Str.{IsUtf8};

use crate::place::place_of;
use std::alloc::{AllocError, Global};
use std::marker::Model;

/// Where a text lies among the bytes.
#[derive(Clone, Copy, Debug)]
pub struct Bounds {
    begin: u32,
    end: u32,
}

/// A list of texts.
pub struct TextList {
    bytes: Vec<u8>,
    bounds: Vec<Bounds>,
}

// split for the prover: one drop for each
impl Drop for TextList {
    fn drop(self) {
        let TextList {
            bytes: _,
            bounds: _,
        } = self;
    }
}

impl Model for TextList {
    ghost use Rattle.std.specs.Prelude.{List, ℕ, map};
    ghost use Rattle.resolvo_terms.specs.Texts.{AreTexts, text_between};

    ghost Value = { List (List ℕ) };

    ghost view = { λ t. map (text_between t.bytes.items) t.bounds.items };

    ghost invariant = { λ t. AreTexts t.bytes.items t.bounds.items };
}

impl TextList {
    pub fn new(alloc: Global) -> TextList
        ensures { result ≡ [] }
    {
        TextList {
            bytes: Vec::new(alloc),
            bounds: Vec::new(alloc),
        }
    }

    /// The same texts.
    pub fn copy(&self, alloc: Global) -> Result<TextList, AllocError>
        ensures { IfOk result (λ t. t ≡ self.now) }
    {
        Ok(TextList {
            bytes: Vec::from_slice(alloc, &self.bytes)?,
            bounds: Vec::from_slice(alloc, &self.bounds)?,
        })
    }

    pub fn len(&self) -> usize
        ensures { result ≡ length self.now }
    {
        self.bounds.len()
    }

    /// The bytes of a text.
    pub fn at(&self, number: usize) -> &[u8]
        requires { number < length self.now }
        ensures text { slice_get self.now number ≡ Some result.now }
        ensures utf8 { IsUtf8 result.now }
    {
        let bounds = self.bounds[number];
        &self.bytes[bounds.begin as usize..bounds.end as usize]
    }

    /// A text as bytes, if there is one of this number.
    pub fn bytes_of(&self, number: usize) -> Option<&[u8]>
        ensures { option_map (λ t. t.now) result ≡ slice_get self.now number }
    {
        if number < self.len() {
            Some(self.at(number))
        } else {
            None
        }
    }

    /// A text, if there is one of this number.
    pub fn text(&self, number: usize) -> Option<&str>
        ensures { option_map (λ t. t.now) result ≡ slice_get self.now number }
    {
        if number < self.len() {
            std::str::from_utf8(self.at(number)).ok()
        } else {
            None
        }
    }

    /// Adds a text, given as bytes.
    pub fn push(&mut self, text: &[u8]) -> Result<(), AllocError>
        requires { IsUtf8 text.now }
        ensures added { OnOk result (self.new ≡ self.old ++ text.now ∷ []) }
        ensures same { OnErr result (self.new ≡ self.old) }
    {
        let begin = self.bytes.len();
        let end = place_of(begin + text.len())?;
        self.bounds.reserve(1)?;
        self.bytes.extend_from_slice(text)?;
        self.bounds.push_reserved(Bounds {
            begin: begin as u32,
            end,
        });
        Ok(())
    }

    /// Takes the last text away.
    pub fn pop(&mut self)
        ensures { self.new ≡ take (length self.old - 1) self.old }
    {
        self.bounds.pop();
    }
}
