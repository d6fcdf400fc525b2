//! The alternatives of a need. Most needs have one, which takes no list of its own.
//!
//! The model is the list of the SPECs, `list_of`. Made by the parser of a line; kept by the readers
//! of whole texts.

ghost use Rattle.std.specs.Prelude.{◌≡◌, length, IfOk};
ghost use Rattle.resolvo_text.specs.View.{list_of};

use crate::spec::Spec;
use std::alloc::{AllocError, Global};
use std::array;

/// One SPEC, or a list of them.
#[derive(Debug, Drop)]
pub enum Alternatives {
    One(Spec),
    Several(Vec<Spec>),
}

impl Alternatives {
    pub fn as_slice(&self) -> &[Spec]
        ensures { result.now ≡ list_of self.now }
    {
        match self {
            Alternatives::One(spec) => array::from_ref(spec),
            Alternatives::Several(specs) => specs,
        }
    }

    pub fn len(&self) -> usize
        ensures { result ≡ length (list_of self.now) }
    {
        match self {
            Alternatives::One(_) => 1,
            Alternatives::Several(specs) => specs.len(),
        }
    }

    /// The same SPECs as a list.
    pub fn into_vec(self, alloc: Global) -> Result<Vec<Spec>, AllocError>
        ensures { IfOk result (λ specs. specs.items ≡ list_of self) }
    {
        match self {
            Alternatives::One(spec) => {
                let mut specs = Vec::with_capacity(alloc, 1)?;
                specs.push(spec)?;
                Ok(specs)
            }
            Alternatives::Several(specs) => Ok(specs),
        }
    }
}
