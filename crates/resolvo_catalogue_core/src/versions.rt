//! The listed versions in line order: each by the number of its package's name among the terms, and
//! its own number. So no name is kept twice. The model is the list of the versions. Lent by
//! `catalogue`.

ghost use Rattle.std.specs.Prelude.{◌≡◌, length, option_map, slice_get};
ghost use Rattle.resolvo_catalogue_core.specs.Listed.{version_by, kept_versions};

use crate::rule::VersionNo;
use resolvo_pool_core::id::NameId;
use resolvo_terms::Terms;
use std::marker::Model;

/// A version: the number of its package's name, and its own.
#[derive(Clone, Copy, Debug)]
pub struct KeptVersion {
    pub package: NameId,
    pub number: u32,
}

/// The versions with the terms that have their names.
#[derive(Drop)]
pub struct Versions<'a> {
    pub(crate) terms: &'a Terms,
    pub(crate) kept: &'a [KeptVersion],
}

impl<'a> Model for Versions<'a> {
    ghost use Rattle.std.specs.Prelude.{List};
    ghost use Rattle.resolvo_text.specs.Line.{Version};
    ghost use Rattle.resolvo_catalogue_core.specs.Listed.{kept_versions};

    ghost Value = { List Version };

    ghost view = { λ v. kept_versions v.terms.now.names v.kept.now };
}

impl<'a> Versions<'a> {
    /// How many versions there are.
    pub fn len(&self) -> usize
        ensures { result ≡ length self.now }
    {
        self.kept.len()
    }

    /// The name of its package and the number of the version of this number.
    pub fn get(&self, number: VersionNo) -> Option<(&'a str, u32)>
        ensures { option_map (λ v. version_by v.0.now v.1) result ≡ slice_get self.now number.0 }
    {
        match self.kept.get(number.0 as usize) {
            Some(version) => Some((self.terms.name(version.package), version.number)),
            None => None,
        }
    }

    /// The same, with the name as bytes: they aren't looked at.
    pub fn get_bytes(&self, number: VersionNo) -> Option<(&'a [u8], u32)>
        ensures { option_map (λ v. version_by v.0.now v.1) result ≡ slice_get self.now number.0 }
    {
        match self.kept.get(number.0 as usize) {
            Some(version) => Some((self.terms.name_bytes(version.package), version.number)),
            None => None,
        }
    }
}
