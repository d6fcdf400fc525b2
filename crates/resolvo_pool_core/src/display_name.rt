//! How the name of a package is written by its id, wherever the names are kept. A pool is one such
//! place.
ghost use Rattle.std.specs.Prelude.{◌≡◌, ◌<◌, List, length, slice_get, Some};

use crate::id::NameId;
use std::fmt;

/// Names of packages, kept by their ids.
pub trait PackageNames {
    /// A name.
    type Name;

    /// The names, in the order of their ids.
    ghost names_in: { Self → List Self.Name };

    /// The name of an id.
    fn name_of(&self, id: NameId) -> &Self::Name
        requires { id.raw < length (names_in self.now) }
        ensures { slice_get (names_in self.now) id.raw ≡ Some result.now };
}

impl NameId {
    /// Writes the name, as it is written in `names`.
    pub fn display<P: PackageNames>(self, names: &P) -> DisplayName<'_, P::Name>
    where
        P::Name: fmt::Display,
        requires { self.raw < length (P.names_in names.now) }
        ensures { slice_get (P.names_in names.now) self.raw ≡ Some result.name.now }
    {
        DisplayName {
            name: names.name_of(self),
        }
    }
}

/// A package's name, to be written.
#[derive(Drop)]
pub struct DisplayName<'a, N> {
    pub name: &'a N,
}

impl<N: fmt::Display> fmt::Display for DisplayName<'_, N> {
    ghost output = { λ d. N.output d.name.now };

    fn fmt<W: fmt::Write>(&self, f: &mut fmt::Formatter<W>) -> fmt::Result {
        self.name.fmt(f)
    }
}
