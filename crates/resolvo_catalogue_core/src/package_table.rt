//! The packages of a catalogue, by the numbers of their names among its terms. So a name is hashed
//! once, there, and no package keeps it. Used by `table`.

ghost use Rattle.std.specs.Prelude.{◌≡◌, ℕ, ◌<◌, ◌≤◌, [], not, length, option_copied, is_some, IsTrue, IfOk, OnOk, Some};
ghost use Rattle.resolvo_catalogue_core.specs.Numbered.{present, IsNumbered};
ghost use Rattle.resolvo_catalogue_core.specs.Packages.{package_at};
ghost use Rattle.resolvo_catalogue_core.specs.Table.{AddsNumber, PutsVersion, number_in};
ghost use Rattle.resolvo_catalogue_core.specs.declared.package.Package.{Package};

use crate::package::Package;
use crate::rule::VersionNo;
use resolvo_pool_core::id::{DenseIndex, NameId};
use std::alloc::{AllocError, Global};

/// The package of each name.
#[derive(Drop)]
pub struct PackageTable {
    /// The package of each name, by the number of the name. It is absent before a version of it is
    /// listed, and the last names may have no place.
    pub places: Vec<Package>,
}

/// Makes a list of places this long, where it is shorter. The new places are empty.
fn lengthen(places: &mut Vec<Package>, count: usize) -> Result<(), AllocError>
    ensures same { (n : ℕ) → package_at places.new.items n ≡ package_at places.old.items n }
    ensures long { OnOk result (count ≤ length places.new.items) }
    ensures few { (bound : ℕ)
        → length places.old.items ≤ bound
        → count ≤ bound
        → length places.new.items ≤ bound }
{
    for _ in places.len()..count {
        places.push(Package::Absent)?;
    }
    Ok(())
}

/// Adds a version to those of a place, if it isn't listed; says whether it did.
fn add_to(
    place: &mut Package,
    alloc: Global,
    number: u32,
    version: VersionNo,
) -> Result<bool, AllocError>
    requires { IsNumbered place.old }
    ensures new { IfOk result (λ added. added ≡ not (is_some (number_in (present place.old) number))) }
    ensures put { IfOk result
        (λ added.
        IsTrue added
        → (p : Package)
        × (present place.new ≡ Some p)
        × AddsNumber (present place.old) number version p) }
{
    place.add(alloc, number, version)
}

impl PackageTable {
    pub fn new(alloc: Global) -> Self
        ensures { result.places.items ≡ [] }
    {
        PackageTable {
            places: Vec::new(alloc),
        }
    }

    /// The package of the name of this number.
    pub fn get(&self, name: NameId) -> Option<&Package>
        ensures { option_copied result ≡ package_at self.now.places.items name.raw }
    {
        match self.places.get(name.to_index()) {
            Some(place) => place.present(),
            None => None,
        }
    }

    /// Adds a version to those of the package of this number, if it isn't listed; says whether it
    /// did.
    pub fn add(
        &mut self,
        alloc: Global,
        name: NameId,
        number: u32,
        version: VersionNo,
    ) -> Result<bool, AllocError>
        requires { (p : Package) → package_at self.old.places.items name.raw ≡ Some p → IsNumbered p }
        ensures new { IfOk result
            (λ added.
            added ≡ not (is_some (number_in (package_at self.old.places.items name.raw) number))) }
        ensures put { IfOk result
            (λ added.
            IsTrue added
            → PutsVersion self.old.places.items name.raw number version self.new.places.items) }
        ensures few { (bound : ℕ)
            → length self.old.places.items ≤ bound
            → name.raw < bound
            → length self.new.places.items ≤ bound }
    {
        let at = name.to_index();
        lengthen(&mut self.places, at + 1)?;
        add_to(&mut self.places[at], alloc, number, version)
    }
}
