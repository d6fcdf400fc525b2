//! Several versions of a package, in line order and by their numbers.
//! Most catalogues list them in rising order, so they are found by binary search while they rise. A
//! map is made only when a version is added whose number is not above the last one. Used by
//! `package`.

ghost use Rattle.std.specs.Prelude.{◌≡◌, ℕ, [], ◌∷◌, None, Some, IsTrue, IfOk, OnOk, length, not, is_some, slice_get, true, false};
ghost use Rattle.std.specs.BTreeMap.{get};
ghost use Rattle.std.specs.Ordering.{nat_cmp};
ghost use Rattle.resolvo_catalogue_core.specs.Numbered.{beside, AreRising, IsAbove, IsSought, AreNumbered};
ghost use Rattle.std.specs.BTreeMap.Range.{range_contains, IsLeBy, IsLtBy};
ghost use Rattle.std.specs.Range.Bound.{IsForward};
ghost use Rattle.resolvo_catalogue_core.specs.Picked.{IsAmong, AddsEach};
ghost use Rattle.resolvo_catalogue_core.specs.Table.{AddsBeside};

use crate::pick::{add_mapped, add_rising};
use crate::rule::VersionNo;
use std::alloc::{AllocError, Global};
use std::collections::{BTreeMap, BTreeSet};
use std::ops::Bound;

/// The versions of a package that has several.
#[derive(Drop)]
pub struct VersionList {
    numbers: Vec<u32>,
    versions: Vec<VersionNo>,
    by_number: Option<BTreeMap<u32, VersionNo>>,
}

/// The room that is made at first for the versions of a package.
const FEW: usize = 6;

impl VersionList {
    /// A list of one version.
    pub fn of(alloc: Global, number: u32, version: VersionNo) -> Result<Self, AllocError>
        ensures numbered { IfOk result AreNumbered }
        ensures numbers { IfOk result (λ list. list.numbers.items ≡ number ∷ []) }
        ensures versions { IfOk result (λ list. list.versions.items ≡ version ∷ []) }
    {
        let mut numbers = Vec::with_capacity(alloc, FEW)?;
        numbers.push(number)?;
        let mut versions = Vec::with_capacity(alloc, FEW)?;
        versions.push(version)?;
        Ok(VersionList {
            numbers,
            versions,
            by_number: None,
        })
    }

    /// The versions in line order.
    pub fn versions(&self) -> &[VersionNo]
        ensures { result.now ≡ self.now.versions.items }
    {
        &self.versions
    }

    /// The version of a number.
    pub fn find(&self, number: u32) -> Option<VersionNo>
        requires { AreNumbered self.now }
        ensures { result ≡ beside self.now.numbers.items self.now.versions.items number }
    {
        match &self.by_number {
            Some(map) => map.get(&number).copied(),
            None => version_beside(&self.numbers, &self.versions, number),
        }
    }

    /// Adds the versions whose numbers are between the bounds.
    pub fn add_between(
        &self,
        start: Bound<u32>,
        end: Bound<u32>,
        out: &mut BTreeSet<u32>,
    ) -> Result<(), AllocError>
        requires numbered { AreNumbered self.now }
        requires forward { IsForward (IsLeBy nat_cmp) (IsLtBy nat_cmp) start end }
        ensures { OnOk result
            (AddsEach out.old
            (IsAmong self.now.numbers.items self.now.versions.items
            (range_contains nat_cmp start end))
            out.new) }
    {
        match &self.by_number {
            Some(map) => add_mapped(map, start, end, out),
            None => add_rising(&self.numbers, &self.versions, start, end, out),
        }
    }

    /// Adds a version, if there is none of this number; says whether it did.
    pub fn add(&mut self, number: u32, version: VersionNo) -> Result<bool, AllocError>
        requires { AreNumbered self.old }
        ensures new { IfOk result
            (λ added.
            added ≡ not (is_some (beside self.old.numbers.items self.old.versions.items number))) }
        ensures put { IfOk result
            (λ added.
            IsTrue added
            → AddsBeside self.old.numbers.items self.old.versions.items number version self.new) }
    {
        if self.goes_on(number) {
            self.push(number, version)?;
            return Ok(true);
        }
        if self.find(number).is_some() {
            return Ok(false);
        }
        self.map(number, version)?;
        Ok(true)
    }

    /// Whether the numbers rise, and still rise with this one.
    fn goes_on(&self, number: u32) -> bool
        requires { AreNumbered self.now }
        ensures unmapped { IsTrue result → self.now.by_number ≡ None }
        ensures above { IsTrue result → IsAbove number self.now.numbers.items }
    {
        if self.by_number.is_some() {
            return false;
        }
        match self.numbers.last() {
            Some(last) => *last < number,
            None => true,
        }
    }

    /// Adds a version whose number is above all others, which rise.
    fn push(&mut self, number: u32, version: VersionNo) -> Result<(), AllocError>
        requires numbered { AreNumbered self.old }
        requires unmapped { self.old.by_number ≡ None }
        requires above { IsAbove number self.old.numbers.items }
        ensures { OnOk result
            (AddsBeside self.old.numbers.items self.old.versions.items number version self.new) }
    {
        self.numbers.push(number)?;
        self.versions.push(version)?;
        Ok(())
    }

    /// Takes the map, which is made where there is none. The caller puts it back with its
    /// additions.
    fn take_map(&mut self) -> Result<BTreeMap<u32, VersionNo>, AllocError>
        requires { AreNumbered self.old }
        ensures map { IfOk result (λ map. IsSought (Some map) self.old.numbers.items self.old.versions.items) }
        ensures numbers { self.new.numbers ≡ self.old.numbers }
        ensures versions { self.new.versions ≡ self.old.versions }
    {
        match self.by_number.take() {
            Some(map) => Ok(map),
            None => {
                // split for the prover: error and answer
                let map = map_of(*self.numbers.allocator(), &self.numbers, &self.versions)?;
                Ok(map)
            }
        }
    }

    /// Adds a version of any new number to the map, which is made where there is none.
    fn map(&mut self, number: u32, version: VersionNo) -> Result<(), AllocError>
        requires numbered { AreNumbered self.old }
        requires new { beside self.old.numbers.items self.old.versions.items number ≡ None }
        ensures { OnOk result
            (AddsBeside self.old.numbers.items self.old.versions.items number version self.new) }
    {
        let mut map = self.take_map()?;
        map.insert(number, version)?;
        self.by_number = Some(map);
        self.numbers.push(number)?;
        self.versions.push(version)?;
        Ok(())
    }
}

/// The version at the index of a number, where the numbers rise.
fn version_beside(numbers: &[u32], versions: &[VersionNo], number: u32) -> Option<VersionNo>
    requires paired { length numbers.now ≡ length versions.now }
    requires rising { AreRising numbers.now }
    ensures { result ≡ beside numbers.now versions.now number }
{
    match numbers.binary_search(&number) {
        Ok(place) => version_at(versions, place),
        Err(_) => None,
    }
}

fn version_at(versions: &[VersionNo], place: usize) -> Option<VersionNo>
    ensures { result ≡ slice_get versions.now place }
{
    versions.get(place).copied()
}

/// A map of the versions by their numbers, which rise.
fn map_of(
    alloc: Global,
    numbers: &[u32],
    versions: &[VersionNo],
) -> Result<BTreeMap<u32, VersionNo>, AllocError>
    requires paired { length numbers.now ≡ length versions.now }
    requires rising { AreRising numbers.now }
    ensures { IfOk result (λ map. (k : ℕ) → get nat_cmp map k ≡ beside numbers.now versions.now k) }
{
    let mut map = BTreeMap::new(alloc);
    for place in 0..numbers.len() {
        map.insert(numbers[place], versions[place])?;
    }
    Ok(map)
}
