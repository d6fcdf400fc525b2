//! Versions by their packages and numbers. One of each package is in a table of the packages that
//! have had any; those beside it, which only a package that is marked `many` has, are in sorted maps.
//! Used by `chosen`.

ghost use Rattle.std.specs.Prelude.{◌≡◌, ℕ, ◌==◌, ◌&&◌, if◌then◌else◌, Some, None, OnOk};
ghost use Rattle.std.specs.BTreeMap.{get};
ghost use Rattle.std.specs.Ordering.{nat_cmp};
ghost use Rattle.resolve_order.specs.Numbers.{number_at, single_at, single_of, is_free, version_in, single_within, newer, IsNewest, IsNewestIn};

use crate::key_numbers::KeyNumbers;
use resolvo_catalogue_core::{Span, VersionNo, is_in_span};
use std::alloc::{AllocError, Global};
use std::collections::BTreeMap;
use std::ops::Bound;

/// A version with its number.
#[derive(Clone, Copy)]
pub struct Numbered {
    pub number: u32,
    pub version: VersionNo,
}

/// The versions of a package by their numbers.
type Numbers = BTreeMap<u32, VersionNo>;

/// Versions of packages. A package is known by the number of its first version.
#[derive(Drop)]
pub struct VersionTable {
    alloc: Global,
    /// The numbers of the packages that have had versions.
    keys: KeyNumbers,
    /// One version of each package, if it has any, by its number.
    single: Vec<Option<Numbered>>,
    /// The others of each package.
    beside: BTreeMap<u32, Numbers>,
}

/// Puts a version into a place.
fn put_single(
    single: &mut Vec<Option<Numbered>>,
    number: u32,
    version: Numbered,
) -> Result<(), AllocError>
    ensures { OnOk result
        ((k : ℕ)
        → single_at single.new.items k
        ≡ (if number == k then Some version else single_at single.old.items k)) }
{
    let place = number as usize;
    if place == single.len() {
        single.push(Some(version))?;
        return Ok(());
    }
    if place > single.len() {
        single.resize(place + 1, None)?;
    }
    single[place] = Some(version);
    Ok(())
}

/// Empties a place.
fn clear_single(single: &mut Vec<Option<Numbered>>, number: u32)
    ensures { (k : ℕ)
        → single_at single.new.items k
        ≡ (if number == k then None else single_at single.old.items k) }
{
    let place = number as usize;
    if place < single.len() {
        single[place] = None;
    }
}

/// The version in a place.
fn single_at(single: &[Option<Numbered>], number: u32) -> Option<Numbered>
    ensures { result ≡ single_at single.now number }
{
    match single.get(number as usize) {
        Some(single) => *single,
        None => None,
    }
}

/// Adds a version of the package.
fn add_number(
    alloc: Global,
    packages: &mut BTreeMap<u32, Numbers>,
    place: (u32, u32),
    version: VersionNo,
) -> Result<(), AllocError>
    ensures { OnOk result
        ((k n : ℕ)
        → number_at (get nat_cmp packages.new k) n
        ≡ (if place.0 == k && place.1 == n
        then Some version
        else number_at (get nat_cmp packages.old k) n)) }
{
    let (package, number) = place;
    if let Some(numbers) = packages.get_mut(&package) {
        numbers.insert(number, version)?;
        return Ok(());
    }
    let mut numbers = BTreeMap::new(alloc);
    numbers.insert(number, version)?;
    packages.insert(package, numbers)?;
    Ok(())
}

/// Takes a version of the package out.
fn remove_number(packages: &mut BTreeMap<u32, Numbers>, place: (u32, u32))
    ensures { (k n : ℕ)
        → number_at (get nat_cmp packages.new k) n
        ≡ (if place.0 == k && place.1 == n
        then None
        else number_at (get nat_cmp packages.old k) n) }
{
    let (package, number) = place;
    if let Some(numbers) = packages.get_mut(&package) {
        numbers.remove(&number);
    }
}

/// The version of the number, if there is one.
fn find_number(packages: &BTreeMap<u32, Numbers>, place: (u32, u32)) -> Option<VersionNo>
    ensures { result ≡ number_at (get nat_cmp packages.now place.0) place.1 }
{
    let (package, number) = place;
    match packages.get(&package) {
        Some(numbers) => numbers.get(&number).copied(),
        None => None,
    }
}

/// The version of the highest number in the span.
fn newest_of(numbers: &Numbers, span: Span) -> Option<Numbered>
    ensures { IsNewest (get nat_cmp numbers.now) span result }
{
    let newest = match span {
        Span::Any => numbers.last_key_value(),
        Span::One(number) => numbers.get_key_value(&number),
        Span::Range(low, high) => {
            if low >= high {
                return None;
            }
            let between = (Bound::Included(low), Bound::Excluded(high));
            numbers.range(between).next_back()
        }
    };
    match newest {
        Some((number, version)) => Some(Numbered {
            number: *number,
            version: *version,
        }),
        None => None,
    }
}

/// The same among those of the package.
fn newest_beside(packages: &BTreeMap<u32, Numbers>, package: u32, span: Span) -> Option<Numbered>
    ensures { IsNewest (number_at (get nat_cmp packages.now «package»)) span result }
{
    match packages.get(&package) {
        Some(numbers) => newest_of(numbers, span),
        None => None,
    }
}

/// The version of the higher number, or the one that there is.
fn newer(one: Option<Numbered>, other: Option<Numbered>) -> Option<Numbered>
    ensures { result ≡ newer one other }
{
    match one {
        Some(first) => match other {
            Some(second) => {
                if first.number < second.number {
                    other
                } else {
                    one
                }
            }
            None => one,
        },
        None => other,
    }
}

impl VersionTable {
    pub fn new(alloc: Global) -> Self
        ensures { (k n : ℕ) → version_in result k n ≡ None }
    {
        VersionTable {
            alloc,
            keys: KeyNumbers::new(alloc),
            single: Vec::new(alloc),
            beside: BTreeMap::new(alloc),
        }
    }

    /// The version in the place of the package.
    fn single_of(&self, package: u32) -> Option<Numbered>
        ensures { result ≡ single_of self.now «package» }
    {
        match self.keys.find(package) {
            Some(number) => single_at(&self.single, number),
            None => None,
        }
    }

    /// Puts a version into the place of its package.
    fn put(&mut self, package: u32, version: Numbered) -> Result<(), AllocError>
        ensures put { OnOk result
            ((k : ℕ)
            → single_of self.new k
            ≡ (if «package» == k then Some version else single_of self.old k)) }
        ensures beside { self.new.beside ≡ self.old.beside }
    {
        let number = self.keys.put(package)?;
        put_single(&mut self.single, number, version)
    }

    /// Empties the place of a package.
    fn clear(&mut self, package: u32)
        ensures cleared { (k : ℕ)
            → single_of self.new k
            ≡ (if «package» == k then None else single_of self.old k) }
        ensures beside { self.new.beside ≡ self.old.beside }
    {
        if let Some(number) = self.keys.find(package) {
            clear_single(&mut self.single, number);
        }
    }

    /// Whether the place of the package has no version, or that of this number.
    fn is_free(&self, place: (u32, u32)) -> bool
        ensures { result ≡ is_free (single_of self.now place.0) place.1 }
    {
        match self.single_of(place.0) {
            Some(single) => single.number == place.1,
            None => true,
        }
    }

    /// The version of this number, if it is there.
    pub fn get(&self, place: (u32, u32)) -> Option<VersionNo>
        ensures { result ≡ version_in self.now place.0 place.1 }
    {
        if let Some(single) = self.single_of(place.0) {
            if single.number == place.1 {
                return Some(single.version);
            }
        }
        find_number(&self.beside, place)
    }

    /// Adds a version of the package.
    pub fn add(&mut self, place: (u32, u32), version: VersionNo) -> Result<(), AllocError>
        ensures { OnOk result
            ((k n : ℕ)
            → version_in self.new k n
            ≡ (if place.0 == k && place.1 == n then Some version else version_in self.old k n)) }
    {
        if self.is_free(place) {
            let number = place.1;
            self.put(place.0, Numbered { number, version })?;
        } else {
            add_number(self.alloc, &mut self.beside, place, version)?;
        }
        Ok(())
    }

    /// Takes a version of the package out.
    pub fn remove(&mut self, place: (u32, u32))
        ensures { (k n : ℕ)
            → version_in self.new k n
            ≡ (if place.0 == k && place.1 == n then None else version_in self.old k n) }
    {
        if self.is_free(place) {
            self.clear(place.0);
        }
        remove_number(&mut self.beside, place);
    }

    /// The version in the place of the package, if it is in the span.
    fn single_within(&self, package: u32, span: Span) -> Option<Numbered>
        ensures { result ≡ single_within (single_of self.now «package») span }
    {
        match self.single_of(package) {
            Some(single) => {
                if is_in_span(span, single.number) {
                    Some(single)
                } else {
                    None
                }
            }
            None => None,
        }
    }

    /// The version of the package of the highest number in the span.
    pub fn newest_in(&self, package: u32, span: Span) -> Option<VersionNo>
        ensures { IsNewestIn (version_in self.now «package») span result }
    {
        let beside = newest_beside(&self.beside, package, span);
        match newer(self.single_within(package, span), beside) {
            Some(newest) => Some(newest.version),
            None => None,
        }
    }
}
