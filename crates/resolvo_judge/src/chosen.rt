//! The entries of an `install` report as a set: several versions of a package only where it is marked
//! `many`, by their numbers. Conditions and rules are evaluated in their size and the logarithm of
//! the entries. Its model is a list of versions: `Holds` of specs/Chosen.antt.

ghost use Rattle.std.specs.Prelude.{◌≡◌, ◌++◌, ◌∷◌, [], ◌<◌, ◌+◌, ◌^◌, OnOk, if◌then◌else◌, Some, false, not, ◌||◌, ◌==◌, List, length, take};
ghost use Rattle.std.specs.BTreeMap.Range.{range_contains, IsLeBy, IsLtBy};
ghost use Rattle.std.specs.Ordering.{nat_cmp};
ghost use Rattle.std.specs.Range.Bound.{IsForward};
ghost use Rattle.std.specs.BTreeMap.{get_by_text};
ghost use Rattle.std.specs.List.{list_any, list_all};
ghost use Rattle.std.specs.Str.{bytes_eq};
ghost use Rattle.resolvo_catalogue_core.specs.Listed.{version_by};
ghost use Rattle.std.specs.Option.{option_map_or};
ghost use Rattle.std.specs.String.{string_bytes};
ghost use Rattle.resolvo_text.specs.Line as spelled;
ghost use Rattle.resolvo_text.specs.Matches.{Set, is_in_span, same_package, same_version, matches, is_member, is_met, is_met_by_one, holds, condition_holds};
ghost use Rattle.resolvo_text.specs.View.{version_of, spec_of, specs_of, cond_of, condition_of};
ghost use Rattle.resolvo_judge.specs.Chosen.{Holds, index_in};

use resolvo_catalogue_core::{Cond, Span, Spec, Version};
use std::alloc::{AllocError, Global};
use std::collections::BTreeMap;
use std::ops::Bound;

/// Adds a version's number, with the number of versions chosen before it.
fn add_number(
    alloc: Global,
    packages: &mut BTreeMap<String, BTreeMap<u32, usize>>,
    version: &Version,
    index: usize,
) -> Result<(), AllocError>
    ensures { OnOk result
        ((v : spelled.Version)
        → index_in (get_by_text packages.new v.name) v.number
        ≡ (if same_version (version_of version.now) v
        then Some index
        else index_in (get_by_text packages.old v.name) v.number)) }
{
    if let Some(numbers) = packages.get_mut(version.name.as_str()) {
        numbers.insert(version.number, index)?;
        return Ok(());
    }
    let mut numbers = BTreeMap::new(alloc);
    numbers.insert(version.number, index)?;
    packages.insert(version.name.clone()?, numbers)?;
    Ok(())
}

/// Whether one of the numbers is between the bounds.
fn has_between(numbers: &BTreeMap<u32, usize>, start: Bound<u32>, end: Bound<u32>) -> bool
    requires { IsForward (IsLeBy nat_cmp) (IsLtBy nat_cmp) start end }
    ensures { result ≡ list_any (λ e. range_contains nat_cmp start end e.0) numbers.now.entries }
{
    numbers.range((start, end)).next().is_some()
}

/// Whether one of the numbers lies in the span.
fn has_in(numbers: &BTreeMap<u32, usize>, span: Span) -> bool
    ensures { result ≡ list_any (λ e. is_in_span span e.0) numbers.now.entries }
{
    match span {
        Span::Any => !numbers.is_empty(),
        Span::One(number) => numbers.contains_key(&number),
        Span::Range(low, high) => {
            low < high && has_between(numbers, Bound::Included(low), Bound::Excluded(high))
        }
    }
}

/// Whether one of the numbers lies outside the span.
fn has_outside(numbers: &BTreeMap<u32, usize>, span: Span) -> bool
    ensures { result ≡ list_any (λ e. not (is_in_span span e.0)) numbers.now.entries }
{
    match span {
        Span::Any => false,
        Span::One(number) => {
            has_between(numbers, Bound::Unbounded, Bound::Excluded(number))
                || has_between(numbers, Bound::Excluded(number), Bound::Unbounded)
        }
        Span::Range(low, high) => {
            if low >= high {
                return !numbers.is_empty();
            }
            has_between(numbers, Bound::Unbounded, Bound::Excluded(low))
                || has_between(numbers, Bound::Included(high), Bound::Unbounded)
        }
    }
}

/// The chosen versions, by their packages and numbers, each with how many were chosen before it.
#[derive(Drop)]
pub struct Chosen {
    alloc: Global,
    packages: BTreeMap<String, BTreeMap<u32, usize>>,
    count: usize,
}

impl Chosen {
    pub fn new(alloc: Global) -> Chosen
        ensures represents { Holds result [] }
        ensures none { result.count ≡ 0 }
    {
        Chosen {
            alloc,
            packages: BTreeMap::new(alloc),
            count: 0,
        }
    }

    /// The number of chosen versions.
    pub fn count(&self) -> usize
        ensures { (set : Set) → Holds self.now set → result ≡ length set }
    {
        self.count
    }

    /// Adds a version that isn't chosen.
    pub fn add(&mut self, version: &Version) -> Result<(), AllocError>
        requires { self.old.count < 2 ^ 32 }
        ensures count { OnOk result (self.new.count ≡ self.old.count + 1) }
        ensures added { OnOk result
            ((set : Set)
            → Holds self.old set
            → is_member (version_of version.now) set ≡ false
            → Holds self.new (set ++ version_of version.now ∷ [])) }
    {
        add_number(self.alloc, &mut self.packages, version, self.count)?;
        self.count += 1;
        Ok(())
    }

    /// How many versions were chosen before the one of this package and number.
    fn index(&self, name: &str, number: u32) -> Option<usize>
        ensures { result ≡ index_in (get_by_text self.now.packages name.now) number }
    {
        let numbers = self.packages.get(name)?;
        numbers.get(&number).copied()
    }

    fn has_number_among(&self, name: &str, number: u32, first: usize) -> bool
        ensures { (set : Set)
            → Holds self.now set
            → result ≡ is_member (record { name = name.now; number = number }) (take first set) }
    {
        match self.index(name, number) {
            Some(index) => index < first,
            None => false,
        }
    }

    /// Whether a version, as the catalogue lists it, is among the first so many.
    pub fn has_listed_among(&self, version: (&str, u32), first: usize) -> bool
        ensures { (set : Set)
            → Holds self.now set
            → result ≡ is_member (version_by version.entry.0.now version.entry.1) (take first set) }
    {
        self.has_number_among(version.0, version.1, first)
    }

    /// Whether the version is among the first so many.
    pub fn has_among(&self, version: &Version, first: usize) -> bool
        ensures { (set : Set)
            → Holds self.now set
            → result ≡ is_member (version_of version.now) (take first set) }
    {
        self.has_number_among(&version.name, version.number, first)
    }

    /// Whether a version of this version's package is chosen.
    pub fn has_package_of(&self, version: &Version) -> bool
        ensures { (set : Set)
            → Holds self.now set
            → result ≡ list_any (same_package (version_of version.now)) set }
    {
        match self.packages.get(version.name.as_str()) {
            Some(numbers) => !numbers.is_empty(),
            None => false,
        }
    }

    /// Whether a version is chosen.
    pub fn has(&self, version: &Version) -> bool
        ensures { (set : Set) → Holds self.now set
            → result ≡ is_member (version_of version.now) set }
    {
        self.index(&version.name, version.number).is_some()
    }

    /// Whether a version, as the catalogue lists it, is chosen.
    pub fn has_listed(&self, version: (&str, u32)) -> bool
        ensures { (set : Set) → Holds self.now set
            → result ≡ is_member (version_by version.entry.0.now version.entry.1) set }
    {
        self.index(version.0, version.1).is_some()
    }

    /// Whether each chosen version of the SPEC's package matches.
    pub fn are_within(&self, spec: &Spec) -> bool
        ensures { (set : Set)
            → Holds self.now set
            → result
            ≡ list_all
            (λ v.
            not (bytes_eq v.name (spec_of spec.now).name) || matches (spec_of spec.now) v)
            set }
    {
        match self.packages.get(spec.name.as_str()) {
            Some(numbers) => !has_outside(numbers, spec.span),
            None => true,
        }
    }

    /// Whether no other version of the locked one's package is chosen.
    pub fn keeps_lock(&self, locked: (&str, u32)) -> bool
        ensures { (set : Set)
            → Holds self.now set
            → result
            ≡ list_all
            (λ w.
            not (same_package w (version_by locked.entry.0.now locked.entry.1)) || w.number ==
            locked.entry.1)
            set }
    {
        match self.packages.get(locked.0) {
            Some(numbers) => !has_outside(numbers, Span::One(locked.1)),
            None => true,
        }
    }

    /// Whether a chosen version matches the SPEC.
    pub fn is_met(&self, spec: &Spec) -> bool
        ensures { (set : Set) → Holds self.now set → result ≡ is_met (spec_of spec.now) set }
    {
        match self.packages.get(spec.name.as_str()) {
            Some(numbers) => has_in(numbers, spec.span),
            None => false,
        }
    }

    /// Whether a chosen version matches one of the alternatives.
    pub fn is_met_by_one(&self, alternatives: &[Spec]) -> bool
        ensures { (set : Set)
            → Holds self.now set
            → result ≡ is_met_by_one (specs_of alternatives.now) set }
    {
        for spec in alternatives {
            if self.is_met(spec) {
                return true;
            }
        }
        false
    }

    /// Whether the condition holds.
    // one of several such bodies, each over its own form of a set (docs/DECISIONS.md)
    fn holds(&self, condition: &Cond) -> bool
        ensures { (set : Set) → Holds self.now set → result ≡ holds (cond_of condition.now) set }
    {
        match condition {
            Cond::Spec(spec) => self.is_met(spec),
            Cond::And(left, right) => self.holds(left) && self.holds(right),
            Cond::Or(left, right) => self.holds(left) || self.holds(right),
        }
    }

    /// Whether the condition holds, if there is one.
    pub fn condition_holds(&self, condition: &Option<Box<Cond>>) -> bool
        ensures { (set : Set)
            → Holds self.now set
            → result ≡ condition_holds (condition_of condition.now) set }
    {
        match condition {
            Some(condition) => self.holds(condition),
            None => true,
        }
    }
}
