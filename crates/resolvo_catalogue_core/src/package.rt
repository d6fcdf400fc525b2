//! The versions of a package. Most packages have one, which takes no lists of its own; a name that
//! is only spoken of has none.
//! Their model is the list of their numbers and that of the versions, `numbers_of` and `versions_of`.
//! Used by `package_table`.

ghost use Rattle.std.specs.Prelude.{◌≡◌, Some, IsTrue, IfOk, OnOk, not, is_some, true, false, option_copied};
ghost use Rattle.std.specs.Ordering.{nat_cmp};
ghost use Rattle.std.specs.BTreeMap.Range.{range_contains, IsLeBy, IsLtBy};
ghost use Rattle.std.specs.Range.Bound.{IsForward};
ghost use Rattle.resolvo_catalogue_core.specs.Numbered.{beside, numbers_of, present, versions_of, IsNumbered};
ghost use Rattle.resolvo_catalogue_core.specs.Picked.{IsAmong, AddsEach, HasEach, is_picked};
ghost use Rattle.resolvo_catalogue_core.specs.Table.{AddsNumber};

use crate::pick::add_rising;
use crate::rule::VersionNo;
use crate::version_list::VersionList;
use resolvo_text::Span;
use std::alloc::{AllocError, Global};
use std::array;
use std::collections::BTreeSet;
use std::ops::Bound;

/// The versions of a package: none, one or several.
#[derive(Drop)]
pub enum Package {
    Absent,
    One { number: u32, version: VersionNo },
    Several(Box<VersionList>),
}

impl Package {
    /// The package, if it has a version.
    pub fn present(&self) -> Option<&Package>
        ensures { option_copied result ≡ present self.now }
    {
        match self {
            Package::Absent => None,
            Package::One { .. } => Some(self),
            Package::Several(_) => Some(self),
        }
    }

    /// The versions in line order.
    pub fn versions(&self) -> &[VersionNo]
        ensures { result.now ≡ versions_of self.now }
    {
        match self {
            Package::Absent => &[],
            Package::One { version, .. } => array::from_ref(version),
            Package::Several(list) => list.versions(),
        }
    }

    /// The version of a number.
    pub fn find(&self, number: u32) -> Option<VersionNo>
        requires { IsNumbered self.now }
        ensures { result ≡ beside (numbers_of self.now) (versions_of self.now) number }
    {
        match self {
            Package::Absent => None,
            Package::One {
                number: of,
                version,
            } => { if *of == number { Some(*version) } else { None } }
            Package::Several(list) => list.find(number),
        }
    }

    /// Adds the versions whose numbers are between the bounds.
    fn add_between(
        &self,
        start: Bound<u32>,
        end: Bound<u32>,
        out: &mut BTreeSet<u32>,
    ) -> Result<(), AllocError>
        requires numbered { IsNumbered self.now }
        requires forward { IsForward (IsLeBy nat_cmp) (IsLtBy nat_cmp) start end }
        ensures { OnOk result
            (AddsEach out.old
            (IsAmong (numbers_of self.now) (versions_of self.now) (range_contains nat_cmp start end))
            out.new) }
    {
        match self {
            Package::Absent => add_rising(&[], &[], start, end, out),
            Package::One { number, version } => add_rising(
                array::from_ref(number),
                array::from_ref(version),
                start,
                end,
                out,
            ),
            Package::Several(list) => list.add_between(start, end, out),
        }
    }

    fn add_picked(
        &self,
        span: Span,
        outside: bool,
        out: &mut BTreeSet<u32>,
    ) -> Result<(), AllocError>
        requires { IsNumbered self.now }
        ensures { OnOk result
            (AddsEach out.old
            (IsAmong (numbers_of self.now) (versions_of self.now) (is_picked span outside))
            out.new) }
    {
        if outside {
            self.add_outside(span, out)
        } else {
            self.add_inside(span, out)
        }
    }

    /// The versions whose numbers are in the span; with `outside`, the others.
    pub fn picked(
        &self,
        alloc: Global,
        span: Span,
        outside: bool,
    ) -> Result<BTreeSet<u32>, AllocError>
        requires { IsNumbered self.now }
        ensures { IfOk result
            (HasEach
            (IsAmong (numbers_of self.now) (versions_of self.now) (is_picked span outside))) }
    {
        let mut out = BTreeSet::new(alloc);
        self.add_picked(span, outside, &mut out)?;
        // The proof needs the invariant that this call gives: the set is in order.
        let _count = out.len();
        Ok(out)
    }

    fn add_inside(&self, span: Span, out: &mut BTreeSet<u32>) -> Result<(), AllocError>
        requires { IsNumbered self.now }
        ensures { OnOk result
            (AddsEach out.old
            (IsAmong (numbers_of self.now) (versions_of self.now) (is_picked span false))
            out.new) }
    {
        match span {
            Span::Any => self.add_between(Bound::Unbounded, Bound::Unbounded, out),
            Span::One(number) => {
                self.add_between(Bound::Included(number), Bound::Included(number), out)
            }
            Span::Range(low, high) => {
                if low < high {
                    self.add_between(Bound::Included(low), Bound::Excluded(high), out)
                } else {
                    Ok(())
                }
            }
        }
    }

    fn add_outside(&self, span: Span, out: &mut BTreeSet<u32>) -> Result<(), AllocError>
        requires { IsNumbered self.now }
        ensures { OnOk result
            (AddsEach out.old
            (IsAmong (numbers_of self.now) (versions_of self.now) (is_picked span true))
            out.new) }
    {
        match span {
            Span::Any => Ok(()),
            Span::One(number) => {
                self.add_between(Bound::Unbounded, Bound::Excluded(number), out)?;
                self.add_between(Bound::Excluded(number), Bound::Unbounded, out)
            }
            Span::Range(low, high) => {
                self.add_between(Bound::Unbounded, Bound::Excluded(low), out)?;
                self.add_between(Bound::Included(high), Bound::Unbounded, out)
            }
        }
    }

    /// Adds a version, if the package has none of this number; says whether it did.
    #[tactic(auto, using(crate::proofs::NumberedLemmas::first_added))]
    pub fn add(
        &mut self,
        alloc: Global,
        number: u32,
        version: VersionNo,
    ) -> Result<bool, AllocError>
        requires { IsNumbered self.old }
        ensures new { IfOk result
            (λ added.
            added ≡ not (is_some (beside (numbers_of self.old) (versions_of self.old) number))) }
        ensures put { IfOk result
            (λ added.
            IsTrue added
            → AddsNumber (Some self.old) number version self.new) }
    {
        match self {
            Package::Absent => {
                *self = Package::One { number, version };
                Ok(true)
            }
            Package::One {
                number: of,
                version: first,
            } => {
                let mut list = VersionList::of(alloc, *of, *first)?;
                let added = list.add(number, version)?;
                *self = Package::Several(Box::new(alloc, list)?);
                Ok(added)
            }
            Package::Several(list) => list.add(number, version),
        }
    }
}
