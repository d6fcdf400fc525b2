//! The versions of a package whose numbers are in a span, or aren't. Those that aren't picked are
//! not visited. Used by `package`.

ghost use Rattle.std.specs.Prelude.{◌≡◌, ℕ, ◌<◌, ◌≤◌, ◌||◌, ◌==◌, not, nat_lt, slice_index_or, length, OnOk};
ghost use Rattle.std.specs.List.{list_any};
ghost use Rattle.std.specs.BTreeMap.Range.{is_from_start, is_past_end, range_contains, entries_between, IsLeBy, IsLtBy};
ghost use Rattle.std.specs.BTreeSet.{contains};
ghost use Rattle.std.specs.Ordering.{nat_cmp};
ghost use Rattle.std.specs.Range.Bound.{IsForward};
ghost use Rattle.std.specs.BTreeMap.{IsOrdered};
ghost use Rattle.resolvo_catalogue_core.specs.Numbered.{AreRising};
ghost use Rattle.resolvo_catalogue_core.specs.Picked.{IsAmong, IsPlaced, AddsEach};

use crate::rule::VersionNo;
use std::alloc::AllocError;
use std::collections::{BTreeMap, BTreeSet};
use std::ops::Bound;

/// Whether the number is not below the start.
fn is_from(start: Bound<u32>, number: u32) -> bool
    ensures { result ≡ is_from_start nat_cmp start number }
{
    match start {
        Bound::Included(low) => low <= number,
        Bound::Excluded(low) => low < number,
        Bound::Unbounded => true,
    }
}

/// Whether the number is past the end.
fn is_past(end: Bound<u32>, number: u32) -> bool
    ensures { result ≡ is_past_end nat_cmp end number }
{
    match end {
        Bound::Included(high) => high < number,
        Bound::Excluded(high) => high <= number,
        Bound::Unbounded => false,
    }
}

/// Adds the versions at the indexes from `first` to below `last`.
fn add_places(
    versions: &[VersionNo],
    first: usize,
    last: usize,
    out: &mut BTreeSet<u32>,
) -> Result<(), AllocError>
    requires order { first ≤ last }
    requires within { last ≤ length versions.now }
    ensures { OnOk result (AddsEach out.old (IsPlaced versions.now first last) out.new) }
{
    for place in first..last {
        out.insert(versions[place].0)?;
    }
    Ok(())
}

/// The index of the first number that isn't below the start. The numbers rise.
fn first_from(numbers: &[u32], start: Bound<u32>) -> usize
    requires { AreRising numbers.now }
    ensures within { result ≤ length numbers.now }
    ensures first { (i : ℕ)
        → i < length numbers.now
        → is_from_start nat_cmp start (slice_index_or numbers.now i 0) ≡ not (nat_lt i result) }
{
    numbers.partition_point(|number| !is_from(start, *number))
}

/// The index after the last number that isn't past the end. The numbers rise.
fn past_last(numbers: &[u32], end: Bound<u32>) -> usize
    requires { AreRising numbers.now }
    ensures within { result ≤ length numbers.now }
    ensures last { (i : ℕ)
        → i < length numbers.now
        → is_past_end nat_cmp end (slice_index_or numbers.now i 0) ≡ not (nat_lt i result) }
{
    numbers.partition_point(|number| !is_past(end, *number))
}

/// Adds the versions whose numbers, which rise, are between the bounds.
pub fn add_rising(
    numbers: &[u32],
    versions: &[VersionNo],
    start: Bound<u32>,
    end: Bound<u32>,
    out: &mut BTreeSet<u32>,
) -> Result<(), AllocError>
    requires paired { length numbers.now ≡ length versions.now }
    requires rising { AreRising numbers.now }
    ensures { OnOk result
        (AddsEach out.old (IsAmong numbers.now versions.now (range_contains nat_cmp start end))
        out.new) }
{
    let first = first_from(numbers, start);
    let last = past_last(numbers, end);
    if first < last {
        add_places(versions, first, last, out)?;
    }
    Ok(())
}

/// Adds the versions of a map whose numbers are between the bounds.
pub fn add_mapped(
    map: &BTreeMap<u32, VersionNo>,
    start: Bound<u32>,
    end: Bound<u32>,
    out: &mut BTreeSet<u32>,
) -> Result<(), AllocError>
    requires { IsForward (IsLeBy nat_cmp) (IsLtBy nat_cmp) start end }
    ensures added { OnOk result
        ((n : ℕ)
        → contains nat_cmp out.new n
        ≡ (contains nat_cmp out.old n || list_any (λ e. e.1.0 == n)
        (entries_between nat_cmp start end map.now.entries))) }
    ensures ordered { IsOrdered nat_cmp map.now }
{
    for (_, version) in map.range((start, end)) {
        out.insert(version.0)?;
    }
    Ok(())
}
