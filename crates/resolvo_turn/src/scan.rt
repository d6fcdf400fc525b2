//! How far the trail and the deferred cases are scanned: a round scans what is new. No contract
//! depends on what it finds, since before a turn ends all is scanned.
ghost use Rattle.std.specs.Prelude.{IsOkUnless};
ghost use Rattle.resolvo_pool_core.specs.declared.want.Want.TheVariants.{Memory};

use crate::named_cases::NamedCases;
use crate::waiting_conditions::WaitingConditions;
use resolvo_encoder::encoder::Encoder;
use resolvo_packages::package_source::PackageSource;
use resolvo_pool_core::id::{ConditionId, Exact};
use resolvo_pool_core::want::R;
use std::alloc::Global;
use std::fmt::Debug;
use std::hash::Hash;
use std::ops::Range;

/// How far the trail is scanned, and which deferred cases may hold by the choices since.
pub struct Scan<N: Copy + Exact + Hash> {
    /// The number of scanned entries of the trail.
    entries: usize,
    /// The places of the listed cases that name each package.
    named: NamedCases<N>,
    /// The number of listed cases, of those that are deferred.
    listed: usize,
    /// The places of listed cases that may hold by the choices since their last scan.
    touched: Vec<usize>,
    /// The conditions of listed cases that wait.
    conditions: WaitingConditions,
    /// The places that were sorted last, each with its rank.
    ranked: Vec<(usize, usize)>,
}

// split for the prover: one drop
impl<N: Copy + Exact + Hash> Drop for Scan<N> {
    fn drop(self) {
        let Scan {
            entries: _,
            named: _,
            listed: _,
            touched: _,
            conditions: _,
            ranked: _,
        } = self;
    }
}

impl<N: Copy + Exact + Hash + Debug> Scan<N> {
    /// Before the first turn: nothing is scanned.
    pub(crate) fn new(alloc: Global) -> Scan<N> {
        Scan {
            entries: 0,
            named: NamedCases::new(alloc),
            listed: 0,
            touched: Vec::new(alloc),
            conditions: WaitingConditions::new(alloc),
            ranked: Vec::new(alloc),
        }
    }

    /// A turn begins: the entries of the trail are of earlier ones.
    pub(crate) fn begin_turn<S: Copy + Exact + Hash + Debug>(&mut self, encoding: &Encoder<N, S>) {
        self.entries = encoding.coding.search.tracker.stack().len();
    }

    /// The places of the cases that may hold, each once and by condition after `find_touched`.
    pub(crate) fn touched(&self) -> &[usize] {
        self.touched.as_slice()
    }

    /// Forgets the cases that may hold: they are scanned. Those that became clauses wait no longer.
    pub(crate) fn end_touched<S: Copy + Exact + Hash + Debug>(&mut self, encoding: &Encoder<N, S>) {
        for place in &self.touched {
            if encoding.fired.contains(*place) {
                self.conditions.end_case(condition_at(encoding, *place));
            }
        }
        self.touched.clear();
    }

    /// Follows a backjump, after which the trail got one entry at most.
    pub(crate) fn go_back<S: Copy + Exact + Hash + Debug>(&mut self, encoding: &Encoder<N, S>) {
        let end = encoding.coding.search.tracker.stack().len();
        self.entries = self.entries.min(end.saturating_sub(1));
    }

    /// The places of the trail's entries since its last scan. Scans them.
    pub(crate) fn new_entries<S: Copy + Exact + Hash + Debug>(
        &mut self,
        encoding: &Encoder<N, S>,
    ) -> Range<usize> {
        let end = encoding.coding.search.tracker.stack().len();
        let from = self.entries.min(end);
        self.entries = end;
        from..end
    }

    /// Marks the cases that name this package: they may hold.
    pub(crate) fn touch(&mut self, name: N) -> R<()>
        ensures { IsOkUnless result Memory }
    {
        self.named.push_each(name, &mut self.touched)
    }
}

/// Marks all entries and all cases as scanned.
pub(crate) fn mark_all<A: PackageSource>(
    answers: &A,
    encoding: &Encoder<A::NameId, A::SolvableId>,
    scan: &mut Scan<A::NameId>,
) -> R<()>
    ensures { IsOkUnless result Memory }
{
    list(answers, encoding, scan)?;
    scan.touched.clear();
    scan.entries = encoding.coding.search.tracker.stack().len();
    Ok(())
}

/// The condition of the deferred case at this place.
fn condition_at<N: Copy + Exact + Hash + Debug, S: Copy + Exact + Hash + Debug>(
    encoding: &Encoder<N, S>,
    place: usize,
) -> Option<ConditionId> {
    encoding.deferred.get(place)?.need.condition
}

/// Finds the new cases, and those that may hold by the decisions since their last scan. They come
/// by condition, and of one condition in the order in which they were deferred.
pub(crate) fn find_touched<A: PackageSource>(
    answers: &A,
    encoding: &Encoder<A::NameId, A::SolvableId>,
    scan: &mut Scan<A::NameId>,
) -> R<()>
    ensures { IsOkUnless result Memory }
{
    list(answers, encoding, scan)?;
    if scan.touched.len() < 2 {
        drop_spent(encoding, &mut scan.touched);
        return Ok(());
    }
    scan.ranked.clear();
    for place in &scan.touched {
        if !encoding.fired.contains(*place) {
            let rank = scan.conditions.rank(condition_at(encoding, *place));
            scan.ranked.push((rank, *place))?;
        }
    }
    scan.ranked.sort_unstable();
    scan.ranked.dedup();
    scan.touched.clear();
    for (_, place) in &scan.ranked {
        scan.touched.push(*place)?;
    }
    Ok(())
}

/// Drops the case that may hold, where it is the only one and is encoded.
fn drop_spent<N: Copy + Exact + Hash + Debug, S: Copy + Exact + Hash + Debug>(
    encoding: &Encoder<N, S>,
    touched: &mut Vec<usize>,
) {
    if let Some(place) = touched.first() {
        if encoding.fired.contains(*place) {
            touched.clear();
        }
    }
}

/// Lists the new cases that wait, which may hold.
fn list<A: PackageSource>(
    answers: &A,
    encoding: &Encoder<A::NameId, A::SolvableId>,
    scan: &mut Scan<A::NameId>,
) -> R<()>
    ensures { IsOkUnless result Memory }
{
    for place in scan.listed..encoding.deferred.len() {
        if !encoding.fired.contains(place) {
            for conjunct in &encoding.deferred[place].conjuncts {
                let name = answers.set_package(conjunct.version_set());
                scan.named.add(name, place)?;
            }
            scan.conditions.begin_case(condition_at(encoding, place))?;
            scan.touched.push(place)?;
        }
    }
    scan.listed = encoding.deferred.len();
    Ok(())
}
