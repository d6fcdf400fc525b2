//! The places of the listed cases that name each package. Those of one package are linked, from the
//! last one to the first. No contract depends on them.
ghost use Rattle.std.specs.Prelude.{IsOkUnless};
ghost use Rattle.resolvo_pool_core.specs.declared.want.Want.TheVariants.{Memory};

use resolvo_pool_core::id::Exact;
use resolvo_pool_core::ordered_set::OrderedSet;
use resolvo_pool_core::want::{R, Want};
use std::alloc::Global;
use std::fmt::Debug;
use std::hash::Hash;

/// A listed case, with the link to the case before it that names its package.
#[derive(Clone, Copy)]
struct NamedCase {
    place: usize,
    /// One more than the index of the link before this one, or 0.
    previous: u32,
}

/// The places of the listed cases that name each package.
#[derive(Drop)]
pub struct NamedCases<N: Copy + Exact + Hash> {
    names: OrderedSet<N>,
    /// One more than the index of the last link of each package, or 0. At least one for each
    /// package.
    last: Vec<u32>,
    links: Vec<NamedCase>,
}

impl<N: Copy + Exact + Hash + Debug + Drop> NamedCases<N> {
    /// No case.
    pub(crate) fn new(alloc: Global) -> NamedCases<N> {
        NamedCases {
            names: OrderedSet::new(alloc),
            last: Vec::new(alloc),
            links: Vec::new(alloc),
        }
    }

    /// Records that the case at this place names a package.
    pub(crate) fn add(&mut self, name: N, place: usize) -> R<()>
        ensures { IsOkUnless result Memory }
    {
        let index = self.index_of(name)?;
        if index >= self.last.len() {
            return Err(Want::Memory);
        }
        let previous = self.last[index];
        self.links.push(NamedCase { place, previous })?;
        match u32::try_from(self.links.len()) {
            Ok(link) => {
                self.last[index] = link;
                Ok(())
            }
            Err(_) => Err(Want::Memory),
        }
    }

    /// The index of a package, which is appended where it has none.
    fn index_of(&mut self, name: N) -> R<usize>
        ensures { IsOkUnless result Memory }
    {
        if let Some(index) = self.names.place_of(name) {
            return Ok(index);
        }
        let index = self.names.len();
        self.last.push(0)?;
        self.names.push(name)?;
        Ok(index)
    }

    /// Appends the places of the cases that name a package.
    pub(crate) fn push_each(&self, name: N, places: &mut Vec<usize>) -> R<()>
        ensures { IsOkUnless result Memory }
    {
        let mut next = self.last_of(name);
        for _ in 0..self.links.len() {
            match self.link(next) {
                None => return Ok(()),
                Some(link) => {
                    places.push(link.place)?;
                    next = link.previous;
                }
            }
        }
        Ok(())
    }

    /// One more than the index of the last link of a package, or 0.
    fn last_of(&self, name: N) -> u32 {
        match self.names.place_of(name) {
            None => 0,
            Some(index) => self.last.get(index).copied().unwrap_or(0),
        }
    }

    /// The link with this index, which is given as one more; none for 0.
    fn link(&self, link: u32) -> Option<NamedCase> {
        if link == 0 {
            return None;
        }
        self.links.get(link as usize - 1).copied()
    }
}
