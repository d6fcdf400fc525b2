//! A set of dense ids, kept as one flag for each index.
//! Its model is the list of flags; an id beyond the list is not in the set. It is the set type of
//! dense ids.
ghost use Rattle.std.specs.Prelude.{◌≡◌, [], true, false, not, IfOk, OnOk, OnErr, IsOkUnless, slice_index_or};
ghost use Rattle.resolvo_pool_core.specs.declared.want.Want.TheVariants.{Memory};
ghost use Rattle.resolvo_pool_core.specs.Ids.{Puts};

use crate::id::DenseIndex;
use crate::id_map::IdSet;
use crate::want::R;
use std::alloc::Global;
use std::marker::{Model, PhantomData};

/// A set of dense ids.
#[derive(Drop)]
pub struct IndexedSet<Id> {
    flags: Vec<bool>,
    of: PhantomData<Id>,
}

impl<Id> Model for IndexedSet<Id> {
    ghost use Rattle.std.specs.Prelude.{List, Bool};

    ghost Value = { List Bool };

    ghost view = { λ s. s.flags.items };
}

impl<Id: DenseIndex> IndexedSet<Id> {
    /// An empty set.
    pub fn new(alloc: Global) -> IndexedSet<Id>
        ensures { result ≡ [] }
    {
        IndexedSet {
            flags: Vec::new(alloc),
            of: PhantomData,
        }
    }

    /// Whether an id is in it.
    pub fn contains(&self, id: Id) -> bool
        ensures { result ≡ slice_index_or self.now (Id.index_of id) false }
    {
        let i = id.to_index();
        i < self.flags.len() && self.flags[i]
    }

    /// Inserts an id; true where it was new.
    pub fn insert(&mut self, id: Id) -> R<bool>
        ensures added { IfOk result
            (λ new. new ≡ not (slice_index_or self.old (Id.index_of id) false)) }
        ensures put { OnOk result
            (Puts Id.eq (λ k. slice_index_or self.old (Id.index_of k) false)
            (λ k. slice_index_or self.new (Id.index_of k) false) id true) }
        ensures err { OnErr result (self.new ≡ self.old) }
        ensures refusal { IsOkUnless result Memory }
    {
        let i = id.to_index();
        if i == self.flags.len() {
            self.flags.push(true)?;
            return Ok(true);
        }
        if i > self.flags.len() {
            self.flags.resize(i + 1, false)?;
        }
        let new = !self.flags[i];
        self.flags[i] = true;
        Ok(new)
    }
}

impl<Id: DenseIndex> IdSet<Id> for IndexedSet<Id> {
    ghost has = { λ s k. slice_index_or s (Id.index_of k) false };

    fn new(alloc: Global) -> IndexedSet<Id> {
        IndexedSet::new(alloc)
    }

    fn contains(&self, id: Id) -> bool {
        IndexedSet::contains(self, id)
    }

    fn insert(&mut self, id: Id) -> R<bool> {
        IndexedSet::insert(self, id)
    }
}
