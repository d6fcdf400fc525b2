//! Ids that a solver takes, with the collections of each kind, and a solvable or the root. Dense
//! ids are kept in vectors, sparse ones in hashed maps; both are the same total maps.
ghost use Rattle.std.specs.Prelude.{◌≡◌, refl, None, Some};
ghost use Rattle.resolvo_pool_core.specs.Indexes.{indexed_parent, one_parent, alone_parent};
ghost use Rattle.resolvo_pool_core.specs.Text.{root_or};
ghost use Rattle.resolvo_pool_core.specs.declared.solver_id.SolvableIdOrRoot.TheVariants.{Root, Solvable};

use crate::id::{DenseId, DenseIndex, Exact, SparseId};
use crate::id_map::{IdMap, IdSet, OptionalNumber, ScoreMap};
use crate::indexed_set::IndexedSet;
use crate::provider::Interner;
use crate::want::R;
use std::alloc::Global;
use std::collections::{HashMap, HashSet};
use std::fmt;
use std::fmt::Debug;
use std::hash::{BuildHasher, Hash};

/// A type of ids that a solver takes, with its collections.
pub trait SolverId: Copy + Exact + Hash + Debug {
    /// A number for some ids.
    type OptionalIds: IdMap<Self, OptionalNumber> + Drop;

    /// A score for each id.
    type Scores: ScoreMap<Self> + Drop;

    /// A set of ids.
    type Set: IdSet<Self> + Drop;
}

impl<Tag, Repr: DenseIndex + Hash + Debug> SolverId for DenseId<Tag, Repr> {
    type OptionalIds = Vec<OptionalNumber>;

    type Scores = Vec<u64>;

    type Set = IndexedSet<DenseId<Tag, Repr>>;
}

impl<Tag, Repr: Copy + Exact + Hash + Debug, H: BuildHasher + Default + Drop> SolverId
    for SparseId<Tag, Repr, H> {
    type OptionalIds = HashMap<SparseId<Tag, Repr, H>, OptionalNumber, H>;

    type Scores = HashMap<SparseId<Tag, Repr, H>, u64, H>;

    type Set = HashSet<SparseId<Tag, Repr, H>, H>;
}

/// A solvable, or the problem itself, whose requirements and constraints are the root's.
#[derive(Clone, Copy, Debug, PartialEq, Eq, Hash)]
pub enum SolvableIdOrRoot<S> {
    Root,
    Solvable(S),
}

impl<S: Exact> Exact for SolvableIdOrRoot<S> {
    ghost indexed = { indexed_parent S.indexed };

    ghost exact = { one_parent Self.eq (λ s t h. S.exact s t h) (λ s. refl) (λ s. refl) };

    ghost alone = { alone_parent S.indexed S.alone };

    fn index(&self) -> Option<u32> {
        match self {
            SolvableIdOrRoot::Root => None,
            SolvableIdOrRoot::Solvable(id) => id.index(),
        }
    }
}

impl<S> SolvableIdOrRoot<S> {
    /// The root.
    pub fn root() -> SolvableIdOrRoot<S>
        ensures { result ≡ Root }
    {
        SolvableIdOrRoot::Root
    }
}

impl<S: Copy> SolvableIdOrRoot<S> {
    ghost use Rattle.resolvo_pool_core.specs.Text.{solvable_of};

    /// The solvable, if this is not the root.
    pub fn solvable(self) -> Option<S>
        ensures { result ≡ solvable_of self }
    {
        match self {
            SolvableIdOrRoot::Root => None,
            SolvableIdOrRoot::Solvable(id) => Some(id),
        }
    }
}

impl<S: SolverId> SolvableIdOrRoot<S> {
    /// Writes `root`, or the solvable as `interner` writes it.
    pub fn display<'a, I: Interner<SolvableId = S>>(
        self,
        interner: &'a I,
    ) -> DisplaySolvableIdOrRoot<'a, I>
        ensures id { result.id ≡ self }
        ensures interner { result.interner.now ≡ interner.now }
    {
        DisplaySolvableIdOrRoot { id: self, interner }
    }
}

impl<S> From<S> for SolvableIdOrRoot<S> {
    ghost from_gives = { λ s r. r ≡ Solvable s };

    fn from(solvable: S) -> SolvableIdOrRoot<S> {
        SolvableIdOrRoot::Solvable(solvable)
    }
}

/// A solvable or the root, to be written.
#[derive(Drop)]
pub struct DisplaySolvableIdOrRoot<'a, I: Interner> {
    pub id: SolvableIdOrRoot<I::SolvableId>,
    pub interner: &'a I,
}

impl<I: Interner> fmt::Display for DisplaySolvableIdOrRoot<'_, I> {
    ghost output = { λ d. Some (root_or (I.solvable_text d.interner.now) d.id) };

    fn fmt<W: fmt::Write>(&self, f: &mut fmt::Formatter<W>) -> fmt::Result {
        match self.id {
            SolvableIdOrRoot::Root => f.write_str("root"),
            SolvableIdOrRoot::Solvable(solvable) => self.interner.display_solvable(solvable, f),
        }
    }
}

/// A set of solvables that may hold the root too.
#[derive(Drop)]
pub struct WithRootSet<S: SolverId> {
    root: bool,
    solvables: S::Set,
}

impl<S: SolverId> IdSet<SolvableIdOrRoot<S>> for WithRootSet<S> {
    ghost use Rattle.resolvo_pool_core.specs.Text.{has_or_root};

    ghost has = { λ w k. has_or_root w.root (S.Set.has w.solvables) k };

    fn new(alloc: Global) -> WithRootSet<S> {
        WithRootSet {
            root: false,
            solvables: S::Set::new(alloc),
        }
    }

    fn contains(&self, id: SolvableIdOrRoot<S>) -> bool {
        match id {
            SolvableIdOrRoot::Root => self.root,
            SolvableIdOrRoot::Solvable(solvable) => self.solvables.contains(solvable),
        }
    }

    fn insert(&mut self, id: SolvableIdOrRoot<S>) -> R<bool> {
        match id {
            SolvableIdOrRoot::Root => {
                let new = !self.root;
                self.root = true;
                Ok(new)
            }
            SolvableIdOrRoot::Solvable(solvable) => self.solvables.insert(solvable),
        }
    }
}
