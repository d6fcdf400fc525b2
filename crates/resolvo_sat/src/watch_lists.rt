//! The watch lists, the unit clauses, and the pending clauses.
ghost use Rattle.std.specs.Prelude.{◌≡◌, slice_get, Some, IsOkUnless};
ghost use Rattle.resolvo_pool_core.specs.declared.want.Want.TheVariants.{Memory};
ghost use Rattle.resolvo_store_core.specs.Watches.{watchers, pair_at, IsWatched};
ghost use Rattle.resolvo_sat.specs.Pending.{KeepsLists};

use crate::marks::Marks;
use resolvo_pool_core::id::{ClauseId, DenseIndex};
use resolvo_pool_core::want::R;
use resolvo_store_core::literal::Literal;
use resolvo_store_core::watch_map::{WatchMap, WatchMapCursor};
use resolvo_store_core::watched_literals::WatchedLiterals;
use resolvo_store_core::watched_pair::WatchedPair;

/// A unit clause.
#[derive(Clone, Copy)]
pub struct UnitClause {
    pub clause: ClauseId,
    pub literal: Literal,
}

/// A literal that a new clause sets at once, and another one of it, which is false.
#[derive(Clone, Copy)]
pub struct Start {
    pub clause: ClauseId,
    pub watched: WatchedLiterals,
}

/// Notes that the trail's first entries make the first unit clauses of both lists true.
#[derive(Clone, Copy)]
pub struct UnitsDone {
    /// How many entries these are. The note holds as long as so many are propagated.
    pub entries: usize,
    /// How many unit clauses that are rules are true.
    pub assertions: usize,
    /// How many learnt ones are.
    pub learnt: usize,
}

/// The watched literals of each clause, the clauses that watch each literal, the unit clauses
/// (rules and learnt ones), and the pending clauses.
#[derive(Drop)]
pub struct WatchLists {
    pub watched: Vec<WatchedPair>,
    pub watches: WatchMap,
    pub assertions: Vec<UnitClause>,
    pub learnt: Vec<UnitClause>,
    /// The unit clauses that need no visit, newest note last.
    pub units_done: Vec<UnitsDone>,
    /// The clauses that were added since the last propagation, while one of the literals that they
    /// watch was false.
    pub pending: Vec<ClauseId>,
    /// The place on the trail at which each variable was last seen, or is to be. No proof rests on it.
    pub places: Vec<u32>,
    /// How many of each clause's first literals are false at the first level, as far as it is known.
    /// A search for a replacement watch looks at them last. No proof rests on it either.
    pub passed: Vec<u32>,
    /// What new clauses set at once, in their order: the literal, and beside it another one. No proof
    /// rests on it: it is tested.
    pub at_once: Vec<Start>,
    /// Whether a clause was falsified as it was added, since the last propagation. No proof rests on
    /// it.
    pub is_broken: bool,
    /// The variables that the present analysis marked. No proof rests on those of earlier ones.
    pub seen: Marks,
}

impl WatchLists {
    /// The watched literals of the clause at a cursor.
    pub(crate) fn pair(&self, cursor: WatchMapCursor, clause: ClauseId) -> WatchedLiterals
        requires fit { IsWatched self.now.watched.items (watchers self.now.watches) }
        requires present { slice_get (watchers self.now.watches cursor.literal) cursor.place
            ≡ Some clause }
        ensures { pair_at self.now.watched.items clause.0 ≡ Some result }
    {
        self.pair_of(clause).unwrap()
    }

    /// The watched literals of a clause, if it has any.
    pub(crate) fn pair_of(&self, clause: ClauseId) -> Option<WatchedLiterals>
        ensures { result ≡ pair_at self.now.watched.items clause.0 }
    {
        let index = clause.to_index();
        if index < self.watched.len() {
            self.watched[index].get()
        } else {
            None
        }
    }

    /// How many of a clause's first literals are known to be false at the first level.
    pub(crate) fn passed_of(&self, clause: ClauseId) -> usize {
        let index = clause.to_index();
        if index < self.passed.len() {
            self.passed[index] as usize
        } else {
            0
        }
    }

    /// Drops what is known of the clauses' first literals: entries of the first level are undone.
    pub(crate) fn drop_passed(&mut self)
        ensures { KeepsLists self.old self.new }
    {
        self.passed.clear();
    }

    /// Notes how many of a clause's first literals are false at the first level.
    pub(crate) fn set_passed(&mut self, clause: ClauseId, passed: usize) -> R<()>
        ensures kept { KeepsLists self.old self.new }
        ensures refusal { IsOkUnless result Memory }
    {
        let passed = small(passed);
        let index = clause.to_index();
        for _ in self.passed.len()..index + 1 {
            self.passed.push(0)?;
        }
        if index < self.passed.len() {
            self.passed[index] = passed;
        }
        Ok(())
    }
}

/// A count of a hint, or the greatest one that is kept.
pub(crate) fn small(count: usize) -> u32 {
    if count < 4_294_967_295 {
        count as u32
    } else {
        u32::MAX
    }
}
