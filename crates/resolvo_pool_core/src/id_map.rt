//! Sets and total maps of ids, as traits, and the collections of std that serve as them.
//! The model of a set is a test of ids; of a map, a function from ids to values. The solver keeps
//! its tables by id in them, dense and sparse ids alike.
ghost use Rattle.std.specs.Prelude.{◌≡◌, ℕ, ◌≤◌, ◌*◌, ◌/◌, Bool, true, false, not, IfOk, OnOk, OnErr, IsOkUnless, slice_index_or, Some, None, ◌<◌};
ghost use Rattle.std.specs.Option.{unwrap_or};
ghost use Rattle.std.specs.HashMap.{get};
ghost use Rattle.std.specs.HashSet.{contains};
ghost use Rattle.resolvo_pool_core.specs.Ids.{Puts, Same};
ghost use Rattle.resolvo_pool_core.specs.declared.want.Want.TheVariants.{Memory};

use crate::id::DenseIndex;
use crate::want::R;
use std::alloc::Global;
use std::collections::{HashMap, HashSet};
use std::hash::{BuildHasher, Hash};
use std::marker::Model;

/// A type with one default value.
pub trait OneDefault: Default {
    /// The default value.
    ghost blank: { Self };

    /// `default` gives no other.
    ghost only: { (x : Self) → Self.is_default x → x ≡ blank };
}

impl OneDefault for u64 {
    ghost blank = { 0 };

    ghost only = { λ x h. h };
}

/// A number, or none: the value in a map for an id that may have a number.
/// Its model is the optional number. It is kept in four bytes, since tables by id are made of it.
#[derive(Clone, Copy, Debug, PartialEq, Eq)]
pub struct OptionalNumber {
    /// One more than the number, or 0 for none.
    raised: u32,
}

impl Model for OptionalNumber {
    ghost use Rattle.std.specs.Prelude.{Option, ℕ};
    ghost use Rattle.resolvo_pool_core.specs.Ordered.{less_one, one_more, one_more-less_one};

    ghost Value = { Option ℕ };

    ghost view = { λ n. less_one n.raised };

    ghost inverse = { λ o. record { raised = one_more o } };

    ghost inverse_ok = { λ n _. λ i. record { raised = one_more-less_one n.raised i } };
}

impl OptionalNumber {
    /// A number.
    pub fn of(number: u32) -> OptionalNumber
        requires { number < 4294967295 }
        ensures { result ≡ Some number }
    {
        OptionalNumber { raised: number + 1 }
    }

    /// The number, if there is one.
    pub fn get(self) -> Option<u32>
        ensures { result ≡ self }
    {
        self.raised.checked_sub(1)
    }
}

impl Default for OptionalNumber {
    ghost is_default = { λ x. x ≡ None };

    fn default() -> OptionalNumber {
        OptionalNumber { raised: 0 }
    }
}

impl OneDefault for OptionalNumber {
    ghost blank = { None };

    ghost only = { λ x h. h };
}

/// A set of ids.
pub trait IdSet<K: Eq> {
    /// Whether an id is in it.
    ghost has: { Self → K → Bool };

    /// An empty set.
    fn new(alloc: Global) -> Self
        ensures { (k : K) → has result k ≡ false };

    /// Whether an id is in it.
    fn contains(&self, id: K) -> bool
        ensures { result ≡ has self.now id };

    /// Inserts an id; true where it was new.
    fn insert(&mut self, id: K) -> R<bool>
        ensures added { IfOk result (λ new. new ≡ not (has self.old id)) }
        ensures put { OnOk result (Puts K.eq (has self.old) (has self.new) id true) }
        ensures err { OnErr result (Same (has self.old) (has self.new)) }
        ensures refusal { IsOkUnless result Memory };
}

/// A total map: an id that was not set has the default value.
pub trait IdMap<K: Eq, V: Copy + OneDefault> {
    /// The value of an id.
    ghost value_of: { Self → K → V };

    /// A map in which no id was set.
    fn new(alloc: Global) -> Self
        ensures { (k : K) → value_of result k ≡ V.blank };

    /// The value of an id.
    fn get(&self, id: K) -> V
        ensures { result ≡ value_of self.now id };

    /// Sets the value of an id.
    fn set(&mut self, id: K, value: V) -> R<()>
        ensures put { OnOk result (Puts K.eq (value_of self.old) (value_of self.new) id value) }
        ensures err { OnErr result (Same (value_of self.old) (value_of self.new)) }
        ensures refusal { IsOkUnless result Memory };
}

/// Scores by id, which decay. It is a total map of its own, in which an id that was not set has 0.
///
/// It repeats the calls of `IdMap` at `u64` and doesn't extend that trait. A struct whose model is
/// over two types of ids gets no proof at concrete types if each type brings one more trait.
pub trait ScoreMap<K: Eq> {
    /// The score of an id.
    ghost score_of: { Self → K → ℕ };

    /// A map in which no id was set.
    fn new(alloc: Global) -> Self
        ensures { (k : K) → score_of result k ≡ 0 };

    /// The score of an id.
    fn get(&self, id: K) -> u64
        ensures { result ≡ score_of self.now id };

    /// Sets the score of an id.
    fn set(&mut self, id: K, score: u64) -> R<()>
        ensures put { OnOk result (Puts K.eq (score_of self.old) (score_of self.new) id score) }
        ensures err { OnErr result (Same (score_of self.old) (score_of self.new)) }
        ensures refusal { IsOkUnless result Memory };

    /// Scales each score by `per_million` millionths, rounding down.
    fn scale(&mut self, per_million: u64)
        requires { per_million ≤ 1000000 }
        ensures { (k : K) → score_of self.new k ≡ (score_of self.old k * per_million) / 1000000 };
}

impl<K: DenseIndex, V: Copy + OneDefault> IdMap<K, V> for Vec<V> {
    ghost value_of = { λ m k. slice_index_or m.items (K.index_of k) V.blank };

    fn new(alloc: Global) -> Vec<V> {
        Vec::new(alloc)
    }

    fn get(&self, id: K) -> V {
        let i = id.to_index();
        if i < self.len() {
            self[i]
        } else {
            V::default()
        }
    }

    fn set(&mut self, id: K, value: V) -> R<()> {
        let i = id.to_index();
        if i == self.len() {
            self.push(value)?;
            return Ok(());
        }
        if i > self.len() {
            self.resize(i + 1, V::default())?;
        }
        self[i] = value;
        Ok(())
    }
}

impl<K: Copy + Eq + Hash, V: Copy + OneDefault, S: BuildHasher + Default> IdMap<K, V>
    for HashMap<K, V, S> {
    ghost value_of = { λ m k. unwrap_or (get K.eq m k) V.blank };

    fn new(alloc: Global) -> HashMap<K, V, S> {
        HashMap::with_hasher(alloc, S::default())
    }

    fn get(&self, id: K) -> V {
        match HashMap::get(self, &id) {
            Some(value) => *value,
            None => V::default(),
        }
    }

    fn set(&mut self, id: K, value: V) -> R<()> {
        self.insert(id, value)?;
        Ok(())
    }
}

impl<K: DenseIndex> ScoreMap<K> for Vec<u64> {
    ghost score_of = { λ m k. slice_index_or m.items (K.index_of k) 0 };

    fn new(alloc: Global) -> Vec<u64> {
        Vec::new(alloc)
    }

    fn get(&self, id: K) -> u64 {
        <Vec<u64> as IdMap<K, u64>>::get(self, id)
    }

    fn set(&mut self, id: K, score: u64) -> R<()> {
        <Vec<u64> as IdMap<K, u64>>::set(self, id, score)
    }

    fn scale(&mut self, per_million: u64) {
        for score in self.iter_mut() {
            *score = scaled(*score, per_million);
        }
    }
}

impl<K: Copy + Eq + Hash, S: BuildHasher + Default> ScoreMap<K> for HashMap<K, u64, S> {
    ghost score_of = { λ m k. unwrap_or (get K.eq m k) 0 };

    fn new(alloc: Global) -> HashMap<K, u64, S> {
        HashMap::with_hasher(alloc, S::default())
    }

    fn get(&self, id: K) -> u64 {
        <HashMap<K, u64, S> as IdMap<K, u64>>::get(self, id)
    }

    fn set(&mut self, id: K, score: u64) -> R<()> {
        <HashMap<K, u64, S> as IdMap<K, u64>>::set(self, id, score)
    }

    fn scale(&mut self, per_million: u64) {
        self.retain(|_, score| {
            *score = scaled(*score, per_million);
            true
        });
    }
}

/// So many millionths of a score, rounded down.
fn scaled(score: u64, per_million: u64) -> u64
    requires { per_million ≤ 1000000 }
    ensures { result ≡ (score * per_million) / 1000000 }
{
    let product = u128::from(score) * u128::from(per_million);
    (product / 1_000_000) as u64
}

impl<K: Copy + Eq + Hash, S: BuildHasher + Default> IdSet<K> for HashSet<K, S> {
    ghost has = { λ s k. contains K.eq s k };

    fn new(alloc: Global) -> HashSet<K, S> {
        HashSet::with_hasher(alloc, S::default())
    }

    fn contains(&self, id: K) -> bool {
        HashSet::contains(self, &id)
    }

    fn insert(&mut self, id: K) -> R<bool> {
        Ok(HashSet::insert(self, id)?)
    }
}
