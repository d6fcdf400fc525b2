//! Values that are copied out, by key. Its model is the list of pairs of the hashed map. It is for
//! callers that cache small answers by key.
ghost use Rattle.std.specs.Prelude.{◌≡◌, [], OnOk, OnErr, IsOkUnless};
ghost use Rattle.std.specs.Map.{lookup};
ghost use Rattle.resolvo_pool_core.specs.declared.want.Want.TheVariants.{Memory};
ghost use Rattle.resolvo_pool.specs.Keyed.{PutsKey};

use resolvo_pool_core::want::R;
use std::alloc::Global;
use std::collections::HashMap;
use std::hash::{BuildHasher, BuildHasherDefault, FoldHasher, Hash};
use std::marker::Model;

/// Copies of values, by key.
#[derive(Drop)]
pub struct FrozenCopyMap<K: Eq + Hash, V, S: BuildHasher = BuildHasherDefault<FoldHasher>> {
    map: HashMap<K, V, S>,
}

impl<K: Eq + Hash, V, S: BuildHasher> Model for FrozenCopyMap<K, V, S> {
    ghost use Rattle.std.specs.Prelude.{List};

    ghost Value = { List (K × V) };

    ghost view = { λ m. m.map.entries };
}

impl<K: Copy + Eq + Hash, V: Copy, S: BuildHasher + Default> FrozenCopyMap<K, V, S> {
    /// An empty map.
    pub fn new(alloc: Global) -> FrozenCopyMap<K, V, S>
        ensures { result ≡ [] }
    {
        FrozenCopyMap {
            map: HashMap::with_hasher(alloc, S::default()),
        }
    }

    /// The value of a key.
    pub fn get_copy(&self, key: &K) -> Option<V>
        ensures { result ≡ lookup (K.eq key.now) self.now }
    {
        self.map.get(key).copied()
    }

    /// Inserts a value, which replaces the key's previous one.
    pub fn insert_copy(&mut self, key: K, value: V) -> R<()>
        ensures put { OnOk result (PutsKey K.eq self.old self.new key value) }
        ensures err { OnErr result (self.new ≡ self.old) }
        ensures refusal { IsOkUnless result Memory }
    {
        self.map.insert(key, value)?;
        Ok(())
    }
}
