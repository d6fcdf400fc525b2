//! Lists by key. The entries of a key are in the order in which they were added.
ghost use Rattle.std.specs.Prelude.{◌≡◌, ◌++◌, ◌∷◌, [], cond, OnOk, IsOkUnless};
ghost use Rattle.resolvo_pool_core.specs.declared.want.Want.TheVariants.{Memory};
ghost use Rattle.resolvo_proof.specs.ByKey.{listed};

use resolvo_pool_core::want::R;
use std::alloc::Global;
use std::collections::HashMap;
use std::hash::Hash;

/// Lists by key.
#[derive(Drop)]
pub(crate) struct ListsByKey<K: Eq + Hash, X> {
    alloc: Global,
    lists: HashMap<K, Vec<X>>,
}

impl<K: Copy + Eq + Hash, X: Copy> ListsByKey<K, X> {
    /// No entries.
    pub(crate) fn new(alloc: Global) -> ListsByKey<K, X>
        ensures { (k : K) → listed K.eq result k ≡ [] }
    {
        ListsByKey {
            alloc,
            lists: HashMap::new(alloc),
        }
    }

    /// Adds an entry to those of its key.
    pub(crate) fn add(&mut self, key: K, entry: X) -> R<()>
        ensures added { OnOk result
            ((k : K)
            → listed K.eq self.new k
            ≡ cond (K.eq key k) (listed K.eq self.old key ++ entry ∷ []) (listed K.eq self.old k)) }
        ensures refusal { IsOkUnless result Memory }
    {
        if let Some(list) = self.lists.get_mut(&key) {
            list.push(entry)?;
            return Ok(());
        }
        let mut list = Vec::new(self.alloc);
        list.push(entry)?;
        self.lists.insert(key, list)?;
        Ok(())
    }

    /// The entries of a key.
    pub(crate) fn get(&self, key: K) -> &[X]
        ensures { result.now ≡ listed K.eq self.now key }
    {
        match self.lists.get(&key) {
            Some(list) => list.as_slice(),
            None => &[],
        }
    }
}
