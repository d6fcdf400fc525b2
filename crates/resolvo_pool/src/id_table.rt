//! Values by id, in the order in which they were put in. Its model is the list of pairs.
ghost use Rattle.std.specs.Prelude.{◌≡◌, [], Some, false, OnOk, OnErr, IsOkUnless};
ghost use Rattle.std.specs.Option.{option_copied, is_some};
ghost use Rattle.std.specs.Map.{lookup};
ghost use Rattle.resolvo_pool_core.specs.declared.want.Want.TheVariants.{Memory};
ghost use Rattle.resolvo_pool.specs.Keyed.{PutsKey};

use crate::places::Places;
use resolvo_pool_core::id_map::{IdMap, OptionalNumber};
use resolvo_pool_core::want::R;
use std::alloc::Global;
use std::marker::Model;

/// Values by id.
#[derive(Drop)]
pub struct IdTable<K: Copy + Eq, V, M: IdMap<K, OptionalNumber>> {
    places: Places<K, M>,
    values: Vec<V>,
}

impl<K: Copy + Eq, V, M: IdMap<K, OptionalNumber>> Model for IdTable<K, V, M> {
    ghost use Rattle.std.specs.Prelude.{◌≡◌, List, length};
    ghost use Rattle.std.specs.List.{zip};

    ghost Value = { List (K × V) };

    ghost view = { λ t. zip t.places t.values.items };

    ghost invariant = { λ t. length t.values.items ≡ length t.places };
}

impl<K: Copy + Eq, V: Drop, M: IdMap<K, OptionalNumber> + Drop> IdTable<K, V, M> {
    /// An empty table.
    pub fn new(alloc: Global) -> IdTable<K, V, M>
        ensures { result ≡ [] }
    {
        IdTable {
            places: Places::new(alloc),
            values: Vec::new(alloc),
        }
    }

    /// The value of an id, if it has one.
    pub fn get(&self, id: K) -> Option<&V>
        ensures value { option_copied result ≡ lookup (K.eq id) self.now }
    {
        match self.places.get(id) {
            None => None,
            Some(place) => Some(&self.values[place as usize]),
        }
    }

    /// Whether an id has a value.
    pub fn contains(&self, id: K) -> bool
        ensures { result ≡ is_some (lookup (K.eq id) self.now) }
    {
        self.get(id).is_some()
    }

    /// Puts in the value of an id that has none.
    pub fn put(&mut self, id: K, value: V) -> R<()>
        requires { is_some (lookup (K.eq id) self.old) ≡ false }
        ensures put { OnOk result (PutsKey K.eq self.old self.new id value) }
        ensures found { OnOk result (lookup (K.eq id) self.new ≡ Some value) }
        ensures err { OnErr result (self.new ≡ self.old) }
        ensures refusal { IsOkUnless result Memory }
    {
        self.values.reserve(1)?;
        self.places.put(id)?;
        self.values.push_reserved(value);
        Ok(())
    }
}
