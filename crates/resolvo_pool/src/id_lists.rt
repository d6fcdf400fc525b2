//! Lists of values by id. They lie one after another, in the order in which they were put in, so
//! none has memory of its own. Its model is the list of pairs.
ghost use Rattle.std.specs.Prelude.{◌≡◌, [], Some, false, OnOk, OnErr, IsOkUnless};
ghost use Rattle.std.specs.Option.{option_copied, is_some};
ghost use Rattle.std.specs.Map.{lookup};
ghost use Rattle.resolvo_pool_core.specs.declared.want.Want.TheVariants.{Memory};
ghost use Rattle.resolvo_pool.specs.Keyed.{PutsKey};

use crate::places::Places;
use resolvo_pool_core::flat_lists::FlatLists;
use resolvo_pool_core::id_map::{IdMap, OptionalNumber};
use resolvo_pool_core::want::R;
use std::alloc::Global;
use std::marker::Model;

/// Lists of values by id.
#[derive(Drop)]
pub struct IdLists<K: Copy + Eq, T, M: IdMap<K, OptionalNumber>> {
    places: Places<K, M>,
    lists: FlatLists<T>,
}

impl<K: Copy + Eq, T, M: IdMap<K, OptionalNumber>> Model for IdLists<K, T, M> {
    ghost use Rattle.std.specs.Prelude.{◌≡◌, List, length};
    ghost use Rattle.std.specs.List.{zip};

    ghost Value = { List (K × List T) };

    ghost view = { λ t. zip t.places t.lists };

    ghost invariant = { λ t. length t.lists ≡ length t.places };
}

impl<K: Copy + Eq, T: Copy, M: IdMap<K, OptionalNumber> + Drop> IdLists<K, T, M> {
    /// No lists.
    pub fn new(alloc: Global) -> IdLists<K, T, M>
        ensures { result ≡ [] }
    {
        IdLists {
            places: Places::new(alloc),
            lists: FlatLists::new(alloc),
        }
    }

    /// The list of an id, if it has one.
    pub fn get(&self, id: K) -> Option<&[T]>
        ensures value { option_copied result ≡ lookup (K.eq id) self.now }
    {
        match self.places.get(id) {
            None => None,
            Some(place) => Some(self.lists.get(place as usize)),
        }
    }

    /// Whether an id has a list.
    pub fn contains(&self, id: K) -> bool
        ensures { result ≡ is_some (lookup (K.eq id) self.now) }
    {
        self.get(id).is_some()
    }

    /// Puts in the list of an id that has none.
    pub fn put(&mut self, id: K, list: &[T]) -> R<()>
        requires { is_some (lookup (K.eq id) self.old) ≡ false }
        ensures put { OnOk result (PutsKey K.eq self.old self.new id list.now) }
        ensures found { OnOk result (lookup (K.eq id) self.new ≡ Some list.now) }
        ensures err { OnErr result (self.new ≡ self.old) }
        ensures refusal { IsOkUnless result Memory }
    {
        self.lists.push(list)?;
        match self.places.put(id) {
            Ok(()) => Ok(()),
            Err(want) => {
                self.lists.pop();
                Err(want)
            }
        }
    }
}
