//! Ids in the order in which they were put in, with the place of each. The places are in a map by
//! id, so a look-up of a dense id hashes nothing. Its model is the list of ids.
ghost use Rattle.std.specs.Prelude.{◌≡◌, ◌++◌, ◌∷◌, [], None, OnOk, OnErr, IsOkUnless};
ghost use Rattle.resolvo_pool_core.specs.declared.want.Want.TheVariants.{Memory};
ghost use Rattle.resolvo_pool.specs.Keyed.{place_in};

use resolvo_pool_core::id_map::{IdMap, OptionalNumber};
use resolvo_pool_core::want::{R, Want};
use std::alloc::Global;
use std::marker::Model;

/// Ids, each with its place.
#[derive(Drop)]
pub struct Places<K: Copy + Eq, M: IdMap<K, OptionalNumber>> {
    ids: Vec<K>,
    places: M,
}

impl<K: Copy + Eq, M: IdMap<K, OptionalNumber>> Model for Places<K, M> {
    ghost use Rattle.std.specs.Prelude.{List};
    ghost use Rattle.resolvo_pool.specs.Keyed.{ArePlaces};

    ghost Value = { List K };

    ghost view = { λ p. p.ids.items };

    ghost invariant = { λ p. ArePlaces K.eq (M.value_of p.places) p.ids.items };
}

impl<K: Copy + Eq, M: IdMap<K, OptionalNumber> + Drop> Places<K, M> {
    /// No ids.
    pub fn new(alloc: Global) -> Places<K, M>
        ensures { result ≡ [] }
    {
        Places {
            ids: Vec::new(alloc),
            places: M::new(alloc),
        }
    }

    /// The place of an id, if it is here.
    #[inline(always)]
    pub fn get(&self, id: K) -> Option<u32>
        ensures { result ≡ place_in K.eq self.now id }
    {
        self.places.get(id).get()
    }

    /// Puts an id that isn't here after the others.
    pub fn put(&mut self, id: K) -> R<()>
        requires { place_in K.eq self.old id ≡ None }
        ensures put { OnOk result (self.new ≡ self.old ++ id ∷ []) }
        ensures err { OnErr result (self.new ≡ self.old) }
        ensures refusal { IsOkUnless result Memory }
    {
        let place = self.ids.len();
        if place >= u32::MAX as usize {
            return Err(Want::Memory);
        }
        self.ids.reserve(1)?;
        self.places.set(id, OptionalNumber::of(place as u32))?;
        self.ids.push_reserved(id);
        Ok(())
    }
}
