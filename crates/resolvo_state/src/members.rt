//! The registered variables with their packages, in the order of registration.
ghost use Rattle.std.specs.Prelude.{◌≡◌, [], true, length, OnOk, IsOkUnless, Contains};
ghost use Rattle.resolvo_pool_core.specs.declared.want.Want.TheVariants.{Memory};
ghost use Rattle.resolvo_state.specs.Keys.{Includes};

use crate::registry::Member;
use resolvo_pool_core::id::{DenseIndex, Exact, VariableId};
use resolvo_pool_core::want::R;
use std::alloc::Global;
use std::fmt::Debug;
use std::marker::Model;

/// The registered variables with their packages, in the order of registration.
#[derive(Drop)]
pub struct Members<N> {
    keys: Vec<Member<N>>,
    /// The place of each variable's last member. No proof rests on it.
    places: Vec<u32>,
}

impl<N> Model for Members<N> {
    ghost use Rattle.resolvo_pool_core.specs.Ordered.{Ordered};
    ghost use Rattle.resolvo_state.specs.declared.registry.Member.{Member as One};

    ghost Value = { Ordered (One N) };

    ghost view = { λ m. record { keys = m.keys.items } };
}

impl<N: Copy + Exact + Debug> Members<N> {
    /// No member.
    pub fn new(alloc: Global) -> Members<N>
        ensures { result.keys ≡ [] }
    {
        Members {
            keys: Vec::new(alloc),
            places: Vec::new(alloc),
        }
    }

    /// The number of members.
    pub fn len(&self) -> usize
        ensures { result ≡ length self.now.keys }
    {
        self.keys.len()
    }

    /// The members, in order.
    pub fn as_slice(&self) -> &[Member<N>]
        ensures { result.now ≡ self.now.keys }
    {
        self.keys.as_slice()
    }

    /// Appends a member, unless it is its variable's last one.
    pub fn insert(&mut self, member: Member<N>) -> R<()>
        ensures included { OnOk result (Includes self.old.keys self.new.keys member) }
        ensures refusal { IsOkUnless result Memory }
    {
        if self.is_last(member) {
            return Ok(());
        }
        let next = self.keys.len();
        note_place(&mut self.places, member.variable, next)?;
        self.keys.push(member)?;
        Ok(())
    }

    /// Whether a member is its variable's last one.
    pub fn is_last(&self, member: Member<N>) -> bool
        ensures { result ≡ true → Contains self.now.keys member }
    {
        let place = self.place(member.variable);
        is_at(self.keys.as_slice(), place, member)
    }

    /// The place that is noted for a variable.
    fn place(&self, variable: VariableId) -> usize {
        match self.places.get(variable.to_index()) {
            Some(place) => *place as usize,
            None => 0,
        }
    }
}

/// Notes the place of a variable's member.
fn note_place(places: &mut Vec<u32>, variable: VariableId, place: usize) -> R<()>
    ensures { IsOkUnless result Memory }
{
    let index = variable.to_index();
    for _ in places.len()..index + 1 {
        places.push(0)?;
    }
    if index < places.len() {
        places[index] = (place & 4_294_967_295) as u32;
    }
    Ok(())
}

/// Whether a value is at a place of a list.
fn is_at<K: Copy + Exact>(keys: &[K], place: usize, key: K) -> bool
    ensures { result ≡ true → Contains keys.now key }
{
    place < keys.len() && keys[place] == key
}
