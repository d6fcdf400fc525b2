//! The candidates of requirements, one list after the other. Its model is that of a map from
//! requirements to lists.
ghost use Rattle.std.specs.Prelude.{◌≡◌, None, IfOk, OnOk, OnErr, IsErrOf, IsOkUnless};
ghost use Rattle.std.specs.Option.{option_copied};
ghost use Rattle.resolvo_pool_core.specs.declared.requirement.Requirement.{Requirement};
ghost use Rattle.resolvo_pool_core.specs.declared.want.Want.TheVariants.{Ids, Memory};
ghost use Rattle.resolvo_pool_core.specs.ByRequirement.{slot_of, PutsAt, index_in};

use crate::lists::Candidate;
use resolvo_pool_core::flat_lists::FlatLists;
use resolvo_pool_core::requirement::{Requirement, RequirementMap};
use resolvo_pool_core::want::R;
use std::alloc::Global;
use std::marker::Model;

/// Candidates by requirement.
#[derive(Drop)]
pub struct CandidateLists<N> {
    lists: FlatLists<Candidate<N>>,
    /// The number of each requirement's list.
    places: RequirementMap<u32>,
}

impl<N> Model for CandidateLists<N> {
    ghost use Rattle.std.specs.Prelude.{List, Option};
    ghost use Rattle.resolvo_store_core.specs.declared.lists.Candidate.{Candidate};
    ghost use Rattle.resolvo_store_core.specs.Places.{lists_at, ArePlaces};

    ghost Value = { List (Option (List (Candidate N))) × List (Option (List (Candidate N))) };

    ghost view = { λ c. (lists_at c.lists c.places.0, lists_at c.lists c.places.1) };

    ghost invariant = { λ c. ArePlaces c.lists c.places };
}

impl<N: Copy + Drop> CandidateLists<N> {
    /// No candidates.
    pub fn new(alloc: Global) -> R<CandidateLists<N>>
        ensures empty { IfOk result (λ c. (r : Requirement) → slot_of c r ≡ None) }
        ensures refusal { IsOkUnless result Memory }
    {
        let lists = FlatLists::new(alloc);
        let places = RequirementMap::new(alloc)?;
        Ok(CandidateLists { lists, places })
    }

    /// The candidates of a requirement, if they were set.
    pub fn get(&self, requirement: Requirement) -> Option<&[Candidate<N>]>
        ensures { option_copied result ≡ slot_of self.now requirement }
    {
        match self.places.get(requirement) {
            Some(place) => Some(self.lists.get(*place as usize)),
            None => None,
        }
    }

    /// Sets the candidates of a requirement. After a refusal a list may be left that no place names.
    pub fn set(&mut self, requirement: Requirement, candidates: &[Candidate<N>]) -> R<()>
        ensures put { OnOk result (PutsAt self.old self.new requirement candidates.now) }
        ensures err { OnErr result (self.new ≡ self.old) }
        ensures ids { IsErrOf result Ids → index_in requirement ≡ 4294967295 }
    {
        self.lists.are_few();
        let place = self.lists.len();
        self.lists.push(candidates)?;
        self.places.insert(requirement, place as u32)?;
        Ok(())
    }
}
