//! The candidates that were offered for requirements, each list in the order in which it is tried.
//! The caller of `conflict_graph` fills it first, from the provider's cache.
ghost use Rattle.std.specs.Prelude.{◌≡◌, [], IfOk, OnOk, OnErr, IsErrOf, IsOkUnless, false};
ghost use Rattle.resolvo_pool_core.specs.declared.requirement.Requirement.{Requirement};
ghost use Rattle.resolvo_pool_core.specs.declared.want.Want.TheVariants.{Ids, Memory};
ghost use Rattle.resolvo_pool_core.specs.ByRequirement.{index_in};
ghost use Rattle.resolvo_proof.specs.Offered.{was_offered, offered_by, IsOffered};

use resolvo_pool_core::requirement::{Requirement, RequirementMap};
use resolvo_pool_core::want::R;
use std::alloc::Global;

/// The candidates that were offered for requirements.
#[derive(Drop)]
pub struct Offers<S> {
    lists: RequirementMap<Vec<S>>,
}

impl<S: Copy + Drop> Offers<S> {
    /// No offers.
    pub fn new(alloc: Global) -> R<Offers<S>>
        ensures empty { IfOk result (λ o. (r : Requirement) → was_offered o r ≡ false) }
        ensures refusal { IsOkUnless result Memory }
    {
        Ok(Offers {
            lists: RequirementMap::new(alloc)?,
        })
    }

    /// Records the candidates of a requirement. Those that were recorded first are kept.
    pub fn offer(&mut self, requirement: Requirement, candidates: Vec<S>) -> R<()>
        ensures offered { OnOk result (IsOffered self.old requirement candidates.items self.new) }
        ensures err { OnErr result (self.new ≡ self.old) }
        ensures ids { IsErrOf result Ids → index_in requirement ≡ 4294967295 }
    {
        if !self.has(requirement) {
            self.lists.insert(requirement, candidates)?;
        }
        Ok(())
    }

    /// Whether candidates were recorded for a requirement, even if there are none.
    pub fn has(&self, requirement: Requirement) -> bool
        ensures { result ≡ was_offered self.now requirement }
    {
        self.lists.get(requirement).is_some()
    }

    /// The candidates of a requirement; none before they are recorded.
    pub fn candidates(&self, requirement: Requirement) -> &[S]
        ensures { result.now ≡ offered_by self.now requirement }
    {
        match self.lists.get(requirement) {
            Some(list) => list.as_slice(),
            None => &[],
        }
    }
}
