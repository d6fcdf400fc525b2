//! The terms of a catalogue, and those that a request adds. The catalogue's are lent, and copied before
//! the first is added: a request that names nothing new needs no copy. The model is all of them.
//! Used by `catalogue_ids`.

ghost use Rattle.std.specs.Prelude.{◌≡◌, ◌≤◌, ◌+◌, IfOk, IsErrOf};
ghost use Rattle.std.specs.Option.{option_copied};
ghost use Rattle.resolvo_text.specs.View.{spec_of, specs_of, condition_of};
ghost use Rattle.resolvo_pool_core.specs.declared.want.Want.TheVariants.{Ids};
ghost use Rattle.resolvo_terms.specs.TermCounts.{term_count, ids_for_need};
ghost use Rattle.resolvo_terms.specs.Terms.{Grows, LacksNumber, IsSpec, IsNeed};

use resolvo_catalogue_core::{Cond, Spec};
use resolvo_pool_core::id::VersionSetId;
use resolvo_pool_core::requirement::ConditionalRequirement;
use resolvo_pool_core::want::R;
use resolvo_terms::Terms;
use std::alloc::Global;
use std::marker::Model;

/// The terms of a catalogue, and those of a request.
pub struct RequestTerms<'a> {
    lent: &'a Terms,
    /// The same terms with those of the request, once one was added.
    own: Option<Terms>,
    alloc: Global,
}

// split for the prover: one drop
impl<'a> Drop for RequestTerms<'a> {
    fn drop(self) {
        let RequestTerms {
            lent: _,
            own: _,
            alloc: _,
        } = self;
    }
}

impl<'a> Model for RequestTerms<'a> {
    ghost use Rattle.resolvo_terms.specs.Terms.{Terms};
    ghost use Rattle.resolvo_catalogue.specs.Ids.{own_or};

    ghost Value = { Terms };

    ghost view = { λ t. own_or t.own t.lent.now };
}

impl<'a> RequestTerms<'a> {
    /// The terms of a catalogue alone.
    pub fn over(alloc: Global, lent: &'a Terms) -> RequestTerms<'a>
        ensures { result ≡ lent.now }
    {
        RequestTerms {
            lent,
            own: None,
            alloc,
        }
    }

    /// All terms.
    pub fn all(&self) -> &Terms
        ensures { result.now ≡ self.now }
    {
        match &self.own {
            Some(own) => own,
            None => self.lent,
        }
    }

    /// The id of a SPEC.
    pub fn spec(&mut self, spec: &Spec) -> R<VersionSetId>
        ensures spec { IfOk result (λ v. IsSpec self.new v (spec_of spec.now)) }
        ensures grows { Grows self.old self.new }
        ensures few { term_count self.new ≤ term_count self.old + 2 }
        ensures ids { IsErrOf result Ids → LacksNumber self.new }
    {
        if let Some(own) = &mut self.own {
            return own.spec(spec);
        }
        if let Some(known) = self.lent.find_spec(spec) {
            return Ok(known);
        }
        let mut own = self.lent.copy(self.alloc)?;
        let id = own.spec(spec);
        self.own = Some(own);
        id
    }

    /// The requirement of a need.
    pub fn need(
        &mut self,
        alternatives: &[Spec],
        condition: Option<&Box<Cond>>,
    ) -> R<ConditionalRequirement>
        ensures need { IfOk result
            (λ r.
            IsNeed self.new r
            (specs_of alternatives.now, condition_of (option_copied condition.entry))) }
        ensures grows { Grows self.old self.new }
        ensures few { term_count self.new
            ≤ term_count self.old
            + ids_for_need (specs_of alternatives.now, condition_of (option_copied condition.entry)) }
        ensures ids { IsErrOf result Ids → LacksNumber self.new }
    {
        if let Some(own) = &mut self.own {
            return own.need(alternatives, condition);
        }
        if let Some(known) = self.lent.find_need(alternatives, condition) {
            return Ok(known);
        }
        let mut own = self.lent.copy(self.alloc)?;
        let need = own.need(alternatives, condition);
        self.own = Some(own);
        need
    }
}
