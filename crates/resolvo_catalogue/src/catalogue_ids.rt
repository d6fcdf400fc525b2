//! The ids of packages, versions, SPECs, lists of alternatives, conditions and words: the terms of the
//! lines (`resolvo_terms`), and the versions, which are the catalogue's own list. The model is one list
//! of each, in the order of first interning; `specs/Ids.antt` has the text of each id.
//! Filled by `dependencies`, read by `provider`.

ghost use Rattle.std.specs.Prelude.{◌≡◌, ◌≤◌, ◌+◌, IfOk, IsErrOf, map};
ghost use Rattle.std.specs.Option.{option_copied, option_map};
ghost use Rattle.resolvo_text.specs.View.{spec_of, specs_of, condition_of};
ghost use Rattle.resolvo_pool_core.specs.declared.want.Want.TheVariants.{Ids};
ghost use Rattle.resolvo_terms.specs.Known.{place_of};
ghost use Rattle.resolvo_terms.specs.TermCounts.{ids_for_need};
ghost use Rattle.resolvo_catalogue.specs.Ids.{terms_of, Interns, AreSound, LacksNumber, IsSpec, IsNeed, solvable_by};
ghost use Rattle.resolvo_catalogue.specs.IdCounts.{id_count};

use crate::request_terms::RequestTerms;
use resolvo_catalogue_core::{Cond, KeptLines, KeptVersion, Span, Spec};
use resolvo_pool_core::condition::Condition;
use resolvo_pool_core::id::{
    ConditionId, DenseIndex, NameId, SolvableId, StringId, VersionSetId, VersionSetUnionId,
};
use resolvo_pool_core::requirement::ConditionalRequirement;
use resolvo_pool_core::want::R;
use std::alloc::Global;
use std::marker::Model;

/// The interned values.
pub struct CatalogueIds<'a> {
    terms: RequestTerms<'a>,
    /// The versions of the catalogue in line order. A solvable's id is the place of its version.
    versions: &'a [KeptVersion],
}

// split for the prover: one drop
impl<'a> Drop for CatalogueIds<'a> {
    fn drop(self) {
        let CatalogueIds {
            terms: _,
            versions: _,
        } = self;
    }
}

impl<'a> Model for CatalogueIds<'a> {
    ghost use Rattle.std.specs.Prelude.{map};
    ghost use Rattle.resolvo_catalogue.specs.Ids.{Ids, solvable_by};

    ghost Value = { Ids };

    ghost view = { λ t.
        record {
          names = t.terms.names;
          words = t.terms.words;
          solvables = map solvable_by t.versions.now;
          version_sets = t.terms.version_sets;
          unions = t.terms.unions;
          conditions = t.terms.conditions;
        } };
}

impl<'a> CatalogueIds<'a> {
    /// The terms and the versions of a catalogue.
    pub fn over(alloc: Global, kept: &KeptLines<'a>) -> CatalogueIds<'a>
        ensures terms { terms_of result ≡ kept.now.terms }
        ensures solvables { result.solvables ≡ map solvable_by kept.now.versions }
    {
        CatalogueIds {
            terms: RequestTerms::over(alloc, kept.terms()),
            versions: kept.versions(),
        }
    }

    /// The id of a SPEC.
    #[tactic(auto, using(crate::proofs::GrowLemmas::interns_by, crate::proofs::GrowLemmas::lacks_by))]
    pub fn spec(&mut self, spec: &Spec) -> R<VersionSetId>
        ensures spec { IfOk result (λ v. IsSpec self.new v (spec_of spec.now)) }
        ensures interns { Interns self.old self.new }
        ensures few { id_count self.new ≤ id_count self.old + 2 }
        ensures ids { IsErrOf result Ids → LacksNumber self.new }
    {
        self.terms.spec(spec)
    }

    /// The requirement of a need.
    #[tactic(auto, using(crate::proofs::GrowLemmas::interns_by, crate::proofs::GrowLemmas::lacks_by))]
    pub fn need(
        &mut self,
        alternatives: &[Spec],
        condition: Option<&Box<Cond>>,
    ) -> R<ConditionalRequirement>
        ensures need { IfOk result
            (λ r.
            IsNeed self.new r
            (specs_of alternatives.now, condition_of (option_copied condition.entry))) }
        ensures interns { Interns self.old self.new }
        ensures few { id_count self.new
            ≤ id_count self.old
            + ids_for_need (specs_of alternatives.now, condition_of (option_copied condition.entry)) }
        ensures ids { IsErrOf result Ids → LacksNumber self.new }
    {
        self.terms.need(alternatives, condition)
    }
}

impl<'a> CatalogueIds<'a> {
    ghost use Rattle.resolvo_catalogue.specs.Known.{solvable_at, set_at, members_of, condition_at, name_text, word_text};

    /// The package of a solvable. Calls of this kind answer for every id.
    pub fn package_of(&self, solvable: SolvableId) -> NameId
        ensures { result ≡ (solvable_at self.now solvable).name }
    {
        match self.versions.get(solvable.to_index()) {
            Some(version) => version.package,
            None => NameId::from_raw(0),
        }
    }

    /// The number of a solvable's version.
    pub fn number_of(&self, solvable: SolvableId) -> u32
        ensures { result ≡ (solvable_at self.now solvable).version }
    {
        match self.versions.get(solvable.to_index()) {
            Some(version) => version.number,
            None => 0,
        }
    }

    /// The name of a package.
    pub fn name(&self, name: NameId) -> &str
        ensures { result.now ≡ name_text self.now name }
    {
        self.terms.all().name(name)
    }

    /// The word of an id.
    pub fn text(&self, word: StringId) -> &str
        ensures { result.now ≡ word_text self.now word }
    {
        self.terms.all().text(word)
    }

    /// The package of a version set.
    pub fn set_package(&self, version_set: VersionSetId) -> NameId
        ensures { result ≡ (set_at self.now version_set).0 }
    {
        self.terms.all().set_package(version_set)
    }

    /// The numbers that a version set holds.
    pub fn span(&self, version_set: VersionSetId) -> Span
        ensures { result ≡ (set_at self.now version_set).1.0 }
    {
        self.terms.all().span(version_set)
    }

    /// The version sets of a union.
    pub fn members(&self, union: VersionSetUnionId) -> &[VersionSetId]
        ensures { result.now ≡ members_of self.now union }
    {
        self.terms.all().members(union)
    }

    /// The condition of an id.
    pub fn meaning(&self, condition: ConditionId) -> Condition
        ensures { result ≡ condition_at self.now condition }
    {
        self.terms.all().meaning(condition)
    }

    /// A law of every table: no value has two ids. It does nothing.
    pub fn ids_are_once(&self)
        ensures { AreSound self.now }
    {
        self.terms.all().ids_are_once();
    }
}
