//! The provider over a catalogue, which it borrows: it answers the solver from the lines. Its model is
//! the interned values, and the dependencies and marks of each version (`specs/Provider.antt`).

ghost use Rattle.std.specs.Prelude.{◌≡◌, ◌≤◌, ◌+◌, false, map, sum_by, true, IfOk, IsErrOf, IsOkUnless};
ghost use Rattle.resolvo_pool_core.specs.declared.want.Want.TheVariants.{Ids as NoIds, Memory};
ghost use Rattle.resolvo_catalogue.specs.Ids.{LacksNumber};
ghost use Rattle.resolvo_catalogue.specs.IdCounts.{LacksNumberFor, id_count, ids_for_line};
ghost use Rattle.resolvo_terms.specs.TermCounts.{ids_for_dependency};
ghost use Rattle.resolvo_catalogue.specs.Over.{IsOver};

use crate::candidate_flags::{CandidateFlags, many_of, marks_of};
use crate::catalogue_ids::CatalogueIds;
use crate::dependencies::VersionDependencies;
use resolvo_catalogue_core::{Catalogue, KeptLines, Request, Spec, VersionNo};
use resolvo_pool_core::id::{NameId, SolvableId, StringId, VersionSetId};
use resolvo_pool_core::requirement::{ConditionalRequirement, Requirement};
use resolvo_pool_core::want::R;
use std::alloc::Global;
use std::cell::Cell;
use std::marker::Model;

/// The candidates of a package whose dependencies are hinted to be available.
#[derive(Clone, Copy, Debug, PartialEq, Eq)]
pub enum Hint {
    None,
    All,
}

/// A catalogue as a provider.
pub struct CatalogueProvider<'a> {
    pub(crate) ids: CatalogueIds<'a>,
    /// The lines, by which the versions of a package and the dependencies of a version are found.
    pub(crate) kept: KeptLines<'a>,
    pub(crate) marks: Vec<CandidateFlags>,
    /// Of each version, whether its package is marked `many`.
    pub(crate) many: Vec<bool>,
    pub(crate) hint: Hint,
    /// How many more calls of `should_cancel_with_value` don't cancel; without it none cancels.
    pub(crate) budget: Option<Cell<u64>>,
    alloc: Global,
}

// split for the prover: one drop
impl<'a> Drop for CatalogueProvider<'a> {
    fn drop(self) {
        let CatalogueProvider {
            ids: _,
            kept: _,
            marks: _,
            many: _,
            hint: _,
            budget: _,
            alloc: _,
        } = self;
    }
}

impl<'a> Model for CatalogueProvider<'a> {
    ghost use Rattle.std.specs.Prelude.{◌≡◌, is_some, map};
    ghost use Rattle.resolvo_catalogue.specs.Ids.{solvable_by};
    ghost use Rattle.resolvo_catalogue.specs.Tabled.{deps_in};
    ghost use Rattle.resolvo_catalogue.specs.Provider.{Provider};

    ghost Value = { Provider };

    ghost view = { λ p.
        record {
          ids = p.ids;
          deps = deps_in p.kept;
          marks = p.marks.items;
          many = p.many.items;
          hint = p.hint;
          has_budget = is_some p.budget;
        } };

    ghost invariant = { λ p. p.ids.solvables ≡ map solvable_by p.kept.versions };
}

/// A request, as ids of a provider.
#[derive(Drop)]
pub struct RequestIds {
    pub requirements: Vec<ConditionalRequirement>,
    pub constraints: Vec<VersionSetId>,
    /// The wished versions, in the order of their lines.
    pub wishes: Vec<SolvableId>,
}

impl<'a> CatalogueProvider<'a> {
    ghost use Rattle.std.specs.Prelude.{List};
    ghost use Rattle.resolvo_text.specs.Line as parsed;
    ghost use Rattle.resolvo_text.specs.View.{spec_of, specs_of};
    ghost use Rattle.resolvo_catalogue.specs.Ids.{IsSpec, AreAlternatives, solvable_id};
    ghost use Rattle.resolvo_catalogue.specs.Known.{spec_at, alternatives_at, name_text, word_text};
    ghost use Rattle.resolvo_catalogue.specs.Over.{AreAsked, ChangesIds};
    ghost use Rattle.resolvo_catalogue.specs.KeptSets.{KeepsAlike, KeepsAlikeExempt, root_of};
    ghost use Rattle.resolvo_catalogue_core.specs.Grammar.{AreRequestLines};

    /// The provider of a catalogue.
    pub fn new(alloc: Global, catalogue: &'a Catalogue, hint: Hint) -> R<CatalogueProvider<'a>>
        ensures over { IfOk result (λ p. IsOver catalogue.now p) }
        ensures hint { IfOk result (λ p. p.hint ≡ hint) }
        ensures budget { IfOk result (λ p. p.has_budget ≡ false) }
        ensures few { IfOk result (λ p. id_count p.ids ≤ sum_by ids_for_line catalogue.now) }
        ensures ids { IsErrOf result NoIds → LacksNumberFor catalogue.now }
    {
        let kept = catalogue.kept();
        kept.lines_are_kept();
        catalogue.lines_are_in_place();
        let ids = CatalogueIds::over(alloc, &kept);
        ids.ids_are_once();
        let marks = marks_of(alloc, &kept, catalogue)?;
        let many = many_of(alloc, &kept, catalogue)?;
        Ok(CatalogueProvider {
            ids,
            kept,
            marks,
            many,
            hint,
            budget: None,
            alloc,
        })
    }

    /// The same provider, which cancels after so many calls of `should_cancel_with_value`.
    pub fn within(self, budget: u64) -> CatalogueProvider<'a>
        ensures { result ≡ record self.entry { has_budget = true } }
    {
        let CatalogueProvider {
            ids,
            kept,
            marks,
            many,
            hint,
            budget: _,
            alloc,
        } = self;
        CatalogueProvider {
            ids,
            kept,
            marks,
            many,
            hint,
            budget: Some(Cell::new(budget)),
            alloc,
        }
    }

    /// A request over the catalogue, as ids. Where it fails, more may be interned. A set keeps the
    /// rules of the provider and of these ids exactly if it keeps those of the two texts.
    pub fn intern_request(&mut self, request: &Request) -> R<RequestIds>
        // What the ids are, and what else is interned.
        ensures asked { IfOk result (λ asked. AreAsked self.new.ids request.now asked) }
        ensures interns { ChangesIds self.old self.new }
        ensures over { (catalogue : List parsed.Line) → IsOver catalogue self.old → IsOver catalogue self.new }
        ensures few { id_count self.new.ids
            ≤ id_count self.old.ids + sum_by ids_for_dependency request.now.lines }
        ensures ids { IsErrOf result NoIds → LacksNumber self.new.ids }
        // Which sets keep the rules of the ids.
        ensures rules { IfOk result
            (λ asked.
            (catalogue : List parsed.Line)
            → IsOver catalogue self.old
            → AreRequestLines catalogue request.now.lines
            → KeepsAlike catalogue request.now.lines self.new (root_of asked)) }
        ensures exempt { IfOk result
            (λ asked.
            (catalogue : List parsed.Line)
            → IsOver catalogue self.old
            → AreRequestLines catalogue request.now.lines
            → KeepsAlikeExempt catalogue request.now.lines self.new (root_of asked)
            asked.wishes.items) }
    {
        let deps = VersionDependencies::of_request(self.alloc, &mut self.ids, request);
        self.ids.ids_are_once();
        let deps = deps?;
        let mut wishes = Vec::new(self.alloc);
        for (_, version) in request.wishes() {
            wishes.push(SolvableId::from_raw(version.0))?;
        }
        let VersionDependencies {
            requirements,
            constrains,
            ..
        } = deps;
        Ok(RequestIds {
            requirements,
            constraints: constrains,
            wishes,
        })
    }

    /// The number in the catalogue of a solvable's version.
    pub fn version_of(&self, solvable: SolvableId) -> VersionNo
        ensures { result.0 ≡ solvable.raw }
    {
        VersionNo(solvable.into_raw())
    }

    /// The solvable of a version, by its number in the catalogue.
    pub fn solvable_of(&self, version: VersionNo) -> SolvableId
        ensures { result ≡ solvable_id version.0 }
    {
        SolvableId::from_raw(version.0)
    }

    /// The SPEC of a version set.
    #[tactic(auto, using(crate::proofs::CoverLemmas::spec_is))]
    pub fn spec_of(&self, version_set: VersionSetId) -> R<Spec>
        ensures spec { IfOk result (λ found. spec_of found ≡ spec_at self.now.ids version_set) }
        ensures exact { (s : parsed.Spec)
            → IsSpec self.now.ids version_set s
            → spec_at self.now.ids version_set ≡ s }
        ensures refusal { IsOkUnless result Memory }
    {
        let name = self.ids.name(self.ids.set_package(version_set));
        Ok(Spec {
            name: String::from_str(self.alloc, name)?,
            span: self.ids.span(version_set),
        })
    }

    /// The alternatives of a requirement, in order.
    #[tactic(auto, using(crate::proofs::CoverLemmas::alternatives_are))]
    pub fn alternatives_of(&self, requirement: Requirement) -> R<Vec<Spec>>
        ensures specs { IfOk result (λ found. specs_of found.items ≡ alternatives_at self.now.ids requirement) }
        ensures exact { (ss : List parsed.Spec)
            → AreAlternatives self.now.ids requirement ss
            → alternatives_at self.now.ids requirement ≡ ss }
        ensures refusal { IsOkUnless result Memory }
    {
        match requirement {
            Requirement::Single(version_set) => self.specs_of(&[version_set]),
            Requirement::Union(union) => self.specs_of(self.ids.members(union)),
        }
    }

    /// The name of a package.
    pub fn name_of(&self, name: NameId) -> &str
        ensures { result.now ≡ name_text self.now.ids name }
    {
        self.ids.name(name)
    }

    /// The word of a reason.
    pub fn word_of(&self, word: StringId) -> &str
        ensures { result.now ≡ word_text self.now.ids word }
    {
        self.ids.text(word)
    }

    fn specs_of(&self, version_sets: &[VersionSetId]) -> R<Vec<Spec>>
        ensures specs { IfOk result
            (λ found. specs_of found.items ≡ map (spec_at self.now.ids) version_sets.now) }
        ensures refusal { IsOkUnless result Memory }
    {
        let mut specs = Vec::new(self.alloc);
        for version_set in version_sets {
            specs.push(self.spec_of(*version_set)?)?;
        }
        Ok(specs)
    }
}
