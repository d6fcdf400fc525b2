//! The requirements and constraints of lines, as ids: of the lines of a version, and of a request.

ghost use Rattle.std.specs.Prelude.{◌≡◌, ◌≤◌, ◌+◌, ◌++◌, ◌∷◌, [], sum_by, IfOk, IsErrOf, OnOk, List, None, Option, Some};
ghost use Rattle.resolvo_pool_core.specs.declared.want.Want.TheVariants.{Ids};

use crate::catalogue_ids::CatalogueIds;
use resolvo_catalogue_core::{KeptLines, KeptRule, Request, Rule};
use resolvo_pool_core::id::{StringId, VersionSetId};
use resolvo_pool_core::requirement::ConditionalRequirement;
use resolvo_pool_core::want::R;
use std::alloc::{AllocError, Global};

/// The requirements and constraints of lines, in their order.
#[derive(Drop)]
pub struct VersionDependencies {
    pub requirements: Vec<ConditionalRequirement>,
    pub constrains: Vec<VersionSetId>,
    /// Why it is unknown.
    pub unknown: Option<StringId>,
}

impl VersionDependencies {
    ghost use Rattle.resolvo_text.specs.Line.{Version, Line};
    ghost use Rattle.resolvo_catalogue_core.specs.Questions.{IsRuleLine};
    ghost use Rattle.resolvo_catalogue.specs.Ids.{Interns, LacksNumber};
    ghost use Rattle.resolvo_catalogue.specs.IdCounts.{id_count, dependency_ids};
    ghost use Rattle.resolvo_terms.specs.TermCounts.{ids_for_dependency};
    ghost use Rattle.resolvo_catalogue.specs.Dependencies.{AreDependenciesOf, deps_of, no_lines};
    ghost use Rattle.resolvo_catalogue.specs.Tabled.{deps_by, with_rule};

    /// No requirement and no constraint, with room for so many requirements.
    pub fn with_room(alloc: Global, count: usize) -> Result<VersionDependencies, AllocError>
        ensures { IfOk result (λ deps. deps_of deps ≡ no_lines) }
    {
        Ok(VersionDependencies {
            requirements: Vec::with_capacity(alloc, count)?,
            constrains: Vec::new(alloc),
            unknown: None,
        })
    }

    /// Adds the requirement or constraint of a rule of a catalogue. A lock and an exclusion add
    /// nothing.
    fn add_kept(&mut self, rule: KeptRule) -> Result<(), AllocError>
        ensures { OnOk result (deps_of self.new ≡ with_rule (deps_of self.old) (Some rule)) }
    {
        match rule {
            KeptRule::Needs { need, .. } => self.requirements.push(need)?,
            KeptRule::Limits { spec, .. } => self.constrains.push(spec)?,
            KeptRule::Unknown { word, .. } => self.unknown = Some(word),
            KeptRule::Lock { .. } | KeptRule::Exclude { .. } => {}
        }
        Ok(())
    }

    /// The requirements and constraints of these lines of a catalogue.
    pub fn of_lines(
        alloc: Global,
        kept: &KeptLines<'_>,
        lines: &[u32],
    ) -> Result<VersionDependencies, AllocError>
        ensures { IfOk result (λ deps. deps_of deps ≡ deps_by kept.now.rules lines.now) }
    {
        let mut deps = VersionDependencies::with_room(alloc, lines.len())?;
        for line in lines {
            if let Some(rule) = kept.rule(*line) {
                deps.add_kept(rule)?;
            }
        }
        Ok(deps)
    }

    /// Adds the requirement or constraint of a rule of a request, of which no other kind is one.
    fn add(&mut self, ids: &mut CatalogueIds<'_>, rule: &Rule) -> R<()>
        ensures as_ids { OnOk result
            ((versions : List Version) (line : Line) (lines : List Line)
            → IsRuleLine versions rule.now None line
            → AreDependenciesOf ids.old lines (deps_of self.old)
            → AreDependenciesOf ids.new (lines ++ line ∷ []) (deps_of self.new)) }
        ensures interns { Interns ids.old ids.new }
        ensures few { id_count ids.new ≤ id_count ids.old + dependency_ids rule.now }
        ensures ids { IsErrOf result Ids → LacksNumber ids.new }
    {
        match rule {
            Rule::Needs {
                alternatives,
                condition,
                ..
            } => {
                let need = ids.need(alternatives.as_slice(), condition.as_ref())?;
                self.requirements.push(need)?;
            }
            Rule::Limits { spec, .. } => {
                let version_set = ids.spec(spec)?;
                self.constrains.push(version_set)?;
            }
            Rule::Unknown { .. } | Rule::Lock { .. } | Rule::Exclude { .. } => {}
        }
        Ok(())
    }

    /// The requirements and constraints of a request.
    pub fn of_request(
        alloc: Global,
        ids: &mut CatalogueIds<'_>,
        request: &Request,
    ) -> R<VersionDependencies>
        ensures as_ids { IfOk result (λ deps. AreDependenciesOf ids.new request.now.lines (deps_of deps)) }
        ensures interns { Interns ids.old ids.new }
        ensures few { id_count ids.new
            ≤ id_count ids.old + sum_by ids_for_dependency request.now.lines }
        ensures ids { IsErrOf result Ids → LacksNumber ids.new }
    {
        let mut deps = VersionDependencies::with_room(alloc, 0)?;
        for line in 0..request.line_count() {
            if let Some(rule) = request.rule(line + 1) {
                deps.add(ids, rule)?;
            }
        }
        Ok(deps)
    }
}
