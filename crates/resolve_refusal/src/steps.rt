//! Writes the steps of a proof as those of a report.

ghost use Rattle.std.specs.Prelude.{◌≡◌, ℕ, [], Some, None, IfOk, IsErrOf, IsOkUnless, map};
ghost use Rattle.std.specs.Option.{option_map};
ghost use Rattle.resolvo_pool_core.specs.declared.want.Want.TheVariants.{Ids, Memory};
ghost use Rattle.resolvo_text.specs.Line as content;
ghost use Rattle.resolvo_text.specs.View.{version_of, specs_of};
ghost use Rattle.resolvo_report.specs.Value as in_report;
ghost use Rattle.resolvo_report.specs.View.{step_of, place_of};
ghost use Rattle.resolvo_proof.specs.declared.step.ProofStep.TheVariants.{Rule as RuleStep};
ghost use Rattle.resolvo_proof.specs.declared.step.ProofRule.TheVariants.{Limit};
ghost use Rattle.resolvo_catalogue.specs.Known.{spec_at, alternatives_at};
ghost use Rattle.resolve_refusal.specs.LacksNumbers.{LacksCaseNumbers};
ghost use Rattle.resolve_refusal.specs.RefusedReport.{version_at, place_at, number_of, HasWord, IsWritten};
ghost use Rattle.resolve_refusal.specs.Lines.{IsFirstWith};
ghost use Rattle.resolve_refusal.specs.FirstLines.{IsIndex};
ghost use Rattle.resolve_refusal.specs.StepRules.{version_no, IsFirstLine, IsNeedLineOf, NamesNeed, NamesLock, NamesWord, NamesRule};

use crate::line_index::LineIndex;
use crate::lines::{NeedLine, Texts, WordLine, lock_line};
use crate::literals::{sorted_literals, version_of};
use resolvo_catalogue::provider::CatalogueProvider;
use resolvo_catalogue_core::{Spec, Version, VersionNo};
use resolvo_pool_core::id::{NameId, SolvableId, StringId, VersionSetId};
use resolvo_pool_core::requirement::Requirement;
use resolvo_pool_core::want::R;
use resolvo_proof::step::{ProofRule, ProofStep};
use resolvo_report::{Place, Step};
use std::alloc::Global;

/// The most steps that a report can number.
pub(crate) const MOST_STEPS: usize = 4_294_967_295;

/// The context for writing steps: the two texts, the provider of their ids, and an index of their
/// lines. A rule of no line is written with line 0, which no text has.
#[derive(Clone, Copy)]
pub(crate) struct Writing<'a> {
    pub alloc: Global,
    pub texts: Texts<'a>,
    pub provider: &'a CatalogueProvider<'a>,
    pub index: &'a LineIndex,
}

impl Writing<'_> {
    /// The report's step of a step of the proof.
    pub fn step(self, step: &ProofStep<NameId, SolvableId>) -> R<Step>
        requires { IsIndex self.texts.catalogue.now self.texts.request.now.lines self.index.now }
        ensures names_rule { IfOk result
            (λ w.
            NamesRule self.entry.texts.catalogue.now self.entry.texts.request.now.lines
            self.entry.provider.now.ids step.now (step_of w)) }
        ensures written { IfOk result
            (λ w.
            IsWritten self.entry.texts.catalogue.now self.entry.provider.now.ids step.now
            (step_of w)) }
        ensures ids { IsErrOf result Ids
            → LacksCaseNumbers self.entry.texts.catalogue.now
            self.entry.texts.request.now.lines }
    {
        match step {
            ProofStep::Rule(rule) => self.rule(rule),
            ProofStep::Derived { literals, causes } => Ok(Step::Derive {
                literals: sorted_literals(
                    self.alloc,
                    self.texts.catalogue,
                    self.provider,
                    literals.as_slice(),
                )?,
                causes: numbers_of(self.alloc, causes.as_slice())?,
            }),
        }
    }

    /// The step of a rule.
    fn rule(self, rule: &ProofRule<NameId, SolvableId>) -> R<Step>
        requires { IsIndex self.texts.catalogue.now self.texts.request.now.lines self.index.now }
        ensures names_rule { IfOk result
            (λ w.
            NamesRule self.entry.texts.catalogue.now self.entry.texts.request.now.lines
            self.entry.provider.now.ids (RuleStep rule.now) (step_of w)) }
        ensures written { IfOk result
            (λ w.
            IsWritten self.entry.texts.catalogue.now self.entry.provider.now.ids
            (RuleStep rule.now) (step_of w)) }
        ensures ids { IsErrOf result Ids
            → LacksCaseNumbers self.entry.texts.catalogue.now
            self.entry.texts.request.now.lines }
    {
        match rule {
            ProofRule::Needs {
                parent,
                requirement,
                case,
            } => self.need(*parent, *requirement, case.as_slice()),
            ProofRule::GateOf {
                parent,
                requirement,
            } => self.gate(*parent, *requirement),
            ProofRule::Shared { requirement } => Ok(Step::Shared {
                alternatives: self.provider.alternatives_of(*requirement)?,
            }),
            ProofRule::Limit {
                parent,
                version_set,
                barred,
            } => self.limit(*parent, *version_set, *barred),
            ProofRule::Outside {
                version_set,
                solvable,
            } => self.outside(*version_set, *solvable),
            ProofRule::Locked { barred, .. } => self.lock(*barred),
            ProofRule::Excluded { solvable, reason } => Ok(self.exclusion(*solvable, *reason)),
            ProofRule::Digit {
                solvable,
                place,
                bit,
            } => self.digit(*solvable, *place, *bit),
            ProofRule::AtLeastOne { solvable, .. } => Ok(Step::Any {
                version: self.version(*solvable)?,
            }),
            ProofRule::Matches {
                version_set,
                solvable,
            } => self.matches(*version_set, *solvable),
        }
    }

    /// The step of a need, by its first line, and its first such case.
    fn need(
        self,
        parent: Option<SolvableId>,
        requirement: Requirement,
        case: &[VersionSetId],
    ) -> R<Step>
        requires { IsIndex self.texts.catalogue.now self.texts.request.now.lines self.index.now }
        ensures names_rule { IfOk result
            (λ w.
            NamesNeed self.entry.texts.catalogue.now self.entry.texts.request.now.lines
            self.entry.provider.now.ids parent requirement case.now (step_of w)) }
        ensures written { IfOk result
            (λ w.
            (line k : ℕ)
            × (step_of w
            ≡ in_report.Need (place_at self.entry.texts.catalogue.now parent) line k)) }
        ensures ids { IsErrOf result Ids
            → LacksCaseNumbers self.entry.texts.catalogue.now
            self.entry.texts.request.now.lines }
    {
        let found = if case.is_empty() {
            self.plain_need(parent, requirement)?
        } else {
            self.need_in_case(parent, requirement, case)?
        };
        let NeedLine { line, case } = found.unwrap_or(NeedLine { line: 0, case: 0 });
        Ok(Step::Need {
            place: self.place(parent)?,
            line,
            case,
        })
    }

    /// The first line of a parent that needs the requirement without a condition, and its one case.
    fn plain_need(self, parent: Option<SolvableId>, requirement: Requirement) -> R<Option<NeedLine>>
        requires { IsIndex self.texts.catalogue.now self.texts.request.now.lines self.index.now }
        ensures line { IfOk result
            (IsNeedLineOf self.entry.texts.catalogue.now self.entry.texts.request.now.lines
            self.entry.provider.now.ids parent requirement []) }
        ensures refusal { IsOkUnless result Memory }
    {
        let Some(line) = self.plain_line(parent, requirement)? else {
            return Ok(None);
        };
        Ok(Some(NeedLine { line, case: 1 }))
    }

    /// The first line of a parent that needs the requirement in this case, and the first such case
    /// of the line.
    fn need_in_case(
        self,
        parent: Option<SolvableId>,
        requirement: Requirement,
        case: &[VersionSetId],
    ) -> R<Option<NeedLine>>
        requires { IsIndex self.texts.catalogue.now self.texts.request.now.lines self.index.now }
        ensures line { IfOk result
            (IsNeedLineOf self.entry.texts.catalogue.now self.entry.texts.request.now.lines
            self.entry.provider.now.ids parent requirement case.now) }
        ensures ids { IsErrOf result Ids
            → LacksCaseNumbers self.entry.texts.catalogue.now
            self.entry.texts.request.now.lines }
    {
        let alternatives = self.provider.alternatives_of(requirement)?;
        let case = self.specs(case)?;
        let place = self.place_number(parent);
        let first = self.index.first_lines(place);
        self.texts.first_need(
            self.alloc,
            place,
            alternatives.as_slice(),
            case.as_slice(),
            first,
        )
    }

    /// The first line of a parent that needs the requirement without a condition.
    fn plain_line(self, parent: Option<SolvableId>, requirement: Requirement) -> R<Option<u32>>
        requires { IsIndex self.texts.catalogue.now self.texts.request.now.lines self.index.now }
        ensures line { IfOk result
            (λ found.
            IsFirstWith self.entry.texts.catalogue.now self.entry.texts.request.now.lines
            (option_map version_no parent)
            (content.Needs (alternatives_at self.entry.provider.now.ids requirement) None) found) }
        ensures refusal { IsOkUnless result Memory }
    {
        let alternatives = self.provider.alternatives_of(requirement)?;
        let place = self.place_number(parent);
        let first = self.index.first_lines(place);
        self.texts
            .first_plain_need(self.alloc, place, alternatives.as_slice(), first)
    }

    /// The step of a gate, by the first line of the need without condition.
    fn gate(self, parent: SolvableId, requirement: Requirement) -> R<Step>
        requires { IsIndex self.texts.catalogue.now self.texts.request.now.lines self.index.now }
        ensures gate { IfOk result
            (λ w.
            (line : ℕ)
            × (step_of w ≡ in_report.Gate (version_at self.entry.texts.catalogue.now parent) line)
            × IsFirstLine self.entry.texts.catalogue.now self.entry.texts.request.now.lines
            (Some (version_no parent))
            (content.Needs (alternatives_at self.entry.provider.now.ids requirement) None)
            line) }
        ensures refusal { IsOkUnless result Memory }
    {
        let line = self.plain_line(Some(parent), requirement)?.unwrap_or(0);
        Ok(Step::Gate {
            version: self.version(parent)?,
            line,
        })
    }

    /// The step of a limit, by its first line.
    fn limit(
        self,
        parent: Option<SolvableId>,
        version_set: VersionSetId,
        barred: Option<SolvableId>,
    ) -> R<Step>
        requires { IsIndex self.texts.catalogue.now self.texts.request.now.lines self.index.now }
        ensures names_rule { IfOk result
            (λ w.
            NamesRule self.entry.texts.catalogue.now self.entry.texts.request.now.lines
            self.entry.provider.now.ids (RuleStep (Limit parent version_set barred))
            (step_of w)) }
        ensures written { IfOk result
            (λ w.
            IsWritten self.entry.texts.catalogue.now self.entry.provider.now.ids
            (RuleStep (Limit parent version_set barred)) (step_of w)) }
        ensures refusal { IsOkUnless result Memory }
    {
        let line = self.limit_line(parent, version_set)?;
        let place = self.place(parent)?;
        match barred {
            None => Ok(Step::Limit { place, line }),
            Some(barred) => Ok(Step::LimitBars {
                place,
                line,
                version: self.version(barred)?,
            }),
        }
    }

    /// The first line of a parent that limits its set to the version set's SPEC.
    fn limit_line(self, parent: Option<SolvableId>, version_set: VersionSetId) -> R<u32>
        requires { IsIndex self.texts.catalogue.now self.texts.request.now.lines self.index.now }
        ensures line { IfOk result
            (λ line.
            IsFirstLine self.entry.texts.catalogue.now self.entry.texts.request.now.lines
            (option_map version_no parent)
            (content.Limits (spec_at self.entry.provider.now.ids version_set)) line) }
        ensures refusal { IsOkUnless result Memory }
    {
        let spec = self.provider.spec_of(version_set)?;
        let place = self.place_number(parent);
        let first = self.index.first_lines(place);
        let line = self.texts.first_limit(self.alloc, place, &spec, first)?;
        Ok(line.unwrap_or(0))
    }

    /// The step that forbids a version by the line that locks another version of its package.
    fn lock(self, solvable: SolvableId) -> R<Step>
        ensures names_rule { IfOk result (λ w. NamesLock self.entry.texts.catalogue.now solvable
            (step_of w)) }
        ensures written { IfOk result
            (λ w.
            (line : ℕ)
            × (step_of w
            ≡ in_report.Lock line (version_at self.entry.texts.catalogue.now solvable))) }
        ensures refusal { IsOkUnless result Memory }
    {
        let version = self.version(solvable)?;
        let number = self.provider.version_of(solvable);
        let line = lock_line(self.texts.catalogue, number).unwrap_or(0);
        Ok(Step::Lock { line, version })
    }

    /// The step that forbids a version with the word of a reason, by the first line that does. The
    /// line excludes the version, or marks its needs as unknown.
    fn exclusion(self, solvable: SolvableId, reason: StringId) -> Step
        ensures names_rule { NamesWord self.entry.texts.catalogue.now self.entry.provider.now.ids
            solvable reason (step_of result) }
        ensures written { HasWord (step_of result) }
    {
        let number = self.provider.version_of(solvable);
        let word = self.provider.word_of(reason);
        let hint = self.index.exclusion(number);
        match self.texts.word_line(number, word, hint) {
            Some(WordLine::Exclude(line)) => Step::Exclude { line },
            Some(WordLine::Unknown(line)) => Step::Unknown { line },
            None => Step::Exclude { line: 0 },
        }
    }

    /// The step that defines a version outside a version set.
    fn outside(self, version_set: VersionSetId, solvable: SolvableId) -> R<Step>
        ensures outside { IfOk result
            (λ w.
            step_of w
            ≡ in_report.Outside (spec_at self.entry.provider.now.ids version_set)
            (version_at self.entry.texts.catalogue.now solvable)) }
        ensures refusal { IsOkUnless result Memory }
    {
        Ok(Step::Outside {
            spec: self.provider.spec_of(version_set)?,
            version: self.version(solvable)?,
        })
    }

    /// The step that defines a match of a version set.
    fn matches(self, version_set: VersionSetId, solvable: SolvableId) -> R<Step>
        ensures matches { IfOk result
            (λ w.
            step_of w
            ≡ in_report.Matches (spec_at self.entry.provider.now.ids version_set)
            (version_at self.entry.texts.catalogue.now solvable)) }
        ensures refusal { IsOkUnless result Memory }
    {
        Ok(Step::Matches {
            spec: self.provider.spec_of(version_set)?,
            version: self.version(solvable)?,
        })
    }

    /// The step of a binary digit of a version's place.
    fn digit(self, solvable: SolvableId, place: u32, bit: u32) -> R<Step>
        ensures digit { IfOk result
            (λ w.
            step_of w
            ≡ in_report.Digit (version_at self.entry.texts.catalogue.now solvable) place bit) }
        ensures refusal { IsOkUnless result Memory }
    {
        Ok(Step::Digit {
            version: self.version(solvable)?,
            place,
            bit,
        })
    }

    /// The number of a parent's version; the root has none.
    fn place_number(self, parent: Option<SolvableId>) -> Option<VersionNo>
        ensures { result ≡ option_map version_no parent }
    {
        let parent = parent?;
        Some(self.provider.version_of(parent))
    }

    /// The place of a parent, in the words of a report.
    fn place(self, parent: Option<SolvableId>) -> R<Place>
        ensures place { IfOk result
            (λ p. place_of p ≡ place_at self.entry.texts.catalogue.now parent) }
        ensures refusal { IsOkUnless result Memory }
    {
        match parent {
            None => Ok(Place::Request),
            Some(parent) => Ok(Place::Version(self.version(parent)?)),
        }
    }

    fn version(self, solvable: SolvableId) -> R<Version>
        ensures version { IfOk result (λ v. version_of v ≡ version_at self.entry.texts.catalogue.now
            solvable) }
        ensures refusal { IsOkUnless result Memory }
    {
        version_of(self.alloc, self.texts.catalogue, solvable)
    }

    /// The SPECs of version sets, in order.
    fn specs(self, version_sets: &[VersionSetId]) -> R<Vec<Spec>>
        ensures specs { IfOk result
            (λ v. specs_of v.items ≡ map (spec_at self.entry.provider.now.ids) version_sets.now) }
        ensures refusal { IsOkUnless result Memory }
    {
        let mut specs = Vec::new(self.alloc);
        for version_set in version_sets {
            specs.push(self.provider.spec_of(*version_set)?)?;
        }
        Ok(specs)
    }
}

/// The numbers of the steps that are causes, by their indexes.
fn numbers_of(alloc: Global, causes: &[usize]) -> R<Vec<u32>>
    ensures numbers { IfOk result (λ v. v.items ≡ map number_of causes.now) }
    ensures refusal { IsOkUnless result Memory }
{
    let mut numbers = Vec::new(alloc);
    for cause in causes {
        numbers.push(number_of(*cause))?;
    }
    Ok(numbers)
}

/// The number, from 1, of the step at this index. There are fewer than 2^32 steps.
fn number_of(index: usize) -> u32
    ensures { result ≡ number_of index }
{
    if index < MOST_STEPS {
        index as u32 + 1
    } else {
        MOST_STEPS as u32
    }
}
