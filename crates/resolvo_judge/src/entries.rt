//! The entries and the left-out wishes of an `install` report, line by line.
//! The invariant is `KeepsAnswers` of specs/KeptAnswers.antt.

ghost use Rattle.std.specs.Prelude.{◌≡◌, [], ◌<◌, ◌+◌, ◌^◌, List, Option, IfOk, OnOk, IsTrue, true, option_and_then, option_copied};
ghost use Rattle.std.specs.List.{list_any};
ghost use Rattle.resolvo_text.specs.Line as spelled;
ghost use Rattle.resolvo_text.specs.Matches.{Set, same_version, matches};
ghost use Rattle.resolvo_text.specs.View.{version_of, spec_of, specs_of};
ghost use Rattle.resolvo_catalogue_core.specs.Grammar.{line_at};
ghost use Rattle.resolvo_catalogue_core.specs.Listed.{listed};
ghost use Rattle.resolvo_report.specs.Value as model;
ghost use Rattle.resolvo_report.specs.View.{place_of, answer_line_of};
ghost use Rattle.resolvo_checker.specs.RuleLines.{line_of_rule, owned_line};
ghost use Rattle.resolvo_judge.specs.Chosen.{Holds};
ghost use Rattle.resolvo_judge.specs.Entries.{is_free, may_enter, is_place_taken, gives, is_reason, is_wish, entries_of};
ghost use Rattle.resolvo_judge.specs.KeptAnswers.{KeepsAnswers, KeepsLines, DecidesFit, AddsAnswer, AddsLine, IsWishAnswered, AreWishesAnswered, is_after};

use crate::chosen::Chosen;
use crate::forbidden_wishes::ForbiddenWishes;
use crate::kept_reasons::gives_at;
use crate::versions::Versions;
use resolvo_catalogue_core::{Catalogue, Request, Rule, Spec, Version};
use resolvo_checker::line_rule::rule_asked;
use resolvo_checker::steps::number_of;
use resolvo_report::{AnswerLine, Place};
use resolvo_text::matches;
use std::alloc::{AllocError, Global};
use std::collections::BTreeMap;

/// The entries and left-out wishes so far.
#[derive(Drop)]
pub struct Entries {
    pub chosen: Chosen,
    pub out: Versions,
    pub forbidden: ForbiddenWishes,
    /// The steps that forbid the left-out wishes, by their request lines.
    pub lines: BTreeMap<u32, u32>,
    /// The last request line that a `wished` or `left out` line named.
    pub last_wish: Option<u32>,
}

fn any_matches(alternatives: &[Spec], version: &Version) -> bool
    ensures { result
        ≡ list_any (λ s. matches (spec_of s) (version_of version.now)) alternatives.now }
{
    alternatives.iter().any(|spec| matches(spec, version))
}

/// Whether the version matches the alternative of this place.
#[tactic(auto, using(crate::proofs::EntryLemmas::any_at))]
fn matches_at(alternatives: &[Spec], place: Option<usize>, version: &Version) -> bool
    ensures { IsTrue result
        → list_any (λ s. matches (spec_of s) (version_of version.now)) alternatives.now ≡ true }
{
    let Some(place) = place else {
        return false;
    };
    match alternatives.get(place) {
        Some(spec) => matches(spec, version),
        None => false,
    }
}

/// Whether the version matches one of the alternatives. That of the place is tried first.
fn one_matches(alternatives: &[Spec], place: Option<usize>, version: &Version) -> bool
    ensures { result
        ≡ list_any (λ s. matches s (version_of version.now)) (specs_of alternatives.now) }
{
    if matches_at(alternatives, place, version) {
        return true;
    }
    any_matches(alternatives, version)
}

/// Whether the rule is a requirement that the version meets, and its condition holds.
fn gives(
    chosen: &Chosen,
    rule: Option<&Rule>,
    alternative: Option<usize>,
    version: &Version,
) -> bool
    ensures { (set : Set) (vs : List spelled.Version)
        → Holds chosen.now set
        → result
        ≡ gives (option_and_then (line_of_rule vs) (option_copied rule.entry)) set
        (version_of version.now) }
{
    match rule {
        Some(
            Rule::Needs {
                alternatives,
                condition,
                ..
            },
        ) => one_matches(alternatives.as_slice(), alternative, version)
            && chosen.condition_holds(condition),
        _ => false,
    }
}

/// Whether the versions have the same name and number.
pub fn is_same(one: &Version, other: &Version) -> bool
    ensures { result ≡ same_version (version_of one.now) (version_of other.now) }
{
    one.name == other.name && one.number == other.number
}

impl Entries {
    pub fn new(alloc: Global) -> Entries
        ensures kept { KeepsAnswers result [] }
        ensures lines { (request : List spelled.Line) → KeepsLines request result [] }
        ensures none { result.chosen.count ≡ 0 }
    {
        Entries {
            chosen: Chosen::new(alloc),
            out: Versions::new(alloc),
            forbidden: ForbiddenWishes::new(alloc),
            lines: BTreeMap::new(alloc),
            last_wish: None,
        }
    }

    /// Whether the version is no entry, nor another version of a package that isn't marked `many`.
    fn is_free(&self, catalogue: &Catalogue, version: &Version) -> bool
        ensures { (set : Set)
            → Holds self.now.chosen set
            → result ≡ is_free catalogue.now set (version_of version.now) }
    {
        if catalogue.is_many(&version.name) {
            return !self.chosen.has(version);
        }
        !self.chosen.has_package_of(version)
    }

    /// Whether the version may be an entry, its reason aside.
    fn may_enter(&self, catalogue: &Catalogue, version: &Version) -> bool
        ensures { (before : List model.AnswerLine)
            → KeepsAnswers self.now before
            → result ≡ may_enter catalogue.now before (version_of version.now) }
    {
        number_of(catalogue, version).is_some()
            && self.is_free(catalogue, version)
            && !self.out.has(version)
    }

    fn is_place_taken(&self, place: &Place) -> bool
        ensures { (before : List model.AnswerLine)
            → KeepsAnswers self.now before
            → result ≡ is_place_taken (place_of place.now) (entries_of before) }
    {
        match place {
            Place::Request => true,
            Place::Version(version) => self.chosen.has(version),
        }
    }

    /// Whether the line of this place gives a reason for the version. The alternative is tried first.
    fn is_reason(
        &self,
        catalogue: &Catalogue,
        request: &Request,
        place: &Place,
        line: u32,
        alternative: Option<usize>,
        version: &Version,
    ) -> Result<bool, AllocError>
        ensures { (before : List model.AnswerLine)
            → KeepsAnswers self.now before
            → IfOk result
            (λ is.
            is
            ≡ is_reason catalogue.now request.now.lines (entries_of before)
            (place_of place.now) line (version_of version.now)) }
    {
        if !self.is_place_taken(place) {
            return Ok(false);
        }
        match place {
            Place::Request => {
                Ok(gives(
                    &self.chosen,
                    rule_asked(request, line),
                    alternative,
                    version,
                ))
            }
            Place::Version(owner) => {
                gives_at(&self.chosen, catalogue, owner, line, alternative, version)
            }
        }
    }

    /// Whether no line so far names a wish of this line or of a later one.
    fn is_next_wish(&self, line: u32) -> bool
        ensures { result ≡ is_after self.now.last_wish line }
    {
        match self.last_wish {
            Some(last) => last < line,
            None => true,
        }
    }

    /// Whether the line of the request is a wish for the version, after the last wish line.
    fn is_wish(&self, request: &Request, line: u32, version: &Version) -> bool
        ensures { (before : List model.AnswerLine)
            → KeepsAnswers self.now before
            → result ≡ is_wish request.now.lines before line (version_of version.now) }
    {
        match request.wish(line) {
            Some(wish) => is_same(version, wish) && self.is_next_wish(line),
            None => false,
        }
    }

    /// Adds an entry, if it fits.
    fn take_entry(
        &mut self,
        catalogue: &Catalogue,
        request: &Request,
        version: &Version,
        place: &Place,
        line: u32,
        alternative: Option<usize>,
    ) -> Result<bool, AllocError>
        requires { self.old.chosen.count < 2 ^ 32 }
        ensures fits { IfOk result (DecidesFit catalogue.now request.now.lines self.old
            (model.Entry (version_of version.now) (place_of place.now) line)) }
        ensures kept { IfOk result (λ fits. AddsAnswer self.old
            (model.Entry (version_of version.now) (place_of place.now) line) fits self.new) }
        ensures lines { IfOk result (λ fits. AddsLine request.now.lines self.old
            (model.Entry (version_of version.now) (place_of place.now) line) fits self.new) }
        ensures few { IfOk result (λ fits. self.new.chosen.count < self.old.chosen.count + 2) }
    {
        if !self.may_enter(catalogue, version) {
            return Ok(false);
        }
        if !self.is_reason(catalogue, request, place, line, alternative, version)? {
            return Ok(false);
        }
        self.chosen.add(version)?;
        Ok(true)
    }

    /// Adds a wish that is an entry, if it fits.
    fn take_wished(
        &mut self,
        catalogue: &Catalogue,
        request: &Request,
        version: &Version,
        line: u32,
    ) -> Result<bool, AllocError>
        requires { self.old.chosen.count < 2 ^ 32 }
        ensures fits { IfOk result (DecidesFit catalogue.now request.now.lines self.old
            (model.Wished (version_of version.now) line)) }
        ensures kept { IfOk result (λ fits. AddsAnswer self.old
            (model.Wished (version_of version.now) line) fits self.new) }
        ensures lines { IfOk result (λ fits. AddsLine request.now.lines self.old
            (model.Wished (version_of version.now) line) fits self.new) }
        ensures few { IfOk result (λ fits. self.new.chosen.count < self.old.chosen.count + 2) }
    {
        if !self.may_enter(catalogue, version) || !self.is_wish(request, line, version) {
            return Ok(false);
        }
        self.chosen.add(version)?;
        self.last_wish = Some(line);
        Ok(true)
    }

    /// Adds a left-out wish, if it fits.
    fn take_left_out(
        &mut self,
        alloc: Global,
        request: &Request,
        version: &Version,
        line: u32,
        step: u32,
    ) -> Result<bool, AllocError>
        ensures fits { IfOk result (λ fits. (catalogue : List spelled.Line)
            → DecidesFit catalogue request.now.lines self.old
            (model.LeftOut (version_of version.now) line step) fits) }
        ensures kept { IfOk result (λ fits. AddsAnswer self.old
            (model.LeftOut (version_of version.now) line step) fits self.new) }
        ensures lines { IfOk result (λ fits. AddsLine request.now.lines self.old
            (model.LeftOut (version_of version.now) line step) fits self.new) }
        ensures few { IfOk result (λ fits. self.new.chosen.count ≡ self.old.chosen.count) }
    {
        if !self.is_wish(request, line, version) || self.chosen.has(version) {
            return Ok(false);
        }
        self.out.add(alloc, version)?;
        let above = self.chosen.count();
        self.forbidden.add(alloc, version, step, above)?;
        self.lines.insert(line, step)?;
        self.last_wish = Some(line);
        Ok(true)
    }

    /// Whether the wish of this request line, if there is one, is an entry or left out.
    fn is_wish_answered(&self, request: &Request, line: u32) -> bool
        ensures { (before : List model.AnswerLine)
            → KeepsAnswers self.now before
            → KeepsLines request.now.lines self.now before
            → IsWishAnswered request.now.lines before line result }
    {
        match request.wish(line) {
            Some(wish) => self.chosen.has(wish) || self.lines.contains_key(&line),
            None => true,
        }
    }

    /// Whether each wish of the request is an entry or left out.
    pub fn are_wishes_answered(&self, request: &Request) -> bool
        ensures { (before : List model.AnswerLine)
            → KeepsAnswers self.now before
            → KeepsLines request.now.lines self.now before
            → AreWishesAnswered request.now.lines before result }
    {
        for index in 0..request.line_count() {
            if !self.is_wish_answered(request, index + 1) {
                return false;
            }
        }
        true
    }

    /// Adds the next line, if it fits. The alternative of an entry's reason is tried first.
    pub fn take(
        &mut self,
        alloc: Global,
        catalogue: &Catalogue,
        request: &Request,
        line: &AnswerLine,
        alternative: Option<usize>,
    ) -> Result<bool, AllocError>
        requires { self.old.chosen.count < 2 ^ 32 }
        ensures fits { IfOk result (DecidesFit catalogue.now request.now.lines self.old
            (answer_line_of line.now)) }
        ensures kept { IfOk result (λ fits. AddsAnswer self.old (answer_line_of line.now) fits
            self.new) }
        ensures lines { IfOk result (λ fits. AddsLine request.now.lines self.old
            (answer_line_of line.now) fits self.new) }
        ensures few { IfOk result (λ fits. self.new.chosen.count < self.old.chosen.count + 2) }
    {
        match line {
            AnswerLine::Entry {
                version,
                place,
                line,
            } => self.take_entry(catalogue, request, version, place, *line, alternative),
            AnswerLine::Wished { version, line } => {
                self.take_wished(catalogue, request, version, *line)
            }
            AnswerLine::LeftOut {
                version,
                line,
                step,
            } => self.take_left_out(alloc, request, version, *line, *step),
        }
    }
}
