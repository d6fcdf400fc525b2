//! The need of a line, as it is lent: by the text of a request, or by the numbers of a catalogue. No
//! text is made of it, and a catalogue's need finds a listed package without its name. Used by
//! `chosen`, `open_lines` and `package_lines`.

ghost use Rattle.std.specs.Prelude.{◌≡◌, Option, List, Some, length, slice_get};
ghost use Rattle.resolvo_text.specs.Line as content;
ghost use Rattle.resolvo_text.specs.View.{spec_of};
ghost use Rattle.resolvo_pool_core.specs.Text.{alternatives_of};
ghost use Rattle.resolvo_terms.specs.Known.{name_text, spec_at, members_of};
ghost use Rattle.resolvo_catalogue_core.specs.Listed.{listed};
ghost use Rattle.resolvo_catalogue_core.specs.Grammar.{line_at};
ghost use Rattle.resolvo_catalogue_core.specs.Kept.{kept_line};
ghost use Rattle.resolvo_catalogue_core.specs.Questions.{IsRuleLine};
ghost use Rattle.resolve_order.specs.Kept.{first_of};
ghost use Rattle.resolve_order.specs.Need.{alternatives_in, condition_in, IsOf, IsOfAll, IsSpanOf, IsSpanAt, IsNeedAt};

use crate::chosen::package_of;
use resolvo_catalogue_core::{Catalogue, Cond, KeptLines, KeptRule, Rule, Span, Spec};
use resolvo_pool_core::id::{NameId, VersionSetId};
use resolvo_pool_core::requirement::{ConditionalRequirement, Requirement};
use resolvo_terms::Terms;

/// The package and the span of a SPEC. The package is known by the number of its first version, if
/// one is listed.
#[derive(Clone, Copy)]
pub struct PackageSpan {
    pub package: Option<u32>,
    pub span: Span,
}

/// The alternatives and the condition of a need.
#[derive(Drop)]
pub enum Need<'a> {
    Text {
        alternatives: &'a [Spec],
        condition: &'a Option<Box<Cond>>,
    },
    Numbered {
        kept: KeptLines<'a>,
        need: ConditionalRequirement,
    },
}

/// The package and the span of a SPEC of a text.
pub fn span_of(catalogue: &Catalogue, spec: &Spec) -> PackageSpan
    ensures { IsSpanOf (listed catalogue.now) (spec_of spec.now) result }
{
    PackageSpan {
        package: package_of(catalogue, spec.name.as_str()),
        span: spec.span,
    }
}

/// The number of the first version of the package whose name has this number, if it has one. Where
/// none is listed by the number, the name is looked for: that needs no bound of the number.
pub fn kept_package(catalogue: &Catalogue, kept: &KeptLines<'_>, name: NameId) -> Option<u32>
    requires { kept.now.lines ≡ catalogue.now }
    ensures { result ≡ first_of (listed catalogue.now) (name_text kept.now.terms name) }
{
    let terms = kept.terms();
    kept.lines_are_kept();
    terms.ids_are_once();
    match kept.versions_of(name).first() {
        Some(first) => Some(first.0),
        None => package_of(catalogue, terms.name(name)),
    }
}

/// The package and the span of a SPEC of a number.
pub fn kept_span(catalogue: &Catalogue, kept: &KeptLines<'_>, spec: VersionSetId) -> PackageSpan
    requires { kept.now.lines ≡ catalogue.now }
    ensures { IsSpanOf (listed catalogue.now) (spec_at kept.now.terms spec) result }
{
    let terms = kept.terms();
    PackageSpan {
        package: kept_package(catalogue, kept, terms.set_package(spec)),
        span: terms.span(spec),
    }
}

/// How many alternatives a requirement has.
fn set_count(terms: &Terms, requirement: Requirement) -> usize
    ensures { result ≡ length (alternatives_of (members_of terms.now) requirement) }
{
    match requirement {
        Requirement::Single(_) => 1,
        Requirement::Union(union) => terms.members(union).len(),
    }
}

/// The alternative of a requirement at a place.
fn set_at(terms: &Terms, requirement: Requirement, place: usize) -> Option<VersionSetId>
    ensures { result ≡ slice_get (alternatives_of (members_of terms.now) requirement) place }
{
    match requirement {
        Requirement::Single(spec) => { if place == 0 { Some(spec) } else { None } }
        Requirement::Union(union) => terms.members(union).get(place).copied(),
    }
}

impl Need<'_> {
    /// How many alternatives there are.
    pub fn len(&self) -> usize
        ensures { result ≡ length (alternatives_in self.now) }
    {
        match self {
            Need::Text { alternatives, .. } => alternatives.len(),
            Need::Numbered { kept, need } => set_count(kept.terms(), need.requirement),
        }
    }

    /// The alternative at a place.
    pub fn at(&self, catalogue: &Catalogue, place: usize) -> Option<PackageSpan>
        requires { IsOf catalogue.now self.now }
        ensures { IsSpanAt (listed catalogue.now) (slice_get (alternatives_in self.now) place)
            result }
    {
        match self {
            Need::Text { alternatives, .. } => match alternatives.get(place) {
                Some(spec) => Some(span_of(catalogue, spec)),
                None => None,
            },
            Need::Numbered { kept, need } => match set_at(kept.terms(), need.requirement, place) {
                Some(spec) => Some(kept_span(catalogue, kept, spec)),
                None => None,
            },
        }
    }
}

/// The need of a rule of a text, if it is one.
pub fn need_of(rule: &Rule) -> Option<Need<'_>>
    ensures need { (versions : List content.Version) (owner : Option content.Version)
        (line : content.Line)
        → IsRuleLine versions rule.now owner line
        → IsNeedAt (Some line) result }
    ensures of { (catalogue : List content.Line) → IsOfAll catalogue result }
{
    match rule {
        Rule::Needs {
            alternatives,
            condition,
            ..
        } => Some(Need::Text {
            alternatives: alternatives.as_slice(),
            condition,
        }),
        Rule::Limits { .. } | Rule::Lock { .. } | Rule::Exclude { .. } | Rule::Unknown { .. } =>
            None,
    }
}

/// The need of a rule by numbers, if it is one.
fn kept_need<'a>(kept: KeptLines<'a>, rule: KeptRule) -> Option<Need<'a>>
    ensures need { (versions : List content.Version)
        → IsNeedAt (Some (kept_line kept.entry.terms versions rule)) result }
    ensures of { IsOfAll kept.entry.lines result }
{
    match rule {
        KeptRule::Needs { need, .. } => Some(Need::Numbered { kept, need }),
        KeptRule::Limits { .. }
        | KeptRule::Lock { .. }
        | KeptRule::Exclude { .. }
        | KeptRule::Unknown { .. } => None,
    }
}

/// The need of a line of a catalogue, if it is one.
pub fn need_at<'a>(kept: KeptLines<'a>, line: u32) -> Option<Need<'a>>
    ensures need { IsNeedAt (line_at kept.entry.lines line) result }
    ensures of { IsOfAll kept.entry.lines result }
{
    match kept.rule(line) {
        Some(rule) => kept_need(kept, rule),
        None => None,
    }
}
