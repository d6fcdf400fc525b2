//! The first line of a rule in a text. The lines of a place, the request or a version, are searched
//! in order. Where several have the rule, the first one is found.

ghost use Rattle.std.specs.Prelude.{◌≡◌, ◌<◌, ℕ, List, IfOk, IsErrOf, Option, Some, None, length, slice_get};
ghost use Rattle.std.specs.Bool.{Decides};
ghost use Rattle.resolvo_text.specs.Line as content;
ghost use Rattle.resolvo_text.specs.Cases.{condition_cases};
ghost use Rattle.resolvo_text.specs.View.{spec_of, specs_of, cases_of, cond_of, condition_of};
ghost use Rattle.resolvo_catalogue_core.specs.Grammar.{line_at};
ghost use Rattle.resolvo_catalogue_core.specs.Listed.{listed, AreDistinct};
ghost use Rattle.resolvo_catalogue_core.specs.Questions.{IsRuleLine, cases_of_line};
ghost use Rattle.resolvo_catalogue_core.specs.Kept.{IsKeptLine};
ghost use Rattle.resolvo_terms.specs.Terms.{Terms};
ghost use Rattle.resolvo_pool_core.specs.declared.want.Want.TheVariants.{Ids};
ghost use Rattle.resolve_refusal.specs.LacksNumbers.{HasTooManyCases};
ghost use Rattle.resolve_refusal.specs.Lines.{count_of, number_at, AreLines, IsLeast, text_of, IsLineOf, IsLineAt, IsCaseOf, IsCaseAt, locks, ExcludesAt, MarksUnknownAt, IsWordLine, IsLockLine, IsForbidLineOf, IsFirstWith, IsFirstNeed};

use resolvo_catalogue_core::{Catalogue, Cond, KeptRule, Request, Rule, Spec, VersionNo};
use resolvo_pool_core::id::next_index;
use resolvo_pool_core::want::R;
use resolvo_terms::Terms;
use resolvo_text::cases_in;
use std::alloc::Global;

/// A catalogue, and a request over it.
#[derive(Clone, Copy)]
pub(crate) struct Texts<'a> {
    pub catalogue: &'a Catalogue,
    pub request: &'a Request,
}

/// A line `needs`, and one of the cases of its condition, from 1.
#[derive(Clone, Copy)]
pub(crate) struct NeedLine {
    pub line: u32,
    pub case: u32,
}

/// A line that forbids a version before a search.
#[derive(Clone, Copy)]
pub(crate) enum ForbidLine {
    Lock(u32),
    Exclude(u32),
}

/// A line that forbids a version with a word.
#[derive(Clone, Copy)]
pub(crate) enum WordLine {
    Exclude(u32),
    Unknown(u32),
}

/// The numbers of the lines of a place, in rising order: all up to this one, or these.
#[derive(Clone, Copy)]
pub(crate) enum PlaceLines<'a> {
    UpTo(u32),
    These(&'a [u32]),
}

impl PlaceLines<'_> {
    /// How many lines these are.
    pub fn count(self) -> usize
        ensures { result ≡ count_of self.entry }
    {
        match self {
            PlaceLines::UpTo(last) => last as usize,
            PlaceLines::These(lines) => lines.len(),
        }
    }

    /// The number of the line at this index.
    pub fn number(self, index: usize) -> u32
        requires { index < count_of self }
        ensures { result ≡ number_at self.entry index }
    {
        match self {
            PlaceLines::UpTo(_) => index as u32 + 1,
            PlaceLines::These(lines) => lines[index],
        }
    }
}

impl<'a> Texts<'a> {
    /// The lines of a place.
    pub fn lines_of(self, place: Option<VersionNo>) -> PlaceLines<'a>
        ensures { AreLines result (IsLineOf self.entry.catalogue.now self.entry.request.now.lines
            place) }
    {
        match place {
            None => PlaceLines::UpTo(self.request.line_count()),
            Some(version) => PlaceLines::These(self.catalogue.lines_of(version)),
        }
    }

    /// The first line of a place that needs these alternatives without a condition. The place is a
    /// version, or none for the request.
    pub fn plain_need_line(self, place: Option<VersionNo>, alternatives: &[Spec]) -> Option<u32>
        ensures { IsFirstWith self.entry.catalogue.now self.entry.request.now.lines place
            (content.Needs (specs_of alternatives.now) None) result }
    {
        let lines = self.lines_of(place);
        for at in 0..lines.count() {
            let line = lines.number(at);
            if self.needs_plainly(place, line, alternatives) {
                return Some(line);
            }
        }
        None
    }

    /// Whether line `line` of a place needs these alternatives without a condition.
    pub fn needs_plainly(self, place: Option<VersionNo>, line: u32, alternatives: &[Spec]) -> bool
        ensures { Decides result
            (IsLineAt (text_of self.entry.catalogue.now self.entry.request.now.lines place)
            (content.Needs (specs_of alternatives.now) None) line) }
    {
        match place {
            None => match self.request.rule(line) {
                Some(rule) => is_plain_need(rule, alternatives),
                None => false,
            },
            Some(_) => keeps_plain_need(self.catalogue, line, alternatives),
        }
    }

    /// The first line of a place that needs these alternatives in this case, and the first such
    /// case of it.
    pub fn need_line(
        self,
        alloc: Global,
        place: Option<VersionNo>,
        alternatives: &[Spec],
        case: &[Spec],
    ) -> R<Option<NeedLine>>
        ensures line { IfOk result
            (IsFirstNeed self.entry.catalogue.now self.entry.request.now.lines place
            (specs_of alternatives.now) (specs_of case.now)) }
        ensures ids { IsErrOf result Ids
            → HasTooManyCases
            (text_of self.entry.catalogue.now self.entry.request.now.lines place) }
    {
        let lines = self.lines_of(place);
        for at in 0..lines.count() {
            let line = lines.number(at);
            if let Some(case) = self.case_number(alloc, place, line, alternatives, case)? {
                return Ok(Some(NeedLine { line, case }));
            }
        }
        Ok(None)
    }

    /// The number of the first case of line `line` of a place that equals this one, if the line
    /// needs these alternatives.
    pub fn case_number(
        self,
        alloc: Global,
        place: Option<VersionNo>,
        line: u32,
        alternatives: &[Spec],
        case: &[Spec],
    ) -> R<Option<u32>>
        ensures case { IfOk result
            (IsCaseAt (text_of self.entry.catalogue.now self.entry.request.now.lines place)
            (specs_of alternatives.now) (specs_of case.now) line) }
        ensures ids { IsErrOf result Ids
            → HasTooManyCases
            (text_of self.entry.catalogue.now self.entry.request.now.lines place) }
    {
        match place {
            None => match self.request.rule(line) {
                Some(rule) => need_case(alloc, rule, alternatives, case),
                None => Ok(None),
            },
            Some(_) => keeps_case(alloc, self.catalogue, line, alternatives, case),
        }
    }

    /// The first line of a place that limits its set to this SPEC.
    pub fn limit_line(self, place: Option<VersionNo>, spec: &Spec) -> Option<u32>
        ensures { IsFirstWith self.entry.catalogue.now self.entry.request.now.lines place
            (content.Limits (spec_of spec.now)) result }
    {
        let lines = self.lines_of(place);
        for at in 0..lines.count() {
            let line = lines.number(at);
            if self.limits_to(place, line, spec) {
                return Some(line);
            }
        }
        None
    }

    /// Whether line `line` of a place limits its set to this SPEC.
    pub fn limits_to(self, place: Option<VersionNo>, line: u32, spec: &Spec) -> bool
        ensures { Decides result
            (IsLineAt (text_of self.entry.catalogue.now self.entry.request.now.lines place)
            (content.Limits (spec_of spec.now)) line) }
    {
        match place {
            None => match self.request.rule(line) {
                Some(rule) => is_limit(rule, spec),
                None => false,
            },
            Some(_) => keeps_limit(self.catalogue, line, spec),
        }
    }

    /// The first line that forbids the version with this word: one that excludes it, or one that
    /// marks its needs as unknown. The hint is a line that may exclude it.
    pub fn word_line(self, version: VersionNo, word: &str, hint: Option<u32>) -> Option<WordLine>
        ensures { (v : content.Version)
            → slice_get (listed self.entry.catalogue.now) version.0 ≡ Some v
            → IsWordLine self.entry.catalogue.now v word.now result }
    {
        let excludes = self.exclusion_line(version, word, hint);
        let unknown = self.unknown_line(version, word);
        earlier(excludes, unknown)
    }

    /// The first line of a version that marks its needs as unknown with this word.
    fn unknown_line(self, version: VersionNo, word: &str) -> Option<u32>
        ensures { IsFirstWith self.entry.catalogue.now self.entry.request.now.lines
            (Some version) (content.Unknown word.now) result }
    {
        let lines = self.lines_of(Some(version));
        for at in 0..lines.count() {
            let line = lines.number(at);
            if self.is_unknown(line, word) {
                return Some(line);
            }
        }
        None
    }

    /// Whether this line of the catalogue marks a version's needs as unknown with this word.
    fn is_unknown(self, line: u32, word: &str) -> bool
        ensures { Decides result
            (IsLineAt self.entry.catalogue.now (content.Unknown word.now) line) }
    {
        let kept = self.catalogue.kept();
        match kept.rule(line) {
            Some(rule) => marks_unknown(rule, kept.terms(), word),
            None => false,
        }
    }

    /// The line that excludes the version with this word.
    fn exclusion_line(self, version: VersionNo, word: &str, hint: Option<u32>) -> Option<u32>
        ensures { (v : content.Version)
            → slice_get (listed self.entry.catalogue.now) version.0 ≡ Some v
            → IsLeast result (ExcludesAt self.entry.catalogue.now v word.now) }
    {
        match forbid_line(self.catalogue, version) {
            None => None,
            Some(ForbidLine::Lock(_)) => self.locked_exclusion(version, word, hint),
            Some(ForbidLine::Exclude(line)) => self.this_exclusion(line, version, word),
        }
    }

    /// The line that excludes the version, if it does so with this word.
    fn this_exclusion(self, line: u32, version: VersionNo, word: &str) -> Option<u32>
        ensures { IsForbidLineOf self.entry.catalogue.now version.0
            (Some (ForbidLine.Exclude line))
            → (v : content.Version)
            → slice_get (listed self.entry.catalogue.now) version.0 ≡ Some v
            → IsLeast result (ExcludesAt self.entry.catalogue.now v word.now) }
    {
        if self.excludes(line, version, word) {
            Some(line)
        } else {
            None
        }
    }

    /// The line that excludes a version that a lock forbids too, with this word. All lines are
    /// searched for it where the hint is another line.
    fn locked_exclusion(self, version: VersionNo, word: &str, hint: Option<u32>) -> Option<u32>
        ensures { (v : content.Version)
            → slice_get (listed self.entry.catalogue.now) version.0 ≡ Some v
            → IsLeast result (ExcludesAt self.entry.catalogue.now v word.now) }
    {
        // No version is excluded twice.
        self.catalogue.lines_are_in_place();
        match hint {
            Some(line) => {
                if self.excludes(line, version, word) {
                    Some(line)
                } else {
                    self.first_exclusion(version, word)
                }
            }
            None => self.first_exclusion(version, word),
        }
    }

    /// The first line of the catalogue that excludes the version with this word.
    fn first_exclusion(self, version: VersionNo, word: &str) -> Option<u32>
        ensures { (v : content.Version)
            → slice_get (listed self.entry.catalogue.now) version.0 ≡ Some v
            → IsLeast result (ExcludesAt self.entry.catalogue.now v word.now) }
    {
        for above in 0..self.catalogue.line_count() {
            if self.excludes(above + 1, version, word) {
                return Some(above + 1);
            }
        }
        None
    }

    /// Whether this line of the catalogue excludes the version with this word.
    fn excludes(self, line: u32, version: VersionNo, word: &str) -> bool
        ensures { (v : content.Version)
            → slice_get (listed self.entry.catalogue.now) version.0 ≡ Some v
            → Decides result (ExcludesAt self.entry.catalogue.now v word.now line) }
    {
        // No version is listed twice, so its number identifies it.
        let _versions = self.catalogue.versions();
        let kept = self.catalogue.kept();
        match kept.rule(line) {
            Some(rule) => excludes(rule, kept.terms(), version, word),
            None => false,
        }
    }
}

/// The earlier one of two lines that forbid a version with one word.
fn earlier(excludes: Option<u32>, unknown: Option<u32>) -> Option<WordLine>
    ensures { (catalogue : List content.Line) (v : content.Version) (word : List ℕ)
        → IsLeast excludes (ExcludesAt catalogue v word)
        → IsLeast unknown (MarksUnknownAt catalogue v word)
        → IsWordLine catalogue v word result }
{
    match excludes {
        None => match unknown {
            None => None,
            Some(line) => Some(WordLine::Unknown(line)),
        },
        Some(line) => match unknown {
            None => Some(WordLine::Exclude(line)),
            Some(other) => {
                if line < other {
                    Some(WordLine::Exclude(line))
                } else {
                    Some(WordLine::Unknown(other))
                }
            }
        },
    }
}

/// The line that locks another version of the version's package.
pub(crate) fn lock_line(catalogue: &Catalogue, version: VersionNo) -> Option<u32>
    ensures { (v : content.Version)
        → slice_get (listed catalogue.now) version.0 ≡ Some v
        → IsLockLine catalogue.now v result }
{
    match forbid_line(catalogue, version) {
        Some(ForbidLine::Lock(line)) => Some(line),
        Some(ForbidLine::Exclude(_)) => None,
        None => None,
    }
}

/// The line that forbids the version before a search: one that locks another version of its
/// package, else one that excludes it.
pub(crate) fn forbid_line(catalogue: &Catalogue, version: VersionNo) -> Option<ForbidLine>
    ensures { IsForbidLineOf catalogue.now version.0 result }
{
    let line = catalogue.barred(version)?;
    if is_lock(catalogue, line) {
        Some(ForbidLine::Lock(line))
    } else {
        Some(ForbidLine::Exclude(line))
    }
}

/// Whether this line of a catalogue locks a version.
fn is_lock(catalogue: &Catalogue, line: u32) -> bool
    ensures { (l : content.Line) → line_at catalogue.now line ≡ Some l → result ≡ locks l }
{
    match catalogue.kept().rule(line) {
        Some(rule) => locks(rule),
        None => false,
    }
}

/// Whether this line of a catalogue needs these alternatives without a condition.
fn keeps_plain_need(catalogue: &Catalogue, line: u32, alternatives: &[Spec]) -> bool
    ensures { Decides result
        (IsLineAt catalogue.now (content.Needs (specs_of alternatives.now) None) line) }
{
    let kept = catalogue.kept();
    match kept.rule(line) {
        Some(rule) => is_plain_need_kept(rule, kept.terms(), alternatives),
        None => false,
    }
}

/// Whether this line of a catalogue limits a version's set to this SPEC.
fn keeps_limit(catalogue: &Catalogue, line: u32, spec: &Spec) -> bool
    ensures { Decides result (IsLineAt catalogue.now (content.Limits (spec_of spec.now)) line) }
{
    let kept = catalogue.kept();
    match kept.rule(line) {
        Some(rule) => is_limit_kept(rule, kept.terms(), spec),
        None => false,
    }
}

/// The number of the first case of this line of a catalogue that equals this one, if the line needs
/// these alternatives.
fn keeps_case(
    alloc: Global,
    catalogue: &Catalogue,
    line: u32,
    alternatives: &[Spec],
    case: &[Spec],
) -> R<Option<u32>>
    ensures case { IfOk result
        (IsCaseAt catalogue.now (specs_of alternatives.now) (specs_of case.now) line) }
    ensures ids { IsErrOf result Ids → HasTooManyCases catalogue.now }
{
    let kept = catalogue.kept();
    match kept.rule(line) {
        Some(rule) => need_case_kept(alloc, rule, kept.terms(), alternatives, case),
        None => Ok(None),
    }
}

/// The number of the first case of a need, from 1, that equals this one, if the need has these
/// alternatives. `Ids` where there are more cases than numbers.
fn need_case(alloc: Global, rule: &Rule, alternatives: &[Spec], case: &[Spec]) -> R<Option<u32>>
    ensures case { IfOk result
        (λ found.
        (versions : List content.Version) (owner : Option content.Version) (line : content.Line)
        → IsRuleLine versions rule.now owner line
        → IsCaseOf (specs_of alternatives.now) (specs_of case.now) line found) }
    ensures ids { IsErrOf result Ids
        → (versions : List content.Version) (owner : Option content.Version) (line : content.Line)
        → IsRuleLine versions rule.now owner line
        → 4294967295 < length (cases_of_line (Some line)) }
{
    let Rule::Needs {
        alternatives: of_line,
        condition,
        ..
    } = rule
    else {
        return Ok(None);
    };
    if !same_specs(of_line.as_slice(), alternatives) {
        return Ok(None);
    }
    condition_case(alloc, condition, case)
}

/// The same of a rule that is kept. Only the condition of a need that has these alternatives is
/// decoded.
fn need_case_kept(
    alloc: Global,
    rule: KeptRule,
    terms: &Terms,
    alternatives: &[Spec],
    case: &[Spec],
) -> R<Option<u32>>
    ensures case { IfOk result
        (λ found.
        (versions : List content.Version) (owner : Option content.Version) (line : content.Line)
        → IsKeptLine terms.now versions rule owner line
        → IsCaseOf (specs_of alternatives.now) (specs_of case.now) line found) }
    ensures ids { IsErrOf result Ids
        → (versions : List content.Version) (owner : Option content.Version) (line : content.Line)
        → IsKeptLine terms.now versions rule owner line
        → 4294967295 < length (cases_of_line (Some line)) }
{
    let KeptRule::Needs { need, .. } = rule else {
        return Ok(None);
    };
    if !terms.are_alternatives(need.requirement, alternatives) {
        return Ok(None);
    }
    let condition = terms.condition_of(need.condition)?;
    condition_case(alloc, &condition, case)
}

/// The number of the first case of a condition, from 1, that equals this one. Without a condition
/// there is one case, which is empty. `Ids` where there are more cases than numbers.
fn condition_case(alloc: Global, condition: &Option<Box<Cond>>, case: &[Spec]) -> R<Option<u32>>
    ensures case { IfOk result
        (λ found.
        (alternatives : List content.Spec)
        → IsCaseOf alternatives (specs_of case.now)
        (content.Needs alternatives (condition_of condition.now)) found) }
    ensures ids { IsErrOf result Ids
        → 4294967295 < length (condition_cases (condition_of condition.now)) }
{
    match condition {
        None => Ok(if case.is_empty() { Some(1) } else { None }),
        Some(condition) => case_in(alloc, condition, case),
    }
}

/// The number of the first case of the condition, from 1, that equals this one.
fn case_in(alloc: Global, condition: &Cond, case: &[Spec]) -> R<Option<u32>>
    ensures case { IfOk result
        (λ found.
        (alternatives : List content.Spec)
        → IsCaseOf alternatives (specs_of case.now)
        (content.Needs alternatives (Some (cond_of condition.now))) found) }
    ensures ids { IsErrOf result Ids
        → 4294967295 < length (condition_cases (Some (cond_of condition.now))) }
{
    let cases = cases_in(alloc, condition)?;
    let Some(index) = index_of(cases.as_slice(), case) else {
        return Ok(None);
    };
    Ok(Some(next_index(index)? as u32 + 1))
}

/// The index of the first of these cases that equals this one.
fn index_of(cases: &[Vec<Spec>], case: &[Spec]) -> Option<usize>
    ensures { IsLeast result (λ k. slice_get (cases_of cases.now) k ≡ Some (specs_of case.now)) }
{
    for (index, one) in cases.iter().enumerate() {
        if same_specs(one.as_slice(), case) {
            return Some(index);
        }
    }
    None
}

/// Whether the rule needs these alternatives without a condition.
fn is_plain_need(rule: &Rule, alternatives: &[Spec]) -> bool
    ensures { (versions : List content.Version) (owner : Option content.Version)
        (line : content.Line)
        → IsRuleLine versions rule.now owner line
        → Decides result (line ≡ content.Needs (specs_of alternatives.now) None) }
{
    match rule {
        Rule::Needs {
            alternatives: of_line,
            condition: None,
            ..
        } => same_specs(of_line.as_slice(), alternatives),
        _ => false,
    }
}

/// Whether the rule limits its set to this SPEC.
fn is_limit(rule: &Rule, spec: &Spec) -> bool
    ensures { (versions : List content.Version) (owner : Option content.Version)
        (line : content.Line)
        → IsRuleLine versions rule.now owner line
        → Decides result (line ≡ content.Limits (spec_of spec.now)) }
{
    match rule {
        Rule::Limits { spec: of_line, .. } => same_spec(of_line, spec),
        _ => false,
    }
}

/// Whether the rule that is kept needs these alternatives without a condition.
fn is_plain_need_kept(rule: KeptRule, terms: &Terms, alternatives: &[Spec]) -> bool
    ensures { (versions : List content.Version) (owner : Option content.Version)
        (line : content.Line)
        → IsKeptLine terms.now versions rule owner line
        → Decides result (line ≡ content.Needs (specs_of alternatives.now) None) }
{
    match rule {
        KeptRule::Needs { need, .. } => {
            need.condition.is_none() && terms.are_alternatives(need.requirement, alternatives)
        }
        _ => false,
    }
}

/// Whether the rule that is kept limits its set to this SPEC.
fn is_limit_kept(rule: KeptRule, terms: &Terms, spec: &Spec) -> bool
    ensures { (versions : List content.Version) (owner : Option content.Version)
        (line : content.Line)
        → IsKeptLine terms.now versions rule owner line
        → Decides result (line ≡ content.Limits (spec_of spec.now)) }
{
    match rule {
        KeptRule::Limits { spec: of_line, .. } => terms.is_spec(of_line, spec),
        _ => false,
    }
}

/// Whether the rule locks a version.
fn locks(rule: KeptRule) -> bool
    ensures { (terms : Terms) (versions : List content.Version) (owner : Option content.Version)
        (line : content.Line)
        → IsKeptLine terms versions rule owner line
        → result ≡ locks line }
{
    match rule {
        KeptRule::Lock { .. } => true,
        _ => false,
    }
}

/// Whether the rule marks a version's needs as unknown with this word.
fn marks_unknown(rule: KeptRule, terms: &Terms, word: &str) -> bool
    ensures { (versions : List content.Version) (owner : Option content.Version)
        (line : content.Line)
        → IsKeptLine terms.now versions rule owner line
        → Decides result (line ≡ content.Unknown word.now) }
{
    match rule {
        KeptRule::Unknown { word: source, .. } => terms.text(source) == word,
        _ => false,
    }
}

/// Whether the rule excludes the version with this word.
fn excludes(rule: KeptRule, terms: &Terms, version: VersionNo, word: &str) -> bool
    ensures { (versions : List content.Version) (owner : Option content.Version)
        (line : content.Line)
        (v : content.Version)
        → AreDistinct versions
        → IsKeptLine terms.now versions rule owner line
        → slice_get versions version.0 ≡ Some v
        → Decides result (line ≡ content.Exclude v word.now) }
{
    match rule {
        KeptRule::Exclude {
            version: excluded,
            word: source,
        } => excluded.0 == version.0 && terms.text(source) == word,
        _ => false,
    }
}

/// Whether two SPECs ask for the same versions of one package.
pub(crate) fn same_spec(one: &Spec, other: &Spec) -> bool
    ensures { Decides result (spec_of one.now ≡ spec_of other.now) }
{
    one.name == other.name && one.span == other.span
}

/// Whether these are the same SPECs in the same order.
pub(crate) fn same_specs(some: &[Spec], others: &[Spec]) -> bool
    ensures { Decides result (specs_of some.now ≡ specs_of others.now) }
{
    if some.len() != others.len() {
        return false;
    }
    for (index, one) in some.iter().enumerate() {
        if !same_spec(one, &others[index]) {
            return false;
        }
    }
    true
}
