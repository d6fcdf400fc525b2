//! Of each key the first line of a place that has it, so that no step walks a long place. A line
//! that is found by its key is tested, and the place is walked where it states another rule.

ghost use Rattle.std.specs.Prelude.{◌≡◌, ◌<◌, ℕ, List, map, IfOk, IfSome, IsErrOf, IsOkUnless, None, OnOk};
ghost use Rattle.std.specs.BTreeMap.{get_by_text};
ghost use Rattle.std.specs.Set.{is_member};
ghost use Rattle.std.specs.Str.{bytes_eq};
ghost use Rattle.std.specs.String.{string_bytes};
ghost use Rattle.resolvo_pool_core.specs.declared.want.Want.TheVariants.{Ids, Memory};
ghost use Rattle.resolvo_text.specs.Line as content;
ghost use Rattle.resolvo_text.specs.View.{spec_of, specs_of};
ghost use Rattle.resolve_refusal.specs.LacksNumbers.{HasTooManyCases};
ghost use Rattle.resolve_refusal.specs.Lines.{text_of, IsLineOf, IsAt, NeedsIn, IsFirstWith, IsFirstNeed};
ghost use Rattle.resolve_refusal.specs.RuleKeys.{AreKeysAt};
ghost use Rattle.resolve_refusal.specs.FirstLines.{first_or, KeepsFirst, first_of, AreFirst, AreFirstBy};

use crate::lines::{NeedLine, Texts};
use crate::rule_keys::{LinesByText, keep_first, limit_key, need_key, note_group, rule_keys};
use resolvo_catalogue_core::{Catalogue, Spec, VersionNo};
use resolvo_pool_core::want::R;
use std::alloc::Global;
use std::collections::BTreeMap;

/// The first lines of a place, by their keys, and the groups of its alternatives.
#[derive(Drop)]
pub(crate) struct FirstLines {
    groups: LinesByText,
    lines: LinesByText,
}

impl FirstLines {
    /// The first line with this key.
    fn first_line(&self, key: &str) -> Option<u32>
        ensures { result ≡ first_of self.now key.now }
    {
        self.lines.get(key).copied()
    }
}

/// Puts the line at each of these keys that has none yet.
fn keep_all(alloc: Global, lines: &mut LinesByText, keys: &[String], line: u32) -> R<()>
    ensures first { OnOk result
        ((q : List ℕ)
        → get_by_text lines.new q
        ≡ first_or (get_by_text lines.old q) (is_member bytes_eq (map string_bytes keys.now) q)
        line) }
    ensures refusal { IsOkUnless result Memory }
{
    for key in keys {
        keep_first(alloc, lines, key.as_str(), line)?;
    }
    Ok(())
}

/// The keys of a line of a catalogue.
fn kept_keys(
    alloc: Global,
    groups: &LinesByText,
    catalogue: &Catalogue,
    line: u32,
) -> R<Vec<String>>
    ensures keys { IfOk result
        (λ ks.
        AreKeysAt (λ q. get_by_text groups.now q) catalogue.now line
        (map string_bytes ks.items)) }
    ensures refusal { IsOkUnless result Memory }
{
    let found = catalogue.rule(line)?;
    match found {
        Some(rule) => {
            let keys = rule_keys(alloc, groups, &rule)?;
            Ok(keys)
        }
        None => Ok(Vec::new(alloc)),
    }
}

/// Gives the alternatives of a line of a catalogue a group.
fn note_kept(alloc: Global, groups: &mut LinesByText, catalogue: &Catalogue, line: u32) -> R<()>
    ensures { IsOkUnless result Memory }
{
    match catalogue.rule(line)? {
        Some(rule) => note_group(alloc, groups, &rule, line),
        None => Ok(()),
    }
}

impl Texts<'_> {
    /// Gives the alternatives of line `line` of a place a group.
    fn note_line(
        self,
        alloc: Global,
        groups: &mut LinesByText,
        place: Option<VersionNo>,
        line: u32,
    ) -> R<()>
        ensures { IsOkUnless result Memory }
    {
        match place {
            None => match self.request.rule(line) {
                Some(rule) => note_group(alloc, groups, rule, line),
                None => Ok(()),
            },
            Some(_) => note_kept(alloc, groups, self.catalogue, line),
        }
    }

    /// The groups of the alternatives of a place. They only part the keys: any groups serve.
    fn groups(self, alloc: Global, place: Option<VersionNo>) -> R<LinesByText>
        ensures { IsOkUnless result Memory }
    {
        let lines = self.lines_of(place);
        let mut groups = BTreeMap::new(alloc);
        for at in 0..lines.count() {
            let line = lines.number(at);
            self.note_line(alloc, &mut groups, place, line)?;
        }
        Ok(groups)
    }

    /// The keys of line `line` of a place.
    fn keys_at(
        self,
        alloc: Global,
        groups: &LinesByText,
        place: Option<VersionNo>,
        line: u32,
    ) -> R<Vec<String>>
        ensures keys { IfOk result
            (λ ks.
            AreKeysAt (λ q. get_by_text groups.now q)
            (text_of self.entry.catalogue.now self.entry.request.now.lines place) line
            (map string_bytes ks.items)) }
        ensures refusal { IsOkUnless result Memory }
    {
        match place {
            None => match self.request.rule(line) {
                Some(rule) => {
                    let keys = rule_keys(alloc, groups, rule)?;
                    Ok(keys)
                }
                None => Ok(Vec::new(alloc)),
            },
            Some(_) => kept_keys(alloc, groups, self.catalogue, line),
        }
    }

    /// Puts line `line` of a place at each of its keys that has none yet.
    fn keep_line(
        self,
        alloc: Global,
        groups: &LinesByText,
        place: Option<VersionNo>,
        line: u32,
        first: &mut LinesByText,
    ) -> R<()>
        ensures first { OnOk result
            (KeepsFirst (λ q. get_by_text groups.now q)
            (text_of self.entry.catalogue.now self.entry.request.now.lines place) line
            (λ q. get_by_text first.old q) (λ q. get_by_text first.new q)) }
        ensures refusal { IsOkUnless result Memory }
    {
        let keys = self.keys_at(alloc, groups, place, line)?;
        keep_all(alloc, first, keys.as_slice(), line)?;
        Ok(())
    }

    /// The first lines of a place, where the alternatives are in these groups.
    fn keyed_lines(
        self,
        alloc: Global,
        groups: &LinesByText,
        place: Option<VersionNo>,
    ) -> R<LinesByText>
        ensures first { IfOk result
            (λ first.
            AreFirstBy (λ q. get_by_text groups.now q) self.entry.catalogue.now
            self.entry.request.now.lines place (λ q. get_by_text first q)) }
        ensures refusal { IsOkUnless result Memory }
    {
        let lines = self.lines_of(place);
        let mut first = BTreeMap::new(alloc);
        for at in 0..lines.count() {
            let line = lines.number(at);
            self.keep_line(alloc, groups, place, line, &mut first)?;
        }
        Ok(first)
    }

    /// The first lines of a place.
    pub fn first_lines(self, alloc: Global, place: Option<VersionNo>) -> R<FirstLines>
        ensures first { IfOk result
            (AreFirst self.entry.catalogue.now self.entry.request.now.lines place) }
        ensures refusal { IsOkUnless result Memory }
    {
        let groups = self.groups(alloc, place)?;
        let lines = self.keyed_lines(alloc, &groups, place)?;
        Ok(FirstLines { groups, lines })
    }

    /// The first line of a place that needs these alternatives without a condition, by its key
    /// where the first lines are kept.
    pub fn first_plain_need(
        self,
        alloc: Global,
        place: Option<VersionNo>,
        alternatives: &[Spec],
        first: Option<&FirstLines>,
    ) -> R<Option<u32>>
        requires { IfSome first
            (λ f. AreFirst self.catalogue.now self.request.now.lines place f.now) }
        ensures line { IfOk result
            (λ found.
            IsFirstWith self.entry.catalogue.now self.entry.request.now.lines place
            (content.Needs (specs_of alternatives.now) None) found) }
        ensures refusal { IsOkUnless result Memory }
    {
        match first {
            Some(first) => self.plain_need_by_key(alloc, place, alternatives, first),
            None => Ok(self.plain_need_line(place, alternatives)),
        }
    }

    /// The same by its key.
    fn plain_need_by_key(
        self,
        alloc: Global,
        place: Option<VersionNo>,
        alternatives: &[Spec],
        first: &FirstLines,
    ) -> R<Option<u32>>
        requires { AreFirst self.catalogue.now self.request.now.lines place first.now }
        ensures line { IfOk result
            (λ found.
            IsFirstWith self.entry.catalogue.now self.entry.request.now.lines place
            (content.Needs (specs_of alternatives.now) None) found) }
        ensures refusal { IsOkUnless result Memory }
    {
        let key = need_key(alloc, &first.groups, alternatives, &[])?;
        match first.first_line(key.as_str()) {
            None => Ok(None),
            Some(line) => {
                if self.needs_plainly(place, line, alternatives) {
                    Ok(Some(line))
                } else {
                    Ok(self.plain_need_line(place, alternatives))
                }
            }
        }
    }

    /// The first line of a place that needs these alternatives in this case, and the first such case
    /// of it. By its key, where the first lines are kept.
    pub fn first_need(
        self,
        alloc: Global,
        place: Option<VersionNo>,
        alternatives: &[Spec],
        case: &[Spec],
        first: Option<&FirstLines>,
    ) -> R<Option<NeedLine>>
        requires { IfSome first
            (λ f. AreFirst self.catalogue.now self.request.now.lines place f.now) }
        ensures line { IfOk result
            (IsFirstNeed self.entry.catalogue.now self.entry.request.now.lines place
            (specs_of alternatives.now) (specs_of case.now)) }
        ensures ids { IsErrOf result Ids
            → HasTooManyCases
            (text_of self.entry.catalogue.now self.entry.request.now.lines place) }
    {
        match first {
            Some(first) => self.need_by_key(alloc, place, alternatives, case, first),
            None => self.need_line(alloc, place, alternatives, case),
        }
    }

    /// The same by its key.
    fn need_by_key(
        self,
        alloc: Global,
        place: Option<VersionNo>,
        alternatives: &[Spec],
        case: &[Spec],
        first: &FirstLines,
    ) -> R<Option<NeedLine>>
        requires { AreFirst self.catalogue.now self.request.now.lines place first.now }
        ensures line { IfOk result
            (IsFirstNeed self.entry.catalogue.now self.entry.request.now.lines place
            (specs_of alternatives.now) (specs_of case.now)) }
        ensures ids { IsErrOf result Ids
            → HasTooManyCases
            (text_of self.entry.catalogue.now self.entry.request.now.lines place) }
    {
        let key = need_key(alloc, &first.groups, alternatives, case)?;
        match first.first_line(key.as_str()) {
            None => Ok(None),
            Some(line) => self.need_from(alloc, place, line, alternatives, case),
        }
    }

    /// The first line of a place that needs these alternatives in this case, and the first such
    /// case of it. No line before this one does.
    fn need_from(
        self,
        alloc: Global,
        place: Option<VersionNo>,
        line: u32,
        alternatives: &[Spec],
        case: &[Spec],
    ) -> R<Option<NeedLine>>
        requires among { IsLineOf self.catalogue.now self.request.now.lines place line }
        requires before { (n : ℕ)
            → n < line
            → IsLineOf self.catalogue.now self.request.now.lines place n
            → IsAt (text_of self.catalogue.now self.request.now.lines place)
            (NeedsIn (specs_of alternatives.now) (specs_of case.now)) n
            → ⊥ }
        ensures line { IfOk result
            (IsFirstNeed self.entry.catalogue.now self.entry.request.now.lines place
            (specs_of alternatives.now) (specs_of case.now)) }
        ensures ids { IsErrOf result Ids
            → HasTooManyCases
            (text_of self.entry.catalogue.now self.entry.request.now.lines place) }
    {
        match self.case_number(alloc, place, line, alternatives, case)? {
            Some(number) => Ok(Some(NeedLine { line, case: number })),
            None => self.need_line(alloc, place, alternatives, case),
        }
    }

    /// The first line of a place that limits its set to this SPEC, by its key where the first lines
    /// are kept.
    pub fn first_limit(
        self,
        alloc: Global,
        place: Option<VersionNo>,
        spec: &Spec,
        first: Option<&FirstLines>,
    ) -> R<Option<u32>>
        requires { IfSome first
            (λ f. AreFirst self.catalogue.now self.request.now.lines place f.now) }
        ensures line { IfOk result
            (λ found.
            IsFirstWith self.entry.catalogue.now self.entry.request.now.lines place
            (content.Limits (spec_of spec.now)) found) }
        ensures refusal { IsOkUnless result Memory }
    {
        match first {
            Some(first) => self.limit_by_key(alloc, place, spec, first),
            None => Ok(self.limit_line(place, spec)),
        }
    }

    /// The same by its key.
    fn limit_by_key(
        self,
        alloc: Global,
        place: Option<VersionNo>,
        spec: &Spec,
        first: &FirstLines,
    ) -> R<Option<u32>>
        requires { AreFirst self.catalogue.now self.request.now.lines place first.now }
        ensures line { IfOk result
            (λ found.
            IsFirstWith self.entry.catalogue.now self.entry.request.now.lines place
            (content.Limits (spec_of spec.now)) found) }
        ensures refusal { IsOkUnless result Memory }
    {
        let key = limit_key(alloc, spec)?;
        match first.first_line(key.as_str()) {
            None => Ok(None),
            Some(line) => {
                if self.limits_to(place, line, spec) {
                    Ok(Some(line))
                } else {
                    Ok(self.limit_line(place, spec))
                }
            }
        }
    }
}
