//! The marks of each version in the lines of a catalogue: locked, favoured, excluded.

ghost use Rattle.std.specs.Prelude.{◌≡◌, ◌⊎◌, false, ◌≤◌, ◌<◌, ◌+◌, ◌++◌, ◌∷◌, [], IfOk, IsOkUnless, List, Option, Some, length, slice_get};
ghost use Rattle.resolvo_pool_core.specs.declared.want.Want.TheVariants.{Memory};
ghost use Rattle.resolvo_text.specs.Line.{Version, Line, Favour};
ghost use Rattle.resolvo_catalogue_core.specs.Kept.{IsKeptLine};
ghost use Rattle.resolvo_catalogue_core.specs.Sets.{is_many};
ghost use Rattle.resolvo_catalogue_core.specs.Listed.{listed, AreDistinct};
ghost use Rattle.resolvo_catalogue.specs.Ids.{Ids, terms_of};
ghost use Rattle.resolvo_terms.specs.Known.{name_text};
ghost use Rattle.resolvo_catalogue.specs.Marked.{AreMarked, AreMarksOf, AreMany, HaveNoMarks};

use resolvo_catalogue_core::{Catalogue, KeptLines, KeptRule, VersionNo};
use resolvo_pool_core::id::{NameId, StringId};
use resolvo_pool_core::want::R;
use resolvo_terms::Terms;
use std::alloc::Global;

/// The marks of one version.
#[derive(Clone, Copy, Debug)]
pub struct CandidateFlags {
    pub locked: bool,
    pub favored: bool,
    /// The reason why it is excluded.
    pub excluded: Option<StringId>,
    /// The line that excludes it, or 0.
    pub line: u32,
}

const NO_FLAGS: CandidateFlags = CandidateFlags {
    locked: false,
    favored: false,
    excluded: None,
    line: 0,
};

/// The marks of each version, by its number. Most catalogues have none, and then there is no list.
pub fn marks_of(
    alloc: Global,
    kept: &KeptLines<'_>,
    catalogue: &Catalogue,
) -> R<Vec<CandidateFlags>>
    requires { kept.now.lines ≡ catalogue.now }
    ensures marked { IfOk result
        (λ marks.
        (ids : Ids)
        → terms_of ids ≡ kept.now.terms
        → AreMarksOf ids catalogue.now (listed catalogue.now) marks.items) }
    ensures refusal { IsOkUnless result Memory }
{
    let lines = lines_to_mark(kept);
    let favours = catalogue.favours();
    if lines == 0 && favours.is_empty() {
        return Ok(Vec::new(alloc));
    }
    let mut marks = unmarked(alloc, catalogue.versions().len())?;
    for line in 0..lines {
        if let Some(rule) = kept.rule(line + 1) {
            mark(&mut marks, rule, line + 1);
        }
    }
    for (_, version) in favours {
        favour(&mut marks, *version);
    }
    Ok(marks)
}

/// How many lines are looked at for marks: none where no line has one.
fn lines_to_mark(kept: &KeptLines<'_>) -> u32
    ensures { (result ≡ length kept.now.lines)
        ⊎ (result ≡ 0) × HaveNoMarks kept.now.lines (listed kept.now.lines) }
{
    if kept.has_marks() {
        kept.line_count()
    } else {
        0
    }
}

/// Of each version, by its number, whether its package is marked `many`. Where none is marked, there
/// is no list.
pub fn many_of(alloc: Global, kept: &KeptLines<'_>, catalogue: &Catalogue) -> R<Vec<bool>>
    requires { kept.now.lines ≡ catalogue.now }
    ensures many { IfOk result (λ flags. AreMany catalogue.now flags.items) }
    ensures refusal { IsOkUnless result Memory }
{
    if !catalogue.marks_many() {
        return Ok(Vec::new(alloc));
    }
    let terms = kept.terms();
    let versions = kept.versions();
    let mut flags = Vec::with_capacity(alloc, versions.len())?;
    for version in versions {
        flags.push(is_many(catalogue, terms, version.package))?;
    }
    Ok(flags)
}

/// Whether the package of this number is marked `many`.
fn is_many(catalogue: &Catalogue, terms: &Terms, name: NameId) -> bool
    ensures { result ≡ is_many catalogue.now (name_text terms.now name) }
{
    catalogue.is_many(terms.name(name))
}

/// No marks of so many versions.
fn unmarked(alloc: Global, count: usize) -> R<Vec<CandidateFlags>>
    ensures marked { IfOk result
        (λ marks.
        (ids : Ids) (versions : List Version)
        → length versions ≡ count
        → AreMarked ids [] [] versions marks.items) }
    ensures refusal { IsOkUnless result Memory }
{
    let mut marks = Vec::with_capacity(alloc, count)?;
    for _ in 0..count {
        marks.push(NO_FLAGS)?;
    }
    Ok(marks)
}

/// Adds the mark of the rule of a line. A need, a limit and an unknown mark add none.
fn mark(marks: &mut Vec<CandidateFlags>, rule: KeptRule, number: u32)
    ensures { (ids : Ids) (versions : List Version) (owner : Option Version) (line : Line)
        (lines favours : List Line)
        → number ≡ length lines + 1
        → AreDistinct versions
        → IsKeptLine (terms_of ids) versions rule owner line
        → AreMarked ids lines favours versions marks.old.items
        → AreMarked ids (lines ++ line ∷ []) favours versions marks.new.items }
{
    match rule {
        KeptRule::Lock { version } => {
            if let Some(found) = marks.get_mut(version.0 as usize) {
                found.locked = true;
            }
        }
        KeptRule::Exclude { version, word } => {
            if let Some(found) = marks.get_mut(version.0 as usize) {
                found.excluded = Some(word);
                found.line = number;
            }
        }
        KeptRule::Needs { .. } => {}
        KeptRule::Limits { .. } => {}
        KeptRule::Unknown { .. } => {}
    }
}

/// Marks a version as favoured.
fn favour(marks: &mut Vec<CandidateFlags>, version: VersionNo)
    ensures { (ids : Ids) (versions : List Version) (lines favours : List Line) (v : Version)
        → AreDistinct versions
        → slice_get versions version.0 ≡ Some v
        → AreMarked ids lines favours versions marks.old.items
        → AreMarked ids lines (favours ++ Favour v ∷ []) versions marks.new.items }
{
    if let Some(found) = marks.get_mut(version.0 as usize) {
        found.favored = true;
    }
}
