//! The first lines, by their keys, of the long places that many steps name: of the request and of
//! versions. A place without them is walked. And the lines that exclude versions, as hints.

ghost use Rattle.std.specs.Prelude.{◌≡◌, List, IfOk, IfSome, IsOkUnless, OnOk, None};
ghost use Rattle.std.specs.BTreeMap.{get};
ghost use Rattle.std.specs.Ordering.{nat_cmp};
ghost use Rattle.resolvo_pool_core.specs.declared.want.Want.TheVariants.{Memory};
ghost use Rattle.resolvo_text.specs.Line as content;
ghost use Rattle.resolve_refusal.specs.FirstLines.{AreFirst, AreListed, KeepsListed, IsIndex};

use crate::first_lines::FirstLines;
use crate::lines::{Texts, lock_line};
use resolvo_catalogue_core::{Catalogue, KeptRule, VersionNo};
use resolvo_pool_core::id::{NameId, SolvableId};
use resolvo_pool_core::want::R;
use resolvo_proof::step::{ProofRule, ProofStep};
use std::alloc::Global;
use std::collections::BTreeMap;

/// Up to so many lines or steps, walks are faster.
const FEW: u32 = 16;

/// The first lines of some places.
#[derive(Drop)]
pub(crate) struct LineIndex {
    request: Option<FirstLines>,
    versions: BTreeMap<u32, FirstLines>,
    /// The line that excludes a version, where many steps exclude versions that a lock forbids too.
    exclusions: BTreeMap<u32, u32>,
}

impl LineIndex {
    /// The first lines of a place, if they are kept.
    pub fn first_lines(&self, place: Option<VersionNo>) -> Option<&FirstLines>
        ensures { (catalogue request : List content.Line)
            → IsIndex catalogue request self.now
            → IfSome result (λ f. AreFirst catalogue request place f.now) }
    {
        match place {
            None => self.request.as_ref(),
            Some(version) => self.versions.get(&version.0),
        }
    }

    /// A line that may exclude the version. It is only a hint.
    pub fn exclusion(&self, version: VersionNo) -> Option<u32>
        ensures { result ≡ get nat_cmp self.now.exclusions version.0 }
    {
        self.exclusions.get(&version.0).copied()
    }
}

/// The place whose line a step names: the request, or a version.
fn place_in(step: &ProofStep<NameId, SolvableId>) -> Option<Option<SolvableId>> {
    match step {
        ProofStep::Rule(ProofRule::Needs { parent, .. }) => Some(*parent),
        ProofStep::Rule(ProofRule::Limit { parent, .. }) => Some(*parent),
        ProofStep::Rule(ProofRule::GateOf { parent, .. }) => Some(Some(*parent)),
        _ => None,
    }
}

/// Whether many steps name lines of the request.
fn is_request_named(steps: &[ProofStep<NameId, SolvableId>]) -> bool {
    let mut named: u32 = 0;
    for step in steps {
        if let Some(None) = place_in(step) {
            named = named.saturating_add(1);
        }
    }
    named > FEW
}

/// The first lines of the request, where it is long and many steps name them.
fn request_lines(
    alloc: Global,
    texts: Texts,
    steps: &[ProofStep<NameId, SolvableId>],
) -> R<Option<FirstLines>>
    ensures first { IfOk result
        (λ found.
        IfSome found
        (AreFirst texts.entry.catalogue.now texts.entry.request.now.lines None)) }
    ensures refusal { IsOkUnless result Memory }
{
    if texts.request.line_count() > FEW && is_request_named(steps) {
        return Ok(Some(texts.first_lines(alloc, None)?));
    }
    Ok(None)
}

/// Notes one more step that names a line of the version. Whether many have.
fn is_named_often(named: &mut BTreeMap<u32, u32>, version: VersionNo) -> R<bool>
    ensures { IsOkUnless result Memory }
{
    let count = named
        .get(&version.0)
        .copied()
        .unwrap_or(0)
        .saturating_add(1);
    named.insert(version.0, count)?;
    Ok(count > FEW)
}

/// Keeps the first lines of a version.
fn keep_version(
    alloc: Global,
    texts: Texts,
    version: VersionNo,
    versions: &mut BTreeMap<u32, FirstLines>,
) -> R<()>
    ensures listed { OnOk result
        (KeepsListed texts.entry.catalogue.now texts.entry.request.now.lines
        (get nat_cmp versions.old) (get nat_cmp versions.new)) }
    ensures refusal { IsOkUnless result Memory }
{
    let first = texts.first_lines(alloc, Some(version))?;
    versions.insert(version.0, first)?;
    Ok(())
}

/// Notes a step that names a line of the version. Where the version has many lines, and many steps
/// have named them, its first lines are kept.
fn note_version(
    alloc: Global,
    texts: Texts,
    version: VersionNo,
    named: &mut BTreeMap<u32, u32>,
    versions: &mut BTreeMap<u32, FirstLines>,
) -> R<()>
    ensures listed { OnOk result
        (KeepsListed texts.entry.catalogue.now texts.entry.request.now.lines
        (get nat_cmp versions.old) (get nat_cmp versions.new)) }
    ensures refusal { IsOkUnless result Memory }
{
    if texts.catalogue.lines_of(version).len() <= FEW as usize {
        return Ok(());
    }
    if versions.contains_key(&version.0) {
        return Ok(());
    }
    if is_named_often(named, version)? {
        keep_version(alloc, texts, version, versions)?;
    }
    Ok(())
}

/// The first lines of the versions that have many lines and are named by many steps.
fn version_lines(
    alloc: Global,
    texts: Texts,
    steps: &[ProofStep<NameId, SolvableId>],
) -> R<BTreeMap<u32, FirstLines>>
    ensures listed { IfOk result
        (λ m.
        AreListed texts.entry.catalogue.now texts.entry.request.now.lines (get nat_cmp m)) }
    ensures refusal { IsOkUnless result Memory }
{
    let mut named = BTreeMap::new(alloc);
    let mut versions = BTreeMap::new(alloc);
    for step in steps {
        if let Some(Some(parent)) = place_in(step) {
            let version = VersionNo(parent.into_raw());
            note_version(alloc, texts, version, &mut named, &mut versions)?;
        }
    }
    Ok(versions)
}

/// Whether a step excludes a version that a lock forbids too.
fn is_locked_exclusion(catalogue: &Catalogue, step: &ProofStep<NameId, SolvableId>) -> bool {
    match step {
        ProofStep::Rule(ProofRule::Excluded { solvable, .. }) => {
            lock_line(catalogue, VersionNo(solvable.into_raw())).is_some()
        }
        _ => false,
    }
}

/// Whether many steps exclude versions that a lock forbids too.
fn are_locked_excluded(catalogue: &Catalogue, steps: &[ProofStep<NameId, SolvableId>]) -> bool {
    let mut named: u32 = 0;
    for step in steps {
        if is_locked_exclusion(catalogue, step) {
            named = named.saturating_add(1);
        }
    }
    named > FEW
}

/// The lines that exclude versions, where many steps exclude versions that a lock forbids too.
fn exclusion_lines(
    alloc: Global,
    catalogue: &Catalogue,
    steps: &[ProofStep<NameId, SolvableId>],
) -> R<BTreeMap<u32, u32>>
    ensures { IsOkUnless result Memory }
{
    let mut lines = BTreeMap::new(alloc);
    if !are_locked_excluded(catalogue, steps) {
        return Ok(lines);
    }
    for above in 0..catalogue.line_count() {
        if let Some(KeptRule::Exclude { version, .. }) = catalogue.kept().rule(above + 1) {
            lines.insert(version.0, above + 1)?;
        }
    }
    Ok(lines)
}

/// The first lines of the long places that many steps name, and hints of exclusions.
pub(crate) fn line_index(
    alloc: Global,
    texts: Texts,
    steps: &[ProofStep<NameId, SolvableId>],
) -> R<LineIndex>
    ensures index { IfOk result
        (λ x. IsIndex texts.entry.catalogue.now texts.entry.request.now.lines x) }
    ensures refusal { IsOkUnless result Memory }
{
    let request = request_lines(alloc, texts, steps)?;
    let versions = version_lines(alloc, texts, steps)?;
    let exclusions = exclusion_lines(alloc, texts.catalogue, steps)?;
    Ok(LineIndex {
        request,
        versions,
        exclusions,
    })
}
