//! The chosen versions by their packages and numbers, and which of them are entries.
//! Two sets (`Holds` of specs/Kept.antt), with the version that a line gives. `install_order` keeps
//! it.

ghost use Rattle.std.specs.Prelude.{◌≡◌, ◌++◌, ◌∷◌, [], ℕ, ◌+◌, true, Contains, slice_get, Some, None, List, Option, IfOk, OnOk, IfSome};
ghost use Rattle.std.specs.BTreeMap.{get};
ghost use Rattle.std.specs.Option.{option_map};
ghost use Rattle.std.specs.Ordering.{nat_cmp};
ghost use Rattle.resolvo_terms.specs.Known.{cond_at};
ghost use Rattle.resolvo_text.specs.Line as content;
ghost use Rattle.resolvo_text.specs.Matches.{Set, is_met, holds, condition_holds};
ghost use Rattle.resolvo_text.specs.View.{cond_of, condition_of};
ghost use Rattle.resolvo_catalogue_core.specs.Listed.{listed, members, version_at, version_by};
ghost use Rattle.resolve_order.specs.Numbers.{version_in};
ghost use Rattle.resolve_order.specs.Kept.{first_of, package_at, IsPlaceOf, Holds, IsLeftOver, IsFavouredOf, IsFavouredMatch, IsUnlistedMatch, IsFirstMatch, AreNumbersOf, IsLineState, IfGives, favoured_in, is_unlisted, unlisted};
ghost use Rattle.resolve_order.specs.Need.{IsOf, IsSpanOf, alternatives_in, condition_in};

use crate::need::{Need, PackageSpan, kept_package, kept_span, span_of};
use crate::version_table::VersionTable;
use resolvo_catalogue_core::{
    Catalogue, Cond, KeptLines, KeptVersion, Span, VersionNo, is_in_span,
};
use resolvo_pool_core::condition::{Condition, LogicalOperator};
use resolvo_pool_core::id::ConditionId;
use std::alloc::{AllocError, Global};
use std::collections::BTreeMap;

/// What a line gives, by what is chosen and what is an entry.
#[derive(Clone, Copy)]
pub enum LineState {
    /// Nothing: each chosen version that it matches is an entry.
    Spent,
    /// Nothing yet, since its condition doesn't hold.
    Waiting,
    Gives(VersionNo),
}

/// The listed version of this number.
pub fn version_at(catalogue: &Catalogue, version: VersionNo) -> Option<(&str, u32)>
    ensures { option_map (λ v. version_by v.0.now v.1) result ≡ version_at catalogue.now version.0 }
{
    catalogue.versions().get(version)
}

/// The number of the package's first version, if it has one.
pub fn package_of(catalogue: &Catalogue, name: &str) -> Option<u32>
    ensures { result ≡ first_of (listed catalogue.now) name.now }
{
    match catalogue.versions_of(name).first() {
        Some(first) => Some(first.0),
        None => None,
    }
}

/// The version at its number among the kept ones.
fn kept_at(versions: &[KeptVersion], version: VersionNo) -> Option<KeptVersion>
    ensures { result ≡ slice_get versions.now version.0 }
{
    versions.get(version.0 as usize).copied()
}

/// The package of a listed version, and its own number.
fn place_of(catalogue: &Catalogue, version: VersionNo) -> Option<(u32, u32)>
    ensures { IsPlaceOf (listed catalogue.now) version.0 result }
{
    let kept = catalogue.kept();
    kept.lines_are_kept();
    let listed = kept_at(kept.versions(), version)?;
    let package = kept_package(catalogue, &kept, listed.package)?;
    Some((package, listed.number))
}

/// The package of a listed version.
pub fn package_at(catalogue: &Catalogue, version: VersionNo) -> Option<u32>
    ensures { result ≡ package_at (listed catalogue.now) version.0 }
{
    match place_of(catalogue, version) {
        Some(place) => Some(place.0),
        None => None,
    }
}

/// The favoured versions of a catalogue, by the numbers of their packages' first versions.
fn favoured_by(alloc: Global, catalogue: &Catalogue) -> Result<BTreeMap<u32, VersionNo>, AllocError>
    ensures { IfOk result
        (λ map.
        (name : List ℕ)
        → IsFavouredOf catalogue.now name (favoured_in (listed catalogue.now) map name)) }
{
    catalogue.lines_are_in_place();
    let mut map = BTreeMap::new(alloc);
    for (_, version) in catalogue.favours() {
        if let Some(place) = place_of(catalogue, *version) {
            map.insert(place.0, *version)?;
        }
    }
    Ok(map)
}

/// The chosen versions, and which of them are entries.
#[derive(Drop)]
pub struct Chosen {
    /// The chosen versions that are no entries.
    unlisted: VersionTable,
    entries: VersionTable,
    /// The favoured version of each package.
    favoured: BTreeMap<u32, VersionNo>,
    /// Of each version of the catalogue, whether it is an entry.
    listed: Vec<bool>,
    /// The chosen versions that may be no entries yet.
    left: Vec<VersionNo>,
}

impl Chosen {
    pub fn new(alloc: Global, catalogue: &Catalogue) -> Result<Chosen, AllocError>
        ensures { IfOk result (λ kept. Holds catalogue.now kept [] []) }
    {
        let mut listed = Vec::new(alloc);
        listed.resize(catalogue.versions().len(), false)?;
        Ok(Chosen {
            unlisted: VersionTable::new(alloc),
            entries: VersionTable::new(alloc),
            favoured: favoured_by(alloc, catalogue)?,
            listed,
            left: Vec::new(alloc),
        })
    }

    /// Adds a chosen version. A number that no version has is passed over, and so is an entry.
    pub fn add(&mut self, catalogue: &Catalogue, version: VersionNo) -> Result<(), AllocError>
        ensures { OnOk result
            ((chosen entries : Set)
            → Holds catalogue.now self.old chosen entries
            → Holds catalogue.now self.new
            (chosen ++ members (listed catalogue.now) (version ∷ [])) entries) }
    {
        if !self.is_unlisted(version) {
            return Ok(());
        }
        if let Some(place) = place_of(catalogue, version) {
            self.unlisted.add(place, version)?;
            self.left.push(version)?;
        }
        Ok(())
    }

    /// Adds chosen versions.
    pub fn add_all(
        &mut self,
        catalogue: &Catalogue,
        versions: &[VersionNo],
    ) -> Result<(), AllocError>
        ensures { OnOk result
            ((chosen entries : Set)
            → Holds catalogue.now self.old chosen entries
            → Holds catalogue.now self.new
            (chosen ++ members (listed catalogue.now) versions.now) entries) }
    {
        for version in versions {
            self.add(catalogue, *version)?;
        }
        Ok(())
    }

    /// Whether it is a version of the catalogue, and no entry.
    pub fn is_unlisted(&self, version: VersionNo) -> bool
        ensures { result ≡ is_unlisted self.now.listed.items version.0 }
    {
        match self.listed.get(version.0 as usize) {
            Some(listed) => !*listed,
            None => false,
        }
    }

    /// Makes a chosen version an entry.
    pub fn mark(&mut self, catalogue: &Catalogue, version: VersionNo) -> Result<(), AllocError>
        requires { is_unlisted self.old.listed.items version.0 ≡ true }
        ensures fewer { OnOk result
            (unlisted self.new.listed.items + 1 ≡ unlisted self.old.listed.items) }
        ensures marked { OnOk result
            ((chosen entries : Set) (v : content.Version)
            → slice_get (listed catalogue.now) version.0 ≡ Some v
            → Contains chosen v
            → Holds catalogue.now self.old chosen entries
            → Holds catalogue.now self.new chosen (entries ++ v ∷ [])) }
    {
        if let Some(place) = place_of(catalogue, version) {
            self.entries.add(place, version)?;
            self.unlisted.remove(place);
        }
        self.listed[version.0 as usize] = true;
        Ok(())
    }

    /// Whether each chosen version is seen to be an entry. Drops those that are from the end of
    /// the left ones, so that each is looked at once.
    pub fn are_all_listed(&mut self) -> bool
        ensures holds { (catalogue : List content.Line) (chosen entries : Set)
            → Holds catalogue self.old chosen entries
            → Holds catalogue self.new chosen entries }
        ensures listed { result ≡ true
            → (catalogue : List content.Line) (chosen entries : Set)
            → Holds catalogue self.old chosen entries
            → (v : content.Version) → Contains chosen v → Contains entries v }
    {
        while let Some(version) = self.left.last().copied() {
            if self.is_unlisted(version) {
                return false;
            }
            self.left.pop();
        }
        true
    }

    /// The favoured version of the package, if there is one.
    fn favoured_of(&self, package: u32) -> Option<VersionNo>
        ensures { result ≡ get nat_cmp self.now.favoured «package» }
    {
        self.favoured.get(&package).copied()
    }

    /// The favoured version of the package, if it is chosen, in the span and no entry.
    fn favoured_match(&self, catalogue: &Catalogue, package: u32, span: Span) -> Option<VersionNo>
        ensures { (chosen entries : Set) (s : content.Spec)
            → first_of (listed catalogue.now) s.name ≡ Some «package»
            → s.span ≡ span
            → Holds catalogue.now self.now chosen entries
            → AreNumbersOf (listed catalogue.now) (IsLeftOver chosen entries) s.name
            (version_in self.now.unlisted «package»)
            → IsFavouredMatch catalogue.now chosen entries s result }
    {
        let version = self.favoured_of(package)?;
        let listed = version_at(catalogue, version)?;
        let chosen = self.unlisted.get((package, listed.1));
        if chosen.is_some() && is_in_span(span, listed.1) {
            Some(version)
        } else {
            None
        }
    }

    /// The first of the chosen versions that the SPEC matches and that are no entries: the favoured
    /// one, or the newest.
    fn sorted_match(&self, catalogue: &Catalogue, spec: PackageSpan) -> Option<VersionNo>
        ensures { (chosen entries : Set) (s : content.Spec)
            → IsSpanOf (listed catalogue.now) s spec
            → Holds catalogue.now self.now chosen entries
            → IsUnlistedMatch catalogue.now chosen entries s result }
    {
        let package = spec.package?;
        match self.favoured_match(catalogue, package, spec.span) {
            Some(version) => Some(version),
            None => self.unlisted.newest_in(package, spec.span),
        }
    }

    /// The first chosen match of the SPEC, if by its flag it is no entry.
    fn unlisted_match(&self, catalogue: &Catalogue, spec: PackageSpan) -> Option<VersionNo>
        ensures unlisted { IfSome result (λ n. is_unlisted self.now.listed.items n.0 ≡ true) }
        ensures matched { (chosen entries : Set) (s : content.Spec)
            → IsSpanOf (listed catalogue.now) s spec
            → Holds catalogue.now self.now chosen entries
            → IsUnlistedMatch catalogue.now chosen entries s result }
    {
        match self.sorted_match(catalogue, spec) {
            Some(version) => {
                if self.is_unlisted(version) {
                    Some(version)
                } else {
                    None
                }
            }
            None => None,
        }
    }

    /// The first such match of the alternative at a place.
    fn match_at(&self, catalogue: &Catalogue, need: &Need<'_>, place: usize) -> Option<VersionNo>
        requires { IsOf catalogue.now need.now }
        ensures unlisted { IfSome result (λ n. is_unlisted self.now.listed.items n.0 ≡ true) }
        ensures matched { (chosen entries : Set) (s : content.Spec)
            → slice_get (alternatives_in need.now) place ≡ Some s
            → Holds catalogue.now self.now chosen entries
            → IsUnlistedMatch catalogue.now chosen entries s result }
    {
        match need.at(catalogue, place) {
            Some(spec) => self.unlisted_match(catalogue, spec),
            None => None,
        }
    }

    /// The first such match of the first alternative that has one.
    fn first_match(&self, catalogue: &Catalogue, need: &Need<'_>) -> Option<VersionNo>
        requires { IsOf catalogue.now need.now }
        ensures unlisted { IfSome result (λ n. is_unlisted self.now.listed.items n.0 ≡ true) }
        ensures matched { (chosen entries : Set)
            → Holds catalogue.now self.now chosen entries
            → IsFirstMatch catalogue.now chosen entries (alternatives_in need.now) result }
    {
        for place in 0..need.len() {
            if let Some(version) = self.match_at(catalogue, need, place) {
                return Some(version);
            }
        }
        None
    }

    /// Whether an entry matches the SPEC.
    fn is_met(&self, spec: PackageSpan) -> bool
        ensures { (catalogue : List content.Line) (chosen entries : Set) (s : content.Spec)
            → IsSpanOf (listed catalogue) s spec
            → Holds catalogue self.now chosen entries
            → result ≡ is_met s entries }
    {
        match spec.package {
            Some(package) => self.entries.newest_in(package, spec.span).is_some(),
            None => false,
        }
    }

    /// Whether the condition holds among the entries.
    // one of several such bodies, each over its own form of a set (docs/DECISIONS.md)
    fn holds(&self, catalogue: &Catalogue, condition: &Cond) -> bool
        ensures { (chosen entries : Set)
            → Holds catalogue.now self.now chosen entries
            → result ≡ holds (cond_of condition.now) entries }
    {
        match condition {
            Cond::Spec(spec) => self.is_met(span_of(catalogue, spec)),
            Cond::And(left, right) => self.holds(catalogue, left) && self.holds(catalogue, right),
            Cond::Or(left, right) => self.holds(catalogue, left) || self.holds(catalogue, right),
        }
    }

    fn condition_holds(&self, catalogue: &Catalogue, condition: &Option<Box<Cond>>) -> bool
        ensures { (chosen entries : Set)
            → Holds catalogue.now self.now chosen entries
            → result ≡ condition_holds (condition_of condition.now) entries }
    {
        match condition {
            Some(condition) => self.holds(catalogue, condition),
            None => true,
        }
    }

    /// The same of a condition of a number.
    fn kept_holds(
        &self,
        catalogue: &Catalogue,
        kept: &KeptLines<'_>,
        condition: ConditionId,
    ) -> bool
        requires { kept.now.lines ≡ catalogue.now }
        ensures { (chosen entries : Set)
            → Holds catalogue.now self.now chosen entries
            → result ≡ holds (cond_at kept.now.terms condition) entries }
    {
        match kept.terms().meaning(condition) {
            Condition::Requirement(spec) => self.is_met(kept_span(catalogue, kept, spec)),
            Condition::Binary(LogicalOperator::And, left, right) => {
                self.kept_holds(catalogue, kept, left) && self.kept_holds(catalogue, kept, right)
            }
            Condition::Binary(LogicalOperator::Or, left, right) => {
                self.kept_holds(catalogue, kept, left) || self.kept_holds(catalogue, kept, right)
            }
        }
    }

    fn kept_condition_holds(
        &self,
        catalogue: &Catalogue,
        kept: &KeptLines<'_>,
        condition: Option<ConditionId>,
    ) -> bool
        requires { kept.now.lines ≡ catalogue.now }
        ensures { (chosen entries : Set)
            → Holds catalogue.now self.now chosen entries
            → result ≡ condition_holds (option_map (cond_at kept.now.terms) condition) entries }
    {
        match condition {
            Some(condition) => self.kept_holds(catalogue, kept, condition),
            None => true,
        }
    }

    /// Whether the condition of the need holds among the entries.
    fn may_give(&self, catalogue: &Catalogue, need: &Need<'_>) -> bool
        requires { IsOf catalogue.now need.now }
        ensures { (chosen entries : Set)
            → Holds catalogue.now self.now chosen entries
            → result ≡ condition_holds (condition_in need.now) entries }
    {
        match need {
            Need::Text { condition, .. } => self.condition_holds(catalogue, condition),
            Need::Numbered { kept, need } => {
                self.kept_condition_holds(catalogue, kept, need.condition)
            }
        }
    }

    /// What a need gives.
    pub fn need_state(&self, catalogue: &Catalogue, need: &Need<'_>) -> LineState
        requires { IsOf catalogue.now need.now }
        ensures unlisted { IfGives result (λ n. is_unlisted self.now.listed.items n.0 ≡ true) }
        ensures state { (chosen entries : Set)
            → Holds catalogue.now self.now chosen entries
            → IsLineState catalogue.now chosen entries
            (Some (content.Needs (alternatives_in need.now) (condition_in need.now))) result }
    {
        match self.first_match(catalogue, need) {
            Some(version) => {
                if self.may_give(catalogue, need) {
                    LineState::Gives(version)
                } else {
                    LineState::Waiting
                }
            }
            None => LineState::Spent,
        }
    }
}
