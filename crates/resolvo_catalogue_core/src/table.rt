//! The stored lines of a catalogue, and the maps by which queries are answered.
//! The model is the list of lines, `lines_in`; `IsTable` is the invariant that the maps agree with
//! it. Used by `catalogue`.

ghost use Rattle.std.specs.Prelude.{◌≡◌, ℕ, ◌+◌, ◌<◌, ◌==◌, [], ◌∷◌, if◌then◌else◌, not, option_map, option_and_then, option_copied, map, is_some, length, slice_get, Contains, IsTrue, OnOk, OnErr, IfOk, Err, Some, None, Option, List, true, false};
ghost use Rattle.std.specs.BTreeMap.{get, get_by_text};
ghost use Rattle.std.specs.Ordering.{nat_cmp};
ghost use Rattle.std.specs.Option.{option_map_or};
ghost use Rattle.std.specs.String.{string_bytes};
ghost use Rattle.resolvo_text.specs.Line as parsed;
ghost use Rattle.resolvo_text.specs.View.{version_of, spec_of, specs_of, list_of, condition_of, view};
ghost use Rattle.resolvo_text.specs.declared.line.LineFault.TheVariants.{Fault};
ghost use Rattle.resolvo_text.specs.Parse.{words_in, needs_in, spec_in, version_in};
ghost use Rattle.resolvo_terms.specs.Known.{name_text};
ghost use Rattle.resolvo_terms.specs.Terms.{IsNeed, IsSpec};
ghost use Rattle.resolvo_catalogue_core.specs.Grammar.{MayFollow, owner_below};
ghost use Rattle.resolvo_catalogue_core.specs.Questions.{number_of, AreAll, IsOwner, IsOnly, LineIs, LocksAnother, Forbids};
ghost use Rattle.resolvo_catalogue_core.specs.Listed.{version_by};
ghost use Rattle.resolvo_catalogue_core.specs.Picked.{IsPicked};
ghost use Rattle.resolvo_catalogue_core.specs.Table.{number_in, package_named};

use crate::kept_rule::KeptRule;
use crate::line_table::LineTable;
use crate::lines_by_version::LinesByVersion;
use crate::package::Package;
use crate::package_table::PackageTable;
use crate::rule::VersionNo;
use crate::stored_lines::StoredLine;
use crate::versions::{KeptVersion, Versions};
use resolvo_pool_core::id::{NameId, VersionSetId};
use resolvo_pool_core::requirement::ConditionalRequirement;
use resolvo_terms::Terms;
use resolvo_text::{
    Alternatives, Cond, Line, LineFault, Spec, Version, is_skipped, limits_words, line_in,
    listed_words, needs_words,
};
use std::alloc::{AllocError, Global};
use std::collections::{BTreeMap, BTreeSet};

/// The lines of a catalogue, and the maps by which they are found.
pub struct Table {
    /// What the rules speak of, by numbers.
    pub terms: Terms,
    /// The listed versions in line order.
    pub versions: Vec<KeptVersion>,
    pub line_kinds: LineTable,
    pub packages: PackageTable,
    /// The line that locks a version of the package, by the number of its name.
    pub locks: BTreeMap<u32, u32>,
    /// The line that favours a version of the package, by the number of its name.
    pub favoured: BTreeMap<u32, u32>,
    /// The line that marks the package `many`.
    pub many: BTreeMap<String, u32>,
    /// The line that excludes the version.
    pub excluded: BTreeMap<u32, u32>,
    /// The line that marks the version as unknown.
    pub unknown: BTreeMap<u32, u32>,
    /// The lines that belong to each version.
    pub owned: LinesByVersion,
    pub favours: Vec<(u32, VersionNo)>,
}

// split for the prover: one drop
impl Drop for Table {
    fn drop(self) {
        let Table {
            terms: _,
            versions: _,
            line_kinds: _,
            packages: _,
            locks: _,
            favoured: _,
            many: _,
            excluded: _,
            unknown: _,
            owned: _,
            favours: _,
        } = self;
    }
}

impl Table {
    ghost use Rattle.resolvo_catalogue_core.specs.LinesByVersion.{kept_of};
    ghost use Rattle.resolvo_catalogue_core.specs.Table.{IsTable, Adds, AddsRead, NoneFollows, AddsText, NoTextFollows, HasFew, lines_in, versions_in, kinds_in, numbers_in};
    ghost use Rattle.resolvo_catalogue_core.specs.Kept.{is_lock_of_another};
    ghost use Rattle.resolvo_catalogue_core.specs.Held.{kind_at, rule_of};

    pub fn new(alloc: Global) -> Result<Self, AllocError>
        ensures table { IfOk result IsTable }
        ensures empty { IfOk result (λ t. lines_in t ≡ []) }
        ensures few { IfOk result HasFew }
    {
        let terms = Terms::new(alloc)?;
        terms.ids_are_once();
        Ok(Table {
            terms,
            versions: Vec::new(alloc),
            line_kinds: LineTable::new(alloc),
            packages: PackageTable::new(alloc),
            locks: BTreeMap::new(alloc),
            favoured: BTreeMap::new(alloc),
            many: BTreeMap::new(alloc),
            excluded: BTreeMap::new(alloc),
            unknown: BTreeMap::new(alloc),
            owned: LinesByVersion::new(alloc),
            favours: Vec::new(alloc),
        })
    }

    /// The listed versions, with their names.
    pub fn versions(&self) -> Versions<'_>
        ensures { result ≡ versions_in self.now }
    {
        Versions {
            terms: &self.terms,
            kept: &self.versions,
        }
    }

    /// The package of a name, if a version of it is listed.
    fn package(&self, name: &str) -> Option<&Package>
        ensures value { option_copied result ≡ package_named self.now name.now }
    {
        match self.terms.find_package(name) {
            Some(number) => self.packages.get(number),
            None => None,
        }
    }

    /// The version of a package by its number, if it is listed.
    pub fn find(&self, name: &str, number: u32) -> Option<VersionNo>
        requires { IsTable self.now }
        ensures { option_map number_of result ≡ number_in (package_named self.now name.now) number }
    {
        let package = self.package(name)?;
        package.find(number)
    }

    fn kept_at(&self, version: VersionNo) -> Option<KeptVersion>
        ensures { result ≡ slice_get self.now.versions.items version.0 }
    {
        self.versions.get(version.0 as usize).copied()
    }

    /// The version of this number in the package of the given one.
    pub fn find_beside(&self, version: VersionNo, number: u32) -> Option<VersionNo>
        requires { IsTable self.now }
        ensures { (v : parsed.Version)
            → slice_get (versions_in self.now) version.0 ≡ Some v
            → option_map number_of result ≡ number_in (package_named self.now v.name) number }
    {
        let kept = self.kept_at(version)?;
        let package = self.packages.get(kept.package)?;
        package.find(number)
    }

    /// The versions of a package, in line order.
    pub fn versions_of(&self, name: &str) -> &[VersionNo]
        ensures { map number_of result.now ≡ numbers_in (package_named self.now name.now) }
    {
        match self.package(name) {
            Some(package) => package.versions(),
            None => &[],
        }
    }

    /// The versions of the SPEC's package that it matches; with `outside`, those that it doesn't.
    pub fn picked(
        &self,
        alloc: Global,
        spec: &Spec,
        outside: bool,
    ) -> Result<BTreeSet<u32>, AllocError>
        requires { IsTable self.now }
        ensures { IfOk result
            (λ set. AreAll set.keys (IsPicked (versions_in self.now) (spec_of spec.now) outside)) }
    {
        match self.package(spec.name.as_str()) {
            Some(package) => package.picked(alloc, spec.span, outside),
            None => Ok(BTreeSet::new(alloc)),
        }
    }

    /// The lines that belong to a version.
    pub fn lines_of(&self, version: VersionNo) -> &[u32]
        ensures { result.now ≡ kept_of self.now.owned version.0 }
    {
        self.owned.lines_of(version)
    }

    /// The rule of the line, if it has one.
    pub fn rule(&self, line: u32) -> Option<KeptRule>
        ensures { result ≡ option_and_then rule_of (kind_at (kinds_in self.now) line) }
    {
        self.line_kinds.rule(line)
    }

    /// The number of the name of a listed version's package.
    fn package_of(&self, version: VersionNo) -> NameId
        requires table { IsTable self.now }
        requires listed { version.0 < length (versions_in self.now) }
        ensures { (v : parsed.Version)
            → slice_get (versions_in self.now) version.0 ≡ Some v
            → slice_get self.now.terms.names result.raw ≡ Some v.name }
    {
        self.versions[version.0 as usize].package
    }

    fn lock_of(&self, name: NameId) -> Option<u32>
        ensures { result ≡ get nat_cmp self.now.locks name.raw }
    {
        self.locks.get(&name.into_raw()).copied()
    }

    fn excluded_by(&self, version: VersionNo) -> Option<u32>
        ensures { result ≡ get nat_cmp self.now.excluded version.0 }
    {
        self.excluded.get(&version.0).copied()
    }

    /// Whether the line locks another version.
    fn locks_another(&self, line: u32, version: VersionNo) -> bool
        ensures { result
            ≡ option_map_or (λ r. is_lock_of_another r version.0)
            (option_and_then rule_of (kind_at (kinds_in self.now) line)) false }
    {
        match self.rule(line) {
            Some(rule) => rule.is_lock_of_another(version),
            None => false,
        }
    }

    /// The line that locks another version of the package.
    fn other_lock(&self, name: NameId, version: VersionNo) -> Option<u32>
        requires { IsTable self.now }
        ensures { (v : parsed.Version)
            → slice_get (versions_in self.now) version.0 ≡ Some v
            → slice_get self.now.terms.names name.raw ≡ Some v.name
            → IsOnly result (λ n. LineIs (lines_in self.now) n (LocksAnother v)) }
    {
        match self.lock_of(name) {
            Some(line) => {
                if self.locks_another(line, version) {
                    Some(line)
                } else {
                    None
                }
            }
            None => None,
        }
    }

    fn forbidden_as(&self, name: NameId, version: VersionNo) -> Option<u32>
        requires { IsTable self.now }
        ensures { (v : parsed.Version)
            → slice_get (versions_in self.now) version.0 ≡ Some v
            → slice_get self.now.terms.names name.raw ≡ Some v.name
            → IsOnly result (λ n. Forbids (lines_in self.now) v n) }
    {
        match self.other_lock(name, version) {
            Some(line) => Some(line),
            None => self.excluded_by(version),
        }
    }

    /// The line that forbids a version, if one does: its exclusion, or the lock of another one.
    pub fn barred(&self, version: VersionNo) -> Option<u32>
        requires { IsTable self.now }
        ensures { IsOnly result
            (λ n.
            (v : parsed.Version)
            × (slice_get (versions_in self.now) version.0 ≡ Some v)
            × Forbids (lines_in self.now) v n) }
    {
        match self.kept_at(version) {
            Some(kept) => self.forbidden_as(kept.package, version),
            None => None,
        }
    }

    /// The number of a version that must be listed.
    pub fn listed(&self, version: &Version) -> Result<VersionNo, LineFault>
        requires { IsTable self.now }
        ensures found { IfOk result
            (λ n. slice_get (versions_in self.now) n.0 ≡ Some (version_of version.now)) }
        ensures absent { OnErr result
            (Contains (lines_in self.now) (parsed.Listed (version_of version.now)) → ⊥) }
    {
        match self.find(&version.name, version.number) {
            Some(number) => Ok(number),
            None => Err(LineFault::Fault),
        }
    }

    fn is_locked(&self, name: NameId) -> bool
        ensures { result ≡ is_some (get nat_cmp self.now.locks name.raw) }
    {
        self.locks.contains_key(&name.into_raw())
    }

    fn is_favoured(&self, name: NameId) -> bool
        ensures { result ≡ is_some (get nat_cmp self.now.favoured name.raw) }
    {
        self.favoured.contains_key(&name.into_raw())
    }

    /// Whether versions of the package may be side by side.
    pub fn is_many(&self, name: &str) -> bool
        ensures { result ≡ is_some (get_by_text self.now.many name.now) }
    {
        self.many.contains_key(name)
    }

    /// Whether versions of some package may be side by side.
    pub fn marks_many(&self) -> bool
        ensures none { result ≡ false → (name : List ℕ) → get_by_text self.now.many name ≡ None }
        ensures some { result ≡ true
            → (name : List ℕ) × (line : ℕ) × (get_by_text self.now.many name ≡ Some line) }
    {
        !self.many.is_empty()
    }

    /// The version that a line below these belongs to.
    fn owner(&self) -> Result<VersionNo, LineFault>
        requires table { IsTable self.now }
        requires short { length (lines_in self.now) < 16777216 }
        ensures found { IfOk result
            (λ n. IsOwner (versions_in self.now) (Some n) (owner_below (lines_in self.now))) }
        ensures last { IfOk result (λ n. n.0 + 1 ≡ length (versions_in self.now)) }
        ensures absent { OnErr result (owner_below (lines_in self.now) ≡ None) }
    {
        let count = self.versions.len();
        if count == 0 {
            return Err(LineFault::Fault);
        }
        Ok(VersionNo((count - 1) as u32))
    }

    fn is_excluded(&self, version: VersionNo) -> bool
        ensures { result ≡ is_some (get nat_cmp self.now.excluded version.0) }
    {
        self.excluded.contains_key(&version.0)
    }

    fn is_unknown(&self, version: VersionNo) -> bool
        ensures { result ≡ is_some (get nat_cmp self.now.unknown version.0) }
    {
        self.unknown.contains_key(&version.0)
    }

    fn skip(&mut self) -> Result<(), LineFault>
        requires table { IsTable self.old }
        ensures ok { OnOk result (Adds self.old parsed.Skipped self.new) }
        ensures memory { result ≡ Err Fault → ⊥ }
    {
        self.line_kinds.hold(StoredLine::Nothing)?;
        Ok(())
    }

    /// Lists a version of the package of this number.
    fn list_at(&mut self, alloc: Global, id: NameId, number: u32) -> Result<(), LineFault>
        requires table { IsTable self.old }
        requires short { length (lines_in self.old) < 16777216 }
        requires named { id.raw < length self.old.terms.names }
        // After an answer.
        ensures ok { OnOk result
            (Adds self.old (parsed.Listed (version_by (name_text self.old.terms id) number)) self.new) }
        ensures placed { OnOk result
            (MayFollow (lines_in self.old)
            (parsed.Listed (version_by (name_text self.old.terms id) number))) }
        ensures terms { self.new.terms ≡ self.old.terms }
        ensures fault { result ≡ Err Fault
            → MayFollow (lines_in self.old)
            (parsed.Listed (version_by (name_text self.old.terms id) number))
            → ⊥ }
    {
        let version = VersionNo(self.versions.len() as u32);
        if !self.packages.add(alloc, id, number, version)? {
            return Err(LineFault::Fault);
        }
        self.owned.add_version()?;
        self.versions.push(KeptVersion {
            package: id,
            number,
        })?;
        self.line_kinds.hold(StoredLine::Listed(version))?;
        Ok(())
    }

    /// Lists a version of the package of this name.
    fn list(&mut self, alloc: Global, name: &str, number: u32) -> Result<(), LineFault>
        requires table { IsTable self.old }
        requires short { length (lines_in self.old) < 16777216 }
        ensures ok { OnOk result (Adds self.old (parsed.Listed (version_by name.now number)) self.new) }
        ensures placed { OnOk result
            (MayFollow (lines_in self.old) (parsed.Listed (version_by name.now number))) }
        ensures fault { result ≡ Err Fault
            → MayFollow (lines_in self.old) (parsed.Listed (version_by name.now number))
            → ⊥ }
    {
        let Ok(id) = self.terms.package(name) else {
            return Err(LineFault::Memory);
        };
        self.terms.ids_are_once();
        self.list_at(alloc, id, number)
    }

    /// Adds a line of this need, whatever the number stands for.
    fn add_need(&mut self, line: u32, need: ConditionalRequirement) -> Result<(), LineFault>
        requires table { IsTable self.old }
        requires line { line ≡ length (lines_in self.old) + 1 }
        requires short { line < 16777217 }
        // After an answer.
        ensures ok { OnOk result
            ((written : List parsed.Spec × Option parsed.Cond)
            → IsNeed self.old.terms need written
            → Adds self.old (parsed.Needs written.0 written.1) self.new) }
        ensures placed { OnOk result
            ((v : parsed.Version) × (owner_below (lines_in self.old) ≡ Some v)) }
        ensures terms { self.new.terms ≡ self.old.terms }
        ensures fault { result ≡ Err Fault → owner_below (lines_in self.old) ≡ None }
    {
        let owner = self.owner()?;
        self.owned.add_line(owner, line)?;
        self.line_kinds.push_need(owner, need)?;
        Ok(())
    }

    /// Adds a line that needs one SPEC without a condition.
    fn add_plain_need(&mut self, line: u32, spec: VersionSetId) -> Result<(), LineFault>
        requires table { IsTable self.old }
        requires line { line ≡ length (lines_in self.old) + 1 }
        requires short { line < 16777217 }
        // After an answer.
        ensures ok { OnOk result
            ((s : parsed.Spec)
            → IsSpec self.old.terms spec s
            → Adds self.old (parsed.Needs (s ∷ []) None) self.new) }
        ensures placed { OnOk result
            ((v : parsed.Version) × (owner_below (lines_in self.old) ≡ Some v)) }
        ensures fault { result ≡ Err Fault → owner_below (lines_in self.old) ≡ None }
    {
        let owner = self.owner()?;
        self.owned.add_line(owner, line)?;
        self.line_kinds.hold(StoredLine::Need { owner, spec })?;
        Ok(())
    }

    /// Adds a line of this limit, whatever the number stands for.
    fn add_limit(&mut self, line: u32, spec: VersionSetId) -> Result<(), LineFault>
        requires table { IsTable self.old }
        requires line { line ≡ length (lines_in self.old) + 1 }
        requires short { line < 16777217 }
        // After an answer.
        ensures ok { OnOk result
            ((s : parsed.Spec)
            → IsSpec self.old.terms spec s
            → Adds self.old (parsed.Limits s) self.new) }
        ensures placed { OnOk result
            ((v : parsed.Version) × (owner_below (lines_in self.old) ≡ Some v)) }
        ensures terms { self.new.terms ≡ self.old.terms }
        ensures fault { result ≡ Err Fault → owner_below (lines_in self.old) ≡ None }
    {
        let owner = self.owner()?;
        self.owned.add_line(owner, line)?;
        self.line_kinds.hold(StoredLine::Limit { owner, spec })?;
        Ok(())
    }

    fn need(
        &mut self,
        line: u32,
        alternatives: Alternatives,
        condition: Option<Box<Cond>>,
    ) -> Result<(), LineFault>
        requires table { IsTable self.old }
        requires line { line ≡ length (lines_in self.old) + 1 }
        requires short { line < 16777217 }
        // After an answer.
        ensures ok { OnOk result
            (Adds self.old (parsed.Needs (specs_of (list_of alternatives)) (condition_of condition))
            self.new) }
        ensures placed { OnOk result
            (MayFollow (lines_in self.old)
            (parsed.Needs (specs_of (list_of alternatives)) (condition_of condition))) }
        ensures fault { result ≡ Err Fault
            → MayFollow (lines_in self.old)
            (parsed.Needs (specs_of (list_of alternatives)) (condition_of condition))
            → ⊥ }
    {
        let Ok(need) = self.terms.need(alternatives.as_slice(), condition.as_ref()) else {
            return Err(LineFault::Memory);
        };
        self.terms.ids_are_once();
        self.add_need(line, need)
    }

    fn limit(&mut self, line: u32, spec: Spec) -> Result<(), LineFault>
        requires table { IsTable self.old }
        requires line { line ≡ length (lines_in self.old) + 1 }
        requires short { line < 16777217 }
        // After an answer.
        ensures ok { OnOk result (Adds self.old (parsed.Limits (spec_of spec)) self.new) }
        ensures placed { OnOk result
            (MayFollow (lines_in self.old) (parsed.Limits (spec_of spec))) }
        ensures fault { result ≡ Err Fault
            → MayFollow (lines_in self.old) (parsed.Limits (spec_of spec))
            → ⊥ }
    {
        let Ok(spec) = self.terms.spec(&spec) else {
            return Err(LineFault::Memory);
        };
        self.terms.ids_are_once();
        self.add_limit(line, spec)
    }

    fn mark_unknown(&mut self, line: u32, word: String) -> Result<(), LineFault>
        requires table { IsTable self.old }
        requires line { line ≡ length (lines_in self.old) + 1 }
        requires short { line < 16777217 }
        // After an answer.
        ensures ok { OnOk result (Adds self.old (parsed.Unknown (string_bytes word)) self.new) }
        ensures placed { OnOk result
            (MayFollow (lines_in self.old) (parsed.Unknown (string_bytes word))) }
        ensures fault { result ≡ Err Fault
            → MayFollow (lines_in self.old) (parsed.Unknown (string_bytes word))
            → ⊥ }
    {
        let version = self.owner()?;
        if self.is_unknown(version) {
            return Err(LineFault::Fault);
        }
        let Ok(word) = self.terms.word(&word) else {
            return Err(LineFault::Memory);
        };
        self.terms.ids_are_once();
        self.unknown.insert(version.0, line)?;
        self.owned.add_line(version, line)?;
        self.line_kinds
            .push_long(KeptRule::Unknown { version, word })?;
        Ok(())
    }

    fn exclude(&mut self, line: u32, version: Version, word: String) -> Result<(), LineFault>
        requires table { IsTable self.old }
        requires line { line ≡ length (lines_in self.old) + 1 }
        ensures ok { OnOk result
            (Adds self.old (parsed.Exclude (version_of version) (string_bytes word)) self.new) }
        ensures placed { OnOk result
            (MayFollow (lines_in self.old)
            (parsed.Exclude (version_of version) (string_bytes word))) }
        ensures fault { result ≡ Err Fault
            → MayFollow (lines_in self.old)
            (parsed.Exclude (version_of version) (string_bytes word))
            → ⊥ }
    {
        let version = self.listed(&version)?;
        if self.is_excluded(version) {
            return Err(LineFault::Fault);
        }
        let Ok(word) = self.terms.word(&word) else {
            return Err(LineFault::Memory);
        };
        self.terms.ids_are_once();
        self.excluded.insert(version.0, line)?;
        self.line_kinds
            .push_long(KeptRule::Exclude { version, word })?;
        Ok(())
    }

    fn favour(&mut self, line: u32, version: Version) -> Result<(), LineFault>
        requires table { IsTable self.old }
        requires line { line ≡ length (lines_in self.old) + 1 }
        ensures ok { OnOk result (Adds self.old (parsed.Favour (version_of version)) self.new) }
        ensures placed { OnOk result
            (MayFollow (lines_in self.old) (parsed.Favour (version_of version))) }
        ensures fault { result ≡ Err Fault
            → MayFollow (lines_in self.old) (parsed.Favour (version_of version))
            → ⊥ }
    {
        let favoured = self.listed(&version)?;
        let name = self.package_of(favoured);
        if self.is_favoured(name) {
            return Err(LineFault::Fault);
        }
        self.favoured.insert(name.into_raw(), line)?;
        self.favours.push((line, favoured))?;
        self.line_kinds.hold(StoredLine::Favour(favoured))?;
        Ok(())
    }

    fn lock(&mut self, line: u32, version: Version) -> Result<(), LineFault>
        requires table { IsTable self.old }
        requires line { line ≡ length (lines_in self.old) + 1 }
        ensures ok { OnOk result (Adds self.old (parsed.Lock (version_of version)) self.new) }
        ensures placed { OnOk result
            (MayFollow (lines_in self.old) (parsed.Lock (version_of version))) }
        ensures fault { result ≡ Err Fault
            → MayFollow (lines_in self.old) (parsed.Lock (version_of version))
            → ⊥ }
    {
        let locked = self.listed(&version)?;
        let name = self.package_of(locked);
        if self.is_locked(name) {
            return Err(LineFault::Fault);
        }
        self.locks.insert(name.into_raw(), line)?;
        self.line_kinds
            .push_long(KeptRule::Lock { version: locked })?;
        Ok(())
    }

    /// Whether a line lists a version of the package.
    fn lists_package(&self, name: &str) -> bool
        ensures { result ≡ not (length (numbers_in (package_named self.now name.now)) == 0) }
    {
        !self.versions_of(name).is_empty()
    }

    /// Marks a package of which no line above lists a version.
    fn mark_many(&mut self, line: u32, name: String) -> Result<(), LineFault>
        requires table { IsTable self.old }
        requires line { line ≡ length (lines_in self.old) + 1 }
        ensures ok { OnOk result (Adds self.old (parsed.Many (string_bytes name)) self.new) }
        ensures placed { OnOk result
            (MayFollow (lines_in self.old) (parsed.Many (string_bytes name))) }
        ensures fault { result ≡ Err Fault
            → MayFollow (lines_in self.old) (parsed.Many (string_bytes name))
            → ⊥ }
    {
        if self.is_many(&name) {
            return Err(LineFault::Fault);
        }
        if self.lists_package(&name) {
            return Err(LineFault::Fault);
        }
        self.many.insert(name.clone()?, line)?;
        self.line_kinds.push_marked(name)?;
        Ok(())
    }

    /// Adds the line of this number, if it may follow those of the table.
    pub fn add(&mut self, alloc: Global, number: u32, line: Line) -> Result<(), LineFault>
        requires table { IsTable self.old }
        requires number { number ≡ length (lines_in self.old) + 1 }
        requires short { number < 16777217 }
        // After an answer.
        ensures ok { OnOk result (Adds self.old (view line) self.new) }
        ensures placed { OnOk result (MayFollow (lines_in self.old) (view line)) }
        ensures fault { result ≡ Err Fault → MayFollow (lines_in self.old) (view line) → ⊥ }
    {
        match line {
            Line::Skipped => self.skip(),
            Line::Listed(version) => self.list(alloc, &version.name, version.number),
            Line::Needs {
                alternatives,
                condition,
            } => self.need(number, alternatives, condition),
            Line::Limits(spec) => self.limit(number, spec),
            Line::Unknown(word) => self.mark_unknown(number, word),
            Line::Lock(version) => self.lock(number, version),
            Line::Favour(version) => self.favour(number, version),
            Line::Exclude { version, reason } => self.exclude(number, version, reason),
            Line::Many(name) => self.mark_many(number, name),
            Line::Wish(_) => Err(LineFault::Fault),
        }
    }

    /// Reads the words after `needs`, and adds the line.
    fn read_need(&mut self, line: u32, words: &[u8]) -> Result<(), LineFault>
        requires table { IsTable self.old }
        requires line { line ≡ length (lines_in self.old) + 1 }
        requires short { line < 16777217 }
        ensures ok { OnOk result
            (AddsRead (needs_in (words_in words.now)) (λ l. l) self.old self.new) }
        ensures fault { result ≡ Err Fault
            → NoneFollows (needs_in (words_in words.now)) (λ l. l) self.old }
    {
        if let Some(spec) = self.terms.plain_need_in(words) {
            return self.add_plain_need(line, spec);
        }
        let need = self.terms.need_in(words)?;
        self.terms.ids_are_once();
        self.add_need(line, need)
    }

    /// Reads the words after `limits`, and adds the line.
    fn read_limit(&mut self, line: u32, words: &[u8]) -> Result<(), LineFault>
        requires table { IsTable self.old }
        requires line { line ≡ length (lines_in self.old) + 1 }
        requires short { line < 16777217 }
        ensures ok { OnOk result
            (AddsRead (spec_in (words_in words.now)) (λ s. parsed.Limits s) self.old self.new) }
        ensures fault { result ≡ Err Fault
            → NoneFollows (spec_in (words_in words.now)) (λ s. parsed.Limits s) self.old }
    {
        let spec = self.terms.spec_in(words)?;
        self.terms.ids_are_once();
        self.add_limit(line, spec)
    }

    /// Reads the words after `version`, and adds the line.
    fn read_version(&mut self, alloc: Global, words: &[u8]) -> Result<(), LineFault>
        requires table { IsTable self.old }
        requires short { length (lines_in self.old) < 16777216 }
        ensures ok { OnOk result
            (AddsRead (version_in (words_in words.now)) (λ v. parsed.Listed v) self.old self.new) }
        ensures fault { result ≡ Err Fault
            → NoneFollows (version_in (words_in words.now)) (λ v. parsed.Listed v) self.old }
    {
        let (id, number) = self.terms.version_in(words)?;
        self.terms.ids_are_once();
        self.list_at(alloc, id, number)
    }

    /// Parses the text of a line, and adds the line. A version, a need or a limit takes no memory for
    /// a name that is known.
    pub fn read_line(&mut self, alloc: Global, number: u32, text: &[u8]) -> Result<(), LineFault>
        requires table { IsTable self.old }
        requires number { number ≡ length (lines_in self.old) + 1 }
        requires short { number < 16777217 }
        ensures ok { OnOk result (AddsText text.now self.old self.new) }
        ensures fault { result ≡ Err Fault → NoTextFollows text.now self.old }
    {
        if let Some(words) = needs_words(text) {
            return self.read_need(number, words);
        }
        if is_skipped(text) {
            return self.skip();
        }
        if let Some(words) = listed_words(text) {
            return self.read_version(alloc, words);
        }
        if let Some(words) = limits_words(text) {
            return self.read_limit(number, words);
        }
        self.read_rare(alloc, number, text)
    }

    /// Parses the text of a line of whatever kind, and adds the line.
    #[inline(never)]
    fn read_rare(&mut self, alloc: Global, number: u32, text: &[u8]) -> Result<(), LineFault>
        requires table { IsTable self.old }
        requires number { number ≡ length (lines_in self.old) + 1 }
        requires short { number < 16777217 }
        ensures ok { OnOk result (AddsText text.now self.old self.new) }
        ensures fault { result ≡ Err Fault → NoTextFollows text.now self.old }
    {
        let line = line_in(alloc, text)?;
        self.add(alloc, number, line)
    }
}
