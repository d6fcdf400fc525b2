//! A catalogue: the versions and the rules of its lines.
//! Its model is the list of its parsed lines. It is read once, then queried by the resolver and the
//! judge.

ghost use Rattle.std.specs.Prelude.{◌≡◌};

use crate::kept_lines::KeptLines;
use crate::obey;
use crate::rule::{Rule, VersionNo};
use crate::table::Table;
use crate::versions::Versions;
use resolvo_text::{LineFault, LineReader, ReadFault, Source, Spec, Version};
use std::alloc::{AllocError, Global};
use std::collections::BTreeSet;
use std::marker::Model;

/// The most bytes of the text of a catalogue or a request.
pub const MOST_BYTES: u32 = 16_777_216;

/// A catalogue that was read. Lines are numbered from 1, versions from 0 in line order.
pub struct Catalogue {
    table: Table,
}

// split for the prover: one drop
impl Drop for Catalogue {
    fn drop(self) {
        let Catalogue { table: _ } = self;
    }
}

impl Model for Catalogue {
    ghost use Rattle.std.specs.Prelude.{ℕ, ◌≤◌, List, length};
    ghost use Rattle.resolvo_text.specs.Line.{Line};

    ghost Value = { List Line };

    ghost use Rattle.resolvo_catalogue_core.specs.Codes.{lines_code};

    ghost coded = { lines_code };

    ghost use Rattle.resolvo_catalogue_core.specs.Table.{IsTable, HasFew, lines_in};
    ghost use Rattle.resolvo_catalogue_core.specs.Grammar.{AreCatalogueLines};

    ghost view = { λ c. lines_in c.table };

    ghost invariant = { λ c.
        IsTable c.table
        × HasFew c.table
        × AreCatalogueLines (lines_in c.table)
        × (length (lines_in c.table) ≤ 16777216) };
}

impl Catalogue {
    ghost use Rattle.std.specs.Prelude.{◌≡◌, ℕ, false, true, List, map, option_map, slice_get, Some, None, length, IfOk, IfSome, IfNone, OnErr, Contains, IfErr};
    ghost use Rattle.resolvo_text.specs.Line as parsed;
    ghost use Rattle.resolvo_text.specs.View.{version_of, spec_of, cases_of};
    ghost use Rattle.resolvo_catalogue_core.specs.Grammar.{line_at, owner_of, IsCatalogueLine, AreCatalogueLines};
    ghost use Rattle.resolvo_text.specs.Device.{IfKnown};
    ghost use Rattle.resolvo_text.specs.Sources.{SourceFailed};
    ghost use Rattle.resolvo_text.specs.Texts.{IsGrammatical, IsTextFault};
    ghost use Rattle.resolvo_catalogue_core.specs.Rules.{keeps};
    ghost use Rattle.resolvo_catalogue_core.specs.Listed.{listed, version_at, members, is_match, AreDistinct};
    ghost use Rattle.resolvo_catalogue_core.specs.Sets.{is_many};
    ghost use Rattle.resolvo_catalogue_core.specs.Questions.{IsOnly, AreAll, IsOfPackage, IsVersionLine, BelongsTo, IsRuleLine, LineIs, IsFavour, FavoursAt, Forbids, is_rule, cases_of_line, number_of};
    ghost use Rattle.resolvo_catalogue_core.specs.Picked.{IsPicked};

    /// A lemma on the lines of each catalogue; the function does nothing.
    pub fn lines_are_in_place(&self)
        ensures { AreCatalogueLines self.now }
    {
        let _table = &self.table;
    }

    /// The listed versions in line order. The place of a version is its number.
    pub fn versions(&self) -> Versions<'_>
        ensures listed { result ≡ listed self.now }
        ensures distinct { AreDistinct (listed self.now) }
    {
        self.table.versions()
    }

    /// The number of a version, if it is listed.
    pub fn find(&self, name: &str, number: u32) -> Option<VersionNo>
        ensures { IsOnly (option_map number_of result)
            (λ n. version_at self.now n ≡ Some (record { name = name.now; number = number })) }
    {
        self.table.find(name, number)
    }

    /// The number of a version of the same package as the given one, if it is listed. No name is
    /// looked for.
    pub fn find_beside(&self, version: VersionNo, number: u32) -> Option<VersionNo>
        ensures { (v : parsed.Version)
            → version_at self.now version.0 ≡ Some v
            → IsOnly (option_map number_of result)
            (λ n. version_at self.now n ≡ Some (record { name = v.name; number = number })) }
    {
        self.table.find_beside(version, number)
    }

    /// The number of a version that must be listed.
    pub(crate) fn listed(&self, version: &Version) -> Result<VersionNo, LineFault>
        ensures found { IfOk result (λ n. version_at self.now n.0 ≡ Some (version_of version.now)) }
        ensures distinct { AreDistinct (listed self.now) }
        ensures absent { OnErr result (Contains self.now (parsed.Listed (version_of version.now)) → ⊥) }
    {
        self.table.listed(version)
    }

    /// The versions of a package; none where it isn't listed.
    pub fn versions_of(&self, name: &str) -> &[VersionNo]
        ensures { AreAll (map number_of result.now) (IsOfPackage (listed self.now) name.now) }
    {
        self.table.versions_of(name)
    }

    /// Whether a line marks the package `many`, so that versions of it may be side by side.
    pub fn is_many(&self, name: &str) -> bool
        ensures { result ≡ is_many self.now name.now }
    {
        self.table.is_many(name)
    }

    /// Whether a line marks a package `many`.
    pub fn marks_many(&self) -> bool
        ensures none { result ≡ false → (name : List ℕ) → is_many self.now name ≡ false }
        ensures some { result ≡ true → (name : List ℕ) × (is_many self.now name ≡ true) }
    {
        self.table.marks_many()
    }

    /// The versions of the SPEC's package that it matches; with `outside`, those that it doesn't.
    /// The others aren't visited.
    pub fn picked(
        &self,
        alloc: Global,
        spec: &Spec,
        outside: bool,
    ) -> Result<BTreeSet<u32>, AllocError>
        ensures { IfOk result
            (λ set. AreAll set.keys (IsPicked (listed self.now) (spec_of spec.now) outside)) }
    {
        self.table.picked(alloc, spec, outside)
    }

    /// Whether the SPEC matches the version. A number that no version has is not matched.
    pub fn match_of(&self, spec: &Spec, version: VersionNo) -> bool
        ensures { result ≡ is_match (listed self.now) (spec_of spec.now) version.0 }
    {
        obey::is_match(obey::lent(spec), &self.table.versions(), version)
    }

    /// The `needs`, `limits` and `unknown` lines of a version.
    pub fn lines_of(&self, version: VersionNo) -> &[u32]
        ensures { AreAll result.now (IsVersionLine (listed self.now) self.now version.0 BelongsTo) }
    {
        self.table.lines_of(version)
    }

    /// The line that forbids the version: one that locks another version of its package, else its
    /// `exclude` line.
    pub fn barred(&self, version: VersionNo) -> Option<u32>
        ensures { IsOnly result
            (λ n.
            (v : parsed.Version) × (version_at self.now version.0 ≡ Some v) × Forbids self.now v n) }
    {
        self.table.barred(version)
    }

    /// How many lines the text has.
    pub fn line_count(&self) -> u32
        ensures { result ≡ length self.now }
    {
        self.table.line_kinds.len() as u32
    }

    /// The lines with the numbers by which they are kept.
    pub fn kept(&self) -> KeptLines<'_>
        ensures { result.lines ≡ self.now }
    {
        KeptLines { table: &self.table }
    }

    /// The rule of the line, if it has one.
    pub fn rule(&self, line: u32) -> Result<Option<Rule>, AllocError>
        ensures of_line { IfOk result
            (λ found.
            IfSome found
            (λ r.
            (l : parsed.Line)
            × (line_at self.now line ≡ Some l)
            × IsRuleLine (listed self.now) r (owner_of self.now line) l)) }
        ensures none { IfOk result
            (λ found.
            IfNone found
            ((l : parsed.Line) → line_at self.now line ≡ Some l → is_rule l ≡ false)) }
    {
        let kept = self.table.rule(line);
        match kept {
            Some(rule) => Ok(Some(rule.in_text(&self.table.terms)?)),
            None => Ok(None),
        }
    }

    /// Whether the set of these versions obeys the line. A line without a rule is obeyed.
    pub fn keeps(&self, line: u32, set: &[VersionNo]) -> bool
        ensures { result ≡ keeps self.now line (members (listed self.now) set.now) }
    {
        match self.table.rule(line) {
            Some(rule) => obey::obeys_kept(rule, &self.table.terms, &self.versions(), set),
            None => true,
        }
    }

    /// The cases of a `needs` line; a line without condition has one, which is empty. Other lines
    /// have none.
    pub fn cases(&self, alloc: Global, line: u32) -> Result<Vec<Vec<Spec>>, AllocError>
        ensures { IfOk result (λ v. cases_of v.items ≡ cases_of_line (line_at self.now line)) }
    {
        match self.rule(line)? {
            Some(rule) => rule.cases(alloc),
            None => Ok(Vec::new(alloc)),
        }
    }

    /// The lines that favour a version, rising.
    pub fn favours(&self) -> &[(u32, VersionNo)]
        ensures lines { AreAll (map (λ f. f.0) result.now) (λ n. LineIs self.now n IsFavour) }
        ensures versions { (i : ℕ) (f : ℕ × VersionNo)
            → slice_get result.now i ≡ Some f
            → FavoursAt (listed self.now) self.now f }
    {
        &self.table.favours
    }

    /// Reads a catalogue. There is none where its text has a faulty line, or where the device
    /// fails.
    pub fn read<S: Source>(alloc: Global, source: &mut S) -> Result<Self, ReadFault>
        ensures ok { IfOk result
            (λ catalogue.
            IfKnown (S.left source.old) (λ text. IsGrammatical IsCatalogueLine text catalogue)) }
        ensures lines { IfOk result AreCatalogueLines }
        ensures fault { IfErr result
            (λ e.
            IsTextFault IsCatalogueLine e (S.left source.old) (S.left source.new) 16777216
            (SourceFailed S.Source source.old source.new)) }
    {
        let mut table = Table::new(alloc)?;
        let mut reader = LineReader::new(alloc, MOST_BYTES)?;
        let mut number: u32 = 0;
        while reader.next_line(source)? {
            number += 1;
            match table.read_line(alloc, number, reader.line()) {
                Ok(()) => {}
                Err(LineFault::Fault) => return Err(ReadFault::Fault(number)),
                Err(LineFault::Memory) => return Err(ReadFault::Memory),
            }
        }
        Ok(Catalogue { table })
    }
}
