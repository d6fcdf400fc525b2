//! The lines of a catalogue with the numbers by which they are kept: for those who need no texts. The
//! model is the lines, the terms that the numbers are of, the versions, and the rules and their owners
//! by numbers. Read by the provider and the reports.

ghost use Rattle.std.specs.Prelude.{◌≡◌, ◌≤◌, ◌==◌, ◌⊎◌, ℕ, List, sum_by, Contains, IfSome, IfNone, false, true, length, map, slice_get, Some};
ghost use Rattle.resolvo_text.specs.Line as parsed;
ghost use Rattle.resolvo_catalogue_core.specs.Grammar.{line_at, owner_of};
ghost use Rattle.resolvo_catalogue_core.specs.Kept.{IsKeptLine, AreKept, places_from, rule_at};
ghost use Rattle.resolvo_catalogue_core.specs.LinesByVersion.{kept_of};
ghost use Rattle.resolvo_catalogue_core.specs.Listed.{listed, kept_versions, are_kept, AreDistinct};
ghost use Rattle.resolvo_catalogue_core.specs.Questions.{LineIs, Locks, Excludes, is_rule, number_of};
ghost use Rattle.resolvo_terms.specs.TermCounts.{term_count, terms_for_line};

use crate::kept_rule::KeptRule;
use crate::rule::VersionNo;
use crate::table::Table;
use crate::versions::KeptVersion;
use resolvo_pool_core::id::NameId;
use resolvo_terms::Terms;
use std::marker::Model;

/// The lines of a catalogue with the numbers by which they are kept.
#[derive(Drop)]
pub struct KeptLines<'a> {
    pub(crate) table: &'a Table,
}

impl<'a> Model for KeptLines<'a> {
    ghost use Rattle.std.specs.Prelude.{◌≤◌, length, map};
    ghost use Rattle.resolvo_catalogue_core.specs.Held.{rule_of};
    ghost use Rattle.resolvo_catalogue_core.specs.Kept.{KeptLines};
    ghost use Rattle.resolvo_catalogue_core.specs.Table.{IsTable, HasFew, lines_in, kinds_in};

    ghost Value = { KeptLines };

    ghost use Rattle.resolvo_catalogue_core.specs.Codes.{kept_code};

    ghost coded = { kept_code };

    ghost view = { λ k.
        record {
          terms = k.table.now.terms;
          lines = lines_in k.table.now;
          versions = k.table.now.versions.items;
          rules = map rule_of (kinds_in k.table.now);
          owned = k.table.now.owned;
        } };

    ghost invariant = { λ k.
        IsTable k.table.now
        × HasFew k.table.now
        × (length (lines_in k.table.now) ≤ 16777216) };
}

impl<'a> KeptLines<'a> {
    /// What the lines speak of, by numbers. There are no more than the lines need.
    pub fn terms(&self) -> &'a Terms
        ensures terms { result.now ≡ self.now.terms }
        ensures few { term_count result.now ≤ sum_by terms_for_line self.now.lines }
    {
        &self.table.terms
    }

    /// The listed versions in line order, by the numbers of their packages' names among these terms.
    pub fn versions(&self) -> &'a [KeptVersion]
        ensures value { result.now ≡ self.now.versions }
        ensures versions { kept_versions self.now.terms.names result.now ≡ listed self.now.lines }
        ensures named { are_kept (length self.now.terms.names) result.now ≡ true }
        ensures distinct { AreDistinct (listed self.now.lines) }
    {
        &self.table.versions
    }

    /// How many lines the text has.
    pub fn line_count(&self) -> u32
        ensures { result ≡ length self.now.lines }
    {
        self.table.line_kinds.len() as u32
    }

    /// Whether a line locks or excludes a version.
    pub fn has_marks(&self) -> bool
        ensures locked { result ≡ false
            → (v : parsed.Version) → Contains self.now.lines (parsed.Lock v) → ⊥ }
        ensures excluded { result ≡ false
            → (k : ℕ) (v : parsed.Version) (word : List ℕ)
            → slice_get (listed self.now.lines) k ≡ Some v
            → Contains self.now.lines (parsed.Exclude v word)
            → ⊥ }
        ensures some { result ≡ true
            → ((name : List ℕ) × (n : ℕ) × LineIs self.now.lines n (Locks name))
            ⊎ ((v : parsed.Version) × (n : ℕ) × LineIs self.now.lines n (Excludes v)) }
    {
        !(self.table.locks.is_empty() && self.table.excluded.is_empty())
    }

    /// The rule of the line, if it has one, by numbers of these terms.
    pub fn rule(&self, line: u32) -> Option<KeptRule>
        ensures value { result ≡ rule_at self.now.rules line }
        ensures of_line { IfSome result
            (λ r.
            (l : parsed.Line)
            × (line_at self.now.lines line ≡ Some l)
            × IsKeptLine self.now.terms (listed self.now.lines) r (owner_of self.now.lines line) l) }
        ensures none { IfNone result
            ((l : parsed.Line) → line_at self.now.lines line ≡ Some l → is_rule l ≡ false) }
    {
        self.table.rule(line)
    }

    /// The `needs`, `limits` and `unknown` lines of a version; none of a number that no version has.
    pub fn lines_of(&self, version: VersionNo) -> &'a [u32]
        ensures { result.now ≡ kept_of self.now.owned version.0 }
    {
        self.table.owned.lines_of(version)
    }

    /// The versions of the package whose name has this number, in line order.
    pub fn versions_of(&self, name: NameId) -> &'a [VersionNo]
        ensures { map number_of result.now
            ≡ places_from (λ v. v.«package».raw == name.raw) 0 self.now.versions }
    {
        match self.table.packages.get(name) {
            Some(package) => package.versions(),
            None => &[],
        }
    }

    /// A law of all such lines: the numbers are those of the lines. It does nothing.
    pub fn lines_are_kept(&self)
        ensures { AreKept self.now }
    {
        let _table = self.table;
    }
}
