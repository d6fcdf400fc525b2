//! A request: needs and limits that always bind, and wishes for versions of a catalogue.
//! Its model is the list of its parsed lines, with the numbers of the wished versions. It is read
//! once, then queried.

use crate::catalogue::{Catalogue, MOST_BYTES};
use crate::obey;
use crate::request_lines::RequestLines;
use crate::rule::{Rule, VersionNo};
use resolvo_text::{LineFault, LineReader, ReadFault, Source, Spec, Version};
use std::alloc::{AllocError, Global};
use std::marker::Model;

/// A request that was read over a catalogue. Lines are numbered from 1.
pub struct Request {
    asks: RequestLines,
}

// split for the prover: one drop
impl Drop for Request {
    fn drop(self) {
        let Request { asks: _ } = self;
    }
}

impl Model for Request {
    ghost use Rattle.std.specs.Prelude.{◌≡◌, ℕ, ◌≤◌, List, map, length, slice_get, Some};
    ghost use Rattle.resolvo_catalogue_core.specs.Questions.{ReadRequest, AreAll, LineIs, IsWish};

    ghost Value = { ReadRequest };

    ghost use Rattle.resolvo_catalogue_core.specs.Codes.{kind_code};

    ghost coded = { kind_code };

    ghost use Rattle.resolvo_catalogue_core.specs.RequestLines.{asked_lines, IsAsk};
    ghost use Rattle.resolvo_catalogue_core.specs.declared.request_lines.RequestLine.{RequestLine};

    ghost view = { λ r. record { lines = asked_lines r.asks; wishes = r.asks.wishes.items } };

    ghost invariant = { λ r.
        ((n : ℕ) (x : RequestLine) → slice_get r.asks.asks.items n ≡ Some x → IsAsk x)
        × AreAll (map (λ f. f.0) r.asks.wishes.items) (λ n. LineIs (asked_lines r.asks) n IsWish)
        × (length (asked_lines r.asks) ≤ 16777216) };
}

impl Request {
    ghost use Rattle.std.specs.Prelude.{◌≡◌, ℕ, false, List, map, slice_get, option_map, option_copied, Some, None, length, IfOk, IfSome, IfNone, IfErr};
    ghost use Rattle.resolvo_text.specs.Line as parsed;
    ghost use Rattle.resolvo_text.specs.View.{version_of, cases_of};
    ghost use Rattle.resolvo_text.specs.Device.{IfKnown};
    ghost use Rattle.resolvo_text.specs.Sources.{SourceFailed};
    ghost use Rattle.resolvo_text.specs.Texts.{IsGrammatical, IsTextFault};
    ghost use Rattle.resolvo_catalogue_core.specs.Grammar.{line_at, IsRequestLine, AreRequestLines};
    ghost use Rattle.resolvo_catalogue_core.specs.Rules.{keeps_in_request};
    ghost use Rattle.resolvo_catalogue_core.specs.Listed.{listed, members};
    ghost use Rattle.resolvo_catalogue_core.specs.Questions.{AreAll, LineIs, IsWish, WishesAt, IsRuleLine, is_rule, wished_in, cases_of_line};

    /// How many lines the text has.
    pub fn line_count(&self) -> u32
        ensures { result ≡ length self.now.lines }
    {
        self.asks.asks.len() as u32
    }

    /// The rule of the line, if it has one.
    pub fn rule(&self, line: u32) -> Option<&Rule>
        ensures of_line { IfSome result
            (λ r.
            (l : parsed.Line)
            × (line_at self.now.lines line ≡ Some l)
            × ((versions : List parsed.Version) → IsRuleLine versions r.now None l)) }
        ensures none { IfNone result
            ((l : parsed.Line) → line_at self.now.lines line ≡ Some l → is_rule l ≡ false) }
    {
        self.asks.rule(line)
    }

    /// Whether the set of these versions of the catalogue obeys the line. A line without a
    /// rule is obeyed.
    pub fn keeps(&self, catalogue: &Catalogue, line: u32, set: &[VersionNo]) -> bool
        ensures { result ≡ keeps_in_request self.now.lines line (members (listed catalogue.now) set.now) }
    {
        match self.rule(line) {
            Some(rule) => obey::obeys(rule, &catalogue.versions(), set),
            None => true,
        }
    }

    /// The cases of a `needs` line; a line without condition has one, which is empty. Other lines
    /// have none.
    pub fn cases(&self, alloc: Global, line: u32) -> Result<Vec<Vec<Spec>>, AllocError>
        ensures { IfOk result (λ v. cases_of v.items ≡ cases_of_line (line_at self.now.lines line)) }
    {
        match self.rule(line) {
            Some(rule) => rule.cases(alloc),
            None => Ok(Vec::new(alloc)),
        }
    }

    /// The version that the line wishes for, if it is a wish.
    pub fn wish(&self, line: u32) -> Option<&Version>
        ensures { option_map version_of (option_copied result) ≡ wished_in (line_at self.now.lines line) }
    {
        self.asks.wished_at(line)
    }

    /// The `wish` lines, rising, each with the number of its version in the catalogue.
    pub fn wishes(&self) -> &[(u32, VersionNo)]
        ensures wishes { result.now ≡ self.now.wishes }
        ensures lines { AreAll (map (λ f. f.0) result.now) (λ n. LineIs self.now.lines n IsWish) }
    {
        &self.asks.wishes
    }

    /// Reads a request. There is none where its text has a faulty line, or where the device fails.
    pub fn read<S: Source>(
        alloc: Global,
        source: &mut S,
        catalogue: &Catalogue,
    ) -> Result<Self, ReadFault>
        ensures ok { IfOk result
            (λ request.
            IfKnown (S.left source.old)
            (λ text. IsGrammatical (IsRequestLine catalogue.now) text request.lines)) }
        ensures lines { IfOk result (λ request. AreRequestLines catalogue.now request.lines) }
        ensures wishes { IfOk result
            (λ request.
            (i : ℕ) (f : ℕ × VersionNo)
            → slice_get request.wishes i ≡ Some f
            → WishesAt (listed catalogue.now) request.lines f) }
        ensures fault { IfErr result
            (λ e.
            IsTextFault (IsRequestLine catalogue.now) e (S.left source.old) (S.left source.new)
            16777216
            (SourceFailed S.Source source.old source.new)) }
    {
        let mut asks = RequestLines::new(alloc);
        let mut reader = LineReader::new(alloc, MOST_BYTES)?;
        let mut number: u32 = 0;
        while reader.next_line(source)? {
            number += 1;
            match asks.read_line(alloc, catalogue, number, reader.line()) {
                Ok(()) => {}
                Err(LineFault::Fault) => return Err(ReadFault::Fault(number)),
                Err(LineFault::Memory) => return Err(ReadFault::Memory),
            }
        }
        Ok(Request { asks })
    }
}
