//! The stored lines of a request, and its wishes.
//! The model is the list of lines, `asked_lines`; `AreAsks` is the invariant that map and wishes
//! agree with it. Used by `request`.

ghost use Rattle.std.specs.Prelude.{◌≡◌, ◌+◌, [], option_and_then, option_copied, length, is_some, OnOk, Err, Some, List};
ghost use Rattle.std.specs.BTreeMap.{get};
ghost use Rattle.std.specs.Ordering.{nat_cmp};
ghost use Rattle.resolvo_text.specs.Line as parsed;
ghost use Rattle.resolvo_text.specs.View.{version_of, spec_of, specs_of, list_of, condition_of, view};
ghost use Rattle.resolvo_text.specs.declared.line.LineFault.TheVariants.{Fault};
ghost use Rattle.resolvo_catalogue_core.specs.Grammar.{MayFollowInRequest, IsRequestLine};
ghost use Rattle.resolvo_catalogue_core.specs.Listed.{listed};

use crate::catalogue::Catalogue;
use crate::rule::{Rule, VersionNo};
use resolvo_text::{Alternatives, Cond, Line, LineFault, Spec, Version, line_in};
use std::alloc::Global;
use std::collections::BTreeMap;

/// A parsed line of a request.
#[derive(Debug, Drop)]
pub enum RequestLine {
    Nothing,
    Wish(Version),
    Rule(Rule),
}

/// The lines of a request, and its wishes with their lines.
pub struct RequestLines {
    pub asks: Vec<RequestLine>,
    pub wishes: Vec<(u32, VersionNo)>,
    /// The line that wishes for the version.
    pub wished: BTreeMap<u32, u32>,
}

// split for the prover: one drop
impl Drop for RequestLines {
    fn drop(self) {
        let RequestLines {
            asks: _,
            wishes: _,
            wished: _,
        } = self;
    }
}

impl RequestLines {
    ghost use Rattle.resolvo_catalogue_core.specs.RequestLines.{AreAsks, AddsAsk, asked_lines, ask_at, rule_asked, wish_asked};

    pub fn new(alloc: Global) -> Self
        ensures asks { (versions : List parsed.Version) → AreAsks versions result }
        ensures empty { asked_lines result ≡ [] }
    {
        RequestLines {
            asks: Vec::new(alloc),
            wishes: Vec::new(alloc),
            wished: BTreeMap::new(alloc),
        }
    }

    fn ask_at(&self, line: u32) -> Option<&RequestLine>
        ensures { option_copied result ≡ ask_at self.now.asks.items line }
    {
        if line == 0 {
            return None;
        }
        self.asks.get((line - 1) as usize)
    }

    /// The rule of the line, if it has one.
    pub fn rule(&self, line: u32) -> Option<&Rule>
        ensures { option_copied result ≡ option_and_then rule_asked (ask_at self.now.asks.items line) }
    {
        match self.ask_at(line)? {
            RequestLine::Rule(rule) => Some(rule),
            _ => None,
        }
    }

    /// The version that the line wishes for, if it is a wish.
    pub fn wished_at(&self, line: u32) -> Option<&Version>
        ensures { option_copied result ≡ option_and_then wish_asked (ask_at self.now.asks.items line) }
    {
        match self.ask_at(line)? {
            RequestLine::Wish(version) => Some(version),
            _ => None,
        }
    }

    fn is_wished(&self, version: VersionNo) -> bool
        ensures { result ≡ is_some (get nat_cmp self.now.wished version.0) }
    {
        self.wished.contains_key(&version.0)
    }

    fn skip(&mut self, catalogue: &Catalogue) -> Result<(), LineFault>
        requires { AreAsks (listed catalogue.now) self.old }
        ensures ok { OnOk result (AddsAsk (listed catalogue.now) self.old parsed.Skipped self.new) }
        ensures memory { result ≡ Err Fault → ⊥ }
    {
        self.asks.push(RequestLine::Nothing)?;
        Ok(())
    }

    fn need(
        &mut self,
        catalogue: &Catalogue,
        alternatives: Alternatives,
        condition: Option<Box<Cond>>,
    ) -> Result<(), LineFault>
        requires { AreAsks (listed catalogue.now) self.old }
        ensures ok { OnOk result
            (AddsAsk (listed catalogue.now) self.old
            (parsed.Needs (specs_of (list_of alternatives)) (condition_of condition)) self.new) }
        ensures memory { result ≡ Err Fault → ⊥ }
    {
        self.asks.push(RequestLine::Rule(Rule::Needs {
            owner: None,
            alternatives,
            condition,
        }))?;
        Ok(())
    }

    fn limit(&mut self, catalogue: &Catalogue, spec: Spec) -> Result<(), LineFault>
        requires { AreAsks (listed catalogue.now) self.old }
        ensures ok { OnOk result
            (AddsAsk (listed catalogue.now) self.old (parsed.Limits (spec_of spec)) self.new) }
        ensures memory { result ≡ Err Fault → ⊥ }
    {
        self.asks
            .push(RequestLine::Rule(Rule::Limits { owner: None, spec }))?;
        Ok(())
    }

    fn wish(&mut self, catalogue: &Catalogue, line: u32, version: Version) -> Result<(), LineFault>
        requires asks { AreAsks (listed catalogue.now) self.old }
        requires line { line ≡ length (asked_lines self.old) + 1 }
        ensures ok { OnOk result
            (AddsAsk (listed catalogue.now) self.old (parsed.Wish (version_of version)) self.new) }
        ensures placed { OnOk result
            (MayFollowInRequest catalogue.now (asked_lines self.old)
            (parsed.Wish (version_of version))) }
        ensures fault { result ≡ Err Fault
            → MayFollowInRequest catalogue.now (asked_lines self.old)
            (parsed.Wish (version_of version))
            → ⊥ }
    {
        let number = catalogue.listed(&version)?;
        if self.is_wished(number) {
            return Err(LineFault::Fault);
        }
        self.wished.insert(number.0, line)?;
        self.wishes.push((line, number))?;
        self.asks.push(RequestLine::Wish(version))?;
        Ok(())
    }

    /// Adds the line of this number, if it may follow the stored ones.
    fn add(&mut self, catalogue: &Catalogue, number: u32, line: Line) -> Result<(), LineFault>
        requires asks { AreAsks (listed catalogue.now) self.old }
        requires number { number ≡ length (asked_lines self.old) + 1 }
        ensures ok { OnOk result (AddsAsk (listed catalogue.now) self.old (view line) self.new) }
        ensures placed { OnOk result (MayFollowInRequest catalogue.now (asked_lines self.old) (view line)) }
        ensures fault { result ≡ Err Fault
            → MayFollowInRequest catalogue.now (asked_lines self.old) (view line)
            → ⊥ }
    {
        match line {
            Line::Skipped => self.skip(catalogue),
            Line::Needs {
                alternatives,
                condition,
            } => self.need(catalogue, alternatives, condition),
            Line::Limits(spec) => self.limit(catalogue, spec),
            Line::Wish(version) => self.wish(catalogue, number, version),
            Line::Listed(_)
            | Line::Unknown(_)
            | Line::Lock(_)
            | Line::Favour(_)
            | Line::Exclude { .. }
            | Line::Many(_) => Err(LineFault::Fault),
        }
    }

    /// Parses the text of a line, and adds the line.
    pub fn read_line(
        &mut self,
        alloc: Global,
        catalogue: &Catalogue,
        number: u32,
        text: &[u8],
    ) -> Result<(), LineFault>
        requires asks { AreAsks (listed catalogue.now) self.old }
        requires number { number ≡ length (asked_lines self.old) + 1 }
        ensures ok { OnOk result
            ((line : parsed.Line)
            × IsRequestLine catalogue.now (asked_lines self.old) text.now line
            × AddsAsk (listed catalogue.now) self.old line self.new) }
        ensures fault { result ≡ Err Fault
            → (line : parsed.Line)
            → IsRequestLine catalogue.now (asked_lines self.old) text.now line
            → ⊥ }
    {
        let line = line_in(alloc, text)?;
        self.add(catalogue, number, line)
    }
}
