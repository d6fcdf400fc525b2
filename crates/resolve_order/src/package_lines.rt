//! Lines by versions: which ones may give a version once there is one more of these. A line is
//! known by its place in the list of all lines. The key of a SPEC is the number of the one version
//! that it may match, or else that of its package's first version. Used by `open_lines`.

ghost use Rattle.std.specs.Prelude.{◌≡◌, ◌<◌, ◌≤◌, ◌∷◌, [], ℕ, false, true, Some, IfOk, OnOk, List, length, slice_get};
ghost use Rattle.std.specs.Option.{option_map};
ghost use Rattle.resolvo_text.specs.Line as content;
ghost use Rattle.resolvo_text.specs.View.{spec_of, cond_of, condition_of};
ghost use Rattle.resolvo_terms.specs.Known.{cond_at};
ghost use Rattle.resolvo_catalogue_core.specs.Questions.{number_of};
ghost use Rattle.resolvo_catalogue_core.specs.Listed.{listed};
ghost use Rattle.resolve_order.specs.Kept.{first_of, has_line, is_kept, IsKeyOf, IsKeptFor, IsKeptForAll, KeepsAll, specs_in, specs_under};
ghost use Rattle.resolve_order.specs.Need.{IsOf, IsSpanOf, alternatives_in, condition_in};

use crate::key_numbers::KeyNumbers;
use crate::need::{Need, PackageSpan, kept_span, span_of};
use resolvo_catalogue_core::{Catalogue, Cond, KeptLines, Span, Spec, VersionNo};
use resolvo_pool_core::condition::Condition;
use resolvo_pool_core::id::ConditionId;
use std::alloc::{AllocError, Global};
use std::mem;

/// The lines of each key.
#[derive(Drop)]
pub struct PackageLines {
    alloc: Global,
    /// The numbers of the keys that have had lines.
    keys: KeyNumbers,
    /// The lines of each key, by its number. The last numbers may have no place.
    lines: Vec<Vec<u32>>,
}

/// A place in the list of all lines. There are fewer than 2^32, and one more is refused as for want
/// of memory.
fn short(line: usize) -> Result<u32, AllocError>
    ensures { IfOk result (λ short. short ≡ line) }
{
    if line > 4_294_967_295 {
        return Err(AllocError);
    }
    Ok(line as u32)
}

/// Makes a list of places this long, where it is shorter. The new places have no lines.
fn lengthen(alloc: Global, lines: &mut Vec<Vec<u32>>, count: usize) -> Result<(), AllocError>
    ensures same { (key i : ℕ)
        → has_line (slice_get lines.new.items key) i
        ≡ has_line (slice_get lines.old.items key) i }
    ensures long { OnOk result (count ≤ length lines.new.items) }
{
    for _ in lines.len()..count {
        lines.push(Vec::new(alloc))?;
    }
    Ok(())
}

/// A list that is no longer than this may have a line twice.
const FEW: usize = 16;

/// Drops what a list has twice, and makes room for as many lines again.
fn drop_repeated(lines: &mut Vec<u32>) -> Result<(), AllocError>
    ensures kept { (i : ℕ)
        → has_line (Some lines.old) i ≡ true
        → has_line (Some lines.new) i ≡ true }
{
    lines.sort_unstable();
    lines.dedup();
    lines.reserve(lines.len() + 1)?;
    Ok(())
}

/// Adds a line to those of a key, if it isn't the last of them. A long list that is full drops what
/// it has twice before it grows: a line may be closed many times.
fn add_line(lines: &mut Vec<u32>, line: u32) -> Result<(), AllocError>
    ensures added { OnOk result (has_line (Some lines.new) line ≡ true) }
    ensures kept { OnOk result
        ((i : ℕ)
        → has_line (Some lines.old) i ≡ true
        → has_line (Some lines.new) i ≡ true) }
{
    if let Some(last) = lines.last() {
        if *last == line {
            return Ok(());
        }
    }
    if lines.len() > FEW && lines.len() == lines.capacity() {
        drop_repeated(lines)?;
    }
    lines.push(line)?;
    Ok(())
}

/// Adds a line to those of a number, which may have no place yet.
fn add_numbered(
    alloc: Global,
    lines: &mut Vec<Vec<u32>>,
    number: u32,
    line: u32,
) -> Result<(), AllocError>
    ensures added { OnOk result (has_line (slice_get lines.new.items number) line ≡ true) }
    ensures kept { OnOk result
        ((n i : ℕ)
        → has_line (slice_get lines.old.items n) i ≡ true
        → has_line (slice_get lines.new.items n) i ≡ true) }
{
    let at = number as usize;
    lengthen(alloc, lines, at + 1)?;
    add_line(&mut lines[at], line)
}

/// Takes the lines of a number out.
fn take_numbered(alloc: Global, lines: &mut Vec<Vec<u32>>, number: u32) -> Vec<u32>
    ensures taken { (i : ℕ)
        → has_line (slice_get lines.old.items number) i ≡ true
        → has_line (Some result) i ≡ true }
    ensures others { (n i : ℕ)
        → (n ≡ number → ⊥)
        → has_line (slice_get lines.old.items n) i ≡ true
        → has_line (slice_get lines.new.items n) i ≡ true }
{
    let at = number as usize;
    let none = Vec::new(alloc);
    if at < lines.len() {
        mem::replace(&mut lines[at], none)
    } else {
        none
    }
}

/// The version of this number in the package, if it is listed.
fn find_in(catalogue: &Catalogue, package: Option<u32>, number: u32) -> Option<VersionNo>
    ensures { (name : List ℕ) (k : ℕ)
        → «package» ≡ first_of (listed catalogue.now) name
        → slice_get (listed catalogue.now) k ≡ Some (record { name = name; number = number })
        → option_map number_of result ≡ Some k }
{
    let package = package?;
    catalogue.find_beside(VersionNo(package), number)
}

/// The key of a SPEC, if the catalogue lists such a version.
fn key_of(catalogue: &Catalogue, spec: PackageSpan) -> Option<u32>
    ensures { (s : content.Spec) (k : ℕ)
        → IsSpanOf (listed catalogue.now) s spec
        → IsKeyOf (listed catalogue.now) s.name s.span k
        → result ≡ Some k }
{
    match spec.span {
        Span::One(number) => match find_in(catalogue, spec.package, number) {
            Some(version) => Some(version.0),
            None => None,
        },
        Span::Any => spec.package,
        Span::Range(..) => spec.package,
    }
}

impl PackageLines {
    pub fn new(alloc: Global) -> PackageLines {
        PackageLines {
            alloc,
            keys: KeyNumbers::new(alloc),
            lines: Vec::new(alloc),
        }
    }

    /// Whether no line was kept.
    pub fn is_empty(&self) -> bool
        ensures none { result ≡ true → (k i : ℕ) → is_kept self.now k i ≡ true → ⊥ }
        ensures some { result ≡ false → 0 < length self.now.lines.items }
    {
        self.lines.is_empty()
    }

    /// Keeps the line by the key.
    fn add(&mut self, key: u32, line: usize) -> Result<(), AllocError>
        ensures added { OnOk result (is_kept self.new key line ≡ true) }
        ensures kept { OnOk result (KeepsAll self.old self.new) }
    {
        let kept = short(line)?;
        let number = self.keys.put(key)?;
        add_numbered(self.alloc, &mut self.lines, number, kept)
    }

    /// The same by the key of the SPEC, if it has one.
    fn add_spec(
        &mut self,
        catalogue: &Catalogue,
        spec: PackageSpan,
        line: usize,
    ) -> Result<(), AllocError>
        ensures added { OnOk result
            ((s : content.Spec)
            → IsSpanOf (listed catalogue.now) s spec
            → IsKeptFor (listed catalogue.now) self.new line s) }
        ensures kept { OnOk result (KeepsAll self.old self.new) }
    {
        match key_of(catalogue, spec) {
            Some(key) => self.add(key, line),
            None => Ok(()),
        }
    }

    /// The same by the key of the alternative at a place.
    fn add_at(
        &mut self,
        catalogue: &Catalogue,
        need: &Need<'_>,
        place: usize,
        line: usize,
    ) -> Result<(), AllocError>
        requires { IsOf catalogue.now need.now }
        ensures added { OnOk result
            ((s : content.Spec)
            → slice_get (alternatives_in need.now) place ≡ Some s
            → IsKeptFor (listed catalogue.now) self.new line s) }
        ensures kept { OnOk result (KeepsAll self.old self.new) }
    {
        match need.at(catalogue, place) {
            Some(spec) => self.add_spec(catalogue, spec, line),
            None => Ok(()),
        }
    }

    /// Keeps the line of a need by the keys of its alternatives.
    pub fn add_alternatives(
        &mut self,
        catalogue: &Catalogue,
        need: &Need<'_>,
        line: usize,
    ) -> Result<(), AllocError>
        requires { IsOf catalogue.now need.now }
        ensures added { OnOk result
            (IsKeptForAll (listed catalogue.now) self.new line (alternatives_in need.now)) }
        ensures kept { OnOk result (KeepsAll self.old self.new) }
    {
        for place in 0..need.len() {
            self.add_at(catalogue, need, place, line)?;
        }
        Ok(())
    }

    /// The same by the key of a SPEC of a text.
    fn add_text(
        &mut self,
        catalogue: &Catalogue,
        spec: &Spec,
        line: usize,
    ) -> Result<(), AllocError>
        ensures added { OnOk result
            (IsKeptFor (listed catalogue.now) self.new line (spec_of spec.now)) }
        ensures kept { OnOk result (KeepsAll self.old self.new) }
    {
        self.add_spec(catalogue, span_of(catalogue, spec), line)
    }

    /// The same by the keys of the condition.
    fn add_parts(
        &mut self,
        catalogue: &Catalogue,
        condition: &Cond,
        line: usize,
    ) -> Result<(), AllocError>
        ensures added { OnOk result
            (IsKeptForAll (listed catalogue.now) self.new line (specs_in (cond_of condition.now))) }
        ensures kept { OnOk result (KeepsAll self.old self.new) }
    {
        match condition {
            Cond::Spec(spec) => self.add_text(catalogue, spec, line)?,
            Cond::And(left, right) | Cond::Or(left, right) => {
                self.add_parts(catalogue, left, line)?;
                self.add_parts(catalogue, right, line)?;
            }
        }
        Ok(())
    }

    fn add_condition(
        &mut self,
        catalogue: &Catalogue,
        condition: &Option<Box<Cond>>,
        line: usize,
    ) -> Result<(), AllocError>
        ensures added { OnOk result
            (IsKeptForAll (listed catalogue.now) self.new line
            (specs_under (condition_of condition.now))) }
        ensures kept { OnOk result (KeepsAll self.old self.new) }
    {
        match condition {
            Some(condition) => self.add_parts(catalogue, condition, line),
            None => Ok(()),
        }
    }

    /// The same of a condition of a number.
    fn add_kept_parts(
        &mut self,
        catalogue: &Catalogue,
        kept: &KeptLines<'_>,
        condition: ConditionId,
        line: usize,
    ) -> Result<(), AllocError>
        requires { kept.now.lines ≡ catalogue.now }
        ensures added { OnOk result
            (IsKeptForAll (listed catalogue.now) self.new line
            (specs_in (cond_at kept.now.terms condition))) }
        ensures kept { OnOk result (KeepsAll self.old self.new) }
    {
        match kept.terms().meaning(condition) {
            Condition::Requirement(spec) => {
                self.add_spec(catalogue, kept_span(catalogue, kept, spec), line)
            }
            Condition::Binary(_, left, right) => {
                self.add_kept_parts(catalogue, kept, left, line)?;
                self.add_kept_parts(catalogue, kept, right, line)
            }
        }
    }

    fn add_kept_condition(
        &mut self,
        catalogue: &Catalogue,
        kept: &KeptLines<'_>,
        condition: Option<ConditionId>,
        line: usize,
    ) -> Result<(), AllocError>
        requires { kept.now.lines ≡ catalogue.now }
        ensures added { OnOk result
            (IsKeptForAll (listed catalogue.now) self.new line
            (specs_under (option_map (cond_at kept.now.terms) condition))) }
        ensures kept { OnOk result (KeepsAll self.old self.new) }
    {
        match condition {
            Some(condition) => self.add_kept_parts(catalogue, kept, condition, line),
            None => Ok(()),
        }
    }

    /// Keeps the line of a need by the keys of its condition.
    pub fn add_condition_of(
        &mut self,
        catalogue: &Catalogue,
        need: &Need<'_>,
        line: usize,
    ) -> Result<(), AllocError>
        requires { IsOf catalogue.now need.now }
        ensures added { OnOk result
            (IsKeptForAll (listed catalogue.now) self.new line
            (specs_under (condition_in need.now))) }
        ensures kept { OnOk result (KeepsAll self.old self.new) }
    {
        match need {
            Need::Text { condition, .. } => self.add_condition(catalogue, condition, line),
            Need::Numbered { kept, need } => {
                self.add_kept_condition(catalogue, kept, need.condition, line)
            }
        }
    }

    /// Takes the lines of the key out.
    pub fn take(&mut self, key: u32) -> Vec<u32>
        ensures taken { (i : ℕ)
            → is_kept self.old key i ≡ true
            → has_line (Some result) i ≡ true }
        ensures others { (k i : ℕ)
            → (k ≡ key → ⊥)
            → is_kept self.old k i ≡ true
            → is_kept self.new k i ≡ true }
    {
        match self.keys.find(key) {
            Some(number) => take_numbered(self.alloc, &mut self.lines, number),
            None => Vec::new(self.alloc),
        }
    }
}
