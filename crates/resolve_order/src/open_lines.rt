//! Which lines may give a version. All lines are in one list. A line that gives nothing is closed
//! until there is one more version that it may name: a chosen one for its alternatives, or an entry
//! for its condition. Used by `install_order`.
//!
//! So a line is looked at once, again after each version that it gives, and again for each such
//! version. That is many times where a range of many lines names a package that is marked `many`, and
//! its versions come one after the other. So it is where a line has many alternatives.

ghost use Rattle.std.specs.Prelude.{◌≡◌, ℕ, ◌<◌, ◌^◌, ◌++◌, [], length, Contains, true, None, Some, List, Option, slice_get, IfOk, IfSome, OnOk};
ghost use Rattle.std.specs.BTreeSet.{contains};
ghost use Rattle.std.specs.Ordering.{nat_cmp};
ghost use Rattle.resolvo_text.specs.Line as content;
ghost use Rattle.resolvo_text.specs.Matches.{Set};
ghost use Rattle.resolvo_catalogue_core.specs.Listed.{listed, members};
ghost use Rattle.resolve_order.specs.Order.{line_named};
ghost use Rattle.resolve_order.specs.View.{reason_of};
ghost use Rattle.resolve_order.specs.Kept.{Holds, AreLines, IsLineState, IfGives, IsKeptByNeeds, IsKeptForAll, KeepsAll, IsOpen, IsFirstOpen, AreWithin, Closes, IsKeyAt, Reopens, OthersAreIdle, IsFound, specs_under, is_unlisted};
ghost use Rattle.resolve_order.specs.Need.{IsNeedAt, IsOfAll};

use crate::chosen::{Chosen, LineState, package_at};
use crate::entry::{Entry, Reason};
use crate::need::{Need, need_at, need_of};
use crate::package_lines::PackageLines;
use resolvo_catalogue_core::{Catalogue, Request, VersionNo};
use std::alloc::{AllocError, Global};
use std::collections::BTreeSet;

/// The lines that may give a version, and those that are closed.
#[derive(Drop)]
pub struct OpenLines {
    /// The lines before `below` to look at again.
    again: BTreeSet<usize>,
    /// How many lines of the list were looked at.
    below: usize,
    /// Closed lines of which each chosen match is an entry.
    closed: Vec<usize>,
    /// More of them, by the keys of their alternatives.
    spent: PackageLines,
    /// Lines whose condition doesn't hold, by the keys of the condition.
    waiting: PackageLines,
}

/// The need of the line, if it is one.
fn need_named<'a>(
    catalogue: &'a Catalogue,
    request: &'a Request,
    reason: Reason,
) -> Option<Need<'a>>
    ensures need { IsNeedAt
        (line_named catalogue.now request.now.lines (reason_of (listed catalogue.now) reason))
        result }
    ensures of { IsOfAll catalogue.now result }
{
    match reason {
        Reason::ForRequest { line } => match request.rule(line) {
            Some(rule) => need_of(rule),
            None => None,
        },
        Reason::ForVersion { line, .. } => need_at(catalogue.kept(), line),
        Reason::Wished { .. } => None,
    }
}

/// What the line gives.
fn state_at(catalogue: &Catalogue, request: &Request, chosen: &Chosen, reason: Reason) -> LineState
    ensures unlisted { IfGives result (λ n. is_unlisted chosen.now.listed.items n.0 ≡ true) }
    ensures state { (all entries : Set)
        → Holds catalogue.now chosen.now all entries
        → IsLineState catalogue.now all entries
        (line_named catalogue.now request.now.lines (reason_of (listed catalogue.now) reason))
        result }
{
    match need_named(catalogue, request, reason) {
        Some(need) => chosen.need_state(catalogue, &need),
        None => LineState::Spent,
    }
}

/// Keeps the line by the keys of its alternatives, if it is a need.
fn keep_alternatives(
    spent: &mut PackageLines,
    catalogue: &Catalogue,
    request: &Request,
    reason: Reason,
    line: usize,
) -> Result<(), AllocError>
    ensures added { OnOk result
        (IsKeptByNeeds (listed catalogue.now) spent.new line
        (line_named catalogue.now request.now.lines (reason_of (listed catalogue.now) reason))) }
    ensures kept { OnOk result (KeepsAll spent.old spent.new) }
{
    match need_named(catalogue, request, reason) {
        Some(need) => spent.add_alternatives(catalogue, &need, line),
        None => Ok(()),
    }
}

/// Keeps the line by the keys of its condition, if it is a need.
fn keep_condition(
    waiting: &mut PackageLines,
    catalogue: &Catalogue,
    request: &Request,
    reason: Reason,
    line: usize,
) -> Result<(), AllocError>
    ensures added { OnOk result
        ((ss : List content.Spec) (condition : Option content.Cond)
        → line_named catalogue.now request.now.lines (reason_of (listed catalogue.now) reason)
        ≡ Some (content.Needs ss condition)
        → IsKeptForAll (listed catalogue.now) waiting.new line (specs_under condition)) }
    ensures kept { OnOk result (KeepsAll waiting.old waiting.new) }
{
    match need_named(catalogue, request, reason) {
        Some(need) => waiting.add_condition_of(catalogue, &need, line),
        None => Ok(()),
    }
}

/// The line at a place.
fn line_at(lines: &[Reason], place: usize) -> Option<Reason>
    ensures { result ≡ slice_get lines.now place }
{
    lines.get(place).copied()
}

/// Opens the lines that are kept by the key. Those from `below` on are open.
fn reopen_by(
    again: &mut BTreeSet<usize>,
    below: usize,
    kept: &mut PackageLines,
    key: u32,
) -> Result<(), AllocError>
    ensures { OnOk result (Reopens again.old again.new below kept.old kept.new (λ k. key ≡ k)) }
{
    let mut lines = kept.take(key);
    while let Some(line) = lines.pop() {
        let place = line as usize;
        if place < below {
            again.insert(place)?;
        }
    }
    Ok(())
}

/// Opens the lines that are kept by a key of the version. Mostly there are none.
fn reopen(
    again: &mut BTreeSet<usize>,
    below: usize,
    kept: &mut PackageLines,
    catalogue: &Catalogue,
    version: VersionNo,
) -> Result<(), AllocError>
    ensures { OnOk result
        (Reopens again.old again.new below kept.old kept.new
        (IsKeyAt (listed catalogue.now) version.0)) }
{
    if kept.is_empty() {
        return Ok(());
    }
    reopen_by(again, below, kept, version.0)?;
    match package_at(catalogue, version) {
        Some(package) => reopen_by(again, below, kept, package),
        None => Ok(()),
    }
}

impl OpenLines {
    /// All lines are open.
    pub fn new(alloc: Global) -> OpenLines
        ensures again { (i : ℕ) → contains nat_cmp result.again i ≡ true → ⊥ }
        ensures below { result.below ≡ 0 }
    {
        OpenLines {
            again: BTreeSet::new(alloc),
            below: 0,
            closed: Vec::new(alloc),
            spent: PackageLines::new(alloc),
            waiting: PackageLines::new(alloc),
        }
    }

    /// The place of the first open line, or that behind the last line.
    fn first_open(&self) -> usize
        ensures { IsFirstOpen self.now.again self.now.below result }
    {
        match self.again.first() {
            Some(line) => *line,
            None => self.below,
        }
    }

    /// The first open line, with its place.
    fn first(&self, lines: &[Reason]) -> Option<(usize, Reason)>
        ensures first { IfSome result (λ f. IsFirstOpen self.now.again self.now.below f.0) }
        ensures at { IfSome result (λ f. slice_get lines.now f.0 ≡ Some f.1) }
        ensures small { IfSome result (λ f. f.0 < 2 ^ 63) }
        ensures none { result ≡ None
            → AreWithin self.now.again self.now.below (length lines.now)
            → (i : ℕ)
            → i < length lines.now
            → IsOpen self.now.again self.now.below i
            → ⊥ }
    {
        let line = self.first_open();
        let reason = lines.get(line)?;
        Some((line, *reason))
    }

    /// Closes the first open line.
    fn close(&mut self, line: usize)
        requires { line < 2 ^ 63 }
        ensures { IsFirstOpen self.old.again self.old.below line → Closes self.old self.new line }
    {
        if !self.again.remove(&line) {
            self.below = line + 1;
        }
    }

    /// Closes the first open line until there is one more chosen version.
    fn close_spent(&mut self, line: usize) -> Result<(), AllocError>
        requires { line < 2 ^ 63 }
        ensures closes { OnOk result
            (IsFirstOpen self.old.again self.old.below line → Closes self.old self.new line) }
        ensures closed { OnOk result
            (IsFirstOpen self.old.again self.old.below line
            → Contains self.new.closed.items line) }
    {
        self.closed.push(line)?;
        self.close(line);
        Ok(())
    }

    /// Closes the first open line until there is one more entry.
    fn close_waiting(
        &mut self,
        catalogue: &Catalogue,
        request: &Request,
        reason: Reason,
        line: usize,
    ) -> Result<(), AllocError>
        requires { line < 2 ^ 63 }
        ensures closes { OnOk result
            (IsFirstOpen self.old.again self.old.below line → Closes self.old self.new line) }
        ensures kept { OnOk result
            ((ss : List content.Spec) (condition : Option content.Cond)
            → line_named catalogue.now request.now.lines (reason_of (listed catalogue.now) reason)
            ≡ Some (content.Needs ss condition)
            → IsFirstOpen self.old.again self.old.below line
            → IsKeptForAll (listed catalogue.now) self.new.waiting line (specs_under condition)) }
    {
        keep_condition(&mut self.waiting, catalogue, request, reason, line)?;
        self.close(line);
        Ok(())
    }

    /// Keeps the closed lines by the keys of their alternatives.
    fn keep_closed(
        &mut self,
        catalogue: &Catalogue,
        request: &Request,
        lines: &[Reason],
    ) -> Result<(), AllocError>
        ensures none { OnOk result (self.new.closed.items ≡ []) }
        ensures idle { OnOk result
            ((all entries : Set)
            → OthersAreIdle catalogue.now request.now.lines all entries lines.now self.old
            → OthersAreIdle catalogue.now request.now.lines all entries lines.now self.new) }
    {
        while let Some(line) = self.closed.pop() {
            if let Some(reason) = line_at(lines, line) {
                keep_alternatives(&mut self.spent, catalogue, request, reason, line)?;
            }
        }
        Ok(())
    }

    /// Opens the spent lines that this chosen version may match.
    fn open_spent(&mut self, catalogue: &Catalogue, version: VersionNo) -> Result<(), AllocError>
        ensures opened { OnOk result
            (Reopens self.old.again self.new.again self.old.below
            self.old.spent self.new.spent
            (IsKeyAt (listed catalogue.now) version.0)) }
        ensures below { OnOk result (self.new.below ≡ self.old.below) }
        ensures closed { OnOk result (self.new.closed ≡ self.old.closed) }
        ensures waiting { OnOk result (self.new.waiting ≡ self.old.waiting) }
    {
        reopen(
            &mut self.again,
            self.below,
            &mut self.spent,
            catalogue,
            version,
        )?;
        Ok(())
    }

    /// Opens the spent lines that these chosen versions may match.
    pub fn open_chosen(
        &mut self,
        catalogue: &Catalogue,
        request: &Request,
        lines: &[Reason],
        versions: &[VersionNo],
    ) -> Result<(), AllocError>
        ensures { OnOk result
            ((before all entries : Set)
            → all ≡ before ++ members (listed catalogue.now) versions.now
            → OthersAreIdle catalogue.now request.now.lines before entries lines.now self.old
            → OthersAreIdle catalogue.now request.now.lines all entries lines.now self.new) }
    {
        self.keep_closed(catalogue, request, lines)?;
        for version in versions {
            self.open_spent(catalogue, *version)?;
        }
        Ok(())
    }

    /// Opens the waiting lines whose condition may hold by this new entry.
    pub fn open_waiting(
        &mut self,
        catalogue: &Catalogue,
        version: VersionNo,
    ) -> Result<(), AllocError>
        ensures opened { OnOk result
            (Reopens self.old.again self.new.again self.old.below
            self.old.waiting self.new.waiting
            (IsKeyAt (listed catalogue.now) version.0)) }
        ensures below { OnOk result (self.new.below ≡ self.old.below) }
        ensures closed { OnOk result (self.new.closed ≡ self.old.closed) }
        ensures spent { OnOk result (self.new.spent ≡ self.old.spent) }
    {
        reopen(
            &mut self.again,
            self.below,
            &mut self.waiting,
            catalogue,
            version,
        )?;
        Ok(())
    }

    /// The next entry: the version of the first line that gives one.
    pub fn next(
        &mut self,
        catalogue: &Catalogue,
        request: &Request,
        chosen: &Chosen,
        lines: &[Reason],
    ) -> Result<Option<Entry>, AllocError>
        ensures unlisted { IfOk result
            (λ found.
            IfSome found (λ e. is_unlisted chosen.now.listed.items e.version.0 ≡ true)) }
        ensures found { IfOk result
            (λ found.
            (all entries : Set)
            → Holds catalogue.now chosen.now all entries
            → AreLines catalogue.now request.now.lines entries lines.now
            → OthersAreIdle catalogue.now request.now.lines all entries lines.now self.old
            → IsFound catalogue.now request.now.lines all entries found) }
        ensures idle { OnOk result
            ((all entries : Set)
            → Holds catalogue.now chosen.now all entries
            → OthersAreIdle catalogue.now request.now.lines all entries lines.now self.old
            → OthersAreIdle catalogue.now request.now.lines all entries lines.now self.new) }
    {
        while let Some((line, reason)) = self.first(lines) {
            match state_at(catalogue, request, chosen, reason) {
                LineState::Spent => self.close_spent(line)?,
                LineState::Waiting => self.close_waiting(catalogue, request, reason, line)?,
                LineState::Gives(version) => return Ok(Some(Entry { version, reason })),
            }
        }
        Ok(None)
    }
}
