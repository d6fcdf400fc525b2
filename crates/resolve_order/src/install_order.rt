//! Lists the chosen versions in the order of the lines that ask for them, and the wishes that are
//! left out in their turns.
//!
//! A turn looks at the open lines in their order, and lists the version that a line gives before it
//! goes on. A line that gives nothing is closed until it may give one (`open_lines`). Called by the
//! writer of the report of a search.

ghost use Rattle.std.specs.Prelude.{◌≡◌, ◌↔◌, ◌++◌, ◌∷◌, [], ◌+◌, ◌<◌, length, true, List, Option, Contains, slice_get, Some, IfOk, IfSome, OnOk};
ghost use Rattle.std.specs.Option.{option_copied, option_map};
ghost use Rattle.resolvo_text.specs.Line as content;
ghost use Rattle.resolvo_text.specs.Matches.{Set};
ghost use Rattle.resolvo_catalogue_core.specs.Answers.{IsReasoned, entries_of};
ghost use Rattle.resolvo_catalogue_core.specs.Listed.{listed, members};
ghost use Rattle.resolve_order.specs.Order.{line_named, wish_entry, IsComplete, Chose, LeavesOut, AreTurns, AreReached, chosen_by, chosen_in, wishes_in};
ghost use Rattle.resolve_order.specs.declared.entry.Answer.TheVariants as answer;
ghost use Rattle.resolve_order.specs.View.{reason_of, answers_of, wish_at, turn_of, turns_of, IsAccepted, IsWishOf, AreNumbered, AreTurnsOf};
ghost use Rattle.resolve_order.specs.Kept.{IsListing, Extends, TakesTurn, is_unlisted, unlisted, lines_to, lines_for, answers_in, entries_in};

use crate::chosen::Chosen;
use crate::entry::{Answer, Entry, Reason, Turn};
use crate::open_lines::OpenLines;
use resolvo_catalogue_core::{Catalogue, Request, VersionNo};
use std::alloc::{AllocError, Global};

/// The answers so far, and the lines that ask for more.
#[derive(Drop)]
pub struct InstallOrder {
    chosen: Chosen,
    /// The lines of the request, then those of the entries.
    lines: Vec<Reason>,
    open_lines: OpenLines,
    answers: Vec<Answer>,
}

/// The lines of a request with this number of them.
fn request_lines(alloc: Global, count: u32) -> Result<Vec<Reason>, AllocError>
    ensures { IfOk result (λ lines. lines.items ≡ lines_to count) }
{
    let mut lines = Vec::new(alloc);
    for index in 0..count {
        lines.push(Reason::ForRequest { line: index + 1 })?;
    }
    Ok(lines)
}

/// Adds these lines of a version.
fn push_lines(
    lines: &mut Vec<Reason>,
    version: VersionNo,
    numbers: &[u32],
) -> Result<(), AllocError>
    ensures { OnOk result (lines.new.items ≡ lines.old.items ++ lines_for version numbers.now) }
{
    for line in numbers {
        lines.push(Reason::ForVersion {
            version,
            line: *line,
        })?;
    }
    Ok(())
}

impl InstallOrder {
    /// No entry yet, and no version chosen.
    fn new(
        alloc: Global,
        catalogue: &Catalogue,
        request: &Request,
    ) -> Result<InstallOrder, AllocError>
        ensures none { IfOk result (λ x. x.answers.items ≡ []) }
        ensures listing { IfOk result (λ x. IsListing catalogue.now request.now.lines x [] []) }
    {
        Ok(InstallOrder {
            chosen: Chosen::new(alloc, catalogue)?,
            lines: request_lines(alloc, request.line_count())?,
            open_lines: OpenLines::new(alloc),
            answers: Vec::new(alloc),
        })
    }

    /// Lists a version.
    fn give(&mut self, catalogue: &Catalogue, entry: Entry) -> Result<(), AllocError>
        requires { is_unlisted self.old.chosen.listed.items entry.version.0 ≡ true }
        ensures fewer { OnOk result
            (unlisted self.new.chosen.listed.items + 1 ≡ unlisted self.old.chosen.listed.items) }
        ensures answers { OnOk result (self.new.answers.items ≡ self.old.answers.items
            ++ answer.Entry entry ∷ []) }
        ensures listing { OnOk result
            ((request : List content.Line) (chosen seen : Set) (v : content.Version)
            → slice_get (listed catalogue.now) entry.version.0 ≡ Some v
            → Contains chosen v
            → IsListing catalogue.now request self.old chosen seen
            → IsListing catalogue.now request self.new chosen seen) }
    {
        self.chosen.mark(catalogue, entry.version)?;
        self.answers.push(Answer::Entry(entry))?;
        self.open_lines.open_waiting(catalogue, entry.version)?;
        push_lines(
            &mut self.lines,
            entry.version,
            catalogue.lines_of(entry.version),
        )?;
        Ok(())
    }

    /// Lists one version after the other, until no line gives anything more. These versions are
    /// chosen since the last turn. No line is looked at where each chosen version is an entry.
    fn finish(
        &mut self,
        catalogue: &Catalogue,
        request: &Request,
        versions: &[VersionNo],
    ) -> Result<(), AllocError>
        ensures listed { OnOk result
            ((seen chosen : Set)
            → chosen ≡ seen ++ members (listed catalogue.now) versions.now
            → IsListing catalogue.now request.now.lines self.old chosen seen
            → Extends catalogue.now request.now.lines chosen self.old self.new) }
        ensures complete { OnOk result
            ((seen chosen : Set)
            → chosen ≡ seen ++ members (listed catalogue.now) versions.now
            → IsListing catalogue.now request.now.lines self.old chosen seen
            → IsComplete catalogue.now request.now.lines chosen
            (entries_in catalogue.now self.new)) }
    {
        if self.chosen.are_all_listed() {
            return Ok(());
        }
        self.open_lines
            .open_chosen(catalogue, request, &self.lines, versions)?;
        while let Some(entry) = self
            .open_lines
            .next(catalogue, request, &self.chosen, &self.lines)?
        {
            self.give(catalogue, entry)?;
        }
        Ok(())
    }

    /// Lists the wish of a turn, unless it is an entry.
    fn begin(
        &mut self,
        catalogue: &Catalogue,
        wish: Option<(u32, VersionNo)>,
    ) -> Result<(), AllocError>
        ensures listing { OnOk result
            ((request : List content.Line) (chosen seen : Set)
            → IsListing catalogue.now request self.old chosen seen
            → IsAccepted (listed catalogue.now) request chosen wish
            → IsListing catalogue.now request self.new chosen seen) }
        ensures listed { OnOk result
            ((request : List content.Line) (chosen seen : Set)
            → IsListing catalogue.now request self.old chosen seen
            → IsAccepted (listed catalogue.now) request chosen wish
            → answers_in catalogue.now self.new
            ≡ answers_in catalogue.now self.old ++ wish_entry
            (option_map (wish_at (listed catalogue.now)) wish)
            (entries_in catalogue.now self.old)) }
    {
        if let Some((line, version)) = wish {
            if self.chosen.is_unlisted(version) {
                self.give(
                    catalogue,
                    Entry {
                        version,
                        reason: Reason::Wished { line },
                    },
                )?;
            }
        }
        Ok(())
    }

    /// Lists a wish as left out.
    fn leave_out(&mut self, wish: (u32, VersionNo), step: u32) -> Result<(), AllocError>
        ensures { OnOk result
            ((catalogue request : List content.Line) (chosen : Set)
            → IsListing catalogue request self.old chosen chosen
            → wish.1.0 < length (listed catalogue)
            → TakesTurn catalogue request chosen
            (LeavesOut (wish_at (listed catalogue) wish) step) self.old self.new) }
    {
        self.answers.push(Answer::LeftOut {
            version: wish.1,
            line: wish.0,
            step,
        })?;
        Ok(())
    }

    /// Lists the versions chosen in a turn, its accepted wish first.
    fn take_chosen(
        &mut self,
        catalogue: &Catalogue,
        request: &Request,
        wish: Option<(u32, VersionNo)>,
        versions: &[VersionNo],
    ) -> Result<(), AllocError>
        ensures { OnOk result
            ((before chosen : Set)
            → chosen ≡ before ++ members (listed catalogue.now) versions.now
            → IsListing catalogue.now request.now.lines self.old before before
            → IsAccepted (listed catalogue.now) request.now.lines chosen wish
            → TakesTurn catalogue.now request.now.lines chosen
            (Chose (option_map (wish_at (listed catalogue.now)) wish)
            (members (listed catalogue.now) versions.now))
            self.old self.new) }
    {
        self.chosen.add_all(catalogue, versions)?;
        self.begin(catalogue, wish)?;
        self.finish(catalogue, request, versions)?;
        Ok(())
    }

    /// Lists the entries of a turn, or its left-out wish.
    fn take_turn(
        &mut self,
        catalogue: &Catalogue,
        request: &Request,
        turn: &Turn<'_>,
    ) -> Result<(), AllocError>
        ensures { OnOk result
            ((before chosen : Set)
            → chosen ≡ before ++ chosen_by (turn_of (listed catalogue.now) turn.now)
            → IsListing catalogue.now request.now.lines self.old before before
            → IsWishOf (listed catalogue.now) request.now.lines chosen turn.now
            → TakesTurn catalogue.now request.now.lines chosen
            (turn_of (listed catalogue.now) turn.now) self.old self.new) }
    {
        match *turn {
            Turn::Chose { wish, chosen } => self.take_chosen(catalogue, request, wish, chosen)?,
            Turn::LeftOut { wish, step } => self.leave_out(wish, step)?,
        }
        Ok(())
    }
}

/// The answers of the turns of a search, in order: the entries, and the wishes that are left out.
pub fn list(
    alloc: Global,
    catalogue: &Catalogue,
    request: &Request,
    turns: &[Turn<'_>],
) -> Result<Vec<Answer>, AllocError>
    ensures order { IfOk result
        (λ answers.
        AreTurnsOf catalogue.now request.now.lines turns.now
        → AreTurns catalogue.now request.now.lines [] []
        (turns_of (listed catalogue.now) turns.now)
        (answers_of (listed catalogue.now) answers.items)) }
    ensures reasoned { IfOk result
        (λ answers.
        AreTurnsOf catalogue.now request.now.lines turns.now
        → IsReasoned catalogue.now request.now.lines []
        (answers_of (listed catalogue.now) answers.items)) }
    ensures reached { IfOk result
        (λ answers.
        AreTurnsOf catalogue.now request.now.lines turns.now
        → AreReached catalogue.now request.now.lines
        (chosen_in (turns_of (listed catalogue.now) turns.now))
        (wishes_in (turns_of (listed catalogue.now) turns.now))
        → (v : content.Version)
        → Contains (chosen_in (turns_of (listed catalogue.now) turns.now)) v ↔ Contains
        (entries_of (answers_of (listed catalogue.now) answers.items)) v) }
    ensures numbered { IfOk result
        (λ answers.
        AreTurnsOf catalogue.now request.now.lines turns.now
        → AreNumbered (listed catalogue.now) answers.items) }
{
    let mut listing = InstallOrder::new(alloc, catalogue, request)?;
    for turn in turns {
        listing.take_turn(catalogue, request, turn)?;
    }
    Ok(listing.answers)
}
