//! The clauses of earlier steps, and how often they were named and read.
//! `Clauses::last_read` alone gives a clause out, after `Clauses::read_clause` counted it as read.
//! A long clause is built as a later step names it. Until then its step is kept.

ghost use Rattle.std.specs.Prelude.{◌≡◌, ◌+◌, ◌^◌, ◌<◌, ◌≤◌, [], ◌∷◌, ◌++◌, List, OnOk, OnErr, length, Some, None, slice_get, slice_index_or};
ghost use Rattle.std.specs.List.{slice_range};
ghost use Rattle.std.specs.Option.{option_map, option_and_then, option_copied};
ghost use Rattle.resolvo_report.specs.Value.{Step as StepValue};
ghost use Rattle.resolvo_report.specs.View.{step_of};
ghost use Rattle.resolvo_checker.specs.declared.literal.Literal.{Literal as KeptLiteral};
ghost use Rattle.resolvo_checker.specs.declared.kept_clause.Kept.{Kept as CodeKept};
ghost use Rattle.resolvo_checker.specs.declared.kept_clause.Long.{Long as CodeLong};
ghost use Rattle.resolvo_checker.specs.Kept.{Ready, Deferred, literals_at, deferred_at, AreBuilt};
ghost use Rattle.resolvo_checker.specs.Pieces.{range_of, long_number, pieces, AreWithin, IsLongStep, IsLongReady};

use crate::kept_clause::{Kept, Long};
use crate::literal::Literal;
use resolvo_report::Step;
use std::alloc::{AllocError, Global};
use std::marker::Model;

/// The counts of clauses that were named and read.
#[derive(Clone, Copy, Debug, PartialEq, Eq)]
pub struct Readings {
    named: u64,
    read: u64,
}

/// A clause for each step, in one flat vector of literals. Equal steps share a range, or a long
/// clause that isn't built yet.
#[derive(Drop)]
pub struct Flat {
    literals: Vec<Literal>,
    longs: Vec<Long>,
    kept: Vec<Kept>,
}

impl Model for Flat {
    ghost use Rattle.std.specs.Prelude.{List};
    ghost use Rattle.resolvo_checker.specs.Kept.{Kept as KeptClause};
    ghost use Rattle.resolvo_checker.specs.Pieces.{pieces, AreWithin};

    ghost Value = { List KeptClause };

    ghost view = { λ c. pieces c.literals.items c.longs.items c.kept.items };

    ghost invariant = { λ c. AreWithin c.literals.items c.longs.items c.kept.items };
}

/// Where the literals of a long clause begin and end. A deferred one has none.
fn long_part(longs: &[Long], place: usize) -> (usize, usize)
    ensures { result ≡ range_of (slice_get longs.now place) }
{
    match longs.get(place) {
        Some(Long::Ready(start, end)) => (*start, *end),
        _ => (0, 0),
    }
}

/// Where the literals of the n-th clause begin and end, n from 0. A deferred one has none.
fn part(flat: &[Literal], longs: &[Long], kept: &[Kept], n: usize) -> (usize, usize)
    requires inside { AreWithin flat.now longs.now kept.now }
    requires within { n < length kept.now }
    ensures rising { result.0 ≤ result.1 }
    ensures inside { result.1 ≤ length flat.now }
    ensures literals { literals_at (pieces flat.now longs.now kept.now) n
        ≡ slice_range flat.now result.0 result.1 }
{
    match kept[n] {
        Kept::Ready(start, end) => (start, end),
        Kept::Long(place) => long_part(longs, place),
    }
}

/// The literals of the n-th clause, n from 0.
fn piece<'a>(flat: &'a [Literal], longs: &[Long], kept: &[Kept], n: usize) -> &'a [Literal]
    requires inside { AreWithin flat.now longs.now kept.now }
    requires within { n < length kept.now }
    ensures { result.now ≡ literals_at (pieces flat.now longs.now kept.now) n }
{
    let (start, end) = part(flat, longs, kept, n);
    &flat[start..end]
}

/// Which long clause the n-th one is, n from 0, if it is one.
fn long_of(kept: &[Kept], n: usize) -> Option<usize>
    ensures { result ≡ option_and_then long_number (slice_get kept.now n) }
{
    match kept.get(n) {
        Some(Kept::Long(place)) => Some(*place),
        _ => None,
    }
}

/// The n-th step, n from 0, if its clause is deferred.
fn step_at<'a>(longs: &'a [Long], kept: &[Kept], n: usize) -> Option<&'a Step>
    ensures { (flat : List KeptLiteral)
        → option_map step_of (option_copied result)
        ≡ deferred_at (pieces flat longs.now kept.now) n }
{
    let Some(Kept::Long(place)) = kept.get(n) else {
        return None;
    };
    match longs.get(*place) {
        Some(Long::Deferred(step)) => Some(step),
        _ => None,
    }
}

/// Adds a clause at the end.
fn push_piece(
    literals: &mut Vec<Literal>,
    kept: &mut Vec<Kept>,
    clause: &[Literal],
) -> Result<(), AllocError>
    ensures inside { (longs : List CodeLong)
        → AreWithin literals.old.items longs kept.old.items
        → AreWithin literals.new.items longs kept.new.items }
    ensures ok { OnOk result
        ((longs : List CodeLong)
        → AreWithin literals.old.items longs kept.old.items
        → pieces literals.new.items longs kept.new.items
        ≡ pieces literals.old.items longs kept.old.items ++ Ready clause.now
        ∷ []) }
    ensures err { OnErr result
        ((longs : List CodeLong)
        → pieces literals.new.items longs kept.new.items
        ≡ pieces literals.old.items longs kept.old.items) }
{
    let start = literals.len();
    literals.extend_from_slice(clause)?;
    let end = literals.len();
    match kept.push(Kept::Ready(start, end)) {
        Ok(()) => Ok(()),
        Err(_) => {
            literals.truncate(start);
            Err(AllocError)
        }
    }
}

/// Adds a long clause at the end, without its literals.
fn push_long(longs: &mut Vec<Long>, kept: &mut Vec<Kept>, step: Step) -> Result<(), AllocError>
    ensures inside { (flat : List KeptLiteral)
        → AreWithin flat longs.old.items kept.old.items
        → AreWithin flat longs.new.items kept.new.items }
    ensures ok { OnOk result
        ((flat : List KeptLiteral)
        → AreWithin flat longs.old.items kept.old.items
        → pieces flat longs.new.items kept.new.items
        ≡ pieces flat longs.old.items kept.old.items ++ Deferred (step_of step)
        ∷ []) }
{
    let place = longs.len();
    longs.push(Long::Deferred(step))?;
    kept.push(Kept::Long(place))?;
    Ok(())
}

/// Adds the n-th clause again, n from 0, without its literals.
fn repeat_piece(kept: &mut Vec<Kept>, n: usize) -> Result<(), AllocError>
    requires within { n < length kept.old.items }
    ensures inside { (flat : List KeptLiteral) (longs : List CodeLong)
        → AreWithin flat longs kept.old.items
        → AreWithin flat longs kept.new.items }
    ensures ok { OnOk result
        ((flat : List KeptLiteral) (longs : List CodeLong)
        → pieces flat longs kept.new.items
        ≡ pieces flat longs kept.old.items
        ++ slice_index_or (pieces flat longs kept.old.items) n (Ready [])
        ∷ []) }
    ensures err { OnErr result (kept.new.items ≡ kept.old.items) }
{
    let again = kept[n];
    kept.push(again)?;
    Ok(())
}

/// Gives a long clause its literals.
fn build_long(
    literals: &mut Vec<Literal>,
    longs: &mut Vec<Long>,
    place: usize,
    clause: &[Literal],
) -> Result<(), AllocError>
    requires within { place < length longs.old.items }
    ensures inside { (kept : List CodeKept)
        → AreWithin literals.old.items longs.old.items kept
        → AreWithin literals.new.items longs.new.items kept }
    ensures built { OnOk result
        ((kept : List CodeKept) (s : StepValue)
        → AreWithin literals.old.items longs.old.items kept
        → IsLongStep longs.old.items place s
        → AreBuilt s clause.now (pieces literals.old.items longs.old.items kept)
        (pieces literals.new.items longs.new.items kept)) }
    ensures ready { OnOk result (IsLongReady longs.new.items place) }
{
    let start = literals.len();
    literals.extend_from_slice(clause)?;
    longs[place] = Long::Ready(start, literals.len());
    Ok(())
}

impl Flat {
    fn new(alloc: Global) -> Self
        ensures { result ≡ [] }
    {
        Flat {
            literals: Vec::new(alloc),
            longs: Vec::new(alloc),
            kept: Vec::new(alloc),
        }
    }

    fn len(&self) -> usize
        ensures { result ≡ length self.now }
    {
        self.kept.len()
    }

    fn push(&mut self, clause: &[Literal]) -> Result<(), AllocError>
        ensures ok { OnOk result (self.new ≡ self.old ++ Ready clause.now ∷ []) }
        ensures err { OnErr result (self.new ≡ self.old) }
    {
        push_piece(&mut self.literals, &mut self.kept, clause)
    }

    /// Adds a clause that isn't built yet.
    fn defer(&mut self, step: Step) -> Result<(), AllocError>
        ensures { OnOk result (self.new ≡ self.old ++ Deferred (step_of step) ∷ []) }
    {
        push_long(&mut self.longs, &mut self.kept, step)
    }

    /// Adds the n-th clause again, n from 0.
    fn repeat(&mut self, n: usize) -> Result<(), AllocError>
        requires within { n < length self.old }
        ensures ok { OnOk result
            (self.new ≡ self.old ++ slice_index_or self.old n (Ready []) ∷ []) }
        ensures err { OnErr result (self.new ≡ self.old) }
    {
        repeat_piece(&mut self.kept, n)
    }

    /// The n-th step, n from 0, if its clause is deferred.
    fn deferred(&self, n: usize) -> Option<&Step>
        ensures { option_map step_of (option_copied result) ≡ deferred_at self.now n }
    {
        step_at(&self.longs, &self.kept, n)
    }

    /// Builds the n-th clause, n from 0, if it is deferred.
    fn build(&mut self, n: usize, clause: &[Literal]) -> Result<(), AllocError>
        ensures built { OnOk result
            ((s : StepValue) → deferred_at self.old n ≡ Some s
            → AreBuilt s clause.now self.old self.new) }
        ensures ready { OnOk result (deferred_at self.new n ≡ None) }
    {
        match long_of(&self.kept, n) {
            Some(place) => build_long(&mut self.literals, &mut self.longs, place, clause),
            None => Ok(()),
        }
    }

    /// The literals of the n-th clause, n from 0. A deferred one has none.
    fn at(&self, n: usize) -> &[Literal]
        requires within { n < length self.now }
        ensures { result.now ≡ literals_at self.now n }
    {
        piece(&self.literals, &self.longs, &self.kept, n)
    }
}

/// The clauses of the steps so far, and how many of them were named and read.
#[derive(Drop)]
pub struct Clauses {
    kept: Flat,
    readings: Readings,
    /// The step, from 0, whose clause was read last.
    last: usize,
}

impl Clauses {
    pub fn new(alloc: Global) -> Self
        ensures kept { result.kept ≡ [] }
        ensures named { result.readings.named ≡ 0 }
        ensures read { result.readings.read ≡ 0 }
    {
        Clauses {
            kept: Flat::new(alloc),
            readings: Readings { named: 0, read: 0 },
            last: 0,
        }
    }

    /// How many clauses there are.
    pub fn len(&self) -> usize
        ensures { result ≡ length self.now.kept }
    {
        self.kept.len()
    }

    /// Adds the clause of the next step.
    pub fn push(&mut self, clause: &[Literal]) -> Result<(), AllocError>
        ensures ok { OnOk result (self.new.kept ≡ self.old.kept ++ Ready clause.now ∷ []) }
        ensures err { OnErr result (self.new.kept ≡ self.old.kept) }
        ensures readings { self.new.readings ≡ self.old.readings }
    {
        self.kept.push(clause)
    }

    /// Adds the next step in place of its clause, until a later step names it.
    pub fn defer(&mut self, step: Step) -> Result<(), AllocError>
        ensures ok { OnOk result (self.new.kept ≡ self.old.kept ++ Deferred (step_of step) ∷ []) }
        ensures readings { self.new.readings ≡ self.old.readings }
    {
        self.kept.defer(step)
    }

    /// Adds the clause of an earlier step, from 0, as that of the next one.
    pub fn repeat(&mut self, step: usize) -> Result<(), AllocError>
        requires within { step < length self.old.kept }
        ensures ok { OnOk result
            (self.new.kept ≡ self.old.kept ++ slice_index_or self.old.kept step (Ready []) ∷ []) }
        ensures err { OnErr result (self.new.kept ≡ self.old.kept) }
        ensures readings { self.new.readings ≡ self.old.readings }
    {
        self.kept.repeat(step)
    }

    /// The step of this place, from 0, if its clause isn't built yet.
    pub fn deferred(&self, step: usize) -> Option<&Step>
        ensures { option_map step_of (option_copied result) ≡ deferred_at self.now.kept step }
    {
        self.kept.deferred(step)
    }

    /// Builds the clause of a deferred step, from 0, and of each step that is the same.
    pub fn build(&mut self, step: usize, clause: &[Literal]) -> Result<(), AllocError>
        ensures built { OnOk result
            ((s : StepValue)
            → deferred_at self.old.kept step ≡ Some s
            → AreBuilt s clause.now self.old.kept self.new.kept) }
        ensures ready { OnOk result (deferred_at self.new.kept step ≡ None) }
        ensures readings { self.new.readings ≡ self.old.readings }
    {
        self.kept.build(step, clause)
    }

    /// Reads the clause of a step, from 0, and counts it as read.
    pub(crate) fn read_clause(&mut self, step: usize)
        requires { self.old.readings.read + 1 < 2 ^ 64 }
        ensures last { self.new.last ≡ step }
        ensures kept { self.new.kept ≡ self.old.kept }
        ensures read { self.new.readings
            ≡ record self.old.readings { read = self.old.readings.read + 1 } }
    {
        self.readings.read += 1;
        self.last = step;
    }

    /// The clause that was read last, without literals if it isn't built.
    pub(crate) fn last_read(&self) -> &[Literal]
        ensures { result.now ≡ literals_at self.now.kept self.now.last }
    {
        if self.last < self.kept.len() {
            self.kept.at(self.last)
        } else {
            &[]
        }
    }

    /// Counts so many clauses as named.
    pub fn name(&mut self, count: u64)
        requires { self.old.readings.named + count < 2 ^ 64 }
        ensures kept { self.new.kept ≡ self.old.kept }
        ensures named { self.new.readings
            ≡ record self.old.readings { named = self.old.readings.named + count } }
    {
        self.readings.named += count;
    }

    /// How many clauses were named and read so far.
    pub fn readings(&self) -> Readings
        ensures { result ≡ self.now.readings }
    {
        self.readings
    }
}

impl Readings {
    /// How many clauses were named.
    pub fn named(&self) -> u64
        ensures { result ≡ self.now.named }
    {
        self.named
    }

    /// How many clauses were read.
    pub fn read(&self) -> u64
        ensures { result ≡ self.now.read }
    {
        self.read
    }
}
