//! The kind of each clause, by the clause's number. The model is the list of kinds, and the needs
//! that some of them name. The digits of a place share an entry.
ghost use Rattle.std.specs.Prelude.{◌≡◌, ◌+◌, ◌-◌, ◌<◌, ◌≤◌, [], ◌∷◌, ◌++◌, Some, length, slice_get, slice_index_or, IfOk, OnOk, OnErr};
ghost use Rattle.resolvo_state.specs.StoredKinds.{bit_after, kind_after, kind_in, plain_kind, digit_kinds, begin_at, IsPlain, IsWithin};
ghost use Rattle.resolvo_state.specs.Kinds.{Needs};

use crate::clause_kind::{ClauseKind, Need};
use std::alloc::{AllocError, Global};
use std::marker::Model;

/// The kinds of clauses, in the order of the clauses' numbers.
#[derive(Drop)]
pub struct ClauseKinds<N, S> {
    /// Where the clauses of each entry end. They begin where those of the entry before it end.
    ends: Vec<u32>,
    /// Kinds, each that of the first clause of an entry. A later clause has a higher bit.
    entries: Vec<ClauseKind<N, S>>,
    needs: Vec<Need<S>>,
}

impl<N, S> Model for ClauseKinds<N, S> {
    ghost use Rattle.std.specs.Prelude.{length};
    ghost use Rattle.resolvo_state.specs.StoredKinds.{KindList, kinds_in, AreStored};

    ghost Value = { KindList N S };

    ghost view = { λ k.
        record {
          items = kinds_in k.needs.items k.entries.items k.ends.items;
          needs = k.needs.items;
        } };

    ghost invariant = { λ k. AreStored (length k.needs.items) k.entries.items k.ends.items };
}

impl<N: Copy, S: Copy> ClauseKinds<N, S> {
    /// No kinds.
    pub fn new(alloc: Global) -> ClauseKinds<N, S>
        ensures items { result.items ≡ [] }
    {
        ClauseKinds {
            ends: Vec::new(alloc),
            entries: Vec::new(alloc),
            needs: Vec::new(alloc),
        }
    }

    /// How many kinds there are.
    pub fn len(&self) -> usize
        ensures { result ≡ length self.now.items }
    {
        begin_of(self.ends.as_slice(), self.ends.len()) as usize
    }

    /// Adds the kind of the next clause, which names no need.
    pub fn push(&mut self, kind: ClauseKind<N, S>) -> Result<(), AllocError>
        requires { IsPlain kind }
        ensures items { OnOk result (self.new.items ≡ self.old.items ++ plain_kind kind ∷ []) }
    {
        push_entry(&mut self.ends, &mut self.entries, kind, 1)?;
        Ok(())
    }

    /// Adds the kind of the next clause, which encodes a need under a condition.
    pub fn push_need(&mut self, need: Need<S>) -> Result<(), AllocError>
        ensures items { OnOk result (self.new.items
            ≡ self.old.items ++ Needs need.parent need.need need.case ∷ []) }
    {
        let index = index_after(self.needs.len())?;
        self.needs.push(need)?;
        let entry = ClauseKind::RequiresIf { need: index };
        push_entry(&mut self.ends, &mut self.entries, entry, 1)?;
        Ok(())
    }

    /// Adds the kinds of the next clauses, which encode so many digits of a place, from the lowest on.
    /// They share an entry.
    pub fn push_digits(
        &mut self,
        name: N,
        solvable: S,
        place: u32,
        count: usize,
    ) -> Result<(), AllocError>
        requires { count ≤ 4294967296 }
        ensures items { OnOk result (self.new.items
            ≡ self.old.items ++ digit_kinds name solvable place 0 count) }
    {
        let entry = ClauseKind::ForbidMultipleInstances {
            name,
            solvable,
            place,
            bit: 0,
        };
        push_entry(&mut self.ends, &mut self.entries, entry, count)?;
        Ok(())
    }

    /// The kind of a clause.
    pub fn get(&self, number: usize) -> ClauseKind<N, S>
        requires { number < length self.now.items }
        ensures kind { slice_get self.now.items number ≡ Some (kind_in self.now.needs result) }
        ensures within { IsWithin (length self.now.needs) result }
    {
        let ends = self.ends.as_slice();
        let place = entry_of(ends, number);
        let begin = begin_of(ends, place) as usize;
        later_kind(self.entries[place], number - begin)
    }

    /// A need that a kind names, by its index.
    pub fn need(&self, index: u32) -> &Need<S>
        requires { index < length self.now.needs }
        ensures { slice_get self.now.needs index ≡ Some result.now }
    {
        &self.needs[index as usize]
    }
}

/// Adds an entry for so many clauses.
fn push_entry<N: Copy, S: Copy>(
    ends: &mut Vec<u32>,
    entries: &mut Vec<ClauseKind<N, S>>,
    entry: ClauseKind<N, S>,
    count: usize,
) -> Result<(), AllocError>
    requires { count ≤ 4294967296 }
    ensures entries { OnOk result (entries.new.items ≡ entries.old.items ++ entry ∷ []) }
    ensures ends { OnOk result (ends.new.items
        ≡ ends.old.items ++ (begin_at ends.old.items (length ends.old.items) + count) ∷ []) }
    ensures err_entries { OnErr result (entries.new.items ≡ entries.old.items) }
    ensures err_ends { OnErr result (ends.new.items ≡ ends.old.items) }
{
    let end = index_after(begin_of(ends, ends.len()) as usize + count)?;
    ends.push(end)?;
    match entries.push(entry) {
        Ok(()) => Ok(()),
        Err(error) => {
            ends.pop();
            Err(error.into())
        }
    }
}

/// Where the clauses of an entry begin, by the ends.
fn begin_of(ends: &[u32], place: usize) -> u32
    requires { place ≤ length ends.now }
    ensures { result ≡ begin_at ends.now place }
{
    if place == 0 { 0 } else { ends[place - 1] }
}

/// The entry of a clause, by a binary search.
fn entry_of(ends: &[u32], number: usize) -> usize
    requires some { 0 < length ends.now }
    requires last { number < slice_index_or ends.now (length ends.now - 1) 0 }
    ensures within { result < length ends.now }
    ensures above { begin_at ends.now result ≤ number }
    ensures below { number < slice_index_or ends.now result 0 }
{
    let mut low = 0;
    let mut high = ends.len() - 1;
    while low < high {
        let middle = low + (high - low) / 2;
        if ends[middle] as usize <= number {
            low = middle + 1;
        } else {
            high = middle;
        }
    }
    low
}

/// The kind of a clause that is so many after the first one of this entry.
fn later_kind<N: Copy, S: Copy>(entry: ClauseKind<N, S>, after: usize) -> ClauseKind<N, S>
    ensures { result ≡ kind_after after entry }
{
    match entry {
        ClauseKind::ForbidMultipleInstances {
            name,
            solvable,
            place,
            bit,
        } => ClauseKind::ForbidMultipleInstances {
            name,
            solvable,
            place,
            bit: later_bit(bit, after),
        },
        other => other,
    }
}

/// The bit of a clause that is so many after one with this bit.
fn later_bit(bit: u32, after: usize) -> u32
    ensures { result ≡ bit_after after bit }
{
    if after == 0 {
        bit
    } else {
        bit.wrapping_add((after % 4_294_967_296) as u32)
    }
}

/// The index after so many.
fn index_after(count: usize) -> Result<u32, AllocError>
    ensures { IfOk result (λ index. index ≡ count) }
{
    match u32::try_from(count) {
        Ok(index) => Ok(index),
        Err(_) => Err(AllocError),
    }
}
