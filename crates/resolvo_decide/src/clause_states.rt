//! The state of each need clause, by its position in the queue. The model is the list of states.
//! Marks, a word of bits for each block, show which clauses may be open. The pick skips the others,
//! and the positions before the first that may be open. Bounds show how long a prefix of the trail
//! satisfies the clauses of a block. A backjump skips a block whose bound it keeps.
ghost use Rattle.std.specs.Prelude.{◌≡◌, ℕ, ◌<◌, ◌≤◌, ◌/◌, ◌++◌, ◌∷◌, ◌⊎◌, [], List, Bool, map, max, length, false, true, bit_and, slice_set, OnOk, OnErr, IsOkUnless};
ghost use Rattle.resolvo_pool_core.specs.declared.want.Want.TheVariants.{Memory};
ghost use Rattle.resolvo_decide.specs.declared.clause_states.ClauseState.TheVariants.{Open};
ghost use Rattle.std.specs.Int.{bit_at};
ghost use Rattle.resolvo_decide.specs.States.{state_at, is_open_state, reopened, AreClosed, AreClosedOrCold, AreApart, word_at, bit_of, mark_at, met_within, bound_at};

use resolvo_pool_core::want::R;
use std::alloc::Global;
use std::marker::Model;

/// The number of consecutive clauses whose marks are one word.
const BLOCK: usize = 64;

/// The number of consecutive clauses with one group mark, above their own marks.
const GROUP: usize = 4096;

/// The state of a need clause under the trail.
#[derive(Clone, Copy)]
pub enum ClauseState {
    /// It may have something to decide.
    Open,
    /// Satisfied: a candidate is true in the trail's prefix of this length.
    Satisfied(u32),
    /// Its parent is not true.
    Inactive,
}

impl ClauseState {
    /// Whether the clause may have something to decide.
    pub fn is_open(self) -> bool
        ensures { result ≡ is_open_state self }
    {
        match self {
            ClauseState::Open => true,
            _ => false,
        }
    }

    /// The length of the trail's prefix that satisfies the clause; 0 where none is known.
    fn within(self) -> u32
        ensures { result ≡ met_within self }
    {
        match self {
            ClauseState::Satisfied(within) => within,
            _ => 0,
        }
    }
}

/// The states of the need clauses.
#[derive(Drop)]
pub struct ClauseStates {
    /// The state of each clause.
    states: Vec<ClauseState>,
    /// For each block a word, with a bit for each clause: whether it may be open.
    marks: Vec<u64>,
    /// Whether a group of blocks may have an open clause.
    groups: Vec<bool>,
    /// For each block the length of a prefix that bounds those of its clauses. The highest number
    /// is no bound.
    bounds: Vec<u32>,
    /// No clause before this position is open.
    opening: usize,
}

impl Model for ClauseStates {
    ghost use Rattle.std.specs.Prelude.{List};
    ghost use Rattle.resolvo_decide.specs.declared.clause_states.ClauseState.{ClauseState};
    ghost use Rattle.resolvo_decide.specs.States.{AreMarked, AreGrouped, AreBounded, AreShut};

    ghost Value = { List ClauseState };

    ghost view = { λ s. s.states.items };

    ghost invariant = { λ s. AreMarked s.states.items s.marks.items
        × AreGrouped s.states.items s.groups.items × AreBounded s.states.items s.bounds.items
        × AreShut s.states.items s.opening };
}

impl ClauseStates {
    /// The states of no clause.
    pub fn new(alloc: Global) -> ClauseStates
        ensures { result ≡ [] }
    {
        ClauseStates {
            states: Vec::new(alloc),
            marks: Vec::new(alloc),
            groups: Vec::new(alloc),
            bounds: Vec::new(alloc),
            opening: 0,
        }
    }

    /// The number of clauses.
    pub fn len(&self) -> usize
        ensures { result ≡ length self.now }
    {
        self.states.len()
    }

    /// The state of the clause at this position; open past the end.
    pub fn state(&self, position: usize) -> ClauseState
        ensures { result ≡ state_at self.now position }
    {
        if position < self.states.len() {
            self.states[position]
        } else {
            ClauseState::Open
        }
    }

    /// The first position from this one on whose clause is open, or the number of clauses. A clause
    /// that isn't open is skipped until it opens.
    pub fn next_open(&mut self, from: usize) -> usize
        ensures behind { from ≤ result }
        ensures passed { AreClosed self.old from result }
        ensures open { is_open_state (state_at self.old result) ≡ true }
        ensures same { self.new ≡ self.old }
    {
        let position = self.open_from(from.max(self.opening));
        if from <= self.opening {
            self.opening = position;
        }
        position
    }

    /// The first position from this one on whose clause is open and may be warm, or at least the
    /// number of clauses.
    pub(crate) fn next_warm(&mut self, from: usize, warm: &[u64]) -> usize
        ensures behind { from ≤ result }
        ensures passed { AreClosedOrCold self.old warm.now from result }
        ensures same { self.new ≡ self.old }
    {
        let mut position = self.warm_from(from, warm);
        while !self.state(position).is_open() {
            clear_bit(&mut self.marks, position);
            position = self.warm_from(position + 1, warm);
        }
        position
    }

    /// The first position from this one on that is marked and may be warm, or at least the number of
    /// clauses.
    fn warm_from(&self, from: usize, warm: &[u64]) -> usize
        ensures behind { from ≤ result }
        ensures passed { AreClosedOrCold self.now warm.now from result }
    {
        if from < self.len() {
            first_warm(&self.marks, warm, from, self.len())
        } else {
            from
        }
    }

    /// The same, over the marks alone.
    fn open_from(&mut self, from: usize) -> usize
        ensures behind { from ≤ result }
        ensures passed { AreClosed self.old from result }
        ensures open { is_open_state (state_at self.old result) ≡ true }
        ensures same { self.new ≡ self.old }
    {
        if self.state(from).is_open() {
            return from;
        }
        let mut position = from;
        while !self.state(position).is_open() {
            let next = self.pass(position);
            self.close_group(from, position, next);
            position = next;
        }
        position
    }

    /// The first position after a closed one that may be open, or the end of its group.
    fn pass(&mut self, position: usize) -> usize
        requires within { position < length self.old }
        requires closed { is_open_state (state_at self.old position) ≡ false }
        // After each call.
        ensures behind { position < result }
        ensures within { result ≤ length self.old }
        ensures passed { AreClosed self.old position result }
        ensures same { self.new ≡ self.old }
    {
        let end = self.group_end(position);
        if !is_marked(&self.groups, position / GROUP) {
            return end;
        }
        clear_bit(&mut self.marks, position);
        first_marked(&self.marks, position + 1, end)
    }

    /// The end of the group of a position.
    fn group_end(&self, position: usize) -> usize
        requires { position < length self.now }
        ensures behind { position < result }
        ensures within { result ≤ length self.now }
        ensures group { (i : ℕ) → position ≤ i → i < result → i / GROUP ≡ position / GROUP }
        ensures whole { (i : ℕ) → i < length self.now → i / GROUP ≡ position / GROUP → i < result }
    {
        let start = position / GROUP * GROUP;
        start + GROUP.min(self.len() - start)
    }

    /// Clears the mark of a position's group, if all of it is between two positions without an open
    /// clause.
    fn close_group(&mut self, from: usize, position: usize, next: usize)
        requires within { position < length self.old }
        requires passed { AreClosed self.old from next }
        ensures { self.new ≡ self.old }
    {
        if from <= position / GROUP * GROUP && self.group_end(position) <= next {
            set_mark(&mut self.groups, position / GROUP, false);
        }
    }

    /// Sets the state of a position, unless it is past the end.
    pub fn put(&mut self, position: usize, state: ClauseState)
        ensures { self.new ≡ slice_set self.old position state }
    {
        if position < self.states.len() {
            self.states[position] = state;
            if state.is_open() {
                set_bit(&mut self.marks, position);
                set_mark(&mut self.groups, position / GROUP, true);
                self.opening = self.opening.min(position);
            }
            raise(&mut self.bounds, position / BLOCK, state.within());
        }
    }

    /// Appends an open clause.
    pub fn push(&mut self) -> R<()>
        ensures pushed { OnOk result (self.new ≡ self.old ++ Open ∷ []) }
        ensures err { OnErr result (self.new ≡ self.old) }
        ensures refusal { IsOkUnless result Memory }
    {
        let position = self.states.len();
        mark(&mut self.marks, position)?;
        mark_group(&mut self.groups, position / GROUP)?;
        make_bound(&mut self.bounds, position / BLOCK)?;
        self.states.push(ClauseState::Open)?;
        Ok(())
    }

    /// Opens the clauses that the trail's prefix of this length doesn't satisfy any more.
    pub fn reopen(&mut self, common: usize)
        ensures { self.new ≡ map (reopened common) self.old }
    {
        let mut position = 0;
        while position < self.len() {
            position = self.reopen_block(position, common);
        }
    }

    /// Opens those of a block, from this position on. Returns the end of the block.
    fn reopen_block(&mut self, start: usize, common: usize) -> usize
        requires { start < length self.old }
        // After each call.
        ensures behind { start < result }
        ensures changed { (i : ℕ)
            → start ≤ i
            → i < result
            → state_at self.new i ≡ reopened common (state_at self.old i) }
        ensures before { (i : ℕ) → i < start → state_at self.new i ≡ state_at self.old i }
        ensures after { (i : ℕ) → result ≤ i → state_at self.new i ≡ state_at self.old i }
        ensures len { length self.new ≡ length self.old }
    {
        let block = start / BLOCK;
        let first = block * BLOCK;
        let end = first + BLOCK.min(self.len() - first);
        if is_bounded(&self.bounds, block, common) {
            return end;
        }
        for position in start..end {
            self.reopen_at(position, common);
        }
        if start == first {
            self.lower_bound(block, common);
        }
        end
    }

    /// Opens the clause at a position, unless the trail's prefix of this length satisfies it.
    fn reopen_at(&mut self, position: usize, common: usize)
        ensures { self.new
            ≡ slice_set self.old position (reopened common (state_at self.old position)) }
    {
        if common < self.state(position).within() as usize {
            self.put(position, ClauseState::Open);
        }
    }

    /// Lowers the bound of a block to the prefix of this length.
    fn lower_bound(&mut self, block: usize, common: usize)
        requires { (i : ℕ)
            → i < length self.old
            → i / BLOCK ≡ block
            → met_within (state_at self.old i) ≤ common }
        ensures { self.new ≡ self.old }
    {
        lower(&mut self.bounds, block, common);
    }
}

/// The word of marks of a block. Past the end each clause is marked.
fn word_of(marks: &[u64], block: usize) -> u64
    ensures { result ≡ word_at marks.now block }
{
    if block < marks.len() {
        marks[block]
    } else {
        u64::MAX
    }
}

/// Marks that the clause at a position may be open.
fn set_bit(marks: &mut [u64], position: usize)
    ensures set { bit_of marks.new position ≡ 1 }
    ensures others { (i : ℕ) → bit_of marks.new i ≡ 0 → bit_of marks.old i ≡ 0 }
    ensures len { length marks.new ≡ length marks.old }
{
    let block = position / BLOCK;
    if block < marks.len() {
        marks[block] |= 1u64 << (position % BLOCK);
    }
}

/// Marks that the clause at a position isn't open.
fn clear_bit(marks: &mut [u64], position: usize)
    ensures others { (i : ℕ)
        → bit_of marks.new i ≡ 0
        → (bit_of marks.old i ≡ 0) ⊎ (i ≡ position) }
    ensures len { length marks.new ≡ length marks.old }
{
    let block = position / BLOCK;
    if block < marks.len() {
        marks[block] &= !(1u64 << (position % BLOCK));
    }
}

/// Unmarks the clause at a position, if it has a word.
pub(crate) fn unmark(marks: &mut Vec<u64>, position: usize)
    ensures { (i : ℕ)
        → bit_of marks.new.items i ≡ 0
        → (bit_of marks.old.items i ≡ 0) ⊎ (i ≡ position) }
{
    clear_bit(marks, position);
}

/// Marks that the clause at a position may be open, also where it is the next one.
fn mark(marks: &mut Vec<u64>, position: usize) -> R<()>
    ensures marked { OnOk result (bit_of marks.new.items position ≡ 1) }
    ensures kept { (i : ℕ) → bit_of marks.new.items i ≡ 0 → bit_of marks.old.items i ≡ 0 }
    ensures refusal { IsOkUnless result Memory }
{
    add_word(marks, position / BLOCK)?;
    set_bit(marks, position);
    Ok(())
}

/// Adds the word of a block, if it is the next one. Each of its clauses is marked.
fn add_word(marks: &mut Vec<u64>, block: usize) -> R<()>
    ensures kept { (i : ℕ) → bit_of marks.new.items i ≡ bit_of marks.old.items i }
    ensures refusal { IsOkUnless result Memory }
{
    if marks.len() <= block {
        marks.push(u64::MAX)?;
    }
    Ok(())
}

/// Adds words until each of so many clauses has a bit.
pub(crate) fn add_words(marks: &mut Vec<u64>, count: usize) -> R<()>
    ensures kept { (i : ℕ) → bit_of marks.new.items i ≡ bit_of marks.old.items i }
    ensures refusal { IsOkUnless result Memory }
{
    while marks.len() < count / BLOCK + 1 {
        marks.push(u64::MAX)?;
    }
    Ok(())
}

/// The first marked position in a range, or its end: each clause may be warm.
fn first_marked(marks: &[u64], from: usize, end: usize) -> usize
    requires { from ≤ end }
    ensures behind { from ≤ result }
    ensures within { result ≤ end }
    ensures passed { (i : ℕ) → from ≤ i → i < result → bit_of marks.now i ≡ 0 }
{
    first_warm(marks, &[], from, end)
}

/// The first position in a range that is marked and may be warm, or its end.
fn first_warm(marks: &[u64], warm: &[u64], from: usize, end: usize) -> usize
    requires { from ≤ end }
    ensures behind { from ≤ result }
    ensures within { result ≤ end }
    ensures passed { (i : ℕ)
        → from ≤ i
        → i < result
        → (bit_of marks.now i ≡ 0) ⊎ (bit_of warm.now i ≡ 0) }
{
    let block = from / BLOCK;
    let first = block * BLOCK;
    let place = first_bit(warm_word(marks, warm, block), from % BLOCK);
    let last = end / BLOCK;
    if place < BLOCK || last <= block {
        return first + place.min(end - first);
    }
    let found = first_warm_word(marks, warm, block + 1, last);
    let start = found * BLOCK;
    start + first_bit(warm_word(marks, warm, found), 0).min(end - start)
}

/// The word of the clauses of a block that are marked and may be warm.
fn warm_word(marks: &[u64], warm: &[u64], block: usize) -> u64
    ensures { result ≡ bit_and (word_at marks.now block) (word_at warm.now block) }
{
    word_of(marks, block) & word_of(warm, block)
}

/// The first block from this one on with a clause that is marked and may be warm, or the last one.
fn first_warm_word(marks: &[u64], warm: &[u64], from: usize, last: usize) -> usize
    requires { from ≤ last }
    ensures behind { from ≤ result }
    ensures within { result ≤ last }
    ensures passed { AreApart marks.now warm.now from result }
{
    let start = first_of_both(marks, warm, from, last);
    first_of_words(marks, warm, start, last)
}

/// The same as far as both lists have words, where they need no test of their length.
fn first_of_both(marks: &[u64], warm: &[u64], from: usize, last: usize) -> usize
    requires { from ≤ last }
    ensures behind { from ≤ result }
    ensures within { result ≤ last }
    ensures passed { AreApart marks.now warm.now from result }
{
    let both = last.min(marks.len()).min(warm.len());
    for block in from..both {
        if marks[block] & warm[block] != 0 {
            return block;
        }
    }
    both.max(from)
}

/// The same, word by word.
fn first_of_words(marks: &[u64], warm: &[u64], from: usize, last: usize) -> usize
    requires { from ≤ last }
    ensures behind { from ≤ result }
    ensures within { result ≤ last }
    ensures passed { AreApart marks.now warm.now from result }
{
    for block in from..last {
        if warm_word(marks, warm, block) != 0 {
            return block;
        }
    }
    last
}

/// The first place from this one on whose bit in a word is set, or the number of bits.
fn first_bit(word: u64, from: usize) -> usize
    requires { from < BLOCK }
    ensures behind { from ≤ result }
    ensures within { result ≤ BLOCK }
    ensures passed { (j : ℕ) → from ≤ j → j < result → bit_at word j ≡ 0 }
{
    let rest = word >> from;
    if rest == 0 {
        BLOCK
    } else {
        from + rest.trailing_zeros() as usize
    }
}

/// Whether a group may have an open clause.
fn is_marked(groups: &[bool], group: usize) -> bool
    ensures { result ≡ mark_at groups.now group }
{
    group >= groups.len() || groups[group]
}

/// Sets whether a group may have an open clause.
fn set_mark(groups: &mut [bool], group: usize, mark: bool)
    ensures { groups.new ≡ slice_set groups.old group mark }
{
    if group < groups.len() {
        groups[group] = mark;
    }
}

/// Marks that a group may have an open clause, also where it is the next one.
fn mark_group(groups: &mut Vec<bool>, group: usize) -> R<()>
    ensures marked { OnOk result (mark_at groups.new.items group ≡ true) }
    ensures kept { (k : ℕ)
        → mark_at groups.new.items k ≡ false
        → mark_at groups.old.items k ≡ false }
    ensures refusal { IsOkUnless result Memory }
{
    if groups.len() <= group {
        groups.push(true)?;
    }
    set_mark(groups, group, true);
    Ok(())
}

/// Adds the bound of a block, if it is the next one. It is no bound yet.
fn make_bound(bounds: &mut Vec<u32>, block: usize) -> R<()>
    ensures kept { (k : ℕ) → bound_at bounds.new.items k ≡ bound_at bounds.old.items k }
    ensures refusal { IsOkUnless result Memory }
{
    if bounds.len() <= block {
        bounds.push(u32::MAX)?;
    }
    Ok(())
}

/// Whether a block has a bound of at most this prefix.
fn is_bounded(bounds: &[u32], block: usize, common: usize) -> bool
    ensures bounded { result ≡ true → bound_at bounds.now block ≤ common }
    ensures known { result ≡ true → bound_at bounds.now block < 4294967295 }
{
    if block < bounds.len() {
        let bound = bounds[block];
        bound < u32::MAX && bound as usize <= common
    } else {
        false
    }
}

/// Raises the bound of a block to this prefix.
fn raise(bounds: &mut [u32], block: usize, within: u32)
    ensures { bounds.new ≡ slice_set bounds.old block (max (bound_at bounds.old block) within) }
{
    if block < bounds.len() {
        bounds[block] = bounds[block].max(within);
    }
}

/// Lowers the bound of a block to this prefix.
fn lower(bounds: &mut [u32], block: usize, common: usize)
    ensures { (bounds.new ≡ bounds.old) ⊎ (bounds.new ≡ slice_set bounds.old block common) }
{
    if block < bounds.len() {
        if let Ok(bound) = u32::try_from(common) {
            bounds[block] = bound;
        }
    }
}
