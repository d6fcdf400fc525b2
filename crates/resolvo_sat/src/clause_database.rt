//! The clause database. Where a rule of many literals has those of an earlier one, but for the
//! first, it shares them: the arena has its first literal alone. So rules of the same candidates
//! take memory for these once. The model is the list of the clauses, with all their literals.
ghost use Rattle.std.specs.Prelude.{◌≡◌, ◌<◌, [], ◌∷◌, ◌++◌, true, drop, take, IfOk, IfSome, OnOk, OnErr, IsErrOf, length};
ghost use Rattle.resolvo_pool_core.specs.declared.want.Want.TheVariants.{Ids};
ghost use Rattle.resolvo_sat.specs.Clauses.{sat_clause, causes_at};
ghost use Rattle.resolvo_sat.specs.Known.{clause_at};
ghost use Rattle.resolvo_sat.specs.State.{lists};
ghost use Rattle.resolvo_sat.specs.Shared.{AreShared, IsSourceOf, shared_of};

use crate::clause_arena::{ClauseArena, place_of};
use resolvo_pool_core::id::{ClauseId, DenseIndex};
use resolvo_pool_core::want::R;
use resolvo_store_core::literal::Literal;
use std::alloc::{AllocError, Global};
use std::marker::Model;

/// Clauses with fewer literals share none.
const FEWEST: usize = 8;

/// How many places the hints have.
const HINTS: usize = 1024;

/// All clauses: one literal of each is true.
#[derive(Drop)]
pub struct ClauseDatabase {
    /// What each clause has of its own: all its literals, or the first one.
    own: ClauseArena,
    /// The numbers of the clauses that share literals.
    sharing: Vec<u32>,
    /// The clauses with which these share them.
    sources: Vec<u32>,
    /// Clauses of many literals that share none, by a digest of their literals. No proof rests on
    /// these: a clause that is missed is stored with all its literals.
    hints: Vec<u32>,
}

impl Model for ClauseDatabase {
    ghost use Rattle.std.specs.Prelude.{List};
    ghost use Rattle.resolvo_sat.specs.Clauses.{SatClause};
    ghost use Rattle.resolvo_sat.specs.Shared.{AreShared, clauses_with};

    ghost Value = { List SatClause };

    ghost view = { λ c. clauses_with c.own c.sharing.items c.sources.items };

    ghost invariant = { λ c. AreShared c.own c.sharing.items c.sources.items };
}

impl ClauseDatabase {
    /// No clauses.
    pub fn new(alloc: Global) -> ClauseDatabase
        ensures { result ≡ [] }
    {
        ClauseDatabase {
            own: ClauseArena::new(alloc),
            sharing: Vec::new(alloc),
            sources: Vec::new(alloc),
            hints: Vec::new(alloc),
        }
    }

    /// How many clauses there are.
    pub fn len(&self) -> usize
        ensures { result ≡ length self.now }
    {
        self.own.len()
    }

    /// Adds a clause under a new number.
    pub fn push(&mut self, literals: &[Literal], causes: &[ClauseId]) -> R<ClauseId>
        ensures id { IfOk result (λ id. id.0 ≡ length self.old) }
        ensures put { OnOk result (self.new ≡ self.old ++ sat_clause literals.now causes.now ∷ []) }
        ensures err { OnErr result (self.new ≡ self.old) }
        ensures ids { IsErrOf result Ids → length self.old ≡ 4294967295 }
    {
        if literals.len() < FEWEST || !causes.is_empty() {
            return self.push_whole(literals, causes);
        }
        self.push_long(literals)
    }

    /// Adds a clause with all its literals under a new number.
    fn push_whole(&mut self, literals: &[Literal], causes: &[ClauseId]) -> R<ClauseId>
        ensures id { IfOk result (λ id. id.0 ≡ length self.old) }
        ensures put { OnOk result (self.new ≡ self.old ++ sat_clause literals.now causes.now ∷ []) }
        ensures err { OnErr result (self.new ≡ self.old) }
        ensures ids { IsErrOf result Ids → length self.old ≡ 4294967295 }
    {
        let clause = self.own.push(literals, causes)?;
        Ok(clause)
    }

    /// Adds a rule of many literals under a new number.
    fn push_long(&mut self, literals: &[Literal]) -> R<ClauseId>
        requires some { 0 < length literals.now }
        ensures id { IfOk result (λ id. id.0 ≡ length self.old) }
        ensures put { OnOk result (self.new ≡ self.old ++ sat_clause literals.now [] ∷ []) }
        ensures err { OnErr result (self.new ≡ self.old) }
        ensures ids { IsErrOf result Ids → length self.old ≡ 4294967295 }
    {
        let place = hint_place(literals);
        if let Some(source) = source_of(&self.own, &self.hints, place, literals) {
            let shared = append_sharing(
                &mut self.own,
                &mut self.sharing,
                &mut self.sources,
                literals,
                source,
            )?;
            return Ok(shared);
        }
        make_room(&mut self.hints)?;
        let clause = self.own.push(literals, &[])?;
        note_hint(&mut self.hints, place, clause);
        Ok(clause)
    }

    /// Adds a rule of two literals under a new number.
    #[inline(always)]
    pub fn push_pair(&mut self, first: Literal, second: Literal) -> R<ClauseId>
        ensures id { IfOk result (λ id. id.0 ≡ length self.old) }
        ensures put { OnOk result (self.new
            ≡ self.old ++ sat_clause (first ∷ second ∷ []) [] ∷ []) }
        ensures err { OnErr result (self.new ≡ self.old) }
        ensures ids { IsErrOf result Ids → length self.old ≡ 4294967295 }
    {
        let clause = self.own.push_pair(first, second)?;
        Ok(clause)
    }

    /// The literals of the clause of a number: its own ones, and then those that it shares.
    #[inline(always)]
    pub fn literals(&self, number: usize) -> (&[Literal], &[Literal])
        requires { number < length self.now }
        ensures { result.0.now ++ result.1.now ≡ clause_at (lists self.now) number }
    {
        let own = self.own.literals(number);
        let count = own.len();
        if count == 1 {
            let more = shared(&self.own, &self.sharing, &self.sources, number);
            return (own, more);
        }
        (own, &[])
    }

    /// The causes of the clause of a number.
    pub fn causes(&self, number: usize) -> &[ClauseId]
        requires { number < length self.now }
        ensures { result.now ≡ causes_at self.now number }
    {
        self.own.causes(number)
    }
}

/// The literals that a clause shares with another one.
fn shared<'a>(
    own: &'a ClauseArena,
    sharing: &[u32],
    sources: &[u32],
    number: usize,
) -> &'a [Literal]
    requires in_range { number < length own.now }
    requires shared { AreShared own.now sharing.now sources.now }
    ensures { result.now ≡ shared_of own.now sharing.now sources.now number }
{
    // There are fewer than 2^32 clauses.
    let _count = own.len();
    let clause = number as u32;
    match place_of(sharing, clause) {
        Some(place) => {
            let source = sources[place];
            let whole = own.literals(source as usize);
            behind_first(whole)
        }
        None => &[],
    }
}

/// The literals but the first.
fn behind_first(literals: &[Literal]) -> &[Literal]
    ensures { result.now ≡ drop 1 literals.now }
{
    if literals.is_empty() {
        return literals;
    }
    &literals[1..]
}

/// Where a clause is looked for among the hints.
fn hint_place(literals: &[Literal]) -> usize {
    let (Some(second), Some(last)) = (literals.get(1), literals.last()) else {
        return 0;
    };
    let mixed = literals
        .len()
        .wrapping_mul(31)
        .wrapping_add(second.to_index())
        .wrapping_mul(31)
        .wrapping_add(last.to_index());
    mixed % HINTS
}

/// The clause with which a new one can share its literals but the first.
fn source_of(own: &ClauseArena, hints: &[u32], place: usize, literals: &[Literal]) -> Option<u32>
    ensures { IfSome result (λ source. IsSourceOf own.now literals.now source) }
{
    let source = *hints.get(place)?;
    let number = source as usize;
    if number >= own.len() {
        return None;
    }
    if are_alike(own.literals(number), literals) {
        Some(source)
    } else {
        None
    }
}

/// Whether two clauses have the same literals but the first.
fn are_alike(earlier: &[Literal], literals: &[Literal]) -> bool
    ensures { result ≡ true → drop 1 earlier.now ≡ drop 1 literals.now }
{
    behind_first(earlier) == behind_first(literals)
}

/// Appends a clause that shares its literals but the first with another one; or nothing.
fn append_sharing(
    own: &mut ClauseArena,
    sharing: &mut Vec<u32>,
    sources: &mut Vec<u32>,
    literals: &[Literal],
    source: u32,
) -> R<ClauseId>
    requires { 0 < length literals.now }
    // After an answer.
    ensures id { IfOk result (λ id. id.0 ≡ length own.old) }
    ensures own { OnOk result (own.new ≡ own.old ++ sat_clause (take 1 literals.now) [] ∷ []) }
    ensures sharing { OnOk result
        (sharing.new.items ≡ sharing.old.items ++ length own.old ∷ []) }
    ensures sources { OnOk result (sources.new.items ≡ sources.old.items ++ source ∷ []) }
    // After a refusal.
    ensures err_own { OnErr result (own.new ≡ own.old) }
    ensures err_sharing { OnErr result (sharing.new.items ≡ sharing.old.items) }
    ensures err_sources { OnErr result (sources.new.items ≡ sources.old.items) }
    ensures ids { IsErrOf result Ids → length own.old ≡ 4294967295 }
{
    sharing.reserve(1)?;
    sources.reserve(1)?;
    let clause = own.push(&literals[..1], &[])?;
    sharing.push(clause.0).unwrap();
    sources.push(source).unwrap();
    Ok(clause)
}

/// Makes the places for hints.
fn make_room(hints: &mut Vec<u32>) -> Result<(), AllocError> {
    if hints.is_empty() {
        hints.resize(HINTS, 0)?;
    }
    Ok(())
}

/// Notes a clause as a hint.
fn note_hint(hints: &mut [u32], place: usize, clause: ClauseId) {
    if place < hints.len() {
        hints[place] = clause.0;
    }
}
