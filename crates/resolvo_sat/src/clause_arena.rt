//! The clauses of the solver. Their literals lie one after the other in one list, and so do their
//! causes. The model is the list of clauses, in which a clause's position is its number.
ghost use Rattle.std.specs.Prelude.{◌≡◌, ◌<◌, ◌≤◌, ◌-◌, [], ◌∷◌, ◌++◌, if◌then◌else◌, ℕ, is_ok, take, IfOk, OnOk, OnErr, IsErrOf, IsOkUnless, length, slice_index_or};
ghost use Rattle.resolvo_pool_core.specs.declared.want.Want.TheVariants.{Ids, Memory};
ghost use Rattle.resolvo_sat.specs.Clauses.{sat_clause, causes_at, AreNumbered, IsPlaceOf};
ghost use Rattle.resolvo_sat.specs.Known.{clause_at};
ghost use Rattle.resolvo_sat.specs.State.{lists};

use resolvo_pool_core::id::{ClauseId, next_index};
use resolvo_pool_core::want::{R, Want};
use resolvo_store_core::literal::Literal;
use std::alloc::{AllocError, Global};
use std::marker::Model;

/// Clauses: one literal of each is true. A rule has no causes (antecedents); a learnt clause has those
/// from which it follows, in the order of a RUP check. What is of a clause begins where that of the
/// one before it ends, and the last ends where the list does.
#[derive(Drop)]
pub struct ClauseArena {
    literals: Vec<Literal>,
    /// Where the literals of each clause end.
    ends: Vec<u32>,
    causes: Vec<ClauseId>,
    /// The numbers of the clauses that have causes.
    caused: Vec<u32>,
    /// Where the causes of each of these end.
    cause_ends: Vec<u32>,
}

impl Model for ClauseArena {
    ghost use Rattle.std.specs.Prelude.{List, length};
    ghost use Rattle.resolvo_sat.specs.Clauses.{SatClause, clauses_in, AreEnds};

    ghost Value = { List SatClause };

    ghost view = { λ c. clauses_in c.literals.items c.ends.items c.causes.items c.caused.items c.cause_ends.items };

    ghost invariant = { λ c. AreEnds (length c.literals.items) c.ends.items (length c.causes.items) c.caused.items c.cause_ends.items };
}

impl ClauseArena {
    /// No clauses.
    pub fn new(alloc: Global) -> ClauseArena
        ensures { result ≡ [] }
    {
        ClauseArena {
            literals: Vec::new(alloc),
            ends: Vec::new(alloc),
            causes: Vec::new(alloc),
            caused: Vec::new(alloc),
            cause_ends: Vec::new(alloc),
        }
    }

    /// How many clauses there are.
    pub fn len(&self) -> usize
        ensures count { result ≡ length self.now }
        ensures few { result ≤ 4294967295 }
    {
        self.ends.len()
    }

    /// Adds a clause under a new number.
    pub fn push(&mut self, literals: &[Literal], causes: &[ClauseId]) -> R<ClauseId>
        ensures id { IfOk result (λ id. id.0 ≡ length self.old) }
        ensures put { OnOk result (self.new ≡ self.old ++ sat_clause literals.now causes.now ∷ []) }
        ensures err { OnErr result (self.new ≡ self.old) }
        ensures ids { IsErrOf result Ids → length self.old ≡ 4294967295 }
    {
        if causes.is_empty() {
            return self.push_rule(literals);
        }
        let number = next_index(self.ends.len())?;
        append_caused(
            &mut self.literals,
            &mut self.ends,
            &mut self.causes,
            &mut self.caused,
            &mut self.cause_ends,
            literals,
            causes,
        )?;
        Ok(ClauseId(number as u32))
    }

    /// Adds a rule under a new number.
    fn push_rule(&mut self, literals: &[Literal]) -> R<ClauseId>
        ensures id { IfOk result (λ id. id.0 ≡ length self.old) }
        ensures put { OnOk result (self.new ≡ self.old ++ sat_clause literals.now [] ∷ []) }
        ensures err { OnErr result (self.new ≡ self.old) }
        ensures ids { IsErrOf result Ids → length self.old ≡ 4294967295 }
    {
        let number = next_index(self.ends.len())?;
        append(&mut self.literals, &mut self.ends, literals)?;
        Ok(ClauseId(number as u32))
    }

    /// Adds a rule of two literals under a new number.
    #[inline(always)]
    pub fn push_pair(&mut self, first: Literal, second: Literal) -> R<ClauseId>
        ensures id { IfOk result (λ id. id.0 ≡ length self.old) }
        ensures put { OnOk result (self.new
            ≡ self.old ++ sat_clause (first ∷ second ∷ []) [] ∷ []) }
        ensures err { OnErr result (self.new ≡ self.old) }
        ensures ids { IsErrOf result Ids → length self.old ≡ 4294967295 }
    {
        let number = next_index(self.ends.len())?;
        append_pair(&mut self.literals, &mut self.ends, first, second)?;
        Ok(ClauseId(number as u32))
    }

    /// The literals of the clause of a number.
    pub fn literals(&self, number: usize) -> &[Literal]
        requires { number < length self.now }
        ensures { result.now ≡ clause_at (lists self.now) number }
    {
        let begin = begin_of(&self.ends, number);
        let end = self.ends[number];
        &self.literals[begin as usize..end as usize]
    }

    /// The causes of the clause of a number.
    pub fn causes(&self, number: usize) -> &[ClauseId]
        requires { number < length self.now }
        ensures { result.now ≡ causes_at self.now number }
    {
        // There are fewer than 2^32 clauses.
        let _count = self.ends.len();
        let clause = number as u32;
        match place_of(&self.caused, clause) {
            Some(place) => {
                let begin = begin_of(&self.cause_ends, place);
                let end = self.cause_ends[place];
                &self.causes[begin as usize..end as usize]
            }
            None => &[],
        }
    }
}

/// The place of a clause among those that have causes.
pub(crate) fn place_of(caused: &[u32], clause: u32) -> Option<usize>
    requires { (count : ℕ) × AreNumbered count 0 caused.now }
    ensures { IsPlaceOf caused.now clause result }
{
    match caused.binary_search(&clause) {
        Ok(place) => Some(place),
        Err(_) => None,
    }
}

/// Where what is of a clause begins, by the ends.
fn begin_of(ends: &[u32], number: usize) -> u32
    requires { number ≤ length ends.now }
    ensures first { number ≡ 0 → result ≡ 0 }
    ensures later { 0 < number → result ≡ slice_index_or ends.now (number - 1) 0 }
{
    if number == 0 { 0 } else { ends[number - 1] }
}

/// Appends what is of a clause, and where it ends; or nothing.
fn append<T: Copy>(items: &mut Vec<T>, ends: &mut Vec<u32>, more: &[T]) -> R<()>
    ensures items { OnOk result (items.new.items ≡ items.old.items ++ more.now) }
    ensures ends { OnOk result
        (ends.new.items ≡ ends.old.items ++ length items.new.items ∷ []) }
    ensures err_items { OnErr result (items.new.items ≡ items.old.items) }
    ensures err_ends { OnErr result (ends.new.items ≡ ends.old.items) }
    ensures refusal { IsOkUnless result Memory }
{
    let begin = items.len();
    items.extend_from_slice(more)?;
    append_end(items, ends, begin)
}

/// Appends a rule's two literals, and where they end; or nothing.
#[inline(always)]
fn append_pair(
    literals: &mut Vec<Literal>,
    ends: &mut Vec<u32>,
    first: Literal,
    second: Literal,
) -> R<()>
    ensures literals { OnOk result
        (literals.new.items ≡ literals.old.items ++ first ∷ second ∷ []) }
    ensures ends { OnOk result
        (ends.new.items ≡ ends.old.items ++ length literals.new.items ∷ []) }
    ensures err_literals { OnErr result (literals.new.items ≡ literals.old.items) }
    ensures err_ends { OnErr result (ends.new.items ≡ ends.old.items) }
    ensures refusal { IsOkUnless result Memory }
{
    let begin = literals.len();
    append_two(literals, first, second)?;
    append_end(literals, ends, begin)
}

/// Appends two literals, or none.
#[inline(always)]
fn append_two(items: &mut Vec<Literal>, first: Literal, second: Literal) -> Result<(), AllocError>
    ensures items { items.new.items
        ≡ (if is_ok result then items.old.items ++ first ∷ second ∷ [] else items.old.items) }
{
    items.push(first)?;
    match items.push(second) {
        Ok(()) => Ok(()),
        Err(error) => {
            items.pop();
            Err(error.into())
        }
    }
}

/// Appends where the last clause's items end; or drops those from `begin` on.
#[inline(always)]
fn append_end<T: Copy>(items: &mut Vec<T>, ends: &mut Vec<u32>, begin: usize) -> R<()>
    requires { begin ≤ length items.old.items }
    ensures items { OnOk result (items.new.items ≡ items.old.items) }
    ensures ends { OnOk result
        (ends.new.items ≡ ends.old.items ++ length items.old.items ∷ []) }
    ensures err_items { OnErr result (items.new.items ≡ take begin items.old.items) }
    ensures err_ends { OnErr result (ends.new.items ≡ ends.old.items) }
    ensures refusal { IsOkUnless result Memory }
{
    let end = items.len();
    match push_end(ends, end) {
        Ok(()) => Ok(()),
        Err(want) => {
            items.truncate(begin);
            Err(want)
        }
    }
}

/// Appends a clause's literals and its causes, its number, and where they end; or nothing.
fn append_caused(
    literals: &mut Vec<Literal>,
    ends: &mut Vec<u32>,
    causes: &mut Vec<ClauseId>,
    caused: &mut Vec<u32>,
    cause_ends: &mut Vec<u32>,
    more: &[Literal],
    others: &[ClauseId],
) -> R<()>
    requires { length ends.old.items < 4294967296 }
    ensures literals { OnOk result (literals.new.items ≡ literals.old.items ++ more.now) }
    ensures ends { OnOk result
        (ends.new.items ≡ ends.old.items ++ length literals.new.items ∷ []) }
    ensures causes { OnOk result (causes.new.items ≡ causes.old.items ++ others.now) }
    ensures caused { OnOk result
        (caused.new.items ≡ caused.old.items ++ length ends.old.items ∷ []) }
    ensures cause_ends { OnOk result
        (cause_ends.new.items ≡ cause_ends.old.items ++ length causes.new.items ∷ []) }
    ensures err_literals { OnErr result (literals.new.items ≡ literals.old.items) }
    ensures err_ends { OnErr result (ends.new.items ≡ ends.old.items) }
    ensures err_causes { OnErr result (causes.new.items ≡ causes.old.items) }
    ensures err_caused { OnErr result (caused.new.items ≡ caused.old.items) }
    ensures err_cause_ends { OnErr result (cause_ends.new.items ≡ cause_ends.old.items) }
    ensures refusal { IsOkUnless result Memory }
{
    let begin = literals.len();
    let number = ends.len();
    caused.reserve(1)?;
    append(literals, ends, more)?;
    match append(causes, cause_ends, others) {
        Ok(()) => {
            caused.push(number as u32).unwrap();
            Ok(())
        }
        Err(want) => {
            literals.truncate(begin);
            ends.truncate(number);
            Err(want)
        }
    }
}

/// Appends an end. That of a longer list is refused as for want of memory.
#[inline(always)]
fn push_end(ends: &mut Vec<u32>, end: usize) -> R<()>
    ensures end { OnOk result (ends.new.items ≡ ends.old.items ++ end ∷ []) }
    ensures err { OnErr result (ends.new.items ≡ ends.old.items) }
    ensures refusal { IsOkUnless result Memory }
{
    if end > 4_294_967_295 {
        return Err(Want::Memory);
    }
    ends.push(end as u32)?;
    Ok(())
}
