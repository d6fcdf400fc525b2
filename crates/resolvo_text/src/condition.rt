//! Conditions: their parser, when one holds, and its cases.
//!
//! The model of a condition is the tree of specs/Line.antt; that of a list of cases is the lists of
//! their SPECs. The parser of a line `needs` calls `condition_in`; the catalogue calls the rest.

ghost use Rattle.std.specs.Prelude.{◌≡◌, ◌||◌, ◌&&◌, ◌++◌, ◌<◌, Some, map, IfOk};
ghost use Rattle.resolvo_text.specs.Parse.{Gives, words_in, word_of, joined, condition_in, behind_if, joined_at, part_at, atom_at, lone_at};
ghost use Rattle.resolvo_text.specs.View.{condition_of, before_of, spec_of, specs_of, cond_of, set_of, cases_of};
ghost use Rattle.resolvo_text.specs.Matches.{Set, holds};
ghost use Rattle.resolvo_text.specs.Cases.{cases, pairs, some_case_met};
ghost use Rattle.resolvo_text.specs.Line as parsed;

use crate::line::LineFault;
use crate::parse::{no_more, skip, spec_at};
use crate::spec::{Spec, Version, is_met};
use std::alloc::{AllocError, Global};

/// A condition. Both operators associate to the left.
#[derive(Debug, Drop)]
pub enum Cond {
    Spec(Spec),
    And(Box<Cond>, Box<Cond>),
    Or(Box<Cond>, Box<Cond>),
}

impl Cond {
    pub fn copy(&self, alloc: Global) -> Result<Cond, AllocError>
        ensures { IfOk result (λ c. cond_of c ≡ cond_of self.now) }
    {
        match self {
            Cond::Spec(spec) => Ok(Cond::Spec(spec.copy()?)),
            Cond::And(left, right) => {
                let left = left.copy(alloc)?;
                let right = right.copy(alloc)?;
                Ok(Cond::And(Box::new(alloc, left)?, Box::new(alloc, right)?))
            }
            Cond::Or(left, right) => {
                let left = left.copy(alloc)?;
                let right = right.copy(alloc)?;
                Ok(Cond::Or(Box::new(alloc, left)?, Box::new(alloc, right)?))
            }
        }
    }
}

/// The two operators. `and` binds tighter.
#[derive(Clone, Copy, Debug, PartialEq, Eq)]
pub enum Joint {
    And,
    Or,
}

impl Joint {
    pub fn word(self) -> &'static [u8]
        ensures { result.now ≡ word_of self }
    {
        match self {
            Joint::And => b"and".as_slice(),
            Joint::Or => b"or".as_slice(),
        }
    }

    fn join(self, alloc: Global, before: Option<Cond>, right: Cond) -> Result<Cond, LineFault>
        ensures { Gives cond_of result (Some (joined self (before_of before) (cond_of right))) }
    {
        let Some(left) = before else {
            return Ok(right);
        };
        let left = Box::new(alloc, left)?;
        let right = Box::new(alloc, right)?;
        match self {
            Joint::And => Ok(Cond::And(left, right)),
            Joint::Or => Ok(Cond::Or(left, right)),
        }
    }
}

/// The most SPECs of a condition.
pub const MOST_SPECS: u32 = 16;

/// The deepest nesting of parentheses.
pub const DEEPEST: u32 = 16;

/// The condition of a line `needs`: all that follows its alternatives.
#[tactic(auto, unfolding(crate::specs::Parse::condition_in))]
pub fn condition_in(alloc: Global, words: &[u8]) -> Result<Option<Box<Cond>>, LineFault>
    ensures { Gives condition_of result (condition_in (words_in words.now)) }
{
    let (found, condition) = skip(words, b"if");
    if !found {
        no_more(words)?;
        return Ok(None);
    }
    let condition = behind_if(alloc, condition)?;
    Ok(Some(Box::new(alloc, condition)?))
}

#[tactic(auto, unfolding(crate::specs::Parse::behind_if))]
fn behind_if(alloc: Global, words: &[u8]) -> Result<Cond, LineFault>
    ensures { Gives cond_of result (behind_if (words_in words.now)) }
{
    let (condition, _room, words) = joined_at(alloc, Joint::Or, DEEPEST, MOST_SPECS, words)?;
    no_more(words)?;
    Ok(condition)
}

/// Conditions joined by the operator `joint`, with parentheses at most `depth` deep and at most
/// `room` SPECs.
///
/// Returns the condition, how many SPECs may still follow, and the words that are left.
#[cycle(condition)]
fn joined_at(
    alloc: Global,
    joint: Joint,
    depth: u32,
    room: u32,
    words: &[u8],
) -> Result<(Cond, u32, &[u8]), LineFault>
    ensures fewer { IfOk result (λ x. x.1 < room) }
    ensures words { Gives (λ x. (cond_of x.0, x.1, words_in x.2.now)) result
        (joined_at joint depth room (words_in words.now)) }
{
    let mut before = None;
    let mut room = room;
    let mut rest = words;
    loop {
        let (part, left, after) = part_at(alloc, joint, depth, room, rest)?;
        let whole = joint.join(alloc, before, part)?;
        let (more, others) = skip(after, joint.word());
        if !more {
            return Ok((whole, left, others));
        }
        before = Some(whole);
        room = left;
        rest = others;
    }
}

/// An operand of the operator `joint`.
#[cycle(condition)]
#[tactic(auto, unfolding(crate::specs::Parse::part_at, crate::specs::Parse::joined_at))]
fn part_at(
    alloc: Global,
    joint: Joint,
    depth: u32,
    room: u32,
    words: &[u8],
) -> Result<(Cond, u32, &[u8]), LineFault>
    ensures fewer { IfOk result (λ x. x.1 < room) }
    ensures words { Gives (λ x. (cond_of x.0, x.1, words_in x.2.now)) result
        (part_at joint depth room (words_in words.now)) }
{
    match joint {
        Joint::And => atom_at(alloc, depth, room, words),
        Joint::Or => joined_at(alloc, Joint::And, depth, room, words),
    }
}

/// A SPEC, or a condition in parentheses.
#[cycle(condition)]
fn atom_at(
    alloc: Global,
    depth: u32,
    room: u32,
    words: &[u8],
) -> Result<(Cond, u32, &[u8]), LineFault>
    ensures fewer { IfOk result (λ x. x.1 < room) }
    ensures words { Gives (λ x. (cond_of x.0, x.1, words_in x.2.now)) result
        (atom_at depth room (words_in words.now)) }
{
    let (opens, inside) = skip(words, b"(");
    if !opens {
        return lone_at(alloc, room, words);
    }
    if depth == 0 {
        return Err(LineFault::Fault);
    }
    let (condition, left, after) = joined_at(alloc, Joint::Or, depth - 1, room, inside)?;
    let (closes, rest) = skip(after, b")");
    if !closes {
        return Err(LineFault::Fault);
    }
    Ok((condition, left, rest))
}

/// One SPEC.
#[tactic(auto, unfolding(crate::specs::Parse::lone_at))]
fn lone_at(alloc: Global, room: u32, words: &[u8]) -> Result<(Cond, u32, &[u8]), LineFault>
    ensures fewer { IfOk result (λ x. x.1 < room) }
    ensures words { Gives (λ x. (cond_of x.0, x.1, words_in x.2.now)) result (lone_at room (words_in words.now)) }
{
    if room == 0 {
        return Err(LineFault::Fault);
    }
    let (spec, rest) = spec_at(alloc, words)?;
    Ok((Cond::Spec(spec), room - 1, rest))
}

/// Whether the condition holds in the set.
pub fn holds(condition: &Cond, set: &[Version]) -> bool
    ensures { result ≡ holds (cond_of condition.now) (set_of set.now) }
{
    match condition {
        Cond::Spec(spec) => is_met(spec, set),
        Cond::And(left, right) => holds(left, set) && holds(right, set),
        Cond::Or(left, right) => holds(left, set) || holds(right, set),
    }
}

/// A condition holds in a set exactly if all SPECs of some of its cases are met.
pub fn cases_are_exact()
    ensures { (c : parsed.Cond) (set : Set) → some_case_met (cases c) set ≡ holds c set }
{}

fn copies_of(alloc: Global, specs: &[Spec]) -> Result<Vec<Spec>, AllocError>
    ensures { IfOk result (λ v. specs_of v.items ≡ specs_of specs.now) }
{
    let mut copies = Vec::new(alloc);
    for spec in specs {
        copies.push(spec.copy()?)?;
    }
    Ok(copies)
}

fn joined(alloc: Global, left: &[Spec], right: &[Spec]) -> Result<Vec<Spec>, AllocError>
    ensures { IfOk result (λ v. specs_of v.items ≡ specs_of left.now ++ specs_of right.now) }
{
    let mut both = copies_of(alloc, left)?;
    let mut others = copies_of(alloc, right)?;
    both.append(&mut others)?;
    Ok(both)
}

/// The left case with each of the right ones.
fn with_each(
    alloc: Global,
    left: &[Spec],
    right: &[Vec<Spec>],
) -> Result<Vec<Vec<Spec>>, AllocError>
    ensures { IfOk result (λ v. cases_of v.items ≡ map (λ r. specs_of left.now ++ r) (cases_of right.now)) }
{
    let mut all = Vec::new(alloc);
    for case in right {
        all.push(joined(alloc, left, case)?)?;
    }
    Ok(all)
}

fn pairs_of(
    alloc: Global,
    left: &[Vec<Spec>],
    right: &[Vec<Spec>],
) -> Result<Vec<Vec<Spec>>, AllocError>
    ensures { IfOk result (λ v. cases_of v.items ≡ pairs (cases_of left.now) (cases_of right.now)) }
{
    let mut all = Vec::new(alloc);
    for case in left {
        let mut paired = with_each(alloc, case, right)?;
        all.append(&mut paired)?;
    }
    Ok(all)
}

/// The cases of the condition, in order.
pub fn cases_in(alloc: Global, condition: &Cond) -> Result<Vec<Vec<Spec>>, AllocError>
    ensures { IfOk result (λ v. cases_of v.items ≡ cases (cond_of condition.now)) }
{
    match condition {
        Cond::Spec(spec) => {
            let mut case = Vec::new(alloc);
            case.push(spec.copy()?)?;
            let mut all = Vec::new(alloc);
            all.push(case)?;
            Ok(all)
        }
        Cond::And(left, right) => {
            let left = cases_in(alloc, left)?;
            let right = cases_in(alloc, right)?;
            pairs_of(alloc, &left, &right)
        }
        Cond::Or(left, right) => {
            let mut all = cases_in(alloc, left)?;
            let mut others = cases_in(alloc, right)?;
            all.append(&mut others)?;
            Ok(all)
        }
    }
}
