//! The words of a condition as numbers. A condition gets its number after those of its parts. The law
//! is the parser of conditions of `resolvo_text`; called by the reader of needs.

ghost use Rattle.std.specs.Prelude.{◌≡◌, ◌<◌, ◌≤◌, ◌+◌, Option, length, IfOk, IfSome, OnErr, Err};
ghost use Rattle.resolvo_text.specs.declared.line.LineFault.TheVariants.{Memory};
ghost use Rattle.resolvo_text.specs.Line.{Cond};
ghost use Rattle.resolvo_text.specs.Parse.{words_in, joined, condition_in, behind_if, joined_at, part_at, atom_at, lone_at};
ghost use Rattle.resolvo_terms.specs.Terms.{Grows, IsCondition, IsConditionOf};
ghost use Rattle.resolvo_terms.specs.TermCounts.{term_count, ids_for_condition, ids_for_any_condition};
ghost use Rattle.resolvo_terms.specs.Reads.{Reads, IsPartRead, operator_of};

use crate::read::numbered;
use crate::terms::Terms;
use resolvo_pool_core::condition::{Condition, LogicalOperator};
use resolvo_pool_core::id::ConditionId;
use resolvo_text::{DEEPEST, Joint, LineFault, MOST_SPECS, no_more, skip};

/// The operator that a joining word stands for.
fn operator_of(joint: Joint) -> LogicalOperator
    ensures { result ≡ operator_of joint }
{
    match joint {
        Joint::And => LogicalOperator::And,
        Joint::Or => LogicalOperator::Or,
    }
}

impl Terms {
    /// The condition of a line `needs`: all that follows its alternatives.
    #[tactic(auto, unfolding(resolvo_text::specs::Parse::condition_in))]
    pub(crate) fn condition_in(&mut self, words: &[u8]) -> Result<Option<ConditionId>, LineFault>
        ensures condition { Reads
            (λ c read.
            IsConditionOf self.new c read
            × (term_count self.new ≤ term_count self.old + ids_for_any_condition read))
            result (condition_in (words_in words.now)) }
        ensures grows { Grows self.old self.new }
    {
        let (found, condition) = skip(words, b"if");
        if !found {
            no_more(words)?;
            return Ok(None);
        }
        Ok(Some(self.behind_if(condition)?))
    }

    #[tactic(auto, unfolding(resolvo_text::specs::Parse::behind_if))]
    fn behind_if(&mut self, words: &[u8]) -> Result<ConditionId, LineFault>
        ensures condition { Reads
            (λ c read.
            IsCondition self.new c read
            × (term_count self.new ≤ term_count self.old + ids_for_condition read))
            result (behind_if (words_in words.now)) }
        ensures grows { Grows self.old self.new }
    {
        let (condition, _room, words) = self.joined_at(Joint::Or, DEEPEST, MOST_SPECS, words)?;
        no_more(words)?;
        Ok(condition)
    }

    /// Conditions joined by the operator `joint`, with parentheses at most `depth` deep and at most
    /// `room` SPECs.
    ///
    /// Returns the condition, how many SPECs may still follow, and the words that are left.
    #[cycle(read)]
    #[tactic(auto, using(crate::proofs::GrowLemmas::grows_on))]
    fn joined_at<'a>(
        &mut self,
        joint: Joint,
        depth: u32,
        room: u32,
        words: &'a [u8],
    ) -> Result<(ConditionId, u32, &'a [u8]), LineFault>
        ensures fewer { IfOk result (λ x. x.1 < room) }
        ensures words { Reads
            (λ x read. IsPartRead self.old self.new x.0 x.1 (words_in x.2.now) read)
            result (joined_at joint depth room (words_in words.now)) }
        ensures grows { Grows self.old self.new }
    {
        let mut before = None;
        let mut room = room;
        let mut rest = words;
        loop {
            let (part, left, after) = self.part_at(joint, depth, room, rest)?;
            let whole = self.joined(joint, before, part)?;
            let (more, others) = skip(after, joint.word());
            if !more {
                return Ok((whole, left, others));
            }
            before = Some(whole);
            room = left;
            rest = others;
        }
    }

    /// A condition, joined to those before it.
    #[tactic(auto, using(crate::proofs::GrowLemmas::grows_own))]
    fn joined(
        &mut self,
        joint: Joint,
        before: Option<ConditionId>,
        right: ConditionId,
    ) -> Result<ConditionId, LineFault>
        requires before { IfSome before (λ c. c.0 < length self.old.conditions) }
        requires right { right.0 < length self.old.conditions }
        ensures condition { (b : Option Cond) (c : Cond)
            → IsConditionOf self.old before b
            → IsCondition self.old right c
            → IfOk result
            (λ x.
            IsCondition self.new x (joined joint b c)
            × (term_count self.new + ids_for_any_condition b + ids_for_condition c
            ≤ term_count self.old + ids_for_condition (joined joint b c))) }
        ensures grows { Grows self.old self.new }
        ensures memory { OnErr result (result ≡ Err Memory) }
    {
        match before {
            Some(left) => numbered(self.join(operator_of(joint), left, right)),
            None => Ok(right),
        }
    }

    /// An operand of the operator `joint`.
    #[cycle(read)]
    #[tactic(auto, unfolding(resolvo_text::specs::Parse::part_at, resolvo_text::specs::Parse::joined_at))]
    fn part_at<'a>(
        &mut self,
        joint: Joint,
        depth: u32,
        room: u32,
        words: &'a [u8],
    ) -> Result<(ConditionId, u32, &'a [u8]), LineFault>
        ensures fewer { IfOk result (λ x. x.1 < room) }
        ensures words { Reads
            (λ x read. IsPartRead self.old self.new x.0 x.1 (words_in x.2.now) read)
            result (part_at joint depth room (words_in words.now)) }
        ensures grows { Grows self.old self.new }
    {
        match joint {
            Joint::And => self.atom_at(depth, room, words),
            Joint::Or => self.joined_at(Joint::And, depth, room, words),
        }
    }

    /// A SPEC, or a condition in parentheses.
    #[cycle(read)]
    fn atom_at<'a>(
        &mut self,
        depth: u32,
        room: u32,
        words: &'a [u8],
    ) -> Result<(ConditionId, u32, &'a [u8]), LineFault>
        ensures fewer { IfOk result (λ x. x.1 < room) }
        ensures words { Reads
            (λ x read. IsPartRead self.old self.new x.0 x.1 (words_in x.2.now) read)
            result (atom_at depth room (words_in words.now)) }
        ensures grows { Grows self.old self.new }
    {
        let (opens, inside) = skip(words, b"(");
        if !opens {
            return self.lone_at(room, words);
        }
        if depth == 0 {
            return Err(LineFault::Fault);
        }
        let (condition, left, after) = self.joined_at(Joint::Or, depth - 1, room, inside)?;
        let (closes, rest) = skip(after, b")");
        if !closes {
            return Err(LineFault::Fault);
        }
        Ok((condition, left, rest))
    }

    /// One SPEC.
    #[tactic(auto, using(crate::proofs::GrowLemmas::grows_on))]
    fn lone_at<'a>(
        &mut self,
        room: u32,
        words: &'a [u8],
    ) -> Result<(ConditionId, u32, &'a [u8]), LineFault>
        ensures fewer { IfOk result (λ x. x.1 < room) }
        ensures words { Reads
            (λ x read. IsPartRead self.old self.new x.0 x.1 (words_in x.2.now) read)
            result (lone_at room (words_in words.now)) }
        ensures grows { Grows self.old self.new }
    {
        if room == 0 {
            return Err(LineFault::Fault);
        }
        let (spec, rest) = self.spec_at(words)?;
        let condition = numbered(self.intern_condition(Condition::Requirement(spec)))?;
        Ok((condition, room - 1, rest))
    }
}
