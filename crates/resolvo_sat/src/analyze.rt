//! Conflict analysis: what is learnt from a falsified clause, by a walk back along the trail.
ghost use Rattle.std.specs.Prelude.{◌≡◌, ◌≤◌, ◌<◌, ◌+◌, ◌-◌, ◌∷◌, ◌++◌, true, false, not, if◌then◌else◌, length, max, min, slice_index_or, IfOk, OnOk, IsOkUnless};
ghost use Rattle.std.specs.List.Sorted.{IsPermutation};
ghost use Rattle.resolvo_pool_core.specs.declared.want.Want.TheVariants.{Memory};
ghost use Rattle.resolvo_sat.specs.Known.{IsFalseUnder, clause_at};
ghost use Rattle.resolvo_sat.specs.Entries.{made_true, before, literal_of};
ghost use Rattle.resolvo_sat.specs.State.{IsState, history, clauses_of};
ghost use Rattle.resolvo_sat.specs.Marks.{IsMarked};
ghost use Rattle.resolvo_sat.specs.Analysis.{Seen, Collects, IsAppended, MayBeAppended, MarksAtMost, AreDeniedBelow, IsAsserting, IsAnalysis, IsBelow, IsLearntOf, IsDecisionOrForced};

use crate::marks::Marks;
use crate::state::SatState;
use resolvo_pool_core::id::ClauseId;
use resolvo_pool_core::want::{R, Want};
use resolvo_store_core::decision::Entry;
use resolvo_store_core::decision_map::DecisionMap;
use resolvo_store_core::literal::Literal;
use std::alloc::Global;

/// The result of a conflict analysis.
#[derive(Drop)]
pub enum Analysis {
    /// The decisions before the turn, and the assumption that began it, contradict each other.
    Refused(FinalConflict),
    /// A clause was learnt that asserts a literal at a lower level of the turn.
    Learnt(Learnt),
}

/// A clause that denies decisions which contradict each other, that of the turn itself last. Its
/// antecedents are in the order of a RUP check.
#[derive(Debug, Drop)]
pub struct FinalConflict {
    pub literals: Vec<Literal>,
    pub causes: Vec<ClauseId>,
}

/// A learnt clause, with its antecedents in the order of a RUP check. After a jump to the level,
/// all its literals but the asserting one are false.
#[derive(Drop)]
pub struct Learnt {
    pub literals: Vec<Literal>,
    pub causes: Vec<ClauseId>,
    pub asserting: Literal,
    pub level: u32,
}

/// How many entries are marked, and how many of them are of the conflict's level.
#[derive(Clone, Copy)]
pub(crate) struct Marked {
    pub all: usize,
    pub of_level: usize,
}

/// What a learnt clause has beside its asserting literal, and the highest level of it.
#[derive(Drop)]
struct Others {
    literals: Vec<Literal>,
    level: u32,
}

/// Marks the variables of the literals, except the root's. Each literal that is met for the first
/// time is appended to those that were met before, the root's too. Returns how many variables
/// weren't marked before, and how many of these are of this level.
pub(crate) fn mark_seen(
    seen: &mut Marks,
    met: &mut Vec<Literal>,
    own: &[Literal],
    shared: &[Literal],
    values: &DecisionMap,
    level: u32,
) -> R<Marked>
    ensures marked { IfOk result (λ _. Seen (own.now ++ shared.now) seen.old seen.new) }
    ensures collected { IfOk result
        (λ _. Collects (own.now ++ shared.now) seen.old met.old.items seen.new
        met.new.items) }
    ensures few { IfOk result (λ m. MarksAtMost m.all seen.old seen.new) }
    ensures refusal { IsOkUnless result Memory }
{
    let first = mark_each(seen, met, own, values, level)?;
    let more = mark_each(seen, met, shared, values, level)?;
    let all = first.and(more)?;
    Ok(all)
}

/// The same for the literals of one list.
fn mark_each(
    seen: &mut Marks,
    met: &mut Vec<Literal>,
    literals: &[Literal],
    values: &DecisionMap,
    level: u32,
) -> R<Marked>
    ensures marked { IfOk result (λ _. Seen literals.now seen.old seen.new) }
    ensures collected { IfOk result
        (λ _. Collects literals.now seen.old met.old.items seen.new met.new.items) }
    ensures few { IfOk result (λ m. MarksAtMost m.all seen.old seen.new) }
    ensures refusal { IsOkUnless result Memory }
{
    let mut count = Marked {
        all: 0,
        of_level: 0,
    };
    for literal in literals {
        let variable = literal.variable();
        if variable.is_root() {
            meet_root(seen, met, *literal)?;
        } else {
            let is_new = meet(seen, met, *literal)?;
            count = count.with(is_new, values.level(variable) == level);
        }
    }
    Ok(count)
}

/// Marks the variable of a literal, and appends the literal where it wasn't marked.
fn meet(seen: &mut Marks, met: &mut Vec<Literal>, literal: Literal) -> R<bool>
    ensures added { IfOk result
        (λ new. new ≡ not (slice_index_or seen.old literal.variable.0 false)) }
    ensures put { OnOk result (IsMarked literal.variable.0 seen.old seen.new) }
    ensures appended { IfOk result
        (λ new. IsAppended literal new met.old.items met.new.items) }
    ensures refusal { IsOkUnless result Memory }
{
    let is_new = seen.insert(literal.variable())?;
    if is_new {
        met.push(literal)?;
    }
    Ok(is_new)
}

/// Appends a literal of the root where the walk meets the root for the first time.
fn meet_root(seen: &mut Marks, met: &mut Vec<Literal>, literal: Literal) -> R<()>
    ensures same { OnOk result (seen.new ≡ seen.old) }
    ensures appended { OnOk result (MayBeAppended literal met.old.items met.new.items) }
    ensures refusal { IsOkUnless result Memory }
{
    if seen.meet_root() {
        met.push(literal)?;
    }
    Ok(())
}

impl Marked {
    /// One more where it is new, of the conflict's level or not.
    fn with(self, is_new: bool, is_there: bool) -> Marked
        ensures { result.all ≡ min (self.all + (if is_new then 1 else 0)) usize.MAX }
    {
        if !is_new {
            return self;
        }
        Marked {
            all: self.all.saturating_add(1),
            of_level: self.of_level.saturating_add(is_there as usize),
        }
    }

    /// Both counts together.
    pub(crate) fn plus(self, more: Marked) -> Marked
        ensures { result.all ≡ min (self.all + more.all) usize.MAX }
    {
        Marked {
            all: self.all.saturating_add(more.all),
            of_level: self.of_level.saturating_add(more.of_level),
        }
    }

    /// Both counts together, exactly.
    fn and(self, more: Marked) -> R<Marked>
        ensures sum { IfOk result (λ m. m.all ≡ self.all + more.all) }
        ensures refusal { IsOkUnless result Memory }
    {
        let Some(all) = self.all.checked_add(more.all) else {
            return Err(Want::Memory);
        };
        Ok(Marked {
            all,
            of_level: self.of_level.saturating_add(more.of_level),
        })
    }

    /// One less of both, where a marked entry was passed.
    pub(crate) fn passed(self) -> Marked
        ensures { result.all ≡ self.all - 1 }
    {
        Marked {
            all: self.all.saturating_sub(1),
            of_level: self.of_level.saturating_sub(1),
        }
    }
}

impl SatState {
    /// Walks back along the trail from a falsified clause. Each marked entry of the turn is
    /// resolved with its reason, until only one is left of its level. The clause that denies it and
    /// what was met below its level is then learnt. Where no marked entry is left, only decisions
    /// were kept, which contradict each other.
    pub fn analyze(&self, alloc: Global, seen: &mut Marks, falsified: ClauseId) -> R<Analysis>
        requires state { IsState self.now }
        requires in_range { falsified.0 < length self.now.clauses }
        requires falls { IsFalseUnder (made_true (history self.now)) (clause_at (clauses_of self.now) falsified.0) }
        ensures analysis { IfOk result (IsAnalysis self.now) }
        ensures refusal { IsOkUnless result Memory }
    {
        seen.begin();
        let values = self.tracker.map();
        let level = self.top_level();
        let mut met = Vec::new(alloc);
        let literals = self.literals(falsified);
        let mut marked = mark_seen(seen, &mut met, literals.0, literals.1, values, level)?;
        let mut causes = Vec::new(alloc);
        causes.push(falsified)?;
        let mut kept = Vec::new(alloc);
        let mut place = self.tracker.stack().len();
        while place > 0 && marked.all > 0 {
            place -= 1;
            let entry = self.entry(place);
            if seen.contains(entry.decision.variable) {
                marked = marked.passed();
                if self.is_asserting(place, entry, marked, seen) {
                    let others = self.below(alloc, met.as_slice(), entry.level)?;
                    return self.learnt(others, kept, causes, entry);
                }
                if self.is_decision(place, entry) {
                    kept.push(literal_made_true(entry).negate())?;
                } else {
                    causes.push(entry.decision.derived_from)?;
                    let reason = self.literals(entry.decision.derived_from);
                    let more = mark_seen(seen, &mut met, reason.0, reason.1, values, level)?;
                    marked = marked.plus(more);
                }
            }
        }
        causes.reverse();
        Ok(Analysis::Refused(FinalConflict {
            literals: self.with_own_last(kept)?,
            causes,
        }))
    }

    /// Whether an entry is the last marked one of its level, above the turn's base level. While
    /// some before it are counted of the conflict's level, none is searched for.
    fn is_asserting(&self, place: usize, entry: Entry, marked: Marked, seen: &Marks) -> bool
        requires state { IsState self.now }
        requires in_range { place ≤ length self.now.tracker.trail }
        ensures { IsAsserting self.now seen.now entry (before self.now.tracker.trail place) result }
    {
        if entry.level <= self.base_level {
            return false;
        }
        if entry.level > self.level_before(place) {
            return true;
        }
        if marked.of_level > 0 {
            return false;
        }
        self.are_below(place, entry.level, seen)
    }

    /// Whether each marked entry among the first `place` is below a level. The walk ends at the
    /// first entry below it.
    fn are_below(&self, place: usize, level: u32, seen: &Marks) -> bool
        requires state { IsState self.now }
        requires in_range { place ≤ length self.now.tracker.trail }
        ensures { result ≡ true
            → AreDeniedBelow seen.now (before self.now.tracker.trail place) level }
    {
        let mut place = place;
        while place > 0 {
            place -= 1;
            let entry = self.entry(place);
            if entry.level < level {
                return true;
            }
            if seen.contains(entry.decision.variable) {
                return false;
            }
        }
        true
    }

    /// The literals that were met below a level, in this order. The first one and the first one of
    /// the highest level change places, so that the clause watches one of that level.
    fn below(&self, alloc: Global, met: &[Literal], level: u32) -> R<Others>
        requires above { 0 < level }
        ensures below { IfOk result
            (λ others. IsBelow self.now met.now level others.literals.items others.level) }
        ensures refusal { IsOkUnless result Memory }
    {
        let mut literals = Vec::new(alloc);
        let mut highest = 0;
        let mut place = 0;
        for literal in met {
            let at = self.tracker.level(literal.variable());
            if at < level {
                if at > highest {
                    place = literals.len();
                }
                highest = highest.max(at);
                literals.push(*literal)?;
            }
        }
        move_first(&mut literals, place);
        Ok(Others {
            literals,
            level: highest,
        })
    }

    /// The learnt clause, which asserts the negation of an entry, the last marked one of its level.
    fn learnt(
        &self,
        others: Others,
        kept: Vec<Literal>,
        causes: Vec<ClauseId>,
        entry: Entry,
    ) -> R<Analysis>
        requires { entry.decision.variable.0 < 2147483648 }
        ensures learnt { IfOk result
            (IsLearntOf others.literals.items kept.items causes.items entry
            (max self.now.base_level others.level)) }
        ensures refusal { IsOkUnless result Memory }
    {
        let asserting = literal_made_true(entry).negate();
        let mut literals = others.literals;
        literals.extend_from_slice(kept.as_slice())?;
        literals.push(asserting)?;
        let mut causes = causes;
        causes.reverse();
        Ok(Analysis::Learnt(Learnt {
            literals,
            causes,
            asserting,
            level: self.base_level.max(others.level),
        }))
    }

    /// Whether an entry is a decision, which the analysis does not resolve.
    pub(crate) fn is_decision(&self, place: usize, entry: Entry) -> bool
        requires state { IsState self.now }
        requires in_range { place < length self.now.tracker.trail }
        requires next { before self.now.tracker.trail (place + 1) ≡ entry ∷ before self.now.tracker.trail place }
        ensures { IsDecisionOrForced self.now entry (before self.now.tracker.trail place) result }
    {
        if entry.decision.value && entry.level < self.base_level {
            if self.is_solvable(entry.decision.variable) {
                return true;
            }
        }
        self.level_before(place) < entry.level
    }

    /// The kept literals, with that of the turn's own decision last. It was met first.
    fn with_own_last(&self, kept: Vec<Literal>) -> R<Vec<Literal>>
        ensures same { IfOk result (λ literals. IsPermutation kept.items literals.items) }
        ensures refusal { IsOkUnless result Memory }
    {
        let is_own = match kept.first() {
            Some(first) => self.tracker.level(first.variable()) == self.base_level,
            None => false,
        };
        if is_own {
            with_first_last(kept)
        } else {
            Ok(kept)
        }
    }
}

/// The literals with the first one last.
pub(crate) fn with_first_last(literals: Vec<Literal>) -> R<Vec<Literal>>
    ensures same { IfOk result (λ moved. IsPermutation literals.items moved.items) }
    ensures refusal { IsOkUnless result Memory }
{
    let mut literals = literals;
    if !literals.is_empty() {
        let first = literals.remove(0);
        literals.push(first)?;
    }
    Ok(literals)
}

/// Swaps the first literal with the one at a place, if there is one.
fn move_first(literals: &mut Vec<Literal>, place: usize)
    ensures { IsPermutation literals.old.items literals.new.items }
{
    if place < literals.len() {
        literals.swap(0, place);
    }
}

/// The literal that an entry makes true.
pub fn literal_made_true(entry: Entry) -> Literal
    requires { entry.decision.variable.0 < 2147483648 }
    ensures { result ≡ literal_of entry }
{
    Literal::new(entry.decision.variable, !entry.decision.value)
}
