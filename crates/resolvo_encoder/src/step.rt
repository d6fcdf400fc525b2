//! The steps of the search over the encoding: propagate, learn, decide.
ghost use Rattle.std.specs.Prelude.{◌<◌, ◌-◌, length, IfOk, IfSome, OnOk, IsErrOf, IsOkUnless};
ghost use Rattle.resolvo_pool_core.specs.declared.want.Want.TheVariants.{Memory, Ids};
ghost use Rattle.resolvo_decide.specs.Queue.{IsSynced, IsHotBound};
ghost use Rattle.resolvo_sat.specs.Steps.{Undoes};
ghost use Rattle.resolvo_state.specs.SolverState.{LacksNumber};
ghost use Rattle.resolvo_encoder.specs.Encoded.{StaysEncoding};
ghost use Rattle.resolvo_encoder.specs.Steps.{IsBuilt};
ghost use Rattle.resolvo_encoder.specs.Progress.{IsNext, Syncs, GoesOn, AreQuiet, IsStep, IsChoice};
ghost use Rattle.resolvo_encoder.specs.Base.{KeepsFirst, KeepsTurns};

use crate::encoder::Encoder;
use resolvo_decide::scores::Scores;
use resolvo_pool_core::id::{ClauseId, Exact};
use resolvo_pool_core::id_map::ScoreMap;
use resolvo_pool_core::want::R;
use resolvo_sat::analyze::FinalConflict;
use resolvo_sat::propagate_and_learn::StepResult;
use resolvo_store_core::literal::Literal;
use resolvo_store_core::pick::NextDecision;
use std::alloc::Global;
use std::fmt::Debug;
use std::hash::Hash;

/// How many undecided candidates a clause that offers a decision has at least, once propagation is
/// complete: with one it would be a unit clause.
const FEWEST: usize = 2;

/// The result of one step.
#[derive(Drop)]
pub enum Step {
    /// Nothing is left to propagate or decide.
    Done,
    /// A candidate was decided.
    Chosen,
    /// A clause was falsified, and this one was learnt from it.
    Learnt(ClauseId),
    /// A clause was falsified by decisions that the turn doesn't undo.
    Refused(FinalConflict),
}

impl<N: Copy + Exact + Hash + Debug + Drop, S: Copy + Exact + Hash + Debug> Encoder<N, S> {
    /// The next candidate to decide, if one is left. Brings the queue up to date with the trail.
    fn next_decision<C: ScoreMap<N>>(&mut self, scores: &Scores<N, C>) -> R<Option<NextDecision>>
        requires built { IsBuilt self.old }
        requires quiet { AreQuiet self.old }
        // After an answer.
        ensures next { IfOk result (IsNext (C.score_of scores.now.map) self.new) }
        ensures built { OnOk result (IsBuilt self.new) }
        ensures syncs { OnOk result (Syncs self.old self.new) }
        // After a refusal.
        ensures refusal { IsOkUnless result Memory }
    {
        self.sync_queue(scores)?;
        let trail = &self.coding.search.tracker;
        // split for the prover: error and answer
        let next = self
            .queue
            .next_decision(&self.lists, trail, scores.map(), FEWEST)?;
        Ok(next)
    }

    /// Brings the queue up to date with the trail and the scores.
    fn sync_queue<C: ScoreMap<N>>(&mut self, scores: &Scores<N, C>) -> R<()>
        requires { IsBuilt self.old }
        // After an answer.
        ensures syncs { OnOk result (Syncs self.old self.new) }
        ensures synced { OnOk result
            (IsSynced self.new.queue self.new.coding.search.tracker.trail) }
        ensures hot { OnOk result (IsHotBound (C.score_of scores.now.map) self.new.queue) }
        ensures built { OnOk result (IsBuilt self.new) }
        // After a refusal.
        ensures refusal { IsOkUnless result Memory }
    {
        self.queue.sync(&mut self.coding.search.tracker)?;
        self.queue.set_hot(scores.hot(), scores.most())?;
        Ok(())
    }

    /// Decides the next candidate. False where none is left.
    fn decide_next<C: ScoreMap<N>>(&mut self, scores: &Scores<N, C>) -> R<bool>
        requires built { IsBuilt self.old }
        requires quiet { AreQuiet self.old }
        // After an answer.
        ensures stays { OnOk result (StaysEncoding S.eq self.old self.new) }
        ensures goes_on { OnOk result (GoesOn self.old self.new) }
        ensures built { OnOk result (IsBuilt self.new) }
        ensures first { OnOk result (KeepsFirst self.old self.new) }
        ensures chosen { IfOk result (IsChoice self.old self.new) }
        // After a refusal.
        ensures refusal { IsOkUnless result Memory }
    {
        match self.next_decision(scores)? {
            None => Ok(false),
            Some(next) => {
                self.coding.choose(next.candidate, next.clause_id)?;
                Ok(true)
            }
        }
    }

    /// Undoes the turn: all entries of its levels. Of the root's turn the root's entry is left.
    pub fn undo_turn(&mut self)
        requires { IsBuilt self.old }
        // What the call promises.
        ensures stays { StaysEncoding S.eq self.old self.new }
        ensures goes_on { GoesOn self.old self.new }
        ensures built { IsBuilt self.new }
        ensures undone { Undoes (self.old.coding.search.base_level - 1) self.old.coding.search
            self.new.coding.search }
        ensures turn { KeepsTurns self.old self.new }
    {
        let level = self.coding.search.base_level.saturating_sub(1);
        self.coding.undo_until(level);
    }

    /// Propagates, and learns nothing. Whether a clause is falsified above the turn's base level.
    pub fn propagate(&mut self) -> R<bool>
        requires { IsBuilt self.old }
        // After an answer.
        ensures stays { OnOk result (StaysEncoding S.eq self.old self.new) }
        ensures goes_on { OnOk result (GoesOn self.old self.new) }
        ensures built { OnOk result (IsBuilt self.new) }
        ensures first { OnOk result (KeepsFirst self.old self.new) }
        // After a refusal.
        ensures refusal { IsOkUnless result Memory }
    {
        let falsified = self.coding.propagate()?;
        Ok(self.is_above_base(falsified))
    }

    /// Whether there is a falsified clause, and a literal of it got its value above the turn's base
    /// level.
    fn is_above_base(&self, falsified: Option<ClauseId>) -> bool
        requires { IfSome falsified (λ c. c.0 < length self.now.coding.search.clauses) }
    {
        let Some(clause) = falsified else {
            return false;
        };
        let search = &self.coding.search;
        let (own, shared) = search.literals(clause);
        self.is_any_above(own) || self.is_any_above(shared)
    }

    /// Whether one of these literals got its value above the turn's base level.
    fn is_any_above(&self, literals: &[Literal]) -> bool {
        let search = &self.coding.search;
        let values = search.tracker.map();
        literals.iter().any(|literal| values.level(literal.variable()) > search.base_level)
    }

    /// Propagates; then learns from a falsified clause, or decides where there is none.
    pub fn step<C: ScoreMap<N>>(&mut self, alloc: Global, scores: &Scores<N, C>) -> R<Step>
        requires { IsBuilt self.old }
        // After an answer.
        ensures stays { OnOk result (StaysEncoding S.eq self.old self.new) }
        ensures goes_on { OnOk result (GoesOn self.old self.new) }
        ensures built { OnOk result (IsBuilt self.new) }
        ensures first { OnOk result (KeepsFirst self.old self.new) }
        ensures step { IfOk result (IsStep self.old self.new) }
        // After a refusal.
        ensures ids { IsErrOf result Ids → LacksNumber self.new.coding }
    {
        match self.coding.propagate_and_learn(alloc)? {
            StepResult::Refused(refusal) => Ok(Step::Refused(refusal)),
            StepResult::Learnt(clause) => Ok(Step::Learnt(clause)),
            StepResult::Complete => {
                let has_chosen = self.decide_next(scores)?;
                if has_chosen {
                    Ok(Step::Chosen)
                } else {
                    Ok(Step::Done)
                }
            }
        }
    }
}
