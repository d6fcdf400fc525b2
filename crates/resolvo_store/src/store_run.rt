//! Lists of calls of a clause store: `run`, one call of a list, and the plain lists in the calls.
ghost use Rattle.std.specs.Prelude.{◌≡◌, map, cond, length, IfOk, IfErr, OnOk, OnErr, IsErrOf, IsOkUnless};
ghost use Rattle.resolvo_pool_core.specs.declared.want.Want.TheVariants.{Memory, Ids};
ghost use Rattle.resolvo_store.specs.Stored.{plain, Becomes, Stays};
ghost use Rattle.resolvo_pool_core.specs.ByRequirement.{index_in};
ghost use Rattle.resolvo_store_core.specs.Trail.{value_in};
ghost use Rattle.resolvo_store_core.specs.AddPairs.{set_for};
ghost use Rattle.resolvo_store.specs.Changes.{candidates_from, with_candidates, with_disjunction, with_learnt, with_clause, with_need, with_decision, decayed};
ghost use Rattle.resolvo_store.specs.Calls.{Done, Added, Became, Bad, plain_answer, can_fix, can_add, can_register, can_assign, can_decay, broken_in, picked_in, broken_or_next, step, answer_of, after, answers_of, LacksNumber, StopsAt};

use crate::clause_store::ClauseStore;
use crate::store_call::{StoreAnswer, StoreCall};
use resolvo_pool_core::id::{ClauseId, VariableId};
use resolvo_pool_core::requirement::Requirement;
use resolvo_pool_core::solver_id::SolverId;
use resolvo_pool_core::want::R;
use resolvo_store_core::decision::Decision;
use resolvo_store_core::literal::Literal;
use resolvo_store_core::pick::NeedClause;
use resolvo_store_core::store_clause::Clause;
use resolvo_store_core::watched_literals::WatchedLiterals;
use std::alloc::Global;

/// The most millionths to which a decay scales a score.
const MILLION: u64 = 1_000_000;

impl<N: SolverId + Drop> ClauseStore<N> {
    /// Carries out the calls in turn. A call whose condition doesn't hold has the answer `Bad` and
    /// changes nothing. These are the conditions:
    /// - a requirement gets candidates once;
    /// - the lists that a call names exist;
    /// - the watched literals of a clause are two of its own;
    /// - no assignment is below the last one's level;
    /// - no decay raises a score.
    ///
    /// After a refusal the store is that before the refused call.
    pub fn run(&mut self, alloc: Global, calls: &[StoreCall<N>]) -> R<Vec<StoreAnswer>>
        ensures answers { IfOk result
            (λ v. map plain_answer v.items
            ≡ answers_of N.eq (plain N.Scores.score_of self.old) calls.now) }
        ensures store { OnOk result
            (Becomes N.Scores.score_of (λ s. after N.eq s calls.now) self.old self.new) }
        ensures stop { IfErr result
            (StopsAt N.eq calls.now (plain N.Scores.score_of self.old)
            (plain N.Scores.score_of self.new)) }
    {
        let mut answers = Vec::new(alloc);
        for call in calls {
            answers.reserve(1)?;
            answers.push(self.do_call(alloc, call)?).unwrap();
        }
        Ok(answers)
    }

    /// Carries out a call.
    fn do_call(&mut self, alloc: Global, call: &StoreCall<N>) -> R<StoreAnswer>
        ensures answer { IfOk result
            (λ a. plain_answer a ≡ answer_of (plain N.Scores.score_of self.old)
            call.now) }
        ensures store { OnOk result
            (Becomes N.Scores.score_of (λ s. step N.eq s call.now) self.old self.new) }
        ensures err { OnErr result (Stays N.Scores.score_of self.old self.new) }
        ensures ids { IsErrOf result Ids → LacksNumber (plain N.Scores.score_of self.old) call.now }
    {
        match call {
            StoreCall::FixCandidates(requirement, groups) => self.try_fix(*requirement, groups),
            StoreCall::FixDisjunction(literals) => self.copy_disjunction(alloc, literals),
            StoreCall::FixLearnt(literals) => self.copy_learnt(alloc, literals),
            StoreCall::AddClause(clause, watched) => self.try_add(*clause, *watched),
            StoreCall::Register {
                parent,
                requirement,
                condition,
                clause,
            } => self.try_register(NeedClause {
                parent: *parent,
                requirement: *requirement,
                condition: *condition,
                clause: *clause,
            }),
            StoreCall::Assign {
                variable,
                value,
                clause,
                level,
            } => self.try_assign(*variable, *value, *clause, *level),
            StoreCall::UndoLast => Ok(StoreAnswer::Undone(self.undo_last())),
            StoreCall::UndoUntil(level) => {
                self.undo_until(*level);
                Ok(StoreAnswer::Done)
            }
            StoreCall::BumpName(name, add) => {
                self.bump_name(*name, *add)?;
                Ok(StoreAnswer::Done)
            }
            StoreCall::Decay(per_million) => Ok(self.try_decay(*per_million)),
            StoreCall::Walk { literal, moves } => {
                Ok(StoreAnswer::Met(self.walk(*literal, moves)?))
            }
            StoreCall::Falsified => Ok(StoreAnswer::Falsified(self.falsified())),
            StoreCall::NextDecision => self.decide(),
        }
    }

    /// Sets the candidates of a requirement, if that is allowed.
    fn try_fix(
        &mut self,
        requirement: Requirement,
        groups: &[(N, Vec<VariableId>)],
    ) -> R<StoreAnswer>
        ensures answer { IfOk result
            (λ a.
            plain_answer a
            ≡ cond (can_fix (plain N.Scores.score_of self.old) requirement groups.now) (Done)
            Bad) }
        ensures store { OnOk result
            (Becomes N.Scores.score_of
            (λ s.
            cond (can_fix s requirement groups.now)
            (with_candidates requirement (candidates_from groups.now) s)
            s)
            self.old self.new) }
        ensures err { OnErr result (Stays N.Scores.score_of self.old self.new) }
        ensures ids { IsErrOf result Ids → index_in requirement ≡ 4294967295 }
    {
        if !self.can_fix(requirement, groups) {
            return Ok(StoreAnswer::Bad);
        }
        self.fix_candidates(requirement, groups)?;
        Ok(StoreAnswer::Done)
    }

    /// Adds a copy of the literals of a condition's case.
    fn copy_disjunction(&mut self, alloc: Global, literals: &[Literal]) -> R<StoreAnswer>
        ensures answer { IfOk result (λ a. plain_answer a ≡ Done) }
        ensures store { OnOk result
            (Becomes N.Scores.score_of (with_disjunction literals.now) self.old self.new) }
        ensures err { OnErr result (Stays N.Scores.score_of self.old self.new) }
        ensures ids { IsErrOf result Ids
            → length (plain N.Scores.score_of self.old).disjunctions ≡ 4294967295 }
    {
        self.fix_disjunction(Vec::from_slice(alloc, literals)?)?;
        Ok(StoreAnswer::Done)
    }

    /// Adds a copy of the literals of a learnt clause.
    fn copy_learnt(&mut self, alloc: Global, literals: &[Literal]) -> R<StoreAnswer>
        ensures answer { IfOk result (λ a. plain_answer a ≡ Done) }
        ensures store { OnOk result
            (Becomes N.Scores.score_of (with_learnt literals.now) self.old self.new) }
        ensures err { OnErr result (Stays N.Scores.score_of self.old self.new) }
        ensures ids { IsErrOf result Ids
            → length (plain N.Scores.score_of self.old).learnt ≡ 4294967295 }
    {
        self.fix_learnt(Vec::from_slice(alloc, literals)?)?;
        Ok(StoreAnswer::Done)
    }

    /// Adds a clause, if the lists that it names exist and it watches literals of its own.
    fn try_add(&mut self, clause: Clause<N>, watched: Option<WatchedLiterals>) -> R<StoreAnswer>
        ensures answer { IfOk result
            (λ a.
            plain_answer a
            ≡ cond (can_add (plain N.Scores.score_of self.old) clause watched)
            (Added (record { 0 = length (plain N.Scores.score_of self.old).clauses })) Bad) }
        ensures store { OnOk result
            (Becomes N.Scores.score_of
            (λ s. cond (can_add s clause watched) (with_clause clause watched s) s)
            self.old self.new) }
        ensures err { OnErr result (Stays N.Scores.score_of self.old self.new) }
        ensures ids { IsErrOf result Ids
            → length (plain N.Scores.score_of self.old).clauses ≡ 4294967295 }
    {
        if !self.can_add(&clause, watched) {
            return Ok(StoreAnswer::Bad);
        }
        Ok(StoreAnswer::Added(self.add_clause(clause, watched)?))
    }

    /// Registers a need clause, if the lists that it names exist.
    fn try_register(&mut self, need: NeedClause) -> R<StoreAnswer>
        ensures answer { IfOk result
            (λ a. plain_answer a
            ≡ cond (can_register (plain N.Scores.score_of self.old) need) (Done) Bad) }
        ensures store { OnOk result
            (Becomes N.Scores.score_of
            (λ s. cond (can_register s need) (with_need need s) s)
            self.old self.new) }
        ensures err { OnErr result (Stays N.Scores.score_of self.old self.new) }
        ensures refusal { IsOkUnless result Memory }
    {
        if !self.can_register(&need) {
            return Ok(StoreAnswer::Bad);
        }
        self.register(need)?;
        Ok(StoreAnswer::Done)
    }

    /// Adds an assignment, if its reason exists and no assignment is at a higher level.
    fn try_assign(
        &mut self,
        variable: VariableId,
        value: bool,
        clause: ClauseId,
        level: u32,
    ) -> R<StoreAnswer>
        ensures answer { IfOk result
            (λ a.
            plain_answer a
            ≡ cond (can_assign (plain N.Scores.score_of self.old) clause level)
            (Became
            (set_for value (value_in (plain N.Scores.score_of self.old).trail variable.0)))
            Bad) }
        ensures store { OnOk result
            (Becomes N.Scores.score_of
            (λ s.
            cond (can_assign s clause level)
            (with_decision (record { variable = variable; value = value; derived_from = clause })
            level s)
            s)
            self.old self.new) }
        ensures err { OnErr result (Stays N.Scores.score_of self.old self.new) }
        ensures refusal { IsOkUnless result Memory }
    {
        if !self.can_assign(clause, level) {
            return Ok(StoreAnswer::Bad);
        }
        let decision = Decision {
            variable,
            value,
            derived_from: clause,
        };
        Ok(StoreAnswer::Set(self.assign(decision, level)?))
    }

    /// Decays each score, if none grows by it.
    fn try_decay(&mut self, per_million: u64) -> StoreAnswer
        ensures answer { plain_answer result ≡ cond (can_decay per_million) Done Bad }
        ensures store { Becomes N.Scores.score_of
            (λ s. cond (can_decay per_million) (decayed per_million s) s)
            self.old self.new }
    {
        if per_million > MILLION {
            return StoreAnswer::Bad;
        }
        self.decay(per_million);
        StoreAnswer::Done
    }

    /// The next decision, or a falsified clause in its place.
    fn decide(&mut self) -> R<StoreAnswer>
        ensures answer { IfOk result
            (λ a.
            plain_answer a
            ≡ broken_or_next (broken_in (plain N.Scores.score_of self.old))
            (picked_in (plain N.Scores.score_of self.old))) }
        ensures store { Stays N.Scores.score_of self.old self.new }
        ensures refusal { IsOkUnless result Memory }
    {
        match self.falsified() {
            Some(clause) => Ok(StoreAnswer::Broken(clause)),
            None => Ok(StoreAnswer::Next(self.next_decision()?)),
        }
    }
}
