//! Adds a clause that encodes a rule, or one that denies decisions which contradict each other.
ghost use Rattle.std.specs.Prelude.{◌≡◌, ◌<◌, ◌≤◌, length, IfOk, OnOk, IsErrOf, IsSome};
ghost use Rattle.resolvo_pool_core.specs.declared.want.Want.TheVariants.{Ids};
ghost use Rattle.resolvo_store_core.specs.AtMostOne.{ties};
ghost use Rattle.resolvo_sat.specs.State.{count_of};
ghost use Rattle.resolvo_sat.specs.Steps.{AreInRange};
ghost use Rattle.resolvo_sat.specs.Analysis.{IsDenial};
ghost use Rattle.resolvo_state.specs.ClauseKinds.{rule_of};
ghost use Rattle.resolvo_state.specs.StoredKinds.{plain_kind, IsPlain};
ghost use Rattle.resolvo_state.specs.Kinds.{Needs};
ghost use Rattle.resolvo_state.specs.declared.atom.ProofAtom.TheVariants.{Solvable};
ghost use Rattle.resolvo_state.specs.Atoms.{Represents};
ghost use Rattle.resolvo_state.specs.Registered.{AreDigits, AddsTies};
ghost use Rattle.resolvo_state.specs.SolverState.{IsCoding, AddsRule, AddsDenial, LacksNumber};

use crate::clause_kind::{ClauseKind, Need};
use crate::solver_state::SolverState;
use resolvo_pool_core::id::{ClauseId, Exact, VariableId};
use resolvo_pool_core::want::R;
use resolvo_sat::analyze::FinalConflict;
use resolvo_store_core::literal::Literal;
use std::fmt::Debug;
use std::hash::Hash;

impl<N: Copy + Exact + Hash + Debug, S: Copy + Exact + Hash + Debug> SolverState<N, S> {
    /// Adds a clause that encodes a rule.
    pub fn add_clause(&mut self, kind: ClauseKind<N, S>, literals: &[Literal]) -> R<ClauseId>
        requires coding { IsCoding self.old }
        requires plain { IsPlain kind }
        requires rule { IsSome (rule_of (plain_kind kind)) }
        requires some { 0 < length literals.now }
        requires in_range { AreInRange (count_of self.old.search) literals.now }
        // After an answer.
        ensures added_rule { IfOk result
            (λ id. AddsRule (plain_kind kind) literals.now id self.old self.new) }
        // After a refusal.
        ensures ids { IsErrOf result Ids → length self.old.search.clauses ≡ 4294967295 }
        ensures full { IsErrOf result Ids → LacksNumber self.new }
    {
        let sets_at_once = kind.sets_at_once();
        let clause = self
            .search
            .add_rule(&mut self.watching, literals, sets_at_once)?;
        self.kinds.push(kind)?;
        Ok(clause)
    }

    /// Adds the clauses that encode the digits of a solvable's place, from the lowest on.
    pub fn add_digits(
        &mut self,
        name: N,
        solvable: S,
        variable: VariableId,
        place: u32,
        digits: &[VariableId],
    ) -> R<()>
        requires coding { IsCoding self.old }
        requires solvable { Represents self.old.atoms.keys variable (Solvable solvable) }
        requires digits { AreDigits name self.old.atoms.keys digits.now }
        requires few { length digits.now ≤ 32 }
        // After an answer.
        ensures encoded { OnOk result (AddsTies name (ties place variable digits.now) place place
            self.old self.new) }
        // After a refusal.
        ensures ids { IsErrOf result Ids → LacksNumber self.new }
    {
        if digits.is_empty() {
            return Ok(());
        }
        self.search
            .add_ties(&mut self.watching, variable, place, digits)?;
        self.kinds.push_digits(name, solvable, place, digits.len())?;
        Ok(())
    }

    /// Adds a clause that encodes a need under a condition.
    pub fn add_case(&mut self, need: Need<S>, literals: &[Literal]) -> R<ClauseId>
        requires coding { IsCoding self.old }
        requires some { 0 < length literals.now }
        requires in_range { AreInRange (count_of self.old.search) literals.now }
        // After an answer.
        ensures added_rule { IfOk result
            (λ id. AddsRule (Needs need.parent need.need need.case) literals.now id self.old self.new) }
        // After a refusal.
        ensures ids { IsErrOf result Ids → length self.old.search.clauses ≡ 4294967295 }
        ensures full { IsErrOf result Ids → LacksNumber self.new }
    {
        let clause = self.search.add_rule(&mut self.watching, literals, false)?;
        self.kinds.push_need(need)?;
        Ok(clause)
    }

    /// Adds a clause that follows from others, and has negative literals alone.
    pub fn forbid(&mut self, refusal: FinalConflict) -> R<ClauseId>
        requires coding { IsCoding self.old }
        requires some { 0 < length refusal.literals.items }
        requires forbid { IsDenial self.old.search refusal.literals.items refusal.causes.items }
        // After an answer.
        ensures learnt { IfOk result
            (λ id. AddsDenial refusal.literals.items refusal.causes.items id self.old self.new) }
        // After a refusal.
        ensures ids { IsErrOf result Ids → length self.old.search.clauses ≡ 4294967295 }
        ensures full { IsErrOf result Ids → LacksNumber self.new }
    {
        let clause = self.search.add_clause(
            &mut self.watching,
            refusal.literals.as_slice(),
            refusal.causes.as_slice(),
        )?;
        self.kinds.push(ClauseKind::Learnt)?;
        Ok(clause)
    }
}
