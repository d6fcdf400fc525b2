//! The lists that clauses name by an id: candidates of requirements, disjunctions, learnt literals.
//! Each list is set once and never changes. Clauses are read over them.
ghost use Rattle.std.specs.Prelude.{◌≡◌, ◌<◌, ◌++◌, ◌∷◌, [], length, OnOk, OnErr, IfOk, IfSome, IsOkUnless, IsErrOf, IsSome, is_some, None, Some, true, false, MatchOption};
ghost use Rattle.std.specs.Option.{option_map, option_copied};
ghost use Rattle.resolvo_pool_core.specs.declared.want.Want.TheVariants.{Memory, Ids};
ghost use Rattle.resolvo_pool_core.specs.ByRequirement.{slot_of, PutsAt, index_in};
ghost use Rattle.resolvo_store_core.specs.Signed.{Signed};
ghost use Rattle.resolvo_store_core.specs.Lists.{candidates_in, disjunction_in, condition_in, learnt_in, has_candidates, has_disjunction, names_disjunction, has_learnt, disjunction_count, learnt_count, IsEmpty, FixesCandidates, FixesDisjunction, FixesLearnt};
ghost use Rattle.resolvo_store_core.specs.ReadClause.{listed};

use crate::candidate_lists::CandidateLists;
use crate::literal::Literal;
use resolvo_pool_core::flat_lists::FlatLists;
use resolvo_pool_core::id::{DenseIndex, DisjunctionId, LearntClauseId, next_index};
use resolvo_pool_core::requirement::Requirement;
use resolvo_pool_core::want::R;
use std::alloc::Global;

/// A candidate of a requirement: its positive literal, and its package.
#[derive(Clone, Copy, Debug)]
pub struct Candidate<N> {
    pub literal: Literal,
    pub package: N,
}

/// A case of a condition, as the literals that a clause has for it: each is false where the case
/// holds.
#[derive(Debug, Drop)]
pub struct Disjunction {
    pub literals: Vec<Literal>,
}

/// The lists that clauses name.
#[derive(Drop)]
pub struct FixedLists<N> {
    candidates: CandidateLists<N>,
    disjunctions: FlatLists<Literal>,
    learnt: FlatLists<Literal>,
}

impl<N: Copy + Drop> FixedLists<N> {
    /// No lists.
    pub fn new(alloc: Global) -> R<FixedLists<N>>
        ensures empty { IfOk result IsEmpty }
        ensures refusal { IsOkUnless result Memory }
    {
        Ok(FixedLists {
            candidates: CandidateLists::new(alloc)?,
            disjunctions: FlatLists::new(alloc),
            learnt: FlatLists::new(alloc),
        })
    }

    /// Sets the candidates of a requirement.
    pub fn fix_candidates(&mut self, requirement: Requirement, candidates: &[Candidate<N>]) -> R<()>
        ensures fixed { OnOk result
            (FixesCandidates requirement candidates.now self.old self.new) }
        ensures err { OnErr result (self.new ≡ self.old) }
        ensures ids { IsErrOf result Ids → index_in requirement ≡ 4294967295 }
    {
        self.candidates.set(requirement, candidates)?;
        Ok(())
    }

    /// Adds a disjunction.
    pub fn fix_disjunction(&mut self, disjunction: Disjunction) -> R<DisjunctionId>
        ensures fixed { IfOk result
            (λ id. FixesDisjunction id.raw disjunction.literals.items self.old self.new) }
        ensures err { OnErr result (self.new ≡ self.old) }
        ensures ids { IsErrOf result Ids → disjunction_count self.old ≡ 4294967295 }
    {
        let number = push_numbered(&mut self.disjunctions, disjunction.literals.as_slice())?;
        Ok(DisjunctionId::from_index(number))
    }

    /// Adds the literals of a learnt clause.
    pub fn fix_learnt(&mut self, literals: Vec<Literal>) -> R<LearntClauseId>
        ensures fixed { IfOk result (λ id. FixesLearnt id.raw literals.items self.old self.new) }
        ensures err { OnErr result (self.new ≡ self.old) }
        ensures ids { IsErrOf result Ids → learnt_count self.old ≡ 4294967295 }
    {
        let number = push_numbered(&mut self.learnt, literals.as_slice())?;
        Ok(LearntClauseId::from_index(number))
    }

    /// The candidates of a requirement, if they were set.
    pub fn candidates(&self, requirement: Requirement) -> Option<&[Candidate<N>]>
        ensures { MatchOption result (has_candidates self.now requirement ≡ false)
            (λ cs.
            (has_candidates self.now requirement ≡ true)
            × (cs.now ≡ candidates_in self.now requirement)) }
    {
        self.candidates.get(requirement)
    }

    /// The literals of a disjunction.
    pub fn disjunction(&self, id: DisjunctionId) -> &[Literal]
        requires { id.raw < disjunction_count self.now }
        ensures { result.now ≡ disjunction_in self.now id }
    {
        self.disjunctions.get(id.to_index())
    }

    /// The literals of a condition's case, if there is a condition and the case was added.
    pub fn condition(&self, id: Option<DisjunctionId>) -> Option<&[Literal]>
        ensures given { is_some result ≡ names_disjunction self.now id }
        ensures literals { listed result ≡ condition_in self.now id }
    {
        let id = id?;
        if id.to_index() < self.disjunctions.len() {
            Some(self.disjunction(id))
        } else {
            None
        }
    }

    /// Whether the condition's case was added, if there is a condition.
    pub fn has_condition(&self, id: Option<DisjunctionId>) -> bool
        ensures { result ≡ has_disjunction self.now id }
    {
        match id {
            Some(id) => id.to_index() < self.disjunctions.len(),
            None => true,
        }
    }

    /// Whether the literals of a learnt clause were added.
    pub fn has_learnt(&self, id: LearntClauseId) -> bool
        ensures { result ≡ has_learnt self.now id }
    {
        id.to_index() < self.learnt.len()
    }

    /// The literals of a learnt clause.
    pub fn learnt(&self, id: LearntClauseId) -> &[Literal]
        requires { id.raw < learnt_count self.now }
        ensures { result.now ≡ learnt_in self.now id }
    {
        self.learnt.get(id.to_index())
    }
}

/// Adds a list under a new number.
fn push_numbered(lists: &mut FlatLists<Literal>, list: &[Literal]) -> R<usize>
    ensures number { IfOk result (λ n. (n ≡ length lists.old) × (n < 4294967295)) }
    ensures put { OnOk result (lists.new ≡ lists.old ++ list.now ∷ []) }
    ensures err { OnErr result (lists.new ≡ lists.old) }
    ensures ids { IsErrOf result Ids → length lists.old ≡ 4294967295 }
{
    lists.are_few();
    let number = next_index(lists.len())?;
    lists.push(list)?;
    Ok(number)
}
