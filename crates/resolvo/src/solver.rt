//! The solver: a provider with its cache, and the results of the last search.
ghost use Rattle.std.specs.Prelude.{◌≡◌, ◌≤◌, List, [], None, Some, IsSome, IfOk};
ghost use Rattle.std.specs.Bool.{Decides};
ghost use Rattle.std.specs.Option.{option_map};
ghost use Rattle.std.specs.Iterator.{IsFinite};
ghost use Rattle.std.specs.Iterator.Runs.{WholeRun};
ghost use Rattle.resolvo_packages.specs.PackageSource.{packages_by, orders_by};
ghost use Rattle.resolvo_state.specs.Keys.{AreOnce};
ghost use Rattle.resolvo.specs.Solve.{AskNothing};
ghost use Rattle.resolvo.specs.Conflicts.{Left, left_of};
ghost use Rattle.resolvo.specs.Solver.{HoldsConflict, Kept, AnswersCandidates, IfEnded, IsStopped, Keeps, Leaves, LeavesBy, root_of, stopped_by};

use crate::conflict::{Conflict, KeptConflict, solve_to_conflict};
use crate::problem::Problem;
use crate::prove::{SearchOptions, Solved, Steps};
use crate::release::Release;
use crate::search::SearchResult;
use crate::turns::Turn;
use resolvo_packages::cached_packages::CachedPackages;
use resolvo_pool::cache::CacheFault;
use resolvo_pool_core::id::ClauseId;
use resolvo_pool_core::provider::DependencyProvider;
use resolvo_pool_core::solver_id::SolverId;
use resolvo_proof::offers::Offers;
use resolvo_proof::step::ProofStep;
use resolvo_turn::cdcl::Activity;
use std::alloc::Global;
use std::marker::Model;
use std::mem;
use thiserror::Error;

/// The reason that a search chose nothing.
#[derive(Debug, Drop, Error)]
pub enum UnsolvableOrCancelled<C> {
    /// No solvables keep all rules.
    #[error("unsolvable")]
    Unsolvable(Conflict),
    /// The provider cancelled, with this value.
    #[error("cancelled")]
    Cancelled(C),
    /// An allocation failed.
    #[error("no memory")]
    Memory,
    /// The ids are used up.
    #[error("no ids")]
    Ids,
}

impl<C> From<CacheFault<C>> for UnsolvableOrCancelled<C> {
    ghost from_gives = { λ f e. e ≡ stopped_by f };

    fn from(fault: CacheFault<C>) -> UnsolvableOrCancelled<C> {
        match fault {
            CacheFault::Memory => UnsolvableOrCancelled::Memory,
            CacheFault::Ids => UnsolvableOrCancelled::Ids,
            CacheFault::Cancelled(value) => UnsolvableOrCancelled::Cancelled(value),
        }
    }
}

/// A solver over a provider, which gets each query once.
#[derive(Drop)]
pub struct Solver<D: DependencyProvider> {
    alloc: Global,
    answers: CachedPackages<D>,
    activity: Activity,
    release: Release,
    clause_count: usize,
    deferred_count: usize,
    turns: Vec<Turn<D::SolvableId>>,
    proof: Vec<ProofStep<D::NameId, D::SolvableId>>,
    conflict: Option<KeptConflict<D::SolvableId>>,
}

impl<D: DependencyProvider> Model for Solver<D> {
    ghost Value = { Kept D D.NameId D.SolvableId };

    ghost view = { λ s.
        record {
          provider = s.answers;
          clause_count = s.clause_count;
          deferred_count = s.deferred_count;
          turns = s.turns.items;
          proof = s.proof.items;
          conflict = option_map left_of s.conflict;
        } };
}

impl<D: DependencyProvider> Solver<D> {
    /// Drops the results of the last search.
    fn forget(&mut self)
        ensures { self.new
            ≡ record self.old
            { clause_count = 0; deferred_count = 0; turns = []; proof = []; conflict = None } }
    {
        self.clause_count = 0;
        self.deferred_count = 0;
        self.turns = Vec::new(self.alloc);
        self.proof = Vec::new(self.alloc);
        self.conflict = None;
    }

    /// Keeps the results of a search. The chosen solvables, or the conflict with these clauses.
    fn keep(
        &mut self,
        solved: Solved<D::NameId, D::SolvableId>,
        clauses: Vec<ClauseId>,
        conflict: Option<KeptConflict<D::SolvableId>>,
    ) -> Result<Vec<D::SolvableId>, UnsolvableOrCancelled<D::Cancel>>
        ensures { Keeps solved clauses (option_map left_of conflict) self.old result self.new }
    {
        let Solved {
            found,
            clause_count,
            deferred_count,
            proof,
        } = solved;
        self.clause_count = clause_count;
        self.deferred_count = deferred_count;
        self.proof = proof;
        self.conflict = conflict;
        match found {
            SearchResult::Chosen { solvables, turns } => {
                self.turns = turns;
                Ok(solvables)
            }
            SearchResult::Unsat(_refusal) => {
                Err(UnsolvableOrCancelled::Unsolvable(Conflict { clauses }))
            }
        }
    }

    /// A solver before its first search.
    pub fn new(alloc: Global, provider: D) -> Solver<D>
        ensures { result
            ≡ record {
              provider = provider;
              clause_count = 0;
              deferred_count = 0;
              turns = [];
              proof = [];
              conflict = None;
            } }
    {
        Solver {
            alloc,
            answers: CachedPackages::new(alloc, provider),
            activity: Activity::standard(),
            release: Release::Now,
            clause_count: 0,
            deferred_count: 0,
            turns: Vec::new(alloc),
            proof: Vec::new(alloc),
            conflict: None,
        }
    }

    /// The provider.
    pub fn provider(&self) -> &D
        ensures { result.now ≡ self.now.provider }
    {
        self.answers.provider()
    }

    /// The number of clauses of the last search, with the root's; 0 before the first, and after one
    /// that stopped. A problem without requirements has the root's alone.
    pub fn clause_count(&self) -> usize
        ensures { result ≡ self.now.clause_count }
    {
        self.clause_count
    }

    /// The number of cases that the last search deferred and never encoded; 0 before the first, and
    /// after one that stopped.
    pub fn deferred_requirements_count(&self) -> usize
        ensures { result ≡ self.now.deferred_count }
    {
        self.deferred_count
    }

    /// The turns of the soft requirements of the last search, one for each, in their order; none if
    /// it chose nothing.
    pub fn turns(&self) -> &[Turn<D::SolvableId>]
        ensures { result.now ≡ self.now.turns }
    {
        self.turns.as_slice()
    }

    /// The steps of the last search's proof; none before the first, and after one that stopped.
    pub fn proof(&self) -> &[ProofStep<D::NameId, D::SolvableId>]
        ensures { result.now ≡ self.now.proof }
    {
        self.proof.as_slice()
    }

    /// Takes the steps of the last search's proof out of the solver, and drops the conflict, whose
    /// graph needs them. Ask for a conflict's message first.
    pub fn take_proof(&mut self) -> Vec<ProofStep<D::NameId, D::SolvableId>>
        ensures steps { result.items ≡ self.old.proof }
        ensures left { self.new ≡ record self.old { proof = []; conflict = None } }
    {
        self.conflict = None;
        mem::replace(&mut self.proof, Vec::new(self.alloc))
    }

    /// Whether the solver keeps this conflict: that of the last search. A new solver keeps none,
    /// nor one whose last search had another result.
    pub fn holds(&self, conflict: &Conflict) -> bool
        ensures { Decides result (HoldsConflict self.now conflict.now.clauses.items) }
    {
        match &self.conflict {
            Some(kept) => kept.clauses.as_slice() == conflict.clauses.as_slice(),
            None => false,
        }
    }

    /// The offered candidates for the requirements of the conflict that the solver keeps.
    pub(crate) fn offers(&self) -> &Offers<D::SolvableId>
        requires { IsSome self.now.conflict }
        ensures { (l : Left D.SolvableId) → self.now.conflict ≡ Some l → result.now ≡ l.offers }
    {
        match &self.conflict {
            Some(kept) => &kept.offers,
            None => unreachable!(),
        }
    }

    /// The solver with another bump for each literal of a learnt clause, and another decay, both in
    /// millionths.
    pub fn with_activity_params(self, add: u64, decay: u64) -> Solver<D>
        requires { decay ≤ 1000000 }
        ensures { result ≡ self }
    {
        let Solver {
            alloc,
            answers,
            activity: _,
            release,
            clause_count,
            deferred_count,
            turns,
            proof,
            conflict,
        } = self;
        Solver {
            alloc,
            answers,
            activity: Activity::new(add, decay),
            release,
            clause_count,
            deferred_count,
            turns,
            proof,
            conflict,
        }
    }

    /// The solver that releases the clauses of a search when this says. It does so before a search
    /// returns, if nothing is said.
    pub fn with_release(self, release: Release) -> Solver<D>
        ensures { result ≡ self }
    {
        let mut solver = self;
        solver.release = release;
        solver
    }

    /// Searches for solvables that keep the rules of the problem, then for its soft requirements,
    /// in their order. The chosen solvables, each once and in the order of the trail. A search
    /// starts anew, with the cached answers.
    pub fn solve<I: Iterator<Item = D::SolvableId>>(
        &mut self,
        problem: Problem<D::SolvableId, I>,
    ) -> Result<Vec<D::SolvableId>, UnsolvableOrCancelled<D::Cancel>>
        requires softs { I.can_next problem.soft_requirements }
        requires finite { IsFinite (I.remaining problem.soft_requirements) }
        // What the call promises.
        ensures provider { self.new.provider ≡ self.old.provider }
        ensures answer { IfEnded result
            ((softs : List D.SolvableId)
            × WholeRun I.next_gives problem.soft_requirements (λ p. softs ≡ p.items)
            × AnswersCandidates D.SolvableId.eq
            (packages_by D.name_of_solvable D.name_of_version_set D.members_of
            D.condition_of D.candidates_of D.matches D.dependencies_of self.old.provider)
            (root_of problem)
            (orders_by D.name_of_version_set D.members_of D.candidates_of D.matches D.sorts
            D.SolvableId.eq self.old.provider)
            softs result self.new
            × (AskNothing problem.requirements.items problem.constraints.items softs
            → self.new.clause_count ≡ 1)) }
        ensures once { IfOk result (λ v. AreOnce v.items) }
        ensures leaves { Leaves result self.new }
        // After a refusal.
        ensures cancelled { IsStopped (D.may_cancel self.old.provider) result }
    {
        self.solve_with(problem, Steps::All)
    }

    /// The same, with the steps of the proof that are wanted: `Steps::Reasons` spares a search its
    /// proof where it refuses nothing.
    pub fn solve_with<I: Iterator<Item = D::SolvableId>>(
        &mut self,
        problem: Problem<D::SolvableId, I>,
        steps: Steps,
    ) -> Result<Vec<D::SolvableId>, UnsolvableOrCancelled<D::Cancel>>
        requires softs { I.can_next problem.soft_requirements }
        requires finite { IsFinite (I.remaining problem.soft_requirements) }
        // What the call promises.
        ensures provider { self.new.provider ≡ self.old.provider }
        ensures answer { IfEnded result
            ((softs : List D.SolvableId)
            × WholeRun I.next_gives problem.soft_requirements (λ p. softs ≡ p.items)
            × AnswersCandidates D.SolvableId.eq
            (packages_by D.name_of_solvable D.name_of_version_set D.members_of
            D.condition_of D.candidates_of D.matches D.dependencies_of self.old.provider)
            (root_of problem)
            (orders_by D.name_of_version_set D.members_of D.candidates_of D.matches D.sorts
            D.SolvableId.eq self.old.provider)
            softs result self.new
            × (AskNothing problem.requirements.items problem.constraints.items softs
            → self.new.clause_count ≡ 1)) }
        ensures once { IfOk result (λ v. AreOnce v.items) }
        ensures leaves { LeavesBy result steps self.new }
        // After a refusal.
        ensures cancelled { IsStopped (D.may_cancel self.old.provider) result }
    {
        self.forget();
        let Problem {
            requirements,
            constraints,
            soft_requirements,
            of: _,
        } = problem;
        let softs: Vec<D::SolvableId> = match soft_requirements.collect(self.alloc) {
            Ok(softs) => softs,
            Err(_) => return Err(UnsolvableOrCancelled::Memory),
        };
        let options = SearchOptions {
            activity: self.activity,
            steps,
            release: self.release,
        };
        match solve_to_conflict::<CachedPackages<D>, <D::NameId as SolverId>::Scores>(
            self.alloc,
            &mut self.answers,
            options,
            requirements.as_slice(),
            constraints.as_slice(),
            softs.as_slice(),
        ) {
            Ok((solved, clauses, conflict)) => self.keep(solved, clauses, conflict),
            Err(fault) => Err(UnsolvableOrCancelled::from(fault)),
        }
    }
}
