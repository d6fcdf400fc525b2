//! The search, with the atoms of its variables and the rules of its clauses.
//! Variable 0 is the root's. Variable k + 1 represents the k-th atom, and the n-th clause encodes
//! the n-th of `kinds`.
ghost use Rattle.std.specs.Prelude.{◌≡◌, ◌<◌, None, IfOk, IfSome, IsErrOf, IsOkUnless};
ghost use Rattle.resolvo_pool_core.specs.declared.want.Want.TheVariants.{Memory, Ids};
ghost use Rattle.resolvo_sat.specs.State.{count_of};
ghost use Rattle.resolvo_state.specs.Atoms.{IsFound, solvable_of, bit_of};
ghost use Rattle.resolvo_state.specs.SolverState.{IsCoding, IsBegun, Gives, LacksNumber};

use crate::atom::ProofAtom;
use crate::clause_kind::ClauseKind;
use crate::clause_kinds::ClauseKinds;
use resolvo_pool_core::id::{Exact, VariableId};
use resolvo_pool_core::ordered_set::OrderedSet;
use resolvo_pool_core::want::R;
use resolvo_sat::begin::begin;
use resolvo_sat::state::SatState;
use resolvo_sat::watch_lists::WatchLists;
use std::alloc::Global;
use std::fmt::Debug;
use std::hash::Hash;

/// The search, with the atoms of its variables and the rules of its clauses.
pub struct SolverState<N: Copy + Exact + Hash, S: Copy + Exact + Hash> {
    pub search: SatState,
    pub watching: WatchLists,
    pub atoms: OrderedSet<ProofAtom<N, S>>,
    pub kinds: ClauseKinds<N, S>,
}

// split for the prover: one drop
impl<N: Copy + Exact + Hash, S: Copy + Exact + Hash> Drop for SolverState<N, S> {
    fn drop(self) {
        let SolverState {
            search: _,
            watching: _,
            atoms: _,
            kinds: _,
        } = self;
    }
}

impl<N: Copy + Exact + Hash + Debug, S: Copy + Exact + Hash + Debug> SolverState<N, S> {
    /// The initial state: the root alone.
    pub fn begin(alloc: Global) -> R<SolverState<N, S>>
        ensures begun { IfOk result IsBegun }
        ensures refusal { IsOkUnless result Memory }
    {
        let (search, watching) = begin(alloc)?;
        let mut kinds = ClauseKinds::new(alloc);
        kinds.push(ClauseKind::InstallRoot)?;
        Ok(SolverState {
            search,
            watching,
            atoms: OrderedSet::new(alloc),
            kinds,
        })
    }

    /// The variable that represents the atom, if there is one.
    #[inline(always)]
    pub fn find(&self, atom: ProofAtom<N, S>) -> Option<VariableId>
        requires { IsCoding self.now }
        ensures found { IsFound self.now.atoms.keys atom result }
        ensures in_range { IfSome result (λ v. v.0 < count_of self.now.search) }
    {
        match self.atoms.place_of(atom) {
            Some(place) => Some(VariableId((place + 1) as u32)),
            None => None,
        }
    }

    /// The variable that represents the atom, which is a new one where there is none.
    #[inline(always)]
    pub fn variable(&mut self, atom: ProofAtom<N, S>) -> R<VariableId>
        requires { IsCoding self.old }
        ensures given { IfOk result (λ v. Gives atom v self.old self.new) }
        ensures ids { IsErrOf result Ids → count_of self.old.search ≡ 2147483647 }
        ensures full { IsErrOf result Ids → LacksNumber self.new }
    {
        if let Some(variable) = self.find(atom) {
            return Ok(variable);
        }
        self.add_atom(atom)
    }

    /// The new variable of an atom that has none.
    fn add_atom(&mut self, atom: ProofAtom<N, S>) -> R<VariableId>
        requires coding { IsCoding self.old }
        requires fresh { IsFound self.old.atoms.keys atom None }
        ensures given { IfOk result (λ v. Gives atom v self.old self.new) }
        ensures ids { IsErrOf result Ids → count_of self.old.search ≡ 2147483647 }
        ensures full { IsErrOf result Ids → LacksNumber self.new }
    {
        let variable = self.search.add_variable(atom.kind())?;
        self.atoms.push(atom)?;
        Ok(variable)
    }

    /// The solvable that a variable represents, if it represents one.
    pub fn solvable(&self, variable: VariableId) -> Option<S>
        ensures { result ≡ solvable_of self.now.atoms.keys variable.0 }
    {
        match (variable.0 as usize).checked_sub(1) {
            None => None,
            Some(place) => match self.atoms.get_index(place) {
                Some(ProofAtom::Solvable(solvable)) => Some(*solvable),
                _ => None,
            },
        }
    }

    /// The place of the digit that a variable represents, if it represents one.
    pub fn bit(&self, variable: VariableId) -> Option<u32>
        ensures { result ≡ bit_of self.now.atoms.keys variable.0 }
    {
        match (variable.0 as usize).checked_sub(1) {
            None => None,
            Some(place) => match self.atoms.get_index(place) {
                Some(ProofAtom::Bit(_, bit)) => Some(*bit),
                _ => None,
            },
        }
    }
}
