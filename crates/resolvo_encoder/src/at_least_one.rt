//! At-least-one clauses for the packages of conditions: a chosen solvable makes its package's at-
//! least-one variable true. The literals of a case are then false where it holds.
ghost use Rattle.std.specs.Prelude.{◌≡◌, ◌<◌, ◌∷◌, [], OnOk, IfOk, IfSome, IsErrOf, IsOkUnless};
ghost use Rattle.resolvo_pool_core.specs.declared.want.Want.TheVariants.{Memory, Ids};
ghost use Rattle.resolvo_store_core.specs.Clauses.{no, candidate_literals};
ghost use Rattle.resolvo_sat.specs.RuleClauses.{Rule};
ghost use Rattle.resolvo_state.specs.SolverState.{LacksNumber};
ghost use Rattle.resolvo_encoder.specs.Steps.{IsBuilt};
ghost use Rattle.resolvo_encoder.specs.ClauseRules.{EncodesRules};
ghost use Rattle.resolvo_encoder.specs.AtLeastOneClauses.{AreThose, AddsAtLeastOne, AddsThose, TracksAtLeastOne, NamesPackage, CaseLiterals};

use crate::conditions::ConditionSet;
use crate::encoder::{Encoder, add_key, add_value, push_candidates};
use resolvo_packages::package_source::Offered;
use resolvo_pool_core::id::{Exact, VariableId};
use resolvo_pool_core::want::R;
use resolvo_state::atom::ProofAtom;
use resolvo_state::clause_kind::ClauseKind;
use resolvo_store_core::lists::Candidate;
use resolvo_store_core::literal::Literal;
use std::alloc::Global;
use std::fmt::Debug;
use std::hash::Hash;

impl<N: Copy + Exact + Hash + Debug + Drop, S: Copy + Exact + Hash + Debug> Encoder<N, S> {
    /// Adds the at-least-one clause of a solvable, once.
    pub(crate) fn add_at_least_one(&mut self, one: Offered<N, S>) -> R<()>
        requires { IsBuilt self.old }
        ensures added { OnOk result (AddsAtLeastOne S.eq (one ∷ []) self.old self.new) }
        ensures ids { IsErrOf result Ids → LacksNumber self.new.coding }
    {
        if self.recorded.there.contains(one.solvable) {
            return Ok(());
        }
        self.encode_at_least_one(one)?;
        add_value(&mut self.recorded.there, one.solvable)?;
        Ok(())
    }

    /// The at-least-one clause: a chosen solvable makes its package's at-least-one variable true.
    fn encode_at_least_one(&mut self, one: Offered<N, S>) -> R<()>
        requires { IsBuilt self.old }
        ensures encodes { OnOk result
            (EncodesRules S.eq (Rule.is_there one.name one.solvable ∷ [])
            self.old self.new) }
        ensures ids { IsErrOf result Ids → LacksNumber self.new.coding }
    {
        let first = self.give(ProofAtom::Solvable(one.solvable))?;
        let second = self.give(ProofAtom::AtLeastOne(one.name))?;
        let kind = ClauseKind::AnyOf {
            name: one.name,
            solvable: one.solvable,
        };
        self.encode_pair(kind, first, Literal::new(second, false))?;
        Ok(())
    }

    /// Adds the at-least-one clause of each of these.
    fn add_at_least_ones(&mut self, list: &[Offered<N, S>]) -> R<()>
        requires { IsBuilt self.old }
        ensures added { OnOk result (AddsAtLeastOne S.eq list.now self.old self.new) }
        ensures ids { IsErrOf result Ids → LacksNumber self.new.coding }
    {
        for one in list {
            self.add_at_least_one(*one)?;
        }
        Ok(())
    }

    /// The registered solvable of a package, where it is the only one.
    fn lone_registered(&self, name: N) -> Option<Offered<N, S>>
        requires { IsBuilt self.now }
        ensures { IfSome result (λ o. AreThose self.now name (o ∷ [])) }
    {
        let variables = self.registry.variables(name);
        if variables.len() != 1 {
            return None;
        }
        let solvable = self.coding.solvable(variables[0])?;
        Some(Offered { solvable, name })
    }

    /// The registered solvables of a package, with it.
    fn registered(&self, alloc: Global, name: N) -> R<Vec<Offered<N, S>>>
        requires { IsBuilt self.now }
        ensures those { IfOk result (λ v. AreThose self.now name v.items) }
        ensures refusal { IsOkUnless result Memory }
    {
        let variables = self.registry.variables(name);
        let mut registered = Vec::new(alloc);
        for variable in variables {
            if let Some(solvable) = self.coding.solvable(*variable) {
                registered.push(Offered { solvable, name })?;
            }
        }
        Ok(registered)
    }

    /// Adds the at-least-one clauses of a package's registered solvables.
    fn add_registered(&mut self, alloc: Global, name: N) -> R<()>
        requires { IsBuilt self.old }
        ensures added { OnOk result (AddsThose S.eq name self.old self.new) }
        ensures ids { IsErrOf result Ids → LacksNumber self.new.coding }
    {
        if let Some(one) = self.lone_registered(name) {
            self.add_at_least_one(one)?;
            return Ok(());
        }
        let registered = self.registered(alloc, name)?;
        self.add_at_least_ones(registered.as_slice())?;
        Ok(())
    }

    /// Records a condition's package, and adds the at-least-one clauses of its registered
    /// solvables.
    pub(crate) fn record_at_least_one(&mut self, alloc: Global, name: N) -> R<()>
        requires { IsBuilt self.old }
        ensures at_least_one { OnOk result (TracksAtLeastOne S.eq name self.old self.new) }
        ensures ids { IsErrOf result Ids → LacksNumber self.new.coding }
    {
        if self.recorded.at_least_one.contains(name) {
            return Ok(());
        }
        self.add_registered(alloc, name)?;
        add_value(&mut self.recorded.at_least_one, name)?;
        Ok(())
    }

    /// Names a package of a case: its at-least-one clauses come at the encoding's end.
    fn queue_package(&mut self, name: N) -> R<()>
        requires { IsBuilt self.old }
        ensures named { OnOk result (NamesPackage S.eq name self.old self.new) }
        ensures refusal { IsOkUnless result Memory }
    {
        if self.recorded.at_least_one.contains(name) {
            return Ok(());
        }
        add_key(&mut self.recorded.queued, name)?;
        Ok(())
    }

    /// Names the package of a version set, registers the candidates outside it, and returns the
    /// literals of "no match is chosen". Where the package is marked `many`, encodes the matches.
    fn conjunct_literals(&mut self, alloc: Global, set: &ConditionSet<N, S>) -> R<Vec<Literal>>
        requires { IsBuilt self.old }
        ensures at_least_one { IfOk result
            (λ v. CaseLiterals S.eq (set.now ∷ []) v.items self.old self.new) }
        ensures ids { IsErrOf result Ids → LacksNumber self.new.coding }
    {
        if set.many {
            // split for the prover: error and answer
            let literals = self.matches_literals(alloc, set)?;
            return Ok(literals);
        }
        self.queue_package(set.name)?;
        let any = self.give(ProofAtom::AtLeastOne(set.name))?;
        let candidates = self.register(alloc, set.outside.as_slice())?;
        // split for the prover: error and answer
        let literals = none_or_outside(alloc, any, candidates.as_slice())?;
        Ok(literals)
    }

    /// The same for each version set of a case. Most have one.
    pub(crate) fn add_each_at_least_one(
        &mut self,
        alloc: Global,
        sets: &[ConditionSet<N, S>],
    ) -> R<Vec<Literal>>
        requires { IsBuilt self.old }
        ensures at_least_one { IfOk result
            (λ v. CaseLiterals S.eq sets.now v.items self.old self.new) }
        ensures ids { IsErrOf result Ids → LacksNumber self.new.coding }
    {
        if sets.len() == 1 {
            // split for the prover: error and answer
            let literals = self.conjunct_literals(alloc, &sets[0])?;
            return Ok(literals);
        }
        // split for the prover: error and answer
        let literals = self.join_literals(alloc, sets)?;
        Ok(literals)
    }

    /// The literals of all version sets of a case, in a list of their own.
    fn join_literals(&mut self, alloc: Global, sets: &[ConditionSet<N, S>]) -> R<Vec<Literal>>
        requires { IsBuilt self.old }
        ensures at_least_one { IfOk result
            (λ v. CaseLiterals S.eq sets.now v.items self.old self.new) }
        ensures ids { IsErrOf result Ids → LacksNumber self.new.coding }
    {
        let mut literals = Vec::new(alloc);
        for set in sets {
            let mut more = self.conjunct_literals(alloc, set)?;
            literals.append(&mut more)?;
        }
        Ok(literals)
    }
}

/// The literals of "no version is chosen, or one of these is".
fn none_or_outside<N>(alloc: Global, any: VariableId, outside: &[Candidate<N>]) -> R<Vec<Literal>>
    requires { any.0 < 2147483648 }
    ensures literals { IfOk result (λ v. v.items ≡ no any ∷ candidate_literals outside.now) }
    ensures refusal { IsOkUnless result Memory }
{
    let mut literals = Vec::new(alloc);
    literals.push(Literal::new(any, true))?;
    push_candidates(outside, &mut literals)?;
    Ok(literals)
}
