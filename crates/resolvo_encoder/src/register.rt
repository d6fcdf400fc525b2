//! Registers solvables: candidates of a requirement, candidates outside a case's version set, and
//! soft requirements. They wait for their digits and at-least-one clauses until the encoding's end.
ghost use Rattle.std.specs.Prelude.{IfOk, IsErrOf};
ghost use Rattle.resolvo_pool_core.specs.declared.want.Want.TheVariants.{Ids};
ghost use Rattle.resolvo_state.specs.SolverState.{IsCoding, LacksNumber};
ghost use Rattle.resolvo_state.specs.Registered.{AreTied};
ghost use Rattle.resolvo_encoder.specs.Steps.{RegistersOne, RegistersAll, IsBuilt, Enrols};
ghost use Rattle.resolvo_encoder.specs.SoftRequirement.{RegistersSoft};

use crate::encoder::Encoder;
use resolvo_packages::package_source::Offered;
use resolvo_pool_core::id::{Exact, VariableId};
use resolvo_pool_core::want::R;
use resolvo_state::registry::Registry;
use resolvo_state::solver_state::SolverState;
use resolvo_store_core::lists::Candidate;
use resolvo_store_core::literal::Literal;
use std::alloc::Global;
use std::fmt::Debug;
use std::hash::Hash;

impl<N: Copy + Exact + Hash + Debug + Drop, S: Copy + Exact + Hash + Debug> Encoder<N, S> {
    /// Registers the offered solvables, and returns them as candidates.
    pub(crate) fn register(
        &mut self,
        alloc: Global,
        offered: &[Offered<N, S>],
    ) -> R<Vec<Candidate<N>>>
        requires { IsBuilt self.old }
        ensures enrolled { IfOk result (λ v. Enrols S.eq offered.now v.items self.old self.new) }
        ensures ids { IsErrOf result Ids → LacksNumber self.new.coding }
    {
        // split for the prover: error and answer
        let given = register_all(alloc, &mut self.registry, &mut self.coding, offered)?;
        Ok(given)
    }

    /// Registers a soft requirement, and returns its variable.
    pub(crate) fn register_soft(&mut self, soft: Offered<N, S>) -> R<VariableId>
        requires { IsBuilt self.old }
        ensures registered { IfOk result (λ v. RegistersSoft S.eq soft v self.old self.new) }
        ensures ids { IsErrOf result Ids → LacksNumber self.new.coding }
    {
        // split for the prover: error and answer
        let variable = self
            .registry
            .register(&mut self.coding, soft.name, soft.solvable)?;
        Ok(variable)
    }
}

/// Registers the offered solvables, and returns them as candidates.
fn register_all<N: Copy + Exact + Hash + Debug, S: Copy + Exact + Hash + Debug>(
    alloc: Global,
    registry: &mut Registry<N>,
    coding: &mut SolverState<N, S>,
    offered: &[Offered<N, S>],
) -> R<Vec<Candidate<N>>>
    requires coding { IsCoding coding.old }
    requires tied { AreTied registry.old coding.old }
    ensures registered { IfOk result
        (λ v. RegistersAll offered.now v.items registry.old coding.old registry.new coding.new) }
    ensures ids { IsErrOf result Ids → LacksNumber coding.new }
{
    let mut candidates = Vec::with_capacity(alloc, offered.len())?;
    for one in offered {
        let candidate = register_one(registry, coding, *one)?;
        candidates.push(candidate)?;
    }
    Ok(candidates)
}

/// Registers an offered solvable, and returns it as a candidate.
fn register_one<N: Copy + Exact + Hash + Debug, S: Copy + Exact + Hash + Debug>(
    registry: &mut Registry<N>,
    coding: &mut SolverState<N, S>,
    one: Offered<N, S>,
) -> R<Candidate<N>>
    requires coding { IsCoding coding.old }
    requires tied { AreTied registry.old coding.old }
    ensures registered { IfOk result
        (λ c. RegistersOne one c registry.old coding.old registry.new coding.new) }
    ensures ids { IsErrOf result Ids → LacksNumber coding.new }
{
    let variable = registry.register(coding, one.name, one.solvable)?;
    Ok(Candidate {
        literal: Literal::new(variable, false),
        package: one.name,
    })
}
