//! Which solvables the trail makes true.
ghost use Rattle.std.specs.Prelude.{◌≡◌, IfOk, IsOkUnless};
ghost use Rattle.resolvo_pool_core.specs.declared.want.Want.TheVariants.{Memory};
ghost use Rattle.resolvo_sat.specs.Entries.{made_true};
ghost use Rattle.resolvo_sat.specs.State.{history};
ghost use Rattle.resolvo_state.specs.Chosen.{AreChosen, choices};

use crate::solver_state::SolverState;
use resolvo_pool_core::id::Exact;
use resolvo_pool_core::want::R;
use std::alloc::Global;
use std::fmt::Debug;
use std::hash::Hash;

impl<N: Copy + Exact + Hash + Debug, S: Copy + Exact + Hash + Debug> SolverState<N, S> {
    /// The solvables whose variables the trail makes true, in the order of the trail.
    pub fn chosen(&self, alloc: Global) -> R<Vec<S>>
        ensures chosen { IfOk result
            (λ v. AreChosen self.now.atoms.keys (made_true (history self.now.search)) v.items) }
        ensures in_order { IfOk result
            (λ v. v.items ≡ choices self.now.atoms.keys self.now.search.tracker.trail) }
        ensures refusal { IsOkUnless result Memory }
    {
        let mut chosen = Vec::new(alloc);
        for entry in self.search.tracker.stack() {
            if entry.decision.value {
                if let Some(solvable) = self.solvable(entry.decision.variable) {
                    chosen.push(solvable)?;
                }
            }
        }
        Ok(chosen)
    }
}
