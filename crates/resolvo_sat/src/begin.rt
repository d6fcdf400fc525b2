//! The initial state of the search: the root is true, and there is no other variable.
ghost use Rattle.std.specs.Prelude.{◌≡◌, ◌∷◌, [], length, IfOk, IsErrOf, IsOkUnless};
ghost use Rattle.resolvo_pool_core.specs.declared.want.Want.TheVariants.{Memory, Ids};
ghost use Rattle.resolvo_store_core.specs.Clauses.{yes, root};
ghost use Rattle.resolvo_sat.specs.Clauses.{sat_clause};
ghost use Rattle.resolvo_sat.specs.State.{IsState, count_of, history};
ghost use Rattle.resolvo_sat.specs.Propagation.{IsReady, AreCovered};
ghost use Rattle.resolvo_sat.specs.Begin.{Begun, AddsVariable};

use crate::clause_database::ClauseDatabase;
use crate::marks::Marks;
use crate::state::{SatState, VariableKind};
use crate::watch_lists::WatchLists;
use resolvo_pool_core::id::{ClauseId, VariableId};
use resolvo_pool_core::want::{R, Want};
use resolvo_store_core::decision::Decision;
use resolvo_store_core::decision_tracker::DecisionTracker;
use resolvo_store_core::literal::Literal;
use resolvo_store_core::watch_map::WatchMap;
use resolvo_store_core::watched_pair::WatchedPair;
use std::alloc::Global;

/// The initial state of the search. The first clause asserts the root, which is the first variable
/// and the first entry of the trail, at level 1.
pub fn begin(alloc: Global) -> R<(SatState, WatchLists)>
    ensures begun { IfOk result (λ p. Begun p.0 p.1) }
    ensures refusal { IsOkUnless result Memory }
{
    let mut variables = Vec::new(alloc);
    variables.push(VariableKind::Root)?;
    let mut tracker = DecisionTracker::new(alloc);
    tracker.try_add_decision(
        Decision {
            variable: VariableId(0),
            value: true,
            derived_from: ClauseId(0),
        },
        1,
    )?;
    let mut watched = Vec::new(alloc);
    watched.push(WatchedPair::of(None))?;
    let state = SatState {
        variables,
        clauses: root_clause(alloc)?,
        tracker,
        base_level: 1,
        qhead: 0,
        guard_level: 0,
        indexed: 0,
    };
    let watching = WatchLists {
        watched,
        watches: WatchMap::new(alloc),
        assertions: Vec::new(alloc),
        learnt: Vec::new(alloc),
        units_done: Vec::new(alloc),
        pending: Vec::new(alloc),
        places: Vec::new(alloc),
        passed: Vec::new(alloc),
        at_once: Vec::new(alloc),
        is_broken: false,
        seen: Marks::new(alloc),
    };
    Ok((state, watching))
}

/// The clauses at the start: the one that asserts the root, alone.
fn root_clause(alloc: Global) -> R<ClauseDatabase>
    ensures clause { IfOk result (λ c. c ≡ sat_clause (yes root ∷ []) [] ∷ []) }
    ensures refusal { IsOkUnless result Memory }
{
    let mut clauses = ClauseDatabase::new(alloc);
    clauses.push(&[Literal::new(VariableId(0), false)], &[])?;
    Ok(clauses)
}

impl SatState {
    /// Adds a variable with the next number. There are 2,147,483,647 at most.
    pub fn add_variable(&mut self, kind: VariableKind) -> R<VariableId>
        requires { IsState self.old }
        ensures added { IfOk result (λ v. AddsVariable kind v self.old self.new) }
        ensures ids { IsErrOf result Ids → count_of self.old ≡ 2147483647 }
        ensures full { IsErrOf result Ids → count_of self.new ≡ 2147483647 }
    {
        let number = self.variables.len();
        if number >= 2147483647 {
            return Err(Want::Ids);
        }
        self.variables.push(kind)?;
        Ok(VariableId(number as u32))
    }
}
