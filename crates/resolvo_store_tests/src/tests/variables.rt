//! Each call of the map of variables that may want memory, once, with ample memory. Its answers are
//! promised by the contracts; `checks/calls.py` shows some of them.

use resolvo_pool::{NameId, R, Requirement, SolvableId, SolvableIdOrRoot, VersionSetId};
use resolvo_store::VariableMap;
use std::alloc::Global;

fn alloc_each(map: &mut VariableMap<NameId, SolvableId>) -> R<()> {
    map.intern_solvable(SolvableId::from_raw(40))?;
    map.intern_solvable_or_root(SolvableIdOrRoot::Root)?;
    map.alloc_forbid_multiple_variable(NameId::from_raw(6))?;
    map.alloc_at_least_one_variable(NameId::from_raw(6))?;
    map.alloc_constrains_violation_variable(VersionSetId(8))?;
    map.alloc_requires_gate_variable(Requirement::Single(VersionSetId(9)))?;
    map.alloc_matches_variable(VersionSetId(10))?;
    Ok(())
}

fn allocated(alloc: Global) -> R<()> {
    alloc_each(&mut VariableMap::new(alloc))
}

#[test]
fn each_origin(rt: HostRuntime) {
    assert_eq!(rt; allocated(rt.alloc()), Ok(()));
}
