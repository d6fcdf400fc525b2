//! Solvables of one package are registered, and one of them is chosen.
ghost use Rattle.std.specs.Prelude.{◌<◌, OnOk};
ghost use Rattle.resolvo_sat.specs.State.{count_of};
ghost use Rattle.resolvo_state.specs.SolverState.{IsCoding, Grows};
ghost use Rattle.resolvo_state.specs.Registered.{AreTied};

use resolvo_pool::{NameId, R, Requirement, SolvableId, StringId, VariableId, VersionSetId};
use resolvo_state::clause_kind::ClauseKind;
use resolvo_state::registry::Registry;
use resolvo_state::solver_state::SolverState;
use resolvo_store::Literal;
use std::alloc::Global;
use std::test::Fail;

/// Registers so many solvables of one package, each twice, and places each.
fn register(
    coding: &mut SolverState<NameId, SolvableId>,
    registry: &mut Registry<NameId>,
    count: u32,
) -> R<()>
    requires coding { IsCoding coding.old }
    requires tied { AreTied registry.old coding.old }
{
    let name = NameId::from_raw(7);
    for number in 0..count {
        let solvable = SolvableId::from_raw(number);
        registry.register(coding, name, solvable)?;
        registry.register(coding, name, solvable)?;
        registry.place(coding, name, solvable)?;
    }
    Ok(())
}

/// The counts after so many solvables of one package were registered, each twice, and placed.
fn registered(alloc: Global, count: u32) -> R<SolverState<NameId, SolvableId>> {
    let mut coding: SolverState<NameId, SolvableId> = SolverState::begin(alloc)?;
    register(&mut coding, &mut Registry::new(alloc), count)?;
    Ok(coding)
}

/// How many clauses there are then.
fn clauses(alloc: Global, count: u32) -> R<usize> {
    let coding = registered(alloc, count)?;
    Ok(coding.search.clauses.len())
}

/// The digits and places of the clauses then.
fn places(alloc: Global, count: u32) -> R<Vec<(u32, u32)>> {
    let coding = registered(alloc, count)?;
    let mut places = Vec::new(alloc);
    for number in 0..coding.kinds.len() {
        let kind = coding.kinds.get(number);
        if let ClauseKind::ForbidMultipleInstances { place, bit, .. } = kind {
            places.push((place, bit))?;
        }
    }
    Ok(places)
}

/// The first clause is the root's; then there is one for each solvable and each digit.
#[test]
fn digits(rt: HostRuntime) -> Result<(), Fail> {
    assert_eq!(rt; clauses(rt.alloc(), 1)?, 1);
    assert_eq!(rt; clauses(rt.alloc(), 2)?, 3);
    assert_eq!(rt; clauses(rt.alloc(), 4)?, 9);
    assert_eq!(rt; clauses(rt.alloc(), 5)?, 16);
    Ok(())
}

/// Where a digit is new, the clauses of the solvables before are first, in their order.
#[test]
fn each_place(rt: HostRuntime) -> Result<(), Fail> {
    assert_eq!(rt; places(rt.alloc(), 1)?.len(), 0);
    assert_eq!(rt;
        places(rt.alloc(), 4)?.as_slice(),
        [
            (0, 0),
            (1, 0),
            (0, 1),
            (1, 1),
            (2, 0),
            (2, 1),
            (3, 0),
            (3, 1)
        ]
        .as_slice()
    );
    Ok(())
}

/// The solvables that are chosen where one of two is needed, and the first is excluded.
fn one_of_two(alloc: Global) -> R<Vec<SolvableId>> {
    choose_one(
        alloc,
        &mut SolverState::begin(alloc)?,
        &mut Registry::new(alloc),
    )
}

/// Registers and places two solvables, adds that one is needed and the first excluded, and returns
/// the chosen ones.
fn choose_one(
    alloc: Global,
    coding: &mut SolverState<NameId, SolvableId>,
    registry: &mut Registry<NameId>,
) -> R<Vec<SolvableId>>
    requires coding { IsCoding coding.old }
    requires tied { AreTied registry.old coding.old }
{
    let name = NameId::from_raw(7);
    let excluded = SolvableId::from_raw(0);
    let other = SolvableId::from_raw(1);
    let first = registry.register(coding, name, excluded)?;
    registry.place(coding, name, excluded)?;
    let second = registry.register(coding, name, other)?;
    registry.place(coding, name, other)?;
    need_one(coding, first, second)?;
    exclude(coding, excluded, first)?;
    coding.propagate_and_learn(alloc)?;
    coding.chosen(alloc)
}

/// Adds that one of two solvables is needed.
fn need_one(
    coding: &mut SolverState<NameId, SolvableId>,
    first: VariableId,
    second: VariableId,
) -> R<()>
    requires coding { IsCoding coding.old }
    requires first { first.0 < count_of coding.old.search }
    requires second { second.0 < count_of coding.old.search }
    ensures coding { OnOk result (IsCoding coding.new) }
    ensures grows { OnOk result (Grows coding.old coding.new) }
{
    let literals = [Literal::new(first, false), Literal::new(second, false)];
    let kind = ClauseKind::Requires {
        parent: None,
        requirement: Requirement::Single(VersionSetId(0)),
    };
    coding.add_clause(kind, &literals)?;
    Ok(())
}

/// Adds that a solvable is excluded.
fn exclude(
    coding: &mut SolverState<NameId, SolvableId>,
    solvable: SolvableId,
    variable: VariableId,
) -> R<()>
    requires coding { IsCoding coding.old }
    requires variable { variable.0 < count_of coding.old.search }
    ensures coding { OnOk result (IsCoding coding.new) }
{
    let literals = [Literal::new(variable, true)];
    let kind = ClauseKind::Excluded {
        solvable,
        reason: StringId(0),
    };
    coding.add_clause(kind, &literals)?;
    Ok(())
}

#[test]
fn the_other_one(rt: HostRuntime) -> Result<(), Fail> {
    assert_eq!(rt;
        one_of_two(rt.alloc())?.as_slice(),
        [SolvableId::from_raw(1)].as_slice()
    );
    Ok(())
}
