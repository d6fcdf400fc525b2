//! Searches over a few rules, and the steps of their proofs.
ghost use Rattle.std.specs.Prelude.{◌<◌, OnOk, IfOk, IsSome};
ghost use Rattle.resolvo_sat.specs.State.{count_of};
ghost use Rattle.resolvo_sat.specs.Steps.{AreInRange};
ghost use Rattle.resolvo_state.specs.SolverState.{IsCoding};
ghost use Rattle.resolvo_state.specs.ClauseKinds.{rule_of};
ghost use Rattle.resolvo_state.specs.StoredKinds.{plain_kind, IsPlain};

use resolvo_pool::{
    ClauseId, NameId, R, Requirement, SolvableId, StringId, VariableId, VersionSetId,
};
use resolvo_proof::proof::proof_of;
use resolvo_proof::step::{ProofLiteral, ProofRule, ProofStep};
use resolvo_sat::propagate_and_learn::StepResult;
use resolvo_sat::state::SatState;
use resolvo_state::atom::ProofAtom;
use resolvo_state::clause_kind::ClauseKind;
use resolvo_state::solver_state::SolverState;
use resolvo_store::Literal;
use std::alloc::Global;
use std::process::Abort;
use std::test::Fail;

type TestCoding = SolverState<NameId, SolvableId>;

type TestStep = ProofStep<NameId, SolvableId>;

/// The literals of the variables that are there.
fn literals_of(alloc: Global, search: &SatState, signs: &[(u32, bool)]) -> R<Vec<Literal>>
    ensures { IfOk result (λ v. AreInRange (count_of search.now) v.items) }
{
    let mut literals = Vec::new(alloc);
    for (variable, positive) in signs {
        if (*variable as usize) < search.variables.len() && *variable < 2147483648 {
            literals.push(Literal::new(VariableId(*variable), !*positive))?;
        }
    }
    Ok(literals)
}

/// Adds a rule, unless its clause has no literal.
fn state(
    alloc: Global,
    coding: &mut TestCoding,
    kind: ClauseKind<NameId, SolvableId>,
    signs: &[(u32, bool)],
) -> R<()>
    requires coding { IsCoding coding.old }
    requires plain { IsPlain kind }
    requires rule { IsSome (rule_of (plain_kind kind)) }
    ensures { OnOk result (IsCoding coding.new) }
{
    let literals = literals_of(alloc, &coding.search, signs)?;
    if literals.is_empty() {
        return Ok(());
    }
    coding.add_clause(kind, literals.as_slice())?;
    Ok(())
}

/// Adds the variables of some solvables.
fn solvables(alloc: Global, count: u32) -> R<TestCoding>
    ensures { IfOk result IsCoding }
{
    let mut coding: TestCoding = SolverState::begin(alloc)?;
    for number in 0..count {
        coding.variable(ProofAtom::Solvable(SolvableId::from_raw(number)))?;
    }
    Ok(coding)
}

/// Adds that the root needs one of two solvables, and that both are excluded; the refusal of that.
fn refuse(alloc: Global, coding: &mut TestCoding) -> R<Vec<TestStep>>
    requires { IsCoding coding.old }
{
    let needs = ClauseKind::Requires {
        parent: None,
        requirement: Requirement::Single(VersionSetId(3)),
    };
    state(alloc, coding, needs, &[(0, false), (1, true), (2, true)])?;
    exclude(alloc, coding, 0)?;
    exclude(alloc, coding, 1)?;
    steps_of_next(alloc, coding)
}

fn refused(alloc: Global) -> R<Vec<TestStep>> {
    refuse(alloc, &mut solvables(alloc, 2)?)
}

/// Adds that a solvable is excluded.
fn exclude(alloc: Global, coding: &mut TestCoding, number: u16) -> R<()>
    requires { IsCoding coding.old }
    ensures { OnOk result (IsCoding coding.new) }
{
    let excluded = ClauseKind::Excluded {
        solvable: SolvableId::from_raw(u32::from(number)),
        reason: StringId(5),
    };
    state(alloc, coding, excluded, &[(u32::from(number) + 1, false)])
}

/// The steps after one more step of the search.
fn steps_of_next(alloc: Global, coding: &mut TestCoding) -> R<Vec<TestStep>>
    requires { IsCoding coding.old }
{
    match coding.propagate_and_learn(alloc)? {
        StepResult::Refused(refusal) => proof_of(alloc, coding, Some(&refusal)),
        _ => proof_of(alloc, coding, None),
    }
}

/// A solvable is chosen that needs another one, and keeps it out; the clause learnt then.
fn learn(alloc: Global, coding: &mut TestCoding) -> R<Vec<TestStep>>
    requires { IsCoding coding.old }
{
    let shared = ClauseKind::GateRequires {
        requirement: Requirement::Single(VersionSetId(3)),
    };
    state(alloc, coding, shared, &[(1, false), (2, true)])?;
    let limits = ClauseKind::Constrains {
        parent: Some(SolvableId::from_raw(0)),
        version_set: VersionSetId(4),
        excluded: SolvableId::from_raw(1),
    };
    state(alloc, coding, limits, &[(1, false), (2, false)])?;
    coding.propagate_and_learn(alloc)?;
    choose_first(coding)?;
    steps_of_next(alloc, coding)
}

fn learnt(alloc: Global) -> R<Vec<TestStep>> {
    learn(alloc, &mut solvables(alloc, 2)?)
}

/// Chooses the first solvable, where it is there and has no value.
fn choose_first(coding: &mut TestCoding) -> R<()>
    requires { IsCoding coding.old }
    ensures { OnOk result (IsCoding coding.new) }
{
    let first = VariableId(1);
    let literal = Literal::new(first, false);
    if coding.search.variables.len() > 1
        && !coding.search.is_true(literal)
        && !coding.search.is_false(literal)
    {
        coding.choose(first, ClauseId(1))?;
    }
    Ok(())
}

/// The solvable that a step excludes.
fn excluded(step: &TestStep) -> Option<SolvableId> {
    match step {
        ProofStep::Rule(ProofRule::Excluded { solvable, .. }) => Some(*solvable),
        _ => None,
    }
}

/// The requirement that a step needs.
fn needed(step: &TestStep) -> Option<Requirement> {
    match step {
        ProofStep::Rule(ProofRule::Needs { requirement, .. }) => Some(*requirement),
        _ => None,
    }
}

/// The literals of a derived step.
fn literals(step: &TestStep) -> Option<&[ProofLiteral<NameId, SolvableId>]> {
    match step {
        ProofStep::Derived { literals, .. } => Some(literals.as_slice()),
        _ => None,
    }
}

/// The causes of a derived step.
fn causes(step: &TestStep) -> Option<&[usize]> {
    match step {
        ProofStep::Derived { causes, .. } => Some(causes.as_slice()),
        _ => None,
    }
}

fn shows_a_refusal(rt: &impl Abort, steps: &[TestStep]) {
    assert_eq!(rt; steps.len(), 4);
    assert_eq!(rt;
        needed(&steps[0]),
        Some(Requirement::Single(VersionSetId(3)))
    );
    assert_eq!(rt; excluded(&steps[1]), Some(SolvableId::from_raw(0)));
    assert_eq!(rt; excluded(&steps[2]), Some(SolvableId::from_raw(1)));
    assert_eq!(rt; literals(&steps[3]), Some([].as_slice()));
    assert_eq!(rt; causes(&steps[3]), Some([1, 2, 0].as_slice()));
}

/// The rules are in the order in which they were added. The last step has no literals: both
/// solvables are out, which falsifies the first rule.
#[test]
fn refusal(rt: HostRuntime) -> Result<(), Fail> {
    shows_a_refusal(&rt, refused(rt.alloc())?.as_slice());
    Ok(())
}

fn shows_the_learnt_clause(rt: &impl Abort, steps: &[TestStep]) {
    let out = ProofLiteral {
        atom: ProofAtom::Solvable(SolvableId::from_raw(0)),
        positive: false,
    };
    assert_eq!(rt; steps.len(), 3);
    assert_eq!(rt; literals(&steps[2]), Some([out].as_slice()));
    assert_eq!(rt; causes(&steps[2]), Some([1, 0].as_slice()));
}

/// The learnt clause excludes the first solvable. With it, the rule added last, which is met first,
/// keeps the second one out. Then the other rule is falsified.
#[test]
fn learning(rt: HostRuntime) -> Result<(), Fail> {
    shows_the_learnt_clause(&rt, learnt(rt.alloc())?.as_slice());
    Ok(())
}
