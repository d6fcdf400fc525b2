//! Writes the steps of clauses: a rule as it is, a derived clause with the atoms of its literals.
//! The root's literals and its clause are left out, so clause n is step n - 1.
ghost use Rattle.std.specs.Prelude.{◌≡◌, ◌<◌, ◌++◌, length, map, IfOk, IsOkUnless};
ghost use Rattle.resolvo_pool_core.specs.declared.want.Want.TheVariants.{Memory};
ghost use Rattle.resolvo_sat.specs.State.{count_of};
ghost use Rattle.resolvo_sat.specs.Steps.{AreInRange};
ghost use Rattle.resolvo_sat.specs.Numbered.{meanings};
ghost use Rattle.resolvo_state.specs.Atoms.{origin};
ghost use Rattle.resolvo_state.specs.SolverState.{IsCoding};
ghost use Rattle.resolvo_state.specs.Kinds.{Needs};
ghost use Rattle.resolvo_state.specs.StoredKinds.{kind_in, plain_kind, IsWithin};
ghost use Rattle.resolvo_proof.specs.Steps.{literal_in};
ghost use Rattle.resolvo_proof.specs.Written.{places, atoms_of, forbid_rule, definition_rule, IsRuleOf, IsDerivation, IsStepAt};

use crate::step::{ProofLiteral, ProofRule, ProofStep};
use resolvo_pool_core::id::{ClauseId, Exact, VariableId};
use resolvo_pool_core::want::R;
use resolvo_state::atom::ProofAtom;
use resolvo_state::clause_kind::{ClauseKind, Need};
use resolvo_state::clause_kinds::ClauseKinds;
use resolvo_state::solver_state::SolverState;
use resolvo_store_core::literal::Literal;
use std::alloc::Global;
use std::fmt::Debug;
use std::hash::Hash;

/// The step of a clause after the root's.
pub(crate) fn write_step<N: Copy + Exact + Hash + Debug, S: Copy + Exact + Hash + Debug>(
    alloc: Global,
    coding: &SolverState<N, S>,
    number: usize,
) -> R<ProofStep<N, S>>
    requires coding { IsCoding coding.now }
    requires behind { 0 < number }
    requires in_range { number < length coding.now.search.clauses }
    ensures step { IfOk result (IsStepAt coding.now number) }
    ensures refusal { IsOkUnless result Memory }
{
    let kind = coding.kinds.get(number);
    match write_rule(&coding.kinds, kind, alloc)? {
        Some(rule) => Ok(ProofStep::Rule(rule)),
        None => {
            let (own, shared) = coding.search.clauses.literals(number);
            let causes = coding.search.clauses.causes(number);
            let literals = joined(alloc, own, shared)?;
            // split for the prover: error and answer
            let step = write_derived(alloc, coding, literals.as_slice(), causes)?;
            Ok(step)
        }
    }
}

/// Some literals, and then others.
fn joined(alloc: Global, first: &[Literal], more: &[Literal]) -> R<Vec<Literal>>
    ensures joined { IfOk result (λ literals. literals.items ≡ first.now ++ more.now) }
    ensures refusal { IsOkUnless result Memory }
{
    let mut literals = Vec::new(alloc);
    literals.extend_from_slice(first)?;
    literals.extend_from_slice(more)?;
    Ok(literals)
}

/// A derived step of these literals and antecedents.
pub(crate) fn write_derived<N: Copy + Exact + Hash + Debug, S: Copy + Exact + Hash + Debug>(
    alloc: Global,
    coding: &SolverState<N, S>,
    literals: &[Literal],
    causes: &[ClauseId],
) -> R<ProofStep<N, S>>
    requires coding { IsCoding coding.now }
    requires in_range { AreInRange (count_of coding.now.search) literals.now }
    ensures step { IfOk result (IsDerivation coding.now.atoms.keys literals.now causes.now) }
    ensures refusal { IsOkUnless result Memory }
{
    Ok(ProofStep::Derived {
        literals: write_literals(alloc, coding, literals)?,
        causes: write_causes(alloc, causes)?,
    })
}

/// The literals by their atoms, except the root's.
fn write_literals<N: Copy + Exact + Hash + Debug, S: Copy + Exact + Hash + Debug>(
    alloc: Global,
    coding: &SolverState<N, S>,
    literals: &[Literal],
) -> R<Vec<ProofLiteral<N, S>>>
    requires coding { IsCoding coding.now }
    requires in_range { AreInRange (count_of coding.now.search) literals.now }
    ensures written { IfOk result
        (λ v. map literal_in v.items ≡ meanings (origin coding.now.atoms.keys) literals.now) }
    ensures refusal { IsOkUnless result Memory }
{
    let mut written = Vec::new(alloc);
    for literal in literals {
        if let Some(atom) = atom_of(coding, literal.variable()) {
            written.push(ProofLiteral {
                atom,
                positive: literal.satisfying_value(),
            })?;
        }
    }
    Ok(written)
}

/// The atom that a variable represents; the root's represents none.
fn atom_of<N: Copy + Exact + Hash + Debug, S: Copy + Exact + Hash + Debug>(
    coding: &SolverState<N, S>,
    variable: VariableId,
) -> Option<ProofAtom<N, S>>
    ensures { result ≡ atoms_of coding.now.atoms.keys variable.0 }
{
    let place = (variable.0 as usize).checked_sub(1)?;
    coding.atoms.get_index(place).copied()
}

/// The antecedents as places of steps, except the root's clause, which is no step.
fn write_causes(alloc: Global, causes: &[ClauseId]) -> R<Vec<usize>>
    ensures written { IfOk result (λ v. v.items ≡ places causes.now) }
    ensures refusal { IsOkUnless result Memory }
{
    let mut written = Vec::new(alloc);
    for cause in causes {
        if let Some(place) = (cause.0 as usize).checked_sub(1) {
            written.push(place)?;
        }
    }
    Ok(written)
}

/// The rule that a clause encodes. The root's clause and a learnt one encode none.
fn write_rule<N: Copy + Exact + Hash + Debug, S: Copy + Exact + Hash + Debug>(
    kinds: &ClauseKinds<N, S>,
    kind: ClauseKind<N, S>,
    alloc: Global,
) -> R<Option<ProofRule<N, S>>>
    requires within { IsWithin (length kinds.now.needs) kind }
    ensures encoded { IfOk result (IsRuleOf (kind_in kinds.now.needs kind)) }
    ensures refusal { IsOkUnless result Memory }
{
    match kind {
        ClauseKind::InstallRoot | ClauseKind::Learnt => Ok(None),
        ClauseKind::Requires {
            parent,
            requirement,
        } => Ok(Some(ProofRule::Needs {
            parent,
            requirement,
            case: Vec::new(alloc),
        })),
        ClauseKind::RequiresIf { need } => write_need(kinds.need(need)),
        ClauseKind::RequiresGate {
            solvable,
            requirement,
        } => Ok(Some(ProofRule::GateOf {
            parent: solvable,
            requirement,
        })),
        ClauseKind::Constrains { .. }
        | ClauseKind::ConstrainsParent { .. }
        | ClauseKind::Lock { .. }
        | ClauseKind::Excluded { .. } => Ok(forbid_rule(kind)),
        kind => Ok(definition_rule(kind)),
    }
}

/// The rule of a need under a condition.
fn write_need<N, S: Copy>(need: &Need<S>) -> R<Option<ProofRule<N, S>>>
    ensures encoded { IfOk result (IsRuleOf (Needs need.now.parent need.now.need need.now.case)) }
    ensures refusal { IsOkUnless result Memory }
{
    Ok(Some(ProofRule::Needs {
        parent: need.parent,
        requirement: need.need.requirement,
        case: need.case.version_sets()?,
    }))
}

/// The rule of a clause that defines an atom. Other clauses have none.
fn definition_rule<N: Copy, S: Copy>(kind: ClauseKind<N, S>) -> Option<ProofRule<N, S>>
    ensures { result ≡ definition_rule (plain_kind kind) }
{
    match kind {
        ClauseKind::GateRequires { requirement } => Some(ProofRule::Shared { requirement }),
        ClauseKind::ConstrainsExcluded {
            version_set,
            excluded,
        } => Some(ProofRule::Outside {
            version_set,
            solvable: excluded,
        }),
        ClauseKind::ForbidMultipleInstances {
            solvable,
            place,
            bit,
            ..
        } => Some(ProofRule::Digit {
            solvable,
            place,
            bit,
        }),
        ClauseKind::AnyOf { name, solvable } => Some(ProofRule::AtLeastOne { name, solvable }),
        ClauseKind::AnyMatch {
            version_set,
            solvable,
        } => Some(ProofRule::Matches {
            version_set,
            solvable,
        }),
        _ => None,
    }
}

/// The rule by which a clause forbids a solvable, or whatever is outside a version set. Other
/// clauses have none.
fn forbid_rule<N: Copy, S: Copy>(kind: ClauseKind<N, S>) -> Option<ProofRule<N, S>>
    ensures { result ≡ forbid_rule (plain_kind kind) }
{
    match kind {
        ClauseKind::Constrains {
            parent,
            version_set,
            excluded,
        } => Some(ProofRule::Limit {
            parent,
            version_set,
            barred: Some(excluded),
        }),
        ClauseKind::ConstrainsParent {
            parent,
            version_set,
        } => Some(ProofRule::Limit {
            parent,
            version_set,
            barred: None,
        }),
        ClauseKind::Lock { locked, other } => Some(ProofRule::Locked {
            locked,
            barred: other,
        }),
        ClauseKind::Excluded { solvable, reason } => Some(ProofRule::Excluded { solvable, reason }),
        _ => None,
    }
}
