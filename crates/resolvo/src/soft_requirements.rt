//! The turns of soft requirements. One that is true before its turn is recorded, and one that is
//! false is refused. Any other is registered, recorded, and assumed at the first level of its turn,
//! before it is encoded. If it conflicts with the earlier choices, a learnt clause is the reason,
//! and these choices are kept.
ghost use Rattle.std.specs.Prelude.{◌≡◌, ◌<◌, true, length, Some, IfOk, IfErr, IfSome, OnOk, IsOkUnless};
ghost use Rattle.resolvo_pool.specs.Cached.{IsCancelledBy};
ghost use Rattle.resolvo_pool_core.specs.declared.want.Want.TheVariants.{Memory};
ghost use Rattle.resolvo_store_core.specs.AtMostOne.{IsPrefixOf};
ghost use Rattle.resolvo_store_core.specs.Clauses.{yes, no};
ghost use Rattle.resolvo_store_core.specs.Signed.{has};
ghost use Rattle.resolvo_sat.specs.Entries.{made_true};
ghost use Rattle.resolvo_sat.specs.Known.{IsUndecided};
ghost use Rattle.resolvo_sat.specs.State.{history};
ghost use Rattle.resolvo_state.specs.Atoms.{Represents};
ghost use Rattle.resolvo_state.specs.declared.atom.ProofAtom.TheVariants.{Solvable};
ghost use Rattle.resolvo_encoder.specs.Base.{base_of, IsOpen};
ghost use Rattle.resolvo_encoder.specs.Encoded.{StaysEncoding};
ghost use Rattle.resolvo_encoder.specs.Progress.{GoesOn};
ghost use Rattle.resolvo_encoder.specs.Steps.{IsBuilt};
ghost use Rattle.resolvo_encoder.specs.SoftRequirement.{turn_of, IsSoft};
ghost use Rattle.resolvo_turn.specs.Encoder.{AddsParents};
ghost use Rattle.resolvo_turn.specs.Turn.{IsRooted, IsTurn};
ghost use Rattle.resolvo_turn.specs.TurnRules.{StaysInOrderOf};
ghost use Rattle.resolvo.specs.Turns.{AreAt, RecordsOutcome, AreAtOrRefused};
ghost use Rattle.resolvo.specs.SoftTurns.{AreTrueParents, IsClosed, IsOpenSoft, IsOutcome, IsRefusable, IsRejected, IsSettled, KeepsRest, KeepsTrail, Settles};
ghost use Rattle.resolvo.specs.declared.soft_requirements.SoftOutcome.TheVariants.{Refused};
ghost use Rattle.resolvo.specs.Results.{RunsSoft, RunsSofts};

use crate::turns::Turns;
use resolvo_encoder::encoder::Encoder;
use resolvo_packages::package_source::{Offered, PackageSource};
use resolvo_pool::cache::CacheFault;
use resolvo_pool_core::id::{ClauseId, Exact, VariableId};
use resolvo_pool_core::id_map::ScoreMap;
use resolvo_pool_core::want::R;
use resolvo_sat::analyze::FinalConflict;
use resolvo_state::atom::ProofAtom;
use resolvo_store_core::literal::Literal;
use resolvo_turn::turn::run_turn;
use resolvo_turn::turn_input::TurnInput;
use resolvo_turn::turn_state::TurnState;
use std::alloc::Global;
use std::fmt::Debug;
use std::hash::Hash;

/// The outcome of the turn of a soft requirement.
#[derive(Debug, Drop)]
pub enum SoftOutcome {
    /// It was true already.
    AlreadyChosen,
    /// It was chosen, with its dependencies.
    Chosen,
    /// It conflicts with the earlier choices: this learnt clause is the reason.
    Refused(ClauseId),
    /// No solvables keep all rules.
    Unsat(FinalConflict),
}

/// Begins the turn of a recorded soft requirement that is undecided, and decides it.
fn open_turn<N: Copy + Exact + Hash + Debug, S: Copy + Exact + Hash + Debug>(
    encoding: &mut Encoder<N, S>,
    variable: VariableId,
) -> R<()>
    requires built { IsBuilt encoding.old }
    requires soft { IsSoft encoding.old variable }
    requires open { IsUndecided (made_true (history encoding.old.coding.search)) (yes variable) }
    // After an answer.
    ensures stays { OnOk result (StaysEncoding S.eq encoding.old encoding.new) }
    ensures goes_on { OnOk result (GoesOn (turn_of encoding.old) encoding.new) }
    ensures turn { OnOk result
        (IsOpen encoding.new variable
        × (base_of encoding.new ≡ history encoding.old.coding.search)) }
    ensures built { OnOk result (IsBuilt encoding.new) }
    // After a refusal.
    ensures refusal { IsOkUnless result Memory }
{
    encoding.begin_turn();
    encoding.choose_soft(variable)?;
    Ok(())
}

/// The turn of a recorded soft requirement that is undecided. Keeps the earlier trail.
fn run_open<A: PackageSource, C: ScoreMap<A::NameId>>(
    alloc: Global,
    answers: &mut A,
    encoding: &mut Encoder<A::NameId, A::SolvableId>,
    state: &mut TurnState<A::NameId, A::SolvableId, C>,
    input: &TurnInput<'_>,
    soft: A::SolvableId,
    variable: VariableId,
) -> Result<Option<FinalConflict>, CacheFault<A::Cancel>>
    requires built { IsBuilt encoding.old }
    requires rooted { IsRooted encoding.old }
    requires soft { IsSoft encoding.old variable }
    requires open { IsUndecided (made_true (history encoding.old.coding.search)) (yes variable) }
    requires taken { AreTrueParents encoding.old }
    // Whatever the answer.
    ensures same { answers.new ≡ answers.old }
    // After an answer.
    ensures stays { OnOk result
        (StaysInOrderOf A.SolvableId.eq A.PackageSource answers.old
        input.now encoding.old encoding.new) }
    ensures adds { OnOk result (AddsParents (turn_of encoding.old) encoding.new) }
    ensures turn { OnOk result
        (IsOpen encoding.new variable
        × (base_of encoding.new ≡ history encoding.old.coding.search)) }
    ensures ended { IfOk result (IsTurn A.SolvableId.eq (Some variable) encoding.new) }
    ensures built { OnOk result (IsBuilt encoding.new) }
    // After a refusal.
    ensures cancelled { IfErr result (IsCancelledBy (A.may_cancel answers.old)) }
{
    open_turn(encoding, variable)?;
    encoding.add_parent(soft)?;
    // split for the prover: error and answer
    let refusal = run_turn(alloc, answers, encoding, state, input, Some(variable))?;
    Ok(refusal)
}

/// Undoes the refused turn of the last soft requirement, and adds the clause that is the reason.
fn refuse<N: Copy + Exact + Hash + Debug, S: Copy + Exact + Hash + Debug>(
    encoding: &mut Encoder<N, S>,
    refusal: FinalConflict,
) -> R<ClauseId>
    requires built { IsBuilt encoding.old }
    requires refused { IsRefusable encoding.old refusal }
    requires some { 0 < length refusal.literals.items }
    // After an answer.
    ensures stays { OnOk result (StaysEncoding S.eq encoding.old encoding.new) }
    ensures rest { OnOk result (KeepsRest encoding.old encoding.new) }
    ensures refused { IfOk result
        (λ clause. IsRejected refusal encoding.old encoding.new (Refused clause)) }
    ensures built { OnOk result (IsBuilt encoding.new) }
{
    encoding.undo_turn();
    let clause = encoding.learn_refusal(refusal)?;
    encoding.drop_soft();
    Ok(clause)
}

/// The outcome of the last soft requirement's turn, by its conflict, if there was one. A conflict
/// without literals refutes the whole problem.
fn close_turn<N: Copy + Exact + Hash + Debug, S: Copy + Exact + Hash + Debug>(
    encoding: &mut Encoder<N, S>,
    turn: Option<FinalConflict>,
) -> R<SoftOutcome>
    requires built { IsBuilt encoding.old }
    requires refused { IfSome turn (IsRefusable encoding.old) }
    // After an answer.
    ensures stays { OnOk result (StaysEncoding S.eq encoding.old encoding.new) }
    ensures rest { OnOk result (KeepsRest encoding.old encoding.new) }
    ensures closed { IfOk result (IsClosed turn encoding.old encoding.new) }
    ensures built { OnOk result (IsBuilt encoding.new) }
{
    match turn {
        None => Ok(SoftOutcome::Chosen),
        Some(refusal) => {
            if refusal.literals.is_empty() {
                return Ok(SoftOutcome::Unsat(refusal));
            }
            let clause = refuse(encoding, refusal)?;
            Ok(SoftOutcome::Refused(clause))
        }
    }
}

/// The outcome of the turn of a soft requirement that is false before it. It is neither recorded
/// nor encoded. A conflict without literals refutes the whole problem.
fn refuse_denied<N: Copy + Exact + Hash + Debug, S: Copy + Exact + Hash + Debug>(
    alloc: Global,
    encoding: &mut Encoder<N, S>,
    soft: S,
    variable: VariableId,
) -> R<SoftOutcome>
    requires built { IsBuilt encoding.old }
    requires present { Represents encoding.old.coding.atoms.keys variable (Solvable soft) }
    requires denied { has (made_true (history encoding.old.coding.search)) (no variable) ≡ true }
    // After an answer.
    ensures settled { IfOk result (Settles S.eq soft encoding.old encoding.new) }
    ensures built { OnOk result (IsBuilt encoding.new) }
{
    let refusal = encoding.refute(alloc, variable)?;
    if refusal.literals.is_empty() {
        return Ok(SoftOutcome::Unsat(refusal));
    }
    let clause = encoding.learn_refusal(refusal)?;
    Ok(SoftOutcome::Refused(clause))
}

/// The outcome of the turn of a soft requirement that is true or false before it. Nothing is asked
/// for, and no place of its package is taken.
fn settle<N: Copy + Exact + Hash + Debug, S: Copy + Exact + Hash + Debug>(
    alloc: Global,
    encoding: &mut Encoder<N, S>,
    soft: S,
) -> R<Option<SoftOutcome>>
    requires { IsBuilt encoding.old }
    // After an answer.
    ensures settled { IfOk result (IsSettled S.eq soft encoding.old encoding.new) }
    ensures built { OnOk result (IsBuilt encoding.new) }
{
    let Some(variable) = encoding.coding.find(ProofAtom::Solvable(soft)) else {
        return Ok(None);
    };
    if encoding
        .coding
        .search
        .is_true(Literal::new(variable, false))
    {
        encoding.record_chosen(soft)?;
        return Ok(Some(SoftOutcome::AlreadyChosen));
    }
    if !encoding.coding.search.is_true(Literal::new(variable, true)) {
        return Ok(None);
    }
    let outcome = refuse_denied(alloc, encoding, soft, variable)?;
    Ok(Some(outcome))
}

/// The turn of a soft requirement that is undecided.
fn run_undecided<A: PackageSource, C: ScoreMap<A::NameId>>(
    alloc: Global,
    answers: &mut A,
    encoding: &mut Encoder<A::NameId, A::SolvableId>,
    state: &mut TurnState<A::NameId, A::SolvableId, C>,
    input: &TurnInput<'_>,
    soft: A::SolvableId,
) -> Result<SoftOutcome, CacheFault<A::Cancel>>
    requires built { IsBuilt encoding.old }
    requires rooted { IsRooted encoding.old }
    requires open { IsOpenSoft encoding.old soft }
    requires taken { AreTrueParents encoding.old }
    // Whatever the answer.
    ensures same { answers.new ≡ answers.old }
    // After an answer.
    ensures stays { IfOk result
        (RunsSoft A.SolvableId.eq A.PackageSource answers.old
        input.now soft encoding.old encoding.new) }
    ensures outcome { IfOk result (IsOutcome A.SolvableId.eq soft encoding.old encoding.new) }
    ensures keeps { OnOk result (KeepsTrail encoding.old encoding.new) }
    ensures built { OnOk result (IsBuilt encoding.new) }
    // After a refusal.
    ensures cancelled { IfErr result (IsCancelledBy (A.may_cancel answers.old)) }
{
    let name = answers.package(soft);
    // its package's candidates are asked for, for the mark alone
    let many = answers.is_many(name)?;
    let offered = Offered {
        solvable: soft,
        name,
    };
    let variable = encoding.record_soft(offered, many)?;
    let turn = run_open(alloc, answers, encoding, state, input, soft, variable)?;
    // `?` converts the error
    let status = close_turn(encoding, turn)?;
    Ok(status)
}

/// The turn of a soft requirement. It begins with a look at its value: where it is decided already,
/// the turn ends there.
pub fn run_soft_requirement<A: PackageSource, C: ScoreMap<A::NameId>>(
    alloc: Global,
    answers: &mut A,
    encoding: &mut Encoder<A::NameId, A::SolvableId>,
    state: &mut TurnState<A::NameId, A::SolvableId, C>,
    input: &TurnInput<'_>,
    soft: A::SolvableId,
) -> Result<SoftOutcome, CacheFault<A::Cancel>>
    requires built { IsBuilt encoding.old }
    requires rooted { IsRooted encoding.old }
    requires taken { AreTrueParents encoding.old }
    // Whatever the answer.
    ensures same { answers.new ≡ answers.old }
    // After an answer.
    ensures stays { IfOk result
        (RunsSoft A.SolvableId.eq A.PackageSource answers.old
        input.now soft encoding.old encoding.new) }
    ensures outcome { IfOk result (IsOutcome A.SolvableId.eq soft encoding.old encoding.new) }
    ensures keeps { OnOk result (KeepsTrail encoding.old encoding.new) }
    ensures built { OnOk result (IsBuilt encoding.new) }
    // After a refusal.
    ensures cancelled { IfErr result (IsCancelledBy (A.may_cancel answers.old)) }
{
    if let Some(settled) = settle(alloc, encoding, soft)? {
        return Ok(settled);
    }
    // split for the prover: error and answer
    let outcome = run_undecided(alloc, answers, encoding, state, input, soft)?;
    Ok(outcome)
}

/// Records the outcome of a soft requirement's turn, after its choices. The conflict, if
/// no solvables keep all rules.
fn record_outcome<N: Copy + Exact + Hash + Debug, S: Copy + Exact + Hash + Debug>(
    alloc: Global,
    encoding: &Encoder<N, S>,
    turns: &mut Turns<S>,
    soft: S,
    status: SoftOutcome,
) -> R<Option<FinalConflict>>
    requires { IsBuilt encoding.now }
    ensures { IfOk result (RecordsOutcome S.eq soft encoding.now turns.old turns.new status) }
{
    let begin = turns.chosen.len();
    match status {
        SoftOutcome::Unsat(refusal) => Ok(Some(refusal)),
        SoftOutcome::AlreadyChosen => {
            turns.record(soft, begin, SoftOutcome::AlreadyChosen)?;
            Ok(None)
        }
        SoftOutcome::Refused(clause) => {
            turns.record(soft, begin, SoftOutcome::Refused(clause))?;
            Ok(None)
        }
        SoftOutcome::Chosen => {
            turns.list(alloc, encoding)?;
            turns.record(soft, begin, SoftOutcome::Chosen)?;
            Ok(None)
        }
    }
}

/// The turns of these soft requirements, one after another. The conflict, if no solvables keep all
/// rules.
pub fn run_soft_requirements<A: PackageSource, C: ScoreMap<A::NameId>>(
    alloc: Global,
    answers: &mut A,
    encoding: &mut Encoder<A::NameId, A::SolvableId>,
    state: &mut TurnState<A::NameId, A::SolvableId, C>,
    input: &TurnInput<'_>,
    softs: &[A::SolvableId],
    turns: &mut Turns<A::SolvableId>,
) -> Result<Option<FinalConflict>, CacheFault<A::Cancel>>
    requires built { IsBuilt encoding.old }
    requires rooted { IsRooted encoding.old }
    requires at { AreAt encoding.old turns.old }
    // Whatever the answer.
    ensures same { answers.new ≡ answers.old }
    // After an answer.
    ensures right { IfOk result
        (RunsSofts A.SolvableId.eq A.PackageSource answers.old
        input.now softs.now encoding.old turns.old encoding.new turns.new) }
    ensures at_or_refused { IfOk result (AreAtOrRefused encoding.new turns.new) }
    ensures prefix { OnOk result (IsPrefixOf turns.old.chosen.keys turns.new.chosen.keys) }
    ensures built { OnOk result (IsBuilt encoding.new) }
    // After a refusal.
    ensures cancelled { IfErr result (IsCancelledBy (A.may_cancel answers.old)) }
{
    for soft in softs {
        let status = run_soft_requirement(alloc, answers, encoding, state, input, *soft)?;
        let conflict = record_outcome(alloc, encoding, turns, *soft, status)?;
        if let Some(refusal) = conflict {
            return Ok(Some(refusal));
        }
    }
    Ok(None)
}
