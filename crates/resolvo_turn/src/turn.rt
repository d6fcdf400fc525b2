//! A turn, the root's or that of a soft requirement: encode, assume the soft requirement, decide.
//! Then encode the chosen solvables in the order of the trail and the cases that hold, in one go,
//! until nothing is new.
ghost use Rattle.std.specs.Prelude.{◌≡◌, true, false, IfOk, IfErr, OnOk, IsErrOf, IsOkUnless};
ghost use Rattle.resolvo_pool.specs.Cached.{IsCancelledBy};
ghost use Rattle.resolvo_pool.specs.declared.cache.CacheFault.TheVariants.{Ids};
ghost use Rattle.resolvo_pool_core.specs.declared.want.Want.TheVariants.{Memory};
ghost use Rattle.resolvo_encoder.specs.Base.{HasTurn, KeepsTurn, KeepsTurns};
ghost use Rattle.resolvo_encoder.specs.Conditions.{AreSpent};
ghost use Rattle.resolvo_encoder.specs.Steps.{IsBuilt, AddsParent};
ghost use Rattle.resolvo_encoder.specs.Encoded.{IsWhole, StaysEncoding};
ghost use Rattle.resolvo_encoder.specs.Progress.{GoesOn};
ghost use Rattle.resolvo_turn.specs.Encoder.{AddsNeeds, AddsParents, AddsAll, StaysInOrder};
ghost use Rattle.resolvo_turn.specs.Turn.{AddsChosen, AreTakenParents, FiresMore, HasSoft, IsBegunBy, IsDecisionOf, IsRooted, IsRound, IsTurn, FindsMore, FindsNone};
ghost use Rattle.resolvo_turn.specs.LacksIds.{StopsInOrder};
ghost use Rattle.resolvo_turn.specs.TurnRules.{StaysInOrderOf, StopsInOrderOf};

use crate::cdcl::{Activity, run_cdcl};
use crate::chosen::{chosen_at, chosen_in_turn};
use crate::encode::encode_parents;
use crate::fire_conditions::{fire_cases, fire_each};
use crate::scan::{Scan, find_touched, mark_all};
use crate::tasks::Tasks;
use crate::turn_input::TurnInput;
use crate::turn_state::TurnState;
use resolvo_encoder::encoder::Encoder;
use resolvo_packages::package_source::PackageSource;
use resolvo_pool::cache::CacheFault;
use resolvo_pool_core::id::{Exact, VariableId};
use resolvo_pool_core::id_map::ScoreMap;
use resolvo_pool_core::want::R;
use resolvo_sat::analyze::FinalConflict;
use std::alloc::Global;
use std::fmt::Debug;
use std::hash::Hash;

/// Adds each solvable that was chosen in the turn as a parent, in the order of the trail. Those of
/// earlier turns are parents.
fn add_chosen<N: Copy + Exact + Hash + Debug, S: Copy + Exact + Hash + Debug>(
    alloc: Global,
    encoding: &mut Encoder<N, S>,
) -> R<()>
    requires built { IsBuilt encoding.old }
    requires taken { AreTakenParents encoding.old }
    ensures chosen { OnOk result (AddsChosen encoding.old encoding.new) }
    ensures refusal { IsOkUnless result Memory }
{
    let chosen = chosen_in_turn(alloc, encoding)?;
    for solvable in &chosen {
        encoding.add_parent(*solvable)?;
    }
    Ok(())
}

/// Undoes the turn's decisions if a clause of the last encoding was falsified as it was added.
fn undo_broken<N: Copy + Exact + Hash + Debug, S: Copy + Exact + Hash + Debug>(
    encoding: &mut Encoder<N, S>,
    scan: &mut Scan<N>,
)
    requires { IsBuilt encoding.old }
    ensures stays { StaysEncoding S.eq encoding.old encoding.new }
    ensures goes_on { GoesOn encoding.old encoding.new }
    ensures turn { KeepsTurns encoding.old encoding.new }
    ensures built { IsBuilt encoding.new }
{
    if encoding.coding.watching.is_broken {
        encoding.undo_turn();
        scan.go_back(encoding);
    }
}

/// Encodes the cases that hold of those that were found. Answers whether there was one; if not,
/// nothing changed.
fn fire_touched<A: PackageSource>(
    alloc: Global,
    answers: &mut A,
    encoding: &mut Encoder<A::NameId, A::SolvableId>,
    scan: &mut Scan<A::NameId>,
) -> Result<bool, CacheFault<A::Cancel>>
    requires { IsBuilt encoding.old }
    // Whatever the answer.
    ensures same { answers.new ≡ answers.old }
    // After an answer.
    ensures stays { OnOk result
        (StaysInOrder A.SolvableId.eq A.PackageSource answers.old encoding.old encoding.new) }
    ensures adds { OnOk result (AddsNeeds encoding.old encoding.new) }
    ensures fires { IfOk result (λ b. b ≡ true → FiresMore encoding.old encoding.new) }
    ensures unchanged { IfOk result (λ b. b ≡ false → encoding.new ≡ encoding.old) }
    ensures built { OnOk result (IsBuilt encoding.new) }
    // After a refusal.
    ensures cancelled { IfErr result (IsCancelledBy (A.may_cancel answers.old)) }
    ensures ids { IsErrOf result Ids
        → StopsInOrder A.SolvableId.eq A.PackageSource answers.old encoding.old encoding.new }
{
    let has_fired = fire_each(alloc, answers, encoding, scan.touched())?;
    scan.end_touched(encoding);
    Ok(has_fired)
}

/// Encodes all parents, and the cases that hold. The dependencies of the parents are asked for
/// first. Undoes the turn's decisions if a clause of the encoding is falsified.
fn encode<A: PackageSource>(
    alloc: Global,
    answers: &mut A,
    encoding: &mut Encoder<A::NameId, A::SolvableId>,
    scan: &mut Scan<A::NameId>,
    tasks: &mut Tasks<A::SolvableId>,
    input: &TurnInput<'_>,
) -> Result<(), CacheFault<A::Cancel>>
    requires { IsBuilt encoding.old }
    // Whatever the answer.
    ensures same { answers.new ≡ answers.old }
    // After an answer.
    ensures encoded { OnOk result
        (StaysInOrderOf A.SolvableId.eq A.PackageSource answers.old
        input.now encoding.old encoding.new) }
    ensures all { OnOk result (AddsAll encoding.old encoding.new) }
    ensures turn { OnOk result (KeepsTurns encoding.old encoding.new) }
    ensures placed { OnOk result (IsWhole encoding.new) }
    ensures built { OnOk result (IsBuilt encoding.new) }
    // After a refusal.
    ensures cancelled { IfErr result (IsCancelledBy (A.may_cancel answers.old)) }
    ensures ids { IsErrOf result Ids
        → StopsInOrderOf A.SolvableId.eq A.PackageSource answers.old
        input.now encoding.old encoding.new }
{
    encode_parents(alloc, answers, encoding, tasks, scan.touched(), input)?;
    scan.end_touched(encoding);
    undo_broken(encoding, scan);
    Ok(())
}

/// Encodes the cases that hold, when nothing is left to decide. Answers whether there was one; if
/// not, nothing changed. The clauses that wait for an encoding's end come in the next round.
fn fire<A: PackageSource>(
    alloc: Global,
    answers: &mut A,
    encoding: &mut Encoder<A::NameId, A::SolvableId>,
    scan: &mut Scan<A::NameId>,
) -> Result<bool, CacheFault<A::Cancel>>
    requires { IsBuilt encoding.old }
    // Whatever the answer.
    ensures same { answers.new ≡ answers.old }
    // After an answer.
    ensures stays { OnOk result
        (StaysInOrder A.SolvableId.eq A.PackageSource answers.old encoding.old encoding.new) }
    ensures adds { OnOk result (AddsNeeds encoding.old encoding.new) }
    ensures fires { IfOk result (λ b. b ≡ true → FiresMore encoding.old encoding.new) }
    ensures spent { IfOk result
        (λ b. b ≡ false → (encoding.new ≡ encoding.old) × AreSpent A.SolvableId.eq encoding.new) }
    ensures built { OnOk result (IsBuilt encoding.new) }
    // After a refusal.
    ensures cancelled { IfErr result (IsCancelledBy (A.may_cancel answers.old)) }
    ensures ids { IsErrOf result Ids
        → StopsInOrder A.SolvableId.eq A.PackageSource answers.old encoding.old encoding.new }
{
    if !fire_cases(alloc, answers, encoding)? {
        return Ok(false);
    }
    mark_all(answers, encoding, scan)?;
    Ok(true)
}

/// Assumes the turn's soft requirement, if there is one and it isn't true. Answers the conflict, if
/// it is false.
fn assume_first<N: Copy + Exact + Hash + Debug, S: Copy + Exact + Hash + Debug>(
    alloc: Global,
    encoding: &mut Encoder<N, S>,
    soft: Option<VariableId>,
) -> R<Option<FinalConflict>>
    requires built { IsBuilt encoding.old }
    requires turn { HasTurn soft encoding.old }
    // After an answer.
    ensures stays { OnOk result (StaysEncoding S.eq encoding.old encoding.new) }
    ensures goes_on { OnOk result (GoesOn encoding.old encoding.new) }
    ensures turn { OnOk result (KeepsTurn soft encoding.old encoding.new) }
    ensures begun { IfOk result (IsBegunBy soft encoding.new) }
    ensures built { OnOk result (IsBuilt encoding.new) }
    // After a refusal.
    ensures refusal { IsOkUnless result Memory }
{
    match soft {
        None => Ok(None),
        Some(variable) => encoding.assume_soft(alloc, variable),
    }
}

/// Propagates after an encoding. Undoes the turn's decisions if a clause is falsified above its
/// base level.
fn undo_falsified<N: Copy + Exact + Hash + Debug, S: Copy + Exact + Hash + Debug>(
    encoding: &mut Encoder<N, S>,
    soft: Option<VariableId>,
) -> R<()>
    requires built { IsBuilt encoding.old }
    requires turn { HasTurn soft encoding.old }
    requires begun { HasSoft soft encoding.old }
    // After an answer.
    ensures stays { OnOk result (StaysEncoding S.eq encoding.old encoding.new) }
    ensures goes_on { OnOk result (GoesOn encoding.old encoding.new) }
    ensures turn { OnOk result (KeepsTurn soft encoding.old encoding.new) }
    ensures built { OnOk result (IsBuilt encoding.new) }
    // After a refusal.
    ensures refusal { IsOkUnless result Memory }
{
    let is_falsified = encoding.propagate()?;
    if !is_falsified {
        return Ok(());
    }
    encoding.undo_turn();
    Ok(())
}

/// Begins the search after an encoding: assumes the turn's soft requirement, and propagates. Where
/// a clause is falsified above the turn's base level, the turn begins again, and the scan goes
/// back. Answers the conflict, if the soft requirement is false.
fn begin_search<N: Copy + Exact + Hash + Debug, S: Copy + Exact + Hash + Debug>(
    alloc: Global,
    encoding: &mut Encoder<N, S>,
    scan: &mut Scan<N>,
    soft: Option<VariableId>,
) -> R<Option<FinalConflict>>
    requires built { IsBuilt encoding.old }
    requires turn { HasTurn soft encoding.old }
    // After an answer.
    ensures stays { OnOk result (StaysEncoding S.eq encoding.old encoding.new) }
    ensures goes_on { OnOk result (GoesOn encoding.old encoding.new) }
    ensures turn { OnOk result (KeepsTurn soft encoding.old encoding.new) }
    ensures begun { IfOk result (IsBegunBy soft encoding.new) }
    ensures built { OnOk result (IsBuilt encoding.new) }
    // After a refusal.
    ensures refusal { IsOkUnless result Memory }
{
    if let Some(refusal) = assume_first(alloc, encoding, soft)? {
        return Ok(Some(refusal));
    }
    // before propagation: the soft requirement's entry is the last one
    scan.go_back(encoding);
    undo_falsified(encoding, soft)?;
    // split for the prover: error and answer
    let refusal = assume_first(alloc, encoding, soft)?;
    scan.go_back(encoding);
    Ok(refusal)
}

/// Assumes the turn's soft requirement, and decides the rest.
fn choose_and_decide<A: PackageSource, C: ScoreMap<A::NameId>>(
    alloc: Global,
    answers: &A,
    encoding: &mut Encoder<A::NameId, A::SolvableId>,
    state: &mut TurnState<A::NameId, A::SolvableId, C>,
    activity: Activity,
    soft: Option<VariableId>,
) -> Result<Option<FinalConflict>, CacheFault<A::Cancel>>
    requires built { IsBuilt encoding.old }
    requires turn { HasTurn soft encoding.old }
    // After an answer.
    ensures stays { OnOk result
        (StaysInOrder A.SolvableId.eq A.PackageSource answers.now encoding.old encoding.new) }
    ensures goes_on { OnOk result (GoesOn encoding.old encoding.new) }
    ensures turn { OnOk result (KeepsTurn soft encoding.old encoding.new) }
    ensures decided { IfOk result (IsDecisionOf soft encoding.new) }
    ensures built { OnOk result (IsBuilt encoding.new) }
    // After a refusal.
    ensures cancelled { IfErr result (IsCancelledBy (A.may_cancel answers.now)) }
    ensures ids { IsErrOf result Ids
        → StopsInOrder A.SolvableId.eq A.PackageSource answers.now encoding.old encoding.new }
{
    if let Some(refusal) = begin_search(alloc, encoding, &mut state.scan, soft)? {
        return Ok(Some(refusal));
    }
    // split for the prover: error and answer
    let refusal = run_cdcl(alloc, answers, encoding, state, activity)?;
    Ok(refusal)
}

/// Encodes all parents, and decides.
fn encode_and_decide<A: PackageSource, C: ScoreMap<A::NameId>>(
    alloc: Global,
    answers: &mut A,
    encoding: &mut Encoder<A::NameId, A::SolvableId>,
    state: &mut TurnState<A::NameId, A::SolvableId, C>,
    input: &TurnInput<'_>,
    soft: Option<VariableId>,
) -> Result<Option<FinalConflict>, CacheFault<A::Cancel>>
    requires built { IsBuilt encoding.old }
    requires turn { HasTurn soft encoding.old }
    // Whatever the answer.
    ensures same { answers.new ≡ answers.old }
    // After an answer.
    ensures stays { OnOk result
        (StaysInOrderOf A.SolvableId.eq A.PackageSource answers.old
        input.now encoding.old encoding.new) }
    ensures all { OnOk result (AddsAll encoding.old encoding.new) }
    ensures turn { OnOk result (KeepsTurn soft encoding.old encoding.new) }
    ensures decided { IfOk result (IsDecisionOf soft encoding.new) }
    ensures placed { OnOk result (IsWhole encoding.new) }
    ensures built { OnOk result (IsBuilt encoding.new) }
    // After a refusal.
    ensures cancelled { IfErr result (IsCancelledBy (A.may_cancel answers.old)) }
    ensures ids { IsErrOf result Ids
        → StopsInOrderOf A.SolvableId.eq A.PackageSource answers.old
        input.now encoding.old encoding.new }
{
    encode(
        alloc,
        answers,
        encoding,
        &mut state.scan,
        &mut state.tasks,
        input,
    )?;
    let activity = input.activity;
    // split for the prover: error and answer
    let refusal = choose_and_decide(alloc, answers, encoding, state, activity, soft)?;
    Ok(refusal)
}

/// Adds the solvable that the trail's entry at this place chooses, if any, as a parent. Marks the
/// cases that name its package.
fn add_if_chosen<A: PackageSource>(
    answers: &A,
    encoding: &mut Encoder<A::NameId, A::SolvableId>,
    scan: &mut Scan<A::NameId>,
    place: usize,
) -> R<()>
    ensures added { OnOk result (AddsParent encoding.old encoding.new) }
    ensures refusal { IsOkUnless result Memory }
{
    if let Some(solvable) = chosen_at(&encoding.coding, place) {
        encoding.add_parent(solvable)?;
        scan.touch(answers.package(solvable))?;
    }
    Ok(())
}

/// Adds each solvable that was chosen since the last scan as a parent, in the order of the trail.
fn add_new_chosen<A: PackageSource>(
    answers: &A,
    encoding: &mut Encoder<A::NameId, A::SolvableId>,
    scan: &mut Scan<A::NameId>,
) -> R<()>
    ensures added { OnOk result (AddsParent encoding.old encoding.new) }
    ensures refusal { IsOkUnless result Memory }
{
    for place in scan.new_entries(encoding) {
        add_if_chosen(answers, encoding, scan, place)?;
    }
    Ok(())
}

/// Scans the choices since the last scan. Answers whether there is a parent to encode then, or a
/// case became a clause. Where there is a parent, the cases are encoded behind it.
fn scan_new<A: PackageSource>(
    alloc: Global,
    answers: &mut A,
    encoding: &mut Encoder<A::NameId, A::SolvableId>,
    scan: &mut Scan<A::NameId>,
) -> Result<bool, CacheFault<A::Cancel>>
    requires { IsBuilt encoding.old }
    // Whatever the answer.
    ensures same { answers.new ≡ answers.old }
    // After an answer.
    ensures stays { OnOk result
        (StaysInOrder A.SolvableId.eq A.PackageSource answers.old encoding.old encoding.new) }
    ensures adds { OnOk result (AddsNeeds encoding.old encoding.new) }
    ensures more { IfOk result (λ b. b ≡ true → FindsMore encoding.old encoding.new) }
    ensures none { IfOk result (λ b. b ≡ false → AddsParent encoding.old encoding.new) }
    ensures built { OnOk result (IsBuilt encoding.new) }
    // After a refusal.
    ensures cancelled { IfErr result (IsCancelledBy (A.may_cancel answers.old)) }
    ensures ids { IsErrOf result Ids
        → StopsInOrder A.SolvableId.eq A.PackageSource answers.old encoding.old encoding.new }
{
    add_new_chosen(answers, encoding, scan)?;
    find_touched(answers, encoding, scan)?;
    if encoding.next_parent().is_some() {
        return Ok(true);
    }
    // split for the prover: error and answer
    let has_fired = fire_touched(alloc, answers, encoding, scan)?;
    Ok(has_fired)
}

/// Scans all that was chosen in the turn, and all deferred cases. Answers whether there is a parent
/// to encode then, or a case became a clause.
fn scan_all<A: PackageSource>(
    alloc: Global,
    answers: &mut A,
    encoding: &mut Encoder<A::NameId, A::SolvableId>,
    scan: &mut Scan<A::NameId>,
) -> Result<bool, CacheFault<A::Cancel>>
    requires built { IsBuilt encoding.old }
    requires taken { AreTakenParents encoding.old }
    // Whatever the answer.
    ensures same { answers.new ≡ answers.old }
    // After an answer.
    ensures stays { OnOk result
        (StaysInOrder A.SolvableId.eq A.PackageSource answers.old encoding.old encoding.new) }
    ensures adds { OnOk result (AddsNeeds encoding.old encoding.new) }
    ensures more { IfOk result (λ b. b ≡ true → FindsMore encoding.old encoding.new) }
    ensures none { IfOk result
        (λ b. b ≡ false → FindsNone A.SolvableId.eq encoding.old encoding.new) }
    ensures built { OnOk result (IsBuilt encoding.new) }
    // After a refusal.
    ensures cancelled { IfErr result (IsCancelledBy (A.may_cancel answers.old)) }
    ensures ids { IsErrOf result Ids
        → StopsInOrder A.SolvableId.eq A.PackageSource answers.old encoding.old encoding.new }
{
    add_chosen(alloc, encoding)?;
    if encoding.next_parent().is_some() {
        return Ok(true);
    }
    // split for the prover: error and answer
    let has_fired = fire(alloc, answers, encoding, scan)?;
    Ok(has_fired)
}

/// The result of a round.
#[derive(Drop)]
enum Round {
    /// There is a parent to encode, or a case became a clause.
    Continues,
    /// Nothing is left to propagate, decide or encode.
    Complete,
    /// The turn is refused.
    Refused(FinalConflict),
}

/// Encodes, assumes the turn's soft requirement, decides, and adds what was chosen as parents of
/// the next round. If there is none, the cases that hold become clauses now, else with these.
fn run_round<A: PackageSource, C: ScoreMap<A::NameId>>(
    alloc: Global,
    answers: &mut A,
    encoding: &mut Encoder<A::NameId, A::SolvableId>,
    state: &mut TurnState<A::NameId, A::SolvableId, C>,
    input: &TurnInput<'_>,
    soft: Option<VariableId>,
) -> Result<Round, CacheFault<A::Cancel>>
    requires built { IsBuilt encoding.old }
    requires rooted { IsRooted encoding.old }
    requires turn { HasTurn soft encoding.old }
    requires taken { AreTakenParents encoding.old }
    // Whatever the answer.
    ensures same { answers.new ≡ answers.old }
    // After an answer.
    ensures stays { OnOk result
        (StaysInOrderOf A.SolvableId.eq A.PackageSource answers.old
        input.now encoding.old encoding.new) }
    ensures adds { OnOk result (AddsParents encoding.old encoding.new) }
    ensures turn { OnOk result (KeepsTurn soft encoding.old encoding.new) }
    ensures round { IfOk result (IsRound A.SolvableId.eq soft encoding.old encoding.new) }
    ensures built { OnOk result (IsBuilt encoding.new) }
    // After a refusal.
    ensures cancelled { IfErr result (IsCancelledBy (A.may_cancel answers.old)) }
    ensures ids { IsErrOf result Ids
        → StopsInOrderOf A.SolvableId.eq A.PackageSource answers.old
        input.now encoding.old encoding.new }
{
    let decided = encode_and_decide(alloc, answers, encoding, state, input, soft)?;
    if let Some(refusal) = decided {
        return Ok(Round::Refused(refusal));
    }
    let has_new = scan_new(alloc, answers, encoding, &mut state.scan)?;
    if has_new {
        return Ok(Round::Continues);
    }
    let has_more = scan_all(alloc, answers, encoding, &mut state.scan)?;
    if has_more {
        Ok(Round::Continues)
    } else {
        Ok(Round::Complete)
    }
}

/// Runs rounds until nothing is left to encode or decide, or the turn is refused.
pub fn run_turn<A: PackageSource, C: ScoreMap<A::NameId>>(
    alloc: Global,
    answers: &mut A,
    encoding: &mut Encoder<A::NameId, A::SolvableId>,
    state: &mut TurnState<A::NameId, A::SolvableId, C>,
    input: &TurnInput<'_>,
    soft: Option<VariableId>,
) -> Result<Option<FinalConflict>, CacheFault<A::Cancel>>
    requires built { IsBuilt encoding.old }
    requires rooted { IsRooted encoding.old }
    requires turn { HasTurn soft encoding.old }
    requires taken { AreTakenParents encoding.old }
    // Whatever the answer.
    ensures same { answers.new ≡ answers.old }
    // After an answer.
    ensures stays { OnOk result
        (StaysInOrderOf A.SolvableId.eq A.PackageSource answers.old
        input.now encoding.old encoding.new) }
    ensures adds { OnOk result (AddsParents encoding.old encoding.new) }
    ensures turn { OnOk result (KeepsTurn soft encoding.old encoding.new) }
    ensures ended { IfOk result (IsTurn A.SolvableId.eq soft encoding.new) }
    ensures built { OnOk result (IsBuilt encoding.new) }
    // After a refusal.
    ensures cancelled { IfErr result (IsCancelledBy (A.may_cancel answers.old)) }
    ensures ids { IsErrOf result Ids
        → StopsInOrderOf A.SolvableId.eq A.PackageSource answers.old
        input.now encoding.old encoding.new }
{
    state.scan.begin_turn(encoding);
    loop {
        match run_round(alloc, answers, encoding, state, input, soft)? {
            Round::Continues => {}
            Round::Complete => return Ok(None),
            Round::Refused(refusal) => return Ok(Some(refusal)),
        }
    }
}
