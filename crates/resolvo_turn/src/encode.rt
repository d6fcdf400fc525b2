//! Does the tasks of an encoding: asks for the dependencies of parents and encodes their rules, in
//! the order of the parents, and encodes cases that hold.
ghost use Rattle.std.specs.Prelude.{◌≡◌, ◌<◌, ◌+◌, false, [], IfOk, IfErr, OnOk, IsErrOf, Contains};
ghost use Rattle.std.specs.Bool.{Decides};
ghost use Rattle.resolvo_pool.specs.Cached.{IsCancelledBy};
ghost use Rattle.resolvo_pool.specs.declared.cache.CacheFault.TheVariants.{Ids};
ghost use Rattle.resolvo_pool_core.specs.declared.want.Want.TheVariants.{Ids as WantIds};
ghost use Rattle.resolvo_pool_core.specs.Provider.{needs_of};
ghost use Rattle.resolvo_pool_core.specs.Text.{solvable_of};
ghost use Rattle.resolvo_state.specs.SolverState.{LacksNumber};
ghost use Rattle.resolvo_encoder.specs.Encoded.{IsWhole};
ghost use Rattle.resolvo_encoder.specs.Base.{KeepsTurns};
ghost use Rattle.resolvo_encoder.specs.Steps.{IsBuilt};
ghost use Rattle.resolvo_turn.specs.Encoder.{AddsNeeds, AddsAll, StaysInOrder};
ghost use Rattle.resolvo_turn.specs.Effects.{EncodesSolvable, EncodesParent};
ghost use Rattle.resolvo_turn.specs.LacksIds.{StopsAnyhow, StopsInOrder};
ghost use Rattle.resolvo_turn.specs.TurnRules.{StaysInOrderOf, StopsInOrderOf};
ghost use Rattle.resolvo_turn.specs.Tasks.{bound, cost, Excludes, KeepsExcluded};

use crate::fire_conditions::{encode_case_matches, fire_if_due};
use crate::rules::encode_rules;
use crate::tasks::{Task, Tasks};
use crate::turn_input::TurnInput;
use indexmap::IndexSet;
use resolvo_encoder::encoder::{Encoder, add_key};
use resolvo_packages::package_source::PackageSource;
use resolvo_pool::cache::CacheFault;
use resolvo_pool_core::id::{Exact, StringId};
use resolvo_pool_core::provider::Dependencies;
use resolvo_pool_core::solver_id::SolvableIdOrRoot;
use resolvo_pool_core::want::R;
use std::alloc::Global;
use std::fmt::Debug;
use std::hash::Hash;

/// Whether a solvable was excluded.
fn is_excluded<S: Copy + Exact + Hash + Debug>(excluded: &IndexSet<S>, solvable: S) -> bool
    ensures { Decides result (Contains excluded.now.keys solvable) }
{
    excluded.contains(&solvable)
}

/// Excludes a solvable with unknown dependencies, once.
fn exclude<N: Copy + Exact + Hash + Debug + Drop, S: Copy + Exact + Hash + Debug>(
    encoding: &mut Encoder<N, S>,
    excluded: &mut IndexSet<S>,
    solvable: S,
    reason: StringId,
) -> R<()>
    requires { IsBuilt encoding.old }
    // After an answer.
    ensures excludes { OnOk result
        (Excludes S.eq solvable reason excluded.old.keys excluded.new.keys
        encoding.old encoding.new) }
    ensures kept { OnOk result (AddsNeeds encoding.old encoding.new) }
    ensures built { OnOk result (IsBuilt encoding.new) }
    // After a refusal.
    ensures ids { IsErrOf result WantIds → LacksNumber encoding.new.coding }
{
    if is_excluded(excluded, solvable) {
        return Ok(());
    }
    encoding.exclude(solvable, reason)?;
    add_key(excluded, solvable)?;
    Ok(())
}

/// Asks for the dependencies of a solvable. If they are unknown it is excluded.
fn exclude_unknown<A: PackageSource>(
    answers: &mut A,
    encoding: &mut Encoder<A::NameId, A::SolvableId>,
    excluded: &mut IndexSet<A::SolvableId>,
    solvable: A::SolvableId,
) -> Result<(), CacheFault<A::Cancel>>
    requires { IsBuilt encoding.old }
    // Whatever the answer.
    ensures same { answers.new ≡ answers.old }
    // After an answer.
    ensures stays { OnOk result
        (StaysInOrder A.SolvableId.eq A.PackageSource answers.old encoding.old encoding.new) }
    ensures kept { OnOk result (AddsNeeds encoding.old encoding.new) }
    ensures excluded { OnOk result
        (KeepsExcluded A.SolvableId.eq A.PackageSource answers.old
        excluded.old.keys excluded.new.keys encoding.old encoding.new) }
    ensures built { OnOk result (IsBuilt encoding.new) }
    // After a refusal.
    ensures cancelled { IfErr result (IsCancelledBy (A.may_cancel answers.old)) }
    ensures ids { IsErrOf result Ids
        → StopsAnyhow A.SolvableId.eq A.PackageSource answers.old encoding.new }
{
    match answers.unknown(solvable)? {
        None => Ok(()),
        Some(reason) => {
            exclude(encoding, excluded, solvable, reason)?;
            Ok(())
        }
    }
}

/// Asks for the dependencies of a parent. The root's are given.
fn ask<A: PackageSource>(
    answers: &mut A,
    encoding: &mut Encoder<A::NameId, A::SolvableId>,
    excluded: &mut IndexSet<A::SolvableId>,
    parent: SolvableIdOrRoot<A::SolvableId>,
) -> Result<(), CacheFault<A::Cancel>>
    requires { IsBuilt encoding.old }
    // Whatever the answer.
    ensures same { answers.new ≡ answers.old }
    // After an answer.
    ensures stays { OnOk result
        (StaysInOrder A.SolvableId.eq A.PackageSource answers.old encoding.old encoding.new) }
    ensures kept { OnOk result (AddsNeeds encoding.old encoding.new) }
    ensures excluded { OnOk result
        (KeepsExcluded A.SolvableId.eq A.PackageSource answers.old
        excluded.old.keys excluded.new.keys encoding.old encoding.new) }
    ensures built { OnOk result (IsBuilt encoding.new) }
    // After a refusal.
    ensures cancelled { IfErr result (IsCancelledBy (A.may_cancel answers.old)) }
    ensures ids { IsErrOf result Ids
        → StopsAnyhow A.SolvableId.eq A.PackageSource answers.old encoding.new }
{
    match parent {
        SolvableIdOrRoot::Root => Ok(()),
        SolvableIdOrRoot::Solvable(solvable) => {
            exclude_unknown(answers, encoding, excluded, solvable)?;
            Ok(())
        }
    }
}

/// Does a task that was taken, unless it is the rules of a parent. Answers whether it is. What
/// comes of it is put behind the other tasks.
fn ask_or_fire<A: PackageSource>(
    alloc: Global,
    answers: &mut A,
    encoding: &mut Encoder<A::NameId, A::SolvableId>,
    tasks: &mut Tasks<A::SolvableId>,
    excluded: &mut IndexSet<A::SolvableId>,
    task: Task<A::SolvableId>,
) -> Result<bool, CacheFault<A::Cancel>>
    requires { IsBuilt encoding.old }
    // Whatever the answer.
    ensures same { answers.new ≡ answers.old }
    // After an answer.
    ensures stays { OnOk result
        (StaysInOrder A.SolvableId.eq A.PackageSource answers.old encoding.old encoding.new) }
    ensures kept { OnOk result (AddsNeeds encoding.old encoding.new) }
    ensures excluded { OnOk result
        (KeepsExcluded A.SolvableId.eq A.PackageSource answers.old
        excluded.old.keys excluded.new.keys encoding.old encoding.new) }
    ensures bound { IfOk result
        (λ ends. ends ≡ false → bound tasks.new < bound tasks.old + cost task) }
    ensures built { OnOk result (IsBuilt encoding.new) }
    // After a refusal.
    ensures cancelled { IfErr result (IsCancelledBy (A.may_cancel answers.old)) }
    ensures ids { IsErrOf result Ids
        → StopsInOrder A.SolvableId.eq A.PackageSource answers.old encoding.old encoding.new }
{
    match task {
        Task::Dependencies(parent) => {
            ask(answers, encoding, excluded, parent)?;
            tasks.push(Task::Rules)?;
            Ok(false)
        }
        Task::Rules => Ok(true),
        Task::Matches(place) => {
            encode_case_matches(alloc, answers, encoding, place)?;
            Ok(false)
        }
        Task::Case(place) => {
            fire_if_due(alloc, answers, encoding, place)?;
            tasks.push_parents(encoding.parents.as_slice())?;
            Ok(false)
        }
    }
}

/// Does the tasks until the rules of a parent are next, or none is left.
fn ask_and_fire<A: PackageSource>(
    alloc: Global,
    answers: &mut A,
    encoding: &mut Encoder<A::NameId, A::SolvableId>,
    tasks: &mut Tasks<A::SolvableId>,
    excluded: &mut IndexSet<A::SolvableId>,
) -> Result<(), CacheFault<A::Cancel>>
    requires { IsBuilt encoding.old }
    // Whatever the answer.
    ensures same { answers.new ≡ answers.old }
    // After an answer.
    ensures stays { OnOk result
        (StaysInOrder A.SolvableId.eq A.PackageSource answers.old encoding.old encoding.new) }
    ensures kept { OnOk result (AddsNeeds encoding.old encoding.new) }
    ensures excluded { OnOk result
        (KeepsExcluded A.SolvableId.eq A.PackageSource answers.old
        excluded.old.keys excluded.new.keys encoding.old encoding.new) }
    ensures built { OnOk result (IsBuilt encoding.new) }
    // After a refusal.
    ensures cancelled { IfErr result (IsCancelledBy (A.may_cancel answers.old)) }
    ensures ids { IsErrOf result Ids
        → StopsInOrder A.SolvableId.eq A.PackageSource answers.old encoding.old encoding.new }
{
    while let Some(task) = tasks.take() {
        if ask_or_fire(alloc, answers, encoding, tasks, excluded, task)? {
            return Ok(());
        }
    }
    Ok(())
}

/// Encodes the rules of a solvable with these dependencies. If they are unknown it is excluded,
/// once, and has no other rule.
fn encode_dependencies<A: PackageSource>(
    alloc: Global,
    answers: &mut A,
    encoding: &mut Encoder<A::NameId, A::SolvableId>,
    tasks: &mut Tasks<A::SolvableId>,
    excluded: &mut IndexSet<A::SolvableId>,
    solvable: A::SolvableId,
    dependencies: &Dependencies,
) -> Result<(), CacheFault<A::Cancel>>
    requires built { IsBuilt encoding.old }
    requires asked { needs_of dependencies.now ≡ (A.packages answers.old).dependencies_of solvable }
    // Whatever the answer.
    ensures same { answers.new ≡ answers.old }
    // After an answer.
    ensures encoded { OnOk result
        (EncodesSolvable A.SolvableId.eq A.PackageSource answers.old
        solvable excluded.old.keys encoding.old encoding.new) }
    ensures kept { OnOk result (AddsNeeds encoding.old encoding.new) }
    ensures excluded { OnOk result
        (KeepsExcluded A.SolvableId.eq A.PackageSource answers.old
        excluded.old.keys excluded.new.keys encoding.old encoding.new) }
    ensures built { OnOk result (IsBuilt encoding.new) }
    // After a refusal.
    ensures cancelled { IfErr result (IsCancelledBy (A.may_cancel answers.old)) }
    ensures ids { IsErrOf result Ids
        → StopsInOrder A.SolvableId.eq A.PackageSource answers.old encoding.old encoding.new }
{
    match dependencies {
        Dependencies::Known(known) => {
            let needs = known.requirements.as_slice();
            let limits = known.constrains.as_slice();
            let parent = Some(solvable);
            encode_rules(alloc, answers, encoding, tasks, parent, needs, limits)?;
            Ok(())
        }
        Dependencies::Unknown(reason) => {
            exclude(encoding, excluded, solvable, *reason)?;
            Ok(())
        }
    }
}

/// Encodes the rules of a solvable.
fn encode_solvable<A: PackageSource>(
    alloc: Global,
    answers: &mut A,
    encoding: &mut Encoder<A::NameId, A::SolvableId>,
    tasks: &mut Tasks<A::SolvableId>,
    excluded: &mut IndexSet<A::SolvableId>,
    solvable: A::SolvableId,
) -> Result<(), CacheFault<A::Cancel>>
    requires { IsBuilt encoding.old }
    // Whatever the answer.
    ensures same { answers.new ≡ answers.old }
    // After an answer.
    ensures encoded { OnOk result
        (EncodesSolvable A.SolvableId.eq A.PackageSource answers.old
        solvable excluded.old.keys encoding.old encoding.new) }
    ensures kept { OnOk result (AddsNeeds encoding.old encoding.new) }
    ensures excluded { OnOk result
        (KeepsExcluded A.SolvableId.eq A.PackageSource answers.old
        excluded.old.keys excluded.new.keys encoding.old encoding.new) }
    ensures built { OnOk result (IsBuilt encoding.new) }
    // After a refusal.
    ensures cancelled { IfErr result (IsCancelledBy (A.may_cancel answers.old)) }
    ensures ids { IsErrOf result Ids
        → StopsInOrder A.SolvableId.eq A.PackageSource answers.old encoding.old encoding.new }
{
    let dependencies = answers.dependencies(solvable)?;
    // split for the prover: one drop
    let done = encode_dependencies(
        alloc,
        answers,
        encoding,
        tasks,
        excluded,
        solvable,
        &dependencies,
    );
    done
}

/// Encodes the rules of a solvable, or of the root, which are given.
fn encode_parent<A: PackageSource>(
    alloc: Global,
    answers: &mut A,
    encoding: &mut Encoder<A::NameId, A::SolvableId>,
    tasks: &mut Tasks<A::SolvableId>,
    excluded: &mut IndexSet<A::SolvableId>,
    input: &TurnInput<'_>,
    parent: SolvableIdOrRoot<A::SolvableId>,
) -> Result<(), CacheFault<A::Cancel>>
    requires { IsBuilt encoding.old }
    // Whatever the answer.
    ensures same { answers.new ≡ answers.old }
    // After an answer.
    ensures encoded { OnOk result
        (EncodesParent A.SolvableId.eq A.PackageSource answers.old
        input.now (solvable_of parent)
        excluded.old.keys encoding.old encoding.new) }
    ensures kept { OnOk result (AddsNeeds encoding.old encoding.new) }
    ensures excluded { OnOk result
        (KeepsExcluded A.SolvableId.eq A.PackageSource answers.old
        excluded.old.keys excluded.new.keys encoding.old encoding.new) }
    ensures built { OnOk result (IsBuilt encoding.new) }
    // After a refusal.
    ensures cancelled { IfErr result (IsCancelledBy (A.may_cancel answers.old)) }
    ensures ids { IsErrOf result Ids
        → StopsInOrderOf A.SolvableId.eq A.PackageSource answers.old
        input.now encoding.old encoding.new }
{
    match parent {
        SolvableIdOrRoot::Root => {
            let (needs, limits) = (input.requirements, input.constraints);
            encode_rules(alloc, answers, encoding, tasks, None, needs, limits)?;
            Ok(())
        }
        SolvableIdOrRoot::Solvable(solvable) => {
            encode_solvable(alloc, answers, encoding, tasks, excluded, solvable)?;
            Ok(())
        }
    }
}

/// Does all tasks: encodes the rules of each parent that isn't encoded yet, and cases that hold.
fn encode_waiting<A: PackageSource>(
    alloc: Global,
    answers: &mut A,
    encoding: &mut Encoder<A::NameId, A::SolvableId>,
    tasks: &mut Tasks<A::SolvableId>,
    excluded: &mut IndexSet<A::SolvableId>,
    input: &TurnInput<'_>,
) -> Result<(), CacheFault<A::Cancel>>
    requires built { IsBuilt encoding.old }
    requires none { excluded.old.keys ≡ [] }
    // Whatever the answer.
    ensures same { answers.new ≡ answers.old }
    // After an answer.
    ensures encoded { OnOk result
        (StaysInOrderOf A.SolvableId.eq A.PackageSource answers.old
        input.now encoding.old encoding.new) }
    ensures all { OnOk result (AddsAll encoding.old encoding.new) }
    ensures turn { OnOk result (KeepsTurns encoding.old encoding.new) }
    ensures built { OnOk result (IsBuilt encoding.new) }
    // After a refusal.
    ensures cancelled { IfErr result (IsCancelledBy (A.may_cancel answers.old)) }
    ensures ids { IsErrOf result Ids
        → StopsInOrderOf A.SolvableId.eq A.PackageSource answers.old
        input.now encoding.old encoding.new }
{
    loop {
        ask_and_fire(alloc, answers, encoding, tasks, excluded)?;
        match encoding.next_parent() {
            None => return Ok(()),
            Some(parent) => {
                encode_parent(alloc, answers, encoding, tasks, excluded, input, parent)?;
                encoding.end_parent();
                tasks.push_parents(encoding.parents.as_slice())?;
            }
        }
    }
}

/// Does all tasks, first those of parents that wait and of these cases. Then adds the clauses that
/// wait for the encoding's end.
fn encode_tasks<A: PackageSource>(
    alloc: Global,
    answers: &mut A,
    encoding: &mut Encoder<A::NameId, A::SolvableId>,
    tasks: &mut Tasks<A::SolvableId>,
    excluded: &mut IndexSet<A::SolvableId>,
    places: &[usize],
    input: &TurnInput<'_>,
) -> Result<(), CacheFault<A::Cancel>>
    requires built { IsBuilt encoding.old }
    requires none { excluded.old.keys ≡ [] }
    // Whatever the answer.
    ensures same { answers.new ≡ answers.old }
    // After an answer.
    ensures encoded { OnOk result
        (StaysInOrderOf A.SolvableId.eq A.PackageSource answers.old
        input.now encoding.old encoding.new) }
    ensures all { OnOk result (AddsAll encoding.old encoding.new) }
    ensures turn { OnOk result (KeepsTurns encoding.old encoding.new) }
    ensures placed { OnOk result (IsWhole encoding.new) }
    ensures built { OnOk result (IsBuilt encoding.new) }
    // After a refusal.
    ensures cancelled { IfErr result (IsCancelledBy (A.may_cancel answers.old)) }
    ensures ids { IsErrOf result Ids
        → StopsInOrderOf A.SolvableId.eq A.PackageSource answers.old
        input.now encoding.old encoding.new }
{
    tasks.push_parents(encoding.parents.as_slice())?;
    tasks.push_each(encoding, places)?;
    encode_waiting(alloc, answers, encoding, tasks, excluded, input)?;
    encoding.add_queued(alloc)?;
    Ok(())
}

/// Encodes all parents, and those of these cases that hold. Asks for the dependencies of the
/// parents first.
pub(crate) fn encode_parents<A: PackageSource>(
    alloc: Global,
    answers: &mut A,
    encoding: &mut Encoder<A::NameId, A::SolvableId>,
    tasks: &mut Tasks<A::SolvableId>,
    places: &[usize],
    input: &TurnInput<'_>,
) -> Result<(), CacheFault<A::Cancel>>
    requires { IsBuilt encoding.old }
    // Whatever the answer.
    ensures same { answers.new ≡ answers.old }
    // After an answer.
    ensures encoded { OnOk result
        (StaysInOrderOf A.SolvableId.eq A.PackageSource answers.old
        input.now encoding.old encoding.new) }
    ensures all { OnOk result (AddsAll encoding.old encoding.new) }
    ensures turn { OnOk result (KeepsTurns encoding.old encoding.new) }
    ensures placed { OnOk result (IsWhole encoding.new) }
    ensures built { OnOk result (IsBuilt encoding.new) }
    // After a refusal.
    ensures cancelled { IfErr result (IsCancelledBy (A.may_cancel answers.old)) }
    ensures ids { IsErrOf result Ids
        → StopsInOrderOf A.SolvableId.eq A.PackageSource answers.old
        input.now encoding.old encoding.new }
{
    tasks.begin(encoding.encoded);
    let mut excluded = IndexSet::new(alloc);
    // split for the prover: one drop
    let done = encode_tasks(
        alloc,
        answers,
        encoding,
        tasks,
        &mut excluded,
        places,
        input,
    );
    done
}
