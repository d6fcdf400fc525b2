//! A whole search for a problem's root and its soft requirements.
ghost use Rattle.std.specs.Prelude.{◌≡◌, [], length, None, IfOk, IfErr, OnOk};
ghost use Rattle.std.specs.Bool.{Decides};
ghost use Rattle.resolvo_pool.specs.Cached.{IsCancelledBy};
ghost use Rattle.resolvo_encoder.specs.Steps.{IsBegunEncoding, IsBuilt};
ghost use Rattle.resolvo_turn.specs.Turn.{IsRooted, IsTurn};
ghost use Rattle.resolvo.specs.Solve.{AskNothing, IsFoundIn, IsListedIn, IsDenial, IsProvable};
ghost use Rattle.resolvo.specs.Results.{RunsTurns, FindsNothing, Searches};

use crate::soft_requirements::run_soft_requirements;
use crate::turns::{Turn, Turns};
use resolvo_encoder::encoder::Encoder;
use resolvo_packages::package_source::PackageSource;
use resolvo_pool::cache::CacheFault;
use resolvo_pool_core::id::{Exact, VersionSetId};
use resolvo_pool_core::id_map::ScoreMap;
use resolvo_pool_core::requirement::ConditionalRequirement;
use resolvo_pool_core::want::R;
use resolvo_sat::analyze::FinalConflict;
use resolvo_turn::cdcl::Activity;
use resolvo_turn::turn::run_turn;
use resolvo_turn::turn_input::TurnInput;
use resolvo_turn::turn_state::TurnState;
use std::alloc::Global;
use std::fmt::Debug;
use std::hash::Hash;

/// The result of a search.
#[derive(Debug, Drop)]
pub enum SearchResult<S> {
    /// The chosen solvables, each once and in the order of the trail: first those of the root's
    /// turn, then those of the soft requirements.
    Chosen {
        solvables: Vec<S>,
        turns: Vec<Turn<S>>,
    },
    /// The clauses are unsatisfiable: no solvables keep all rules.
    Unsat(FinalConflict),
}

/// The choices of the turns, or the conflict.
fn found_in<S: Copy + Exact + Hash + Debug>(
    alloc: Global,
    turns: Turns<S>,
    conflict: Option<FinalConflict>,
) -> R<SearchResult<S>>
    ensures { IfOk result (IsFoundIn turns conflict) }
{
    match conflict {
        Some(refusal) => Ok(SearchResult::Unsat(refusal)),
        None => {
            let solvables = Vec::from_slice(alloc, turns.chosen.as_slice())?;
            Ok(SearchResult::Chosen {
                solvables,
                turns: turns.turns,
            })
        }
    }
}

/// The turns of the soft requirements, after the root's, and the result of all of them.
fn run_others<A: PackageSource, C: ScoreMap<A::NameId>>(
    alloc: Global,
    answers: &mut A,
    encoding: &mut Encoder<A::NameId, A::SolvableId>,
    state: &mut TurnState<A::NameId, A::SolvableId, C>,
    input: &TurnInput<'_>,
    softs: &[A::SolvableId],
) -> Result<SearchResult<A::SolvableId>, CacheFault<A::Cancel>>
    requires built { IsBuilt encoding.old }
    requires rooted { IsRooted encoding.old }
    requires ended { IsTurn A.SolvableId.eq None encoding.old None }
    requires first { encoding.old.recorded.softs.items ≡ [] }
    requires turn { encoding.old.coding.search.base_level ≡ 1 }
    // Whatever the answer.
    ensures same { answers.new ≡ answers.old }
    // After an answer.
    ensures found { IfOk result
        (RunsTurns A.SolvableId.eq A.PackageSource answers.old
        input.now softs.now encoding.old encoding.new) }
    ensures listed { IfOk result (IsListedIn encoding.new) }
    ensures denial { IfOk result (IsDenial encoding.new.coding) }
    ensures built { OnOk result (IsBuilt encoding.new) }
    // After a refusal.
    ensures cancelled { IfErr result (IsCancelledBy (A.may_cancel answers.old)) }
{
    let mut turns = Turns::new(alloc);
    turns.list(alloc, encoding)?;
    let conflict = run_soft_requirements(
        alloc, answers, encoding, state, input, softs, &mut turns,
    )?;
    // `?` converts the error
    let found = found_in(alloc, turns, conflict)?;
    Ok(found)
}

/// All turns, and their result.
fn run_turns<A: PackageSource, C: ScoreMap<A::NameId>>(
    alloc: Global,
    answers: &mut A,
    encoding: &mut Encoder<A::NameId, A::SolvableId>,
    state: &mut TurnState<A::NameId, A::SolvableId, C>,
    input: &TurnInput<'_>,
    softs: &[A::SolvableId],
) -> Result<SearchResult<A::SolvableId>, CacheFault<A::Cancel>>
    requires { IsBegunEncoding encoding.old }
    // Whatever the answer.
    ensures same { answers.new ≡ answers.old }
    // After an answer.
    ensures found { IfOk result
        (RunsTurns A.SolvableId.eq A.PackageSource answers.old
        input.now softs.now encoding.old encoding.new) }
    ensures listed { IfOk result (IsListedIn encoding.new) }
    ensures denial { IfOk result (IsDenial encoding.new.coding) }
    ensures built { OnOk result (IsBuilt encoding.new) }
    // After a refusal.
    ensures cancelled { IfErr result (IsCancelledBy (A.may_cancel answers.old)) }
{
    let turn = run_turn(alloc, answers, encoding, state, input, None)?;
    if let Some(refusal) = turn {
        return Ok(SearchResult::Unsat(refusal));
    }
    // split for the prover: error and answer
    let found = run_others(alloc, answers, encoding, state, input, softs)?;
    Ok(found)
}

/// Whether a problem has no requirements.
fn is_empty_problem<S>(
    requirements: &[ConditionalRequirement],
    constraints: &[VersionSetId],
    softs: &[S],
) -> bool
    ensures { Decides result (AskNothing requirements.now constraints.now softs.now) }
{
    requirements.is_empty() && constraints.is_empty() && softs.is_empty()
}

/// The result of a problem without requirements, over a new encoding. Nothing is asked for, but
/// whether to stop: then it is an error, with the value of the cancellation.
fn find_nothing<A: PackageSource>(
    alloc: Global,
    answers: &A,
    encoding: &mut Encoder<A::NameId, A::SolvableId>,
) -> Result<SearchResult<A::SolvableId>, CacheFault<A::Cancel>>
    requires { IsBegunEncoding encoding.old }
    // After an answer.
    ensures found { IfOk result
        (FindsNothing A.SolvableId.eq A.PackageSource answers.now encoding.old encoding.new) }
    ensures listed { IfOk result (IsListedIn encoding.new) }
    ensures provable { IfOk result (IsProvable encoding.new) }
    ensures alone { OnOk result (length encoding.new.coding.search.clauses ≡ 1) }
    // After a refusal.
    ensures cancelled { IfErr result (IsCancelledBy (A.may_cancel answers.now)) }
{
    answers.check()?;
    encoding.end_parent();
    Ok(SearchResult::Chosen {
        solvables: Vec::new(alloc),
        turns: Vec::new(alloc),
    })
}

/// Searches for solvables that keep the rules of a root with these requirements and constraints,
/// and of each other. Candidates are tried in their order. Then searches for the soft requirements,
/// in their order. The solvables are in the order of the trail. The encoding is new, and holds all
/// clauses afterwards. It stops with `Memory`, `Ids`, or the value of a cancellation.
pub fn search<A: PackageSource, C: ScoreMap<A::NameId> + Drop>(
    alloc: Global,
    answers: &mut A,
    encoding: &mut Encoder<A::NameId, A::SolvableId>,
    activity: Activity,
    requirements: &[ConditionalRequirement],
    constraints: &[VersionSetId],
    softs: &[A::SolvableId],
) -> Result<SearchResult<A::SolvableId>, CacheFault<A::Cancel>>
    requires { IsBegunEncoding encoding.old }
    // Whatever the answer.
    ensures same { answers.new ≡ answers.old }
    // After an answer.
    ensures found { IfOk result
        (Searches A.SolvableId.eq A.PackageSource answers.old
        requirements.now constraints.now softs.now encoding.old encoding.new) }
    ensures listed { IfOk result (IsListedIn encoding.new) }
    ensures provable { IfOk result (IsProvable encoding.new) }
    ensures alone { OnOk result
        (AskNothing requirements.now constraints.now softs.now
        → length encoding.new.coding.search.clauses ≡ 1) }
    // After a refusal.
    ensures cancelled { IfErr result (IsCancelledBy (A.may_cancel answers.old)) }
{
    if is_empty_problem(requirements, constraints, softs) {
        // split for the prover: error and answer
        let nothing = find_nothing(alloc, answers, encoding)?;
        return Ok(nothing);
    }
    let input = TurnInput {
        activity,
        requirements,
        constraints,
    };
    let mut state = TurnState::<A::NameId, A::SolvableId, C>::new(alloc);
    // split for the prover: error and answer
    let found = run_turns(alloc, answers, encoding, &mut state, &input, softs)?;
    Ok(found)
}
