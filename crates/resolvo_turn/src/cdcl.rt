//! The CDCL loop between two encodings: propagate, learn and decide, until nothing is left to
//! decide or the turn is refused.
ghost use Rattle.std.specs.Prelude.{◌≡◌, ◌<◌, ◌≤◌, length, IfOk, IfErr, OnOk, IsErrOf, IsOkUnless};
ghost use Rattle.resolvo_pool.specs.Cached.{IsCancelledBy};
ghost use Rattle.resolvo_pool.specs.declared.cache.CacheFault.TheVariants.{Ids};
ghost use Rattle.resolvo_pool_core.specs.declared.want.Want.TheVariants.{Memory};
ghost use Rattle.resolvo_encoder.specs.Base.{KeepsFirst};
ghost use Rattle.resolvo_encoder.specs.Steps.{IsBuilt};
ghost use Rattle.resolvo_encoder.specs.Progress.{GoesOn, IsDecision};
ghost use Rattle.resolvo_turn.specs.Encoder.{StaysInOrder};
ghost use Rattle.resolvo_turn.specs.LacksIds.{StopsInOrder};

use crate::turn_state::TurnState;
use resolvo_decide::scores::Scores;
use resolvo_encoder::encoder::Encoder;
use resolvo_encoder::step::Step;
use resolvo_packages::package_source::PackageSource;
use resolvo_pool::cache::CacheFault;
use resolvo_pool_core::id::ClauseId;
use resolvo_pool_core::id_map::ScoreMap;
use resolvo_pool_core::want::R;
use resolvo_sat::analyze::FinalConflict;
use resolvo_state::solver_state::SolverState;
use resolvo_store_core::literal::Literal;
use std::alloc::Global;

/// The activity of packages: bump and decay.
#[derive(Clone, Copy, Debug)]
pub struct Activity {
    /// How much a literal of a learnt clause raises the score of its package, in millionths.
    added: u64,
    /// How many millionths of each score are left after a learnt clause.
    decay: u64,
    ghost bounded: { decay ≤ 1000000 },
}

impl Activity {
    /// The activity with this bump and this decay.
    pub fn new(added: u64, decay: u64) -> Activity
        requires { decay ≤ 1000000 }
        ensures { (result.added ≡ added) × (result.decay ≡ decay) }
    {
        Activity { added, decay }
    }

    /// The default of a solver.
    pub fn standard() -> Activity
        ensures { (result.added ≡ 1000000) × (result.decay ≡ 950000) }
    {
        Activity {
            added: 1_000_000,
            decay: 950_000,
        }
    }
}

/// Bumps the scores of the packages of a clause's literals, then decays all scores.
fn bump_activity<A: PackageSource, C: ScoreMap<A::NameId>>(
    answers: &A,
    coding: &SolverState<A::NameId, A::SolvableId>,
    clause: ClauseId,
    scores: &mut Scores<A::NameId, C>,
    activity: Activity,
) -> R<()>
    requires clause { clause.0 < length coding.now.search.clauses }
    ensures { IsOkUnless result Memory }
{
    let (own, shared) = coding.search.literals(clause);
    bump_packages(answers, coding, own, scores, activity.added)?;
    bump_packages(answers, coding, shared, scores, activity.added)?;
    scores.decay(activity.decay);
    Ok(())
}

/// Bumps the scores of the packages of these literals.
fn bump_packages<A: PackageSource, C: ScoreMap<A::NameId>>(
    answers: &A,
    coding: &SolverState<A::NameId, A::SolvableId>,
    literals: &[Literal],
    scores: &mut Scores<A::NameId, C>,
    added: u64,
) -> R<()>
    ensures { IsOkUnless result Memory }
{
    for literal in literals {
        if let Some(solvable) = coding.solvable(literal.variable()) {
            scores.bump(answers.package(solvable), added)?;
        }
    }
    Ok(())
}

/// Propagates, learns and decides, until nothing is left to decide or the turn is refused.
pub fn run_cdcl<A: PackageSource, C: ScoreMap<A::NameId>>(
    alloc: Global,
    answers: &A,
    encoding: &mut Encoder<A::NameId, A::SolvableId>,
    state: &mut TurnState<A::NameId, A::SolvableId, C>,
    activity: Activity,
) -> Result<Option<FinalConflict>, CacheFault<A::Cancel>>
    requires built { IsBuilt encoding.old }
    // After an answer.
    ensures stays { OnOk result
        (StaysInOrder A.SolvableId.eq A.PackageSource answers.now encoding.old encoding.new) }
    ensures goes_on { OnOk result (GoesOn encoding.old encoding.new) }
    ensures first { OnOk result (KeepsFirst encoding.old encoding.new) }
    ensures decided { IfOk result (IsDecision encoding.new) }
    ensures built { OnOk result (IsBuilt encoding.new) }
    // After a refusal.
    ensures cancelled { IfErr result (IsCancelledBy (A.may_cancel answers.now)) }
    ensures ids { IsErrOf result Ids
        → StopsInOrder A.SolvableId.eq A.PackageSource answers.now encoding.old encoding.new }
{
    loop {
        answers.check()?;
        match encoding.step(alloc, &state.scores)? {
            Step::Done => return Ok(None),
            Step::Refused(refusal) => return Ok(Some(refusal)),
            Step::Chosen => {}
            Step::Learnt(clause) => {
                state.scan.go_back(encoding);
                let scores = &mut state.scores;
                bump_activity(answers, &encoding.coding, clause, scores, activity)?;
            }
        }
    }
}
