//! A search with its proof. `Solver` keeps the result of `solve_with`; a program that needs no
//! solver may call it itself.
ghost use Rattle.std.specs.Prelude.{◌≡◌, Bool, true, length, IfOk, IfErr};
ghost use Rattle.resolvo_pool.specs.Cached.{IsCancelledBy};
ghost use Rattle.resolvo_pool_core.specs.RuleKeeping.{Packages, Rules, IsLawful};
ghost use Rattle.resolvo_state.specs.declared.registry.Registry.{Registry};
ghost use Rattle.resolvo_state.specs.SolverState.{IsCoding};
ghost use Rattle.resolvo_state.specs.Registered.{AreTied};
ghost use Rattle.resolvo_state.specs.Spelled.{Spelled};
ghost use Rattle.resolvo_encoder.specs.Conditions.{waiting_count};
ghost use Rattle.resolvo_encoder.specs.Encoded.{IsEncoding};
ghost use Rattle.resolvo_encoder.specs.Steps.{IsBegunEncoding};
ghost use Rattle.resolvo_proof.specs.Drawn.{AreDrawn, HaveOneSigns};
ghost use Rattle.resolvo_proof.specs.Places.{HaveOnePlace, AreNamedBy};
ghost use Rattle.resolvo_proof.specs.Proof.{Proves};
ghost use Rattle.resolvo.specs.Solve.{AreChosenOnce, AreStepsOf, AskNothing, IsDenial, IsProvable, EndsSo, Counts, CountsBy, HasSteps, NeedsNone};
ghost use Rattle.resolvo.specs.Results.{SolvesProblem};

use crate::release::Release;
use crate::search::{SearchResult, search};
use crate::turns::are_accepted;
use resolvo_encoder::encoder::Encoder;
use resolvo_packages::package_source::PackageSource;
use resolvo_pool::cache::CacheFault;
use resolvo_pool_core::id::{Exact, VersionSetId};
use resolvo_pool_core::id_map::ScoreMap;
use resolvo_pool_core::requirement::ConditionalRequirement;
use resolvo_pool_core::want::R;
use resolvo_proof::proof::proof_of;
use resolvo_proof::step::ProofStep;
use resolvo_state::solver_state::SolverState;
use resolvo_turn::cdcl::Activity;
use std::alloc::Global;
use std::fmt::Debug;
use std::hash::Hash;

/// The result of a search, its counts of clauses and deferred cases, and its proof.
#[derive(Drop)]
pub struct Solved<N, S> {
    pub found: SearchResult<S>,
    pub clause_count: usize,
    /// The number of cases that are still deferred.
    pub deferred_count: usize,
    pub proof: Vec<ProofStep<N, S>>,
}

/// Which steps of its proof a search writes.
#[derive(Clone, Copy, Debug)]
pub enum Steps {
    /// One for each clause but the root's.
    All,
    /// All, where the problem or a soft requirement was refused; otherwise none.
    Reasons,
}

/// How a search is made, whatever it answers.
#[derive(Clone, Copy, Debug)]
pub struct SearchOptions {
    pub activity: Activity,
    /// The steps of its proof that are wanted.
    pub steps: Steps,
    /// When its clauses are released.
    pub release: Release,
}

/// The steps of the clauses, and of a conflict.
fn steps_of<N: Copy + Exact + Hash + Debug, S: Copy + Exact + Hash + Debug>(
    alloc: Global,
    coding: &SolverState<N, S>,
    found: &SearchResult<S>,
) -> R<Vec<ProofStep<N, S>>>
    requires coding { IsCoding coding.now }
    requires denial { IsDenial coding.now found.now }
    // After an answer.
    ensures proof { IfOk result (λ v. Proves coding.now v.items) }
    ensures drawn { IfOk result
        (λ v.
        (same : S → S → Bool) (p : Packages N S)
        → Spelled same p coding.now
        → AreDrawn same p v.items) }
    ensures signs { IfOk result (λ v. HaveOneSigns v.items) }
    ensures places { IfOk result
        (λ v.
        (r : Registry N) (package_of : S → N)
        → AreTied r coding.now
        → AreNamedBy r coding.now package_of
        → HaveOnePlace v.items) }
    ensures ends { IfOk result (λ v. EndsSo found.now v.items) }
    ensures count { IfOk result
        (λ v. Counts found.now (length coding.now.search.clauses) (length v.items)) }
    ensures clauses { IfOk result (λ v. HasSteps coding.now found.now v.items) }
{
    match found {
        SearchResult::Chosen { .. } => proof_of(alloc, coding, None),
        SearchResult::Unsat(refusal) => proof_of(alloc, coding, Some(refusal)),
    }
}

/// Whether no step is wanted.
fn needs_none<S>(steps: Steps, found: &SearchResult<S>) -> bool
    ensures { result ≡ true → NeedsNone steps found.now }
{
    match steps {
        Steps::All => false,
        Steps::Reasons => match found {
            SearchResult::Chosen { turns, .. } => are_accepted(turns.as_slice()),
            SearchResult::Unsat(_) => false,
        },
    }
}

/// The steps that are wanted.
fn wanted_steps<N: Copy + Exact + Hash + Debug, S: Copy + Exact + Hash + Debug>(
    alloc: Global,
    coding: &SolverState<N, S>,
    found: &SearchResult<S>,
    steps: Steps,
) -> R<Vec<ProofStep<N, S>>>
    requires coding { IsCoding coding.now }
    requires denial { IsDenial coding.now found.now }
    // After an answer.
    ensures steps { IfOk result (λ v. AreStepsOf coding.now found.now v.items) }
    ensures count { IfOk result
        (λ v. CountsBy steps found.now (length coding.now.search.clauses) (length v.items)) }
{
    if needs_none(steps, found) {
        return Ok(Vec::new(alloc));
    }
    let written = steps_of(alloc, coding, found)?;
    Ok(written)
}

/// Writes the proof of a search's result.
fn prove<N: Copy + Exact + Hash + Debug + Drop, S: Copy + Exact + Hash + Debug>(
    alloc: Global,
    encoding: &Encoder<N, S>,
    found: SearchResult<S>,
    steps: Steps,
) -> R<Solved<N, S>>
    requires { IsProvable encoding.now found }
    // After an answer.
    ensures found { IfOk result (λ s. s.found ≡ found) }
    ensures count { IfOk result
        (λ s. CountsBy steps s.found s.clause_count (length s.proof.items)) }
    ensures clause_count { IfOk result
        (λ s. s.clause_count ≡ length encoding.now.coding.search.clauses) }
    ensures deferred { IfOk result (λ s. s.deferred_count ≡ waiting_count encoding.now) }
    ensures steps { IfOk result (λ s. AreStepsOf encoding.now.coding found s.proof.items) }
{
    let proof = wanted_steps(alloc, &encoding.coding, &found, steps)?;
    Ok(Solved {
        found,
        clause_count: encoding.coding.search.clauses.len(),
        deferred_count: encoding.deferred_count(),
        proof,
    })
}

/// Searches over a new encoding, and writes the steps of the proof that are wanted.
fn search_and_prove<A: PackageSource, C: ScoreMap<A::NameId> + Drop>(
    alloc: Global,
    answers: &mut A,
    encoding: &mut Encoder<A::NameId, A::SolvableId>,
    options: SearchOptions,
    requirements: &[ConditionalRequirement],
    constraints: &[VersionSetId],
    softs: &[A::SolvableId],
) -> Result<Solved<A::NameId, A::SolvableId>, CacheFault<A::Cancel>>
    requires begun { IsBegunEncoding encoding.old }
    requires encoding { (p : Packages A.NameId A.SolvableId) (root : Rules)
        → IsLawful p
        → IsEncoding A.SolvableId.eq p root encoding.old }
    // Whatever the answer.
    ensures same { answers.new ≡ answers.old }
    // After an answer.
    ensures solved { IfOk result
        (SolvesProblem A.SolvableId.eq A.PackageSource answers.old
        requirements.now constraints.now softs.now) }
    ensures once { IfOk result (λ s. AreChosenOnce s.found) }
    ensures alone { IfOk result
        (λ s. AskNothing requirements.now constraints.now softs.now → s.clause_count ≡ 1) }
    ensures ends { IfOk result (λ s. EndsSo s.found s.proof.items) }
    ensures count { IfOk result
        (λ s. CountsBy options.steps s.found s.clause_count (length s.proof.items)) }
    // After a refusal.
    ensures cancelled { IfErr result (IsCancelledBy (A.may_cancel answers.old)) }
{
    let found = search::<A, C>(
        alloc,
        answers,
        encoding,
        options.activity,
        requirements,
        constraints,
        softs,
    )?;
    // `?` converts the error
    let solved = prove(alloc, encoding, found, options.steps)?;
    Ok(solved)
}

/// Searches for solvables that keep the rules of a root with these requirements and constraints,
/// and of each other. Then searches for the soft requirements, in their order, and writes the
/// steps of the proof that are wanted. It stops with `Memory`, `Ids`, or the value of a
/// cancellation.
pub fn solve_with<A: PackageSource, C: ScoreMap<A::NameId> + Drop>(
    alloc: Global,
    answers: &mut A,
    options: SearchOptions,
    requirements: &[ConditionalRequirement],
    constraints: &[VersionSetId],
    softs: &[A::SolvableId],
) -> Result<Solved<A::NameId, A::SolvableId>, CacheFault<A::Cancel>>
    // Whatever the answer.
    ensures same { answers.new ≡ answers.old }
    // After an answer.
    ensures solved { IfOk result
        (SolvesProblem A.SolvableId.eq A.PackageSource answers.old
        requirements.now constraints.now softs.now) }
    ensures once { IfOk result (λ s. AreChosenOnce s.found) }
    ensures alone { IfOk result
        (λ s. AskNothing requirements.now constraints.now softs.now → s.clause_count ≡ 1) }
    ensures ends { IfOk result (λ s. EndsSo s.found s.proof.items) }
    ensures count { IfOk result
        (λ s. CountsBy options.steps s.found s.clause_count (length s.proof.items)) }
    // After a refusal.
    ensures cancelled { IfErr result (IsCancelledBy (A.may_cancel answers.old)) }
{
    let mut encoding = Encoder::begin(alloc)?;
    let solved = search_and_prove::<A, C>(
        alloc,
        answers,
        &mut encoding,
        options,
        requirements,
        constraints,
        softs,
    );
    options.release.done_with(encoding);
    solved
}

/// The same, with all steps of the proof.
pub fn solve<A: PackageSource, C: ScoreMap<A::NameId> + Drop>(
    alloc: Global,
    answers: &mut A,
    activity: Activity,
    requirements: &[ConditionalRequirement],
    constraints: &[VersionSetId],
    softs: &[A::SolvableId],
) -> Result<Solved<A::NameId, A::SolvableId>, CacheFault<A::Cancel>>
    // Whatever the answer.
    ensures same { answers.new ≡ answers.old }
    // After an answer.
    ensures solved { IfOk result
        (SolvesProblem A.SolvableId.eq A.PackageSource answers.old
        requirements.now constraints.now softs.now) }
    ensures once { IfOk result (λ s. AreChosenOnce s.found) }
    ensures alone { IfOk result
        (λ s. AskNothing requirements.now constraints.now softs.now → s.clause_count ≡ 1) }
    ensures ends { IfOk result (λ s. EndsSo s.found s.proof.items) }
    ensures count { IfOk result (λ s. Counts s.found s.clause_count (length s.proof.items)) }
    // After a refusal.
    ensures cancelled { IfErr result (IsCancelledBy (A.may_cancel answers.old)) }
{
    solve_with::<A, C>(
        alloc,
        answers,
        SearchOptions {
            activity,
            steps: Steps::All,
            release: Release::Now,
        },
        requirements,
        constraints,
        softs,
    )
}
