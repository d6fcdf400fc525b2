//! The conflict of a search without a solution: its clauses, and its graph and message for people.
ghost use Rattle.std.specs.Prelude.{◌≡◌, length, map, None, IfOk, IfErr, IfSome, IsOkUnless};
ghost use Rattle.resolvo_pool.specs.Cached.{IsCancelledBy};
ghost use Rattle.resolvo_pool_core.specs.declared.want.Want.TheVariants.{Memory};
ghost use Rattle.resolvo_graph.specs.Message.{IsLengthBelow};
ghost use Rattle.resolvo_graph.specs.Words.{meaning_by};
ghost use Rattle.resolvo.specs.Conflicts.{clause_of_step, conflict_clauses};
ghost use Rattle.resolvo.specs.Solver.{HoldsConflict, IsGraphOf, IsTrueOf, IsConflictMessage};
ghost use Rattle.resolvo.specs.Solve.{AreChosenOnce, AskNothing, EndsSo, CountsBy};
ghost use Rattle.resolvo.specs.Results.{SolvesProblem, OffersAll, LeavesConflict};

use crate::prove::{SearchOptions, Solved, solve_with};
use crate::search::SearchResult;
use crate::solver::Solver;
use resolvo_graph::display_unsat::DisplayUnsat;
use resolvo_graph::graph::ConflictGraph;
use resolvo_packages::package_source::PackageSource;
use resolvo_pool::cache::CacheFault;
use resolvo_pool_core::id::{ClauseId, Exact, VersionSetId, next_index};
use resolvo_pool_core::id_map::ScoreMap;
use resolvo_pool_core::provider::DependencyProvider;
use resolvo_pool_core::requirement::ConditionalRequirement;
use resolvo_pool_core::want::R;
use resolvo_proof::graph::conflict_graph;
use resolvo_proof::offers::Offers;
use resolvo_proof::rules::{conflict_rules, requirements_of};
use resolvo_proof::step::ProofStep;
use resolvo_turn::defer_conditions::solvables_of;
use std::alloc::Global;
use std::fmt::Debug;
use std::hash::Hash;

/// The unsatisfiable clauses: those from which the proof's last step follows, without the root's.
/// The falsified one is first, then its antecedents. A learnt clause is replaced by its causes, and
/// each is listed once.
#[derive(Debug, Drop)]
pub struct Conflict {
    pub clauses: Vec<ClauseId>,
}

impl Conflict {
    /// The graph of the conflict that the solver keeps: its rules in order, from the falsified one
    /// back along the reasons. Each edge is true of the solver's provider.
    pub fn graph<D: DependencyProvider>(
        &self,
        alloc: Global,
        solver: &Solver<D>,
    ) -> R<ConflictGraph<D::SolvableId>>
        requires { HoldsConflict solver.now self.now.clauses.items }
        ensures graph { IfOk result
            (λ g.
            IsGraphOf D.NameId.eq D.SolvableId.eq (D.name_of_solvable solver.now.provider)
            solver.now g) }
        ensures truth { IfOk result
            (λ g. IsTrueOf D.SolvableId.eq (D.name_of_solvable solver.now.provider) solver.now g) }
        ensures refusal { IsOkUnless result Memory }
    {
        conflict_graph(alloc, solver.provider(), solver.offers(), solver.proof())
    }

    /// The message of the conflict that the solver keeps, for people.
    pub fn display_user_friendly<'a, D: DependencyProvider>(
        &self,
        alloc: Global,
        solver: &'a Solver<D>,
    ) -> R<DisplayUnsat<'a, D>>
        requires { HoldsConflict solver.now self.now.clauses.items }
        ensures lines { IfOk result
            (λ d.
            IsConflictMessage D.NameId.eq D.SolvableId.eq (D.name_of_solvable solver.now.provider)
            solver.now d.lines.items) }
        ensures interner { IfOk result (λ d. d.interner.now ≡ solver.now.provider) }
        ensures refusal { IsOkUnless result Memory }
    {
        let graph = self.graph(alloc, solver)?;
        message_of_graph(alloc, &graph, solver)
    }

    /// The same, if its text has fewer bytes than a bound. They are counted before any line is
    /// kept.
    pub fn display_below<'a, D: DependencyProvider>(
        &self,
        alloc: Global,
        solver: &'a Solver<D>,
        bound: u64,
    ) -> R<Option<DisplayUnsat<'a, D>>>
        requires { HoldsConflict solver.now self.now.clauses.items }
        ensures lines { IfOk result
            (λ o.
            IfSome o
            (λ d.
            IsConflictMessage D.NameId.eq D.SolvableId.eq (D.name_of_solvable solver.now.provider)
            solver.now d.lines.items)) }
        ensures interner { IfOk result
            (λ o. IfSome o (λ d. d.interner.now ≡ solver.now.provider)) }
        ensures long { IfOk result
            (λ o.
            o ≡ None
            → IsLengthBelow
            (IsConflictMessage D.NameId.eq D.SolvableId.eq (D.name_of_solvable solver.now.provider)
            solver.now)
            (meaning_by D.Interner solver.now.provider)
            bound None) }
        ensures refusal { IsOkUnless result Memory }
    {
        let graph = self.graph(alloc, solver)?;
        match DisplayUnsat::length_below(alloc, &graph, solver.provider(), bound)? {
            Some(_) => Ok(Some(message_of_graph(alloc, &graph, solver)?)),
            None => Ok(None),
        }
    }
}

/// The message of a graph of the conflict that the solver keeps.
fn message_of_graph<'a, D: DependencyProvider>(
    alloc: Global,
    graph: &ConflictGraph<D::SolvableId>,
    solver: &'a Solver<D>,
) -> R<DisplayUnsat<'a, D>>
    requires { IsGraphOf D.NameId.eq D.SolvableId.eq (D.name_of_solvable solver.now.provider)
        solver.now graph.now }
    ensures lines { IfOk result
        (λ d.
        IsConflictMessage D.NameId.eq D.SolvableId.eq (D.name_of_solvable solver.now.provider)
        solver.now d.lines.items) }
    ensures interner { IfOk result (λ d. d.interner.now ≡ solver.now.provider) }
    ensures refusal { IsOkUnless result Memory }
{
    DisplayUnsat::new(alloc, graph, solver.provider())
}

/// A solver's record of a conflict: its clauses, and the offered candidates for the requirements of
/// its rules.
#[derive(Drop)]
pub(crate) struct KeptConflict<S> {
    pub clauses: Vec<ClauseId>,
    pub offers: Offers<S>,
}

/// The candidates of the requirements that the rules of a conflict name, in the order in which they
/// are tried.
pub fn offers_for<A: PackageSource>(
    alloc: Global,
    answers: &mut A,
    steps: &[ProofStep<A::NameId, A::SolvableId>],
) -> Result<Offers<A::SolvableId>, CacheFault<A::Cancel>>
    ensures same { answers.new ≡ answers.old }
    ensures offers { IfOk result (OffersAll A.SolvableId.eq A.PackageSource answers.old steps.now) }
    ensures cancelled { IfErr result (IsCancelledBy (A.may_cancel answers.old)) }
{
    let requirements = requirements_of(alloc, steps)?;
    let mut offers = Offers::new(alloc)?;
    for requirement in &requirements {
        let offered = answers.candidates(*requirement)?;
        offers.offer(*requirement, solvables_of(alloc, offered.as_slice())?)?;
    }
    Ok(offers)
}

/// The clauses of the steps at these places.
fn clauses_at(alloc: Global, places: &[usize]) -> R<Vec<ClauseId>>
    ensures { IfOk result (λ v. v.items ≡ map clause_of_step places.now) }
{
    let mut clauses = Vec::new(alloc);
    for place in places {
        let number = next_index(place.saturating_add(1))?;
        clauses.push(ClauseId(number as u32))?;
    }
    Ok(clauses)
}

/// The clauses of a conflict, in its order.
fn conflict_clauses<N: Copy + Exact + Hash + Debug, S: Copy + Exact + Hash + Debug>(
    alloc: Global,
    steps: &[ProofStep<N, S>],
) -> R<Vec<ClauseId>>
    ensures { IfOk result (λ v. v.items ≡ conflict_clauses steps.now) }
{
    let places = conflict_rules(alloc, steps)?;
    clauses_at(alloc, places.as_slice())
}

/// A conflict's clauses, to return and to keep, and the offers, for the conflict's graph.
fn conflict_left<A: PackageSource>(
    alloc: Global,
    answers: &mut A,
    solved: &Solved<A::NameId, A::SolvableId>,
) -> Result<(Vec<ClauseId>, Option<KeptConflict<A::SolvableId>>), CacheFault<A::Cancel>>
    ensures same { answers.new ≡ answers.old }
    ensures left { IfOk result
        (λ c. LeavesConflict A.SolvableId.eq A.PackageSource answers.old
        solved.now.found solved.now.proof.items c.0.items c.1) }
    ensures cancelled { IfErr result (IsCancelledBy (A.may_cancel answers.old)) }
{
    match &solved.found {
        SearchResult::Chosen { .. } => Ok((Vec::new(alloc), None)),
        SearchResult::Unsat(_) => {
            let offers = offers_for(alloc, answers, solved.proof.as_slice())?;
            let ids = conflict_clauses(alloc, solved.proof.as_slice())?;
            let clauses = Vec::from_slice(alloc, ids.as_slice())?;
            Ok((ids, Some(KeptConflict { clauses, offers })))
        }
    }
}

/// Searches as `solve_with` does. Gives a conflict's clauses and its record, too.
pub(crate) fn solve_to_conflict<A: PackageSource, C: ScoreMap<A::NameId> + Drop>(
    alloc: Global,
    answers: &mut A,
    options: SearchOptions,
    requirements: &[ConditionalRequirement],
    constraints: &[VersionSetId],
    softs: &[A::SolvableId],
) -> Result<
    (
        Solved<A::NameId, A::SolvableId>,
        Vec<ClauseId>,
        Option<KeptConflict<A::SolvableId>>,
    ),
    CacheFault<A::Cancel>,
>
    // Whatever the answer.
    ensures same { answers.new ≡ answers.old }
    // After an answer.
    ensures solved { IfOk result
        (λ s. SolvesProblem A.SolvableId.eq A.PackageSource answers.old
        requirements.now constraints.now softs.now s.0) }
    ensures once { IfOk result (λ s. AreChosenOnce s.0.found) }
    ensures alone { IfOk result
        (λ s. AskNothing requirements.now constraints.now softs.now → s.0.clause_count ≡ 1) }
    ensures ends { IfOk result (λ s. EndsSo s.0.found s.0.proof.items) }
    ensures count { IfOk result
        (λ s. CountsBy options.steps s.0.found s.0.clause_count (length s.0.proof.items)) }
    ensures left { IfOk result
        (λ s. LeavesConflict A.SolvableId.eq A.PackageSource answers.old
        s.0.found s.0.proof.items s.1.items s.2) }
    // After a refusal.
    ensures cancelled { IfErr result (IsCancelledBy (A.may_cancel answers.old)) }
{
    let solved = solve_with::<A, C>(alloc, answers, options, requirements, constraints, softs)?;
    let (clauses, conflict) = conflict_left(alloc, answers, &solved)?;
    Ok((solved, clauses, conflict))
}
