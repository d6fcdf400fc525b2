//! The report of the solver's answer, as a text: the install report of its turns, or the refused
//! report of its proof with the message of its conflict.

ghost use Rattle.std.specs.Prelude.{◌≡◌, true, ℕ, List, map, Option, IfOk, IfErr, IsSome};
ghost use Rattle.resolvo_catalogue_core.specs.Grammar.{AreRequestLines};
ghost use Rattle.resolvo_report.specs.Value.{Message};
ghost use Rattle.resolvo_report.specs.Text.{lines_text};
ghost use Rattle.resolve_refusal.specs.Parts.{report_with};
ghost use Rattle.resolvo_catalogue.specs.KeptSets.{root_of as asked_of};
ghost use Rattle.resolvo_catalogue.specs.Over.{IsOver, AreAsked};
ghost use Rattle.resolvo.specs.Solver.{HoldsConflict, root_of};
ghost use Rattle.resolve_answer.specs.Wishes.{AreWishesAt, GivesAll};
ghost use Rattle.resolve_answer.specs.Solved.{IsInstalledOver, IsRefutedOver};
ghost use Rattle.resolve_answer.specs.Reported.{HaveLongReport};
ghost use Rattle.resolve_answer.specs.Answer.{IsAnswerOf, IsRefusalText};
ghost use Rattle.resolve_answer.specs.Stops.{IsStopOf};

use crate::head::report_text;
use crate::message::message_of;
use crate::stop::Stop;
use crate::turns::{Outcome, report_turns, wanted_steps};
use crate::wishes::{Wish, free_wishes, wishes_of};
use resolve_install::{install_text, numbers_of};
use resolve_refusal::{Refusal, install_steps, refusal_of};
use resolvo::conflict::Conflict;
use resolvo::problem::Problem;
use resolvo::prove::Steps;
use resolvo::release::Release;
use resolvo::solver::{Solver, UnsolvableOrCancelled};
use resolvo::turns::Turn;
use resolvo_catalogue::provider::{CatalogueProvider, Hint, RequestIds};
use resolvo_catalogue_core::{Catalogue, Request};
use resolvo_pool_core::id::{NameId, SolvableId};
use resolvo_pool_core::want::{R, Want};
use resolvo_proof::step::ProofStep;
use resolvo_proof::trim::{Trimmed, trim, trim_to};
use std::alloc::Global;
use std::marker::PhantomData;
use std::vec::IntoIter;

/// The report of a search, known by its text alone: it may have many lines, and each is written once.
#[derive(Debug, Drop)]
pub enum Answer {
    Installed { text: Vec<u8> },
    /// The text is that of the report without a message, and behind it the message's lines. A message
    /// may be long, so it is not copied.
    Refused { head: Vec<u8>, message: Vec<u8> },
}

/// What a search chose, turn by turn.
#[derive(Clone, Copy)]
struct Found<'a> {
    solvables: &'a [SolvableId],
    turns: &'a [Turn<SolvableId>],
}

/// The install report of the solver's choices over the provider of a catalogue.
fn installed_over(
    alloc: Global,
    catalogue: &Catalogue,
    request: &Request,
    provider: &CatalogueProvider<'_>,
    wishes: Vec<Wish>,
    found: Found<'_>,
    proof: Vec<ProofStep<NameId, SolvableId>>,
) -> R<Answer>
    ensures { IfOk result
        (λ r.
        AreRequestLines catalogue.now request.now.lines
        → IsInstalledOver catalogue.now request.now provider.now wishes.items
        found.entry.solvables.now found.entry.turns.now proof.items
        → IsAnswerOf catalogue.now request.now.lines r) }
{
    let Found { solvables, turns } = found;
    let wanted = wanted_steps(alloc, turns)?;
    let Trimmed { steps, numbers } = trim_to(alloc, proof, wanted.as_slice())?;
    let mut written = install_steps(alloc, catalogue, request, provider, steps.as_slice())?;
    let chosen = numbers_of(alloc, solvables)?;
    let outcome = Outcome {
        chosen: chosen.as_slice(),
        turns,
        places: numbers.as_slice(),
    };
    let matched = report_turns(alloc, outcome, wishes, &mut written)?;
    let text = install_text(
        alloc,
        catalogue,
        request,
        matched.as_slice(),
        written.as_slice(),
    )?;
    Ok(Answer::Installed { text })
}

/// The install report of the solver's choices. It takes the proof from the solver.
fn installed(
    alloc: Global,
    catalogue: &Catalogue,
    request: &Request,
    solver: &mut Solver<CatalogueProvider<'_>>,
    wishes: Vec<Wish>,
    chosen: &[SolvableId],
) -> R<Answer>
    ensures { IfOk result
        (λ r.
        AreRequestLines catalogue.now request.now.lines
        → IsInstalledOver catalogue.now request.now solver.old.provider wishes.items chosen.now
        solver.old.turns solver.old.proof
        → IsAnswerOf catalogue.now request.now.lines r) }
{
    let proof = solver.take_proof();
    let found = Found {
        solvables: chosen,
        turns: solver.turns(),
    };
    installed_over(
        alloc,
        catalogue,
        request,
        solver.provider(),
        wishes,
        found,
        proof,
    )
}

/// The report of a refusal with these lines of a message.
fn told(alloc: Global, refusal: Refusal, message: Vec<u8>, release: Release) -> R<Answer>
    ensures { IfOk result
        (λ r.
        (lines : List (List ℕ))
        → message.items ≡ lines_text (map Message lines)
        → IsRefusalText (report_with lines refusal) r) }
{
    let report = refusal.with_message(Vec::new(alloc));
    let head = report_text(alloc, &report)?;
    release.done_with(report);
    Ok(Answer::Refused { head, message })
}

/// The conflict that the solver keeps, as a report with its message. It takes the proof from the
/// solver. `TooLong` where the message alone has more bytes than a report may have.
fn refused(
    alloc: Global,
    catalogue: &Catalogue,
    request: &Request,
    solver: &mut Solver<CatalogueProvider<'_>>,
    conflict: &Conflict,
    release: Release,
) -> Result<Answer, Stop>
    requires { HoldsConflict solver.old conflict.now.clauses.items }
    ensures report { IfOk result
        (λ r.
        AreRequestLines catalogue.now request.now.lines
        → IsRefutedOver ⟦<SolvableId as PartialEq>⟧.eq catalogue.now request.now solver.old
        → IsAnswerOf catalogue.now request.now.lines r) }
    ensures stop { IfErr result (IsStopOf ⊥
        (AreRequestLines catalogue.now request.now.lines
        → IsRefutedOver ⟦<SolvableId as PartialEq>⟧.eq catalogue.now request.now solver.old
        → HaveLongReport catalogue.now request.now.lines)) }
{
    let message = message_of(alloc, solver, conflict)?;
    let steps = trim(alloc, solver.take_proof())?;
    let refusal = refusal_of(
        alloc,
        catalogue,
        request,
        solver.provider(),
        steps.as_slice(),
    )?;
    match message {
        Some(message) => Ok(told(alloc, refusal, message, release)?),
        None => Err(Stop::TooLong),
    }
}

/// The problem of a request with these wishes.
fn problem_of(asked: RequestIds, free: Vec<SolvableId>) -> Problem<SolvableId, IntoIter<SolvableId>>
    ensures root { root_of result ≡ asked_of asked }
    ensures wishes { GivesAll ⟦<IntoIter<SolvableId> as Iterator>⟧.next_gives
        result.soft_requirements free.items }
{
    let RequestIds {
        requirements,
        constraints,
        wishes: _,
    } = asked;
    Problem {
        requirements,
        constraints,
        soft_requirements: free.into_iter(),
        of: PhantomData,
    }
}

/// The report of the solver's answer to a request over the provider of a catalogue. A wish that a
/// lock or an exclusion forbids is left out without a search.
fn answered(
    alloc: Global,
    catalogue: &Catalogue,
    request: &Request,
    solver: &mut Solver<CatalogueProvider<'_>>,
    asked: RequestIds,
    release: Release,
) -> Result<Answer, Stop>
    ensures report { IfOk result
        (λ r.
        AreRequestLines catalogue.now request.now.lines
        → AreWishesAt catalogue.now request.now
        → IsOver catalogue.now solver.old.provider
        → AreAsked solver.old.provider.ids request.now asked
        → IsAnswerOf catalogue.now request.now.lines r) }
    ensures stop { IfErr result (IsStopOf (solver.old.provider.has_budget ≡ true)
        (AreRequestLines catalogue.now request.now.lines
        → AreWishesAt catalogue.now request.now
        → IsOver catalogue.now solver.old.provider
        → AreAsked solver.old.provider.ids request.now asked
        → HaveLongReport catalogue.now request.now.lines)) }
{
    let wishes = wishes_of(alloc, catalogue, request)?;
    let free = free_wishes(alloc, wishes.as_slice())?;
    match solver.solve_with(problem_of(asked, free), Steps::Reasons) {
        Ok(chosen) => Ok(installed(alloc, catalogue, request, solver, wishes, chosen.as_slice())?),
        Err(UnsolvableOrCancelled::Unsolvable(conflict)) => {
            refused(alloc, catalogue, request, solver, &conflict, release)
        }
        Err(UnsolvableOrCancelled::Memory) => Err(Stop::Lacks(Want::Memory)),
        Err(UnsolvableOrCancelled::Ids) => Err(Stop::Lacks(Want::Ids)),
        Err(UnsolvableOrCancelled::Cancelled(_given_up)) => Err(Stop::GivenUp),
    }
}

/// The same, by a provider that was asked nothing yet.
fn answered_by(
    alloc: Global,
    catalogue: &Catalogue,
    request: &Request,
    provider: CatalogueProvider<'_>,
    asked: RequestIds,
    release: Release,
) -> Result<Answer, Stop>
    ensures report { IfOk result
        (λ r.
        AreRequestLines catalogue.now request.now.lines
        → AreWishesAt catalogue.now request.now
        → IsOver catalogue.now provider.entry
        → AreAsked provider.entry.ids request.now asked
        → IsAnswerOf catalogue.now request.now.lines r) }
    ensures stop { IfErr result (IsStopOf (provider.entry.has_budget ≡ true)
        (AreRequestLines catalogue.now request.now.lines
        → AreWishesAt catalogue.now request.now
        → IsOver catalogue.now provider.entry
        → AreAsked provider.entry.ids request.now asked
        → HaveLongReport catalogue.now request.now.lines)) }
{
    let mut solver = Solver::new(alloc, provider).with_release(release);
    let report = answered(alloc, catalogue, request, &mut solver, asked, release);
    release.done_with(solver);
    report
}

/// The provider of a catalogue, with a budget or without one.
fn provider_of(
    alloc: Global,
    catalogue: &Catalogue,
    budget: Option<u64>,
) -> R<CatalogueProvider<'_>>
    ensures over { IfOk result (λ p. IsOver catalogue.now p) }
    ensures budget { IfOk result (λ p. p.has_budget ≡ true → IsSome budget) }
{
    let provider = CatalogueProvider::new(alloc, catalogue, Hint::All)?;
    match budget {
        Some(budget) => Ok(provider.within(budget)),
        None => Ok(provider),
    }
}

/// The report of a catalogue and a request over it: the solver's answer. `Memory` where there is no
/// room; `Ids` where a number is too great; `TooLong` where a message has more bytes than a report may
/// have. With a budget the search gives up after so many questions of the solver whether to stop,
/// and one more.
pub fn report_for(
    alloc: Global,
    catalogue: &Catalogue,
    request: &Request,
    budget: Option<u64>,
    release: Release,
) -> Result<Answer, Stop>
    ensures report { IfOk result
        (λ r.
        AreRequestLines catalogue.now request.now.lines
        → AreWishesAt catalogue.now request.now
        → IsAnswerOf catalogue.now request.now.lines r) }
    ensures stop { IfErr result (IsStopOf (IsSome budget)
        (AreRequestLines catalogue.now request.now.lines
        → AreWishesAt catalogue.now request.now
        → HaveLongReport catalogue.now request.now.lines)) }
{
    let mut provider = provider_of(alloc, catalogue, budget)?;
    let asked = provider.intern_request(request)?;
    answered_by(alloc, catalogue, request, provider, asked, release)
}
