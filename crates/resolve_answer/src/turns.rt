//! The turns of a report: the versions chosen in each, and the wishes left out, each with its step.

ghost use Rattle.std.specs.Prelude.{◌≡◌, ◌<◌, ◌≤◌, ◌++◌, ◌∷◌, [], length, slice_get, IfOk, IsErrOf, IsOkUnless, OnOk};
ghost use Rattle.resolvo_pool_core.specs.declared.want.Want.TheVariants.{Ids, Memory};
ghost use Rattle.resolvo_report.specs.View.{steps_of};
ghost use Rattle.resolve_answer.specs.ReportTurns.{number_at, AreReportTurns, AreWanted, IsBetween, IsFirstTurn, IsWishedTurn, Wants, HasPlaceTooGreat, LacksStepNumber};

use crate::wishes::Wish;
use resolve_order as order;
use resolvo::turns::Turn;
use resolvo_catalogue_core::VersionNo;
use resolvo_pool_core::id::SolvableId;
use resolvo_pool_core::want::{R, Want};
use resolvo_report::Step;
use std::alloc::Global;

/// The outcome of a search. It has the numbers of the chosen versions, the turns, and the place of
/// each step of the proof among the written steps.
#[derive(Clone, Copy)]
pub struct Outcome<'a> {
    pub chosen: &'a [VersionNo],
    pub turns: &'a [Turn<SolvableId>],
    pub places: &'a [usize],
}

/// The steps of the turns, for those that have one. `Memory` where they find no room.
pub fn wanted_steps(alloc: Global, turns: &[Turn<SolvableId>]) -> R<Vec<usize>>
    ensures steps { IfOk result (λ v. AreWanted turns.now v.items) }
    ensures refusal { IsOkUnless result Memory }
{
    let mut wanted = Vec::new(alloc);
    for turn in turns {
        want(&mut wanted, turn.step)?;
    }
    Ok(wanted)
}

/// Wants a step, if it is one.
fn want(wanted: &mut Vec<usize>, step: Option<usize>) -> R<()>
    ensures steps { OnOk result (Wants step wanted.old.items wanted.new.items) }
    ensures refusal { IsOkUnless result Memory }
{
    if let Some(step) = step {
        wanted.push(step)?;
    }
    Ok(())
}

impl<'a> Outcome<'a> {
    /// The versions chosen from one count to another.
    fn between(self, begin: usize, end: usize) -> &'a [VersionNo]
        ensures { IsBetween self.entry.chosen.now begin end result.now }
    {
        match self.chosen.get(begin..end) {
            Some(part) => part,
            None => &[],
        }
    }

    /// The turn of the request's needs.
    fn first(self) -> order::Turn<'a>
        ensures { IsFirstTurn self.entry.chosen.now self.entry.turns.now result }
    {
        let end = match self.turns.first() {
            Some(turn) => turn.begin,
            None => self.chosen.len(),
        };
        order::Turn::Chose {
            wish: None,
            chosen: self.between(0, end),
        }
    }

    /// The number of a turn's step among the written steps; 0 is none. `Ids` where it is too great.
    #[tactic(auto, using(crate::proofs::WishTurns::too_great))]
    fn number_of(self, turn: &Turn<SolvableId>) -> R<u32>
        ensures number { IfOk result (λ n. n ≡ number_at self.entry.places.now turn.now.step) }
        ensures ids { IsErrOf result Ids → HasPlaceTooGreat self.entry.places.now }
    {
        let Some(step) = turn.step else {
            return Ok(0);
        };
        let Some(place) = self.places.get(step) else {
            return Ok(0);
        };
        if *place >= 4_294_967_295 {
            return Err(Want::Ids);
        }
        Ok(*place as u32 + 1)
    }

    /// The turn of a wish that the solver was asked for, by the place of its turn there.
    fn wished(self, wish: (u32, VersionNo), place: usize) -> R<order::Turn<'a>>
        ensures turn { IfOk result
            (λ t.
            IsWishedTurn self.entry.chosen.now self.entry.places.now wish
            (slice_get self.entry.turns.now place) t) }
        ensures ids { IsErrOf result Ids → HasPlaceTooGreat self.entry.places.now }
    {
        match self.turns.get(place) {
            Some(turn) => {
                if turn.accepted {
                    return Ok(order::Turn::Chose {
                        wish: Some(wish),
                        chosen: self.between(turn.begin, turn.end),
                    });
                }
                Ok(order::Turn::LeftOut {
                    wish,
                    step: self.number_of(turn)?,
                })
            }
            None => Ok(order::Turn::LeftOut { wish, step: 0 }),
        }
    }
}

/// Appends a step, and returns its number. `Ids` where there are too many.
fn push_step(steps: &mut Vec<Step>, step: Step) -> R<u32>
    ensures pushed { OnOk result (steps.new.items ≡ steps.old.items ++ step ∷ []) }
    ensures number { IfOk result (λ n. n ≡ length steps.new.items) }
    ensures bound { OnOk result (length steps.new.items < 4294967296) }
    ensures ids { IsErrOf result Ids → 4294967295 ≤ length steps.new.items }
{
    if steps.len() >= 4_294_967_295 {
        return Err(Want::Ids);
    }
    steps.push(step)?;
    Ok(steps.len() as u32)
}

/// The turns of the report: that of the needs, then one for each wish. Steps that forbid a wish
/// without a search are appended. `Memory` where there is no room; `Ids` where a step's number is
/// too great.
pub fn report_turns<'a>(
    alloc: Global,
    outcome: Outcome<'a>,
    wishes: Vec<Wish>,
    steps: &mut Vec<Step>,
) -> R<Vec<order::Turn<'a>>>
    ensures turns { IfOk result
        (λ v.
        AreReportTurns outcome.entry wishes.items (steps_of steps.old.items) v.items
        (steps_of steps.new.items)) }
    ensures ids { IsErrOf result Ids
        → LacksStepNumber outcome.entry.places.now (length steps.new.items) }
{
    let mut matched = Vec::new(alloc);
    matched.push(outcome.first())?;
    let mut next: usize = 0;
    for wish in wishes {
        let Wish {
            line,
            version,
            forbidden_by,
        } = wish;
        match forbidden_by {
            Some(step) => {
                let step = push_step(steps, step)?;
                matched.push(order::Turn::LeftOut {
                    wish: (line, version),
                    step,
                })?;
            }
            None => {
                matched.push(outcome.wished((line, version), next)?)?;
                next += 1;
            }
        }
    }
    Ok(matched)
}
