//! The turns of soft requirements, as a solver lists them, and the solvables that were chosen in
//! them.
ghost use Rattle.std.specs.Prelude.{◌≡◌, true, [], OnOk, IfOk};
ghost use Rattle.indexmap.specs.IndexSet.{insert_all};
ghost use Rattle.resolvo_store_core.specs.AtMostOne.{IsPrefixOf};
ghost use Rattle.resolvo_encoder.specs.Steps.{IsBuilt};
ghost use Rattle.resolvo_turn.specs.Turn.{in_turn};
ghost use Rattle.resolvo.specs.Turns.{AreAccepted, Records, IsTurnRecord};

use crate::soft_requirements::SoftOutcome;
use resolvo_encoder::encoder::{Encoder, add_value};
use resolvo_pool_core::id::Exact;
use resolvo_pool_core::ordered_set::OrderedSet;
use resolvo_pool_core::want::R;
use resolvo_turn::chosen::chosen_in_turn;
use std::alloc::Global;
use std::fmt::Debug;
use std::hash::Hash;

/// The turn of a soft requirement.
#[derive(Clone, Copy, Debug)]
pub struct Turn<S> {
    pub solvable: S,
    /// The number of solvables that were chosen before the turn.
    pub begin: usize,
    /// The number after it.
    pub end: usize,
    /// Whether the soft requirement is among them.
    pub accepted: bool,
    /// The step of the proof that is the reason, if it isn't.
    pub step: Option<usize>,
}

/// The chosen solvables so far, in the order of the trail, and the turns of the soft requirements
/// so far.
#[derive(Drop)]
pub struct Turns<S: Copy + Exact + Hash> {
    pub chosen: OrderedSet<S>,
    pub turns: Vec<Turn<S>>,
}

impl<S: Copy + Exact + Hash + Debug> Turns<S> {
    /// Nothing is chosen, and there was no turn.
    pub fn new(alloc: Global) -> Turns<S>
        ensures chosen { result.chosen.keys ≡ [] }
        ensures turns { result.turns.items ≡ [] }
    {
        Turns {
            chosen: OrderedSet::new(alloc),
            turns: Vec::new(alloc),
        }
    }

    /// Lists what the turn chose, in the order of the trail, after the listed ones.
    pub fn list<N: Copy + Exact + Hash + Debug>(
        &mut self,
        alloc: Global,
        encoding: &Encoder<N, S>,
    ) -> R<()>
        requires { IsBuilt encoding.now }
        ensures listed { OnOk result (IsPrefixOf self.old.chosen.keys self.new.chosen.keys) }
        ensures in_order { OnOk result
            (self.new.chosen.keys ≡ insert_all S.eq self.old.chosen.keys (in_turn encoding.now)) }
        ensures turns { OnOk result (self.new.turns ≡ self.old.turns) }
    {
        let chosen = chosen_in_turn(alloc, encoding)?;
        list_each(&mut self.chosen, chosen.as_slice())?;
        Ok(())
    }

    /// Records the turn of a soft requirement that began with so many chosen solvables.
    pub fn record(&mut self, soft: S, begin: usize, status: SoftOutcome) -> R<()>
        ensures { OnOk result (Records soft begin status self.old self.new) }
    {
        let end = self.chosen.len();
        self.turns.push(turn_of(soft, begin, end, status))?;
        Ok(())
    }
}

/// The turn of a soft requirement, by its outcome.
fn turn_of<S>(soft: S, begin: usize, end: usize, status: SoftOutcome) -> Turn<S>
    ensures { IsTurnRecord soft begin end status result }
{
    let (accepted, step) = match status {
        SoftOutcome::AlreadyChosen => (true, None),
        SoftOutcome::Chosen => (true, None),
        SoftOutcome::Refused(clause) => (false, Some((clause.0 as usize).saturating_sub(1))),
        SoftOutcome::Unsat(_) => (false, None),
    };
    Turn {
        solvable: soft,
        begin,
        end,
        accepted,
        step,
    }
}

/// Whether each turn accepted its soft requirement.
pub(crate) fn are_accepted<S>(turns: &[Turn<S>]) -> bool
    ensures { result ≡ true → AreAccepted turns.now }
{
    for turn in turns {
        if !turn.accepted {
            return false;
        }
    }
    true
}

/// Lists these after the others, in their order and each once.
fn list_each<S: Copy + Exact + Hash + Debug>(listed: &mut OrderedSet<S>, chosen: &[S]) -> R<()>
    ensures adds { OnOk result (IsPrefixOf listed.old.keys listed.new.keys) }
    ensures in_order { OnOk result (listed.new.keys ≡ insert_all S.eq listed.old.keys chosen.now) }
{
    for solvable in chosen {
        add_value(listed, *solvable)?;
    }
    Ok(())
}
