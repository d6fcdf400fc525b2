//! The rule steps whose clauses may be longer than they are, by their keys. So a step that is there
//! again needs no clause of its own. Its model is a list of keys and places.

ghost use Rattle.std.specs.Prelude.{◌≡◌, ◌+◌, ◌<◌, ◌++◌, ◌∷◌, [], List, ℕ, OnOk, IfOk, IfSome, Some, length, is_some, true, if◌then◌else◌};
ghost use Rattle.std.specs.Option.{option_map};
ghost use Rattle.std.specs.Str.{bytes_eq};
ghost use Rattle.resolvo_text.specs.Line as spelled;
ghost use Rattle.resolvo_text.specs.View.{version_of};
ghost use Rattle.resolvo_report.specs.Value.{Step as StepValue};
ghost use Rattle.resolvo_report.specs.View.{place_of, step_of};
ghost use Rattle.resolvo_checker.specs.Numbers.{number_in};
ghost use Rattle.resolvo_checker.specs.StepClauses.{clause_of};
ghost use Rattle.resolvo_checker.specs.StepKeys.{version_key, place_key, key_of, IsKnownAt, Recorded};

use crate::clause_atoms::{push_name, shared_key};
use resolvo_catalogue_core::Version;
use resolvo_report::{Place, Step};
use std::alloc::{AllocError, Global};
use std::collections::BTreeMap;
use std::marker::Model;

/// The last place of each key, from 0.
#[derive(Drop)]
pub struct RuleSteps {
    map: BTreeMap<Vec<usize>, usize>,
}

impl Model for RuleSteps {
    ghost use Rattle.std.specs.Prelude.{List, ℕ};
    ghost use Rattle.std.specs.Global.{Vec};

    ghost Value = { List (Vec ℕ × ℕ) };

    ghost view = { λ r. r.map.entries };
}

fn push_version(key: &mut Vec<usize>, version: &Version) -> Result<(), AllocError>
    ensures { OnOk result (key.new.items ≡ key.old.items ++ version_key (version_of version.now)) }
{
    key.push(version.number as usize)?;
    push_name(key, &version.name)?;
    Ok(())
}

fn push_place(key: &mut Vec<usize>, place: &Place) -> Result<(), AllocError>
    ensures { OnOk result (key.new.items ≡ key.old.items ++ place_key (place_of place.now)) }
{
    match place {
        Place::Request => Ok(()),
        Place::Version(version) => push_version(key, version),
    }
}

fn need_key(alloc: Global, place: &Place, line: u32, case: u32) -> Result<Vec<usize>, AllocError>
    ensures { IfOk result (λ k. k.items ≡ 0 ∷ line ∷ case ∷ place_key (place_of place.now)) }
{
    let mut key = vec![in alloc; 0, line as usize, case as usize]?;
    push_place(&mut key, place)?;
    Ok(key)
}

fn gate_key(alloc: Global, version: &Version, line: u32) -> Result<Vec<usize>, AllocError>
    ensures { IfOk result (λ k. k.items ≡ 1 ∷ line ∷ version_key (version_of version.now)) }
{
    let mut key = vec![in alloc; 1, line as usize]?;
    push_version(&mut key, version)?;
    Ok(key)
}

fn limit_key(alloc: Global, place: &Place, line: u32) -> Result<Vec<usize>, AllocError>
    ensures { IfOk result (λ k. k.items ≡ 3 ∷ line ∷ place_key (place_of place.now)) }
{
    let mut key = vec![in alloc; 3, line as usize]?;
    push_place(&mut key, place)?;
    Ok(key)
}

/// The key of a step, if its clause may be longer than the step.
fn key_of(alloc: Global, step: &Step) -> Result<Option<Vec<usize>>, AllocError>
    ensures { IfOk result (λ o. option_map (λ k. k.items) o ≡ key_of (step_of step.now)) }
{
    match step {
        Step::Need { place, line, case } => Ok(Some(need_key(alloc, place, *line, *case)?)),
        Step::Gate { version, line } => Ok(Some(gate_key(alloc, version, *line)?)),
        Step::Shared { alternatives } => Ok(Some(shared_key(alloc, alternatives)?)),
        Step::Limit { place, line } => Ok(Some(limit_key(alloc, place, *line)?)),
        Step::LimitBars { .. }
        | Step::Outside { .. }
        | Step::Matches { .. }
        | Step::Lock { .. }
        | Step::Exclude { .. }
        | Step::Unknown { .. }
        | Step::Digit { .. }
        | Step::Any { .. }
        | Step::Derive { .. } => Ok(None),
    }
}

impl RuleSteps {
    pub fn new(alloc: Global) -> Self
        ensures { result ≡ [] }
    {
        RuleSteps {
            map: BTreeMap::new(alloc),
        }
    }

    /// The place of the key, if it has one.
    fn find(&self, key: &[usize]) -> Option<usize>
        ensures { result ≡ number_in self.now key.now }
    {
        self.map.get(key).copied()
    }

    /// Gives the key this place.
    fn put(&mut self, key: Vec<usize>, place: usize) -> Result<(), AllocError>
        ensures { OnOk result
            ((other : List ℕ)
            → number_in self.new other
            ≡ (if bytes_eq key.items other then Some place else number_in self.old other)) }
    {
        self.map.insert(key, place)?;
        Ok(())
    }

    /// The place of the same earlier step, if there is one among so many steps.
    pub fn earlier(
        &self,
        alloc: Global,
        step: &Step,
        count: usize,
    ) -> Result<Option<usize>, AllocError>
        ensures within { IfOk result (λ o. IfSome o (λ k. k < count)) }
        ensures known { IfOk result (λ o. IfSome o (IsKnownAt self.now (step_of step.now))) }
    {
        let Some(key) = key_of(alloc, step)? else {
            return Ok(None);
        };
        let Some(place) = self.find(&key) else {
            return Ok(None);
        };
        if place < count {
            Ok(Some(place))
        } else {
            Ok(None)
        }
    }

    /// Records the next step, which has a clause.
    pub fn record(&mut self, alloc: Global, step: &Step, place: usize) -> Result<(), AllocError>
        ensures { OnOk result
            ((catalogue request : List spelled.Line) (earlier : List StepValue)
            → place ≡ length earlier
            → is_some (clause_of catalogue request (step_of step.now)) ≡ true
            → Recorded catalogue request self.old earlier
            → Recorded catalogue request self.new (earlier ++ step_of step.now ∷ [])) }
    {
        if let Some(key) = key_of(alloc, step)? {
            self.put(key, place)?;
        }
        Ok(())
    }
}
