//! The end of an encoding: what waits gets its clauses. Package by package each new solvable gets
//! its digits, unless the package is marked `many`, then its at-least-one clause, if its package is
//! recorded. Then come those of the packages of new cases.
ghost use Rattle.std.specs.Prelude.{◌≡◌, ◌∷◌, [], OnOk, IfOk, IfSome, Contains, IsPermutation, IsErrOf, IsOkUnless};
ghost use Rattle.resolvo_pool_core.specs.declared.want.Want.TheVariants.{Memory, Ids};
ghost use Rattle.resolvo_packages.specs.declared.package_source.Offered.{Offered as One};
ghost use Rattle.resolvo_state.specs.Registered.{IsRegistered};
ghost use Rattle.resolvo_state.specs.SolverState.{LacksNumber};
ghost use Rattle.resolvo_encoder.specs.Encoded.{IsWhole, StaysEncoding};
ghost use Rattle.resolvo_encoder.specs.Steps.{IsBuilt, Extends};
ghost use Rattle.resolvo_encoder.specs.AtLeastOneClauses.{Admits, AreWaiting, PlacesAll, PlacesQueued, CoversAll, CoversQueued};

use crate::encoder::Encoder;
use indexmap::IndexSet;
use resolvo_packages::package_source::Offered;
use resolvo_pool_core::id::Exact;
use resolvo_pool_core::want::R;
use std::alloc::Global;
use std::fmt::Debug;
use std::hash::Hash;

impl<N: Copy + Exact + Hash + Debug + Drop, S: Copy + Exact + Hash + Debug> Encoder<N, S> {
    /// Adds the clauses of what waits: digits, and at-least-one clauses.
    pub fn add_queued(&mut self, alloc: Global) -> R<()>
        requires { IsBuilt self.old }
        // After an answer.
        ensures stays { OnOk result (StaysEncoding S.eq self.old self.new) }
        ensures kept { OnOk result (Extends self.old self.new) }
        ensures lists { OnOk result (self.new.lists ≡ self.old.lists) }
        ensures placed { OnOk result (IsWhole self.new) }
        ensures built { OnOk result (IsBuilt self.new) }
        // After a refusal.
        ensures ids { IsErrOf result Ids → LacksNumber self.new.coding }
    {
        self.place_queued(alloc)?;
        self.add_of_queued(alloc)?;
        Ok(())
    }

    /// Adds the digits of the solvables that wait, and the at-least-one clauses of those whose
    /// package is recorded.
    fn place_queued(&mut self, alloc: Global) -> R<()>
        requires { IsBuilt self.old }
        ensures placed { OnOk result (PlacesQueued S.eq self.old self.new) }
        ensures ids { IsErrOf result Ids → LacksNumber self.new.coding }
    {
        if let Some(one) = self.lone_queued() {
            self.place_one(one)?;
            self.registry.end_queue();
            return Ok(());
        }
        let waiting = self.queued_solvables(alloc)?;
        self.place_each(waiting.as_slice())?;
        self.registry.end_queue();
        Ok(())
    }

    /// The solvable that waits, where it is the only one. Most encodings have one at most.
    fn lone_queued(&self) -> Option<Offered<N, S>>
        requires { IsBuilt self.now }
        ensures { IfSome result (λ o. AreWaiting self.now (o ∷ [])) }
    {
        let members = self.registry.queued();
        if members.len() != 1 {
            return None;
        }
        let member = members[0];
        let solvable = self.coding.solvable(member.variable)?;
        let name = member.name;
        Some(Offered { solvable, name })
    }

    /// The solvables that wait, package by package.
    fn queued_solvables(&self, alloc: Global) -> R<Vec<Offered<N, S>>>
        requires { IsBuilt self.now }
        ensures waiting { IfOk result (λ v. AreWaiting self.now v.items) }
        ensures refusal { IsOkUnless result Memory }
    {
        let members = self.registry.queued();
        let mut waiting = Vec::with_capacity(alloc, members.len())?;
        for member in members {
            if let Some(solvable) = self.coding.solvable(member.variable) {
                let name = member.name;
                waiting.push(Offered { solvable, name })?;
            }
        }
        group(alloc, &mut waiting)?;
        Ok(waiting)
    }

    /// Adds the digits of these, and the at-least-one clauses of those whose package is recorded.
    fn place_each(&mut self, list: &[Offered<N, S>]) -> R<()>
        requires built { IsBuilt self.old }
        requires registered { (o : One N S)
            → Contains list.now o
            → IsRegistered self.old.registry self.old.coding o.name o.solvable }
        ensures placed { OnOk result (PlacesAll S.eq list.now self.old self.new) }
        ensures ids { IsErrOf result Ids → LacksNumber self.new.coding }
    {
        for one in list {
            self.place_one(*one)?;
        }
        Ok(())
    }

    /// Adds the digits of a registered solvable, unless its package is marked `many`, and its
    /// at-least-one clause if its package is recorded.
    fn place_one(&mut self, one: Offered<N, S>) -> R<()>
        requires built { IsBuilt self.old }
        requires registered { IsRegistered self.old.registry self.old.coding one.name one.solvable }
        ensures placed { OnOk result (PlacesAll S.eq (one ∷ []) self.old self.new) }
        ensures ids { IsErrOf result Ids → LacksNumber self.new.coding }
    {
        if self.registry.is_many(one.name) {
            self.add_if_recorded(one)?;
            return Ok(());
        }
        self.registry
            .place(&mut self.coding, one.name, one.solvable)?;
        self.add_if_recorded(one)?;
        Ok(())
    }

    /// Adds the at-least-one clause of a solvable, if its package is recorded.
    fn add_if_recorded(&mut self, one: Offered<N, S>) -> R<()>
        requires { IsBuilt self.old }
        ensures admitted { OnOk result (Admits S.eq (one ∷ []) self.old self.new) }
        ensures ids { IsErrOf result Ids → LacksNumber self.new.coding }
    {
        if self.recorded.at_least_one.contains(one.name) {
            self.add_at_least_one(one)?;
        }
        Ok(())
    }

    /// Adds the at-least-one clauses of the packages of new cases.
    fn add_of_queued(&mut self, alloc: Global) -> R<()>
        requires { IsBuilt self.old }
        ensures covered { OnOk result (CoversQueued S.eq self.old self.new) }
        ensures ids { IsErrOf result Ids → LacksNumber self.new.coding }
    {
        self.add_of_each(alloc)?;
        self.recorded.queued.clear();
        Ok(())
    }

    /// Records each package of a new case, and adds its at-least-one clauses.
    fn add_of_each(&mut self, alloc: Global) -> R<()>
        requires { IsBuilt self.old }
        ensures covered { OnOk result
            (CoversAll S.eq self.old.recorded.queued.keys self.old self.new) }
        ensures ids { IsErrOf result Ids → LacksNumber self.new.coding }
    {
        let count = self.recorded.queued.len();
        for place in 0..count {
            let queued = self.recorded.queued.as_slice();
            let name = queued[place];
            self.record_at_least_one(alloc, name)?;
        }
        Ok(())
    }
}

/// So many solvables are compared with one another at most, to see whether they are grouped.
const FEW: usize = 8;

/// Sorts solvables by package, in the order in which the packages occur. Those of a package keep
/// their order.
fn group<N: Copy + Exact + Hash + Debug + Drop, S: Copy + Exact + Hash + Debug>(
    alloc: Global,
    list: &mut Vec<Offered<N, S>>,
) -> R<()>
    ensures grouped { OnOk result (IsPermutation list.old.items list.new.items) }
    ensures refusal { IsOkUnless result Memory }
{
    if list.len() < 2 || are_few_in_groups(list.as_slice()) {
        return Ok(());
    }
    let mut names = IndexSet::with_capacity(alloc, list.len())?;
    let mut is_grouped = true;
    let mut last = list[0].name;
    names.insert(last)?;
    for one in list.iter() {
        if one.name != last {
            let is_new = names.insert(one.name)?;
            is_grouped = is_grouped && is_new;
            last = one.name;
        }
    }
    if is_grouped {
        return Ok(());
    }
    list.sort_by_key(|one| names.get_index_of(&one.name))?;
    Ok(())
}

/// Whether these are few, and those of a package lie side by side.
fn are_few_in_groups<N: Copy + Exact, S>(list: &[Offered<N, S>]) -> bool {
    if list.len() > FEW {
        return false;
    }
    for place in 1..list.len() {
        let name = list[place].name;
        if list[place - 1].name != name && is_named(&list[..place], name) {
            return false;
        }
    }
    true
}

/// Whether one of these is of a package.
fn is_named<N: Copy + Exact, S>(list: &[Offered<N, S>], name: N) -> bool {
    list.iter().any(|one| one.name == name)
}
