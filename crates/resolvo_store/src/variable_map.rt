//! The origin of each variable.
//! Its model is the list of origins, from the root on; a variable is the index of its origin. A
//! solvable gets one variable; each auxiliary variable is new.
ghost use Rattle.std.specs.Prelude.{◌≡◌, ◌<◌, ◌++◌, ◌∷◌, [], ◌≤◌, ◌+◌, length, slice_get, Some, IfOk, OnErr, IsErrOf, IsOkUnless};
ghost use Rattle.std.specs.Option.{option_map};
ghost use Rattle.resolvo_pool_core.specs.declared.want.Want.TheVariants.{Ids};
ghost use Rattle.resolvo_store.specs.Origins.{place_of, Interns, InternsOrRoot};
ghost use Rattle.resolvo_store.specs.declared.variable_map.VariableOrigin.TheVariants.{Root, Solvable, ForbidMultiple, AtLeastOne, ConstrainsViolation, RequiresGate, Matches};

use resolvo_pool_core::id::{VariableId, VersionSetId};
use resolvo_pool_core::id_map::{IdMap, OptionalNumber};
use resolvo_pool_core::requirement::Requirement;
use resolvo_pool_core::solver_id::{SolvableIdOrRoot, SolverId};
use resolvo_pool_core::want::{R, Want};
use std::alloc::Global;
use std::marker::Model;

/// The most variables, without the root's.
const OTHERS: usize = 2_147_483_646;

/// The origin of a variable.
#[derive(Clone, Copy, Debug, Drop)]
pub enum VariableOrigin<N, S> {
    /// The problem itself.
    Root,
    /// A solvable.
    Solvable(S),
    /// A digit of the at-most-one encoding of a package.
    ForbidMultiple(N),
    /// Some version of the package is chosen.
    AtLeastOne(N),
    /// Some version outside the version set is chosen.
    ConstrainsViolation(VersionSetId),
    /// The gate of a requirement that several parents share.
    RequiresGate(Requirement),
    /// Some version that matches the version set is chosen.
    Matches(VersionSetId),
}

/// The origin of each variable.
#[derive(Drop)]
pub struct VariableMap<N, S: SolverId> {
    origins: Vec<VariableOrigin<N, S>>,
    numbers: S::OptionalIds,
}

impl<N, S: SolverId> Model for VariableMap<N, S> {
    ghost use Rattle.std.specs.Prelude.{List, ◌≤◌, ◌∷◌, length};
    ghost use Rattle.resolvo_store.specs.declared.variable_map.VariableOrigin.{VariableOrigin};
    ghost use Rattle.resolvo_store.specs.declared.variable_map.VariableOrigin.TheVariants.{Root};
    ghost use Rattle.resolvo_store.specs.Origins.{AreNumbers};

    ghost Value = { List (VariableOrigin N S) };

    ghost view = { λ m. Root ∷ m.origins.items };

    ghost invariant = { λ m.
        (length m.origins.items ≤ 2147483646)
        × AreNumbers S.eq (Root ∷ m.origins.items) (S.OptionalIds.value_of m.numbers) };
}

impl<N: Copy + Drop, S: SolverId> VariableMap<N, S> {
    /// A map of the root alone.
    pub fn new(alloc: Global) -> VariableMap<N, S>
        ensures { result ≡ Root ∷ [] }
    {
        VariableMap {
            origins: Vec::new(alloc),
            numbers: S::OptionalIds::new(alloc),
        }
    }

    /// The number of variables, with the root's.
    pub fn count(&self) -> usize
        ensures { result ≡ length self.now }
    {
        self.origins.len() + 1
    }

    /// The origin of a variable.
    pub fn origin(&self, variable: VariableId) -> VariableOrigin<N, S>
        requires { variable.0 < length self.now }
        ensures { slice_get self.now variable.0 ≡ Some result }
    {
        match (variable.0 as usize).checked_sub(1) {
            Some(index) => self.origins[index],
            None => VariableOrigin::Root,
        }
    }

    /// The origin of a variable, if the map has it.
    pub fn find_origin(&self, variable: VariableId) -> Option<VariableOrigin<N, S>>
        ensures { result ≡ slice_get self.now variable.0 }
    {
        if (variable.0 as usize) < self.count() {
            Some(self.origin(variable))
        } else {
            None
        }
    }

    /// The variable of a solvable, if it has one.
    pub fn lookup_solvable(&self, solvable: S) -> Option<VariableId>
        ensures { option_map (λ v. v.0) result ≡ place_of S.eq solvable self.now }
    {
        match self.numbers.get(solvable).get() {
            Some(number) => Some(VariableId(number)),
            None => None,
        }
    }

    /// The variable of a solvable, allocated where it has none.
    pub fn intern_solvable(&mut self, solvable: S) -> R<VariableId>
        ensures interned { IfOk result (λ v. Interns S.eq solvable v self.old self.new) }
        ensures err { OnErr result (self.new ≡ self.old) }
        ensures ids { IsErrOf result Ids → length self.old ≡ 2147483647 }
    {
        if let Some(number) = self.numbers.get(solvable).get() {
            return Ok(VariableId(number));
        }
        let variable = next_variable(self.origins.len())?;
        self.origins.reserve(1)?;
        let number = OptionalNumber::of(variable.0);
        match self.numbers.set(solvable, number) {
            Ok(()) => {}
            Err(_) => return Err(Want::Memory),
        }
        self.origins
            .push(VariableOrigin::Solvable(solvable))
            .unwrap();
        Ok(variable)
    }

    /// The variable of a solvable or of the root.
    pub fn intern_solvable_or_root(&mut self, id: SolvableIdOrRoot<S>) -> R<VariableId>
        ensures interned { IfOk result (λ v. InternsOrRoot S.eq id v self.old self.new) }
        ensures err { OnErr result (self.new ≡ self.old) }
        ensures ids { IsErrOf result Ids → length self.old ≡ 2147483647 }
    {
        match id {
            SolvableIdOrRoot::Root => Ok(VariableId::root()),
            SolvableIdOrRoot::Solvable(solvable) => self.intern_solvable(solvable),
        }
    }

    /// A new variable for a digit of the at-most-one encoding of a package.
    pub fn alloc_forbid_multiple_variable(&mut self, name: N) -> R<VariableId>
        ensures new { IfOk result
            (λ v. (v.0 ≡ length self.old) × (self.new ≡ self.old ++ ForbidMultiple name ∷ [])) }
        ensures err { OnErr result (self.new ≡ self.old) }
        ensures ids { IsErrOf result Ids → length self.old ≡ 2147483647 }
    {
        self.alloc(VariableOrigin::ForbidMultiple(name))
    }

    /// A new variable that is true where some version of a package is chosen.
    pub fn alloc_at_least_one_variable(&mut self, name: N) -> R<VariableId>
        ensures new { IfOk result
            (λ v. (v.0 ≡ length self.old) × (self.new ≡ self.old ++ AtLeastOne name ∷ [])) }
        ensures err { OnErr result (self.new ≡ self.old) }
        ensures ids { IsErrOf result Ids → length self.old ≡ 2147483647 }
    {
        self.alloc(VariableOrigin::AtLeastOne(name))
    }

    /// A new variable that is true where some version outside a version set is chosen.
    pub fn alloc_constrains_violation_variable(&mut self, via: VersionSetId) -> R<VariableId>
        ensures new { IfOk result
            (λ v. (v.0 ≡ length self.old) × (self.new ≡ self.old ++ ConstrainsViolation via ∷ [])) }
        ensures err { OnErr result (self.new ≡ self.old) }
        ensures ids { IsErrOf result Ids → length self.old ≡ 2147483647 }
    {
        self.alloc(VariableOrigin::ConstrainsViolation(via))
    }

    /// A new gate between the parents of a requirement and its candidates.
    pub fn alloc_requires_gate_variable(&mut self, requirement: Requirement) -> R<VariableId>
        ensures new { IfOk result
            (λ v.
            (v.0 ≡ length self.old) × (self.new ≡ self.old ++ RequiresGate requirement ∷ [])) }
        ensures err { OnErr result (self.new ≡ self.old) }
        ensures ids { IsErrOf result Ids → length self.old ≡ 2147483647 }
    {
        self.alloc(VariableOrigin::RequiresGate(requirement))
    }

    /// A new variable that is true where some version that matches a version set is chosen.
    pub fn alloc_matches_variable(&mut self, version_set: VersionSetId) -> R<VariableId>
        ensures new { IfOk result
            (λ v. (v.0 ≡ length self.old) × (self.new ≡ self.old ++ Matches version_set ∷ [])) }
        ensures err { OnErr result (self.new ≡ self.old) }
        ensures ids { IsErrOf result Ids → length self.old ≡ 2147483647 }
    {
        self.alloc(VariableOrigin::Matches(version_set))
    }
}

impl<N: Copy + Drop, S: SolverId> VariableMap<N, S> {
    ghost use Rattle.resolvo_store.specs.Origins.{IsHelper};

    /// A new variable.
    fn alloc(&mut self, origin: VariableOrigin<N, S>) -> R<VariableId>
        requires { IsHelper origin }
        ensures new { IfOk result (λ v. (v.0 ≡ length self.old)
            × (self.new ≡ self.old ++ origin ∷ [])) }
        ensures err { OnErr result (self.new ≡ self.old) }
        ensures ids { IsErrOf result Ids → length self.old ≡ 2147483647 }
    {
        let variable = next_variable(self.origins.len())?;
        self.origins.push(origin)?;
        Ok(variable)
    }
}

/// The variable after the root and this number of others, unless all ids are used.
fn next_variable(count: usize) -> R<VariableId>
    ensures next { IfOk result (λ v. (v.0 ≡ count + 1) × (count < 2147483646)) }
    ensures ids { IsErrOf result Ids → 2147483646 ≤ count }
    ensures refusal { IsOkUnless result Ids }
{
    if count >= OTHERS {
        return Err(Want::Ids);
    }
    Ok(VariableId((count + 1) as u32))
}
