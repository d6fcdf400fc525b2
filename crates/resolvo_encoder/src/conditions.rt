//! The cases of conditions. A case of a parent's requirement is deferred until each of its version
//! sets has a chosen match, and then encoded. It keeps its place in the list of deferred cases;
//! `fired` has the places of the encoded ones.
ghost use Rattle.std.specs.Prelude.{◌≡◌, ◌<◌, true, false, length, slice_get, Some, OnOk, IfOk, Contains, IsErrOf, IsOkUnless};
ghost use Rattle.resolvo_pool_core.specs.declared.want.Want.TheVariants.{Memory, Ids};
ghost use Rattle.resolvo_pool_core.specs.RuleKeeping.{Packages, Rules};
ghost use Rattle.resolvo_store_core.specs.Deferred.{candidates_of};
ghost use Rattle.resolvo_store_core.specs.declared.conditions.DeferredConjunct.{DeferredConjunct};
ghost use Rattle.resolvo_packages.specs.PackageSource.{offered_solvables};
ghost use Rattle.resolvo_sat.specs.SearchEnd.{IsNeedEncoded};
ghost use Rattle.resolvo_encoder.specs.Encoded.{rules_of, IsEncoding};
ghost use Rattle.resolvo_encoder.specs.Steps.{IsBuilt, Extends, AddsCandidates, LacksNumberFor};
ghost use Rattle.resolvo_encoder.specs.Effects.{DefersConjuncts, RequiresSets};
ghost use Rattle.resolvo_encoder.specs.Conditions.{case_of, sets_case, Defers, Fires, waiting_count, IsTrueNow, IsOneChosen, IsMetNow, IsSpent, IsKeptOut};
ghost use Rattle.resolvo_encoder.specs.declared.encoder.Deferred.{Deferred as Kept};

use crate::encoder::{Deferred, Encoder};
use resolvo_packages::package_source::Offered;
use resolvo_pool_core::id::{Exact, VersionSetId};
use resolvo_pool_core::requirement::ConditionalRequirement;
use resolvo_pool_core::want::R;
use resolvo_state::atom::ProofAtom;
use resolvo_state::case::Case;
use resolvo_state::clause_kind::Need;
use resolvo_store_core::conditions::DeferredConjunct;
use resolvo_store_core::lists::Disjunction;
use resolvo_store_core::literal::Literal;
use std::alloc::Global;
use std::fmt::Debug;
use std::hash::Hash;

/// A version set of a case that fires: its package, and the package's candidates outside it. Where
/// the package is marked `many`, those that match instead.
#[derive(Drop)]
pub struct ConditionSet<N, S> {
    pub version_set: VersionSetId,
    pub name: N,
    /// Whether the package is marked `many`.
    pub many: bool,
    pub outside: Vec<Offered<N, S>>,
    pub matching: Vec<Offered<N, S>>,
}

impl<N: Copy + Exact + Hash + Debug + Drop, S: Copy + Exact + Hash + Debug> Encoder<N, S> {
    /// Defers a case of a parent's requirement until each of its version sets has a chosen match.
    pub fn defer(
        &mut self,
        parent: Option<S>,
        need: ConditionalRequirement,
        conjuncts: Vec<DeferredConjunct<S>>,
    ) -> R<()>
        requires { IsBuilt self.old }
        ensures encoded { OnOk result
            (DefersConjuncts S.eq parent need conjuncts.items self.old self.new) }
        ensures kept { OnOk result (Defers self.old self.new) }
        ensures built { OnOk result (IsBuilt self.new) }
        ensures refusal { IsOkUnless result Memory }
    {
        self.deferred.push(Deferred {
            parent,
            need,
            conjuncts,
        })?;
        Ok(())
    }

    /// Whether the case at this place isn't encoded yet, and each of its version sets has a chosen
    /// match.
    pub fn is_due(&self, index: usize) -> bool
        requires { IsBuilt self.now }
        ensures due { result ≡ true
            → (index < length self.now.deferred.items) × (Contains self.now.fired.keys index → ⊥) }
        ensures met { result ≡ true → IsMetNow self.now index }
        ensures spent { result ≡ false → IsSpent S.eq self.now index }
    {
        match self.deferred.get(index) {
            None => false,
            Some(deferred) => {
                !self.fired.contains(index) && self.has_each(deferred.conjuncts.as_slice())
            }
        }
    }

    /// Whether each version set has a chosen match.
    fn has_each(&self, conjuncts: &[DeferredConjunct<S>]) -> bool
        requires { IsBuilt self.now }
        ensures chosen { result ≡ true
            → (c : DeferredConjunct S)
            → Contains conjuncts.now c
            → IsOneChosen self.now (candidates_of c) }
        ensures missing { result ≡ false
            → (c : DeferredConjunct S)
            × Contains conjuncts.now c
            × (IsOneChosen self.now (candidates_of c) → ⊥) }
    {
        for conjunct in conjuncts {
            if !self.has_one(conjunct.candidates()) {
                return false;
            }
        }
        true
    }

    /// Whether one of these is chosen.
    fn has_one(&self, candidates: &[S]) -> bool
        requires { IsBuilt self.now }
        ensures chosen { result ≡ true → IsOneChosen self.now candidates.now }
        ensures none { result ≡ false → IsOneChosen self.now candidates.now → ⊥ }
    {
        for candidate in candidates {
            if self.is_chosen(*candidate) {
                return true;
            }
        }
        false
    }

    /// Whether the trail makes a solvable's variable true.
    fn is_chosen(&self, solvable: S) -> bool
        requires { IsBuilt self.now }
        ensures chosen { result ≡ true → IsTrueNow self.now solvable }
        ensures not_chosen { result ≡ false → IsTrueNow self.now solvable → ⊥ }
    {
        match self.coding.find(ProofAtom::Solvable(solvable)) {
            None => false,
            Some(variable) => self.coding.search.is_true(Literal::new(variable, false)),
        }
    }

    /// The case at this place.
    pub fn waiting(&self, index: usize) -> &Deferred<S>
        requires { index < length self.now.deferred.items }
        ensures { slice_get self.now.deferred.items index ≡ Some result.now }
    {
        &self.deferred[index]
    }

    /// Encodes a case: if each of its version sets has a chosen match, one of the offered
    /// candidates is chosen.
    pub fn require_case(
        &mut self,
        alloc: Global,
        parent: Option<S>,
        need: ConditionalRequirement,
        sets: &[ConditionSet<N, S>],
        offered: &[Offered<N, S>],
    ) -> R<()>
        requires { IsBuilt self.old }
        // After an answer.
        ensures encoded { OnOk result
            (RequiresSets S.eq parent need sets.now offered.now self.old self.new) }
        ensures candidates { OnOk result
            (AddsCandidates need.requirement offered.now self.old self.new) }
        ensures kept { OnOk result (Extends self.old self.new) }
        ensures built { OnOk result (IsBuilt self.new) }
        // After a refusal.
        ensures ids { IsErrOf result Ids → LacksNumberFor need.requirement self.new }
    {
        self.fix_candidates(alloc, need.requirement, offered)?;
        let variable = self.parent_variable(parent)?;
        let literals = self.add_each_at_least_one(alloc, sets)?;
        let condition = self.lists.fix_disjunction(Disjunction { literals })?;
        let case = names_of(alloc, sets)?;
        let need = Need {
            parent,
            need,
            case: Case::of(case),
        };
        self.encode_case(need, variable, condition)?;
        Ok(())
    }

    /// Marks the case at this place as encoded.
    pub fn end_case(&mut self, index: usize) -> R<()>
        requires { index < length self.old.deferred.items }
        ensures fired { OnOk result (Fires index self.old self.new) }
        ensures encoding { OnOk result
            ((p : Packages N S) (root : Rules)
            → IsEncoding S.eq p root self.old
            → ((d : Kept S)
            → slice_get self.old.deferred.items index ≡ Some d
            → IsNeedEncoded S.eq p (rules_of self.old) d.parent d.need
            (case_of d.conjuncts.items))
            → IsEncoding S.eq p root self.new) }
        ensures built { OnOk result (IsBuilt self.old → IsBuilt self.new) }
        ensures refusal { IsOkUnless result Memory }
    {
        self.fired.insert(index)?;
        // They are fewer than 2^64.
        let _count = self.fired.len();
        Ok(())
    }

    /// The number of deferred cases that haven't fired.
    pub fn deferred_count(&self) -> usize
        ensures { result ≡ waiting_count self.now }
    {
        self.deferred.len().saturating_sub(self.fired.len())
    }
}

/// Whether the parent is a solvable outside one of these version sets: then the case can't hold
/// beside it, unless the package is marked `many`.
pub fn keeps_out<N, S: Copy + Exact + Hash + Debug>(
    sets: &[ConditionSet<N, S>],
    parent: Option<S>,
) -> bool
    ensures out { result ≡ true → IsKeptOut sets.now parent }
    ensures within { result ≡ false → IsKeptOut sets.now parent → ⊥ }
{
    match parent {
        None => false,
        Some(solvable) => {
            for set in sets {
                if excludes(set, solvable) {
                    return true;
                }
            }
            false
        }
    }
}

/// Whether a solvable is outside the version set, and the package isn't marked `many`.
fn excludes<N, S: Copy + Exact + Hash + Debug>(set: &ConditionSet<N, S>, solvable: S) -> bool
    ensures out { result ≡ true
        → (set.now.many ≡ false) × Contains (offered_solvables set.now.outside.items) solvable }
    ensures within { result ≡ false
        → set.now.many ≡ false
        → Contains (offered_solvables set.now.outside.items) solvable
        → ⊥ }
{
    if set.many {
        return false;
    }
    is_offered(set.outside.as_slice(), solvable)
}

/// Whether a solvable is one of these.
fn is_offered<N, S: Copy + Exact + Hash + Debug>(offered: &[Offered<N, S>], solvable: S) -> bool
    ensures offered { result ≡ true → Contains (offered_solvables offered.now) solvable }
    ensures other { result ≡ false → Contains (offered_solvables offered.now) solvable → ⊥ }
{
    for one in offered {
        if one.solvable == solvable {
            return true;
        }
    }
    false
}

/// The version sets of a case that fires.
fn names_of<N, S>(alloc: Global, sets: &[ConditionSet<N, S>]) -> R<Vec<VersionSetId>>
    ensures case { IfOk result (λ v. v.items ≡ sets_case sets.now) }
    ensures refusal { IsOkUnless result Memory }
{
    let mut case = Vec::new(alloc);
    for set in sets {
        case.push(set.version_set)?;
    }
    Ok(case)
}
