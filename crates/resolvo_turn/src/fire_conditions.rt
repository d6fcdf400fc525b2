//! Cases of conditions that hold become clauses. Each was deferred until all its version sets had a
//! chosen match.
ghost use Rattle.std.specs.Prelude.{◌≡◌, ◌<◌, ◌∷◌, [], true, false, length, IfOk, IfErr, OnOk, IsErrOf, Contains};
ghost use Rattle.resolvo_pool.specs.Cached.{IsCancelledBy};
ghost use Rattle.resolvo_pool.specs.declared.cache.CacheFault.TheVariants.{Ids};
ghost use Rattle.resolvo_pool_core.specs.declared.want.Want.TheVariants.{Ids as WantIds};
ghost use Rattle.resolvo_state.specs.SolverState.{LacksNumber};
ghost use Rattle.resolvo_encoder.specs.Conditions.{IsSet, AreSets, sets_case, case_of};
ghost use Rattle.resolvo_encoder.specs.Conditions.{IsMetNow, IsSpent, AreSpent};
ghost use Rattle.resolvo_encoder.specs.Steps.{IsBuilt};
ghost use Rattle.resolvo_turn.specs.Encoder.{AddsNeeds, StaysInOrder};
ghost use Rattle.resolvo_turn.specs.Turn.{FiresMore};
ghost use Rattle.resolvo_turn.specs.Effects.{RequiresGuardedCase, RequiresCase, RequiresDeferred};
ghost use Rattle.resolvo_turn.specs.Matches.{MatchesSets, MatchesCase};
ghost use Rattle.resolvo_turn.specs.LacksIds.{StopsAnyhow, StopsInOrder, StopsNeed};

use crate::forbid::forbid_named;
use crate::rules::add_available;
use resolvo_encoder::conditions::{ConditionSet, keeps_out};
use resolvo_encoder::encoder::Encoder;
use resolvo_packages::package_source::PackageSource;
use resolvo_pool::cache::CacheFault;
use resolvo_pool_core::id::{Exact, VersionSetId};
use resolvo_pool_core::requirement::{ConditionalRequirement, Requirement};
use resolvo_pool_core::want::R;
use resolvo_store_core::conditions::DeferredConjunct;
use std::alloc::Global;
use std::fmt::Debug;
use std::hash::Hash;

/// A version set of a case, with its package and the candidates that don't match it. Where the
/// package is marked `many`, with those that match.
fn set_of<A: PackageSource>(
    alloc: Global,
    answers: &mut A,
    version_set: VersionSetId,
) -> Result<ConditionSet<A::NameId, A::SolvableId>, CacheFault<A::Cancel>>
    ensures same { answers.new ≡ answers.old }
    ensures set { IfOk result (IsSet A.SolvableId.eq (A.packages answers.old)) }
    ensures version_set { IfOk result (λ c. c.version_set ≡ version_set) }
    ensures cancelled { IfErr result (IsCancelledBy (A.may_cancel answers.old)) }
    ensures ids { IsErrOf result Ids → A.may_lack_ids answers.old }
{
    let name = answers.set_package(version_set);
    let many = answers.is_many(name)?;
    if many {
        let matching = answers.candidates(Requirement::Single(version_set))?;
        return Ok(ConditionSet {
            version_set,
            name,
            many,
            outside: Vec::new(alloc),
            matching,
        });
    }
    let outside = answers.outside(version_set)?;
    Ok(ConditionSet {
        version_set,
        name,
        many,
        outside,
        matching: Vec::new(alloc),
    })
}

/// The version sets of a case, each with its package and the candidates that don't match it, or
/// that match.
fn sets_of<A: PackageSource>(
    alloc: Global,
    answers: &mut A,
    conjuncts: &[DeferredConjunct<A::SolvableId>],
) -> Result<Vec<ConditionSet<A::NameId, A::SolvableId>>, CacheFault<A::Cancel>>
    ensures same { answers.new ≡ answers.old }
    ensures sets { IfOk result (λ v. AreSets A.SolvableId.eq (A.packages answers.old) v.items) }
    ensures case { IfOk result (λ v. sets_case v.items ≡ case_of conjuncts.now) }
    ensures cancelled { IfErr result (IsCancelledBy (A.may_cancel answers.old)) }
    ensures ids { IsErrOf result Ids → A.may_lack_ids answers.old }
{
    let mut sets = Vec::with_capacity(alloc, conjuncts.len())?;
    for conjunct in conjuncts {
        let set = set_of(alloc, answers, conjunct.version_set())?;
        sets.push(set)?;
    }
    Ok(sets)
}

/// Encodes a case of a parent's requirement, whose packages are guarded.
fn add_case<A: PackageSource>(
    alloc: Global,
    answers: &mut A,
    encoding: &mut Encoder<A::NameId, A::SolvableId>,
    parent: Option<A::SolvableId>,
    need: ConditionalRequirement,
    sets: &[ConditionSet<A::NameId, A::SolvableId>],
) -> Result<(), CacheFault<A::Cancel>>
    requires { IsBuilt encoding.old }
    // Whatever the answer.
    ensures same { answers.new ≡ answers.old }
    // After an answer.
    ensures encoded { OnOk result
        (RequiresGuardedCase A.SolvableId.eq A.PackageSource answers.old
        parent need sets.now encoding.old encoding.new) }
    ensures kept { OnOk result (AddsNeeds encoding.old encoding.new) }
    ensures fired { OnOk result (encoding.new.fired ≡ encoding.old.fired) }
    ensures built { OnOk result (IsBuilt encoding.new) }
    // After a refusal.
    ensures cancelled { IfErr result (IsCancelledBy (A.may_cancel answers.old)) }
    ensures ids { IsErrOf result Ids
        → StopsNeed A.SolvableId.eq A.PackageSource answers.old parent need encoding.new }
{
    let offered = answers.candidates(need.requirement)?;
    encoding.require_case(alloc, parent, need, sets, offered.as_slice())?;
    add_available(answers, encoding, offered.as_slice())?;
    Ok(())
}

/// Encodes a case of a parent's requirement, and the locks and exclusions of its candidates. One
/// that can't hold beside its parent adds nothing.
fn encode_case<A: PackageSource>(
    alloc: Global,
    answers: &mut A,
    encoding: &mut Encoder<A::NameId, A::SolvableId>,
    parent: Option<A::SolvableId>,
    need: ConditionalRequirement,
    sets: &[ConditionSet<A::NameId, A::SolvableId>],
) -> Result<(), CacheFault<A::Cancel>>
    requires { IsBuilt encoding.old }
    // Whatever the answer.
    ensures same { answers.new ≡ answers.old }
    // After an answer.
    ensures encoded { OnOk result
        (RequiresCase A.SolvableId.eq A.PackageSource answers.old
        parent need sets.now encoding.old encoding.new) }
    ensures kept { OnOk result (AddsNeeds encoding.old encoding.new) }
    ensures fired { OnOk result (encoding.new.fired ≡ encoding.old.fired) }
    ensures built { OnOk result (IsBuilt encoding.new) }
    // After a refusal.
    ensures cancelled { IfErr result (IsCancelledBy (A.may_cancel answers.old)) }
    ensures ids { IsErrOf result Ids
        → StopsNeed A.SolvableId.eq A.PackageSource answers.old parent need encoding.new }
{
    if keeps_out(sets, parent) {
        return Ok(());
    }
    forbid_named(answers, encoding, need.requirement)?;
    add_case(alloc, answers, encoding, parent, need, sets)?;
    Ok(())
}

/// Encodes the deferred case at this place.
fn encode_deferred<A: PackageSource>(
    alloc: Global,
    answers: &mut A,
    encoding: &mut Encoder<A::NameId, A::SolvableId>,
    index: usize,
) -> Result<(), CacheFault<A::Cancel>>
    requires built { IsBuilt encoding.old }
    requires within { index < length encoding.old.deferred.items }
    // Whatever the answer.
    ensures same { answers.new ≡ answers.old }
    // After an answer.
    ensures encoded { OnOk result
        (RequiresDeferred A.SolvableId.eq A.PackageSource answers.old
        index encoding.old encoding.new) }
    ensures kept { OnOk result (AddsNeeds encoding.old encoding.new) }
    ensures fired { OnOk result (encoding.new.fired ≡ encoding.old.fired) }
    ensures built { OnOk result (IsBuilt encoding.new) }
    // After a refusal.
    ensures cancelled { IfErr result (IsCancelledBy (A.may_cancel answers.old)) }
    ensures ids { IsErrOf result Ids
        → StopsInOrder A.SolvableId.eq A.PackageSource answers.old encoding.old encoding.new }
{
    let deferred = encoding.waiting(index);
    let parent = deferred.parent;
    let need = deferred.need;
    let sets = sets_of(alloc, answers, deferred.conjuncts.as_slice())?;
    // split for the prover: one drop
    let done = encode_case(alloc, answers, encoding, parent, need, sets.as_slice());
    done
}

/// Whether a case names a package that is marked `many`.
fn names_many<A: PackageSource>(
    answers: &mut A,
    conjuncts: &[DeferredConjunct<A::SolvableId>],
) -> Result<bool, CacheFault<A::Cancel>>
    ensures same { answers.new ≡ answers.old }
    ensures cancelled { IfErr result (IsCancelledBy (A.may_cancel answers.old)) }
    ensures ids { IsErrOf result Ids → A.may_lack_ids answers.old }
{
    for conjunct in conjuncts {
        let name = answers.set_package(conjunct.version_set());
        if answers.is_many(name)? {
            return Ok(true);
        }
    }
    Ok(false)
}

/// Encodes the matches of a version set of a case, if its package is marked `many`.
fn encode_set_matches<N: Copy + Exact + Hash + Debug + Drop, S: Copy + Exact + Hash + Debug>(
    encoding: &mut Encoder<N, S>,
    set: &ConditionSet<N, S>,
) -> R<()>
    requires { IsBuilt encoding.old }
    ensures matches { OnOk result
        (MatchesSets S.eq (set.now ∷ []) encoding.old encoding.new) }
    ensures ids { IsErrOf result WantIds → LacksNumber encoding.new.coding }
{
    if !set.many {
        return Ok(());
    }
    encoding.hold_matches(set.version_set, set.matching.as_slice())?;
    Ok(())
}

/// The same for each version set of a case.
fn encode_sets_matches<N: Copy + Exact + Hash + Debug + Drop, S: Copy + Exact + Hash + Debug>(
    encoding: &mut Encoder<N, S>,
    sets: &[ConditionSet<N, S>],
) -> R<()>
    requires { IsBuilt encoding.old }
    ensures matches { OnOk result (MatchesSets S.eq sets.now encoding.old encoding.new) }
    ensures ids { IsErrOf result WantIds → LacksNumber encoding.new.coding }
{
    for set in sets {
        encode_set_matches(encoding, set)?;
    }
    Ok(())
}

/// Encodes the matches of a case of a parent's requirement, and the locks and exclusions of the
/// candidates. One that can't hold beside its parent adds nothing.
fn encode_matches<A: PackageSource>(
    answers: &mut A,
    encoding: &mut Encoder<A::NameId, A::SolvableId>,
    parent: Option<A::SolvableId>,
    need: ConditionalRequirement,
    sets: &[ConditionSet<A::NameId, A::SolvableId>],
) -> Result<(), CacheFault<A::Cancel>>
    requires { IsBuilt encoding.old }
    // Whatever the answer.
    ensures same { answers.new ≡ answers.old }
    // After an answer.
    ensures encoded { OnOk result
        (MatchesCase A.SolvableId.eq A.PackageSource answers.old
        parent need sets.now encoding.old encoding.new) }
    ensures kept { OnOk result (AddsNeeds encoding.old encoding.new) }
    ensures built { OnOk result (IsBuilt encoding.new) }
    // After a refusal.
    ensures cancelled { IfErr result (IsCancelledBy (A.may_cancel answers.old)) }
    ensures ids { IsErrOf result Ids
        → StopsAnyhow A.SolvableId.eq A.PackageSource answers.old encoding.new }
{
    if keeps_out(sets, parent) {
        return Ok(());
    }
    forbid_named(answers, encoding, need.requirement)?;
    encode_sets_matches(encoding, sets)?;
    Ok(())
}

/// Encodes the matches of the deferred case at this place.
fn encode_deferred_matches<A: PackageSource>(
    alloc: Global,
    answers: &mut A,
    encoding: &mut Encoder<A::NameId, A::SolvableId>,
    index: usize,
) -> Result<(), CacheFault<A::Cancel>>
    requires built { IsBuilt encoding.old }
    requires within { index < length encoding.old.deferred.items }
    // Whatever the answer.
    ensures same { answers.new ≡ answers.old }
    // After an answer.
    ensures stays { OnOk result
        (StaysInOrder A.SolvableId.eq A.PackageSource answers.old encoding.old encoding.new) }
    ensures kept { OnOk result (AddsNeeds encoding.old encoding.new) }
    ensures built { OnOk result (IsBuilt encoding.new) }
    // After a refusal.
    ensures cancelled { IfErr result (IsCancelledBy (A.may_cancel answers.old)) }
    ensures ids { IsErrOf result Ids
        → StopsAnyhow A.SolvableId.eq A.PackageSource answers.old encoding.new }
{
    let deferred = encoding.waiting(index);
    let parent = deferred.parent;
    let need = deferred.need;
    let sets = sets_of(alloc, answers, deferred.conjuncts.as_slice())?;
    // split for the prover: one drop
    let done = encode_matches(answers, encoding, parent, need, sets.as_slice());
    done
}

/// Encodes the matches of the deferred case at this place, if it names a package that is marked
/// `many`.
pub(crate) fn encode_case_matches<A: PackageSource>(
    alloc: Global,
    answers: &mut A,
    encoding: &mut Encoder<A::NameId, A::SolvableId>,
    index: usize,
) -> Result<(), CacheFault<A::Cancel>>
    requires { IsBuilt encoding.old }
    // Whatever the answer.
    ensures same { answers.new ≡ answers.old }
    // After an answer.
    ensures stays { OnOk result
        (StaysInOrder A.SolvableId.eq A.PackageSource answers.old encoding.old encoding.new) }
    ensures kept { OnOk result (AddsNeeds encoding.old encoding.new) }
    ensures built { OnOk result (IsBuilt encoding.new) }
    // After a refusal.
    ensures cancelled { IfErr result (IsCancelledBy (A.may_cancel answers.old)) }
    ensures ids { IsErrOf result Ids
        → StopsAnyhow A.SolvableId.eq A.PackageSource answers.old encoding.new }
{
    if index >= encoding.deferred.len() {
        return Ok(());
    }
    let deferred = encoding.waiting(index);
    if !names_many(answers, deferred.conjuncts.as_slice())? {
        return Ok(());
    }
    encode_deferred_matches(alloc, answers, encoding, index)?;
    Ok(())
}

/// Encodes the deferred case at this place, of which each version set has a chosen match.
fn fire<A: PackageSource>(
    alloc: Global,
    answers: &mut A,
    encoding: &mut Encoder<A::NameId, A::SolvableId>,
    index: usize,
) -> Result<(), CacheFault<A::Cancel>>
    requires built { IsBuilt encoding.old }
    requires within { index < length encoding.old.deferred.items }
    requires waits { Contains encoding.old.fired.keys index → ⊥ }
    requires met { IsMetNow encoding.old index }
    // Whatever the answer.
    ensures same { answers.new ≡ answers.old }
    // After an answer.
    ensures stays { OnOk result
        (StaysInOrder A.SolvableId.eq A.PackageSource answers.old encoding.old encoding.new) }
    ensures kept { OnOk result (AddsNeeds encoding.old encoding.new) }
    ensures fires { OnOk result (FiresMore encoding.old encoding.new) }
    ensures built { OnOk result (IsBuilt encoding.new) }
    // After a refusal.
    ensures cancelled { IfErr result (IsCancelledBy (A.may_cancel answers.old)) }
    ensures ids { IsErrOf result Ids
        → StopsInOrder A.SolvableId.eq A.PackageSource answers.old encoding.old encoding.new }
{
    encode_deferred(alloc, answers, encoding, index)?;
    encoding.end_case(index)?;
    Ok(())
}

/// Encodes the deferred case at this place, if it holds. Answers whether it did.
pub(crate) fn fire_if_due<A: PackageSource>(
    alloc: Global,
    answers: &mut A,
    encoding: &mut Encoder<A::NameId, A::SolvableId>,
    index: usize,
) -> Result<bool, CacheFault<A::Cancel>>
    requires built { IsBuilt encoding.old }
    // Whatever the answer.
    ensures same { answers.new ≡ answers.old }
    // After an answer.
    ensures stays { OnOk result
        (StaysInOrder A.SolvableId.eq A.PackageSource answers.old encoding.old encoding.new) }
    ensures kept { OnOk result (AddsNeeds encoding.old encoding.new) }
    ensures fires { IfOk result (λ b. b ≡ true → FiresMore encoding.old encoding.new) }
    ensures spent { IfOk result
        (λ b.
        b ≡ false → (encoding.new ≡ encoding.old) × IsSpent A.SolvableId.eq encoding.new index) }
    ensures built { OnOk result (IsBuilt encoding.new) }
    // After a refusal.
    ensures cancelled { IfErr result (IsCancelledBy (A.may_cancel answers.old)) }
    ensures ids { IsErrOf result Ids
        → StopsInOrder A.SolvableId.eq A.PackageSource answers.old encoding.old encoding.new }
{
    if !encoding.is_due(index) {
        return Ok(false);
    }
    fire(alloc, answers, encoding, index)?;
    Ok(true)
}

/// Encodes each deferred case that holds, in their order. Answers whether there was one; if not,
/// nothing changed.
pub fn fire_cases<A: PackageSource>(
    alloc: Global,
    answers: &mut A,
    encoding: &mut Encoder<A::NameId, A::SolvableId>,
) -> Result<bool, CacheFault<A::Cancel>>
    requires { IsBuilt encoding.old }
    // Whatever the answer.
    ensures same { answers.new ≡ answers.old }
    // After an answer.
    ensures stays { OnOk result
        (StaysInOrder A.SolvableId.eq A.PackageSource answers.old encoding.old encoding.new) }
    ensures kept { OnOk result (AddsNeeds encoding.old encoding.new) }
    ensures fires { IfOk result (λ b. b ≡ true → FiresMore encoding.old encoding.new) }
    ensures spent { IfOk result
        (λ b. b ≡ false → (encoding.new ≡ encoding.old) × AreSpent A.SolvableId.eq encoding.new) }
    ensures built { OnOk result (IsBuilt encoding.new) }
    // After a refusal.
    ensures cancelled { IfErr result (IsCancelledBy (A.may_cancel answers.old)) }
    ensures ids { IsErrOf result Ids
        → StopsInOrder A.SolvableId.eq A.PackageSource answers.old encoding.old encoding.new }
{
    let mut has_fired = false;
    for index in 0..encoding.deferred.len() {
        if fire_if_due(alloc, answers, encoding, index)? {
            has_fired = true;
        }
    }
    Ok(has_fired)
}

/// Encodes the deferred cases at these places that hold, in this order. Answers whether there was
/// one; if not, nothing changed.
pub fn fire_each<A: PackageSource>(
    alloc: Global,
    answers: &mut A,
    encoding: &mut Encoder<A::NameId, A::SolvableId>,
    places: &[usize],
) -> Result<bool, CacheFault<A::Cancel>>
    requires { IsBuilt encoding.old }
    // Whatever the answer.
    ensures same { answers.new ≡ answers.old }
    // After an answer.
    ensures stays { OnOk result
        (StaysInOrder A.SolvableId.eq A.PackageSource answers.old encoding.old encoding.new) }
    ensures kept { OnOk result (AddsNeeds encoding.old encoding.new) }
    ensures fires { IfOk result (λ b. b ≡ true → FiresMore encoding.old encoding.new) }
    ensures unchanged { IfOk result (λ b. b ≡ false → encoding.new ≡ encoding.old) }
    ensures built { OnOk result (IsBuilt encoding.new) }
    // After a refusal.
    ensures cancelled { IfErr result (IsCancelledBy (A.may_cancel answers.old)) }
    ensures ids { IsErrOf result Ids
        → StopsInOrder A.SolvableId.eq A.PackageSource answers.old encoding.old encoding.new }
{
    let mut has_fired = false;
    for place in places {
        if fire_if_due(alloc, answers, encoding, *place)? {
            has_fired = true;
        }
    }
    Ok(has_fired)
}
