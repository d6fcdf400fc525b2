//! Each call of a container that may want memory, once, with ample memory. Its answers are promised by
//! the contracts; `checks/calls.py` shows some of them.

use resolvo_pool::{
    Arena, ClauseId, DenseId, FrozenCopyMap, IdMap, IdSet, IndexedSet, Mapping, NameTag,
    OptionalNumber, R, Requirement, RequirementMap, ScoreMap, SolvableIdOrRoot, SolvableTag,
    SolverId, SparseId, VersionSetId, VersionSetUnionId, WithRootSet,
};
use std::alloc::Global;

/// Puts an id into a set, and into one that may hold the root.
fn fill_sets<S: SolverId>(set: &mut S::Set, rooted: &mut WithRootSet<S>, id: S) -> R<()> {
    set.insert(id)?;
    rooted.insert(SolvableIdOrRoot::root())?;
    rooted.insert(SolvableIdOrRoot::from(id))?;
    Ok(())
}

/// Gives an id a score and a number.
fn fill_maps<S: SolverId>(scores: &mut S::Scores, numbers: &mut S::OptionalIds, id: S) -> R<()> {
    scores.set(id, 1_000_001)?;
    numbers.set(id, OptionalNumber::of(7))
}

fn fill_collections<S: SolverId>(alloc: Global, id: S) -> R<()> {
    fill_sets(
        &mut S::Set::new(alloc),
        &mut WithRootSet::<S>::new(alloc),
        id,
    )?;
    fill_maps::<S>(
        &mut S::Scores::new(alloc),
        &mut S::OptionalIds::new(alloc),
        id,
    )
}

#[test]
fn dense_and_sparse(rt: HostRuntime) {
    let dense: DenseId<SolvableTag> = DenseId::from_raw(70);
    assert_eq!(rt; fill_collections(rt.alloc(), dense), Ok(()));
    let sparse: SparseId<NameTag> = SparseId::from_raw(4_294_967_295);
    assert_eq!(rt; fill_collections(rt.alloc(), sparse), Ok(()));
}

fn fill_mapping(values: &mut Mapping<VersionSetId, u32>) -> R<()> {
    values.insert(VersionSetId(128), 20)?;
    values.get_or_insert_with(VersionSetId(5), || 30)?;
    Ok(())
}

fn fill_requirements(values: &mut RequirementMap<u32>) -> R<()> {
    values.insert(Requirement::from(VersionSetId(2)), 1)?;
    values.get_or_insert_with(Requirement::from(VersionSetUnionId(2)), || 2)?;
    Ok(())
}

fn fill_arena(values: &mut Arena<ClauseId, u32>) -> R<()> {
    values.alloc(5)?;
    values.alloc(6)?;
    Ok(())
}

fn fill_all(alloc: Global) -> R<()> {
    fill_mapping(&mut Mapping::with_capacity(alloc, 129)?)?;
    fill_requirements(&mut RequirementMap::new(alloc)?)?;
    fill_arena(&mut Arena::with_capacity(alloc, 2)?)?;
    IndexedSet::new(alloc).insert(ClauseId(7))?;
    FrozenCopyMap::<u32, u32>::new(alloc).insert_copy(3, 4)
}

#[test]
fn with_memory(rt: HostRuntime) {
    assert_eq!(rt; fill_all(rt.alloc()), Ok(()));
}
