//! The cache over the provider in memory, of which each helper asks one thing.

use super::provider::{Tens, small_provider};
use resolvo_pool::{
    CacheFault, Dependencies, NameId, R, Requirement, SolvableId, SolverCache, StringId,
    VersionSetId, VersionSetUnionId,
};
use std::alloc::Global;

/// Whether these are the solvables.
fn are(list: &[SolvableId], want: &[u32]) -> bool {
    list.len() == want.len() && list.iter().zip(want).all(|(s, w)| s.into_raw() == *w)
}

fn matching(cache: &mut SolverCache<Tens>, set: u32, want: &[u32]) -> bool {
    match cache.get_or_cache_matching_candidates(VersionSetId(set)) {
        Ok(list) => are(list, want),
        Err(_) => false,
    }
}

fn others(cache: &mut SolverCache<Tens>, set: u32, want: &[u32]) -> bool {
    match cache.get_or_cache_non_matching_candidates(VersionSetId(set)) {
        Ok(list) => are(list, want),
        Err(_) => false,
    }
}

fn sorted(cache: &mut SolverCache<Tens>, requirement: Requirement, want: &[u32]) -> bool {
    match cache.get_or_cache_sorted_candidates(requirement) {
        Ok(list) => are(list, want),
        Err(_) => false,
    }
}

fn sorted_alone(cache: &mut SolverCache<Tens>, set: u32, want: &[u32]) -> bool {
    match cache.get_or_cache_sorted_candidates_for_version_set(VersionSetId(set)) {
        Ok(list) => are(list, want),
        Err(_) => false,
    }
}

fn candidates(cache: &mut SolverCache<Tens>, name: u32, want: &[u32]) -> bool {
    match cache.get_or_cache_candidates(NameId::from_raw(name)) {
        Ok(list) => are(list.candidates.as_slice(), want),
        Err(_) => false,
    }
}

fn reason(cache: &mut SolverCache<Tens>, solvable: u32) -> Option<StringId> {
    match cache.get_or_cache_dependencies(SolvableId::from_raw(solvable)) {
        Ok(Dependencies::Unknown(why)) => Some(*why),
        _ => None,
    }
}

fn cancelled(cache: &mut SolverCache<Tens>, set: u32) -> Option<u32> {
    match cache.get_or_cache_matching_candidates(VersionSetId(set)) {
        Err(CacheFault::Cancelled(value)) => Some(value),
        _ => None,
    }
}

fn has_dependencies(cache: &SolverCache<Tens>, solvable: u32) -> bool {
    cache.are_dependencies_available_for(SolvableId::from_raw(solvable))
}

/// How often the provider was asked.
fn asked(cache: &SolverCache<Tens>) -> u32 {
    cache.provider().asked.get()
}

fn gives_lists(cache: &mut SolverCache<Tens>) -> bool {
    matching(cache, 1, &[1, 2])
        && others(cache, 1, &[0])
        && sorted(cache, Requirement::from(VersionSetId(1)), &[1, 2])
        && sorted_alone(cache, 11, &[12, 11])
}

/// Lists that were given are given again, and nothing is asked.
fn gives_lists_again(cache: &mut SolverCache<Tens>) -> bool {
    let before = asked(cache);
    others(cache, 1, &[0])
        && sorted(cache, Requirement::from(VersionSetId(1)), &[1, 2])
        && sorted_alone(cache, 1, &[1, 2])
        && sorted_alone(cache, 11, &[12, 11])
        && asked(cache) == before
}

fn gives_union(cache: &mut SolverCache<Tens>) -> bool {
    let union = Requirement::from(VersionSetUnionId(0));
    sorted(cache, union, &[22, 21, 1, 2])
        && sorted(cache, union, &[22, 21, 1, 2])
        && candidates(cache, 7, &[])
}

fn hints_dependencies(cache: &mut SolverCache<Tens>) -> bool {
    !has_dependencies(cache, 12)
        && candidates(cache, 1, &[10, 11, 12])
        && has_dependencies(cache, 12)
        && !has_dependencies(cache, 13)
}

fn asks_once(cache: &mut SolverCache<Tens>) -> bool {
    reason(cache, 12) == Some(StringId(0))
        && reason(cache, 12) == Some(StringId(0))
        && reason(cache, 11) == None
        && asked(cache) == 2
        && has_dependencies(cache, 11)
}

/// Where the third question is cancelled, what was cached before is still there, and nothing is asked.
fn keeps_answers(cache: &mut SolverCache<Tens>) -> bool {
    let kept = matching(cache, 1, &[1, 2])
        && matching(cache, 11, &[11, 12])
        && cancelled(cache, 21) == Some(3);
    let before = asked(cache);
    kept && matching(cache, 1, &[1, 2]) && asked(cache) == before && matching(cache, 21, &[21, 22])
}

/// What a cache is asked for.
#[derive(Clone, Copy)]
enum Wanted {
    Lists,
    Union,
    Hints,
    Dependencies,
    KeptAnswers,
}

fn answers(cache: &mut SolverCache<Tens>, wanted: Wanted) -> bool {
    match wanted {
        Wanted::Lists => gives_lists(cache) && gives_lists_again(cache),
        Wanted::Union => gives_union(cache),
        Wanted::Hints => hints_dependencies(cache),
        Wanted::Dependencies => asks_once(cache),
        Wanted::KeptAnswers => keeps_answers(cache),
    }
}

/// The answers of a cache over a provider that cancels at this test, or never.
fn answers_of(alloc: Global, cancels_at: u32, wanted: Wanted) -> R<bool> {
    match small_provider(alloc, Some(SolvableId::from_raw(1)), cancels_at) {
        Ok(provider) => Ok(answers(&mut SolverCache::new(alloc, provider), wanted)),
        Err(want) => Err(want),
    }
}

#[test]
fn lists_of_a_version_set(rt: HostRuntime) {
    assert_eq!(rt; answers_of(rt.alloc(), 0, Wanted::Lists), Ok(true));
}

#[test]
fn lists_of_a_union(rt: HostRuntime) {
    assert_eq!(rt; answers_of(rt.alloc(), 0, Wanted::Union), Ok(true));
}

#[test]
fn dependencies_at_hand(rt: HostRuntime) {
    assert_eq!(rt; answers_of(rt.alloc(), 0, Wanted::Hints), Ok(true));
}

#[test]
fn dependencies_asked_once(rt: HostRuntime) {
    assert_eq!(rt; answers_of(rt.alloc(), 0, Wanted::Dependencies), Ok(true));
}

#[test]
fn third_question_cancelled(rt: HostRuntime) {
    assert_eq!(rt; answers_of(rt.alloc(), 3, Wanted::KeptAnswers), Ok(true));
}
