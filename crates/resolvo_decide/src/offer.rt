//! The decision that a clause offers, by one walk over its candidates or by their count.
ghost use Rattle.std.specs.Prelude.{◌≡◌, cond, drop, None};
ghost use Rattle.std.specs.Option.{option_map, option_copied};
ghost use Rattle.std.specs.List.{find, count_by, list_any, list_all};
ghost use Rattle.resolvo_store_core.specs.Signed.{value_under, is_false, is_true, is_open};
ghost use Rattle.resolvo_store_core.specs.Values.{value_at};
ghost use Rattle.resolvo_store_core.specs.Pick.{is_eligible, is_broken, offer};
ghost use Rattle.resolvo_store_core.specs.Clauses.{candidate_literals};
ghost use Rattle.resolvo_store_core.specs.Lists.{candidates_in};
ghost use Rattle.resolvo_decide.specs.CandidateCounts.{Counts, passed_by};

use crate::candidate_count::CandidateCount;
use resolvo_pool_core::id_map::ScoreMap;
use resolvo_store_core::decision_map::DecisionMap;
use resolvo_store_core::lists::{Candidate, FixedLists};
use resolvo_store_core::literal::Literal;
use resolvo_store_core::pick::{NeedClause, NextDecision};

/// The decision that a clause offers, if it is eligible.
pub(crate) fn offered<N: Copy + Eq, C: ScoreMap<N>>(
    need: &NeedClause,
    lists: &FixedLists<N>,
    values: &DecisionMap,
    scores: &C,
) -> Option<NextDecision>
where
    N: Drop,
    ensures { result ≡ offer lists.now (value_at values.now) (C.score_of scores.now) need.now }
{
    if !is_needed(need, lists, values) {
        return None;
    }
    let candidates = lists.candidates(need.requirement)?;
    let (candidate, candidate_count) = undecided(candidates, values)?;
    Some(NextDecision {
        candidate: candidate.literal.variable(),
        required_by: need.parent,
        clause_id: need.clause,
        package_activity: scores.get(candidate.package),
        candidate_count,
    })
}

/// The same, where the candidates have a count.
pub(crate) fn counted_offer<N: Copy + Eq, C: ScoreMap<N>>(
    need: &NeedClause,
    lists: &FixedLists<N>,
    values: &DecisionMap,
    scores: &C,
    count: CandidateCount,
) -> Option<NextDecision>
where
    N: Drop,
    requires { Counts (value_at values.now)
        (candidate_literals (candidates_in lists.now need.now.requirement)) count }
    ensures { result ≡ offer lists.now (value_at values.now) (C.score_of scores.now) need.now }
{
    if count.trues > 0 || !is_needed(need, lists, values) {
        return None;
    }
    let candidates = lists.candidates(need.requirement)?;
    let candidate = first_undecided(behind_passed(candidates, Some(count)), values)?;
    Some(NextDecision {
        candidate: candidate.literal.variable(),
        required_by: need.parent,
        clause_id: need.clause,
        package_activity: scores.get(candidate.package),
        candidate_count: count.undecided(),
    })
}

/// The candidates behind those that a count passes over.
pub(crate) fn behind_passed<N>(
    candidates: &[Candidate<N>],
    count: Option<CandidateCount>,
) -> &[Candidate<N>]
    ensures { result.now ≡ drop (passed_by count) candidates.now }
{
    match count {
        Some(count) => &candidates[count.passed.min(candidates.len())..],
        None => candidates,
    }
}

/// Whether the parent of a clause is true and its condition holds.
fn is_needed<N: Copy>(need: &NeedClause, lists: &FixedLists<N>, values: &DecisionMap) -> bool
where
    N: Drop,
    ensures { result ≡ is_eligible lists.now (value_at values.now) need.now }
{
    if values.value(need.parent) != Some(true) {
        return false;
    }
    match lists.condition(need.condition) {
        Some(literals) => are_false(literals, values),
        None => true,
    }
}

/// Whether all literals of a clause are false.
pub(crate) fn is_falsified<N: Copy>(
    need: &NeedClause,
    lists: &FixedLists<N>,
    values: &DecisionMap,
) -> bool
where
    N: Drop,
    ensures { result ≡ is_broken lists.now (value_at values.now) need.now }
{
    if !is_needed(need, lists, values) {
        return false;
    }
    match lists.candidates(need.requirement) {
        Some(candidates) => all_false(candidates, values),
        None => true,
    }
}

fn all_false<N: Copy>(candidates: &[Candidate<N>], values: &DecisionMap) -> bool
    ensures { result
        ≡ list_all (λ c. is_false (value_under (value_at values.now) c.literal)) candidates.now }
{
    candidates
        .iter()
        .all(|candidate| candidate.literal.is_false(values))
}

fn are_false(literals: &[Literal], values: &DecisionMap) -> bool
    ensures { result ≡ list_all (λ l. is_false (value_under (value_at values.now) l)) literals.now }
{
    literals.iter().all(|literal| literal.is_false(values))
}

/// The first undecided candidate, and how many are undecided; none where one is true.
fn undecided<N: Copy>(
    candidates: &[Candidate<N>],
    values: &DecisionMap,
) -> Option<(Candidate<N>, usize)>
    ensures { result
        ≡ cond
        (list_any (λ c. is_true (value_under (value_at values.now) c.literal)) candidates.now)
        None
        (option_map
        (λ c.
        (c, count_by (λ d. is_open (value_under (value_at values.now) d.literal)) candidates.now))
        (find (λ c. is_open (value_under (value_at values.now) c.literal)) candidates.now)) }
{
    let mut first = None;
    let mut count = 0;
    for candidate in candidates {
        match candidate.literal.eval(values) {
            Some(true) => return None,
            Some(false) => {}
            None => {
                if first.is_none() {
                    first = Some(*candidate);
                }
                count += 1;
            }
        }
    }
    match first {
        Some(candidate) => Some((candidate, count)),
        None => None,
    }
}

/// The first undecided candidate.
fn first_undecided<'a, N: Copy>(
    candidates: &'a [Candidate<N>],
    values: &DecisionMap,
) -> Option<&'a Candidate<N>>
    ensures { option_copied result
        ≡ find (λ c. is_open (value_under (value_at values.now) c.literal)) candidates.now }
{
    candidates
        .iter()
        .find(|candidate| candidate.literal.is_undecided(values))
}
