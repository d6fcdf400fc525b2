//! The clauses between which a decision chooses, and the better one of two decisions. A need clause
//! is eligible where its parent is true, its condition holds and none of its candidates is true. The
//! pick is made for the first eligible one, unless a later one beats it.
ghost use Rattle.std.specs.Prelude.{◌≡◌};
ghost use Rattle.resolvo_store_core.specs.Pick.{beats, later};

use resolvo_pool_core::id::{ClauseId, DisjunctionId, VariableId};
use resolvo_pool_core::requirement::Requirement;

/// A registered need clause.
#[derive(Clone, Copy, Debug)]
pub struct NeedClause {
    pub parent: VariableId,
    pub requirement: Requirement,
    pub condition: Option<DisjunctionId>,
    pub clause: ClauseId,
}

/// The next decision.
#[derive(Clone, Copy, Debug, PartialEq, Eq)]
pub struct NextDecision {
    /// The candidate that is to be true.
    pub candidate: VariableId,
    /// The parent whose need it meets.
    pub required_by: VariableId,
    /// The clause of that need.
    pub clause_id: ClauseId,
    /// The score of the candidate's package.
    pub package_activity: u64,
    /// How many candidates of the clause are undecided.
    pub candidate_count: usize,
}

/// The better of the best decision so far and a later one. The later one wins with a higher score
/// and fewer candidates, but never over a decision for the root unless it is one itself.
pub fn or_later(best: Option<NextDecision>, next: Option<NextDecision>) -> Option<NextDecision>
    ensures { result ≡ later best next }
{
    match (best, next) {
        (None, next) => next,
        (best, None) => best,
        (Some(best), Some(next)) => {
            if does_beat(next, best) {
                Some(next)
            } else {
                Some(best)
            }
        }
    }
}

fn does_beat(next: NextDecision, best: NextDecision) -> bool
    ensures { result ≡ beats next best }
{
    best.package_activity < next.package_activity
        && next.candidate_count < best.candidate_count
        && (next.required_by.is_root() || !best.required_by.is_root())
}
