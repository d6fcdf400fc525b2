//! What the turns of a search keep beside the encoding. No contract depends on it.
use crate::scan::Scan;
use crate::tasks::Tasks;
use resolvo_decide::scores::Scores;
use resolvo_pool_core::id::Exact;
use resolvo_pool_core::id_map::ScoreMap;
use std::alloc::Global;
use std::fmt::Debug;
use std::hash::Hash;

/// The scores of packages, how far the trail and the deferred cases are scanned, and the tasks of
/// an encoding.
#[derive(Drop)]
pub struct TurnState<N: Copy + Exact + Hash, S, C: ScoreMap<N>> {
    pub scores: Scores<N, C>,
    pub scan: Scan<N>,
    pub tasks: Tasks<S>,
}

impl<N: Copy + Exact + Hash + Debug, S: Copy + Exact + Hash + Debug, C: ScoreMap<N>> TurnState<
    N,
    S,
    C,
> {
    /// Before the first turn: all scores are 0, nothing is scanned, and there is no task.
    pub fn new(alloc: Global) -> TurnState<N, S, C> {
        TurnState {
            scores: Scores::<N, C>::new(alloc),
            scan: Scan::new(alloc),
            tasks: Tasks::new(alloc),
        }
    }
}
