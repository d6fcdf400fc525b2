//! The input of the turns of a search.
use crate::cdcl::Activity;
use resolvo_pool_core::id::VersionSetId;
use resolvo_pool_core::requirement::ConditionalRequirement;

/// The input of each turn of a search: the activity, and the root's rules.
#[derive(Drop)]
pub struct TurnInput<'a> {
    pub activity: Activity,
    pub requirements: &'a [ConditionalRequirement],
    pub constraints: &'a [VersionSetId],
}
