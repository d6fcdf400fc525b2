//! A decision: a variable with its value and its reason clause; and an entry of the trail, which
//! has the level too.

use resolvo_pool_core::id::{ClauseId, VariableId};

/// A variable with its value.
#[derive(Clone, Copy, Debug, PartialEq, Eq)]
pub struct Decision {
    pub variable: VariableId,
    pub value: bool,
    /// The reason: the clause that forced the value, or the clause for which the decision was made.
    pub derived_from: ClauseId,
}

/// A decision, with its level.
#[derive(Clone, Copy, Debug, PartialEq, Eq)]
pub struct Entry {
    pub decision: Decision,
    pub level: u32,
}
