//! Conditions on the chosen solvables, as trees whose nodes are ids. A requirement may have a
//! condition, and the encoder reads it.

use crate::id::{ConditionId, VersionSetId};

/// A condition on the chosen solvables.
#[derive(Clone, Copy, Debug, PartialEq, Eq, Hash)]
pub enum Condition {
    /// Two conditions, joined.
    Binary(LogicalOperator, ConditionId, ConditionId),
    /// Some chosen solvable matches the version set.
    Requirement(VersionSetId),
}

/// How a condition joins two.
#[derive(Clone, Copy, Debug, PartialEq, Eq, Hash)]
pub enum LogicalOperator {
    And,
    Or,
}
