//! Why a request is unsolvable: the conflict graph, merged versions, and the message.
#![tactic(auto)]

mod ancestors;
mod count;
mod display_line;
pub mod display_unsat;
pub mod graph;
pub mod indenter;
mod installability;
mod links;
mod merge;
mod runs;
mod sink;
mod tree;
mod walk;

pub use display_line::MessageLine;
pub use display_unsat::DisplayUnsat;
pub use graph::{
    ConflictCause, ConflictEdge, ConflictGraph, ConflictNode, Edge, EdgeIndex, NodeIndex,
};
pub use indenter::{ChildOrder, Indenter};
pub use merge::MergedConflictNode;
