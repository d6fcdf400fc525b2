//! The solver and the judge for C and for callers of C. They turn the bytes of texts into those of
//! a report or a verdict.
//!
//! No call keeps anything, and all memory that is passed to it is the caller's. docs/EMBEDDING.md
//! has the C declarations.
#![tactic(auto)]

mod call_result;
mod call_status;
mod judge;
mod lent;
mod solve;
