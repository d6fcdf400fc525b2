//! Beyond the clauses: each call succeeds with ample memory, and graphs and messages worked out by
//! hand.

mod graphs;
mod indents;
mod messages;
mod sample;
