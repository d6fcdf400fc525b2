//! Searches over a few clauses, and the steps of their proofs. What a contract promises exactly is in
//! `checks/calls.py`: the trail, the pick, walks, clauses as literals and texts, and trimmed proofs.

mod registry;
mod steps;
mod variables;
