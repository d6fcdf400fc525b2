//! Interning: names, strings, solvables, version sets, unions and conditions, numbered in a `Pool`.
#![tactic(auto)]

pub mod pool;
