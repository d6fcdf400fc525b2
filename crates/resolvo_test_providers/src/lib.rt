//! A source of packages to try a solver with.
#![tactic(auto)]

pub mod test_provider;
