//! Tests of `resolvo_pool_core` and `resolvo_pool`, apart from them so that a gate proves their
//! functions once.
#![tactic(auto)]

#[cfg(test)]
mod tests;
