//! Tests of `resolvo_store_core` and of the crates that search over it, apart from them so that a
//! gate proves their functions once.
#![tactic(auto)]

#[cfg(test)]
mod tests;
