//! Tests of `resolvo_graph` and `resolvo_proof`, apart from them so that a gate proves their
//! functions once.
#![tactic(auto)]

#[cfg(test)]
mod tests;
