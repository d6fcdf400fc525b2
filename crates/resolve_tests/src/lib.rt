//! Tests of the program's library, apart from it so that the gate proves its functions once.
//! A test of texts with an answer is a row of `resolve_rows`.
#![tactic(auto)]

#[cfg(test)]
mod tests;
