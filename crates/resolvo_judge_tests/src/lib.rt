//! Tests of the crates that read and judge texts, apart from them so that the gate proves their
//! functions once. A test of texts with an answer is a row of `resolve_rows`.
#![tactic(auto)]

#[cfg(test)]
mod tests;
