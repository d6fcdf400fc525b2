//! The encoder's queries about packages, each cached: candidates, dependencies, forbidden versions.
//! It is no part of CDCL itself. In resolvo: `src/solver/cache.rs`, as `src/solver/encoding.rs`
//! calls it.
#![tactic(auto)]

pub mod cached_packages;
pub mod package_source;
