//! A catalogue as a provider: it answers the solver from the lines.
#![tactic(auto)]

mod candidate_flags;
mod catalogue_ids;
mod dependencies;
pub mod dependency_provider;
pub mod provider;
mod request_terms;

pub use dependency_provider::GivenUp;
pub use provider::{CatalogueProvider, Hint, RequestIds};
pub use resolvo_catalogue_core::{
    Alternatives, Catalogue, Cond, Counted, IoFault, LineReader, MemorySink, MemorySource,
    ReadFault, Request, Rule, Sink, Source, Span, Spec, Version, VersionNo, WriteFault,
};
pub use resolvo_terms::Numbers;
