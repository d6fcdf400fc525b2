//! The literals of a built clause: versions by their numbers in the catalogue.

use resolvo_catalogue_core::{Spec, VersionNo};

/// The atom of a literal.
#[derive(Drop)]
pub enum Atom {
    Version(VersionNo),
    Any(String),
    Shared(Vec<Spec>),
    Outside(Spec),
    Matches(Spec),
    Bit(u32, String),
}

/// An atom, or its negation.
#[derive(Drop)]
pub struct Built {
    pub atom: Atom,
    pub positive: bool,
}
