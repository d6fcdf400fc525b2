//! Steps of a proof.
//!
//! The model is the step of specs/Value.antt. The lines of a report hold steps, which the judge
//! checks.

use resolvo_text::{Spec, Version};

/// The owner of a step's or an entry's line.
#[derive(Debug, Drop)]
pub enum Place {
    Request,
    Version(Version),
}

/// The variable of a literal.
#[derive(Debug, Drop)]
pub enum Atom {
    /// The version is chosen.
    Version(Version),
    /// Some version of the package is chosen.
    Any { name: String },
    /// One of these SPECs must be met.
    Shared { alternatives: Vec<Spec> },
    /// The versions of the SPEC's package that it doesn't match are forbidden.
    Outside { spec: Spec },
    /// A version is chosen that the SPEC matches; its package is marked `many`.
    Matches { spec: Spec },
    /// One binary digit of the place of the package's chosen version.
    Bit { bit: u32, name: String },
}

/// An atom, or its negation.
#[derive(Debug, Drop)]
pub struct Literal {
    pub atom: Atom,
    pub positive: bool,
}

/// A step: a rule of a line, the definition of an atom, or a clause derived from earlier steps.
#[derive(Debug, Drop)]
pub enum Step {
    /// A line `needs`, in one of its cases.
    Need {
        place: Place,
        line: u32,
        case: u32,
    },
    /// A line `needs` without condition, with an atom `Shared`.
    Gate {
        version: Version,
        line: u32,
    },
    /// The definition of an atom `Shared`.
    Shared {
        alternatives: Vec<Spec>,
    },
    /// A line `limits` forbids a version.
    LimitBars {
        place: Place,
        line: u32,
        version: Version,
    },
    /// A line `limits`, with an atom `Outside`.
    Limit {
        place: Place,
        line: u32,
    },
    /// The definition of an atom `Outside`, for one version.
    Outside {
        spec: Spec,
        version: Version,
    },
    /// The definition of an atom `Matches`, for one version.
    Matches {
        spec: Spec,
        version: Version,
    },
    /// A line `lock` forbids another version of its package.
    Lock {
        line: u32,
        version: Version,
    },
    Exclude {
        line: u32,
    },
    Unknown {
        line: u32,
    },
    /// One binary digit of a version's place.
    Digit {
        version: Version,
        place: u32,
        bit: u32,
    },
    /// The definition of an atom `Any`, for one version.
    Any {
        version: Version,
    },
    /// A derived clause, by RUP over the clauses of the steps of these numbers.
    Derive {
        literals: Vec<Literal>,
        causes: Vec<u32>,
    },
}
