//! The literals of clauses, over numbered atoms.

/// The atom of this number, or its negation.
#[derive(Clone, Copy, Drop)]
pub struct Literal {
    pub atom: usize,
    pub positive: bool,
}

/// What a clause is under an assignment.
#[derive(Clone, Copy, Drop)]
pub enum ClauseStatus {
    /// All its literals are false.
    Falsified,
    /// All but this one are false. It may be in the clause twice, and it may be true.
    Unit(Literal),
    /// More than one isn't false.
    Open,
}
