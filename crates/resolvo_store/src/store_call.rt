//! Calls of a clause store as values, and their answers.
//! `ClauseStore::run` takes a list of calls and returns a list of answers.

use resolvo_pool_core::id::{ClauseId, DisjunctionId, VariableId};
use resolvo_pool_core::requirement::Requirement;
use resolvo_store_core::decision::Decision;
use resolvo_store_core::decision_tracker::Set;
use resolvo_store_core::literal::Literal;
use resolvo_store_core::pick::NextDecision;
use resolvo_store_core::store_clause::Clause;
use resolvo_store_core::watched_literals::WatchedLiterals;

/// A call of a clause store. `N` is the type of package names.
#[derive(Debug, Drop)]
pub enum StoreCall<N> {
    /// Sets the candidates of a requirement: packages, each with versions.
    FixCandidates(Requirement, Vec<(N, Vec<VariableId>)>),
    /// Adds the literals of a condition's case.
    FixDisjunction(Vec<Literal>),
    /// Adds the literals of a learnt clause.
    FixLearnt(Vec<Literal>),
    /// Adds a clause with its two watched literals, if it has any.
    AddClause(Clause<N>, Option<WatchedLiterals>),
    /// Registers a need clause for decisions.
    Register {
        parent: VariableId,
        requirement: Requirement,
        condition: Option<DisjunctionId>,
        clause: ClauseId,
    },
    /// Assigns a variable at a level, with a clause as its reason.
    Assign {
        variable: VariableId,
        value: bool,
        clause: ClauseId,
        level: u32,
    },
    /// Removes the last assignment.
    UndoLast,
    /// Removes the assignments above a level.
    UndoUntil(u32),
    /// Bumps a package's score.
    BumpName(N, u64),
    /// Decays each score to this number of millionths.
    Decay(u64),
    /// Visits the clauses that watch a literal: the i-th watches the i-th of `moves` instead.
    Walk {
        literal: Literal,
        moves: Vec<Option<Literal>>,
    },
    /// The query for a falsified registered clause.
    Falsified,
    /// The query for the next decision.
    NextDecision,
}

/// The answer of a clause store to a call.
#[derive(Debug, Drop, PartialEq)]
pub enum StoreAnswer {
    /// The call was carried out, and has no result.
    Done,
    /// A clause was added under this number.
    Added(ClauseId),
    /// The outcome of an assignment.
    Set(Set),
    /// The assignment that was removed, with the level of the one before it.
    Undone(Option<(Decision, u32)>),
    /// The visited clauses, which watched the literal.
    Met(Vec<ClauseId>),
    /// A falsified clause.
    Falsified(Option<ClauseId>),
    /// The next decision.
    Next(Option<NextDecision>),
    /// A falsified clause, in place of a decision.
    Broken(ClauseId),
    /// The call's condition doesn't hold. It changed nothing.
    Bad,
}
