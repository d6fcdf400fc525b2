//! A clause store: the lists that clauses name, the clauses with their watched literals, the trail,
//! the registered need clauses and the packages' scores.
//! Its model is plain lists and functions (`plain`). Contracts describe what it becomes up to
//! `Like`: equal lists, and functions that agree everywhere. `run` takes a list of calls.
ghost use Rattle.std.specs.Prelude.{◌≡◌, ◌++◌, ◌∷◌, [], List, Option, Some, false, OnOk, OnErr, IfOk, IsErrOf, IsOkUnless, length, true, None};
ghost use Rattle.std.specs.List.{list_all};
ghost use Rattle.resolvo_pool_core.specs.declared.want.Want.TheVariants.{Memory, Ids};
ghost use Rattle.resolvo_pool_core.specs.ByRequirement.{index_in};
ghost use Rattle.resolvo_store_core.specs.Trail.{value_in};
ghost use Rattle.resolvo_store_core.specs.AddPairs.{set_for};
ghost use Rattle.resolvo_store_core.specs.Signed.{Signed, same_literal};
ghost use Rattle.resolvo_store_core.specs.Watches.{watchers, IsWatched, SameLists};
ghost use Rattle.resolvo_store_core.specs.declared.watched_literals.WatchedLiterals.{WatchedLiterals};
ghost use Rattle.resolvo_store.specs.Stored.{plain, new_store, Like, Becomes, Stays};
ghost use Rattle.resolvo_store.specs.Changes.{versions_of, candidates_from, with_candidates, with_disjunction, with_learnt, with_watcher, with_clause, with_need, with_decision, undone, last_undone, undone_until, bumped, decayed, walked};
ghost use Rattle.resolvo_store_core.specs.Clauses.{Fits, is_in_range, literals_of};
ghost use Rattle.resolvo_store.specs.Calls.{has_clause, can_watch, can_fix, can_add, can_register, can_assign, can_decay, broken_in, picked_in};

use resolvo_decide::decide_queue::DecideQueue;
use resolvo_pool_core::id::{ClauseId, DenseIndex, DisjunctionId, LearntClauseId, VariableId};
use resolvo_pool_core::id_map::ScoreMap;
use resolvo_pool_core::requirement::Requirement;
use resolvo_pool_core::solver_id::SolverId;
use resolvo_pool_core::want::{R, Want};
use resolvo_store_core::decision::Decision;
use resolvo_store_core::decision_tracker::{DecisionTracker, Set};
use resolvo_store_core::lists::{Candidate, Disjunction, FixedLists};
use resolvo_store_core::literal::{Literal, is_in_range};
use resolvo_store_core::pick::{NeedClause, NextDecision};
use resolvo_store_core::store_clause::Clause;
use resolvo_store_core::watch_map::WatchMap;
use resolvo_store_core::watched_literals::WatchedLiterals;
use std::alloc::Global;
use std::marker::Model;

/// The most clauses.
const CLAUSES: usize = 4_294_967_295;

/// Clauses with the input of decisions. `N` is the type of package names.
pub struct ClauseStore<N: SolverId> {
    lists: FixedLists<N>,
    clauses: Vec<Clause<N>>,
    watched: Vec<Option<WatchedLiterals>>,
    watches: WatchMap,
    tracker: DecisionTracker,
    queue: DecideQueue<N>,
    scores: N::Scores,
    alloc: Global,
}

// split for the prover: one drop
impl<N: SolverId> Drop for ClauseStore<N> {
    fn drop(self) {
        let ClauseStore {
            lists: _,
            clauses: _,
            watched: _,
            watches: _,
            tracker: _,
            queue: _,
            scores: _,
            alloc: _,
        } = self;
    }
}

impl<N: SolverId> Model for ClauseStore<N> {
    ghost use Rattle.std.specs.Prelude.{◌≡◌, ◌≤◌, length};
    ghost use Rattle.resolvo_store.specs.Stored.{Kept, IsQueueOf};
    ghost use Rattle.resolvo_store_core.specs.Watches.{watchers, IsWatched};

    ghost Value = { Kept N N.Scores };

    ghost view = { λ s.
        record {
          lists = s.lists;
          clauses = s.clauses.items;
          watched = s.watched.items;
          watches = s.watches;
          trail = s.tracker.trail;
          needs = s.queue.registered.items;
          scores = s.scores;
        } };

    ghost invariant = { λ s.
        IsWatched s.watched.items (watchers s.watches)
        × (length s.watched.items ≡ length s.clauses.items)
        × (length s.clauses.items ≤ 4294967295)
        × IsQueueOf s.lists s.tracker (N.Scores.score_of s.scores) s.queue };
}

impl<N: SolverId + Drop> ClauseStore<N> {
    /// A store of the root's clause alone, which is clause 0.
    pub fn new(alloc: Global) -> R<ClauseStore<N>>
        ensures store { IfOk result (λ s. Like (plain N.Scores.score_of s) new_store) }
        ensures refusal { IsOkUnless result Memory }
    {
        let mut clauses = Vec::new(alloc);
        clauses.push(Clause::InstallRoot)?;
        let mut watched = Vec::new(alloc);
        watched.push(None)?;
        Ok(ClauseStore {
            lists: FixedLists::new(alloc)?,
            clauses,
            watched,
            watches: WatchMap::new(alloc),
            tracker: DecisionTracker::new(alloc),
            queue: DecideQueue::new(alloc),
            scores: <N::Scores as ScoreMap<N>>::new(alloc),
            alloc,
        })
    }

    /// Whether a requirement has no candidates yet, and literals can be made of these.
    pub fn can_fix(&self, requirement: Requirement, groups: &[(N, Vec<VariableId>)]) -> bool
        ensures { result ≡ can_fix (plain N.Scores.score_of self.now) requirement groups.now }
    {
        let is_new = self.lists.candidates(requirement).is_none();
        is_new && are_in_range(groups)
    }

    /// Sets the candidates of a requirement: packages, each with versions.
    pub fn fix_candidates(
        &mut self,
        requirement: Requirement,
        groups: &[(N, Vec<VariableId>)],
    ) -> R<()>
        requires { can_fix (plain N.Scores.score_of self.old) requirement groups.now ≡ true }
        ensures store { OnOk result
            (Becomes N.Scores.score_of (with_candidates requirement (candidates_from groups.now))
            self.old self.new) }
        ensures err { OnErr result (Stays N.Scores.score_of self.old self.new) }
        ensures ids { IsErrOf result Ids → index_in requirement ≡ 4294967295 }
    {
        let candidates = candidates_of(self.alloc, groups)?;
        self.lists
            .fix_candidates(requirement, candidates.as_slice())
    }

    /// Adds the literals of a condition's case. The first case has number 0.
    pub fn fix_disjunction(&mut self, literals: Vec<Literal>) -> R<DisjunctionId>
        ensures number { IfOk result (λ id. id.raw ≡ length (plain N.Scores.score_of
            self.old).disjunctions) }
        ensures store { OnOk result
            (Becomes N.Scores.score_of (with_disjunction literals.items) self.old self.new) }
        ensures err { OnErr result (Stays N.Scores.score_of self.old self.new) }
        ensures ids { IsErrOf result Ids
            → length (plain N.Scores.score_of self.old).disjunctions ≡ 4294967295 }
    {
        self.lists.fix_disjunction(Disjunction { literals })
    }

    /// Adds the literals of a learnt clause. The first clause has number 0.
    pub fn fix_learnt(&mut self, literals: Vec<Literal>) -> R<LearntClauseId>
        ensures number { IfOk result (λ id. id.raw ≡ length (plain N.Scores.score_of
            self.old).learnt) }
        ensures store { OnOk result
            (Becomes N.Scores.score_of (with_learnt literals.items) self.old self.new) }
        ensures err { OnErr result (Stays N.Scores.score_of self.old self.new) }
        ensures ids { IsErrOf result Ids
            → length (plain N.Scores.score_of self.old).learnt ≡ 4294967295 }
    {
        self.lists.fix_learnt(literals)
    }

    /// Whether the lists that a clause names exist, and it watches two different literals of its
    /// own or none.
    pub fn can_add(&self, clause: &Clause<N>, watched: Option<WatchedLiterals>) -> bool
        ensures { result ≡ can_add (plain N.Scores.score_of self.now) clause.now watched }
    {
        if !clause.is_in_range() {
            return false;
        }
        if !clause.has_lists(&self.lists) {
            return false;
        }
        is_watchable(clause, &self.lists, watched)
    }

    /// Adds a clause with its watched literals. Clause 0 is that of the root.
    pub fn add_clause(&mut self, clause: Clause<N>, watched: Option<WatchedLiterals>) -> R<ClauseId>
        requires { can_add (plain N.Scores.score_of self.old) clause watched ≡ true }
        ensures number { IfOk result (λ id. id.0 ≡ length (plain N.Scores.score_of
            self.old).clauses) }
        ensures store { OnOk result
            (Becomes N.Scores.score_of (with_clause clause watched) self.old self.new) }
        ensures err { OnErr result (Stays N.Scores.score_of self.old self.new) }
        ensures ids { IsErrOf result Ids
            → length (plain N.Scores.score_of self.old).clauses ≡ 4294967295 }
    {
        if self.clauses.len() >= CLAUSES {
            return Err(Want::Ids);
        }
        let id = ClauseId(self.clauses.len() as u32);
        self.clauses.reserve(1)?;
        self.watched.reserve(1)?;
        begin(&mut self.watches, &watched, id)?;
        self.watched.push(watched).unwrap();
        self.clauses.push(clause).unwrap();
        Ok(id)
    }

    /// Whether the clause, the candidates and the condition that a need clause names exist.
    pub fn can_register(&self, need: &NeedClause) -> bool
        ensures { result ≡ can_register (plain N.Scores.score_of self.now) need.now }
    {
        self.has_clause(need.clause)
            && self.lists.candidates(need.requirement).is_some()
            && self.lists.has_condition(need.condition)
    }

    /// Registers a need clause after the others.
    pub fn register(&mut self, need: NeedClause) -> R<()>
        requires { can_register (plain N.Scores.score_of self.old) need ≡ true }
        ensures store { OnOk result (Becomes N.Scores.score_of (with_need need) self.old self.new) }
        ensures err { OnErr result (Stays N.Scores.score_of self.old self.new) }
        ensures refusal { IsOkUnless result Memory }
    {
        self.queue.register_clause(need)
    }

    /// Visits the clauses that watch a literal. The i-th visited one watches the i-th of `moves`
    /// instead, unless there is none or it watches that one already.
    pub fn walk(&mut self, literal: Literal, moves: &[Option<Literal>]) -> R<Vec<ClauseId>>
        ensures met { IfOk result (λ v. v.items ≡ (plain N.Scores.score_of self.old).watchers
            literal) }
        ensures store { OnOk result
            (Becomes N.Scores.score_of (walked literal moves.now) self.old self.new) }
        ensures err { OnErr result (Stays N.Scores.score_of self.old self.new) }
        ensures refusal { IsOkUnless result Memory }
    {
        self.watches
            .walk(self.alloc, &mut self.watched, literal, moves)
    }

    /// Whether the store has a clause.
    fn has_clause(&self, clause: ClauseId) -> bool
        ensures { result ≡ has_clause (plain N.Scores.score_of self.now) clause }
    {
        clause.to_index() < self.clauses.len()
    }

    /// Whether a clause can be the reason of an assignment at a level: it exists, and the level
    /// isn't below that of the last assignment.
    pub fn can_assign(&self, clause: ClauseId, level: u32) -> bool
        ensures { result ≡ can_assign (plain N.Scores.score_of self.now) clause level }
    {
        self.has_clause(clause) && level >= self.tracker.last_level()
    }

    /// Appends an assignment to the trail, unless its variable has a value.
    pub fn assign(&mut self, decision: Decision, level: u32) -> R<Set>
        requires { can_assign (plain N.Scores.score_of self.old) decision.derived_from level
            ≡ true }
        ensures answer { IfOk result
            (λ s.
            s
            ≡ set_for decision.value
            (value_in (plain N.Scores.score_of self.old).trail decision.variable.0)) }
        ensures store { OnOk result
            (Becomes N.Scores.score_of (with_decision decision level) self.old self.new) }
        ensures err { OnErr result (Stays N.Scores.score_of self.old self.new) }
        ensures refusal { IsOkUnless result Memory }
    {
        self.tracker.try_add_decision(decision, level)
    }

    /// The first registered clause that is falsified, by position.
    pub fn falsified(&self) -> Option<ClauseId>
        ensures { result ≡ broken_in (plain N.Scores.score_of self.now) }
    {
        self.queue.falsified(&self.lists, self.tracker.map())
    }

    /// The next decision, or none where no clause is eligible.
    pub fn next_decision(&mut self) -> R<Option<NextDecision>>
        requires { broken_in (plain N.Scores.score_of self.old) ≡ None }
        ensures answer { IfOk result (λ d. d ≡ picked_in (plain N.Scores.score_of self.old)) }
        ensures store { Stays N.Scores.score_of self.old self.new }
        ensures refusal { IsOkUnless result Memory }
    {
        self.queue.sync(&mut self.tracker)?;
        // split for the prover: error and answer
        let next = self
            .queue
            .next_decision(&self.lists, &self.tracker, &self.scores, 0)?;
        Ok(next)
    }

    /// Sets whether scores are bumped and decay as usual. If not, no pick ends early by their bound. No
    /// answer depends on it.
    pub fn set_standard_activity_params(&mut self, is_standard: bool)
        ensures { Stays N.Scores.score_of self.old self.new }
    {
        self.queue.set_standard_activity_params(is_standard);
    }

    /// Bumps a package's score, to the highest number at most.
    pub fn bump_name(&mut self, name: N, add: u64) -> R<()>
        ensures store { OnOk result
            (Becomes N.Scores.score_of (bumped N.eq name add) self.old self.new) }
        ensures err { OnErr result (Stays N.Scores.score_of self.old self.new) }
        ensures refusal { IsOkUnless result Memory }
    {
        let score = self.scores.get(name).saturating_add(add);
        self.queue.mark_name_hot(score);
        match self.scores.set(name, score) {
            Ok(()) => Ok(()),
            Err(_) => Err(Want::Memory),
        }
    }

    /// Decays each score to this number of millionths, rounded down.
    pub fn decay(&mut self, per_million: u64)
        requires { can_decay per_million ≡ true }
        ensures { Becomes N.Scores.score_of (decayed per_million) self.old self.new }
    {
        self.scores.scale(per_million);
    }

    /// Removes the last assignment. Returns it with the level of the one before it, or 0. None
    /// where the trail is empty.
    pub fn undo_last(&mut self) -> Option<(Decision, u32)>
        ensures answer { result ≡ last_undone (plain N.Scores.score_of self.old).trail }
        ensures store { Becomes N.Scores.score_of undone self.old self.new }
    {
        if self.tracker.stack().is_empty() {
            return None;
        }
        Some(self.tracker.undo_last())
    }

    /// Removes assignments from the end of the trail, up to the first that is not above a level.
    pub fn undo_until(&mut self, level: u32)
        ensures { Becomes N.Scores.score_of (undone_until level) self.old self.new }
    {
        self.tracker.undo_until(level);
    }
}

/// The versions of packages as candidates, package by package.
fn candidates_of<N: Copy + Drop>(
    alloc: Global,
    groups: &[(N, Vec<VariableId>)],
) -> R<Vec<Candidate<N>>>
    requires { list_all (λ g. list_all is_in_range g.1.items) groups.now ≡ true }
    ensures candidates { IfOk result (λ v. v.items ≡ candidates_from groups.now) }
    ensures refusal { IsOkUnless result Memory }
{
    let mut candidates = Vec::new(alloc);
    for (name, versions) in groups {
        push_versions(&mut candidates, *name, versions)?;
    }
    Ok(candidates)
}

/// Appends the versions of a package to the candidates.
fn push_versions<N: Copy + Drop>(
    candidates: &mut Vec<Candidate<N>>,
    name: N,
    versions: &[VariableId],
) -> R<()>
    requires { list_all is_in_range versions.now ≡ true }
    ensures pushed { OnOk result (candidates.new.items ≡ candidates.old.items
        ++ versions_of name versions.now) }
    ensures refusal { IsOkUnless result Memory }
{
    for version in versions {
        let literal = Literal::new(*version, false);
        candidates.push(Candidate {
            literal,
            package: name,
        })?;
    }
    Ok(())
}

/// Whether all these variables fit into literals.
fn are_in_range<N>(groups: &[(N, Vec<VariableId>)]) -> bool
    ensures { result ≡ list_all (λ g. list_all is_in_range g.1.items) groups.now }
{
    groups.iter().all(|group| are_all_in_range(&group.1))
}

fn are_all_in_range(variables: &[VariableId]) -> bool
    ensures { result ≡ list_all is_in_range variables.now }
{
    variables.iter().all(|variable| is_in_range(*variable))
}

/// Whether these are two different literals of the clause, if it watches any.
fn is_watchable<N: Copy>(
    clause: &Clause<N>,
    lists: &FixedLists<N>,
    watched: Option<WatchedLiterals>,
) -> bool
    requires { Fits lists.now clause.now }
    ensures { result ≡ can_watch (literals_of lists.now clause.now) watched }
{
    match watched {
        None => true,
        Some(pair) => {
            clause.has_literal(lists, pair.first)
                && clause.has_literal(lists, pair.second)
                && pair.first != pair.second
        }
    }
}

/// Adds a new clause to the lists of its two watched literals, if it has any.
fn begin(watches: &mut WatchMap, watched: &Option<WatchedLiterals>, clause: ClauseId) -> R<()>
    requires { (p : WatchedLiterals) → watched.now ≡ Some p
        → same_literal p.first p.second ≡ false }
    ensures lists { OnOk result
        ((l : Signed)
        → watchers watches.new l ≡ with_watcher clause.0 watched.now (watchers watches.old) l) }
    ensures fits { OnOk result
        ((pairs : List (Option WatchedLiterals))
        → IsWatched pairs (watchers watches.old)
        → clause.0 ≡ length pairs
        → IsWatched (pairs ++ watched.now ∷ []) (watchers watches.new)) }
    ensures err { OnErr result (SameLists (watchers watches.old) (watchers watches.new)) }
    ensures refusal { IsOkUnless result Memory }
{
    match watched {
        Some(pair) => watches.start_watching(*pair, clause),
        None => Ok(()),
    }
}
