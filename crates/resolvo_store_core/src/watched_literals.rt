//! The two literals that a clause watches.
//! While neither of the two is false, the clause is neither unit nor falsified. Each kind of clause
//! has a constructor here, which returns the clause with its watched literals. A clause without two
//! different literals has none.
ghost use Rattle.std.specs.Prelude.{◌≡◌, ◌<◌, ◌||◌, ◌∷◌, [], Some, None, true, false, IfSome};
ghost use Rattle.resolvo_store_core.specs.Signed.{value_under};
ghost use Rattle.resolvo_store_core.specs.Values.{value_at};
ghost use Rattle.resolvo_store_core.specs.Lists.{learnt_in, learnt_count};
ghost use Rattle.resolvo_store_core.specs.Clauses.{literals_of, InRange, Fits};
ghost use Rattle.resolvo_store_core.specs.Watchable.{CanWatch, IsNext, IsSecond, HasFreeSecond, AreEnds};
ghost use Rattle.resolvo_store_core.specs.declared.lists.FixedLists.{FixedLists};
ghost use Rattle.resolvo_store_core.specs.declared.store_clause.Clause.{Clause};
ghost use Rattle.resolvo_store_core.specs.declared.store_clause.Clause.TheVariants as Kinds;
ghost use Rattle.resolvo_store_core.specs.Signed.{Signed, same_literal};
ghost use Rattle.resolvo_store_core.specs.Pairs.{other_of, moved_pair, watches, side_of};

use crate::decision_map::DecisionMap;
use crate::lists::FixedLists;
use crate::literal::Literal;
use crate::store_clause::Clause;
use resolvo_pool_core::id::{DisjunctionId, LearntClauseId, StringId, VariableId, VersionSetId};
use resolvo_pool_core::requirement::Requirement;

/// The two literals that a clause watches.
#[derive(Clone, Copy, Debug, PartialEq, Eq)]
pub struct WatchedLiterals {
    pub first: Literal,
    pub second: Literal,
}

/// Which of the two literals.
#[derive(Clone, Copy, Debug, PartialEq, Eq)]
pub enum Watch {
    First,
    Second,
}

impl WatchedLiterals {
    /// Whether the literal is one of the two.
    pub fn watches(&self, literal: Literal) -> bool
        ensures { result ≡ watches (Some self.now) literal }
    {
        self.first == literal || self.second == literal
    }

    /// Which of the two the literal is; the second, unless it is the first.
    pub fn watch_of(self, literal: Literal) -> Watch
        ensures { result ≡ side_of self literal }
    {
        if self.first == literal {
            Watch::First
        } else {
            Watch::Second
        }
    }

    /// The other one of the two.
    pub fn other(self, literal: Literal) -> Literal
        ensures { result ≡ other_of self literal }
    {
        if self.first == literal {
            self.second
        } else {
            self.first
        }
    }

    /// The two, with one literal in the place of another.
    pub fn moved(self, from: Literal, to: Literal) -> WatchedLiterals
        ensures { result ≡ moved_pair self from to }
    {
        if self.first == from {
            WatchedLiterals {
                first: to,
                second: self.second,
            }
        } else {
            WatchedLiterals {
                first: self.first,
                second: to,
            }
        }
    }
}

impl WatchedLiterals {
    /// Both literals, unless they are equal.
    fn of(first: Literal, second: Literal) -> Option<WatchedLiterals>
        ensures { CanWatch (first ∷ second ∷ []) result }
    {
        if first == second {
            None
        } else {
            Some(WatchedLiterals { first, second })
        }
    }

    /// The root is true. There is nothing to watch.
    pub fn root<N: Copy>() -> (Clause<N>, Option<WatchedLiterals>)
        ensures clause { result.0 ≡ Kinds.InstallRoot }
        ensures watch { result.1 ≡ None }
    {
        (Clause::InstallRoot, None)
    }

    /// A version is false. There is nothing to watch.
    pub fn exclude<N: Copy>(
        variable: VariableId,
        reason: StringId,
    ) -> (Clause<N>, Option<WatchedLiterals>)
        ensures clause { result.0 ≡ Kinds.Excluded variable reason }
        ensures watch { result.1 ≡ None }
    {
        (Clause::Excluded(variable, reason), None)
    }

    /// A version outside a constraint of the parent is false.
    pub fn constrains<N: Copy>(
        parent: VariableId,
        other: VariableId,
        via: VersionSetId,
    ) -> (Clause<N>, Option<WatchedLiterals>)
        requires parent { InRange parent }
        requires other { InRange other }
        ensures clause { result.0 ≡ Kinds.Constrains parent other via }
        ensures watch { (lists : FixedLists N) → CanWatch (literals_of lists result.0) result.1 }
    {
        let watched = WatchedLiterals::of(Literal::new(parent, true), Literal::new(other, true));
        (Clause::Constrains(parent, other, via), watched)
    }

    /// The helper of a constraint of the parent is false.
    pub fn constrains_parent<N: Copy>(
        parent: VariableId,
        helper: VariableId,
        via: VersionSetId,
    ) -> (Clause<N>, Option<WatchedLiterals>)
        requires parent { InRange parent }
        requires helper { InRange helper }
        ensures clause { result.0 ≡ Kinds.ConstrainsParent parent helper via }
        ensures watch { (lists : FixedLists N) → CanWatch (literals_of lists result.0) result.1 }
    {
        let watched = WatchedLiterals::of(Literal::new(parent, true), Literal::new(helper, true));
        (Clause::ConstrainsParent(parent, helper, via), watched)
    }

    /// A version outside a constraint makes the constraint's helper true.
    pub fn constrains_excluded<N: Copy>(
        excluded: VariableId,
        helper: VariableId,
        via: VersionSetId,
    ) -> (Clause<N>, Option<WatchedLiterals>)
        requires excluded { InRange excluded }
        requires helper { InRange helper }
        ensures clause { result.0 ≡ Kinds.ConstrainsExcluded excluded helper via }
        ensures watch { (lists : FixedLists N) → CanWatch (literals_of lists result.0) result.1 }
    {
        let watched = WatchedLiterals::of(
            Literal::new(excluded, true),
            Literal::new(helper, false),
        );
        (Clause::ConstrainsExcluded(excluded, helper, via), watched)
    }

    /// Another version than the locked one is false.
    pub fn lock<N: Copy>(
        locked: VariableId,
        other: VariableId,
    ) -> (Clause<N>, Option<WatchedLiterals>)
        requires { InRange other }
        ensures clause { result.0 ≡ Kinds.Lock locked other }
        ensures watch { (lists : FixedLists N) → CanWatch (literals_of lists result.0) result.1 }
    {
        let watched = WatchedLiterals::of(
            Literal::new(VariableId::root(), true),
            Literal::new(other, true),
        );
        (Clause::Lock(locked, other), watched)
    }

    /// A version fixes a helper of its package.
    pub fn forbid_multiple<N: Copy>(
        variable: VariableId,
        other: Literal,
        name: N,
    ) -> (Clause<N>, Option<WatchedLiterals>)
        requires { InRange variable }
        ensures clause { result.0 ≡ Kinds.ForbidMultipleInstances variable other name }
        ensures watch { (lists : FixedLists N) → CanWatch (literals_of lists result.0) result.1 }
    {
        let watched = WatchedLiterals::of(Literal::new(variable, true), other);
        (
            Clause::ForbidMultipleInstances(variable, other, name),
            watched,
        )
    }

    /// A version makes the helper of its package true.
    pub fn any_of<N: Copy>(
        helper: VariableId,
        variable: VariableId,
    ) -> (Clause<N>, Option<WatchedLiterals>)
        requires helper { InRange helper }
        requires variable { InRange variable }
        ensures clause { result.0 ≡ Kinds.AnyOf helper variable }
        ensures watch { (lists : FixedLists N) → CanWatch (literals_of lists result.0) result.1 }
    {
        let watched = WatchedLiterals::of(
            Literal::new(helper, false),
            Literal::new(variable, true),
        );
        (Clause::AnyOf(helper, variable), watched)
    }

    /// The need of a parent: where the condition holds, a candidate is true. It watches the parent
    /// and a literal beside it, one that is not false where there is one.
    pub fn needs<N: Copy>(
        lists: &FixedLists<N>,
        parent: VariableId,
        condition: Option<DisjunctionId>,
        requirement: Requirement,
        values: &DecisionMap,
    ) -> (Clause<N>, Option<WatchedLiterals>)
        requires { Fits lists.now (Kinds.Requires parent condition requirement) }
        ensures clause { result.0 ≡ Kinds.Requires parent condition requirement }
        ensures watch { CanWatch (literals_of lists.now result.0) result.1 }
        ensures free { IfSome result.1
            (HasFreeSecond (value_under (value_at values.now)) (literals_of lists.now result.0)) }
    {
        let clause = Clause::Requires(parent, condition, requirement);
        let first = Literal::new(parent, true);
        match second_to_watch(first, &clause, lists, values) {
            Some(second) => (clause, Some(WatchedLiterals { first, second })),
            None => (clause, None),
        }
    }

    /// A learnt clause. It watches its first and its last literal, which differ unless there is
    /// only one.
    pub fn learnt<N: Copy + Drop>(
        lists: &FixedLists<N>,
        id: LearntClauseId,
    ) -> (Clause<N>, Option<WatchedLiterals>)
        requires there { id.raw < learnt_count lists.now }
        requires ends { AreEnds (learnt_in lists.now id) }
        ensures clause { result.0 ≡ Kinds.Learnt id }
        ensures watch { CanWatch (literals_of lists.now result.0) result.1 }
    {
        (Clause::Learnt(id), ends_of(lists.learnt(id)))
    }

    /// A literal of the clause that is neither watched nor false, if there is one.
    pub fn next_unwatched_literal<N: Copy>(
        &self,
        clause: &Clause<N>,
        lists: &FixedLists<N>,
        values: &DecisionMap,
    ) -> Option<Literal>
        requires { Fits lists.now clause.now }
        ensures { IsNext (value_under (value_at values.now)) self.now
            (literals_of lists.now clause.now) result }
    {
        for literal in clause.iter(lists) {
            let is_watched = self.watches(literal);
            let is_false = literal.is_false(values);
            if !is_watched && !is_false {
                return Some(literal);
            }
        }
        None
    }
}

/// The first and the last of some literals, unless there is only one.
fn ends_of(literals: &[Literal]) -> Option<WatchedLiterals>
    requires { AreEnds literals.now }
    ensures { CanWatch literals.now result }
{
    let len = literals.len();
    if len < 2 {
        return None;
    }
    Some(WatchedLiterals {
        first: literals[0],
        second: literals[len - 1],
    })
}

/// A literal of the clause beside the first, one that is not false where there is one.
fn second_to_watch<N: Copy>(
    first: Literal,
    clause: &Clause<N>,
    lists: &FixedLists<N>,
    values: &DecisionMap,
) -> Option<Literal>
    requires { Fits lists.now clause.now }
    ensures { IsSecond (value_under (value_at values.now)) first (literals_of lists.now clause.now)
        result }
{
    let mut second = None;
    for literal in clause.iter(lists) {
        let is_first = literal == first;
        let is_false = literal.is_false(values);
        if !is_first {
            if !is_false {
                return Some(literal);
            }
            second = Some(literal);
        }
    }
    second
}
