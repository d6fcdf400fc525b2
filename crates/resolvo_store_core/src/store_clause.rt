//! Clauses as lists of literals, by the rule that each encodes.
//! A clause names its longer lists by ids and is read over `FixedLists`. Its meaning is its list of
//! literals (`literals_of`), one of which is true.
ghost use Rattle.std.specs.Prelude.{◌≡◌, ◌++◌, IfOk, IsOkUnless};
ghost use Rattle.std.specs.Option.{option_to_list};
ghost use Rattle.resolvo_pool_core.specs.declared.want.Want.TheVariants.{Memory};
ghost use Rattle.resolvo_store_core.specs.Signed.{value_under, has};
ghost use Rattle.resolvo_store_core.specs.Values.{value_at};
ghost use Rattle.resolvo_store_core.specs.Clauses.{literals_of, Fits, OwnInRange, is_binary_kind, is_own_in_range, has_lists, IsValueOf};
ghost use Rattle.resolvo_store_core.specs.ClauseParts.{own_literals_of, listed_literals_of, candidate_literals_of};
ghost use Rattle.resolvo_store_core.specs.ReadClause.{rest_of, listed, named};

use crate::decision_map::DecisionMap;
use crate::lists::{Candidate, FixedLists};
use crate::literal::{Literal, is_in_range};
use crate::literals::Literals;
use resolvo_pool_core::id::{DisjunctionId, LearntClauseId, StringId, VariableId, VersionSetId};
use resolvo_pool_core::requirement::Requirement;
use resolvo_pool_core::want::R;
use std::alloc::{AllocError, Global};

/// A clause, by the rule that it encodes. A variable represents a solvable or the root, or is a
/// helper. `N` is the type of package names.
#[derive(Debug)]
pub enum Clause<N> {
    /// The root is true.
    InstallRoot,
    /// The parent is false, or the condition doesn't hold, or one of the requirement's candidates
    /// is true.
    Requires(VariableId, Option<DisjunctionId>, Requirement),
    /// The variable is false, or the literal of its package's helper is true.
    ForbidMultipleInstances(VariableId, Literal, N),
    /// The parent is false, or the version outside its constraint is.
    Constrains(VariableId, VariableId, VersionSetId),
    /// The parent is false, or the helper of its constraint is.
    ConstrainsParent(VariableId, VariableId, VersionSetId),
    /// The version outside the constraint is false, or the helper of the constraint is true.
    ConstrainsExcluded(VariableId, VariableId, VersionSetId),
    /// Another version than the locked one, the first, is false.
    Lock(VariableId, VariableId),
    /// A clause learnt from a conflict.
    Learnt(LearntClauseId),
    /// The version is false, for the reason of this text.
    Excluded(VariableId, StringId),
    /// The version is false, or the helper that is true where some version of the package is
    /// chosen.
    AnyOf(VariableId, VariableId),
}

impl<N: Copy> Clone for Clause<N> {
    ghost is_clone = { λ x y. y ≡ x };

    ghost is_infallible = { λ _. Unit {0} };

    fn clone(&self) -> Result<Clause<N>, AllocError> {
        Ok(*self)
    }
}

impl<N: Copy> Copy for Clause<N> {}

impl<N: Copy + Drop> Clause<N> {
    /// Whether the lists that it names exist.
    pub fn has_lists(&self, lists: &FixedLists<N>) -> bool
        ensures { result ≡ has_lists lists.now self.now }
    {
        match *self {
            Clause::Requires(_, condition, requirement) => {
                lists.has_condition(condition) && lists.candidates(requirement).is_some()
            }
            Clause::Learnt(id) => lists.has_learnt(id),
            _ => true,
        }
    }
}

impl<N: Copy> Clause<N> {
    /// Whether this is of a kind that always has two literals.
    pub fn is_binary(&self) -> bool
        ensures { result ≡ is_binary_kind self.now }
    {
        matches!(
            self,
            Clause::ForbidMultipleInstances(..)
                | Clause::Constrains(..)
                | Clause::ConstrainsParent(..)
                | Clause::ConstrainsExcluded(..)
                | Clause::Lock(..)
                | Clause::AnyOf(..)
        )
    }

    /// Whether the variables that it names itself are in the range of literals.
    pub fn is_in_range(&self) -> bool
        ensures { result ≡ is_own_in_range self.now }
    {
        match *self {
            Clause::InstallRoot | Clause::Learnt(_) => true,
            Clause::Requires(variable, _, _)
            | Clause::ForbidMultipleInstances(variable, _, _)
            | Clause::Lock(_, variable)
            | Clause::Excluded(variable, _) => is_in_range(variable),
            Clause::Constrains(first, second, _)
            | Clause::ConstrainsParent(first, second, _)
            | Clause::ConstrainsExcluded(first, second, _)
            | Clause::AnyOf(first, second) => is_in_range(first) && is_in_range(second),
        }
    }

    /// Its literals, one after another.
    pub fn iter<'a>(&self, lists: &'a FixedLists<N>) -> Literals<'a, N>
        requires { Fits lists.now self.now }
        ensures { rest_of result ≡ literals_of lists.now self.now }
    {
        let (first, second) = self.own_literals();
        let listed = self.listed_literals(lists);
        let candidates = self.candidates(lists);
        Literals {
            first,
            second,
            listed,
            candidates,
        }
    }

    /// The literals that it names itself, two at most.
    fn own_literals(&self) -> (Option<Literal>, Option<Literal>)
        requires { OwnInRange self.now }
        ensures { option_to_list result.0 ++ option_to_list result.1 ≡ own_literals_of self.now }
    {
        match *self {
            Clause::InstallRoot => (Some(Literal::new(VariableId::root(), false)), None),
            Clause::Requires(parent, _, _) => (Some(Literal::new(parent, true)), None),
            Clause::ForbidMultipleInstances(variable, other, _) => {
                (Some(Literal::new(variable, true)), Some(other))
            }
            Clause::Constrains(parent, other, _) | Clause::ConstrainsParent(parent, other, _) => (
                Some(Literal::new(parent, true)),
                Some(Literal::new(other, true)),
            ),
            Clause::ConstrainsExcluded(excluded, helper, _) => (
                Some(Literal::new(excluded, true)),
                Some(Literal::new(helper, false)),
            ),
            Clause::Lock(_, other) => (
                Some(Literal::new(VariableId::root(), true)),
                Some(Literal::new(other, true)),
            ),
            Clause::Learnt(_) => (None, None),
            Clause::Excluded(variable, _) => (Some(Literal::new(variable, true)), None),
            Clause::AnyOf(helper, variable) => (
                Some(Literal::new(helper, false)),
                Some(Literal::new(variable, true)),
            ),
        }
    }

    /// Its list of literals, where it names one.
    fn listed_literals<'a>(&self, lists: &'a FixedLists<N>) -> Option<&'a [Literal]>
        requires { Fits lists.now self.now }
        ensures { listed result ≡ listed_literals_of lists.now self.now }
    {
        match *self {
            Clause::Requires(_, condition, _) => lists.condition(condition),
            Clause::Learnt(id) => Some(lists.learnt(id)),
            _ => None,
        }
    }

    /// Its candidates, where it names a requirement.
    fn candidates<'a>(&self, lists: &'a FixedLists<N>) -> Option<&'a [Candidate<N>]>
        requires { Fits lists.now self.now }
        ensures { named result ≡ candidate_literals_of lists.now self.now }
    {
        match *self {
            Clause::Requires(_, _, requirement) => lists.candidates(requirement),
            _ => None,
        }
    }

    /// Its literals, as a list.
    pub fn literals(&self, alloc: Global, lists: &FixedLists<N>) -> R<Vec<Literal>>
        requires { Fits lists.now self.now }
        ensures literals { IfOk result (λ v. v.items ≡ literals_of lists.now self.now) }
        ensures refusal { IsOkUnless result Memory }
    {
        let mut literals = Vec::new(alloc);
        for literal in self.iter(lists) {
            literals.push(literal)?;
        }
        Ok(literals)
    }

    /// Whether it contains a literal.
    pub fn has_literal(&self, lists: &FixedLists<N>, literal: Literal) -> bool
        requires { Fits lists.now self.now }
        ensures { result ≡ has (literals_of lists.now self.now) literal }
    {
        for own in self.iter(lists) {
            if own == literal {
                return true;
            }
        }
        false
    }

    /// Its value: true where a literal is true, false where all are false, else none.
    pub fn literals_eval(&self, lists: &FixedLists<N>, values: &DecisionMap) -> Option<bool>
        requires { Fits lists.now self.now }
        ensures { IsValueOf (value_under (value_at values.now)) (literals_of lists.now self.now)
            result }
    {
        let mut value = Some(false);
        for literal in self.iter(lists) {
            match literal.eval(values) {
                Some(true) => return Some(true),
                Some(false) => {}
                None => value = None,
            }
        }
        value
    }
}
