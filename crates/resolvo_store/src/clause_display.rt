//! Clauses and variables as texts, with the names of the variables' origins.
//! The texts are for traces of a search. A variable has its number too, since auxiliary variables
//! share names.
ghost use Rattle.std.specs.Prelude.{◌≡◌, ◌++◌, Some, codes};
ghost use Rattle.std.specs.Fmt.{WritesOnOk};
ghost use Rattle.resolvo_store.specs.ClauseText.{meaning_by, origin_words, variable_words, case_words, need_words, forbid_words, limit_words, pair_words, excluded_words, clause_words};

use crate::variable_map::{VariableMap, VariableOrigin};
use resolvo_pool_core::id::{DisjunctionId, StringId, VariableId, VersionSetId};
use resolvo_pool_core::provider::Interner;
use resolvo_pool_core::requirement::{DisplayRequirement, Requirement};
use resolvo_store_core::literal::Literal;
use resolvo_store_core::store_clause::Clause;
use std::fmt;

/// A clause, to be written: its kind, and its arguments in brackets. A condition's case and a
/// learnt clause are written as numbers.
#[derive(Drop)]
pub struct ClauseDisplay<'a, I: Interner> {
    pub clause: Clause<I::NameId>,
    pub variable_map: &'a VariableMap<I::NameId, I::SolvableId>,
    pub interner: &'a I,
}

/// A variable, to be written: its origin and its number. One that isn't in the map is `unknown`.
#[derive(Drop)]
pub struct VariableDisplay<'a, I: Interner> {
    pub variable: VariableId,
    pub variable_map: &'a VariableMap<I::NameId, I::SolvableId>,
    pub interner: &'a I,
}

impl<I: Interner> fmt::Display for ClauseDisplay<'_, I> {
    ghost output = { λ d.
        Some
        (clause_words
        (meaning_by I.Interner d.interner.now)
        d.variable_map.now d.clause) };

    fn fmt<W: fmt::Write>(&self, f: &mut fmt::Formatter<W>) -> fmt::Result {
        match self.clause {
            Clause::InstallRoot => f.write_str("InstallRoot"),
            Clause::Requires(parent, condition, requirement) => {
                self.write_need(parent, condition, requirement, f)
            }
            Clause::ForbidMultipleInstances(variable, other, name) => {
                self.write_forbid(variable, other, name, f)
            }
            Clause::Constrains(parent, other, via) => {
                self.write_limit("Constrains", parent, other, via, f)
            }
            Clause::ConstrainsParent(parent, helper, via) => {
                self.write_limit("ConstrainsParent", parent, helper, via, f)
            }
            Clause::ConstrainsExcluded(excluded, helper, via) => {
                self.write_limit("ConstrainsExcluded", excluded, helper, via, f)
            }
            Clause::Lock(locked, other) => self.write_pair("Lock", locked, other, f),
            Clause::Learnt(id) => {
                let number = id.into_raw();
                write!(f, "Learnt(LearntClauseId({number}))")
            }
            Clause::Excluded(variable, reason) => self.write_excluded(variable, reason, f),
            Clause::AnyOf(helper, variable) => self.write_pair("AnyOf", helper, variable, f),
        }
    }
}

impl<I: Interner> ClauseDisplay<'_, I> {
    /// A variable, to be written.
    fn variable(&self, variable: VariableId) -> VariableDisplay<'_, I>
        ensures variable { result.variable ≡ variable }
        ensures map { result.variable_map.now ≡ self.now.variable_map.now }
        ensures interner { result.interner.now ≡ self.now.interner.now }
    {
        VariableDisplay {
            variable,
            variable_map: self.variable_map,
            interner: self.interner,
        }
    }

    /// Writes a need: its parent, its requirement, and the case of its condition.
    fn write_need<W: fmt::Write>(
        &self,
        parent: VariableId,
        condition: Option<DisjunctionId>,
        requirement: Requirement,
        f: &mut fmt::Formatter<W>,
    ) -> fmt::Result
        ensures { WritesOnOk W.write_str_gives f.old result
            (need_words
            (meaning_by I.Interner self.now.interner.now)
            self.now.variable_map.now parent condition requirement)
            f.new }
    {
        let parent = self.variable(parent);
        let requirement = DisplayRequirement {
            requirement,
            interner: self.interner,
        };
        let case = CaseDisplay { condition };
        write!(f, "Requires({parent}, {requirement}{case})")
    }

    /// Writes a variable with the literal of a digit, and their package.
    fn write_forbid<W: fmt::Write>(
        &self,
        variable: VariableId,
        other: Literal,
        name: I::NameId,
        f: &mut fmt::Formatter<W>,
    ) -> fmt::Result
        ensures { WritesOnOk W.write_str_gives f.old result
            (forbid_words
            (meaning_by I.Interner self.now.interner.now)
            self.now.variable_map.now variable other name)
            f.new }
    {
        let sign = if other.satisfying_value() { "" } else { "not " };
        let variable = self.variable(variable);
        let other = self.variable(other.variable());
        let name = NameDisplay {
            name,
            interner: self.interner,
        };
        write!(
            f,
            "ForbidMultipleInstances({variable}, {sign}{other}, {name})"
        )
    }

    /// Writes a kind with two variables and their version set.
    fn write_limit<W: fmt::Write>(
        &self,
        kind: &str,
        first: VariableId,
        second: VariableId,
        via: VersionSetId,
        f: &mut fmt::Formatter<W>,
    ) -> fmt::Result
        ensures { WritesOnOk W.write_str_gives f.old result
            (kind.now ++ limit_words
            (meaning_by I.Interner self.now.interner.now)
            self.now.variable_map.now first second via)
            f.new }
    {
        let first = self.variable(first);
        let second = self.variable(second);
        let set = VersionSetDisplay {
            version_set: via,
            interner: self.interner,
        };
        write!(f, "{kind}({first}, {second}, {set})")
    }

    /// Writes a kind with two variables.
    fn write_pair<W: fmt::Write>(
        &self,
        kind: &str,
        first: VariableId,
        second: VariableId,
        f: &mut fmt::Formatter<W>,
    ) -> fmt::Result
        ensures { WritesOnOk W.write_str_gives f.old result
            (kind.now ++ pair_words
            (meaning_by I.Interner self.now.interner.now)
            self.now.variable_map.now first second)
            f.new }
    {
        let first = self.variable(first);
        let second = self.variable(second);
        write!(f, "{kind}({first}, {second})")
    }

    /// Writes a variable with the reason of its exclusion.
    fn write_excluded<W: fmt::Write>(
        &self,
        variable: VariableId,
        reason: StringId,
        f: &mut fmt::Formatter<W>,
    ) -> fmt::Result
        ensures { WritesOnOk W.write_str_gives f.old result
            (excluded_words
            (meaning_by I.Interner self.now.interner.now)
            self.now.variable_map.now variable reason)
            f.new }
    {
        let variable = self.variable(variable);
        let reason = StringDisplay {
            string: reason,
            interner: self.interner,
        };
        write!(f, "Excluded({variable}, {reason})")
    }
}

impl<I: Interner> fmt::Display for VariableDisplay<'_, I> {
    ghost output = { λ d.
        Some
        (variable_words
        (meaning_by I.Interner d.interner.now)
        d.variable_map.now d.variable) };

    fn fmt<W: fmt::Write>(&self, f: &mut fmt::Formatter<W>) -> fmt::Result {
        let origin = OriginDisplay {
            origin: self.variable_map.find_origin(self.variable),
            interner: self.interner,
        };
        let number = self.variable.0;
        write!(f, "{origin}(VariableId({number}))")
    }
}

/// The origin of a variable, if there is one, to be written.
#[derive(Drop)]
struct OriginDisplay<'a, I: Interner> {
    origin: Option<VariableOrigin<I::NameId, I::SolvableId>>,
    interner: &'a I,
}

impl<I: Interner> fmt::Display for OriginDisplay<'_, I> {
    ghost output = { λ d.
        Some
        (origin_words
        (meaning_by I.Interner d.interner.now)
        d.origin) };

    fn fmt<W: fmt::Write>(&self, f: &mut fmt::Formatter<W>) -> fmt::Result {
        let interner = self.interner;
        match self.origin {
            None => f.write_str("unknown"),
            Some(VariableOrigin::Root) => f.write_str("root"),
            Some(VariableOrigin::Solvable(solvable)) => interner.display_solvable(solvable, f),
            Some(VariableOrigin::ForbidMultiple(name)) => {
                let name = NameDisplay { name, interner };
                write!(f, "forbid-multiple({name})")
            }
            Some(VariableOrigin::AtLeastOne(name)) => {
                let name = NameDisplay { name, interner };
                write!(f, "any-of({name})")
            }
            Some(VariableOrigin::ConstrainsViolation(version_set)) => {
                let set = Requirement::Single(version_set).display(interner);
                write!(f, "constrains-violation({set})")
            }
            Some(VariableOrigin::RequiresGate(requirement)) => {
                let requirement = requirement.display(interner);
                write!(f, "requires-gate({requirement})")
            }
            Some(VariableOrigin::Matches(version_set)) => {
                let set = Requirement::Single(version_set).display(interner);
                write!(f, "matches({set})")
            }
        }
    }
}

/// The number of a condition's case, if there is a condition, to be written.
#[derive(Drop)]
struct CaseDisplay {
    condition: Option<DisjunctionId>,
}

impl fmt::Display for CaseDisplay {
    ghost output = { λ d. Some (case_words d.condition) };

    fn fmt<W: fmt::Write>(&self, f: &mut fmt::Formatter<W>) -> fmt::Result {
        match self.condition {
            Some(id) => {
                let number = id.into_raw();
                write!(f, ", DisjunctionId({number})")
            }
            None => Ok(()),
        }
    }
}

/// A package's name, to be written.
#[derive(Drop)]
struct NameDisplay<'a, I: Interner> {
    name: I::NameId,
    interner: &'a I,
}

impl<I: Interner> fmt::Display for NameDisplay<'_, I> {
    ghost output = { λ d. Some (I.name_text d.interner.now d.name) };

    fn fmt<W: fmt::Write>(&self, f: &mut fmt::Formatter<W>) -> fmt::Result {
        self.interner.display_name(self.name, f)
    }
}

/// A version set without its package, to be written.
#[derive(Drop)]
struct VersionSetDisplay<'a, I: Interner> {
    version_set: VersionSetId,
    interner: &'a I,
}

impl<I: Interner> fmt::Display for VersionSetDisplay<'_, I> {
    ghost output = { λ d. Some (I.version_set_text d.interner.now d.version_set) };

    fn fmt<W: fmt::Write>(&self, f: &mut fmt::Formatter<W>) -> fmt::Result {
        self.interner.display_version_set(self.version_set, f)
    }
}

/// The text of an id, to be written.
#[derive(Drop)]
struct StringDisplay<'a, I: Interner> {
    string: StringId,
    interner: &'a I,
}

impl<I: Interner> fmt::Display for StringDisplay<'_, I> {
    ghost output = { λ d. Some (I.string_text d.interner.now d.string) };

    fn fmt<W: fmt::Write>(&self, f: &mut fmt::Formatter<W>) -> fmt::Result {
        self.interner.display_string(self.string, f)
    }
}
