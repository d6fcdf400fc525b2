//! What a version needs: a match of one version set or of one of several, perhaps under a
//! condition. A requirement is written as its alternatives, joined by ` | `. A map by requirement
//! is two mappings, and its model is the pair of theirs.
ghost use Rattle.std.specs.Prelude.{◌≡◌, None, Some, IfOk, OnOk, OnErr, IsErrOf, IsOkUnless, MatchOption};
ghost use Rattle.std.specs.Borrow.{sem};
ghost use Rattle.std.specs.Option.{option_copied, option_copied_mut};
ghost use Rattle.resolvo_pool_core.specs.declared.requirement.Requirement.{Requirement};
ghost use Rattle.resolvo_pool_core.specs.declared.want.Want.TheVariants.{Ids, Memory};
ghost use Rattle.resolvo_pool_core.specs.ByRequirement.{slot_of, PutsAt, index_in, lends_requirement, lends_made};
ghost use Rattle.resolvo_pool_core.specs.declared.requirement.Requirement.TheVariants.{Single, Union};
ghost use Rattle.std.specs.Fmt.{WritesOnOk};
ghost use Rattle.resolvo_pool_core.specs.Text.{requirement_text, set_text};

use crate::id::{ConditionId, VersionSetId, VersionSetUnionId};
use crate::mapping::Mapping;
use crate::provider::Interner;
use crate::want::R;
use std::alloc::Global;
use std::fmt;
use std::marker::Model;
use std::ops::Index;

/// A requirement: a match of one version set, or of one of several.
#[derive(Clone, Copy, Debug, PartialEq, Eq, PartialOrd, Ord, Hash)]
pub enum Requirement {
    Single(VersionSetId),
    Union(VersionSetUnionId),
}

/// A requirement that may have a condition.
#[derive(Clone, Copy, Debug, PartialEq, Eq, Hash)]
pub struct ConditionalRequirement {
    pub condition: Option<ConditionId>,
    pub requirement: Requirement,
}

impl Requirement {
    /// This requirement under a condition.
    pub fn with_condition(self, condition: ConditionId) -> ConditionalRequirement
        ensures { result ≡ record { condition = Some condition; requirement = self } }
    {
        ConditionalRequirement {
            condition: Some(condition),
            requirement: self,
        }
    }

    /// Writes each alternative as its package's name, a space and its version set.
    pub fn display<I: Interner>(self, interner: &I) -> DisplayRequirement<'_, I>
        ensures requirement { result.requirement ≡ self }
        ensures interner { result.interner.now ≡ interner.now }
    {
        DisplayRequirement {
            requirement: self,
            interner,
        }
    }
}

impl Default for Requirement {
    ghost is_default = { λ r. r ≡ Single (record { 0 = 0 }) };

    fn default() -> Requirement {
        Requirement::Single(VersionSetId(0))
    }
}

impl From<VersionSetId> for Requirement {
    ghost from_gives = { λ v r. r ≡ Single v };

    fn from(version_set: VersionSetId) -> Requirement {
        Requirement::Single(version_set)
    }
}

impl From<VersionSetUnionId> for Requirement {
    ghost from_gives = { λ u r. r ≡ Union u };

    fn from(union: VersionSetUnionId) -> Requirement {
        Requirement::Union(union)
    }
}

impl From<Requirement> for ConditionalRequirement {
    ghost from_gives = { λ q r. r ≡ record { condition = None; requirement = q } };

    fn from(requirement: Requirement) -> ConditionalRequirement {
        ConditionalRequirement {
            condition: None,
            requirement,
        }
    }
}

impl From<VersionSetId> for ConditionalRequirement {
    ghost from_gives = { λ v r. r ≡ record { condition = None; requirement = Single v } };

    fn from(version_set: VersionSetId) -> ConditionalRequirement {
        ConditionalRequirement::from(Requirement::from(version_set))
    }
}

impl From<VersionSetUnionId> for ConditionalRequirement {
    ghost from_gives = { λ u r. r ≡ record { condition = None; requirement = Union u } };

    fn from(union: VersionSetUnionId) -> ConditionalRequirement {
        ConditionalRequirement::from(Requirement::from(union))
    }
}

/// A requirement, to be written.
#[derive(Drop)]
pub struct DisplayRequirement<'a, I: Interner> {
    pub requirement: Requirement,
    pub interner: &'a I,
}

/// A version set after its package's name, to be written.
#[derive(Drop)]
struct DisplayAlternative<'a, I: Interner> {
    version_set: VersionSetId,
    interner: &'a I,
}

impl<I: Interner> fmt::Display for DisplayAlternative<'_, I> {
    ghost output = { λ d.
        Some
        (set_text (I.name_text d.interner.now) (I.version_set_text d.interner.now)
        (I.name_of_version_set d.interner.now) d.version_set) };

    fn fmt<W: fmt::Write>(&self, f: &mut fmt::Formatter<W>) -> fmt::Result {
        let name = self.interner.version_set_name(self.version_set);
        self.interner.display_name(name, f)?;
        f.write_str(" ")?;
        self.interner.display_version_set(self.version_set, f)
    }
}

impl<I: Interner> fmt::Display for DisplayRequirement<'_, I> {
    ghost output = { λ d.
        Some
        (requirement_text
        (set_text (I.name_text d.interner.now) (I.version_set_text d.interner.now)
        (I.name_of_version_set d.interner.now))
        (I.members_of d.interner.now) d.requirement) };

    fn fmt<W: fmt::Write>(&self, f: &mut fmt::Formatter<W>) -> fmt::Result {
        let interner = self.interner;
        match self.requirement {
            Requirement::Single(version_set) => {
                let alternative = DisplayAlternative {
                    version_set,
                    interner,
                };
                write!(f, "{alternative}")
            }
            Requirement::Union(union) => self.write_union(union, f),
        }
    }
}

impl<I: Interner> DisplayRequirement<'_, I> {
    /// Writes the version sets of a union, with a bar between each two.
    fn write_union<W: fmt::Write>(
        &self,
        union: VersionSetUnionId,
        f: &mut fmt::Formatter<W>,
    ) -> fmt::Result
        ensures { WritesOnOk W.write_str_gives f.old result
            (requirement_text
            (set_text (I.name_text self.now.interner.now)
            (I.version_set_text self.now.interner.now)
            (I.name_of_version_set self.now.interner.now))
            (I.members_of self.now.interner.now) (Union union))
            f.new }
    {
        let interner = self.interner;
        let sets = interner.version_sets_in_union(union);
        let Some((first, others)) = sets.split_first() else {
            return Ok(());
        };
        let alternative = DisplayAlternative {
            version_set: *first,
            interner,
        };
        write!(f, "{alternative}")?;
        for version_set in others {
            let alternative = DisplayAlternative {
                version_set: *version_set,
                interner,
            };
            write!(f, " | {alternative}")?;
        }
        Ok(())
    }
}

/// Values by requirement.
#[derive(Drop)]
pub struct RequirementMap<V> {
    single: Mapping<VersionSetId, V>,
    union: Mapping<VersionSetUnionId, V>,
}

impl<V> Model for RequirementMap<V> {
    ghost use Rattle.std.specs.Prelude.{List, Option};

    ghost Value = { List (Option V) × List (Option V) };

    ghost view = { λ m. (m.single, m.union) };
}

impl<V: Drop> RequirementMap<V> {
    /// An empty map.
    pub fn new(alloc: Global) -> R<RequirementMap<V>>
        ensures empty { IfOk result (λ m. (r : Requirement) → slot_of m r ≡ None) }
        ensures refusal { IsOkUnless result Memory }
    {
        Ok(RequirementMap {
            single: Mapping::new(alloc)?,
            union: Mapping::new(alloc)?,
        })
    }

    /// The value of a requirement.
    pub fn get(&self, requirement: Requirement) -> Option<&V>
        ensures { option_copied result ≡ slot_of self.now requirement }
    {
        match requirement {
            Requirement::Single(id) => self.single.get(id),
            Requirement::Union(id) => self.union.get(id),
        }
    }

    /// A mutable reference to the value of a requirement.
    pub fn get_mut(&mut self, requirement: Requirement) -> Option<&mut V>
        ensures* writes_back { sem 𝓛 (lends_requirement V.row self.entry requirement result) }
        ensures value { option_copied_mut result ≡ slot_of self.old requirement }
    {
        match requirement {
            Requirement::Single(id) => self.single.get_mut(id),
            Requirement::Union(id) => self.union.get_mut(id),
        }
    }

    /// Inserts a value, and returns the previous one.
    pub fn insert(&mut self, requirement: Requirement, value: V) -> R<Option<V>>
        ensures old { IfOk result (λ old. old ≡ slot_of self.old requirement) }
        ensures put { OnOk result (PutsAt self.old self.new requirement value) }
        ensures err { OnErr result (self.new ≡ self.old) }
        ensures ids { IsErrOf result Ids → index_in requirement ≡ 4294967295 }
    {
        match requirement {
            Requirement::Single(id) => self.single.insert(id, value),
            Requirement::Union(id) => self.union.insert(id, value),
        }
    }
}

impl<V: Drop> RequirementMap<V> {
    /// A mutable reference to the value of a requirement, which `make` creates where there is none.
    pub fn get_or_insert_with<F: FnOnce() -> V>(
        &mut self,
        requirement: Requirement,
        make: F,
    ) -> R<&mut V>
    where
        F: Drop,
        requires { F.IsAlwaysCallable make }
        ensures* writes_back { sem 𝓛 (lends_made V.row self.entry requirement result) }
        ensures value { IfOk result
            (λ r. MatchOption (slot_of self.old requirement) (F.post make r.now) (λ v. r.now ≡ v)) }
        ensures ids { IsErrOf result Ids → index_in requirement ≡ 4294967295 }
    {
        match requirement {
            Requirement::Single(id) => self.single.get_or_insert_with(id, make),
            Requirement::Union(id) => self.union.get_or_insert_with(id, make),
        }
    }
}

impl<V: Drop> Index<Requirement> for RequirementMap<V> {
    ghost use Rattle.std.specs.Prelude.{◌≡◌, IsSome, Some};
    ghost use Rattle.resolvo_pool_core.specs.ByRequirement.{slot_of};

    type Output = V;

    ghost can_index = { λ m r. IsSome (slot_of m r) };

    ghost index_gives = { λ m r v. slot_of m r ≡ Some v };

    fn index(&self, requirement: Requirement) -> &V {
        self.get(requirement).unwrap()
    }
}
