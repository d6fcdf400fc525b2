//! The numbers of packages, SPECs, lists of alternatives, conditions and words.
//! The model is one list of each, in the order of first naming; `specs/Terms.antt` has the text of
//! each number. No choice of names makes it slow to find a number: hashes that collide are sorted.

ghost use Rattle.std.specs.Prelude.{◌≡◌, ◌<◌, ◌≤◌, ◌+◌, ◌*◌, ◌++◌, ◌∷◌, [], if◌then◌else◌, ℕ, List, bytes_eq, IfOk, IfSome, IsErrOf, OnOk, OnErr, length, map, slice_get, Some, None, true};
ghost use Rattle.std.specs.Bool.{Decides};
ghost use Rattle.std.specs.Option.{option_copied, option_map};
ghost use Rattle.std.specs.String.{string_bytes};
ghost use Rattle.resolvo_text.specs.View.{spec_of, specs_of, cond_of, condition_of};
ghost use Rattle.resolvo_text.specs.Line.{Is};
ghost use Rattle.resolvo_text.specs.declared.spec.Span.TheVariants.{Any};
ghost use Rattle.resolvo_text.specs.Parse.{name_in};
ghost use Rattle.resolvo_text.specs.Spelling.{is_name};
ghost use Rattle.resolvo_pool_core.specs.declared.condition.Condition.TheVariants.{Binary};
ghost use Rattle.resolvo_pool_core.specs.Provider.{OperandsBelow};
ghost use Rattle.resolvo_pool_core.specs.declared.want.Want.TheVariants.{Ids};
ghost use Rattle.resolvo_terms.specs.Terms.{AreOnce, AreEach, Grows, AreSound, LacksNumber, IsPackage, IsWord, IsSpec, AreAlternatives, IsCondition, IsConditionOf, IsNeed};
ghost use Rattle.resolvo_terms.specs.TermCounts.{term_count, ids_for_condition, ids_for_need};
ghost use Rattle.resolvo_terms.specs.Reads.{Reads};
ghost use Rattle.resolvo_terms.specs.Found.{set_key, condition_key};

use crate::key_index::{HasKey, Key};
use crate::names::Names;
use crate::numbered::Numbered;
use crate::text_ids::TextIds;
use crate::unions::Unions;
use resolvo_intern::pool::VersionSet;
use resolvo_pool_core::condition::{Condition, LogicalOperator};
use resolvo_pool_core::id::{
    ConditionId, DenseIndex, NameId, StringId, VersionSetId, VersionSetUnionId, next_index,
};
use resolvo_pool_core::requirement::{ConditionalRequirement, Requirement};
use resolvo_pool_core::want::R;
use resolvo_text::{Cond, LineFault, Span, Spec};
use std::alloc::{AllocError, Global};
use std::marker::Model;

/// The numbers that a SPEC asks for, as a version set of its package.
#[derive(Clone, Copy, Debug, Drop, PartialEq, Eq, Hash)]
pub struct Numbers(pub Span);

impl VersionSet for Numbers {
    type V = u32;
}

impl HasKey for (NameId, Numbers) {
    ghost key_of = { set_key };

    fn key(&self) -> Key {
        match self.1.0 {
            Span::Any => (self.0.into_raw(), 0, 0, 0),
            Span::One(number) => (self.0.into_raw(), 1, number, 0),
            Span::Range(low, high) => (self.0.into_raw(), 2, low, high),
        }
    }
}

impl HasKey for Condition {
    ghost key_of = { condition_key };

    fn key(&self) -> Key {
        match *self {
            Condition::Requirement(version_set) => (0, version_set.0, 0, 0),
            Condition::Binary(LogicalOperator::And, left, right) => (1, left.0, right.0, 0),
            Condition::Binary(LogicalOperator::Or, left, right) => (2, left.0, right.0, 0),
        }
    }
}

/// For a package whose set of all versions has no number yet.
const NO_SET: u32 = u32::MAX;

/// The numbered values.
pub struct Terms {
    names: Names,
    words: TextIds,
    version_sets: Numbered<(NameId, Numbers)>,
    unions: Unions,
    conditions: Numbered<Condition>,
    /// For each package the number of the version set of all its versions, or `NO_SET`.
    wholes: Vec<u32>,
    pub(crate) alloc: Global,
}

// split for the prover: one drop
impl Drop for Terms {
    fn drop(self) {
        let Terms {
            names: _,
            words: _,
            version_sets: _,
            unions: _,
            conditions: _,
            wholes: _,
            alloc: _,
        } = self;
    }
}

impl Model for Terms {
    ghost use Rattle.resolvo_terms.specs.Terms.{Terms};
    ghost use Rattle.resolvo_terms.specs.Found.{AreKept, AreWholes};

    ghost Value = { Terms };

    ghost view = { λ t.
        record {
          names = t.names;
          words = t.words;
          version_sets = t.version_sets.values.items;
          unions = t.unions;
          conditions = t.conditions.values.items;
        } };

    ghost invariant = { λ t.
        AreKept t.version_sets.values.items t.version_sets.index
        t.unions t.conditions.values.items t.conditions.index
        × AreWholes t.wholes.items t.version_sets.values.items };
}

impl Terms {
    /// An empty table.
    pub fn new(alloc: Global) -> Result<Terms, AllocError>
        ensures { IfOk result (λ t. t
            ≡ record
            { names = []; words = []; version_sets = []; unions = []; conditions = [] }) }
    {
        Ok(Terms {
            names: Names::new(alloc)?,
            words: TextIds::new(alloc)?,
            version_sets: Numbered::new(alloc)?,
            unions: Unions::new(alloc)?,
            conditions: Numbered::new(alloc)?,
            wholes: Vec::new(alloc),
            alloc,
        })
    }

    /// The same values with the same numbers.
    pub fn copy(&self, alloc: Global) -> Result<Terms, AllocError>
        ensures { IfOk result (λ t. t ≡ self.now) }
    {
        Ok(Terms {
            names: self.names.copy(alloc)?,
            words: self.words.copy(alloc)?,
            version_sets: self.version_sets.copy(alloc)?,
            unions: self.unions.copy(alloc)?,
            conditions: self.conditions.copy(alloc)?,
            wholes: Vec::new(alloc),
            alloc,
        })
    }

    /// The id of a package.
    pub fn package(&mut self, name: &str) -> R<NameId>
        ensures package { IfOk result (λ n. IsPackage self.new n name.now) }
        ensures grows { Grows self.old self.new }
        ensures few { term_count self.new ≤ term_count self.old + 1 }
        ensures ids { IsErrOf result Ids → LacksNumber self.new }
    {
        Ok(NameId::from_raw(self.names.intern(self.alloc, name)?))
    }

    /// The id of the package that a word names.
    pub(crate) fn package_in(&mut self, word: &[u8]) -> Result<NameId, LineFault>
        ensures package { Reads (IsPackage self.new) result (name_in word.now) }
        ensures grows { Grows self.old self.new }
        ensures few { term_count self.new ≤ term_count self.old + 1 }
    {
        Ok(NameId::from_raw(self.names.read(self.alloc, word)?))
    }

    /// The same for the package of a version.
    pub(crate) fn listed_package(&mut self, word: &[u8]) -> Result<NameId, LineFault>
        ensures package { Reads (IsPackage self.new) result (name_in word.now) }
        ensures grows { Grows self.old self.new }
        ensures few { term_count self.new ≤ term_count self.old + 1 }
    {
        Ok(NameId::from_raw(self.names.read_listed(self.alloc, word)?))
    }

    /// The id of the package that a word names, if it is known to be a name.
    pub(crate) fn known_package(&self, word: &[u8]) -> Option<NameId>
        ensures package { IfSome result (λ n. IsPackage self.now n word.now) }
        ensures name { IfSome result (λ n. is_name word.now ≡ true) }
    {
        let number = self.names.known(word)?;
        Some(NameId::from_raw(number))
    }

    /// The id of a word of reason.
    pub fn word(&mut self, word: &str) -> R<StringId>
        ensures word { IfOk result (λ w. IsWord self.new w word.now) }
        ensures grows { Grows self.old self.new }
        ensures few { term_count self.new ≤ term_count self.old + 1 }
        ensures ids { IsErrOf result Ids → LacksNumber self.new }
    {
        Ok(StringId(self.words.intern(self.alloc, word)?))
    }

    /// The id of a SPEC.
    #[tactic(auto, using(crate::proofs::GrowLemmas::grows_on))]
    pub fn spec(&mut self, spec: &Spec) -> R<VersionSetId>
        ensures spec { IfOk result (λ v. IsSpec self.new v (spec_of spec.now)) }
        ensures grows { Grows self.old self.new }
        ensures few { term_count self.new ≤ term_count self.old + 2 }
        ensures ids { IsErrOf result Ids → LacksNumber self.new }
    {
        let package = self.package(spec.name.as_str())?;
        self.version_set(package, spec.span)
    }

    /// The id of a span of a package.
    pub(crate) fn version_set(&mut self, name: NameId, span: Span) -> R<VersionSetId>
        ensures version_set { IfOk result
            (λ v. slice_get self.new.version_sets v.0 ≡ Some (name, record { 0 = span })) }
        ensures grows { Grows self.old self.new }
        ensures few { term_count self.new ≤ term_count self.old + 1 }
        ensures ids { IsErrOf result Ids → LacksNumber self.new }
    {
        match span {
            Span::Any => self.whole_set(name),
            _ => self.keyed_set(name, span),
        }
    }

    /// The id of all versions of a package.
    #[tactic(auto, using(crate::proofs::GrowLemmas::grows_own))]
    fn whole_set(&mut self, name: NameId) -> R<VersionSetId>
        ensures version_set { IfOk result
            (λ v. slice_get self.new.version_sets v.0 ≡ Some (name, record { 0 = Any })) }
        ensures grows { Grows self.old self.new }
        ensures few { term_count self.new ≤ term_count self.old + 1 }
        ensures ids { IsErrOf result Ids → LacksNumber self.new }
    {
        if let Some(id) = self.known_whole(name) {
            return Ok(id);
        }
        let id = self.keyed_set(name, Span::Any)?;
        self.remember(name, id)?;
        Ok(id)
    }

    /// The id of all versions of a package, if it was asked for.
    pub(crate) fn known_whole(&self, name: NameId) -> Option<VersionSetId>
        ensures { IfSome result
            (λ v. slice_get self.now.version_sets v.0 ≡ Some (name, record { 0 = Any })) }
    {
        let number = *self.wholes.get(name.to_index())?;
        if number < NO_SET {
            Some(VersionSetId(number))
        } else {
            None
        }
    }

    /// Keeps the id of all versions of a package.
    fn remember(&mut self, name: NameId, set: VersionSetId) -> Result<(), AllocError>
        requires { slice_get self.old.version_sets set.0 ≡ Some (name, record { 0 = Any }) }
        ensures { self.new ≡ self.old }
    {
        let at = name.to_index();
        if at >= self.names.len() {
            return Ok(());
        }
        lengthen(&mut self.wholes, at + 1)?;
        if let Some(number) = self.wholes.get_mut(at) {
            *number = set.0;
        }
        Ok(())
    }

    /// The id of a span of a package, by its key.
    #[tactic(auto, using(crate::proofs::FoundLemmas::sets_exact, crate::proofs::FoundLemmas::sets_more, crate::proofs::KeyedLemmas::more_length))]
    fn keyed_set(&mut self, name: NameId, span: Span) -> R<VersionSetId>
        ensures version_set { IfOk result
            (λ v. slice_get self.new.version_sets v.0 ≡ Some (name, record { 0 = span })) }
        ensures grows { Grows self.old self.new }
        ensures few { term_count self.new ≤ term_count self.old + 1 }
        ensures ids { IsErrOf result Ids → LacksNumber self.new }
    {
        let id = self.version_sets.intern((name, Numbers(span)))?;
        Ok(VersionSetId(id))
    }

    /// The ids of SPECs, in order.
    fn specs(&mut self, specs: &[Spec]) -> R<Vec<VersionSetId>>
        ensures specs { IfOk result (λ vs. AreEach (IsSpec self.new) vs.items (specs_of specs.now)) }
        ensures grows { Grows self.old self.new }
        ensures few { term_count self.new ≤ term_count self.old + 2 * length specs.now }
        ensures ids { IsErrOf result Ids → LacksNumber self.new }
    {
        let mut ids = Vec::new(self.alloc);
        for spec in specs {
            ids.push(self.spec(spec)?)?;
        }
        Ok(ids)
    }

    /// The id of a list of SPECs, none or at least two.
    #[tactic(auto, using(crate::proofs::KeyedLemmas::more_length))]
    pub(crate) fn union(&mut self, members: Vec<VersionSetId>) -> R<VersionSetUnionId>
        requires several { (v : VersionSetId) → members.items ≡ v ∷ [] → ⊥ }
        ensures union { IfOk result (λ u. slice_get self.new.unions u.0 ≡ Some members.items) }
        ensures grows { Grows self.old self.new }
        ensures few { term_count self.new ≤ term_count self.old + 1 }
        ensures ids { IsErrOf result Ids → LacksNumber self.new }
    {
        let id = self.unions.intern(self.alloc, &members)?;
        Ok(VersionSetUnionId(id))
    }

    /// The requirement that one of the alternatives is matched.
    #[tactic(auto, using(crate::proofs::GrowLemmas::grows_on, crate::proofs::GrowLemmas::specs_stay))]
    pub fn alternatives(&mut self, alternatives: &[Spec]) -> R<Requirement>
        ensures alternatives { IfOk result (λ r. AreAlternatives self.new r (specs_of alternatives.now)) }
        ensures grows { Grows self.old self.new }
        ensures few { term_count self.new ≤ term_count self.old + 2 * length alternatives.now + 1 }
        ensures ids { IsErrOf result Ids → LacksNumber self.new }
    {
        if let [only] = alternatives {
            return Ok(Requirement::Single(self.spec(only)?));
        }
        let members = self.specs(alternatives)?;
        Ok(Requirement::Union(self.union(members)?))
    }

    /// The id of the condition that a SPEC is met.
    #[tactic(auto, using(crate::proofs::GrowLemmas::spec_stays, crate::proofs::GrowLemmas::grows_on))]
    fn condition_of_spec(&mut self, spec: &Spec) -> R<ConditionId>
        ensures condition { IfOk result (λ c. IsCondition self.new c (Is (spec_of spec.now))) }
        ensures grows { Grows self.old self.new }
        ensures few { term_count self.new ≤ term_count self.old + 3 }
        ensures ids { IsErrOf result Ids → LacksNumber self.new }
    {
        let version_set = self.spec(spec)?;
        self.intern_condition(Condition::Requirement(version_set))
    }

    #[tactic(auto, using(crate::proofs::FoundLemmas::conditions_exact, crate::proofs::FoundLemmas::conditions_same, crate::proofs::KeyedLemmas::more_length))]
    pub(crate) fn intern_condition(&mut self, condition: Condition) -> R<ConditionId>
        requires { OperandsBelow condition (record { 0 = length self.old.conditions }) }
        ensures condition { IfOk result (λ c. slice_get self.new.conditions c.0 ≡ Some condition) }
        ensures grows { Grows self.old self.new }
        ensures few { term_count self.new ≤ term_count self.old + 1 }
        ensures ids { IsErrOf result Ids → LacksNumber self.new }
    {
        let id = self.conditions.intern(condition)?;
        Ok(ConditionId(id))
    }

    /// The id of a condition, whose operands are interned first.
    #[tactic(auto, using(crate::proofs::GrowLemmas::grows_on, crate::proofs::GrowLemmas::condition_stays, crate::proofs::GrowLemmas::condition_within))]
    pub fn condition(&mut self, condition: &Cond) -> R<ConditionId>
        ensures condition { IfOk result (λ c. IsCondition self.new c (cond_of condition.now)) }
        ensures grows { Grows self.old self.new }
        ensures few { term_count self.new ≤ term_count self.old + ids_for_condition (cond_of condition.now) }
        ensures ids { IsErrOf result Ids → LacksNumber self.new }
    {
        match condition {
            Cond::Spec(spec) => self.condition_of_spec(spec),
            Cond::And(left, right) => {
                let left = self.condition(left)?;
                let right = self.condition(right)?;
                self.join(LogicalOperator::And, left, right)
            }
            Cond::Or(left, right) => {
                let left = self.condition(left)?;
                let right = self.condition(right)?;
                self.join(LogicalOperator::Or, left, right)
            }
        }
    }

    /// The id of two conditions that are joined.
    pub(crate) fn join(
        &mut self,
        operator: LogicalOperator,
        left: ConditionId,
        right: ConditionId,
    ) -> R<ConditionId>
        requires left { left.0 < length self.old.conditions }
        requires right { right.0 < length self.old.conditions }
        // After an answer.
        ensures joined { IfOk result
            (λ c. slice_get self.new.conditions c.0 ≡ Some (Binary operator left right)) }
        // Whatever the answer.
        ensures grows { Grows self.old self.new }
        ensures few { term_count self.new ≤ term_count self.old + 1 }
        // After a refusal.
        ensures ids { IsErrOf result Ids → LacksNumber self.new }
    {
        self.intern_condition(Condition::Binary(operator, left, right))
    }

    /// The requirement of a need.
    #[tactic(auto, using(crate::proofs::GrowLemmas::grows_on, crate::proofs::GrowLemmas::alternatives_stay))]
    pub fn need(
        &mut self,
        alternatives: &[Spec],
        condition: Option<&Box<Cond>>,
    ) -> R<ConditionalRequirement>
        ensures need { IfOk result
            (λ r.
            IsNeed self.new r
            (specs_of alternatives.now, condition_of (option_copied condition.entry))) }
        ensures grows { Grows self.old self.new }
        ensures few { term_count self.new
            ≤ term_count self.old
            + ids_for_need (specs_of alternatives.now, condition_of (option_copied condition.entry)) }
        ensures ids { IsErrOf result Ids → LacksNumber self.new }
    {
        let requirement = self.alternatives(alternatives)?;
        let condition = match condition {
            Some(condition) => Some(self.condition(condition)?),
            None => None,
        };
        Ok(ConditionalRequirement {
            condition,
            requirement,
        })
    }
}

impl Terms {
    ghost use Rattle.resolvo_terms.specs.Known.{set_at, members_of, condition_at, name_text, place_of, word_text};

    /// The name of a package. Calls of this kind answer for every number.
    pub fn name(&self, name: NameId) -> &str
        ensures { result.now ≡ name_text self.now name }
    {
        match self.names.text(name.into_raw()) {
            Some(name) => name,
            None => "",
        }
    }

    /// The id of a package, if it has one.
    pub fn find_package(&self, name: &str) -> Option<NameId>
        ensures { option_map (λ n. n.raw) result ≡ place_of self.now.names name.now }
    {
        match self.names.number(name) {
            Some(number) => Some(NameId::from_raw(number)),
            None => None,
        }
    }

    /// The id of a span of a package, if it has one.
    #[tactic(auto, using(crate::proofs::FoundLemmas::sets_exact))]
    fn find_set(&self, name: NameId, span: Span) -> Option<VersionSetId>
        ensures { IfSome result
            (λ v. slice_get self.now.version_sets v.0 ≡ Some (name, record { 0 = span })) }
    {
        let set = (name, Numbers(span));
        let number = self.version_sets.find(set, &set.key())?;
        Some(VersionSetId(number))
    }

    /// The id of a SPEC, if it has one.
    pub fn find_spec(&self, spec: &Spec) -> Option<VersionSetId>
        ensures { IfSome result (λ v. IsSpec self.now v (spec_of spec.now)) }
    {
        let number = self.names.number(spec.name.as_str())?;
        self.find_set(NameId::from_raw(number), spec.span)
    }

    /// The requirement of a need of one SPEC without a condition, if the SPEC has an id.
    pub fn find_need(
        &self,
        alternatives: &[Spec],
        condition: Option<&Box<Cond>>,
    ) -> Option<ConditionalRequirement>
        ensures { IfSome result
            (λ r.
            IsNeed self.now r
            (specs_of alternatives.now, condition_of (option_copied condition.entry))) }
    {
        match (alternatives, condition) {
            ([only], None) => {
                let set = self.find_spec(only)?;
                Some(ConditionalRequirement {
                    condition: None,
                    requirement: Requirement::Single(set),
                })
            }
            _ => None,
        }
    }

    /// The name of a number as bytes.
    pub fn name_bytes(&self, name: NameId) -> &[u8]
        ensures { result.now ≡ name_text self.now name }
    {
        match self.names.bytes_of(name.into_raw()) {
            Some(name) => name,
            None => b"",
        }
    }

    /// The word of an id.
    pub fn text(&self, word: StringId) -> &str
        ensures { result.now ≡ word_text self.now word }
    {
        match self.words.text(word.0) {
            Some(word) => word,
            None => "",
        }
    }

    /// The package of a version set.
    pub fn set_package(&self, version_set: VersionSetId) -> NameId
        ensures { result ≡ (set_at self.now version_set).0 }
    {
        match self.version_sets.values.get(version_set.to_index()) {
            Some(set) => set.0,
            None => NameId::from_raw(0),
        }
    }

    /// The numbers that a version set holds.
    pub fn span(&self, version_set: VersionSetId) -> Span
        ensures { result ≡ (set_at self.now version_set).1.0 }
    {
        match self.version_sets.values.get(version_set.to_index()) {
            Some(set) => set.1.0,
            None => Span::Any,
        }
    }

    /// The version sets of a union.
    pub fn members(&self, union: VersionSetUnionId) -> &[VersionSetId]
        ensures { result.now ≡ members_of self.now union }
    {
        match self.unions.get(union.to_index()) {
            Some(members) => members,
            None => &[],
        }
    }

    /// The condition of an id.
    pub fn meaning(&self, condition: ConditionId) -> Condition
        ensures { result ≡ condition_at self.now condition }
    {
        match condition_at(&self.conditions.values, condition.to_index()) {
            Some(meaning) => meaning,
            None => Condition::Requirement(VersionSetId(0)),
        }
    }

    /// A law of every table: no value has two ids. It does nothing.
    pub fn ids_are_once(&self)
        ensures { AreSound self.now }
    {
        self.names.texts_are_once();
        self.words.texts_are_once();
        self.unions.lists_are_once();
    }
}

fn condition_at(conditions: &[Condition], place: usize) -> Option<Condition>
    ensures { result ≡ slice_get conditions.now place }
{
    conditions.get(place).copied()
}

/// Makes a list this long, where it is shorter. The new places have no number.
fn lengthen(numbers: &mut Vec<u32>, count: usize) -> Result<(), AllocError>
    ensures { (n k : ℕ)
        → slice_get numbers.new.items n ≡ Some k
        → k < 4294967295
        → slice_get numbers.old.items n ≡ Some k }
{
    for _ in numbers.len()..count {
        numbers.push(NO_SET)?;
    }
    Ok(())
}

/// Whether two spans are one.
pub(crate) fn is_span(first: Span, span: Span) -> bool
    ensures { Decides result (first ≡ span) }
{
    match (first, span) {
        (Span::Any, Span::Any) => true,
        (Span::One(first), Span::One(number)) => first == number,
        (Span::Range(bottom, top), Span::Range(low, high)) => bottom == low && top == high,
        _ => false,
    }
}
