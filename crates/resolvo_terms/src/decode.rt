//! What a number stands for, as a value of its own. Called by those who compare texts.

ghost use Rattle.std.specs.Prelude.{◌≡◌, map, option_map, IfOk};
ghost use Rattle.resolvo_text.specs.View.{spec_of, specs_of, list_of, cond_of, condition_of};
ghost use Rattle.resolvo_terms.specs.Known.{spec_at, alternatives_at, cond_at, word_text};
ghost use Rattle.std.specs.String.{string_bytes};

use crate::terms::Terms;
use resolvo_pool_core::condition::{Condition, LogicalOperator};
use resolvo_pool_core::id::{ConditionId, StringId, VersionSetId};
use resolvo_pool_core::requirement::Requirement;
use resolvo_text::{Alternatives, Cond, Spec};
use std::alloc::AllocError;

impl Terms {
    /// The SPEC of a number.
    pub fn spec_of(&self, version_set: VersionSetId) -> Result<Spec, AllocError>
        ensures { IfOk result (λ s. spec_of s ≡ spec_at self.now version_set) }
    {
        let name = self.name(self.set_package(version_set));
        Ok(Spec {
            name: String::from_str(self.alloc, name)?,
            span: self.span(version_set),
        })
    }

    /// The word of a number.
    pub fn word_of(&self, word: StringId) -> Result<String, AllocError>
        ensures { IfOk result (λ s. string_bytes s ≡ word_text self.now word) }
    {
        Ok(String::from_str(self.alloc, self.text(word))?)
    }

    /// The SPECs of numbers, in order.
    fn specs_of(&self, version_sets: &[VersionSetId]) -> Result<Vec<Spec>, AllocError>
        ensures { IfOk result (λ ss. specs_of ss.items ≡ map (spec_at self.now) version_sets.now) }
    {
        let mut specs = Vec::with_capacity(self.alloc, version_sets.len())?;
        for version_set in version_sets {
            specs.push(self.spec_of(*version_set)?)?;
        }
        Ok(specs)
    }

    /// The alternatives of a requirement, in order.
    pub fn alternatives_of(&self, requirement: Requirement) -> Result<Alternatives, AllocError>
        ensures { IfOk result (λ a. specs_of (list_of a) ≡ alternatives_at self.now requirement) }
    {
        match requirement {
            Requirement::Single(version_set) => {
                Ok(Alternatives::One(self.spec_of(version_set)?))
            }
            Requirement::Union(union) => {
                Ok(Alternatives::Several(self.specs_of(self.members(union))?))
            }
        }
    }

    /// The condition of a number.
    #[tactic(auto, using(crate::proofs::KnownLemmas::operands_below))]
    fn cond_of(&self, condition: ConditionId) -> Result<Cond, AllocError>
        ensures { IfOk result (λ c. cond_of c ≡ cond_at self.now condition) }
    {
        match self.meaning(condition) {
            Condition::Requirement(version_set) => { Ok(Cond::Spec(self.spec_of(version_set)?)) }
            Condition::Binary(LogicalOperator::And, left, right) => {
                let left = self.cond_of(left)?;
                let right = self.cond_of(right)?;
                Ok(Cond::And(Box::new(self.alloc, left)?, Box::new(self.alloc, right)?))
            }
            Condition::Binary(LogicalOperator::Or, left, right) => {
                let left = self.cond_of(left)?;
                let right = self.cond_of(right)?;
                Ok(Cond::Or(Box::new(self.alloc, left)?, Box::new(self.alloc, right)?))
            }
        }
    }

    /// The condition of a need, if it has one.
    pub fn condition_of(
        &self,
        condition: Option<ConditionId>,
    ) -> Result<Option<Box<Cond>>, AllocError>
        ensures { IfOk result (λ c. condition_of c ≡ option_map (cond_at self.now) condition) }
    {
        match condition {
            None => Ok(None),
            Some(condition) => {
                let condition = self.cond_of(condition)?;
                Ok(Some(Box::new(self.alloc, condition)?))
            }
        }
    }
}
