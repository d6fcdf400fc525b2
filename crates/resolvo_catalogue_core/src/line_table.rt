//! The parsed lines, with the longer rules in a list of their own: most lines take little memory. The
//! model is `kind_list`, the list of the parsed lines. Used by `table`.

ghost use Rattle.std.specs.Prelude.{◌≡◌, ◌++◌, ◌∷◌, [], length, true, OnOk, option_and_then, slice_get};
ghost use Rattle.resolvo_catalogue_core.specs.Held.{is_held, are_held, held_at, kind_in, kind_list, kind_at, plain, rule_of};
ghost use Rattle.resolvo_catalogue_core.specs.LineKind as kind;
ghost use Rattle.resolvo_catalogue_core.specs.declared.kept_rule.KeptRule.TheVariants as kept;

use crate::kept_rule::KeptRule;
use crate::rule::VersionNo;
use crate::stored_lines::{StoredLine, StoredLines};
use resolvo_pool_core::requirement::{ConditionalRequirement, Requirement};
use resolvo_terms::place_of;
use std::alloc::{AllocError, Global};

/// A need without condition.
fn plain(owner: VersionNo, requirement: Requirement) -> KeptRule
    ensures { result ≡ kept.Needs owner (plain requirement) }
{
    KeptRule::Needs {
        owner,
        need: ConditionalRequirement {
            condition: None,
            requirement,
        },
    }
}

/// The lines of a catalogue, and the longer rules that they name.
#[derive(Drop)]
pub struct LineTable {
    held: StoredLines,
    rules: Vec<KeptRule>,
    /// The names of the packages that are marked `many`.
    marked: Vec<String>,
    ghost in_range: { are_held (length rules.items) (length marked.items) held ≡ true },
}

impl LineTable {
    pub fn new(alloc: Global) -> Self
        ensures { kind_list result.rules.items result.marked.items result.held ≡ [] }
    {
        LineTable {
            held: StoredLines::new(alloc),
            rules: Vec::new(alloc),
            marked: Vec::new(alloc),
        }
    }

    /// How many lines there are.
    pub fn len(&self) -> usize
        ensures { result ≡ length (kind_list self.now.rules.items self.now.marked.items self.now.held) }
    {
        self.held.len()
    }

    /// Adds a line that is stored whole, or whose place is known.
    #[inline(always)]
    pub fn hold(&mut self, held: StoredLine) -> Result<(), AllocError>
        requires { is_held (length self.old.rules.items) (length self.old.marked.items) held ≡ true }
        ensures { OnOk result
            (kind_list self.new.rules.items self.new.marked.items self.new.held
            ≡ kind_list self.old.rules.items self.old.marked.items self.old.held ++ kind_in self.old.rules.items
            self.old.marked.items held
            ∷ []) }
    {
        self.held.push(held)?;
        Ok(())
    }

    /// Adds a need.
    pub fn push_need(
        &mut self,
        owner: VersionNo,
        need: ConditionalRequirement,
    ) -> Result<(), AllocError>
        ensures { OnOk result
            (kind_list self.new.rules.items self.new.marked.items self.new.held
            ≡ kind_list self.old.rules.items self.old.marked.items self.old.held ++ kind.Rule (kept.Needs owner need)
            ∷ []) }
    {
        match need {
            ConditionalRequirement {
                condition: None,
                requirement: Requirement::Single(spec),
            } => self.hold(StoredLine::Need { owner, spec }),
            ConditionalRequirement {
                condition: None,
                requirement: Requirement::Union(union),
            } => self.hold(StoredLine::AnyOf { owner, union }),
            _ => self.push_long(KeptRule::Needs { owner, need }),
        }
    }

    /// Adds a rule that has a place among the rules.
    pub fn push_long(&mut self, rule: KeptRule) -> Result<(), AllocError>
        ensures { OnOk result
            (kind_list self.new.rules.items self.new.marked.items self.new.held
            ≡ kind_list self.old.rules.items self.old.marked.items self.old.held ++ kind.Rule rule
            ∷ []) }
    {
        let place = place_of(self.rules.len())?;
        self.rules.push(rule)?;
        self.held.push(StoredLine::Rule(place))?;
        Ok(())
    }

    /// Adds the mark of the package of this name.
    pub fn push_marked(&mut self, name: String) -> Result<(), AllocError>
        ensures { OnOk result
            (kind_list self.new.rules.items self.new.marked.items self.new.held
            ≡ kind_list self.old.rules.items self.old.marked.items self.old.held ++ kind.Many name
            ∷ []) }
    {
        let place = place_of(self.marked.len())?;
        self.marked.push(name)?;
        self.held.push(StoredLine::Many(place))?;
        Ok(())
    }

    /// The stored form of the line of this number, from 1.
    fn held_at(&self, line: u32) -> Option<StoredLine>
        ensures { result ≡ held_at self.now.held line }
    {
        if line == 0 {
            return None;
        }
        self.held.get((line - 1) as usize)
    }

    fn rule_at(&self, place: u32) -> Option<KeptRule>
        ensures { result ≡ slice_get self.now.rules.items place }
    {
        self.rules.get(place as usize).copied()
    }

    /// The rule of the line of this number, if it has one. Lines are numbered from 1.
    pub fn rule(&self, line: u32) -> Option<KeptRule>
        ensures { result
            ≡ option_and_then rule_of
            (kind_at (kind_list self.now.rules.items self.now.marked.items self.now.held) line) }
    {
        let held = self.held_at(line)?;
        match held {
            StoredLine::Need { owner, spec } => Some(plain(owner, Requirement::Single(spec))),
            StoredLine::AnyOf { owner, union } => Some(plain(owner, Requirement::Union(union))),
            StoredLine::Limit { owner, spec } => Some(KeptRule::Limits { owner, spec }),
            StoredLine::Rule(place) => self.rule_at(place),
            _ => None,
        }
    }
}
