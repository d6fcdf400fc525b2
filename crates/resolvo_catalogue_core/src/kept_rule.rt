//! The rule of a line of a catalogue as it is kept: versions, SPECs, alternatives, conditions and
//! words by their numbers. Made by `table`; read through `kept_lines` by those who need numbers, and
//! as texts by all others.

ghost use Rattle.std.specs.Prelude.{◌≡◌, Option, List, IfOk};
ghost use Rattle.resolvo_text.specs.Line.{Version};

use crate::rule::{Rule, VersionNo};
use resolvo_pool_core::id::{StringId, VersionSetId};
use resolvo_pool_core::requirement::ConditionalRequirement;
use resolvo_terms::Terms;
use std::alloc::AllocError;

/// A rule by numbers, and the version that it belongs to.
#[derive(Clone, Copy, Debug)]
pub enum KeptRule {
    /// If the condition holds, one of the alternatives is matched.
    Needs {
        owner: VersionNo,
        need: ConditionalRequirement,
    },
    /// Each version of the SPEC's package matches it.
    Limits {
        owner: VersionNo,
        spec: VersionSetId,
    },
    /// No other version of the package.
    Lock {
        version: VersionNo,
    },
    /// Not this version, for the reason that the word gives.
    Exclude {
        version: VersionNo,
        word: StringId,
    },
    /// The needs of this version are unknown, so it is excluded.
    Unknown {
        version: VersionNo,
        word: StringId,
    },
}

impl KeptRule {
    ghost use Rattle.resolvo_catalogue_core.specs.Questions.{IsRuleLine};
    ghost use Rattle.resolvo_catalogue_core.specs.Kept.{kept_line, owner_of_kept, IsKeptOf, is_lock_of_another};

    /// The version that a line of this rule belongs to, if its text belongs to one.
    pub fn owner(self) -> Option<VersionNo>
        ensures { result ≡ owner_of_kept self }
    {
        match self {
            KeptRule::Needs { owner, .. } | KeptRule::Limits { owner, .. } => Some(owner),
            KeptRule::Unknown { version, .. } => Some(version),
            KeptRule::Lock { .. } | KeptRule::Exclude { .. } => None,
        }
    }

    /// The same rule with texts of its own.
    pub fn in_text(self, terms: &Terms) -> Result<Rule, AllocError>
        ensures { IfOk result
            (λ r.
            (versions : List Version) (owner : Option Version)
            → IsKeptOf versions owner self
            → IsRuleLine versions r owner (kept_line terms.now versions self)) }
    {
        match self {
            KeptRule::Needs { owner, need } => Ok(Rule::Needs {
                owner: Some(owner),
                alternatives: terms.alternatives_of(need.requirement)?,
                condition: terms.condition_of(need.condition)?,
            }),
            KeptRule::Limits { owner, spec } => Ok(Rule::Limits {
                owner: Some(owner),
                spec: terms.spec_of(spec)?,
            }),
            KeptRule::Lock { version } => Ok(Rule::Lock { version }),
            KeptRule::Exclude { version, word } => Ok(Rule::Exclude {
                version,
                word: terms.word_of(word)?,
            }),
            KeptRule::Unknown { version, word } => Ok(Rule::Unknown {
                version,
                word: terms.word_of(word)?,
            }),
        }
    }

    /// Whether the rule locks another version.
    pub(crate) fn is_lock_of_another(self, version: VersionNo) -> bool
        ensures { result ≡ is_lock_of_another self version.0 }
    {
        match self {
            KeptRule::Lock { version: locked } => locked.0 != version.0,
            _ => false,
        }
    }
}
