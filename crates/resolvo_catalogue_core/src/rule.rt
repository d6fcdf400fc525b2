//! The rule of a line of a catalogue or a request, with versions by their numbers.
//! Made by the reader of `request`, and of the rules that a catalogue keeps (`kept_rule`) for all who ask
//! for `rule`.

ghost use Rattle.std.specs.Prelude.{◌≡◌, Option, List, Some, IfOk, option_copied, option_map};
ghost use Rattle.resolvo_catalogue_core.specs.Questions.{rule_found};
ghost use Rattle.resolvo_text.specs.Line.{Version, Line};
ghost use Rattle.resolvo_text.specs.View.{cases_of};

use resolvo_text::{Alternatives, Cond, Spec, cases_in};
use std::alloc::{AllocError, Global};

/// The number of a listed version, from 0 in line order.
#[derive(Clone, Copy, Debug, PartialEq, Eq, Hash)]
pub struct VersionNo(pub u32);

/// A rule, and the version that it belongs to. A rule of a request belongs to none.
#[derive(Debug, Drop)]
pub enum Rule {
    /// If the condition holds, one of the alternatives is matched.
    Needs {
        owner: Option<VersionNo>,
        alternatives: Alternatives,
        condition: Option<Box<Cond>>,
    },
    /// Each version of the SPEC's package matches it.
    Limits {
        owner: Option<VersionNo>,
        spec: Spec,
    },
    /// No other version of the package.
    Lock {
        version: VersionNo,
    },
    /// Not this version, for the reason that the word gives.
    Exclude {
        version: VersionNo,
        word: String,
    },
    /// The needs of this version are unknown, so it is excluded.
    Unknown {
        version: VersionNo,
        word: String,
    },
}

impl Rule {
    ghost use Rattle.resolvo_catalogue_core.specs.Questions.{IsRuleLine, cases_of_line};

    /// The cases of a need; another rule has none.
    pub fn cases(&self, alloc: Global) -> Result<Vec<Vec<Spec>>, AllocError>
        ensures { IfOk result
            (λ v.
            (versions : List Version) (owner : Option Version) (line : Line)
            → IsRuleLine versions self.now owner line
            → cases_of v.items ≡ cases_of_line (Some line)) }
    {
        match self {
            Rule::Needs { condition, .. } => match condition {
                Some(condition) => cases_in(alloc, condition),
                None => {
                    let mut cases = Vec::new(alloc);
                    cases.push(Vec::new(alloc))?;
                    Ok(cases)
                }
            },
            _ => Ok(Vec::new(alloc)),
        }
    }
}

/// A rule of a line: lent by a request, or made of what a catalogue keeps.
#[derive(Drop)]
pub enum FoundRule<'a> {
    Lent(&'a Rule),
    Made(Rule),
}

/// The rule that was found, if one was.
pub fn found<'a>(rule: &'a Option<FoundRule<'_>>) -> Option<&'a Rule>
    ensures { option_copied result ≡ option_map rule_found rule.now }
{
    match rule {
        None => None,
        Some(FoundRule::Lent(rule)) => Some(rule),
        Some(FoundRule::Made(rule)) => Some(rule),
    }
}
