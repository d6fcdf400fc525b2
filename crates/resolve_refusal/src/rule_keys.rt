//! The keys of rules: the texts by which the lines of a long place are found. Lines that state one
//! rule have its key. A line of another rule has other keys, but no answer depends on that.
//!
//! A need has a key for each case of its condition. There its alternatives stand by a number, their
//! group, so that the keys of a line are no longer than its cases.

ghost use Rattle.std.specs.Prelude.{◌≡◌, ◌++◌, ◌∷◌, [], IfOk, IsOkUnless, List, OnOk, Option, map, ℕ};
ghost use Rattle.std.specs.BTreeMap.{get_by_text};
ghost use Rattle.std.specs.String.{string_bytes};
ghost use Rattle.std.specs.Str.{bytes_eq};
ghost use Rattle.resolvo_pool_core.specs.declared.want.Want.TheVariants.{Memory};
ghost use Rattle.resolvo_text.specs.Line as content;
ghost use Rattle.resolvo_text.specs.View.{spec_of, specs_of, cases_of};
ghost use Rattle.resolvo_catalogue_core.specs.Questions.{IsRuleLine};
ghost use Rattle.resolve_refusal.specs.RuleKeys.{barred_text, barred_texts, limit_key, group_text, need_key, line_keys};
ghost use Rattle.resolve_refusal.specs.FirstLines.{first_or};

use resolvo_catalogue_core::{Rule, Span, Spec};
use resolvo_pool_core::want::R;
use std::alloc::Global;
use std::collections::BTreeMap;

/// Lines by texts.
pub(crate) type LinesByText = BTreeMap<String, u32>;

/// Puts the line at a text that has none yet.
pub(crate) fn keep_first(alloc: Global, lines: &mut LinesByText, text: &str, line: u32) -> R<()>
    ensures first { OnOk result
        ((q : List ℕ)
        → get_by_text lines.new q ≡ first_or (get_by_text lines.old q) (bytes_eq q text.now) line) }
    ensures refusal { IsOkUnless result Memory }
{
    if lines.contains_key(text) {
        return Ok(());
    }
    let text = String::from_str(alloc, text)?;
    lines.insert(text, line)?;
    Ok(())
}

/// The text of a SPEC, behind a bar.
fn barred(alloc: Global, spec: &Spec) -> R<String>
    ensures text { IfOk result (λ t. string_bytes t ≡ barred_text (spec_of spec.now)) }
    ensures refusal { IsOkUnless result Memory }
{
    let name = spec.name.as_str();
    match spec.span {
        Span::Any => Ok(format!(in alloc; "|{name}")?),
        Span::One(number) => Ok(format!(in alloc; "|{name} {number}")?),
        Span::Range(low, high) => Ok(format!(in alloc; "|{name} {low}..{high}")?),
    }
}

/// Appends the text of a SPEC.
fn push_spec(alloc: Global, text: &mut String, spec: &Spec) -> R<()>
    ensures pushed { OnOk result
        (string_bytes text.new ≡ string_bytes text.old ++ barred_text (spec_of spec.now)) }
    ensures refusal { IsOkUnless result Memory }
{
    let one = barred(alloc, spec)?;
    text.push_str(one.as_str())?;
    Ok(())
}

/// A text, and those of SPECs behind it.
fn with_specs(alloc: Global, start: &str, specs: &[Spec]) -> R<String>
    ensures text { IfOk result
        (λ t. string_bytes t ≡ start.now ++ barred_texts (specs_of specs.now)) }
    ensures refusal { IsOkUnless result Memory }
{
    let mut text = String::from_str(alloc, start)?;
    for spec in specs {
        push_spec(alloc, &mut text, spec)?;
    }
    Ok(text)
}

/// The key of the lines that limit a set to this SPEC.
pub(crate) fn limit_key(alloc: Global, spec: &Spec) -> R<String>
    ensures key { IfOk result (λ k. string_bytes k ≡ limit_key (spec_of spec.now)) }
    ensures refusal { IsOkUnless result Memory }
{
    let mut key = String::from_str(alloc, "limits")?;
    push_spec(alloc, &mut key, spec)?;
    Ok(key)
}

/// The number of alternatives among the groups, as a text.
fn group_text(alloc: Global, groups: &LinesByText, alternatives: &[Spec]) -> R<String>
    ensures text { IfOk result
        (λ t.
        string_bytes t
        ≡ group_text (λ q. get_by_text groups.now q) (specs_of alternatives.now)) }
    ensures refusal { IsOkUnless result Memory }
{
    let text = with_specs(alloc, "", alternatives)?;
    let found = groups.get(text.as_str()).copied();
    let group = found.unwrap_or(0);
    Ok(format!(in alloc; "{group}")?)
}

/// The key of the lines that need these alternatives in this case.
pub(crate) fn need_key(
    alloc: Global,
    groups: &LinesByText,
    alternatives: &[Spec],
    case: &[Spec],
) -> R<String>
    ensures key { IfOk result
        (λ k.
        string_bytes k
        ≡ need_key (λ q. get_by_text groups.now q) (specs_of alternatives.now)
        (specs_of case.now)) }
    ensures refusal { IsOkUnless result Memory }
{
    let group = group_text(alloc, groups, alternatives)?;
    let key = with_specs(alloc, group.as_str(), case)?;
    Ok(key)
}

/// A text with each of these cases.
fn with_cases(alloc: Global, start: &str, cases: &[Vec<Spec>]) -> R<Vec<String>>
    ensures keys { IfOk result
        (λ ks.
        map string_bytes ks.items
        ≡ map (λ case. start.now ++ barred_texts case) (cases_of cases.now)) }
    ensures refusal { IsOkUnless result Memory }
{
    let mut keys = Vec::new(alloc);
    for case in cases {
        keys.push(with_specs(alloc, start, case.as_slice())?)?;
    }
    Ok(keys)
}

/// The keys of a need: one for each of its cases.
fn need_keys(
    alloc: Global,
    groups: &LinesByText,
    alternatives: &[Spec],
    cases: &[Vec<Spec>],
) -> R<Vec<String>>
    ensures keys { IfOk result
        (λ ks.
        map string_bytes ks.items
        ≡ map (need_key (λ q. get_by_text groups.now q) (specs_of alternatives.now))
        (cases_of cases.now)) }
    ensures refusal { IsOkUnless result Memory }
{
    let group = group_text(alloc, groups, alternatives)?;
    let keys = with_cases(alloc, group.as_str(), cases)?;
    Ok(keys)
}

/// The one key of a limit.
fn limit_keys(alloc: Global, spec: &Spec) -> R<Vec<String>>
    ensures keys { IfOk result
        (λ ks. map string_bytes ks.items ≡ limit_key (spec_of spec.now) ∷ []) }
    ensures refusal { IsOkUnless result Memory }
{
    let mut keys = Vec::new(alloc);
    keys.push(limit_key(alloc, spec)?)?;
    Ok(keys)
}

/// The keys of the lines of a rule: none, if it is neither a need nor a limit.
pub(crate) fn rule_keys(alloc: Global, groups: &LinesByText, rule: &Rule) -> R<Vec<String>>
    ensures keys { IfOk result
        (λ ks.
        (versions : List content.Version) (owner : Option content.Version) (line : content.Line)
        → IsRuleLine versions rule.now owner line
        → map string_bytes ks.items ≡ line_keys (λ q. get_by_text groups.now q) line) }
    ensures refusal { IsOkUnless result Memory }
{
    match rule {
        Rule::Needs { alternatives, .. } => {
            let cases = rule.cases(alloc)?;
            let of_need = need_keys(alloc, groups, alternatives.as_slice(), cases.as_slice())?;
            Ok(of_need)
        }
        Rule::Limits { spec, .. } => {
            let of_limit = limit_keys(alloc, spec)?;
            Ok(of_limit)
        }
        _ => Ok(Vec::new(alloc)),
    }
}

/// Gives the alternatives of a need a group, by the first line that has them.
pub(crate) fn note_group(alloc: Global, groups: &mut LinesByText, rule: &Rule, line: u32) -> R<()>
    ensures { IsOkUnless result Memory }
{
    let Rule::Needs { alternatives, .. } = rule else {
        return Ok(());
    };
    let text = with_specs(alloc, "", alternatives.as_slice())?;
    keep_first(alloc, groups, text.as_str(), line)
}
