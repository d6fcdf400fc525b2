//! The order of the literals of a clause in a report: their texts rise in byte order, and no atom
//! occurs twice.
//!
//! So one clause has one spelling. The reader of reports checks `are_in_order` for each clause.
#![tactic(auto)]

ghost use Rattle.std.specs.Prelude.{◌≡◌, IfOk, map};
ghost use Rattle.std.specs.List.{list_any};
ghost use Rattle.std.specs.Str.{bytes_eq};
ghost use Rattle.resolvo_literal_order.specs.Order.{texts_of, are_rising, are_once, atom_part, are_in_order};

use std::alloc::{AllocError, Global};
use std::collections::BTreeSet;

/// The text of the atom in the text of a literal.
fn atom_part(text: &[u8]) -> &[u8]
    ensures { result.now ≡ atom_part text.now }
{
    match text.strip_prefix(b"not ") {
        Some(atom) => atom,
        None => text,
    }
}

/// Whether each text precedes the next one in byte order.
fn are_rising(texts: &[&[u8]]) -> bool
    ensures { result ≡ are_rising (texts_of texts.now) }
{
    match texts.split_first() {
        None => true,
        Some((first, others)) => {
            let mut before = *first;
            for text in others {
                if !before.cmp(text).is_lt() {
                    return false;
                }
                before = *text;
            }
            true
        }
    }
}

/// Most clauses have few literals. The atoms of so many are compared pair by pair.
const FEW: usize = 8;

/// Whether one of these texts of literals has the atom.
fn has_atom(texts: &[&[u8]], atom: &[u8]) -> bool
    ensures { result ≡ list_any (λ t. bytes_eq (atom_part t.now) atom.now) texts.now }
{
    texts.iter().any(|text| atom_part(text) == atom)
}

/// Whether no atom occurs twice in a few texts of literals.
fn are_few_once(texts: &[&[u8]]) -> bool
    ensures { result ≡ are_once (map atom_part (texts_of texts.now)) }
{
    let mut at = texts.len();
    while at > 0 {
        let others = &texts[at..];
        at -= 1;
        if has_atom(others, atom_part(texts[at])) {
            return false;
        }
    }
    true
}

/// Whether no atom occurs twice in these texts of literals.
fn are_atoms_once(alloc: Global, texts: &[&[u8]]) -> Result<bool, AllocError>
    ensures { IfOk result (λ b. b ≡ are_once (map atom_part (texts_of texts.now))) }
{
    let mut seen: BTreeSet<&[u8]> = BTreeSet::new(alloc);
    let mut at = texts.len();
    while at > 0 {
        at -= 1;
        if !seen.insert(atom_part(texts[at]))? {
            return Ok(false);
        }
    }
    Ok(true)
}

/// Whether the texts of literals are in byte order, each atom once.
pub fn are_in_order(alloc: Global, texts: &[&[u8]]) -> Result<bool, AllocError>
    ensures { IfOk result (λ b. b ≡ are_in_order (texts_of texts.now)) }
{
    if !are_rising(texts) {
        return Ok(false);
    }
    if texts.len() <= FEW {
        return Ok(are_few_once(texts));
    }
    are_atoms_once(alloc, texts)
}
