//! The parts of a report's lines: versions, places, numbers, literals.
//!
//! A part is parsed from the remaining words of a line, as in specs/Parse.antt.

ghost use Rattle.std.specs.Prelude.{◌≡◌};
ghost use Rattle.std.specs.List.{position};
ghost use Rattle.resolvo_text.specs.View.{version_of, specs_of};
ghost use Rattle.resolvo_text.specs.Parse.{Gives, words_in};
ghost use Rattle.resolvo_report.specs.View.{place_of, atom_of, literal_of};
ghost use Rattle.resolvo_report.specs.Parse.{is_equals, behind, version_in, version_at, place_at, number_at, line_number_at, bit_at, line_at, specs_at, any_atom_in, shared_atom_in, outside_atom_in, matches_atom_in, bit_atom_in, atom_by, atom_in, literal_in, literal_behind, line_in};

use crate::step::{Atom, Literal, Place};
use resolvo_text::{
    LineFault, Spec, Version, alternatives_at, name_of, no_more, number_of, reason_at, skip,
    spec_at, word_at,
};
use std::alloc::Global;

/// The words after this one, which must be the next one.
#[tactic(auto, unfolding(crate::specs::Parse::behind))]
pub(crate) fn behind<'a>(words: &'a [u8], word: &[u8]) -> Result<&'a [u8], LineFault>
    ensures { Gives (λ r. words_in r.now) result (behind word.now (words_in words.now)) }
{
    let (found, rest) = skip(words, word);
    if found {
        Ok(rest)
    } else {
        Err(LineFault::Fault)
    }
}

fn equals_in(word: &[u8]) -> Option<usize>
    ensures { result ≡ position is_equals word.now }
{
    word.iter().position(|b| *b == b'=')
}

/// The version that the word spells.
#[tactic(auto, unfolding(crate::specs::Parse::version_in))]
pub(crate) fn version_in(alloc: Global, word: &[u8]) -> Result<Version, LineFault>
    ensures { Gives version_of result (version_in word.now) }
{
    let Some(at) = equals_in(word) else {
        return Err(LineFault::Fault);
    };
    let name = name_of(alloc, &word[..at])?;
    let number = number_of(&word[at + 1..])?;
    Ok(Version { name, number })
}

#[tactic(auto, unfolding(crate::specs::Parse::version_at))]
pub(crate) fn version_at(alloc: Global, words: &[u8]) -> Result<(Version, &[u8]), LineFault>
    ensures { Gives (λ x. (version_of x.0, words_in x.1.now)) result
        (version_at (words_in words.now)) }
{
    let (word, rest) = word_at(words)?;
    Ok((version_in(alloc, word)?, rest))
}

#[tactic(auto, unfolding(crate::specs::Parse::place_at))]
pub(crate) fn place_at(alloc: Global, words: &[u8]) -> Result<(Place, &[u8]), LineFault>
    ensures { Gives (λ x. (place_of x.0, words_in x.1.now)) result (place_at (words_in words.now)) }
{
    let (found, rest) = skip(words, b"request");
    if found {
        return Ok((Place::Request, rest));
    }
    let (version, rest) = version_at(alloc, words)?;
    Ok((Place::Version(version), rest))
}

#[tactic(auto, unfolding(crate::specs::Parse::number_at))]
pub(crate) fn number_at(words: &[u8]) -> Result<(u32, &[u8]), LineFault>
    ensures { Gives (λ x. (x.0, words_in x.1.now)) result (number_at (words_in words.now)) }
{
    let (word, rest) = word_at(words)?;
    Ok((number_of(word)?, rest))
}

/// The number of a line, from 1.
#[tactic(auto, unfolding(crate::specs::Parse::line_number_at))]
pub(crate) fn line_number_at(words: &[u8]) -> Result<(u32, &[u8]), LineFault>
    ensures { Gives (λ x. (x.0, words_in x.1.now)) result (line_number_at (words_in words.now)) }
{
    let (number, rest) = number_at(words)?;
    if number == 0 {
        return Err(LineFault::Fault);
    }
    Ok((number, rest))
}

/// The place of a binary digit, below 32.
#[tactic(auto, unfolding(crate::specs::Parse::bit_at))]
pub(crate) fn bit_at(words: &[u8]) -> Result<(u32, &[u8]), LineFault>
    ensures { Gives (λ x. (x.0, words_in x.1.now)) result (bit_at (words_in words.now)) }
{
    let (number, rest) = number_at(words)?;
    if number < 32 {
        Ok((number, rest))
    } else {
        Err(LineFault::Fault)
    }
}

/// `line`, and its number.
#[tactic(auto, unfolding(crate::specs::Parse::line_at))]
pub(crate) fn line_at(words: &[u8]) -> Result<(u32, &[u8]), LineFault>
    ensures { Gives (λ x. (x.0, words_in x.1.now)) result (line_at (words_in words.now)) }
{
    line_number_at(behind(words, b"line")?)
}

/// The same, at the end of a line.
#[tactic(auto, unfolding(crate::specs::Parse::line_in))]
pub(crate) fn line_in(words: &[u8]) -> Result<u32, LineFault>
    ensures { Gives (λ n. n) result (line_in (words_in words.now)) }
{
    let (line, rest) = line_at(words)?;
    no_more(rest)?;
    Ok(line)
}

/// One alternative or more.
#[tactic(auto, unfolding(crate::specs::Parse::specs_at))]
pub(crate) fn specs_at(alloc: Global, words: &[u8]) -> Result<(Vec<Spec>, &[u8]), LineFault>
    ensures { Gives (λ x. (specs_of x.0.items, words_in x.1.now)) result
        (specs_at (words_in words.now)) }
{
    let (alternatives, rest) = alternatives_at(alloc, words)?;
    Ok((alternatives.into_vec(alloc)?, rest))
}

/// Any version of this package.
#[tactic(auto, unfolding(crate::specs::Parse::any_atom_in))]
fn any_atom_in(alloc: Global, words: &[u8]) -> Result<Atom, LineFault>
    ensures { Gives atom_of result (any_atom_in (words_in words.now)) }
{
    let (name, rest) = reason_at(alloc, words)?;
    no_more(rest)?;
    Ok(Atom::Any { name })
}

#[tactic(auto, unfolding(crate::specs::Parse::shared_atom_in))]
fn shared_atom_in(alloc: Global, words: &[u8]) -> Result<Atom, LineFault>
    ensures { Gives atom_of result (shared_atom_in (words_in words.now)) }
{
    let (alternatives, rest) = specs_at(alloc, words)?;
    no_more(rest)?;
    Ok(Atom::Shared { alternatives })
}

#[tactic(auto, unfolding(crate::specs::Parse::outside_atom_in))]
fn outside_atom_in(alloc: Global, words: &[u8]) -> Result<Atom, LineFault>
    ensures { Gives atom_of result (outside_atom_in (words_in words.now)) }
{
    let (spec, rest) = spec_at(alloc, words)?;
    no_more(rest)?;
    Ok(Atom::Outside { spec })
}

#[tactic(auto, unfolding(crate::specs::Parse::matches_atom_in))]
fn matches_atom_in(alloc: Global, words: &[u8]) -> Result<Atom, LineFault>
    ensures { Gives atom_of result (matches_atom_in (words_in words.now)) }
{
    let (spec, rest) = spec_at(alloc, words)?;
    no_more(rest)?;
    Ok(Atom::Matches { spec })
}

#[tactic(auto, unfolding(crate::specs::Parse::bit_atom_in))]
fn bit_atom_in(alloc: Global, words: &[u8]) -> Result<Atom, LineFault>
    ensures { Gives atom_of result (bit_atom_in (words_in words.now)) }
{
    let (bit, rest) = bit_at(words)?;
    let (name, rest) = reason_at(alloc, behind(rest, b"of")?)?;
    no_more(rest)?;
    Ok(Atom::Bit { bit, name })
}

/// The atom, from its first word and the words after it.
#[tactic(auto, unfolding(crate::specs::Parse::atom_by))]
fn atom_by(alloc: Global, keyword: &[u8], words: &[u8]) -> Result<Atom, LineFault>
    ensures { Gives (λ a. atom_of a) result (atom_by keyword.now (words_in words.now)) }
{
    if keyword == b"any".as_slice() {
        return any_atom_in(alloc, words);
    }
    if keyword == b"shared".as_slice() {
        return shared_atom_in(alloc, words);
    }
    if keyword == b"outside".as_slice() {
        return outside_atom_in(alloc, words);
    }
    if keyword == b"matches".as_slice() {
        return matches_atom_in(alloc, words);
    }
    if keyword == b"bit".as_slice() {
        return bit_atom_in(alloc, words);
    }
    let version = version_in(alloc, keyword)?;
    no_more(words)?;
    Ok(Atom::Version(version))
}

#[tactic(auto, unfolding(crate::specs::Parse::atom_in))]
fn atom_in(alloc: Global, words: &[u8]) -> Result<Atom, LineFault>
    ensures { Gives atom_of result (atom_in (words_in words.now)) }
{
    let (keyword, rest) = word_at(words)?;
    atom_by(alloc, keyword, rest)
}

#[tactic(auto, unfolding(crate::specs::Parse::literal_in))]
fn literal_in(alloc: Global, words: &[u8]) -> Result<Literal, LineFault>
    ensures { Gives literal_of result (literal_in (words_in words.now)) }
{
    let (negated, rest) = skip(words, b"not");
    if negated {
        let atom = atom_in(alloc, rest)?;
        return Ok(Literal {
            atom,
            positive: false,
        });
    }
    let atom = atom_in(alloc, words)?;
    Ok(Literal {
        atom,
        positive: true,
    })
}

/// The literal after this sign, which the piece begins with.
#[tactic(auto, unfolding(crate::specs::Parse::literal_behind))]
pub(crate) fn literal_behind(alloc: Global, sign: u8, piece: &[u8]) -> Result<Literal, LineFault>
    ensures { Gives literal_of result (literal_behind sign piece.now) }
{
    let Some((first, _)) = piece.split_first() else {
        return Err(LineFault::Fault);
    };
    if *first != sign {
        return Err(LineFault::Fault);
    }
    literal_in(alloc, piece)
}
