//! The parser of a line, from left to right, word by word.
//!
//! The words that are left of a line are the bytes after the last word, so each of them follows a
//! space. A parser of a part returns the part and what is left. Readers of whole texts call
//! `line_in`; the parser of reports calls the parsers of parts.

ghost use Rattle.std.specs.Prelude.{◌≡◌, ◌<◌, ◌≤◌, ◌∷◌, List, ℕ, length, Err, Some, IfOk, IfSome, IsTrue, false};
ghost use Rattle.std.specs.List.{position, slice_split};
ghost use Rattle.std.specs.Option.{option_map};
ghost use Rattle.std.specs.String.{string_bytes};
ghost use Rattle.resolvo_text.specs.Line as parsed;
ghost use Rattle.resolvo_text.specs.Spelling.{SpellsLine};
ghost use Rattle.resolvo_text.specs.declared.line.LineFault.TheVariants.{Fault};
ghost use Rattle.resolvo_text.specs.declared.spec.Span.TheVariants.{Any};
ghost use Rattle.resolvo_text.specs.View.{version_of, spec_of, specs_of, list_of, view};
ghost use Rattle.resolvo_text.specs.Parse.{Gives, word_at, version_at, reason_at, span_at, spec_at, skip, with_first, alternatives_at, name_in, number_in, last_number, end_at, version_in, reason_in, spec_in, needs_in, line_by, is_space, NoSpaceBefore, words_in, is_skipped, line_in};

use crate::alternatives::Alternatives;
use crate::condition::condition_in;
use crate::line::{Line, LineFault};
use crate::spec::{Span, Spec, Version};
use crate::words::{name_in, number_in, span_in};
use std::alloc::Global;

// Four bytes are looked at in a round.
fn space_in(text: &[u8]) -> Option<usize>
    ensures { result ≡ position is_space text.now }
{
    let fours = text.len() / 4;
    for four in 0..fours {
        let at = four * 4;
        if text[at] == b' ' {
            return Some(at);
        }
        if text[at + 1] == b' ' {
            return Some(at + 1);
        }
        if text[at + 2] == b' ' {
            return Some(at + 2);
        }
        if text[at + 3] == b' ' {
            return Some(at + 3);
        }
    }
    space_from(text, fours * 4)
}

/// The first space, where none is before this place.
#[inline(always)]
fn space_from(text: &[u8], begin: usize) -> Option<usize>
    requires { NoSpaceBefore text.now begin }
    ensures { result ≡ position is_space text.now }
{
    for at in begin..text.len() {
        if text[at] == b' ' {
            return Some(at);
        }
    }
    None
}

/// The first word of a text, and the rest after it.
pub fn first_word(text: &[u8]) -> (&[u8], &[u8])
    ensures shorter { length result.1.now ≤ length text.now }
    ensures words { slice_split is_space text.now ≡ result.0.now ∷ words_in result.1.now }
{
    match space_in(text) {
        Some(end) => (&text[..end], &text[end..]),
        None => (text, &text[text.len()..]),
    }
}

/// The next word, which follows a space, and the rest after it.
pub fn next_word(rest: &[u8]) -> Option<(&[u8], &[u8])>
    ensures shorter { IfSome result (λ x. length x.1.now < length rest.now) }
    ensures words { option_map (λ x. (x.0.now, words_in x.1.now)) result ≡ word_at (words_in rest.now) }
{
    let (_, text) = rest.split_first()?;
    Some(first_word(text))
}

/// The next word, and what comes behind it; a fault where there is none.
pub fn word_at(rest: &[u8]) -> Result<(&[u8], &[u8]), LineFault>
    ensures shorter { IfOk result (λ x. length x.1.now < length rest.now) }
    ensures words { Gives (λ x. (x.0.now, words_in x.1.now)) result (word_at (words_in rest.now)) }
{
    next_word(rest).ok_or(LineFault::Fault)
}

/// The name that a word is; a fault where it is none.
pub fn name_of(alloc: Global, word: &[u8]) -> Result<String, LineFault>
    ensures { Gives (λ s. string_bytes s) result (name_in word.now) }
{
    match name_in(word) {
        Some(name) => Ok(String::from_str(alloc, name)?),
        None => Err(LineFault::Fault),
    }
}

/// The number that a word is; a fault where it is none.
pub fn number_of(word: &[u8]) -> Result<u32, LineFault>
    ensures { Gives (λ n. n) result (number_in word.now) }
{
    number_in(word).ok_or(LineFault::Fault)
}

/// The number that is the only word.
pub fn last_number(words: &[u8]) -> Result<u32, LineFault>
    ensures { Gives (λ n. n) result (last_number (words_in words.now)) }
{
    match words.split_first() {
        Some((_, digits)) => number_of(digits),
        None => Err(LineFault::Fault),
    }
}

/// The version that the next two words are, and what comes behind them.
#[tactic(auto, unfolding(crate::specs::Parse::version_at))]
pub fn version_at(alloc: Global, words: &[u8]) -> Result<(Version, &[u8]), LineFault>
    ensures { Gives (λ x. (version_of x.0, words_in x.1.now)) result (version_at (words_in words.now)) }
{
    let (word, words) = word_at(words)?;
    let name = name_of(alloc, word)?;
    let (word, words) = word_at(words)?;
    let number = number_of(word)?;
    Ok((Version { name, number }, words))
}

/// The reason that the next word is, and what comes behind it.
#[tactic(auto, unfolding(crate::specs::Parse::reason_at))]
pub fn reason_at(alloc: Global, words: &[u8]) -> Result<(String, &[u8]), LineFault>
    ensures { Gives (λ x. (string_bytes x.0, words_in x.1.now)) result (reason_at (words_in words.now)) }
{
    let (word, words) = word_at(words)?;
    Ok((name_of(alloc, word)?, words))
}

/// Whether the next word begins with another byte than a digit.
#[inline(always)]
fn begins_without_digit(words: &[u8]) -> bool
    ensures { IsTrue result → (Any, words_in words.now) ≡ span_at (words_in words.now) }
{
    match words.get(1) {
        Some(first) => !first.is_ascii_digit(),
        None => false,
    }
}

/// The span that the next word is, and what comes behind it. Where it is none, any number is in it.
#[tactic(auto, unfolding(crate::specs::Parse::span_at))]
pub fn span_at(words: &[u8]) -> (Span, &[u8])
    ensures shorter { length result.1.now ≤ length words.now }
    ensures words { (result.0, words_in result.1.now) ≡ span_at (words_in words.now) }
{
    if begins_without_digit(words) {
        return (Span::Any, words);
    }
    if let Some((word, after)) = next_word(words) {
        if let Some(span) = span_in(word) {
            return (span, after);
        }
    }
    (Span::Any, words)
}

/// The SPEC that comes next, and what comes behind it.
#[tactic(auto, unfolding(crate::specs::Parse::spec_at))]
pub fn spec_at(alloc: Global, words: &[u8]) -> Result<(Spec, &[u8]), LineFault>
    ensures shorter { IfOk result (λ x. length x.1.now < length words.now) }
    ensures words { Gives (λ x. (spec_of x.0, words_in x.1.now)) result (spec_at (words_in words.now)) }
{
    let (word, words) = word_at(words)?;
    let name = name_of(alloc, word)?;
    let (span, words) = span_at(words);
    Ok((Spec { name, span }, words))
}

/// Whether the next word begins with another byte than this one.
#[inline(always)]
fn begins_apart(words: &[u8], word: &[u8]) -> bool
    ensures { IsTrue result → (false, words_in words.now) ≡ skip word.now (words_in words.now) }
{
    match words.get(1) {
        Some(next) => match word.first() {
            Some(first) => *next != *first,
            None => false,
        },
        None => false,
    }
}

/// Whether the next word is this one, and the words that are left.
#[tactic(auto, unfolding(crate::specs::Parse::skip))]
pub fn skip<'a>(words: &'a [u8], word: &[u8]) -> (bool, &'a [u8])
    ensures shorter { length result.1.now ≤ length words.now }
    ensures words { (result.0, words_in result.1.now) ≡ skip word.now (words_in words.now) }
{
    if begins_apart(words, word) {
        return (false, words);
    }
    if let Some((next, after)) = next_word(words) {
        if next == word {
            return (true, after);
        }
    }
    (false, words)
}

/// The room that is made at first for alternatives that a bar parts.
const FEW: usize = 2;

/// The first alternative and those after its bar.
fn several_at(alloc: Global, first: Spec, words: &[u8]) -> Result<(Vec<Spec>, &[u8]), LineFault>
    ensures { (n : ℕ)
        → length (words_in words.now) ≤ n
        → Gives (λ x. (specs_of x.0.items, words_in x.1.now)) result
        (with_first (spec_of first) (alternatives_at n (words_in words.now))) }
{
    let mut specs = Vec::with_capacity(alloc, FEW)?;
    specs.push(first)?;
    let mut rest = words;
    loop {
        let (spec, after) = spec_at(alloc, rest)?;
        specs.push(spec)?;
        let (more, others) = skip(after, b"|");
        rest = others;
        if !more {
            return Ok((specs, rest));
        }
    }
}

/// One alternative or more. One alone takes no memory of its own.
pub fn alternatives_at(alloc: Global, words: &[u8]) -> Result<(Alternatives, &[u8]), LineFault>
    ensures { Gives (λ x. (specs_of (list_of x.0), words_in x.1.now)) result
        (alternatives_at (length (words_in words.now)) (words_in words.now)) }
{
    let (first, after) = spec_at(alloc, words)?;
    let (more, others) = skip(after, b"|");
    if !more {
        return Ok((Alternatives::One(first), others));
    }
    let (specs, rest) = several_at(alloc, first, others)?;
    Ok((Alternatives::Several(specs), rest))
}

pub fn no_more(words: &[u8]) -> Result<(), LineFault>
    ensures { Gives (λ _. tt) result (end_at (words_in words.now)) }
{
    if words.is_empty() {
        Ok(())
    } else {
        Err(LineFault::Fault)
    }
}

#[tactic(auto, unfolding(crate::specs::Parse::version_in))]
fn version_in(alloc: Global, words: &[u8]) -> Result<Version, LineFault>
    ensures { Gives version_of result (version_in (words_in words.now)) }
{
    let (version, words) = version_at(alloc, words)?;
    no_more(words)?;
    Ok(version)
}

#[tactic(auto, unfolding(crate::specs::Parse::reason_in))]
fn reason_in(alloc: Global, words: &[u8]) -> Result<String, LineFault>
    ensures { Gives (λ s. string_bytes s) result (reason_in (words_in words.now)) }
{
    let (reason, words) = reason_at(alloc, words)?;
    no_more(words)?;
    Ok(reason)
}

#[tactic(auto, unfolding(crate::specs::Parse::spec_in))]
fn spec_in(alloc: Global, words: &[u8]) -> Result<Spec, LineFault>
    ensures { Gives spec_of result (spec_in (words_in words.now)) }
{
    let (spec, words) = spec_at(alloc, words)?;
    no_more(words)?;
    Ok(spec)
}

#[tactic(auto, unfolding(crate::specs::Parse::needs_in))]
fn needs_in(alloc: Global, words: &[u8]) -> Result<Line, LineFault>
    ensures { Gives view result (needs_in (words_in words.now)) }
{
    let (alternatives, words) = alternatives_at(alloc, words)?;
    let condition = condition_in(alloc, words)?;
    Ok(Line::Needs {
        alternatives,
        condition,
    })
}

/// Parses the words after the keyword.
#[tactic(auto, unfolding(crate::specs::Parse::line_by))]
fn line_by(alloc: Global, keyword: &[u8], words: &[u8]) -> Result<Line, LineFault>
    ensures { Gives (λ line. view line) result (line_by keyword.now (words_in words.now)) }
{
    if keyword == b"version".as_slice() {
        return Ok(Line::Listed(version_in(alloc, words)?));
    }
    if keyword == b"needs".as_slice() {
        return needs_in(alloc, words);
    }
    if keyword == b"limits".as_slice() {
        return Ok(Line::Limits(spec_in(alloc, words)?));
    }
    if keyword == b"unknown".as_slice() {
        return Ok(Line::Unknown(reason_in(alloc, words)?));
    }
    if keyword == b"lock".as_slice() {
        return Ok(Line::Lock(version_in(alloc, words)?));
    }
    if keyword == b"favour".as_slice() {
        return Ok(Line::Favour(version_in(alloc, words)?));
    }
    if keyword == b"exclude".as_slice() {
        let (version, words) = version_at(alloc, words)?;
        let reason = reason_in(alloc, words)?;
        return Ok(Line::Exclude { version, reason });
    }
    if keyword == b"many".as_slice() {
        return Ok(Line::Many(reason_in(alloc, words)?));
    }
    if keyword == b"wish".as_slice() {
        return Ok(Line::Wish(version_in(alloc, words)?));
    }
    Err(LineFault::Fault)
}

/// Whether a text is empty or a comment.
#[tactic(auto, unfolding(crate::specs::Parse::line_in))]
pub fn is_skipped(text: &[u8]) -> bool
    ensures value { result ≡ is_skipped text.now }
    ensures line { IsTrue result → line_in text.now ≡ Some parsed.Skipped }
{
    match text.split_first() {
        Some((first, _)) => *first == b'#',
        None => true,
    }
}

/// Parses the text of a line, without its newline.
pub fn line_in(alloc: Global, text: &[u8]) -> Result<Line, LineFault>
    ensures parsed { IfOk result (λ line. SpellsLine text.now (view line)) }
    ensures fault { result ≡ Err Fault → (line : parsed.Line) → SpellsLine text.now line → ⊥ }
{
    line_read(alloc, text)
}

#[tactic(auto, unfolding(crate::specs::Parse::line_in))]
fn line_read(alloc: Global, text: &[u8]) -> Result<Line, LineFault>
    ensures { Gives view result (line_in text.now) }
{
    if is_skipped(text) {
        return Ok(Line::Skipped);
    }
    let (keyword, words) = first_word(text);
    line_by(alloc, keyword, words)
}

/// The words after the keyword of a line `version`, if a text begins so.
pub fn listed_words(text: &[u8]) -> Option<&[u8]>
    ensures { IfSome result
        (λ words.
        line_in text.now ≡ option_map (λ v. parsed.Listed v) (version_in (words_in words.now))) }
{
    if text.starts_with(b"version ") {
        Some(&text[7..])
    } else {
        None
    }
}

/// The words after the keyword of a line `needs`, if a text begins so.
pub fn needs_words(text: &[u8]) -> Option<&[u8]>
    ensures { IfSome result (λ words. line_in text.now ≡ needs_in (words_in words.now)) }
{
    if text.starts_with(b"needs ") {
        Some(&text[5..])
    } else {
        None
    }
}

/// The words after the keyword of a line `limits`, if a text begins so.
pub fn limits_words(text: &[u8]) -> Option<&[u8]>
    ensures { IfSome result
        (λ words.
        line_in text.now ≡ option_map (λ s. parsed.Limits s) (spec_in (words_in words.now))) }
{
    if text.starts_with(b"limits ") {
        Some(&text[6..])
    } else {
        None
    }
}

/// A text is that of one line at most.
pub fn text_is_one_line()
    ensures { (text : List ℕ) (a b : parsed.Line) → SpellsLine text a → SpellsLine text b → a ≡ b }
{}
