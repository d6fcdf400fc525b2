//! The words of a line: names, numbers and spans.
//!
//! A word is its bytes; a parser of a word returns the one value that the word spells. The parsers
//! of parts of lines call these.

ghost use Rattle.std.specs.Prelude.{◌≡◌, ◌==◌, ◌*◌, ◌+◌, ◌^◌, ◌<◌, ◌≤◌, SomeIff, map, IfOk, IfSome, IfNone, MatchOption, option_copied, Some};
ghost use Rattle.std.specs.Char.{digit_value};
ghost use Rattle.std.specs.Str.Parse.{AllDigits, digits_value};
ghost use Rattle.std.specs.Option.{option_map};
ghost use Rattle.std.specs.List.{position, list_all};
ghost use Rattle.resolvo_text.specs.Spelling.{starts_name, continues_name, is_word, is_reserved, is_name};
ghost use Rattle.resolvo_text.specs.Parse.{is_dot, number_in, number_after_dot, range_in, span_in, name_in};

use crate::spec::Span;

fn starts_name(b: u8) -> bool
    ensures { result ≡ starts_name b }
{
    b.is_ascii_alphanumeric() || b == b'_'
}

// A small letter is the most frequent, so it takes the fewest tests.
fn continues_name(b: u8) -> bool
    ensures { result ≡ continues_name b }
{
    if b >= b'a' {
        return b <= b'z';
    }
    if b <= b'9' {
        return b >= b'-' && b != b'/';
    }
    (b >= b'A' && b <= b'Z') || b == b'_'
}

fn is_reserved(word: &[u8]) -> bool
    ensures { result ≡ is_reserved word.now }
{
    word == b"if".as_slice() || word == b"and".as_slice() || word == b"or".as_slice()
}

fn continue_name(bytes: &[u8]) -> bool
    ensures { result ≡ list_all continues_name bytes.now }
{
    bytes.iter().all(|b| continues_name(*b))
}

fn is_word(bytes: &[u8]) -> bool
    ensures { result ≡ is_word bytes.now }
{
    match bytes.split_first() {
        Some((first, others)) => starts_name(*first) && continue_name(others),
        None => false,
    }
}

/// Whether the word can name a package or a reason.
pub fn is_name(word: &[u8]) -> bool
    ensures { result ≡ is_name word.now }
{
    is_word(word) && !is_reserved(word)
}

/// The word as text, if it is a name.
#[tactic(auto, unfolding(crate::specs::Parse::name_in))]
pub fn name_in(word: &[u8]) -> Option<&str>
    ensures { option_map (λ s. s.now) result ≡ name_in word.now }
{
    if !is_name(word) {
        return None;
    }
    std::str::from_utf8(word).ok()
}

/// The digit that a byte is.
fn digit_of(byte: u8) -> Option<u32>
    ensures { SomeIff result (digit_value byte < 10) (digit_value byte) }
{
    char::from(byte).to_digit(10)
}

/// One more digit of a number, where there is room for it.
fn with_digit(value: u32, digit: u32) -> Option<u32>
    requires { digit < 10 }
    ensures value { IfSome result (λ n. n ≡ value * 10 + digit) }
    ensures full { IfNone result (2 ^ 32 ≤ value * 10 + digit) }
{
    // Most numbers are far from the largest one.
    if value < 429_496_729 {
        return Some(value * 10 + digit);
    }
    value.checked_mul(10)?.checked_add(digit)
}

/// The number that digits spell. None, where a byte is no digit, or the number has no room.
#[tactic(auto, using(crate::proofs::NumberLemmas::one_digit_more, crate::proofs::NumberLemmas::no_digit_at, crate::proofs::NumberLemmas::too_large_at))]
fn digits_in(word: &[u8]) -> Option<u32>
    ensures digits { IfSome result (λ _. AllDigits 10 word.now) }
    ensures value { IfSome result (λ n. n ≡ digits_value 10 word.now) }
    ensures small { IfSome result (λ n. n < 2 ^ 32) }
    ensures none { IfNone result (AllDigits 10 word.now → 2 ^ 32 ≤ digits_value 10 word.now) }
{
    let mut value = 0;
    for byte in word {
        value = with_digit(value, digit_of(*byte)?)?;
    }
    Some(value)
}

/// The number that the word spells, in digits with no zero before them.
pub fn number_in(word: &[u8]) -> Option<u32>
    ensures { result ≡ number_in word.now }
{
    let first = *word.first()?;
    if first == b'0' && word.len() > 1 {
        return None;
    }
    digits_in(word)
}

#[tactic(auto, unfolding(crate::specs::Parse::number_after_dot))]
fn number_after_dot(bytes: &[u8]) -> Option<u32>
    ensures { result ≡ number_after_dot bytes.now }
{
    let (first, digits) = bytes.split_first()?;
    if *first == b'.' {
        number_in(digits)
    } else {
        None
    }
}

fn dot_in(word: &[u8]) -> Option<usize>
    ensures { result ≡ position is_dot word.now }
{
    word.iter().position(|b| *b == b'.')
}

/// The range that a word spells whose first dot is at this place.
#[tactic(auto, unfolding(crate::specs::Parse::range_in))]
fn range_at(word: &[u8], dot: usize) -> Option<Span>
    requires { position is_dot word.now ≡ Some dot }
    ensures { result ≡ range_in word.now }
{
    let low = number_in(&word[..dot])?;
    let high = number_after_dot(&word[dot + 1..])?;
    if low < high {
        Some(Span::Range(low, high))
    } else {
        None
    }
}

#[tactic(auto, unfolding(crate::specs::Parse::span_in))]
pub fn span_in(word: &[u8]) -> Option<Span>
    ensures { result ≡ span_in word.now }
{
    match dot_in(word) {
        Some(dot) => range_at(word, dot),
        None => match number_in(word) {
            Some(n) => Some(Span::One(n)),
            None => None,
        },
    }
}
