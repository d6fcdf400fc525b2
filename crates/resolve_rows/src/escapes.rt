//! Escaped texts: `\n`, `\r`, `\t`, `\\`, `\xNN`, and `\*N;`, which writes the byte before it N
//! times in all.

use std::alloc::{AllocError, Global};

/// The escape that was read before the next byte.
#[derive(Clone, Copy, PartialEq, Eq)]
enum State {
    Plain,
    /// A `\`.
    Escape,
    /// `\x`.
    High,
    /// `\x` and a digit.
    Low(u8),
    /// `\*` and digits.
    Times(u64),
    /// An escape that is none.
    Wrong,
}

fn digit(byte: u8) -> Option<u8> {
    match byte {
        b'0'..=b'9' => Some(byte - b'0'),
        b'a'..=b'f' => Some(byte - b'a' + 10),
        _ => None,
    }
}

/// The byte of a letter after `\`.
fn named_byte(letter: u8) -> Option<u8> {
    match letter {
        b'n' => Some(b'\n'),
        b'r' => Some(b'\r'),
        b't' => Some(b'\t'),
        b'\\' => Some(b'\\'),
        _ => None,
    }
}

fn after_escape(text: &mut Vec<u8>, letter: u8) -> Result<State, AllocError> {
    if let Some(byte) = named_byte(letter) {
        text.push(byte)?;
        return Ok(State::Plain);
    }
    Ok(match letter {
        b'x' => State::High,
        b'*' => State::Times(0),
        _ => State::Wrong,
    })
}

fn after_times(text: &mut Vec<u8>, times: u64, byte: u8) -> Result<State, AllocError> {
    if byte == b';' {
        let last = text.last().copied().unwrap_or(b';');
        for _ in 1..times {
            text.push(last)?;
        }
        return Ok(State::Plain);
    }
    Ok(match digit(byte) {
        Some(digit) => State::Times(times.saturating_mul(10).saturating_add(u64::from(digit))),
        None => State::Wrong,
    })
}

fn after(text: &mut Vec<u8>, state: State, byte: u8) -> Result<State, AllocError> {
    match (state, digit(byte)) {
        (State::Plain, _) if byte == b'\\' => Ok(State::Escape),
        (State::Plain, _) => {
            text.push(byte)?;
            Ok(State::Plain)
        }
        (State::Escape, _) => after_escape(text, byte),
        (State::High, Some(high)) => Ok(State::Low(high)),
        (State::Low(high), Some(low)) => {
            text.push(high.wrapping_mul(16).wrapping_add(low))?;
            Ok(State::Plain)
        }
        (State::Times(times), _) => after_times(text, times, byte),
        _ => Ok(State::Wrong),
    }
}

/// The bytes that an escaped text spells, without its own newlines; none where an escape isn't one.
pub fn unescaped(alloc: Global, escaped: &str) -> Result<Option<Vec<u8>>, AllocError> {
    let mut text = Vec::new(alloc);
    let mut state = State::Plain;
    for byte in escaped.bytes() {
        if byte != b'\n' {
            state = after(&mut text, state, byte)?;
        }
    }
    Ok((state == State::Plain).then_some(text))
}
