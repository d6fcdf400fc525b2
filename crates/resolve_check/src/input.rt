//! Reads the whole standard input, and splits it into a catalogue and a request. `main` calls it
//! where no file is named.

ghost use Rattle.std.specs.Prelude.{◌≡◌, ◌==◌, ◌≤◌, ◌<◌, true, false, IfOk, OnOk, MatchResult, vec_len, length, take, ⊤};
ghost use Rattle.std.specs.Option.{option_map};
ghost use Rattle.std.specs.List.{position};
ghost use Rattle.std.specs.Io.KnownBytes.{Consumes, IsAtEnd, Keeps};
ghost use Rattle.resolvo_text.specs.Sources.{SourceFailed};
ghost use Rattle.resolve_check.specs.Input.{IsSplit, IsFirstLine, parting, IsInputFault};

use crate::outcome::RunFault;
use resolvo_catalogue_core::{IoFault, Source};
use std::alloc::Global;

/// The most bytes of standard input.
pub const INPUT_LIMIT: usize = 33_554_432;

// This number is in `resolvo_text` too, which doesn't export it.
/// The most interruptions in a row; the next one is a failure.
const MOST_INTERRUPTIONS: u32 = 1000;

/// How many bytes the reader is asked for at once.
const PIECE: usize = 4_096;

/// Reads bytes into the start of the buffer, and returns how many: 0 only at the end.
fn read_some<S: Source>(source: &mut S, buffer: &mut [u8]) -> Result<usize, RunFault>
    requires { 0 < length buffer.old }
    // The bytes that were read.
    ensures within { IfOk result (λ n. n ≤ length buffer.new) }
    ensures consumed { IfOk result (λ n. Consumes (S.left source.old) (S.left source.new)
        (take n buffer.new)) }
    ensures end { IfOk result (λ n. n ≡ 0 → IsAtEnd (S.left source.new)) }
    ensures counted { OnOk result (S.failures source.new ≡ S.failures source.old) }
    // After a refusal.
    ensures fault { MatchResult result (λ _. ⊤)
        (λ e.
        IsInputFault e (S.left source.old) 0
        (SourceFailed S.Source source.old source.new)) }
    ensures read_fault { MatchResult result (λ _. ⊤) (λ e. e ≡ RunFault.Reader) }
{
    for _try in 0..MOST_INTERRUPTIONS + 1 {
        match source.read(buffer) {
            Ok(count) => return Ok(count),
            Err(IoFault::Interrupted) => {}
            Err(IoFault::Failed) => return Err(RunFault::Reader),
        }
    }
    Err(RunFault::Reader)
}

/// Reads all bytes up to the end, at most `limit` of them.
pub fn read_input<S: Source>(
    alloc: Global,
    source: &mut S,
    limit: usize,
) -> Result<Vec<u8>, RunFault>
    ensures all { IfOk result
        (λ bytes.
        Consumes (S.left source.old) (S.left source.new) bytes.items
        × IsAtEnd (S.left source.new)) }
    ensures within { IfOk result (λ bytes. vec_len bytes ≤ limit) }
    ensures fault { MatchResult result (λ _. ⊤)
        (λ e.
        IsInputFault e (S.left source.old) limit
        (SourceFailed S.Source source.old source.new)) }
{
    let mut all = Vec::new(alloc);
    let mut piece = [0u8; PIECE];
    while all.len() <= limit {
        let count = read_some(source, &mut piece)?;
        if count == 0 {
            return Ok(all);
        }
        all.extend_from_slice(&piece[..count])?;
    }
    Err(RunFault::TooLong)
}

/// The place of the first newline.
fn newline_in(text: &[u8]) -> Option<usize>
    ensures { result ≡ position (λ b. b == 10) text.now }
{
    text.iter().position(|b| *b == b'\n')
}

/// The first line, and the text after its newline, where it has one.
fn first_line(text: &[u8]) -> (&[u8], Option<&[u8]>)
    ensures { IsFirstLine text.now result.0.now (option_map (λ r. r.now) result.1) }
{
    match newline_in(text) {
        Some(end) => (&text[..end], Some(&text[end + 1..])),
        None => (text, None),
    }
}

/// Whether the line separates the catalogue and the request.
fn is_parting(line: &[u8]) -> bool
    ensures yes { result ≡ true → line.now ≡ parting }
    ensures no { result ≡ false → line.now ≡ parting → ⊥ }
{
    line == b"---".as_slice()
}

/// The catalogue, above the first line `---`, and the request, below it.
pub fn split_input(input: &[u8]) -> (&[u8], &[u8])
    ensures { IsSplit input.now result.0.now result.1.now }
{
    let mut start = 0;
    let mut rest = input;
    loop {
        let (line, below) = first_line(rest);
        match (is_parting(line), below) {
            (true, Some(below)) => return (&input[..start], below),
            (true, None) => return (&input[..start], &input[input.len()..]),
            (false, Some(below)) => {
                start += line.len() + 1;
                rest = below;
            }
            (false, None) => return (input, &input[input.len()..]),
        }
    }
}
