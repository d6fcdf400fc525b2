//! One line of a report.
//!
//! A line is parsed from left to right, as in specs/Parse.antt. The reader of whole reports calls
//! `line_shown`.

ghost use Rattle.std.specs.Prelude.{◌≡◌, [], ◌∷◌, if◌then◌else◌, Some, None, Err, IfOk, map, drop};
ghost use Rattle.std.specs.Option.{option_map};
ghost use Rattle.std.specs.List.{position, join_with_byte, slice_split};
ghost use Rattle.resolvo_text.specs.declared.line.LineFault.TheVariants.{Fault};
ghost use Rattle.resolvo_text.specs.View.{version_of};
ghost use Rattle.resolvo_text.specs.Parse.{Gives, words_in};
ghost use Rattle.resolvo_report.specs.View.{literals_of, step_of, report_line_of};
ghost use Rattle.resolvo_report.specs.Shown.{Shows};
ghost use Rattle.resolvo_report.specs.Pieces.{texts_of};
ghost use Rattle.resolvo_report.specs.Parse.{is_semicolon, is_close, text_behind, literals_behind, pieces_in, literals_in, numbers_in, causes_in, causes_behind, derived_in, limit_in, need_in, gate_in, shared_in, outside_in, matches_in, lock_in, digit_in, any_in, definition_by, step_by, left_out_in, numbered_in, entry_in, line_by, is_message, line_read};

use crate::parse_part::{
    behind, bit_at, line_at, line_in as last_line, line_number_at, literal_behind, number_at,
    place_at, specs_at, version_at, version_in,
};
use crate::report::{AnswerLine, ReportLine};
use crate::step::{Literal, Step};
use resolvo_literal_order::are_in_order;
use resolvo_text::{LineFault, Version, first_word, no_more, number_of, skip, spec_at, word_at};
use std::alloc::{AllocError, Global};

/// The pieces of the text between semicolons.
fn pieces_of<'a>(alloc: Global, text: &'a [u8]) -> Result<Vec<&'a [u8]>, AllocError>
    ensures { IfOk result (λ v. texts_of v.items ≡ slice_split is_semicolon text.now) }
{
    text.split(|b| *b == b';').collect(alloc)
}

/// The pieces, each without its first sign.
fn texts_behind<'a>(alloc: Global, pieces: &[&'a [u8]]) -> Result<Vec<&'a [u8]>, AllocError>
    ensures { IfOk result (λ v. texts_of v.items ≡ map text_behind (texts_of pieces.now)) }
{
    let mut texts = Vec::new(alloc);
    for piece in pieces {
        let text = match piece.split_first() {
            Some((_, text)) => text,
            None => *piece,
        };
        texts.push(text)?;
    }
    Ok(texts)
}

/// The literals of the pieces, the first after a bracket and the others after a space.
fn literals_behind(alloc: Global, pieces: &[&[u8]]) -> Result<Vec<Literal>, LineFault>
    ensures { Gives (λ v. literals_of v.items) result (literals_behind 91 (texts_of pieces.now)) }
{
    let mut literals = Vec::new(alloc);
    let mut sign = b'[';
    for piece in pieces {
        literals.push(literal_behind(alloc, sign, *piece)?)?;
        sign = b' ';
    }
    Ok(literals)
}

#[tactic(auto, unfolding(crate::specs::Parse::pieces_in))]
fn pieces_in(alloc: Global, pieces: &[&[u8]]) -> Result<Vec<Literal>, LineFault>
    ensures { Gives (λ v. literals_of v.items) result (pieces_in (texts_of pieces.now)) }
{
    let literals = literals_behind(alloc, pieces)?;
    let texts = texts_behind(alloc, pieces)?;
    if are_in_order(alloc, &texts)? {
        Ok(literals)
    } else {
        Err(LineFault::Fault)
    }
}

fn semicolon_in(text: &[u8]) -> Option<usize>
    ensures { result ≡ position is_semicolon text.now }
{
    text.iter().position(|b| *b == b';')
}

/// The literal of a text without semicolons. One literal is in order.
#[tactic(auto, unfolding(crate::specs::Parse::pieces_in))]
fn one_literal_in(alloc: Global, text: &[u8]) -> Result<Vec<Literal>, LineFault>
    ensures { Gives (λ v. literals_of v.items) result (pieces_in (text.now ∷ [])) }
{
    let literal = literal_behind(alloc, b'[', text)?;
    Ok(vec![in alloc; literal]?)
}

/// The literals of a clause, without its closing bracket.
#[tactic(auto, using(crate::proofs::ClauseLemmas::only_piece), unfolding(crate::specs::Parse::literals_in))]
fn literals_in(alloc: Global, text: &[u8]) -> Result<Vec<Literal>, LineFault>
    ensures { Gives (λ v. literals_of v.items) result (literals_in text.now) }
{
    if text == b"[".as_slice() {
        return Ok(Vec::new(alloc));
    }
    match semicolon_in(text) {
        None => one_literal_in(alloc, text),
        Some(_) => {
            let pieces = pieces_of(alloc, text)?;
            pieces_in(alloc, &pieces)
        }
    }
}

/// The words as numbers.
fn numbers_in(alloc: Global, words: &[u8]) -> Result<Vec<u32>, LineFault>
    ensures { Gives (λ v. v.items) result (numbers_in (words_in words.now)) }
{
    let mut numbers = Vec::new(alloc);
    let mut rest = words;
    while !rest.is_empty() {
        let (word, after) = word_at(rest)?;
        numbers.push(number_of(word)?)?;
        rest = after;
    }
    Ok(numbers)
}

/// One number or more after `by`.
#[tactic(auto, unfolding(crate::specs::Parse::causes_in))]
fn causes_in(alloc: Global, words: &[u8]) -> Result<Vec<u32>, LineFault>
    ensures { Gives (λ v. v.items) result (causes_in (words_in words.now)) }
{
    let numbers = numbers_in(alloc, behind(words, b"by")?)?;
    if numbers.is_empty() {
        return Err(LineFault::Fault);
    }
    Ok(numbers)
}

/// The same, of a text after a space.
#[tactic(auto, unfolding(crate::specs::Parse::causes_behind))]
fn causes_behind(alloc: Global, text: &[u8]) -> Result<Vec<u32>, LineFault>
    ensures { Gives (λ v. v.items) result (causes_behind text.now) }
{
    let Some((first, _)) = text.split_first() else {
        return Err(LineFault::Fault);
    };
    if *first != b' ' {
        return Err(LineFault::Fault);
    }
    causes_in(alloc, text)
}

fn close_in(text: &[u8]) -> Option<usize>
    ensures { result ≡ position is_close text.now }
{
    text.iter().position(|b| *b == b']')
}

/// A derived step, of the text after its keyword and a space.
#[tactic(auto, unfolding(crate::specs::Parse::derived_in))]
fn derived_in(alloc: Global, text: &[u8]) -> Result<Step, LineFault>
    ensures { Gives step_of result (derived_in text.now) }
{
    let Some(at) = close_in(text) else {
        return Err(LineFault::Fault);
    };
    let literals = literals_in(alloc, &text[..at])?;
    let causes = causes_behind(alloc, &text[at + 1..])?;
    Ok(Step::Derive { literals, causes })
}

/// The remaining words of a line, without the space before them.
fn text_of(words: &[u8]) -> &[u8]
    ensures { result.now ≡ join_with_byte 32 (words_in words.now) }
{
    match words.split_first() {
        Some((_, text)) => text,
        None => words,
    }
}

#[tactic(auto, unfolding(crate::specs::Parse::need_in))]
fn need_in(alloc: Global, words: &[u8]) -> Result<Step, LineFault>
    ensures { Gives step_of result (need_in (words_in words.now)) }
{
    let (place, rest) = place_at(alloc, words)?;
    let (line, rest) = line_at(rest)?;
    let (case, rest) = number_at(behind(rest, b"case")?)?;
    no_more(rest)?;
    Ok(Step::Need { place, line, case })
}

#[tactic(auto, unfolding(crate::specs::Parse::gate_in))]
fn gate_in(alloc: Global, words: &[u8]) -> Result<Step, LineFault>
    ensures { Gives step_of result (gate_in (words_in words.now)) }
{
    let (version, rest) = version_at(alloc, words)?;
    let (line, rest) = line_at(rest)?;
    no_more(rest)?;
    Ok(Step::Gate { version, line })
}

#[tactic(auto, unfolding(crate::specs::Parse::shared_in))]
fn shared_in(alloc: Global, words: &[u8]) -> Result<Step, LineFault>
    ensures { Gives step_of result (shared_in (words_in words.now)) }
{
    let (alternatives, rest) = specs_at(alloc, words)?;
    no_more(rest)?;
    Ok(Step::Shared { alternatives })
}

#[tactic(auto, unfolding(crate::specs::Parse::limit_in))]
fn limit_in(alloc: Global, words: &[u8]) -> Result<Step, LineFault>
    ensures { Gives step_of result (limit_in (words_in words.now)) }
{
    let (place, rest) = place_at(alloc, words)?;
    let (line, rest) = line_at(rest)?;
    let (bars, forbidden) = skip(rest, b"bars");
    if bars {
        let (version, rest) = version_at(alloc, forbidden)?;
        no_more(rest)?;
        return Ok(Step::LimitBars {
            place,
            line,
            version,
        });
    }
    no_more(rest)?;
    Ok(Step::Limit { place, line })
}

#[tactic(auto, unfolding(crate::specs::Parse::outside_in))]
fn outside_in(alloc: Global, words: &[u8]) -> Result<Step, LineFault>
    ensures { Gives step_of result (outside_in (words_in words.now)) }
{
    let (spec, rest) = spec_at(alloc, words)?;
    let (version, rest) = version_at(alloc, behind(rest, b"holds")?)?;
    no_more(rest)?;
    Ok(Step::Outside { spec, version })
}

#[tactic(auto, unfolding(crate::specs::Parse::matches_in))]
fn matches_in(alloc: Global, words: &[u8]) -> Result<Step, LineFault>
    ensures { Gives step_of result (matches_in (words_in words.now)) }
{
    let (spec, rest) = spec_at(alloc, words)?;
    let (version, rest) = version_at(alloc, behind(rest, b"holds")?)?;
    no_more(rest)?;
    Ok(Step::Matches { spec, version })
}

#[tactic(auto, unfolding(crate::specs::Parse::lock_in))]
fn lock_in(alloc: Global, words: &[u8]) -> Result<Step, LineFault>
    ensures { Gives step_of result (lock_in (words_in words.now)) }
{
    let (line, rest) = line_at(words)?;
    let (version, rest) = version_at(alloc, behind(rest, b"bars")?)?;
    no_more(rest)?;
    Ok(Step::Lock { line, version })
}

#[tactic(auto, unfolding(crate::specs::Parse::digit_in))]
fn digit_in(alloc: Global, words: &[u8]) -> Result<Step, LineFault>
    ensures { Gives step_of result (digit_in (words_in words.now)) }
{
    let (version, rest) = version_at(alloc, words)?;
    let (place, rest) = number_at(behind(rest, b"place")?)?;
    let (bit, rest) = bit_at(behind(rest, b"bit")?)?;
    no_more(rest)?;
    Ok(Step::Digit {
        version,
        place,
        bit,
    })
}

#[tactic(auto, unfolding(crate::specs::Parse::any_in))]
fn any_in(alloc: Global, words: &[u8]) -> Result<Step, LineFault>
    ensures { Gives step_of result (any_in (words_in words.now)) }
{
    let (version, rest) = version_at(alloc, words)?;
    no_more(rest)?;
    Ok(Step::Any { version })
}

/// The step that defines an atom, from its keyword and the words after it.
#[tactic(auto, unfolding(crate::specs::Parse::definition_by))]
fn definition_by(alloc: Global, keyword: &[u8], words: &[u8]) -> Result<Step, LineFault>
    ensures { Gives (λ s. step_of s) result (definition_by keyword.now (words_in words.now)) }
{
    if keyword == b"shared".as_slice() {
        return shared_in(alloc, words);
    }
    if keyword == b"outside".as_slice() {
        return outside_in(alloc, words);
    }
    if keyword == b"matches".as_slice() {
        return matches_in(alloc, words);
    }
    if keyword == b"digit".as_slice() {
        return digit_in(alloc, words);
    }
    if keyword == b"any".as_slice() {
        return any_in(alloc, words);
    }
    Err(LineFault::Fault)
}

/// The step, from its keyword and the words after it: the rule of a line, a derived clause, or the
/// definition of an atom.
#[tactic(auto, unfolding(crate::specs::Parse::step_by))]
fn step_by(alloc: Global, keyword: &[u8], words: &[u8]) -> Result<Step, LineFault>
    ensures { Gives (λ s. step_of s) result (step_by keyword.now (words_in words.now)) }
{
    if keyword == b"need".as_slice() {
        return need_in(alloc, words);
    }
    if keyword == b"gate".as_slice() {
        return gate_in(alloc, words);
    }
    if keyword == b"limit".as_slice() {
        return limit_in(alloc, words);
    }
    if keyword == b"lock".as_slice() {
        return lock_in(alloc, words);
    }
    if keyword == b"exclude".as_slice() {
        let line = last_line(words)?;
        return Ok(Step::Exclude { line });
    }
    if keyword == b"unknown".as_slice() {
        let line = last_line(words)?;
        return Ok(Step::Unknown { line });
    }
    if keyword == b"derive".as_slice() {
        return derived_in(alloc, text_of(words));
    }
    definition_by(alloc, keyword, words)
}

#[tactic(auto, unfolding(crate::specs::Parse::left_out_in))]
fn left_out_in(alloc: Global, words: &[u8]) -> Result<ReportLine, LineFault>
    ensures { Gives report_line_of result (left_out_in (words_in words.now)) }
{
    let (version, rest) = version_at(alloc, behind(words, b"out")?)?;
    let (line, rest) = line_at(rest)?;
    let (step, rest) = line_number_at(behind(rest, b"by")?)?;
    no_more(rest)?;
    Ok(ReportLine::Answer(AnswerLine::LeftOut {
        version,
        line,
        step,
    }))
}

#[tactic(auto, unfolding(crate::specs::Parse::numbered_in))]
fn numbered_in(alloc: Global, words: &[u8]) -> Result<ReportLine, LineFault>
    ensures { Gives report_line_of result (numbered_in (words_in words.now)) }
{
    let (number, rest) = number_at(words)?;
    let (keyword, rest) = word_at(rest)?;
    let step = step_by(alloc, keyword, rest)?;
    Ok(ReportLine::Step { number, step })
}

/// A line that begins with a version.
#[tactic(auto, unfolding(crate::specs::Parse::entry_in))]
fn entry_in(alloc: Global, version: Version, words: &[u8]) -> Result<ReportLine, LineFault>
    ensures { Gives report_line_of result (entry_in (version_of version) (words_in words.now)) }
{
    let (found, rest) = skip(words, b"for");
    if found {
        let (place, rest) = place_at(alloc, rest)?;
        let (line, rest) = line_at(rest)?;
        no_more(rest)?;
        return Ok(ReportLine::Answer(AnswerLine::Entry {
            version,
            place,
            line,
        }));
    }
    let line = last_line(behind(words, b"wished")?)?;
    Ok(ReportLine::Answer(AnswerLine::Wished { version, line }))
}

/// The line, from its first word and the words after it.
#[tactic(auto, unfolding(crate::specs::Parse::line_by))]
fn line_by(alloc: Global, keyword: &[u8], words: &[u8]) -> Result<ReportLine, LineFault>
    ensures { Gives (λ l. report_line_of l) result (line_by keyword.now (words_in words.now)) }
{
    if keyword == b"step".as_slice() {
        return numbered_in(alloc, words);
    }
    if keyword == b"install".as_slice() {
        no_more(words)?;
        return Ok(ReportLine::Install);
    }
    if keyword == b"refused".as_slice() {
        no_more(words)?;
        return Ok(ReportLine::Refused);
    }
    if keyword == b"left".as_slice() {
        return left_out_in(alloc, words);
    }
    if keyword == b"catalogue".as_slice() {
        let line = last_line(words)?;
        return Ok(ReportLine::Catalogue { line });
    }
    if keyword == b"request".as_slice() {
        let line = last_line(words)?;
        return Ok(ReportLine::Request { line });
    }
    let version = version_in(alloc, keyword)?;
    entry_in(alloc, version, words)
}

/// The message after its sign, if the text begins with that.
fn message_in(text: &[u8]) -> Option<&[u8]>
    ensures { option_map (λ m. m.now) result ≡ (if is_message text.now then Some (drop 2 text.now)
        else None) }
{
    text.strip_prefix(b"| ")
}

#[tactic(auto, unfolding(crate::specs::Parse::line_read))]
fn line_read(alloc: Global, text: &[u8]) -> Result<ReportLine, LineFault>
    ensures { Gives report_line_of result (line_read text.now) }
{
    if let Some(message) = message_in(text) {
        let mut bytes = Vec::new(alloc);
        bytes.extend_from_slice(message)?;
        return Ok(ReportLine::Message { bytes });
    }
    let (keyword, words) = first_word(text);
    line_by(alloc, keyword, words)
}

/// A parsed line; the bytes of a message are kept or not.
#[tactic(auto, unfolding(crate::specs::Parse::line_read))]
pub(crate) fn line_shown(alloc: Global, text: &[u8], keeps: bool) -> Result<ReportLine, LineFault>
    ensures { Shows keeps result (line_read text.now) }
{
    if !keeps && message_in(text).is_some() {
        return Ok(ReportLine::Message {
            bytes: Vec::new(alloc),
        });
    }
    line_read(alloc, text)
}
