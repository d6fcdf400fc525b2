//! The lines of a text that a device gives in pieces.
//!
//! What is left of the text is the unread bytes of the piece and the bytes that the device has
//! left. The readers of whole texts take one line after the other, and `room` bounds the bytes that
//! they take.

ghost use Rattle.std.specs.Prelude.{◌≡◌, ℕ, ◌+◌, ◌<◌, ◌≤◌, List, [], ◌∷◌, length, take, Option, Ok, Err, Some, None, IfOk, OnOk, IfSome, IfNone, IsTrue, IfErr, vec_len, false};
ghost use Rattle.std.specs.Option.{option_to_list};
ghost use Rattle.std.specs.Io.KnownBytes.{Consumes, Keeps, IsAtEnd};
ghost use Rattle.resolvo_text.specs.Sources.{SourceFailed};
ghost use Rattle.std.specs.List.{position};
ghost use Rattle.resolvo_text.specs.Lines.{newlines, is_newline};

use crate::device::{IoFault, MOST_INTERRUPTIONS, Source};
use memchr::memchr;
use std::alloc::{AllocError, AllocFailed, Global};
use thiserror::Error;

/// Why a text was not read.
#[derive(Clone, Copy, Debug, PartialEq, Eq, Error)]
pub enum ReadFault {
    /// The line of this number is faulty after the lines above it.
    #[error("fault at line {0}")]
    Fault(u32),
    /// The device failed, or was interrupted too often in a row.
    #[error("the text could not be read")]
    Reader,
    /// The text has more bytes than a text may have.
    #[error("the text is too long")]
    TooLong,
    #[error("out of memory")]
    Memory,
    /// No reader gives this: one that lacks numbers answers `Memory`.
    #[error("out of numbers")]
    Ids,
}

impl From<AllocError> for ReadFault {
    ghost use Rattle.resolvo_text.specs.declared.lines.ReadFault.TheVariants.{Memory};

    ghost from_gives = { λ _ e. e ≡ Memory };

    fn from(_error: AllocError) -> Self {
        ReadFault::Memory
    }
}

impl<T: Drop> From<AllocFailed<T>> for ReadFault {
    ghost use Rattle.resolvo_text.specs.declared.lines.ReadFault.TheVariants.{Memory};

    ghost from_gives = { λ _ e. e ≡ Memory };

    fn from(_error: AllocFailed<T>) -> Self {
        ReadFault::Memory
    }
}

/// How many bytes a device is asked for at once.
const PIECE: usize = 16_384;

/// Reads one line after the other, and buffers no more than one piece and one line.
///
/// A line that lies in the piece with its newline is not copied.
#[derive(Drop)]
pub struct LineReader {
    piece: Vec<u8>,
    at: usize,
    end: usize,
    /// Whether the last line that was taken lies in the piece, and where. If not, it is in `line`.
    in_place: bool,
    line_begin: usize,
    line_end: usize,
    line: Vec<u8>,
    /// Whether the last line that was taken ended with a newline.
    whole: bool,
    /// How many bytes may still be taken.
    room: u32,
    ghost begun: { at ≤ end },
    ghost in_piece: { end ≤ vec_len piece },
    ghost has_piece: { 0 < vec_len piece },
    ghost line_begun: { line_begin ≤ line_end },
    ghost line_in_piece: { line_end ≤ vec_len piece },
}

/// The place of the first newline.
fn newline_in(bytes: &[u8]) -> Option<usize>
    ensures { result ≡ position is_newline bytes.now }
{
    memchr(b'\n', bytes)
}

/// How many bytes precede the first newline.
fn plain_bytes(bytes: &[u8]) -> usize
    ensures within { result ≤ length bytes.now }
    ensures plain { newlines (take result bytes.now) ≡ 0 }
{
    match newline_in(bytes) {
        Some(count) => count,
        None => bytes.len(),
    }
}

impl LineReader {
    ghost use Rattle.resolvo_text.specs.Reader.{left, unread, last_line, IsReadFault, IsAhead, TakesInPlace, TakesLine, TakesPlain, EndsLine};

    /// A reader that takes at most `limit` bytes.
    pub fn new(alloc: Global, limit: u32) -> Result<Self, AllocError>
        ensures fresh { IfOk result (λ reader. unread reader ≡ []) }
        ensures room { IfOk result (λ reader. reader.room ≡ limit) }
    {
        Ok(LineReader {
            piece: vec![in alloc; 0; PIECE]?,
            at: 0,
            end: 0,
            in_place: false,
            line_begin: 0,
            line_end: 0,
            line: Vec::new(alloc),
            whole: false,
            room: limit,
        })
    }

    /// Takes the next line. Returns false at the end of the text.
    ///
    /// Each whole line of the piece is returned before the device is read again. After a fault the
    /// reader can't be used any more.
    #[inline(always)]
    pub fn next_line<S: Source>(&mut self, source: &mut S) -> Result<bool, ReadFault>
        // After an answer.
        ensures taken { IfOk result
            (λ more. IsTrue more
            → TakesLine (left self.old (S.left source.old)) self.old.room
            (last_line self.new) (left self.new (S.left source.new)) self.new.room) }
        ensures ending { IfOk result
            (λ more. IsTrue more
            → EndsLine self.new.whole (left self.old (S.left source.old)) self.old.room
            (last_line self.new) (left self.new (S.left source.new)) self.new.room) }
        // Whatever the answer.
        ensures less { self.new.room ≤ self.old.room }
        // After an answer.
        ensures progress { IfOk result (λ more. IsTrue more → self.new.room < self.old.room) }
        ensures end { IfOk result (λ more. more ≡ false → IsAtEnd (left self.old (S.left source.old))) }
        ensures failures { OnOk result (S.failures source.new ≡ S.failures source.old) }
        // After a refusal.
        ensures fault { IfErr result
            (λ e.
            IsReadFault e (left self.old (S.left source.old)) (S.left source.new) self.old.room
            (SourceFailed S.Source source.old source.new)) }
    {
        if let Some(count) = self.bytes_ahead() {
            self.take_in_place(count);
            self.whole = true;
            return Ok(true);
        }
        self.take_across(source)
    }

    /// The last line that was taken.
    pub fn line(&self) -> &[u8]
        ensures { result.now ≡ last_line self.now }
    {
        if self.in_place {
            &self.piece[self.line_begin..self.line_end]
        } else {
            &self.line
        }
    }

    /// Whether the last line that was taken ended with a newline. If not, it is the text's last.
    pub fn is_whole(&self) -> bool
        ensures { result ≡ self.now.whole }
    {
        self.whole
    }

    /// How many bytes the next line has, if it lies in the piece with its newline and there is room.
    fn bytes_ahead(&self) -> Option<usize>
        ensures { IfSome result (λ count. IsAhead self.now count) }
    {
        let end = self.end.min(self.at + self.room as usize);
        newline_in(&self.piece[self.at..end])
    }

    /// Takes the line of so many bytes that lies ahead.
    fn take_in_place(&mut self, count: usize)
        requires { IsAhead self.old count }
        ensures { TakesInPlace self.old self.new }
    {
        self.in_place = true;
        self.line_begin = self.at;
        self.line_end = self.at + count;
        self.at = self.line_end + 1;
        self.room -= count as u32 + 1;
    }

    /// Takes the next line over as many pieces as it has.
    #[inline(never)]
    fn take_across<S: Source>(&mut self, source: &mut S) -> Result<bool, ReadFault>
        // After an answer.
        ensures copied { OnOk result (self.new.in_place ≡ false) }
        ensures taken { IfOk result
            (λ more. IsTrue more
            → TakesLine (left self.old (S.left source.old)) self.old.room
            self.new.line.items (left self.new (S.left source.new)) self.new.room) }
        ensures ending { IfOk result
            (λ more. IsTrue more
            → EndsLine self.new.whole (left self.old (S.left source.old)) self.old.room
            self.new.line.items (left self.new (S.left source.new)) self.new.room) }
        // Whatever the answer.
        ensures less { self.new.room ≤ self.old.room }
        // After an answer.
        ensures progress { IfOk result (λ more. IsTrue more → self.new.room < self.old.room) }
        ensures end { IfOk result (λ more. more ≡ false → IsAtEnd (left self.old (S.left source.old))) }
        ensures failures { OnOk result (S.failures source.new ≡ S.failures source.old) }
        // After a refusal.
        ensures fault { IfErr result
            (λ e.
            IsReadFault e (left self.old (S.left source.old)) (S.left source.new) self.old.room
            (SourceFailed S.Source source.old source.new)) }
    {
        self.line.clear();
        loop {
            self.take_plain()?;
            match self.next_byte(source)? {
                Some(b'\n') => {
                    self.in_place = false;
                    self.whole = true;
                    return Ok(true);
                }
                Some(byte) => self.line.push(byte)?,
                None => {
                    self.in_place = false;
                    self.whole = false;
                    return Ok(!self.line.is_empty());
                }
            }
        }
    }

    /// Takes the bytes of the piece before its next newline, as far as there is room for them.
    fn take_plain(&mut self) -> Result<(), AllocError>
        ensures taken { OnOk result (TakesPlain self.old self.new) }
        ensures less { self.new.room ≤ self.old.room }
    {
        let end = self.end.min(self.at + self.room as usize);
        let unread = &self.piece[self.at..end];
        let count = plain_bytes(unread);
        self.line.extend_from_slice(&unread[..count])?;
        self.at += count;
        self.room -= count as u32;
        Ok(())
    }

    /// Takes the next byte, or none at the end.
    fn next_byte<S: Source>(&mut self, source: &mut S) -> Result<Option<u8>, ReadFault>
        // After the call.
        ensures taken { IfOk result (λ next. Consumes (left self.old (S.left source.old))
            (left self.new (S.left source.new)) (option_to_list next)) }
        ensures end { IfOk result (λ next. IfNone next (IsAtEnd (left self.old (S.left source.old)))) }
        ensures less { self.new.room ≤ self.old.room }
        ensures room { IfOk result (λ next. self.new.room + length (option_to_list next) ≡ self.old.room) }
        ensures line { self.new.line ≡ self.old.line }
        ensures failures { OnOk result (S.failures source.new ≡ S.failures source.old) }
        // After a refusal.
        ensures fault { IfErr result
            (λ e.
            IsReadFault e (left self.old (S.left source.old)) (S.left source.new) self.old.room
            (SourceFailed S.Source source.old source.new)) }
    {
        self.refill(source)?;
        if self.at == self.end {
            return Ok(None);
        }
        if self.room == 0 {
            return Err(ReadFault::TooLong);
        }
        let byte = self.piece[self.at];
        self.at += 1;
        self.room -= 1;
        Ok(Some(byte))
    }

    /// Makes sure that a byte of the piece is left, unless the text has ended.
    fn refill<S: Source>(&mut self, source: &mut S) -> Result<(), ReadFault>
        // After an answer.
        ensures kept { OnOk result
            (Keeps (left self.old (S.left source.old)) (left self.new (S.left source.new))) }
        ensures end { OnOk result (self.new.at ≡ self.new.end → IsAtEnd (left self.old (S.left source.old))) }
        // Whatever the answer.
        ensures line { self.new.line ≡ self.old.line }
        ensures room { self.new.room ≡ self.old.room }
        // After an answer.
        ensures failures { OnOk result (S.failures source.new ≡ S.failures source.old) }
        // After a refusal.
        ensures fault { IfErr result
            (λ e.
            IsReadFault e (left self.old (S.left source.old)) (S.left source.new) self.old.room
            (SourceFailed S.Source source.old source.new)) }
    {
        if self.at == self.end {
            self.fill(source)?;
        }
        Ok(())
    }

    /// Reads the next piece.
    fn fill<S: Source>(&mut self, source: &mut S) -> Result<(), ReadFault>
        requires { self.old.at ≡ self.old.end }
        // After the call.
        ensures given { OnOk result (Consumes (S.left source.old) (S.left source.new) (unread self.new)) }
        ensures end { OnOk result (self.new.at ≡ self.new.end → IsAtEnd (S.left source.new)) }
        ensures line { self.new.line ≡ self.old.line }
        ensures room { self.new.room ≡ self.old.room }
        ensures failures { OnOk result (S.failures source.new ≡ S.failures source.old) }
        // After a refusal.
        ensures fault { IfErr result
            (λ e.
            IsReadFault e (left self.old (S.left source.old)) (S.left source.new) self.old.room
            (SourceFailed S.Source source.old source.new)) }
    {
        for _try in 0..MOST_INTERRUPTIONS + 1 {
            match source.read(&mut self.piece) {
                Ok(count) => {
                    self.at = 0;
                    self.end = count;
                    return Ok(());
                }
                Err(IoFault::Interrupted) => {}
                Err(IoFault::Failed) => return Err(ReadFault::Reader),
            }
        }
        Err(ReadFault::Reader)
    }
}
