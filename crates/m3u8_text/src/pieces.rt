//! A reader of pieces, which may be cut anywhere.

ghost use Rattle.std.specs.Prelude.{◌≡◌, ◌≤◌, ◌<◌, ◌^◌, ◌+◌, ◌++◌, List, [], ◌∷◌, ℕ, length, vec_len, MatchOption, IfSome, OnOk};
ghost use Rattle.m3u8_text.specs.Readers.{IsOneLine};
ghost use Rattle.playlist_terms.specs.Reading.{playlist_of};
ghost use Rattle.m3u8_text.specs.Answers.{ReadsAs};
ghost use Rattle.playlist_terms.specs.MediaLines.{MediaLine, media_line};
ghost use Rattle.std.specs.Str.Lines.{strip_carriage_return};
ghost use Rattle.m3u8_text.specs.Readers.{StandsAt, IsAt, StandsFor, TakesLine, HasTaken};

use crate::class::{place_of, without_return};
use crate::errors::{LineError, PlaylistError};
use crate::line_reader::LineReader;
use crate::media_list::MediaList;
use lists::Memory;
use playlist_terms::LineFault;
use std::alloc::Global;

/// The lines that came whole, the bytes behind the last line feed, and the first fault.
#[derive(Drop)]
pub(crate) struct Pieces {
    pub(crate) alloc: Global,
    pub(crate) reader: LineReader,
    pub(crate) tail: Vec<u8>,
    pub(crate) fault: Option<LineFault>,
}

impl Pieces {
    /// A reader of no bytes.
    pub(crate) fn new(alloc: Global) -> Pieces
        ensures stands { StandsAt result [] }
        ensures room { result.reader.lines + vec_len result.tail ≡ 0 }
    {
        Pieces {
            alloc,
            reader: LineReader::new(alloc),
            tail: Vec::new(alloc),
            fault: None,
        }
    }

    /// Takes the next piece. After the first fault it passes over what comes.
    pub(crate) fn take(&mut self, piece: &[u8]) -> Result<(), Memory>
        requires { self.old.reader.lines + vec_len self.old.tail + length piece.now < 2 ^ 32 }
        ensures stands { (before : List ℕ) → StandsAt self.old before
            → OnOk result (StandsAt self.new (before ++ piece.now)) }
        ensures room { OnOk result (self.new.reader.lines + vec_len self.new.tail
            ≤ self.old.reader.lines + vec_len self.old.tail + length piece.now) }
    {
        let mut rest = piece;
        'lines: while let Some((end, after)) = cut_feed(rest) {
            self.end_line(end)?;
            rest = after;
        }
        self.keep(rest)
    }

    /// Takes the bytes up to a line feed, and the line feed.
    fn end_line(&mut self, end: &[u8]) -> Result<(), Memory>
        requires room { self.old.reader.lines + vec_len self.old.tail + length end.now + 1
            < 2 ^ 32 }
        requires one { IsOneLine end.now }
        ensures stands { (before : List ℕ) → StandsAt self.old before
            → OnOk result (StandsAt self.new (before ++ (end.now ++ 10 ∷ []))) }
        ensures room { OnOk result (self.new.reader.lines + vec_len self.new.tail
            ≤ self.old.reader.lines + vec_len self.old.tail + length end.now + 1) }
    {
        if self.fault.is_some() {
            return Ok(());
        }
        let Err(error) = self.take_line(end) else {
            return Ok(());
        };
        match error {
            LineError::Memory => Err(Memory),
            LineError::Faulty(fault) => {
                self.fault = Some(LineFault {
                    line: self.reader.lines,
                    fault,
                });
                Ok(())
            }
        }
    }

    /// Takes the line that ends with these bytes: out of the piece where it stands whole in it.
    fn take_line(&mut self, end: &[u8]) -> Result<(), LineError>
        requires { self.old.reader.lines + 1 < 2 ^ 32 }
        ensures line { (before : List MediaLine) → StandsFor self.old.reader before
            → TakesLine result before self.new.reader
            (media_line (strip_carriage_return (self.old.tail.items ++ end.now))) }
        ensures number { HasTaken result self.old.reader.lines self.new.reader.lines }
        ensures tail { OnOk result (self.new.tail.items ≡ []) }
        ensures fault { self.new.fault ≡ self.old.fault }
        ensures room { self.new.reader.lines + vec_len self.new.tail
            ≤ self.old.reader.lines + vec_len self.old.tail + length end.now + 1 }
    {
        if self.tail.is_empty() {
            return self.reader.take(self.alloc, without_return(end));
        }
        self.tail.extend_from_slice(end)?;
        self.reader
            .take(self.alloc, without_return(self.tail.as_slice()))?;
        self.tail.clear();
        Ok(())
    }

    /// Takes bytes without a line feed.
    fn keep(&mut self, rest: &[u8]) -> Result<(), Memory>
        requires { IsOneLine rest.now }
        ensures stands { (before : List ℕ) → StandsAt self.old before
            → OnOk result (StandsAt self.new (before ++ rest.now)) }
        ensures room { OnOk result (self.new.reader.lines + vec_len self.new.tail
            ≤ self.old.reader.lines + vec_len self.old.tail + length rest.now) }
    {
        if self.fault.is_some() {
            return Ok(());
        }
        self.tail.extend_from_slice(rest)?;
        Ok(())
    }

    /// The playlist of all bytes that came.
    pub(crate) fn finish(self) -> Result<MediaList, PlaylistError>
        requires { self.reader.lines + vec_len self.tail < 2 ^ 32 }
        ensures { (bytes : List ℕ) → StandsAt self bytes → ReadsAs result (playlist_of bytes) }
    {
        match self.fault {
            Some(found) => Err(found.into()),
            None => end(self.alloc, self.reader, self.tail.as_slice()),
        }
    }
}

/// The playlist of a reader that took every line but the one behind the last line feed.
fn end(alloc: Global, mut reader: LineReader, tail: &[u8]) -> Result<MediaList, PlaylistError>
    requires { reader.lines + length tail.now < 2 ^ 32 }
    ensures { (bytes : List ℕ) → IsAt bytes tail.now reader → ReadsAs result (playlist_of bytes) }
{
    if tail.is_empty() {
        return reader.finish();
    }
    let Err(error) = reader.take(alloc, without_return(tail)) else {
        return reader.finish();
    };
    match error {
        LineError::Memory => Err(PlaylistError::Memory),
        LineError::Faulty(fault) => Err(PlaylistError::Line {
            number: reader.lines,
            fault,
        }),
    }
}

/// The bytes in front of the first line feed and those behind it; `None` where there is none.
fn cut_feed(bytes: &[u8]) -> Option<(&[u8], &[u8])>
    ensures parts { MatchOption result (IsOneLine bytes.now) (λ cut. (bytes.now
        ≡ cut.0.now ++ 10 ∷ cut.1.now) × IsOneLine cut.0.now) }
    ensures shorter { IfSome result (λ cut. length cut.0.now + length cut.1.now + 1
        ≡ length bytes.now) }
{
    let place = place_of(bytes, b'\n')?;
    Some((&bytes[..place], &bytes[place + 1..]))
}
