//! A reader of lines, one after another.

ghost use Rattle.std.specs.Prelude.{◌≡◌, ◌≤◌, ◌<◌, ◌^◌, ◌+◌, List, [], None};
ghost use Rattle.playlist_terms.specs.MediaLines as terms;
ghost use Rattle.playlist_terms.specs.Faults.{start_fault};
ghost use Rattle.playlist_terms.specs.Reading.{first_fault, playlist_among};
ghost use Rattle.m3u8_text.specs.Answers.{ReadsAs};
ghost use Rattle.m3u8_text.specs.Readers.{StandsFor, TakesLine};
ghost use Rattle.m3u8_text.specs.Seen.{said};

use crate::errors::{LineError, PlaylistError};
use crate::list_state::ListState;
use crate::media_line::{MediaLine, media_line};
use crate::media_list::MediaList;
use playlist_terms::PlaylistFault;
use std::alloc::Global;

/// The number of lines that were taken, and what they say.
#[derive(Drop)]
pub(crate) struct LineReader {
    pub(crate) lines: u32,
    pub(crate) state: ListState,
}

impl LineReader {
    /// A reader in front of the first line.
    pub(crate) fn new(alloc: Global) -> LineReader
        ensures { StandsFor result [] }
    {
        LineReader {
            lines: 0,
            state: ListState::new(alloc),
        }
    }

    /// Takes the next line.
    pub(crate) fn take(&mut self, alloc: Global, text: &[u8]) -> Result<(), LineError>
        requires { self.old.lines + 1 < 2 ^ 32 }
        ensures line { (before : List terms.MediaLine) → StandsFor self.old before
            → TakesLine result before self.new (terms.media_line text.now) }
        ensures number { self.new.lines ≡ self.old.lines + 1 }
    {
        let line = media_line(text);
        let first = self.lines == 0;
        self.lines += 1;
        if !first {
            return self.state.take(alloc, line, self.lines);
        }
        match start_fault(line) {
            Some(fault) => Err(LineError::Faulty(fault)),
            None => Ok(()),
        }
    }

    /// The playlist of all lines that were taken, which have no fault.
    pub(crate) fn finish(self) -> Result<MediaList, PlaylistError>
        ensures { (before : List terms.MediaLine) → StandsFor self before
            → first_fault before ≡ None → ReadsAs result (playlist_among before) }
    {
        if self.lines == 0 {
            return Err(PlaylistError::Line {
                number: 1,
                fault: PlaylistFault::NotM3u,
            });
        }
        self.state.finish()
    }
}

/// What is wrong with the first line.
fn start_fault(line: MediaLine<'_>) -> Option<PlaylistFault>
    ensures { result ≡ start_fault (said line.entry) }
{
    match line {
        MediaLine::Start => None,
        MediaLine::NotText => Some(PlaylistFault::Utf8),
        _ => Some(PlaylistFault::NotM3u),
    }
}
