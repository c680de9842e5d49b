//! What the lines say that were read so far.

ghost use Rattle.std.specs.Prelude.{◌≡◌, ◌<◌, ◌≤◌, ◌^◌, suc, List, [], ◌∷◌, length, true};
ghost use Rattle.std.specs.Option.{ForSome};
ghost use Rattle.playlist_terms.specs.Lines.{stands_as_uri};
ghost use Rattle.playlist_terms.specs.MediaLines as said;
ghost use Rattle.playlist_terms.specs.Reading.{IsSaid};
ghost use Rattle.m3u8_text.specs.Progress.{progress_of, Takes, TakesOrStops, Ends};
ghost use Rattle.m3u8_text.specs.Seen.{said};

use crate::errors::{LineError, PlaylistError};
use crate::media_line::MediaLine;
use crate::media_list::MediaList;
use crate::segment::Segment;
use crate::waiting::Waiting;
use lists::Text;
use playlist_terms::PlaylistFault;
use std::alloc::Global;
use std::marker::Model;
use texts::is_name;

const MOST_SEGMENTS: u32 = 100_000;

/// The list so far, which tags stood, and what waits for the next URI.
#[derive(Drop)]
pub(crate) struct ListState {
    list: MediaList,
    has_version: bool,
    has_target: bool,
    has_sequence: bool,
    has_kind: bool,
    has_end: bool,
    waiting: Option<Waiting>,
    cut: bool,
}

impl Model for ListState {
    ghost use Rattle.std.specs.Prelude.{◌<◌, ◌^◌};
    ghost use Rattle.std.specs.Option.{ForSome};
    ghost use Rattle.m3u8_text.specs.Progress.{Progress};

    ghost Value = { Progress };

    ghost view = { λ s. record { list = s.list; has_version = s.has_version; has_target = s.has_target; has_sequence = s.has_sequence; has_kind = s.has_kind; has_end = s.has_end; waiting = s.waiting; cut = s.cut } };

    ghost invariant = { λ s. ForSome s.waiting (λ w. w.micros < 10 ^ 16) };
}

impl ListState {
    /// The state in front of the first line.
    pub(crate) fn new(alloc: Global) -> ListState
        ensures { result ≡ progress_of [] }
    {
        ListState {
            list: MediaList::empty(alloc),
            has_version: false,
            has_target: false,
            has_sequence: false,
            has_kind: false,
            has_end: false,
            waiting: None,
            cut: false,
        }
    }

    /// Takes what a line after the first one says. The line has this number.
    pub(crate) fn take(
        &mut self,
        alloc: Global,
        line: MediaLine<'_>,
        number: u32,
    ) -> Result<(), LineError>
        requires { IsSaid (said line) }
        ensures { (before : List said.MediaLine) → number ≡ suc (length before)
            → self.old ≡ progress_of before
            → TakesOrStops result before self.new (said line.entry) }
    {
        match line {
            MediaLine::Duration(value) => Ok(self.take_duration(value, number)?),
            MediaLine::Uri(uri) => self.take_uri(alloc, uri),
            MediaLine::Silent => Ok(()),
            MediaLine::Cut => {
                self.take_cut();
                Ok(())
            }
            MediaLine::Version(value) => Ok(self.take_version(value)?),
            MediaLine::Target(value) => Ok(self.take_target(value)?),
            MediaLine::Sequence(value) => Ok(self.take_sequence(value)?),
            MediaLine::Kind(vod) => Ok(self.take_kind(vod)?),
            MediaLine::End => Ok(self.take_end()?),
            MediaLine::Key(true) => Ok(()),
            MediaLine::Key(false) => Err(LineError::Faulty(PlaylistFault::Encrypted)),
            MediaLine::Outside => Err(LineError::Faulty(PlaylistFault::Unsupported)),
            MediaLine::Start => Err(LineError::Faulty(PlaylistFault::Repeat)),
            MediaLine::StartTag => Err(LineError::Faulty(PlaylistFault::Repeat)),
            MediaLine::NotText => Err(LineError::Faulty(PlaylistFault::Utf8)),
        }
    }

    /// Takes the version, which may come once.
    fn take_version(&mut self, value: Option<u32>) -> Result<(), PlaylistFault>
        requires { ForSome value (λ n. (1 ≤ n) × (n ≤ 65535)) }
        ensures { (before : List said.MediaLine) → self.old ≡ progress_of before
            → Takes result before self.new (said.Version value) }
    {
        if self.has_version {
            return Err(PlaylistFault::Repeat);
        }
        let Some(version) = value else {
            return Err(PlaylistFault::Number);
        };
        self.list.set_version(version);
        self.has_version = true;
        Ok(())
    }

    /// Takes the target duration, which may come once.
    fn take_target(&mut self, value: Option<u64>) -> Result<(), PlaylistFault>
        ensures { (before : List said.MediaLine) → self.old ≡ progress_of before
            → Takes result before self.new (said.Target value) }
    {
        if self.has_target {
            return Err(PlaylistFault::Repeat);
        }
        let Some(target) = value else {
            return Err(PlaylistFault::Number);
        };
        self.list.set_target(target);
        self.has_target = true;
        Ok(())
    }

    /// Takes the number of the first segment, which may come once.
    fn take_sequence(&mut self, value: Option<u64>) -> Result<(), PlaylistFault>
        ensures { (before : List said.MediaLine) → self.old ≡ progress_of before
            → Takes result before self.new (said.Sequence value) }
    {
        if self.has_sequence {
            return Err(PlaylistFault::Repeat);
        }
        let Some(sequence) = value else {
            return Err(PlaylistFault::Number);
        };
        self.list.set_sequence(sequence);
        self.has_sequence = true;
        Ok(())
    }

    /// Takes the playlist's type, which has to be `VOD`.
    fn take_kind(&mut self, vod: bool) -> Result<(), PlaylistFault>
        ensures { (before : List said.MediaLine) → self.old ≡ progress_of before
            → Takes result before self.new (said.Kind vod) }
    {
        if self.has_kind {
            return Err(PlaylistFault::Repeat);
        }
        if !vod {
            return Err(PlaylistFault::Unsupported);
        }
        self.has_kind = true;
        Ok(())
    }

    /// Takes the end tag, which may come once.
    fn take_end(&mut self) -> Result<(), PlaylistFault>
        ensures { (before : List said.MediaLine) → self.old ≡ progress_of before
            → Takes result before self.new said.End }
    {
        if self.has_end {
            return Err(PlaylistFault::Repeat);
        }
        self.has_end = true;
        Ok(())
    }

    /// Takes a discontinuity, which stands before the next segment.
    fn take_cut(&mut self)
        ensures { (before : List said.MediaLine) → self.old ≡ progress_of before
            → self.new ≡ progress_of (said.Cut ∷ before) }
    {
        self.cut = true;
    }

    /// The line of the duration has this number.
    fn take_duration(&mut self, value: Option<u64>, line: u32) -> Result<(), PlaylistFault>
        requires { ForSome value (λ n. n < 10 ^ 16) }
        ensures { (before : List said.MediaLine) → line ≡ suc (length before)
            → self.old ≡ progress_of before → Takes result before self.new (said.Duration value) }
    {
        if self.waiting.is_some() {
            return Err(PlaylistFault::TwoDurations);
        }
        let Some(micros) = value else {
            return Err(PlaylistFault::Number);
        };
        self.waiting = Some(Waiting { micros, line });
        Ok(())
    }

    /// Takes a URI, which ends a segment.
    fn take_uri(&mut self, alloc: Global, uri: &str) -> Result<(), LineError>
        requires { stands_as_uri uri.now ≡ true }
        ensures { (before : List said.MediaLine) → self.old ≡ progress_of before
            → TakesOrStops result before self.new (said.Uri uri.now) }
    {
        let Some(waiting) = self.waiting else {
            return Err(LineError::Faulty(PlaylistFault::NoDuration));
        };
        if !is_name(uri) {
            return Err(LineError::Faulty(PlaylistFault::BadUri));
        }
        if self.list.len() >= MOST_SEGMENTS {
            return Err(LineError::Faulty(PlaylistFault::TooMany));
        }
        let segment = Segment::over(waiting.micros, Text::of(alloc, uri)?, self.cut);
        if self.list.push(segment).is_err() {
            return Err(LineError::Memory);
        }
        self.waiting = None;
        self.cut = false;
        Ok(())
    }

    /// The list, where nothing is missing after the last line.
    pub(crate) fn finish(self) -> Result<MediaList, PlaylistError>
        ensures { (before : List said.MediaLine) → 0 < length before → self ≡ progress_of before
            → Ends result before }
    {
        if let Some(waiting) = self.waiting {
            return Err(PlaylistError::Line {
                number: waiting.line,
                fault: PlaylistFault::NoUri,
            });
        }
        if !self.has_target {
            return Err(PlaylistError::Line {
                number: 0,
                fault: PlaylistFault::NoTarget,
            });
        }
        if !self.has_end {
            return Err(PlaylistError::Line {
                number: 0,
                fault: PlaylistFault::NoEnd,
            });
        }
        Ok(self.list)
    }
}
