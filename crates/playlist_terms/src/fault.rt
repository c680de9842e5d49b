//! Why a text is no media playlist of the profile that is read.

/// What is wrong with a line, or after the last one.
#[derive(Clone, Copy, Debug, PartialEq, Eq)]
pub enum PlaylistFault {
    /// The first line is not exactly `#EXTM3U`.
    NotM3u,
    /// The line is not UTF-8.
    Utf8,
    /// The value of a tag is no number of the form that the tag wants.
    Number,
    /// A tag stands a second time that may stand once.
    Repeat,
    /// A duration, while an earlier one has no URI yet.
    TwoDurations,
    /// A URI without a duration.
    NoDuration,
    /// A duration whose URI never comes.
    NoUri,
    /// A URI that is no name of a blob.
    BadUri,
    /// The segments are encrypted.
    Encrypted,
    /// A tag that the profile leaves out, or a playlist that is not of type `VOD`.
    Unsupported,
    /// One URI more than the 100,000 that a playlist may have.
    TooMany,
    /// No target duration stands anywhere.
    NoTarget,
    /// No end tag stands anywhere.
    NoEnd,
}

/// A fault with the line that has it.
#[derive(Clone, Copy, Debug, PartialEq, Eq)]
pub struct LineFault {
    /// The number of the line, counted from 1; 0 where what is missing belongs to no line.
    pub line: u32,
    /// What is wrong.
    pub fault: PlaylistFault,
}
