//! What a media playlist of HTTP Live Streaming is, how its text is read and written, and the laws of both.
//!
//! `specs/Lines` and `specs/TagValues` hold what playlists of every kind share: lines, and tags with name and value.
//! `MediaLines`, `Playlists`, `Faults` and `Reading` are about media playlists alone.
#![tactic(auto)]

mod fault;
mod laws;

pub use fault::{LineFault, PlaylistFault};
pub use laws::{cut_texts, read_lists_are_allowed, texts_are_read, worked_examples, worked_faults};
