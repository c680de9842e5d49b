//! Media playlists of HTTP Live Streaming: read to the first fault, from bytes or from pieces of them, kept, and written.
#![tactic(auto)]

mod class;
mod durations;
mod errors;
mod line_reader;
mod list_reader;
mod list_state;
mod media_line;
mod media_list;
mod pieces;
mod reading;
mod segment;
mod tag_values;
mod waiting;
mod writing;

pub use errors::{ListError, PlaylistError, PushError, SegmentError};
pub use list_reader::ListReader;
pub use media_list::MediaList;
pub use reading::read;
pub use segment::Segment;
pub use writing::write;
