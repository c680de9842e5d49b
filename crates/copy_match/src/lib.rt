//! What a copy shows of a title: the word, from the digests of the copy's segments.
#![tactic(auto)]

mod error;
mod matching;
mod reader;

pub use error::MatchError;
pub use matching::match_copy;
pub use reader::CopyReader;
