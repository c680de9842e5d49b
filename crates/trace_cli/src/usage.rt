//! What the program tells of itself where its words are no command.

use cli_words::{Status, Usage};
use std::io::Write;

/// Writes how the program is called to `error`, where that is why it was refused. What becomes of this text changes nothing else.
pub fn show_usage<W: Write>(status: Status, error: &mut W) {
    if let Status::BadWords = status {
        let _ = write!(error, "{Usage}");
    }
}
