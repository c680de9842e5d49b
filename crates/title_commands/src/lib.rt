//! The commands on titles: the text of a title, and the playlist of a licensee.
#![tactic(auto)]

mod package;
mod title;

pub use package::playlist_text;
pub use title::title_text;
