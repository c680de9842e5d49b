//! What the commands of titles read: the design, the media playlist and the title that a blob holds.
#![tactic(auto)]

mod design;
mod playlist;
mod title;

pub use design::design_under;
pub use playlist::playlist_under;
pub use title::title_under;
