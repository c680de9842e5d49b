//! Titles made of the variants that a store holds, and the playlists that licensees get of them.
#![tactic(auto)]

mod errors;
mod licence;
mod making;
mod marking;
mod packaging;
mod refusals;
mod symbols;

pub use errors::{PackError, PlaylistFailure};
pub use making::make_title;
pub use packaging::{fits, playlist};
