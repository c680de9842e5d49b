//! What a report on a copy says of coalitions: the laws from playlists to accused licensees.
#![tactic(auto)]

mod laws;

pub use laws::traced_copies;
