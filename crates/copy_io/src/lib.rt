//! What commands that read a copy share: what title, register and bound have to be, and the word that the copy shows.
#![tactic(auto)]

mod demands;
mod word;

pub use demands::{demanded, fits, is_served, mismatch};
pub use word::word_shown;
