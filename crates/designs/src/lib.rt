//! Designs of titles: which segments are marked, by which code, and how the variants are named.
//!
//! A design is made of its values or read from a TOML document; the first rule that is broken is told exactly.
#![tactic(auto)]

mod design;
mod document;
mod errors;
mod judging;
mod rules;

pub use design::Design;
pub use errors::DesignError;
pub use rules::{are_enough, have_room, is_above, is_affix, is_light};
pub use title_terms::{DesignFault, Key};
