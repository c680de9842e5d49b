//! What is made of titles: a licensee's playlist, a title from the variants that are held, and what is refused on the way.
#![tactic(auto)]

mod laws;

pub use laws::{
    first_hindrances, licensed_texts_are_read, licensees_get_their_variants, made_titles_are_valid,
    variants_have_their_own_names, worked_examples, worked_film,
};
