//! What a copy shows of a title: its word, and that the licensees who put the copy together explain the word.
#![tactic(auto)]

mod laws;

pub use laws::{copies_are_explained, words_forget_order, worked_words};
