//! Words of a code and their messages: what a codeword's symbols are, which places of a word agree with a message,
//! and which word a text spells.
#![tactic(auto)]

mod laws;
mod message;
mod word_fault;

pub use laws::{
    places_are_places, symbols_are_symbols, texts_spell_words, words_are_their_tokens,
    worked_examples,
};
pub use message::Message;
pub use word_fault::WordFault;
