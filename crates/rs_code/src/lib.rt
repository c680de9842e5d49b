//! Reed-Solomon codes over a field: codewords, words with erasures, and where a message agrees with a word.
#![tactic(auto)]

mod code;
mod code_error;
mod word;
mod word_error;
mod word_text;

pub use code::Code;
pub use code_error::CodeError;
pub use code_terms::{Message, WordFault};
use lists::Items;
pub use word::Word;
pub use word_error::WordError;

/// Places of a word, as numbers counted from 0.
pub type Places = Items<u16>;

/// Messages of a code.
pub type MessageList = Items<Message>;
