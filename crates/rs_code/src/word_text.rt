//! Words as texts.

ghost use Rattle.std.specs.Prelude.{◌≡◌, ◌^◌, ◌<◌, ◌≤◌, length};
ghost use Rattle.code_terms.specs.WordText.{without_line_feed, slot_of, word_of};
ghost use Rattle.text_terms.specs.Numbers.{number_of};
ghost use Rattle.rs_code.specs.Reading.{ReadsWord};

use crate::word::Word;
use crate::word_error::WordError;
use code_terms::WordFault;
use std::alloc::Global;
use std::str;
use texts::read_number;

impl Word {
    /// The word over symbols of `m` bits that the text spells: tokens with one comma between two of them, each `-` or
    /// a number below 2^m, and at most one line feed behind the last.
    pub fn read(alloc: Global, bytes: &[u8], m: u32) -> Result<Word, WordError>
        requires low { 4 ≤ m }
        requires high { m ≤ 8 }
        requires short { length bytes.now < 2 ^ 32 }
        // The word that the text spells, or the text's first fault, unless memory runs out.
        ensures { ReadsWord result (word_of m bytes.now) }
    {
        let limit = symbol_count(m);
        let mut slots = Vec::new(alloc);
        'tokens: for token in without_line_feed(bytes).split(|byte| *byte == b',') {
            if slots.len() >= limit {
                return Err(WordError::NotWord(WordFault::Long));
            }
            let Some(slot) = slot_of_token(token, limit) else {
                return Err(WordError::NotWord(WordFault::Token(slots.len() as u32)));
            };
            slots.push(slot)?;
        }
        Ok(Word::over(slots))
    }
}

/// How many symbols of `m` bits there are.
fn symbol_count(m: u32) -> usize
    requires { m ≤ 8 }
    ensures value { result ≡ 2 ^ m }
    ensures most { result ≤ 256 }
{
    1 << m
}

/// The text without one line feed at its end.
fn without_line_feed(bytes: &[u8]) -> &[u8]
    ensures { result.now ≡ without_line_feed bytes.now }
{
    match bytes {
        [front @ .., b'\n'] => front,
        _ => bytes,
    }
}

/// The slot that a token stands for, among the symbols below the limit.
#[tactic(auto, unfolding(code_terms::specs::WordText::slot_of))]
fn slot_of_token(token: &[u8], limit: usize) -> Option<Option<u8>>
    requires { limit ≤ 256 }
    ensures { result ≡ slot_of limit token.now }
{
    if token == b"-".as_slice() {
        return Some(None);
    }
    let number = number_of_bytes(token)?;
    if number < limit as u128 {
        Some(Some(number as u8))
    } else {
        None
    }
}

/// The number that the bytes spell. Bytes that are no text spell none.
#[tactic(auto, using(crate::proofs::NumberTexts::number_of_no_text))]
fn number_of_bytes(bytes: &[u8]) -> Option<u128>
    ensures { result ≡ number_of bytes.now }
{
    let Ok(text) = str::from_utf8(bytes) else {
        return None;
    };
    read_number(text)
}
