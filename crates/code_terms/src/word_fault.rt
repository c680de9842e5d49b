//! Why a text spells no word.

/// The first fault of a text that spells no word.
#[derive(Clone, Copy, Debug, PartialEq, Eq)]
pub enum WordFault {
    /// At this place, counted from 0, stands a token that is neither an erasure nor a symbol.
    Token(u32),
    /// There are more tokens than a codeword has places.
    Long,
}
