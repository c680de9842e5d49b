//! The findings of a trace, as a report lists them.

use lists::{Items, Text};

/// Places of a word, each below 256, in the order of the list.
pub type Places = Items<u16>;

/// A licensee who met the threshold.
#[derive(Debug, Drop)]
pub struct Accused {
    /// The licensee's position in the order of enrolment, counted from 0.
    pub serial: u32,
    /// The licensee's name in the register.
    pub name: Text,
    /// The places where the licensee's codeword and the word agree, ascending.
    pub places: Places,
}

/// The licensees who met the threshold, in order of serial.
pub type AccusedList = Items<Accused>;

/// What the desk finds in a word.
#[derive(Debug, Drop)]
pub struct Findings {
    /// How many places of the word could be read.
    pub readable: u32,
    /// The size of the largest coalition that the trace allows for.
    pub bound: u32,
    /// Who met the threshold.
    pub accused: AccusedList,
}
