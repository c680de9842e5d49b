//! How a line is refused, and the line at which a text breaks its form.

/// The first line of a text that breaks its form, and the first thing that is wrong with it.
#[derive(Clone, Copy, Debug, PartialEq, Eq)]
pub struct LineFault<K> {
    /// The number of the line, counted from 1.
    pub line: u32,
    /// What is wrong with it.
    pub kind: K,
}

/// The kinds of fault that a line can have before it is known what it says.
#[derive(Clone, Copy, Debug, PartialEq, Eq)]
pub struct RowKinds<K> {
    /// No byte is left.
    pub missing: K,
    /// No line feed ends the bytes that are left.
    pub unended: K,
    /// The line is not what belongs there.
    pub wrong: K,
}
