//! The two texts of a register.

/// Which of its two texts a register is read from.
#[derive(Clone, Copy, Debug, PartialEq, Eq)]
pub enum Edition {
    /// Each licensee's line has a state before the name. This text is written.
    Newer,
    /// Each licensee's line is the name alone. This text is read and never written.
    Older,
}
