//! The verdict on findings.

/// What is right or wrong with findings, the first thing that applies. Positions in the list of the accused count from 0.
#[derive(Clone, Copy, Debug, PartialEq, Eq)]
pub enum Verdict {
    /// They are what the desk finds.
    Right,
    /// So many places of the word can be read, which is too few for the bound.
    TooFew(u32),
    /// The number of readable places is another.
    WrongReadable,
    /// The accused at this position has no licensee's serial, or another name than that licensee.
    NotEnrolled(u32),
    /// The accused at this position has no greater serial than the one in front of it.
    Order(u32),
    /// The places of the accused at this position are not those where the licensee agrees.
    WrongPlaces(u32),
    /// The accused at this position does not meet the threshold.
    Below(u32),
    /// The licensee of this serial meets the threshold and is not in the list: the first of them.
    Absent(u32),
}
