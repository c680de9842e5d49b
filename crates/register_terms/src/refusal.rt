//! Why a register is not made, and why a name is not enrolled.

/// No register holds more licensees.
pub const MOST_LICENSEES: u32 = 200_000;

/// Why there is no register of these numbers: the first of these that applies.
#[derive(Clone, Copy, Debug, PartialEq, Eq)]
pub enum RegisterError {
    /// The bits of a symbol are not 4 to 8.
    BadM,
    /// The dimension of the code is not 2 to 13.
    BadK,
    /// The multiplier is even, or is no message.
    BadMultiplier,
    /// The shift is no message.
    BadShift,
}

/// Why a name is not enrolled: the first of these that applies.
#[derive(Clone, Copy, Debug, PartialEq, Eq)]
pub enum NameRefusal {
    /// The name is not plain.
    BadName,
    /// The licensee of this serial has the name.
    NameTaken(u32),
    /// The register holds so many licensees, and can hold no more.
    Full(u32),
}
