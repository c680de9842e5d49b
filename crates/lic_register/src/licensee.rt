//! Who holds a licence.

/// Someone who was given copies, as a register shows them: known by a plain name, and either active or withdrawn.
#[derive(Clone, Copy, Debug, PartialEq, Eq)]
pub struct Licensee<'a> {
    /// The name, which no other licensee of the register has.
    pub name: &'a str,
    /// Whether the licence is held still.
    pub active: bool,
}
