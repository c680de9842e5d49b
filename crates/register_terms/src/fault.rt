//! Why a text is no register.

use form_terms::LineFault;

/// What is wrong with a line of a register's text.
///
/// Where several of these fit a line, the one that stands first here is reported.
#[derive(Clone, Copy, Debug, PartialEq, Eq)]
pub enum RegisterKind {
    /// The line has bytes, but no line feed ends it.
    Ending,
    /// One of the first five lines is missing, or is not the word and the number that belong there.
    Header,
    /// The bits of a symbol are not 4 to 8.
    BadM,
    /// The dimension of the code is not 2 to 13.
    BadK,
    /// The multiplier is even, or is no message.
    BadMultiplier,
    /// The shift is no message.
    BadShift,
    /// The line begins with no state of a licensee.
    BadStatus,
    /// The name is no plain name; bytes that are no UTF-8 are none either.
    BadName,
    /// An earlier line has the same name.
    NameTaken,
    /// The register already holds as many licensees as it can.
    Full,
}

/// The first line of a register's text that breaks the form, counted from 1, and the first thing that is wrong with it.
pub type RegisterFault = LineFault<RegisterKind>;
