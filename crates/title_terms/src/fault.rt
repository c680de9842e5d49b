//! Why a document is no design, and why a text is no title.

use form_terms::LineFault;

/// The keys of a design's document, in the order in which they are looked up.
#[derive(Clone, Copy, Debug, PartialEq, Eq)]
pub enum Key {
    /// `name`, a text.
    Name,
    /// `m`, the bits of a symbol.
    M,
    /// `k`, the symbols of a message.
    K,
    /// `c`, the largest coalition.
    C,
    /// `prefix`, a text.
    Prefix,
    /// `suffix`, a text.
    Suffix,
    /// `marked`, the list of the marked segments' numbers.
    Marked,
}

/// What is wrong with a design: the first that applies, in this order.
#[derive(Clone, Copy, Debug, PartialEq, Eq)]
pub enum DesignFault {
    /// The bytes are no TOML document.
    NotToml,
    /// The key is not there. A later key is looked up only where the earlier ones are there and of their type.
    Missing(Key),
    /// The value at the key is of another type.
    WrongType(Key),
    /// The name is no plain name.
    BadName,
    /// `m` is not in 4 to 8.
    BadM,
    /// `k` is not in 2 to 13.
    BadK,
    /// `c` is not in 1 to 8.
    BadBound,
    /// c (k - 1) is above 12.
    TooMuchWork,
    /// The prefix is longer than 64 characters, or has one that may not stand in it.
    BadPrefix,
    /// The suffix, in the same way.
    BadSuffix,
    /// The item at this position, counted from 0, is no number below 100,000 or not above the item in front of it.
    BadMarked(u32),
    /// There are more marked segments than symbols.
    TooManyPlaces,
    /// There are c² (k - 1) marked segments or fewer.
    TooWeak,
}

/// What is wrong with a line of a title's text.
///
/// Where several of these fit a line, the one that stands first here is reported.
#[derive(Clone, Copy, Debug, PartialEq, Eq)]
pub enum TitleKind {
    /// The line is missing, lacks its line feed, is not what belongs there, or stands behind the last line.
    Form,
    /// The value of the line breaks a rule.
    Rule,
    /// An earlier line has the same digest.
    Duplicate,
}

/// The first line of a title's text that breaks the form.
pub type TitleFault = LineFault<TitleKind>;
