//! What the words or the blobs are refused with.

use code_terms::WordFault;
use lists::Text;
use playlist_terms::LineFault;
use register_terms::{NameRefusal, RegisterError, RegisterFault};
use report_terms::Verdict;
use title_terms::{DesignFault, TitleFault};

/// A refusal that the words and the blobs decide, with the detail of its error line.
#[derive(Debug, Drop)]
pub enum Fault {
    /// The blob is no design.
    BadDesign(DesignFault),
    /// The blob is no media playlist: the first line that is faulty, and how.
    BadPlaylist(LineFault),
    /// The blob is no title: the first line that breaks the form, and how.
    BadTitle(TitleFault),
    /// The blob is no register: the first line that breaks the form, and how.
    BadRegister(RegisterFault),
    /// The blob is no report.
    BadReport,
    /// The title and the register are of different codes.
    Mismatch {
        /// The bits of the title's symbols.
        title_bits: u32,
        /// The dimension of the title's code.
        title_dimension: u32,
        /// The bits of the register's symbols.
        register_bits: u32,
        /// The dimension of the register's code.
        register_dimension: u32,
    },
    /// This bound is not allowed.
    BadBound(u128),
    /// So many places can be read, which is not above the number that is not enough.
    TooFew {
        /// The number of readable places.
        readable: u32,
        /// The number that has to be exceeded: the bound's square times one less than the dimension.
        not_enough: u32,
    },
    /// The name is not enrolled, for this reason.
    NotEnrolled(NameRefusal),
    /// No licensee has the name.
    Unknown(Text),
    /// The licensee with this name is withdrawn.
    Withdrawn(Text),
    /// Two variants have one digest.
    Duplicate {
        /// The place of the earlier one.
        place: u32,
        /// The symbol of the earlier one.
        symbol: u8,
        /// The place of the later one, the first in order that is like an earlier one.
        again_place: u32,
        /// The symbol of the later one.
        again_symbol: u8,
    },
    /// This blob is both read and to be written.
    SameName(Text),
    /// The report is not what the desk finds: the first thing that is wrong with it.
    Differs(Verdict),
    /// The blob is no word: the first token that breaks the form, or too many.
    BadWord(WordFault),
    /// The numbers make no register: the first rule that they break.
    BadParameters(RegisterError),
    /// No segment has this number, which is marked.
    NoSegment(u32),
}
