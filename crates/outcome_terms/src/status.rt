//! The statuses that the program ends with.

ghost use Rattle.std.specs.Prelude.{◌≡◌};

/// How a call of the program ended. Its number is the exit status.
#[derive(Clone, Copy, Debug, PartialEq, Eq)]
pub enum Status {
    /// The command was done.
    Ok = 0,
    /// There was not enough memory.
    Memory = 1,
    /// The words are no command.
    BadWords = 2,
    /// A blob that the command reads is not there.
    Missing = 3,
    /// Reading a blob failed.
    ReadFault = 4,
    /// Writing the blob failed.
    WriteFault = 5,
    /// Putting out the answer failed.
    OutFault = 6,
    /// A blob is longer than 67,108,864 bytes.
    TooLong = 7,
    /// The blob is no design.
    BadDesign = 8,
    /// The blob is no media playlist of the profile.
    BadPlaylist = 9,
    /// The blob is no title.
    BadTitle = 10,
    /// The blob is no register.
    BadRegister = 11,
    /// The blob is no report.
    BadReport = 12,
    /// The title and the register are of different codes.
    Mismatch = 13,
    /// The codes of this register, or the design of this title, allow no trace with this bound.
    BadBound = 14,
    /// Too few places of the word can be read.
    TooFew = 15,
    /// A licensee has the name already.
    NameTaken = 16,
    /// The name is no plain name.
    BadName = 17,
    /// The register takes no further licensee.
    Full = 18,
    /// No licensee has the name.
    Unknown = 19,
    /// Two variants have one digest.
    Duplicate = 20,
    /// The blob to be written is one that the command reads.
    SameName = 21,
    /// The report is not what the desk finds.
    Differs = 22,
    /// The blob is no word.
    BadWord = 23,
    /// The numbers make no register.
    BadParameters = 24,
    /// A marked number is that of no segment.
    NoSegment = 25,
    /// The licensee is withdrawn.
    Withdrawn = 27,
}

impl Status {
    ghost use Rattle.outcome_terms.specs.Statuses.{status_code};

    /// The number of the status.
    pub fn code(self) -> u8
        ensures { result ≡ status_code self }
    {
        self as u8
    }
}
