//! The commands, their names and the words that each takes.

ghost use Rattle.std.specs.Prelude.{◌≡◌};
ghost use Rattle.cli_words.specs.Names.{name_arguments, name_word};

/// A command of the program with its arguments, which are borrowed from the words.
///
/// A number may be too large for the rule that it is tested by later, and is then refused by that rule.
#[derive(Clone, Copy, Debug)]
pub enum Command<'a> {
    /// Writes a register without licensees.
    Register {
        /// Bits of a symbol.
        m: u128,
        /// Dimension of the code.
        k: u128,
        /// Multiplier of the serial.
        a: u128,
        /// Shift of the message.
        b: u128,
        /// Name of the blob to write.
        out: &'a str,
    },
    /// Writes a register with one more licensee.
    Enrol {
        /// Name of the register's blob.
        reg: &'a str,
        /// Name of the licensee, as given.
        name: &'a str,
        /// Name of the blob to write.
        out: &'a str,
    },
    /// Writes a register with a licensee withdrawn.
    Withdraw {
        /// Name of the register's blob.
        reg: &'a str,
        /// Name of the licensee, as given.
        name: &'a str,
        /// Name of the blob to write.
        out: &'a str,
    },
    /// Writes the title of the variants that are held.
    Title {
        /// Name of the design's blob.
        design: &'a str,
        /// Name of the source playlist's blob.
        source: &'a str,
        /// Name of the blob to write.
        out: &'a str,
    },
    /// Writes the playlist that a licensee gets of a title.
    Package {
        /// Name of the title's blob.
        title: &'a str,
        /// Name of the register's blob.
        reg: &'a str,
        /// Name of the licensee, as given.
        name: &'a str,
        /// Name of the blob to write.
        out: &'a str,
    },
    /// Reports whose codewords agree with the word of a copy.
    Trace {
        /// Name of the title's blob.
        title: &'a str,
        /// Name of the register's blob.
        reg: &'a str,
        /// Name of the blob of the copy's playlist.
        copy: &'a str,
        /// Size of the largest coalition to allow for.
        c: u128,
    },
    /// Checks a report on a copy.
    Check {
        /// Name of the title's blob.
        title: &'a str,
        /// Name of the register's blob.
        reg: &'a str,
        /// Name of the blob of the copy's playlist.
        copy: &'a str,
        /// Name of the report's blob.
        report: &'a str,
    },
    /// Reports whose codewords agree with a word.
    Accuse {
        /// Name of the register's blob.
        reg: &'a str,
        /// Name of the word's blob.
        word: &'a str,
        /// Size of the largest coalition to allow for.
        c: u128,
    },
    /// Makes a large input from a number, and says whom the desk accuses in it.
    Sample {
        /// The number.
        number: u64,
    },
}

/// The name of a command, which is its first word.
#[derive(Clone, Copy, Debug, PartialEq, Eq)]
pub enum CommandName {
    /// `register`
    Register,
    /// `enrol`
    Enrol,
    /// `withdraw`
    Withdraw,
    /// `title`
    Title,
    /// `package`
    Package,
    /// `trace`
    Trace,
    /// `check`
    Check,
    /// `accuse`
    Accuse,
    /// `sample`
    Sample,
}

impl CommandName {
    /// All names, in the order in which an operator needs the commands.
    pub const ALL: [CommandName; 9] = [
        CommandName::Register,
        CommandName::Enrol,
        CommandName::Withdraw,
        CommandName::Title,
        CommandName::Package,
        CommandName::Trace,
        CommandName::Check,
        CommandName::Accuse,
        CommandName::Sample,
    ];

    /// The word that stands for the command.
    pub fn word(self) -> &'static str
        ensures { result.now ≡ name_word self }
    {
        match self {
            CommandName::Register => "register",
            CommandName::Enrol => "enrol",
            CommandName::Withdraw => "withdraw",
            CommandName::Title => "title",
            CommandName::Package => "package",
            CommandName::Trace => "trace",
            CommandName::Check => "check",
            CommandName::Accuse => "accuse",
            CommandName::Sample => "sample",
        }
    }

    /// What stands for the words that follow.
    pub fn arguments(self) -> &'static str
        ensures { result.now ≡ name_arguments self }
    {
        match self {
            CommandName::Register => "M K A B OUT",
            CommandName::Enrol => "REG NAME OUT",
            CommandName::Withdraw => "REG NAME OUT",
            CommandName::Title => "DESIGN SOURCE OUT",
            CommandName::Package => "TITLE REG NAME OUT",
            CommandName::Trace => "TITLE REG COPY C",
            CommandName::Check => "TITLE REG COPY REPORT",
            CommandName::Accuse => "REG WORD C",
            CommandName::Sample => "NUMBER",
        }
    }
}

impl Command<'_> {
    /// The name of the command.
    pub fn name(&self) -> CommandName {
        match self {
            Command::Register { .. } => CommandName::Register,
            Command::Enrol { .. } => CommandName::Enrol,
            Command::Withdraw { .. } => CommandName::Withdraw,
            Command::Title { .. } => CommandName::Title,
            Command::Package { .. } => CommandName::Package,
            Command::Trace { .. } => CommandName::Trace,
            Command::Check { .. } => CommandName::Check,
            Command::Accuse { .. } => CommandName::Accuse,
            Command::Sample { .. } => CommandName::Sample,
        }
    }
}
