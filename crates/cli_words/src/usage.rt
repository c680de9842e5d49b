//! How the program is called.

use crate::command::CommandName;
use std::fmt::{self, Display, Formatter, Write};

/// How the program is called: a line for each command, with the words that it takes.
#[derive(Clone, Copy, Debug)]
pub struct Usage;

impl Display for Usage {
    fn fmt<W: Write>(&self, f: &mut Formatter<W>) -> fmt::Result {
        writeln!(f, "usage: nujwamek COMMAND WORDS")?;
        for name in CommandName::ALL {
            let word = name.word();
            let arguments = name.arguments();
            writeln!(f, "  nujwamek {word} {arguments}")?;
        }
        writeln!(
            f,
            "docs/commands.md tells what each does and which words it takes."
        )
    }
}
