//! How the program is called.

use cli_words::{CommandName, Usage, read_words};
use lists::Memory;
use std::alloc::Global;
use std::test::Fail;

/// The command's first word, and a word that is a name and a number for each that follows.
fn words_of(alloc: Global, name: CommandName) -> Result<Vec<String>, Memory> {
    let mut words = Vec::new(alloc);
    words.push(String::from_str(alloc, name.word())?)?;
    for _argument in name.arguments().split_whitespace() {
        words.push(String::from_str(alloc, "7")?)?;
    }
    Ok(words)
}

/// The usage has a line for each command, with as many words as it takes.
#[test]
fn each_command_has_its_line(rt: HostRuntime) -> Result<(), Fail> {
    let alloc = rt.alloc();
    let usage = format!(in alloc; "{Usage}")?;
    for name in CommandName::ALL {
        let words = words_of(alloc, name)?;
        let read = match read_words(words.as_slice()) {
            Some(command) => Some(command.name()),
            None => None,
        };
        assert_eq!(rt; read, Some(name));
        let word = name.word();
        let arguments = name.arguments();
        let line = format!(in alloc; "  nujwamek {word} {arguments}\n")?;
        assert!(rt; usage.as_str().contains(line.as_str()), "{word}");
    }
    Ok(())
}
