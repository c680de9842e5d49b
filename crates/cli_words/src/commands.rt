//! Which lists of words are commands.

ghost use Rattle.std.specs.Prelude.{◌≡◌, map, IfSome, IsTrue};
ghost use Rattle.std.specs.Option.{option_map};
ghost use Rattle.std.specs.String.{string_bytes};
ghost use Rattle.std.specs.Str.{bytes_eq};
ghost use Rattle.text_terms.specs.Names.{is_name};
ghost use Rattle.text_terms.specs.Numbers.{number_of};
ghost use Rattle.outcome_terms.specs.Words.{named as blob_name};
ghost use Rattle.outcome_terms.specs.RegisterCommand.{make_from, make_of};
ghost use Rattle.outcome_terms.specs.EnrolCommand.{enrol_of};
ghost use Rattle.outcome_terms.specs.WithdrawCommand.{withdraw_of};
ghost use Rattle.outcome_terms.specs.TitleCommand.{make_title_of};
ghost use Rattle.outcome_terms.specs.PackageCommand.{package_of};
ghost use Rattle.outcome_terms.specs.TraceCommand.{trace_of};
ghost use Rattle.outcome_terms.specs.CheckCommand.{check_of};
ghost use Rattle.outcome_terms.specs.AccuseCommand.{accuse_of};
ghost use Rattle.outcome_terms.specs.SampleCommand.{sample_of, seed_in};
ghost use Rattle.outcome_terms.specs.Commands.{request_of};
ghost use Rattle.cli_words.specs.Requests.{request, HasNames};

use crate::command::Command;
use texts::{is_name, read_number};

/// The command that the words are. It takes no memory, and is `None` exactly where the words are no command.
#[tactic(auto, unfolding(outcome_terms::specs::Commands::request_of))]
pub fn read_words<'a>(words: &'a [String]) -> Option<Command<'a>>
    ensures asked { option_map request result ≡ request_of (map string_bytes words.now) }
    ensures names { IfSome result HasNames }
{
    let (command, arguments) = words.split_first()?;
    if is_word(command, "register") {
        register_words(arguments)
    } else if is_word(command, "enrol") {
        enrol_words(arguments)
    } else if is_word(command, "withdraw") {
        withdraw_words(arguments)
    } else if is_word(command, "title") {
        title_words(arguments)
    } else if is_word(command, "package") {
        package_words(arguments)
    } else if is_word(command, "trace") {
        trace_words(arguments)
    } else if is_word(command, "check") {
        check_words(arguments)
    } else if is_word(command, "accuse") {
        accuse_words(arguments)
    } else if is_word(command, "sample") {
        sample_words(arguments)
    } else {
        None
    }
}

/// Whether the word is this one.
fn is_word(word: &String, name: &str) -> bool
    ensures { result ≡ bytes_eq (string_bytes word.now) name.now }
{
    word.as_str() == name
}

/// The word, where it has the form of a blob's name.
fn named(word: &String) -> Option<&str>
    ensures value { option_map (λ text. text.now) result ≡ blob_name (string_bytes word.now) }
    ensures name { IfSome result (λ text. IsTrue (is_name text.now)) }
{
    let text = word.as_str();
    if is_name(text) { Some(text) } else { None }
}

/// The number that the word spells, if it spells one.
fn number(word: &String) -> Option<u128>
    ensures { result ≡ number_of (string_bytes word.now) }
{
    read_number(word.as_str())
}

/// The number of eight bytes that the word spells, if it spells one.
fn seed(word: &String) -> Option<u64>
    ensures { result ≡ seed_in (string_bytes word.now) }
{
    let number = number(word)?;
    u64::try_from(number).ok()
}

/// The command `register` with these words.
fn register_words<'a>(arguments: &'a [String]) -> Option<Command<'a>>
    ensures asked { option_map request result ≡ make_of (map string_bytes arguments.now) }
    ensures names { IfSome result HasNames }
{
    let [m, k, a, b, out] = arguments else {
        return None;
    };
    register_from(m, k, a, b, out)
}

/// The command `register` with five words.
#[tactic(auto, unfolding(outcome_terms::specs::RegisterCommand::make_from))]
fn register_from<'a>(
    m: &String,
    k: &String,
    a: &String,
    b: &String,
    out: &'a String,
) -> Option<Command<'a>>
    ensures asked { option_map request result
        ≡ make_from (string_bytes m.now) (string_bytes k.now) (string_bytes a.now)
        (string_bytes b.now) (string_bytes out.now) }
    ensures names { IfSome result HasNames }
{
    let m = number(m)?;
    let k = number(k)?;
    let a = number(a)?;
    let b = number(b)?;
    let out = named(out)?;
    Some(Command::Register { m, k, a, b, out })
}

/// The command `enrol` with these words.
#[tactic(auto, unfolding(outcome_terms::specs::EnrolCommand::enrol_of))]
fn enrol_words<'a>(arguments: &'a [String]) -> Option<Command<'a>>
    ensures asked { option_map request result ≡ enrol_of (map string_bytes arguments.now) }
    ensures names { IfSome result HasNames }
{
    let [reg, name, out] = arguments else {
        return None;
    };
    let reg = named(reg)?;
    let name = named(name)?;
    let out = named(out)?;
    Some(Command::Enrol { reg, name, out })
}

/// The command `withdraw` with these words.
#[tactic(auto, unfolding(outcome_terms::specs::WithdrawCommand::withdraw_of))]
fn withdraw_words<'a>(arguments: &'a [String]) -> Option<Command<'a>>
    ensures asked { option_map request result ≡ withdraw_of (map string_bytes arguments.now) }
    ensures names { IfSome result HasNames }
{
    let [reg, name, out] = arguments else {
        return None;
    };
    let reg = named(reg)?;
    let name = named(name)?;
    let out = named(out)?;
    Some(Command::Withdraw { reg, name, out })
}

/// The command `title` with these words.
#[tactic(auto, unfolding(outcome_terms::specs::TitleCommand::make_title_of))]
fn title_words<'a>(arguments: &'a [String]) -> Option<Command<'a>>
    ensures asked { option_map request result ≡ make_title_of (map string_bytes arguments.now) }
    ensures names { IfSome result HasNames }
{
    let [design, source, out] = arguments else {
        return None;
    };
    let design = named(design)?;
    let source = named(source)?;
    let out = named(out)?;
    Some(Command::Title {
        design,
        source,
        out,
    })
}

/// The command `package` with these words.
#[tactic(auto, unfolding(outcome_terms::specs::PackageCommand::package_of))]
fn package_words<'a>(arguments: &'a [String]) -> Option<Command<'a>>
    ensures asked { option_map request result ≡ package_of (map string_bytes arguments.now) }
    ensures names { IfSome result HasNames }
{
    let [title, reg, name, out] = arguments else {
        return None;
    };
    let title = named(title)?;
    let reg = named(reg)?;
    let name = named(name)?;
    let out = named(out)?;
    Some(Command::Package {
        title,
        reg,
        name,
        out,
    })
}

/// The command `trace` with these words.
#[tactic(auto, unfolding(outcome_terms::specs::TraceCommand::trace_of))]
fn trace_words<'a>(arguments: &'a [String]) -> Option<Command<'a>>
    ensures asked { option_map request result ≡ trace_of (map string_bytes arguments.now) }
    ensures names { IfSome result HasNames }
{
    let [title, reg, copy, c] = arguments else {
        return None;
    };
    let title = named(title)?;
    let reg = named(reg)?;
    let copy = named(copy)?;
    let c = number(c)?;
    Some(Command::Trace {
        title,
        reg,
        copy,
        c,
    })
}

/// The command `check` with these words.
#[tactic(auto, unfolding(outcome_terms::specs::CheckCommand::check_of))]
fn check_words<'a>(arguments: &'a [String]) -> Option<Command<'a>>
    ensures asked { option_map request result ≡ check_of (map string_bytes arguments.now) }
    ensures names { IfSome result HasNames }
{
    let [title, reg, copy, report] = arguments else {
        return None;
    };
    let title = named(title)?;
    let reg = named(reg)?;
    let copy = named(copy)?;
    let report = named(report)?;
    Some(Command::Check {
        title,
        reg,
        copy,
        report,
    })
}

/// The command `accuse` with these words.
#[tactic(auto, unfolding(outcome_terms::specs::AccuseCommand::accuse_of))]
fn accuse_words<'a>(arguments: &'a [String]) -> Option<Command<'a>>
    ensures asked { option_map request result ≡ accuse_of (map string_bytes arguments.now) }
    ensures names { IfSome result HasNames }
{
    let [reg, word, c] = arguments else {
        return None;
    };
    let reg = named(reg)?;
    let word = named(word)?;
    let c = number(c)?;
    Some(Command::Accuse { reg, word, c })
}

/// The command `sample` with these words.
#[tactic(auto, unfolding(outcome_terms::specs::SampleCommand::sample_of))]
fn sample_words<'a>(arguments: &'a [String]) -> Option<Command<'a>>
    ensures asked { option_map request result ≡ sample_of (map string_bytes arguments.now) }
    ensures names { IfSome result HasNames }
{
    let [number] = arguments else {
        return None;
    };
    let number = seed(number)?;
    Some(Command::Sample { number })
}
