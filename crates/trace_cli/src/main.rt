//! The program of Nujwamek: it keeps registers of licensees, packages a film for each, and finds those whose copies a leaked one was
//! made from.
//!
//! `run` is the whole program but for the world outside: it is proved for every shelf of blobs and every output. `main` hands it
//! the files under the current folder and the standard output.
#![tactic(auto)]

ghost use Rattle.std.specs.Prelude.{◌≡◌, ◌<◌, drop, map, Err, IfOk, IfErr};
ghost use Rattle.std.specs.String.{string_bytes};
ghost use Rattle.std.specs.Vec.Iter.{into_iter_items};
ghost use Rattle.std.specs.IoError.{error_kind};
ghost use Rattle.trace_cli.specs.CommandLine.{AnswersWords, argument_status};

mod costs;
mod ending;
mod run_call;
#[cfg(test)]
mod tests;
mod usage;

use cli_words::Status;
use costs::CURVES;
pub use costs::{curves_are_built, curves_cost};
use lists::Text;
pub use run_call::run;
use shelf_io::{FolderShelf, StdSink};
use std::alloc::Global;
use std::io::ErrorKind;
use std::marker::Brand;
use std::process::ExitCode;
use std::sync::ledger::Blank;
use std::{env, io};
use steps::{Ledger, LookLedger, ProductLedger, Steps};
use usage::show_usage;

/// Does what the arguments say over the files of the current folder, and ends with the status.
fn main(rt: HostRuntime) -> ExitCode {
    let words = words_of(rt.alloc(), env::args(&rt));
    let mut error = rt.stderr();
    let status = answered(rt, words);
    show_usage(status, &mut error);
    ExitCode::from(status.code())
}

/// How the program ends on these words, or where they could not be had.
fn answered(rt: HostRuntime, words: Result<Vec<String>, Status>) -> Status
    ensures answer { IfOk words (λ words. AnswersWords (map string_bytes words.items) result) }
    ensures no_words { IfErr words (λ status. result ≡ status) }
{
    match words {
        Ok(words) => counted::<Brand, Brand>(rt, words.as_slice(), Blank::new(1), Blank::new(1)),
        Err(status) => status,
    }
}

/// The words of the program's arguments, which are all but its own name. An argument that is not UTF-8 makes them no command.
/// That the arguments are what the caller typed no clause can say: std promises nothing of what `env::args` answers.
fn words_of(alloc: Global, arguments: io::Result<env::Args>) -> Result<Vec<String>, Status>
    ensures words { IfOk arguments
        (λ arguments. IfOk result (λ words. words.items ≡ drop 1 (into_iter_items arguments))) }
    ensures memory { IfOk arguments (λ arguments. IfErr result (λ status. status ≡ Status.Memory)) }
    ensures no_arguments { IfErr arguments
        (λ error. result ≡ Err (argument_status (error_kind error))) }
{
    match arguments {
        Ok(arguments) => after_first(alloc, arguments),
        Err(error) => Err(argument_status(error.kind())),
    }
}

/// All arguments but the first.
fn after_first(alloc: Global, arguments: env::Args) -> Result<Vec<String>, Status>
    ensures words { IfOk result (λ words. words.items ≡ drop 1 (into_iter_items arguments)) }
    ensures memory { IfErr result (λ status. status ≡ Status.Memory) }
{
    match arguments.skip(1).collect(alloc) {
        Ok(words) => Ok(words),
        Err(_) => Err(Status::Memory),
    }
}

/// The status that an error of this kind ends with, where it came in place of the arguments.
fn argument_status(kind: ErrorKind) -> Status
    ensures { result ≡ argument_status kind }
{
    match kind {
        ErrorKind::OutOfMemory => Status::Memory,
        _ => Status::BadWords,
    }
}

/// Calls the program over the files under the current folder and the standard output.
fn counted<P: Ledger, Q: Ledger>(
    rt: HostRuntime,
    words: &[String],
    prods: Blank,
    looks: Blank,
) -> Status
    requires prods_name { prods.name ≡ P.name }
    requires prods_parts { prods.parts ≡ P.parts }
    requires prods_some { 0 < P.parts }
    requires looks_name { looks.name ≡ Q.name }
    requires looks_parts { looks.parts ≡ Q.parts }
    requires looks_some { 0 < Q.parts }
    ensures { AnswersWords (map string_bytes words.now) result }
{
    let alloc = rt.alloc();
    let Ok(folder) = Text::of(alloc, ".") else {
        return Status::Memory;
    };
    let mut prods = Steps::<ProductLedger<P>>::new(&rt, prods);
    let mut looks = Steps::<LookLedger<Q>>::new(&rt, looks);
    let mut out = StdSink::new(rt.stdout());
    let mut shelf = FolderShelf::new(rt, folder);
    run(
        alloc, words, &mut shelf, &mut out, &CURVES, &mut prods, &mut looks,
    )
}
