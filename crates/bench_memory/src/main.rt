//! Tries calls that may be refused for want of memory. A refused call has to leave its object as it was, and to succeed when it is tried
//! again. Run with one allocation made to fail, for each number in turn, by `bench/memory`.
#![tactic(auto)]

ghost use Rattle.std.specs.Prelude.{◌≡◌, ◌<◌};

mod playlists;
mod registers;
mod titles;
mod trial;

use lists::Memory;
use shelf_io::{Sink, StdSink};
use std::alloc::Global;
use std::marker::Brand;
use std::process::ExitCode;
use std::sync::ledger::Blank;
use steps::{Ledger, LookLedger, Steps};
use trial::Trial;

/// Ends with 1 where a call was refused and its object kept, and else with 0, also where one was not kept; the lines tell.
fn main(rt: HostRuntime) -> ExitCode {
    ExitCode::from(answered(rt))
}

/// Counts looks from nothing.
fn answered(rt: HostRuntime) -> u8 {
    tried::<Brand>(rt, Blank::new(1))
}

/// Tries each call, and puts a line out for it.
fn tried<Q: Ledger>(rt: HostRuntime, looks: Blank) -> u8
    requires looks_name { looks.name ≡ Q.name }
    requires looks_parts { looks.parts ≡ Q.parts }
    requires looks_some { 0 < Q.parts }
{
    let alloc = rt.alloc();
    let mut out = StdSink::new(rt.stdout());
    let mut looks = Steps::<LookLedger<Q>>::new(&rt, looks);
    let trials = [
        ("enrol", registers::enrol_tried(alloc, &mut looks)),
        ("withdraw", registers::withdraw_tried(alloc, &mut looks)),
        ("add", titles::add_tried(alloc)),
        ("push", playlists::push_tried(alloc)),
        ("take", playlists::take_tried(alloc)),
    ];
    let mut refused = false;
    for (name, trial) in trials {
        refused = refused || trial == Trial::Refused || trial == Trial::Unprepared;
        if put_line(alloc, &mut out, name, trial).is_err() {
            refused = true;
        }
    }
    u8::from(refused)
}

/// Puts a line out.
fn put_line<O: Sink>(alloc: Global, out: &mut O, name: &str, trial: Trial) -> Result<(), Memory> {
    let ended = trial.text();
    let line = format!(in alloc; "{name}: {ended}\n")?;
    let _ = out.put(line.as_str().as_bytes());
    Ok(())
}
