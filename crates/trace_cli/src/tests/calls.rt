//! How a test calls the program.

ghost use Rattle.std.specs.Prelude.{◌≡◌, ◌<◌};

use crate::run;
use gs_koetter::Koetter;
use gs_linear::Linear;
use gs_params::Interpolate;
use lists::Memory;
use shelf_io::{MemShelf, MemSink, Shelf};
use std::alloc::Global;
use std::marker::Brand;
use std::process::Abort;
use std::sync::ledger::Blank;
use steps::{Ledger, LookLedger, ProductLedger, Steps};
use texts::is_name;

/// What a call put out, with its status in front.
pub fn call(host: &HostRuntime, shelf: &mut MemShelf, line: &str) -> Result<String, Memory> {
    let alloc = host.alloc();
    let mut out = MemSink::new(alloc);
    call_into(host, shelf, &mut out, line)
}

/// The same over this output.
pub fn call_into(
    host: &HostRuntime,
    shelf: &mut MemShelf,
    out: &mut MemSink,
    line: &str,
) -> Result<String, Memory> {
    call_with(host, shelf, out, line, &Linear)
}

/// The same with this way to find curves.
pub fn call_with<I: Interpolate>(
    host: &HostRuntime,
    shelf: &mut MemShelf,
    out: &mut MemSink,
    line: &str,
    by: &I,
) -> Result<String, Memory> {
    let alloc = host.alloc();
    let mut words = Vec::new(alloc);
    for word in line.split_whitespace() {
        words.push(String::from_str(alloc, word)?)?;
    }
    let status = counted::<I, Brand, Brand>(
        host,
        words.as_slice(),
        shelf,
        out,
        by,
        Blank::new(1),
        Blank::new(1),
    );
    let bytes = out.bytes();
    let text = std::str::from_utf8(bytes).unwrap_or("no text");
    Ok(format!(in alloc; "{status}: {text}")?)
}

/// The status of a call, whose products and looks are counted from nothing.
fn counted<I: Interpolate, P: Ledger, Q: Ledger>(
    host: &HostRuntime,
    words: &[String],
    shelf: &mut MemShelf,
    out: &mut MemSink,
    by: &I,
    prods: Blank,
    looks: Blank,
) -> u8
    requires prods_name { prods.name ≡ P.name }
    requires prods_parts { prods.parts ≡ P.parts }
    requires prods_some { 0 < P.parts }
    requires looks_name { looks.name ≡ Q.name }
    requires looks_parts { looks.parts ≡ Q.parts }
    requires looks_some { 0 < Q.parts }
{
    let alloc = host.alloc();
    let mut prods = Steps::<ProductLedger<P>>::new(host, prods);
    let mut looks = Steps::<LookLedger<Q>>::new(host, looks);
    run(alloc, words, shelf, out, by, &mut prods, &mut looks).code()
}

/// A register's text over codewords of `k` symbols of `m` bits, multiplier 1 and shift 0, with so many licensees, `lic0`, `lic1` and so on.
pub fn register(alloc: Global, m: u32, k: u32, licensees: u32) -> Result<String, Memory> {
    let mut text = format!(in alloc; "register 1\nm {m}\nk {k}\na 1\nb 0\n")?;
    for serial in 0..licensees {
        write!(text, "lic{serial}\n")?;
    }
    Ok(text)
}

/// A shelf with this register under `reg` and this word under `w`.
pub fn shelf(alloc: Global, register: &str, word: &str) -> Result<MemShelf, Memory> {
    let mut shelf = MemShelf::new(alloc);
    shelf.hold("reg", register.as_bytes())?;
    shelf.hold("w", word.as_bytes())?;
    Ok(shelf)
}

/// What a call that only reads put out over this register and this word, with its status in front. Curves are found in both
/// ways, and where they don't lead to the same, both answers stand there.
pub fn answer(
    host: &HostRuntime,
    register: &str,
    word: &str,
    line: &str,
) -> Result<String, Memory> {
    let alloc = host.alloc();
    let mut shelf = shelf(alloc, register, word)?;
    let by_algebra = call(host, &mut shelf, line)?;
    let mut out = MemSink::new(alloc);
    let by_steps = call_with(host, &mut shelf, &mut out, line, &Koetter)?;
    if by_algebra.as_str() == by_steps.as_str() {
        return Ok(by_steps);
    }
    Ok(format!(in alloc; "{by_algebra} and {by_steps}")?)
}

/// What the shelf has under a name.
pub fn held(alloc: Global, shelf: &mut MemShelf, name: &str) -> Result<String, Memory> {
    if !is_name(name) {
        return Ok(String::from_str(alloc, "no name")?);
    }
    let Ok(part) = shelf.part(alloc, name, 0, 60_000) else {
        return Ok(String::from_str(alloc, "not there")?);
    };
    let text = std::str::from_utf8(part.as_slice()).unwrap_or("no text");
    Ok(format!(in alloc; "held: {text}")?)
}

/// Ends the test where these texts differ, which were had at this place.
pub fn same(rt: &impl Abort, got: &str, wanted: &str, place: &str) {
    assert_eq!(rt; got, wanted, "at {place}");
}

/// Makes this call, and compares what it puts out.
pub fn says(
    rt: &impl Abort,
    host: &HostRuntime,
    shelf: &mut MemShelf,
    line: &str,
    wanted: &str,
) -> Result<(), Memory> {
    let got = call(host, shelf, line)?;
    same(rt, got.as_str(), wanted, line);
    Ok(())
}

/// Makes one call after another, and compares what each puts out.
pub fn each_says(
    rt: &impl Abort,
    host: &HostRuntime,
    shelf: &mut MemShelf,
    calls: &[(&str, &str)],
) -> Result<(), Memory> {
    for one in calls {
        let (line, wanted) = *one;
        says(rt, host, shelf, line, wanted)?;
    }
    Ok(())
}

/// Compares what the shelf has under a name.
pub fn holds(
    rt: &impl Abort,
    alloc: Global,
    shelf: &mut MemShelf,
    name: &str,
    wanted: &str,
) -> Result<(), Memory> {
    let got = held(alloc, shelf, name)?;
    same(rt, got.as_str(), wanted, name);
    Ok(())
}

/// The same with the iterative way to find curves.
pub fn says_by_steps(
    rt: &impl Abort,
    host: &HostRuntime,
    shelf: &mut MemShelf,
    line: &str,
    wanted: &str,
) -> Result<(), Memory> {
    let alloc = host.alloc();
    let mut out = MemSink::new(alloc);
    let got = call_with(host, shelf, &mut out, line, &Koetter)?;
    same(rt, got.as_str(), wanted, line);
    Ok(())
}

/// Makes this call with an output whose first put fails, and compares what stands there.
pub fn put_fails(
    rt: &impl Abort,
    host: &HostRuntime,
    shelf: &mut MemShelf,
    line: &str,
    wanted: &str,
) -> Result<(), Memory> {
    let alloc = host.alloc();
    let mut out = MemSink::new(alloc);
    out.fail(1)?;
    let got = call_into(host, shelf, &mut out, line)?;
    same(rt, got.as_str(), wanted, line);
    Ok(())
}
