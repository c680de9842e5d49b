//! `register`, `enrol` and `withdraw`.

use super::calls::{call, each_says, holds, register, says};
use lists::Memory;
use shelf_io::MemShelf;
use std::alloc::Global;
use std::test::Fail;

/// One call after another on one shelf, and what each puts out.
const CALLS: [(&str, &str); 24] = [
    ("register 4 2 1 0 r0", "0: "),
    ("enrol r0 lic0 r1", "0: "),
    ("enrol r1 lic0 r2", "16: error 16 0\n"),
    ("enrol r1 a/b r2", "17: error 17 name\n"),
    ("enrol r1 lic1 r1", "21: error 21 r1\n"),
    ("enrol r2 lic1 r3", "3: error 3 r2\n"),
    ("register 4 2 2 0 r0", "24: error 24 bad-multiplier\n"),
    ("register 9 2 1 0 r9", "24: error 24 bad-m\n"),
    ("register 4294967300 2 1 0 r9", "24: error 24 bad-m\n"),
    ("register 4 14 1 0 r9", "24: error 24 bad-k\n"),
    ("register 4 2 1 256 r9", "24: error 24 bad-shift\n"),
    ("register 4 2 1 r9", "2: error 2 words\n"),
    ("enrol full lic256 r4", "18: error 18 256\n"),
    ("enrol cut lic r4", "11: error 11 4 header\n"),
    ("withdraw r1 lic0 r5", "0: "),
    ("withdraw r5 lic0 r6", "27: error 27 lic0\n"),
    ("enrol r5 lic0 r6", "16: error 16 0\n"),
    ("withdraw r5 nobody r6", "19: error 19 nobody\n"),
    ("withdraw r5 a/b r6", "19: error 19 a/b\n"),
    ("withdraw r5 lic0 r5", "21: error 21 r5\n"),
    ("withdraw r8 lic0 r6", "3: error 3 r8\n"),
    ("withdraw stateless lic0 r6", "11: error 11 6 bad-status\n"),
    (
        "accuse r5 w 1",
        "0: {\"accused\":[{\"name\":\"lic0\",\"places\":[0,1],\"serial\":0}],\"bound\":1,\"readable\":2}\n",
    ),
    ("withdraw five lic3 r7", "0: "),
];

/// What the blobs are after these calls; the others are not there.
const BLOBS: [(&str, &str); 9] = [
    ("r0", "held: register 2\nm 4\nk 2\na 1\nb 0\n"),
    ("r1", "held: register 2\nm 4\nk 2\na 1\nb 0\nactive lic0\n"),
    ("r2", "not there"),
    ("r3", "not there"),
    ("r4", "not there"),
    (
        "r5",
        "held: register 2\nm 4\nk 2\na 1\nb 0\nwithdrawn lic0\n",
    ),
    ("r6", "not there"),
    (
        "r7",
        "held: register 2\nm 4\nk 2\na 1\nb 0\nactive lic0\nactive lic1\nactive lic2\nwithdrawn lic3\nactive lic4\n",
    ),
    ("r9", "not there"),
];

/// A shelf with a register that is full, one that is cut, one whose licensee has no state, one of the older text with five
/// licensees, and a word.
fn full_and_cut(alloc: Global) -> Result<MemShelf, Memory> {
    let mut shelf = MemShelf::new(alloc);
    shelf.hold("full", register(alloc, 4, 2, 256)?.as_bytes())?;
    shelf.hold("cut", b"register 1\nm 4\nk 2\n")?;
    shelf.hold("stateless", b"register 2\nm 4\nk 2\na 1\nb 0\nlic0\n")?;
    shelf.hold("five", register(alloc, 4, 2, 5)?.as_bytes())?;
    shelf.hold("w", b"0,0\n")?;
    Ok(shelf)
}

#[test]
fn calls_are_answered(rt: HostRuntime) -> Result<(), Fail> {
    let alloc = rt.alloc();
    let mut shelf = full_and_cut(alloc)?;
    each_says(&rt, &rt, &mut shelf, &CALLS)?;
    Ok(())
}

/// The shelf after these calls.
fn after_calls(host: &HostRuntime) -> Result<MemShelf, Memory> {
    let alloc = host.alloc();
    let mut shelf = full_and_cut(alloc)?;
    for (line, _) in CALLS {
        let _answer = call(host, &mut shelf, line)?;
    }
    Ok(shelf)
}

#[test]
fn registers_are_written(rt: HostRuntime) -> Result<(), Fail> {
    let alloc = rt.alloc();
    let mut shelf = after_calls(&rt)?;
    for (name, wanted) in BLOBS {
        holds(&rt, alloc, &mut shelf, name, wanted)?;
    }
    Ok(())
}

/// Calls that name a register of one licensee, which of the store's calls fails (two parts are read, and then comes the write), and
/// what is put out.
const FAILING_CALLS: [(&str, u64, &str); 10] = [
    ("enrol r0 lic0 r1", 1, "4: error 4 r0\n"),
    ("enrol r0 lic0 r1", 2, "4: error 4 r0\n"),
    ("enrol r0 lic0 r1", 3, "5: error 5 r1\n"),
    ("enrol r0 lic0 r1", 4, "0: "),
    ("withdraw r0 lic1 r1", 1, "4: error 4 r0\n"),
    ("withdraw r0 lic1 r1", 2, "4: error 4 r0\n"),
    ("withdraw r0 lic1 r1", 3, "5: error 5 r1\n"),
    ("withdraw r0 lic1 r1", 4, "0: "),
    ("register 4 2 1 0 r1", 1, "5: error 5 r1\n"),
    ("register 4 2 1 0 r1", 2, "0: "),
];

/// A shelf with a register of one licensee, whose call of this number fails.
fn failing(alloc: Global, number: u64) -> Result<MemShelf, Memory> {
    let mut shelf = MemShelf::new(alloc);
    shelf.hold("r0", b"register 1\nm 4\nk 2\na 1\nb 0\nlic1\n")?;
    shelf.fail(number)?;
    Ok(shelf)
}

#[test]
fn each_call_of_a_register_fails(rt: HostRuntime) -> Result<(), Fail> {
    let alloc = rt.alloc();
    for (line, number, wanted) in FAILING_CALLS {
        let mut shelf = failing(alloc, number)?;
        says(&rt, &rt, &mut shelf, line, wanted)?;
    }
    Ok(())
}

/// The write fails: the register that was read stays.
#[test]
fn a_write_fails(rt: HostRuntime) -> Result<(), Fail> {
    let alloc = rt.alloc();
    let mut shelf = failing(alloc, 3)?;
    let stays = "held: register 1\nm 4\nk 2\na 1\nb 0\nlic1\n";
    says(&rt, &rt, &mut shelf, "enrol r0 lic0 r1", "5: error 5 r1\n")?;
    holds(&rt, alloc, &mut shelf, "r0", stays)?;
    Ok(())
}
