//! `sample`: lines whose numbers were worked out apart, words that are no number, and failures outside.

use super::calls::{put_fails, says, says_by_steps};
use shelf_io::MemShelf;
use std::test::Fail;

/// The line of the number 7, from words of ChaCha20 and a plain count of agreements.
const SEVENTH: &str =
    "0: sample 7 licensees 1000 places 64 readable 30 bound 3 coalition 796 414 535 accused 414 535 796\n";

/// The line of the number 0, in whose copy one member is below the threshold.
const NOUGHT: &str =
    "0: sample 0 licensees 1000 places 64 readable 30 bound 3 coalition 152 331 93 accused 152 331\n";

/// The same line at each run, by both ways to find curves, and no call of the store, of which each would fail.
#[test]
fn samples_are_summed_up(rt: HostRuntime) -> Result<(), Fail> {
    let alloc = rt.alloc();
    let mut shelf = MemShelf::new(alloc);
    shelf.fail(1)?;
    says(&rt, &rt, &mut shelf, "sample 7", SEVENTH)?;
    says_by_steps(&rt, &rt, &mut shelf, "sample 7", SEVENTH)?;
    says(&rt, &rt, &mut shelf, "sample 0", NOUGHT)?;
    Ok(())
}

/// Words that are no number of eight bytes, one too few and one too many.
const NO_NUMBERS: [&str; 6] = [
    "sample",
    "sample 7 7",
    "sample 07",
    "sample -7",
    "sample seven",
    "sample 18446744073709551616",
];

#[test]
fn words_are_no_number(rt: HostRuntime) -> Result<(), Fail> {
    let alloc = rt.alloc();
    let mut shelf = MemShelf::new(alloc);
    for line in NO_NUMBERS {
        says(&rt, &rt, &mut shelf, line, "2: error 2 words\n")?;
    }
    Ok(())
}

/// The output fails: half of the line stands there, rounded down.
#[test]
fn the_put_of_a_sample_fails(rt: HostRuntime) -> Result<(), Fail> {
    let alloc = rt.alloc();
    let mut shelf = MemShelf::new(alloc);
    let half = "6: sample 7 licensees 1000 places 64 readable 30 bo";
    put_fails(&rt, &rt, &mut shelf, "sample 7", half)?;
    Ok(())
}
