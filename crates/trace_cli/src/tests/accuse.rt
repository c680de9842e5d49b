//! `accuse`: reports, bounds, words and failures outside.

use super::calls::{answer, put_fails, register, same, says, shelf};
use lists::Memory;
use shelf_io::MemShelf;
use std::alloc::Global;
use std::process::Abort;
use std::test::Fail;

/// Words over GF(16) against twenty licensees, k = 2: a word, a bound and what is put out.
const SMALL: [(&str, &str, &str); 10] = [
    // three colluders, each with exactly a third of ten places and more
    (
        "0,1,2,3,0,0,0,1,1,1",
        "accuse reg w 3",
        "0: {\"accused\":[{\"name\":\"lic0\",\"places\":[0,4,5,6],\"serial\":0},{\"name\":\"lic1\",\"places\":[1,7,8,9],\"serial\":1},{\"name\":\"lic16\",\"places\":[0,1,2,3],\"serial\":16}],\"bound\":3,\"readable\":10}\n",
    ),
    // one place too few
    (
        "0,1,2,3,0,0,0,1,1,-",
        "accuse reg w 3",
        "15: error 15 9 9\n",
    ),
    // nobody meets the threshold of five
    (
        "0,1,2,3,0,0,0,1,1,-",
        "accuse reg w 2",
        "0: {\"accused\":[],\"bound\":2,\"readable\":9}\n",
    ),
    // the threshold met exactly
    (
        "5,5",
        "accuse reg w 1",
        "0: {\"accused\":[{\"name\":\"lic5\",\"places\":[0,1],\"serial\":5}],\"bound\":1,\"readable\":2}\n",
    ),
    // a whole copy of one licensee
    (
        "0,0,0,0,0,0,0,0,0,0,0,0,0,0,0,0\n",
        "accuse reg w 3",
        "0: {\"accused\":[{\"name\":\"lic0\",\"places\":[0,1,2,3,4,5,6,7,8,9,10,11,12,13,14,15],\"serial\":0}],\"bound\":3,\"readable\":16}\n",
    ),
    ("0,16,2", "accuse reg w 1", "23: error 23 token 1\n"),
    ("", "accuse reg w 1", "23: error 23 token 0\n"),
    (
        "0,0,0,0,0,0,0,0,0,0,0,0,0,0,0,0,0",
        "accuse reg w 1",
        "23: error 23 long\n",
    ),
    ("5,5", "accuse reg w 9", "14: error 14 9\n"),
    ("5,5", "accuse reg w 03", "2: error 2 words\n"),
];

/// Makes this call over a register and a word, and compares what it puts out.
fn answers(
    rt: &impl Abort,
    host: &HostRuntime,
    register: &str,
    word: &str,
    line: &str,
    wanted: &str,
) -> Result<(), Memory> {
    let got = answer(host, register, word, line)?;
    same(rt, got.as_str(), wanted, word);
    Ok(())
}

#[test]
fn small_words(rt: HostRuntime) -> Result<(), Fail> {
    let alloc = rt.alloc();
    let twenty = register(alloc, 4, 2, 20)?;
    for (word, line, wanted) in SMALL {
        answers(&rt, &rt, twenty.as_str(), word, line, wanted)?;
    }
    Ok(())
}

/// Words of the command line over five licensees and the word `5,5`: whose word it is has no serial in this register.
const FIVE: [(&str, &str); 8] = [
    (
        "accuse reg w 1",
        "0: {\"accused\":[],\"bound\":1,\"readable\":2}\n",
    ),
    ("", "2: error 2 words\n"),
    ("follow a b c 3", "2: error 2 words\n"),
    ("accuse reg w", "2: error 2 words\n"),
    ("accuse nowhere w 1", "3: error 3 nowhere\n"),
    ("accuse reg nowhere 1", "3: error 3 nowhere\n"),
    ("accuse w w 1", "11: error 11 1 ending\n"),
    ("accuse reg reg 1", "23: error 23 token 0\n"),
];

#[test]
fn nobody_else_and_nothing_there(rt: HostRuntime) -> Result<(), Fail> {
    let alloc = rt.alloc();
    let five = register(alloc, 4, 2, 5)?;
    for (line, wanted) in FIVE {
        answers(&rt, &rt, five.as_str(), "5,5", line, wanted)?;
    }
    Ok(())
}

/// The symbol that place `i` of 200 shows: the licensees of serials 3, 7 and 300 in turn, with codewords over GF(256), k = 5.
fn symbol_shown(i: u32) -> u32 {
    match i % 3 {
        0 => 3,
        1 => 7,
        _ => 44 ^ i,
    }
}

/// Adds a number, behind a comma if another stands there.
fn add_number(text: &mut String, number: u32) -> Result<(), Memory> {
    if !text.is_empty() {
        text.push(',')?;
    }
    write!(text, "{number}")?;
    Ok(())
}

/// The word of three colluders over GF(256), which takes them in turns.
fn word_shown(alloc: Global) -> Result<String, Memory> {
    let mut text = String::new(alloc);
    for i in 0u32..200 {
        add_number(&mut text, symbol_shown(i))?;
    }
    Ok(text)
}

/// The places of 200 that leave `rest` when 3 divides them, and one more.
fn places(alloc: Global, rest: u32, more: u32) -> Result<String, Memory> {
    let mut text = String::new(alloc);
    for i in 0u32..200 {
        if i % 3 == rest || i == more {
            add_number(&mut text, i)?;
        }
    }
    Ok(text)
}

/// Adds a licensee with these places to the text of a report.
fn add_accused(text: &mut String, serial: u32, places: &str) -> Result<(), Memory> {
    write!(
        text,
        "{{\"name\":\"lic{serial}\",\"places\":[{places}],\"serial\":{serial}}}"
    )?;
    Ok(())
}

/// Each of the three agrees where its symbol is shown, and two of them at one more place.
fn three_accused(alloc: Global) -> Result<String, Memory> {
    let mut text = String::from_str(alloc, "0: {\"accused\":[")?;
    add_accused(&mut text, 3, places(alloc, 0, 47)?.as_str())?;
    text.push(',')?;
    add_accused(&mut text, 7, places(alloc, 1, 1)?.as_str())?;
    text.push(',')?;
    add_accused(&mut text, 300, places(alloc, 2, 43)?.as_str())?;
    text.push_str("],\"bound\":3,\"readable\":200}\n")?;
    Ok(text)
}

#[test]
fn two_hundred_places(rt: HostRuntime) -> Result<(), Fail> {
    let alloc = rt.alloc();
    let many = register(alloc, 8, 5, 400)?;
    let word = word_shown(alloc)?;
    let wanted = three_accused(alloc)?;
    answers(
        &rt,
        &rt,
        many.as_str(),
        word.as_str(),
        "accuse reg w 3",
        wanted.as_str(),
    )?;
    Ok(())
}

/// 64 symbols 0: the whole copy of the first licensee.
fn all_zero(alloc: Global) -> Result<String, Memory> {
    let mut text = String::new(alloc);
    for _ in 0u32..64 {
        add_number(&mut text, 0)?;
    }
    Ok(text)
}

/// The report of that copy, with all places from 0 to 63.
fn whole_copy(alloc: Global) -> Result<String, Memory> {
    let mut places = String::new(alloc);
    for i in 0u32..64 {
        add_number(&mut places, i)?;
    }
    let mut text = String::from_str(alloc, "0: {\"accused\":[")?;
    add_accused(&mut text, 0, places.as_str())?;
    text.push_str("],\"bound\":3,\"readable\":64}\n")?;
    Ok(text)
}

/// One of 5,000 licensees over 64 places of GF(256), k = 2.
#[test]
fn five_thousand_licensees(rt: HostRuntime) -> Result<(), Fail> {
    let alloc = rt.alloc();
    let many = register(alloc, 8, 2, 5000)?;
    let word = all_zero(alloc)?;
    let wanted = whole_copy(alloc)?;
    answers(
        &rt,
        &rt,
        many.as_str(),
        word.as_str(),
        "accuse reg w 3",
        wanted.as_str(),
    )?;
    Ok(())
}

/// Each call on the shelf made to fail in turn: two parts for the register, two for the word, and one call past the last.
const FAILING_CALLS: [(u64, &str); 5] = [
    (1, "4: error 4 reg\n"),
    (2, "4: error 4 reg\n"),
    (3, "4: error 4 w\n"),
    (4, "4: error 4 w\n"),
    (
        5,
        "0: {\"accused\":[{\"name\":\"lic5\",\"places\":[0,1],\"serial\":5}],\"bound\":1,\"readable\":2}\n",
    ),
];

/// A shelf with this register and the word `5,5`, whose call of this number fails.
fn failing(alloc: Global, register: &str, number: u64) -> Result<MemShelf, Memory> {
    let mut shelf = shelf(alloc, register, "5,5")?;
    shelf.fail(number)?;
    Ok(shelf)
}

#[test]
fn failures_of_the_shelf(rt: HostRuntime) -> Result<(), Fail> {
    let alloc = rt.alloc();
    let twenty = register(alloc, 4, 2, 20)?;
    for (number, wanted) in FAILING_CALLS {
        let mut shelf = failing(alloc, twenty.as_str(), number)?;
        says(&rt, &rt, &mut shelf, "accuse reg w 1", wanted)?;
    }
    Ok(())
}

/// The first put of a report and of an error line made to fail.
const FAILING_PUTS: [(&str, &str); 2] = [
    (
        "0,1,2,3,0,0,0,1,1,1",
        "6: {\"accused\":[{\"name\":\"lic0\",\"places\":[0,4,5,6],\"serial\":0},{\"name\":\"lic1\",\"places\":[1,7,8,",
    ),
    ("0,1,2,3,0,0,0,1,1,-", "15: error "),
];

#[test]
fn failures_of_the_output(rt: HostRuntime) -> Result<(), Fail> {
    let alloc = rt.alloc();
    let twenty = register(alloc, 4, 2, 20)?;
    for (word, wanted) in FAILING_PUTS {
        let mut shelf = shelf(alloc, twenty.as_str(), word)?;
        put_fails(&rt, &rt, &mut shelf, "accuse reg w 3", wanted)?;
    }
    Ok(())
}

/// A whole copy over GF(32), k = 3: the curve has multiplicity 3 at each of nineteen points.
#[test]
fn nineteen_places(rt: HostRuntime) -> Result<(), Fail> {
    let alloc = rt.alloc();
    let twenty = register(alloc, 5, 3, 20)?;
    let word = "0,0,0,0,0,0,0,0,0,0,0,0,0,0,0,0,0,0,0";
    let wanted =
        "0: {\"accused\":[{\"name\":\"lic0\",\"places\":[0,1,2,3,4,5,6,7,8,9,10,11,12,13,14,15,16,17,18],\"serial\":0}],\"bound\":3,\"readable\":19}\n";
    answers(&rt, &rt, twenty.as_str(), word, "accuse reg w 3", wanted)?;
    Ok(())
}
