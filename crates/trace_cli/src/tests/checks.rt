//! `check`: right reports, each thing that may be wrong with one, and failures outside.

use super::calls::{each_says, put_fails, says};
use super::films::{FILM_COPY, THREE_COLLUDERS, playlist, titled_film};
use lists::Memory;
use shelf_io::MemShelf;
use std::test::Fail;

/// The film with its title, its copy and this report.
fn reported(host: &HostRuntime, report: &str) -> Result<MemShelf, Memory> {
    let mut shelf = titled_film(host)?;
    shelf.hold("rep", report.as_bytes())?;
    Ok(shelf)
}

/// The report on the film's copy.
fn right_report() -> &'static str {
    THREE_COLLUDERS.strip_prefix("0: ").unwrap_or("")
}

/// Reports on the film's copy, and how `check` ends.
const REPORTS: [(&str, &str); 17] = [
    (
        "{\"accused\":[{\"name\":\"lic0\",\"places\":[0,4,5],\"serial\":0},{\"name\":\"lic1\",\"places\":[1,7,8,9],\"serial\":1},{\"name\":\"lic16\",\"places\":[0,1,2,3],\"serial\":16}],\"bound\":3,\"readable\":10}\n",
        "22: error 22 wrong-places 0\n",
    ),
    (
        "{\"accused\":[{\"name\":\"lic0\",\"places\":[0,4,5,6],\"serial\":0},{\"name\":\"lic1\",\"places\":[1,7,8,9],\"serial\":1}],\"bound\":3,\"readable\":10}\n",
        "22: error 22 absent 16\n",
    ),
    (
        "{\"accused\":[],\"bound\":3,\"readable\":10}",
        "22: error 22 absent 0\n",
    ),
    (
        "{\"accused\":[],\"bound\":3,\"readable\":9}",
        "22: error 22 wrong-readable\n",
    ),
    (
        "{\"accused\":[],\"bound\":4,\"readable\":10}",
        "14: error 14 4\n",
    ),
    (
        "{\"accused\":[{\"name\":\"lic20\",\"places\":[],\"serial\":20}],\"bound\":3,\"readable\":10}",
        "22: error 22 not-enrolled 0\n",
    ),
    (
        "{\"accused\":[{\"name\":\"lic0\",\"places\":[0,4,5,6],\"serial\":0},{\"name\":\"lic0\",\"places\":[1,7,8,9],\"serial\":1}],\"bound\":3,\"readable\":10}",
        "22: error 22 not-enrolled 1\n",
    ),
    (
        "{\"accused\":[{\"name\":\"lic1\",\"places\":[1,7,8,9],\"serial\":1},{\"name\":\"lic0\",\"places\":[0,4,5,6],\"serial\":0}],\"bound\":3,\"readable\":10}",
        "22: error 22 order 1\n",
    ),
    (
        "{\"accused\":[{\"name\":\"lic0\",\"places\":[0,4,5,6],\"serial\":0},{\"name\":\"lic1\",\"places\":[1,7,8,9],\"serial\":1},{\"name\":\"lic2\",\"places\":[2],\"serial\":2}],\"bound\":3,\"readable\":10}",
        "22: error 22 below 2\n",
    ),
    // further keys, other white space, another order of keys, and a key that stands twice
    (
        " { \"readable\" : 10, \"bound\":3, \"by\":{\"desk\":[1.5]},\n\"accused\":[{\"serial\":0,\"places\":[0, 4, 5, 6],\"name\":\"lic0\"},{\"name\":\"lic1\",\"places\":[1,7,8,9],\"serial\":1},{\"name\":\"lic16\",\"places\":[0,1,2,3],\"serial\":2,\"serial\":16}]}",
        "0: right\n",
    ),
    ("{}", "12: error 12 report\n"),
    ("", "12: error 12 report\n"),
    (
        "{\"accused\":[],\"bound\":3.0,\"readable\":10}",
        "12: error 12 report\n",
    ),
    (
        "{\"accused\":[],\"bound\":3,\"readable\":1e1}",
        "12: error 12 report\n",
    ),
    (
        "{\"accused\":[],\"bound\":3,\"readable\":-0}",
        "12: error 12 report\n",
    ),
    (
        "{\"accused\":[],\"bound\":3,\"readable\":4294967296}",
        "12: error 12 report\n",
    ),
    (
        "{\"accused\":[{\"name\":\"a b\",\"places\":[],\"serial\":0}],\"bound\":3,\"readable\":10}",
        "12: error 12 report\n",
    ),
];

#[test]
fn reports_are_judged(rt: HostRuntime) -> Result<(), Fail> {
    let mut shelf = titled_film(&rt)?;
    for (report, wanted) in REPORTS {
        shelf.hold("rep", report.as_bytes())?;
        says(
            &rt,
            &rt,
            &mut shelf,
            "check film.title reg copy rep",
            wanted,
        )?;
    }
    Ok(())
}

/// Where what `trace` puts out ends, and how it is judged.
const ENDS: [(usize, &str); 3] = [
    (178, "0: right\n"),
    (177, "0: right\n"),
    (176, "12: error 12 report\n"),
];

/// What `trace` puts out is right, also without its line feed, and is no report before its last brace.
#[test]
fn what_trace_puts_out_is_right(rt: HostRuntime) -> Result<(), Fail> {
    let report = right_report();
    assert_eq!(rt; report.len(), 178);
    for (end, wanted) in ENDS {
        let mut shelf = reported(&rt, report.get(..end).unwrap_or(""))?;
        says(
            &rt,
            &rt,
            &mut shelf,
            "check film.title reg copy rep",
            wanted,
        )?;
    }
    Ok(())
}

/// What is refused before the report is judged.
const CALLS: [(&str, &str); 8] = [
    ("check film.title reg copy", "2: error 2 words\n"),
    ("check nowhere reg copy rep", "3: error 3 nowhere\n"),
    ("check reg reg copy rep", "10: error 10 1 form\n"),
    ("check film.title rep copy rep", "11: error 11 1 header\n"),
    ("check film.title wide copy rep", "13: error 13 4 2 4 3\n"),
    ("check film.title reg nowhere rep", "3: error 3 nowhere\n"),
    ("check film.title reg reg rep", "9: error 9 1 not-m3u\n"),
    ("check film.title reg short rep", "15: error 15 9 9\n"),
];

/// The first nine segments of the film's copy, of which each shows a place.
const SHORT_COPY: [&str; 9] = [
    "v/0-00.ts",
    "v/1-01.ts",
    "v/2-02.ts",
    "v/3-03.ts",
    "v/4-00.ts",
    "v/5-00.ts",
    "v/6-00.ts",
    "v/7-01.ts",
    "v/8-01.ts",
];

#[test]
fn checks_are_refused(rt: HostRuntime) -> Result<(), Fail> {
    let alloc = rt.alloc();
    let mut shelf = reported(&rt, right_report())?;
    shelf.hold("wide", b"register 1\nm 4\nk 3\na 1\nb 0\nlic0\n")?;
    let short = playlist(alloc, &SHORT_COPY)?;
    shelf.hold("short", short.as_bytes())?;
    each_says(&rt, &rt, &mut shelf, &CALLS)?;
    Ok(())
}

/// The name whose part is the call of this number, counted from the first of the command: each blob takes two.
fn name_read(number: usize) -> &'static str {
    match number / 2 {
        0 => "film.title",
        1 => "reg",
        2 => "rep",
        3 => "copy",
        read => match FILM_COPY.get(read - 4) {
            Some(name) => *name,
            None => "nothing",
        },
    }
}

/// 325 calls of the store made the title before.
#[test]
fn each_call_of_check_fails(rt: HostRuntime) -> Result<(), Fail> {
    let alloc = rt.alloc();
    for number in 0usize..32 {
        let mut shelf = reported(&rt, right_report())?;
        shelf.fail(326 + number as u64)?;
        let name = name_read(number);
        let wanted = format!(in alloc; "4: error 4 {name}\n")?;
        says(
            &rt,
            &rt,
            &mut shelf,
            "check film.title reg copy rep",
            wanted.as_str(),
        )?;
    }
    Ok(())
}

/// The output fails: half of the answer stands there.
#[test]
fn the_put_of_right_fails(rt: HostRuntime) -> Result<(), Fail> {
    let mut shelf = reported(&rt, right_report())?;
    put_fails(
        &rt,
        &rt,
        &mut shelf,
        "check film.title reg copy rep",
        "6: rig",
    )?;
    Ok(())
}
