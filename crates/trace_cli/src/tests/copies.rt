//! `trace`: words of copies, failures outside, and a film as it is handed out.

use super::calls::{each_says, held, put_fails, says, says_by_steps};
use super::films::{
    FILM_COPY, PAIR_SOURCE, THREE_COLLUDERS, hold_itself, playlist, titled_film, titled_pair,
};
use lists::Memory;
use shelf_io::MemShelf;
use std::alloc::Global;
use std::process::Abort;
use std::test::Fail;

/// Compares what `trace` puts out on a copy of these segments.
fn traced(
    rt: &impl Abort,
    host: &HostRuntime,
    shelf: &mut MemShelf,
    names: &[&str],
    bound: u32,
    wanted: &str,
) -> Result<(), Memory> {
    let alloc = host.alloc();
    shelf.hold("copy", playlist(alloc, names)?.as_bytes())?;
    let line = format!(in alloc; "trace film.title reg copy {bound}")?;
    says_by_steps(rt, host, shelf, line.as_str(), wanted)
}

/// The film's copy with one segment more at its end.
fn with_another(alloc: Global, name: &'static str) -> Result<Vec<&'static str>, Memory> {
    let mut names = Vec::from_slice(alloc, &FILM_COPY)?;
    names.push(name)?;
    Ok(names)
}

/// What one segment more shows at the end of the film's copy, at this bound.
const ANOTHER: [(&str, u32, &str); 6] = [
    ("v/0-00.ts", 3, THREE_COLLUDERS),
    // two variants at a place: it is lost
    ("v/4-01.ts", 3, "15: error 15 9 9\n"),
    (
        "v/4-01.ts",
        2,
        "0: {\"accused\":[],\"bound\":2,\"readable\":9}\n",
    ),
    // of no place, under a name that no list has, and a variant under a variant's other name
    ("other.ts", 3, THREE_COLLUDERS),
    ("v/4-0f.ts", 3, THREE_COLLUDERS),
    ("missing.ts", 3, "3: error 3 missing.ts\n"),
];

#[test]
fn one_segment_more(rt: HostRuntime) -> Result<(), Fail> {
    let alloc = rt.alloc();
    let mut shelf = titled_film(&rt)?;
    hold_itself(&mut shelf, "other.ts")?;
    shelf.hold("v/4-0f.ts", b"v/4-00.ts")?;
    for (name, bound, wanted) in ANOTHER {
        let names = with_another(alloc, name)?;
        traced(&rt, &rt, &mut shelf, names.as_slice(), bound, wanted)?;
    }
    Ok(())
}

/// The order of a copy's segments and their names say nothing.
#[test]
fn reversed_and_renamed(rt: HostRuntime) -> Result<(), Fail> {
    let alloc = rt.alloc();
    let mut shelf = titled_film(&rt)?;
    let mut names = Vec::from_slice(alloc, &FILM_COPY)?;
    names.reverse();
    traced(&rt, &rt, &mut shelf, names.as_slice(), 3, THREE_COLLUDERS)?;
    shelf.hold("found-on-the-net.ts", b"v/9-01.ts")?;
    names.push("found-on-the-net.ts")?;
    let _removed = names.remove(2);
    traced(&rt, &rt, &mut shelf, names.as_slice(), 3, THREE_COLLUDERS)?;
    Ok(())
}

/// What is refused of the command's words, titles, registers and copies.
const CALLS: [(&str, &str); 11] = [
    ("trace film.title reg copy", "2: error 2 words\n"),
    ("trace nowhere reg copy 3", "3: error 3 nowhere\n"),
    ("trace film.title reg nowhere 3", "3: error 3 nowhere\n"),
    ("trace cut reg copy 3", "10: error 10 4 form\n"),
    ("trace film.title copy copy 3", "11: error 11 1 header\n"),
    ("trace film.title bad copy 3", "11: error 11 2 bad-m\n"),
    ("trace film.title wide copy 3", "13: error 13 4 2 4 3\n"),
    ("trace film.title reg copy 4", "14: error 14 4\n"),
    ("trace film.title reg copy 0", "14: error 14 0\n"),
    ("trace film.title reg reg 3", "9: error 9 1 not-m3u\n"),
    ("trace film.title reg copy 3", THREE_COLLUDERS),
];

#[test]
fn traces_are_refused(rt: HostRuntime) -> Result<(), Fail> {
    let mut shelf = titled_film(&rt)?;
    shelf.hold("wide", b"register 1\nm 4\nk 3\na 1\nb 0\nlic0\n")?;
    shelf.hold("bad", b"register 1\nm 9\nk 2\na 1\nb 0\nlic0\n")?;
    shelf.hold("cut", b"title 1\nname film\nm 4\n")?;
    each_says(&rt, &rt, &mut shelf, &CALLS)?;
    Ok(())
}

/// The name whose part is the call of this number, counted from the first of the command: each blob takes two.
fn name_read(number: usize) -> &'static str {
    match number / 2 {
        0 => "film.title",
        1 => "reg",
        2 => "copy",
        read => match FILM_COPY.get(read - 3) {
            Some(name) => *name,
            None => "nothing",
        },
    }
}

/// 325 calls of the store made the title before: two parts each of the design, the source and 160 variants, and the write.
#[test]
fn each_call_of_trace_fails(rt: HostRuntime) -> Result<(), Fail> {
    let alloc = rt.alloc();
    for number in 0usize..30 {
        let mut shelf = titled_film(&rt)?;
        shelf.fail(326 + number as u64)?;
        let name = name_read(number);
        let wanted = format!(in alloc; "4: error 4 {name}\n")?;
        says(
            &rt,
            &rt,
            &mut shelf,
            "trace film.title reg copy 3",
            wanted.as_str(),
        )?;
    }
    let mut shelf = titled_film(&rt)?;
    shelf.fail(356)?;
    says(
        &rt,
        &rt,
        &mut shelf,
        "trace film.title reg copy 3",
        THREE_COLLUDERS,
    )?;
    Ok(())
}

/// The film with a long segment before its copy, whose third part fails or not.
fn with_a_long_segment(host: &HostRuntime, fails: bool) -> Result<MemShelf, Memory> {
    let alloc = host.alloc();
    let mut shelf = titled_film(host)?;
    let mut zeros = Vec::new(alloc);
    zeros.resize(200_000, 0)?;
    shelf.hold("big.ts", zeros.as_slice())?;
    let mut names = vec![in alloc; "big.ts"]?;
    names.extend_from_slice(&FILM_COPY)?;
    shelf.hold("copy", playlist(alloc, names.as_slice())?.as_bytes())?;
    if fails {
        shelf.fail(325 + 9)?;
    }
    Ok(shelf)
}

/// Whether that part fails, and what is put out.
const LONG_SEGMENT: [(bool, &str); 2] = [(true, "4: error 4 big.ts\n"), (false, THREE_COLLUDERS)];

#[test]
fn a_long_segment_is_read_by_parts(rt: HostRuntime) -> Result<(), Fail> {
    for (fails, wanted) in LONG_SEGMENT {
        let mut shelf = with_a_long_segment(&rt, fails)?;
        says(&rt, &rt, &mut shelf, "trace film.title reg copy 3", wanted)?;
    }
    Ok(())
}

/// The output fails: half of the report stands there.
#[test]
fn a_put_fails(rt: HostRuntime) -> Result<(), Fail> {
    let mut shelf = titled_film(&rt)?;
    let half =
        "6: {\"accused\":[{\"name\":\"lic0\",\"places\":[0,4,5,6],\"serial\":0},{\"name\":\"lic1\",\"places\":[1,7,8,";
    put_fails(&rt, &rt, &mut shelf, "trace film.title reg copy 3", half)?;
    Ok(())
}

/// Each proper prefix of the pair's title is refused at the line that is not there whole.
#[test]
fn damaged_titles(rt: HostRuntime) -> Result<(), Fail> {
    let alloc = rt.alloc();
    let mut shelf = titled_pair(&rt)?;
    let said = held(alloc, &mut shelf, "pair.title")?;
    let text = said.as_str().strip_prefix("held: ").unwrap_or("");
    assert_eq!(rt; text.len(), 2233);
    let mut line = 1u32;
    for end in 0..text.len() {
        let Some(prefix) = text.get(..end) else {
            break;
        };
        if prefix.ends_with("\n") {
            line = line.wrapping_add(1);
        }
        shelf.hold("cut", prefix.as_bytes())?;
        let wanted = format!(in alloc; "10: error 10 {line} form\n")?;
        says(
            &rt,
            &rt,
            &mut shelf,
            "trace cut reg source 1",
            wanted.as_str(),
        )?;
    }
    Ok(())
}

/// After how many lines the pair's source is cut, and how it is then refused as a copy.
const CUTS: [(usize, &str); 12] = [
    (0, "9: error 9 1 not-m3u\n"),
    (1, "9: error 9 0 no-target\n"),
    (2, "9: error 9 0 no-target\n"),
    (3, "9: error 9 0 no-end\n"),
    (4, "9: error 9 0 no-end\n"),
    (5, "9: error 9 0 no-end\n"),
    (6, "9: error 9 6 no-uri\n"),
    (7, "9: error 9 0 no-end\n"),
    (8, "9: error 9 8 no-uri\n"),
    (9, "9: error 9 0 no-end\n"),
    (10, "9: error 9 10 no-uri\n"),
    (11, "9: error 9 0 no-end\n"),
];

/// The first lines of a text.
fn first_lines(alloc: Global, text: &str, count: usize) -> Result<String, Memory> {
    let mut lines = String::new(alloc);
    for line in text.lines().take(count) {
        lines.push_str(line)?;
        lines.push_str("\n")?;
    }
    Ok(lines)
}

#[test]
fn damaged_copies(rt: HostRuntime) -> Result<(), Fail> {
    let alloc = rt.alloc();
    let mut shelf = titled_pair(&rt)?;
    for (count, wanted) in CUTS {
        let cut = first_lines(alloc, PAIR_SOURCE, count)?;
        shelf.hold("cut", cut.as_bytes())?;
        says(&rt, &rt, &mut shelf, "trace pair.title reg cut 1", wanted)?;
    }
    Ok(())
}
