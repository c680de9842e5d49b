//! A film as a distributor has it: 900 segments, 32 of them marked, and the whole copy of one cinema.

use super::calls::{each_says, held, same, says_by_steps};
use super::films::{hold_itself, hold_variants};
use lists::Memory;
use shelf_io::MemShelf;
use std::alloc::Global;
use std::test::Fail;

/// What the whole copy of the last cinema is traced to.
const WHOLE_COPY: &str =
    "0: {\"accused\":[{\"name\":\"cinema-007\",\"places\":[0,1,2,3,4,5,6,7,8,9,10,11,12,13,14,15,16,17,18,19,20,21,22,23,24,25,26,27,28,29,30,31],\"serial\":7}],\"bound\":3,\"readable\":32}\n";

/// The source of 900 segments of 6.006 seconds, each of which is held.
fn hold_source(alloc: Global, shelf: &mut MemShelf) -> Result<(), Memory> {
    let mut text = String::from_str(alloc, "#EXTM3U\n#EXT-X-TARGETDURATION:6\n")?;
    for segment in 0u32..900 {
        write!(text, "#EXTINF:6.006,\ns{segment}.ts\n")?;
        let name = format!(in alloc; "s{segment}.ts")?;
        hold_itself(shelf, name.as_str())?;
    }
    text.push_str("#EXT-X-ENDLIST\n")?;
    shelf.hold("source", text.as_bytes())
}

/// The design: every 28th segment is marked.
fn hold_design(alloc: Global, shelf: &mut MemShelf) -> Result<(), Memory> {
    let mut text = String::from_str(
        alloc,
        "name = \"feature\"\nm = 5\nk = 3\nc = 3\nprefix = \"v/\"\nsuffix = \".ts\"\nmarked = [0",
    )?;
    for place in 1u32..32 {
        let marked = place * 28;
        write!(text, ", {marked}")?;
    }
    text.push_str("]\n")?;
    shelf.hold("design", text.as_bytes())
}

/// The register of eight cinemas.
fn hold_register(alloc: Global, shelf: &mut MemShelf) -> Result<(), Memory> {
    let mut text = String::from_str(alloc, "register 2\nm 5\nk 3\na 12345\nb 678\n")?;
    for serial in 0u32..8 {
        write!(text, "active cinema-{serial:03}\n")?;
    }
    shelf.hold("reg", text.as_bytes())
}

/// The film with its source, its design, its register and all variants.
fn distributed(alloc: Global) -> Result<MemShelf, Memory> {
    let mut shelf = MemShelf::new(alloc);
    hold_source(alloc, &mut shelf)?;
    hold_design(alloc, &mut shelf)?;
    hold_register(alloc, &mut shelf)?;
    hold_variants(alloc, &mut shelf, 32, 32)?;
    Ok(shelf)
}

/// The title is made, the last cinema gets its playlist, and is found by it.
const CALLS: [(&str, &str); 3] = [
    ("title design source title", "0: "),
    ("package title reg cinema-007 copy", "0: "),
    ("trace title reg copy 3", WHOLE_COPY),
];

/// Lines of the cinema's playlist: the URI of segment `i` stands on line 7 + 2i, counted from 1.
const LINES: [(usize, &str); 6] = [
    (3, "#EXT-X-TARGETDURATION:6"),
    (7, "v/0-15.ts"),
    (7 + 2 * 28, "v/1-01.ts"),
    (7 + 2 * 56, "v/2-09.ts"),
    (1806, "#EXT-X-ENDLIST"),
    (1807, "none"),
];

#[test]
fn a_cinema_gets_its_playlist_and_is_found(rt: HostRuntime) -> Result<(), Fail> {
    let alloc = rt.alloc();
    let mut shelf = distributed(alloc)?;
    each_says(&rt, &rt, &mut shelf, &CALLS)?;
    says_by_steps(&rt, &rt, &mut shelf, "trace title reg copy 3", WHOLE_COPY)?;
    let said = held(alloc, &mut shelf, "copy")?;
    let text = said.as_str().strip_prefix("held: ").unwrap_or("");
    for (number, wanted) in LINES {
        let line = text.lines().nth(number - 1).unwrap_or("none");
        same(&rt, line, wanted, "a line of the playlist");
    }
    Ok(())
}
