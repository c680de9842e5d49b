//! Films in memory: designs, source playlists and variants, of which each holds its own name.

use super::calls::{call, register};
use lists::Memory;
use shelf_io::MemShelf;
use std::alloc::Global;

/// A source of three segments of 6, 6 and 4.5 seconds.
pub const PAIR_SOURCE: &str =
    "#EXTM3U\n#EXT-X-VERSION:3\n#EXT-X-TARGETDURATION:6\n#EXT-X-MEDIA-SEQUENCE:0\n#EXT-X-PLAYLIST-TYPE:VOD\n#EXTINF:6.000000,\ns0.ts\n#EXTINF:6.000000,\ns1.ts\n#EXTINF:4.500000,\ns2.ts\n#EXT-X-ENDLIST\n";

/// A design whose two places are the first and the last of three segments.
pub const PAIR_DESIGN: &str =
    "name = \"pair\"\nm = 4\nk = 2\nc = 1\nprefix = \"v/\"\nsuffix = \".ts\"\nmarked = [0, 2]\n";

/// What three colluders of twenty licensees are found by, whose copies the film's copy is mixed from.
pub const THREE_COLLUDERS: &str =
    "0: {\"accused\":[{\"name\":\"lic0\",\"places\":[0,4,5,6],\"serial\":0},{\"name\":\"lic1\",\"places\":[1,7,8,9],\"serial\":1},{\"name\":\"lic16\",\"places\":[0,1,2,3],\"serial\":16}],\"bound\":3,\"readable\":10}\n";

/// The segments of the film's copy, in order.
pub const FILM_COPY: [&str; 12] = [
    "v/0-00.ts",
    "v/1-01.ts",
    "v/2-02.ts",
    "v/3-03.ts",
    "v/4-00.ts",
    "v/5-00.ts",
    "v/6-00.ts",
    "v/7-01.ts",
    "v/8-01.ts",
    "v/9-01.ts",
    "s10.ts",
    "s11.ts",
];

/// The name of a variant.
pub fn variant(alloc: Global, place: u32, symbol: u32) -> Result<String, Memory> {
    Ok(format!(in alloc; "v/{place}-{symbol:02x}.ts")?)
}

/// Holds a blob under its own name.
pub fn hold_itself(shelf: &mut MemShelf, name: &str) -> Result<(), Memory> {
    shelf.hold(name, name.as_bytes())
}

/// Holds the variants of a place.
fn hold_place(alloc: Global, shelf: &mut MemShelf, place: u32, symbols: u32) -> Result<(), Memory> {
    for symbol in 0..symbols {
        let name = variant(alloc, place, symbol)?;
        hold_itself(shelf, name.as_str())?;
    }
    Ok(())
}

/// Holds all variants of so many places.
pub fn hold_variants(
    alloc: Global,
    shelf: &mut MemShelf,
    places: u32,
    symbols: u32,
) -> Result<(), Memory> {
    for place in 0..places {
        hold_place(alloc, shelf, place, symbols)?;
    }
    Ok(())
}

/// Twenty licensees, the pair's design and source, and its variants, of which the first holds something else.
pub fn pair(alloc: Global) -> Result<MemShelf, Memory> {
    let mut shelf = MemShelf::new(alloc);
    shelf.hold("reg", register(alloc, 4, 2, 20)?.as_bytes())?;
    shelf.hold("design", PAIR_DESIGN.as_bytes())?;
    shelf.hold("source", PAIR_SOURCE.as_bytes())?;
    hold_variants(alloc, &mut shelf, 2, 16)?;
    shelf.hold("v/0-00.ts", b"abc")?;
    Ok(shelf)
}

/// The pair with its title.
pub fn titled_pair(host: &HostRuntime) -> Result<MemShelf, Memory> {
    let alloc = host.alloc();
    let mut shelf = pair(alloc)?;
    let _answer = call(host, &mut shelf, "title design source pair.title")?;
    Ok(shelf)
}

/// A playlist of these segments, each of six seconds.
pub fn playlist(alloc: Global, names: &[&str]) -> Result<String, Memory> {
    let mut text = String::from_str(alloc, "#EXTM3U\n#EXT-X-TARGETDURATION:6\n")?;
    for name in names {
        write!(text, "#EXTINF:6,\n{name}\n")?;
    }
    text.push_str("#EXT-X-ENDLIST\n")?;
    Ok(text)
}

/// The film's design with this dimension, bound and list of marked numbers.
pub fn film_design(alloc: Global, k: u32, c: u32, marked: &str) -> Result<String, Memory> {
    Ok(format!(in alloc;
        "name = \"film\"\nm = 4\nk = {k}\nc = {c}\nprefix = \"v/\"\nsuffix = \".ts\"\nmarked = [{marked}]\n"
    )?)
}

/// Twenty licensees, and the film with its source of twelve segments, its design and all its variants.
pub fn film(alloc: Global) -> Result<MemShelf, Memory> {
    let mut shelf = MemShelf::new(alloc);
    shelf.hold("reg", register(alloc, 4, 2, 20)?.as_bytes())?;
    let design = film_design(alloc, 2, 3, "0, 1, 2, 3, 4, 5, 6, 7, 8, 9")?;
    shelf.hold("design", design.as_bytes())?;
    let source = playlist(
        alloc,
        &[
            "s0.ts", "s1.ts", "s2.ts", "s3.ts", "s4.ts", "s5.ts", "s6.ts", "s7.ts", "s8.ts",
            "s9.ts", "s10.ts", "s11.ts",
        ],
    )?;
    shelf.hold("source", source.as_bytes())?;
    hold_variants(alloc, &mut shelf, 10, 16)?;
    shelf.hold("s10.ts", b"s10")?;
    shelf.hold("s11.ts", b"s11")?;
    Ok(shelf)
}

/// The film with its title and the copy that three licensees mixed.
pub fn titled_film(host: &HostRuntime) -> Result<MemShelf, Memory> {
    let alloc = host.alloc();
    let mut shelf = film(alloc)?;
    let _answer = call(host, &mut shelf, "title design source film.title")?;
    shelf.hold("copy", playlist(alloc, &FILM_COPY)?.as_bytes())?;
    Ok(shelf)
}
