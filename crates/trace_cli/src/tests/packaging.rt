//! `title` and `package`.

use super::calls::{each_says, held, holds, same, says};
use super::films::{PAIR_SOURCE, film, film_design, pair, titled_pair, variant};
use lists::Memory;
use shelf_io::MemShelf;
use std::alloc::Global;
use std::test::Fail;

/// Whose playlists of the pair differ: the lines of the two variants.
const LICENSEES: [(&str, &str, &str); 2] = [
    ("lic16", "v/0-00.ts", "v/1-01.ts"),
    ("lic17", "v/0-01.ts", "v/1-00.ts"),
];

/// What a licensee gets of the pair, with this duration of the second segment, this target and this line before the third.
fn pair_playlist(
    alloc: Global,
    variants: (&str, &str),
    second: &str,
    target: &str,
    third: &str,
) -> Result<String, Memory> {
    let (first, last) = variants;
    Ok(format!(in alloc;
        "held: #EXTM3U\n#EXT-X-VERSION:3\n#EXT-X-TARGETDURATION:{target}\n#EXT-X-MEDIA-SEQUENCE:0\n#EXT-X-PLAYLIST-TYPE:VOD\n#EXTINF:6.000000,\n{first}\n#EXTINF:{second},\ns1.ts\n{third}#EXTINF:4.500000,\n{last}\n#EXT-X-ENDLIST\n"
    )?)
}

/// Two licensees get their variants of a source with lines of the other kind; one is not enrolled, and nothing is written for them.
#[test]
fn licensees_get_their_variants(rt: HostRuntime) -> Result<(), Fail> {
    let alloc = rt.alloc();
    let mut shelf = pair(alloc)?;
    let source = PAIR_SOURCE.replace(alloc, "\n", "\r\n")?;
    shelf.hold("source", source.as_bytes())?;
    says(
        &rt,
        &rt,
        &mut shelf,
        "title design source pair.title",
        "0: ",
    )?;
    for (name, first, last) in LICENSEES {
        let line = format!(in alloc; "package pair.title reg {name} out")?;
        says(&rt, &rt, &mut shelf, line.as_str(), "0: ")?;
        let wanted = pair_playlist(alloc, (first, last), "6.000000", "6", "")?;
        holds(&rt, alloc, &mut shelf, "out", wanted.as_str())?;
    }
    let unknown = "package pair.title reg nobody out2";
    says(&rt, &rt, &mut shelf, unknown, "19: error 19 nobody\n")?;
    holds(&rt, alloc, &mut shelf, "out2", "not there")?;
    Ok(())
}

/// What stands for the second and third duration's lines of the source, and what a licensee then gets: the second duration, the
/// target and the line before the third.
const DURATIONS: [(&str, &str, &str, &str); 3] = [
    // digits past the sixth are dropped
    ("#EXTINF:5.9999999,\ns1.ts\n", "5.999999", "6", ""),
    // the target is raised, the half rounded up
    ("#EXTINF:7.5,\ns1.ts\n", "7.500000", "8", ""),
    // a discontinuity stays where it stands
    (
        "#EXTINF:6.000000,\ns1.ts\n#EXT-X-DISCONTINUITY\n",
        "6.000000",
        "6",
        "#EXT-X-DISCONTINUITY\n",
    ),
];

/// The pair's title is made, and a licensee gets a playlist.
const MADE_AND_PACKAGED: [(&str, &str); 2] = [
    ("title design source pair.title", "0: "),
    ("package pair.title reg lic16 out", "0: "),
];

#[test]
fn durations_and_breaks_are_kept(rt: HostRuntime) -> Result<(), Fail> {
    let alloc = rt.alloc();
    for (lines, second, target, third) in DURATIONS {
        let mut shelf = pair(alloc)?;
        let source = PAIR_SOURCE.replace(alloc, "#EXTINF:6.000000,\ns1.ts\n", lines)?;
        shelf.hold("source", source.as_bytes())?;
        each_says(&rt, &rt, &mut shelf, &MADE_AND_PACKAGED)?;
        let wanted = pair_playlist(alloc, ("v/0-00.ts", "v/1-01.ts"), second, target, third)?;
        holds(&rt, alloc, &mut shelf, "out", wanted.as_str())?;
    }
    Ok(())
}

/// Lines of the pair's title: their numbers, counted from 1, and what they say.
const TITLE_LINES: [(usize, &str); 10] = [
    (1, "title 1"),
    (2, "name pair"),
    (11, "segments 3"),
    (12, "0 6000000 s0.ts"),
    (14, "0 4500000 s2.ts"),
    (15, "marked 2"),
    (17, "2"),
    // the digest of `abc`
    (
        18,
        "ba7816bf8f01cfea414140de5dae2223b00361a396177a9cb410ff61f20015ad",
    ),
    // the digest of `v/1-0f.ts`
    (
        49,
        "f13e324ec1afb878d3e831e9bf06b8abe380cbf6b1b4bccf3b542bcd468acbff",
    ),
    (50, "none"),
];

#[test]
fn a_title_has_its_lines(rt: HostRuntime) -> Result<(), Fail> {
    let alloc = rt.alloc();
    let mut shelf = titled_pair(&rt)?;
    let said = held(alloc, &mut shelf, "pair.title")?;
    let text = said.as_str().strip_prefix("held: ").unwrap_or("");
    for (number, wanted) in TITLE_LINES {
        let line = text.lines().nth(number - 1).unwrap_or("none");
        same(&rt, line, wanted, "a line of the title");
    }
    Ok(())
}

/// Sources that are refused.
const SOURCES: [(&str, &str); 5] = [
    (
        "#EXTM3U\n#EXT-X-TARGETDURATION:6\n#EXTINF:6,\n#EXT-X-ENDLIST\n",
        "9: error 9 3 no-uri\n",
    ),
    (
        "#EXTM3U\n#EXT-X-TARGETDURATION:6\n#EXT-X-KEY:METHOD=AES-128,URI=\"k\"\n#EXTINF:6,\ns0.ts\n#EXT-X-ENDLIST\n",
        "9: error 9 3 encrypted\n",
    ),
    (
        "#EXTM3U\n#EXT-X-TARGETDURATION:6\n#EXT-X-MAP:URI=\"init.mp4\"\n#EXTINF:6,\ns0.ts\n#EXT-X-ENDLIST\n",
        "9: error 9 3 unsupported\n",
    ),
    ("", "9: error 9 1 not-m3u\n"),
    (
        "#EXTM3U\n#EXT-X-TARGETDURATION:6\n#EXTINF:6,\ns0.ts\n",
        "9: error 9 0 no-end\n",
    ),
];

#[test]
fn sources_are_refused(rt: HostRuntime) -> Result<(), Fail> {
    let alloc = rt.alloc();
    let mut shelf = pair(alloc)?;
    for (source, wanted) in SOURCES {
        shelf.hold("source", source.as_bytes())?;
        says(&rt, &rt, &mut shelf, "title design source out", wanted)?;
    }
    Ok(())
}

/// Designs of the film: dimension, bound, marked numbers, and how `title` ends.
const DESIGNS: [(u32, u32, &str, &str); 5] = [
    (2, 3, "0, 1, 2, 3, 4, 5, 6, 7, 8", "8: error 8 too-weak\n"),
    (2, 3, "0, 1, 2, 3, 4, 5, 6, 7, 8, 9", "0: "),
    (
        3,
        7,
        "0, 1, 2, 3, 4, 5, 6, 7, 8, 9",
        "8: error 8 too-much-work\n",
    ),
    (2, 3, "0, 0", "8: error 8 bad-marked 1\n"),
    (2, 3, "0, 1, 2, 3, 4, 5, 6, 7, 8, 12", "25: error 25 12\n"),
];

#[test]
fn designs_are_weighed(rt: HostRuntime) -> Result<(), Fail> {
    let alloc = rt.alloc();
    let mut shelf = film(alloc)?;
    for (k, c, marked, wanted) in DESIGNS {
        shelf.hold("design", film_design(alloc, k, c, marked)?.as_bytes())?;
        says(&rt, &rt, &mut shelf, "title design source out", wanted)?;
    }
    Ok(())
}

/// A variant that is like an earlier one is told with both; one whose last byte is another is taken.
#[test]
fn equal_variants_are_told(rt: HostRuntime) -> Result<(), Fail> {
    let alloc = rt.alloc();
    let mut shelf = film(alloc)?;
    shelf.hold("v/3-0a.ts", b"v/2-05.ts")?;
    let line = "title design source out";
    says(&rt, &rt, &mut shelf, line, "20: error 20 2 5 3 10\n")?;
    shelf.hold("v/3-0a.ts", b"v/2-05.tz")?;
    says(&rt, &rt, &mut shelf, line, "0: ")?;
    Ok(())
}

/// What is refused of the commands' words, titles and registers.
const CALLS: [(&str, &str); 12] = [
    ("title design source design", "21: error 21 design\n"),
    ("title design source source", "21: error 21 source\n"),
    ("title design source", "2: error 2 words\n"),
    ("title nowhere source out", "3: error 3 nowhere\n"),
    ("title source source out", "8: error 8 not-toml\n"),
    (
        "package pair.title reg lic0 pair.title",
        "21: error 21 pair.title\n",
    ),
    ("package pair.title reg lic0 reg", "21: error 21 reg\n"),
    ("package reg reg lic0 out", "10: error 10 1 form\n"),
    (
        "package pair.title pair.title lic0 out",
        "11: error 11 1 header\n",
    ),
    ("package pair.title wide lic0 out", "13: error 13 4 2 4 3\n"),
    ("withdraw reg lic3 gone", "0: "),
    ("package pair.title gone lic3 out", "27: error 27 lic3\n"),
];

#[test]
fn calls_are_refused(rt: HostRuntime) -> Result<(), Fail> {
    let alloc = rt.alloc();
    let mut shelf = titled_pair(&rt)?;
    shelf.hold("wide", b"register 1\nm 4\nk 3\na 1\nb 0\nlic0\n")?;
    each_says(&rt, &rt, &mut shelf, &CALLS)?;
    holds(&rt, alloc, &mut shelf, "out", "not there")?;
    Ok(())
}

/// How `title` of the pair ends where this call fails: each blob takes two parts, and the write comes last.
fn title_fails(alloc: Global, number: u32) -> Result<String, Memory> {
    if number < 3 {
        return Ok(String::from_str(alloc, "4: error 4 design\n")?);
    }
    if number < 5 {
        return Ok(String::from_str(alloc, "4: error 4 source\n")?);
    }
    if number == 69 {
        return Ok(String::from_str(alloc, "5: error 5 out\n")?);
    }
    if number > 69 {
        return Ok(String::from_str(alloc, "0: ")?);
    }
    let read = (number - 5) / 2;
    let name = variant(alloc, read / 16, read % 16)?;
    Ok(format!(in alloc; "4: error 4 {name}\n")?)
}

/// The pair, where this call of its store fails.
fn pair_failing(alloc: Global, number: u32) -> Result<MemShelf, Memory> {
    let mut shelf = pair(alloc)?;
    shelf.fail(number as u64)?;
    Ok(shelf)
}

#[test]
fn each_call_of_title_fails(rt: HostRuntime) -> Result<(), Fail> {
    let alloc = rt.alloc();
    for number in 1u32..71 {
        let mut shelf = pair_failing(alloc, number)?;
        let wanted = title_fails(alloc, number)?;
        says(
            &rt,
            &rt,
            &mut shelf,
            "title design source out",
            wanted.as_str(),
        )?;
    }
    Ok(())
}

/// How `package` ends where a call fails, counted from the first of the command: 69 calls made the title before.
const PACKAGE_FAILS: [(u64, &str); 6] = [
    (70, "4: error 4 pair.title\n"),
    (71, "4: error 4 pair.title\n"),
    (72, "4: error 4 reg\n"),
    (73, "4: error 4 reg\n"),
    (74, "5: error 5 out\n"),
    (75, "0: "),
];

#[test]
fn each_call_of_package_fails(rt: HostRuntime) -> Result<(), Fail> {
    for (number, wanted) in PACKAGE_FAILS {
        let mut shelf = titled_pair(&rt)?;
        shelf.fail(number)?;
        says(
            &rt,
            &rt,
            &mut shelf,
            "package pair.title reg lic16 out",
            wanted,
        )?;
    }
    Ok(())
}
