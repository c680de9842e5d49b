//! The small design: read, made, broken line by line, and spelled in other ways.

use designs::{Design, DesignError, DesignFault, Key};
use std::alloc::Global;
use std::process::Abort;
use std::test::Fail;

const FILM: &[u8] =
    b"name = \"film\"\nm = 4\nk = 2\nc = 3\nprefix = \"v/\"\nsuffix = \".ts\"\nmarked = [0, 1, 2, 3, 4, 5, 6, 7, 8, 9]\n";

/// Keys in quotes and out of order, numbers in other bases, a mark in front, and keys that nobody asked for.
const SPELLED: &[u8] =
    b"\xef\xbb\xbf# a film\nmarked = [\n  0x0, 0o1, 0b10, 3, 4, 5, 6, 7, 8, +9,\n]\n'suffix' = '.ts'\n\"prefix\" = \"v/\"\nc = 0x3\nm=4\nk =2\nname = \"\"\"film\"\"\"\n[more]\nm = 9\n";

/// What is wrong with a document.
fn fault(alloc: Global, document: &[u8]) -> Option<DesignFault> {
    match Design::read(alloc, document) {
        Err(DesignError::NotDesign(fault)) => Some(fault),
        _ => None,
    }
}

/// Compares each value of the design with those of the film.
fn is_film(rt: &impl Abort, alloc: Global, design: &Design) -> Result<(), Fail> {
    assert_eq!(rt; design.name().as_str(), "film");
    assert_eq!(rt; design.prefix().as_str(), "v/");
    assert_eq!(rt; design.suffix().as_str(), ".ts");
    assert_eq!(rt;
        (design.bits(), design.dimension(), design.bound()),
        (4, 2, 3)
    );
    assert_eq!(rt; (design.places(), design.symbols()), (10, 16));
    assert!(rt; design.marks() == [0, 1, 2, 3, 4, 5, 6, 7, 8, 9].as_slice());
    let name = design.variant_name(alloc, 9, 10)?;
    assert_eq!(rt; name.as_str(), "v/9-0a.ts");
    Ok(())
}

#[test]
fn reads_and_makes_the_film(rt: HostRuntime) -> Result<(), Fail> {
    let alloc = rt.alloc();
    is_film(&rt, alloc, &Design::read(alloc, FILM)?)?;
    is_film(&rt, alloc, &Design::read(alloc, SPELLED)?)?;
    let marked = [0u32, 1, 2, 3, 4, 5, 6, 7, 8, 9];
    let made = Design::of(alloc, "film", 4, 2, 3, "v/", ".ts", &marked)?;
    is_film(&rt, alloc, &made)?;
    if made.places() > 9 {
        assert_eq!(rt; made.marked(9), 9);
    }
    let weak = Design::of(alloc, "film", 4, 2, 3, "v/", ".ts", &marked[..9]);
    let too_weak = DesignError::NotDesign(DesignFault::TooWeak);
    assert_eq!(rt; weak.err(), Some(too_weak));
    Ok(())
}

#[test]
fn tells_the_first_fault(rt: HostRuntime) -> Result<(), Fail> {
    let faults: [(&[u8], DesignFault); 18] = [
        (b"m = 4\nm = 4\n", DesignFault::NotToml),
        (b"name = \"\xff\"\n", DesignFault::NotToml),
        (b"m = 99999999999999999999\n", DesignFault::NotToml),
        (b"", DesignFault::Missing(Key::Name)),
        (b"name = 1\nm = \"\"\n", DesignFault::WrongType(Key::Name)),
        (b"name = \"a b\"\n", DesignFault::Missing(Key::M)),
        (b"name = \"a\"\nm.x = 4\n", DesignFault::WrongType(Key::M)),
        (b"name = \"a\"\nm = 4.0\n", DesignFault::WrongType(Key::M)),
        (
            b"name = \"a\"\nm = 4\nk = 2\nc = 3\nprefix = \"\"\nsuffix = \"\"\nmarked = 0\n",
            DesignFault::WrongType(Key::Marked),
        ),
        (
            b"name = \"a b\"\nm = 3\nk = 1\nc = 0\nprefix = \" \"\nsuffix = \" \"\nmarked = []\n",
            DesignFault::BadName,
        ),
        (
            b"name = \"a\"\nm = -4\nk = 1\nc = 0\nprefix = \" \"\nsuffix = \" \"\nmarked = []\n",
            DesignFault::BadM,
        ),
        (
            b"name = \"a\"\nm = 4\nk = 14\nc = 0\nprefix = \" \"\nsuffix = \" \"\nmarked = []\n",
            DesignFault::BadK,
        ),
        (
            b"name = \"a\"\nm = 4\nk = 2\nc = 9\nprefix = \" \"\nsuffix = \" \"\nmarked = []\n",
            DesignFault::BadBound,
        ),
        (
            b"name = \"a\"\nm = 4\nk = 3\nc = 7\nprefix = \" \"\nsuffix = \" \"\nmarked = []\n",
            DesignFault::TooMuchWork,
        ),
        (
            b"name = \"a\"\nm = 4\nk = 2\nc = 1\nprefix = \" \"\nsuffix = \" \"\nmarked = []\n",
            DesignFault::BadPrefix,
        ),
        (
            b"name = \"a\"\nm = 4\nk = 2\nc = 1\nprefix = \"\"\nsuffix = \"\\u00e4\"\nmarked = [0, 0]\n",
            DesignFault::BadSuffix,
        ),
        (
            b"name = \"a\"\nm = 4\nk = 2\nc = 1\nprefix = \"\"\nsuffix = \"\"\nmarked = [0, 1, \"2\"]\n",
            DesignFault::BadMarked(2),
        ),
        (
            b"name = \"a\"\nm = 4\nk = 2\nc = 1\nprefix = \"\"\nsuffix = \"\"\nmarked = [0, 1, 2, 3, 4, 5, 6, 7, 8, 9, 10, 11, 12, 13, 14, 15, 99999]\n",
            DesignFault::TooManyPlaces,
        ),
    ];
    let alloc = rt.alloc();
    for (document, first) in faults {
        assert_eq!(rt; fault(alloc, document), Some(first));
    }
    Ok(())
}
