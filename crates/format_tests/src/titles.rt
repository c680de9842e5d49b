//! The small title: built from blobs, written, read, searched, cut and broken line by line.

ghost use Rattle.std.specs.Prelude.{◌≡◌, ◌<◌, ◌≤◌};
ghost use Rattle.title_terms.specs.Designs.{places, symbols};

use m3u8_text::{MediaList, Segment};
use shelf_io::MemShelf;
use std::alloc::Global;
use std::process::Abort;
use std::test::Fail;
use title_store::{
    AddError, BuildError, Design, Digest, Title, TitleBuilder, TitleKind, TitleReadError, digest_of,
};

/// The lines of the small title. Its digests were computed apart.
const PAIR: [&str; 49] = [
    "title 1",
    "name pair",
    "m 4",
    "k 2",
    "c 1",
    "prefix v/",
    "suffix .ts",
    "version 3",
    "target 6",
    "sequence 0",
    "segments 3",
    "0 6000000 s0.ts",
    "0 6000000 s1.ts",
    "0 4500000 s2.ts",
    "marked 2",
    "0",
    "2",
    "ba7816bf8f01cfea414140de5dae2223b00361a396177a9cb410ff61f20015ad",
    "9664d6a32e2bf7c73459ddfb440ff9672b11f17ae2eb69a44dc8137ab223c91a",
    "764154a9c8786b0eb7fb54f88602f877c87df7bf849bcf8f8ba687e4e325d5df",
    "162ef72b96a9c6b7cc2150f0bdd76393cda8929671305302ac868e2c8f7b591a",
    "d5bb6137290957f62c2884f2262cbe47d192f11ee5fd78bd68e1e50dd47fcb96",
    "0edbefc7f0b3522d0c28d65094f7a9784ed5733beb9f473efb669010608b5eee",
    "173f1ac3681a87178baa78d5d85645106e3ae06fea5b1fa55fb9d3ba18531a87",
    "ef31015fa0c0a432a1534452f92df65c50e36290f5005a3155c6d37b9b025bf0",
    "73c3a39b10c8b4f4478ee4802ef53a99112ef6388ec63759639988225824ca60",
    "17e8ac2c50fcfc4a89aeb5f2aad94b44798eba6c9460b0072bce9c2a19d0df3c",
    "323c366986a33c30d48e0d01f765a5b6013a09ea488a2a7653389069a9026ad3",
    "2d4a4b5bbf6f932661e16770af3d914d082cd4424f7343c9b7f96e34bb670b8b",
    "e0e861538b5218aa16bff07ac18314497264b41f04f7caa57a39ac2de945e68f",
    "561ed3218612f75b916d112eb54628893b63c6d4f49ba3c6d405ee9e4930402d",
    "ac1514404567c2048a9c22795251acc443f111386fe2bce5e9de05614e2f269d",
    "f1ed86021ec544d0d698f537d81a1020d03294cd45f7db6f8967ed11d85ee96e",
    "ec0948f4726b88333f6374e55a70f5570eb407a03e027eba77c1789a5048efa0",
    "107ad0c7de98b2394b9b80e5e5b977eada90915f99ad810694858d2aef21214b",
    "f4750aa1c3e9d04a5170735d411b9afc6ca13487c76b363834735d805925f800",
    "036fa343a6ddae9b569a92bc41025427547d1197a46654fcffb727fd0eadcb0f",
    "06af61a7ff496d067d3ded3860f84688da5bb93774ce77a9b71355f9345eeb9c",
    "9e306320a17f6a6ded5cf9f9e63d7a9a9784e62d6d4cbc441f849f6cbacf0c57",
    "fc523149de96d71266fe9061d62644f63344c0121067bb1bc1d9b46e28ffd63a",
    "132a259b10f5406136c7217e53a9b9e069f433a176dc7c2b0cdaf0befc99be90",
    "28111f0b3ec0874b877eccb456fdce30716a015e4cb8ea1f1e3c5c9bfa621caa",
    "70e4de365665496f6c98d73d26fef5e4c02897c178db831a74475960ddab50c9",
    "ee24cc3102adb74f4ad1ed2e5713bacfd1904e73e5eba92f9df376e74abb1ce3",
    "8bd41723de8afbd4cd04ae04f8c1ddeeb48b23a29639901b42ee992bcd31cde0",
    "772f8500f92f332dc8cc871ee690a4dbf21d558091cbc5ee8f9e562237baf7b3",
    "551ad1afe0efdd0b981f528e50f27967d75704b7cc0054372123209dc31c92df",
    "06cbae7793ad3a98606c15d25137951bddc54131db403855d31a17c9a24d451c",
    "f13e324ec1afb878d3e831e9bf06b8abe380cbf6b1b4bccf3b542bcd468acbff",
];

/// The small design.
fn pair_design(alloc: Global, marked: &[u32]) -> Result<Design, Fail> {
    Ok(Design::of(alloc, "pair", 4, 2, 1, "v/", ".ts", marked)?)
}

/// The durations and names of the small list's segments.
const SEGMENTS: [(u64, &str); 3] = [
    (6_000_000, "s0.ts"),
    (6_000_000, "s1.ts"),
    (4_500_000, "s2.ts"),
];

/// The small list of three segments.
fn pair_source(alloc: Global) -> Result<MediaList, Fail> {
    let mut list = MediaList::new(alloc, 3, 6, 0)?;
    for (micros, name) in SEGMENTS {
        list.push(Segment::new(alloc, micros, name, false)?)?;
    }
    Ok(list)
}

/// The text of the first lines of a title, so many of them.
fn text_of(alloc: Global, count: usize) -> Result<Vec<u8>, Fail> {
    let mut text = Vec::new(alloc);
    let mut left = count;
    for line in PAIR {
        if left > 0 {
            text.extend_from_slice(line.as_bytes())?;
            text.push(b'\n')?;
        }
        left = left.saturating_sub(1);
    }
    Ok(text)
}

/// The text of the title with another line at this number, counted from 1.
fn text_with(alloc: Global, number: u32, other: &str) -> Result<Vec<u8>, Fail> {
    let mut text = Vec::new(alloc);
    let mut at = 0u32;
    for line in PAIR {
        at = at.saturating_add(1);
        if at == number {
            text.extend_from_slice(other.as_bytes())?;
        } else {
            text.extend_from_slice(line.as_bytes())?;
        }
        text.push(b'\n')?;
    }
    Ok(text)
}

/// The fault of the bytes, if they are no title.
fn fault_of(alloc: Global, bytes: &[u8]) -> Option<(u32, TitleKind)> {
    match Title::read(alloc, bytes) {
        Err(TitleReadError::NotTitle(fault)) => Some((fault.line, fault.kind)),
        _ => None,
    }
}

/// The small title, read from its text.
fn pair_title(alloc: Global) -> Result<Title, Fail> {
    let text = text_of(alloc, 49)?;
    Ok(Title::read(alloc, text.as_slice())?)
}

/// The text of the title that was read.
fn read_text(alloc: Global) -> Result<Vec<u8>, Fail> {
    Ok(pair_title(alloc)?.write(alloc)?)
}

#[test]
fn reads_what_it_writes(rt: HostRuntime) -> Result<(), Fail> {
    let alloc = rt.alloc();
    let text = read_text(alloc)?;
    assert!(rt; text.as_slice() == text_of(alloc, 49)?.as_slice());
    Ok(())
}

#[test]
fn knows_its_places(rt: HostRuntime) -> Result<(), Fail> {
    let title = pair_title(rt.alloc())?;
    assert_eq!(rt; [title.places(), title.segments()], [2, 3]);
    assert_eq!(rt; [title.place_of(2), title.place_of(1)], [Some(1), None]);
    Ok(())
}

/// The digest of `abc`.
const ABC: Digest = Digest {
    bytes: [
        0xba, 0x78, 0x16, 0xbf, 0x8f, 0x01, 0xcf, 0xea, 0x41, 0x41, 0x40, 0xde, 0x5d, 0xae, 0x22,
        0x23, 0xb0, 0x03, 0x61, 0xa3, 0x96, 0x17, 0x7a, 0x9c, 0xb4, 0x10, 0xff, 0x61, 0xf2, 0x00,
        0x15, 0xad,
    ],
};

#[test]
fn knows_its_digests(rt: HostRuntime) -> Result<(), Fail> {
    let title = pair_title(rt.alloc())?;
    let digests = [title.digest(0, 0), title.digest(0, 16), title.digest(2, 0)];
    assert_eq!(rt; digests, [Some(ABC), None, None]);
    assert_eq!(rt; title.find(&ABC), Some((0, 0)));
    Ok(())
}

#[test]
fn tells_where_a_text_is_cut(rt: HostRuntime) -> Result<(), Fail> {
    let alloc = rt.alloc();
    let mut next = 1u32;
    for count in 0..49usize {
        let text = text_of(alloc, count)?;
        assert_eq!(rt;
            fault_of(alloc, text.as_slice()),
            Some((next, TitleKind::Form))
        );
        next = next.saturating_add(1);
    }
    let mut longer = text_of(alloc, 49)?;
    longer.push(b'\n')?;
    assert_eq!(rt;
        fault_of(alloc, longer.as_slice()),
        Some((50, TitleKind::Form))
    );
    Ok(())
}

/// Lines that make the title another text: their numbers, what stands there, and the fault.
const FAULTS: [(u32, &str, TitleKind); 30] = [
    (1, "title 2", TitleKind::Form),
    (2, "nam pair", TitleKind::Form),
    (2, "name pa ir", TitleKind::Rule),
    (3, "m 04", TitleKind::Form),
    (3, "m 9", TitleKind::Rule),
    (4, "k 14", TitleKind::Rule),
    (5, "c 0", TitleKind::Rule),
    (5, "c 9", TitleKind::Rule),
    (6, "prefix v ", TitleKind::Rule),
    (7, "suffix\t.ts", TitleKind::Form),
    (8, "version 0", TitleKind::Rule),
    (8, "version 65536", TitleKind::Rule),
    (9, "target 18446744073709551616", TitleKind::Rule),
    (9, "target -1", TitleKind::Form),
    (10, "sequence 18446744073709551616", TitleKind::Rule),
    (11, "segments 100001", TitleKind::Rule),
    (12, "2 6000000 s0.ts", TitleKind::Form),
    (12, "0 6000000", TitleKind::Form),
    (12, "0 6000000 ", TitleKind::Rule),
    (13, "0 6000000 #s1.ts", TitleKind::Rule),
    (14, "0 10000000000000000 s2.ts", TitleKind::Rule),
    (15, "marked 1", TitleKind::Rule),
    (15, "marked 17", TitleKind::Rule),
    (16, "00", TitleKind::Form),
    (16, "3", TitleKind::Rule),
    (17, "0", TitleKind::Rule),
    (
        18,
        "BA7816BF8F01CFEA414140DE5DAE2223B00361A396177A9CB410FF61F20015AD",
        TitleKind::Form,
    ),
    (
        18,
        "ba7816bf8f01cfea414140de5dae2223b00361a396177a9cb410ff61f20015a",
        TitleKind::Form,
    ),
    (
        19,
        "ba7816bf8f01cfea414140de5dae2223b00361a396177a9cb410ff61f20015ad",
        TitleKind::Duplicate,
    ),
    (
        49,
        "ba7816bf8f01cfea414140de5dae2223b00361a396177a9cb410ff61f20015ad",
        TitleKind::Duplicate,
    ),
];

#[test]
fn tells_what_is_wrong_with_a_line(rt: HostRuntime) -> Result<(), Fail> {
    let alloc = rt.alloc();
    for (number, line, kind) in FAULTS {
        let text = text_with(alloc, number, line)?;
        let found = fault_of(alloc, text.as_slice());
        assert_eq!(rt; found, Some((number, kind)));
    }
    Ok(())
}

/// The digest of a variant that holds its own name, or `abc` where it is the first.
fn variant_digest(alloc: Global, name: &str, place: u32, symbol: u8) -> Result<Digest, Fail> {
    let mut shelf = MemShelf::new(alloc);
    if place == 0 && symbol == 0 {
        shelf.hold("variant", b"abc")?;
    } else {
        shelf.hold("variant", name.as_bytes())?;
    }
    Ok(digest_of(alloc, &mut shelf, "variant")?)
}

/// Adds the digest of a variant that holds its own name.
fn add_variant(
    alloc: Global,
    builder: &mut TitleBuilder,
    place: u32,
    symbol: u8,
) -> Result<(), Fail>
    requires place { place < places builder.old.design }
    requires symbol { symbol < symbols builder.old.design }
    ensures { builder.new.design ≡ builder.old.design }
{
    let name = builder.variant_name(alloc, place, symbol)?;
    let digest = variant_digest(alloc, name.as_str(), place, symbol)?;
    match builder.add(place, symbol, &digest) {
        Ok(()) => Ok(()),
        Err(error) => Err(error.into()),
    }
}

/// The title of variants that hold their names.
fn filled(alloc: Global, design: Design, source: MediaList) -> Result<Title, Fail> {
    let places = design.places();
    let symbols = design.symbols();
    let mut builder = TitleBuilder::new(alloc, design, source)?;
    'places: for place in 0..places {
        'symbols: for symbol in 0..symbols {
            let symbol = symbol as u8;
            add_variant(alloc, &mut builder, place, symbol)?;
        }
    }
    if builder.is_full() {
        return Ok(builder.finish());
    }
    Err("a variant has no digest".into())
}

/// The small title, built variant by variant.
fn built(alloc: Global) -> Result<Title, Fail> {
    let design = pair_design(alloc, &[0, 2])?;
    filled(alloc, design, pair_source(alloc)?)
}

/// The text of the title that was built.
fn built_text(alloc: Global) -> Result<Vec<u8>, Fail> {
    Ok(built(alloc)?.write(alloc)?)
}

#[test]
fn builds_the_small_title(rt: HostRuntime) -> Result<(), Fail> {
    let alloc = rt.alloc();
    let text = built_text(alloc)?;
    assert!(rt; text.as_slice() == text_of(alloc, 49)?.as_slice());
    Ok(())
}

/// What additions to a design of two places come to: one digest for the first variant and another for it, then for the last
/// variant the digest that the first has and the other.
fn additions(builder: &mut TitleBuilder) -> [Result<(), AddError>; 4]
    requires places { 2 ≤ places builder.old.design }
    requires symbols { 16 ≤ symbols builder.old.design }
{
    let one = Digest { bytes: [1; 32] };
    let two = Digest { bytes: [2; 32] };
    [
        builder.add(0, 0, &one),
        builder.add(0, 0, &two),
        builder.add(1, 15, &one),
        builder.add(1, 15, &two),
    ]
}

/// What these additions have to come to.
const ADDITIONS: [Result<(), AddError>; 4] = [
    Ok(()),
    Err(AddError::Twice),
    Err(AddError::Duplicate {
        place: 0,
        symbol: 0,
    }),
    Ok(()),
];

/// The last variant of two places has its name.
fn names_the_last(rt: &impl Abort, alloc: Global, builder: &TitleBuilder) -> Result<(), Fail>
    requires places { 2 ≤ places builder.now.design }
    requires symbols { 16 ≤ symbols builder.now.design }
{
    let name = builder.variant_name(alloc, 1, 15)?;
    assert_eq!(rt; name.as_str(), "v/1-0f.ts");
    Ok(())
}

/// Digests that are added to a design of two places.
fn adds(rt: &impl Abort, alloc: Global, design: Design, source: MediaList) -> Result<(), Fail>
    requires { 2 ≤ places design }
{
    let some = design.symbols() >= 16;
    prove!(some);
    let mut builder = TitleBuilder::new(alloc, design, source)?;
    names_the_last(rt, alloc, &builder)?;
    assert_eq!(rt; additions(&mut builder), ADDITIONS);
    assert!(rt; !builder.is_full());
    Ok(())
}

#[test]
fn adds_each_variant_once(rt: HostRuntime) -> Result<(), Fail> {
    let alloc = rt.alloc();
    let design = pair_design(alloc, &[0, 2])?;
    if design.places() >= 2 {
        adds(&rt, alloc, design, pair_source(alloc)?)?;
    }
    Ok(())
}

#[test]
fn a_marked_number_has_its_segment(rt: HostRuntime) -> Result<(), Fail> {
    let alloc = rt.alloc();
    let beyond = TitleBuilder::new(alloc, pair_design(alloc, &[0, 3])?, pair_source(alloc)?);
    assert_eq!(rt; beyond.err(), Some(BuildError::NoSegment(3)));
    Ok(())
}
