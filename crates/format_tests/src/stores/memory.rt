//! The store and the output in memory, and reading a whole blob.

use shelf_io::{FetchError, MemShelf, MemSink, Shelf, ShelfError, Sink, SinkError, fetch};
use std::alloc::Global;
use std::test::Fail;
use texts::is_name;

/// Why a fetch is refused, if it is.
fn refusal(alloc: Global, shelf: &mut MemShelf, name: &str, limit: u32) -> Option<FetchError> {
    if !is_name(name) {
        return None;
    }
    fetch(alloc, shelf, name, u64::from(limit)).err()
}

#[test]
fn fetches_a_blob_within_its_limit(rt: HostRuntime) -> Result<(), Fail> {
    let mut shelf = MemShelf::new(rt.alloc());
    shelf.hold("abc", b"abc")?;
    let whole = fetch(rt.alloc(), &mut shelf, "abc", 3)?;
    assert_eq!(rt; whole.as_slice(), b"abc".as_slice());
    for (name, limit, want) in [
        ("abc", 3, None),
        ("abc", 2, Some(FetchError::TooLong)),
        ("nothing", 3, Some(FetchError::Missing)),
    ] {
        assert_eq!(rt;
            refusal(rt.alloc(), &mut shelf, name, limit),
            want,
            "{name} {limit}"
        );
    }
    Ok(())
}

#[test]
fn fetches_a_blob_of_many_parts(rt: HostRuntime) -> Result<(), Fail> {
    let long = vec![in rt.alloc(); 7u8; 140_000]?;
    let mut shelf = MemShelf::new(rt.alloc());
    shelf.hold("long", long.as_slice())?;
    let whole = fetch(rt.alloc(), &mut shelf, "long", 140_000)?;
    assert!(rt; whole.as_slice() == long.as_slice());
    for limit in [139_999, 65_536] {
        assert_eq!(rt;
            refusal(rt.alloc(), &mut shelf, "long", limit),
            Some(FetchError::TooLong),
            "{limit}"
        );
    }
    Ok(())
}

/// Why a read is refused, if it is.
fn read_refusal(alloc: Global, shelf: &mut MemShelf) -> Option<ShelfError> {
    shelf.part(alloc, "a", 0, 9).err()
}

#[test]
fn a_store_fails_at_the_calls_that_are_named(rt: HostRuntime) -> Result<(), Fail> {
    let mut shelf = MemShelf::new(rt.alloc());
    shelf.fail(1)?;
    shelf.fail(3)?;
    assert_eq!(rt;
        read_refusal(rt.alloc(), &mut shelf),
        Some(ShelfError::Fault)
    );
    assert_eq!(rt;
        read_refusal(rt.alloc(), &mut shelf),
        Some(ShelfError::Missing)
    );
    assert_eq!(rt;
        shelf.write(rt.alloc(), "a", b"new").err(),
        Some(ShelfError::Fault)
    );
    assert_eq!(rt;
        read_refusal(rt.alloc(), &mut shelf),
        Some(ShelfError::Missing)
    );
    Ok(())
}

#[test]
fn a_store_keeps_what_was_written_last(rt: HostRuntime) -> Result<(), Fail> {
    let mut shelf = MemShelf::new(rt.alloc());
    shelf.hold("a", b"old")?;
    shelf.write(rt.alloc(), "b", b"other")?;
    shelf.write(rt.alloc(), "a", b"text")?;
    let part = shelf.part(rt.alloc(), "a", 1, 2)?;
    assert_eq!(rt; part.as_slice(), b"ex".as_slice());
    let other = shelf.part(rt.alloc(), "b", 2, 9)?;
    assert_eq!(rt; other.as_slice(), b"her".as_slice());
    Ok(())
}

#[test]
fn a_failing_put_puts_the_first_half(rt: HostRuntime) -> Result<(), Fail> {
    let mut sink = MemSink::new(rt.alloc());
    sink.fail(2)?;
    sink.put(b"ab")?;
    assert_eq!(rt; sink.put(b"cdefg").err(), Some(SinkError::Fault));
    sink.put(b"h")?;
    assert_eq!(rt; sink.bytes(), b"abcdh".as_slice());
    Ok(())
}
