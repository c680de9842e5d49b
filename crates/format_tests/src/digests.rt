//! Digests that FIPS 180-4 gives, and blobs that are none.

use blob_digests::{BLOB_LIMIT, Digest, digest_of};
use shelf_io::{FetchError, MemShelf};
use std::test::Fail;

/// SHA-256 of no bytes.
const OF_NOTHING: [u8; 32] = [
    0xe3, 0xb0, 0xc4, 0x42, 0x98, 0xfc, 0x1c, 0x14, 0x9a, 0xfb, 0xf4, 0xc8, 0x99, 0x6f, 0xb9, 0x24,
    0x27, 0xae, 0x41, 0xe4, 0x64, 0x9b, 0x93, 0x4c, 0xa4, 0x95, 0x99, 0x1b, 0x78, 0x52, 0xb8, 0x55,
];

/// SHA-256 of `abc`.
const OF_ABC: [u8; 32] = [
    0xba, 0x78, 0x16, 0xbf, 0x8f, 0x01, 0xcf, 0xea, 0x41, 0x41, 0x40, 0xde, 0x5d, 0xae, 0x22, 0x23,
    0xb0, 0x03, 0x61, 0xa3, 0x96, 0x17, 0x7a, 0x9c, 0xb4, 0x10, 0xff, 0x61, 0xf2, 0x00, 0x15, 0xad,
];

/// SHA-256 of 200,000 zeros, by another program.
const OF_ZEROS: [u8; 32] = [
    0x4c, 0xbb, 0xd9, 0xbe, 0x0c, 0xba, 0x68, 0x58, 0x35, 0x75, 0x5f, 0x82, 0x77, 0x58, 0x70, 0x5d,
    0xb5, 0xa4, 0x13, 0xc5, 0x49, 0x4c, 0x34, 0x26, 0x2c, 0xd2, 0x59, 0x46, 0xa7, 0x3e, 0x75, 0x82,
];

#[test]
fn gives_the_digests_of_the_standard(rt: HostRuntime) -> Result<(), Fail> {
    let alloc = rt.alloc();
    let mut shelf = MemShelf::new(alloc);
    shelf.hold("empty", b"")?;
    shelf.hold("abc", b"abc")?;
    let empty = digest_of(alloc, &mut shelf, "empty");
    assert_eq!(rt; empty, Ok(Digest { bytes: OF_NOTHING }));
    let abc = digest_of(alloc, &mut shelf, "abc");
    assert_eq!(rt; abc, Ok(Digest { bytes: OF_ABC }));
    let none = digest_of(alloc, &mut shelf, "abd");
    assert_eq!(rt; none, Err(FetchError::Missing));
    Ok(())
}

#[test]
fn hashes_a_blob_of_four_parts(rt: HostRuntime) -> Result<(), Fail> {
    let alloc = rt.alloc();
    let mut shelf = MemShelf::new(alloc);
    let zeros = vec![in alloc; 0u8; 200_000]?;
    shelf.hold("zeros", zeros.as_slice())?;
    let digest = digest_of(alloc, &mut shelf, "zeros");
    assert_eq!(rt; digest, Ok(Digest { bytes: OF_ZEROS }));
    assert_eq!(rt; BLOB_LIMIT, 64 * 1024 * 1024);
    Ok(())
}
