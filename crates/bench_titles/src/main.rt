//! Reads or writes the title in the file `title`, or hashes the file `blob`, as the first letter of the file `mode` says, and
//! puts one number out; for `bench/titles`, which times it.
#![tactic(auto)]

use lists::{Memory, Text};
use sha2::{Digest as _, Sha256};
use shelf_io::{FolderShelf, Shelf, Sink, StdSink, Taker, fetch, pour};
use std::alloc::Global;
use std::process::ExitCode;
use texts::number_text;
use title_store::{BLOB_LIMIT, Title, digest_of};

/// Ends with 0 where the number was put out.
fn main(rt: HostRuntime) -> ExitCode {
    ExitCode::from(answered(rt))
}

/// 0 where the number was found and put out.
fn answered(rt: HostRuntime) -> u8 {
    let alloc = rt.alloc();
    let Ok(folder) = Text::of(alloc, ".") else {
        return 1;
    };
    let mut out = StdSink::new(rt.stdout());
    let mut shelf = FolderShelf::new(rt, folder);
    let Ok(mode) = fetch(alloc, &mut shelf, "mode", 16) else {
        return 3;
    };
    let number = match mode.get(0) {
        Some(b'r') => places(alloc, &mut shelf),
        Some(b'w') => written(alloc, &mut shelf),
        Some(b'h') => hashed(alloc, &mut shelf),
        Some(b'p') => poured(alloc, &mut shelf),
        Some(b'f') => fetched(alloc, &mut shelf),
        Some(b's') => hashed_slice(alloc, &mut shelf),
        _ => None,
    };
    let Some(number) = number else {
        return 9;
    };
    let Ok(text) = number_text(alloc, u128::from(number)) else {
        return 1;
    };
    if out.put(text.as_str().as_bytes()).is_err() {
        return 6;
    }
    0
}

/// The title in the file.
fn read<S: Shelf>(alloc: Global, shelf: &mut S) -> Option<Title> {
    let text = fetch(alloc, shelf, "title", BLOB_LIMIT).ok()?;
    Title::read(alloc, text.as_slice()).ok()
}

/// How many places the title has.
fn places<S: Shelf>(alloc: Global, shelf: &mut S) -> Option<u64> {
    Some(u64::from(read(alloc, shelf)?.places()))
}

/// How many bytes the title's text has.
fn written<S: Shelf>(alloc: Global, shelf: &mut S) -> Option<u64> {
    let text = read(alloc, shelf)?.write(alloc).ok()?;
    Some(text.len() as u64)
}

/// The first byte of the blob's digest, taken part by part.
fn hashed<S: Shelf>(alloc: Global, shelf: &mut S) -> Option<u64> {
    let digest = digest_of(alloc, shelf, "blob").ok()?;
    Some(u64::from(digest.bytes[0]))
}

/// Counts bytes and keeps none.
#[derive(Drop)]
struct Counted {
    taken: u32,
}

impl Taker for Counted {
    ghost use Rattle.std.specs.Prelude.{⊤, false};

    ghost stands = { λ _ _. ⊤ };

    ghost spent = { λ _. false };

    ghost taken = { λ counted. counted.taken };

    fn take(&mut self, piece: &[u8]) -> Result<(), Memory> {
        self.taken += piece.len() as u32;
        Ok(())
    }
}

/// The length of the blob, part by part and without hashing.
fn poured<S: Shelf>(alloc: Global, shelf: &mut S) -> Option<u64> {
    let mut counted = Counted { taken: 0 };
    pour(alloc, shelf, "blob", BLOB_LIMIT, &mut counted).ok()?;
    Some(u64::from(counted.taken))
}

/// The length of the blob, which lies whole in memory then.
fn fetched<S: Shelf>(alloc: Global, shelf: &mut S) -> Option<u64> {
    let blob = fetch(alloc, shelf, "blob", BLOB_LIMIT).ok()?;
    Some(blob.len() as u64)
}

/// The first byte of the blob's digest, taken of the whole blob in memory.
fn hashed_slice<S: Shelf>(alloc: Global, shelf: &mut S) -> Option<u64> {
    let blob = fetch(alloc, shelf, "blob", BLOB_LIMIT).ok()?;
    let digest = Sha256::digest(blob.as_slice());
    Some(u64::from(digest[0]))
}
