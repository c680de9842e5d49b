//! Reads the media playlist in the file `list` and says how many segments it has, for `bench/playlists`, which times it.
#![tactic(auto)]

use lists::Text;
use m3u8_text::ListReader;
use shelf_io::{FolderShelf, Sink, StdSink, pour};
use shelf_terms::BLOB_LIMIT;
use std::process::ExitCode;
use texts::number_text;

/// Ends with 0 where the number was put out.
fn main(rt: HostRuntime) -> ExitCode {
    ExitCode::from(answered(rt))
}

/// 0 where the list was read and its number of segments put out.
fn answered(rt: HostRuntime) -> u8 {
    let alloc = rt.alloc();
    let Ok(folder) = Text::of(alloc, ".") else {
        return 1;
    };
    let mut out = StdSink::new(rt.stdout());
    let mut shelf = FolderShelf::new(rt, folder);
    let mut reader = ListReader::new(alloc);
    if pour(alloc, &mut shelf, "list", BLOB_LIMIT, &mut reader).is_err() {
        return 3;
    }
    let Ok(list) = reader.finish() else {
        return 9;
    };
    let Ok(count) = number_text(alloc, u128::from(list.len())) else {
        return 1;
    };
    if out.put(count.as_str().as_bytes()).is_err() {
        return 6;
    }
    0
}
