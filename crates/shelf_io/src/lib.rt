//! The outside of the program: blobs under names, what is put out, and the small texts that pass between.
#![tactic(auto)]

mod blob_map;
mod call_plan;
mod counts;
mod errors;
mod folder_name;
mod folder_shelf;
mod mem_shelf;
mod mem_sink;
mod name_buffer;
mod pouring;
mod shelf;
mod sink;
mod std_sink;
mod taker;
mod whole;

pub use errors::{FetchError, ShelfError, SinkError};
pub use folder_shelf::FolderShelf;
pub use mem_shelf::MemShelf;
pub use mem_sink::MemSink;
pub use pouring::pour;
pub use shelf::Shelf;
pub use sink::Sink;
pub use std_sink::StdSink;
pub use taker::Taker;
pub use whole::fetch;
