//! The program's call over blobs in memory.

mod accuse;
mod calls;
mod checks;
mod copies;
mod desk;
mod distributed;
mod films;
mod packaging;
mod registers;
mod samples;
mod usage;
