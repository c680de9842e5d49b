//! Each public call on its happy path, and the failures that no clause ties to the system.

mod files;
mod memory;
mod pours;
