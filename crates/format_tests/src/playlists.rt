//! Lists made, read and written, the faults of the format's tables, and pieces cut anywhere.

mod faults;
mod made;
mod pieces;
