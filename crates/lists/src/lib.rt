//! Lists and text as contracts see them: a `Vec` seen as its items, a `String` as its bytes;
//! and want of memory as an error of its own.
#![tactic(auto)]

mod items;
mod memory;
mod text;

pub use items::Items;
pub use memory::Memory;
pub use text::Text;
