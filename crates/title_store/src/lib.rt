//! Titles: a design, a media list, and the digest of every variant, no two of which are the same.
//!
//! A title is built variant by variant, or read from its text. An index leads from a digest to its variant.
#![tactic(auto)]

mod build;
mod errors;
mod lines;
mod reading;
mod rows;
mod table;
mod title;
mod writing;

pub use blob_digests::{BLOB_LIMIT, Digest, digest_of};
pub use build::TitleBuilder;
pub use designs::{Design, DesignError, DesignFault, Key};
pub use errors::{AddError, BuildError, TitleReadError};
pub use title::Title;
pub use title_terms::{TitleFault, TitleKind};
