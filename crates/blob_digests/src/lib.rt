//! Digests of blobs: the SHA-256 of all bytes that a blob holds, taken part by part.
#![tactic(auto)]

mod digest;
mod hashing;

pub use digest::Digest;
pub use hashing::digest_of;
pub use shelf_terms::BLOB_LIMIT;
