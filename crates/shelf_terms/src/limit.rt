//! How long a blob may be.

/// The most bytes of a blob that is read: 64 MiB, this project's own.
pub const BLOB_LIMIT: u64 = 67_108_864;
