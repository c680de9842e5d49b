//! A digest.

/// The SHA-256 of some bytes.
#[derive(Clone, Copy, Debug, PartialEq, Eq)]
pub struct Digest {
    /// The 32 bytes, as they stand in FIPS 180-4's output from left to right.
    pub bytes: [u8; 32],
}
