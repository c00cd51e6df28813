//! Limits of answers, in bytes.

/// The greatest length of a POM or a listing: 16 MiB.
pub const TEXT_LIMIT: u64 = 16_777_216;

/// The greatest length of a checksum file: 64 KiB.
pub const CHECKSUM_LIMIT: u64 = 65_536;
