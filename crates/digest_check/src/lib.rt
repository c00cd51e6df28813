//! Digests of files, and the digest that a checksum file holds.
#![tactic(auto)]

mod checksum;
mod limits;
mod sums;
#[cfg(test)]
mod tests;

pub use checksum::{find_digest, suffix};
pub use limits::{CHECKSUM_LIMIT, TEXT_LIMIT};
pub use sums::{Digests, Sums};
