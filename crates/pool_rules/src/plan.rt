//! How files are asked for.
use cache_policy::Mode;
use res_base::{Check, List, Text};

/// How files are asked for, and which are taken from the cache.
#[derive(Drop)]
pub struct Plan {
    /// The repositories, 1 to 16, in the order of the words.
    pub addresses: List<Text>,
    /// How files are checked: the first that decides counts.
    pub checks: List<Check>,
    pub mode: Mode,
    /// For how many seconds a cached file that may change counts as new.
    pub ttl: u64,
    /// The greatest number of bytes of an artifact.
    pub limit: u64,
    /// The moment of the call, in seconds.
    pub moment: u64,
}
