//! What the cache knows of a file, and what is found of it.
use res_base::{Check, Copied, List, NoMemory};
use std::alloc::Global;

/// What is known of a data file: the list of checks that its bytes were taken by, their digests and
/// length, and the moment at which they came, in seconds.
#[derive(Drop)]
pub struct Record {
    pub checks: List<Check>,
    pub sha1: [u8; 20],
    /// Given in a record of format 2, and only there.
    pub sha256: Option<[u8; 32]>,
    pub length: u64,
    pub moment: u64,
}

/// The digests and the length of a file, or those that its record wants.
#[derive(Clone, Copy, Debug, PartialEq, Eq, Drop)]
pub struct Measured {
    pub sha1: [u8; 20],
    /// Given where the record has one.
    pub sha256: Option<[u8; 32]>,
    pub length: u64,
}

/// What the cache has under a name.
#[derive(Drop)]
pub enum Found {
    /// Data of which the record tells the digests and the length.
    Whole(Record),
    /// No data; at this moment a repository had no such file.
    Gone(u64),
    /// No data, and no absence record that reads.
    Nothing,
    /// Data that differs from its record, or whose record is absent or does not read: then nothing
    /// is wanted.
    Broken {
        wanted: Option<Measured>,
        got: Measured,
    },
}

impl Copied for Record {
    fn copy(&self, alloc: Global) -> Result<Record, NoMemory> {
        Ok(Record {
            checks: self.checks.copy(alloc)?,
            sha1: self.sha1,
            sha256: self.sha256,
            length: self.length,
            moment: self.moment,
        })
    }
}
