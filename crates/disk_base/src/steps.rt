//! The calls that change a disk, as data.
use res_base::{List, Text};

/// A call that changes a disk.
#[derive(Debug, Drop)]
pub enum DiskStep {
    Start(Text),
    Append(Text, List<u8>),
    Sync(Text),
    Rename(Text, Text),
    Remove(Text),
    SyncNames,
}
