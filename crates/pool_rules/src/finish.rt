//! How work on a board ends.
use claim_rules::Why;
use disk_base::DiskCall;
use res_base::FileKey;

/// What ends the work on a board before its session is over.
#[derive(Clone, Copy, Debug, PartialEq, Eq, Drop)]
pub enum EndCause {
    /// The disk failed, at a call of this kind.
    Disk(DiskCall),
    /// Out of memory.
    Memory,
}

/// How the work on a board ended.
#[derive(Drop)]
pub enum Finish {
    /// The session is over.
    Over,
    /// Every open need is broken: the least of them, and why it broke last.
    Stuck(FileKey, Why),
    /// A need is open, and as many claims were made as there may be.
    TooMany,
    /// The disk failed, at a call of this kind.
    Disk(DiskCall),
    /// Out of memory.
    Memory,
}
