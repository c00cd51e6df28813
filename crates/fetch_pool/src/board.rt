//! Boards.
use arrival_core::Core;
use cache_store::{PartNo, Store};
use disk_base::Disk;
use pool_rules::{EndCause, Finish, Plan};
use res_base::{FileKey, List};

/// An open part of a seat, with the number of bytes appended to it.
#[derive(Drop)]
pub struct PartRow {
    pub seat: u32,
    pub key: FileKey,
    pub no: PartNo,
    pub bytes: u64,
}

/// The core and the cache of a session, how its files are asked for, what ended the work on it, and
/// the parts that seats have open between two turns.
#[derive(Drop)]
pub struct Board<D: Disk> {
    pub core: Core,
    pub store: Store<D>,
    pub plan: Plan,
    pub ended: Option<EndCause>,
    pub parts: List<PartRow>,
}

/// A board that was worked through, and how that ended.
#[derive(Drop)]
pub struct Finished<D: Disk> {
    pub board: Board<D>,
    pub finish: Finish,
}
