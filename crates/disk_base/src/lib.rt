//! Disks: what they hold, what a crash may leave of it, and a disk in memory.
#![tactic(auto)]

mod contents;
mod crash;
mod disk;
mod disk_errors;
mod fail_disk;
mod fuse_disk;
mod log;
mod memory_calls;
mod memory_disk;
mod replay;
mod rows;
mod steps;
mod table;

pub use contents::{Bindings, Content};
pub use disk::{Disk, Read};
pub use disk_errors::{DiskCall, DiskErr};
pub use fail_disk::FailDisk;
pub use fuse_disk::FuseDisk;
pub use memory_disk::MemDisk;
pub use steps::DiskStep;
