//! Folders of the system as disks.
#![tactic(auto)]

mod files;
mod folder_disk;
mod lists;
mod looks;
mod places;
mod reads;

pub use folder_disk::FolderDisk;
