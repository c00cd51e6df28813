//! Disks, links, replies and names of the cache, with ample memory.
#![tactic(auto)]

#[cfg(test)]
mod disk_runs;
#[cfg(test)]
mod folder_disks;
#[cfg(test)]
mod links;
#[cfg(test)]
mod memory_disks;
#[cfg(test)]
mod names;
#[cfg(test)]
mod replies;
