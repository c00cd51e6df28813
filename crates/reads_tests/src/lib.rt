//! What the cache is found to have, over disks in memory.
#![tactic(auto)]

#[cfg(test)]
mod findings;
#[cfg(test)]
mod sizes;
#[cfg(test)]
mod written;
