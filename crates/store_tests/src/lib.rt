//! Whole runs of the store over disks in memory.
#![tactic(auto)]

#[cfg(test)]
mod cases;
#[cfg(test)]
mod refusals;
#[cfg(test)]
mod runs;
#[cfg(test)]
mod stops;
