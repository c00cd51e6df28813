//! Whole commands over repositories, disks, clocks and streams in memory.
#![tactic(auto)]

#[cfg(test)]
mod cache;
#[cfg(test)]
mod choices;
#[cfg(test)]
mod faults;
#[cfg(test)]
mod files;
#[cfg(test)]
mod records;
#[cfg(test)]
mod refusals;
#[cfg(test)]
mod runs;
#[cfg(test)]
mod stops;
#[cfg(test)]
mod verdicts;
#[cfg(test)]
mod worlds;
