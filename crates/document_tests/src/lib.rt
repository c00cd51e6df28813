//! Trees, records, listings, properties and rows, with ample memory.
#![tactic(auto)]

#[cfg(test)]
mod listings;
#[cfg(test)]
mod poms;
#[cfg(test)]
mod properties;
#[cfg(test)]
mod rows;
#[cfg(test)]
mod trees;
