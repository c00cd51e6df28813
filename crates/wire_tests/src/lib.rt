//! A whole command over replies in pieces, and over the same files in memory.
#![tactic(auto)]

#[cfg(test)]
mod application;
#[cfg(test)]
mod replies;
#[cfg(test)]
mod runs;
