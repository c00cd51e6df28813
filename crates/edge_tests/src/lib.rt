//! Links over HTTP, over pages in memory and over a server of this machine, and what the system
//! gives: folders, its clock and the standard streams.
#![tactic(auto)]

#[cfg(test)]
mod folders;
#[cfg(test)]
mod pages;
#[cfg(test)]
mod servers;
#[cfg(test)]
mod wires;
