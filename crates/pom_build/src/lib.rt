//! The effective project: what a project and its parents say, with names filled in, and with the
//! rows that are managed by them and by what they import.
#![tactic(auto)]

mod build;
mod effectives;
mod filled;
mod imports;
mod key_list;
mod laws;
mod line;
mod memo;
mod names;
mod needs;
mod outcome;

pub use build::{Build, BuildFault, Effective};
pub use effectives::effective;
pub use laws::{answer_laws, build_laws, chain_laws, read_laws};
