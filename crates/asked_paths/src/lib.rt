//! What a session may ask for are files of its repositories: a law, with nothing to run.
#![tactic(auto)]

mod laws;

pub use laws::{claimed_keys, needed_keys, paths_asked};
