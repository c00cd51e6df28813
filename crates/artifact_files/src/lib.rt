//! Which files a settled resolution needs.
#![tactic(auto)]

mod files;
mod names;

pub use files::artifacts;
