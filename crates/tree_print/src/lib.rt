//! The tree of a settled resolution, as it is printed.
#![tactic(auto)]

mod laws;
mod pending;
mod texts;
mod walk;

pub use laws::tree_rule;
pub use walk::tree;
