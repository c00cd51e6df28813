//! Commands of tables of cases over documents and projects.
#![tactic(auto)]

pub mod effectives;
pub mod lookups;
pub mod poms;
pub mod reasons;
pub mod trees;
