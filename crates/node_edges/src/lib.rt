//! The edges of each node of a settled resolution, found in one pass.
#![tactic(auto)]

mod table;

pub use table::{EdgeTable, edge_table};
