//! Rows of dependencies by their keys, in time that grows with their number.
#![tactic(auto)]

mod completed;
mod keyed;
mod last;
mod laws;
mod set;
mod table;

pub use last::{joined, last_of_key};
pub use laws::row_laws;
pub use set::RowSet;
pub use table::RowTable;
