//! Commands of tables of cases over the layers of the cache.
#![tactic(auto)]

mod checks;
pub mod decisions;
pub mod names;
pub mod records;
