//! Commands of tables of cases over what is printed.
#![tactic(auto)]

mod conditions;
pub mod files;
pub mod printed;
