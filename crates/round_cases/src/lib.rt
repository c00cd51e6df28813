//! Commands of tables of cases over rounds and artifacts.
#![tactic(auto)]

pub mod artifacts;
pub mod progress;
pub mod rounds;
