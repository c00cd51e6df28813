//! Commands of tables of cases over the layers by which a person meets the program.
#![tactic(auto)]

pub mod jobs;
pub mod samples;
