//! The report of a settled resolution, as JSON.
#![tactic(auto)]

mod modules;
mod printed;
mod targets;

pub use printed::{ReportJob, report};
