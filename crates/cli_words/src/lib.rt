//! The words of a command, read by `clap`: its job, or the first refusal.
#![tactic(auto)]

mod forms;
mod found;
mod reading;
mod tables;
mod words;

pub use word_values::{Command, Job, Output, Pool, WordKind, WordsErr};
pub use words::job_of;
