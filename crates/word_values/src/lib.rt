//! What the words of a command say: its job, or the first value that is refused.
//!
//! The values of options are read here from their texts, in a fixed order. Which text belongs to
//! which option is told by a [`Given`].
#![tactic(auto)]

mod addresses;
mod checks;
mod choices;
mod coordinates;
mod exclusions;
mod given;
mod job;
mod members;
mod numbers;
mod prefixes;
mod refusals;
mod sample;
mod split;
mod values;

pub use given::Given;
pub use job::{Command, Job, Output, Pool};
pub use refusals::{WordKind, WordsErr};
pub use sample::read_sample;
pub use values::read_job;
