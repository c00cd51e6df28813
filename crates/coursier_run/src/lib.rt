//! The top call: from the words of a command to the bytes on its output.
#![tactic(auto)]

mod laws;
mod run;
mod sample;
mod still;

pub use command_lines::render;
pub use line_streams::Rendered;
pub use still::{Served, run_still};
