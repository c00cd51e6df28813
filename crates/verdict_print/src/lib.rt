//! What is printed where a resolution did not settle, or a file did not come whole.
#![tactic(auto)]

mod artifacts;
mod clashes;
mod projects;
mod reasons;
mod texts;

pub use artifacts::{all_came, artifact_lines};
pub use clashes::clash_lines;
pub use projects::failed_lines;
pub use texts::unsettled_line;
