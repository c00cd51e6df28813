//! The files of a settled resolution: a row for each, and the class path of all.
#![tactic(auto)]

mod line;
mod rows;

pub use line::class_path;
pub use rows::{FileRow, file_rows};
