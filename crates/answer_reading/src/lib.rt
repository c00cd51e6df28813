//! What is read of an answer to a key.
#![tactic(auto)]

mod read;
#[cfg(test)]
mod tests;

pub use read::read_answer;
