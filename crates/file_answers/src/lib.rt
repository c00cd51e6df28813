//! The answer to a file that is asked for whole: what a repository holds at its URL, once its checks
//! have passed.
#![tactic(auto)]

mod answers;
mod checks;
mod demand;
mod keys;
mod laws;
#[cfg(test)]
mod tests;
mod wanted;

pub use answers::ask_file;
pub use checks::ask_checks;
pub use demand::Demand;
pub use keys::ask_key;
pub use laws::demands_judged;
