//! Which dependencies a configuration keeps, by their scopes.
#![tactic(auto)]

mod scopes;
#[cfg(test)]
mod tests;

pub use scopes::{Configuration, is_same_configuration, kept};
