//! What a command says: text on one stream, or a line on the other, and how that goes out through
//! two sinks.
#![tactic(auto)]

mod said;
mod sinks;
#[cfg(test)]
mod tests;

pub use said::{Rendered, Said};
pub use sinks::tell;
