//! Sets of exclusions, and collections of them of which none makes another one needless.
#![tactic(auto)]

mod antichain;
mod excl_set;
mod laws;
mod rule_table;
#[cfg(test)]
mod tests;

pub use antichain::{Added, Antichain, is_same_added};
pub use excl_set::{ExclSet, is_same_set};
pub use laws::{cover_laws, join_laws, kept_laws, no_rules_laws, within_laws};
