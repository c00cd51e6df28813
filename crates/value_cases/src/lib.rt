//! Commands of tables of cases over the layers of values and rules.
#![tactic(auto)]

pub mod choices;
pub mod coordinates;
pub mod digests;
pub mod exclusions;
pub mod intervals;
pub mod scopes;
pub mod versions;
