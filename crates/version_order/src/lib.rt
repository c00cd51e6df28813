//! Versions after Maven's order: their items, the order by items, the full order, and constraints.
#![tactic(auto)]

mod constraint;
mod item;
mod qualifiers;
mod shape;
mod version;

pub use constraint::{Constraint, ConstraintErr, read_constraint, readings};
pub use version::{Version, orders};
