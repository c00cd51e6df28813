//! Intervals over any values that have an order, up to ties.
#![tactic(auto)]

mod interval;
mod laws;
mod ranked;

pub use interval::{End, Interval, greater_lower, lesser_upper};
pub use laws::{common, one_side};
pub use ranked::{NoMemory, Ranked};
