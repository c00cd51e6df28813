//! What is known of the repositories' answers, and which project and listing they give.
#![tactic(auto)]

mod known;
mod laws;
mod looks;

pub use known::{InsertErr, Known};
pub use laws::{listing_laws, look_laws};
pub use looks::{ListingAt, Look};
