//! The session of a job: its core and its plan, worked through over a store with one link, and what
//! is to be said of that.
#![tactic(auto)]

mod answers;
mod begin;
mod laws;
mod worked;

pub use laws::verdicts_stay;
pub use worked::session;
