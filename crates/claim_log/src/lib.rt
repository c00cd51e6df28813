//! The log of claims and arrivals: what happened, who has a claim on which key, and how often each
//! key broke. The end of a claim takes no memory.
#![tactic(auto)]

mod event;
mod flights;
mod log;
mod tallies;

pub use event::{Event, EventKind};
pub use log::{AbsorbErr, ClaimLog, NotClaimed};
