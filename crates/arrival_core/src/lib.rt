//! The core: what is asked, what is known and claimed, and how far the rounds come over it, in any
//! order of claims and arrivals.
#![tactic(auto)]

mod claim_core;
mod laws;
mod needs;

pub use claim_core::Core;
pub use claim_log::{AbsorbErr, Event, EventKind, NotClaimed};
pub use claim_rules::{Claim, CoreLimits, Why};
pub use laws::{claims_bounded, core_laws, rounds_lawful};
