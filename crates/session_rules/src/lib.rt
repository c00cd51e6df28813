//! What a session that was worked through comes to: laws, with nothing to run.
#![tactic(auto)]

mod laws;

pub use laws::{few_asked, known_true, offline_stuck, over_settled, stuck_broken, too_many_needed};
