//! Claims of files, over histories: what is needed, what a claim answers, which histories are
//! legal, and what follows of them for any resolver.
#![tactic(auto)]

mod claim;
mod history_laws;
mod session_laws;
mod settings;
mod why;

pub use claim::Claim;
pub use history_laws::{
    asked_keys, claim_answers, claims_counted, flights_told, least_keys, legal_histories,
    reads_counted,
};
pub use session_laws::{over_stays, same_needs, session_needs};
pub use settings::{CoreLimits, Settings};
pub use why::Why;
