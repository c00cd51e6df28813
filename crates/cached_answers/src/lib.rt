//! What a cache says of keys, as a map of readings, and what follows where it is faithful to a
//! world: laws, with nothing to run.
#![tactic(auto)]

mod laws;

pub use laws::{cache_answers, cache_apart, cache_offline, cache_true};
