//! The board: the core with the cache, worked through by a link.
#![tactic(auto)]

mod alone;
mod board;
mod claims;
mod ends;
mod laws;
mod turns;
mod whys;

pub use alone::finish_alone;
pub use board::{Board, Finished, PartRow};
pub use file_fetch::fetch_one;
pub use pool_rules::{EndCause, Finish, Plan};
