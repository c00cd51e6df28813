//! What the cache has under a name, read from a disk: in pieces, with only the digests that its
//! record has.
#![tactic(auto)]

mod files;
mod finding;
mod names;
mod pieces;
mod planning;
mod takers;

pub use files::{is_there, read_whole};
pub use finding::find;
pub use names::{gone_name, record_name};
pub use planning::{Upgraded, plan_upgrade};
