//! The cache: files under their names, each beside a record of its digests, sound at every moment.
#![tactic(auto)]

mod errors;
mod files;
mod finding;
mod names;
mod opening;
mod part;
mod store;
mod upgrading;
mod wanted;
mod writing;

pub use cache_reads::Upgraded;
pub use errors::{OpenFault, PartNo, StoreErr};
pub use store::Store;
