//! One key of a session, answered: from the cache, or by a link, whose answer goes to the cache.
#![tactic(auto)]

mod artifacts;
mod cached;
mod changing;
mod errors;
mod files;
mod names;
mod parts;
mod plan;
mod readings;
mod small_files;

pub use changing::is_changing;
pub use errors::GetErr;
pub use files::get_file;
pub use readings::get_reading;
pub use small_files::fetch_one;
