//! The plain values that every layer of the resolver stands on: texts, lists, coordinates and
//! their paths, and worlds of files.
#![tactic(auto)]

mod coord;
mod coord_text;
mod key;
mod laws;
mod list;
mod memory;
mod paths;
mod plain;
mod pom;
mod reading;
mod steps;
#[cfg(test)]
mod tests;
mod text;
mod world;

pub use coord::{Coord, Module};
pub use coord_text::{CoordErr, parse_coord};
pub use key::{FileKey, Role};
pub use laws::{equality_decided, keys_counted, known_grows, known_pairs};
pub use list::List;
pub use memory::{Copied, NoMemory};
pub use paths::{file_path, listing_path, paths_apart, pom_path, url_of};
pub use plain::is_plain;
pub use pom::{DepRecord, Exclusion, Moved, PomRecord, Property};
pub use reading::{Answer, Check, Damage, Digest, Field, ReadFault, Reading, Reason};
pub use steps::Steps;
pub use text::Text;
pub use world::{World, WorldRow};
