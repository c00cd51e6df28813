//! Live paths over a graph whose edges exclude modules, and the walk that finds their last edges.
#![tactic(auto)]

mod hop;
mod inner;
mod laws;
mod least;
mod mark;
mod marked;
mod put;
mod walk;

pub use hop::Hop;
pub use laws::path_laws;
pub use walk::followed;
