//! Trees of elements, read from the text of a POM or a listing.
#![tactic(auto)]

mod characters;
mod declaration;
mod elements;
mod encoding;
mod markup;
mod reading;
mod references;
mod scans;
mod tables;
mod tags;
mod texts;
mod tree;

pub use pom_grammar::{TextErr, Tree};
pub use reading::read_tree;
