//! Links over HTTP: a file of a repository is what its pages say, redirects followed.
#![tactic(auto)]

mod hear;
mod http_link;
mod memory_wire;
mod pages;
mod visits;
mod wire;

pub use http_link::HttpLink;
pub use http_visits::{Page, Place};
pub use memory_wire::MemWire;
pub use wire::{Connection, Failed, Wire};
