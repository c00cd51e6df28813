//! What the resolver asks of the outside: links, sinks and clocks, as traits and in memory.
#![tactic(auto)]

mod addresses;
mod clocks;
mod link_errors;
mod links;
mod memory_calls;
mod memory_clock;
mod memory_link;
mod memory_sink;
mod pieces;
mod sinks;
mod world_files;

pub use addresses::{Address, read_address};
pub use clocks::Clock;
pub use link_errors::LinkErr;
pub use links::{Got, Link, Next, OpenFile, Opened};
pub use memory_clock::MemClock;
pub use memory_link::MemLink;
pub use memory_sink::MemSink;
pub use pieces::get_in_pieces;
pub use sinks::{Sink, SinkErr};
