//! The real outside: servers and folders as links, the system's clock, and the standard streams as
//! sinks.
#![tactic(auto)]

mod folder_link;
mod folders;
mod pieces;
mod real_clock;
mod real_link;
mod real_sink;

pub use real_clock::RealClock;
pub use real_link::RealLink;
pub use real_sink::RealSink;
pub use tcp_wire::TcpWire;
