//! Connections of the system over TCP.
#![tactic(auto)]

mod authorities;
mod wire;

pub use wire::TcpWire;
