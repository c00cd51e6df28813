//! What is to be claimed, in order, and what a claim answers from it: no claim searches for its
//! key.
#![tactic(auto)]

mod agenda;
mod laws;
mod next;

pub use agenda::Agenda;
pub use laws::agenda_laws;
pub use next::next_claim;
