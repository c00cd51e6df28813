//! What a command prints: the text of a verdict, as its job asks for it, and the line of each
//! refusal.
#![tactic(auto)]

mod refusals;
mod reports;
mod rows;
mod verdicts;

pub use refusals::Refusal;
pub use verdicts::render;
