//! What is asked of a resolution, and what comes of it: plain values, for the resolver and for all
//! that print or fetch.
#![tactic(auto)]

mod ask;
mod choices;
mod progress;
mod settled;
mod verdict;

pub use ask::Ask;
pub use choices::{Choice, ChoiceRow, Choices};
pub use progress::{Progress, RequestRow, RoundAnswer, Walk};
pub use settled::{Edge, Node, Settled};
pub use verdict::{ClashRow, FaultRow, ProjectFault, Verdict};
