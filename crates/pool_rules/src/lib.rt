//! Boards that are worked on: plain types, what work may make of a board, and laws of it.
#![tactic(auto)]

mod finish;
mod laws;
mod plan;

pub use finish::{EndCause, Finish};
pub use laws::{
    asks_add, counts_later, counts_rise, entries_true, files_beside, turns_land, work_begins,
    work_ends, work_goes_on, work_grows,
};
pub use plan::Plan;
