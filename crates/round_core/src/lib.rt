//! Rounds: which version of each module is used, and why where there is none.
#![tactic(auto)]

mod decide;
mod earlier;
mod edges;
mod keys;
mod laws;
mod listings;
mod needs;
mod numbers;
mod one_round;
mod projects;
mod reach;
mod request_key;
mod request_list;
mod requests;
mod resumed;
mod rounds;
mod row_key;
mod steer;
mod verdict;

pub use artifact_files::artifacts;
pub use laws::{
    ending_laws, growth_laws, look_laws, request_laws, settled_laws, standing_laws, wait_laws,
};
pub use one_round::{round, walk};
pub use resolution::{
    Ask, Choice, ChoiceRow, Choices, ClashRow, Edge, FaultRow, Node, Progress, ProjectFault,
    RequestRow, RoundAnswer, Settled, Verdict, Walk,
};
pub use resumed::{BuiltProjects, rounds_on};
pub use rounds::rounds_plain;
