//! The choice of a module's version among the requests for it.
#![tactic(auto)]

mod accept;
mod apart;
mod asked;
mod greatest;
mod laws;
mod relaxed;
mod request;
mod rules;

pub use laws::{
    apart_exactly, choices_stay, greatest_version, least_pair, longest_rest, unforced_versions,
};
pub use request::{
    Asker, Chosen, Clash, Request, Rule, is_same_asker, is_same_clash, is_same_request,
    is_same_rule,
};
pub use rules::choose;
