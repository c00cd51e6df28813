//! Commands of tables of cases over HTTP.
#![tactic(auto)]

pub mod replies;
pub mod visits;
