//! How far a resolution is.
use super::choices::Choices;
use super::verdict::Verdict;
use reconcile_rules::Request;
use res_base::{FileKey, List, Module};

/// A module, and what is asked of its version, each request once.
#[derive(Drop)]
pub struct RequestRow {
    pub module: Module,
    pub requests: List<Request>,
}

/// What a walk over the edges of the chosen projects gives.
#[derive(Drop)]
pub enum Walk {
    /// Keys that are not known, in key order, each once.
    Needs(List<FileKey>),
    /// In module order.
    Requests(List<RequestRow>),
}

/// What a round gives.
#[derive(Drop)]
pub enum RoundAnswer {
    /// Keys that are not known, in key order, each once.
    Needs(List<FileKey>),
    Next(Choices),
}

/// What the rounds give.
#[derive(Drop)]
pub enum Progress {
    /// So many rounds were done and gave these choices; the next one needs these keys, in key
    /// order.
    Waiting {
        round: u32,
        choices: Choices,
        needs: List<FileKey>,
    },
    Over(Verdict),
}
