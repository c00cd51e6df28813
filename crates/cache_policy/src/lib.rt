//! What is done for a file, by what the cache has of it: use that, ask a repository, or neither.
#![tactic(auto)]

mod decisions;
#[cfg(test)]
mod tests;

pub use decisions::decide;

/// How the cache is used.
#[derive(Clone, Copy, Debug, PartialEq, Eq, Drop)]
pub enum Mode {
    /// What is missing or too old is asked for.
    Missing,
    /// Nothing is asked for.
    Offline,
    /// All is asked for anew.
    Refresh,
}

/// What is done for a file.
#[derive(Clone, Copy, Debug, PartialEq, Eq, Drop)]
pub enum Decision {
    /// What the cache has is used.
    Use,
    /// A repository is asked.
    Ask,
    /// Nothing usable is there, and nobody may be asked.
    Unavailable,
}
