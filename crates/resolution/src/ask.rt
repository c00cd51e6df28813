//! What is asked.
use reconcile_rules::Rule;
use res_base::{Coord, Copied, Exclusion, List, NoMemory};
use scope_rules::Configuration;
use std::alloc::Global;

/// What a resolution is asked for, over so many repositories.
#[derive(Drop)]
pub struct Ask {
    /// In the order of the words. The version of each is a constraint.
    pub roots: List<Coord>,
    /// Modules whose version is given, each once.
    pub forced: List<Coord>,
    /// Projects whose managed versions apply to the whole graph.
    pub boms: List<Coord>,
    /// What is left out below each root. The roots themselves stay.
    pub excludes: List<Exclusion>,
    pub configuration: Configuration,
    pub rule: Rule,
    /// The greatest number of rounds, 1 to 1,000.
    pub rounds: u32,
    /// The number of repositories, 1 to 16.
    pub repos: u32,
    /// Whether artifacts are wanted too.
    pub files: bool,
}

impl Copied for Ask {
    fn copy(&self, alloc: Global) -> Result<Ask, NoMemory> {
        Ok(Ask {
            roots: self.roots.copy(alloc)?,
            forced: self.forced.copy(alloc)?,
            boms: self.boms.copy(alloc)?,
            excludes: self.excludes.copy(alloc)?,
            configuration: self.configuration,
            rule: self.rule,
            rounds: self.rounds,
            repos: self.repos,
            files: self.files,
        })
    }
}
