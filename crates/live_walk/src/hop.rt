//! Edges.
use exclusion_sets::ExclSet;
use res_base::{Copied, NoMemory};
use std::alloc::Global;

/// An edge, as far as a walk goes: the number of the module that it leads to, and what it excludes
/// from there on.
#[derive(Drop)]
pub struct Hop {
    pub to: usize,
    pub excluded: ExclSet,
}

impl Copied for Hop {
    fn copy(&self, alloc: Global) -> Result<Hop, NoMemory> {
        Ok(Hop {
            to: self.to,
            excluded: self.excluded.copy(alloc)?,
        })
    }
}
