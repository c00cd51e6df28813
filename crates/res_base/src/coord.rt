//! Modules and coordinates.
use crate::{Copied, NoMemory, Text};
use std::alloc::Global;

/// What a project is called, whatever its version. Ordered by the bytes of the org, then of the
/// name.
#[derive(Debug, PartialEq, Eq, PartialOrd, Ord, Hash, Drop)]
pub struct Module {
    /// The group id, as `org.apache.commons`.
    pub org: Text,
    /// The artifact id.
    pub name: Text,
}

/// A module at a version. Where it was read from words, the version holds a constraint.
#[derive(Debug, PartialEq, Eq, PartialOrd, Ord, Hash, Drop)]
pub struct Coord {
    pub module: Module,
    pub version: Text,
}

impl Copied for Module {
    fn copy(&self, alloc: Global) -> Result<Module, NoMemory> {
        Ok(Module {
            org: self.org.copy(alloc)?,
            name: self.name.copy(alloc)?,
        })
    }
}

impl Copied for Coord {
    fn copy(&self, alloc: Global) -> Result<Coord, NoMemory> {
        Ok(Coord {
            module: self.module.copy(alloc)?,
            version: self.version.copy(alloc)?,
        })
    }
}
