//! What comes of building a project.
use res_base::{Coord, Copied, DepRecord, FileKey, List, NoMemory, Reason, Text};
use std::alloc::Global;

/// A project with all that it inherits, imports and is managed by.
#[derive(Drop)]
pub struct Effective {
    pub coord: Coord,
    /// The place of the repository in which it was found.
    pub repo: u32,
    pub packaging: Text,
    pub deps: List<DepRecord>,
    /// The managed rows, each under a key of its own.
    pub managed: List<DepRecord>,
    /// It has moved, so it has no artifact, and its one dependency says where to.
    pub moved: bool,
}

/// Why a project is refused.
#[derive(Drop)]
pub enum BuildFault {
    /// A project and its parents, up to the one that comes again.
    ParentCycle(List<Coord>),
    /// A chain of imports, up to the project that comes again.
    ImportCycle(List<Coord>),
    /// A line of parents or a chain of imports, up to the first coordinate past the limit.
    TooDeep(List<Coord>),
    /// A parent or an import that no repository has: why, for each in the listed order.
    LineAbsent(Coord, List<Reason>),
}

/// What is known of a project.
#[derive(Drop)]
pub enum Build {
    Built(Effective),
    /// Keys that are not known, each once, without which no more can be said.
    Needs(List<FileKey>),
    /// No repository has the project: why, for each in the listed order.
    NotFound(List<Reason>),
    Refused(BuildFault),
}

impl Copied for Effective {
    fn copy(&self, alloc: Global) -> Result<Effective, NoMemory> {
        Ok(Effective {
            coord: self.coord.copy(alloc)?,
            repo: self.repo,
            packaging: self.packaging.copy(alloc)?,
            deps: self.deps.copy(alloc)?,
            managed: self.managed.copy(alloc)?,
            moved: self.moved,
        })
    }
}

impl Copied for BuildFault {
    fn copy(&self, alloc: Global) -> Result<BuildFault, NoMemory> {
        match self {
            BuildFault::ParentCycle(path) => Ok(BuildFault::ParentCycle(path.copy(alloc)?)),
            BuildFault::ImportCycle(path) => Ok(BuildFault::ImportCycle(path.copy(alloc)?)),
            BuildFault::TooDeep(path) => Ok(BuildFault::TooDeep(path.copy(alloc)?)),
            BuildFault::LineAbsent(coord, why) => {
                let coord = coord.copy(alloc)?;
                Ok(BuildFault::LineAbsent(coord, why.copy(alloc)?))
            }
        }
    }
}

impl Copied for Build {
    fn copy(&self, alloc: Global) -> Result<Build, NoMemory> {
        match self {
            Build::Built(project) => Ok(Build::Built(project.copy(alloc)?)),
            Build::Needs(keys) => Ok(Build::Needs(keys.copy(alloc)?)),
            Build::NotFound(why) => Ok(Build::NotFound(why.copy(alloc)?)),
            Build::Refused(fault) => Ok(Build::Refused(fault.copy(alloc)?)),
        }
    }
}
