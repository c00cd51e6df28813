//! What a project file says.
use crate::{Coord, Copied, List, Module, NoMemory, Text};
use std::alloc::Global;

/// Modules that a dependency leaves out. `*` stands for every text.
#[derive(PartialEq, Eq, Hash, Drop)]
pub struct Exclusion {
    pub org: Text,
    pub name: Text,
}

/// A row of dependencies, as written. Absent texts are empty.
#[derive(Drop)]
pub struct DepRecord {
    pub module: Module,
    pub version: Text,
    /// The element `type`.
    pub kind: Text,
    pub classifier: Text,
    pub scope: Text,
    pub optional: Text,
    pub exclusions: List<Exclusion>,
}

/// A property and its value, as written.
#[derive(Drop)]
pub struct Property {
    pub name: Text,
    pub value: Text,
}

/// Where a project has moved to. An empty part stays as it was.
#[derive(Drop)]
pub struct Moved {
    pub org: Text,
    pub name: Text,
    pub version: Text,
}

/// The fields of a project file, as written. Absent texts are empty.
#[derive(Drop)]
pub struct PomRecord {
    pub parent: Option<Coord>,
    pub org: Text,
    pub name: Text,
    pub version: Text,
    pub packaging: Text,
    pub properties: List<Property>,
    pub deps: List<DepRecord>,
    /// The rows of `dependencyManagement`.
    pub managed: List<DepRecord>,
    pub moved: Option<Moved>,
}

impl Copied for Exclusion {
    fn copy(&self, alloc: Global) -> Result<Exclusion, NoMemory> {
        Ok(Exclusion {
            org: self.org.copy(alloc)?,
            name: self.name.copy(alloc)?,
        })
    }
}

impl Copied for DepRecord {
    fn copy(&self, alloc: Global) -> Result<DepRecord, NoMemory> {
        Ok(DepRecord {
            module: self.module.copy(alloc)?,
            version: self.version.copy(alloc)?,
            kind: self.kind.copy(alloc)?,
            classifier: self.classifier.copy(alloc)?,
            scope: self.scope.copy(alloc)?,
            optional: self.optional.copy(alloc)?,
            exclusions: self.exclusions.copy(alloc)?,
        })
    }
}

impl Copied for Property {
    fn copy(&self, alloc: Global) -> Result<Property, NoMemory> {
        Ok(Property {
            name: self.name.copy(alloc)?,
            value: self.value.copy(alloc)?,
        })
    }
}

impl Copied for Moved {
    fn copy(&self, alloc: Global) -> Result<Moved, NoMemory> {
        Ok(Moved {
            org: self.org.copy(alloc)?,
            name: self.name.copy(alloc)?,
            version: self.version.copy(alloc)?,
        })
    }
}

impl Copied for PomRecord {
    fn copy(&self, alloc: Global) -> Result<PomRecord, NoMemory> {
        Ok(PomRecord {
            parent: self.parent.copy(alloc)?,
            org: self.org.copy(alloc)?,
            name: self.name.copy(alloc)?,
            version: self.version.copy(alloc)?,
            packaging: self.packaging.copy(alloc)?,
            properties: self.properties.copy(alloc)?,
            deps: self.deps.copy(alloc)?,
            managed: self.managed.copy(alloc)?,
            moved: self.moved.copy(alloc)?,
        })
    }
}
