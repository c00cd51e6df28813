//! Choices of versions.
use reconcile_rules::Clash;
use res_base::{Copied, List, Module, NoMemory, Text};
use std::alloc::Global;

/// What was chosen for a module.
#[derive(Drop)]
pub enum Choice {
    Version(Text),
    /// The requests for the module do not go together, so it has no edges.
    Clash(Clash),
}

/// A module, and what was chosen for it.
#[derive(Drop)]
pub struct ChoiceRow {
    pub module: Module,
    pub choice: Choice,
}

/// What was chosen for each requested module, in module order.
#[derive(Drop)]
pub struct Choices {
    pub rows: List<ChoiceRow>,
}

impl Copied for Choice {
    fn copy(&self, alloc: Global) -> Result<Choice, NoMemory> {
        match self {
            Choice::Version(version) => Ok(Choice::Version(version.copy(alloc)?)),
            Choice::Clash(clash) => Ok(Choice::Clash(*clash)),
        }
    }
}

impl Copied for ChoiceRow {
    fn copy(&self, alloc: Global) -> Result<ChoiceRow, NoMemory> {
        Ok(ChoiceRow {
            module: self.module.copy(alloc)?,
            choice: self.choice.copy(alloc)?,
        })
    }
}

impl Copied for Choices {
    fn copy(&self, alloc: Global) -> Result<Choices, NoMemory> {
        Ok(Choices {
            rows: self.rows.copy(alloc)?,
        })
    }
}
