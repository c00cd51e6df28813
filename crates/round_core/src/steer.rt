//! Managed versions that reach the whole graph.
ghost use Rattle.std.specs.Prelude.{◌≡◌, [], IfOk};
ghost use Rattle.std.specs.Option.{option_copied};
ghost use Rattle.round_core.specs.Steering.{is_root as root_test, keeps_text as keeping_test, steer as versions_of, text_of as text_for, version_at, with_project as versions_with_project, with_row as versions_with_row, with_rows as versions_with_rows};

use super::edges::RowEdge;
use super::projects::ChosenProject;
use super::reach::Reached;
use super::row_key::{RowKey, key_of_row};
use pom_build::Build;
use reconcile_rules::Asker;
use res_base::{Coord, Copied, DepRecord, Module, NoMemory, Text};
use std::alloc::Global;
use std::collections::BTreeMap;
use std::marker::Model;

/// Managed versions by the keys of their rows, of which the first with a key counts. Contracts see
/// them in the order of the keys.
#[derive(Drop)]
pub(crate) struct Steer {
    versions: BTreeMap<RowKey, Text>,
}

impl Model for Steer {
    ghost use Rattle.round_core.specs.Steering.{Versions};

    ghost Value = { Versions };

    ghost view = { λ steer. steer.versions.entries };
}

impl Steer {
    pub fn new(alloc: Global) -> Steer
        ensures { result ≡ [] }
    {
        Steer {
            versions: BTreeMap::new(alloc),
        }
    }

    /// With a managed row, unless an earlier one has its key.
    fn with_row(self, alloc: Global, row: &DepRecord) -> Result<Steer, NoMemory>
        ensures { IfOk result (λ made. made ≡ versions_with_row self row.now) }
    {
        let Steer { mut versions } = self;
        let key = key_of_row(alloc, row)?;
        if versions.contains_key(&key) {
            return Ok(Steer { versions });
        }
        versions.insert(key, row.version.copy(alloc)?)?;
        Ok(Steer { versions })
    }

    fn with_rows(self, alloc: Global, rows: &[DepRecord]) -> Result<Steer, NoMemory>
        ensures { IfOk result (λ made. made ≡ versions_with_rows self rows.now) }
    {
        let mut made = self;
        for row in rows {
            made = made.with_row(alloc, row)?;
        }
        Ok(made)
    }

    /// With the managed rows of a project, where it is built.
    pub fn with_project(
        self,
        alloc: Global,
        project: Option<&ChosenProject>,
    ) -> Result<Steer, NoMemory>
        ensures { IfOk result (λ made. made ≡ versions_with_project self (option_copied project.entry)) }
    {
        match project {
            None => Ok(self),
            Some(project) => match &project.build {
                Build::Built(effective) => self.with_rows(alloc, effective.managed.as_slice()),
                _ => Ok(self),
            },
        }
    }

    /// The managed version under a key.
    fn version_at(&self, key: &RowKey) -> Option<&Text>
        ensures { option_copied result ≡ version_at self.now key.now }
    {
        self.versions.get(key)
    }
}

/// The managed versions of the BOMs in the order of the words, and then those of the chosen
/// projects of the roots.
pub(crate) fn steer_of(alloc: Global, roots: &[Coord], reached: &Reached) -> Result<Steer, NoMemory>
    ensures { IfOk result (λ made. made ≡ versions_of roots.now reached.now) }
{
    let mut made = Steer::new(alloc);
    for project in reached.boms.as_slice() {
        made = made.with_project(alloc, Some(project))?;
    }
    for root in roots {
        made = made.with_project(alloc, reached.project_for(&root.module))?;
    }
    Ok(made)
}

fn is_root(roots: &[Coord], module: &Module) -> bool
    ensures { result ≡ root_test roots.now «module».now }
{
    roots.iter().any(|root| root.module == *module)
}

/// Whether an edge keeps its own text: a root does, and so does an edge of a root's module that has
/// one.
fn keeps_text(roots: &[Coord], source: &Asker, own: &Text) -> bool
    ensures { result ≡ keeping_test roots.now source.now own.now }
{
    match source {
        Asker::Root(_) => true,
        Asker::Project(coord) => is_root(roots, &coord.module) && !own.is_empty(),
    }
}

/// The text that an edge asks for.
pub(crate) fn text_of(
    alloc: Global,
    roots: &[Coord],
    steer: &Steer,
    edge: &RowEdge,
) -> Result<Text, NoMemory>
    ensures { IfOk result (λ made. made ≡ text_for roots.now steer.now edge.now) }
{
    let own = &edge.row.version;
    if keeps_text(roots, &edge.source, own) {
        return own.copy(alloc);
    }
    let key = key_of_row(alloc, &edge.row)?;
    match steer.version_at(&key) {
        None => own.copy(alloc),
        Some(version) => {
            if version.is_empty() {
                own.copy(alloc)
            } else {
                version.copy(alloc)
            }
        }
    }
}
