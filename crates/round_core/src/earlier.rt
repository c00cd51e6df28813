//! What an earlier round built.
ghost use Rattle.std.specs.Prelude.{◌≡◌, ◌+◌, [], IfSome};
ghost use Rattle.std.specs.Option.{option_copied};
ghost use Rattle.res_base.specs.Known.{known_of};
ghost use Rattle.pom_build.specs.Effectives.{steps_of};
ghost use Rattle.round_core.specs.Earlier.{AreRight, is_chosen};
ghost use Rattle.round_core.specs.Projects.{project_at};

use super::numbers::ModuleTable;
use super::projects::ChosenProject;
use super::reach::Reached;
use pom_build::Build;
use project_lookup::Known;
use res_base::{Module, Steps, Text};
use std::alloc::Global;
use std::mem::replace;
use std::sync::ledger::Ledger;

/// Projects that were built, by the numbers of their modules: where the same version is chosen
/// again, the project need not be built again.
#[derive(Drop)]
pub(crate) struct Earlier {
    pub table: ModuleTable,
    pub projects: Vec<Option<ChosenProject>>,
}

/// Whether a project is that of a version.
fn is_chosen(project: Option<&ChosenProject>, module: &Module, version: &Text) -> bool
    ensures { result ≡ is_chosen (option_copied project.entry) «module».now version.now }
{
    match project {
        None => false,
        Some(project) => project.coord.module == *module && project.coord.version == *version,
    }
}

/// Takes the project at a place, if it is that of a version.
fn taken_at(
    known: &Known,
    projects: &mut [Option<ChosenProject>],
    place: usize,
    module: &Module,
    version: &Text,
) -> Option<ChosenProject>
    requires { AreRight (known_of known.now.pairs) known.now.repos projects.old }
    ensures right { AreRight (known_of known.now.pairs) known.now.repos projects.new }
    ensures value { IfSome result (λ found. found
        ≡ project_at (known_of known.now.pairs) known.now.repos (record {
          «module» = «module».now;
          version =
              version.now;
        })) }
{
    if place >= projects.len() {
        return None;
    }
    if !is_chosen(projects[place].as_ref(), module, version) {
        return None;
    }
    replace(&mut projects[place], None)
}

impl Earlier {
    pub fn new(alloc: Global) -> Earlier
        ensures { result.projects.items ≡ [] }
    {
        Earlier {
            table: ModuleTable::new(alloc),
            projects: Vec::new(alloc),
        }
    }

    pub fn of(reached: Reached) -> Earlier
        ensures { result.projects.items ≡ reached.projects }
    {
        let Reached {
            table,
            projects,
            ..
        } = reached;
        Earlier {
            table,
            projects: projects.into_vec(),
        }
    }

    /// Takes the project of a version, if it was built.
    pub fn taken(&mut self, known: &Known, module: &Module, version: &Text) -> Option<ChosenProject>
        requires { AreRight (known_of known.now.pairs) known.now.repos self.old.projects.items }
        ensures right { AreRight (known_of known.now.pairs) known.now.repos self.new.projects.items }
        ensures value { IfSome result (λ found. found
            ≡ project_at (known_of known.now.pairs) known.now.repos (record {
              «module» = «module».now;
              version =
                  version.now;
            })) }
    {
        match self.table.number_of(module) {
            None => None,
            Some(place) => {
                let projects = self.projects.as_mut_slice();
                taken_at(known, projects, place, module, version)
            }
        }
    }
}

/// A project that was built before, with the step that it took.
pub(crate) fn counted<L: Ledger>(project: ChosenProject, steps: &mut Steps<L>) -> ChosenProject
    ensures value { result ≡ project }
    ensures steps { steps.new ≡ steps.old + steps_of project.build }
{
    if matches!(&project.build, Build::Built(_)) {
        steps.tick();
    }
    project
}
