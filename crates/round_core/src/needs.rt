//! The keys that a round needs to build its projects.
ghost use Rattle.std.specs.Prelude.{◌≡◌, Some, IfOk};
ghost use Rattle.std.specs.List.{list_any};
ghost use Rattle.std.specs.Option.{option_copied};
ghost use Rattle.round_core.specs.Needs.{at_end, is_open as open_test, keys_in as keys_for, open_keys as keys_open, waits_in as waiting_test};
ghost use Rattle.round_core.specs.declared.edges.RowEdge.{RowEdge as Ended};
ghost use Rattle.round_core.specs.declared.projects.ChosenProject.{ChosenProject as Chosen};

use super::edges::RowEdge;
use super::keys::KeySet;
use super::projects::ChosenProject;
use super::reach::Reached;
use pom_build::Build;
use res_base::{FileKey, List, NoMemory};
use std::alloc::Global;

pub(crate) fn waits_in(project: Option<&ChosenProject>) -> bool
    ensures { result ≡ waiting_test (option_copied project.entry) }
{
    match project {
        None => false,
        Some(project) => matches!(&project.build, Build::Needs(_)),
    }
}

fn keys_in(project: Option<&ChosenProject>) -> &[FileKey]
    ensures { result.now ≡ keys_for (option_copied project.entry) }
{
    match project {
        None => &[],
        Some(project) => match &project.build {
            Build::Needs(keys) => keys.as_slice(),
            _ => &[],
        },
    }
}

fn boms_wait(boms: &[ChosenProject]) -> bool
    ensures { result ≡ list_any (λ (project : Chosen). waiting_test (Some project)) boms.now }
{
    boms.iter().any(|project| waits_in(Some(project)))
}

fn ends_wait(reached: &Reached, last: &[RowEdge]) -> bool
    ensures { result ≡ list_any (λ (e : Ended). waiting_test (at_end reached.now e)) last.now }
{
    last.iter()
        .any(|edge| waits_in(reached.project_for(&edge.row.module)))
}

/// Whether some project of the BOMs, or at an end of a live path, waits for keys.
pub(crate) fn is_open(reached: &Reached) -> bool
    ensures { result ≡ open_test reached.now }
{
    boms_wait(reached.boms.as_slice()) || ends_wait(reached, reached.last.as_slice())
}

/// All keys that they wait for, in key order, each once.
pub(crate) fn open_keys(alloc: Global, reached: &Reached) -> Result<List<FileKey>, NoMemory>
    ensures { IfOk result (λ made. made ≡ keys_open reached.now) }
{
    let mut keys = KeySet::new(alloc);
    for project in reached.boms.as_slice() {
        keys = keys.with_keys(alloc, keys_in(Some(project)))?;
    }
    for edge in reached.last.as_slice() {
        let project = reached.project_for(&edge.row.module);
        keys = keys.with_keys(alloc, keys_in(project))?;
    }
    keys.into_list(alloc)
}
