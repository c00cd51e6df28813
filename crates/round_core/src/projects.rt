//! The projects of chosen coordinates.
ghost use Rattle.std.specs.Prelude.{◌≡◌, ◌+◌, ◌≤◌, IfOk, sum_by};
ghost use Rattle.res_base.specs.Known.{known_of};
ghost use Rattle.pom_build.specs.Effectives.{steps_of};
ghost use Rattle.round_core.specs.Earlier.{AreRight};
ghost use Rattle.round_core.specs.Projects.{project_at, project_in as project_for, projects_in, projects_of as projects_at, steps_in};

use super::earlier::{Earlier, counted};
use pom_build::{Build, effective};
use project_lookup::Known;
use res_base::{Coord, Copied, List, Module, NoMemory, Steps, Text};
use resolution::{Choice, ChoiceRow};
use std::alloc::Global;
use std::sync::ledger::Ledger;

/// A coordinate, and what is known of its project.
#[derive(Drop)]
pub(crate) struct ChosenProject {
    pub coord: Coord,
    pub build: Build,
}

fn project_of<L: Ledger>(
    alloc: Global,
    known: &Known,
    coord: Coord,
    steps: &mut Steps<L>,
) -> Result<ChosenProject, NoMemory>
    ensures value { IfOk result (λ made. made ≡ project_at (known_of known.now.pairs) known.now.repos coord) }
    ensures steps { IfOk result (λ made. steps.new ≡ steps.old + steps_of made.build) }
{
    let build = effective(alloc, known, &coord, steps)?;
    Ok(ChosenProject { coord, build })
}

fn project_at<L: Ledger>(
    alloc: Global,
    known: &Known,
    module: &Module,
    version: &Text,
    steps: &mut Steps<L>,
) -> Result<ChosenProject, NoMemory>
    ensures value { IfOk result (λ made. made
        ≡ project_at (known_of known.now.pairs) known.now.repos (record {
          «module» = «module».now;
          version =
              version.now;
        })) }
    ensures steps { IfOk result (λ made. steps.new ≡ steps.old + steps_of made.build) }
{
    let coord = Coord {
        module: module.copy(alloc)?,
        version: version.copy(alloc)?,
    };
    project_of(alloc, known, coord, steps)
}

/// The project of a version, which may have been built before.
fn chosen_at<L: Ledger>(
    alloc: Global,
    known: &Known,
    earlier: &mut Earlier,
    module: &Module,
    version: &Text,
    steps: &mut Steps<L>,
) -> Result<ChosenProject, NoMemory>
    requires { AreRight (known_of known.now.pairs) known.now.repos earlier.old.projects.items }
    ensures right { AreRight (known_of known.now.pairs) known.now.repos earlier.new.projects.items }
    ensures value { IfOk result (λ made. made
        ≡ project_at (known_of known.now.pairs) known.now.repos (record {
          «module» = «module».now;
          version =
              version.now;
        })) }
    ensures steps { IfOk result (λ made. steps.new ≡ steps.old + steps_of made.build) }
{
    match earlier.taken(known, module, version) {
        Some(project) => Ok(counted(project, steps)),
        None => project_at(alloc, known, module, version, steps),
    }
}

/// The project that is chosen for a module. A clash has none.
fn project_in<L: Ledger>(
    alloc: Global,
    known: &Known,
    earlier: &mut Earlier,
    row: &ChoiceRow,
    steps: &mut Steps<L>,
) -> Result<Option<ChosenProject>, NoMemory>
    requires { AreRight (known_of known.now.pairs) known.now.repos earlier.old.projects.items }
    ensures right { AreRight (known_of known.now.pairs) known.now.repos earlier.new.projects.items }
    ensures value { IfOk result (λ made. made ≡ project_for (known_of known.now.pairs) known.now.repos row.now) }
    ensures steps { IfOk result (λ made. steps.new ≡ steps.old + steps_in made) }
{
    match &row.choice {
        Choice::Clash(_) => Ok(None),
        Choice::Version(version) => {
            let project = chosen_at(alloc, known, earlier, &row.module, version, steps)?;
            Ok(Some(project))
        }
    }
}

/// The projects that are chosen, one for each row. Those that were built before are taken.
pub(crate) fn chosen_projects<L: Ledger>(
    alloc: Global,
    known: &Known,
    earlier: Earlier,
    rows: &[ChoiceRow],
    steps: &mut Steps<L>,
) -> Result<List<Option<ChosenProject>>, NoMemory>
    requires { AreRight (known_of known.now.pairs) known.now.repos earlier.projects.items }
    ensures value { IfOk result (λ made. made ≡ projects_in (known_of known.now.pairs) known.now.repos rows.now) }
    ensures steps { IfOk result (λ made. steps.new ≡ steps.old + sum_by steps_in made) }
{
    let mut left = earlier;
    let mut made: List<Option<ChosenProject>> = List::new(alloc);
    for row in rows {
        made.push(project_in(alloc, known, &mut left, row, steps)?)?;
    }
    Ok(made)
}

/// The projects of coordinates.
pub(crate) fn projects_of<L: Ledger>(
    alloc: Global,
    known: &Known,
    coords: &[Coord],
    steps: &mut Steps<L>,
) -> Result<List<ChosenProject>, NoMemory>
    ensures value { IfOk result (λ made. made ≡ projects_at (known_of known.now.pairs) known.now.repos coords.now) }
    ensures steps { IfOk result (λ made. steps.old ≤ steps.new) }
{
    let mut made: List<ChosenProject> = List::new(alloc);
    for coord in coords {
        made.push(project_at(alloc, known, &coord.module, &coord.version, steps)?)?;
    }
    Ok(made)
}
