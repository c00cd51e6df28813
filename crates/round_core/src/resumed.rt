//! Rounds that go on from where they stood.
ghost use Rattle.std.specs.Option.{option_copied};
ghost use Rattle.std.specs.Prelude.{◌≡◌, [], IfOk, map};
ghost use Rattle.res_base.specs.Known.{known_of};
ghost use Rattle.round_core.specs.Earlier.{AreLasting, lasting, lasting_if};
ghost use Rattle.round_core.specs.Endings.{Waited};
ghost use Rattle.round_core.specs.Needs.{waits_in as waiting_test};
ghost use Rattle.round_core.specs.Rounds.{rounds_of};

use super::earlier::Earlier;
use super::needs::waits_in;
use super::projects::ChosenProject;
use super::rounds::{Turn, take_turn};
use project_lookup::Known;
use res_base::{NoMemory, Steps};
use resolution::{Ask, Choices, Progress, Verdict};
use std::alloc::Global;
use std::marker::Model;
use std::sync::ledger::Ledger;

/// Projects that were built and wait for nothing. Contracts see the list of them.
#[derive(Drop)]
pub struct BuiltProjects {
    earlier: Earlier,
}

impl Model for BuiltProjects {
    ghost use Rattle.std.specs.Prelude.{List, Option};
    ghost use Rattle.round_core.specs.declared.projects.ChosenProject.{ChosenProject as Chosen};

    ghost Value = { List (Option Chosen) };

    ghost view = { λ built. built.earlier.projects.items };
}

impl BuiltProjects {
    /// No projects.
    pub fn none(alloc: Global) -> BuiltProjects
        ensures { result ≡ [] }
    {
        BuiltProjects {
            earlier: Earlier::new(alloc),
        }
    }
}

/// The project, unless it waits.
fn lasting(project: Option<ChosenProject>) -> Option<ChosenProject>
    ensures { result ≡ lasting project }
{
    if waits_in(project.as_ref()) {
        None
    } else {
        project
    }
}

/// The projects, but those that wait.
fn all_lasting(
    alloc: Global,
    projects: Vec<Option<ChosenProject>>,
) -> Result<Vec<Option<ChosenProject>>, NoMemory>
    ensures { IfOk result (λ made. made.items ≡ map lasting projects.items) }
{
    let mut made = Vec::new(alloc);
    for project in projects {
        made.push(lasting(project))?;
    }
    Ok(made)
}

/// What was built in the last round, but what waits.
fn built_of(alloc: Global, earlier: Earlier) -> Result<BuiltProjects, NoMemory>
    ensures { IfOk result (λ made. made ≡ map lasting earlier.projects.items) }
{
    let Earlier { table, projects } = earlier;
    let projects = all_lasting(alloc, projects)?;
    Ok(BuiltProjects {
        earlier: Earlier { table, projects },
    })
}

/// The rounds, from where they waited: so many were done and gave these choices, over what was known
/// then or is known now. Projects that were built and wait for nothing are not built again; those of
/// the last round come back.
///
/// The progress is that of [`rounds_plain`](crate::rounds_plain).
pub fn rounds_on<L: Ledger>(
    alloc: Global,
    known: &Known,
    ask: &Ask,
    round: u32,
    choices: Choices,
    built: BuiltProjects,
    steps: &mut Steps<L>,
) -> Result<(Progress, BuiltProjects), NoMemory>
    requires repos { ask.now.repos ≡ known.now.repos }
    requires waited { Waited (known_of known.now.pairs) ask.now round choices.rows }
    requires lasting { AreLasting (known_of known.now.pairs) known.now.repos built }
    ensures value { IfOk result (λ made. made.0 ≡ rounds_of (known_of known.now.pairs) ask.now) }
    ensures lasting { IfOk result (λ made. AreLasting (known_of known.now.pairs) known.now.repos made.1) }
{
    let mut choices = choices;
    let BuiltProjects { mut earlier } = built;
    for done in round..ask.rounds {
        match take_turn(
            alloc,
            known,
            ask,
            done,
            done + 1,
            choices,
            &mut earlier,
            steps,
        )? {
            Turn::Ends(progress) => return Ok((progress, built_of(alloc, earlier)?)),
            Turn::On(later) => choices = later,
        }
    }
    Ok((
        Progress::Over(Verdict::Unsettled(ask.rounds)),
        built_of(alloc, earlier)?,
    ))
}
