//! The effective project.
ghost use Rattle.std.specs.Prelude.{◌≡◌, ◌∷◌, [], ◌+◌, IfOk, OnErr};
ghost use Rattle.pom_build.specs.Effectives.{deps_by, effective_in, effective_of, moved_row as row_of_moved, steps_of};
ghost use Rattle.pom_build.specs.Filling.{filled_moved as moved_with_values};
ghost use Rattle.pom_build.specs.Imports.{managed_from, managed_with as rows_with};
ghost use Rattle.pom_build.specs.Names.{fill_in};
ghost use Rattle.pom_build.specs.Outcomes.{and_then, build_of};
ghost use Rattle.res_base.specs.Known.{known_of};
ghost use Rattle.row_lists.specs.RowLists.{or_text};

use super::build::{Build, Effective};
use super::filled::filled_deps;
use super::imports::managed_with;
use super::line::{Line, line_of};
use super::names::NamedLine;
use super::outcome::Outcome;
use project_lookup::Known;
use res_base::{Coord, Copied, DepRecord, List, Module, Moved, NoMemory, Steps, Text};
use row_lists::RowTable;
use std::alloc::Global;
use std::sync::ledger::Ledger;

/// How many projects may stand behind a project in a chain of imports: 32 in all.
const MOST_IMPORTS: u32 = 31;

/// The texts of a relocation, filled.
fn filled_moved(alloc: Global, named: &NamedLine<'_>, to: &Moved) -> Result<Moved, NoMemory>
    ensures { IfOk result (λ made. made ≡ moved_with_values (fill_in named.now) to.now) }
{
    Ok(Moved {
        org: named.fill(alloc, &to.org)?,
        name: named.fill(alloc, &to.name)?,
        version: named.fill(alloc, &to.version)?,
    })
}

/// The text, or a copy of another where it is absent.
fn text_or(alloc: Global, text: Text, other: &Text) -> Result<Text, NoMemory>
    ensures { IfOk result (λ made. made ≡ or_text text other.now) }
{
    if text.is_empty() {
        return other.copy(alloc);
    }
    Ok(text)
}

/// The one dependency of a project that has moved.
fn moved_row(alloc: Global, coord: &Coord, to: Moved) -> Result<DepRecord, NoMemory>
    ensures { IfOk result (λ made. made ≡ row_of_moved coord.now to) }
{
    let Moved { org, name, version } = to;
    Ok(DepRecord {
        module: Module {
            org: text_or(alloc, org, &coord.module.org)?,
            name: text_or(alloc, name, &coord.module.name)?,
        },
        version: text_or(alloc, version, &coord.version)?,
        kind: Text::of(alloc, "jar")?,
        classifier: Text::new(alloc),
        scope: Text::of(alloc, "compile")?,
        optional: Text::new(alloc),
        exclusions: List::new(alloc),
    })
}

/// The dependencies of a project with a relocation, if there is one, and with these managed rows.
fn deps(
    alloc: Global,
    named: &NamedLine<'_>,
    moved: &Option<Moved>,
    managed: &RowTable,
) -> Result<List<DepRecord>, NoMemory>
    ensures { IfOk result (λ made. made ≡ deps_by moved.now named.now managed.now) }
{
    match moved {
        None => managed.all_managed(alloc, filled_deps(alloc, named)?),
        Some(to) => {
            let to = filled_moved(alloc, named, to)?;
            let mut rows: List<DepRecord> = List::new(alloc);
            rows.push(moved_row(alloc, &named.line().own.coord, to)?)?;
            Ok(rows)
        }
    }
}

/// The project with its managed rows.
fn with_managed(
    alloc: Global,
    named: &NamedLine<'_>,
    managed: RowTable,
) -> Result<Effective, NoMemory>
    ensures { IfOk result (λ made. made ≡ effective_in named.now managed) }
{
    let own = &named.line().own;
    let coord = own.coord.copy(alloc)?;
    let packaging = named.fill(alloc, &own.pom.packaging)?;
    let deps = deps(alloc, named, &own.pom.moved, &managed)?;
    Ok(Effective {
        coord,
        repo: own.repo,
        packaging,
        deps,
        managed: managed.into_rows(),
        moved: own.pom.moved.is_some(),
    })
}

/// What is said of a project by what is said of its managed rows.
fn by_managed(
    alloc: Global,
    named: &NamedLine<'_>,
    managed: Outcome<RowTable>,
) -> Result<Build, NoMemory>
    ensures { IfOk result (λ made. made ≡ build_of (and_then managed (λ rows. Outcome.Built (effective_in named.now rows)))) }
{
    match managed {
        Outcome::Built(rows) => Ok(Build::Built(with_managed(alloc, named, rows)?)),
        Outcome::Needs(keys) => Ok(Build::Needs(keys)),
        Outcome::NotFound(why) => Ok(Build::NotFound(why)),
        Outcome::Refused(fault) => Ok(Build::Refused(fault)),
    }
}

/// The project with a line, where a chain of imports may have so many projects behind it.
fn by_line(
    alloc: Global,
    known: &Known,
    coord: &Coord,
    line: Line<'_>,
    most: u32,
) -> Result<Build, NoMemory>
    ensures { IfOk result (λ made. made ≡ build_of (and_then (rows_with (managed_from (known_of known.now.pairs) known.now.repos most (coord.now ∷ [])) line.entry) (λ rows. Outcome.Built (effective_in line.entry rows)))) }
{
    let named = NamedLine::of(alloc, line)?;
    let managed = managed_with(alloc, known, most, coord, &named)?;
    by_managed(alloc, &named, managed)
}

#[tactic(auto, unfolding(crate::specs::Effectives::effective_of))]
fn built(alloc: Global, known: &Known, coord: &Coord) -> Result<Build, NoMemory>
    ensures { IfOk result (λ made. made ≡ effective_of (known_of known.now.pairs) known.now.repos coord.now) }
{
    match line_of(alloc, known, coord)? {
        Outcome::Built(line) => by_line(alloc, known, coord, line, MOST_IMPORTS),
        Outcome::Needs(keys) => Ok(Build::Needs(keys)),
        Outcome::NotFound(why) => Ok(Build::NotFound(why)),
        Outcome::Refused(fault) => Ok(Build::Refused(fault)),
    }
}

/// The effective project of a coordinate over what is known, by the rules of the Maven POM
/// reference. It takes one step where it is built, and none at any other answer.
pub fn effective<L: Ledger>(
    alloc: Global,
    known: &Known,
    coord: &Coord,
    steps: &mut Steps<L>,
) -> Result<Build, NoMemory>
    ensures value { IfOk result (λ made. made ≡ effective_of (known_of known.now.pairs) known.now.repos coord.now) }
    ensures steps { IfOk result (λ made. steps.new ≡ steps.old + steps_of made) }
    ensures unchanged { OnErr result (steps.new ≡ steps.old) }
{
    let build = built(alloc, known, coord)?;
    match build {
        Build::Built(project) => {
            steps.tick();
            Ok(Build::Built(project))
        }
        other => Ok(other),
    }
}
