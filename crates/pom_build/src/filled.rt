//! Rows of dependencies with their texts filled.
ghost use Rattle.std.specs.Prelude.{◌≡◌, map, IfOk};
ghost use Rattle.pom_build.specs.Effectives.{filled_deps as all_filled_deps};
ghost use Rattle.pom_build.specs.Filling.{filled_exclusion, filled_row as row_with_values};
ghost use Rattle.pom_build.specs.Imports.{managed_rows as all_managed_rows};
ghost use Rattle.pom_build.specs.Lines.{projects_of};
ghost use Rattle.pom_build.specs.Names.{fill_in};

use super::line::Line;
use super::names::NamedLine;
use res_base::{DepRecord, Exclusion, List, Module, NoMemory};
use row_lists::{joined, last_of_key};
use std::alloc::Global;

fn filled_exclusions(
    alloc: Global,
    named: &NamedLine<'_>,
    rules: &List<Exclusion>,
) -> Result<List<Exclusion>, NoMemory>
    ensures { IfOk result (λ made. made ≡ map (filled_exclusion (fill_in named.now)) rules.now) }
{
    let mut made: List<Exclusion> = List::new(alloc);
    for rule in rules.as_slice() {
        let org = named.fill(alloc, &rule.org)?;
        let name = named.fill(alloc, &rule.name)?;
        made.push(Exclusion { org, name })?;
    }
    Ok(made)
}

fn filled_row(alloc: Global, named: &NamedLine<'_>, row: &DepRecord) -> Result<DepRecord, NoMemory>
    ensures { IfOk result (λ made. made ≡ row_with_values (fill_in named.now) row.now) }
{
    Ok(DepRecord {
        module: Module {
            org: named.fill(alloc, &row.module.org)?,
            name: named.fill(alloc, &row.module.name)?,
        },
        version: named.fill(alloc, &row.version)?,
        kind: named.fill(alloc, &row.kind)?,
        classifier: named.fill(alloc, &row.classifier)?,
        scope: named.fill(alloc, &row.scope)?,
        optional: named.fill(alloc, &row.optional)?,
        exclusions: filled_exclusions(alloc, named, &row.exclusions)?,
    })
}

fn filled_rows(
    alloc: Global,
    named: &NamedLine<'_>,
    rows: &[&DepRecord],
) -> Result<List<DepRecord>, NoMemory>
    ensures { IfOk result (λ made. made ≡ map (row_with_values (fill_in named.now)) (map (λ row. row.now) rows.now)) }
{
    let mut made: List<DepRecord> = List::new(alloc);
    for row in rows {
        made.push(filled_row(alloc, named, row)?)?;
    }
    Ok(made)
}

/// The managed rows of a line, own rows first, as written.
fn managed_lists<'a>(
    alloc: Global,
    line: &'a Line<'_>,
) -> Result<Vec<&'a List<DepRecord>>, NoMemory>
    ensures { IfOk result (λ made. map (λ list. list.now) made.items ≡ map (λ project. project.pom.managed) (projects_of line.now)) }
{
    let mut lists: Vec<&'a List<DepRecord>> = Vec::new(alloc);
    lists.push(&line.own.pom.managed)?;
    for project in line.parents.as_slice() {
        lists.push(&project.pom.managed)?;
    }
    Ok(lists)
}

/// The dependencies of a line, own rows first, as written.
fn dep_lists<'a>(alloc: Global, line: &'a Line<'_>) -> Result<Vec<&'a List<DepRecord>>, NoMemory>
    ensures { IfOk result (λ made. map (λ list. list.now) made.items ≡ map (λ project. project.pom.deps) (projects_of line.now)) }
{
    let mut lists: Vec<&'a List<DepRecord>> = Vec::new(alloc);
    lists.push(&line.own.pom.deps)?;
    for project in line.parents.as_slice() {
        lists.push(&project.pom.deps)?;
    }
    Ok(lists)
}

/// The managed rows of a line: joined as written, then filled, imports among them.
#[tactic(auto, unfolding(crate::specs::Imports::managed_rows))]
pub(crate) fn managed_rows(
    alloc: Global,
    named: &NamedLine<'_>,
) -> Result<List<DepRecord>, NoMemory>
    ensures { IfOk result (λ made. made ≡ all_managed_rows named.now) }
{
    let lists = managed_lists(alloc, named.line())?;
    let rows = joined(alloc, &lists)?;
    last_of_key(alloc, filled_rows(alloc, named, &rows)?)
}

/// The dependencies of a line: joined as written, then filled.
#[tactic(auto, unfolding(crate::specs::Effectives::filled_deps))]
pub(crate) fn filled_deps(alloc: Global, named: &NamedLine<'_>) -> Result<List<DepRecord>, NoMemory>
    ensures { IfOk result (λ made. made ≡ all_filled_deps named.now) }
{
    let lists = dep_lists(alloc, named.line())?;
    let rows = joined(alloc, &lists)?;
    last_of_key(alloc, filled_rows(alloc, named, &rows)?)
}
