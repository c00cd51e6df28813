//! Edges, with their rows.
ghost use Rattle.std.specs.Prelude.{◌≡◌, ◌+◌, ◌∷◌, [], ◌++◌, filter, map, IfOk, OnOk};
ghost use Rattle.std.specs.Option.{option_copied};
ghost use Rattle.round_core.specs.Edges.{all_edges as edges_of_all, edge_from, edges_in as edges_of_project, is_edge as edge_test, root_edges as edges_of_roots, root_row as row_of_root};

use super::projects::ChosenProject;
use pom_build::Build;
use reconcile_rules::Asker;
use res_base::{Coord, Copied, DepRecord, Exclusion, List, NoMemory, Text};
use scope_rules::{Configuration, kept};
use std::alloc::Global;

/// A dependency that is followed, and whose it is.
#[derive(Drop)]
pub(crate) struct RowEdge {
    pub source: Asker,
    pub row: DepRecord,
}

impl Copied for RowEdge {
    fn copy(&self, alloc: Global) -> Result<RowEdge, NoMemory> {
        Ok(RowEdge {
            source: self.source.copy(alloc)?,
            row: self.row.copy(alloc)?,
        })
    }
}

/// Whether a dependency of a project is followed: the configuration keeps it, and it is not of the
/// project's own module.
fn is_edge(configuration: Configuration, coord: &Coord, row: &DepRecord) -> bool
    ensures { result ≡ edge_test configuration coord.now row.now }
{
    kept(configuration, row) && row.module != coord.module
}

/// Puts an edge at the end of others, if the dependency is followed.
fn put_edge(
    alloc: Global,
    configuration: Configuration,
    coord: &Coord,
    made: &mut List<RowEdge>,
    row: &DepRecord,
) -> Result<(), NoMemory>
    ensures { OnOk result (made.new
        ≡ made.old ++ map (edge_from coord.now) (filter (edge_test configuration coord.now) (row.now ∷ []))) }
{
    if is_edge(configuration, coord, row) {
        return made.push(RowEdge {
            source: Asker::Project(coord.copy(alloc)?),
            row: row.copy(alloc)?,
        });
    }
    Ok(())
}

fn edges_of_rows(
    alloc: Global,
    configuration: Configuration,
    coord: &Coord,
    rows: &[DepRecord],
) -> Result<List<RowEdge>, NoMemory>
    ensures { IfOk result (λ made. made
        ≡ map (edge_from coord.now) (filter (edge_test configuration coord.now) rows.now)) }
{
    let mut made: List<RowEdge> = List::new(alloc);
    for row in rows {
        put_edge(alloc, configuration, coord, &mut made, row)?;
    }
    Ok(made)
}

/// The edges of a project. One that is not built has none.
fn edges_in(
    alloc: Global,
    configuration: Configuration,
    project: Option<&ChosenProject>,
) -> Result<List<RowEdge>, NoMemory>
    ensures { IfOk result (λ made. made ≡ edges_of_project configuration (option_copied project.entry)) }
{
    match project {
        None => Ok(List::new(alloc)),
        Some(project) => match &project.build {
            Build::Built(effective) => {
                let rows = effective.deps.as_slice();
                edges_of_rows(alloc, configuration, &project.coord, rows)
            }
            _ => Ok(List::new(alloc)),
        },
    }
}

/// The edges of each project.
pub(crate) fn all_edges(
    alloc: Global,
    configuration: Configuration,
    projects: &[Option<ChosenProject>],
) -> Result<List<List<RowEdge>>, NoMemory>
    ensures { IfOk result (λ made. made ≡ edges_of_all configuration projects.now) }
{
    let mut made: List<List<RowEdge>> = List::new(alloc);
    for project in projects {
        made.push(edges_in(alloc, configuration, project.as_ref())?)?;
    }
    Ok(made)
}

/// The row of a root: a jar, with what the words exclude.
fn root_row(alloc: Global, excludes: &List<Exclusion>, root: &Coord) -> Result<DepRecord, NoMemory>
    ensures { IfOk result (λ made. made ≡ row_of_root excludes.now root.now) }
{
    Ok(DepRecord {
        module: root.module.copy(alloc)?,
        version: root.version.copy(alloc)?,
        kind: Text::of(alloc, "jar")?,
        classifier: Text::new(alloc),
        scope: Text::of(alloc, "compile")?,
        optional: Text::new(alloc),
        exclusions: excludes.copy(alloc)?,
    })
}

/// The edges of the roots, in the order of the words.
pub(crate) fn root_edges(
    alloc: Global,
    excludes: &List<Exclusion>,
    roots: &[Coord],
) -> Result<List<RowEdge>, NoMemory>
    ensures { IfOk result (λ made. made ≡ edges_of_roots excludes.now 0 roots.now) }
{
    let mut made: List<RowEdge> = List::new(alloc);
    for (place, root) in roots.iter().enumerate() {
        made.push(RowEdge {
            source: Asker::Root(place as u64),
            row: root_row(alloc, excludes, root)?,
        })?;
    }
    Ok(made)
}
