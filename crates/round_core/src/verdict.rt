//! The verdict of settled choices.
ghost use Rattle.std.specs.Prelude.{◌≡◌, ◌++◌, map, IfOk, OnOk};
ghost use Rattle.std.specs.BTreeMap.{insert_entry};
ghost use Rattle.std.specs.Option.{option_copied};
ghost use Rattle.round_core.specs.Steering.{steer as versions_of};
ghost use Rattle.round_core.specs.Verdicts.{clash_at, clashes_in as clashes_for, coord_cmp, edge_in as edge_for, edges_in as edges_for, fault_row, faults_in as faults_for, node_in as node_for, nodes_in as nodes_for, place_in as place_for, settled_in as settled_for, source_in as source_for, unless_failed as unless_failing, verdict_in as verdict_for, with_chosen as faults_with_chosen, with_project as faults_with_project};

use super::edges::RowEdge;
use super::projects::ChosenProject;
use super::reach::Reached;
use super::requests::AskedTable;
use super::steer::{Steer, steer_of, text_of};
use pom_build::Build;
use reconcile_rules::Asker;
use res_base::{Coord, Copied, List, Module, NoMemory};
use resolution::{
    Ask, Choice, ChoiceRow, ClashRow, Edge, FaultRow, Node, ProjectFault, Settled, Verdict,
};
use std::alloc::Global;
use std::collections::BTreeMap;
use std::marker::Model;

/// Puts a clash at the end of others, with what is asked of its module.
fn put_clash(
    alloc: Global,
    asked: &AskedTable,
    made: &mut List<ClashRow>,
    row: &ChoiceRow,
) -> Result<(), NoMemory>
    ensures { OnOk result (made.new ≡ made.old ++ clash_at asked.now row.now) }
{
    match &row.choice {
        Choice::Version(_) => Ok(()),
        Choice::Clash(clash) => made.push(ClashRow {
            module: row.module.copy(alloc)?,
            clash: *clash,
            requests: asked.requests_in(alloc, &row.module)?,
        }),
    }
}

fn clashes_in(
    alloc: Global,
    asked: &AskedTable,
    rows: &[ChoiceRow],
) -> Result<List<ClashRow>, NoMemory>
    ensures { IfOk result (λ made. made ≡ clashes_for asked.now rows.now) }
{
    let mut made: List<ClashRow> = List::new(alloc);
    for row in rows {
        put_clash(alloc, asked, &mut made, row)?;
    }
    Ok(made)
}

/// Projects that are not there, by module and then by version. Contracts see the list of them.
#[derive(Drop)]
pub(crate) struct FaultTable {
    faults: BTreeMap<Coord, ProjectFault>,
}

impl Model for FaultTable {
    ghost use Rattle.round_core.specs.Verdicts.{Faults};

    ghost Value = { Faults };

    ghost view = { λ table. table.faults.entries };
}

impl FaultTable {
    fn with_fault(
        self,
        alloc: Global,
        coord: &Coord,
        fault: ProjectFault,
    ) -> Result<FaultTable, NoMemory>
        ensures { IfOk result (λ made. made ≡ insert_entry coord_cmp self coord.now fault) }
    {
        let FaultTable { mut faults } = self;
        faults.insert(coord.copy(alloc)?, fault)?;
        Ok(FaultTable { faults })
    }

    fn with_project(self, alloc: Global, project: &ChosenProject) -> Result<FaultTable, NoMemory>
        ensures { IfOk result (λ made. made ≡ faults_with_project self project.now) }
    {
        match &project.build {
            Build::Built(_) | Build::Needs(_) => Ok(self),
            Build::NotFound(why) => {
                let fault = ProjectFault::NotFound(why.copy(alloc)?);
                self.with_fault(alloc, &project.coord, fault)
            }
            Build::Refused(fault) => {
                let fault = ProjectFault::Refused(fault.copy(alloc)?);
                self.with_fault(alloc, &project.coord, fault)
            }
        }
    }

    fn with_chosen(
        self,
        alloc: Global,
        project: Option<&ChosenProject>,
    ) -> Result<FaultTable, NoMemory>
        ensures { IfOk result (λ made. made ≡ faults_with_chosen self (option_copied project.entry)) }
    {
        match project {
            None => Ok(self),
            Some(project) => self.with_project(alloc, project),
        }
    }

    /// What is not there of what is chosen and of the BOMs.
    fn of(alloc: Global, reached: &Reached) -> Result<FaultTable, NoMemory>
        ensures { IfOk result (λ made. made ≡ faults_for reached.now) }
    {
        let mut made = FaultTable {
            faults: BTreeMap::new(alloc),
        };
        for project in reached.boms.as_slice() {
            made = made.with_project(alloc, project)?;
        }
        for chosen in reached.projects.as_slice() {
            made = made.with_chosen(alloc, chosen.as_ref())?;
        }
        Ok(made)
    }

    fn into_rows(self, alloc: Global) -> Result<List<FaultRow>, NoMemory>
        ensures { IfOk result (λ made. made ≡ map fault_row self) }
    {
        let FaultTable { faults } = self;
        let mut made: List<FaultRow> = List::new(alloc);
        for (coord, fault) in faults {
            made.push(FaultRow { coord, fault })?;
        }
        Ok(made)
    }
}

/// Puts the node of a project at the end of others, if it is built.
fn put_node(
    alloc: Global,
    made: &mut List<Node>,
    project: Option<&ChosenProject>,
) -> Result<(), NoMemory>
    ensures { OnOk result (made.new ≡ made.old ++ node_for (option_copied project.entry)) }
{
    match project {
        None => Ok(()),
        Some(project) => match &project.build {
            Build::Built(effective) => made.push(Node {
                coord: effective.coord.copy(alloc)?,
                repo: effective.repo,
                packaging: effective.packaging.copy(alloc)?,
                moved: effective.moved,
            }),
            _ => Ok(()),
        },
    }
}

fn nodes_in(alloc: Global, reached: &Reached) -> Result<List<Node>, NoMemory>
    ensures { IfOk result (λ made. made ≡ nodes_for reached.now) }
{
    let mut made: List<Node> = List::new(alloc);
    for project in reached.projects.as_slice() {
        put_node(alloc, &mut made, project.as_ref())?;
    }
    Ok(made)
}

/// The place of a module's node.
fn place_in(reached: &Reached, module: &Module) -> u64
    ensures { result ≡ place_for reached.now «module».now }
{
    match reached.table.number_of(module) {
        None => 0,
        Some(number) => number as u64,
    }
}

fn source_in(reached: &Reached, source: &Asker) -> Option<u64>
    ensures { result ≡ source_for reached.now source.now }
{
    match source {
        Asker::Root(_) => None,
        Asker::Project(coord) => Some(place_in(reached, &coord.module)),
    }
}

fn edge_in(
    alloc: Global,
    roots: &[Coord],
    steer: &Steer,
    reached: &Reached,
    edge: &RowEdge,
) -> Result<Edge, NoMemory>
    ensures { IfOk result (λ made. made ≡ edge_for roots.now steer.now reached.now edge.now) }
{
    Ok(Edge {
        source: source_in(reached, &edge.source),
        target: place_in(reached, &edge.row.module),
        asked: text_of(alloc, roots, steer, edge)?,
        kind: edge.row.kind.copy(alloc)?,
        classifier: edge.row.classifier.copy(alloc)?,
    })
}

fn edges_in(
    alloc: Global,
    roots: &[Coord],
    steer: &Steer,
    reached: &Reached,
) -> Result<List<Edge>, NoMemory>
    ensures { IfOk result (λ made. made ≡ edges_for roots.now steer.now reached.now) }
{
    let mut made: List<Edge> = List::new(alloc);
    for edge in reached.last.as_slice() {
        made.push(edge_in(alloc, roots, steer, reached, edge)?)?;
    }
    Ok(made)
}

fn settled_in(
    alloc: Global,
    roots: &[Coord],
    steer: &Steer,
    round: u32,
    reached: &Reached,
) -> Result<Settled, NoMemory>
    requires { steer.now ≡ versions_of roots.now reached.now }
    ensures { IfOk result (λ made. made ≡ settled_for roots.now round reached.now) }
{
    Ok(Settled {
        round,
        nodes: nodes_in(alloc, reached)?,
        edges: edges_in(alloc, roots, steer, reached)?,
    })
}

/// What is settled, unless some project is not there.
fn unless_failed(
    alloc: Global,
    roots: &[Coord],
    steer: &Steer,
    round: u32,
    reached: &Reached,
) -> Result<Verdict, NoMemory>
    requires { steer.now ≡ versions_of roots.now reached.now }
    ensures { IfOk result (λ made. made
        ≡ unless_failing (map fault_row (faults_for reached.now)) (settled_for roots.now round reached.now)) }
{
    let failed = FaultTable::of(alloc, reached)?.into_rows(alloc)?;
    if failed.is_empty() {
        let settled = settled_in(alloc, roots, steer, round, reached)?;
        return Ok(Verdict::Settled(settled));
    }
    Ok(Verdict::Failed(failed))
}

/// The verdict of choices that have settled in a round: their clashes, else the projects that are
/// not there, else what is settled.
pub(crate) fn verdict_in(
    alloc: Global,
    ask: &Ask,
    round: u32,
    rows: &[ChoiceRow],
    reached: &Reached,
) -> Result<Verdict, NoMemory>
    ensures { IfOk result (λ made. made ≡ verdict_for ask.now.roots round rows.now reached.now) }
{
    let roots = ask.roots.as_slice();
    let steer = steer_of(alloc, roots, reached)?;
    let asked = AskedTable::of(alloc, roots, &steer, reached.last.as_slice())?;
    let clashes = clashes_in(alloc, &asked, rows)?;
    if clashes.is_empty() {
        return unless_failed(alloc, roots, &steer, round, reached);
    }
    Ok(Verdict::Clashes(clashes))
}
