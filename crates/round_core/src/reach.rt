//! What is reached from the roots, by live paths.
ghost use Rattle.std.specs.Prelude.{◌≡◌, ◌≤◌, ◌<◌, ◌+◌, ◌++◌, ◌-◌, [], true, All, IfOk, OnOk, length, map, replicate, sum_by};
ghost use Rattle.std.specs.Option.{option_copied};
ghost use Rattle.live_walk.specs.Numbers.{AreDistinct, AreHops, followed_by, hop_step, module_at};
ghost use Rattle.live_walk.specs.declared.hop.Hop.{Hop as HopEdge};
ghost use Rattle.res_base.specs.Known.{known_of};
ghost use Rattle.res_base.specs.declared.coord.Coord.{Coord as RootCoord};
ghost use Rattle.round_core.specs.Choices.{modules_of};
ghost use Rattle.round_core.specs.Earlier.{AreRight};
ghost use Rattle.round_core.specs.Edges.{target_of};
ghost use Rattle.round_core.specs.Projects.{steps_in};
ghost use Rattle.round_core.specs.Reaching.{HaveNumbers, project_for as project_of_module, reached_of, all_kept as all_edges_kept, flag_at, flags_at, kept as edges_kept, kept_if, names_of as names_for, roots_of, seen_graph, seen_last, step_of, with_targets as names_with_targets};
ghost use Rattle.round_core.specs.Tables.{has, named};
ghost use Rattle.round_core.specs.declared.reach.Reached.{Reached as ReachedNow};

use super::earlier::Earlier;
use super::edges::{RowEdge, all_edges, root_edges};
use super::numbers::ModuleTable;
use super::projects::{ChosenProject, chosen_projects, projects_of};
use exclusion_sets::{ExclSet, join_laws, within_laws};
use live_walk::{Hop, followed};
use project_lookup::Known;
use res_base::{Coord, Copied, List, Module, NoMemory, Steps};
use resolution::{Ask, ChoiceRow};
use std::alloc::Global;
use std::sync::ledger::Ledger;

/// The projects of a round, and the last edges of its live paths.
#[derive(Drop)]
pub(crate) struct Reached {
    /// The modules with choices, in module order.
    pub table: ModuleTable,
    /// By the numbers of their modules.
    pub projects: List<Option<ChosenProject>>,
    pub boms: List<ChosenProject>,
    /// Roots first, then by source module and by place of the row.
    pub last: List<RowEdge>,
}

fn with_rows(alloc: Global, table: ModuleTable, rows: &[ChoiceRow]) -> Result<ModuleTable, NoMemory>
    ensures { IfOk result (λ made. made ≡ named table (modules_of rows.now)) }
{
    let mut made = table;
    for row in rows {
        made = made.with(alloc, &row.module)?;
    }
    Ok(made)
}

fn with_roots(alloc: Global, table: ModuleTable, roots: &[Coord]) -> Result<ModuleTable, NoMemory>
    ensures { IfOk result (λ made. made ≡ named table (roots_of roots.now)) }
{
    let mut made = table;
    for root in roots {
        made = made.with(alloc, &root.module)?;
    }
    Ok(made)
}

fn with_targets(
    alloc: Global,
    table: ModuleTable,
    edges: &[RowEdge],
) -> Result<ModuleTable, NoMemory>
    ensures { IfOk result (λ made. made ≡ names_with_targets table edges.now) }
{
    let mut made = table;
    for edge in edges {
        made = made.with(alloc, &edge.row.module)?;
    }
    Ok(made)
}

/// All modules, with numbers.
fn names_of(
    alloc: Global,
    rows: &[ChoiceRow],
    roots: &[Coord],
    edges: &[List<RowEdge>],
) -> Result<ModuleTable, NoMemory>
    ensures { IfOk result (λ made. made ≡ names_for rows.now roots.now edges.now) }
{
    let chosen = with_rows(alloc, ModuleTable::new(alloc), rows)?;
    let mut made = with_roots(alloc, chosen, roots)?;
    for list in edges {
        made = with_targets(alloc, made, list.as_slice())?;
    }
    Ok(made)
}

/// An edge as the walk sees it.
fn hop_of(alloc: Global, table: &ModuleTable, edge: &RowEdge) -> Result<Hop, NoMemory>
    requires { has table.now (target_of edge.now) ≡ true }
    ensures step { IfOk result (λ made. hop_step table.now made ≡ step_of edge.now) }
    ensures fits { IfOk result (λ (made : HopEdge). made.to < length table.now) }
{
    let excluded = ExclSet {
        rules: edge.row.exclusions.copy(alloc)?,
    };
    let to = table.number_of(&edge.row.module).unwrap();
    Ok(Hop { to, excluded })
}

fn hops_of(alloc: Global, table: &ModuleTable, edges: &[RowEdge]) -> Result<List<Hop>, NoMemory>
    requires { HaveNumbers table.now edges.now }
    ensures steps { IfOk result (λ made. map (hop_step table.now) made ≡ map step_of edges.now) }
    ensures fits { IfOk result (λ made. AreHops (length table.now) made) }
{
    let mut made: List<Hop> = List::new(alloc);
    for edge in edges {
        made.push(hop_of(alloc, table, edge)?)?;
    }
    Ok(made)
}

/// The edges of all modules as the walk sees them: of those with choices, and none of the others.
fn out_of(
    alloc: Global,
    table: &ModuleTable,
    edges: &[List<RowEdge>],
) -> Result<List<List<Hop>>, NoMemory>
    requires { All (λ list. HaveNumbers table.now list) edges.now }
    ensures steps { IfOk result (λ made. map (map (hop_step table.now)) made ≡ map (map step_of) edges.now) }
    ensures fits { IfOk result (λ made. All (λ hops. AreHops (length table.now) hops) made) }
{
    let mut made: List<List<Hop>> = List::new(alloc);
    for list in edges {
        made.push(hops_of(alloc, table, list.as_slice())?)?;
    }
    Ok(made)
}

/// With rows of no edges for the modules without choices.
fn padded(alloc: Global, out: List<List<Hop>>, count: usize) -> Result<List<List<Hop>>, NoMemory>
    requires { length out ≤ count }
    ensures { IfOk result (λ made. made ≡ out ++ replicate (count - length out) []) }
{
    let mut made = out;
    for _row in made.len()..count {
        made.push(List::new(alloc))?;
    }
    Ok(made)
}

fn root_number(table: &ModuleTable, root: &Coord) -> usize
    requires { has table.now root.now.«module» ≡ true }
    ensures names { module_at table.now result ≡ root.now.«module» }
    ensures fits { result < length table.now }
{
    table.number_of(&root.module).unwrap()
}

fn root_numbers(
    alloc: Global,
    table: &ModuleTable,
    roots: &[Coord],
) -> Result<List<usize>, NoMemory>
    requires { All (λ (c : RootCoord). has table.now c.«module» ≡ true) roots.now }
    ensures names { IfOk result (λ made. map (module_at table.now) made ≡ roots_of roots.now) }
    ensures fits { IfOk result (λ made. All (λ to. to < length table.now) made) }
{
    let mut made: List<usize> = List::new(alloc);
    for root in roots {
        made.push(root_number(table, root))?;
    }
    Ok(made)
}

/// Whether the flag at a place is set.
fn is_set(flags: &[bool], place: usize) -> bool
    ensures { result ≡ flag_at flags.now place }
{
    match flags.get(place) {
        None => false,
        Some(flag) => *flag,
    }
}

/// Puts an edge at the end of others, if its flag is set.
fn put_kept(
    alloc: Global,
    made: &mut List<RowEdge>,
    edge: &RowEdge,
    flag: bool,
) -> Result<(), NoMemory>
    ensures { OnOk result (made.new ≡ made.old ++ kept_if flag edge.now) }
{
    if flag {
        return made.push(edge.copy(alloc)?);
    }
    Ok(())
}

/// Puts the edges whose flags are set at the end of others.
fn keep(
    alloc: Global,
    made: &mut List<RowEdge>,
    edges: &[RowEdge],
    flags: &[bool],
) -> Result<(), NoMemory>
    ensures { OnOk result (made.new ≡ made.old ++ edges_kept edges.now flags.now) }
{
    for (place, edge) in edges.iter().enumerate() {
        put_kept(alloc, made, edge, is_set(flags, place))?;
    }
    Ok(())
}

/// The flags at a place.
fn row_of(flags: &[List<bool>], place: usize) -> &[bool]
    ensures { result.now ≡ flags_at flags.now place }
{
    match flags.get(place) {
        None => &[],
        Some(row) => row.as_slice(),
    }
}

/// The edges of the roots, and those of the others whose flags are set.
fn all_kept(
    alloc: Global,
    roots: List<RowEdge>,
    edges: &[List<RowEdge>],
    flags: &[List<bool>],
) -> Result<List<RowEdge>, NoMemory>
    ensures { IfOk result (λ made. made ≡ roots ++ all_edges_kept edges.now flags.now) }
{
    let mut made = roots;
    for (place, list) in edges.iter().enumerate() {
        keep(alloc, &mut made, list.as_slice(), row_of(flags, place))?;
    }
    Ok(made)
}

/// Which edges of the modules in a table are the last edges of live paths.
fn flags_of(
    alloc: Global,
    ask: &Ask,
    table: &ModuleTable,
    edges: &[List<RowEdge>],
) -> Result<List<List<bool>>, NoMemory>
    requires rows { length edges.now ≤ length table.now }
    requires distinct { AreDistinct table.now }
    requires roots { All (λ (c : RootCoord). has table.now c.«module» ≡ true) ask.now.roots }
    requires edges { All (λ list. HaveNumbers table.now list) edges.now }
    ensures { IfOk result (λ made. made
        ≡ followed_by (seen_graph table.now ask.now.excludes ask.now.roots edges.now) table.now) }
{
    let roots = root_numbers(alloc, table, ask.roots.as_slice())?;
    let out = out_of(alloc, table, edges)?;
    let out = padded(alloc, out, table.names().len())?;
    let excluded = ExclSet {
        rules: ask.excludes.copy(alloc)?,
    };
    followed(
        alloc,
        table.names(),
        &excluded,
        roots.as_slice(),
        out.as_slice(),
    )
}

/// The last edges of live paths.
fn last_of(
    alloc: Global,
    ask: &Ask,
    table: &ModuleTable,
    edges: List<List<RowEdge>>,
) -> Result<List<RowEdge>, NoMemory>
    requires rows { length edges ≤ length table.now }
    requires distinct { AreDistinct table.now }
    requires roots { All (λ (c : RootCoord). has table.now c.«module» ≡ true) ask.now.roots }
    requires edges { All (λ list. HaveNumbers table.now list) edges }
    ensures { IfOk result (λ made. made ≡ seen_last table.now ask.now.excludes ask.now.roots edges) }
{
    let flags = flags_of(alloc, ask, table, edges.as_slice())?;
    let roots = root_edges(alloc, &ask.excludes, ask.roots.as_slice())?;
    all_kept(alloc, roots, edges.as_slice(), flags.as_slice())
}

/// The last edges of live paths over what is chosen, by the edges of each row.
fn last_at(
    alloc: Global,
    ask: &Ask,
    rows: &[ChoiceRow],
    edges: List<List<RowEdge>>,
) -> Result<List<RowEdge>, NoMemory>
    requires size { length edges ≡ length rows.now }
    requires distinct { AreDistinct (modules_of rows.now) }
    ensures { IfOk result (λ made. made
        ≡ seen_last (names_for rows.now ask.now.roots edges) ask.now.excludes ask.now.roots edges) }
{
    let table = names_of(alloc, rows, ask.roots.as_slice(), edges.as_slice())?;
    last_of(alloc, ask, &table, edges)
}

impl Reached {
    /// The project that is chosen for a module.
    pub fn project_for(&self, module: &Module) -> Option<&ChosenProject>
        ensures { option_copied result ≡ project_of_module self.now «module».now }
    {
        match self.table.number_of(module) {
            None => None,
            Some(number) => match self.projects.get(number) {
                None => None,
                Some(project) => project.as_ref(),
            },
        }
    }
}

/// All that is reached at these choices. Projects that were built before are taken.
pub(crate) fn reach_all<L: Ledger>(
    alloc: Global,
    known: &Known,
    ask: &Ask,
    earlier: Earlier,
    rows: &[ChoiceRow],
    steps: &mut Steps<L>,
) -> Result<Reached, NoMemory>
    requires repos { ask.now.repos ≡ known.now.repos }
    requires right { AreRight (known_of known.now.pairs) known.now.repos earlier.projects.items }
    requires distinct { AreDistinct (modules_of rows.now) }
    ensures value { IfOk result (λ made. made ≡ reached_of (known_of known.now.pairs) ask.now rows.now) }
    ensures steps { IfOk result (λ (made : ReachedNow). steps.old + sum_by steps_in made.projects ≤ steps.new) }
{
    within_laws();
    join_laws();
    let projects = chosen_projects(alloc, known, earlier, rows, steps)?;
    let boms = projects_of(alloc, known, ask.boms.as_slice(), steps)?;
    let edges = all_edges(alloc, ask.configuration, projects.as_slice())?;
    let last = last_at(alloc, ask, rows, edges)?;
    let table = with_rows(alloc, ModuleTable::new(alloc), rows)?;
    Ok(Reached {
        table,
        projects,
        boms,
        last,
    })
}
