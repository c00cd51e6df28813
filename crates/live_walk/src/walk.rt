//! The walk by levels.
ghost use Rattle.std.specs.Prelude.{◌≡◌, ◌<◌, [], All, IfOk, OnOk, length, map, not, replicate};
ghost use Rattle.std.specs.List.{list_any};
ghost use Rattle.exclusion_sets.specs.Exclusions.{is_excluded, is_within};
ghost use Rattle.live_walk.specs.Numbers.{AreDistinct, AreHops, AreWork, bare_graph, followed_by, hop_graph, hop_step, item_of, lets_of, lets_row, module_at, out_graph, root_step, sets_of, state_of, table_of};
ghost use Rattle.live_walk.specs.Walks.{after_edges, after_item, after_items, after_levels, after_roots, put as put_set, put_edge};
ghost use Rattle.res_base.specs.Names.{module_eq};

use super::hop::Hop;
use super::inner::inner_out;
use super::least::LeastSets;
use super::marked::MarkedSet;
use super::put::put_in;
use exclusion_sets::{ExclSet, join_laws, within_laws};
use res_base::{Copied, List, Module, NoMemory};
use std::alloc::Global;

/// A module that was reached under a set, and whose edges are to be followed.
#[derive(Drop)]
pub(crate) struct Work {
    pub place: usize,
    pub set: MarkedSet,
}

fn module_of(modules: &[Module], place: usize) -> &Module
    requires { place < length modules.now }
    ensures { result.now ≡ module_at modules.now place }
{
    &modules[place]
}

/// Puts a set to a module. Where it is new, the module's edges are to be followed in the next
/// level.
fn put(
    alloc: Global,
    modules: &[Module],
    table: &mut [LeastSets],
    next: &mut List<Work>,
    place: usize,
    set: MarkedSet,
) -> Result<(), NoMemory>
    requires size { length modules.now ≡ length table.old }
    requires distinct { AreDistinct modules.now }
    requires place { place < length table.old }
    requires work { AreWork (length table.old) next.old }
    ensures size { length table.new ≡ length table.old }
    ensures work { AreWork (length table.old) next.new }
    ensures put { OnOk result (state_of modules.now table.new next.new
        ≡ put_set module_eq is_within (state_of modules.now table.old next.old) (module_at modules.now place) set) }
{
    let again = set.copy(alloc)?;
    if put_in(alloc, &mut table[place], set)? {
        return next.push(Work { place, set: again });
    }
    Ok(())
}

/// Follows an edge of a module that was reached under a set.
fn follow_edge(
    alloc: Global,
    modules: &[Module],
    table: &mut [LeastSets],
    next: &mut List<Work>,
    set: &MarkedSet,
    hop: &Hop,
) -> Result<(), NoMemory>
    requires size { length modules.now ≡ length table.old }
    requires distinct { AreDistinct modules.now }
    requires to { hop.now.to < length table.old }
    requires work { AreWork (length table.old) next.old }
    ensures size { length table.new ≡ length table.old }
    ensures work { AreWork (length table.old) next.new }
    ensures after { OnOk result (state_of modules.now table.new next.new
        ≡ put_edge bare_graph is_within set.now (state_of modules.now table.old next.old)
        (hop_step modules.now hop.now)) }
{
    if set.excludes(module_of(modules, hop.to)) {
        return Ok(());
    }
    put(
        alloc,
        modules,
        table,
        next,
        hop.to,
        set.join(alloc, &hop.excluded)?,
    )
}

/// Follows the edges of a module that was reached under a set.
fn follow(
    alloc: Global,
    modules: &[Module],
    table: &mut [LeastSets],
    next: &mut List<Work>,
    set: &MarkedSet,
    hops: &[Hop],
) -> Result<(), NoMemory>
    requires size { length modules.now ≡ length table.old }
    requires distinct { AreDistinct modules.now }
    requires hops { AreHops (length table.old) hops.now }
    requires work { AreWork (length table.old) next.old }
    ensures size { length table.new ≡ length table.old }
    ensures work { AreWork (length table.old) next.new }
    ensures after { OnOk result (state_of modules.now table.new next.new
        ≡ after_edges bare_graph is_within set.now (state_of modules.now table.old next.old)
        (map (hop_step modules.now) hops.now)) }
{
    for hop in hops {
        follow_edge(alloc, modules, table, next, set, hop)?;
    }
    Ok(())
}

/// Follows the edges of one module.
fn follow_item(
    alloc: Global,
    modules: &[Module],
    out: &[List<Hop>],
    table: &mut [LeastSets],
    next: &mut List<Work>,
    item: &Work,
) -> Result<(), NoMemory>
    requires size { length modules.now ≡ length table.old }
    requires rows { length out.now ≡ length modules.now }
    requires distinct { AreDistinct modules.now }
    requires out { All (λ hops. AreHops (length modules.now) hops) out.now }
    requires place { item.now.place < length table.old }
    requires next { AreWork (length table.old) next.old }
    ensures size { length table.new ≡ length table.old }
    ensures next { AreWork (length table.old) next.new }
    ensures after { OnOk result (state_of modules.now table.new next.new
        ≡ after_item (out_graph modules.now out.now) is_within (state_of modules.now table.old next.old)
        (item_of modules.now item.now)) }
{
    let hops = out[item.place].as_slice();
    follow(alloc, modules, table, next, &item.set, hops)
}

/// Follows the edges of all that was reached in a level.
fn follow_all(
    alloc: Global,
    modules: &[Module],
    out: &[List<Hop>],
    table: &mut [LeastSets],
    next: &mut List<Work>,
    work: &[Work],
) -> Result<(), NoMemory>
    requires size { length modules.now ≡ length table.old }
    requires rows { length out.now ≡ length modules.now }
    requires distinct { AreDistinct modules.now }
    requires out { All (λ hops. AreHops (length modules.now) hops) out.now }
    requires work { AreWork (length table.old) work.now }
    requires next { AreWork (length table.old) next.old }
    ensures size { length table.new ≡ length table.old }
    ensures next { AreWork (length table.old) next.new }
    ensures after { OnOk result (state_of modules.now table.new next.new
        ≡ after_items (out_graph modules.now out.now) is_within (state_of modules.now table.old next.old)
        (map (item_of modules.now) work.now)) }
{
    for item in work {
        follow_item(alloc, modules, out, table, next, item)?;
    }
    Ok(())
}

/// Puts the exclusions of the roots to their modules.
fn start(
    alloc: Global,
    modules: &[Module],
    excluded: &ExclSet,
    table: &mut [LeastSets],
    next: &mut List<Work>,
    roots: &[usize],
) -> Result<(), NoMemory>
    requires size { length modules.now ≡ length table.old }
    requires distinct { AreDistinct modules.now }
    requires roots { All (λ to. to < length table.old) roots.now }
    requires work { AreWork (length table.old) next.old }
    ensures size { length table.new ≡ length table.old }
    ensures work { AreWork (length table.old) next.new }
    ensures after { OnOk result (state_of modules.now table.new next.new
        ≡ after_roots bare_graph is_within (state_of modules.now table.old next.old)
        (map (root_step modules.now excluded.now) roots.now)) }
{
    for to in roots {
        let set = MarkedSet::of(excluded.copy(alloc)?);
        put(alloc, modules, table, next, *to, set)?;
    }
    Ok(())
}

/// So many levels, or as many as have something to follow.
fn go_levels(
    alloc: Global,
    modules: &[Module],
    out: &[List<Hop>],
    table: &mut [LeastSets],
    first: List<Work>,
) -> Result<(), NoMemory>
    requires size { length modules.now ≡ length table.old }
    requires rows { length out.now ≡ length modules.now }
    requires distinct { AreDistinct modules.now }
    requires out { All (λ hops. AreHops (length modules.now) hops) out.now }
    requires work { AreWork (length table.old) first }
    ensures size { length table.new ≡ length table.old }
    ensures after { OnOk result (table_of modules.now table.new
        ≡ (after_levels (out_graph modules.now out.now) is_within (length modules.now)
        (state_of modules.now table.old first)).table) }
{
    let mut work = first;
    for _level in 0..modules.len() {
        if work.is_empty() {
            return Ok(());
        }
        let mut next: List<Work> = List::new(alloc);
        follow_all(alloc, modules, out, table, &mut next, work.as_slice())?;
        work = next;
    }
    Ok(())
}

fn empty_table(alloc: Global, count: usize) -> Result<Vec<LeastSets>, NoMemory>
    ensures { IfOk result (λ made. sets_of made.items ≡ replicate count []) }
{
    let mut made: Vec<LeastSets> = Vec::new(alloc);
    for _row in 0..count {
        made.push(LeastSets::new(alloc))?;
    }
    Ok(made)
}

fn run(
    alloc: Global,
    modules: &[Module],
    excluded: &ExclSet,
    roots: &[usize],
    out: &[List<Hop>],
    table: &mut [LeastSets],
) -> Result<(), NoMemory>
    requires size { length modules.now ≡ length table.old }
    requires rows { length out.now ≡ length modules.now }
    requires distinct { AreDistinct modules.now }
    requires roots { All (λ to. to < length modules.now) roots.now }
    requires out { All (λ hops. AreHops (length modules.now) hops) out.now }
    ensures size { length table.new ≡ length table.old }
    ensures after { OnOk result (table_of modules.now table.new
        ≡ (after_levels (out_graph modules.now out.now) is_within (length modules.now)
        (after_roots bare_graph is_within (state_of modules.now table.old [])
        (map (root_step modules.now excluded.now) roots.now))).table) }
{
    let mut first: List<Work> = List::new(alloc);
    start(alloc, modules, excluded, table, &mut first, roots)?;
    go_levels(alloc, modules, out, table, first)
}

/// Whether some set does not exclude a module.
fn lets(sets: &[MarkedSet], module: &Module) -> bool
    ensures { result ≡ list_any (λ set. not (is_excluded set «module».now)) sets.now }
{
    sets.iter().any(|set| !set.excludes(module))
}

fn sets_in(kept: &LeastSets) -> &[MarkedSet]
    ensures { result.now ≡ kept.now.sets }
{
    kept.sets.as_slice()
}

/// Which of a module's edges some set of it does not bar.
fn flags_of(
    alloc: Global,
    modules: &[Module],
    sets: &[MarkedSet],
    hops: &[Hop],
) -> Result<List<bool>, NoMemory>
    requires { AreHops (length modules.now) hops.now }
    ensures { IfOk result (λ made. made ≡ lets_row modules.now hops.now sets.now) }
{
    let mut made: List<bool> = List::new(alloc);
    for hop in hops {
        made.push(lets(sets, module_of(modules, hop.to)))?;
    }
    Ok(made)
}

/// Which edges of all modules are let.
fn all_flags(
    alloc: Global,
    modules: &[Module],
    out: &[List<Hop>],
    table: &[LeastSets],
) -> Result<List<List<bool>>, NoMemory>
    requires size { length modules.now ≡ length table.now }
    requires rows { length out.now ≡ length modules.now }
    requires out { All (λ hops. AreHops (length modules.now) hops) out.now }
    ensures { IfOk result (λ made. made ≡ lets_of modules.now out.now (sets_of table.now)) }
{
    let mut made: List<List<bool>> = List::new(alloc);
    for place in 0..modules.len() {
        let hops = out[place].as_slice();
        made.push(flags_of(alloc, modules, sets_in(&table[place]), hops)?)?;
    }
    Ok(made)
}

fn walk_on(
    alloc: Global,
    modules: &[Module],
    excluded: &ExclSet,
    roots: &[usize],
    out: &[List<Hop>],
    table: &mut [LeastSets],
) -> Result<List<List<bool>>, NoMemory>
    requires empty { sets_of table.old ≡ replicate (length modules.now) [] }
    requires size { length modules.now ≡ length table.old }
    requires rows { length out.now ≡ length modules.now }
    requires distinct { AreDistinct modules.now }
    requires roots { All (λ to. to < length modules.now) roots.now }
    requires out { All (λ hops. AreHops (length modules.now) hops) out.now }
    ensures { IfOk result (λ made. made
        ≡ followed_by (hop_graph modules.now excluded.now roots.now out.now) modules.now) }
{
    within_laws();
    join_laws();
    let inner = inner_out(alloc, out)?;
    run(alloc, modules, excluded, roots, inner.as_slice(), table)?;
    all_flags(alloc, modules, out, table)
}

/// Whether each edge of each module is the last edge of a live path: a root edge and the edges that
/// follow it, where no module is left twice, and no edge leads to a module that an edge before it
/// excludes. The last edge may lead back to a module of the path.
///
/// Modules are numbered by their places. Roots are given by the modules that they lead to, and
/// exclude all the same; `out` has the edges of each module.
pub fn followed(
    alloc: Global,
    modules: &[Module],
    excluded: &ExclSet,
    roots: &[usize],
    out: &[List<Hop>],
) -> Result<List<List<bool>>, NoMemory>
    requires rows { length out.now ≡ length modules.now }
    requires distinct { AreDistinct modules.now }
    requires roots { All (λ to. to < length modules.now) roots.now }
    requires out { All (λ hops. AreHops (length modules.now) hops) out.now }
    ensures { IfOk result (λ made. made
        ≡ followed_by (hop_graph modules.now excluded.now roots.now out.now) modules.now) }
{
    let mut table = empty_table(alloc, modules.len())?;
    walk_on(alloc, modules, excluded, roots, out, table.as_mut_slice())
}
