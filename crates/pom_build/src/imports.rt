//! The managed rows of a project, and of those that it imports.
ghost use Rattle.std.specs.Prelude.{◌≡◌, ◌<◌, ◌≤◌, ◌-◌, ◌^◌, ◌∷◌, [], ◌++◌, suc, true, false, not, filter, min, max, is_some, IfOk, IfSome, None, OnOk};
ghost use Rattle.pom_build.specs.Imports.{import_coord as coord_of_import, is_import as import_test, managed_from as rows_from, managed_rows as all_managed_rows, managed_with as rows_with, past_chain as past_the_chain};
ghost use Rattle.pom_build.specs.Lines.{is_among as among, line_of as line_of_coord};
ghost use Rattle.pom_build.specs.Outcomes.{needs_or};
ghost use Rattle.pom_build.specs.Tries.{IsGathered, IsPut, IsReady, IsTried, kept_at};
ghost use Rattle.row_lists.specs.RowLists.{with_imported};
ghost use Rattle.res_base.specs.Known.{known_of};

use super::build::BuildFault;
use super::filled::managed_rows;
use super::line::{Line, is_among, line_of};
use super::memo::{Kept, Memo};
use super::names::NamedLine;
use super::needs::needed_keys;
use super::outcome::Outcome;
use project_lookup::Known;
use res_base::{Coord, Copied, DepRecord, FileKey, List, NoMemory};
use row_lists::{RowTable, row_laws};
use std::alloc::Global;

/// A project's own managed rows, with its imports by themselves.
#[derive(Drop)]
struct Split {
    rows: List<DepRecord>,
    imports: List<DepRecord>,
}

fn is_import(row: &DepRecord) -> bool
    ensures { result ≡ import_test row.now }
{
    row.kind.as_str() == "pom" && row.scope.as_str() == "import"
}

/// Puts a row behind those of its sort.
fn with_row(split: Split, row: DepRecord) -> Result<Split, NoMemory>
    ensures rows { IfOk result (λ made. made.rows ≡ split.rows ++ filter (λ one. not (import_test one)) (row ∷ [])) }
    ensures imports { IfOk result (λ made. made.imports ≡ split.imports ++ filter import_test (row ∷ [])) }
{
    let Split {
        mut rows,
        mut imports,
    } = split;
    if is_import(&row) {
        imports.push(row)?;
        return Ok(Split { rows, imports });
    }
    rows.push(row)?;
    Ok(Split { rows, imports })
}

fn split_rows(alloc: Global, all: List<DepRecord>) -> Result<Split, NoMemory>
    ensures rows { IfOk result (λ made. made.rows ≡ filter (λ row. not (import_test row)) all) }
    ensures imports { IfOk result (λ made. made.imports ≡ filter import_test all) }
{
    let mut split = Split {
        rows: List::new(alloc),
        imports: List::new(alloc),
    };
    for row in all.into_vec() {
        split = with_row(split, row)?;
    }
    Ok(split)
}

/// A project's own managed rows as a table, with its imports by themselves.
#[derive(Drop)]
pub(crate) struct OwnRows {
    pub table: RowTable,
    pub imports: List<DepRecord>,
}

#[tactic(auto, unfolding(crate::specs::Imports::managed_rows))]
pub(crate) fn own_rows(alloc: Global, named: &NamedLine<'_>) -> Result<OwnRows, NoMemory>
    ensures rows { IfOk result (λ made. made.table ≡ filter (λ row. not (import_test row)) (all_managed_rows named.now)) }
    ensures imports { IfOk result (λ made. made.imports ≡ filter import_test (all_managed_rows named.now)) }
{
    row_laws();
    let Split { rows, imports } = split_rows(alloc, managed_rows(alloc, named)?)?;
    let table = RowTable::new(alloc).with_imported(rows)?;
    Ok(OwnRows { table, imports })
}

/// The coordinates of a chain, and then another.
pub(crate) fn chain_to(
    alloc: Global,
    chain: &List<Coord>,
    coord: &Coord,
) -> Result<List<Coord>, NoMemory>
    ensures { IfOk result (λ made. made ≡ chain.now ++ coord.now ∷ []) }
{
    let mut longer = chain.copy(alloc)?;
    longer.push(coord.copy(alloc)?)?;
    Ok(longer)
}

/// The coordinate that a row imports.
pub(crate) fn import_coord(alloc: Global, row: &DepRecord) -> Result<Coord, NoMemory>
    ensures { IfOk result (λ made. made ≡ coord_of_import row.now) }
{
    Ok(Coord {
        module: row.module.copy(alloc)?,
        version: row.version.copy(alloc)?,
    })
}

/// What comes of building a managed list: it is built, or a fault comes first of all that is known,
/// or keys are needed first.
#[derive(Drop)]
pub(crate) enum Tried<T> {
    Built(T),
    Fault(BuildFault),
    Wanting,
}

/// Rows, and with how many levels they can be gathered.
#[derive(Drop)]
pub(crate) struct Sum {
    pub table: RowTable,
    pub levels: u32,
}

/// What is said of an import that the chain has, or that is one too many.
fn past_chain(alloc: Global, chain: &List<Coord>, coord: &Coord) -> Result<BuildFault, NoMemory>
    ensures { IfOk result (λ fault. Outcome.Refused fault ≡ past_the_chain chain.now coord.now) }
{
    let path = chain_to(alloc, chain, coord)?;
    if is_among(coord, chain.as_slice()) {
        return Ok(BuildFault::ImportCycle(path));
    }
    Ok(BuildFault::TooDeep(path))
}

/// A sum with the managed list of one more import, which is in the memo.
fn with_kept(sum: Sum, memo: &Memo, coord: &Coord, left: u32) -> Result<Sum, NoMemory>
    requires { is_some (kept_at memo.now coord.now) ≡ true }
    ensures rows { IfOk result (λ made. IfSome (kept_at memo.now coord.now) (λ kept. made.table ≡ with_imported sum.table kept.rows)) }
    ensures levels { IfOk result (λ made. IfSome (kept_at memo.now coord.now) (λ kept. made.levels ≡ max sum.levels (min kept.levels left))) }
{
    match memo.at(coord) {
        None => unreachable!(),
        Some(kept) => {
            let table = sum.table.with_copies(kept.rows.as_slice())?;
            let levels = sum.levels.max(kept.levels.min(left));
            Ok(Sum { table, levels })
        }
    }
}

/// Gathers what imports manage, where the chain ends with the project that imports them and may
/// have so many projects more. It stops at the first that is not built.
#[cycle(imports)]
fn gather(
    alloc: Global,
    known: &Known,
    left: u32,
    chain: &List<Coord>,
    table: RowTable,
    imports: &[DepRecord],
    memo: &mut Memo,
) -> Result<Tried<Sum>, NoMemory>
    requires { IsReady (known_of known.now.pairs) known.now.repos chain.now memo.old }
    ensures { IfOk result (λ tried. IsGathered (known_of known.now.pairs) known.now.repos left chain.now table imports.now memo.old tried memo.new) }
{
    let mut sum = Sum { table, levels: 0 };
    for import in imports {
        let coord = import_coord(alloc, import)?;
        match try_from(alloc, known, left, chain, &coord, memo)? {
            Tried::Built(()) => sum = with_kept(sum, memo, &coord, left)?,
            Tried::Fault(fault) => return Ok(Tried::Fault(fault)),
            Tried::Wanting => return Ok(Tried::Wanting),
        }
    }
    Ok(Tried::Built(sum))
}

/// Puts the managed list of a project into the memo.
fn keep(alloc: Global, memo: &mut Memo, coord: &Coord, sum: Sum) -> Result<(), NoMemory>
    requires { sum.levels < 2 ^ 32 - 1 }
    ensures { OnOk result (IsPut memo.old coord.now (record { rows = sum.table; levels = suc sum.levels }) memo.new) }
{
    let kept = Kept {
        rows: sum.table.into_rows(),
        levels: sum.levels + 1,
    };
    memo.kept.insert(coord.copy(alloc)?, kept)?;
    Ok(())
}

/// Tries a project with a line, which the chain does not have and the memo neither.
#[cycle(imports)]
fn by_line(
    alloc: Global,
    known: &Known,
    left: u32,
    chain: &List<Coord>,
    coord: &Coord,
    line: Line<'_>,
    memo: &mut Memo,
) -> Result<Tried<()>, NoMemory>
    requires ready { IsReady (known_of known.now.pairs) known.now.repos chain.now memo.old }
    requires apart { among coord.now chain.now ≡ false }
    requires new { kept_at memo.old coord.now ≡ None }
    requires line { line_of_coord (known_of known.now.pairs) known.now.repos coord.now ≡ Outcome.Built line }
    requires few { left < 2 ^ 32 - 1 }
    ensures { IfOk result (λ tried. IsTried (known_of known.now.pairs) known.now.repos (suc left) chain.now coord.now memo.old tried memo.new) }
{
    let named = NamedLine::of(alloc, line)?;
    let OwnRows { table, imports } = own_rows(alloc, &named)?;
    let longer = chain_to(alloc, chain, coord)?;
    match gather(alloc, known, left, &longer, table, imports.as_slice(), memo)? {
        Tried::Fault(fault) => Ok(Tried::Fault(fault)),
        Tried::Wanting => Ok(Tried::Wanting),
        Tried::Built(sum) => {
            keep(alloc, memo, coord, sum)?;
            Ok(Tried::Built(()))
        }
    }
}

/// Tries a project that the chain does not have and the memo neither.
#[cycle(imports)]
fn expand(
    alloc: Global,
    known: &Known,
    left: u32,
    chain: &List<Coord>,
    coord: &Coord,
    memo: &mut Memo,
) -> Result<Tried<()>, NoMemory>
    requires ready { IsReady (known_of known.now.pairs) known.now.repos chain.now memo.old }
    requires apart { among coord.now chain.now ≡ false }
    requires new { kept_at memo.old coord.now ≡ None }
    requires some { 0 < left }
    ensures { IfOk result (λ tried. IsTried (known_of known.now.pairs) known.now.repos left chain.now coord.now memo.old tried memo.new) }
{
    match line_of(alloc, known, coord)? {
        Outcome::Needs(_) => Ok(Tried::Wanting),
        Outcome::NotFound(why) => {
            let coord = coord.copy(alloc)?;
            Ok(Tried::Fault(BuildFault::LineAbsent(coord, why)))
        }
        Outcome::Refused(fault) => Ok(Tried::Fault(fault)),
        Outcome::Built(line) => by_line(alloc, known, left - 1, chain, coord, line, memo),
    }
}

/// Tries a project whose list is kept, but takes more levels than are left. It is looked at as if
/// nothing was kept, up to its fault.
#[cycle(imports)]
fn too_high(
    alloc: Global,
    known: &Known,
    left: u32,
    chain: &List<Coord>,
    coord: &Coord,
    memo: &Memo,
) -> Result<Tried<()>, NoMemory>
    requires ready { IsReady (known_of known.now.pairs) known.now.repos chain.now memo.now }
    requires apart { among coord.now chain.now ≡ false }
    requires kept { IfSome (kept_at memo.now coord.now) (λ one. left ≤ one.levels) }
    requires there { is_some (kept_at memo.now coord.now) ≡ true }
    requires some { 0 < left }
    ensures { IfOk result (λ tried. IsTried (known_of known.now.pairs) known.now.repos left chain.now coord.now memo.now tried memo.now) }
{
    let mut fresh = Memo::new(alloc);
    expand(alloc, known, left, chain, coord, &mut fresh)
}

/// Tries a project that is imported behind a chain of others, which may have so many projects more.
/// A list that is kept is not built again.
#[cycle(imports)]
fn try_from(
    alloc: Global,
    known: &Known,
    left: u32,
    chain: &List<Coord>,
    coord: &Coord,
    memo: &mut Memo,
) -> Result<Tried<()>, NoMemory>
    requires { IsReady (known_of known.now.pairs) known.now.repos chain.now memo.old }
    ensures { IfOk result (λ tried. IsTried (known_of known.now.pairs) known.now.repos left chain.now coord.now memo.old tried memo.new) }
{
    if left == 0 {
        return Ok(Tried::Fault(past_chain(alloc, chain, coord)?));
    }
    if is_among(coord, chain.as_slice()) {
        return Ok(Tried::Fault(past_chain(alloc, chain, coord)?));
    }
    match memo.levels(coord) {
        None => expand(alloc, known, left, chain, coord, memo),
        Some(levels) => {
            if levels <= left {
                return Ok(Tried::Built(()));
            }
            too_high(alloc, known, left, chain, coord, memo)
        }
    }
}

/// The chain of imports that begins with a project.
pub(crate) fn chain_of(alloc: Global, coord: &Coord) -> Result<List<Coord>, NoMemory>
    ensures { IfOk result (λ made. made ≡ coord.now ∷ []) }
{
    let mut chain: List<Coord> = List::new(alloc);
    chain.push(coord.copy(alloc)?)?;
    Ok(chain)
}

/// The keys that are needed, or else a fault.
fn needed_or(keys: List<FileKey>, fault: BuildFault) -> Outcome<RowTable>
    ensures { result ≡ needs_or keys fault }
{
    if keys.is_empty() {
        return Outcome::Refused(fault);
    }
    Outcome::Needs(keys)
}

/// The managed rows of a project and of what it imports, where a chain of imports may have so many
/// projects behind the project.
///
/// What needs no keys and has no fault is gathered in one go, each list once. Otherwise the keys
/// that are needed are all looked for first, and the first fault counts where there are none.
pub(crate) fn managed_with(
    alloc: Global,
    known: &Known,
    left: u32,
    coord: &Coord,
    named: &NamedLine<'_>,
) -> Result<Outcome<RowTable>, NoMemory>
    ensures { IfOk result (λ made. made ≡ rows_with (rows_from (known_of known.now.pairs) known.now.repos left (coord.now ∷ [])) named.now) }
{
    let OwnRows { table, imports } = own_rows(alloc, named)?;
    let chain = chain_of(alloc, coord)?;
    let mut memo = Memo::new(alloc);
    match gather(
        alloc,
        known,
        left,
        &chain,
        table,
        imports.as_slice(),
        &mut memo,
    )? {
        Tried::Built(sum) => Ok(Outcome::Built(sum.table)),
        Tried::Fault(fault) => {
            let keys = needed_keys(alloc, known, left, coord, imports.as_slice())?;
            Ok(needed_or(keys, fault))
        }
        Tried::Wanting => {
            let keys = needed_keys(alloc, known, left, coord, imports.as_slice())?;
            Ok(Outcome::Needs(keys))
        }
    }
}
