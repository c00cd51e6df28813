//! The walk, and a round.
ghost use Rattle.std.specs.Prelude.{◌≡◌, ◌≤◌, ◌+◌, ◌∷◌, [], IfOk};
ghost use Rattle.res_base.specs.Known.{known_of};
ghost use Rattle.res_base.specs.declared.coord.Module.{Module as Name};
ghost use Rattle.round_core.specs.Choices.{Rises, modules_of};
ghost use Rattle.round_core.specs.Counts.{built_count};
ghost use Rattle.round_core.specs.Rounds.{answer_by, next_by as next_for, round_in as round_for, round_of, walk_in as walk_for, walk_of, with_decided as gathered_with_decided, with_decision as gathered_with};

use super::decide::{Decision, decided};
use super::earlier::Earlier;
use super::keys::KeySet;
use super::needs::{is_open, open_keys};
use super::reach::{Reached, reach_all};
use super::requests::AskedTable;
use super::steer::steer_of;
use project_lookup::Known;
use res_base::{Copied, FileKey, List, NoMemory, Steps};
use resolution::{Ask, ChoiceRow, Choices, RequestRow, RoundAnswer, Walk};
use std::alloc::Global;
use std::sync::ledger::Ledger;

/// The choices so far, or the keys of listings that are lacking.
#[derive(Drop)]
pub(crate) enum Gathered {
    Rows(List<ChoiceRow>),
    Keys(KeySet),
}

fn one_key(alloc: Global, key: FileKey) -> Result<KeySet, NoMemory>
    ensures { IfOk result (λ made. made ≡ key ∷ []) }
{
    KeySet::new(alloc).with_key(key)
}

/// With the choice for a module.
fn with_choice(gathered: Gathered, row: ChoiceRow) -> Result<Gathered, NoMemory>
    ensures { IfOk result (λ made. made ≡ gathered_with gathered row.«module» (Decision.Made row.choice)) }
{
    match gathered {
        Gathered::Rows(mut rows) => {
            rows.push(row)?;
            Ok(Gathered::Rows(rows))
        }
        Gathered::Keys(keys) => Ok(Gathered::Keys(keys)),
    }
}

/// With the key that a module lacks.
fn with_lack(alloc: Global, gathered: Gathered, key: FileKey) -> Result<Gathered, NoMemory>
    ensures { IfOk result (λ made. (m : Name) → made ≡ gathered_with gathered m (Decision.Lacks key)) }
{
    match gathered {
        Gathered::Rows(_) => Ok(Gathered::Keys(one_key(alloc, key)?)),
        Gathered::Keys(keys) => Ok(Gathered::Keys(keys.with_key(key)?)),
    }
}

/// With what comes of the requests for a module.
fn with_decided(
    alloc: Global,
    known: &Known,
    ask: &Ask,
    gathered: Gathered,
    row: &RequestRow,
) -> Result<Gathered, NoMemory>
    requires { ask.now.repos ≡ known.now.repos }
    ensures { IfOk result (λ made. made ≡ gathered_with_decided (known_of known.now.pairs) ask.now gathered row.now) }
{
    match decided(alloc, known, ask, row)? {
        Decision::Lacks(key) => with_lack(alloc, gathered, key),
        Decision::Made(choice) => with_choice(
            gathered,
            ChoiceRow {
                module: row.module.copy(alloc)?,
                choice,
            },
        ),
    }
}

fn answer_of(alloc: Global, gathered: Gathered) -> Result<RoundAnswer, NoMemory>
    ensures { IfOk result (λ made. made ≡ answer_by gathered) }
{
    match gathered {
        Gathered::Rows(rows) => Ok(RoundAnswer::Next(Choices { rows })),
        Gathered::Keys(keys) => Ok(RoundAnswer::Needs(keys.into_list(alloc)?)),
    }
}

/// The next choices by what is asked of each module, or the keys of listings that they need.
fn next_by(
    alloc: Global,
    known: &Known,
    ask: &Ask,
    rows: &[RequestRow],
) -> Result<RoundAnswer, NoMemory>
    requires { ask.now.repos ≡ known.now.repos }
    ensures { IfOk result (λ made. made ≡ next_for (known_of known.now.pairs) ask.now rows.now) }
{
    let mut gathered = Gathered::Rows(List::new(alloc));
    for row in rows {
        gathered = with_decided(alloc, known, ask, gathered, row)?;
    }
    answer_of(alloc, gathered)
}

fn walk_in(alloc: Global, ask: &Ask, reached: &Reached) -> Result<Walk, NoMemory>
    ensures { IfOk result (λ made. made ≡ walk_for ask.now reached.now) }
{
    if is_open(reached) {
        return Ok(Walk::Needs(open_keys(alloc, reached)?));
    }
    let roots = ask.roots.as_slice();
    let steer = steer_of(alloc, roots, reached)?;
    let asked = AskedTable::of(alloc, roots, &steer, reached.last.as_slice())?;
    Ok(Walk::Requests(asked.into_rows(alloc)?))
}

/// The round over what is reached.
pub(crate) fn round_in(
    alloc: Global,
    known: &Known,
    ask: &Ask,
    reached: &Reached,
) -> Result<RoundAnswer, NoMemory>
    requires { ask.now.repos ≡ known.now.repos }
    ensures { IfOk result (λ made. made ≡ round_for (known_of known.now.pairs) ask.now reached.now) }
{
    match walk_in(alloc, ask, reached)? {
        Walk::Needs(keys) => Ok(RoundAnswer::Needs(keys)),
        Walk::Requests(rows) => next_by(alloc, known, ask, rows.as_slice()),
    }
}

/// Walks over all live paths at these choices: root edges and the edges of chosen projects that
/// follow them, where no module is left twice, and no edge leads to a module that an edge before it
/// excludes.
///
/// `Needs` has the keys without which the projects of the BOMs and those at ends of live paths can't
/// be built. Otherwise `Requests` has what is asked of each module at an end of a live path, as
/// managed versions leave it. The ask is to be of as many repositories as are known.
pub fn walk<L: Ledger>(
    alloc: Global,
    known: &Known,
    ask: &Ask,
    choices: &Choices,
    steps: &mut Steps<L>,
) -> Result<Walk, NoMemory>
    requires repos { ask.now.repos ≡ known.now.repos }
    requires rises { Rises (modules_of choices.now.rows) }
    ensures value { IfOk result (λ made. made ≡ walk_of (known_of known.now.pairs) ask.now choices.now.rows) }
    ensures steps { IfOk result
        (λ made. steps.old + built_count (known_of known.now.pairs) ask.now choices.now.rows ≤ steps.new) }
{
    let none = Earlier::new(alloc);
    let reached = reach_all(alloc, known, ask, none, choices.rows.as_slice(), steps)?;
    walk_in(alloc, ask, &reached)
}

/// One round: the walk, and then the next choices by what it asks of each module. A choice may need
/// listings, which are looked at once no project is needed.
pub fn round<L: Ledger>(
    alloc: Global,
    known: &Known,
    ask: &Ask,
    choices: &Choices,
    steps: &mut Steps<L>,
) -> Result<RoundAnswer, NoMemory>
    requires repos { ask.now.repos ≡ known.now.repos }
    requires rises { Rises (modules_of choices.now.rows) }
    ensures value { IfOk result (λ made. made ≡ round_of (known_of known.now.pairs) ask.now choices.now.rows) }
    ensures steps { IfOk result
        (λ made. steps.old + built_count (known_of known.now.pairs) ask.now choices.now.rows ≤ steps.new) }
{
    let none = Earlier::new(alloc);
    let reached = reach_all(alloc, known, ask, none, choices.rows.as_slice(), steps)?;
    round_in(alloc, known, ask, &reached)
}
