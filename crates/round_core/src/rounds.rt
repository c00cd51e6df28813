//! Rounds, from nothing.
ghost use Rattle.std.specs.Prelude.{◌≡◌, ◌≤◌, ◌+◌, [], IfOk, OnOk};
ghost use Rattle.res_base.specs.Known.{known_of};
ghost use Rattle.round_core.specs.Choices.{Rises, choice_eq, choices_eq, clash_eq, modules_of, row_eq};
ghost use Rattle.round_core.specs.Counts.{built_count};
ghost use Rattle.round_core.specs.Earlier.{AreRight};
ghost use Rattle.round_core.specs.Reaching.{reached_of};
ghost use Rattle.round_core.specs.Rounds.{last_choices, last_from, rounds_from, rounds_of};
ghost use Rattle.round_core.specs.Turns.{IsTurn, LeadsOn, TurnRises};
ghost use Rattle.round_core.specs.Verdicts.{verdict_in as verdict_for};

use super::earlier::Earlier;
use super::one_round::round_in;
use super::reach::{Reached, reach_all};
use super::verdict::verdict_in;
use project_lookup::Known;
use reconcile_rules::Clash;
use res_base::{List, NoMemory, Steps};
use resolution::{Ask, Choice, ChoiceRow, Choices, Progress, RoundAnswer, Verdict};
use std::alloc::Global;
use std::mem::replace;
use std::sync::ledger::Ledger;

fn same_clash(a: Clash, b: Clash) -> bool
    ensures { result ≡ clash_eq a b }
{
    match a {
        Clash::Apart(i, j) => match b {
            Clash::Apart(k, l) => i == k && j == l,
            _ => false,
        },
        Clash::Above(i) => match b {
            Clash::Above(k) => i == k,
            _ => false,
        },
        Clash::NotAccepted(i) => match b {
            Clash::NotAccepted(k) => i == k,
            _ => false,
        },
        Clash::NoVersion => matches!(b, Clash::NoVersion),
        Clash::NoneListed => matches!(b, Clash::NoneListed),
        Clash::BadConstraint(i) => match b {
            Clash::BadConstraint(k) => i == k,
            _ => false,
        },
    }
}

fn same_choice(a: &Choice, b: &Choice) -> bool
    ensures { result ≡ choice_eq a.now b.now }
{
    match a {
        Choice::Version(version) => match b {
            Choice::Version(other) => *version == *other,
            Choice::Clash(_) => false,
        },
        Choice::Clash(clash) => match b {
            Choice::Version(_) => false,
            Choice::Clash(other) => same_clash(*clash, *other),
        },
    }
}

fn same_row(a: &ChoiceRow, b: &ChoiceRow) -> bool
    ensures { result ≡ row_eq a.now b.now }
{
    a.module == b.module && same_choice(&a.choice, &b.choice)
}

/// Whether two lists of choices are one.
fn same_choices(a: &[ChoiceRow], b: &[ChoiceRow]) -> bool
    ensures { result ≡ choices_eq a.now b.now }
{
    if a.len() != b.len() {
        return false;
    }
    for place in 0..a.len() {
        if !same_row(&a[place], &b[place]) {
            return false;
        }
    }
    true
}

/// What one round leads to.
#[derive(Drop)]
pub(crate) enum Turn {
    Ends(Progress),
    /// The next round begins with these.
    On(Choices),
}

/// What the next choices lead to.
fn turn_by(
    alloc: Global,
    ask: &Ask,
    round: u32,
    choices: &Choices,
    reached: &Reached,
    later: Choices,
) -> Result<Turn, NoMemory>
    ensures value { IfOk result
        (LeadsOn choices.now.rows later.rows
        (Progress.Over (verdict_for ask.now.roots round choices.now.rows reached.now))) }
    ensures rises { Rises (modules_of later.rows) → IfOk result TurnRises }
{
    let rows = choices.rows.as_slice();
    if same_choices(rows, later.rows.as_slice()) {
        let verdict = verdict_in(alloc, ask, round, rows, reached)?;
        return Ok(Turn::Ends(Progress::Over(verdict)));
    }
    Ok(Turn::On(later))
}

/// One round over what is reached, after so many others.
fn turn_over(
    alloc: Global,
    known: &Known,
    ask: &Ask,
    done: u32,
    round: u32,
    choices: Choices,
    reached: &Reached,
) -> Result<Turn, NoMemory>
    requires repos { ask.now.repos ≡ known.now.repos }
    requires round { round ≡ done + 1 }
    requires reached { reached.now ≡ reached_of (known_of known.now.pairs) ask.now choices.rows }
    ensures value { IfOk result (IsTurn (known_of known.now.pairs) ask.now done choices.rows) }
    ensures rises { IfOk result TurnRises }
{
    match round_in(alloc, known, ask, reached)? {
        RoundAnswer::Needs(needs) => Ok(Turn::Ends(Progress::Waiting {
            round: done,
            choices,
            needs,
        })),
        RoundAnswer::Next(later) => turn_by(alloc, ask, round, &choices, reached, later),
    }
}

/// One round, after so many others. What it builds is kept for the next one.
pub(crate) fn take_turn<L: Ledger>(
    alloc: Global,
    known: &Known,
    ask: &Ask,
    done: u32,
    round: u32,
    choices: Choices,
    earlier: &mut Earlier,
    steps: &mut Steps<L>,
) -> Result<Turn, NoMemory>
    requires repos { ask.now.repos ≡ known.now.repos }
    requires rises { Rises (modules_of choices.rows) }
    requires round { round ≡ done + 1 }
    requires right { AreRight (known_of known.now.pairs) known.now.repos earlier.old.projects.items }
    ensures value { IfOk result (IsTurn (known_of known.now.pairs) ask.now done choices.rows) }
    ensures rises { IfOk result TurnRises }
    ensures right { OnOk result (AreRight (known_of known.now.pairs) known.now.repos earlier.new.projects.items) }
    ensures steps { IfOk result
        (λ made. steps.old + built_count (known_of known.now.pairs) ask.now choices.rows ≤ steps.new) }
{
    let before = replace(earlier, Earlier::new(alloc));
    let reached = reach_all(alloc, known, ask, before, choices.rows.as_slice(), steps)?;
    let turn = turn_over(alloc, known, ask, done, round, choices, &reached)?;
    *earlier = Earlier::of(reached);
    Ok(turn)
}

/// At most so many rounds.
fn rounds_up_to<L: Ledger>(
    alloc: Global,
    known: &Known,
    ask: &Ask,
    most: u32,
    steps: &mut Steps<L>,
) -> Result<Progress, NoMemory>
    requires repos { ask.now.repos ≡ known.now.repos }
    ensures value { IfOk result (λ made. made ≡ rounds_from (known_of known.now.pairs) ask.now most 0 []) }
    ensures steps { IfOk result
        (λ made. steps.old + built_count (known_of known.now.pairs) ask.now
        (last_from (known_of known.now.pairs) ask.now most [] []) ≤ steps.new) }
{
    let mut choices = Choices {
        rows: List::new(alloc),
    };
    let mut earlier = Earlier::new(alloc);
    for done in 0..most {
        match take_turn(
            alloc,
            known,
            ask,
            done,
            done + 1,
            choices,
            &mut earlier,
            steps,
        )? {
            Turn::Ends(progress) => return Ok(progress),
            Turn::On(later) => choices = later,
        }
    }
    Ok(Progress::Over(Verdict::Unsettled(most)))
}

/// The rounds from nothing: they begin without choices, and each gives the next choices, until
/// these are the choices that it began with, or keys are needed, or the greatest number of rounds
/// is done.
///
/// `Waiting` has the number of rounds done, their choices, and the keys that the next round needs.
/// The ask is to be of as many repositories as are known.
pub fn rounds_plain<L: Ledger>(
    alloc: Global,
    known: &Known,
    ask: &Ask,
    steps: &mut Steps<L>,
) -> Result<Progress, NoMemory>
    requires repos { ask.now.repos ≡ known.now.repos }
    ensures value { IfOk result (λ made. made ≡ rounds_of (known_of known.now.pairs) ask.now) }
    ensures steps { IfOk result
        (λ made. steps.old + built_count (known_of known.now.pairs) ask.now
        (last_choices (known_of known.now.pairs) ask.now) ≤ steps.new) }
{
    rounds_up_to(alloc, known, ask, ask.rounds, steps)
}
