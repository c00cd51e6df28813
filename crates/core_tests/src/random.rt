//! Sessions at random: each answer is what the book and the rounds from nothing say.
ghost use Rattle.std.specs.Prelude.{◌≡◌, ◌<◌};

use super::book::{Book, Fate, Row, Tally, Way, expected, fate_of, put};
use super::parts::{ask, told};
use super::projects::reading;
use arrival_core::{Claim, Core, CoreLimits, Why};
use project_lookup::Known;
use res_base::{Copied, FileKey, NoMemory, Steps};
use resolution::Ask;
use std::alloc::Global;
use std::marker::Brand;
use std::sync::ledger::{Blank, Ledger};
use std::test::Fail;

/// Numbers that look random, and are the same each time.
#[derive(Drop)]
struct Dice {
    state: u64,
}

impl Dice {
    /// One of so many numbers, from 0.
    fn roll(&mut self, sides: u32) -> u32
        requires { 0 < sides }
        ensures { result < sides }
    {
        self.state = self
            .state
            .wrapping_mul(6364136223846793005)
            .wrapping_add(1442695040888963407);
        let left = (self.state >> 33) % u64::from(sides);
        left as u32
    }
}

/// The answer of a claim is noted in the book.
fn note(alloc: Global, book: &mut Book, seat: u32, claim: &Claim) -> Result<(), NoMemory>
    ensures { book.new.known.repos ≡ book.old.known.repos }
{
    book.tally = book.tally.with(claim);
    if let Claim::Claimed(key) = claim {
        let mut fate = fate_of(book.rows.as_slice(), key);
        fate.holder = Some(seat);
        put(alloc, &mut book.rows, key, fate)?;
        book.tally.events = book.tally.events.saturating_add(1);
    }
    Ok(())
}

/// How far the core comes, and what a claim answers.
fn said<L: Ledger>(
    alloc: Global,
    core: &mut Core,
    book: &mut Book,
    seat: u32,
    steps: &mut Steps<L>,
) -> Result<String, NoMemory>
    ensures { book.new.known.repos ≡ book.old.known.repos }
{
    core.advance(alloc, steps)?;
    let claim = core.claim(alloc, seat)?;
    note(alloc, book, seat, &claim)?;
    told(alloc, core.progress(), core.verdict().is_some(), &claim)
}

/// The core takes the answer.
fn absorb(alloc: Global, core: &mut Core, seat: u32, key: &FileKey) -> Result<bool, NoMemory> {
    let reading = reading(alloc, key)?;
    Ok(core.absorb(alloc, seat, key, reading).is_ok())
}

/// The answer is noted beside the core.
fn keep(alloc: Global, known: &mut Known, key: &FileKey) -> Result<bool, NoMemory>
    ensures { known.new.repos ≡ known.old.repos }
{
    if key.repo >= known.repos() {
        return Ok(false);
    }
    let reading = reading(alloc, key)?;
    Ok(known.insert(key.copy(alloc)?, reading).is_ok())
}

/// The answer arrives, and is noted.
fn arrive(
    alloc: Global,
    core: &mut Core,
    known: &mut Known,
    seat: u32,
    key: &FileKey,
) -> Result<bool, NoMemory>
    ensures { known.new.repos ≡ known.old.repos }
{
    if !absorb(alloc, core, seat, key)? {
        return Ok(false);
    }
    keep(alloc, known, key)
}

/// The kind of an end by a number that was thrown: where the cache lacks nothing, a claim is given
/// back instead.
fn kind_of(thrown: u32, lacks: bool) -> u32 {
    if thrown == 1 && !lacks { 3 } else { thrown }
}

/// Whether an end of this kind is a failure of the link.
fn is_link(kind: u32) -> bool {
    kind > 1 && kind % 2 == 0
}

/// What became of a key after the end of its claim.
fn ended(fate: Fate, kind: u32) -> Fate {
    Fate {
        known: kind == 0,
        holder: None,
        breaks: fate.breaks.saturating_add(u32::from(is_link(kind))),
        lacking: kind == 1,
    }
}

/// Ends a claim, or tries to: kind 0 is an arrival, 1 that the cache lacks the key, and of the
/// others half are failures of the link.
fn finish(
    alloc: Global,
    core: &mut Core,
    known: &mut Known,
    seat: u32,
    key: &FileKey,
    kind: u32,
) -> Result<bool, NoMemory>
    ensures { known.new.repos ≡ known.old.repos }
{
    match kind {
        0 => arrive(alloc, core, known, seat, key),
        1 => Ok(core.broke(seat, key, Why::NotCached).is_ok()),
        _ if is_link(kind) => Ok(core.broke(seat, key, Why::Link).is_ok()),
        _ => Ok(core.give_back(seat, key).is_ok()),
    }
}

/// A row, wherever there is one.
fn row_at(rows: &[Row], number: u32) -> Option<&Row> {
    if rows.is_empty() {
        return None;
    }
    rows.get(number as usize % rows.len())
}

/// Ends a claim of some key, or tries to, and notes it. It says whether that came out as it should.
fn end(
    alloc: Global,
    core: &mut Core,
    book: &mut Book,
    way: Way,
    dice: &mut Dice,
) -> Result<bool, NoMemory>
    ensures { book.new.known.repos ≡ book.old.known.repos }
{
    let Some(row) = row_at(book.rows.as_slice(), dice.roll(60)) else {
        return Ok(true);
    };
    let fate = row.fate;
    let key = row.key.copy(alloc)?;
    let seat = dice.roll(2);
    let own = fate.holder == Some(seat);
    let kind = kind_of(dice.roll(u32::from(way.ends) + 1), way.lacks);
    if own {
        put(alloc, &mut book.rows, &key, ended(fate, kind))?;
        book.tally.events = book.tally.events.saturating_add(1);
    }
    let done = finish(alloc, core, &mut book.known, seat, &key, kind)?;
    Ok(done == own)
}

/// A claim, or an end. It says whether that came out as it should.
fn turn<L: Ledger>(
    alloc: Global,
    core: &mut Core,
    book: &mut Book,
    ask: &Ask,
    way: Way,
    dice: &mut Dice,
    steps: &mut Steps<L>,
) -> Result<bool, NoMemory>
    requires { ask.now.repos ≡ book.old.known.repos }
    ensures { book.new.known.repos ≡ book.old.known.repos }
{
    if dice.roll(2) == 0 {
        return end(alloc, core, book, way, dice);
    }
    let wanted = expected(alloc, book, ask, way, steps)?;
    let told = said(alloc, core, book, dice.roll(2), steps)?;
    Ok(told.as_str() == wanted.as_str())
}

/// What came of a session, where all came out as it should and the core counts as many events.
fn run<L: Ledger>(alloc: Global, way: Way, blank: Blank) -> Result<Option<Tally>, NoMemory>
    requires name { blank.name ≡ L.name }
    requires parts { blank.parts ≡ L.parts }
    requires some { 0 < blank.parts }
{
    let mut steps: Steps<L> = Steps::new(blank);
    let mut dice = Dice {
        state: u64::from(way.ends),
    };
    let mut book = Book {
        rows: Vec::new(alloc),
        tally: Tally::NOTHING,
        known: Known::new(alloc, 3),
    };
    let asked = ask(alloc, "c a b", way.files)?;
    let own = ask(alloc, "c a b", way.files)?;
    let mut core = Core::new(alloc, own, way.eager, way.retries, way.limits)?;
    for _turn in 0..way.turns {
        if !turn(
            alloc, &mut core, &mut book, &asked, way, &mut dice, &mut steps,
        )? {
            return Ok(None);
        }
    }
    if core.events().len() != book.tally.events {
        return Ok(None);
    }
    Ok(Some(book.tally))
}

fn counted(alloc: Global, way: Way) -> Result<Option<Tally>, NoMemory> {
    run::<Brand>(alloc, way, Blank::new(1))
}

fn way(flags: &str, retries: u32, claims: u32, ends: u8, turns: u32) -> Way {
    Way {
        eager: flags.contains('e'),
        files: flags.contains('f'),
        lacks: flags.contains('l'),
        retries,
        limits: CoreLimits {
            claims,
            hint_claims: claims / 2,
        },
        ends,
        turns,
    }
}

#[test]
fn random_sessions(rt: HostRuntime) -> Result<(), Fail> {
    let alloc = rt.alloc();
    let mut all = Tally::NOTHING;
    for (flags, retries, claims, ends, turns, least) in [
        ("ef", 4000, 4000, 60, 5000, 1000),
        ("", 4000, 4000, 40, 1500, 200),
        ("f", 4000, 4000, 0, 3000, 20),
        ("ef", 4000, 4000, 3, 400, 20),
        ("l", 2, 4000, 4, 300, 10),
        ("el", 1, 40, 8, 300, 5),
        ("e", 4000, 20, 9, 300, 20),
        ("efl", 0, 9, 6, 100, 3),
    ] {
        let tally = counted(alloc, way(flags, retries, claims, ends, turns))?;
        assert!(rt; tally.is_some(), "another answer at ends {ends}");
        let came = tally.unwrap_or(Tally::NOTHING);
        assert!(rt;
            came.events >= least,
            "{} events at ends {ends}",
            came.events
        );
        all = all.and(came);
    }
    assert!(rt; all.claimed > 0 && all.none_now > 0 && all.too_many > 0);
    assert!(rt; all.stuck > 0 && all.over > 0);
    Ok(())
}
