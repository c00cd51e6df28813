//! Small sessions, in all orders of arrival, with ample memory.
ghost use Rattle.std.specs.Prelude.{◌≡◌, ◌<◌, IfOk, true};
ghost use Rattle.project_lookup.specs.KnownPairs.{stands_at};
ghost use Rattle.res_base.specs.declared.key.Role.TheVariants.{Pom};

use super::parts::{answer, ask, coord, key, pom, progress};
use arrival_core::{Core, CoreLimits, Why};
use res_base::{List, NoMemory, Reading, Steps};
use resolution::Ask;
use std::alloc::Global;
use std::marker::Brand;
use std::sync::ledger::{Blank, Ledger};
use std::test::Fail;

/// How a session begins.
#[derive(Clone, Copy, Drop)]
struct Start {
    eager: bool,
    retries: u32,
    limits: CoreLimits,
}

/// One thing of a session, from a word as `p1a0`: what is done, by which seat, to the POM of `x:a:1`
/// in which repository.
#[derive(Clone, Copy, Drop)]
struct Deed {
    kind: char,
    seat: u32,
    name: char,
    repo: u32,
}

fn digit(byte: u8) -> u32 {
    u32::from(byte.saturating_sub(48))
}

fn deed_of(word: &str) -> Deed {
    match word.as_bytes() {
        [kind, seat, name, repo] => Deed {
            kind: char::from(*kind),
            seat: digit(*seat),
            name: char::from(*name),
            repo: digit(*repo),
        },
        [kind, seat, ..] => Deed {
            kind: char::from(*kind),
            seat: digit(*seat),
            name: 'a',
            repo: 0,
        },
        _ => Deed {
            kind: 's',
            seat: 0,
            name: 'a',
            repo: 0,
        },
    }
}

/// A project without dependencies, or that the file is absent.
fn reading(alloc: Global, name: &str, kind: char) -> Result<Reading, NoMemory>
    ensures { IfOk result (λ made. stands_at made Pom ≡ true) }
{
    if kind == 'a' {
        return Ok(Reading::Absent);
    }
    let at = coord(alloc, name, "1")?;
    Ok(Reading::Pom(pom(alloc, at, List::new(alloc))?))
}

/// Ends a claim, and says whether that was taken: `p` and `a` are answers, `b` and `n` break, and
/// `g` gives back.
fn end(alloc: Global, core: &mut Core, deed: Deed) -> Result<bool, NoMemory> {
    let name = format!(in alloc; "{}", deed.name)?;
    let key = key(alloc, name.as_str(), deed.repo)?;
    match deed.kind {
        'b' => Ok(core.broke(deed.seat, &key, Why::Link).is_ok()),
        'n' => Ok(core.broke(deed.seat, &key, Why::NotCached).is_ok()),
        'g' => Ok(core.give_back(deed.seat, &key).is_ok()),
        _ => {
            let reading = reading(alloc, name.as_str(), deed.kind)?;
            Ok(core.absorb(alloc, deed.seat, &key, reading).is_ok())
        }
    }
}

/// Does one thing and says what came of it: `c` claims, `s` tells the progress, and the others end.
fn act<L: Ledger>(
    alloc: Global,
    core: &mut Core,
    steps: &mut Steps<L>,
    deed: Deed,
) -> Result<String, NoMemory> {
    match deed.kind {
        'c' => {
            core.advance(alloc, steps)?;
            answer(alloc, &core.claim(alloc, deed.seat)?)
        }
        's' => {
            core.advance(alloc, steps)?;
            progress(alloc, core.progress())
        }
        _ => {
            let sign = if end(alloc, core, deed)? { "+" } else { "-" };
            Ok(format!(in alloc; "{sign}")?)
        }
    }
}

fn deeds_of(alloc: Global, words: &str) -> Result<Vec<Deed>, NoMemory> {
    let mut deeds = Vec::new(alloc);
    for word in words.split_ascii_whitespace() {
        deeds.push(deed_of(word))?;
    }
    Ok(deeds)
}

/// What came of a session, deed by deed, with a space before each.
fn played<L: Ledger>(
    alloc: Global,
    asked: Ask,
    start: Start,
    deeds: &[Deed],
    blank: Blank,
) -> Result<String, NoMemory>
    requires name { blank.name ≡ L.name }
    requires parts { blank.parts ≡ L.parts }
    requires some { 0 < blank.parts }
    requires repos { asked.repos ≡ 3 }
{
    let mut steps: Steps<L> = Steps::new(blank);
    let mut core = Core::new(alloc, asked, start.eager, start.retries, start.limits)?;
    let mut told = String::new(alloc);
    for deed in deeds {
        let said = act(alloc, &mut core, &mut steps, *deed)?;
        told.push_str(" ")?;
        told.push_str(said.as_str())?;
    }
    Ok(told)
}

fn play(alloc: Global, roots: &str, start: Start, words: &str) -> Result<String, NoMemory> {
    let asked = ask(alloc, roots, false)?;
    let deeds = deeds_of(alloc, words)?;
    played::<Brand>(alloc, asked, start, deeds.as_slice(), Blank::new(1))
}

#[test]
fn sessions_end_alike(rt: HostRuntime) -> Result<(), Fail> {
    let alloc = rt.alloc();
    let start = Start {
        eager: false,
        retries: 0,
        limits: CoreLimits {
            claims: 9,
            hint_claims: 9,
        },
    };
    for (one, two, three, first, second) in [
        ("p0a0", "p1b0", "p2c0", "b1p0c1p0", "c1p0"),
        ("p0a0", "p2c0", "p1b0", "b1p0c1p0", "b1p0"),
        ("p1b0", "p0a0", "p2c0", "a1p0c1p0", "c1p0"),
        ("p1b0", "p2c0", "p0a0", "a1p0c1p0", "a1p0"),
        ("p2c0", "p0a0", "p1b0", "a1p0b1p0", "b1p0"),
        ("p2c0", "p1b0", "p0a0", "a1p0b1p0", "a1p0"),
    ] {
        let deeds = format!(in alloc; "c0 c1 c2 c3 p3a0 {one} s c3 {two} s c3 {three} s c3")?;
        let told = play(alloc, "c a b", start, deeds.as_str())?;
        let wanted = format!(in alloc;
            " a1p0 b1p0 c1p0 N - + W1:a1b1c1:{first} N + W1:a1b1c1:{second} N + D2:a1.0b1.0c1.0:3 O"
        )?;
        assert_eq!(rt; told.as_str(), wanted.as_str());
    }
    Ok(())
}

#[test]
fn limits_breaks_and_hints(rt: HostRuntime) -> Result<(), Fail> {
    let alloc = rt.alloc();
    for (roots, eager, retries, claims, hint_claims, deeds, wanted) in [
        // All claims were made: a need is free, or none is.
        ("a b c", false, 0, 2, 0, "c0 c1 c2", " a1p0 b1p0 T"),
        ("a b", false, 0, 2, 0, "c0 c1 c2", " a1p0 b1p0 N"),
        ("a b", false, 0, 1, 0, "c0 b0a0 c1", " a1p0 + T"),
        // A key breaks at its second failure, and not by being given back.
        (
            "a",
            false,
            1,
            9,
            0,
            "c0 b0a0 c1 g1a0 c1 b0a0 c2 b1a0 c2",
            " a1p0 + a1p0 + a1p0 - N + Sa1p0",
        ),
        // What the cache lacks breaks at once; another need is still in flight, or free.
        (
            "a b",
            false,
            3,
            9,
            0,
            "c0 c1 n0a0 c2 n1b0 c2",
            " a1p0 b1p0 + N + Sa1p0",
        ),
        (
            "a b",
            false,
            0,
            9,
            0,
            "c0 b0a0 c1 b1b0 c2",
            " a1p0 + b1p0 + Sa1p0",
        ),
        (
            "a b",
            false,
            0,
            9,
            0,
            "c0 b0a0 c1 p1b0 c2",
            " a1p0 + b1p0 + Sa1p0",
        ),
        // One root in three repositories.
        (
            "a",
            true,
            0,
            9,
            9,
            "c0 c1 c2 c3 p1a1 s a0a0 s c3",
            " a1p0 a1p1 a1p2 N + W1:a1:a1p0 + D2:a1.1:1 O",
        ),
        ("a", true, 0, 9, 1, "c0 c1", " a1p0 N"),
        // A need comes before hints; hints that break end nothing, and none is claimed alone.
        (
            "a b",
            true,
            0,
            9,
            9,
            "c0 c1 c2 b2a1 b0a0 b1b0 c3",
            " a1p0 b1p0 a1p1 + + + Sa1p0",
        ),
        (
            "a",
            true,
            0,
            9,
            9,
            "c0 c1 b0a0 c2 b1a1 c3",
            " a1p0 a1p1 + a1p2 + N",
        ),
    ] {
        let start = Start {
            eager,
            retries,
            limits: CoreLimits {
                claims,
                hint_claims,
            },
        };
        let told = play(alloc, roots, start, deeds)?;
        assert_eq!(rt; told.as_str(), wanted);
    }
    Ok(())
}
