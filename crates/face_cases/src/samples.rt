//! Generated repositories.
//!
//! - `sample SEED COUNT`: the number of rows of the generated world, and the SHA-256 of its rows
//!   joined: of each the URL, a line feed, the bytes, a line feed.
//! - `sample-line SEED COUNT`: `modules M rounds R reads K` of the resolution of its root.
ghost use Rattle.std.specs.Prelude.{◌≡◌, ◌≤◌, ◌<◌, IfOk, true};
ghost use Rattle.project_lookup.specs.KnownPairs.{stands_at};
ghost use Rattle.res_base.specs.declared.key.Role.TheVariants as roles;

use case_words::case_error::CaseError;
use case_words::hex_word::hex_word;
use digest_check::Sums;
use project_cases::lookups::put;
use project_cases::poms::pom_of;
use project_lookup::Known;
use reconcile_rules::Rule;
use res_base::{
    Coord, Copied, FileKey, List, Module, NoMemory, Reading, Role, Steps, Text, World, url_of,
};
use round_core::{Ask, Progress, Verdict, rounds_plain};
use sample_world::make_world;
use scope_rules::Configuration;
use std::alloc::Global;
use std::marker::Brand;
use std::sync::ledger::{Blank, Ledger};

fn seed_of(word: &str) -> Result<u64, CaseError> {
    match word.parse::<u64>() {
        Ok(seed) => Ok(seed),
        Err(_) => Err(CaseError::OutOfForm),
    }
}

fn count_of(word: &str) -> Result<u32, CaseError>
    ensures some { IfOk result (λ count. 1 ≤ count) }
    ensures most { IfOk result (λ count. count ≤ 10000) }
{
    match word.parse::<u32>() {
        Ok(count) if 1 <= count && count <= 10_000 => Ok(count),
        _ => Err(CaseError::OutOfForm),
    }
}

pub fn sample(alloc: Global, fields: &[&str]) -> Result<String, CaseError> {
    let [seed, count] = fields else {
        return Err(CaseError::OutOfForm);
    };
    let world = make_world(alloc, seed_of(seed)?, count_of(count)?)?;
    let mut sums = Sums::new();
    for row in world.rows.as_slice() {
        sums.update(row.url.as_bytes());
        sums.update(b"\n");
        sums.update(row.bytes.as_slice());
        sums.update(b"\n");
    }
    let digest = sums.finish().sha256;
    let rows = world.rows.len();
    let digest = hex_word(alloc, digest.as_slice())?;
    Ok(format!(in alloc; "{rows} {digest}")?)
}

fn ask_of(alloc: Global) -> Result<Ask, NoMemory>
    ensures { IfOk result (λ ask. ask.repos ≡ 1) }
{
    let mut roots = List::new(alloc);
    roots.push(Coord {
        module: Module {
            org: Text::of(alloc, "s.m")?,
            name: Text::of(alloc, "m0")?,
        },
        version: Text::of(alloc, "1.0")?,
    })?;
    Ok(Ask {
        roots,
        forced: List::new(alloc),
        boms: List::new(alloc),
        excludes: List::new(alloc),
        configuration: Configuration::Default,
        rule: Rule::Default,
        rounds: 1000,
        repos: 1,
        files: false,
    })
}

fn counted<L: Ledger>(
    alloc: Global,
    known: &Known,
    ask: &Ask,
    blank: Blank,
) -> Result<Progress, NoMemory>
    requires name { blank.name ≡ L.name }
    requires parts { blank.parts ≡ L.parts }
    requires some { 0 < blank.parts }
    requires repos { ask.now.repos ≡ known.now.repos }
{
    let mut steps: Steps<L> = Steps::new(blank);
    rounds_plain(alloc, known, ask, &mut steps)
}

/// What the world holds at the path of a project file.
fn reading_at(alloc: Global, world: &World, path: &str) -> Result<Reading, CaseError>
    ensures { IfOk result (λ reading. stands_at reading roles.Pom ≡ true) }
{
    let url = url_of(alloc, "http://sample", path)?;
    let Some(bytes) = world.at(url.as_str()) else {
        return Ok(Reading::Absent);
    };
    match pom_of(alloc, bytes)? {
        Ok(pom) => Ok(Reading::Pom(pom)),
        Err(fault) => Ok(Reading::NotReadable(fault)),
    }
}

/// Puts in what the world holds of a project file that is needed.
fn put_need(
    alloc: Global,
    world: &World,
    known: &mut Known,
    need: &FileKey,
) -> Result<(), CaseError>
    ensures { known.new.repos ≡ known.old.repos }
{
    let key = FileKey {
        repo: 0,
        role: Role::Pom,
        path: need.path.copy(alloc)?,
    };
    put(known, key, reading_at(alloc, world, need.path.as_str())?)
}

fn put_needs(
    alloc: Global,
    world: &World,
    known: &mut Known,
    needs: &[FileKey],
) -> Result<(), CaseError>
    ensures { known.new.repos ≡ known.old.repos }
{
    for need in needs {
        put_need(alloc, world, known, need)?;
    }
    Ok(())
}

/// The verdict over all that is asked of the world, and how many files that were.
fn verdict_of(alloc: Global, world: &World) -> Result<(Verdict, usize), CaseError> {
    let ask = ask_of(alloc)?;
    let mut known = Known::new(alloc, 1);
    for _turn in 0..100_000 {
        match counted::<Brand>(alloc, &known, &ask, Blank::new(1))? {
            Progress::Over(verdict) => return Ok((verdict, known.len())),
            Progress::Waiting { needs, .. } => {
                put_needs(alloc, world, &mut known, needs.as_slice())?;
            }
        }
    }
    Err(CaseError::OutOfForm)
}

fn verdict_line(alloc: Global, verdict: &Verdict, reads: usize) -> Result<String, CaseError> {
    let Verdict::Settled(settled) = verdict else {
        return Err(CaseError::OutOfForm);
    };
    let modules = settled.nodes.len();
    let rounds = settled.round;
    Ok(format!(in alloc; "modules {modules} rounds {rounds} reads {reads}")?)
}

pub fn sample_line(alloc: Global, fields: &[&str]) -> Result<String, CaseError> {
    let [seed, count] = fields else {
        return Err(CaseError::OutOfForm);
    };
    let world = make_world(alloc, seed_of(seed)?, count_of(count)?)?;
    let (verdict, reads) = verdict_of(alloc, &world)?;
    verdict_line(alloc, &verdict, reads)
}
