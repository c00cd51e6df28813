//! The calls, with ample memory.
ghost use Rattle.std.specs.Prelude.{◌≡◌, ◌<◌, IfOk};

use project_lookup::Known;
use reconcile_rules::Rule;
use res_base::{
    Coord, DepRecord, FileKey, List, Module, NoMemory, PomRecord, Reading, Role, Steps, Text,
    parse_coord, pom_path,
};
use round_core::{Ask, Progress, Verdict, rounds_plain};
use scope_rules::Configuration;
use std::alloc::Global;
use std::marker::Brand;
use std::sync::ledger::{Blank, Ledger};
use std::test::Fail;

fn coord(alloc: Global, text: &str) -> Result<Coord, NoMemory> {
    match parse_coord(alloc, text) {
        Ok(coord) => Ok(coord),
        Err(_) => Err(NoMemory),
    }
}

fn row(alloc: Global, text: &str) -> Result<DepRecord, NoMemory> {
    let Coord { module, version } = coord(alloc, text)?;
    Ok(DepRecord {
        module,
        version,
        kind: Text::new(alloc),
        classifier: Text::new(alloc),
        scope: Text::new(alloc),
        optional: Text::new(alloc),
        exclusions: List::new(alloc),
    })
}

/// Puts in the POM of a project with one dependency, or none.
fn put(alloc: Global, known: &mut Known, text: &str, dep: &str) -> Result<(), NoMemory>
    requires { 0 < known.old.repos }
    ensures { known.new.repos ≡ known.old.repos }
{
    let at = coord(alloc, text)?;
    let path = pom_path(alloc, &at)?;
    let Coord { module, version } = at;
    let Module { org, name } = module;
    let mut deps: List<DepRecord> = List::new(alloc);
    if !dep.is_empty() {
        deps.push(row(alloc, dep)?)?;
    }
    let pom = PomRecord {
        parent: None,
        org,
        name,
        version,
        packaging: Text::new(alloc),
        properties: List::new(alloc),
        deps,
        managed: List::new(alloc),
        moved: None,
    };
    let key = FileKey {
        repo: 0,
        role: Role::Pom,
        path,
    };
    match known.insert(key, Reading::Pom(pom)) {
        Ok(()) => Ok(()),
        Err(_) => Err(NoMemory),
    }
}

fn ask(alloc: Global, root: &str, rounds: u32) -> Result<Ask, NoMemory>
    ensures { IfOk result (λ made. made.repos ≡ 1) }
{
    let mut roots: List<Coord> = List::new(alloc);
    roots.push(coord(alloc, root)?)?;
    Ok(Ask {
        roots,
        forced: List::new(alloc),
        boms: List::new(alloc),
        excludes: List::new(alloc),
        configuration: Configuration::Default,
        rule: Rule::Default,
        rounds,
        repos: 1,
        files: false,
    })
}

/// A chain of four projects.
fn chain(alloc: Global) -> Result<Known, NoMemory>
    ensures { IfOk result (λ made. made.repos ≡ 1) }
{
    let mut known = Known::new(alloc, 1);
    put(alloc, &mut known, "x:a:1", "x:b:1")?;
    put(alloc, &mut known, "x:b:1", "x:c:1")?;
    put(alloc, &mut known, "x:c:1", "x:d:1")?;
    put(alloc, &mut known, "x:d:1", "")?;
    Ok(known)
}

/// The letter of the verdict and the number of its round or rounds, or of the rounds done.
fn counted<L: Ledger>(
    alloc: Global,
    known: &Known,
    ask: &Ask,
    blank: Blank,
) -> Result<(char, u32), NoMemory>
    requires name { blank.name ≡ L.name }
    requires parts { blank.parts ≡ L.parts }
    requires some { 0 < blank.parts }
    requires repos { ask.now.repos ≡ known.now.repos }
{
    let mut steps: Steps<L> = Steps::new(blank);
    match rounds_plain(alloc, known, ask, &mut steps)? {
        Progress::Waiting { round, .. } => Ok(('W', round)),
        Progress::Over(Verdict::Settled(settled)) => Ok(('S', settled.round)),
        Progress::Over(Verdict::Unsettled(rounds)) => Ok(('U', rounds)),
        Progress::Over(_) => Ok(('F', 0)),
    }
}

fn outcome(alloc: Global, known: &Known, root: &str, rounds: u32) -> Result<(char, u32), NoMemory>
    requires { known.now.repos ≡ 1 }
{
    let ask = ask(alloc, root, rounds)?;
    counted::<Brand>(alloc, known, &ask, Blank::new(1))
}

#[test]
fn settles_within_the_limit(rt: HostRuntime) -> Result<(), Fail> {
    let alloc = rt.alloc();
    let known = chain(alloc)?;
    let five = outcome(alloc, &known, "x:a:1", 5)?;
    let four = outcome(alloc, &known, "x:a:1", 4)?;
    let other = outcome(alloc, &known, "x:e:1", 4)?;
    assert!(rt; five == ('S', 5) && four == ('U', 4) && other == ('W', 1));
    Ok(())
}
