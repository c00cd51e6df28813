//! The call, with ample memory.
ghost use Rattle.std.specs.Prelude.{◌≡◌, ◌<◌, true};
ghost use Rattle.project_lookup.specs.KnownPairs.{stands_at};
ghost use Rattle.res_base.specs.declared.key.Role.TheVariants.{Pom};

use pom_build::{Build, effective};
use project_lookup::Known;
use res_base::{
    Coord, DepRecord, FileKey, List, Module, NoMemory, PomRecord, Reading, Role, Steps, Text,
    parse_coord, pom_path,
};
use std::alloc::Global;
use std::marker::Brand;
use std::sync::ledger::{Blank, Ledger};
use std::test::Fail;

fn coord(alloc: Global, text: &str) -> Result<Coord, NoMemory> {
    match parse_coord(alloc, text) {
        Ok(coord) => Ok(coord),
        Err(_) => Err(NoMemory),
    }
}

fn record(alloc: Global, own: Coord, parent: Option<Coord>) -> PomRecord {
    let Coord { module, version } = own;
    let Module { org, name } = module;
    PomRecord {
        parent,
        org,
        name,
        version,
        packaging: Text::new(alloc),
        properties: List::new(alloc),
        deps: List::new(alloc),
        managed: List::new(alloc),
        moved: None,
    }
}

fn row(alloc: Global, module: Module, version: Text) -> DepRecord {
    DepRecord {
        module,
        version,
        kind: Text::new(alloc),
        classifier: Text::new(alloc),
        scope: Text::new(alloc),
        optional: Text::new(alloc),
        exclusions: List::new(alloc),
    }
}

fn put(alloc: Global, known: &mut Known, at: &Coord, reading: Reading) -> Result<(), NoMemory>
    requires repo { 0 < known.old.repos }
    requires role { stands_at reading Pom ≡ true }
    ensures { known.new.repos ≡ known.old.repos }
{
    let path = pom_path(alloc, at)?;
    let role = Role::Pom;
    let key = FileKey {
        repo: 0,
        role,
        path,
    };
    match known.insert(key, reading) {
        Ok(()) => Ok(()),
        Err(_) => Err(NoMemory),
    }
}

fn counted<L: Ledger>(
    alloc: Global,
    known: &Known,
    coord: &Coord,
    blank: Blank,
) -> Result<Build, NoMemory>
    requires name { blank.name ≡ L.name }
    requires parts { blank.parts ≡ L.parts }
    requires some { 0 < blank.parts }
{
    let mut steps: Steps<L> = Steps::new(blank);
    effective(alloc, known, coord, &mut steps)
}

fn build(alloc: Global, known: &Known, text: &str) -> Result<Build, NoMemory> {
    let coord = coord(alloc, text)?;
    counted::<Brand>(alloc, known, &coord, Blank::new(1))
}

/// `x:p:1`, which manages `x:m:2`.
fn put_parent(alloc: Global, known: &mut Known) -> Result<(), NoMemory>
    requires { 0 < known.old.repos }
    ensures { known.new.repos ≡ known.old.repos }
{
    let Coord { module, version } = coord(alloc, "x:m:2")?;
    let mut pom = record(alloc, coord(alloc, "x:p:1")?, None);
    pom.managed.push(row(alloc, module, version))?;
    put(alloc, known, &coord(alloc, "x:p:1")?, Reading::Pom(pom))
}

/// `x:a:1` with that parent, which depends on `x:m` without a version.
fn put_child(alloc: Global, known: &mut Known) -> Result<(), NoMemory>
    requires { 0 < known.old.repos }
    ensures { known.new.repos ≡ known.old.repos }
{
    let Coord { module, .. } = coord(alloc, "x:m:0")?;
    let parent = coord(alloc, "x:p:1")?;
    let mut pom = record(alloc, coord(alloc, "x:a:1")?, Some(parent));
    pom.deps.push(row(alloc, module, Text::new(alloc)))?;
    put(alloc, known, &coord(alloc, "x:a:1")?, Reading::Pom(pom))
}

/// Whether the one dependency is `x:m:2` with the type `jar` and the scope `compile`.
fn is_managed(build: &Build) -> bool {
    let Build::Built(project) = build else {
        return false;
    };
    let Some(dep) = project.deps.get(0) else {
        return false;
    };
    project.deps.len() == 1
        && dep.version.as_str() == "2"
        && dep.kind.as_str() == "jar"
        && dep.scope.as_str() == "compile"
}

fn is_waiting(build: &Build) -> bool {
    match build {
        Build::Needs(keys) => keys.len() == 1,
        Build::Built(_) | Build::NotFound(_) | Build::Refused(_) => false,
    }
}

#[test]
fn waits_for_the_parent(rt: HostRuntime) -> Result<(), Fail> {
    let alloc = rt.alloc();
    let mut known = Known::new(alloc, 1);
    put_child(alloc, &mut known)?;
    let first = build(alloc, &known, "x:a:1")?;
    put_parent(alloc, &mut known)?;
    let whole = build(alloc, &known, "x:a:1")?;
    assert!(rt; is_waiting(&first) && is_managed(&whole));
    Ok(())
}
