//! The projects of sessions at random. Each is in one of three repositories.
ghost use Rattle.std.specs.Prelude.{◌≡◌, IfOk, true};
ghost use Rattle.project_lookup.specs.KnownPairs.{stands_at};

use super::parts::{coord, letter_at, pom};
use res_base::{DepRecord, FileKey, List, NoMemory, PomRecord, Reading, Role, Text};
use std::alloc::Global;

/// What a project needs. Where `d:2` comes, `d:1` and with it `k:1` leave again.
fn needed_by(project: &str) -> &'static str {
    match project {
        "a1" => "d:1 e:1",
        "b1" => "g:1",
        "c1" => "h:[1,2] j:1",
        "d1" => "k:1",
        "d2" => "e:2",
        "g1" => "d:2",
        _ => "",
    }
}

fn dep(alloc: Global, name: &str, version: &str) -> Result<DepRecord, NoMemory> {
    let to = coord(alloc, name, version)?;
    Ok(DepRecord {
        module: to.module,
        version: to.version,
        kind: Text::new(alloc),
        classifier: Text::new(alloc),
        scope: Text::new(alloc),
        optional: Text::new(alloc),
        exclusions: List::new(alloc),
    })
}

fn deps(alloc: Global, words: &str) -> Result<List<DepRecord>, NoMemory> {
    let mut deps: List<DepRecord> = List::new(alloc);
    for word in words.split_ascii_whitespace() {
        if let Some((name, version)) = word.split_once(':') {
            deps.push(dep(alloc, name, version)?)?;
        }
    }
    Ok(deps)
}

fn project(alloc: Global, key: &FileKey) -> Result<PomRecord, NoMemory> {
    let name = format!(in alloc; "{}", letter_at(key, 2))?;
    let version = format!(in alloc; "{}", letter_at(key, 4))?;
    let both = format!(in alloc; "{}{}", name.as_str(), version.as_str())?;
    let deps = deps(alloc, needed_by(both.as_str()))?;
    pom(alloc, coord(alloc, name.as_str(), version.as_str())?, deps)
}

fn versions(alloc: Global) -> Result<List<Text>, NoMemory> {
    let mut versions: List<Text> = List::new(alloc);
    for version in ["1", "2", "3"] {
        versions.push(Text::of(alloc, version)?)?;
    }
    Ok(versions)
}

/// The repository that has a file.
fn home(key: &FileKey) -> u32 {
    (u32::from(letter_at(key, 2)) % 3 + u32::from(letter_at(key, 4)) % 3) % 3
}

/// What arrives for a key.
pub(crate) fn reading(alloc: Global, key: &FileKey) -> Result<Reading, NoMemory>
    ensures { IfOk result (λ made. stands_at made key.now.role ≡ true) }
{
    if home(key) != key.repo {
        return Ok(Reading::Absent);
    }
    match key.role {
        Role::Pom => Ok(Reading::Pom(project(alloc, key)?)),
        Role::Listing => Ok(Reading::Listing(versions(alloc)?)),
        Role::Artifact => Ok(Reading::Stored(3)),
    }
}
