//! The calls, with ample memory.
ghost use Rattle.std.specs.Prelude.{◌≡◌, ◌<◌, true};
ghost use Rattle.project_lookup.specs.KnownPairs.{stands_at};
ghost use Rattle.res_base.specs.declared.key.Role.TheVariants.{Pom};

use project_lookup::{Known, ListingAt, Look};
use res_base::{Coord, FileKey, Module, NoMemory, ReadFault, Reading, Role, Text, pom_path};
use std::alloc::Global;
use std::test::Fail;

fn coord(alloc: Global, version: &str) -> Result<Coord, NoMemory> {
    Ok(Coord {
        module: Module {
            org: Text::of(alloc, "x")?,
            name: Text::of(alloc, "a")?,
        },
        version: Text::of(alloc, version)?,
    })
}

/// Puts in what is known of the POM of `x:a:1` in a repository, and says whether it was new.
fn put(alloc: Global, known: &mut Known, repo: u32, reading: Reading) -> Result<bool, NoMemory>
    requires repo { repo < known.old.repos }
    requires role { stands_at reading Pom ≡ true }
    ensures { known.new.repos ≡ known.old.repos }
{
    let path = pom_path(alloc, &coord(alloc, "1")?)?;
    let role = Role::Pom;
    Ok(known.insert(FileKey { repo, role, path }, reading).is_ok())
}

/// The letter of the answer, and its repository or the number of its reasons.
fn look(alloc: Global, known: &Known, version: &str) -> Result<(char, usize), NoMemory> {
    Ok(match known.look(alloc, &coord(alloc, version)?)? {
        Look::Found(repo, _) => ('F', repo as usize),
        Look::Missing(key) => ('M', key.repo as usize),
        Look::NotFound(reasons) => ('N', reasons.len()),
    })
}

/// Likewise for a repository's listing of `x:a`, where there is such a repository.
fn listing(alloc: Global, known: &Known, repo: u32) -> Result<(char, usize), NoMemory> {
    if known.repos() <= repo {
        return Ok(('-', 0));
    }
    Ok(
        match known.listing_at(alloc, &coord(alloc, "1")?.module, repo)? {
            ListingAt::Versions(versions) => ('V', versions.len()),
            ListingAt::Unknown(key) => ('U', key.repo as usize),
            ListingAt::NoListing => ('N', 0),
        },
    )
}

#[test]
fn looks_in_listed_order(rt: HostRuntime) -> Result<(), Fail> {
    let alloc = rt.alloc();
    let mut known = Known::new(alloc, 2);
    put(
        alloc,
        &mut known,
        1,
        Reading::NotReadable(ReadFault::NotProject),
    )?;
    let first = look(alloc, &known, "1")?;
    put(alloc, &mut known, 0, Reading::TooLarge)?;
    let all = look(alloc, &known, "1")?;
    assert!(rt; first == ('M', 0) && all == ('N', 2));
    Ok(())
}

#[test]
fn asks_nothing(rt: HostRuntime) -> Result<(), Fail> {
    let known = Known::new(rt.alloc(), 2);
    let interval = look(rt.alloc(), &known, "[1,2)")?;
    let second = listing(rt.alloc(), &known, 1)?;
    assert!(rt; interval == ('N', 2) && second == ('U', 1));
    Ok(())
}

#[test]
fn knows_a_key_once(rt: HostRuntime) -> Result<(), Fail> {
    let alloc = rt.alloc();
    let mut known = Known::new(alloc, 1);
    let new = put(alloc, &mut known, 0, Reading::Absent)?;
    let again = put(alloc, &mut known, 0, Reading::TooLarge)?;
    assert!(rt; new && !again && known.len() == 1);
    Ok(())
}
