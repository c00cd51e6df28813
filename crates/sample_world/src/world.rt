//! The generated world.
ghost use Rattle.std.specs.Prelude.{◌≡◌, ◌++◌, ◌∷◌, [], ◌<◌, ◌≤◌, ◌^◌, IfOk, OnOk};
ghost use Rattle.sample_world.specs.Projects.{release, state_behind};
ghost use Rattle.sample_world.specs.World.{module_rows, row_from, sample_rows, state_behind_module, url_text};

use crate::draws::Draws;
use crate::projects::{Release, dependencies, project};
use res_base::{NoMemory, Text, World};
use std::alloc::Global;

/// The URL of a release's project file, in the Maven 2 repository layout.
fn url(alloc: Global, release: Release) -> Result<Text, NoMemory>
    ensures { IfOk result (λ url. url ≡ url_text release) }
{
    let Release { number, version } = release;
    let url = format!(in alloc;
        "http://sample/s/m/m{number}/1.{version}/m{number}-1.{version}.pom"
    )?;
    Ok(Text::from_string(url))
}

/// Puts the file of a release into a world.
fn add_release(
    alloc: Global,
    world: &mut World,
    count: u64,
    release: Release,
    draws: &mut Draws,
) -> Result<(), NoMemory>
    requires { release.number < 2 ^ 32 }
    ensures rows { OnOk result (world.new.rows ≡ world.old.rows ++ row_from count release draws.old.state ∷ []) }
    ensures state { OnOk result (draws.new.state ≡ state_behind draws.old.state) }
{
    let wanted = dependencies(alloc, count, release.number, draws)?;
    let text = project(alloc, release, &wanted)?;
    let url = url(alloc, release)?;
    world.add(alloc, url.as_str(), text.as_bytes())
}

/// Puts the files of a module's three releases into a world.
fn add_module(
    alloc: Global,
    world: &mut World,
    count: u64,
    number: u64,
    draws: &mut Draws,
) -> Result<(), NoMemory>
    requires { number < 2 ^ 32 }
    ensures rows { OnOk result (world.new.rows ≡ world.old.rows ++ module_rows count number draws.old.state) }
    ensures state { OnOk result (draws.new.state ≡ state_behind_module draws.old.state) }
{
    add_release(alloc, world, count, Release { number, version: 0 }, draws)?;
    add_release(alloc, world, count, Release { number, version: 1 }, draws)?;
    add_release(alloc, world, count, Release { number, version: 2 }, draws)?;
    Ok(())
}

/// A repository at `http://sample` that is made up from a seed: `count` modules, 1 to 10,000, called
/// `s.m:m0` and so on, each with the versions 1.0, 1.1 and 1.2. A release depends on the two modules
/// below its own in a binary tree, and on at most two that are drawn.
///
/// The same seed and count give the same files everywhere.
pub fn make_world(alloc: Global, seed: u64, count: u32) -> Result<World, NoMemory>
    requires some { 1 ≤ count }
    requires most { count ≤ 10000 }
    ensures { IfOk result (λ world. world.rows ≡ sample_rows seed count) }
{
    let mut world = World::new(alloc);
    let mut draws = Draws { state: seed };
    let count = count as u64;
    for number in 0..count {
        add_module(alloc, &mut world, count, number, &mut draws)?;
    }
    Ok(world)
}
