//! The project files of the generated world.
ghost use Rattle.std.specs.Prelude.{◌≡◌, ◌++◌, ◌<◌, ◌≤◌, ◌^◌, IfOk, OnOk};
ghost use Rattle.std.specs.List.{flat_map};
ghost use Rattle.sample_world.specs.Draws.{state_after};
ghost use Rattle.sample_world.specs.Projects.{dependency_text, drawn_release, head_text, project_text, release, releases_from, state_behind, tree_releases, where_made};

use crate::draws::Draws;
use res_base::{List, NoMemory, Text};
use std::alloc::Global;

/// A release of a generated module: its number, and K of its version 1.K.
#[derive(Clone, Copy, Debug, Drop)]
pub(crate) struct Release {
    pub number: u64,
    pub version: u64,
}

/// Puts a release into a list where there is such a module among so many.
fn push_where_made(
    wanted: &mut List<Release>,
    count: u64,
    number: u64,
    version: u64,
) -> Result<(), NoMemory>
    ensures { OnOk result (wanted.new ≡ wanted.old ++ where_made count (release number version)) }
{
    if number < count {
        wanted.push(Release { number, version })?;
    }
    Ok(())
}

/// Puts the release that two draws give into a list.
fn push_drawn(
    wanted: &mut List<Release>,
    count: u64,
    number: u64,
    draws: &mut Draws,
) -> Result<(), NoMemory>
    requires { number < 2 ^ 32 }
    ensures releases { OnOk result (wanted.new ≡ wanted.old ++ drawn_release count number (state_after draws.old.state) draws.new.state) }
    ensures state { draws.new.state ≡ state_after (state_after draws.old.state) }
{
    let far = draws.draw(8);
    let version = draws.draw(3);
    push_where_made(wanted, count, 4 * number + 3 + far, version)
}

/// The dependencies of a module's release, for which four numbers are drawn.
pub(crate) fn dependencies(
    alloc: Global,
    count: u64,
    number: u64,
    draws: &mut Draws,
) -> Result<List<Release>, NoMemory>
    requires { number < 2 ^ 32 }
    ensures releases { IfOk result (λ wanted. wanted ≡ releases_from count number draws.old.state) }
    ensures state { OnOk result (draws.new.state ≡ state_behind draws.old.state) }
{
    let mut wanted = List::new(alloc);
    push_where_made(&mut wanted, count, 2 * number + 1, 0)?;
    push_where_made(&mut wanted, count, 2 * number + 2, 0)?;
    push_drawn(&mut wanted, count, number, draws)?;
    push_drawn(&mut wanted, count, number, draws)?;
    Ok(wanted)
}

/// The element of a dependency on a release.
fn dependency(alloc: Global, wanted: &Release) -> Result<Text, NoMemory>
    ensures { IfOk result (λ text. text ≡ dependency_text wanted.now) }
{
    let Release { number, version } = wanted;
    let text = format!(in alloc;
        "<dependency><groupId>s.m</groupId><artifactId>m{number}</artifactId><version>1.{version}</version></dependency>"
    )?;
    Ok(Text::from_string(text))
}

/// What stands before the dependencies of a release.
fn head(alloc: Global, release: Release) -> Result<Text, NoMemory>
    ensures { IfOk result (λ text. text ≡ head_text release) }
{
    let Release { number, version } = release;
    let text = format!(in alloc;
        "<project><modelVersion>4.0.0</modelVersion><groupId>s.m</groupId><artifactId>m{number}</artifactId><version>1.{version}</version><dependencies>"
    )?;
    Ok(Text::from_string(text))
}

/// The project file of a release with these dependencies.
pub(crate) fn project(
    alloc: Global,
    release: Release,
    wanted: &List<Release>,
) -> Result<Text, NoMemory>
    ensures { IfOk result (λ text. text ≡ project_text release wanted.now) }
{
    let mut text = head(alloc, release)?;
    for release in wanted.as_slice() {
        let element = dependency(alloc, release)?;
        text.push_str(element.as_str())?;
    }
    text.push_str("</dependencies></project>")?;
    Ok(text)
}
