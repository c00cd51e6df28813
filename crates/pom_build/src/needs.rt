//! The keys that imports need.
ghost use Rattle.std.specs.Prelude.{◌≡◌, ◌<◌, ◌∷◌, [], false, IfOk};
ghost use Rattle.pom_build.specs.Imports.{managed_from};
ghost use Rattle.pom_build.specs.Lines.{is_among as among};
ghost use Rattle.pom_build.specs.Visits.{HasLevel, IsAllVisited, IsSeenIn, IsVisited, all_needed, level_of};
ghost use Rattle.res_base.specs.Known.{known_of};

use super::imports::{chain_of, chain_to, import_coord, own_rows};
use super::key_list::KeyList;
use super::line::{is_among, line_of};
use super::names::NamedLine;
use super::outcome::Outcome;
use project_lookup::Known;
use res_base::{Coord, Copied, DepRecord, FileKey, List, NoMemory};
use std::alloc::Global;
use std::collections::BTreeMap;

/// The keys that were needed so far, and with how many levels each project was visited: none is
/// visited again but with more.
#[derive(Drop)]
struct Seen {
    keys: KeyList,
    levels: BTreeMap<Coord, u32>,
}

/// With how many levels a project was visited, 0 where it was not.
fn level(seen: &Seen, coord: &Coord) -> u32
    ensures { result ≡ level_of seen.now coord.now }
{
    match seen.levels.get(coord) {
        None => 0,
        Some(level) => *level,
    }
}

/// Notes that a project is visited with so many levels.
fn with_level_at(alloc: Global, seen: Seen, coord: &Coord, level: u32) -> Result<Seen, NoMemory>
    ensures keys { IfOk result (λ made. made.keys ≡ seen.keys) }
    ensures levels { IfOk result (λ made. HasLevel seen coord.now level made) }
{
    let Seen { keys, mut levels } = seen;
    levels.insert(coord.copy(alloc)?, level)?;
    Ok(Seen { keys, levels })
}

/// Visits what a project imports, in order.
#[cycle(needs)]
fn visit_all(
    alloc: Global,
    known: &Known,
    left: u32,
    chain: &List<Coord>,
    imports: &[DepRecord],
    seen: Seen,
) -> Result<Seen, NoMemory>
    requires { IsSeenIn (known_of known.now.pairs) known.now.repos left chain.now seen }
    ensures { IfOk result (λ made. IsAllVisited (known_of known.now.pairs) known.now.repos left chain.now imports.now seen made) }
{
    let mut made = seen;
    for import in imports {
        let coord = import_coord(alloc, import)?;
        made = visit(alloc, known, left, chain, &coord, made)?;
    }
    Ok(made)
}

/// Visits a project that the chain does not have and that was not visited with so many levels.
#[cycle(needs)]
fn expand(
    alloc: Global,
    known: &Known,
    left: u32,
    chain: &List<Coord>,
    coord: &Coord,
    seen: Seen,
) -> Result<Seen, NoMemory>
    requires seen { IsSeenIn (known_of known.now.pairs) known.now.repos left chain.now seen }
    requires new { among coord.now chain.now ≡ false }
    requires more { level_of seen coord.now < left }
    ensures { IfOk result (λ made. IsVisited (known_of known.now.pairs) known.now.repos left chain.now coord.now seen made) }
{
    let Seen { keys, levels } = with_level_at(alloc, seen, coord, left)?;
    match line_of(alloc, known, coord)? {
        Outcome::Needs(more) => {
            let keys = keys.with_keys(alloc, more)?;
            Ok(Seen { keys, levels })
        }
        Outcome::NotFound(_) | Outcome::Refused(_) => Ok(Seen { keys, levels }),
        Outcome::Built(line) => {
            let named = NamedLine::of(alloc, line)?;
            let own = own_rows(alloc, &named)?;
            let longer = chain_to(alloc, chain, coord)?;
            let seen = Seen { keys, levels };
            visit_all(
                alloc,
                known,
                left - 1,
                &longer,
                own.imports.as_slice(),
                seen,
            )
        }
    }
}

/// Visits a project that is imported behind a chain of others, which may have so many projects
/// more.
#[cycle(needs)]
fn visit(
    alloc: Global,
    known: &Known,
    left: u32,
    chain: &List<Coord>,
    coord: &Coord,
    seen: Seen,
) -> Result<Seen, NoMemory>
    requires { IsSeenIn (known_of known.now.pairs) known.now.repos left chain.now seen }
    ensures { IfOk result (λ made. IsVisited (known_of known.now.pairs) known.now.repos left chain.now coord.now seen made) }
{
    let visited = level(&seen, coord);
    if left <= visited {
        return Ok(seen);
    }
    if is_among(coord, chain.as_slice()) {
        return Ok(seen);
    }
    expand(alloc, known, left, chain, coord, seen)
}

/// The keys that imports need, where the chain begins with the project that imports them and may
/// have so many projects more: each once, in the order in which they are looked for.
pub(crate) fn needed_keys(
    alloc: Global,
    known: &Known,
    left: u32,
    coord: &Coord,
    imports: &[DepRecord],
) -> Result<List<FileKey>, NoMemory>
    ensures { IfOk result (λ made. made ≡ all_needed (managed_from (known_of known.now.pairs) known.now.repos left (coord.now ∷ [])) [] imports.now) }
{
    let chain = chain_of(alloc, coord)?;
    let none = Seen {
        keys: KeyList::new(alloc),
        levels: BTreeMap::new(alloc),
    };
    let start = with_level_at(alloc, none, coord, left)?;
    let seen = visit_all(alloc, known, left, &chain, imports, start)?;
    let Seen { keys, .. } = seen;
    Ok(keys.into_keys())
}
