//! The line of a project and its parents.
ghost use Rattle.std.specs.Prelude.{◌≡◌, ◌∷◌, [], ◌++◌, IfOk};
ghost use Rattle.std.specs.List.{list_any};
ghost use Rattle.std.specs.Option.{option_copied};
ghost use Rattle.pom_build.specs.Climbs.{Resumes};
ghost use Rattle.pom_build.specs.Lines.{climbed, is_among as among, is_on as on_line, line_from, line_of as line_of_coord, on_look, past_limit as past_the_limit, path_of, started};
ghost use Rattle.project_lookup.specs.Looks.{seen};
ghost use Rattle.res_base.specs.Known.{known_of};
ghost use Rattle.res_base.specs.Names.{coord_eq};

use super::build::BuildFault;
use super::outcome::{Outcome, one_key};
use project_lookup::{Known, Look};
use res_base::{Coord, Copied, List, NoMemory, PomRecord};
use std::alloc::Global;
use std::marker::Model;

/// How many parents a line may have: 32 projects in all.
const MOST_PARENTS: u32 = 31;

/// A project of a line, in the repository in which it was found.
#[derive(Drop)]
pub(crate) struct Project<'a> {
    pub coord: Coord,
    pub repo: u32,
    pub pom: &'a PomRecord,
}

impl<'a> Model for Project<'a> {
    ghost use Rattle.pom_build.specs.Projects.{FoundProject};

    ghost Value = { FoundProject };

    ghost view = { λ project. record { coord = project.coord; repo = project.repo; pom = project.pom.now } };
}

/// A project and its parents, the nearest first.
#[derive(Drop)]
pub(crate) struct Line<'a> {
    pub own: Project<'a>,
    pub parents: List<Project<'a>>,
}

/// Whether a coordinate is among others.
pub(crate) fn is_among(coord: &Coord, path: &[Coord]) -> bool
    ensures { result ≡ among coord.now path.now }
{
    path.iter().any(|met| *coord == *met)
}

/// The coordinates of a line.
fn path(alloc: Global, line: &Line<'_>) -> Result<List<Coord>, NoMemory>
    ensures { IfOk result (λ made. made ≡ path_of line.now) }
{
    let mut path: List<Coord> = List::new(alloc);
    path.push(line.own.coord.copy(alloc)?)?;
    for project in line.parents.as_slice() {
        path.push(project.coord.copy(alloc)?)?;
    }
    Ok(path)
}

/// Whether a coordinate is that of one of the projects.
fn is_one_of(projects: &[Project<'_>], coord: &Coord) -> bool
    ensures { result ≡ list_any (λ project. coord_eq coord.now project.coord) projects.now }
{
    projects.iter().any(|project| *coord == project.coord)
}

/// Whether a coordinate is that of a project of the line.
fn is_on(line: &Line<'_>, coord: &Coord) -> bool
    ensures { result ≡ on_line coord.now line.now }
{
    *coord == line.own.coord || is_one_of(line.parents.as_slice(), coord)
}

/// The coordinates of a line, and then another.
fn path_to(alloc: Global, line: &Line<'_>, coord: &Coord) -> Result<List<Coord>, NoMemory>
    ensures { IfOk result (λ made. made ≡ path_of line.now ++ coord.now ∷ []) }
{
    let mut path = path(alloc, line)?;
    path.push(coord.copy(alloc)?)?;
    Ok(path)
}

/// What is said of a parent that the line has, or that is one too many.
fn past_limit<'a>(
    alloc: Global,
    line: &Line<'_>,
    parent: &Coord,
) -> Result<Outcome<Line<'a>>, NoMemory>
    ensures { IfOk result (λ made. made ≡ past_the_limit line.now parent.now) }
{
    let path = path_to(alloc, line, parent)?;
    if is_on(line, parent) {
        return Ok(Outcome::Refused(BuildFault::ParentCycle(path)));
    }
    Ok(Outcome::Refused(BuildFault::TooDeep(path)))
}

/// What comes of following a parent: a longer line with the parent that is next, or what is said.
#[derive(Drop)]
enum Climb<'a> {
    On(Line<'a>, Option<&'a Coord>),
    Said(Outcome<Line<'a>>),
}

/// Puts a parent that was looked up at the end of a line.
fn with_look<'a>(
    alloc: Global,
    look: Look<'a>,
    line: Line<'a>,
    parent: &Coord,
) -> Result<Climb<'a>, NoMemory>
    ensures { IfOk result (λ made. Resumes made (on_look (seen look.entry) line.entry parent.now)) }
{
    match look {
        Look::Missing(key) => Ok(Climb::Said(Outcome::Needs(one_key(alloc, key)?))),
        Look::NotFound(why) => {
            let coord = parent.copy(alloc)?;
            Ok(Climb::Said(Outcome::Refused(BuildFault::LineAbsent(coord, why))))
        }
        Look::Found(repo, pom) => {
            let coord = parent.copy(alloc)?;
            let Line { own, mut parents } = line;
            parents.push(Project { coord, repo, pom })?;
            Ok(Climb::On(Line { own, parents }, pom.parent.as_ref()))
        }
    }
}

/// Follows a parent, unless the line has it.
fn follow<'a>(
    alloc: Global,
    known: &'a Known,
    line: Line<'a>,
    parent: &Coord,
) -> Result<Climb<'a>, NoMemory>
    ensures { IfOk result (λ made. Resumes made (λ further. climbed (known_of known.now.pairs) known.now.repos line.entry further parent.now)) }
{
    if is_on(&line, parent) {
        return Ok(Climb::Said(past_limit(alloc, &line, parent)?));
    }
    let look = known.look(alloc, parent)?;
    with_look(alloc, look, line, parent)
}

/// Follows the parents from the last project of a line, whose parent is next.
fn with_parents<'a>(
    alloc: Global,
    known: &'a Known,
    start: Line<'a>,
    first: Option<&'a Coord>,
    most: u32,
) -> Result<Outcome<Line<'a>>, NoMemory>
    ensures { IfOk result (λ made. made ≡ line_from (known_of known.now.pairs) known.now.repos most start.entry (option_copied first.entry)) }
{
    let mut line = start;
    let mut next = first;
    for _done in 0..most {
        let Some(parent) = next else {
            return Ok(Outcome::Built(line));
        };
        match follow(alloc, known, line, parent)? {
            Climb::Said(outcome) => return Ok(outcome),
            Climb::On(longer, after) => {
                line = longer;
                next = after;
            }
        }
    }
    match next {
        None => Ok(Outcome::Built(line)),
        Some(parent) => past_limit(alloc, &line, parent),
    }
}

/// The line of a project that was looked up.
fn line_by<'a>(
    alloc: Global,
    known: &'a Known,
    look: Look<'a>,
    coord: Coord,
    most: u32,
) -> Result<Outcome<Line<'a>>, NoMemory>
    ensures { IfOk result (λ made. made ≡ started (seen look.entry) coord (line_from (known_of known.now.pairs) known.now.repos most)) }
{
    match look {
        Look::Missing(key) => Ok(Outcome::Needs(one_key(alloc, key)?)),
        Look::NotFound(why) => Ok(Outcome::NotFound(why)),
        Look::Found(repo, pom) => {
            let own = Project { coord, repo, pom };
            let parents = List::new(alloc);
            let line = Line { own, parents };
            with_parents(alloc, known, line, pom.parent.as_ref(), most)
        }
    }
}

/// The line of a coordinate: the project, its parent, and so on, at most 32 projects.
#[tactic(auto, unfolding(crate::specs::Lines::line_of))]
pub(crate) fn line_of<'a>(
    alloc: Global,
    known: &'a Known,
    coord: &Coord,
) -> Result<Outcome<Line<'a>>, NoMemory>
    ensures { IfOk result (λ made. made ≡ line_of_coord (known_of known.now.pairs) known.now.repos coord.now) }
{
    let look = known.look(alloc, coord)?;
    line_by(alloc, known, look, coord.copy(alloc)?, MOST_PARENTS)
}
