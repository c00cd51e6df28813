//! What is asked of a module's version, and what comes of it.
ghost use Rattle.std.specs.Prelude.{◌≡◌, ◌↔◌, IsTrue};

use interval_sets::Interval;
use res_base::{Coord, Copied, NoMemory, Text};
use std::alloc::Global;
use version_order::Version;

/// How a version is chosen among those that are asked for.
#[derive(Clone, Copy, Debug, PartialEq, Eq, Drop)]
pub enum Rule {
    /// The greatest plain version, within what all intervals have in common.
    Default,
    /// As `Default`, but intervals that stand in the way are dropped, those with the least ends
    /// first.
    Relaxed,
    /// As `Default`, but each plain version has to be the chosen one.
    Strict,
    /// As `Default`, but the chosen version has to be of the series of each plain one.
    Semver,
}

/// Who asks.
#[derive(PartialEq, Eq, Drop)]
pub enum Asker {
    /// A root, by its place among the roots of the words, from 0. Two equal roots are two askers.
    Root(u64),
    Project(Coord),
}

/// The text of a constraint, and who asks for it. Requests are numbered from 0 in the order in
/// which they stand.
#[derive(PartialEq, Eq, Drop)]
pub struct Request {
    pub text: Text,
    pub from: Asker,
}

impl Copied for Asker {
    fn copy(&self, alloc: Global) -> Result<Asker, NoMemory> {
        match self {
            Asker::Root(place) => Ok(Asker::Root(*place)),
            Asker::Project(coord) => Ok(Asker::Project(coord.copy(alloc)?)),
        }
    }
}

impl Copied for Request {
    fn copy(&self, alloc: Global) -> Result<Request, NoMemory> {
        Ok(Request {
            text: self.text.copy(alloc)?,
            from: self.from.copy(alloc)?,
        })
    }
}

/// Whether two ask as one: the same root, or the same project.
pub fn is_same_asker(one: &Asker, other: &Asker) -> bool
    ensures { IsTrue result ↔ (one.now ≡ other.now) }
{
    *one == *other
}

/// Whether two requests are one: the same text, from the same asker.
pub fn is_same_request(one: &Request, other: &Request) -> bool
    ensures { IsTrue result ↔ (one.now ≡ other.now) }
{
    *one == *other
}

/// Whether two rules are one.
pub fn is_same_rule(one: Rule, other: Rule) -> bool
    ensures { IsTrue result ↔ (one ≡ other) }
{
    one == other
}

/// Why no version was chosen, with the numbers of requests.
#[derive(Clone, Copy, Debug, PartialEq, Eq, Drop)]
pub enum Clash {
    /// These two intervals have no version in common. They are one where it holds nothing.
    Apart(u64, u64),
    /// This plain version is above what the intervals have in common.
    Above(u64),
    /// This request does not accept the choice.
    NotAccepted(u64),
    /// No request names a version.
    NoVersion,
    /// No repository lists a version that would do.
    NoneListed,
    /// This request's text is no constraint.
    BadConstraint(u64),
}

impl Copied for Clash {
    fn copy(&self, _: Global) -> Result<Clash, NoMemory> {
        Ok(*self)
    }
}

/// Whether two clashes are one: of the same kind, with the same numbers.
pub fn is_same_clash(one: Clash, other: Clash) -> bool
    ensures { IsTrue result ↔ (one ≡ other) }
{
    one == other
}

/// What comes of the requests for a module.
#[derive(Drop)]
pub enum Chosen {
    Version(Text),
    /// No request names a version in this interval, so a listed one is to be chosen.
    NeedsListing(Interval<Version>),
    Clash(Clash),
}

impl Copied for Chosen {
    fn copy(&self, alloc: Global) -> Result<Chosen, NoMemory> {
        match self {
            Chosen::Version(text) => Ok(Chosen::Version(text.copy(alloc)?)),
            Chosen::NeedsListing(interval) => match interval.copy(alloc) {
                Ok(made) => Ok(Chosen::NeedsListing(made)),
                Err(_) => Err(NoMemory),
            },
            Chosen::Clash(clash) => Ok(Chosen::Clash(*clash)),
        }
    }
}

/// A request for a plain version, with its number.
#[derive(Drop)]
pub(crate) struct PlainRequest {
    pub number: u64,
    pub version: Version,
}

/// A request for a version in an interval, with its number.
#[derive(Drop)]
pub(crate) struct IntervalRequest {
    pub number: u64,
    pub interval: Interval<Version>,
}
