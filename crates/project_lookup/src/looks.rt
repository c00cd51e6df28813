//! Look-ups of projects and of listings.
ghost use Rattle.std.specs.Prelude.{◌≡◌, ◌<◌, [], replicate, IfOk, MatchResult};
ghost use Rattle.project_lookup.specs.Listings.{listing_in, listing_of, seen_listing};
ghost use Rattle.project_lookup.specs.Looks.{look_from, look_of, seen, tried};
ghost use Rattle.project_lookup.specs.Looks.Tried.{project, refused};
ghost use Rattle.res_base.specs.Known.{known_of};
ghost use Rattle.res_base.specs.Plain.{is_plain_module};

use super::Known;
use res_base::{
    Coord, Copied, FileKey, List, Module, NoMemory, PomRecord, Reading, Reason, Role, Text,
    is_plain, listing_path, pom_path,
};
use std::alloc::Global;

/// What a look-up of a coordinate gives.
#[derive(Drop)]
pub enum Look<'a> {
    /// The first repository in the listed order with a readable POM, and that.
    Found(u32, &'a PomRecord),
    /// The first key that is not known, before any repository with a readable POM.
    Missing(FileKey),
    /// No repository has the project: why, for each in the listed order.
    NotFound(List<Reason>),
}

/// What is known of a module's listing in a repository.
#[derive(Drop)]
pub enum ListingAt<'a> {
    Versions(&'a List<Text>),
    /// The listing's key, which is not known.
    Unknown(FileKey),
    /// It is not there or not readable, or the module is not plain.
    NoListing,
}

/// The project that a POM's reading gives, or why it gives none.
fn project_in(reading: &Reading) -> Result<&PomRecord, Reason>
    ensures { MatchResult result
        (λ pom. tried reading.now ≡ project pom.now)
        (λ reason. tried reading.now ≡ refused reason) }
{
    match reading {
        Reading::Pom(pom) => Ok(pom),
        Reading::NotReadable(fault) => Err(Reason::NotReadable(*fault)),
        Reading::Damaged(damage) => Err(Reason::Damaged(*damage)),
        Reading::TooLarge => Err(Reason::TooLarge),
        Reading::Absent | Reading::Listing(_) | Reading::Stored(_) => Err(Reason::Absent),
    }
}

fn listing_in(reading: &Reading) -> ListingAt<'_>
    ensures { seen_listing result ≡ listing_in reading.now }
{
    match reading {
        Reading::Listing(versions) => ListingAt::Versions(versions),
        _ => ListingAt::NoListing,
    }
}

/// One reason for each repository of a coordinate that no repository is asked for.
fn bad_names(alloc: Global, repos: u32) -> Result<List<Reason>, NoMemory>
    ensures { IfOk result (λ reasons. reasons ≡ replicate repos Reason.BadName) }
{
    let mut reasons: List<Reason> = List::new(alloc);
    for _repo in 0..repos {
        reasons.push(Reason::BadName)?;
    }
    Ok(reasons)
}

/// Whether both parts are plain: a coordinate of the module then is, with a plain version.
fn is_plain_module(alloc: Global, module: &Module) -> Result<bool, NoMemory>
    ensures { IfOk result (λ plain. plain ≡ is_plain_module «module».now) }
{
    let coord = Coord {
        module: module.copy(alloc)?,
        version: Text::of(alloc, "1")?,
    };
    Ok(is_plain(&coord))
}

impl Known {
    /// Tries the repositories in the listed order, at the path of a POM.
    fn look_at(&self, alloc: Global, path: Text) -> Result<Look<'_>, NoMemory>
        ensures { IfOk result (λ look. seen look ≡ look_from (known_of self.now.pairs) path 0 self.now.repos []) }
    {
        let repos = self.repos();
        let mut reasons: List<Reason> = List::new(alloc);
        let mut key = FileKey {
            repo: 0,
            role: Role::Pom,
            path,
        };
        for repo in 0..repos {
            key.repo = repo;
            match self.at(&key) {
                None => return Ok(Look::Missing(key)),
                Some(reading) => match project_in(reading) {
                    Ok(pom) => return Ok(Look::Found(repo, pom)),
                    Err(reason) => reasons.push(reason)?,
                },
            }
        }
        Ok(Look::NotFound(reasons))
    }

    /// Looks a coordinate up: the first repository in the listed order with a readable POM gives
    /// the project, unless a key before that is not known.
    ///
    /// A coordinate that is not plain is not found, by the reason `BadName` of each repository.
    pub fn look(&self, alloc: Global, coord: &Coord) -> Result<Look<'_>, NoMemory>
        ensures { IfOk result (λ look. seen look ≡ look_of (known_of self.now.pairs) self.now.repos coord.now) }
    {
        if !is_plain(coord) {
            return Ok(Look::NotFound(bad_names(alloc, self.repos())?));
        }
        let path = pom_path(alloc, coord)?;
        self.look_at(alloc, path)
    }

    /// The listing of a module in a repository.
    pub fn listing_at(
        &self,
        alloc: Global,
        module: &Module,
        repo: u32,
    ) -> Result<ListingAt<'_>, NoMemory>
        requires { repo < self.now.repos }
        ensures { IfOk result (λ listing.
            seen_listing listing ≡ listing_of (known_of self.now.pairs) «module».now repo) }
    {
        if !is_plain_module(alloc, module)? {
            return Ok(ListingAt::NoListing);
        }
        let key = FileKey {
            repo,
            role: Role::Listing,
            path: listing_path(alloc, module)?,
        };
        match self.at(&key) {
            None => Ok(ListingAt::Unknown(key)),
            Some(reading) => Ok(listing_in(reading)),
        }
    }
}
