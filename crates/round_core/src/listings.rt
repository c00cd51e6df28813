//! Which listed versions would do for an interval.
ghost use Rattle.std.specs.Prelude.{◌≡◌, ◌∷◌, [], ◌++◌, IfOk, OnOk};
ghost use Rattle.project_lookup.specs.Listings.{seen_listing};
ghost use Rattle.res_base.specs.Known.{known_of};
ghost use Rattle.round_core.specs.Listings.{candidates as candidates_in, offer_in as offered_in, offer_of as offer_for, plain_in as plain_text_in};

use interval_sets::Interval;
use project_lookup::{Known, ListingAt};
use res_base::{FileKey, List, Module, NoMemory, Text};
use std::alloc::Global;
use version_order::{Constraint, ConstraintErr, Version, read_constraint};

/// What the repositories offer for an interval.
#[derive(Drop)]
pub(crate) enum Offer {
    /// The versions of the first repository that has some, or none.
    Versions(List<Text>),
    /// The key of a listing that is not known, before any repository that has some.
    Lacking(FileKey),
}

/// The version that a listed text reads as, if it is a plain one.
fn plain_in(alloc: Global, text: &Text) -> Result<Option<Version>, NoMemory>
    ensures { IfOk result (λ made. made ≡ plain_text_in text.now) }
{
    match read_constraint(alloc, text.as_str()) {
        Ok(Constraint::Plain(version)) => Ok(Some(version)),
        Ok(_) => Ok(None),
        Err(ConstraintErr::BadConstraint(_)) => Ok(None),
        Err(ConstraintErr::NoMemory) => Err(NoMemory),
    }
}

/// Puts the version of a listed text at the end of others, if it would do.
fn put_candidate(
    alloc: Global,
    interval: &Interval<Version>,
    made: &mut List<Text>,
    text: &Text,
) -> Result<(), NoMemory>
    ensures { OnOk result (made.new ≡ made.old ++ candidates_in interval.now (text.now ∷ [])) }
{
    match plain_in(alloc, text)? {
        None => Ok(()),
        Some(version) => {
            if interval.holds(&version) {
                return made.push(Text::of(alloc, version.text())?);
            }
            Ok(())
        }
    }
}

/// The plain versions of a listing that an interval holds.
fn candidates(
    alloc: Global,
    interval: &Interval<Version>,
    listed: &[Text],
) -> Result<List<Text>, NoMemory>
    ensures { IfOk result (λ made. made ≡ candidates_in interval.now listed.now) }
{
    let mut made: List<Text> = List::new(alloc);
    for text in listed {
        put_candidate(alloc, interval, &mut made, text)?;
    }
    Ok(made)
}

/// What one repository offers. `None` is: look at the next one.
fn offer_in(
    alloc: Global,
    interval: &Interval<Version>,
    listing: ListingAt<'_>,
) -> Result<Option<Offer>, NoMemory>
    ensures { IfOk result (λ made. made ≡ offered_in interval.now (seen_listing listing.entry)) }
{
    match listing {
        ListingAt::NoListing => Ok(None),
        ListingAt::Unknown(key) => Ok(Some(Offer::Lacking(key))),
        ListingAt::Versions(listed) => {
            let versions = candidates(alloc, interval, listed.as_slice())?;
            if versions.is_empty() {
                return Ok(None);
            }
            Ok(Some(Offer::Versions(versions)))
        }
    }
}

/// What the repositories offer of a module, tried in the listed order.
pub(crate) fn offer_of(
    alloc: Global,
    known: &Known,
    module: &Module,
    interval: &Interval<Version>,
) -> Result<Offer, NoMemory>
    ensures { IfOk result (λ made. made
        ≡ offer_for (known_of known.now.pairs) known.now.repos «module».now interval.now) }
{
    let repos = known.repos();
    for repo in 0..repos {
        let listing = known.listing_at(alloc, module, repo)?;
        if let Some(offer) = offer_in(alloc, interval, listing)? {
            return Ok(offer);
        }
    }
    Ok(Offer::Versions(List::new(alloc)))
}
