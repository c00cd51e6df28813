//! The choice for each requested module.
ghost use Rattle.std.specs.Prelude.{◌≡◌, IfOk};
ghost use Rattle.std.specs.Option.{option_copied};
ghost use Rattle.res_base.specs.Known.{known_of};
ghost use Rattle.round_core.specs.Decisions.{by_offer as decision_by, choice_in, chosen_for as chosen_by, decided as decision_for, forced_version as version_forced};

use super::listings::{Offer, offer_of};
use project_lookup::Known;
use reconcile_rules::{Chosen, Clash, choose};
use res_base::{Coord, FileKey, List, Module, NoMemory, Text};
use resolution::{Ask, Choice, RequestRow};
use std::alloc::Global;

/// What comes of the requests for a module.
#[derive(Drop)]
pub(crate) enum Decision {
    Made(Choice),
    /// The key of a listing that is not known, without which no version can be chosen.
    Lacks(FileKey),
}

fn forced_version<'a>(forced: &'a [Coord], module: &Module) -> Option<&'a Text>
    ensures { option_copied result ≡ version_forced forced.now «module».now }
{
    for coord in forced {
        if coord.module == *module {
            return Some(&coord.version);
        }
    }
    None
}

/// The choice among the requests, where the listed versions that would do are given or not.
fn chosen_for(
    alloc: Global,
    ask: &Ask,
    row: &RequestRow,
    listed: Option<&List<Text>>,
) -> Result<Chosen, NoMemory>
    ensures { IfOk result (λ made. made ≡ chosen_by ask.now row.now (option_copied listed.entry)) }
{
    let forced = forced_version(ask.forced.as_slice(), &row.module);
    choose(alloc, ask.rule, forced, &row.requests, listed)
}

/// The choice once the listed versions are there.
fn made_of(chosen: Chosen) -> Choice
    ensures { result ≡ choice_in chosen }
{
    match chosen {
        Chosen::Version(version) => Choice::Version(version),
        Chosen::Clash(clash) => Choice::Clash(clash),
        Chosen::NeedsListing(_) => Choice::Clash(Clash::NoneListed),
    }
}

/// The choice by what the repositories offer.
fn by_offer(alloc: Global, ask: &Ask, row: &RequestRow, offer: Offer) -> Result<Decision, NoMemory>
    ensures { IfOk result (λ made. made ≡ decision_by offer (chosen_by ask.now row.now)) }
{
    match offer {
        Offer::Lacking(key) => Ok(Decision::Lacks(key)),
        Offer::Versions(versions) => {
            let chosen = chosen_for(alloc, ask, row, Some(&versions))?;
            Ok(Decision::Made(made_of(chosen)))
        }
    }
}

/// The choice for a module by the requests for it. Listings are looked at only where no request
/// names a version that will do.
pub(crate) fn decided(
    alloc: Global,
    known: &Known,
    ask: &Ask,
    row: &RequestRow,
) -> Result<Decision, NoMemory>
    requires { ask.now.repos ≡ known.now.repos }
    ensures { IfOk result (λ made. made ≡ decision_for (known_of known.now.pairs) ask.now row.now) }
{
    match chosen_for(alloc, ask, row, None)? {
        Chosen::Version(version) => Ok(Decision::Made(Choice::Version(version))),
        Chosen::Clash(clash) => Ok(Decision::Made(Choice::Clash(clash))),
        Chosen::NeedsListing(interval) => {
            let offer = offer_of(alloc, known, &row.module, &interval)?;
            by_offer(alloc, ask, row, offer)
        }
    }
}
