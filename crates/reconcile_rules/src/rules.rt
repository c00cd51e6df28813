//! The rules.
ghost use Rattle.std.specs.Prelude.{◌≡◌, IfOk};
ghost use Rattle.std.specs.Option.{option_copied};
ghost use Rattle.reconcile_rules.specs.Asked.{constraints};
ghost use Rattle.reconcile_rules.specs.Choose.{choose_of, choose_read, by_default, by_relaxed, by_rule, default_within, first_above, from_listed, last_apart, pick_within, relaxed_within};
ghost use Rattle.reconcile_rules.specs.declared.request.Chosen.TheVariants.{Version as Picked};

use super::accept::{Accepts, where_accepted};
use super::apart::least_apart;
use super::asked::{Asked, Read, read_all};
use super::greatest::{greatest, greatest_listed, greatest_within};
use super::relaxed::{all_common, kept_common, last};
use super::request::{Chosen, Clash, IntervalRequest, PlainRequest, Request, Rule};
use interval_sets::{Interval, NoMemory as OutOfMemory};
use res_base::{List, NoMemory, Text};
use std::alloc::Global;
use version_order::Version;

fn picked(alloc: Global, version: &Version) -> Result<Chosen, OutOfMemory>
    ensures { IfOk result (λ made. made ≡ Picked version.now) }
{
    let text = String::from_str(alloc, version.text())?;
    Ok(Chosen::Version(Text::from_string(text)))
}

/// The number of the first plain version above an interval.
fn first_above(common: &Interval<Version>, asked: &[PlainRequest]) -> Option<u64>
    ensures { result ≡ first_above common.now asked.now }
{
    for request in asked {
        if common.above(&request.version) {
            return Some(request.number);
        }
    }
    None
}

fn pick_listed(
    alloc: Global,
    common: Interval<Version>,
    listed: Option<&List<Text>>,
) -> Result<Chosen, OutOfMemory>
    ensures { IfOk result (λ made. made ≡ from_listed common (option_copied listed.entry)) }
{
    match listed {
        None => Ok(Chosen::NeedsListing(common)),
        Some(versions) => match greatest_listed(alloc, versions.as_slice())? {
            None => Ok(Chosen::Clash(Clash::NoneListed)),
            Some(version) => picked(alloc, &version),
        },
    }
}

fn pick_within(
    alloc: Global,
    common: Interval<Version>,
    plains: &[PlainRequest],
    listed: Option<&List<Text>>,
) -> Result<Chosen, OutOfMemory>
    ensures { IfOk result (λ made. made ≡ pick_within common plains.now (option_copied listed.entry)) }
{
    match greatest_within(&common, plains) {
        Some(version) => picked(alloc, version),
        None => pick_listed(alloc, common, listed),
    }
}

fn default_within(
    alloc: Global,
    common: Interval<Version>,
    plains: &[PlainRequest],
    listed: Option<&List<Text>>,
) -> Result<Chosen, OutOfMemory>
    ensures { IfOk result (λ made. made ≡ default_within common plains.now (option_copied listed.entry)) }
{
    match first_above(&common, plains) {
        Some(number) => Ok(Chosen::Clash(Clash::Above(number))),
        None => pick_within(alloc, common, plains, listed),
    }
}

fn by_default(
    alloc: Global,
    asked: &Asked,
    listed: Option<&List<Text>>,
) -> Result<Chosen, OutOfMemory>
    ensures { let known = option_copied listed.entry in
        IfOk result (λ made. made ≡ by_default asked.now.plains.items asked.now.intervals.items known) }
{
    match all_common(alloc, asked.intervals.as_slice())? {
        None => match least_apart(asked.intervals.as_slice()) {
            Some(clash) => Ok(Chosen::Clash(clash)),
            None => unreachable!(),
        },
        Some(common) => default_within(alloc, common, asked.plains.as_slice(), listed),
    }
}

fn relaxed_within(
    alloc: Global,
    common: Interval<Version>,
    plains: &[PlainRequest],
    listed: Option<&List<Text>>,
) -> Result<Chosen, OutOfMemory>
    ensures { IfOk result (λ made. made ≡ relaxed_within common plains.now (option_copied listed.entry)) }
{
    match first_above(&common, plains) {
        None => pick_within(alloc, common, plains, listed),
        Some(_) => match greatest(plains) {
            Some(version) => picked(alloc, version),
            None => pick_within(alloc, common, plains, listed),
        },
    }
}

/// The clash where the last interval holds nothing.
fn last_clash(last: Option<&IntervalRequest>) -> Option<Clash>
    ensures { result ≡ last_apart (option_copied last.entry) }
{
    match last {
        None => None,
        Some(last) => {
            if last.interval.is_empty() {
                Some(Clash::Apart(last.number, last.number))
            } else {
                None
            }
        }
    }
}

fn by_relaxed(
    alloc: Global,
    asked: &Asked,
    listed: Option<&List<Text>>,
) -> Result<Chosen, OutOfMemory>
    ensures { let known = option_copied listed.entry in
        IfOk result (λ made. made ≡ by_relaxed asked.now.plains.items asked.now.intervals.items known) }
{
    let intervals = asked.intervals.as_slice();
    let last = last(intervals);
    match last_clash(last) {
        Some(clash) => Ok(Chosen::Clash(clash)),
        None => {
            let common = kept_common(alloc, intervals, last)?;
            relaxed_within(alloc, common, asked.plains.as_slice(), listed)
        }
    }
}

fn by_rule(
    alloc: Global,
    rule: Rule,
    asked: &Asked,
    listed: Option<&List<Text>>,
) -> Result<Chosen, OutOfMemory>
    ensures { let known = option_copied listed.entry in
        IfOk result (λ made. made ≡ by_rule rule asked.now.plains.items asked.now.intervals.items known) }
{
    let plains = asked.plains.as_slice();
    match rule {
        Rule::Default => by_default(alloc, asked, listed),
        Rule::Relaxed => by_relaxed(alloc, asked, listed),
        Rule::Strict => {
            let chosen = by_default(alloc, asked, listed)?;
            where_accepted(alloc, Accepts::Equal, chosen, plains)
        }
        Rule::Semver => {
            let chosen = by_default(alloc, asked, listed)?;
            where_accepted(alloc, Accepts::Series, chosen, plains)
        }
    }
}

fn choose_unforced(
    alloc: Global,
    rule: Rule,
    requests: &[Request],
    listed: Option<&List<Text>>,
) -> Result<Chosen, OutOfMemory>
    ensures { IfOk result (λ made. made ≡ choose_read rule (constraints requests.now) (option_copied listed.entry)) }
{
    match read_all(alloc, requests)? {
        Read::Bad(number) => Ok(Chosen::Clash(Clash::BadConstraint(number))),
        Read::Asked(asked) => {
            if asked.is_empty() {
                return Ok(Chosen::Clash(Clash::NoVersion));
            }
            by_rule(alloc, rule, &asked, listed)
        }
    }
}

/// Chooses a module's version. The cases, of which the first that applies counts:
///
/// 1. A forced version is chosen, whatever is asked for.
/// 2. A text is no constraint: `BadConstraint` with the first such request.
/// 3. No request names a version: `NoVersion`.
/// 4. The intervals have no version in common: `Apart` with the least two of them that have none,
///    by the first number and then the second; they are one where it holds nothing.
/// 5. A plain version is above what the intervals have in common: `Above` with the first such
///    request.
/// 6. The greatest plain version in what the intervals have in common is chosen, by the full
///    order.
/// 7. Of `listed` the greatest is chosen, by the full order, and there is `NoneListed` where it is
///    empty. `listed` has the plain versions in the interval that some repository lists; where it
///    is not known, `NeedsListing` tells the interval.
///
/// `Relaxed` has two other cases in place of 4 and 5. The intervals are put in order by lower end,
/// then upper end, then number, and dropped from the front until the rest have a version in common.
/// Where the last of them holds nothing that is `Apart`. Where a plain version is above what the
/// rest have in common, the greatest plain version of all is chosen.
///
/// `Strict` and `Semver` choose as `Default` does, and then answer `NotAccepted` with the first
/// plain version that does not accept the choice. Under `Strict` one accepts what is equal by
/// items; under `Semver`, what is not less by items and of its series.
pub fn choose(
    alloc: Global,
    rule: Rule,
    forced: Option<&Text>,
    requests: &List<Request>,
    listed: Option<&List<Text>>,
) -> Result<Chosen, NoMemory>
    ensures { let version = option_copied forced.entry in
        IfOk result (λ chosen. chosen ≡ choose_of rule version requests.now (option_copied listed.entry)) }
{
    match forced {
        Some(version) => Ok(Chosen::Version(Text::of(alloc, version.as_str())?)),
        None => match choose_unforced(alloc, rule, requests.as_slice(), listed) {
            Ok(chosen) => Ok(chosen),
            Err(_) => Err(NoMemory),
        },
    }
}
