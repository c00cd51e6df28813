//! The intervals that the rule `Relaxed` keeps.
ghost use Rattle.std.specs.Prelude.{◌≡◌, Some, IfOk, filter, if◌then◌else◌};
ghost use Rattle.std.specs.Option.{option_copied};
ghost use Rattle.interval_sets.specs.Intervals.{meet_of};
ghost use Rattle.version_order.specs.Ranks.{items_cmp};
ghost use Rattle.reconcile_rules.specs.Apart.{common_of, unless_empty, IsCommon};
ghost use Rattle.reconcile_rules.specs.Relaxed.{drop_cmp, later_of, last_of, apart_from, is_after, dropped_of, kept};

use super::apart::are_apart;
use super::request::IntervalRequest;
use interval_sets::{End, Interval, NoMemory, common, one_side};
use std::alloc::Global;
use std::cmp::Ordering;
use version_order::Version;

impl IntervalRequest {
    /// The order in which intervals are dropped: by lower end, then upper end, then number.
    fn cmp_drop(&self, other: &IntervalRequest) -> Ordering
        ensures { result ≡ drop_cmp self.now other.now }
    {
        self.interval
            .cmp_ends(&other.interval)
            .then(self.number.cmp(&other.number))
    }
}

fn later<'a>(
    last: Option<&'a IntervalRequest>,
    request: &'a IntervalRequest,
) -> Option<&'a IntervalRequest>
    ensures { option_copied result ≡ later_of (option_copied last.entry) request.now }
{
    match last {
        None => Some(request),
        Some(other) => {
            if other.cmp_drop(request).is_lt() {
                Some(request)
            } else {
                Some(other)
            }
        }
    }
}

/// The interval that would be dropped last.
pub(crate) fn last<'a>(asked: &'a [IntervalRequest]) -> Option<&'a IntervalRequest>
    ensures { option_copied result ≡ last_of asked.now }
{
    let mut last: Option<&'a IntervalRequest> = None;
    for request in asked {
        last = later(last, request);
    }
    last
}

/// The last interval that has nothing in common with this one.
fn last_apart<'a>(
    asked: &'a [IntervalRequest],
    interval: &Interval<Version>,
) -> Option<&'a IntervalRequest>
    ensures { option_copied result ≡ last_of (apart_from interval.now asked.now) }
{
    let mut last: Option<&'a IntervalRequest> = None;
    for request in asked {
        if are_apart(&request.interval, interval) {
            last = later(last, request);
        }
    }
    last
}

fn is_after(dropped: Option<&IntervalRequest>, request: &IntervalRequest) -> bool
    ensures { result ≡ is_after (option_copied dropped.entry) request.now }
{
    match dropped {
        None => true,
        Some(other) => other.cmp_drop(request).is_lt(),
    }
}

/// What a request that stands after a dropped one leaves of an interval, or `None` where that is
/// nothing.
fn met_after(
    alloc: Global,
    made: Interval<Version>,
    request: &IntervalRequest,
    dropped: Option<&IntervalRequest>,
) -> Result<Option<Interval<Version>>, NoMemory>
    ensures { let goes_on = is_after (option_copied dropped.entry) request.now in
        let whole = if goes_on then meet_of items_cmp made request.now.interval else Some made in
        IfOk result (λ met. met ≡ whole) }
{
    if is_after(dropped, request) {
        made.meet(alloc, &request.interval)
    } else {
        Ok(Some(made))
    }
}

/// What the intervals after a dropped one have in common, or `None` where they have nothing in
/// common.
fn common_after(
    alloc: Global,
    asked: &[IntervalRequest],
    dropped: Option<&IntervalRequest>,
) -> Result<Option<Interval<Version>>, NoMemory>
    ensures { let rest = filter (is_after (option_copied dropped.entry)) asked.now in
        IfOk result (λ met. met ≡ unless_empty (common_of rest)) }
{
    let mut made = Interval {
        lower: End::Free,
        upper: End::Free,
    };
    for request in asked {
        match met_after(alloc, made, request, dropped)? {
            None => return Ok(None),
            Some(met) => made = met,
        }
    }
    Ok(Some(made))
}

/// What all the intervals have in common, or `None` where some two of them have nothing in common.
pub(crate) fn all_common(
    alloc: Global,
    asked: &[IntervalRequest],
) -> Result<Option<Interval<Version>>, NoMemory>
    ensures { IfOk result (IsCommon asked.now) }
{
    common::<Version>();
    let met = common_after(alloc, asked, None)?;
    Ok(met)
}

/// The last interval that is dropped, given the last of all.
fn last_dropped<'a>(
    asked: &'a [IntervalRequest],
    last: Option<&IntervalRequest>,
) -> Option<&'a IntervalRequest>
    ensures { option_copied result ≡ dropped_of (option_copied last.entry) asked.now }
{
    match last {
        None => None,
        Some(last) => last_apart(asked, &last.interval),
    }
}

/// What the intervals have in common that are kept, given the last of all.
pub(crate) fn kept_common(
    alloc: Global,
    asked: &[IntervalRequest],
    last: Option<&IntervalRequest>,
) -> Result<Interval<Version>, NoMemory>
    requires { option_copied last ≡ last_of asked.now }
    ensures { IfOk result (λ made. made ≡ common_of (kept asked.now)) }
{
    common::<Version>();
    one_side::<Version>();
    let dropped = last_dropped(asked, last);
    match common_after(alloc, asked, dropped)? {
        Some(common) => Ok(common),
        None => unreachable!(),
    }
}
