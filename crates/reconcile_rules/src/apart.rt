//! Which intervals have nothing in common.
ghost use Rattle.std.specs.Prelude.{◌≡◌, ◌≤◌, ◌||◌, drop, length};
ghost use Rattle.interval_sets.specs.Intervals.{are_apart};
ghost use Rattle.version_order.specs.Ranks.{items_cmp};
ghost use Rattle.reconcile_rules.specs.Apart.{first_apart, from_first_apart, least_apart, crosses};

use super::request::{Clash, IntervalRequest};
use interval_sets::{End, Interval, greater_lower, lesser_upper};
use version_order::Version;

/// Whether two intervals have nothing in common.
pub(crate) fn are_apart(a: &Interval<Version>, b: &Interval<Version>) -> bool
    ensures { result ≡ are_apart items_cmp a.now b.now }
{
    let lower = greater_lower(&a.lower, &b.lower);
    lower.leaves_nothing_to(lesser_upper(&a.upper, &b.upper))
}

/// The number of the first interval that has nothing in common with this one.
fn first_apart(interval: &Interval<Version>, asked: &[IntervalRequest]) -> Option<u64>
    ensures { result ≡ first_apart interval.now asked.now }
{
    for other in asked {
        if are_apart(interval, &other.interval) {
            return Some(other.number);
        }
    }
    None
}

/// Whether one of the intervals holds nothing, as told, or this one crosses one of their ends.
fn has_partner(
    interval: &Interval<Version>,
    lower: &End<Version>,
    upper: &End<Version>,
    has_empty: bool,
) -> bool
    ensures { result ≡ (has_empty || crosses interval.now lower.now upper.now) }
{
    has_empty || interval.lower.leaves_nothing_to(upper) || lower.leaves_nothing_to(&interval.upper)
}

/// The place of the first interval that has nothing in common with itself or a later one, or their
/// count. One pass from the end keeps the greatest lower and the least upper end of the later ones.
fn place_of_first(asked: &[IntervalRequest]) -> usize
    ensures within { result ≤ length asked.now }
    ensures rest { drop result asked.now ≡ from_first_apart asked.now }
{
    let free = End::Free;
    let mut lower = &free;
    let mut upper = &free;
    let mut has_empty = false;
    let mut first = asked.len();
    for passed in 0..asked.len() {
        let place = asked.len() - 1 - passed;
        let interval = &asked[place].interval;
        has_empty = interval.is_empty() || has_empty;
        if has_partner(interval, lower, upper, has_empty) {
            first = place;
        }
        lower = greater_lower(lower, &interval.lower);
        upper = lesser_upper(upper, &interval.upper);
    }
    first
}

/// The least pair of intervals that have nothing in common: by its first number, then its second.
pub(crate) fn least_apart(asked: &[IntervalRequest]) -> Option<Clash>
    ensures { result ≡ least_apart asked.now }
{
    let rest = &asked[place_of_first(asked)..];
    match rest {
        [] => None,
        [first, ..] => match first_apart(&first.interval, rest) {
            Some(second) => Some(Clash::Apart(first.number, second)),
            None => None,
        },
    }
}
