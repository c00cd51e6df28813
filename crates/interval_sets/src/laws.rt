//! Laws of intervals, as functions with nothing to run.
ghost use Rattle.std.specs.Prelude.{◌≡◌, ◌↔◌, true, false, not, List, ◌++◌};
ghost use Rattle.std.specs.List.{list_any, list_all};
ghost use Rattle.std.specs.Cmp.{IsTotalOrder};
ghost use Rattle.interval_sets.specs.declared.interval.Interval.{Interval};
ghost use Rattle.interval_sets.specs.Intervals.{ends_cmp, is_empty, is_below, is_above, holds};
ghost use Rattle.interval_sets.specs.Many.{common, SomeTwoApart, is_one_of};

use super::ranked::Ranked;

/// What many intervals have in common holds what all of them hold. It is empty exactly where some
/// two of them have nothing in common, one taken twice included.
pub fn common<V: Ranked>()
    ensures holds { (intervals : List (Interval V)) (v : V)
        → holds V.order (common V.order intervals) v ≡ list_all (λ i. holds V.order i v) intervals }
    ensures below { (intervals : List (Interval V)) (v : V)
        → is_below V.order (common V.order intervals) v ≡ list_any (λ i. is_below V.order i v) intervals }
    ensures above { (intervals : List (Interval V)) (v : V)
        → is_above V.order (common V.order intervals) v ≡ list_any (λ i. is_above V.order i v) intervals }
    ensures empty { (intervals : List (Interval V))
        → (is_empty V.order (common V.order intervals) ≡ true) ↔ SomeTwoApart V.order intervals }
    ensures stays_empty { (intervals more : List (Interval V))
        → is_empty V.order (common V.order intervals) ≡ true
        → is_empty V.order (common V.order (intervals ++ more)) ≡ true }
{}

/// A value is inside, above or below an interval that is not empty, and only one of these. An
/// interval that holds a value is not empty. By their ends intervals have a total order, up to
/// ties.
pub fn one_side<V: Ranked>()
    ensures one { (i : Interval V) (v : V) → is_empty V.order i ≡ false
        → is_one_of (holds V.order i v) (is_above V.order i v) (is_below V.order i v) ≡ true }
    ensures holds_none { (i : Interval V) (v : V) → is_empty V.order i ≡ true → holds V.order i v ≡ false }
    ensures ends_total { IsTotalOrder (ends_cmp V.order) }
{}
