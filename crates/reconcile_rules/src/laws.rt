//! Laws of choosing, as functions with nothing to run.
ghost use Rattle.std.specs.Prelude.{◌≡◌, ◌↔◌, ◌⊎◌, ℕ, true, false, Option, Some, None, List, []};
ghost use Rattle.interval_sets.specs.Intervals.{is_empty};
ghost use Rattle.version_order.specs.Ranks.{items_cmp};
ghost use Rattle.version_order.specs.declared.constraint.Constraint.{Constraint};
ghost use Rattle.reconcile_rules.specs.declared.request.Request.{Request};
ghost use Rattle.reconcile_rules.specs.declared.request.Rule.{Rule};
ghost use Rattle.reconcile_rules.specs.declared.request.IntervalRequest.{IntervalRequest};
ghost use Rattle.reconcile_rules.specs.declared.request.Clash.TheVariants.{Apart};
ghost use Rattle.reconcile_rules.specs.declared.request.Chosen.TheVariants.{Version as Picked};
ghost use Rattle.reconcile_rules.specs.Asked.{intervals};
ghost use Rattle.reconcile_rules.specs.Apart.{common_of, least_apart};
ghost use Rattle.reconcile_rules.specs.Pairs.{IsLeastPair};
ghost use Rattle.reconcile_rules.specs.Greatest.{greatest, IsGreatest};
ghost use Rattle.reconcile_rules.specs.Relaxed.{is_kept, IsLongestRest};
ghost use Rattle.reconcile_rules.specs.Choose.{choose_of, needs_listing};
ghost use Rattle.reconcile_rules.specs.Origins.{IsAskedFor, IsListed};

use interval_sets::{common, one_side};
use version_order::Version;

/// Where a choice does not need the listed versions, it is the same whatever these are. So what is
/// chosen stays when more becomes known.
pub fn choices_stay()
    ensures { (rule : Rule) (forced : Option (List ℕ)) (requests : List Request) (listed : Option (List (List ℕ)))
        → needs_listing (choose_of rule forced requests None) ≡ false
        → choose_of rule forced requests None ≡ choose_of rule forced requests listed }
{}

/// Two intervals are found apart exactly where all of them together have nothing in common.
pub fn apart_exactly()
    ensures { (asked : List IntervalRequest)
        → (least_apart asked ≡ None) ↔ (is_empty items_cmp (common_of asked) ≡ false) }
{
    common::<Version>();
}

/// A version that is chosen and not forced is a plain one that some request asks for, or one of
/// the listed ones.
pub fn unforced_versions()
    ensures { (rule : Rule) (requests : List Request) (listed : Option (List (List ℕ))) (version : List ℕ)
        → choose_of rule None requests listed ≡ Picked version
        → IsAskedFor requests version ⊎ IsListed listed version }
{}

/// The greatest of versions is one of them, and none of them is greater by the full order. Only
/// where there are none there is no greatest.
pub fn greatest_version()
    ensures some { (versions : List (List ℕ)) (version : List ℕ)
        → greatest versions ≡ Some version → IsGreatest versions version }
    ensures none { (versions : List (List ℕ)) → greatest versions ≡ None → versions ≡ [] }
{}

/// A clash of two requests is the least pair of them that have no version in common: by the first
/// number, then by the second.
pub fn least_pair()
    ensures { (read : List (Option Constraint)) (first second : ℕ)
        → least_apart (intervals read) ≡ Some (Apart first second) → IsLeastPair read first second }
{}

/// The intervals that `Relaxed` keeps are the longest rest that has a version in common.
pub fn longest_rest()
    ensures { (asked : List IntervalRequest) → IsLongestRest asked (is_kept asked) }
{
    common::<Version>();
    one_side::<Version>();
}
