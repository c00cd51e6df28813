//! Laws of sets of exclusions, as functions with nothing to run.
ghost use Rattle.std.specs.Prelude.{◌≡◌, true, false, not, ◌||◌, ◌⊎◌, List};
ghost use Rattle.std.specs.List.{IsAmong};
ghost use Rattle.exclusion_sets.specs.declared.excl_set.ExclSet.{ExclSet};
ghost use Rattle.exclusion_sets.specs.Exclusions.{is_covered, is_excluded, is_within, join_of, no_rules};
ghost use Rattle.exclusion_sets.specs.Lookups.{has_rule, is_found};
ghost use Rattle.exclusion_sets.specs.Minimal.{IsMinimal, has_within, is_passed, sets_after, without_covered};
ghost use Rattle.res_base.specs.declared.coord.Module.{Module};
ghost use Rattle.res_base.specs.declared.pom.Exclusion.{Exclusion};

/// A rule is covered exactly where one of four stands in the set: its org or `*`, with its name or
/// `*`.
pub fn cover_laws()
    ensures { (set : ExclSet) (rule : Exclusion) →
        is_covered set rule ≡ is_found (has_rule set.rules) rule.org rule.name }
{}

/// "Is within" is reflexive and transitive, and what is within excludes no more.
pub fn within_laws()
    ensures reflexive { (a : ExclSet) → is_within a a ≡ true }
    ensures transitive { (a b c : ExclSet) → is_within a b ≡ true → is_within b c ≡ true → is_within a c ≡ true }
    ensures excludes { (a b : ExclSet) (m : Module) →
        is_within a b ≡ true → is_excluded a m ≡ true → is_excluded b m ≡ true }
    ensures passes { (a b : ExclSet) (m : Module) →
        is_within a b ≡ true → is_excluded b m ≡ false → is_excluded a m ≡ false }
{}

/// Two sets are within their join, which is within each set that both are within, and excludes what
/// either excludes. Sets that are joined with one and the same stay within each other.
pub fn join_laws()
    ensures left { (a b : ExclSet) → is_within a (join_of a b) ≡ true }
    ensures right { (a b : ExclSet) → is_within b (join_of a b) ≡ true }
    ensures least { (a b c : ExclSet) → is_within a c ≡ true → is_within b c ≡ true → is_within (join_of a b) c ≡ true }
    ensures either { (a b : ExclSet) (m : Module) → is_excluded (join_of a b) m ≡ (is_excluded a m || is_excluded b m) }
    ensures widens { (a b c : ExclSet) → is_within a b ≡ true → is_within (join_of a c) (join_of b c) ≡ true }
{}

/// The set without rules excludes nothing, is within each set, and adds nothing to a set.
pub fn no_rules_laws()
    ensures excludes { (m : Module) → is_excluded no_rules m ≡ false }
    ensures least { (a : ExclSet) → is_within no_rules a ≡ true }
    ensures left { (a : ExclSet) → join_of no_rules a ≡ a }
    ensures right { (a : ExclSet) → join_of a no_rules ≡ a }
{}

/// What an addition to a collection of sets keeps.
///
/// Of sets none of which is within another none is after it. Some set is then within a third one,
/// or lets a module through, exactly where one did before or the new one does. No set is there that
/// was not there before and is not the new one.
pub fn kept_laws()
    ensures minimal { (sets : List ExclSet) (set : ExclSet) → IsMinimal sets → IsMinimal (sets_after sets set) }
    ensures within { (sets : List ExclSet) (set wide : ExclSet) →
        has_within (sets_after sets set) wide ≡ (has_within sets wide || is_within set wide) }
    ensures passes { (sets : List ExclSet) (set : ExclSet) (m : Module) →
        is_passed (sets_after sets set) m ≡ (is_passed sets m || not (is_excluded set m)) }
    ensures among { (sets : List ExclSet) (set one : ExclSet) →
        IsAmong (sets_after sets set) one → IsAmong sets one ⊎ (one ≡ set) }
    ensures covered { (sets : List ExclSet) (set : ExclSet) → has_within sets set ≡ true → sets_after sets set ≡ sets }
    ensures added { (sets : List ExclSet) (set : ExclSet) →
        has_within sets set ≡ false → sets_after sets set ≡ without_covered sets set }
{}
