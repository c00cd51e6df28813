//! Laws of sessions that were worked through.
ghost use Rattle.std.specs.Prelude.{◌≡◌, ◌<◌, ◌+◌, ◌↔◌, ℕ, Bool, List, None, Option, map, true};
ghost use Rattle.cache_policy.specs.declared.Mode.{Mode as Way};
ghost use Rattle.claim_rules.specs.Counts.{is_lacking};
ghost use Rattle.claim_rules.specs.Histories.{known_in};
ghost use Rattle.claim_rules.specs.Resolvers.{IsLawful, Resolver};
ghost use Rattle.claim_rules.specs.Sessions.{is_known, needed, needs};
ghost use Rattle.claim_rules.specs.declared.why.Why.{Why as Cause};
ghost use Rattle.pool_rules.specs.Boards.{Desk, all_breaks};
ghost use Rattle.pool_rules.specs.Counts.{Counts, RiseBeside};
ghost use Rattle.pool_rules.specs.Works.{AsksFor};
ghost use Rattle.pool_rules.specs.Worlds.{StaysTrue};
ghost use Rattle.pool_rules.specs.declared.finish.Finish.{Finish as Ending};
ghost use Rattle.res_base.specs.Known.{Grows, Known};
ghost use Rattle.res_base.specs.Members.{Among, number_of};
ghost use Rattle.res_base.specs.Names.{key_eq};
ghost use Rattle.res_base.specs.declared.key.FileKey.{FileKey};
ghost use Rattle.res_base.specs.declared.reading.Reading.{Reading};
ghost use Rattle.session_rules.specs.Outcomes.{AsksFew, FailedAt, HasTopLimits, HoldsDue, IsLeastNeed, IsServed, IsSettled};

use claim_rules::{
    asked_keys, claim_answers, claims_counted, least_keys, over_stays, same_needs, session_needs,
};

/// A law: where the work ended as over, rounds over what is known give a verdict, and all files
/// that it wants are known. More answers change neither the verdict nor the readings, and all that
/// is needed over them was known.
pub fn over_settled<V>()
    ensures verdict { (r : Resolver V) (old new : Desk) (before now : Counts)
        → IsServed r old new before now Ending.Over
        → (verdict : V) × IsSettled r (known_in new.history) verdict
        (map (known_in new.history) (r.files verdict)) }
    ensures more { (r : Resolver V) → IsLawful r → (some all : Known) (verdict : V)
        → (readings : List (Option Reading)) → Grows some all → IsSettled r some verdict readings
        → IsSettled r all verdict readings }
    ensures one { (r : Resolver V) (known : Known) (first second : V)
        (these those : List (Option Reading))
        → IsSettled r known first these → IsSettled r known second those
        → (first ≡ second) × (these ≡ those) }
    ensures needed { (r : Resolver V) → IsLawful r → (some all : Known) (verdict : V)
        → (readings : List (Option Reading)) → Grows some all → IsSettled r some verdict readings
        → (key : FileKey) → Among key (needed r all) → is_known some key ≡ true }
{
    claim_answers::<V>();
    over_stays::<V>();
    session_needs::<V>();
}

/// A law: where the core knew nothing, and each entry kept what is known true in a map, all that is
/// known is so in that map.
pub fn known_true<V>()
    ensures { (r : Resolver V) (old new : Desk) (before now : Counts) (finish : Ending) (all : Known)
        → IsServed r old new before now finish → StaysTrue all old.history new.history
        → Grows (known_in new.history) all }
{}

/// A law: where the work ended as stuck, in another mode than offline, the link failed at the named
/// key once more than there are retries, and that key is needed over all answers.
pub fn stuck_broken<V>()
    ensures failed { (r : Resolver V) (old new : Desk) (before now : Counts) (key : FileKey)
        (why : Cause)
        → IsServed r old new before now (Ending.Stuck key why) → ¬ (old.plan.mode ≡ Way.Offline)
        → FailedAt old.plan old.settings.retries key before now }
    ensures need { (r : Resolver V) (old new : Desk) (before now : Counts) (key : FileKey)
        (why : Cause)
        → IsServed r old new before now (Ending.Stuck key why)
        → IsLeastNeed r (known_in new.history) key × Among key (needs r (known_in new.history)) }
    ensures needed { (r : Resolver V) → IsLawful r
        → (old new : Desk) (before now : Counts) (key : FileKey)
        → (why : Cause) (all : Known) → IsServed r old new before now (Ending.Stuck key why)
        → Grows (known_in new.history) all → Among key (needed r all) }
{
    claim_answers::<V>();
    least_keys();
    session_needs::<V>();
}

/// A law: where the work ended as stuck in offline mode, no link failed, and the cache lacks each
/// need. So in a map that grew from what is known and lacks those needs, the named key is the least
/// need too.
pub fn offline_stuck<V>()
    ensures lacking { (r : Resolver V) (old new : Desk) (before now : Counts) (key : FileKey)
        (why : Cause)
        → IsServed r old new before now (Ending.Stuck key why) → old.plan.mode ≡ Way.Offline
        → (all_breaks new.history ≡ 0)
        × ((one : FileKey) → Among one (needs r (known_in new.history))
        → is_lacking new.history one ≡ true) }
    ensures least { (r : Resolver V) → IsLawful r → (some all : Known) (key : FileKey)
        → Grows some all
        → ((one : FileKey) → Among one (needs r some) → all one ≡ None) → IsLeastNeed r some key
        → IsLeastNeed r all key }
{
    claim_answers::<V>();
    same_needs::<V>();
}

/// A law: where the work ended as too many claims, more than 500,000 keys are needed over all
/// answers.
pub fn too_many_needed<V>()
    ensures { (r : Resolver V) → IsLawful r → (old new : Desk) (before now : Counts) (all : Known)
        → IsServed r old new before now Ending.TooMany → HasTopLimits old.settings
        → Grows (known_in new.history) all → 500000 < number_of key_eq (needed r all) }
{
    claim_answers::<V>();
    claims_counted::<V>();
}

/// A law: the link is asked for the files of each key that may be asked for at most once more than
/// there are retries, and at most once where no count rose.
pub fn few_asked<V>()
    ensures retried { (r : Resolver V) → IsLawful r
        → (old new : Desk) (before now : Counts) (finish : Ending)
        → (all : Known) (may : FileKey → Bool) (due : List FileKey)
        → IsServed r old new before now finish
        → AsksFor may old new before now → Grows (known_in new.history) all
        → HoldsDue old.settings r all may due
        → AsksFew (1 + old.settings.retries) old.plan due before now }
    ensures calm { (r : Resolver V) → IsLawful r
        → (old new : Desk) (before now : Counts) (finish : Ending)
        → (all : Known) (may : FileKey → Bool) (due : List FileKey)
        → IsServed r old new before now finish
        → AsksFor may old new before now → Grows (known_in new.history) all
        → HoldsDue old.settings r all may due → ¬ RiseBeside before.faults now.faults 0 1
        → AsksFew 1 old.plan due before now }
{
    asked_keys::<V>();
    claims_counted::<V>();
}
