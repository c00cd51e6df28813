//! Laws of histories over any lawful resolver, with nothing to run.
ghost use Rattle.std.specs.Prelude.{◌≡◌, ◌≤◌, ◌<◌, ◌+◌, ◌*◌, ◌∷◌, ◌++◌, ℕ, Bool, List, [], None, Some, length, true, false, count_by, drop, map};
ghost use Rattle.std.specs.Ordering.{is_gt};
ghost use Rattle.claim_rules.specs.Claims.{IsAnswer, claim_of};
ghost use Rattle.claim_rules.specs.Counts.{claims, claims_of, claims_that, gave_back, is_claim, link_breaks};
ghost use Rattle.claim_rules.specs.Histories.{Entry, History, any_in_flight, in_flight, known_in, pairs_in};
ghost use Rattle.claim_rules.specs.Least.{least};
ghost use Rattle.claim_rules.specs.Legal.{Legal, MayCome, StopsFrom};
ghost use Rattle.claim_rules.specs.Resolvers.{IsLawful, Resolver};
ghost use Rattle.claim_rules.specs.Sessions.{is_known, is_over, needed, touched};
ghost use Rattle.claim_rules.specs.declared.claim.Claim.{Claim as Answer};
ghost use Rattle.claim_rules.specs.declared.settings.Settings.{Settings as Given};
ghost use Rattle.res_base.specs.Known.{Grows, Known};
ghost use Rattle.res_base.specs.Members.{Among, number_of};
ghost use Rattle.res_base.specs.Names.{key_cmp, key_eq};
ghost use Rattle.res_base.specs.declared.key.FileKey.{FileKey};

use res_base::{equality_decided, keys_counted, known_grows};

/// A law: the answer of a claim is the one whose words are true of the history. Where that is
/// `NoneNow`, some claim is in flight.
pub fn claim_answers<V>()
    ensures says { (s : Given) (r : Resolver V) (h : History) → IsAnswer s r h (claim_of s r h) }
    ensures only { (s : Given) (r : Resolver V) (h : History) (answer : Answer)
        → IsAnswer s r h answer → claim_of s r h ≡ answer }
    ensures flying { (s : Given) (r : Resolver V) (h : History) → IsLawful r
        → claim_of s r h ≡ Answer.NoneNow → any_in_flight h ≡ true }
{
    equality_decided();
}

/// A law: the least of some keys is one of them, and comes after none of them. Only where there is
/// no key there is no least one.
pub fn least_keys()
    ensures among { (keys : List FileKey) (key : FileKey) → least keys ≡ Some key → Among key keys }
    ensures lowest { (keys : List FileKey) (key one : FileKey)
        → least keys ≡ Some key → Among one keys → is_gt (key_cmp key one) ≡ false }
    ensures none { (keys : List FileKey) → least keys ≡ None → keys ≡ [] }
{}

/// A law: some claim is in flight exactly where some key is.
pub fn flights_told()
    ensures any { (h : History) (key : FileKey) → in_flight h key ≡ true → any_in_flight h ≡ true }
    ensures some { (h : History) → any_in_flight h ≡ true → (key : FileKey) × (in_flight h key ≡ true) }
{
    equality_decided();
}

/// A law: a legal history goes on by what may come, its beginnings are legal, and it knows all the
/// more. A key whose claim is in flight is not known, so no key arrives twice.
pub fn legal_histories<V>()
    ensures more { (s : Given) (r : Resolver V) (h : History) (e : Entry)
        → Legal s r h → MayCome s r h e → Legal s r (h ++ e ∷ []) }
    ensures begins { (s : Given) (r : Resolver V) (h further : History) → Legal s r (h ++ further) → Legal s r h }
    ensures grows { (h further : History) → Grows (known_in h) (known_in (h ++ further)) }
    ensures stops { (n : ℕ) (h : History) (e : Entry) → StopsFrom n h
        → (is_claim e.what ≡ true → gave_back (drop n h) ≡ false) → StopsFrom n (h ++ e ∷ []) }
    ensures flying { (s : Given) (r : Resolver V) (h : History) (key : FileKey)
        → Legal s r h → in_flight h key ≡ true → is_known (known_in h) key ≡ false }
{
    equality_decided();
    known_grows();
}

/// A law of histories in which nothing is claimed once a claim was given back. A key is claimed
/// once, and once more for each failure of a link, of which it may have as many as there are
/// retries. All claims but those that hints have room for are of needed keys. So where all
/// 4,194,304 claims were made, more than 500,000 keys are needed.
pub fn claims_counted<V>()
    ensures each { (s : Given) (r : Resolver V) (h : History) (key : FileKey)
        → Legal s r h → StopsFrom 0 h → claims_of h key ≤ 1 + link_breaks h key }
    ensures few { (s : Given) (r : Resolver V) (h : History) (key : FileKey)
        → Legal s r h → StopsFrom 0 h → claims_of h key ≤ 1 + s.retries }
    ensures bound { (s : Given) (r : Resolver V) → IsLawful r → (whole : Known) (most : ℕ) (h : History)
        → Legal s r h → Grows (known_in h) whole → ((key : FileKey) → claims_of h key ≤ most)
        → claims h ≤ most * number_of key_eq (needed r whole) + s.limits.hint_claims }
    ensures many { (s : Given) (r : Resolver V) → IsLawful r → (whole : Known) (h : History)
        → Legal s r h → StopsFrom 0 h → Grows (known_in h) whole → s.retries ≤ 3
        → s.limits.hint_claims ≤ 2097152 → 4194304 ≤ claims h → 500000 < number_of key_eq (needed r whole) }
{
    equality_decided();
    keys_counted();
    known_grows();
}

/// A law: what is claimed is a needed key, or a hint beside one. So the claims of keys that pass a
/// test are at most as many as there are such keys, times the claims that one key may have.
pub fn asked_keys<V>()
    ensures touched { (s : Given) (r : Resolver V) → IsLawful r → (whole : Known) (h : History) (key : FileKey)
        → Grows (known_in h) whole → claim_of s r h ≡ Answer.Claimed key → Among key (touched s r whole) }
    ensures few { (s : Given) (r : Resolver V) → IsLawful r → (whole : Known) (test : FileKey → Bool) (most : ℕ)
        → (h : History) (due : List FileKey) → Legal s r h → Grows (known_in h) whole
        → ((key : FileKey) → claims_of h key ≤ most)
        → ((key : FileKey) → Among key (touched s r whole) → test key ≡ true → Among key due)
        → claims_that test h ≤ most * length due }
{
    equality_decided();
    keys_counted();
    known_grows();
}

/// A law: no key arrives twice. Without hints every known key is needed; so once the session is
/// over, as many keys were read as are needed.
pub fn reads_counted<V>()
    ensures once { (s : Given) (r : Resolver V) (h : History) (key : FileKey)
        → Legal s r h → count_by (key_eq key) (map (λ pair. pair.0) (pairs_in h)) ≤ 1 }
    ensures needed { (s : Given) (r : Resolver V) → IsLawful r → s.eager ≡ false → (whole : Known) (h : History)
        → (key : FileKey) → Legal s r h → Grows (known_in h) whole → is_known (known_in h) key ≡ true
        → Among key (needed r whole) }
    ensures counted { (s : Given) (r : Resolver V) → IsLawful r → s.eager ≡ false → (whole : Known) (h : History)
        → Legal s r h → Grows (known_in h) whole → is_over r (known_in h) ≡ true
        → length (pairs_in h) ≡ number_of key_eq (needed r whole) }
{
    equality_decided();
    keys_counted();
    known_grows();
}
