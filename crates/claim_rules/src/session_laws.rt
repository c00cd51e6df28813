//! Laws of sessions over any lawful resolver, with nothing to run.
ghost use Rattle.std.specs.Prelude.{◌≡◌, None, [], true, false};
ghost use Rattle.claim_rules.specs.Resolvers.{IsLawful, Resolver, given};
ghost use Rattle.claim_rules.specs.Sessions.{is_known, is_over, needed, needs};
ghost use Rattle.res_base.specs.Known.{Grows, Known};
ghost use Rattle.res_base.specs.Members.{Among};
ghost use Rattle.res_base.specs.declared.key.FileKey.{FileKey};

/// A law: where there is a verdict, all at which the rounds look is known. More answers change
/// neither the verdict nor what is looked at, and a session that is over stays over.
pub fn over_stays<V>()
    ensures known { (r : Resolver V) → IsLawful r → (known : Known) (verdict : V) → r.rounds known ≡ given verdict
        → (key : FileKey) → Among key (r.reads known) → is_known known key ≡ true }
    ensures verdict { (r : Resolver V) → IsLawful r → (before after : Known) (verdict : V) → Grows before after
        → r.rounds before ≡ given verdict → r.rounds after ≡ given verdict }
    ensures reads { (r : Resolver V) → IsLawful r → (before after : Known) (verdict : V) → Grows before after
        → r.rounds before ≡ given verdict → r.reads after ≡ r.reads before }
    ensures session { (r : Resolver V) → IsLawful r → (before after : Known) → Grows before after
        → is_over r before ≡ true → is_over r after ≡ true }
{}

/// A law: needs are unknown, and there are some exactly until the session is over. A need over some
/// answers is a needed key over all; once the session is over, all needed keys are known. It is
/// over where every key is known.
pub fn session_needs<V>()
    ensures unknown { (r : Resolver V) → IsLawful r → (known : Known) (key : FileKey)
        → Among key (needs r known) → is_known known key ≡ false }
    ensures some { (r : Resolver V) → IsLawful r → (known : Known) → is_over r known ≡ false → ¬ (needs r known ≡ []) }
    ensures none { (r : Resolver V) (known : Known) → is_over r known ≡ true → needs r known ≡ [] }
    ensures needed { (r : Resolver V) → IsLawful r → (before after : Known) → Grows before after
        → (key : FileKey) → Among key (needs r before) → Among key (needed r after) }
    ensures all_known { (r : Resolver V) → IsLawful r → (before after : Known) → Grows before after
        → is_over r before ≡ true → (key : FileKey) → Among key (needed r after) → is_known before key ≡ true }
    ensures whole { (r : Resolver V) → IsLawful r → (known : Known)
        → ((key : FileKey) → is_known known key ≡ true) → is_over r known ≡ true }
{}

/// A law: further answers for keys other than the needs change no need, and end no session.
pub fn same_needs<V>()
    ensures needs { (r : Resolver V) → IsLawful r → (before after : Known) → Grows before after
        → ((key : FileKey) → Among key (needs r before) → after key ≡ None) → needs r after ≡ needs r before }
    ensures going { (r : Resolver V) → IsLawful r → (before after : Known) → Grows before after
        → ((key : FileKey) → Among key (needs r before) → after key ≡ None)
        → is_over r before ≡ false → is_over r after ≡ false }
{}
