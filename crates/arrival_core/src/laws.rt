//! Laws, with nothing to run.
ghost use Rattle.std.specs.Prelude.{◌≡◌, ◌≤◌, ◌<◌, ◌+◌, ◌++◌, ◌∷◌, ◌↔◌, ℕ, List, [], true};
ghost use Rattle.arrival_core.specs.Kept.{Chosen, Stood};
ghost use Rattle.arrival_core.specs.Resolving.{resolver_of};
ghost use Rattle.claim_rules.specs.Counts.{claims, claims_of};
ghost use Rattle.claim_rules.specs.Histories.{Entry, History, known_in, pairs_in};
ghost use Rattle.claim_rules.specs.Legal.{Legal, StopsFrom};
ghost use Rattle.claim_rules.specs.Resolvers.{IsLawful};
ghost use Rattle.claim_rules.specs.Sessions.{hints, is_over, needed, needs};
ghost use Rattle.claim_rules.specs.declared.settings.Settings.{Settings as Given};
ghost use Rattle.res_base.specs.Known.{Grows, HasDistinctKeys, Known as Map};
ghost use Rattle.res_base.specs.Members.{Among, number_of};
ghost use Rattle.res_base.specs.Names.{key_eq};
ghost use Rattle.res_base.specs.declared.key.FileKey.{FileKey as Key};
ghost use Rattle.res_base.specs.declared.reading.Reading.{Reading as Read};
ghost use Rattle.resolution.specs.declared.ask.Ask.{Ask as Asking};
ghost use Rattle.resolution.specs.declared.verdict.Verdict.{Verdict as Outcome};
ghost use Rattle.resolution.specs.declared.progress.Progress.{Progress as Standing};
ghost use Rattle.resolution.specs.declared.progress.Progress.TheVariants.{Over as OverBy};
ghost use Rattle.round_core.specs.Earlier.{AreLasting};
ghost use Rattle.round_core.specs.Rounds.{rounds_of};

use claim_rules::{claims_counted, legal_histories, over_stays, session_needs};
use pom_build::answer_laws;
use res_base::{known_grows, known_pairs};
use round_core::{Verdict, growth_laws, look_laws, settled_laws, standing_laws, wait_laws};

/// A law: the rounds of an ask keep what the rules of claims ask of them.
pub fn rounds_lawful()
    ensures { (ask : Asking) → IsLawful (resolver_of ask) }
{
    growth_laws();
    look_laws();
    wait_laws();
}

/// A law: needs and hints are files of the repositories.
pub(crate) fn keys_listed()
    ensures needs { (ask : Asking) (known : Map) (key : Key) → Among key (needs (resolver_of ask) known)
        → key.repo < ask.repos }
    ensures hints { (s : Given) (ask : Asking) (known : Map) (key : Key) → Among key (hints s (resolver_of ask) known)
        → key.repo < s.repos }
{
    answer_laws();
    settled_laws();
    wait_laws();
}

/// A law: where the rounds stood, they can go on once more is known; and so they can where they
/// come now, with what they built. What they built is not needed for that.
pub(crate) fn rounds_stand()
    ensures grows { (ask : Asking) (h : History) (e : Entry) (stood : Standing) (built : List Chosen)
        → Stood ask (known_in h) stood built → Stood ask (known_in (h ++ e ∷ [])) stood built }
    ensures made { (ask : Asking) (known : Map) (stood : Standing) (built : List Chosen) → stood ≡ rounds_of known ask
        → AreLasting known ask.repos built → Stood ask known stood built }
    ensures bare { (ask : Asking) (known : Map) (stood : Standing) (built : List Chosen)
        → Stood ask known stood built → Stood ask known stood [] }
{
    growth_laws();
    standing_laws();
    legal_histories::<Verdict>();
}

/// A law of sessions in which more and more is known. The progress depends on what is known as a
/// map: the order of arrival makes no difference. A verdict stays what it is, a session that is
/// over stays over, and a verdict over some of a world's answers is the one over all of them. What
/// was needed once is needed over all answers.
pub fn core_laws()
    ensures orders { (ask : Asking) (one other : History) → HasDistinctKeys (pairs_in one)
        → ((pair : Key × Read) → Among pair (pairs_in one) ↔ Among pair (pairs_in other))
        → rounds_of (known_in one) ask ≡ rounds_of (known_in other) ask }
    ensures verdict { (ask : Asking) (before after : Map) (verdict : Outcome) → Grows before after
        → rounds_of before ask ≡ OverBy verdict → rounds_of after ask ≡ OverBy verdict }
    ensures over { (ask : Asking) (before after : Map) → Grows before after
        → is_over (resolver_of ask) before ≡ true → is_over (resolver_of ask) after ≡ true }
    ensures needed { (ask : Asking) (whole : Map) (h further : History) (key : Key)
        → Grows (known_in (h ++ further)) whole → Among key (needs (resolver_of ask) (known_in h))
        → Among key (needed (resolver_of ask) whole) }
{
    growth_laws();
    rounds_lawful();
    known_pairs();
    known_grows();
    legal_histories::<Verdict>();
    over_stays::<Verdict>();
    session_needs::<Verdict>();
}

/// A law of histories of the core in which nothing is claimed once a claim was given back: a key is
/// claimed at most once more than there are retries; and where all 4,194,304 claims were made, of
/// which hints may have 2,097,152, more than 500,000 keys are needed over all answers.
pub fn claims_bounded()
    ensures few { (s : Given) (ask : Asking) (h : History) (key : Key)
        → Legal s (resolver_of ask) h → StopsFrom 0 h → claims_of h key ≤ 1 + s.retries }
    ensures many { (s : Given) (ask : Asking) (whole : Map) (h : History)
        → Legal s (resolver_of ask) h → StopsFrom 0 h → Grows (known_in h) whole → s.retries ≤ 3
        → s.limits.hint_claims ≤ 2097152 → 4194304 ≤ claims h
        → 500000 < number_of key_eq (needed (resolver_of ask) whole) }
{
    rounds_lawful();
    claims_counted::<Verdict>();
}
