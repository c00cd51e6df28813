//! What follows where a key was claimed, with nothing to run.
ghost use Rattle.std.specs.Prelude.{◌≡◌, ◌<◌, false};
ghost use Rattle.arrival_core.specs.Resolving.{resolver_of};
ghost use Rattle.claim_rules.specs.Claims.{claim_of};
ghost use Rattle.claim_rules.specs.Counts.{claims};
ghost use Rattle.claim_rules.specs.Histories.{History, in_flight};
ghost use Rattle.claim_rules.specs.declared.claim.Claim.{Claim as Answer};
ghost use Rattle.claim_rules.specs.declared.settings.Settings.{Settings as Given};
ghost use Rattle.fetch_pool.specs.Turns.{most_claims};
ghost use Rattle.file_fetch.specs.Keys.{CanAsk};
ghost use Rattle.pool_rules.specs.Plans.{IsPlanFor};
ghost use Rattle.pool_rules.specs.declared.plan.Plan.{Plan as Asking};
ghost use Rattle.res_base.specs.declared.key.FileKey.{FileKey as Key};
ghost use Rattle.resolution.specs.declared.ask.Ask.{Ask as Asked};

use asked_paths::paths_asked;
use claim_rules::claim_answers;
use resolution::Verdict;

/// A law: a claimed key may be asked for by a plan for the repositories.
pub(crate) fn can_ask()
    ensures { (s : Given) (ask : Asked) (h : History) (plan : Asking) (key : Key) → s.repos ≡ ask.repos
        → IsPlanFor s.repos plan → claim_of s (resolver_of ask) h ≡ Answer.Claimed key → CanAsk plan key }
{
    paths_asked();
}

/// A law: a key is claimed only while there is room for a claim.
pub(crate) fn claims_have_room()
    ensures { (s : Given) (ask : Asked) (h : History) (key : Key)
        → claim_of s (resolver_of ask) h ≡ Answer.Claimed key → claims h < most_claims s }
{
    claim_answers::<Verdict>();
}

/// A law: a claimed key was not in flight.
pub(crate) fn claimed_lands()
    ensures { (s : Given) (ask : Asked) (h : History) (key : Key)
        → claim_of s (resolver_of ask) h ≡ Answer.Claimed key → in_flight h key ≡ false }
{
    claim_answers::<Verdict>();
}
