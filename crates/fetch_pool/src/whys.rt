//! Why the claims of a key broke.
ghost use Rattle.std.specs.Prelude.{◌≡◌};
ghost use Rattle.arrival_core.specs.Resolving.{resolver_of};
ghost use Rattle.claim_log.specs.Events.{events_of};
ghost use Rattle.claim_rules.specs.Claims.{claim_of};
ghost use Rattle.claim_rules.specs.Histories.{History};
ghost use Rattle.fetch_pool.specs.Whys.{IsStuckBy, why_by};
ghost use Rattle.pool_rules.specs.Ends.{last_why as last_why_in};

use arrival_core::{Claim, Core, Event, EventKind, Why};
use claim_rules::{claim_answers, least_keys};
use pool_rules::Finish;
use res_base::FileKey;
use resolution::Verdict;

/// Why a claim of the key broke last, after one more event.
fn why_after(kind: &EventKind, key: &FileKey, why: Option<Why>) -> Option<Why>
    ensures { result ≡ why_by key.now why kind.now }
{
    match kind {
        EventKind::Broke(broken, cause) => { if broken == key { Some(*cause) } else { why } }
        EventKind::Claim(_) => why,
        EventKind::Arrive(_, _) => why,
        EventKind::GiveBack(_) => why,
    }
}

/// Why a claim of the key broke last, if one did.
fn last_why(events: &[Event], key: &FileKey) -> Option<Why>
    ensures { (h : History) → events.now ≡ events_of h → result ≡ last_why_in h key.now }
{
    let mut why = None;
    for event in events {
        why = why_after(&event.kind, key, why);
    }
    why
}

/// The finish of a session in which all needs are broken, by the least of them.
pub(crate) fn stuck(core: &Core, key: FileKey) -> Finish
    requires answer { claim_of core.now.settings (resolver_of core.now.ask) core.now.history ≡ Claim.Stuck key }
    ensures { IsStuckBy core.now.history key result }
{
    claim_answers::<Verdict>();
    least_keys();
    match last_why(core.events(), &key) {
        Some(why) => Finish::Stuck(key, why),
        None => unreachable!(),
    }
}
