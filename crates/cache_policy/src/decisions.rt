//! The decision.
ghost use Rattle.std.specs.Prelude.{◌≡◌};
ghost use Rattle.cache_policy.specs.Decisions.{check_number, checks_eq, decision, in_table, is_fresh, usable};

use crate::{Decision, Mode};
use cache_layout::Found;
use res_base::{Check, List};

/// What is usable of what was found, with the moment at which it came.
#[derive(Clone, Copy)]
enum Usable {
    Data(u64),
    Absence(u64),
    Neither,
}

fn check_number(check: Check) -> u8
    ensures { result ≡ check_number check }
{
    match check {
        Check::Sha1 => 0,
        Check::Md5 => 1,
        Check::Sha256 => 2,
        Check::NoCheck => 3,
    }
}

/// Whether two lists have the same checks in the same order.
fn same_checks(checks: &[Check], others: &[Check]) -> bool
    ensures { result ≡ checks_eq checks.now others.now }
{
    if checks.len() != others.len() {
        return false;
    }
    for i in 0..checks.len() {
        let mine = check_number(checks[i]);
        let other = check_number(others[i]);
        if mine != other {
            return false;
        }
    }
    true
}

/// Data is usable where its record has the wanted list of checks.
fn usable_of(found: &Found, checks: &[Check]) -> Usable
    ensures { result ≡ usable checks.now found.now }
{
    match found {
        Found::Whole(entry) => {
            if same_checks(entry.checks.as_slice(), checks) {
                Usable::Data(entry.moment)
            } else {
                Usable::Neither
            }
        }
        Found::Gone(moment) => Usable::Absence(*moment),
        Found::Nothing => Usable::Neither,
        Found::Broken { .. } => Usable::Neither,
    }
}

/// Whether what came at a moment is no older than `ttl` seconds.
fn is_fresh(since: u64, moment: u64, ttl: u64) -> bool
    ensures { result ≡ is_fresh moment ttl since }
{
    moment.saturating_sub(since) <= ttl
}

fn in_table(mode: Mode, changing: bool, moment: u64, ttl: u64, usable: Usable) -> Decision
    ensures { result ≡ in_table mode changing (is_fresh moment ttl) usable }
{
    match (mode, usable) {
        (Mode::Missing, Usable::Data(since)) => {
            if !changing || is_fresh(since, moment, ttl) {
                Decision::Use
            } else {
                Decision::Ask
            }
        }
        (Mode::Missing, Usable::Absence(since)) => {
            if is_fresh(since, moment, ttl) {
                Decision::Use
            } else {
                Decision::Ask
            }
        }
        (Mode::Missing, Usable::Neither) => Decision::Ask,
        (Mode::Offline, Usable::Data(_)) => Decision::Use,
        (Mode::Offline, Usable::Absence(_)) => Decision::Use,
        (Mode::Offline, Usable::Neither) => Decision::Unavailable,
        (Mode::Refresh, _) => Decision::Ask,
    }
}

/// What is done for a file of which the cache has this, by the table of `specs/Decisions.antt`. The
/// moments and `ttl` are in seconds; `checks` is the list by which the file would be taken now, and
/// a file is changing where it may become another one at its URL.
pub fn decide(
    mode: Mode,
    changing: bool,
    found: &Found,
    checks: &List<Check>,
    moment: u64,
    ttl: u64,
) -> Decision
    ensures table { result ≡ decision mode changing found.now checks.now moment ttl }
    ensures offline { result ≡ Decision.Unavailable → mode ≡ Mode.Offline }
{
    in_table(
        mode,
        changing,
        moment,
        ttl,
        usable_of(found, checks.as_slice()),
    )
}
