//! What a claim answers next.
ghost use Rattle.std.specs.Prelude.{◌≡◌, ◌<◌, ◌≤◌, IfOk, OnOk, OnErr, false, length, nat_lt, slice_get, slice_index_or, true};
ghost use Rattle.claim_agenda.specs.Agendas.{IsQueue, KeepsKeys};
ghost use Rattle.claim_agenda.specs.Answering.{answer_from};
ghost use Rattle.claim_rules.specs.Claims.{is_free, of_hint, of_need};
ghost use Rattle.claim_rules.specs.Counts.{claims};
ghost use Rattle.claim_rules.specs.Histories.{known_in};
ghost use Rattle.claim_rules.specs.Sessions.{is_known};
ghost use Rattle.res_base.specs.Members.{Among};
ghost use Rattle.res_base.specs.declared.key.FileKey.{FileKey as Key};

use super::agenda::Agenda;
use claim_log::ClaimLog;
use claim_rules::{Claim, Settings, flights_told, least_keys};
use res_base::{Copied, FileKey, NoMemory, equality_decided};
use std::alloc::Global;

/// The first place from one on whose key is free, or else the number of keys.
fn next_free(log: &ClaimLog, retries: u32, keys: &[FileKey], from: usize) -> usize
    requires { IsQueue (is_free retries log.now.history) keys.now from }
    ensures queue { IsQueue (is_free retries log.now.history) keys.now result }
    ensures free { (d : Key) → result < length keys.now → is_free retries log.now.history (slice_index_or keys.now result d) ≡ true }
{
    for place in from..keys.len() {
        if log.is_free(&keys[place], retries) {
            return place;
        }
    }
    keys.len()
}

/// The answer where this need is free.
fn need_answer(
    alloc: Global,
    log: &ClaimLog,
    settings: &Settings,
    key: &FileKey,
) -> Result<Claim, NoMemory>
    ensures { IfOk result (λ made. made ≡ of_need (Some key.now) (nat_lt (claims log.now.history) settings.now.limits.claims) Claim.NoneNow) }
{
    if log.claims() < u64::from(settings.limits.claims) {
        return Ok(Claim::Claimed(key.copy(alloc)?));
    }
    Ok(Claim::TooMany)
}

/// The answer where no need is free, and the hint at this place is, if there is one.
fn hint_answer(
    alloc: Global,
    log: &ClaimLog,
    settings: &Settings,
    hints: &[FileKey],
    place: usize,
) -> Result<Claim, NoMemory>
    ensures { IfOk result (λ made. made ≡ of_hint (slice_get hints.now place) (nat_lt (claims log.now.history) settings.now.limits.hint_claims)) }
{
    if place >= hints.len() {
        return Ok(Claim::NoneNow);
    }
    if log.claims() < u64::from(settings.limits.hint_claims) {
        return Ok(Claim::Claimed(hints[place].copy(alloc)?));
    }
    Ok(Claim::NoneNow)
}

/// What a claim answers over the log, from the agenda of what is known. The places move on.
pub fn next_claim(
    alloc: Global,
    agenda: &mut Agenda,
    log: &ClaimLog,
    settings: &Settings,
) -> Result<Claim, NoMemory>
    requires needs { IsQueue (is_free settings.now.retries log.now.history) agenda.old.needs.items agenda.old.next_need }
    requires hints { IsQueue (is_free settings.now.retries log.now.history) agenda.old.hints.items agenda.old.next_hint }
    requires some { agenda.old.is_over ≡ false → 0 < length agenda.old.needs.items }
    requires unknown { (key : Key) → Among key agenda.old.needs.items → is_known (known_in log.now.history) key ≡ false }
    ensures answer { IfOk result (λ made. made ≡ answer_from settings.now log.now.history agenda.old.is_over agenda.old.needs.items agenda.old.hints.items) }
    ensures kept { KeepsKeys agenda.old agenda.new }
    ensures need_queue { IsQueue (is_free settings.now.retries log.now.history) agenda.new.needs.items agenda.new.next_need }
    ensures hint_queue { IsQueue (is_free settings.now.retries log.now.history) agenda.new.hints.items agenda.new.next_hint }
{
    equality_decided();
    least_keys();
    flights_told();
    if agenda.is_over {
        return Ok(Claim::Over);
    }
    let retries = settings.retries;
    let need = next_free(log, retries, agenda.needs.as_slice(), agenda.next_need);
    agenda.next_need = need;
    if need < agenda.needs.len() {
        return need_answer(alloc, log, settings, &agenda.needs[need]);
    }
    if !log.any_in_flight() {
        return Ok(Claim::Stuck(agenda.needs[0].copy(alloc)?));
    }
    let hint = next_free(log, retries, agenda.hints.as_slice(), agenda.next_hint);
    agenda.next_hint = hint;
    hint_answer(alloc, log, settings, agenda.hints.as_slice(), hint)
}
