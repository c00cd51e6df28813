//! How keys are claimed, and how work ends where there is none to claim.
ghost use Rattle.std.specs.Prelude.{◌≡◌, ◌<◌, IfErr, IfOk, IfSome, None, OnErr, OnOk, OnSome, false, length, true, vec_capacity, vec_len};
ghost use Rattle.arrival_core.specs.Resolving.{resolver_of};
ghost use Rattle.claim_rules.specs.Claims.{claim_of};
ghost use Rattle.claim_rules.specs.Counts.{claims};
ghost use Rattle.claim_rules.specs.Histories.{any_in_flight, claim};
ghost use Rattle.fetch_pool.specs.Boards.{IsSameBoard, desk_of};
ghost use Rattle.fetch_pool.specs.Claimed.{Answers};
ghost use Rattle.fetch_pool.specs.Flights.{AreDue, with_each};
ghost use Rattle.fetch_pool.specs.Turns.{most_claims};
ghost use Rattle.pool_rules.specs.Boards.{IsReady};
ghost use Rattle.pool_rules.specs.Works.{with_entry};

use crate::Board;
use crate::ends::end;
use crate::laws::{can_ask, claimed_lands, claims_have_room};
use crate::whys::stuck;
use arrival_core::Claim;
use claim_rules::flights_told;
use disk_base::Disk;
use pool_rules::{EndCause, Finish};
use res_base::{FileKey, NoMemory, Steps, equality_decided};
use std::alloc::Global;
use std::sync::ledger::Ledger;

/// Claims a key on a board whose core is caught up. Where there is none to claim, how the work ends.
fn claim_next<D: Disk>(alloc: Global, board: &mut Board<D>, seat: u32) -> Result<FileKey, Finish>
    requires caught_up { board.old.core.caught_up ≡ true }
    requires landed { any_in_flight board.old.core.history ≡ false }
    requires going { board.old.ended ≡ None }
    ensures same { IsSameBoard board.old board.new }
    ensures claimed { IfOk result (λ key. board.new.core.history ≡ with_entry board.old.core.history seat (claim key)) }
    ensures due { IfOk result (λ key. claim_of board.old.core.settings (resolver_of board.old.core.ask) board.old.core.history
        ≡ Claim.Claimed key) }
    ensures going { OnOk result (board.new.ended ≡ None) }
    ensures caught_up { OnOk result (board.new.core.caught_up ≡ true) }
    ensures unclaimed { OnErr result (board.new.core.history ≡ board.old.core.history) }
    ensures ends { IfErr result (Answers (resolver_of board.old.core.ask) (desk_of board.new)) }
{
    match board.core.claim(alloc, seat) {
        Ok(Claim::Claimed(key)) => Ok(key),
        Ok(Claim::Over) => Err(Finish::Over),
        Ok(Claim::Stuck(key)) => Err(stuck(&board.core, key)),
        Ok(Claim::TooMany) => Err(Finish::TooMany),
        Ok(Claim::NoneNow) => unreachable!(),
        Err(NoMemory) => Err(end(board, EndCause::Memory)),
    }
}

/// Takes the rounds on and claims a key. Where there is none to claim, how the work ends.
fn claim_one<G: Ledger, D: Disk>(
    alloc: Global,
    board: &mut Board<D>,
    seat: u32,
    steps: &mut Steps<G>,
) -> Result<FileKey, Finish>
    requires landed { any_in_flight board.old.core.history ≡ false }
    requires going { board.old.ended ≡ None }
    ensures same { IsSameBoard board.old board.new }
    ensures claimed { IfOk result (λ key. board.new.core.history ≡ with_entry board.old.core.history seat (claim key)) }
    ensures due { IfOk result (λ key. claim_of board.old.core.settings (resolver_of board.old.core.ask) board.old.core.history
        ≡ Claim.Claimed key) }
    ensures going { OnOk result (board.new.ended ≡ None) }
    ensures caught_up { OnOk result (board.new.core.caught_up ≡ true) }
    ensures unclaimed { OnErr result (board.new.core.history ≡ board.old.core.history) }
    ensures ends { IfErr result (Answers (resolver_of board.old.core.ask) (desk_of board.new)) }
{
    match board.core.advance(alloc, steps) {
        Ok(()) => claim_next(alloc, board, seat),
        Err(NoMemory) => Err(end(board, EndCause::Memory)),
    }
}

/// Claims a further key for a batch, where one is free and there is memory for it.
fn claim_further<D: Disk>(
    alloc: Global,
    board: &mut Board<D>,
    seat: u32,
    keys: &mut Vec<FileKey>,
) -> Option<FileKey>
    requires caught_up { board.old.core.caught_up ≡ true }
    ensures same { IsSameBoard board.old board.new }
    ensures claimed { IfSome result (λ key. board.new.core.history ≡ with_entry board.old.core.history seat (claim key)) }
    ensures due { IfSome result (λ key. claim_of board.old.core.settings (resolver_of board.old.core.ask) board.old.core.history
        ≡ Claim.Claimed key) }
    ensures unclaimed { result ≡ None → board.new.core.history ≡ board.old.core.history }
    ensures caught_up { board.new.core.caught_up ≡ true }
    ensures ended { board.new.ended ≡ board.old.ended }
    ensures keys { keys.new.items ≡ keys.old.items }
    ensures room { OnSome result (vec_len keys.new < vec_capacity keys.new) }
{
    if keys.reserve(1).is_err() {
        return None;
    }
    match board.core.claim(alloc, seat) {
        Ok(Claim::Claimed(key)) => Some(key),
        Ok(Claim::Over) => None,
        Ok(Claim::Stuck(_)) => None,
        Ok(Claim::TooMany) => None,
        Ok(Claim::NoneNow) => None,
        Err(NoMemory) => None,
    }
}

/// So many keys are claimed in a batch at most.
const BATCH: u32 = 1024;

/// Takes the rounds on and claims a batch of keys: the first, and further ones while they are free.
/// Where there is none to claim, how the work ends.
pub(crate) fn claim_batch<G: Ledger, D: Disk>(
    alloc: Global,
    board: &mut Board<D>,
    seat: u32,
    steps: &mut Steps<G>,
) -> Result<Vec<FileKey>, Finish>
    requires repos { board.old.core.settings.repos ≡ board.old.core.ask.repos }
    requires ready { IsReady (desk_of board.old) }
    ensures same { IsSameBoard board.old board.new }
    ensures claimed { IfOk result (λ keys. board.new.core.history
        ≡ with_each board.old.core.history seat (λ key. claim key) keys.items) }
    ensures due { IfOk result (λ keys. AreDue board.old.plan board.new.core.history seat keys.items) }
    ensures some { IfOk result (λ keys. 0 < length keys.items) }
    ensures room { OnOk result (claims board.old.core.history < most_claims board.old.core.settings) }
    ensures going { OnOk result (board.new.ended ≡ None) }
    ensures unclaimed { OnErr result (board.new.core.history ≡ board.old.core.history) }
    ensures ends { IfErr result (Answers (resolver_of board.old.core.ask) (desk_of board.new)) }
{
    can_ask();
    claimed_lands();
    claims_have_room();
    flights_told();
    equality_decided();
    let mut keys = match Vec::with_capacity(alloc, 1) {
        Ok(keys) => keys,
        Err(_) => return Err(end(board, EndCause::Memory)),
    };
    let first = claim_one(alloc, board, seat, steps)?;
    keys.push_reserved(first);
    'batch: for _ in 1..BATCH {
        match claim_further(alloc, board, seat, &mut keys) {
            None => return Ok(keys),
            Some(key) => keys.push_reserved(key),
        }
    }
    Ok(keys)
}
