//! How claims end: by an answer, by a break, or given back where the work ends.
ghost use Rattle.std.specs.Prelude.{◌≡◌, IfOk, None, Some, false, true};
ghost use Rattle.claim_rules.specs.Histories.{any_in_flight, broke, give_back, holder};
ghost use Rattle.fetch_pool.specs.Boards.{IsSameBoard};
ghost use Rattle.fetch_pool.specs.Ends.{MayEnd, MayTake, finish_by, taken, what_of};
ghost use Rattle.fetch_pool.specs.Flights.{OnlyFlying, with_each};
ghost use Rattle.pool_rules.specs.Works.{with_entry};
ghost use Rattle.project_lookup.specs.KnownPairs.{stands_at};

use crate::Board;
use arrival_core::{AbsorbErr, NotClaimed, Why};
use claim_rules::flights_told;
use disk_base::Disk;
use file_fetch::GetErr;
use pool_rules::{EndCause, Finish};
use res_base::{FileKey, Reading, equality_decided};
use std::alloc::Global;

/// Ends the work on a board, and says how.
pub(crate) fn end<D: Disk>(board: &mut Board<D>, cause: EndCause) -> Finish
    ensures board { board.new ≡ record board.old { ended = Some cause } }
    ensures finish { result ≡ finish_by cause }
{
    board.ended = Some(cause);
    match cause {
        EndCause::Disk(call) => Finish::Disk(call),
        EndCause::Memory => Finish::Memory,
    }
}

/// Gives a claim back.
fn hand_back<D: Disk>(board: &mut Board<D>, seat: u32, key: &FileKey)
    requires held { holder board.old.core.history key.now ≡ Some seat }
    ensures same { IsSameBoard board.old board.new }
    ensures history { board.new.core.history ≡ with_entry board.old.core.history seat (give_back key.now) }
    ensures ended { board.new.ended ≡ board.old.ended }
{
    match board.core.give_back(seat, key) {
        Ok(()) => {}
        Err(NotClaimed) => unreachable!(),
    }
}

/// Gives the claims of all these keys back.
pub(crate) fn hand_all_back<D: Disk>(board: &mut Board<D>, seat: u32, keys: &[FileKey])
    requires flying { OnlyFlying board.old.core.history seat keys.now }
    ensures same { IsSameBoard board.old board.new }
    ensures history { board.new.core.history
        ≡ with_each board.old.core.history seat (λ key. give_back key) keys.now }
    ensures ended { board.new.ended ≡ board.old.ended }
    ensures landed { any_in_flight board.new.core.history ≡ false }
{
    equality_decided();
    flights_told();
    for key in keys {
        hand_back(board, seat, key);
    }
}

/// Gives a claim back and ends the work.
fn give_up<D: Disk>(board: &mut Board<D>, seat: u32, key: &FileKey, cause: EndCause) -> Finish
    requires held { holder board.old.core.history key.now ≡ Some seat }
    ensures same { IsSameBoard board.old board.new }
    ensures history { board.new.core.history ≡ with_entry board.old.core.history seat (give_back key.now) }
    ensures ended { board.new.ended ≡ Some cause }
    ensures finish { result ≡ finish_by cause }
{
    hand_back(board, seat, key);
    end(board, cause)
}

/// Breaks a claim.
fn break_off<D: Disk>(board: &mut Board<D>, seat: u32, key: &FileKey, why: Why)
    requires held { holder board.old.core.history key.now ≡ Some seat }
    ensures same { IsSameBoard board.old board.new }
    ensures history { board.new.core.history ≡ with_entry board.old.core.history seat (broke key.now why) }
    ensures ended { board.new.ended ≡ board.old.ended }
{
    match board.core.broke(seat, key, why) {
        Ok(()) => {}
        Err(NotClaimed) => unreachable!(),
    }
}

/// Takes the reading of a claimed key in. Where memory is wanted, the claim is given back and the
/// work ends.
fn take_in<D: Disk>(
    alloc: Global,
    board: &mut Board<D>,
    seat: u32,
    key: &FileKey,
    reading: Reading,
) -> Option<Finish>
    requires held { holder board.old.core.history key.now ≡ Some seat }
    requires kind { stands_at reading key.now.role ≡ true }
    requires going { board.old.ended ≡ None }
    ensures same { IsSameBoard board.old board.new }
    ensures history { board.new.core.history ≡ with_entry board.old.core.history seat (taken key.now reading result) }
    ensures ends { MayTake result board.new.ended }
{
    match board.core.absorb(alloc, seat, key, reading) {
        Ok(()) => None,
        Err(AbsorbErr::NotClaimed(_)) => unreachable!(),
        Err(AbsorbErr::NoMemory(_)) => Some(give_up(board, seat, key, EndCause::Memory)),
    }
}

/// Ends a claim by what was got for its key. Where that ends the work, how.
pub(crate) fn settle<D: Disk>(
    alloc: Global,
    board: &mut Board<D>,
    seat: u32,
    key: &FileKey,
    got: Result<Reading, GetErr>,
) -> Option<Finish>
    requires held { holder board.old.core.history key.now ≡ Some seat }
    requires kind { IfOk got (λ reading. stands_at reading key.now.role ≡ true) }
    requires going { board.old.ended ≡ None }
    ensures same { IsSameBoard board.old board.new }
    ensures history { board.new.core.history ≡ with_entry board.old.core.history seat (what_of key.now got result) }
    ensures ends { MayEnd got result board.new.ended }
{
    match got {
        Ok(reading) => take_in(alloc, board, seat, key, reading),
        Err(GetErr::Link) => {
            break_off(board, seat, key, Why::Link);
            None
        }
        Err(GetErr::NotCached) => {
            break_off(board, seat, key, Why::NotCached);
            None
        }
        Err(GetErr::Disk(call)) => Some(give_up(board, seat, key, EndCause::Disk(call))),
        Err(GetErr::NoMemory) => Some(give_up(board, seat, key, EndCause::Memory)),
    }
}
