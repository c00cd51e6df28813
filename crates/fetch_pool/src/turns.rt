//! A turn: a batch of claims, what is got for their keys, and their ends.
ghost use Rattle.std.specs.Prelude.{◌≡◌, ◌≤◌, ◌+◌, None, Some, false, length, true};
ghost use Rattle.arrival_core.specs.Resolving.{resolver_of};
ghost use Rattle.cache_store.specs.Stands.{disk_of};
ghost use Rattle.claim_rules.specs.Histories.{any_in_flight, holder};
ghost use Rattle.claim_rules.specs.Legal.{Legal};
ghost use Rattle.fetch_pool.specs.Boards.{IsIdle, desk_of};
ghost use Rattle.fetch_pool.specs.Ends.{EndsBy};
ghost use Rattle.fetch_pool.specs.Flights.{AreDue};
ghost use Rattle.fetch_pool.specs.Turns.{AreMore, EndsClaim, EndsSome, GoesOnSo, Kept};
ghost use Rattle.file_fetch.specs.Keys.{CanAsk};
ghost use Rattle.pool_rules.specs.Boards.{IsReady};
ghost use Rattle.pool_rules.specs.Counts.{AreLater, counts_of};
ghost use Rattle.pool_rules.specs.Ends.{IsWorked};
ghost use Rattle.pool_rules.specs.Plans.{files_in};
ghost use Rattle.pool_rules.specs.Works.{AsksFor, IsGoing};
ghost use Rattle.pool_rules.specs.declared.finish.Finish.{Finish as Ending};

use crate::Board;
use crate::claims::claim_batch;
use crate::ends::{hand_all_back, settle};
use claim_rules::{flights_told, legal_histories};
use disk_base::Disk;
use file_fetch::get_reading;
use link_base::Link;
use pool_rules::{
    Finish, asks_add, counts_later, entries_true, turns_land, work_begins, work_ends, work_goes_on,
    work_grows,
};
use res_base::{FileKey, Steps, equality_decided};
use resolution::Verdict;
use std::alloc::Global;
use std::sync::ledger::Ledger;

/// Gets what a claimed key asks for, and ends its claim. Where that ends the work, how.
fn work<G: Ledger, L: Link, D: Disk>(
    alloc: Global,
    board: &mut Board<D>,
    link: &mut L,
    seat: u32,
    key: &FileKey,
    steps: &mut Steps<G>,
) -> Option<Finish>
    requires held { holder board.old.core.history key.now ≡ Some seat }
    requires going { board.old.ended ≡ None }
    requires idle { IsIdle D.told board.old.store }
    requires key { CanAsk board.old.plan key.now }
    ensures ends { EndsClaim (desk_of board.old) (desk_of board.new) seat key.now
        (counts_of L.faults L.asked L.failed_urls D.faults D.last link.old (disk_of board.old.store))
        (counts_of L.faults L.asked L.failed_urls D.faults D.last link.new (disk_of board.new.store)) result }
    ensures later { AreLater board.old.plan
        (counts_of L.faults L.asked L.failed_urls D.faults D.last link.old (disk_of board.old.store))
        (counts_of L.faults L.asked L.failed_urls D.faults D.last link.new (disk_of board.new.store)) }
    ensures kept { Kept L.agrees L.faults L.asked L.failed_urls D.told D.moment D.since board.old board.new link.old link.new }
    ensures few { L.asked link.new ≤ L.asked link.old + files_in board.old.plan }
    ensures idle { board.new.ended ≡ None → IsIdle D.told board.new.store }
{
    entries_true();
    equality_decided();
    let got = get_reading(alloc, link, &mut board.store, &board.plan, key, steps);
    settle(alloc, board, seat, key, got)
}

/// Gets what the claimed keys ask for, in their order, and ends their claims. Where that ends the
/// work, how; then the claims of the keys that are left are given back.
fn work_all<G: Ledger, L: Link, D: Disk>(
    alloc: Global,
    board: &mut Board<D>,
    link: &mut L,
    seat: u32,
    keys: &[FileKey],
    steps: &mut Steps<G>,
) -> Option<Finish>
    requires due { AreDue board.old.plan board.old.core.history seat keys.now }
    requires going { board.old.ended ≡ None }
    requires idle { IsIdle D.told board.old.store }
    ensures ends { EndsSome (desk_of board.old) (desk_of board.new)
        (counts_of L.faults L.asked L.failed_urls D.faults D.last link.old (disk_of board.old.store))
        (counts_of L.faults L.asked L.failed_urls D.faults D.last link.new (disk_of board.new.store)) (length keys.now) }
    ensures going { result ≡ None → GoesOnSo (desk_of board.old) (desk_of board.new) }
    ensures stopped { (finish : Ending) → result ≡ Some finish → EndsBy board.new.ended
        (counts_of L.faults L.asked L.failed_urls D.faults D.last link.old (disk_of board.old.store))
        (counts_of L.faults L.asked L.failed_urls D.faults D.last link.new (disk_of board.new.store)) finish }
    ensures landed { any_in_flight board.new.core.history ≡ false }
    ensures kept { Kept L.agrees L.faults L.asked L.failed_urls D.told D.moment D.since board.old board.new link.old link.new }
    ensures idle { board.new.ended ≡ None → IsIdle D.told board.new.store }
{
    counts_later();
    entries_true();
    equality_decided();
    flights_told();
    legal_histories::<Verdict>();
    work_begins();
    work_goes_on();
    work_grows();
    for (i, key) in keys.iter().enumerate() {
        if let Some(finish) = work(alloc, board, link, seat, key, steps) {
            hand_all_back(board, seat, &keys[i + 1..]);
            return Some(finish);
        }
    }
    None
}

/// What the core of a board was through is legal.
fn legal<D: Disk>(board: &Board<D>)
    ensures { Legal board.now.core.settings (resolver_of board.now.core.ask) board.now.core.history }
{
    let _events = board.core.events();
}

/// Claims a batch of keys, gets what they ask for, and ends their claims. Where there is none to
/// claim, or the work ends, how.
pub(crate) fn turn<G: Ledger, L: Link, D: Disk>(
    alloc: Global,
    board: &mut Board<D>,
    link: &mut L,
    seat: u32,
    steps: &mut Steps<G>,
) -> Option<Finish>
    requires repos { board.old.core.settings.repos ≡ board.old.core.ask.repos }
    requires ready { IsReady (desk_of board.old) }
    requires idle { IsIdle D.told board.old.store }
    ensures going { result ≡ None → IsGoing (desk_of board.old) (desk_of board.new)
        (counts_of L.faults L.asked L.failed_urls D.faults D.last link.old (disk_of board.old.store))
        (counts_of L.faults L.asked L.failed_urls D.faults D.last link.new (disk_of board.new.store)) }
    ensures worked { (finish : Ending) → result ≡ Some finish
        → IsWorked (resolver_of board.old.core.ask) (desk_of board.old) (desk_of board.new)
        (counts_of L.faults L.asked L.failed_urls D.faults D.last link.old (disk_of board.old.store))
        (counts_of L.faults L.asked L.failed_urls D.faults D.last link.new (disk_of board.new.store)) finish }
    ensures kept { Kept L.agrees L.faults L.asked L.failed_urls D.told D.moment D.since board.old board.new link.old link.new }
    ensures few { AsksFor (λ key. true) (desk_of board.old) (desk_of board.new)
        (counts_of L.faults L.asked L.failed_urls D.faults D.last link.old (disk_of board.old.store))
        (counts_of L.faults L.asked L.failed_urls D.faults D.last link.new (disk_of board.new.store)) }
    ensures idle { board.new.ended ≡ None → IsIdle D.told board.new.store }
    ensures more { result ≡ None → AreMore (desk_of board.old) (desk_of board.new) }
{
    asks_add();
    counts_later();
    entries_true();
    legal_histories::<Verdict>();
    turns_land();
    work_begins();
    work_ends::<Verdict>();
    work_goes_on();
    work_grows();
    match claim_batch(alloc, board, seat, steps) {
        Ok(keys) => {
            let finish = work_all(alloc, board, link, seat, keys.as_slice(), steps);
            legal(board);
            finish
        }
        Err(finish) => {
            legal(board);
            Some(finish)
        }
    }
}
