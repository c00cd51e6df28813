//! One link works a board through.
ghost use Rattle.std.specs.Prelude.{◌≡◌, ◌<◌, None, true};
ghost use Rattle.arrival_core.specs.Resolving.{resolver_of};
ghost use Rattle.cache_images.specs.Sound.{IsFaithful, IsSound};
ghost use Rattle.cache_policy.specs.declared.Mode.TheVariants.{Offline};
ghost use Rattle.cache_store.specs.Stands.{disk_of};
ghost use Rattle.disk_base.specs.Runs.{Keeps};
ghost use Rattle.fetch_pool.specs.Boards.{IsIdle, desk_of};
ghost use Rattle.fetch_pool.specs.Turns.{AllNow, Kept, LacksOnly, TellsNames};
ghost use Rattle.link_base.specs.Links.{LinkKept, Rows};
ghost use Rattle.pool_rules.specs.Boards.{IsReady};
ghost use Rattle.pool_rules.specs.Counts.{counts_of};
ghost use Rattle.pool_rules.specs.Ends.{IsWorked};
ghost use Rattle.pool_rules.specs.Works.{AsksFor};
ghost use Rattle.pool_rules.specs.Worlds.{StaysTrue, whole_of};

use crate::turns::turn;
use crate::{Board, Finished};
use disk_base::Disk;
use link_base::Link;
use pool_rules::{asks_add, entries_true, work_begins, work_ends, work_goes_on};
use res_base::Steps;
use resolution::Verdict;
use std::alloc::Global;
use std::marker::Brand;
use std::sync::ledger::{Blank, Ledger};

/// Works a board through with one link, and counts steps. It ends, since there are only so many
/// claims.
fn finish_counted<G: Ledger, L: Link, D: Disk>(
    alloc: Global,
    board: Board<D>,
    link: &mut L,
    blank: Blank,
) -> Finished<D>
    requires name { blank.name ≡ G.name }
    requires parts { blank.parts ≡ G.parts }
    requires some { 0 < blank.parts }
    requires repos { board.core.settings.repos ≡ board.core.ask.repos }
    requires ready { IsReady (desk_of board) }
    requires idle { IsIdle D.told board.store }
    ensures worked { IsWorked (resolver_of board.core.ask) (desk_of board) (desk_of result.board)
        (counts_of L.faults L.asked L.failed_urls D.faults D.last link.old (disk_of board.store))
        (counts_of L.faults L.asked L.failed_urls D.faults D.last link.new (disk_of result.board.store)) result.finish }
    ensures kept { Kept L.agrees L.faults L.asked L.failed_urls D.told D.moment D.since board result.board link.old link.new }
    ensures idle { result.board.ended ≡ None → IsIdle D.told result.board.store }
    ensures few { AsksFor (λ key. true) (desk_of board) (desk_of result.board)
        (counts_of L.faults L.asked L.failed_urls D.faults D.last link.old (disk_of board.store))
        (counts_of L.faults L.asked L.failed_urls D.faults D.last link.new (disk_of result.board.store)) }
{
    asks_add();
    entries_true();
    work_begins();
    work_ends::<Verdict>();
    work_goes_on();
    let mut board = board;
    let mut steps: Steps<G> = Steps::new(blank);
    'turns: loop {
        if let Some(finish) = turn(alloc, &mut board, link, 0, &mut steps) {
            return Finished { board, finish };
        }
    }
}

/// Works a board through with one link: claims a batch of keys, gets the file of each from the cache
/// or asks the link for it, publishes it, takes its reading in, and goes on until the session is
/// over or stuck, or claims are used up, or the disk fails or memory is wanted.
///
/// The board's store is live and has no open part, its plan has an address that reads for each
/// repository, nothing is in flight, and nothing has ended the work yet.
pub fn finish_alone<L: Link, D: Disk>(alloc: Global, board: Board<D>, link: &mut L) -> Finished<D>
    requires repos { board.core.settings.repos ≡ board.core.ask.repos }
    requires ready { IsReady (desk_of board) }
    requires idle { IsIdle D.told board.store }
    ensures worked { IsWorked (resolver_of board.core.ask) (desk_of board) (desk_of result.board)
        (counts_of L.faults L.asked L.failed_urls D.faults D.last link.old (disk_of board.store))
        (counts_of L.faults L.asked L.failed_urls D.faults D.last link.new (disk_of result.board.store)) result.finish }
    ensures few { AsksFor (λ key. true) (desk_of board) (desk_of result.board)
        (counts_of L.faults L.asked L.failed_urls D.faults D.last link.old (disk_of board.store))
        (counts_of L.faults L.asked L.failed_urls D.faults D.last link.new (disk_of result.board.store)) }
    ensures ask { result.board.core.ask ≡ board.core.ask }
    ensures rows { result.board.parts ≡ board.parts }
    ensures kept { LinkKept L.agrees L.faults L.asked L.failed_urls link.old link.new }
    ensures sound { Keeps D.told D.moment D.since IsSound (disk_of board.store) (disk_of result.board.store) }
    ensures faithful { (w : Rows) → L.agrees link.old w
        → Keeps D.told D.moment D.since (IsFaithful w) (disk_of board.store) (disk_of result.board.store) }
    ensures known { (w : Rows) → L.agrees link.old w → TellsNames D.told → AllNow D.told (IsFaithful w) (disk_of board.store)
        → StaysTrue (whole_of board.plan w) board.core.history result.board.core.history }
    ensures still { board.plan.mode ≡ Offline
        → D.told (disk_of result.board.store) ≡ D.told (disk_of board.store) }
    ensures lacking { board.plan.mode ≡ Offline
        → LacksOnly board.plan (D.told (disk_of board.store)) board.core.history result.board.core.history }
    ensures idle { result.board.ended ≡ None → IsIdle D.told result.board.store }
{
    finish_counted::<Brand, L, D>(alloc, board, link, Blank::new(1))
}
