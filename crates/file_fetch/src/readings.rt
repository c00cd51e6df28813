//! What is read of a key.
ghost use Rattle.std.specs.Prelude.{◌≡◌, ◌≢◌, ◌+◌, ◌≤◌, true, IfOk, IsErrOf, Some};
ghost use Rattle.cache_policy.specs.declared.Decision.TheVariants.{Ask, Unavailable};
ghost use Rattle.cache_policy.specs.declared.Mode.TheVariants.{Offline};
ghost use Rattle.cache_store.specs.Kept.{OtherThan};
ghost use Rattle.cache_store.specs.Stands.{Stands, disk_of, is_live, parts_of};
ghost use Rattle.disk_base.specs.Names.{Names, read_name};
ghost use Rattle.file_answers.specs.Asking.{files_of};
ghost use Rattle.file_fetch.specs.Causes.{Failing, HasDiskFault, HasLinkFault, IsLiveAfter, UnlessEnded, failure};
ghost use Rattle.file_fetch.specs.Decided.{decided_in};
ghost use Rattle.file_fetch.specs.Keys.{CanAsk, name_in};
ghost use Rattle.pool_rules.specs.Plans.{url_in};
ghost use Rattle.pool_rules.specs.Worlds.{reading_in};
ghost use Rattle.file_fetch.specs.Stores.{HasNoParts, KeepsFaith, KeepsStore};
ghost use Rattle.file_fetch.specs.Worlds.{IsFaithfulTo};
ghost use Rattle.link_base.specs.Links.{LinkKept, Rows};
ghost use Rattle.project_lookup.specs.KnownPairs.{stands_at};

use crate::{GetErr, get_file};
use answer_reading::read_answer;
use cache_store::Store;
use disk_base::Disk;
use link_base::Link;
use pool_rules::Plan;
use res_base::{FileKey, NoMemory, Reading, Steps};
use std::alloc::Global;
use std::sync::ledger::Ledger;

/// Gets the file at a key as `get_file` does, and reads it. It takes a step for each byte of a
/// project file or a listing.
pub fn get_reading<S: Ledger, L: Link, D: Disk>(
    alloc: Global,
    link: &mut L,
    store: &mut Store<D>,
    plan: &Plan,
    key: &FileKey,
    steps: &mut Steps<S>,
) -> Result<Reading, GetErr>
    requires live { is_live store.old ≡ true }
    requires stands { Stands D.told store.old }
    requires none { HasNoParts (parts_of store.old) }
    requires key { CanAsk plan.now key.now }
    ensures stands { is_live store.new ≡ true → Stands D.told store.new }
    ensures live { IsLiveAfter (failure result) (is_live store.new) }
    ensures none { UnlessEnded (failure result) (HasNoParts (parts_of store.new)) }
    ensures store { KeepsStore D.told D.moment D.since (OtherThan (name_in plan.now key.now)) store.old store.new }
    ensures disk { HasDiskFault (D.faults (disk_of store.old)) (D.faults (disk_of store.new)) (D.last (disk_of store.new)) (failure result) }
    ensures faithful { (w : Rows) → L.agrees link.old w → KeepsFaith D.told D.moment D.since w store.old store.new }
    ensures cause { HasLinkFault (L.faults link.old) (L.faults link.new) (failure result) }
    ensures not_cached { IsErrOf result GetErr.NotCached → plan.now.mode ≡ Offline }
    ensures online { IsErrOf result GetErr.Link → plan.now.mode ≢ Offline }
    ensures lacking { (s : Names) → D.told (disk_of store.old) ≡ Some s → IsErrOf result GetErr.NotCached
        → decided_in plan.now key.now (read_name s) ≡ Unavailable }
    ensures few { L.asked link.new ≤ L.asked link.old + files_of plan.now.checks }
    ensures unasked { (s : Names) → D.told (disk_of store.old) ≡ Some s → decided_in plan.now key.now (read_name s) ≢ Ask
        → link.new ≡ link.old }
    ensures offline { plan.now.mode ≡ Offline → link.new ≡ link.old }
    ensures still { plan.now.mode ≡ Offline → D.told (disk_of store.new) ≡ D.told (disk_of store.old) }
    ensures failed { Failing (url_in plan.now key.now) (L.failed_urls link.old) (L.failed_urls link.new) (failure result) }
    ensures kept { LinkKept L.agrees L.faults L.asked L.failed_urls link.old link.new }
    ensures kind { IfOk result (λ reading. stands_at reading key.now.role ≡ true) }
    ensures answer { (w : Rows) → L.agrees link.old w → IsFaithfulTo w (D.told (disk_of store.old))
        → IfOk result (λ reading. reading ≡ reading_in plan.now w key.now) }
{
    match get_file(alloc, link, store, plan, key) {
        Ok(answer) => match read_answer(alloc, key.role, answer, steps) {
            Ok(reading) => Ok(reading),
            Err(NoMemory) => Err(GetErr::NoMemory),
        },
        Err(err) => Err(err),
    }
}
