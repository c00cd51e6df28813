//! What is got for a claimed key: from the cache, or from a link.
ghost use Rattle.std.specs.Prelude.{◌≡◌, ◌≢◌, ◌+◌, ◌≤◌, true, IfErr, IfOk, IsErrOf, Some};
ghost use Rattle.answer_reading.specs.Readings.{may_answer};
ghost use Rattle.cache_images.specs.Places.{IsDataName};
ghost use Rattle.cache_images.specs.Sound.{IsUrlOf};
ghost use Rattle.cache_policy.specs.declared.Decision.TheVariants.{Ask, Unavailable};
ghost use Rattle.cache_policy.specs.declared.Mode.TheVariants.{Offline};
ghost use Rattle.cache_store.specs.Kept.{OtherThan};
ghost use Rattle.cache_store.specs.Stands.{Stands, disk_of, is_live, parts_of};
ghost use Rattle.disk_base.specs.Names.{Names, read_name};
ghost use Rattle.file_answers.specs.Asking.{files_of};
ghost use Rattle.file_fetch.specs.Causes.{Failing, HasDiskFault, HasLinkFault, IsFromOutside, IsLiveAfter, UnlessEnded, failure};
ghost use Rattle.file_fetch.specs.Decided.{IsFoundIn, decided, decided_in};
ghost use Rattle.file_fetch.specs.Keys.{CanAsk, name_in};
ghost use Rattle.pool_rules.specs.Plans.{url_in};
ghost use Rattle.file_fetch.specs.Stores.{HasNoParts, KeepsFaith, KeepsStore};
ghost use Rattle.file_fetch.specs.Worlds.{IsFaithfulTo, IsWorldsReading};
ghost use Rattle.link_base.specs.FilePaths.{IsFilePath};
ghost use Rattle.link_base.specs.Links.{LinkKept, Rows};

use crate::GetErr;
use crate::artifacts::ask_artifact;
use crate::cached::{find_file, use_found};
use crate::changing::is_changing;
use crate::names::name_of;
use crate::small_files::ask_small;
use cache_layout::Found;
use cache_policy::{Decision, decide};
use cache_store::Store;
use disk_base::Disk;
use link_base::Link;
use pool_rules::Plan;
use res_base::{Answer, FileKey, NoMemory, Role};
use std::alloc::Global;

/// Asks a link, and keeps what it answered.
fn ask<L: Link, D: Disk>(
    alloc: Global,
    link: &mut L,
    store: &mut Store<D>,
    plan: &Plan,
    key: &FileKey,
    name: &str,
) -> Result<Answer, GetErr>
    requires live { is_live store.old ≡ true }
    requires stands { Stands D.told store.old }
    requires none { HasNoParts (parts_of store.old) }
    requires named { IsDataName name.now }
    requires path { IsFilePath key.now.path }
    requires url { IsUrlOf name.now (url_in plan.now key.now) }
    ensures stands { is_live store.new ≡ true → Stands D.told store.new }
    ensures live { IsLiveAfter (failure result) (is_live store.new) }
    ensures none { UnlessEnded (failure result) (HasNoParts (parts_of store.new)) }
    ensures store { KeepsStore D.told D.moment D.since (OtherThan name.now) store.old store.new }
    ensures disk { HasDiskFault (D.faults (disk_of store.old)) (D.faults (disk_of store.new)) (D.last (disk_of store.new)) (failure result) }
    ensures faithful { (w : Rows) → L.agrees link.old w → KeepsFaith D.told D.moment D.since w store.old store.new }
    ensures only { IfErr result IsFromOutside }
    ensures cause { HasLinkFault (L.faults link.old) (L.faults link.new) (failure result) }
    ensures few { L.asked link.new ≤ L.asked link.old + files_of plan.now.checks }
    ensures failed { Failing (url_in plan.now key.now) (L.failed_urls link.old) (L.failed_urls link.new) (failure result) }
    ensures kept { LinkKept L.agrees L.faults L.asked L.failed_urls link.old link.new }
    ensures kind { IfOk result (λ answer. may_answer answer key.now.role ≡ true) }
    ensures answer { (w : Rows) → L.agrees link.old w → IfOk result (IsWorldsReading w plan.now key.now) }
{
    match key.role {
        Role::Artifact => ask_artifact(alloc, link, store, plan, key, name),
        Role::Pom => ask_small(alloc, link, store, plan, key, name),
        Role::Listing => ask_small(alloc, link, store, plan, key, name),
    }
}

/// Uses what was found, or asks a link, as the plan decides.
fn answer_by<L: Link, D: Disk>(
    alloc: Global,
    link: &mut L,
    store: &mut Store<D>,
    plan: &Plan,
    key: &FileKey,
    name: &str,
    found: &Found,
) -> Result<Answer, GetErr>
    requires live { is_live store.old ≡ true }
    requires stands { Stands D.told store.old }
    requires none { HasNoParts (parts_of store.old) }
    requires named { IsDataName name.now }
    requires path { IsFilePath key.now.path }
    requires url { IsUrlOf name.now (url_in plan.now key.now) }
    requires found { IsFoundIn (D.told (disk_of store.old)) name.now found.now }
    ensures stands { is_live store.new ≡ true → Stands D.told store.new }
    ensures live { IsLiveAfter (failure result) (is_live store.new) }
    ensures none { UnlessEnded (failure result) (HasNoParts (parts_of store.new)) }
    ensures store { KeepsStore D.told D.moment D.since (OtherThan name.now) store.old store.new }
    ensures disk { HasDiskFault (D.faults (disk_of store.old)) (D.faults (disk_of store.new)) (D.last (disk_of store.new)) (failure result) }
    ensures faithful { (w : Rows) → L.agrees link.old w → KeepsFaith D.told D.moment D.since w store.old store.new }
    ensures cause { HasLinkFault (L.faults link.old) (L.faults link.new) (failure result) }
    ensures not_cached { IsErrOf result GetErr.NotCached → plan.now.mode ≡ Offline }
    ensures online { IsErrOf result GetErr.Link → plan.now.mode ≢ Offline }
    ensures lacking { IsErrOf result GetErr.NotCached → decided plan.now key.now found.now ≡ Unavailable }
    ensures few { L.asked link.new ≤ L.asked link.old + files_of plan.now.checks }
    ensures unasked { decided plan.now key.now found.now ≢ Ask → link.new ≡ link.old }
    ensures offline { plan.now.mode ≡ Offline → D.told (disk_of store.new) ≡ D.told (disk_of store.old) }
    ensures failed { Failing (url_in plan.now key.now) (L.failed_urls link.old) (L.failed_urls link.new) (failure result) }
    ensures kept { LinkKept L.agrees L.faults L.asked L.failed_urls link.old link.new }
    ensures kind { IfOk result (λ answer. may_answer answer key.now.role ≡ true) }
    ensures answer { (w : Rows) → L.agrees link.old w → IsFaithfulTo w (D.told (disk_of store.old))
        → IfOk result (IsWorldsReading w plan.now key.now) }
{
    let changing = is_changing(key);
    match decide(
        plan.mode,
        changing,
        found,
        &plan.checks,
        plan.moment,
        plan.ttl,
    ) {
        Decision::Use => use_found(alloc, store, plan, key, name, found),
        Decision::Ask => ask(alloc, link, store, plan, key, name),
        Decision::Unavailable => Err(GetErr::NotCached),
    }
}

/// Looks a name up in the cache, and gets its file.
fn get_named<L: Link, D: Disk>(
    alloc: Global,
    link: &mut L,
    store: &mut Store<D>,
    plan: &Plan,
    key: &FileKey,
    name: &str,
) -> Result<Answer, GetErr>
    requires live { is_live store.old ≡ true }
    requires stands { Stands D.told store.old }
    requires none { HasNoParts (parts_of store.old) }
    requires named { IsDataName name.now }
    requires name { name.now ≡ name_in plan.now key.now }
    requires path { IsFilePath key.now.path }
    requires url { IsUrlOf name.now (url_in plan.now key.now) }
    ensures stands { is_live store.new ≡ true → Stands D.told store.new }
    ensures live { IsLiveAfter (failure result) (is_live store.new) }
    ensures none { UnlessEnded (failure result) (HasNoParts (parts_of store.new)) }
    ensures store { KeepsStore D.told D.moment D.since (OtherThan name.now) store.old store.new }
    ensures disk { HasDiskFault (D.faults (disk_of store.old)) (D.faults (disk_of store.new)) (D.last (disk_of store.new)) (failure result) }
    ensures faithful { (w : Rows) → L.agrees link.old w → KeepsFaith D.told D.moment D.since w store.old store.new }
    ensures cause { HasLinkFault (L.faults link.old) (L.faults link.new) (failure result) }
    ensures not_cached { IsErrOf result GetErr.NotCached → plan.now.mode ≡ Offline }
    ensures online { IsErrOf result GetErr.Link → plan.now.mode ≢ Offline }
    ensures lacking { (s : Names) → D.told (disk_of store.old) ≡ Some s → IsErrOf result GetErr.NotCached
        → decided_in plan.now key.now (read_name s) ≡ Unavailable }
    ensures few { L.asked link.new ≤ L.asked link.old + files_of plan.now.checks }
    ensures unasked { (s : Names) → D.told (disk_of store.old) ≡ Some s → decided_in plan.now key.now (read_name s) ≢ Ask
        → link.new ≡ link.old }
    ensures offline { plan.now.mode ≡ Offline → link.new ≡ link.old }
    ensures still { plan.now.mode ≡ Offline → D.told (disk_of store.new) ≡ D.told (disk_of store.old) }
    ensures failed { Failing (url_in plan.now key.now) (L.failed_urls link.old) (L.failed_urls link.new) (failure result) }
    ensures kept { LinkKept L.agrees L.faults L.asked L.failed_urls link.old link.new }
    ensures kind { IfOk result (λ answer. may_answer answer key.now.role ≡ true) }
    ensures answer { (w : Rows) → L.agrees link.old w → IsFaithfulTo w (D.told (disk_of store.old))
        → IfOk result (IsWorldsReading w plan.now key.now) }
{
    match find_file(alloc, store, name) {
        Ok(found) => answer_by(alloc, link, store, plan, key, name, &found),
        Err(err) => Err(err),
    }
}

/// Gets the file at a key: by the plan from the cache or from the link, whose answer goes to the
/// cache. A POM or a listing is answered by its bytes, an artifact by the number of those that are
/// stored.
///
/// What the cache has is used, or a link is asked, by the table of `cache_policy`; data with a
/// record of format 1 gets one of format 2 before it is used, outside of offline mode. Checksum
/// files of an artifact are asked for before it is opened. Bytes are published before they are
/// answered, an absent file is put as gone, and what is damaged or too large leaves the cache as it
/// is.
pub fn get_file<L: Link, D: Disk>(
    alloc: Global,
    link: &mut L,
    store: &mut Store<D>,
    plan: &Plan,
    key: &FileKey,
) -> Result<Answer, GetErr>
    requires live { is_live store.old ≡ true }
    requires stands { Stands D.told store.old }
    requires none { HasNoParts (parts_of store.old) }
    requires key { CanAsk plan.now key.now }
    ensures stands { is_live store.new ≡ true → Stands D.told store.new }
    ensures live { IsLiveAfter (failure result) (is_live store.new) }
    ensures none { UnlessEnded (failure result) (HasNoParts (parts_of store.new)) }
    ensures store { KeepsStore D.told D.moment D.since (OtherThan (name_in plan.now key.now)) store.old store.new }
    ensures disk { HasDiskFault (D.faults (disk_of store.old)) (D.faults (disk_of store.new)) (D.last (disk_of store.new)) (failure result) }
    ensures faithful { (w : Rows) → L.agrees link.old w → KeepsFaith D.told D.moment D.since w store.old store.new }
    ensures cause { HasLinkFault (L.faults link.old) (L.faults link.new) (failure result) }
    ensures not_cached { IsErrOf result GetErr.NotCached → plan.now.mode ≡ Offline }
    ensures online { IsErrOf result GetErr.Link → plan.now.mode ≢ Offline }
    ensures lacking { (s : Names) → D.told (disk_of store.old) ≡ Some s → IsErrOf result GetErr.NotCached
        → decided_in plan.now key.now (read_name s) ≡ Unavailable }
    ensures few { L.asked link.new ≤ L.asked link.old + files_of plan.now.checks }
    ensures unasked { (s : Names) → D.told (disk_of store.old) ≡ Some s → decided_in plan.now key.now (read_name s) ≢ Ask
        → link.new ≡ link.old }
    ensures offline { plan.now.mode ≡ Offline → link.new ≡ link.old }
    ensures still { plan.now.mode ≡ Offline → D.told (disk_of store.new) ≡ D.told (disk_of store.old) }
    ensures failed { Failing (url_in plan.now key.now) (L.failed_urls link.old) (L.failed_urls link.new) (failure result) }
    ensures kept { LinkKept L.agrees L.faults L.asked L.failed_urls link.old link.new }
    ensures kind { IfOk result (λ answer. may_answer answer key.now.role ≡ true) }
    ensures answer { (w : Rows) → L.agrees link.old w → IsFaithfulTo w (D.told (disk_of store.old))
        → IfOk result (IsWorldsReading w plan.now key.now) }
{
    match name_of(alloc, plan, key) {
        Ok(name) => get_named(alloc, link, store, plan, key, name.as_str()),
        Err(NoMemory) => Err(GetErr::NoMemory),
    }
}
