//! Files that the cache has.
ghost use Rattle.std.specs.Prelude.{◌≡◌, ℕ, List, Some, true, IfErr, IfOk, OnOk};
ghost use Rattle.std.specs.Option.{ForSome};
ghost use Rattle.answer_reading.specs.Readings.{may_answer};
ghost use Rattle.cache_images.specs.Places.{IsDataName};
ghost use Rattle.cache_images.specs.Sound.{IsUrlOf};
ghost use Rattle.cache_policy.specs.declared.Mode.TheVariants.{Offline};
ghost use Rattle.cache_reads.specs.Finds.{found_in};
ghost use Rattle.cache_store.specs.Kept.{AnyFile};
ghost use Rattle.cache_store.specs.Stands.{Stands, disk_of, is_live, parts_of};
ghost use Rattle.disk_base.specs.Names.{IsBoundIn, Names, read_name};
ghost use Rattle.file_fetch.specs.Causes.{HasDiskFault, IsFromStore, IsLiveAfter, failure};
ghost use Rattle.cache_policy.specs.declared.Decision.TheVariants.{Use};
ghost use Rattle.cache_store.specs.Upgrades.{ReadsSame};
ghost use Rattle.file_fetch.specs.Decided.{IsFoundIn, decided, used_of};
ghost use Rattle.file_fetch.specs.Stores.{HasNoParts, KeepsFaith, KeepsStore};
ghost use Rattle.file_fetch.specs.Worlds.{IsFaithfulTo, IsWorldsReading};
ghost use Rattle.link_base.specs.Links.{Rows};
ghost use Rattle.pool_rules.specs.Plans.{limit_in, url_in};

use crate::GetErr;
use crate::errors::store_fault;
use crate::plan::limit_at;
use cache_layout::{Found, Record};
use cache_policy::Mode;
use cache_store::{Store, StoreErr};
use disk_base::Disk;
use pool_rules::Plan;
use res_base::{Answer, FileKey, List, Role};
use std::alloc::Global;

/// What the cache has under a name.
pub(crate) fn find_file<D: Disk>(
    alloc: Global,
    store: &mut Store<D>,
    name: &str,
) -> Result<Found, GetErr>
    requires live { is_live store.old ≡ true }
    requires stands { Stands D.told store.old }
    requires none { HasNoParts (parts_of store.old) }
    requires named { IsDataName name.now }
    ensures stands { is_live store.new ≡ true → Stands D.told store.new }
    ensures live { IsLiveAfter (failure result) (is_live store.new) }
    ensures none { HasNoParts (parts_of store.new) }
    ensures store { KeepsStore D.told D.moment D.since AnyFile store.old store.new }
    ensures disk { HasDiskFault (D.faults (disk_of store.old)) (D.faults (disk_of store.new)) (D.last (disk_of store.new)) (failure result) }
    ensures faithful { (w : Rows) → KeepsFaith D.told D.moment D.since w store.old store.new }
    ensures only { IfErr result IsFromStore }
    ensures same { D.told (disk_of store.new) ≡ D.told (disk_of store.old) }
    ensures found { ForSome (D.told (disk_of store.old)) (λ s. IfOk result (λ found. found ≡ found_in (read_name s) name.now)) }
{
    match store.find(alloc, name) {
        Ok(found) => Ok(found),
        Err(err) => Err(store_fault(err)),
    }
}

/// All the bytes of a file.
fn read_file<D: Disk>(alloc: Global, store: &mut Store<D>, name: &str) -> Result<List<u8>, GetErr>
    requires live { is_live store.old ≡ true }
    requires stands { Stands D.told store.old }
    requires none { HasNoParts (parts_of store.old) }
    requires named { IsDataName name.now }
    requires bound { IsBoundIn (D.told (disk_of store.old)) name.now }
    ensures stands { is_live store.new ≡ true → Stands D.told store.new }
    ensures live { IsLiveAfter (failure result) (is_live store.new) }
    ensures none { HasNoParts (parts_of store.new) }
    ensures store { KeepsStore D.told D.moment D.since AnyFile store.old store.new }
    ensures disk { HasDiskFault (D.faults (disk_of store.old)) (D.faults (disk_of store.new)) (D.last (disk_of store.new)) (failure result) }
    ensures faithful { (w : Rows) → KeepsFaith D.told D.moment D.since w store.old store.new }
    ensures only { IfErr result IsFromStore }
    ensures same { D.told (disk_of store.new) ≡ D.told (disk_of store.old) }
    ensures read { ForSome (D.told (disk_of store.old)) (λ s. IfOk result (λ bytes. read_name s name.now ≡ Some bytes)) }
{
    match store.read_whole(alloc, name) {
        Ok(bytes) => Ok(bytes),
        Err(err) => Err(store_fault(err)),
    }
}

/// Makes the record of data one of format 2.
fn upgrade_file<D: Disk>(alloc: Global, store: &mut Store<D>, name: &str) -> Result<(), GetErr>
    requires live { is_live store.old ≡ true }
    requires stands { Stands D.told store.old }
    requires none { HasNoParts (parts_of store.old) }
    requires named { IsDataName name.now }
    ensures stands { is_live store.new ≡ true → Stands D.told store.new }
    ensures live { IsLiveAfter (failure result) (is_live store.new) }
    ensures none { HasNoParts (parts_of store.new) }
    ensures store { KeepsStore D.told D.moment D.since AnyFile store.old store.new }
    ensures disk { HasDiskFault (D.faults (disk_of store.old)) (D.faults (disk_of store.new)) (D.last (disk_of store.new)) (failure result) }
    ensures faithful { (w : Rows) → KeepsFaith D.told D.moment D.since w store.old store.new }
    ensures only { IfErr result IsFromStore }
    ensures reads { OnOk result (ReadsSame D.told (disk_of store.old) (disk_of store.new) name.now) }
{
    match store.upgrade(alloc, name) {
        Ok(_) => Ok(()),
        Err(StoreErr::Full) => unreachable!(),
        Err(err) => Err(store_fault(err)),
    }
}

/// Outside of offline mode a record of format 1 gets format 2.
fn renew_record<D: Disk>(
    alloc: Global,
    store: &mut Store<D>,
    plan: &Plan,
    name: &str,
    entry: &Record,
) -> Result<(), GetErr>
    requires live { is_live store.old ≡ true }
    requires stands { Stands D.told store.old }
    requires none { HasNoParts (parts_of store.old) }
    requires named { IsDataName name.now }
    ensures stands { is_live store.new ≡ true → Stands D.told store.new }
    ensures live { IsLiveAfter (failure result) (is_live store.new) }
    ensures none { HasNoParts (parts_of store.new) }
    ensures store { KeepsStore D.told D.moment D.since AnyFile store.old store.new }
    ensures disk { HasDiskFault (D.faults (disk_of store.old)) (D.faults (disk_of store.new)) (D.last (disk_of store.new)) (failure result) }
    ensures faithful { (w : Rows) → KeepsFaith D.told D.moment D.since w store.old store.new }
    ensures only { IfErr result IsFromStore }
    ensures offline { plan.now.mode ≡ Offline → D.told (disk_of store.new) ≡ D.told (disk_of store.old) }
{
    if plan.mode == Mode::Offline || entry.sha256.is_some() {
        return Ok(());
    }
    upgrade_file(alloc, store, name)
}

/// What whole data answers, where its record is this one.
fn answer_with<D: Disk>(
    alloc: Global,
    store: &mut Store<D>,
    plan: &Plan,
    key: &FileKey,
    name: &str,
    entry: &Record,
) -> Result<Answer, GetErr>
    requires live { is_live store.old ≡ true }
    requires stands { Stands D.told store.old }
    requires none { HasNoParts (parts_of store.old) }
    requires named { IsDataName name.now }
    requires bound { IsBoundIn (D.told (disk_of store.old)) name.now }
    ensures stands { is_live store.new ≡ true → Stands D.told store.new }
    ensures live { IsLiveAfter (failure result) (is_live store.new) }
    ensures none { HasNoParts (parts_of store.new) }
    ensures store { KeepsStore D.told D.moment D.since AnyFile store.old store.new }
    ensures disk { HasDiskFault (D.faults (disk_of store.old)) (D.faults (disk_of store.new)) (D.last (disk_of store.new)) (failure result) }
    ensures faithful { (w : Rows) → KeepsFaith D.told D.moment D.since w store.old store.new }
    ensures only { IfErr result IsFromStore }
    ensures same { D.told (disk_of store.new) ≡ D.told (disk_of store.old) }
    ensures kind { IfOk result (λ answer. may_answer answer key.now.role ≡ true) }
    ensures value { (s : Names) (bytes : List ℕ) → D.told (disk_of store.old) ≡ Some s → read_name s name.now ≡ Some bytes
        → IfOk result (λ got. got ≡ used_of (limit_in plan.now key.now) key.now.role entry.now.length bytes) }
{
    if entry.length > limit_at(plan, key.role) {
        return Ok(Answer::TooLarge);
    }
    if key.role == Role::Artifact {
        return Ok(Answer::Stored(entry.length));
    }
    match read_file(alloc, store, name) {
        Ok(bytes) => Ok(Answer::Bytes(bytes)),
        Err(err) => Err(err),
    }
}

/// What whole data answers, once its record has format 2; in offline mode it stays as it is.
fn use_data<D: Disk>(
    alloc: Global,
    store: &mut Store<D>,
    plan: &Plan,
    key: &FileKey,
    name: &str,
    entry: &Record,
) -> Result<Answer, GetErr>
    requires live { is_live store.old ≡ true }
    requires stands { Stands D.told store.old }
    requires none { HasNoParts (parts_of store.old) }
    requires named { IsDataName name.now }
    requires bound { IsBoundIn (D.told (disk_of store.old)) name.now }
    ensures stands { is_live store.new ≡ true → Stands D.told store.new }
    ensures live { IsLiveAfter (failure result) (is_live store.new) }
    ensures none { HasNoParts (parts_of store.new) }
    ensures store { KeepsStore D.told D.moment D.since AnyFile store.old store.new }
    ensures disk { HasDiskFault (D.faults (disk_of store.old)) (D.faults (disk_of store.new)) (D.last (disk_of store.new)) (failure result) }
    ensures faithful { (w : Rows) → KeepsFaith D.told D.moment D.since w store.old store.new }
    ensures only { IfErr result IsFromStore }
    ensures offline { plan.now.mode ≡ Offline → D.told (disk_of store.new) ≡ D.told (disk_of store.old) }
    ensures kind { IfOk result (λ answer. may_answer answer key.now.role ≡ true) }
    ensures value { (s : Names) (bytes : List ℕ) → D.told (disk_of store.old) ≡ Some s → read_name s name.now ≡ Some bytes
        → IfOk result (λ got. got ≡ used_of (limit_in plan.now key.now) key.now.role entry.now.length bytes) }
{
    match answer_with(alloc, store, plan, key, name, entry) {
        Ok(answer) => match renew_record(alloc, store, plan, name, entry) {
            Ok(()) => Ok(answer),
            Err(err) => Err(err),
        },
        Err(err) => Err(err),
    }
}

/// What the cache has, where that is used.
pub(crate) fn use_found<D: Disk>(
    alloc: Global,
    store: &mut Store<D>,
    plan: &Plan,
    key: &FileKey,
    name: &str,
    found: &Found,
) -> Result<Answer, GetErr>
    requires live { is_live store.old ≡ true }
    requires stands { Stands D.told store.old }
    requires none { HasNoParts (parts_of store.old) }
    requires named { IsDataName name.now }
    requires found { IsFoundIn (D.told (disk_of store.old)) name.now found.now }
    requires used { decided plan.now key.now found.now ≡ Use }
    ensures stands { is_live store.new ≡ true → Stands D.told store.new }
    ensures live { IsLiveAfter (failure result) (is_live store.new) }
    ensures none { HasNoParts (parts_of store.new) }
    ensures store { KeepsStore D.told D.moment D.since AnyFile store.old store.new }
    ensures disk { HasDiskFault (D.faults (disk_of store.old)) (D.faults (disk_of store.new)) (D.last (disk_of store.new)) (failure result) }
    ensures faithful { (w : Rows) → KeepsFaith D.told D.moment D.since w store.old store.new }
    ensures only { IfErr result IsFromStore }
    ensures offline { plan.now.mode ≡ Offline → D.told (disk_of store.new) ≡ D.told (disk_of store.old) }
    ensures kind { IfOk result (λ answer. may_answer answer key.now.role ≡ true) }
    ensures answer { (w : Rows) → IsFaithfulTo w (D.told (disk_of store.old)) → IsUrlOf name.now (url_in plan.now key.now)
        → IfOk result (IsWorldsReading w plan.now key.now) }
{
    match found {
        Found::Whole(entry) => use_data(alloc, store, plan, key, name, entry),
        Found::Gone(_) => Ok(Answer::Absent),
        Found::Nothing => unreachable!(),
        Found::Broken { .. } => unreachable!(),
    }
}
