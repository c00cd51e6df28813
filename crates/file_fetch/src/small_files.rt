//! Project files and listings: read whole, and then kept.
ghost use Rattle.std.specs.Prelude.{◌≡◌, ◌+◌, ◌<◌, ◌≤◌, ℕ, List, [], true, IfErr, IfOk, None, OnOk};
ghost use Rattle.answer_reading.specs.Readings.{may_answer};
ghost use Rattle.cache_images.specs.Places.{IsDataName};
ghost use Rattle.cache_images.specs.Sound.{IsUrlOf};
ghost use Rattle.cache_store.specs.Contents.{HasContent};
ghost use Rattle.cache_store.specs.Kept.{OtherThan};
ghost use Rattle.cache_store.specs.Stands.{Stands, disk_of, is_live, parts_of};
ghost use Rattle.file_answers.specs.Asking.{FailedBeside, FitsLimit, files_of};
ghost use Rattle.file_answers.specs.Demands.{MayAnswer};
ghost use Rattle.file_fetch.specs.Causes.{Failing, HasDiskFault, HasLinkFault, IsFromOutside, IsFromStore, IsLiveAfter, UnlessEnded, failure};
ghost use Rattle.pool_rules.specs.Plans.{limit_in, url_in};
ghost use Rattle.pool_rules.specs.Worlds.{answer_in};
ghost use Rattle.file_fetch.specs.Stores.{HasNoParts, IsOpen, KeepsFaith, KeepsStore};
ghost use Rattle.file_fetch.specs.Worlds.{IsWorldsFile, IsWorldsReading};
ghost use Rattle.link_base.specs.FilePaths.{IsFilePath};
ghost use Rattle.link_base.specs.Links.{LinkKept, Rows};
ghost use Rattle.res_base.specs.Causes.{HasCause, Rose};
ghost use Rattle.res_base.specs.declared.key.FileKey.{FileKey as Key};

use crate::GetErr;
use crate::errors::link_fault;
use crate::parts::{append_part, begin_part, publish_part, put_gone, seal_part};
use cache_layout::names_apart;
use cache_store::{PartNo, Store};
use disk_base::Disk;
use file_answers::{ask_key, demands_judged};
use link_base::{Link, LinkErr};
use pool_rules::Plan;
use res_base::{Answer, FileKey, List};
use std::alloc::Global;

/// The answer of a link to a key of a project file or a listing, by the plan's checks: the file is
/// asked for, and then its checksum files, as far as they are wanted.
pub fn fetch_one<L: Link>(
    alloc: Global,
    link: &mut L,
    plan: &Plan,
    key: &FileKey,
) -> Result<Answer, LinkErr>
    requires { IsFilePath key.now.path }
    ensures answer { (w : Rows) → L.agrees link.old w → IfOk result (λ got. got ≡ answer_in plan.now w key.now) }
    ensures within { IfOk result (FitsLimit (limit_in plan.now key.now)) }
    ensures kind { IfOk result (MayAnswer plan.now.checks) }
    ensures cause { HasCause LinkErr.Failed (L.faults link.old) (L.faults link.new) result }
    ensures asked { Rose (L.asked link.old) (L.asked link.new) }
    ensures few { L.asked link.new ≤ L.asked link.old + files_of plan.now.checks }
    ensures closed { L.open_file link.new ≡ None }
    ensures failed { FailedBeside (url_in plan.now key.now) (L.failed_urls link.old) (L.failed_urls link.new) result }
    ensures kept { LinkKept L.agrees L.faults L.asked L.failed_urls link.old link.new }
{
    let checks = plan.checks.as_slice();
    ask_key(alloc, link, &plan.addresses, checks, plan.limit, key)
}

/// Publishes the part, whatever its bytes are.
fn finish_part<D: Disk>(
    alloc: Global,
    store: &mut Store<D>,
    plan: &Plan,
    name: &str,
    part: PartNo,
) -> Result<(), GetErr>
    requires live { is_live store.old ≡ true }
    requires stands { Stands D.told store.old }
    requires open { IsOpen (parts_of store.old) part.number }
    requires named { IsDataName name.now }
    requires few { part.number < 4096 }
    ensures stands { is_live store.new ≡ true → Stands D.told store.new }
    ensures live { IsLiveAfter (failure result) (is_live store.new) }
    ensures store { KeepsStore D.told D.moment D.since (OtherThan name.now) store.old store.new }
    ensures disk { HasDiskFault (D.faults (disk_of store.old)) (D.faults (disk_of store.new)) (D.last (disk_of store.new)) (failure result) }
    ensures faithful { (w : Rows) (bytes : List ℕ) → HasContent D.told (disk_of store.old) part.number bytes
        → IsWorldsFile w name.now bytes plan.now.checks → KeepsFaith D.told D.moment D.since w store.old store.new }
    ensures only { IfErr result IsFromStore }
    ensures none { OnOk result (HasNoParts (parts_of store.new)) }
{
    match seal_part(alloc, store, plan, name, part, None) {
        Ok(None) => publish_part(alloc, store, name, part),
        Ok(Some(_)) => unreachable!(),
        Err(err) => Err(err),
    }
}

/// Puts the bytes of a file into the part, and publishes it.
fn fill_part<D: Disk>(
    alloc: Global,
    store: &mut Store<D>,
    plan: &Plan,
    name: &str,
    part: PartNo,
    bytes: &[u8],
) -> Result<(), GetErr>
    requires live { is_live store.old ≡ true }
    requires stands { Stands D.told store.old }
    requires open { IsOpen (parts_of store.old) part.number }
    requires named { IsDataName name.now }
    requires few { part.number < 4096 }
    ensures stands { is_live store.new ≡ true → Stands D.told store.new }
    ensures live { IsLiveAfter (failure result) (is_live store.new) }
    ensures store { KeepsStore D.told D.moment D.since (OtherThan name.now) store.old store.new }
    ensures disk { HasDiskFault (D.faults (disk_of store.old)) (D.faults (disk_of store.new)) (D.last (disk_of store.new)) (failure result) }
    ensures faithful { (w : Rows) → HasContent D.told (disk_of store.old) part.number []
        → IsWorldsFile w name.now bytes.now plan.now.checks → KeepsFaith D.told D.moment D.since w store.old store.new }
    ensures only { IfErr result IsFromStore }
    ensures none { OnOk result (HasNoParts (parts_of store.new)) }
{
    match append_part(alloc, store, part, bytes) {
        Ok(()) => finish_part(alloc, store, plan, name, part),
        Err(err) => Err(err),
    }
}

/// Keeps the bytes of a file under its name.
fn keep_bytes<D: Disk>(
    alloc: Global,
    store: &mut Store<D>,
    plan: &Plan,
    name: &str,
    bytes: &[u8],
) -> Result<(), GetErr>
    requires live { is_live store.old ≡ true }
    requires stands { Stands D.told store.old }
    requires none { HasNoParts (parts_of store.old) }
    requires named { IsDataName name.now }
    ensures stands { is_live store.new ≡ true → Stands D.told store.new }
    ensures live { IsLiveAfter (failure result) (is_live store.new) }
    ensures store { KeepsStore D.told D.moment D.since (OtherThan name.now) store.old store.new }
    ensures disk { HasDiskFault (D.faults (disk_of store.old)) (D.faults (disk_of store.new)) (D.last (disk_of store.new)) (failure result) }
    ensures faithful { (w : Rows) → IsWorldsFile w name.now bytes.now plan.now.checks
        → KeepsFaith D.told D.moment D.since w store.old store.new }
    ensures only { IfErr result IsFromStore }
    ensures none { OnOk result (HasNoParts (parts_of store.new)) }
{
    match begin_part(alloc, store) {
        Ok(part) => fill_part(alloc, store, plan, name, part, bytes),
        Err(err) => Err(err),
    }
}

/// Keeps what a link answered: bytes under their name, an absence as such, and nothing else.
fn keep_answer<D: Disk>(
    alloc: Global,
    store: &mut Store<D>,
    plan: &Plan,
    name: &str,
    answer: &Answer,
) -> Result<(), GetErr>
    requires live { is_live store.old ≡ true }
    requires stands { Stands D.told store.old }
    requires none { HasNoParts (parts_of store.old) }
    requires named { IsDataName name.now }
    ensures stands { is_live store.new ≡ true → Stands D.told store.new }
    ensures live { IsLiveAfter (failure result) (is_live store.new) }
    ensures store { KeepsStore D.told D.moment D.since (OtherThan name.now) store.old store.new }
    ensures disk { HasDiskFault (D.faults (disk_of store.old)) (D.faults (disk_of store.new)) (D.last (disk_of store.new)) (failure result) }
    ensures faithful { (w : Rows) (key : Key) → IsUrlOf name.now (url_in plan.now key)
        → answer.now ≡ answer_in plan.now w key → KeepsFaith D.told D.moment D.since w store.old store.new }
    ensures only { IfErr result IsFromStore }
    ensures none { OnOk result (HasNoParts (parts_of store.new)) }
{
    names_apart();
    demands_judged();
    match answer {
        Answer::Bytes(bytes) => keep_bytes(alloc, store, plan, name, bytes.as_slice()),
        Answer::Absent => put_gone(alloc, store, plan, name),
        Answer::Stored(_) | Answer::Damaged(_) | Answer::TooLarge => Ok(()),
    }
}

/// Asks a link for a project file or a listing, and keeps what it answered.
pub(crate) fn ask_small<L: Link, D: Disk>(
    alloc: Global,
    link: &mut L,
    store: &mut Store<D>,
    plan: &Plan,
    key: &FileKey,
    name: &str,
) -> Result<Answer, GetErr>
    requires live { is_live store.old ≡ true }
    requires stands { Stands D.told store.old }
    requires none { HasNoParts (parts_of store.old) }
    requires named { IsDataName name.now }
    requires path { IsFilePath key.now.path }
    requires url { IsUrlOf name.now (url_in plan.now key.now) }
    ensures stands { is_live store.new ≡ true → Stands D.told store.new }
    ensures live { IsLiveAfter (failure result) (is_live store.new) }
    ensures none { UnlessEnded (failure result) (HasNoParts (parts_of store.new)) }
    ensures store { KeepsStore D.told D.moment D.since (OtherThan name.now) store.old store.new }
    ensures disk { HasDiskFault (D.faults (disk_of store.old)) (D.faults (disk_of store.new)) (D.last (disk_of store.new)) (failure result) }
    ensures faithful { (w : Rows) → L.agrees link.old w → KeepsFaith D.told D.moment D.since w store.old store.new }
    ensures only { IfErr result IsFromOutside }
    ensures cause { HasLinkFault (L.faults link.old) (L.faults link.new) (failure result) }
    ensures few { L.asked link.new ≤ L.asked link.old + files_of plan.now.checks }
    ensures failed { Failing (url_in plan.now key.now) (L.failed_urls link.old) (L.failed_urls link.new) (failure result) }
    ensures kept { LinkKept L.agrees L.faults L.asked L.failed_urls link.old link.new }
    ensures kind { IfOk result (λ answer. may_answer answer key.now.role ≡ true) }
    ensures answer { (w : Rows) → L.agrees link.old w → IfOk result (IsWorldsReading w plan.now key.now) }
{
    match fetch_one(alloc, link, plan, key) {
        Ok(answer) => match keep_answer(alloc, store, plan, name, &answer) {
            Ok(()) => Ok(answer),
            Err(err) => Err(err),
        },
        Err(err) => Err(link_fault(err)),
    }
}
