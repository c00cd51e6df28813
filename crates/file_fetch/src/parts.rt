//! The one part by which a file comes into the cache.
ghost use Rattle.std.specs.Prelude.{◌≡◌, ◌<◌, ◌++◌, ℕ, List, [], true, IfErr, IfOk, OnErr, OnOk, None};
ghost use Rattle.cache_images.specs.Places.{IsDataName};
ghost use Rattle.cache_store.specs.Contents.{HasContent, IsRecorded};
ghost use Rattle.cache_store.specs.Kept.{AnyFile, IsAbsentIn, OtherThan};
ghost use Rattle.cache_store.specs.Parts.{HoldsBytes};
ghost use Rattle.cache_store.specs.Stands.{Stands, disk_of, is_live, parts_of};
ghost use Rattle.cache_store.specs.Wanted.{differing};
ghost use Rattle.digest_check.specs.Digests.{digests_of};
ghost use Rattle.file_fetch.specs.Causes.{HasDiskFault, IsFromStore, IsLiveAfter, failure};
ghost use Rattle.file_fetch.specs.Stores.{HasNoParts, IsOpen, IsSealedAlone, KeepsFaith, KeepsStore};
ghost use Rattle.file_fetch.specs.Worlds.{IsWorldsFile};
ghost use Rattle.link_base.specs.Links.{Rows};
ghost use Rattle.res_base.specs.declared.reading.Check.{Check};

use crate::GetErr;
use crate::errors::store_fault;
use cache_store::{PartNo, Store, StoreErr};
use disk_base::Disk;
use pool_rules::Plan;
use res_base::Digest;
use std::alloc::Global;

/// Opens a part.
pub(crate) fn begin_part<D: Disk>(alloc: Global, store: &mut Store<D>) -> Result<PartNo, GetErr>
    requires live { is_live store.old ≡ true }
    requires stands { Stands D.told store.old }
    requires none { HasNoParts (parts_of store.old) }
    ensures stands { is_live store.new ≡ true → Stands D.told store.new }
    ensures live { IsLiveAfter (failure result) (is_live store.new) }
    ensures store { KeepsStore D.told D.moment D.since AnyFile store.old store.new }
    ensures disk { HasDiskFault (D.faults (disk_of store.old)) (D.faults (disk_of store.new)) (D.last (disk_of store.new)) (failure result) }
    ensures faithful { (w : Rows) → KeepsFaith D.told D.moment D.since w store.old store.new }
    ensures only { IfErr result IsFromStore }
    ensures open { IfOk result (λ part. IsOpen (parts_of store.new) part.number) }
    ensures empty { IfOk result (λ part. HoldsBytes (parts_of store.new) part.number []) }
    ensures content { IfOk result (λ part. HasContent D.told (disk_of store.new) part.number []) }
    ensures few { IfOk result (λ part. part.number < 4096) }
{
    match store.begin(alloc) {
        Ok(part) => Ok(part),
        Err(StoreErr::Full) => unreachable!(),
        Err(err) => Err(store_fault(err)),
    }
}

/// Puts bytes at the end of the part.
pub(crate) fn append_part<D: Disk>(
    alloc: Global,
    store: &mut Store<D>,
    part: PartNo,
    piece: &[u8],
) -> Result<(), GetErr>
    requires live { is_live store.old ≡ true }
    requires stands { Stands D.told store.old }
    requires open { IsOpen (parts_of store.old) part.number }
    ensures stands { is_live store.new ≡ true → Stands D.told store.new }
    ensures live { IsLiveAfter (failure result) (is_live store.new) }
    ensures store { KeepsStore D.told D.moment D.since AnyFile store.old store.new }
    ensures disk { HasDiskFault (D.faults (disk_of store.old)) (D.faults (disk_of store.new)) (D.last (disk_of store.new)) (failure result) }
    ensures faithful { (w : Rows) → KeepsFaith D.told D.moment D.since w store.old store.new }
    ensures only { IfErr result IsFromStore }
    ensures open { OnOk result (IsOpen (parts_of store.new) part.number) }
    ensures bytes { OnOk result ((all : List ℕ) → HoldsBytes (parts_of store.old) part.number all
        → HoldsBytes (parts_of store.new) part.number (all ++ piece.now)) }
    ensures content { OnOk result ((all : List ℕ) → HasContent D.told (disk_of store.old) part.number all
        → HasContent D.told (disk_of store.new) part.number (all ++ piece.now)) }
{
    match store.append(alloc, part, piece) {
        Ok(()) => Ok(()),
        Err(StoreErr::PartUnknown(_)) => unreachable!(),
        Err(err) => Err(store_fault(err)),
    }
}

/// Seals the part for a name. Where a digest is wanted and the part has another one of that kind,
/// gives that, and nothing is done.
pub(crate) fn seal_part<D: Disk>(
    alloc: Global,
    store: &mut Store<D>,
    plan: &Plan,
    name: &str,
    part: PartNo,
    wanted: Option<Digest>,
) -> Result<Option<Digest>, GetErr>
    requires live { is_live store.old ≡ true }
    requires stands { Stands D.told store.old }
    requires open { IsOpen (parts_of store.old) part.number }
    requires named { IsDataName name.now }
    ensures stands { is_live store.new ≡ true → Stands D.told store.new }
    ensures live { IsLiveAfter (failure result) (is_live store.new) }
    ensures store { KeepsStore D.told D.moment D.since (OtherThan name.now) store.old store.new }
    ensures disk { HasDiskFault (D.faults (disk_of store.old)) (D.faults (disk_of store.new)) (D.last (disk_of store.new)) (failure result) }
    ensures faithful { (w : Rows) → KeepsFaith D.told D.moment D.since w store.old store.new }
    ensures only { IfErr result IsFromStore }
    ensures digest { IfOk result (λ got. (all : List ℕ) → HoldsBytes (parts_of store.old) part.number all
        → got ≡ differing wanted (digests_of all)) }
    ensures sealed { IfOk result (λ got. got ≡ None → IsSealedAlone (parts_of store.new) part.number name.now) }
    ensures open { IfOk result (λ got. (got ≡ None → ⊥) → IsOpen (parts_of store.new) part.number) }
    ensures bytes { IfOk result (λ got. (all : List ℕ) → HoldsBytes (parts_of store.old) part.number all
        → HoldsBytes (parts_of store.new) part.number all) }
    ensures content { IfOk result (λ got. part.number < 4096 → (all : List ℕ)
        → HasContent D.told (disk_of store.old) part.number all → HasContent D.told (disk_of store.new) part.number all) }
    ensures recorded { IfOk result (λ got. got ≡ None
        → IsRecorded D.told (disk_of store.new) name.now plan.now.checks plan.now.moment) }
{
    match store.seal_record(alloc, part, name, &plan.checks, wanted, plan.moment) {
        Ok(()) => Ok(None),
        Err(StoreErr::Differs(_, got)) => Ok(Some(got)),
        Err(StoreErr::PartUnknown(_)) => unreachable!(),
        Err(err) => Err(store_fault(err)),
    }
}

/// Gives the sealed part its name.
pub(crate) fn publish_part<D: Disk>(
    alloc: Global,
    store: &mut Store<D>,
    name: &str,
    part: PartNo,
) -> Result<(), GetErr>
    requires live { is_live store.old ≡ true }
    requires stands { Stands D.told store.old }
    requires sealed { IsSealedAlone (parts_of store.old) part.number name.now }
    ensures stands { is_live store.new ≡ true → Stands D.told store.new }
    ensures live { IsLiveAfter (failure result) (is_live store.new) }
    ensures store { KeepsStore D.told D.moment D.since (OtherThan name.now) store.old store.new }
    ensures disk { HasDiskFault (D.faults (disk_of store.old)) (D.faults (disk_of store.new)) (D.last (disk_of store.new)) (failure result) }
    ensures faithful { (w : Rows) (bytes : List ℕ) (checks : List Check) (moment : ℕ)
        → HasContent D.told (disk_of store.old) part.number bytes
        → IsRecorded D.told (disk_of store.old) name.now checks moment → IsWorldsFile w name.now bytes checks
        → KeepsFaith D.told D.moment D.since w store.old store.new }
    ensures only { IfErr result IsFromStore }
    ensures none { OnOk result (HasNoParts (parts_of store.new)) }
{
    match store.publish(alloc, part) {
        Ok(()) => Ok(()),
        Err(StoreErr::PartUnknown(_)) => unreachable!(),
        Err(err) => Err(store_fault(err)),
    }
}

/// Drops the part.
pub(crate) fn drop_part<D: Disk>(
    alloc: Global,
    store: &mut Store<D>,
    part: PartNo,
) -> Result<(), GetErr>
    requires live { is_live store.old ≡ true }
    requires stands { Stands D.told store.old }
    requires open { IsOpen (parts_of store.old) part.number }
    ensures stands { is_live store.new ≡ true → Stands D.told store.new }
    ensures live { IsLiveAfter (failure result) (is_live store.new) }
    ensures store { KeepsStore D.told D.moment D.since AnyFile store.old store.new }
    ensures disk { HasDiskFault (D.faults (disk_of store.old)) (D.faults (disk_of store.new)) (D.last (disk_of store.new)) (failure result) }
    ensures faithful { (w : Rows) → KeepsFaith D.told D.moment D.since w store.old store.new }
    ensures only { IfErr result IsFromStore }
    ensures none { OnOk result (HasNoParts (parts_of store.new)) }
{
    match store.drop_part(alloc, part) {
        Ok(()) => Ok(()),
        Err(StoreErr::PartUnknown(_)) => unreachable!(),
        Err(err) => Err(store_fault(err)),
    }
}

/// Puts a file as gone, at the plan's moment.
pub(crate) fn put_gone<D: Disk>(
    alloc: Global,
    store: &mut Store<D>,
    plan: &Plan,
    name: &str,
) -> Result<(), GetErr>
    requires live { is_live store.old ≡ true }
    requires stands { Stands D.told store.old }
    requires none { HasNoParts (parts_of store.old) }
    requires named { IsDataName name.now }
    ensures stands { is_live store.new ≡ true → Stands D.told store.new }
    ensures live { IsLiveAfter (failure result) (is_live store.new) }
    ensures store { KeepsStore D.told D.moment D.since (OtherThan name.now) store.old store.new }
    ensures disk { HasDiskFault (D.faults (disk_of store.old)) (D.faults (disk_of store.new)) (D.last (disk_of store.new)) (failure result) }
    ensures faithful { (w : Rows) → IsAbsentIn w name.now → KeepsFaith D.told D.moment D.since w store.old store.new }
    ensures only { IfErr result IsFromStore }
    ensures none { OnOk result (HasNoParts (parts_of store.new)) }
{
    match store.put_gone(alloc, name, plan.moment) {
        Ok(()) => Ok(()),
        Err(err) => Err(store_fault(err)),
    }
}
