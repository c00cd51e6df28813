//! What is done with any store.
ghost use Rattle.std.specs.Prelude.{◌≡◌, ℕ, true, IfOk, List, None, OnOk};
ghost use Rattle.cache_images.specs.Places.{IsDataName};
ghost use Rattle.cache_images.specs.Sound.{IsFaithful};
ghost use Rattle.cache_store.specs.Contents.{IsKept, IsRecorded};
ghost use Rattle.cache_store.specs.Parts.{part_at};
ghost use Rattle.cache_store.specs.Stands.{Stands, disk_of, is_live, parts_of};
ghost use Rattle.disk_base.specs.Runs.{Keeps};
ghost use Rattle.res_base.specs.declared.world.WorldRow.{WorldRow};
ghost use Rattle.store_tests.specs.Worlds.{AreWorlds};

use cache_layout::Found;
use cache_store::{OpenFault, Store, StoreErr, Upgraded};
use disk_base::{Disk, DiskErr, MemDisk};
use res_base::{Check, List};
use std::alloc::Global;

/// The name of the file.
pub(crate) const NAME: &str = "http/r1/x";

/// The name of its record.
pub(crate) const RECORD: &str = "records/http/r1/x";

/// Writes a file as it stands, past the store.
fn write_file<D: Disk>(
    alloc: Global,
    disk: &mut D,
    name: &str,
    bytes: &[u8],
) -> Result<(), DiskErr> {
    disk.start(alloc, name)?;
    disk.append(alloc, name, bytes)?;
    disk.sync(alloc, name)?;
    disk.sync_names(alloc)
}

/// A disk with these files, synced.
pub(crate) fn disk_of(alloc: Global, files: &[(&str, &str)]) -> Result<MemDisk, DiskErr> {
    let mut disk = MemDisk::new(alloc);
    for (name, bytes) in files {
        write_file(alloc, &mut disk, name, bytes.as_bytes())?;
    }
    Ok(disk)
}

/// The store over a disk.
pub(crate) fn opened<D: Disk>(alloc: Global, disk: D) -> Result<Store<D>, StoreErr>
    ensures live { IfOk result (λ store. is_live store ≡ true) }
    ensures stands { IfOk result (Stands D.told) }
    ensures none { IfOk result (λ store. (k : ℕ) → part_at (parts_of store) k ≡ None) }
{
    match Store::open(alloc, disk) {
        Ok(store) => Ok(store),
        Err(OpenFault { err, .. }) => Err(err),
    }
}

/// Puts bytes under a name.
pub(crate) fn put<D: Disk>(
    alloc: Global,
    store: &mut Store<D>,
    name: &str,
    bytes: &[u8],
    checks: &List<Check>,
    moment: u64,
) -> Result<(), StoreErr>
    requires live { is_live store.old ≡ true }
    requires stands { Stands D.told store.old }
    requires named { IsDataName name.now }
    ensures live { OnOk result (is_live store.new ≡ true) }
    ensures stands { OnOk result (Stands D.told store.new) }
    ensures faithful { (w : List WorldRow) → AreWorlds w name.now bytes.now checks.now
        → Keeps D.told D.moment D.since (IsFaithful w) (disk_of store.old) (disk_of store.new) }
    ensures kept { OnOk result (IsKept D.told (disk_of store.new) name.now bytes.now) }
    ensures recorded { OnOk result (IsRecorded D.told (disk_of store.new) name.now checks.now moment) }
{
    let part_no = store.begin(alloc)?;
    store.append(alloc, part_no, bytes)?;
    store.seal_record(alloc, part_no, name, checks, None, moment)?;
    store.publish(alloc, part_no)
}

/// Puts bytes under the name of the file, with the checks `sha1|none`.
pub(crate) fn put_file<D: Disk>(
    alloc: Global,
    store: &mut Store<D>,
    bytes: &[u8],
    moment: u64,
) -> Result<(), StoreErr>
    requires live { is_live store.old ≡ true }
    requires stands { Stands D.told store.old }
    ensures live { OnOk result (is_live store.new ≡ true) }
    ensures stands { OnOk result (Stands D.told store.new) }
{
    let checks = List::from_slice(alloc, &[Check::Sha1, Check::NoCheck])?;
    put(alloc, store, NAME, bytes, &checks, moment)
}

/// One file, and then another one under the same name, and then its absence.
pub(crate) fn put_two<D: Disk>(alloc: Global, store: &mut Store<D>) -> Result<(), StoreErr>
    requires live { is_live store.old ≡ true }
    requires stands { Stands D.told store.old }
{
    put_file(alloc, store, b"abc", 1000)?;
    put_file(alloc, store, b"abd", 1500)?;
    store.put_gone(alloc, NAME, 2000)
}

/// The moment of what is found under the name, and the format of its record, which is 0 where there
/// is no data; nothing is at the moment 0, and what is broken has 9 for both.
pub(crate) fn seen<D: Disk>(alloc: Global, store: &mut Store<D>) -> Result<(u64, u64), StoreErr>
    requires live { is_live store.old ≡ true }
    requires stands { Stands D.told store.old }
    ensures live { OnOk result (is_live store.new ≡ true) }
    ensures stands { OnOk result (Stands D.told store.new) }
{
    let found = store.find(alloc, NAME)?;
    Ok(match found {
        Found::Whole(entry) => (entry.moment, 1 + entry.sha256.is_some() as u64),
        Found::Gone(moment) => (moment, 0),
        Found::Nothing => (0, 0),
        Found::Broken { .. } => (9, 9),
    })
}

/// What an upgrade came to: 2 where a new record was written, 1 where it had format 2 already, and
/// 0 where there was no whole data.
pub(crate) fn upgraded<D: Disk>(alloc: Global, store: &mut Store<D>) -> Result<u64, StoreErr>
    requires live { is_live store.old ≡ true }
    requires stands { Stands D.told store.old }
    ensures live { OnOk result (is_live store.new ≡ true) }
    ensures stands { OnOk result (Stands D.told store.new) }
{
    let found = store.upgrade(alloc, NAME)?;
    Ok(match found {
        Upgraded::Done(_) => 2,
        Upgraded::Already(_) => 1,
        Upgraded::Not => 0,
    })
}
