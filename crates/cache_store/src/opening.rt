//! How a disk becomes a store.
ghost use Rattle.std.specs.Prelude.{◌≡◌, ℕ, List, true, IfErr, IfOk, None, OnOk, Some};
ghost use Rattle.cache_images.specs.Places.{IsPartName};
ghost use Rattle.cache_images.specs.Sequences.{removed};
ghost use Rattle.cache_store.specs.Causes.{HasDiskCause, IsFromDisk};
ghost use Rattle.cache_store.specs.Kept.{AnyFile, KeepsImages};
ghost use Rattle.cache_store.specs.Opened.{IsCleared, disk_after, without_disk};
ghost use Rattle.cache_store.specs.Parts.{part_at};
ghost use Rattle.cache_store.specs.Stands.{FilesSettled, Stands, disk_of, is_live, parts_of};
ghost use Rattle.disk_base.specs.Names.{Names};
ghost use Rattle.disk_base.specs.Runs.{Done};
ghost use Rattle.res_base.specs.Members.{Among};

use crate::errors::fault;
use crate::{OpenFault, Store, StoreErr};
use disk_base::{Disk, DiskCall};
use res_base::Text;
use std::alloc::Global;

/// Removes parts, one by one.
fn remove_all<D: Disk>(alloc: Global, disk: &mut D, names: &[Text]) -> Result<(), StoreErr>
    requires { (s : Names) → D.told disk.old ≡ Some s → (p : List ℕ) → Among p names.now → IsPartName p }
    ensures images { KeepsImages D.told D.moment D.since AnyFile disk.old disk.new }
    ensures done { OnOk result (Done D.told (removed names.now) disk.old disk.new) }
    ensures cause { HasDiskCause (D.faults disk.old) (D.faults disk.new) (D.last disk.new) result }
    ensures only { IfErr result IsFromDisk }
{
    for name in names {
        if let Err(e) = disk.remove(alloc, name.as_str()) {
            return Err(fault(DiskCall::Remove, e));
        }
    }
    Ok(())
}

/// Removes what is left of parts, and syncs the names, so that nothing which an earlier run took
/// away can come back.
fn remove_parts<D: Disk>(alloc: Global, disk: &mut D) -> Result<(), StoreErr>
    ensures images { KeepsImages D.told D.moment D.since AnyFile disk.old disk.new }
    ensures cause { HasDiskCause (D.faults disk.old) (D.faults disk.new) (D.last disk.new) result }
    ensures only { IfErr result IsFromDisk }
    ensures cleared { OnOk result (IsCleared D.told disk.old disk.new) }
    ensures settled { OnOk result ((s : Names) → D.told disk.new ≡ Some s → FilesSettled s) }
{
    let names = match disk.list(alloc, "parts/") {
        Ok(names) => names,
        Err(e) => return Err(fault(DiskCall::List, e)),
    };
    remove_all(alloc, disk, names.as_slice())?;
    if let Err(e) = disk.sync_names(alloc) {
        return Err(fault(DiskCall::SyncNames, e));
    }
    Ok(())
}

impl<D: Disk> Store<D> {
    /// Opens a disk as a store without open parts: what is left of parts is removed, and all other
    /// names stay as they read.
    pub fn open(alloc: Global, disk: D) -> Result<Store<D>, OpenFault<D>>
        ensures live { IfOk result (λ store. is_live store ≡ true) }
        ensures none { IfOk result (λ store. (k : ℕ) → part_at (parts_of store) k ≡ None) }
        ensures stands { IfOk result (Stands D.told) }
        ensures images { KeepsImages D.told D.moment D.since AnyFile disk (disk_after result) }
        ensures cause { HasDiskCause (D.faults disk) (D.faults (disk_after result)) (D.last (disk_after result))
            (without_disk result) }
        ensures only { IfErr result (λ fault. IsFromDisk fault.err) }
        ensures cleared { IfOk result (λ store. IsCleared D.told disk (disk_of store)) }
    {
        let mut disk = disk;
        match remove_parts(alloc, &mut disk) {
            Ok(()) => Ok(Store {
                disk,
                parts: Vec::new(alloc),
                live: true,
            }),
            Err(err) => Err(OpenFault { disk, err }),
        }
    }
}
