//! How a record of format 1 becomes one of format 2.
ghost use Rattle.std.specs.Prelude.{◌≡◌, [], ℕ, List, Some, false, true, IfErr, IfOk, IsErrOf, OnErr, OnOk};
ghost use Rattle.std.specs.Option.{ForSome};
ghost use Rattle.cache_images.specs.Places.{IsDataName};
ghost use Rattle.cache_reads.specs.Upgrades.{upgraded_in};
ghost use Rattle.cache_reads.specs.declared.planning.Upgraded.TheVariants.{Done};
ghost use Rattle.cache_store.specs.Causes.{HasDiskCause, IsFromDisk, IsFullOrFromDisk, IsLiveAfter};
ghost use Rattle.cache_store.specs.Contents.{PartsRead};
ghost use Rattle.cache_store.specs.Kept.{AnyFile, KeepsImages};
ghost use Rattle.cache_store.specs.Parts.{part_at};
ghost use Rattle.cache_store.specs.Stands.{IsFull, Stands, disk_of, is_live, parts_of};
ghost use Rattle.cache_store.specs.Upgrades.{HasRecordDone, ReadsSame, StaysUnlessDone, is_done};
ghost use Rattle.disk_base.specs.Names.{Names, read_name};
ghost use Rattle.disk_base.specs.Runs.{Ran};

use crate::errors::fault;
use crate::files::upgrade_files;
use crate::names::record_part_name;
use crate::part::free_place;
use crate::{Store, StoreErr};
use cache_layout::{Record, record_line, record_lines_read};
use cache_reads::{Upgraded, plan_upgrade, record_name};
use disk_base::{Disk, DiskCall};
use std::alloc::Global;

impl<D: Disk> Store<D> {
    /// What an upgrade comes to. Nothing is written yet.
    fn plan(&mut self, alloc: Global, name: &str) -> Result<Upgraded, StoreErr>
        requires live { is_live self.old ≡ true }
        ensures plan { ForSome (D.told (disk_of self.old))
            (λ s. IfOk result (λ up. up ≡ upgraded_in (read_name s) name.now)) }
        ensures ran { Ran D.told D.moment D.since [] (disk_of self.old) (disk_of self.new) }
        ensures parts { parts_of self.new ≡ parts_of self.old }
        ensures contents { PartsRead D.told (disk_of self.old) (disk_of self.new) }
        ensures stands { Stands D.told self.old → Stands D.told self.new }
        ensures images { KeepsImages D.told D.moment D.since AnyFile (disk_of self.old) (disk_of self.new) }
        ensures live { IsLiveAfter result (is_live self.new) }
        ensures cause { HasDiskCause (D.faults (disk_of self.old)) (D.faults (disk_of self.new)) (D.last (disk_of self.new)) result }
        ensures only { IfErr result IsFromDisk }
    {
        match plan_upgrade(alloc, &mut self.disk, name) {
            Ok(up) => Ok(up),
            Err(e) => {
                self.live = false;
                Err(fault(DiskCall::Read, e))
            }
        }
    }

    /// Writes a record of format 2 over one of format 1, which has the same fields else.
    fn put_newer(&mut self, alloc: Global, name: &str, newer: Record) -> Result<Upgraded, StoreErr>
        requires live { is_live self.old ≡ true }
        requires stands { Stands D.told self.old }
        requires named { IsDataName name.now }
        requires plan { (s : Names) → D.told (disk_of self.old) ≡ Some s → upgraded_in (read_name s) name.now ≡ Done newer }
        ensures stands { is_live self.new ≡ true → Stands D.told self.new }
        ensures live { IsLiveAfter result (is_live self.new) }
        ensures images { KeepsImages D.told D.moment D.since AnyFile (disk_of self.old) (disk_of self.new) }
        ensures cause { HasDiskCause (D.faults (disk_of self.old)) (D.faults (disk_of self.new)) (D.last (disk_of self.new)) result }
        ensures only { IfErr result IsFullOrFromDisk }
        ensures value { IfOk result (λ up. up ≡ Done newer) }
        ensures full { IsErrOf result StoreErr.Full → IsFull self.old }
        ensures room { IfOk result (λ up. IsFull self.old → is_done up ≡ false) }
        ensures done { IfOk result (HasRecordDone D.told (disk_of self.new) name.now) }
        ensures reads { OnOk result (ReadsSame D.told (disk_of self.old) (disk_of self.new) name.now) }
        ensures unchanged { OnErr result (is_live self.new ≡ true → D.told (disk_of self.new) ≡ D.told (disk_of self.old)) }
        ensures contents { OnOk result (PartsRead D.told (disk_of self.old) (disk_of self.new)) }
        ensures parts { (j : ℕ) → part_at (parts_of self.new) j ≡ part_at (parts_of self.old) j }
    {
        record_lines_read();
        let Some(number) = free_place(&mut self.parts)? else {
            return Err(StoreErr::Full);
        };
        let line = record_line(alloc, &newer)?;
        let from = record_part_name(alloc, number)?;
        let entry = record_name(alloc, name)?;
        if let Err(e) = upgrade_files(
            alloc,
            &mut self.disk,
            from.as_str(),
            entry.as_str(),
            line.as_bytes(),
        ) {
            self.live = false;
            return Err(e);
        }
        Ok(Upgraded::Done(newer))
    }

    /// Makes the record of whole data one of format 2, with the same checks, length and moment. The
    /// names are synced before the new record comes, and so the file shows one content then.
    pub fn upgrade(&mut self, alloc: Global, name: &str) -> Result<Upgraded, StoreErr>
        requires live { is_live self.old ≡ true }
        requires stands { Stands D.told self.old }
        requires named { IsDataName name.now }
        ensures stands { is_live self.new ≡ true → Stands D.told self.new }
        ensures live { IsLiveAfter result (is_live self.new) }
        ensures images { KeepsImages D.told D.moment D.since AnyFile (disk_of self.old) (disk_of self.new) }
        ensures cause { HasDiskCause (D.faults (disk_of self.old)) (D.faults (disk_of self.new)) (D.last (disk_of self.new)) result }
        ensures only { IfErr result IsFullOrFromDisk }
        ensures answer { ForSome (D.told (disk_of self.old))
            (λ s. IfOk result (λ up. up ≡ upgraded_in (read_name s) name.now)) }
        ensures full { IsErrOf result StoreErr.Full → IsFull self.old }
        ensures full_at_done { IsErrOf result StoreErr.Full
            → ForSome (D.told (disk_of self.old)) (λ s. is_done (upgraded_in (read_name s) name.now) ≡ true) }
        ensures room { IfOk result (λ up. IsFull self.old → is_done up ≡ false) }
        ensures done { IfOk result (HasRecordDone D.told (disk_of self.new) name.now) }
        ensures still { IfOk result (StaysUnlessDone D.told (disk_of self.old) (disk_of self.new)) }
        ensures reads { OnOk result (ReadsSame D.told (disk_of self.old) (disk_of self.new) name.now) }
        ensures unchanged { OnErr result (is_live self.new ≡ true → D.told (disk_of self.new) ≡ D.told (disk_of self.old)) }
        ensures contents { OnOk result (PartsRead D.told (disk_of self.old) (disk_of self.new)) }
        ensures parts { (j : ℕ) → part_at (parts_of self.new) j ≡ part_at (parts_of self.old) j }
    {
        match self.plan(alloc, name)? {
            Upgraded::Done(newer) => self.put_newer(alloc, name, newer),
            other => Ok(other),
        }
    }
}
