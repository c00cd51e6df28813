//! What the cache has under a name.
ghost use Rattle.std.specs.Prelude.{◌≡◌, ℕ, List, [], false, true, IfErr, IfOk, Some};
ghost use Rattle.std.specs.Option.{ForSome};
ghost use Rattle.cache_images.specs.Places.{IsDataName};
ghost use Rattle.cache_images.specs.Sound.{IsSound};
ghost use Rattle.cache_reads.specs.Finds.{found_in, is_broken};
ghost use Rattle.cache_store.specs.Bound.{has_data};
ghost use Rattle.cache_store.specs.Causes.{HasDiskCause, IsFromDisk, IsLiveAfter};
ghost use Rattle.cache_store.specs.Contents.{PartsRead};
ghost use Rattle.cache_store.specs.Kept.{AnyFile, KeepsImages};
ghost use Rattle.cache_store.specs.Stands.{Stands, disk_of, is_live, parts_of};
ghost use Rattle.disk_base.specs.Names.{IsBoundIn, Names, read_name};
ghost use Rattle.disk_base.specs.Runs.{Ran};

use crate::errors::fault;
use crate::{Store, StoreErr};
use cache_layout::Found;
use disk_base::{Disk, DiskCall};
use res_base::List;
use std::alloc::Global;

impl<D: Disk> Store<D> {
    /// What the cache has under a name. Data is read in pieces of 64 KiB, and only the digests that
    /// its record has are computed.
    pub fn find(&mut self, alloc: Global, name: &str) -> Result<Found, StoreErr>
        requires live { is_live self.old ≡ true }
        requires named { IsDataName name.now }
        ensures found { ForSome (D.told (disk_of self.old))
            (λ s. IfOk result (λ found. found ≡ found_in (read_name s) name.now)) }
        ensures bound { IfOk result (λ found. has_data found ≡ true → IsBoundIn (D.told (disk_of self.new)) name.now) }
        ensures sound { (s : Names) → D.told (disk_of self.old) ≡ Some s → IsSound (read_name s)
            → IfOk result (λ found. is_broken found ≡ false) }
        ensures ran { Ran D.told D.moment D.since [] (disk_of self.old) (disk_of self.new) }
        ensures parts { parts_of self.new ≡ parts_of self.old }
        ensures contents { PartsRead D.told (disk_of self.old) (disk_of self.new) }
        ensures stands { Stands D.told self.old → Stands D.told self.new }
        ensures images { KeepsImages D.told D.moment D.since AnyFile (disk_of self.old) (disk_of self.new) }
        ensures live { IsLiveAfter result (is_live self.new) }
        ensures cause { HasDiskCause (D.faults (disk_of self.old)) (D.faults (disk_of self.new)) (D.last (disk_of self.new)) result }
        ensures only { IfErr result IsFromDisk }
    {
        match cache_reads::find(alloc, &mut self.disk, name) {
            Ok(found) => Ok(found),
            Err(e) => {
                self.live = false;
                Err(fault(DiskCall::Read, e))
            }
        }
    }

    /// All the bytes of a file, read in pieces of 64 KiB.
    pub fn read_whole(&mut self, alloc: Global, name: &str) -> Result<List<u8>, StoreErr>
        requires live { is_live self.old ≡ true }
        requires named { IsDataName name.now }
        requires bound { IsBoundIn (D.told (disk_of self.old)) name.now }
        ensures read { ForSome (D.told (disk_of self.old))
            (λ s. IfOk result (λ bytes. read_name s name.now ≡ Some bytes)) }
        ensures ran { Ran D.told D.moment D.since [] (disk_of self.old) (disk_of self.new) }
        ensures parts { parts_of self.new ≡ parts_of self.old }
        ensures contents { PartsRead D.told (disk_of self.old) (disk_of self.new) }
        ensures stands { Stands D.told self.old → Stands D.told self.new }
        ensures images { KeepsImages D.told D.moment D.since AnyFile (disk_of self.old) (disk_of self.new) }
        ensures live { IsLiveAfter result (is_live self.new) }
        ensures cause { HasDiskCause (D.faults (disk_of self.old)) (D.faults (disk_of self.new)) (D.last (disk_of self.new)) result }
        ensures only { IfErr result IsFromDisk }
    {
        match cache_reads::read_whole(alloc, &mut self.disk, name) {
            Ok(bytes) => Ok(bytes),
            Err(e) => {
                self.live = false;
                Err(fault(DiskCall::Read, e))
            }
        }
    }
}
