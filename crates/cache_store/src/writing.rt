//! How files come into the cache: as parts, which are sealed for a name and then published.
ghost use Rattle.std.specs.Prelude.{◌≡◌, ◌<◌, ◌++◌, ◌↔◌, ℕ, List, [], true, IfErr, IfOk, IfSome, IsErrOf, IsSome, None, OnErr, OnOk, Some};
ghost use Rattle.cache_images.specs.Leaves.{IsFirmly};
ghost use Rattle.cache_images.specs.Places.{IsDataName, part_name, record_name};
ghost use Rattle.cache_images.specs.Sound.{IsFaithful, IsSound, RecordFits};
ghost use Rattle.cache_store.specs.Causes.{HasDiskCause, IsFromDisk, IsFullOrFromDisk, IsLiveAfter, IsPartOrFromDisk, IsSealRefusal};
ghost use Rattle.cache_store.specs.Contents.{HasContent, IsKept, IsRecorded, OthersRead, PartsRead, PublishesBytes};
ghost use Rattle.cache_store.specs.Kept.{AnyFile, IsAbsentIn, KeepsFiles, KeepsImages, OtherThan};
ghost use Rattle.cache_store.specs.Parts.{AreUnsealed, HoldsBytes, OthersStay, OthersUnsealed, part_at};
ghost use Rattle.cache_store.specs.Stands.{IsFull, IsNotSealedAs, IsPublished, IsSealedFor, IsTaken, IsTold, IsUnchanged, PublishesFor, Stands, disk_of, is_live, parts_of};
ghost use Rattle.cache_store.specs.Wanted.{TellsDigest};
ghost use Rattle.cache_store.specs.declared.errors.PartNo.{PartNo};
ghost use Rattle.disk_base.specs.Names.{Names, read_name};
ghost use Rattle.disk_base.specs.Runs.{Keeps};
ghost use Rattle.res_base.specs.declared.reading.Check.{Check};
ghost use Rattle.res_base.specs.declared.world.WorldRow.{WorldRow};

use crate::errors::fault;
use crate::files::{gone_files, publish_part, seal_files, take_file};
use crate::names::{SealNames, part_name, record_part_name, seal_names};
use crate::part::{Part, free_place, open_part, seal_at, take_piece, unseal_all};
use crate::wanted::sealed_line;
use crate::{PartNo, Store, StoreErr};
use cache_layout::{gone_line, gone_lines_read};
use cache_reads::gone_name;
use digest_check::Sums;
use disk_base::{Disk, DiskCall};
use res_base::{Check, Digest, List};
use std::alloc::Global;

impl<D: Disk> Store<D> {
    /// Opens a part.
    pub fn begin(&mut self, alloc: Global) -> Result<PartNo, StoreErr>
        requires live { is_live self.old ≡ true }
        requires stands { Stands D.told self.old }
        ensures stands { is_live self.new ≡ true → Stands D.told self.new }
        ensures live { IsLiveAfter result (is_live self.new) }
        ensures images { KeepsImages D.told D.moment D.since AnyFile (disk_of self.old) (disk_of self.new) }
        ensures cause { HasDiskCause (D.faults (disk_of self.old)) (D.faults (disk_of self.new)) (D.last (disk_of self.new)) result }
        ensures only { IfErr result IsFullOrFromDisk }
        ensures new { IfOk result (λ part_no. (part_at (parts_of self.old) part_no.number ≡ None) × (part_no.number < 4096)) }
        ensures empty { IfOk result (λ part_no. HoldsBytes (parts_of self.new) part_no.number []) }
        ensures open { IfOk result (λ part_no. IfSome (part_at (parts_of self.new) part_no.number) (λ part. part.sealed ≡ None)) }
        ensures others { IfOk result (λ part_no. OthersStay part_no.number (parts_of self.old) (parts_of self.new)) }
        ensures content { IfOk result (λ part_no. HasContent D.told (disk_of self.new) part_no.number []) }
        ensures contents { IfOk result (λ part_no. OthersRead D.told part_no.number (disk_of self.old) (disk_of self.new)) }
        ensures full { IsErrOf result StoreErr.Full ↔ IsFull self.old }
        ensures unchanged { OnErr result (is_live self.new ≡ true → IsUnchanged self.old self.new) }
    {
        let Some(number) = free_place(&mut self.parts)? else {
            return Err(StoreErr::Full);
        };
        let name = part_name(alloc, number)?;
        if let Err(e) = self.disk.start(alloc, name.as_str()) {
            self.live = false;
            return Err(fault(DiskCall::Start, e));
        }
        self.parts[number as usize] = Some(Part {
            sums: Sums::new(),
            length: 0,
            sealed: None,
        });
        Ok(PartNo { number })
    }

    /// Puts bytes at the end of a part that isn't sealed.
    pub fn append(&mut self, alloc: Global, part_no: PartNo, piece: &[u8]) -> Result<(), StoreErr>
        requires live { is_live self.old ≡ true }
        requires stands { Stands D.told self.old }
        requires open { IfSome (part_at (parts_of self.old) part_no.number) (λ part. part.sealed ≡ None) }
        ensures stands { is_live self.new ≡ true → Stands D.told self.new }
        ensures live { IsLiveAfter result (is_live self.new) }
        ensures images { KeepsImages D.told D.moment D.since AnyFile (disk_of self.old) (disk_of self.new) }
        ensures cause { HasDiskCause (D.faults (disk_of self.old)) (D.faults (disk_of self.new)) (D.last (disk_of self.new)) result }
        ensures only { IfErr result IsPartOrFromDisk }
        ensures unknown { (other : PartNo) → IsErrOf result (StoreErr.PartUnknown other)
            → (other ≡ part_no) × (part_at (parts_of self.old) part_no.number ≡ None) }
        ensures only_open { part_at (parts_of self.old) part_no.number ≡ None → IsErrOf result (StoreErr.PartUnknown part_no) }
        ensures unchanged { OnErr result (is_live self.new ≡ true → IsUnchanged self.old self.new) }
        ensures still_open { OnOk result (IfSome (part_at (parts_of self.new) part_no.number) (λ part. part.sealed ≡ None)) }
        ensures others { OnOk result (OthersStay part_no.number (parts_of self.old) (parts_of self.new)) }
        ensures bytes { OnOk result ((all : List ℕ) → HoldsBytes (parts_of self.old) part_no.number all
            → HoldsBytes (parts_of self.new) part_no.number (all ++ piece.now)) }
        ensures content { OnOk result ((all : List ℕ) → HasContent D.told (disk_of self.old) part_no.number all
            → HasContent D.told (disk_of self.new) part_no.number (all ++ piece.now)) }
        ensures contents { OnOk result (OthersRead D.told part_no.number (disk_of self.old) (disk_of self.new)) }
    {
        let number = part_no.number;
        let Some(part) = open_part(self.parts.as_slice(), number) else {
            return Err(StoreErr::PartUnknown(part_no));
        };
        let Some(longer) = part.length.checked_add(piece.len() as u64) else {
            return Err(StoreErr::NoMemory);
        };
        let name = part_name(alloc, number)?;
        if let Err(e) = self.disk.append(alloc, name.as_str(), piece) {
            self.live = false;
            return Err(fault(DiskCall::Append, e));
        }
        take_piece(&mut self.parts, number, piece, longer);
        Ok(())
    }

    /// Seals an open part for a name, beside the line of a record that fits its content.
    fn seal_part(
        &mut self,
        alloc: Global,
        number: u32,
        name: &str,
        line: &str,
    ) -> Result<(), StoreErr>
        requires live { is_live self.old ≡ true }
        requires stands { Stands D.told self.old }
        requires named { IsDataName name.now }
        requires open { IsSome (part_at (parts_of self.old) number) }
        requires fits { (all : List ℕ) → HoldsBytes (parts_of self.old) number all → RecordFits line.now all }
        ensures stands { is_live self.new ≡ true → Stands D.told self.new }
        ensures live { IsLiveAfter result (is_live self.new) }
        ensures images { KeepsImages D.told D.moment D.since (OtherThan name.now) (disk_of self.old) (disk_of self.new) }
        ensures cause { HasDiskCause (D.faults (disk_of self.old)) (D.faults (disk_of self.new)) (D.last (disk_of self.new)) result }
        ensures only { IfErr result IsFromDisk }
        ensures unchanged { OnErr result (is_live self.new ≡ true → IsUnchanged self.old self.new) }
        ensures sealed { OnOk result (IsSealedFor self.new number name.now) }
        ensures bytes { OnOk result ((all : List ℕ) → HoldsBytes (parts_of self.old) number all
            → HoldsBytes (parts_of self.new) number all) }
        ensures others { OnOk result (OthersUnsealed number name.now (parts_of self.old) (parts_of self.new)) }
        ensures contents { OnOk result (PartsRead D.told (disk_of self.old) (disk_of self.new)) }
        ensures recorded { OnOk result ((s : Names) → D.told (disk_of self.new) ≡ Some s
            → IsFirmly (s (record_name name.now)) line.now) }
    {
        let SealNames {
            own,
            part,
            gone,
            record_part,
            entry,
        } = seal_names(alloc, number, name)?;
        if let Err(e) = seal_files(
            alloc,
            &mut self.disk,
            part.as_str(),
            name,
            gone.as_str(),
            record_part.as_str(),
            entry.as_str(),
            line.as_bytes(),
        ) {
            self.live = false;
            return Err(e);
        }
        unseal_all(&mut self.parts, name);
        seal_at(&mut self.parts, number, own);
        Ok(())
    }

    /// Seals a part for a name: its content is firm, old data and absence are taken away for good,
    /// and its record stands. No other part is sealed for that name any more. Where a digest is
    /// wanted and the content has another one of that kind, nothing is done.
    pub fn seal_record(
        &mut self,
        alloc: Global,
        part_no: PartNo,
        name: &str,
        checks: &List<Check>,
        wanted: Option<Digest>,
        moment: u64,
    ) -> Result<(), StoreErr>
        requires live { is_live self.old ≡ true }
        requires stands { Stands D.told self.old }
        requires named { IsDataName name.now }
        ensures stands { is_live self.new ≡ true → Stands D.told self.new }
        ensures live { IsLiveAfter result (is_live self.new) }
        ensures images { KeepsImages D.told D.moment D.since (OtherThan name.now) (disk_of self.old) (disk_of self.new) }
        ensures cause { HasDiskCause (D.faults (disk_of self.old)) (D.faults (disk_of self.new)) (D.last (disk_of self.new)) result }
        ensures only { IfErr result IsSealRefusal }
        ensures unknown { (other : PartNo) → IsErrOf result (StoreErr.PartUnknown other)
            → (other ≡ part_no) × (part_at (parts_of self.old) part_no.number ≡ None) }
        ensures only_open { part_at (parts_of self.old) part_no.number ≡ None → IsErrOf result (StoreErr.PartUnknown part_no) }
        ensures digest { (all : List ℕ) → HoldsBytes (parts_of self.old) part_no.number all → TellsDigest wanted all result }
        ensures unchanged { OnErr result (is_live self.new ≡ true → IsUnchanged self.old self.new) }
        ensures sealed { OnOk result (IsSealedFor self.new part_no.number name.now) }
        ensures bytes { OnOk result ((all : List ℕ) → HoldsBytes (parts_of self.old) part_no.number all
            → HoldsBytes (parts_of self.new) part_no.number all) }
        ensures others { OnOk result (OthersUnsealed part_no.number name.now (parts_of self.old) (parts_of self.new)) }
        ensures contents { OnOk result (PartsRead D.told (disk_of self.old) (disk_of self.new)) }
        ensures recorded { OnOk result (IsRecorded D.told (disk_of self.new) name.now checks.now moment) }
    {
        let number = part_no.number;
        let Some(part) = open_part(self.parts.as_slice(), number) else {
            return Err(StoreErr::PartUnknown(part_no));
        };
        let line = sealed_line(alloc, part, checks, wanted, moment)?;
        self.seal_part(alloc, number, name, line.as_str())
    }

    /// Gives a sealed part its name. It is no longer open then.
    pub fn publish(&mut self, alloc: Global, part_no: PartNo) -> Result<(), StoreErr>
        requires live { is_live self.old ≡ true }
        requires stands { Stands D.told self.old }
        requires sealed { IfSome (part_at (parts_of self.old) part_no.number) (λ part. IsSome part.sealed) }
        ensures stands { is_live self.new ≡ true → Stands D.told self.new }
        ensures live { IsLiveAfter result (is_live self.new) }
        ensures sound { Keeps D.told D.moment D.since IsSound (disk_of self.old) (disk_of self.new) }
        ensures faithful { (w : List WorldRow) → PublishesFor D.told w self.old part_no.number
            → Keeps D.told D.moment D.since (IsFaithful w) (disk_of self.old) (disk_of self.new) }
        ensures worlds { (w : List WorldRow) → PublishesBytes D.told w self.old part_no.number
            → Keeps D.told D.moment D.since (IsFaithful w) (disk_of self.old) (disk_of self.new) }
        ensures stay { KeepsFiles D.told D.moment D.since (IsNotSealedAs self.old part_no.number) (disk_of self.old) (disk_of self.new) }
        ensures cause { HasDiskCause (D.faults (disk_of self.old)) (D.faults (disk_of self.new)) (D.last (disk_of self.new)) result }
        ensures only { IfErr result IsPartOrFromDisk }
        ensures unknown { (other : PartNo) → IsErrOf result (StoreErr.PartUnknown other)
            → (other ≡ part_no) × (part_at (parts_of self.old) part_no.number ≡ None) }
        ensures only_open { part_at (parts_of self.old) part_no.number ≡ None → IsErrOf result (StoreErr.PartUnknown part_no) }
        ensures unchanged { OnErr result (is_live self.new ≡ true → IsUnchanged self.old self.new) }
        ensures closed { OnOk result (part_at (parts_of self.new) part_no.number ≡ None) }
        ensures published { OnOk result (IsPublished D.told self.old self.new part_no.number) }
        ensures others { OnOk result (OthersStay part_no.number (parts_of self.old) (parts_of self.new)) }
        ensures kept { OnOk result ((name all : List ℕ) → IsSealedFor self.old part_no.number name
            → HasContent D.told (disk_of self.old) part_no.number all → IsKept D.told (disk_of self.new) name all) }
        ensures recorded { OnOk result ((name : List ℕ) (checks : List Check) (moment : ℕ)
            → IsSealedFor self.old part_no.number name → IsRecorded D.told (disk_of self.old) name checks moment
            → IsRecorded D.told (disk_of self.new) name checks moment) }
        ensures contents { OnOk result (OthersRead D.told part_no.number (disk_of self.old) (disk_of self.new)) }
    {
        let number = part_no.number;
        let Some(part) = open_part(self.parts.as_slice(), number) else {
            return Err(StoreErr::PartUnknown(part_no));
        };
        let Some(name) = &part.sealed else {
            unreachable!()
        };
        let from = part_name(alloc, number)?;
        if let Err(e) = publish_part(alloc, &mut self.disk, from.as_str(), name.as_str()) {
            self.live = false;
            return Err(e);
        }
        self.parts[number as usize] = None;
        Ok(())
    }

    /// Drops a part. A record that stands for it may stay, without a file.
    pub fn drop_part(&mut self, alloc: Global, part_no: PartNo) -> Result<(), StoreErr>
        requires live { is_live self.old ≡ true }
        requires stands { Stands D.told self.old }
        ensures stands { is_live self.new ≡ true → Stands D.told self.new }
        ensures live { IsLiveAfter result (is_live self.new) }
        ensures images { KeepsImages D.told D.moment D.since AnyFile (disk_of self.old) (disk_of self.new) }
        ensures cause { HasDiskCause (D.faults (disk_of self.old)) (D.faults (disk_of self.new)) (D.last (disk_of self.new)) result }
        ensures only { IfErr result IsPartOrFromDisk }
        ensures unknown { (other : PartNo) → IsErrOf result (StoreErr.PartUnknown other)
            → (other ≡ part_no) × (part_at (parts_of self.old) part_no.number ≡ None) }
        ensures only_open { part_at (parts_of self.old) part_no.number ≡ None → IsErrOf result (StoreErr.PartUnknown part_no) }
        ensures unchanged { OnErr result (is_live self.new ≡ true → IsUnchanged self.old self.new) }
        ensures closed { OnOk result (part_at (parts_of self.new) part_no.number ≡ None) }
        ensures others { OnOk result (OthersStay part_no.number (parts_of self.old) (parts_of self.new)) }
        ensures removed { OnOk result ((s : Names) → D.told (disk_of self.new) ≡ Some s
            → read_name s (part_name part_no.number) ≡ None) }
        ensures contents { OnOk result (OthersRead D.told part_no.number (disk_of self.old) (disk_of self.new)) }
    {
        let number = part_no.number;
        let Some(_) = open_part(self.parts.as_slice(), number) else {
            return Err(StoreErr::PartUnknown(part_no));
        };
        let from = part_name(alloc, number)?;
        if let Err(e) = self.disk.remove(alloc, from.as_str()) {
            self.live = false;
            return Err(fault(DiskCall::Remove, e));
        }
        self.parts[part_no.number as usize] = None;
        Ok(())
    }

    /// Tells that at a moment there was no file of this name. Data is taken away first.
    pub fn put_gone(&mut self, alloc: Global, name: &str, moment: u64) -> Result<(), StoreErr>
        requires live { is_live self.old ≡ true }
        requires stands { Stands D.told self.old }
        requires named { IsDataName name.now }
        ensures stands { is_live self.new ≡ true → Stands D.told self.new }
        ensures live { IsLiveAfter result (is_live self.new) }
        ensures sound { Keeps D.told D.moment D.since IsSound (disk_of self.old) (disk_of self.new) }
        ensures faithful { (w : List WorldRow) → IsAbsentIn w name.now
            → Keeps D.told D.moment D.since (IsFaithful w) (disk_of self.old) (disk_of self.new) }
        ensures stay { KeepsFiles D.told D.moment D.since (OtherThan name.now) (disk_of self.old) (disk_of self.new) }
        ensures cause { HasDiskCause (D.faults (disk_of self.old)) (D.faults (disk_of self.new)) (D.last (disk_of self.new)) result }
        ensures only { IfErr result IsFromDisk }
        ensures unchanged { OnErr result (is_live self.new ≡ true → IsUnchanged self.old self.new) }
        ensures told { OnOk result (IsTold D.told self.new name.now moment) }
        ensures parts { OnOk result (AreUnsealed name.now (parts_of self.old) (parts_of self.new)) }
        ensures contents { OnOk result (PartsRead D.told (disk_of self.old) (disk_of self.new)) }
    {
        gone_lines_read();
        let line = gone_line(alloc, moment)?;
        let gone = gone_name(alloc, name)?;
        let from = record_part_name(alloc, 0)?;
        if let Err(e) = gone_files(
            alloc,
            &mut self.disk,
            name,
            gone.as_str(),
            from.as_str(),
            line.as_bytes(),
        ) {
            self.live = false;
            return Err(e);
        }
        unseal_all(&mut self.parts, name);
        Ok(())
    }

    /// Takes a file and its absence away. A record may stay, without a file.
    pub fn take_away(&mut self, alloc: Global, name: &str) -> Result<(), StoreErr>
        requires live { is_live self.old ≡ true }
        requires stands { Stands D.told self.old }
        requires named { IsDataName name.now }
        ensures stands { is_live self.new ≡ true → Stands D.told self.new }
        ensures live { IsLiveAfter result (is_live self.new) }
        ensures images { KeepsImages D.told D.moment D.since (OtherThan name.now) (disk_of self.old) (disk_of self.new) }
        ensures cause { HasDiskCause (D.faults (disk_of self.old)) (D.faults (disk_of self.new)) (D.last (disk_of self.new)) result }
        ensures only { IfErr result IsFromDisk }
        ensures unchanged { OnErr result (is_live self.new ≡ true → IsUnchanged self.old self.new) }
        ensures taken { OnOk result (IsTaken D.told self.new name.now) }
        ensures parts { OnOk result (AreUnsealed name.now (parts_of self.old) (parts_of self.new)) }
        ensures contents { OnOk result (PartsRead D.told (disk_of self.old) (disk_of self.new)) }
    {
        let gone = gone_name(alloc, name)?;
        if let Err(e) = take_file(alloc, &mut self.disk, name, gone.as_str()) {
            self.live = false;
            return Err(e);
        }
        unseal_all(&mut self.parts, name);
        Ok(())
    }
}
