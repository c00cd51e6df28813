//! The sequences of disk calls by which the cache changes.
ghost use Rattle.std.specs.Prelude.{◌≡◌, [], false, IfErr, IfOk, OnOk};
ghost use Rattle.cache_images.specs.Sequences.{clear_steps, gone_list, publish_steps, put_steps, seal_list, take_steps, upgrade_list};
ghost use Rattle.cache_store.specs.Causes.{HasDiskCause, IsFromDisk};
ghost use Rattle.cache_store.specs.Clears.{Clears, IsUnboundIn};
ghost use Rattle.cache_reads.specs.Reads.{AnswersThere};
ghost use Rattle.disk_base.specs.Names.{IsBoundIn};
ghost use Rattle.disk_base.specs.Runs.{Done, Ran};

use crate::StoreErr;
use crate::errors::fault;
use cache_reads::is_there;
use disk_base::{Disk, DiskCall};
use std::alloc::Global;

/// Writes a file: under the name of a part, and then, once it is firm, under its own.
fn put_file<D: Disk>(
    alloc: Global,
    disk: &mut D,
    from: &str,
    name: &str,
    bytes: &[u8],
) -> Result<(), StoreErr>
    ensures ran { Ran D.told D.moment D.since (put_steps from.now name.now bytes.now) disk.old disk.new }
    ensures done { OnOk result (Done D.told (put_steps from.now name.now bytes.now) disk.old disk.new) }
    ensures cause { HasDiskCause (D.faults disk.old) (D.faults disk.new) (D.last disk.new) result }
    ensures only { IfErr result IsFromDisk }
{
    if let Err(e) = disk.start(alloc, from) {
        return Err(fault(DiskCall::Start, e));
    }
    if let Err(e) = disk.append(alloc, from, bytes) {
        return Err(fault(DiskCall::Append, e));
    }
    if let Err(e) = disk.sync(alloc, from) {
        return Err(fault(DiskCall::Sync, e));
    }
    if let Err(e) = disk.rename(alloc, from, name) {
        return Err(fault(DiskCall::Rename, e));
    }
    if let Err(err) = disk.sync_names(alloc) {
        return Err(fault(DiskCall::SyncNames, err));
    }
    Ok(())
}

/// Whether a name is bound.
fn is_bound<D: Disk>(alloc: Global, disk: &mut D, name: &str) -> Result<bool, StoreErr>
    ensures ran { Ran D.told D.moment D.since [] disk.old disk.new }
    ensures bound { IfOk result (AnswersThere D.told disk.old name.now) }
    ensures cause { HasDiskCause (D.faults disk.old) (D.faults disk.new) (D.last disk.new) result }
    ensures only { IfErr result IsFromDisk }
{
    match is_there(alloc, disk, name) {
        Ok(there) => Ok(there),
        Err(e) => Err(fault(DiskCall::Read, e)),
    }
}

/// Whether there is a file, or its absence record.
fn is_any_bound<D: Disk>(
    alloc: Global,
    disk: &mut D,
    name: &str,
    gone: &str,
) -> Result<bool, StoreErr>
    ensures ran { Ran D.told D.moment D.since [] disk.old disk.new }
    ensures neither { IfOk result (λ there. there ≡ false
        → IsUnboundIn (D.told disk.old) name.now × IsUnboundIn (D.told disk.old) gone.now) }
    ensures cause { HasDiskCause (D.faults disk.old) (D.faults disk.new) (D.last disk.new) result }
    ensures only { IfErr result IsFromDisk }
{
    if is_bound(alloc, disk, name)? {
        return Ok(true);
    }
    is_bound(alloc, disk, gone)
}

/// Removes a file and its absence record for good.
fn remove_file<D: Disk>(alloc: Global, disk: &mut D, name: &str, gone: &str) -> Result<(), StoreErr>
    ensures ran { Ran D.told D.moment D.since (take_steps name.now gone.now) disk.old disk.new }
    ensures done { OnOk result (Done D.told (take_steps name.now gone.now) disk.old disk.new) }
    ensures cause { HasDiskCause (D.faults disk.old) (D.faults disk.new) (D.last disk.new) result }
    ensures only { IfErr result IsFromDisk }
{
    if let Err(e) = disk.remove(alloc, name) {
        return Err(fault(DiskCall::Remove, e));
    }
    if let Err(e) = disk.remove(alloc, gone) {
        return Err(fault(DiskCall::Remove, e));
    }
    if let Err(e) = disk.sync_names(alloc) {
        return Err(fault(DiskCall::SyncNames, e));
    }
    Ok(())
}

/// Removes a file and its absence record, where one of them is there. Where none is, no sync of the
/// names is paid.
fn clear_file<D: Disk>(
    alloc: Global,
    disk: &mut D,
    there: bool,
    name: &str,
    gone: &str,
) -> Result<(), StoreErr>
    ensures ran { Ran D.told D.moment D.since (clear_steps there name.now gone.now) disk.old disk.new }
    ensures done { OnOk result (Done D.told (clear_steps there name.now gone.now) disk.old disk.new) }
    ensures cause { HasDiskCause (D.faults disk.old) (D.faults disk.new) (D.last disk.new) result }
    ensures only { IfErr result IsFromDisk }
{
    if there {
        remove_file(alloc, disk, name, gone)
    } else {
        Ok(())
    }
}

/// Takes a file and its absence record away.
pub(crate) fn take_file<D: Disk>(
    alloc: Global,
    disk: &mut D,
    name: &str,
    gone: &str,
) -> Result<(), StoreErr>
    ensures clears { Clears D.told D.moment D.since (λ there. clear_steps there name.now gone.now)
        name.now gone.now disk.old disk.new result }
    ensures cause { HasDiskCause (D.faults disk.old) (D.faults disk.new) (D.last disk.new) result }
    ensures only { IfErr result IsFromDisk }
{
    let there = is_any_bound(alloc, disk, name, gone)?;
    clear_file(alloc, disk, there, name, gone)
}

/// Gives a part its name.
pub(crate) fn publish_part<D: Disk>(
    alloc: Global,
    disk: &mut D,
    part: &str,
    name: &str,
) -> Result<(), StoreErr>
    requires { IsBoundIn (D.told disk.old) part.now }
    ensures ran { Ran D.told D.moment D.since (publish_steps part.now name.now) disk.old disk.new }
    ensures done { OnOk result (Done D.told (publish_steps part.now name.now) disk.old disk.new) }
    ensures cause { HasDiskCause (D.faults disk.old) (D.faults disk.new) (D.last disk.new) result }
    ensures only { IfErr result IsFromDisk }
{
    if let Err(e) = disk.rename(alloc, part, name) {
        return Err(fault(DiskCall::Rename, e));
    }
    if let Err(e) = disk.sync_names(alloc) {
        return Err(fault(DiskCall::SyncNames, e));
    }
    Ok(())
}

/// Makes a part firm, takes a file and its absence record away, and writes the file's record.
pub(crate) fn seal_files<D: Disk>(
    alloc: Global,
    disk: &mut D,
    part: &str,
    name: &str,
    gone: &str,
    record_part: &str,
    entry: &str,
    line: &[u8],
) -> Result<(), StoreErr>
    requires { IsBoundIn (D.told disk.old) part.now }
    ensures clears { Clears D.told D.moment D.since
        (λ there. seal_list there part.now name.now gone.now record_part.now entry.now line.now)
        name.now gone.now disk.old disk.new result }
    ensures cause { HasDiskCause (D.faults disk.old) (D.faults disk.new) (D.last disk.new) result }
    ensures only { IfErr result IsFromDisk }
{
    let there = is_any_bound(alloc, disk, name, gone)?;
    if let Err(e) = disk.sync(alloc, part) {
        return Err(fault(DiskCall::Sync, e));
    }
    clear_file(alloc, disk, there, name, gone)?;
    put_file(alloc, disk, record_part, entry, line)
}

/// Takes a file away, and then writes its absence record.
pub(crate) fn gone_files<D: Disk>(
    alloc: Global,
    disk: &mut D,
    name: &str,
    gone: &str,
    part: &str,
    line: &[u8],
) -> Result<(), StoreErr>
    ensures clears { Clears D.told D.moment D.since
        (λ there. gone_list there name.now gone.now part.now line.now)
        name.now gone.now disk.old disk.new result }
    ensures cause { HasDiskCause (D.faults disk.old) (D.faults disk.new) (D.last disk.new) result }
    ensures only { IfErr result IsFromDisk }
{
    let there = is_any_bound(alloc, disk, name, gone)?;
    clear_file(alloc, disk, there, name, gone)?;
    put_file(alloc, disk, part, gone, line)
}

/// Syncs the names, and then writes another record over that of a file.
pub(crate) fn upgrade_files<D: Disk>(
    alloc: Global,
    disk: &mut D,
    part: &str,
    entry: &str,
    line: &[u8],
) -> Result<(), StoreErr>
    ensures ran { Ran D.told D.moment D.since (upgrade_list part.now entry.now line.now) disk.old disk.new }
    ensures done { OnOk result (Done D.told (upgrade_list part.now entry.now line.now) disk.old disk.new) }
    ensures cause { HasDiskCause (D.faults disk.old) (D.faults disk.new) (D.last disk.new) result }
    ensures only { IfErr result IsFromDisk }
{
    if let Err(e) = disk.sync_names(alloc) {
        return Err(fault(DiskCall::SyncNames, e));
    }
    put_file(alloc, disk, part, entry, line)
}
