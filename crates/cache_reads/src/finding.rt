//! What the cache has under a name.
ghost use Rattle.std.specs.Prelude.{◌≡◌, ◌<◌, ◌≤◌, ℕ, List, [], IfOk, Some, length};
ghost use Rattle.std.specs.Option.{ForSome};
ghost use Rattle.cache_layout.specs.Readings.{gone_in, record_in};
ghost use Rattle.cache_reads.specs.Finds.{absence_found, data_found, found_in, measure_of, measured, same_measure};
ghost use Rattle.cache_reads.specs.Reads.{AnswersAbsence, AnswersBeside, AnswersData, AnswersEntry, AnswersFound};
ghost use Rattle.disk_base.specs.Calls.{NamesLast};
ghost use Rattle.disk_base.specs.Names.{read_name};
ghost use Rattle.disk_base.specs.Runs.{Ran};
ghost use Rattle.res_base.specs.Causes.{HasCause};

use crate::files::{is_there, measure_file, read_bytes};
use crate::names::{gone_name, record_name};
use crate::pieces::new_room;
use cache_layout::{Found, Measured, Record, RecordErr, read_gone, read_record};
use disk_base::{Disk, DiskCall, DiskErr};
use res_base::NoMemory;
use std::alloc::Global;

/// The record whose line this is, if it is one.
fn entry_in(alloc: Global, line: &[u8]) -> Result<Option<Record>, NoMemory>
    ensures { IfOk result (λ entry. entry ≡ record_in line.now) }
{
    match read_record(alloc, line) {
        Ok(entry) => Ok(Some(entry)),
        Err(RecordErr::BadLine(_)) => Ok(None),
        Err(RecordErr::NoMemory) => Err(NoMemory),
    }
}

/// The record under a name, if there is one and it reads.
pub(crate) fn read_entry<D: Disk>(
    alloc: Global,
    disk: &mut D,
    name: &str,
    room: &mut [u8],
) -> Result<Option<Record>, DiskErr>
    requires some { 0 < length room.old }
    requires few { length room.old ≤ 65536 }
    ensures ran { Ran D.told D.moment D.since [] disk.old disk.new }
    ensures room { length room.new ≡ length room.old }
    ensures entry { IfOk result (AnswersEntry D.told disk.old name.now) }
    ensures cause { HasCause DiskErr.Failed (D.faults disk.old) (D.faults disk.new) result }
    ensures last { NamesLast DiskCall.Read (D.last disk.old) (D.last disk.new) result }
{
    if !is_there(alloc, disk, name)? {
        return Ok(None);
    }
    let line = read_bytes(alloc, disk, name, room)?;
    let entry = entry_in(alloc, line.as_slice())?;
    Ok(entry)
}

/// Whether a record is that of data with this measure.
pub(crate) fn is_measure_of(entry: &Record, got: &Measured) -> bool
    ensures { result ≡ same_measure (measure_of entry.now) got.now }
{
    entry.sha1 == got.sha1 && entry.sha256 == got.sha256 && entry.length == got.length
}

/// What is found where data of this measure stands beside a record.
fn judged(entry: Record, got: Measured) -> Found
    ensures { (bytes : List ℕ) → got ≡ measured entry.sha256 bytes → result ≡ data_found (Some entry) bytes }
{
    if is_measure_of(&entry, &got) {
        return Found::Whole(entry);
    }
    let sha1 = entry.sha1;
    let sha256 = entry.sha256;
    let wanted = Measured {
        sha1,
        sha256,
        length: entry.length,
    };
    Found::Broken {
        wanted: Some(wanted),
        got,
    }
}

/// What is found where there is data beside a record, or beside none that reads.
fn find_beside<D: Disk>(
    alloc: Global,
    disk: &mut D,
    name: &str,
    entry: Option<Record>,
    room: &mut [u8],
) -> Result<Found, DiskErr>
    requires some { 0 < length room.old }
    requires few { length room.old ≤ 65536 }
    ensures ran { Ran D.told D.moment D.since [] disk.old disk.new }
    ensures found { IfOk result (AnswersBeside D.told disk.old name.now entry) }
    ensures cause { HasCause DiskErr.Failed (D.faults disk.old) (D.faults disk.new) result }
    ensures last { NamesLast DiskCall.Read (D.last disk.old) (D.last disk.new) result }
{
    match entry {
        None => {
            let got = measure_file(alloc, disk, name, room, false)?;
            Ok(Found::Broken { wanted: None, got })
        }
        Some(entry) => {
            let second = entry.sha256.is_some();
            let got = measure_file(alloc, disk, name, room, second)?;
            Ok(judged(entry, got))
        }
    }
}

/// What is found where there is data.
fn find_data<D: Disk>(
    alloc: Global,
    disk: &mut D,
    name: &str,
    entry_name: &str,
    room: &mut [u8],
) -> Result<Found, DiskErr>
    requires some { 0 < length room.old }
    requires few { length room.old ≤ 65536 }
    ensures ran { Ran D.told D.moment D.since [] disk.old disk.new }
    ensures found { IfOk result (AnswersData D.told disk.old name.now entry_name.now) }
    ensures cause { HasCause DiskErr.Failed (D.faults disk.old) (D.faults disk.new) result }
    ensures last { NamesLast DiskCall.Read (D.last disk.old) (D.last disk.new) result }
{
    let entry = read_entry(alloc, disk, entry_name, room)?;
    find_beside(alloc, disk, name, entry, room)
}

/// What is found where the absence record has these bytes.
fn absence_in(line: &[u8]) -> Found
    ensures { result ≡ absence_found (gone_in line.now) }
{
    match read_gone(line) {
        Ok(moment) => Found::Gone(moment),
        Err(_) => Found::Nothing,
    }
}

/// What is found where there is no data.
fn find_absence<D: Disk>(
    alloc: Global,
    disk: &mut D,
    gone: &str,
    room: &mut [u8],
) -> Result<Found, DiskErr>
    requires some { 0 < length room.old }
    requires few { length room.old ≤ 65536 }
    ensures ran { Ran D.told D.moment D.since [] disk.old disk.new }
    ensures found { IfOk result (AnswersAbsence D.told disk.old gone.now) }
    ensures cause { HasCause DiskErr.Failed (D.faults disk.old) (D.faults disk.new) result }
    ensures last { NamesLast DiskCall.Read (D.last disk.old) (D.last disk.new) result }
{
    if !is_there(alloc, disk, gone)? {
        return Ok(Found::Nothing);
    }
    let line = read_bytes(alloc, disk, gone, room)?;
    Ok(absence_in(line.as_slice()))
}

/// What is found under a name whose record and absence record have these names.
fn find_by<D: Disk>(
    alloc: Global,
    disk: &mut D,
    name: &str,
    entry_name: &str,
    gone: &str,
    room: &mut [u8],
) -> Result<Found, DiskErr>
    requires some { 0 < length room.old }
    requires few { length room.old ≤ 65536 }
    ensures ran { Ran D.told D.moment D.since [] disk.old disk.new }
    ensures found { IfOk result (AnswersFound D.told disk.old name.now entry_name.now gone.now) }
    ensures cause { HasCause DiskErr.Failed (D.faults disk.old) (D.faults disk.new) result }
    ensures last { NamesLast DiskCall.Read (D.last disk.old) (D.last disk.new) result }
{
    if !is_there(alloc, disk, name)? {
        return find_absence(alloc, disk, gone, room);
    }
    find_data(alloc, disk, name, entry_name, room)
}

/// What the cache has under a name. Data is read in pieces of 64 KiB, and only the digests that
/// its record has are computed.
pub fn find<D: Disk>(alloc: Global, disk: &mut D, name: &str) -> Result<Found, DiskErr>
    ensures ran { Ran D.told D.moment D.since [] disk.old disk.new }
    ensures found { ForSome (D.told disk.old) (λ s. IfOk result (λ found. found ≡ found_in (read_name s) name.now)) }
    ensures cause { HasCause DiskErr.Failed (D.faults disk.old) (D.faults disk.new) result }
    ensures last { NamesLast DiskCall.Read (D.last disk.old) (D.last disk.new) result }
{
    let entry_name = record_name(alloc, name)?;
    let gone = gone_name(alloc, name)?;
    let mut room = new_room(alloc)?;
    find_by(
        alloc,
        disk,
        name,
        entry_name.as_str(),
        gone.as_str(),
        room.as_mut_slice(),
    )
}
