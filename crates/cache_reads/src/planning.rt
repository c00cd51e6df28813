//! What an upgrade of a record comes to.
ghost use Rattle.std.specs.Prelude.{◌≡◌, ◌<◌, ◌≤◌, ℕ, List, [], IfOk, Some, length, true};
ghost use Rattle.std.specs.Option.{ForSome};
ghost use Rattle.cache_reads.specs.Finds.{data_found, measured, measured_by};
ghost use Rattle.cache_reads.specs.Reads.{AnswersPlan, AnswersUpgraded};
ghost use Rattle.cache_reads.specs.Upgrades.{upgraded, upgraded_in};
ghost use Rattle.disk_base.specs.Calls.{NamesLast};
ghost use Rattle.disk_base.specs.Names.{read_name};
ghost use Rattle.disk_base.specs.Runs.{Ran};
ghost use Rattle.res_base.specs.Causes.{HasCause};

use crate::files::{is_there, measure_file};
use crate::finding::{is_measure_of, read_entry};
use crate::names::record_name;
use crate::pieces::new_room;
use cache_layout::{Measured, Record};
use disk_base::{Disk, DiskCall, DiskErr};
use std::alloc::Global;

/// What an upgrade of a record comes to.
#[derive(Drop)]
pub enum Upgraded {
    /// The data is whole, and its record has format 2 already.
    Already(Record),
    /// The data is whole, and its record has format 1; this is the one of format 2.
    Done(Record),
    /// There is no whole data.
    Not,
}

/// The digests of data that a record speaks of.
fn seen_by(entry: &Record, got: &Measured) -> Measured
    ensures { (bytes : List ℕ) → got.now ≡ measured_by true bytes → result ≡ measured entry.now.sha256 bytes }
{
    if entry.sha256.is_some() {
        return *got;
    }
    let sha1 = got.sha1;
    Measured {
        sha1,
        sha256: None,
        length: got.length,
    }
}

/// What an upgrade of this record comes to, where the data has these digests.
fn upgrade_of(entry: Record, got: &Measured) -> Upgraded
    ensures { (bytes : List ℕ) → got.now ≡ measured_by true bytes
        → result ≡ upgraded (data_found (Some entry) bytes) bytes }
{
    let seen = seen_by(&entry, got);
    if !is_measure_of(&entry, &seen) {
        return Upgraded::Not;
    }
    if entry.sha256.is_some() {
        return Upgraded::Already(entry);
    }
    let sha256 = got.sha256;
    Upgraded::Done(Record { sha256, ..entry })
}

/// What an upgrade of the record of data comes to.
fn plan_data<D: Disk>(
    alloc: Global,
    disk: &mut D,
    name: &str,
    entry_name: &str,
    room: &mut [u8],
) -> Result<Upgraded, DiskErr>
    requires some { 0 < length room.old }
    requires few { length room.old ≤ 65536 }
    ensures ran { Ran D.told D.moment D.since [] disk.old disk.new }
    ensures plan { IfOk result (AnswersPlan D.told disk.old name.now entry_name.now) }
    ensures cause { HasCause DiskErr.Failed (D.faults disk.old) (D.faults disk.new) result }
    ensures last { NamesLast DiskCall.Read (D.last disk.old) (D.last disk.new) result }
{
    let Some(entry) = read_entry(alloc, disk, entry_name, room)? else {
        return Ok(Upgraded::Not);
    };
    let got = measure_file(alloc, disk, name, room, true)?;
    Ok(upgrade_of(entry, &got))
}

/// What an upgrade comes to of the record of this name beside a file.
fn plan_by<D: Disk>(
    alloc: Global,
    disk: &mut D,
    name: &str,
    entry_name: &str,
    room: &mut [u8],
) -> Result<Upgraded, DiskErr>
    requires some { 0 < length room.old }
    requires few { length room.old ≤ 65536 }
    ensures ran { Ran D.told D.moment D.since [] disk.old disk.new }
    ensures plan { IfOk result (AnswersUpgraded D.told disk.old name.now entry_name.now) }
    ensures cause { HasCause DiskErr.Failed (D.faults disk.old) (D.faults disk.new) result }
    ensures last { NamesLast DiskCall.Read (D.last disk.old) (D.last disk.new) result }
{
    if !is_there(alloc, disk, name)? {
        return Ok(Upgraded::Not);
    }
    plan_data(alloc, disk, name, entry_name, room)
}

/// What an upgrade of the record of a file comes to. Nothing is written.
pub fn plan_upgrade<D: Disk>(alloc: Global, disk: &mut D, name: &str) -> Result<Upgraded, DiskErr>
    ensures ran { Ran D.told D.moment D.since [] disk.old disk.new }
    ensures plan { ForSome (D.told disk.old) (λ s. IfOk result (λ up. up ≡ upgraded_in (read_name s) name.now)) }
    ensures cause { HasCause DiskErr.Failed (D.faults disk.old) (D.faults disk.new) result }
    ensures last { NamesLast DiskCall.Read (D.last disk.old) (D.last disk.new) result }
{
    let entry_name = record_name(alloc, name)?;
    let mut room = new_room(alloc)?;
    plan_by(alloc, disk, name, entry_name.as_str(), room.as_mut_slice())
}
