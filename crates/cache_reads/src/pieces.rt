//! Files that are read in pieces.
ghost use Rattle.std.specs.Prelude.{◌≡◌, ◌<◌, ◌≤◌, ◌^◌, [], IfOk, OnOk, length};
ghost use Rattle.cache_reads.specs.Pieces.{Fills, FitsPlace, ReadsAll, TakesPiece};
ghost use Rattle.disk_base.specs.Calls.{NamesLast};
ghost use Rattle.disk_base.specs.Runs.{Ran};
ghost use Rattle.res_base.specs.Causes.{HasCause};

use crate::takers::Taker;
use disk_base::{Disk, DiskCall, DiskErr, Read};
use res_base::NoMemory;
use std::alloc::Global;

/// The length of a piece: 64 KiB.
const PIECE_BYTES: usize = 65536;

/// Room for a piece.
pub(crate) fn new_room(alloc: Global) -> Result<Vec<u8>, NoMemory>
    ensures some { IfOk result (λ room. 0 < length room.items) }
    ensures few { IfOk result (λ room. length room.items ≤ 65536) }
{
    let room = vec![in alloc; 0u8; PIECE_BYTES]?;
    Ok(room)
}

/// Reads a piece of a file from a place on. At a name without a file there is none.
fn fill_room<D: Disk>(
    alloc: Global,
    disk: &mut D,
    name: &str,
    at: u64,
    room: &mut [u8],
) -> Result<usize, DiskErr>
    ensures ran { Ran D.told D.moment D.since [] disk.old disk.new }
    ensures room { length room.new ≡ length room.old }
    ensures within { IfOk result (FitsPlace at (length room.old)) }
    ensures fills { IfOk result (Fills D.told disk.old name.now at room.new) }
    ensures cause { HasCause DiskErr.Failed (D.faults disk.old) (D.faults disk.new) result }
    ensures last { NamesLast DiskCall.Read (D.last disk.old) (D.last disk.new) result }
{
    match disk.read_at(alloc, name, at, room)? {
        Read::Bytes(count) => Ok(count),
        Read::Missing => Ok(0),
    }
}

/// Takes a piece of a file from a place on, and says how long it was.
fn take_piece<D: Disk, T: Taker>(
    alloc: Global,
    disk: &mut D,
    name: &str,
    at: u64,
    room: &mut [u8],
    taker: &mut T,
) -> Result<usize, DiskErr>
    ensures ran { Ran D.told D.moment D.since [] disk.old disk.new }
    ensures room { length room.new ≡ length room.old }
    ensures within { IfOk result (FitsPlace at (length room.old)) }
    ensures taken { IfOk result
        (TakesPiece D.told disk.old name.now at (length room.old) (T.took taker.old) (T.took taker.new)) }
    ensures second { T.second taker.new ≡ T.second taker.old }
    ensures cause { HasCause DiskErr.Failed (D.faults disk.old) (D.faults disk.new) result }
    ensures last { NamesLast DiskCall.Read (D.last disk.old) (D.last disk.new) result }
{
    let count = fill_room(alloc, disk, name, at, room)?;
    taker.take(&room[..count])?;
    Ok(count)
}

/// Reads a file in pieces. At a name without a file nothing is taken.
pub(crate) fn read_pieces<D: Disk, T: Taker>(
    alloc: Global,
    disk: &mut D,
    name: &str,
    room: &mut [u8],
    taker: &mut T,
) -> Result<(), DiskErr>
    requires some { 0 < length room.old }
    requires few { length room.old ≤ 65536 }
    ensures ran { Ran D.told D.moment D.since [] disk.old disk.new }
    ensures room { length room.new ≡ length room.old }
    ensures read { OnOk result (ReadsAll D.told disk.old name.now (T.took taker.old) (T.took taker.new)) }
    ensures second { T.second taker.new ≡ T.second taker.old }
    ensures cause { HasCause DiskErr.Failed (D.faults disk.old) (D.faults disk.new) result }
    ensures last { NamesLast DiskCall.Read (D.last disk.old) (D.last disk.new) result }
{
    let mut at = 0u64;
    'pieces: loop {
        let count = take_piece(alloc, disk, name, at, room, taker)?;
        if count == 0 {
            return Ok(());
        }
        at += count as u64;
    }
}
