//! Whole files: whether there is one, its bytes, and its measure.
ghost use Rattle.std.specs.Prelude.{◌≡◌, ◌<◌, ◌≤◌, [], IfOk, Some, length};
ghost use Rattle.std.specs.Option.{ForSome};
ghost use Rattle.cache_reads.specs.Reads.{AnswersFile, AnswersMeasure, AnswersThere};
ghost use Rattle.disk_base.specs.Calls.{NamesLast};
ghost use Rattle.disk_base.specs.Names.{IsBoundIn, read_name};
ghost use Rattle.disk_base.specs.Runs.{Ran};
ghost use Rattle.res_base.specs.Causes.{HasCause};

use crate::pieces::{new_room, read_pieces};
use crate::takers::{Measuring, Whole};
use cache_layout::Measured;
use disk_base::{Disk, DiskCall, DiskErr, Read};
use res_base::List;
use std::alloc::Global;

/// Whether a name is bound.
pub fn is_there<D: Disk>(alloc: Global, disk: &mut D, name: &str) -> Result<bool, DiskErr>
    ensures ran { Ran D.told D.moment D.since [] disk.old disk.new }
    ensures there { IfOk result (AnswersThere D.told disk.old name.now) }
    ensures cause { HasCause DiskErr.Failed (D.faults disk.old) (D.faults disk.new) result }
    ensures last { NamesLast DiskCall.Read (D.last disk.old) (D.last disk.new) result }
{
    match disk.read_at(alloc, name, 0, &mut [])? {
        Read::Bytes(_) => Ok(true),
        Read::Missing => Ok(false),
    }
}

/// All the bytes of a name, none where it isn't bound.
pub(crate) fn read_bytes<D: Disk>(
    alloc: Global,
    disk: &mut D,
    name: &str,
    room: &mut [u8],
) -> Result<List<u8>, DiskErr>
    requires some { 0 < length room.old }
    requires few { length room.old ≤ 65536 }
    ensures ran { Ran D.told D.moment D.since [] disk.old disk.new }
    ensures room { length room.new ≡ length room.old }
    ensures file { IfOk result (AnswersFile D.told disk.old name.now) }
    ensures cause { HasCause DiskErr.Failed (D.faults disk.old) (D.faults disk.new) result }
    ensures last { NamesLast DiskCall.Read (D.last disk.old) (D.last disk.new) result }
{
    let mut whole = Whole {
        bytes: Vec::new(alloc),
    };
    read_pieces(alloc, disk, name, room, &mut whole)?;
    let Whole { bytes } = whole;
    Ok(List::from_vec(bytes))
}

/// Measures the bytes of a name, with the SHA-256 where it is wanted.
pub(crate) fn measure_file<D: Disk>(
    alloc: Global,
    disk: &mut D,
    name: &str,
    room: &mut [u8],
    second: bool,
) -> Result<Measured, DiskErr>
    requires some { 0 < length room.old }
    requires few { length room.old ≤ 65536 }
    ensures ran { Ran D.told D.moment D.since [] disk.old disk.new }
    ensures room { length room.new ≡ length room.old }
    ensures measure { IfOk result (AnswersMeasure D.told disk.old name.now second) }
    ensures cause { HasCause DiskErr.Failed (D.faults disk.old) (D.faults disk.new) result }
    ensures last { NamesLast DiskCall.Read (D.last disk.old) (D.last disk.new) result }
{
    let mut measure = Measuring::new(second);
    read_pieces(alloc, disk, name, room, &mut measure)?;
    Ok(measure.finish())
}

/// All the bytes of a file, read in pieces of 64 KiB.
pub fn read_whole<D: Disk>(alloc: Global, disk: &mut D, name: &str) -> Result<List<u8>, DiskErr>
    requires bound { IsBoundIn (D.told disk.old) name.now }
    ensures ran { Ran D.told D.moment D.since [] disk.old disk.new }
    ensures read { ForSome (D.told disk.old) (λ s. IfOk result (λ bytes. read_name s name.now ≡ Some bytes)) }
    ensures cause { HasCause DiskErr.Failed (D.faults disk.old) (D.faults disk.new) result }
    ensures last { NamesLast DiskCall.Read (D.last disk.old) (D.last disk.new) result }
{
    let mut room = new_room(alloc)?;
    read_bytes(alloc, disk, name, room.as_mut_slice())
}
