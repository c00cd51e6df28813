//! What is done with any disk.
ghost use Rattle.std.specs.Prelude.{OnOk};
ghost use Rattle.disk_base.specs.Names.{IsBoundIn};

use disk_base::{Disk, DiskErr, Read};
use std::alloc::Global;

/// The name under which a file is written, before it gets its own.
pub(crate) const PART: &str = "parts/0.part";

/// The name that it gets.
pub(crate) const NAME: &str = "http/r1/x";

/// Binds a name to these bytes, which are appended in two pieces. None of them is firm.
pub(crate) fn write<D: Disk>(
    alloc: Global,
    disk: &mut D,
    name: &str,
    first: &[u8],
    second: &[u8],
) -> Result<(), DiskErr>
    ensures { OnOk result (IsBoundIn (D.told disk.new) name.now) }
{
    disk.start(alloc, name)?;
    disk.append(alloc, name, first)?;
    disk.append(alloc, name, second)
}

/// Writes `abcde` as a part, and gives it its own name once it is firm: six calls.
pub(crate) fn put_file<D: Disk>(alloc: Global, disk: &mut D) -> Result<(), DiskErr> {
    write(alloc, disk, PART, b"abc", b"de")?;
    disk.sync(alloc, PART)?;
    disk.rename(alloc, PART, NAME)?;
    disk.sync_names(alloc)
}

/// What a name has from a place on: how many bytes of it a room of four gets, and the room; nothing
/// of no such name.
pub(crate) fn read_four<D: Disk>(
    alloc: Global,
    disk: &mut D,
    name: &str,
    at: u64,
) -> Result<Option<(usize, [u8; 4])>, DiskErr> {
    let mut room = *b"----";
    match disk.read_at(alloc, name, at, &mut room)? {
        Read::Missing => Ok(None),
        Read::Bytes(count) => Ok(Some((count, room))),
    }
}

/// The names that begin so, with a space behind each.
pub(crate) fn names<D: Disk>(alloc: Global, disk: &mut D, prefix: &str) -> Result<String, DiskErr> {
    let mut joined = String::new(alloc);
    for name in disk.list(alloc, prefix)?.as_slice() {
        joined.push_str(name.as_str())?;
        joined.push(' ')?;
    }
    Ok(joined)
}
