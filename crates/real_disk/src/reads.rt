//! What the system did, as a disk says it, and the bytes of a file from a place on.
ghost use Rattle.disk_base.specs.Reads.{FitsRoom};
ghost use Rattle.std.specs.Prelude.{◌≡◌, ◌≤◌, ◌<◌, IfErr, IfOk, IsErr, Ok, length, take};
ghost use Rattle.std.specs.Io.KnownBytes.{Consumes, IsAtEnd};

use disk_base::{DiskErr, Read};
use std::fs::OpenFile;
use std::io;
use std::io::{ErrorKind, Read as ReadBytes, Seek, SeekFrom};

/// No file has a byte at this place or behind it.
const NO_PLACE: u64 = 1 << 63;

/// What the system did: an error is a fault, or want of memory.
pub(crate) fn as_disk<T: Drop>(outcome: io::Result<T>) -> Result<T, DiskErr>
    ensures ok { IfOk outcome (λ done. result ≡ Ok done) }
    ensures err { IfErr outcome (λ e. IsErr result) }
    ensures same { IfOk result (λ done. outcome ≡ Ok done) }
{
    match outcome {
        Ok(done) => Ok(done),
        Err(error) => {
            if error.kind() == ErrorKind::OutOfMemory {
                Err(DiskErr::NoMemory)
            } else {
                Err(DiskErr::Failed)
            }
        }
    }
}

/// Fills a room with the next bytes of a file, as many as there are and as it holds.
fn fill<F: ReadBytes>(file: &mut F, into: &mut [u8]) -> Result<usize, DiskErr>
    ensures room { length into.new ≡ length into.old }
    ensures few { IfOk result (λ n. n ≤ length into.new) }
    ensures bytes { IfOk result (λ n. Consumes (F.remaining file.old) (F.remaining file.new) (take n into.new)) }
    ensures end { IfOk result (λ n. n < length into.new → IsAtEnd (F.remaining file.new)) }
{
    let mut filled = 0;
    while filled < into.len() {
        let given = as_disk(file.read(&mut into[filled..]))?;
        if given == 0 {
            return Ok(filled);
        }
        filled += given;
    }
    Ok(filled)
}

/// Fills a room with the bytes of a file from a place on.
pub(crate) fn read_from<F: ReadBytes + Seek + Drop>(
    file: F,
    at: u64,
    into: &mut [u8],
) -> Result<Read, DiskErr>
    ensures within { IfOk result (FitsRoom at (length into.old)) }
    ensures room { length into.new ≡ length into.old }
{
    if at >= NO_PLACE {
        return Ok(Read::Bytes(0));
    }
    let mut file = file;
    as_disk(file.seek(SeekFrom::Start(at)))?;
    Ok(Read::Bytes(fill(&mut file, into)?))
}

/// A file that the system opened. It is looked at once more: what stood there may have become
/// something else since the first look.
pub(crate) fn opened<F: OpenFile + Drop>(outcome: io::Result<F>) -> Result<F, DiskErr>
    ensures { IfOk result (λ file. outcome ≡ Ok file) }
{
    let file = as_disk(outcome)?;
    let now = as_disk(file.metadata())?;
    if now.is_file() {
        Ok(file)
    } else {
        Err(DiskErr::Failed)
    }
}
