//! Files read under a limit.
ghost use Rattle.std.specs.Prelude.{◌≡◌, ◌≤◌, ◌<◌, [], IfOk, OnErr, OnOk, IfSome, Ok, Err, Some, length};
ghost use Rattle.std.specs.Io.KnownBytes.{Consumes, IsAtEnd};
ghost use Rattle.link_base.specs.Links.{FitsLimit, got_of};
ghost use Rattle.real_edge.specs.FilePieces.{IsNextOf, IsWithinRoom};

use crate::folders::Found;
use link_base::{Got, LinkErr, Next};
use res_base::List;
use std::alloc::Global;
use std::io;
use std::io::{ErrorKind, Read};

/// The greatest number of bytes in a piece.
const PIECE_BYTES: u64 = 65536;

/// A read was refused, or there was no memory for it.
fn refusal(error: &io::Error) -> LinkErr {
    if error.kind() == ErrorKind::OutOfMemory {
        LinkErr::NoMemory
    } else {
        LinkErr::Failed
    }
}

/// All that is left of a file, under a limit.
fn read_whole<F: Read + Drop>(alloc: Global, file: F, limit: u64) -> Result<Got, LinkErr>
    ensures within { IfOk result (FitsLimit limit) }
    ensures answer { IfSome (F.remaining file) (λ left. IfOk result (λ got. got ≡ got_of (Some left) limit)) }
{
    let mut bytes = Vec::new(alloc);
    match file.take(limit.saturating_add(1)).read_to_end(&mut bytes) {
        Ok(_) if bytes.len() as u64 <= limit => Ok(Got::Bytes(List::from_vec(bytes))),
        Ok(_) => Ok(Got::TooLarge),
        Err(error) => Err(refusal(&error)),
    }
}

/// All of what was found under a name, under a limit.
pub(crate) fn read_found<F: Read + Drop>(
    alloc: Global,
    found: Found<F>,
    limit: u64,
) -> Result<Got, LinkErr>
    ensures within { IfOk result (FitsLimit limit) }
    ensures absent { found ≡ Found.Absent → result ≡ Ok Got.Absent }
    ensures fault { found ≡ Found.Fault → result ≡ Err LinkErr.Failed }
    ensures file { (file : F) → found ≡ Found.File file
        → IfSome (F.remaining file) (λ left. IfOk result (λ got. got ≡ got_of (Some left) limit)) }
{
    match found {
        Found::File(file) => read_whole(alloc, file, limit),
        Found::Absent => Ok(Got::Absent),
        Found::Fault => Err(LinkErr::Failed),
    }
}

/// Puts the next bytes of a file into an empty buffer, at most as many as are asked. It is left
/// empty at the end of the file alone.
fn read_next<F: Read>(file: &mut F, count: usize, into: &mut Vec<u8>) -> Result<(), LinkErr>
    requires { into.old.items ≡ [] }
    ensures few { length into.new.items ≤ count }
    ensures none { OnErr result (into.new.items ≡ []) }
    ensures next { OnOk result (Consumes (F.remaining file.old) (F.remaining file.new) into.new.items) }
    ensures end { OnOk result (into.new.items ≡ [] → 0 < count → IsAtEnd (F.remaining file.new)) }
{
    into.resize(count, 0)?;
    match file.read(into.as_mut_slice()) {
        Ok(given) => {
            into.truncate(given);
            Ok(())
        }
        Err(error) => {
            into.clear();
            Err(refusal(&error))
        }
    }
}

/// Puts the next piece of a file into a buffer, which is emptied first, where so many bytes may
/// still be given. Without room it asks for one byte, to know whether there is one.
pub(crate) fn read_piece<F: Read>(
    file: &mut F,
    room: u64,
    into: &mut Vec<u8>,
) -> Result<Next, LinkErr>
    ensures within { IsWithinRoom room result into.new.items }
    ensures next { IsNextOf (F.remaining file.old) (F.remaining file.new) result into.new.items }
{
    into.clear();
    let count = room.max(1).min(PIECE_BYTES) as usize;
    read_next(file, count, into)?;
    if into.is_empty() {
        return Ok(Next::End);
    }
    if room == 0 {
        into.clear();
        return Ok(Next::TooLarge);
    }
    Ok(Next::Piece)
}
