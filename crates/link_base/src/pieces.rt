//! Files put together from their pieces.
ghost use Rattle.std.specs.Prelude.{◌≡◌, None, IfOk};
ghost use Rattle.res_base.specs.Causes.{HasCause, counted};
ghost use Rattle.link_base.specs.FilePaths.{IsFilePath};
ghost use Rattle.link_base.specs.Links.{Rows, AnswersGet, FitsLimit, failed_after, LinkKept};
ghost use Rattle.res_base.specs.Paths.{url_at};

use crate::{Got, Link, LinkErr, Next, Opened};
use res_base::List;
use std::alloc::Global;

/// The whole file at a URL, opened and put together from its pieces. It is what `get` answers: of
/// a link that agrees with a world, the pieces up to the end are the file.
pub fn get_in_pieces<L: Link>(
    alloc: Global,
    link: &mut L,
    address: &str,
    path: &str,
    limit: u64,
) -> Result<Got, LinkErr>
    requires { IsFilePath path.now }
    ensures answer { (w : Rows) → L.agrees link.old w → AnswersGet w (url_at address.now path.now) limit result }
    ensures within { IfOk result (FitsLimit limit) }
    ensures cause { HasCause LinkErr.Failed (L.faults link.old) (L.faults link.new) result }
    ensures asked { L.asked link.new ≡ counted (L.asked link.old) }
    ensures closed { L.open_file link.new ≡ None }
    ensures failed { L.failed_urls link.new
        ≡ failed_after (L.failed_urls link.old) (url_at address.now path.now) result }
    ensures kept { LinkKept L.agrees L.faults L.asked L.failed_urls link.old link.new }
{
    if link.open(alloc, address, path, limit)? == Opened::Absent {
        return Ok(Got::Absent);
    }
    let mut bytes = Vec::new(alloc);
    let mut piece = Vec::new(alloc);
    'pieces: loop {
        match link.next_piece(alloc, &mut piece)? {
            Next::Piece => {}
            Next::End => return Ok(Got::Bytes(List::from_vec(bytes))),
            Next::TooLarge => return Ok(Got::TooLarge),
        }
        if bytes.extend_from_slice(piece.as_slice()).is_err() {
            link.close_file();
            return Err(LinkErr::NoMemory);
        }
    }
}
