//! What a page says: what stands at one place.
ghost use Rattle.std.specs.Prelude.{◌≡◌, ◌≢◌, ◌<◌, ◌≤◌, ℕ, [], List, Ok, Option, IfOk, IsErrOf, length};
ghost use Rattle.res_base.specs.Causes.{Rose};
ghost use Rattle.http_wire.specs.BodyStarts.{HeadData};
ghost use Rattle.http_wire.specs.Fields.{Bytes};
ghost use Rattle.http_wire.specs.Outcomes.{Outcome, nothing_yet};
ghost use Rattle.http_wire.specs.Readers.{IsShown, shown_head};
ghost use Rattle.http_wire.specs.Requests.{request_of};
ghost use Rattle.http_visits.specs.declared.pages.Page.{Page as PageRow};
ghost use Rattle.http_link.specs.declared.wire.Connection.{Connection as Told};
ghost use Rattle.http_link.specs.Hearing.{HearsFew, IsToldOf, reply_told};
ghost use Rattle.http_link.specs.Openings.{IsFound, IsFoundFile};
ghost use Rattle.http_visits.specs.Pages.{kind_of_seen};
ghost use Rattle.http_link.specs.Ends.{is_fault, is_file_end};

use crate::Wire;
use crate::hear::{Step, begin, hear_some};
use http_visits::{Kind, Place, kind_of_head, location_of};
use http_wire::{
    ReplyErr, ReplyReader, content_grows, one_outcome, read_is_outcome, shown_is_seen,
};
use link_base::LinkErr;
use res_base::{NoMemory, Text};
use std::alloc::Global;

/// A file whose reply has begun: what came of it and wasn't given yet, and how the reply ended,
/// unless more may come.
#[derive(Drop)]
pub(crate) struct Opening {
    pub(crate) reader: ReplyReader,
    pub(crate) pending: Vec<u8>,
    pub(crate) ended: Option<Result<(), ReplyErr>>,
}

/// What stands at a place: a file, or none; where to look instead; or a fault.
#[derive(Drop)]
pub(crate) enum Found {
    Opened(Opening),
    Absent,
    Moved(Text),
    Fault,
}

/// Whether a reply ended as that of a file does: whole, or cut at the limit.
fn is_file_end(ended: Option<Result<(), ReplyErr>>) -> bool
    ensures { result ≡ is_file_end ended }
{
    matches!(ended, Some(Ok(())) | Some(Err(ReplyErr::BodyTooLong)))
}

/// Whether a reply ended otherwise, before its first byte of content.
fn is_fault(pending: &[u8], ended: Option<Result<(), ReplyErr>>) -> bool
    ensures { result ≡ is_fault pending.now ended }
{
    match pending {
        [] => !is_file_end(ended),
        [_, ..] => false,
    }
}

/// A file whose reply came so far; a fault where the reply ended otherwise before its first byte.
fn opened(reader: ReplyReader, step: Step, pending: Vec<u8>) -> Found
    ensures { (told : Option (List PageRow)) (connection : Option Told) (limit most : ℕ) (reply : Bytes)
        → HearsFew step told connection reader limit reply nothing_yet most [] pending.items → (step ≡ Step.More → pending.items ≢ [])
        → IsFoundFile told connection limit most reply result }
{
    let ended = step.ended();
    if is_fault(pending.as_slice(), ended) {
        Found::Fault
    } else {
        Found::Opened(Opening {
            reader,
            pending,
            ended,
        })
    }
}

/// What a reply of this kind says, which was heard up to its first content or to its end.
fn page_of(
    alloc: Global,
    kind: Kind,
    reader: ReplyReader,
    step: Step,
    pending: Vec<u8>,
) -> Result<Found, NoMemory>
    ensures { (told : Option (List PageRow)) (connection : Option Told) (limit most : ℕ) (reply : Bytes)
        → ((seen : Option HeadData) → IsShown seen (shown_head reader) → kind ≡ kind_of_seen seen)
        → HearsFew step told connection reader limit reply nothing_yet most [] pending.items → (step ≡ Step.More → pending.items ≢ [])
        → IfOk result (IsFound told connection limit most reply) }
{
    content_grows();
    one_outcome();
    read_is_outcome();
    shown_is_seen();
    match kind {
        Kind::Whole => Ok(opened(reader, step, pending)),
        Kind::Gone => Ok(Found::Absent),
        Kind::Other => Ok(Found::Fault),
        Kind::Elsewhere => match location_of(alloc, reader.head())? {
            None => Ok(Found::Fault),
            Some(location) => Ok(Found::Moved(location)),
        },
    }
}

/// Asks for what stands at a place, up to the first byte of a file.
pub(crate) fn ask<W: Wire>(
    alloc: Global,
    wire: &mut W,
    place: &Place,
    limit: u64,
    buffer: &mut [u8],
) -> Result<Found, LinkErr>
    requires { 0 < length buffer.old }
    ensures room { length buffer.new ≡ length buffer.old }
    ensures pages { W.pages wire.new ≡ W.pages wire.old }
    ensures later { W.faults wire.old ≤ W.faults wire.new }
    ensures cause { IsErrOf result LinkErr.Failed → Rose (W.faults wire.old) (W.faults wire.new) }
    ensures found { (told : Option (List PageRow)) → IsToldOf told (W.pages wire.old)
        → IfOk result (IsFound told (W.connection wire.new) limit (length buffer.old)
        (reply_told (W.pages wire.old) place.now.authority (request_of place.now.authority place.now.target))) }
{
    let mut reader = begin(alloc, wire, place, limit)?;
    let mut pending = Vec::new(alloc);
    let step = hear_some(alloc, wire, &mut reader, buffer, &mut pending)?;
    let kind = kind_of_head(reader.head());
    let found = page_of(alloc, kind, reader, step, pending)?;
    Ok(found)
}
