//! A reply, as far as a link wants to hear it.
ghost use Rattle.std.specs.Prelude.{◌≡◌, ◌≢◌, ◌<◌, ◌≤◌, ℕ, List, Option, [], Ok, IfOk, IsErrOf, length};
ghost use Rattle.res_base.specs.Causes.{Rose};
ghost use Rattle.http_wire.specs.Fields.{Bytes};
ghost use Rattle.http_wire.specs.Measures.{left_of};
ghost use Rattle.http_wire.specs.Outcomes.{Outcome, nothing_yet};
ghost use Rattle.http_wire.specs.Requests.{request_of};
ghost use Rattle.http_visits.specs.declared.pages.Page.{Page as PageRow};
ghost use Rattle.http_link.specs.Hearing.{IsHearing, HasReadSome, IsToldOf, HearsFew, HearsLast, ended_of, reply_told};

use crate::{Failed, Wire};
use http_visits::Place;
use http_wire::{
    Fed, ReplyErr, ReplyReader, final_stays, read_is_outcome, request_bytes, shown_is_seen,
    within_limit,
};
use link_base::LinkErr;
use std::alloc::Global;

/// What came of a reply: more may come, or no further byte counts and this is how it ended.
#[derive(Clone, Copy, Debug, PartialEq, Eq)]
pub(crate) enum Step {
    More,
    Ended(Result<(), ReplyErr>),
}

impl Step {
    /// How the reply ended, unless more may come.
    pub(crate) fn ended(self) -> Option<Result<(), ReplyErr>>
        ensures { result ≡ ended_of self }
    {
        match self {
            Step::More => None,
            Step::Ended(ended) => Some(ended),
        }
    }
}

/// Asks for what stands at a place.
pub(crate) fn begin<W: Wire>(
    alloc: Global,
    wire: &mut W,
    place: &Place,
    limit: u64,
) -> Result<ReplyReader, LinkErr>
    ensures pages { W.pages wire.new ≡ W.pages wire.old }
    ensures later { W.faults wire.old ≤ W.faults wire.new }
    ensures cause { IsErrOf result LinkErr.Failed → Rose (W.faults wire.old) (W.faults wire.new) }
    ensures hearing { IfOk result (λ reader. IsHearing (W.pages wire.old) (W.connection wire.new) reader limit
        (reply_told (W.pages wire.old) place.now.authority (request_of place.now.authority place.now.target)) nothing_yet) }
{
    let request = request_bytes(alloc, place.authority.as_str(), place.target.as_str())?;
    match wire.connect(place.authority.as_str()) {
        Ok(()) => {}
        Err(Failed) => return Err(LinkErr::Failed),
    }
    match wire.send(request.as_slice()) {
        Ok(()) => {}
        Err(Failed) => return Err(LinkErr::Failed),
    }
    Ok(ReplyReader::new(alloc, limit))
}

/// Receives bytes of a reply, and appends the content in them.
fn receive_some<W: Wire>(
    alloc: Global,
    wire: &mut W,
    reader: &mut ReplyReader,
    buffer: &mut [u8],
    into: &mut Vec<u8>,
) -> Result<Step, LinkErr>
    requires { 0 < length buffer.old }
    ensures room { length buffer.new ≡ length buffer.old }
    ensures pages { W.pages wire.new ≡ W.pages wire.old }
    ensures later { W.faults wire.old ≤ W.faults wire.new }
    ensures cause { IsErrOf result LinkErr.Failed → Rose (W.faults wire.old) (W.faults wire.new) }
    ensures steps { (told : Option (List PageRow)) (limit : ℕ) (reply : Bytes) (before : Outcome) → IsToldOf told (W.pages wire.old)
        → IsHearing told (W.connection wire.old) reader.old limit reply before
        → IfOk result (λ step. HearsFew step told (W.connection wire.new) reader.new limit reply before (length buffer.old) into.old.items into.new.items) }
    ensures nearer { HasReadSome reader.old → result ≡ Ok Step.More → left_of reader.new < left_of reader.old }
{
    final_stays();
    shown_is_seen();
    read_is_outcome();
    within_limit();
    let count = match wire.receive(buffer) {
        Ok(count) => count,
        Err(Failed) => return Err(LinkErr::Failed),
    };
    if count == 0 {
        return Ok(Step::Ended(reader.finish()));
    }
    match reader.feed(alloc, &buffer[..count], into) {
        Ok(Fed::More) => Ok(Step::More),
        Ok(Fed::Done) => Ok(Step::Ended(Ok(()))),
        Err(refusal) => {
            if refusal.is_memory() {
                return Err(LinkErr::NoMemory);
            }
            Ok(Step::Ended(Err(refusal)))
        }
    }
}

/// Receives a reply up to its first content, or to its end where no content comes before that.
pub(crate) fn hear_some<W: Wire>(
    alloc: Global,
    wire: &mut W,
    reader: &mut ReplyReader,
    buffer: &mut [u8],
    into: &mut Vec<u8>,
) -> Result<Step, LinkErr>
    requires room { 0 < length buffer.old }
    requires empty { into.old.items ≡ [] }
    requires read { ¬ ¬ (HasReadSome reader.old) }
    ensures pages { W.pages wire.new ≡ W.pages wire.old }
    ensures room { length buffer.new ≡ length buffer.old }
    ensures later { W.faults wire.old ≤ W.faults wire.new }
    ensures cause { IsErrOf result LinkErr.Failed → Rose (W.faults wire.old) (W.faults wire.new) }
    ensures some { result ≡ Ok Step.More → into.new.items ≢ [] }
    ensures steps { (told : Option (List PageRow)) (limit : ℕ) (reply : Bytes) (before : Outcome) → IsToldOf told (W.pages wire.old)
        → IsHearing told (W.connection wire.old) reader.old limit reply before
        → IfOk result (λ step. HearsFew step told (W.connection wire.new) reader.new limit reply before (length buffer.old) [] into.new.items) }
{
    'pieces: loop {
        match receive_some(alloc, wire, reader, buffer, into)? {
            Step::More => {}
            Step::Ended(ended) => return Ok(Step::Ended(ended)),
        }
        if !into.is_empty() {
            return Ok(Step::More);
        }
    }
}

/// Receives all that is left of a reply.
pub(crate) fn hear_rest<W: Wire>(
    alloc: Global,
    wire: &mut W,
    reader: &mut ReplyReader,
    buffer: &mut [u8],
    into: &mut Vec<u8>,
) -> Result<Result<(), ReplyErr>, LinkErr>
    requires room { 0 < length buffer.old }
    requires read { ¬ ¬ (HasReadSome reader.old) }
    ensures pages { W.pages wire.new ≡ W.pages wire.old }
    ensures later { W.faults wire.old ≤ W.faults wire.new }
    ensures cause { IsErrOf result LinkErr.Failed → Rose (W.faults wire.old) (W.faults wire.new) }
    ensures last { (told : Option (List PageRow)) (limit : ℕ) (reply : Bytes) (before : Outcome) → IsToldOf told (W.pages wire.old)
        → IsHearing told (W.connection wire.old) reader.old limit reply before
        → IfOk result (λ ended. HearsLast ended told reader.new limit reply before into.old.items into.new.items) }
{
    'pieces: loop {
        match receive_some(alloc, wire, reader, buffer, into)? {
            Step::More => {}
            Step::Ended(ended) => return Ok(ended),
        }
    }
}
