//! What the head of a reply says of a file (RFC 9110 section 15).
ghost use Rattle.std.specs.Prelude.{◌≡◌, Option, IfOk, option_copied};
ghost use Rattle.http_wire.specs.BodyStarts.{HeadData};
ghost use Rattle.http_wire.specs.Readers.{IsShown};
ghost use Rattle.http_visits.specs.Pages.{kind_of, kind_of_seen, IsSeenLocation};

use http_wire::Head;
use res_base::{Copied, NoMemory, Text};
use std::alloc::Global;

/// What a status says: the file follows; there is none; it is elsewhere; or anything else.
#[derive(Clone, Copy, Debug, PartialEq, Eq)]
pub enum Kind {
    Whole,
    Gone,
    Elsewhere,
    Other,
}

/// What a status says.
fn kind_of(status: u16) -> Kind
    ensures { result ≡ kind_of status }
{
    if status == 200 {
        Kind::Whole
    } else if status == 404 || status == 410 {
        Kind::Gone
    } else if status == 301 || status == 302 || status == 303 || status == 307 || status == 308 {
        Kind::Elsewhere
    } else {
        Kind::Other
    }
}

/// What the head of a reply says, where there is one.
pub fn kind_of_head(head: Option<&Head>) -> Kind
    ensures { (seen : Option HeadData) → IsShown seen (option_copied head.entry) → result ≡ kind_of_seen seen }
{
    match head {
        None => Kind::Other,
        Some(head) => kind_of(head.status),
    }
}

/// The Location of a head.
pub fn location_of(alloc: Global, head: Option<&Head>) -> Result<Option<Text>, NoMemory>
    ensures { IfOk result (λ location. (seen : Option HeadData) → IsShown seen (option_copied head.entry) → IsSeenLocation seen location) }
{
    match head {
        None => Ok(None),
        Some(head) => Ok(head.location.copy(alloc)?),
    }
}
