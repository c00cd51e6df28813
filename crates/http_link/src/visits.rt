//! Pages, redirects followed.
ghost use Rattle.std.specs.Prelude.{◌≡◌, ◌<◌, ◌≤◌, List, Option, IfOk, IsErrOf, length};
ghost use Rattle.res_base.specs.Causes.{Rose};
ghost use Rattle.http_visits.specs.declared.pages.Page.{Page as PageRow};
ghost use Rattle.http_link.specs.Hearing.{IsToldOf};
ghost use Rattle.http_link.specs.Visited.{IsVisited};

use crate::Wire;
use crate::pages::{Found, Opening, ask};
use http_visits::{Place, next_place};
use link_base::LinkErr;
use std::alloc::Global;

/// The greatest number of redirects that are followed.
const REDIRECTS: u32 = 5;

/// What stands at a place, or where its redirects lead: a file, none, or a fault.
#[derive(Drop)]
pub(crate) enum Visited {
    Opened(Opening),
    Absent,
    Fault,
}

/// Asks for what stands at a place, and follows at most five redirects.
pub(crate) fn visit<W: Wire>(
    alloc: Global,
    wire: &mut W,
    start: Place,
    limit: u64,
    buffer: &mut [u8],
) -> Result<Visited, LinkErr>
    requires { 0 < length buffer.old }
    ensures room { length buffer.new ≡ length buffer.old }
    ensures pages { W.pages wire.new ≡ W.pages wire.old }
    ensures later { W.faults wire.old ≤ W.faults wire.new }
    ensures cause { IsErrOf result LinkErr.Failed → Rose (W.faults wire.old) (W.faults wire.new) }
    ensures visit { (told : Option (List PageRow)) → IsToldOf told (W.pages wire.old)
        → IfOk result (IsVisited told (W.connection wire.new) limit (length buffer.old) start) }
{
    let mut place = start;
    let mut left = REDIRECTS;
    'redirects: loop {
        let location = match ask(alloc, wire, &place, limit, buffer)? {
            Found::Opened(opening) => return Ok(Visited::Opened(opening)),
            Found::Absent => return Ok(Visited::Absent),
            Found::Fault => return Ok(Visited::Fault),
            Found::Moved(location) => location,
        };
        if left == 0 {
            return Ok(Visited::Fault);
        }
        match next_place(alloc, &place, location.as_str())? {
            None => return Ok(Visited::Fault),
            Some(next) => {
                place = next;
                left -= 1;
            }
        }
    }
}
