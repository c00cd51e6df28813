//! What is replied to requests.
ghost use Rattle.std.specs.Prelude.{◌≡◌};
ghost use Rattle.http_visits.specs.Replies.{reply_of};

use res_base::{List, Text};

/// What an authority replies to a request.
#[derive(Debug, Drop)]
pub struct Page {
    pub authority: Text,
    pub request: List<u8>,
    pub reply: List<u8>,
}

/// The reply of the first page with this authority and this request; without one it is empty.
pub fn reply_of<'p>(pages: &'p [Page], authority: &str, request: &[u8]) -> &'p [u8]
    ensures { result.now ≡ reply_of pages.now authority.now request.now }
{
    for page in pages {
        if page.authority.as_str() == authority && page.request.as_slice() == request {
            return page.reply.as_slice();
        }
    }
    &[]
}
