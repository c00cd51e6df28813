//! Connections that carry a request and its reply.
ghost use Rattle.std.specs.Prelude.{◌≡◌, ◌≤◌, List, ℕ, Option, Some, IfOk, length};
ghost use Rattle.http_visits.specs.declared.pages.Page.{Page as PageRow};
ghost use Rattle.http_link.specs.declared.wire.Connection.{Connection as Told};
ghost use Rattle.http_link.specs.Wires.{HasWireCause, connected, sent_after, received_after, IsReceived};
ghost use Rattle.http_visits.specs.Replies.{reply_of};

use res_base::{List, Text};

/// A connection: the authority, the bytes sent, and the number of bytes received.
#[derive(Debug, Drop)]
pub struct Connection {
    pub authority: Text,
    pub sent: List<u8>,
    pub received: u64,
}

/// A wire failed. Its count of faults says so too.
#[derive(Clone, Copy, Debug, PartialEq, Eq)]
pub struct Failed;

/// Carries one request and its reply at a time. A wire that tells its pages gives the reply of the
/// first page with the authority and the bytes sent, and an empty one where there is none. After a
/// failure there is no connection.
pub trait Wire: Drop {
    /// How often it failed.
    ghost faults: { Self → ℕ };

    /// What it replies, where it tells that.
    ghost pages: { Self → Option (List PageRow) };

    /// The connection, where the pages are told.
    ghost connection: { Self → Option Told };

    /// Connects to an authority. An earlier connection is closed.
    fn connect(&mut self, authority: &str) -> Result<(), Failed>
        ensures cause { HasWireCause (faults self.old) (faults self.new) result }
        ensures pages { pages self.new ≡ pages self.old }
        ensures connected { (rows : List PageRow) → pages self.old ≡ Some rows
            → connection self.new ≡ connected authority.now result };

    /// Sends bytes of the request.
    fn send(&mut self, bytes: &[u8]) -> Result<(), Failed>
        ensures cause { HasWireCause (faults self.old) (faults self.new) result }
        ensures pages { pages self.new ≡ pages self.old }
        ensures sent { (rows : List PageRow) → pages self.old ≡ Some rows
            → connection self.new ≡ sent_after (connection self.old) bytes.now result };

    /// Receives the next bytes of the reply, and says how many; 0 only at its end, where there is
    /// room.
    fn receive(&mut self, into: &mut [u8]) -> Result<usize, Failed>
        ensures cause { HasWireCause (faults self.old) (faults self.new) result }
        ensures pages { pages self.new ≡ pages self.old }
        ensures room { IfOk result (λ n. n ≤ length into.new) }
        ensures as_long { length into.new ≡ length into.old }
        ensures received { (rows : List PageRow) (at : Told) → pages self.old ≡ Some rows → connection self.old ≡ Some at
            → IfOk result (IsReceived (reply_of rows at.authority at.sent) at.received into.new) }
        ensures goes_on { (rows : List PageRow) → pages self.old ≡ Some rows
            → connection self.new ≡ received_after (connection self.old) result };
}
