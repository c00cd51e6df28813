//! A wire in memory.
ghost use Rattle.std.specs.Prelude.{◌≡◌, ◌<◌, false, None, Some};
ghost use Rattle.res_base.specs.Causes.{counted};

use crate::{Failed, Page, Wire};
use http_visits::reply_of;
use res_base::List;
use std::alloc::Global;

/// Replies as its pages say, in pieces of the sizes that it was told, again and again, and fails at
/// the calls with the numbers that it was told. All its calls are counted together, from 0. It also
/// fails where memory is wanting.
#[derive(Drop)]
pub struct MemWire {
    pages: List<Page>,
    cuts: List<u64>,
    failing: List<u64>,
    made: u64,
    faults: u64,
    pieces: u64,
    connected: bool,
    authority: String,
    sent: Vec<u8>,
    received: u64,
}

impl MemWire {
    /// A wire with these pages, whose replies come in pieces of these sizes, at least 1. Without
    /// sizes a reply comes as one piece.
    pub fn new(alloc: Global, pages: List<Page>, cuts: List<u64>, failing: List<u64>) -> MemWire
        ensures pages { ⟦<MemWire as Wire>⟧.pages result ≡ Some pages }
        ensures faults { ⟦<MemWire as Wire>⟧.faults result ≡ 0 }
        ensures closed { ⟦<MemWire as Wire>⟧.connection result ≡ None }
    {
        MemWire {
            pages,
            cuts,
            failing,
            made: 0,
            faults: 0,
            pieces: 0,
            connected: false,
            authority: String::new(alloc),
            sent: Vec::new(alloc),
            received: 0,
        }
    }

    /// Counts a call, and says whether it is to fail.
    fn next_fails(&mut self) -> bool
        ensures { self.new ≡ record self.old { made = counted self.old.made } }
    {
        let call = self.made;
        self.made = self.made.saturating_add(1);
        self.failing.as_slice().contains(&call)
    }

    /// Counts a fault, and closes the connection.
    fn fail(&mut self) -> Failed
        ensures { self.new ≡ record self.old { faults = counted self.old.faults; connected = false } }
    {
        self.faults = self.faults.saturating_add(1);
        self.connected = false;
        Failed
    }

    /// The greatest size of the next piece, which is at least 1.
    fn next_cut(&mut self) -> u64
        ensures some { 0 < result }
        ensures counts { self.new ≡ record self.old { pieces = counted self.old.pieces } }
    {
        let piece = self.pieces;
        self.pieces = self.pieces.saturating_add(1);
        let count = self.cuts.len() as u64;
        if count == 0 {
            return u64::MAX;
        }
        match self.cuts.get((piece % count) as usize) {
            None => 1,
            Some(cut) => (*cut).max(1),
        }
    }
}

impl Wire for MemWire {
    ghost use Rattle.http_link.specs.MemoryWires.{connection_of};

    ghost faults = { λ wire. wire.faults };

    ghost pages = { λ wire. Some wire.pages };

    ghost connection = { λ wire. connection_of wire };

    fn connect(&mut self, authority: &str) -> Result<(), Failed> {
        self.connected = false;
        if self.next_fails() {
            return Err(self.fail());
        }
        self.authority.clear();
        if self.authority.push_str(authority).is_err() {
            return Err(self.fail());
        }
        self.sent.clear();
        self.received = 0;
        self.connected = true;
        Ok(())
    }

    fn send(&mut self, bytes: &[u8]) -> Result<(), Failed> {
        if self.next_fails() {
            return Err(self.fail());
        }
        if self.sent.extend_from_slice(bytes).is_err() {
            return Err(self.fail());
        }
        Ok(())
    }

    fn receive(&mut self, into: &mut [u8]) -> Result<usize, Failed> {
        if self.next_fails() {
            return Err(self.fail());
        }
        if !self.connected {
            return Ok(0);
        }
        let cut = self.next_cut();
        let reply = reply_of(
            self.pages.as_slice(),
            self.authority.as_str(),
            self.sent.as_slice(),
        );
        if self.received > reply.len() as u64 {
            return Err(self.fail());
        }
        let rest = &reply[self.received as usize..];
        let count = (rest.len() as u64).min(into.len() as u64).min(cut) as usize;
        into[..count].copy_from_slice(&rest[..count]);
        self.received += count as u64;
        Ok(count)
    }
}
