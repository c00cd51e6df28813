//! The body of a reply, as far as it was read.
use crate::ReplyErr;
use crate::body_places::BodyPlace;
use std::alloc::AllocError;

/// A place in a body, and how many more bytes of content the limit has room for.
#[derive(Clone, Copy, Debug, PartialEq, Eq)]
pub(crate) struct BodyState {
    pub(crate) place: BodyPlace,
    pub(crate) room: u64,
}

impl BodyState {
    ghost use Rattle.std.specs.Prelude.{◌≡◌, ◌++◌, ◌+◌, ◌<◌, ◌≤◌, List, ℕ, true, false, length, drop, IfOk, OnOk, OnErr};
    ghost use Rattle.http_wire.specs.BodyPlaces.{InRange, HoldsRun, is_content};
    ghost use Rattle.http_wire.specs.BodyBytes.{after_bytes, content_of};

    // Takes bytes of content, of which so many may come at once, and says how many.
    fn take_run(&mut self, run: u64, piece: &[u8], into: &mut Vec<u8>) -> Result<usize, AllocError>
        requires range { InRange self.old.place }
        requires some { 0 < run }
        requires bytes { 0 < length piece.now }
        requires in_file { is_content self.old.place ≡ true }
        requires runs { HoldsRun self.old.place run }
        ensures range { InRange self.new.place }
        ensures forth { IfOk result (λ n. (0 < n) × (n ≤ length piece.now)) }
        ensures after { IfOk result (λ n. after_bytes self.new (drop n piece.now) ≡ after_bytes self.old piece.now) }
        ensures given { IfOk result (λ n. into.new.items ++ content_of self.new (drop n piece.now) ≡ into.old.items
            ++ content_of self.old piece.now) }
        ensures grows { length into.old.items ≤ length into.new.items }
        ensures err { OnErr result (into.new.items ≡ into.old.items) }
    {
        if self.room == 0 {
            self.place = BodyPlace::Refused(ReplyErr::BodyTooLong);
            return Ok(piece.len());
        }
        let count = run.min(self.room).min(piece.len() as u64);
        into.extend_from_slice(&piece[..count as usize])?;
        self.place = self.place.after_content(count);
        self.room -= count;
        Ok(count as usize)
    }

    // Takes a byte of the framing, or all bytes where no further byte counts, and says how many.
    fn take_other(&mut self, piece: &[u8]) -> usize
        requires range { InRange self.old.place }
        requires bytes { 0 < length piece.now }
        requires in_lines { is_content self.old.place ≡ false }
        ensures range { InRange self.new.place }
        ensures forth { (0 < result) × (result ≤ length piece.now) }
        ensures after { after_bytes self.new (drop result piece.now) ≡ after_bytes self.old piece.now }
        ensures given { content_of self.new (drop result piece.now) ≡ content_of self.old piece.now }
    {
        if self.place.is_final() {
            return piece.len();
        }
        self.place = self.place.after_framing(piece[0]);
        1
    }

    // Takes some of the next bytes, and says how many.
    fn take(&mut self, piece: &[u8], into: &mut Vec<u8>) -> Result<usize, AllocError>
        requires range { InRange self.old.place }
        requires bytes { 0 < length piece.now }
        ensures range { InRange self.new.place }
        ensures forth { IfOk result (λ n. (0 < n) × (n ≤ length piece.now)) }
        ensures after { IfOk result (λ n. after_bytes self.new (drop n piece.now) ≡ after_bytes self.old piece.now) }
        ensures given { IfOk result (λ n. into.new.items ++ content_of self.new (drop n piece.now) ≡ into.old.items
            ++ content_of self.old piece.now) }
        ensures grows { length into.old.items ≤ length into.new.items }
        ensures err { OnErr result (into.new.items ≡ into.old.items) }
    {
        match self.place.content_run() {
            Some(run) => self.take_run(run, piece, into),
            None => Ok(self.take_other(piece)),
        }
    }

    /// Takes the next bytes, and appends those that are content.
    pub(crate) fn feed(&mut self, piece: &[u8], into: &mut Vec<u8>) -> Result<(), AllocError>
        requires { InRange self.old.place }
        ensures range { InRange self.new.place }
        ensures ok { OnOk result (self.new ≡ after_bytes self.old piece.now) }
        ensures given { OnOk result (into.new.items ≡ into.old.items ++ content_of self.old piece.now) }
        ensures part { OnErr result ((rest : List ℕ) × (into.new.items ++ rest ≡ into.old.items
            ++ content_of self.old piece.now)) }
        ensures kept { OnErr result (length into.old.items ≤ length into.new.items) }
    {
        let mut at = 0;
        while at < piece.len() {
            at += self.take(&piece[at..], into)?;
        }
        Ok(())
    }
}
