//! Replies, read from whatever pieces they come in.
ghost use Rattle.http_wire.specs.Phases.{PhaseInRange, phase_in_range_prop};

use crate::body_places::BodyPlace;
use crate::body_states::BodyState;
use crate::heads::{ParsedHead, parse_head};
use crate::line_places::LinePlace;
use crate::{Fed, Head, ReplyErr};
use res_base::NoMemory;
use std::alloc::{AllocError, Global};

/// The greatest number of bytes in the head of a reply.
const HEAD_LIMIT: usize = 65536;

/// Where a reader stands in a reply.
#[derive(Clone, Copy, Debug)]
pub(crate) enum Phase {
    InHead(LinePlace),
    InBody(BodyState),
}

/// Reads one reply, whose bytes come in any pieces, under a limit on the bytes of its content.
/// What it answers and appends depends on the joined pieces alone.
#[derive(Drop)]
pub struct ReplyReader {
    limit: u64,
    front: Vec<u8>,
    head: Option<Head>,
    phase: Phase,
    ghost in_range: { PhaseInRange phase } by { phase_in_range_prop phase },
}

impl ReplyReader {
    ghost use Rattle.std.specs.Prelude.{◌≡◌, false, ◌++◌, ◌<◌, ◌≤◌, [], ◌∷◌, ℕ, Err, option_copied, IfOk, OnOk, OnErr, Option, length, take};
    ghost use Rattle.http_wire.specs.declared.replies.ReplyErr.{ReplyErr as Refusal};
    ghost use Rattle.http_wire.specs.BodyStarts.{HeadData};
    ghost use Rattle.http_wire.specs.Fields.{Bytes};
    ghost use Rattle.http_wire.specs.Heads.{IsHeadOf};
    ghost use Rattle.http_wire.specs.Outcomes.{Outcome, nothing_yet, body_start, wants_memory};
    ghost use Rattle.http_wire.specs.Readers.{HasRead, Reads, Feeds, GivesParts, Refuses, IsInBody, IsShown, shown_head, fed_by, refused_phase};

    /// Before the first piece of a reply whose content may have so many bytes.
    pub fn new(alloc: Global, limit: u64) -> ReplyReader
        ensures { HasRead result limit [] nothing_yet }
    {
        ReplyReader {
            limit,
            front: Vec::new(alloc),
            head: None,
            phase: Phase::InHead(LinePlace::Leading),
        }
    }

    /// No further byte counts.
    fn refuse(&mut self, refusal: ReplyErr)
        ensures phase { self.new.phase ≡ refused_phase refusal }
        ensures limit { self.new.limit ≡ self.old.limit }
        ensures head { self.new.head ≡ self.old.head }
    {
        self.phase = Phase::InBody(BodyState {
            place: BodyPlace::Refused(refusal),
            room: 0,
        });
    }

    /// The head has ended.
    fn begin_body(&mut self, alloc: Global) -> Result<(), NoMemory>
        ensures begun { OnOk result ((seen : Option HeadData) × IsHeadOf self.old.front.items seen
            × IsShown seen self.new.head × (self.new.phase ≡ Phase.InBody (body_start self.old.limit seen))) }
        ensures limit { OnOk result (self.new.limit ≡ self.old.limit) }
    {
        match parse_head(alloc, self.front.as_slice())? {
            None => {
                self.head = None;
                self.phase = Phase::InBody(BodyState {
                    place: BodyPlace::Refused(ReplyErr::BadHead),
                    room: self.limit,
                });
            }
            Some(ParsedHead { head, start }) => {
                self.head = Some(head);
                self.phase = Phase::InBody(BodyState {
                    place: start,
                    room: self.limit,
                });
            }
        }
        Ok(())
    }

    /// Takes a byte of the head.
    fn take_byte(&mut self, alloc: Global, line: LinePlace, byte: u8) -> Result<(), NoMemory>
        requires { self.old.phase ≡ Phase.InHead line }
        ensures { OnOk result ((limit : ℕ) (bytes : Bytes) (before : Outcome)
            → HasRead self.old limit bytes before → Reads self.old self.new limit bytes (byte ∷ []) before [] []) }
    {
        self.front.push(byte)?;
        match line.after(byte) {
            None => {
                self.begin_body(alloc)?;
                Ok(())
            }
            Some(next) => {
                if self.front.as_slice().len() == HEAD_LIMIT {
                    self.refuse(ReplyErr::HeadTooLong);
                    return Ok(());
                }
                self.phase = Phase::InHead(next);
                Ok(())
            }
        }
    }

    /// Takes bytes of the head, up to its end, and says how many.
    fn take_head(&mut self, alloc: Global, piece: &[u8]) -> Result<usize, NoMemory>
        ensures within { IfOk result (λ n. n ≤ length piece.now) }
        ensures ends { IfOk result (λ n. n < length piece.now → IsInBody self.new.phase) }
        ensures reads { IfOk result (λ n. (limit : ℕ) (bytes : Bytes) (before : Outcome)
            → HasRead self.old limit bytes before
            → Reads self.old self.new limit bytes (take n piece.now) before [] []) }
    {
        let mut at = 0;
        while at < piece.len() {
            let Phase::InHead(line) = self.phase else {
                return Ok(at);
            };
            self.take_byte(alloc, line, piece[at])?;
            at += 1;
        }
        Ok(at)
    }

    /// Takes bytes of the body.
    fn take_body(&mut self, piece: &[u8], into: &mut Vec<u8>) -> Result<(), AllocError>
        requires { 0 < length piece.now → IsInBody self.old.phase }
        ensures reads { OnOk result ((limit : ℕ) (bytes : Bytes) (before : Outcome)
            → HasRead self.old limit bytes before
            → Reads self.old self.new limit bytes piece.now before into.old.items into.new.items) }
        ensures part { OnErr result (GivesParts self.old piece.now into.old.items into.new.items) }
    {
        match self.phase {
            Phase::InHead(_) => Ok(()),
            Phase::InBody(mut body) => {
                body.feed(piece, into)?;
                self.phase = Phase::InBody(body);
                Ok(())
            }
        }
    }

    /// Takes a piece.
    fn take(&mut self, alloc: Global, piece: &[u8], into: &mut Vec<u8>) -> Result<(), NoMemory>
        ensures reads { OnOk result ((limit : ℕ) (bytes : Bytes) (before : Outcome)
            → HasRead self.old limit bytes before
            → Reads self.old self.new limit bytes piece.now before into.old.items into.new.items) }
        ensures part { OnErr result (GivesParts self.old piece.now into.old.items into.new.items) }
    {
        let count = self.take_head(alloc, piece)?;
        self.take_body(&piece[count..], into)?;
        Ok(())
    }

    /// What `feed` answers here.
    fn fed(&self) -> Result<Fed, ReplyErr>
        ensures { result ≡ fed_by self.now.phase }
    {
        match self.phase {
            Phase::InHead(_) => Ok(Fed::More),
            Phase::InBody(body) => body.place.fed(),
        }
    }

    /// Reads a piece, and appends the content in it. The answer is what the joined pieces say:
    /// `Done` where the reply is whole before the connection ends, a refusal, else `More`. The
    /// content so far stands in `into` also after a refusal, and a beginning of it where memory is
    /// wanting. A refusal stays.
    pub fn feed(&mut self, alloc: Global, piece: &[u8], into: &mut Vec<u8>) -> Result<Fed, ReplyErr>
        ensures feeds { wants_memory result ≡ false → (limit : ℕ) (bytes : Bytes) (before : Outcome)
            → HasRead self.old limit bytes before
            → Feeds self.old self.new limit bytes piece.now before into.old.items into.new.items result }
        ensures part { result ≡ Err Refusal.NoMemory → GivesParts self.old piece.now into.old.items into.new.items }
        ensures refuses { (e : Refusal) → result ≡ Err e → Refuses self.new e }
        ensures again { (e : Refusal) → Refuses self.old e → result ≡ Err e }
        ensures idle { (e : Refusal) → Refuses self.old e → into.new.items ≡ into.old.items }
    {
        if let Err(refusal) = self.fed() {
            return Err(refusal);
        }
        match self.take(alloc, piece, into) {
            Ok(()) => self.fed(),
            Err(NoMemory) => {
                self.refuse(ReplyErr::NoMemory);
                Err(ReplyErr::NoMemory)
            }
        }
    }

    /// The head, once it was read whole.
    pub fn head(&self) -> Option<&Head>
        ensures { option_copied result ≡ shown_head self.now }
    {
        self.head.as_ref()
    }

    /// The connection has ended: whether the reply is whole. A refusal stays.
    pub fn finish(&mut self) -> Result<(), ReplyErr>
        ensures ended { (limit : ℕ) (bytes : Bytes) (outcome : Outcome)
            → HasRead self.old limit bytes outcome → result ≡ outcome.closed }
        ensures head { shown_head self.new ≡ shown_head self.old }
        ensures refuses { (e : Refusal) → result ≡ Err e → Refuses self.new e }
        ensures again { (e : Refusal) → Refuses self.old e → result ≡ Err e }
    {
        let closed = match self.phase {
            Phase::InHead(_) => Err(ReplyErr::EndedEarly),
            Phase::InBody(body) => body.place.closed(),
        };
        if let Err(refusal) = closed {
            self.refuse(refusal);
        }
        closed
    }
}
