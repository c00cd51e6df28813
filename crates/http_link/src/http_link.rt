//! Links over HTTP.
ghost use Rattle.std.specs.Prelude.{◌≡◌, ◌+◌, ◌≤◌, [], true, false, None, length};
ghost use Rattle.http_link.specs.Gots.{IsReady, got_said, end_of};
ghost use Rattle.http_link.specs.Readings.{IsFullEnd, IsReadTo, IsKnown, full_end_prop, read_to_prop};

use crate::Wire;
use crate::hear::{hear_rest, hear_some};
use crate::pages::Opening;
use crate::visits::{Visited, visit};
use http_visits::place_of;
use http_wire::{
    ReplyErr, content_grows, one_outcome, read_is_outcome, shown_is_seen, within_limit,
};
use link_base::{Got, Link, LinkErr, Next, OpenFile, Opened};
use res_base::{List, Text, url_of};
use std::alloc::Global;

/// The greatest number of bytes that are received at once, and so of a piece.
const PIECE_BYTES: usize = 65536;

/// An open file, and what has come of its reply.
#[derive(Drop)]
pub(crate) struct Reading {
    pub(crate) file: OpenFile,
    pub(crate) opening: Opening,
    ghost within: { file.given + length opening.pending.items ≤ file.limit },
    ghost few: { length opening.pending.items ≤ 65536 },
    ghost full: { IsFullEnd opening.ended (file.given + length opening.pending.items) file.limit } by { full_end_prop opening.ended (file.given + length opening.pending.items) file.limit },
    ghost read: { IsReadTo opening.ended opening.reader file.limit (file.given + length opening.pending.items) } by { read_to_prop opening.ended opening.reader file.limit (file.given + length opening.pending.items) },
}

/// Gives the files that pages of a wire say, at `http://` addresses. Redirects are followed. A page
/// that is at fault is a fault of the link, as a failure of the wire and another address are. Of
/// an open file a reply is received as the pieces are asked for.
#[derive(Drop)]
pub struct HttpLink<W: Wire> {
    wire: W,
    buffer: Vec<u8>,
    asked: u64,
    faults: u64,
    reading: Option<Reading>,
}

/// A reply that was heard to its end.
#[derive(Drop)]
pub(crate) struct Heard {
    bytes: Vec<u8>,
    ended: Result<(), ReplyErr>,
}

/// An open file, of whose reply so much is known.
fn reading_of(file: OpenFile, opening: Opening) -> Reading
    requires { IsKnown opening.ended opening.reader file.limit (file.given + length opening.pending.items) (length opening.pending.items) }
    ensures file { result.file ≡ file }
    ensures opening { result.opening ≡ opening }
{
    Reading { file, opening }
}

/// Whether a piece waits, or the reply has ended.
fn is_ready(opening: &Opening) -> bool
    ensures ready { result ≡ true → IsReady opening.now.pending.items opening.now.ended }
    ensures empty { result ≡ false → opening.now.pending.items ≡ [] }
    ensures open { result ≡ false → opening.now.ended ≡ None }
{
    match opening.ended {
        Some(_) => true,
        None => !opening.pending.is_empty(),
    }
}

/// What is got of a reply; nothing where it is at fault.
fn got_of(heard: Heard) -> Option<Got>
    ensures { result ≡ got_said heard.ended heard.bytes.items }
{
    match heard.ended {
        Ok(()) => Some(Got::Bytes(List::from_vec(heard.bytes))),
        Err(ReplyErr::BodyTooLong) => Some(Got::TooLarge),
        Err(_) => None,
    }
}

/// The end of a file whose reply ended so; nothing where it is at fault.
fn end_of(ended: Option<Result<(), ReplyErr>>) -> Option<Next>
    ensures { result ≡ end_of ended }
{
    match ended {
        Some(Ok(())) => Some(Next::End),
        Some(Err(ReplyErr::BodyTooLong)) => Some(Next::TooLarge),
        _ => None,
    }
}

impl<W: Wire> HttpLink<W> {
    ghost use Rattle.std.specs.Prelude.{◌⊎◌, List, ℕ, Option, Some, Ok, IfOk, OnOk, IsErrOf};
    ghost use Rattle.std.specs.Option.{option_map};
    ghost use Rattle.res_base.specs.Causes.{HasCause, Rose, counted};
    ghost use Rattle.res_base.specs.Paths.{url_at};
    ghost use Rattle.res_base.specs.World.{at};
    ghost use Rattle.http_wire.specs.Fields.{Bytes};
    ghost use Rattle.link_base.specs.FilePaths.{IsFilePath};
    ghost use Rattle.link_base.specs.Links.{Rows, AnswersGet, AnswersOpen, AnswersPiece, FitsLimit, IsWithinPiece, file_after_open, file_after_piece};
    ghost use Rattle.http_visits.specs.declared.pages.Page.{Page as PageRow};
    ghost use Rattle.http_link.specs.Agreement.{PagesTell, FileAgrees, ReadingAgrees};
    ghost use Rattle.http_link.specs.Answers.{IsVisitedAt, ReadsOn, settled};
    ghost use Rattle.http_link.specs.Faults.{IsFaultFound, IsFaultOf, SaysFault};
    ghost use Rattle.http_link.specs.Hearing.{IsToldOf};
    ghost use Rattle.http_visits.specs.Addresses.{is_http_address};
    ghost use Rattle.http_link.specs.Openings.{IsTail, IsEnded};

    /// A link over a wire. It agrees with each world that the pages of its wire say.
    pub fn new(alloc: Global, wire: W) -> HttpLink<W>
        ensures faults { ⟦<HttpLink<W> as Link>⟧.faults result ≡ 0 }
        ensures asked { ⟦<HttpLink<W> as Link>⟧.asked result ≡ 0 }
        ensures closed { ⟦<HttpLink<W> as Link>⟧.open_file result ≡ None }
        ensures agrees { (w : Rows) → PagesTell (W.pages wire) w → ⟦<HttpLink<W> as Link>⟧.agrees result w }
    {
        HttpLink {
            wire,
            buffer: Vec::new(alloc),
            asked: 0,
            faults: 0,
            reading: None,
        }
    }

    /// How often it was asked by `get` or `open`.
    pub fn asked(&self) -> u64
        ensures { result ≡ ⟦<HttpLink<W> as Link>⟧.asked self.now }
    {
        self.asked
    }

    /// A `get` or an `open` begins, which closes an open file.
    fn begin(&mut self)
        ensures { self.new ≡ record self.old { asked = counted self.old.asked; reading = None } }
    {
        self.asked = self.asked.saturating_add(1);
        self.reading = None;
    }

    /// The answer of a call, whose fault is counted where it has none.
    fn settle<T: Drop>(&mut self, found: Result<Option<T>, LinkErr>) -> Result<T, LinkErr>
        ensures result { result ≡ settled found }
        ensures cause { HasCause LinkErr.Failed self.old.faults self.new.faults result }
        ensures asked { self.new.asked ≡ self.old.asked }
        ensures wire { self.new.wire ≡ self.old.wire }
        ensures reading { self.new.reading ≡ self.old.reading }
    {
        match found {
            Ok(Some(answer)) => Ok(answer),
            Err(LinkErr::NoMemory) => Err(LinkErr::NoMemory),
            Ok(None) | Err(LinkErr::Failed) => {
                self.faults = self.faults.saturating_add(1);
                Err(LinkErr::Failed)
            }
        }
    }

    /// What stands at a URL, with its reply so far.
    fn visit_url(
        &mut self,
        alloc: Global,
        address: &str,
        path: &str,
        limit: u64,
    ) -> Result<Visited, LinkErr>
        ensures room { OnOk result (length self.new.buffer.items ≡ 65536) }
        ensures asked { self.new.asked ≡ self.old.asked }
        ensures faults { self.new.faults ≡ self.old.faults }
        ensures reading { self.new.reading ≡ self.old.reading }
        ensures pages { W.pages self.new.wire ≡ W.pages self.old.wire }
        ensures visited { (told : Option (List PageRow)) → IsToldOf told (W.pages self.old.wire)
            → IfOk result (IsVisitedAt told (W.connection self.new.wire) limit (url_at address.now path.now)) }
        ensures later { W.faults self.old.wire ≤ W.faults self.new.wire }
        ensures cause { IsErrOf result LinkErr.Failed → Rose (W.faults self.old.wire) (W.faults self.new.wire) }
        ensures fault { IfOk result (IsFaultFound (W.pages self.old.wire) limit address.now path.now) }
        ensures unsent { is_http_address address.now ≡ false → self.new.wire ≡ self.old.wire }
        ensures elsewhere { is_http_address address.now ≡ false → IfOk result (λ visited. visited ≡ Visited.Fault) }
    {
        self.buffer.resize(PIECE_BYTES, 0)?;
        match place_of(alloc, address, path)? {
            None => Ok(Visited::Fault),
            Some(place) => {
                let visited = visit(
                    alloc,
                    &mut self.wire,
                    place,
                    limit,
                    self.buffer.as_mut_slice(),
                )?;
                Ok(visited)
            }
        }
    }

    /// What is left of a reply, appended to what has come.
    fn hear_all(&mut self, alloc: Global, opening: Opening) -> Result<Heard, LinkErr>
        requires room { length self.old.buffer.items ≡ 65536 }
        requires read { ReadsOn opening.ended opening.reader }
        ensures asked { self.new.asked ≡ self.old.asked }
        ensures faults { self.new.faults ≡ self.old.faults }
        ensures reading { self.new.reading ≡ self.old.reading }
        ensures pages { W.pages self.new.wire ≡ W.pages self.old.wire }
        ensures rest { (told : Option (List PageRow)) (limit : ℕ) (reply : Bytes) → IsToldOf told (W.pages self.old.wire)
            → IsTail told (W.connection self.old.wire) opening.reader limit reply opening.pending.items opening.ended
            → IfOk result (λ heard. IsEnded told limit reply heard.bytes.items heard.ended) }
        ensures later { W.faults self.old.wire ≤ W.faults self.new.wire }
        ensures cause { IsErrOf result LinkErr.Failed → Rose (W.faults self.old.wire) (W.faults self.new.wire) }
    {
        let Opening {
            mut reader,
            mut pending,
            ended,
        } = opening;
        match ended {
            Some(ended) => Ok(Heard {
                bytes: pending,
                ended,
            }),
            None => {
                let ended = hear_rest(
                    alloc,
                    &mut self.wire,
                    &mut reader,
                    self.buffer.as_mut_slice(),
                    &mut pending,
                )?;
                Ok(Heard {
                    bytes: pending,
                    ended,
                })
            }
        }
    }

    /// The whole file at a URL; nothing where its pages are at fault.
    fn got(
        &mut self,
        alloc: Global,
        address: &str,
        path: &str,
        limit: u64,
    ) -> Result<Option<Got>, LinkErr>
        ensures asked { self.new.asked ≡ self.old.asked }
        ensures faults { self.new.faults ≡ self.old.faults }
        ensures reading { self.new.reading ≡ self.old.reading }
        ensures pages { W.pages self.new.wire ≡ W.pages self.old.wire }
        ensures answer { (w : Rows) → IsFilePath path.now → PagesTell (W.pages self.old.wire) w
            → AnswersGet w (url_at address.now path.now) limit (settled result) }
        ensures within { IfOk (settled result) (FitsLimit limit) }
        ensures fault { IsErrOf (settled result) LinkErr.Failed → IsFaultOf (W.faults self.old.wire) (W.faults self.new.wire) (W.pages self.old.wire) limit address.now path.now }
        ensures unsent { is_http_address address.now ≡ false → self.new.wire ≡ self.old.wire }
    {
        within_limit();
        match self.visit_url(alloc, address, path, limit)? {
            Visited::Fault => Ok(None),
            Visited::Absent => Ok(Some(Got::Absent)),
            Visited::Opened(opening) => {
                let heard = self.hear_all(alloc, opening)?;
                Ok(got_of(heard))
            }
        }
    }

    /// Opens the file at a URL; nothing where its pages are at fault.
    fn opened(
        &mut self,
        alloc: Global,
        address: &str,
        path: &str,
        limit: u64,
    ) -> Result<Option<Opened>, LinkErr>
        requires { self.old.reading ≡ None }
        ensures asked { self.new.asked ≡ self.old.asked }
        ensures faults { self.new.faults ≡ self.old.faults }
        ensures pages { W.pages self.new.wire ≡ W.pages self.old.wire }
        ensures opened { option_map (λ reading. reading.file) self.new.reading ≡ file_after_open (url_at address.now path.now) limit (settled result) }
        ensures answer { (w : Rows) → IsFilePath path.now → PagesTell (W.pages self.old.wire) w
            → AnswersOpen w (url_at address.now path.now) (settled result) }
        ensures agrees { (w : Rows) → IsFilePath path.now → PagesTell (W.pages self.old.wire) w
            → ReadingAgrees (W.pages self.old.wire) (W.connection self.new.wire) w self.new.reading }
        ensures fault { IsErrOf (settled result) LinkErr.Failed → IsFaultOf (W.faults self.old.wire) (W.faults self.new.wire) (W.pages self.old.wire) limit address.now path.now }
        ensures unsent { is_http_address address.now ≡ false → self.new.wire ≡ self.old.wire }
    {
        content_grows();
        one_outcome();
        read_is_outcome();
        shown_is_seen();
        within_limit();
        let url = url_of(alloc, address, path)?;
        match self.visit_url(alloc, address, path, limit)? {
            Visited::Fault => Ok(None),
            Visited::Absent => Ok(Some(Opened::Absent)),
            Visited::Opened(opening) => {
                let file = OpenFile {
                    url,
                    limit,
                    given: 0,
                };
                self.reading = Some(reading_of(file, opening));
                Ok(Some(Opened::Ready))
            }
        }
    }

    /// The open file with a piece that waits, or with its end.
    fn refill(&mut self, alloc: Global, reading: Reading) -> Result<Reading, LinkErr>
        ensures asked { self.new.asked ≡ self.old.asked }
        ensures faults { self.new.faults ≡ self.old.faults }
        ensures reading { self.new.reading ≡ self.old.reading }
        ensures pages { W.pages self.new.wire ≡ W.pages self.old.wire }
        ensures file { IfOk result (λ now. now.file ≡ reading.file) }
        ensures ready { IfOk result (λ now. IsReady now.opening.pending.items now.opening.ended) }
        ensures agrees { (w : Rows) → FileAgrees (W.pages self.old.wire) (W.connection self.old.wire) w reading.file reading.opening.reader reading.opening.pending.items reading.opening.ended
            → IfOk result (λ now. FileAgrees (W.pages self.old.wire) (W.connection self.new.wire) w now.file now.opening.reader now.opening.pending.items now.opening.ended) }
        ensures cause { IsErrOf result LinkErr.Failed → Rose (W.faults self.old.wire) (W.faults self.new.wire) }
    {
        read_is_outcome();
        within_limit();
        if is_ready(&reading.opening) {
            return Ok(reading);
        }
        let Reading { file, opening } = reading;
        let Opening {
            mut reader,
            mut pending,
            ..
        } = opening;
        self.buffer.resize(PIECE_BYTES, 0)?;
        let step = hear_some(
            alloc,
            &mut self.wire,
            &mut reader,
            self.buffer.as_mut_slice(),
            &mut pending,
        )?;
        let opening = Opening {
            reader,
            pending,
            ended: step.ended(),
        };
        Ok(reading_of(file, opening))
    }

    /// Gives what waits of the open file, or its end; nothing where its reply is at fault.
    fn give(&mut self, reading: Reading, into: &mut Vec<u8>) -> Option<Next>
        requires empty { into.old.items ≡ [] }
        requires closed { self.old.reading ≡ None }
        requires ready { IsReady reading.opening.pending.items reading.opening.ended }
        ensures asked { self.new.asked ≡ self.old.asked }
        ensures faults { self.new.faults ≡ self.old.faults }
        ensures wire { self.new.wire ≡ self.old.wire }
        ensures moved { option_map (λ now. now.file) self.new.reading ≡ file_after_piece (Some reading.file) (settled (Ok result)) into.new.items }
        ensures within { IsWithinPiece reading.file (settled (Ok result)) into.new.items }
        ensures answer { (w : Rows) → PagesTell (W.pages self.old.wire) w → FileAgrees (W.pages self.old.wire) (W.connection self.old.wire) w reading.file reading.opening.reader reading.opening.pending.items reading.opening.ended
            → AnswersPiece w (Some reading.file) (settled (Ok result)) into.new.items }
        ensures fault { (w : Rows) → FileAgrees (W.pages self.old.wire) (W.connection self.old.wire) w reading.file reading.opening.reader reading.opening.pending.items reading.opening.ended
            → IsErrOf (settled (Ok result)) LinkErr.Failed → SaysFault (W.pages self.old.wire) reading.file.limit reading.file.url }
        ensures agrees { (w : Rows) → FileAgrees (W.pages self.old.wire) (W.connection self.old.wire) w reading.file reading.opening.reader reading.opening.pending.items reading.opening.ended
            → ReadingAgrees (W.pages self.old.wire) (W.connection self.old.wire) w self.new.reading }
    {
        content_grows();
        one_outcome();
        read_is_outcome();
        shown_is_seen();
        let Reading { mut file, opening } = reading;
        let Opening {
            reader,
            mut pending,
            ended,
        } = opening;
        if pending.is_empty() {
            return end_of(ended);
        }
        file.given += pending.as_slice().len() as u64;
        std::mem::swap(into, &mut pending);
        let opening = Opening {
            reader,
            pending,
            ended,
        };
        self.reading = Some(reading_of(file, opening));
        Some(Next::Piece)
    }

    /// The next piece of the open file, or its end; nothing where its reply is at fault.
    fn next_of(
        &mut self,
        alloc: Global,
        reading: Reading,
        into: &mut Vec<u8>,
    ) -> Result<Option<Next>, LinkErr>
        requires empty { into.old.items ≡ [] }
        requires closed { self.old.reading ≡ None }
        ensures asked { self.new.asked ≡ self.old.asked }
        ensures faults { self.new.faults ≡ self.old.faults }
        ensures pages { W.pages self.new.wire ≡ W.pages self.old.wire }
        ensures moved { option_map (λ now. now.file) self.new.reading ≡ file_after_piece (Some reading.file) (settled result) into.new.items }
        ensures within { IsWithinPiece reading.file (settled result) into.new.items }
        ensures answer { (w : Rows) → PagesTell (W.pages self.old.wire) w → FileAgrees (W.pages self.old.wire) (W.connection self.old.wire) w reading.file reading.opening.reader reading.opening.pending.items reading.opening.ended
            → AnswersPiece w (Some reading.file) (settled result) into.new.items }
        ensures fault { (w : Rows) → FileAgrees (W.pages self.old.wire) (W.connection self.old.wire) w reading.file reading.opening.reader reading.opening.pending.items reading.opening.ended
            → IsErrOf (settled result) LinkErr.Failed → Rose (W.faults self.old.wire) (W.faults self.new.wire) ⊎ SaysFault (W.pages self.old.wire) reading.file.limit reading.file.url }
        ensures agrees { (w : Rows) → FileAgrees (W.pages self.old.wire) (W.connection self.old.wire) w reading.file reading.opening.reader reading.opening.pending.items reading.opening.ended
            → ReadingAgrees (W.pages self.old.wire) (W.connection self.new.wire) w self.new.reading }
    {
        let reading = self.refill(alloc, reading)?;
        Ok(self.give(reading, into))
    }
}

impl<W: Wire> Link for HttpLink<W> {
    ghost use Rattle.std.specs.Prelude.{◌⊎◌, List, ℕ, Option, IfOk, IsErrOf, IsOk, IsSome};
    ghost use Rattle.std.specs.Option.{ForSome, option_map};
    ghost use Rattle.res_base.specs.Causes.{HasCause, Rose, counted};
    ghost use Rattle.res_base.specs.Paths.{url_at};
    ghost use Rattle.link_base.specs.FilePaths.{IsFilePath};
    ghost use Rattle.link_base.specs.Links.{Rows, AnswersGet, AnswersOpen, AnswersPiece, FitsLimit, IsWithinPiece, LinkKept, failed_after, file_after_open, file_after_piece, url_of_file};
    ghost use Rattle.http_visits.specs.Addresses.{is_http_address};
    ghost use Rattle.http_link.specs.Agreement.{Agrees};
    ghost use Rattle.http_link.specs.Faults.{IsFaultOf, SaysFault};

    ghost agrees = { λ link w. Agrees (W.pages link.wire) (W.connection link.wire) link.reading w };

    ghost faults = { λ link. link.faults };

    ghost asked = { λ link. link.asked };

    ghost open_file = { λ link. option_map (λ reading. reading.file) link.reading };

    ghost failed_urls = { λ link. None };

    fn get(&mut self, alloc: Global, address: &str, path: &str, limit: u64) -> Result<Got, LinkErr>
        requires { IsFilePath path.now }
        ensures answer { (w : Rows) → Agrees (W.pages self.old.wire) (W.connection self.old.wire) self.old.reading w → AnswersGet w (url_at address.now path.now) limit result }
        ensures within { IfOk result (FitsLimit limit) }
        ensures cause { HasCause LinkErr.Failed self.old.faults self.new.faults result }
        ensures asked { self.new.asked ≡ counted self.old.asked }
        ensures closed { option_map (λ reading. reading.file) self.new.reading ≡ None }
        ensures failed { None ≡ failed_after None (url_at address.now path.now) result }
        ensures kept { LinkKept (λ link w. Agrees (W.pages link.wire) (W.connection link.wire) link.reading w) (λ link. link.faults) (λ link. link.asked) (λ link. None) self.old self.new }
        ensures fault { IsErrOf result LinkErr.Failed → IsFaultOf (W.faults self.old.wire) (W.faults self.new.wire) (W.pages self.old.wire) limit address.now path.now }
        ensures unsent { is_http_address address.now ≡ false → self.new.wire ≡ self.old.wire }
    {
        self.begin();
        let got = self.got(alloc, address, path, limit);
        self.settle(got)
    }

    fn open(
        &mut self,
        alloc: Global,
        address: &str,
        path: &str,
        limit: u64,
    ) -> Result<Opened, LinkErr>
        requires { IsFilePath path.now }
        ensures answer { (w : Rows) → Agrees (W.pages self.old.wire) (W.connection self.old.wire) self.old.reading w → AnswersOpen w (url_at address.now path.now) result }
        ensures cause { HasCause LinkErr.Failed self.old.faults self.new.faults result }
        ensures asked { self.new.asked ≡ counted self.old.asked }
        ensures opened { option_map (λ reading. reading.file) self.new.reading ≡ file_after_open (url_at address.now path.now) limit result }
        ensures failed { None ≡ failed_after None (url_at address.now path.now) result }
        ensures kept { LinkKept (λ link w. Agrees (W.pages link.wire) (W.connection link.wire) link.reading w) (λ link. link.faults) (λ link. link.asked) (λ link. None) self.old self.new }
        ensures fault { IsErrOf result LinkErr.Failed → IsFaultOf (W.faults self.old.wire) (W.faults self.new.wire) (W.pages self.old.wire) limit address.now path.now }
        ensures unsent { is_http_address address.now ≡ false → self.new.wire ≡ self.old.wire }
    {
        self.begin();
        let opened = self.opened(alloc, address, path, limit);
        self.settle(opened)
    }

    fn next_piece(&mut self, alloc: Global, into: &mut Vec<u8>) -> Result<Next, LinkErr>
        requires { IsSome (option_map (λ reading. reading.file) self.old.reading) }
        ensures answer { (w : Rows) → Agrees (W.pages self.old.wire) (W.connection self.old.wire) self.old.reading w → AnswersPiece w (option_map (λ reading. reading.file) self.old.reading) result into.new.items }
        ensures within { ForSome (option_map (λ reading. reading.file) self.old.reading) (λ file. IsWithinPiece file result into.new.items) }
        ensures cause { HasCause LinkErr.Failed self.old.faults self.new.faults result }
        ensures asked { self.new.asked ≡ self.old.asked }
        ensures moved { option_map (λ reading. reading.file) self.new.reading ≡ file_after_piece (option_map (λ reading. reading.file) self.old.reading) result into.new.items }
        ensures failed { None ≡ failed_after None (url_of_file (option_map (λ reading. reading.file) self.old.reading)) result }
        ensures kept { LinkKept (λ link w. Agrees (W.pages link.wire) (W.connection link.wire) link.reading w) (λ link. link.faults) (λ link. link.asked) (λ link. None) self.old self.new }
        ensures fault { (w : Rows) → Agrees (W.pages self.old.wire) (W.connection self.old.wire) self.old.reading w → IsErrOf result LinkErr.Failed
            → ForSome self.old.reading (λ reading. Rose (W.faults self.old.wire) (W.faults self.new.wire) ⊎ SaysFault (W.pages self.old.wire) reading.file.limit reading.file.url) }
    {
        into.clear();
        let Some(reading) = self.reading.take() else {
            unreachable!()
        };
        let next = self.next_of(alloc, reading, into);
        self.settle(next)
    }

    fn is_open(&self) -> bool {
        self.reading.is_some()
    }

    fn close_file(&mut self) {
        let _closed = self.reading.take();
    }
}
