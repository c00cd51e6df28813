//! A link in memory.
ghost use Rattle.std.specs.Prelude.{◌≡◌, [], ◌∷◌, ◌++◌, None, Some, IfOk, IsSome};
ghost use Rattle.std.specs.Option.{ForSome};
ghost use Rattle.res_base.specs.Causes.{counted, HasCause};
ghost use Rattle.link_base.specs.Links.{Rows, AnswersGet, AnswersOpen, AnswersPiece, FitsLimit, file_after_open, file_after_piece, failed_after, url_of_file, IsWithinPiece, LinkKept};
ghost use Rattle.link_base.specs.MemoryCalls.{HoldsAs, IsNextCall, is_to_fail, no_calls, with_call, with_fault};
ghost use Rattle.res_base.specs.Paths.{url_at};
ghost use Rattle.link_base.specs.OpenFiles.{IsInWorld};

use crate::memory_calls::Calls;
use crate::world_files::WorldFiles;
use crate::{Got, Link, LinkErr, Next, OpenFile, Opened};
use res_base::{List, NoMemory, Text, World, url_of};
use std::alloc::Global;

/// The greatest number of bytes in a piece.
const PIECE_BYTES: usize = 65536;

/// A link that gives the files of a world, and fails at the calls that it was told. Its calls of
/// `get`, `open` and `next_piece` are counted together, from 0.
#[derive(Drop)]
pub struct MemLink {
    files: WorldFiles,
    calls: Calls,
    asked: u64,
    failed: List<Text>,
    reading: Option<OpenFile>,
    ghost reads_world: { ForSome reading (λ file. IsInWorld files.world.rows file) },
}

impl MemLink {
    ghost use Rattle.link_base.specs.MemoryLinks.{calls_of, world_of};

    /// A link to a world that fails at the calls with these numbers.
    pub fn new(alloc: Global, world: World, failing: List<u64>) -> MemLink
        ensures agrees { ⟦<MemLink as Link>⟧.agrees result world.rows }
        ensures faults { ⟦<MemLink as Link>⟧.faults result ≡ 0 }
        ensures asked { ⟦<MemLink as Link>⟧.asked result ≡ 0 }
        ensures failed { ⟦<MemLink as Link>⟧.failed_urls result ≡ Some [] }
        ensures closed { ⟦<MemLink as Link>⟧.open_file result ≡ None }
        ensures world { world_of result ≡ world.rows }
        ensures calls { calls_of result ≡ no_calls failing }
    {
        MemLink {
            files: WorldFiles::new(alloc, world),
            calls: Calls::new(failing),
            asked: 0,
            failed: List::new(alloc),
            reading: None,
        }
    }

    /// How often it was asked by `get` or `open`.
    pub fn asked(&self) -> u64
        ensures { result ≡ ⟦<MemLink as Link>⟧.asked self.now }
    {
        self.asked
    }

    // A `get` or an `open` begins, which closes an open file. Says whether it is to fail.
    fn begin(&mut self) -> bool
        ensures fails { result ≡ is_to_fail self.old.calls }
        ensures asked { self.new.asked ≡ counted self.old.asked }
        ensures closed { self.new.reading ≡ None }
        ensures calls { self.new.calls ≡ with_call self.old.calls }
        ensures files { self.new.files ≡ self.old.files }
        ensures failed { self.new.failed ≡ self.old.failed }
    {
        self.asked = self.asked.saturating_add(1);
        self.reading = None;
        self.calls.next_fails()
    }

    // Notes that a call at a URL failed.
    fn fail(&mut self, url: Text) -> LinkErr
        ensures failed { result ≡ LinkErr.Failed
            → self.new ≡ record self.old { calls = with_fault self.old.calls; failed = self.old.failed ++ url ∷ [] } }
        ensures memory { result ≡ LinkErr.NoMemory → self.new ≡ self.old }
    {
        match self.failed.push(url) {
            Ok(()) => {
                self.calls.add_fault();
                LinkErr::Failed
            }
            Err(NoMemory) => LinkErr::NoMemory,
        }
    }
}

impl Link for MemLink {
    ghost use Rattle.link_base.specs.MemoryLinks.{AgreesWith, asked_of, calls_of, failed_of, faults_of, file_of, world_of};

    ghost agrees = { λ link w. HoldsAs link.files.world.rows w };

    ghost faults = { λ link. link.calls.faults };

    ghost asked = { λ link. link.asked };

    ghost open_file = { λ link. link.reading };

    ghost failed_urls = { λ link. Some link.failed };

    fn get(&mut self, alloc: Global, address: &str, path: &str, limit: u64) -> Result<Got, LinkErr>
        ensures answer { (w : Rows) → AgreesWith self.old w → AnswersGet w (url_at address.now path.now) limit result }
        ensures within { IfOk result (FitsLimit limit) }
        ensures cause { HasCause LinkErr.Failed (faults_of self.old) (faults_of self.new) result }
        ensures asked { asked_of self.new ≡ counted (asked_of self.old) }
        ensures closed { file_of self.new ≡ None }
        ensures failed { failed_of self.new ≡ failed_after (failed_of self.old) (url_at address.now path.now) result }
        ensures kept { LinkKept AgreesWith faults_of asked_of failed_of self.old self.new }
        ensures world { world_of self.new ≡ world_of self.old }
        ensures call { IsNextCall LinkErr.Failed (calls_of self.old) (calls_of self.new) result }
    {
        let fails = self.begin();
        let url = url_of(alloc, address, path)?;
        if fails {
            return Err(self.fail(url));
        }
        self.files.prepare(alloc)?;
        match self.files.at(&url) {
            None => Ok(Got::Absent),
            Some(bytes) => {
                if bytes.len() as u64 > limit {
                    Ok(Got::TooLarge)
                } else {
                    Ok(Got::Bytes(List::from_slice(alloc, bytes)?))
                }
            }
        }
    }

    fn open(
        &mut self,
        alloc: Global,
        address: &str,
        path: &str,
        limit: u64,
    ) -> Result<Opened, LinkErr>
        ensures answer { (w : Rows) → AgreesWith self.old w → AnswersOpen w (url_at address.now path.now) result }
        ensures cause { HasCause LinkErr.Failed (faults_of self.old) (faults_of self.new) result }
        ensures asked { asked_of self.new ≡ counted (asked_of self.old) }
        ensures opened { file_of self.new ≡ file_after_open (url_at address.now path.now) limit result }
        ensures failed { failed_of self.new ≡ failed_after (failed_of self.old) (url_at address.now path.now) result }
        ensures kept { LinkKept AgreesWith faults_of asked_of failed_of self.old self.new }
        ensures world { world_of self.new ≡ world_of self.old }
        ensures call { IsNextCall LinkErr.Failed (calls_of self.old) (calls_of self.new) result }
    {
        let fails = self.begin();
        let url = url_of(alloc, address, path)?;
        if fails {
            return Err(self.fail(url));
        }
        self.files.prepare(alloc)?;
        match self.files.at(&url) {
            None => Ok(Opened::Absent),
            Some(_) => {
                self.reading = Some(OpenFile {
                    url,
                    limit,
                    given: 0,
                });
                Ok(Opened::Ready)
            }
        }
    }

    fn next_piece(&mut self, alloc: Global, into: &mut Vec<u8>) -> Result<Next, LinkErr>
        requires { IsSome (file_of self.old) }
        ensures answer { (w : Rows) → AgreesWith self.old w → AnswersPiece w (file_of self.old) result into.new.items }
        ensures within { ForSome (file_of self.old) (λ file. IsWithinPiece file result into.new.items) }
        ensures cause { HasCause LinkErr.Failed (faults_of self.old) (faults_of self.new) result }
        ensures asked { asked_of self.new ≡ asked_of self.old }
        ensures moved { file_of self.new ≡ file_after_piece (file_of self.old) result into.new.items }
        ensures failed { failed_of self.new
            ≡ failed_after (failed_of self.old) (url_of_file (file_of self.old)) result }
        ensures kept { LinkKept AgreesWith faults_of asked_of failed_of self.old self.new }
        ensures world { world_of self.new ≡ world_of self.old }
        ensures call { IsNextCall LinkErr.Failed (calls_of self.old) (calls_of self.new) result }
    {
        into.clear();
        let Some(mut file) = self.reading.take() else {
            unreachable!()
        };
        if self.calls.next_fails() {
            return Err(self.fail(file.url));
        }
        self.files.prepare(alloc)?;
        let Some(bytes) = self.files.at(&file.url) else {
            unreachable!()
        };
        let rest = &bytes[file.given as usize..];
        if rest.is_empty() {
            return Ok(Next::End);
        }
        let room = file.limit - file.given;
        if room == 0 {
            return Ok(Next::TooLarge);
        }
        let count = rest.len().min(PIECE_BYTES).min(room as usize);
        into.extend_from_slice(&rest[..count])?;
        file.given += count as u64;
        self.reading = Some(file);
        Ok(Next::Piece)
    }

    fn is_open(&self) -> bool {
        self.reading.is_some()
    }

    fn close_file(&mut self)
        ensures closed { file_of self.new ≡ None }
        ensures faults { faults_of self.new ≡ faults_of self.old }
        ensures asked { asked_of self.new ≡ asked_of self.old }
        ensures failed { failed_of self.new ≡ failed_of self.old }
        ensures kept { LinkKept AgreesWith faults_of asked_of failed_of self.old self.new }
        ensures world { world_of self.new ≡ world_of self.old }
        ensures calls { calls_of self.new ≡ calls_of self.old }
    {
        let _closed = self.reading.take();
    }
}
