//! Links to repositories.
ghost use Rattle.std.specs.Prelude.{◌≡◌, ◌↔◌, List, ℕ, IfOk, None, IsSome, IsTrue, Option};
ghost use Rattle.std.specs.Option.{ForSome};
ghost use Rattle.res_base.specs.Causes.{HasCause, counted};
ghost use Rattle.link_base.specs.Links.{Rows, AnswersGet, AnswersOpen, AnswersPiece, FitsLimit, file_after_open, file_after_piece, failed_after, url_of_file, IsWithinPiece, LinkKept};
ghost use Rattle.link_base.specs.FilePaths.{IsFilePath};
ghost use Rattle.link_base.specs.declared.links.OpenFile.{OpenFile};
ghost use Rattle.res_base.specs.Paths.{url_at};

use crate::LinkErr;
use res_base::{List, Text};
use std::alloc::Global;

/// A file that a link gives in pieces: its URL, the limit that was set when it was opened, and the
/// number of bytes given since then.
#[derive(Debug, Drop)]
pub struct OpenFile {
    pub url: Text,
    pub limit: u64,
    pub given: u64,
}

/// What a link has at a URL: all its bytes, no file, or more bytes than the limit.
#[derive(Debug, Drop)]
pub enum Got {
    Bytes(List<u8>),
    Absent,
    TooLarge,
}

/// Whether there is a file to give in pieces.
#[derive(Clone, Copy, Debug, PartialEq, Eq)]
pub enum Opened {
    Ready,
    Absent,
}

/// A piece of the open file was put into the buffer; or all its bytes were given; or as many bytes
/// as the limit allows were given, and a further one stands there.
#[derive(Clone, Copy, Debug, PartialEq, Eq)]
pub enum Next {
    Piece,
    End,
    TooLarge,
}

/// Files by their URLs. The URL of a path at an address is the address, a slash and the path.
///
/// A link counts its faults, and the `get` and `open` calls that it was asked. Both counts stay at
/// their greatest value. It has at most one open file.
pub trait Link: Drop {
    /// It answers what this world holds.
    ghost agrees: { Self → Rows → Type 0 };

    /// How often it failed.
    ghost faults: { Self → ℕ };

    /// How often `get` and `open` were called.
    ghost asked: { Self → ℕ };

    ghost open_file: { Self → Option OpenFile };

    /// The URLs of its calls that failed, in order, where it tells them.
    ghost failed_urls: { Self → Option (List (List ℕ)) };

    /// The whole file at a URL. An open file is closed.
    fn get(&mut self, alloc: Global, address: &str, path: &str, limit: u64) -> Result<Got, LinkErr>
        requires { IsFilePath path.now }
        ensures answer { (w : Rows) → agrees self.old w → AnswersGet w (url_at address.now path.now) limit result }
        ensures within { IfOk result (FitsLimit limit) }
        ensures cause { HasCause LinkErr.Failed (faults self.old) (faults self.new) result }
        ensures asked { asked self.new ≡ counted (asked self.old) }
        ensures closed { open_file self.new ≡ None }
        ensures failed { failed_urls self.new
            ≡ failed_after (failed_urls self.old) (url_at address.now path.now) result }
        ensures kept { LinkKept agrees faults asked failed_urls self.old self.new };

    /// Opens the file at a URL, to be given in pieces. An earlier open file is closed.
    fn open(
        &mut self,
        alloc: Global,
        address: &str,
        path: &str,
        limit: u64,
    ) -> Result<Opened, LinkErr>
        requires { IsFilePath path.now }
        ensures answer { (w : Rows) → agrees self.old w → AnswersOpen w (url_at address.now path.now) result }
        ensures cause { HasCause LinkErr.Failed (faults self.old) (faults self.new) result }
        ensures asked { asked self.new ≡ counted (asked self.old) }
        ensures opened { open_file self.new ≡ file_after_open (url_at address.now path.now) limit result }
        ensures failed { failed_urls self.new
            ≡ failed_after (failed_urls self.old) (url_at address.now path.now) result }
        ensures kept { LinkKept agrees faults asked failed_urls self.old self.new };

    /// Empties the buffer, and puts the next 1 to 65,536 bytes of the open file there. After any
    /// other answer the buffer is empty and no file is open.
    fn next_piece(&mut self, alloc: Global, into: &mut Vec<u8>) -> Result<Next, LinkErr>
        requires { IsSome (open_file self.old) }
        ensures answer { (w : Rows) → agrees self.old w → AnswersPiece w (open_file self.old) result into.new.items }
        ensures within { ForSome (open_file self.old) (λ file. IsWithinPiece file result into.new.items) }
        ensures cause { HasCause LinkErr.Failed (faults self.old) (faults self.new) result }
        ensures asked { asked self.new ≡ asked self.old }
        ensures moved { open_file self.new ≡ file_after_piece (open_file self.old) result into.new.items }
        ensures failed { failed_urls self.new
            ≡ failed_after (failed_urls self.old) (url_of_file (open_file self.old)) result }
        ensures kept { LinkKept agrees faults asked failed_urls self.old self.new };

    fn is_open(&self) -> bool
        ensures { IsTrue result ↔ IsSome (open_file self.now) };

    fn close_file(&mut self)
        ensures closed { open_file self.new ≡ None }
        ensures faults { faults self.new ≡ faults self.old }
        ensures asked { asked self.new ≡ asked self.old }
        ensures failed { failed_urls self.new ≡ failed_urls self.old }
        ensures kept { LinkKept agrees faults asked failed_urls self.old self.new };
}
